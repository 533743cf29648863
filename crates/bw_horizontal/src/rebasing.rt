//! Rebasing codes in place: a constant is added to all codes of a word at once.

ghost use Rattle.std.specs.Prelude.{if◌then◌else◌, length, slice_index, ℕ, ◌%◌, ◌*◌, ◌+◌, ◌-◌, ◌<◌, ◌^◌, ◌≡◌, ◌≤◌};
ghost use Rattle.std.specs.List.{All};
ghost use Rattle.bw_mask.specs.Masks.{bit_of, len as mask_len, row_at};
ghost use Rattle.bw_lane.specs.Sections.{IsStored, section_of, sections_in};
ghost use Rattle.bw_code.specs.Units.{segments_of};
ghost use Rattle.bw_code.specs.Widths.{widest_half};
ghost use Rattle.bw_horizontal.specs.Words.{code_in, segment_rows};

use crate::blending::blended;
use bw_lane::SectionMasks;
use bw_mask::Mask;

/// The lowest bits of a number, as many as a code has.
fn low_code(number: u64, width: u32) -> u32
    requires { width ≤ widest_half }
    ensures { result ≡ number % 2 ^ width }
{
    (number % (1_u64 << width)) as u32
}

/// The greatest code: all its bits are set.
fn greatest_code(width: u32) -> u32
    requires { width ≤ widest_half }
    ensures { result ≡ 2 ^ width - 1 }
{
    ((1_u64 << width) - 1) as u32
}

/// The sum of the codes of two words, section by section, modulo 2^width.
fn sums(masks: SectionMasks, word: u64, more: u64) -> u64
    requires word { IsStored masks.width word }
    requires more { IsStored masks.width more }
    ensures stored { IsStored masks.width result }
    ensures each { (t : ℕ) → t < sections_in masks.width → section_of masks.width t result ≡ (section_of masks.width t word + section_of masks.width t more) % 2 ^ masks.width }
{
    // A carry out of a code stays in its section's delimiter, which is cleared.
    (word + more) & masks.constant(greatest_code(masks.width))
}

/// Adds the code of each section of `more` to those rows of the segment whose bit is set, modulo 2^width; bit 0 is the
/// segment's first row.
fn shift_segment(segment: &mut [u64], masks: SectionMasks, rows: u64, more: u64)
    requires some { 1 ≤ masks.width }
    requires narrow { masks.width ≤ widest_half }
    requires words { length segment.old ≡ masks.width + 1 }
    requires stored { All (IsStored masks.width) segment.old }
    requires more { IsStored masks.width more }
    ensures len { length segment.new ≡ length segment.old }
    ensures stored { All (IsStored masks.width) segment.new }
    ensures codes { (i t : ℕ) → i < masks.width + 1 → t < sections_in masks.width → section_of masks.width t (slice_index segment.new i)
        ≡ (section_of masks.width t (slice_index segment.old i) + (if bit_of rows (i + t * (masks.width + 1)) then section_of masks.width t more else 0)) % 2 ^ masks.width }
{
    for i in 0..segment.len() {
        let word = segment[i];
        segment[i] = blended(masks, word, sums(masks, word, more), rows >> i);
    }
}

/// Adds `by` to the code of each of the rows, modulo 2^width.
pub(crate) fn shift_codes(words: &mut [u64], width: u32, rows: &Mask, by: u64)
    requires some { 1 ≤ width }
    requires narrow { width ≤ widest_half }
    requires few { mask_len rows.now ≤ 2 ^ 24 }
    requires count { length words.old ≡ segments_of (segment_rows width) (mask_len rows.now) * (width + 1) }
    requires stored { All (IsStored width) words.old }
    ensures len { length words.new ≡ length words.old }
    ensures stored { All (IsStored width) words.new }
    ensures codes { (j : ℕ) → code_in width words.new j ≡ (code_in width words.old j + (if row_at rows.now j then by else 0)) % 2 ^ width }
{
    let masks = SectionMasks::new(width);
    let more = masks.constant(low_code(by, width));
    let words_in = width as usize + 1;
    let rows_in = words_in * (64 / words_in);
    for q in 0..words.len() / words_in {
        let first = q * words_in;
        let segment = &mut words[first..first + words_in];
        shift_segment(segment, masks, rows.bits(q * rows_in, rows_in), more);
    }
}
