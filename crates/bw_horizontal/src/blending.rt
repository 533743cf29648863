//! Writing codes to some of 64 rows: all sections of a word at once.

ghost use Rattle.std.specs.Prelude.{false, if◌then◌else◌, length, slice_index, ℕ, ◌*◌, ◌+◌, ◌-◌, ◌/◌, ◌<◌, ◌^◌, ◌≡◌, ◌≤◌};
ghost use Rattle.std.specs.List.{All};
ghost use Rattle.bw_mask.specs.Masks.{bit_of};
ghost use Rattle.bw_lane.specs.Sections.{IsStored, section_of, sections_in};
ghost use Rattle.bw_code.specs.Columns.{Fit, is_chosen};
ghost use Rattle.bw_code.specs.Widths.{widest_half};
ghost use Rattle.bw_horizontal.specs.Words.{code_in, segment_rows, word_of};

use crate::full_words::{self, FULL};
use crate::place::Place;
use bw_lane::SectionMasks;

/// The word with the codes of some sections replaced by those of `new`: of the sections whose lowest bit is set in
/// `rows`.
pub(crate) fn blended(masks: SectionMasks, word: u64, new: u64, rows: u64) -> u64
    requires some { 1 ≤ masks.width }
    requires word { IsStored masks.width word }
    requires new { IsStored masks.width new }
    ensures stored { IsStored masks.width result }
    ensures each { (t : ℕ) → t < sections_in masks.width → section_of masks.width t result ≡ (if bit_of rows (t * (masks.width + 1)) then section_of masks.width t new else section_of masks.width t word) }
{
    let chosen = rows & masks.constant(1);
    // All bits of each chosen code.
    let bits = (chosen << masks.width) - chosen;
    word ^ ((word ^ new) & bits)
}

/// Some rows of the segment that these words are take the code of each section of `new`: the rows whose bit is set, bit 0
/// being the segment's first row.
fn fill_segment(segment: &mut [u64], masks: SectionMasks, rows: u64, new: u64)
    requires some { 1 ≤ masks.width }
    requires narrow { masks.width ≤ widest_half }
    requires words { length segment.old ≡ masks.width + 1 }
    requires stored { All (IsStored masks.width) segment.old }
    requires new { IsStored masks.width new }
    ensures len { length segment.new ≡ length segment.old }
    ensures stored { All (IsStored masks.width) segment.new }
    ensures codes { (i t : ℕ) → i < masks.width + 1 → t < sections_in masks.width → section_of masks.width t (slice_index segment.new i)
        ≡ (if bit_of rows (i + t * (masks.width + 1)) then section_of masks.width t new else section_of masks.width t (slice_index segment.old i)) }
{
    for i in 0..segment.len() {
        segment[i] = blended(masks, segment[i], new, rows >> i);
    }
}

/// The bits of the rows from `start` on, given those of the rows from `at` on.
fn rows_from(rows: u64, at: usize, start: usize) -> u64
    requires behind { at < start + 64 }
    requires before { start < at + 64 }
    ensures { (r : ℕ) → r < 64 → bit_of result r ≡ is_chosen at rows (start + r) }
{
    if start <= at {
        rows << (at - start)
    } else {
        rows >> (start - at)
    }
}

/// Row at + i takes code i where bit i of `rows` is set, run by run.
fn put_runs(words: &mut [u64], width: u32, at: usize, rows: u64, codes: &[u64])
    requires narrow { width ≤ widest_half }
    requires few { length codes.now ≤ 64 }
    requires within { at + length codes.now ≤ 2 ^ 24 }
    requires given { (i : ℕ) → length codes.now ≤ i → bit_of rows i ≡ false }
    requires fit { Fit width codes.now }
    requires there { (j : ℕ) → j < at + length codes.now → word_of width j < length words.old }
    requires stored { All (IsStored width) words.old }
    ensures len { length words.new ≡ length words.old }
    ensures stored { All (IsStored width) words.new }
    ensures codes { (j : ℕ) → code_in width words.new j ≡ (if is_chosen at rows j then slice_index codes.now (j - at) else code_in width words.old j) }
{
    let mut place = Place::of(width, at);
    let mut done = 0;
    'runs: while done < codes.len() {
        let n = place.run().min(codes.len() - done);
        place.put_chosen(words, rows >> done, &codes[done..done + n]);
        place = place.after(n);
        done += n;
    }
}

/// Row at + i takes the code where bit i of `rows` is set, segment by segment. No bit is set for rows from `end` on.
fn fill_segments(words: &mut [u64], width: u32, at: usize, end: usize, rows: u64, code: u64)
    requires some { 1 ≤ width }
    requires narrow { width ≤ widest_half }
    requires few { end ≤ 2 ^ 24 }
    requires end { end ≤ at + 64 }
    requires none { (j : ℕ) → end ≤ j → is_chosen at rows j ≡ false }
    requires fits { code < 2 ^ width }
    requires there { (q : ℕ) → q * segment_rows width < end → q * (width + 1) + (width + 1) ≤ length words.old }
    requires stored { All (IsStored width) words.old }
    ensures len { length words.new ≡ length words.old }
    ensures stored { All (IsStored width) words.new }
    ensures codes { (j : ℕ) → code_in width words.new j ≡ (if is_chosen at rows j then code else code_in width words.old j) }
{
    let masks = SectionMasks::new(width);
    let new = masks.constant(code as u32);
    let words_in = width as usize + 1;
    let rows_in = words_in * (64 / words_in);
    let mut q = at / rows_in;
    let mut start = q * rows_in;
    'segments: while start < end {
        let first = q * words_in;
        let segment = &mut words[first..first + words_in];
        let chosen = rows_from(rows, at, start);
        fill_segment(segment, masks, chosen, new);
        q += 1;
        start += rows_in;
    }
}

/// Row at + i takes code i where bit i of `rows` is set.
pub(crate) fn put_run(words: &mut [u64], width: u32, at: usize, rows: u64, codes: &[u64])
    requires narrow { width ≤ widest_half }
    requires few { length codes.now ≤ 64 }
    requires within { at + length codes.now ≤ 2 ^ 24 }
    requires given { (i : ℕ) → length codes.now ≤ i → bit_of rows i ≡ false }
    requires fit { Fit width codes.now }
    requires there { (j : ℕ) → j < at + length codes.now → word_of width j < length words.old }
    requires stored { All (IsStored width) words.old }
    ensures len { length words.new ≡ length words.old }
    ensures stored { All (IsStored width) words.new }
    ensures codes { (j : ℕ) → code_in width words.new j ≡ (if is_chosen at rows j then slice_index codes.now (j - at) else code_in width words.old j) }
{
    if width == FULL {
        full_words::put_run(words, at, rows, codes);
    } else {
        put_runs(words, width, at, rows, codes);
    }
}

/// Row at + i takes the code where bit i of `rows` is set. No bit is set for rows from `end` on.
pub(crate) fn fill_run(words: &mut [u64], width: u32, at: usize, end: usize, rows: u64, code: u64)
    requires some { 1 ≤ width }
    requires narrow { width ≤ widest_half }
    requires few { end ≤ 2 ^ 24 }
    requires begin { at ≤ end }
    requires end { end ≤ at + 64 }
    requires none { (j : ℕ) → end ≤ j → is_chosen at rows j ≡ false }
    requires fits { code < 2 ^ width }
    requires there { (q : ℕ) → q * segment_rows width < end → q * (width + 1) + (width + 1) ≤ length words.old }
    requires stored { All (IsStored width) words.old }
    ensures len { length words.new ≡ length words.old }
    ensures stored { All (IsStored width) words.new }
    ensures codes { (j : ℕ) → code_in width words.new j ≡ (if is_chosen at rows j then code else code_in width words.old j) }
{
    if width == FULL {
        full_words::fill_run(words, at, end, rows, code);
    } else {
        fill_segments(words, width, at, end, rows, code);
    }
}
