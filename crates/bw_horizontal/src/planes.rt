//! The rows whose code has a bit set.

ghost use Rattle.std.specs.Prelude.{length, nat_lt, ℕ, ◌&&◌, ◌*◌, ◌+◌, ◌<◌, ◌≡◌, ◌≤◌};
ghost use Rattle.bw_lane.specs.Sections.{on};
ghost use Rattle.bw_mask.specs.Masks.{SameShape, bit_of, len, row_at};
ghost use Rattle.bw_horizontal.specs.Words.{AreDelimiters, AreWords, code_at, code_in, segment_rows};

use crate::gather::{finish, gather};
use bw_lane::{LaneOp, SectionMasks};
use bw_mask::Mask;

/// The delimiters of the sections whose code has bit i set.
fn with_bit(masks: &SectionMasks, i: u32, word: u64) -> u64
    requires bit { i < masks.now.width }
    ensures { AreDelimiters masks.now.width (λ code. bit_of code i) word result }
{
    let delimiters = masks.compare(LaneOp::Eq, 0, 0);
    word << (masks.width - i) & delimiters
}

/// The rows of segment q whose code has bit i set, the first row in bit 0.
fn rows_with_bit(words: &[u64], masks: &SectionMasks, q: usize, i: u32) -> u64
    requires bit { i < masks.now.width }
    requires there { (q + 1) * (masks.now.width + 1) ≤ length words.now }
    ensures { (r : ℕ) → on result r ≡ (nat_lt r (segment_rows masks.now.width) && bit_of (code_at masks.now.width words.now q r) i) }
{
    let count = masks.width as usize + 1;
    let mut rows = 0;
    for n in 0..count {
        rows |= with_bit(masks, i, words[q * count + n]) >> (masks.width - n as u32);
    }
    rows
}

/// `out` becomes the rows whose code has bit i set.
pub(crate) fn plane(words: &[u64], width: u32, i: u32, out: &mut Mask)
    requires words { AreWords width (len out.old) words.now }
    requires bit { i < width }
    ensures shape { SameShape out.new out.old }
    ensures rows { (r : ℕ) → row_at out.new r ≡ bit_of (code_in width words.now r) i }
{
    let masks = SectionMasks::new(width);
    let count = width as usize + 1;
    let rows = count * (64 / count);
    let segments = out.len().div_ceil(rows);
    let mut rest = 0;
    for q in 0..segments {
        let found = rows_with_bit(words, &masks, q, i);
        rest = gather(out, rows * q, rest, rows, found);
    }
    finish(out, rows * segments, rest);
}
