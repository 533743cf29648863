//! Scans of two lists of words of sections side by side, one word of each at a time, in the segments that have a needed
//! row (BitWeaving/H: Li and Patel, SIGMOD 2013).

ghost use Rattle.std.specs.Prelude.{false, length, nat_lt, ℕ, ◌&&◌, ◌*◌, ◌+◌, ◌<◌, ◌^◌, ◌≡◌, ◌≤◌};
ghost use Rattle.std.specs.List.{All};
ghost use Rattle.bw_lane.specs.Sections.{IsStored, holds, on};
ghost use Rattle.bw_mask.specs.Masks.{SameShape, len, row_at};
ghost use Rattle.bw_code.specs.Tests.{code_compares};
ghost use Rattle.bw_code.specs.Units.{by_words, cost_of, segments_of, side_units};
ghost use Rattle.bw_code.specs.Widths.{widest_half};
ghost use Rattle.bw_horizontal.specs.Words.{AreSegments, code_at, code_in, segment_rows};

use crate::gather::{finish, gather};
use crate::word_test::lane_op;
use bw_code::{CmpOp, Source};
use bw_lane::{LaneOp, SectionMasks};
use bw_mask::Mask;

/// The rows of segment q whose codes satisfy the comparison, the first row in bit 0.
fn rows_comparing<A: Source<u64>, B: Source<u64>>(
    a: &mut A,
    b: &mut B,
    masks: &SectionMasks,
    q: usize,
    op: LaneOp,
) -> u64
    requires small { q < 2 ^ 32 }
    requires there { (q + 1) * (masks.now.width + 1) ≤ length (A.units a.old) }
    requires other_there { (q + 1) * (masks.now.width + 1) ≤ length (B.units b.old) }
    requires stored { All (IsStored masks.now.width) (A.units a.old) }
    requires other_stored { All (IsStored masks.now.width) (B.units b.old) }
    requires few { A.reads a.old + (masks.now.width + 1) ≤ 2 ^ 63 }
    requires other_few { B.reads b.old + (masks.now.width + 1) ≤ 2 ^ 63 }
    ensures units { A.units a.new ≡ A.units a.old }
    ensures other_units { B.units b.new ≡ B.units b.old }
    ensures reads { A.reads a.new ≡ A.reads a.old + (masks.now.width + 1) }
    ensures other_reads { B.reads b.new ≡ B.reads b.old + (masks.now.width + 1) }
    ensures rows { (r : ℕ) → on result r ≡ (nat_lt r (segment_rows masks.now.width)
        && holds op (code_at masks.now.width (A.units a.old) q r) (code_at masks.now.width (B.units b.old) q r)) }
{
    let words = masks.width as usize + 1;
    let mut rows = 0;
    for i in 0..words {
        let x = a.read(q * words + i);
        let y = b.read(q * words + i);
        rows |= masks.compare(op, x, y) >> (masks.width - i as u32);
    }
    rows
}

/// The needed rows of segment q whose codes satisfy the comparison.
fn segment<A: Source<u64>, B: Source<u64>>(
    a: &mut A,
    b: &mut B,
    masks: &SectionMasks,
    q: usize,
    op: LaneOp,
    need: u64,
) -> u64
    requires small { q < 2 ^ 32 }
    requires there { (q + 1) * (masks.now.width + 1) ≤ length (A.units a.old) }
    requires other_there { (q + 1) * (masks.now.width + 1) ≤ length (B.units b.old) }
    requires stored { All (IsStored masks.now.width) (A.units a.old) }
    requires other_stored { All (IsStored masks.now.width) (B.units b.old) }
    requires few { A.reads a.old + (masks.now.width + 1) ≤ 2 ^ 63 }
    requires other_few { B.reads b.old + (masks.now.width + 1) ≤ 2 ^ 63 }
    requires need { (r : ℕ) → segment_rows masks.now.width ≤ r → on need r ≡ false }
    ensures units { A.units a.new ≡ A.units a.old }
    ensures other_units { B.units b.new ≡ B.units b.old }
    ensures reads { A.reads a.new ≡ A.reads a.old + cost_of (by_words masks.now.width) (on need) (λ r. 0) }
    ensures other_reads { B.reads b.new ≡ B.reads b.old + cost_of (by_words masks.now.width) (on need) (λ r. 0) }
    ensures rows { (r : ℕ) → r < segment_rows masks.now.width → on result r
        ≡ (on need r && holds op (code_at masks.now.width (A.units a.old) q r) (code_at masks.now.width (B.units b.old) q r)) }
    ensures clean { (r : ℕ) → segment_rows masks.now.width ≤ r → on result r ≡ false }
{
    if need == 0 {
        return 0;
    }
    need & rows_comparing(a, b, masks, q, op)
}

/// Scans the words of sections of two columns: `out` becomes the needed rows whose codes satisfy the comparison, the
/// first column's on the left. The number of units read of each is `side_units`: all words of each segment with a
/// needed row. Unit q * (width + 1) + i is word i of segment q.
pub fn pair_from<A: Source<u64>, B: Source<u64>>(
    a: &mut A,
    b: &mut B,
    width: u32,
    op: CmpOp,
    need: &Mask,
    out: &mut Mask,
)
    requires narrow { width ≤ widest_half }
    requires few { len need.now ≤ 2 ^ 24 }
    requires out { len out.old ≡ len need.now }
    requires units { AreSegments width (segments_of (segment_rows width) (len need.now)) (A.units a.old) }
    requires other_units { AreSegments width (segments_of (segment_rows width) (len need.now)) (B.units b.old) }
    requires reads { A.reads a.old ≤ 2 ^ 62 }
    requires other_reads { B.reads b.old ≤ 2 ^ 62 }
    ensures units { A.units a.new ≡ A.units a.old }
    ensures other_units { B.units b.new ≡ B.units b.old }
    ensures reads { A.reads a.new ≡ A.reads a.old + side_units (by_words width) (row_at need.now) (code_in width (A.units a.old)) (code_in width (B.units b.old)) (segments_of (segment_rows width) (len need.now)) }
    ensures other_reads { B.reads b.new ≡ B.reads b.old + side_units (by_words width) (row_at need.now) (code_in width (A.units a.old)) (code_in width (B.units b.old)) (segments_of (segment_rows width) (len need.now)) }
    ensures shape { SameShape out.new out.old }
    ensures rows { (j : ℕ) → row_at out.new j ≡ (row_at need.now j && code_compares op (code_in width (A.units a.old) j) (code_in width (B.units b.old) j)) }
{
    let masks = SectionMasks::new(width);
    let lane = lane_op(op);
    let words = width as usize + 1;
    let rows = words * (64 / words);
    let segments = need.len().div_ceil(rows);
    let mut rest = 0;
    for q in 0..segments {
        let found = segment(a, b, &masks, q, lane, need.bits(rows * q, rows));
        rest = gather(out, rows * q, rest, rows, found);
    }
    finish(out, rows * segments, rest);
}
