//! Scans of words of sections, one word at a time, in the segments that have a needed row (BitWeaving/H: Li and Patel,
//! SIGMOD 2013).

ghost use Rattle.std.specs.Prelude.{Bool, false, length, nat_lt, ℕ, ◌&&◌, ◌*◌, ◌+◌, ◌<◌, ◌^◌, ◌≡◌, ◌≤◌};
ghost use Rattle.std.specs.List.{All};
ghost use Rattle.bw_lane.specs.Sections.{IsStored, on};
ghost use Rattle.bw_mask.specs.Masks.{SameShape, len, row_at};
ghost use Rattle.bw_code.specs.Tests.{TestFits, meets};
ghost use Rattle.bw_code.specs.Units.{by_words, scan_units, segment_units, segments_of};
ghost use Rattle.bw_code.specs.Widths.{widest_half};
ghost use Rattle.bw_horizontal.specs.Prepared.{asked};
ghost use Rattle.bw_horizontal.specs.Words.{AreDelimiters, AreSegments, code_at, code_in, segment_rows};

use crate::gather::{finish, gather};
use crate::word_test::{Prepared, WordTest, prepare};
use bw_code::{CodeTest, Source};
use bw_lane::SectionMasks;
use bw_mask::Mask;

/// The rows of segment q whose code meets the test, the first row in bit 0.
fn rows_meeting<S: Source<u64>, T: WordTest>(source: &mut S, width: u32, q: usize, test: T) -> u64
    requires narrow { width ≤ widest_half }
    requires small { q < 2 ^ 32 }
    requires there { (q + 1) * (width + 1) ≤ length (S.units source.old) }
    requires stored { All (IsStored width) (S.units source.old) }
    requires few { S.reads source.old + (width + 1) ≤ 2 ^ 63 }
    ensures units { S.units source.new ≡ S.units source.old }
    ensures reads { S.reads source.new ≡ S.reads source.old + (width + 1) }
    ensures rows { (passes : ℕ → Bool) → ((word : ℕ) → IsStored width word → AreDelimiters width passes word (T.marked test word)) → (r : ℕ) → on result r ≡ (nat_lt r (segment_rows width) && passes (code_at width (S.units source.old) q r)) }
{
    let words = width as usize + 1;
    let mut rows = 0;
    for i in 0..words {
        let word = source.read(q * words + i);
        rows |= test.marked(word) >> (width - i as u32);
    }
    rows
}

/// The rows of segment q that meet a prepared test.
fn rows_asked<S: Source<u64>>(source: &mut S, width: u32, q: usize, test: Prepared) -> u64
    requires narrow { width ≤ widest_half }
    requires small { q < 2 ^ 32 }
    requires there { (q + 1) * (width + 1) ≤ length (S.units source.old) }
    requires stored { All (IsStored width) (S.units source.old) }
    requires few { S.reads source.old + (width + 1) ≤ 2 ^ 63 }
    ensures units { S.units source.new ≡ S.units source.old }
    ensures reads { S.reads source.new ≡ S.reads source.old + (width + 1) }
    ensures rows { (passes : ℕ → Bool) → ((word : ℕ) → IsStored width word → AreDelimiters width passes word (asked test word)) → (r : ℕ) → on result r ≡ (nat_lt r (segment_rows width) && passes (code_at width (S.units source.old) q r)) }
{
    match test {
        Prepared::Compared(test) => rows_meeting(source, width, q, test),
        Prepared::Between(test) => rows_meeting(source, width, q, test),
    }
}

/// The needed rows of segment q that meet the test.
fn segment<S: Source<u64>>(
    source: &mut S,
    width: u32,
    q: usize,
    test: CodeTest,
    prepared: Prepared,
    need: u64,
) -> u64
    requires narrow { width ≤ widest_half }
    requires prepared { (word : ℕ) → IsStored width word → AreDelimiters width (meets test) word (asked prepared word) }
    requires small { q < 2 ^ 32 }
    requires there { (q + 1) * (width + 1) ≤ length (S.units source.old) }
    requires stored { All (IsStored width) (S.units source.old) }
    requires few { S.reads source.old + (width + 1) ≤ 2 ^ 63 }
    requires need { (r : ℕ) → segment_rows width ≤ r → on need r ≡ false }
    ensures units { S.units source.new ≡ S.units source.old }
    ensures reads { S.reads source.new ≡ S.reads source.old + segment_units (by_words width) test (on need) (code_at width (S.units source.old) q) }
    ensures rows { (r : ℕ) → r < segment_rows width → on result r ≡ (on need r && meets test (code_at width (S.units source.old) q r)) }
    ensures clean { (r : ℕ) → segment_rows width ≤ r → on result r ≡ false }
{
    match test {
        CodeTest::None => 0,
        CodeTest::All => need,
        _ if need == 0 => 0,
        _ => need & rows_asked(source, width, q, prepared),
    }
}

/// Scans words of sections: `out` becomes the needed rows whose code meets the test. The number of units read is
/// `scan_units`: all words of each segment with a needed row. Unit q * (width + 1) + i is word i of segment q.
pub fn scan_from<S: Source<u64>>(
    source: &mut S,
    width: u32,
    test: CodeTest,
    need: &Mask,
    out: &mut Mask,
)
    requires narrow { width ≤ widest_half }
    requires test { TestFits width test }
    requires few { len need.now ≤ 2 ^ 24 }
    requires out { len out.old ≡ len need.now }
    requires units { AreSegments width (segments_of (segment_rows width) (len need.now)) (S.units source.old) }
    requires reads { S.reads source.old ≤ 2 ^ 62 }
    ensures units { S.units source.new ≡ S.units source.old }
    ensures reads { S.reads source.new ≡ S.reads source.old + scan_units (by_words width) test (row_at need.now) (code_in width (S.units source.old)) (segments_of (segment_rows width) (len need.now)) }
    ensures shape { SameShape out.new out.old }
    ensures rows { (j : ℕ) → row_at out.new j ≡ (row_at need.now j && meets test (code_in width (S.units source.old) j)) }
{
    let prepared = prepare(&SectionMasks::new(width), test);
    let words = width as usize + 1;
    let rows = words * (64 / words);
    let segments = need.len().div_ceil(rows);
    let mut rest = 0;
    for q in 0..segments {
        let here = need.bits(rows * q, rows);
        let found = segment(source, width, q, test, prepared, here);
        rest = gather(out, rows * q, rest, rows, found);
    }
    finish(out, rows * segments, rest);
}
