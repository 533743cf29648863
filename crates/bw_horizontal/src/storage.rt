//! The words of a column: room for rows, writing codes and reading them.

ghost use Rattle.std.specs.Prelude.{All, length, slice_index, vec_capacity, vec_len, ℕ, ◌*◌, ◌+◌, ◌<◌, ◌^◌, ◌≡◌, ◌≤◌};
ghost use Rattle.bw_lane.specs.Sections.{IsStored};
ghost use Rattle.bw_code.specs.Columns.{Fit};
ghost use Rattle.bw_code.specs.Units.{segments_of};
ghost use Rattle.bw_code.specs.Widths.{widest_half};
ghost use Rattle.bw_horizontal.specs.Words.{code_in, segment_rows, word_of};

use crate::full_words::{self, FULL};
use crate::place::Place;

/// The least width of codes that are written and read run by run.
const LEAST_IN_RUNS: u32 = 6;

/// How many words `rows` rows take.
pub(crate) fn words_for(width: u32, rows: usize) -> usize
    requires narrow { width ≤ widest_half }
    requires few { rows ≤ 2 ^ 24 }
    ensures { result ≡ segments_of (segment_rows width) rows * (width + 1) }
{
    let words = width as usize + 1;
    rows.div_ceil(words * (64 / words)) * words
}

/// Appends words of zeros until there are enough for `rows` rows, within the capacity.
pub(crate) fn fill_up(words: &mut Vec<u64>, width: u32, rows: usize)
    requires narrow { width ≤ widest_half }
    requires few { rows ≤ 2 ^ 24 }
    requires most { vec_len words.old ≤ segments_of (segment_rows width) rows * (width + 1) }
    requires room { segments_of (segment_rows width) rows * (width + 1) ≤ vec_capacity words.old }
    ensures capacity { vec_capacity words.old ≤ vec_capacity words.new }
    ensures len { vec_len words.new ≡ segments_of (segment_rows width) rows * (width + 1) }
    ensures words { (i : ℕ) → slice_index words.new.items i ≡ slice_index words.old.items i }
{
    let Ok(()) = words.resize(words_for(width, rows), 0) else {
        unreachable!()
    };
}

/// The codes of the rows from `at` on become these, row by row.
///
/// Kept separate from the loop over runs in the machine code too, so that this loop has the registers to itself.
#[inline(never)]
fn put_rows(words: &mut [u64], width: u32, at: usize, codes: &[u64])
    requires narrow { width ≤ widest_half }
    requires few { at + length codes.now ≤ 2 ^ 24 }
    requires fit { Fit width codes.now }
    requires there { (j : ℕ) → j < at + length codes.now → word_of width j < length words.old }
    requires stored { All (IsStored width) words.old }
    ensures stored { All (IsStored width) words.new }
    ensures put { (i : ℕ) → i < length codes.now → code_in width words.new (at + i) ≡ slice_index codes.now i }
    ensures other { (j : ℕ) → (at ≤ j → at + length codes.now ≤ j) → code_in width words.new j ≡ code_in width words.old j }
{
    let mut place = Place::of(width, at);
    for code in codes {
        place.put(words, *code);
        place = place.after(1);
    }
}

/// The codes of the rows from `at` on become these, run by run.
fn put_runs(words: &mut [u64], width: u32, at: usize, codes: &[u64])
    requires narrow { width ≤ widest_half }
    requires few { at + length codes.now ≤ 2 ^ 24 }
    requires fit { Fit width codes.now }
    requires there { (j : ℕ) → j < at + length codes.now → word_of width j < length words.old }
    requires stored { All (IsStored width) words.old }
    ensures stored { All (IsStored width) words.new }
    ensures put { (i : ℕ) → i < length codes.now → code_in width words.new (at + i) ≡ slice_index codes.now i }
    ensures other { (j : ℕ) → (at ≤ j → at + length codes.now ≤ j) → code_in width words.new j ≡ code_in width words.old j }
{
    let mut place = Place::of(width, at);
    let mut done = 0;
    'runs: while done < codes.len() {
        let n = place.run().min(codes.len() - done);
        place.put_run(words, &codes[done..done + n]);
        place = place.after(n);
        done += n;
    }
}

/// The codes of the rows from `at` on become these. Narrow codes have short runs, which do not pay off; the widest have
/// a word each.
pub(crate) fn put_codes(words: &mut [u64], width: u32, at: usize, codes: &[u64])
    requires narrow { width ≤ widest_half }
    requires few { at + length codes.now ≤ 2 ^ 24 }
    requires fit { Fit width codes.now }
    requires there { (j : ℕ) → j < at + length codes.now → word_of width j < length words.old }
    requires stored { All (IsStored width) words.old }
    ensures stored { All (IsStored width) words.new }
    ensures put { (i : ℕ) → i < length codes.now → code_in width words.new (at + i) ≡ slice_index codes.now i }
    ensures other { (j : ℕ) → (at ≤ j → at + length codes.now ≤ j) → code_in width words.new j ≡ code_in width words.old j }
{
    if width == FULL {
        full_words::write(words, at, codes);
    } else if width < LEAST_IN_RUNS {
        put_rows(words, width, at, codes);
    } else {
        put_runs(words, width, at, codes);
    }
}

/// Fills `out` with the codes of the rows from `at` on, row by row.
fn read_rows(words: &[u64], width: u32, at: usize, out: &mut [u64])
    requires narrow { width ≤ widest_half }
    requires few { at + length out.old ≤ 2 ^ 24 }
    requires there { (j : ℕ) → j < at + length out.old → word_of width j < length words.now }
    ensures { (i : ℕ) → i < length out.old → slice_index out.new i ≡ code_in width words.now (at + i) }
{
    let mut place = Place::of(width, at);
    for code in out.iter_mut() {
        *code = place.code(words);
        place = place.after(1);
    }
}

/// Fills `out` with the codes of the rows from `at` on, run by run.
fn read_runs(words: &[u64], width: u32, at: usize, out: &mut [u64])
    requires narrow { width ≤ widest_half }
    requires few { at + length out.old ≤ 2 ^ 24 }
    requires there { (j : ℕ) → j < at + length out.old → word_of width j < length words.now }
    ensures { (i : ℕ) → i < length out.old → slice_index out.new i ≡ code_in width words.now (at + i) }
{
    let mut place = Place::of(width, at);
    let mut done = 0;
    'runs: while done < out.len() {
        let n = place.run().min(out.len() - done);
        place.codes(words, &mut out[done..done + n]);
        place = place.after(n);
        done += n;
    }
}

/// Fills `out` with the codes of the rows from `at` on. Narrow codes have short runs, which do not pay off; the widest
/// have a word each.
pub(crate) fn read_codes(words: &[u64], width: u32, at: usize, out: &mut [u64])
    requires narrow { width ≤ widest_half }
    requires few { at + length out.old ≤ 2 ^ 24 }
    requires there { (j : ℕ) → j < at + length out.old → word_of width j < length words.now }
    requires stored { All (IsStored width) words.now }
    ensures { (i : ℕ) → i < length out.old → slice_index out.new i ≡ code_in width words.now (at + i) }
{
    if width == FULL {
        full_words::read(words, at, out);
    } else if width < LEAST_IN_RUNS {
        read_rows(words, width, at, out);
    } else {
        read_runs(words, width, at, out);
    }
}
