//! Sums of a dictionary's values: a code is the index of an entry.

ghost use Rattle.std.specs.Prelude.{All, Bool, List, Option, drop, if◌then◌else◌, length, pos, slice_index, slice_index_or, take, unsigned_abs, ℕ, ℤ, ◌*◌, ◌+◌, ◌+ℤ◌, ◌<◌, ◌^◌, ◌≡◌, ◌≤◌};
ghost use Rattle.bw_mask.specs.Masks.{bit_of, len, row_at};
ghost use Rattle.bw_code.specs.Columns.{count};
ghost use Rattle.bw_code.specs.Encodings.{IsEncoding};
ghost use Rattle.bw_code.specs.declared.encoding.Encoding.TheVariants as by;
ghost use Rattle.bw_column.specs.Codes.{IsCoded};
ghost use Rattle.bw_cells.specs.SetFunctions.{total};
ghost use Rattle.bw_aggregate.specs.Chosen.{chosen};
ghost use Rattle.bw_aggregate.specs.Entries.{AreFound, AreSummed};
ghost use Rattle.bw_aggregate.specs.Runs.{value_total};

use bw_code::CodeColumn;
use bw_column::{Column, Storage};
use bw_mask::{Mask, has_bit};

/// The dictionary entry of row `i` of a run; 0 if the row isn't selected.
// Uses a product, since which rows are selected is unpredictable and a conditional would compile to a branch.
fn entry_in(entries: &[i64], codes: &[u64], rows: u64, i: usize) -> i64
    requires few { length codes.now ≤ 64 }
    requires there { i < length codes.now }
    requires found { All (λ code. code < length entries.now) codes.now }
    ensures { result ≡ (if bit_of rows i then slice_index_or entries.now (slice_index codes.now i) (pos 0) else pos 0) }
{
    entries[codes[i] as usize] * i64::from(has_bit(rows, i))
}

/// The sum of the entries of a run's selected rows.
fn entries_in(entries: &[i64], codes: &[u64], rows: u64) -> i128
    requires few { length codes.now ≤ 64 }
    requires found { All (λ code. code < length entries.now) codes.now }
    ensures total { (need : List Bool) (all : List (Option ℤ)) (at : ℕ) → AreSummed need all at entries.now codes.now rows → value_total need all (at + length codes.now) ≡ value_total need all at +ℤ result }
    ensures small { unsigned_abs result ≤ 64 * 2 ^ 63 }
{
    let mut total = 0;
    'codes: for i in 0..codes.len() {
        total += i128::from(entry_in(entries, codes, rows, i));
    }
    total
}

/// The sum of the entries of the selected rows among the n rows from `at` on. If none is selected, no code is read.
fn entries_at<C: CodeColumn>(column: &C, entries: &[i64], at: usize, n: usize, rows: u64) -> i128
    requires few { n ≤ 64 }
    requires inside { at + n ≤ count (C.seen column.now) }
    requires found { All (λ code. code < length entries.now) (C.seen column.now).codes }
    ensures total { (need : List Bool) (all : List (Option ℤ)) → AreSummed need all at entries.now (take n (drop at (C.seen column.now).codes)) rows → value_total need all (at + n) ≡ value_total need all at +ℤ result }
    ensures small { unsigned_abs result ≤ 64 * 2 ^ 63 }
{
    if rows == 0 {
        return 0;
    }
    let mut run = [0; 64];
    let codes = &mut run[..n];
    column.read(at, codes);
    entries_in(entries, codes, rows)
}

/// The sum of the non-null values of the rows, looked up in the entries and read in runs.
fn sum_in_runs<C: CodeColumn>(column: &C, entries: &[i64], rows: &Mask, nonnull: &Mask) -> i128
    requires len { len rows.now ≡ count (C.seen column.now) }
    requires nonnull_len { len nonnull.now ≡ count (C.seen column.now) }
    requires found { All (λ code. code < length entries.now) (C.seen column.now).codes }
    ensures { (all : List (Option ℤ)) → length all ≡ count (C.seen column.now) → AreFound all entries.now (C.seen column.now).codes (row_at nonnull.now)
        → result ≡ value_total rows.now.rows all (count (C.seen column.now)) }
{
    let mut total = 0;
    'runs: for q in 0..column.len().div_ceil(64) {
        let at = 64 * q;
        let n = (column.len() - at).min(64);
        let known = rows.bits(at, 64) & nonnull.bits(at, 64);
        total += entries_at(column, entries, at, n, known);
    }
    total
}

/// The sum of the values of the rows, at least one of which is non-null. All values are among the entries.
pub(crate) fn sum_of_entries(column: &Column, entries: &[i64], rows: &Mask) -> i128
    requires len { len rows.now ≡ length column.now.values }
    requires encoding { column.now.encoding ≡ by.Dictionary entries.now }
    requires sound { IsEncoding column.now.encoding }
    requires coded { All (IsCoded column.now.encoding) column.now.values }
    requires some { 0 < length (chosen column.now rows.now) }
    ensures { result ≡ total (chosen column.now rows.now) }
{
    let nonnull = column.nonnull();
    match column.storage() {
        Storage::P(codes) => sum_in_runs(codes, entries, rows, nonnull),
        Storage::V(codes) => sum_in_runs(codes, entries, rows, nonnull),
        Storage::H(codes) => sum_in_runs(codes, entries, rows, nonnull),
        Storage::S(codes) => sum_in_runs(codes, entries, rows, nonnull),
    }
}
