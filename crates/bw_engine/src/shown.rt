//! The values that a SELECT shows, read from the columns in runs of 64 slots.

ghost use Rattle.std.specs.Prelude.{All, IfOk, OnOk, length, map, min, ℕ, ◌+◌, ◌++◌, ◌-◌, ◌<◌, ◌^◌, ◌≡◌, ◌≤◌};
ghost use Rattle.bw_mask.specs.Masks.{bit_of, len, row_at};
ghost use Rattle.bw_sql.specs.Rows.{joined};
ghost use Rattle.bw_column.specs.Values as columns;
ghost use Rattle.bw_model.specs.Store.{value_at};
ghost use Rattle.bw_engine.specs.Found.{rows_where};
ghost use Rattle.bw_engine.specs.Runs.{AreRead, line_across, lines_from, slot_line};
ghost use Rattle.bw_engine.specs.Stores.{rows_of_slots};

use crate::found_cells::FEW;
use bw_column::Column;
use bw_mask::{Mask, has_bit};
use bw_sql::{Name, Value};
use bw_table::Table;
use std::alloc::{AllocError, Global};

/// The values of one column in 64 slots.
type Run = [Value; 64];

/// The values of the columns at these indexes in each found slot, slot after slot. Fails if it runs out of memory. It
/// allocates once for the values, and, if any slot is found, once for a run of each column.
pub(crate) fn found_values(
    alloc: Global,
    table: &Table<Name>,
    places: &[usize],
    found: &Mask,
) -> Result<Vec<Value>, AllocError>
    requires found { len found.now ≡ length table.now.slots }
    requires places { All (λ place. place < length table.now.headers) places.now }
    ensures { IfOk result (λ values. values.items ≡ joined (map (λ row. map (λ place. value_at row place) places.now) (rows_where (row_at found.now) (rows_of_slots table.now.slots)))) }
{
    let count = found.count();
    let mut values = Vec::with_capacity(alloc, count.saturating_mul(places.len()))?;
    // The found slots are counted faster than they are gone through.
    if count == 0 {
        return Ok(values);
    }
    let mut runs = vec![in alloc; [None; 64]; places.len()]?;
    let end = found.len();
    let mut at = 0;
    while let Some(slot) = found.next_from(at) {
        let start = slot - slot % 64;
        show_slots(&mut values, &mut runs, table, places, found, start)?;
        at = end.min(start + 64);
    }
    Ok(values)
}

/// Appends the values of the found slots among the next 64, starting at slot `at`.
// Not inlined into the loop over the found slots: that would keep the loop's counter in memory.
#[inline(never)]
pub(crate) fn show_slots(
    values: &mut Vec<Value>,
    runs: &mut [Run],
    table: &Table<Name>,
    places: &[usize],
    found: &Mask,
    at: usize,
) -> Result<(), AllocError>
    requires found { len found.now ≡ length table.now.slots }
    requires places { All (λ place. place < length table.now.headers) places.now }
    requires inside { at < length table.now.slots }
    requires runs { length runs.old ≡ length places.now }
    ensures runs { length runs.new ≡ length runs.old }
    ensures values { OnOk result (values.new.items ≡ values.old.items ++ lines_from (slot_line places.now table.now.slots) (row_at found.now) at (min (length table.now.slots - at) 64)) }
{
    let n = (found.len() - at).min(64);
    let word = found.bits(at, n);
    if word.count_ones() <= FEW {
        return fetch_rows(values, table, places, at, word, n);
    }
    read_columns(runs, table, places, at, n);
    show_rows(values, runs, word, n)
}

/// Appends the values of the slots among `at..at + n` whose bit is set. Each value is fetched on its own.
fn fetch_rows(
    values: &mut Vec<Value>,
    table: &Table<Name>,
    places: &[usize],
    at: usize,
    word: u64,
    n: usize,
) -> Result<(), AllocError>
    requires places { All (λ place. place < length table.now.headers) places.now }
    requires few { n ≤ 64 }
    requires inside { at + n ≤ length table.now.slots }
    requires bound { at + n ≤ 2 ^ 32 }
    ensures { OnOk result (values.new.items ≡ values.old.items ++ lines_from (λ i. slot_line places.now table.now.slots (at + i)) (bit_of word) 0 n) }
{
    for i in 0..n {
        if has_bit(word, i) {
            fetch_row(values, table, places, at + i)?;
        }
    }
    Ok(())
}

/// Appends the values of a slot.
fn fetch_row(
    values: &mut Vec<Value>,
    table: &Table<Name>,
    places: &[usize],
    slot: usize,
) -> Result<(), AllocError>
    requires places { All (λ place. place < length table.now.headers) places.now }
    requires inside { slot < length table.now.slots }
    ensures { OnOk result (values.new.items ≡ values.old.items ++ slot_line places.now table.now.slots slot) }
{
    for place in places {
        values.push(table.fetch(slot, *place))?;
    }
    Ok(())
}

/// Reads the values of n slots into the runs, starting at slot `at`.
fn read_columns(runs: &mut [Run], table: &Table<Name>, places: &[usize], at: usize, n: usize)
    requires places { All (λ place. place < length table.now.headers) places.now }
    requires few { n ≤ 64 }
    requires inside { at + n ≤ length table.now.slots }
    requires runs { length runs.old ≡ length places.now }
    ensures { AreRead table.now.slots places.now at n runs.new }
{
    for p in 0..places.len() {
        read_column(&mut runs[p], table.column(places[p]), at, n);
    }
}

/// Reads n values of a column into a run, starting at value `at`.
fn read_column(run: &mut Run, column: &Column, at: usize, n: usize)
    requires few { n ≤ 64 }
    requires inside { at + n ≤ length column.now.values }
    ensures { (i : ℕ) → i < n → columns.value_at run.new i ≡ columns.value_at column.now.values (at + i) }
{
    column.read(at, &mut run[..n]);
}

/// Appends the values of the rows among the first n whose bit is set.
fn show_rows(values: &mut Vec<Value>, runs: &[Run], word: u64, n: usize) -> Result<(), AllocError>
    requires { n ≤ 64 }
    ensures { OnOk result (values.new.items ≡ values.old.items ++ lines_from (line_across runs.now) (bit_of word) 0 n) }
{
    for i in 0..n {
        if has_bit(word, i) {
            show_row(values, runs, i)?;
        }
    }
    Ok(())
}

/// Appends the values of row `i`.
fn show_row(values: &mut Vec<Value>, runs: &[Run], i: usize) -> Result<(), AllocError>
    requires { i < 64 }
    ensures { OnOk result (values.new.items ≡ values.old.items ++ line_across runs.now i) }
{
    for run in runs {
        values.push(run[i])?;
    }
    Ok(())
}
