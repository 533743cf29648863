//! Set functions over the found slots.

ghost use Rattle.std.specs.List.{Contains};
ghost use Rattle.std.specs.Prelude.{All, IfOk, IfSome, OnOk, length, map, slice_index_or, ◌<◌, ◌≡◌};
ghost use Rattle.bw_mask.specs.Masks.{len, row_at};
ghost use Rattle.bw_engine.specs.Folds.{AskFor, IsAskedIf, IsWithin, Tells, number_by, told_by};
ghost use Rattle.bw_engine.specs.Found.{rows_where};
ghost use Rattle.bw_engine.specs.Stores.{rows_of_slots};
ghost use Rattle.bw_model.specs.Select.{shown};
ghost use Rattle.bw_plan.specs.declared.select.FunctionPlan.{FunctionPlan as Function};

use bw_aggregate::{Asked, Summary, summarize};
use bw_mask::Mask;
use bw_model::Cell;
use bw_plan::FunctionPlan;
use bw_sql::{Name, SetFunction};
use bw_table::Table;
use std::alloc::{AllocError, Global};

/// The aggregates of the column at index `place`.
#[derive(Clone, Copy)]
struct ColumnSummary {
    place: usize,
    summary: Summary,
}

/// Whether `functions` contain a set function.
fn is_asked(functions: &[FunctionPlan], function: FunctionPlan) -> bool
    ensures { IsAskedIf functions.now function result }
{
    for i in 0..functions.len() {
        if functions[i] == function {
            return true;
        }
    }
    false
}

/// Which aggregates of the column at index `place` the functions need.
fn asked_of(functions: &[FunctionPlan], place: usize) -> Asked
    ensures { AskFor functions.now place result }
{
    Asked {
        sum: is_asked(functions, FunctionPlan::Of(SetFunction::Sum, place)),
        least: is_asked(functions, FunctionPlan::Of(SetFunction::Min, place)),
        greatest: is_asked(functions, FunctionPlan::Of(SetFunction::Max, place)),
        median: is_asked(functions, FunctionPlan::Of(SetFunction::Median, place)),
    }
}

/// Computes the aggregates that the functions need of the column at index `place`, over its values in the found slots.
fn column_summary(
    alloc: Global,
    table: &Table<Name>,
    functions: &[FunctionPlan],
    place: usize,
    found: &Mask,
) -> Result<ColumnSummary, AllocError>
    requires found { len found.now ≡ length table.now.slots }
    requires place { place < length table.now.headers }
    ensures place { IfOk result (λ column. column.place ≡ place) }
    ensures tells { IfOk result (Tells (rows_where (row_at found.now) (rows_of_slots table.now.slots)) functions.now) }
{
    let asked = asked_of(functions, place);
    let summary = summarize(alloc, table.column(place), found, asked)?;
    Ok(ColumnSummary { place, summary })
}

/// The summary of the column at index `place`, if there is one.
fn summary_among(columns: &[ColumnSummary], place: usize) -> Option<ColumnSummary>
    ensures place { IfSome result (λ column. column.place ≡ place) }
    ensures one { IfSome result (Contains columns.now) }
{
    for i in 0..columns.len() {
        if columns[i].place == place {
            return Some(columns[i]);
        }
    }
    None
}

/// The aggregates that the functions need of the column at index `place`. Each column is folded once, and its summary
/// is kept.
fn summary_of(
    alloc: Global,
    table: &Table<Name>,
    functions: &[FunctionPlan],
    place: usize,
    columns: &mut Vec<ColumnSummary>,
    found: &Mask,
) -> Result<ColumnSummary, AllocError>
    requires found { len found.now ≡ length table.now.slots }
    requires place { place < length table.now.headers }
    requires told { All (Tells (rows_where (row_at found.now) (rows_of_slots table.now.slots)) functions.now) columns.old.items }
    ensures place { IfOk result (λ column. column.place ≡ place) }
    ensures tells { IfOk result (Tells (rows_where (row_at found.now) (rows_of_slots table.now.slots)) functions.now) }
    ensures told { OnOk result (All (Tells (rows_where (row_at found.now) (rows_of_slots table.now.slots)) functions.now) columns.new.items) }
{
    if let Some(column) = summary_among(columns, place) {
        return Ok(column);
    }
    let column = column_summary(alloc, table, functions, place, found)?;
    columns.push(column)?;
    Ok(column)
}

/// The value of a set function in a summary; `None` is NULL.
pub(crate) fn told_by(function: SetFunction, summary: &Summary) -> Option<i128>
    ensures { result ≡ told_by function summary.now }
{
    match function {
        SetFunction::Count => Some(summary.count as i128),
        SetFunction::Sum => summary.sum,
        SetFunction::Min => wide(summary.least),
        SetFunction::Max => wide(summary.greatest),
        SetFunction::Median => wide(summary.median),
    }
}

/// The value widened to `i128`.
pub(crate) fn wide(value: Option<i64>) -> Option<i128>
    ensures { result ≡ value }
{
    value.map(i128::from)
}

/// The value of function `i` over the found slots.
fn number(
    alloc: Global,
    table: &Table<Name>,
    functions: &[FunctionPlan],
    i: usize,
    columns: &mut Vec<ColumnSummary>,
    found: &Mask,
) -> Result<Option<i128>, AllocError>
    requires found { len found.now ≡ length table.now.slots }
    requires places { All (IsWithin (length table.now.headers)) functions.now }
    requires inside { i < length functions.now }
    requires told { All (Tells (rows_where (row_at found.now) (rows_of_slots table.now.slots)) functions.now) columns.old.items }
    ensures number { IfOk result (λ number. (d : Function) → number ≡ number_by (rows_where (row_at found.now) (rows_of_slots table.now.slots)) (slice_index_or functions.now i d)) }
    ensures told { OnOk result (All (Tells (rows_where (row_at found.now) (rows_of_slots table.now.slots)) functions.now) columns.new.items) }
{
    match functions[i] {
        FunctionPlan::CountRows => Ok(Some(found.count() as i128)),
        FunctionPlan::Of(function, place) => {
            let column = summary_of(alloc, table, functions, place, columns, found)?;
            Ok(told_by(function, &column.summary))
        }
    }
}

/// The value of each set function over the found slots, in order.
fn numbers(
    alloc: Global,
    table: &Table<Name>,
    functions: &[FunctionPlan],
    found: &Mask,
) -> Result<Vec<Option<i128>>, AllocError>
    requires found { len found.now ≡ length table.now.slots }
    requires places { All (IsWithin (length table.now.headers)) functions.now }
    ensures { IfOk result (λ numbers. numbers.items ≡ map (number_by (rows_where (row_at found.now) (rows_of_slots table.now.slots))) functions.now) }
{
    let mut columns = Vec::new(alloc);
    let mut numbers = Vec::with_capacity(alloc, functions.len())?;
    for i in 0..functions.len() {
        let number = number(alloc, table, functions, i, &mut columns, found)?;
        numbers.push(number)?;
    }
    Ok(numbers)
}

/// The cells of the set functions over the found slots, in order.
#[tactic(auto, using(crate::proofs::Folding::shown_numbers))]
pub(crate) fn function_cells(
    alloc: Global,
    table: &Table<Name>,
    functions: &[FunctionPlan],
    found: &Mask,
) -> Result<Vec<Cell>, AllocError>
    requires found { len found.now ≡ length table.now.slots }
    requires places { All (IsWithin (length table.now.headers)) functions.now }
    ensures { IfOk result (λ cells. cells.items ≡ map (λ function. shown (number_by (rows_where (row_at found.now) (rows_of_slots table.now.slots)) function)) functions.now) }
{
    let numbers = numbers(alloc, table, functions, found)?;
    cells_of(alloc, &numbers)
}

/// The cells of numbers, in order.
fn cells_of(alloc: Global, numbers: &[Option<i128>]) -> Result<Vec<Cell>, AllocError>
    ensures { IfOk result (λ cells. cells.items ≡ map shown numbers.now) }
{
    numbers.iter().map(|number| cell(*number)).collect(alloc)
}

/// The cell of a number; `None` is NULL.
pub(crate) fn cell(number: Option<i128>) -> Cell
    ensures { result ≡ shown number }
{
    match number {
        Some(number) => Cell::Number(number),
        None => Cell::Null,
    }
}
