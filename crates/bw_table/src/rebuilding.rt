//! Rebuilds columns from the rows of a mask.

ghost use Rattle.std.specs.Prelude.{All, IfOk, length, slice_index_or, ℕ, ◌<◌, ◌^◌, ◌≡◌, ◌≤◌};
ghost use Rattle.bw_code.specs.Encodings.{IsFit, kind_of};
ghost use Rattle.bw_column.specs.Columns.{ColumnView};
ghost use Rattle.bw_column.specs.Places.{chosen_values};
ghost use Rattle.bw_column.specs.Values.{IsNullOrHeld, known};
ghost use Rattle.bw_mask.specs.Masks.{len};
ghost use Rattle.bw_table.specs.Changes.{choice_of, chosen_kind, chosen_layout};
ghost use Rattle.bw_table.specs.Sets.{AllBuilt};

use crate::choice::{Choice, choice_of, chosen_kind, chosen_layout};
use crate::chosen_cells::ChosenCells;
use bw_cells::Measured;
use bw_column::Column;
use bw_mask::Mask;
use std::alloc::{AllocError, Global};

/// A column of these values, in the chosen layout and of the chosen kind, or those of the column `own`.
fn built_as<C: Measured>(
    alloc: Global,
    own: &Column,
    choice: Option<Choice>,
    values: &C,
) -> Result<Column, AllocError>
    requires held { All (IsNullOrHeld (chosen_layout choice own.now.layout)) (C.cells values.now) }
    requires few { length (C.cells values.now) ≤ 2 ^ 24 }
    ensures values { IfOk result (λ c. c.values ≡ C.cells values.now) }
    ensures layout { IfOk result (λ c. c.layout ≡ chosen_layout choice own.now.layout) }
    ensures fits { IfOk result (λ c. IsFit (known (C.cells values.now)) c.encoding) }
    ensures kind { IfOk result (λ c. kind_of c.encoding ≡ chosen_kind choice (kind_of own.now.encoding)) }
{
    let layout = chosen_layout(choice, own.layout());
    let kind = chosen_kind(choice, own.kind());
    Column::build(alloc, values, layout, kind)
}

/// Rebuilds a column from its values in the rows of a mask. No list of the values is built.
fn built_anew(
    alloc: Global,
    own: &Column,
    mask: &Mask,
    choice: Option<Choice>,
) -> Result<Column, AllocError>
    requires long { length own.now.values ≡ len mask.now }
    requires held { All (IsNullOrHeld (chosen_layout choice own.now.layout)) own.now.values }
    requires few { len mask.now ≤ 2 ^ 24 }
    ensures values { IfOk result (λ c. c.values ≡ chosen_values mask.now own.now.values) }
    ensures layout { IfOk result (λ c. c.layout ≡ chosen_layout choice own.now.layout) }
    ensures fits { IfOk result (λ c. IsFit (known (chosen_values mask.now own.now.values)) c.encoding) }
    ensures kind { IfOk result (λ c. kind_of c.encoding ≡ chosen_kind choice (kind_of own.now.encoding)) }
{
    if mask.count() == own.len() {
        let layout = chosen_layout(choice, own.layout());
        let kind = chosen_kind(choice, own.kind());
        return own.rebuild(alloc, layout, kind);
    }
    let cells = ChosenCells::new(alloc, own, mask)?;
    built_as(alloc, own, choice, &cells)
}

/// Rebuilds each column from its values in the rows of a mask, with the choices applied.
pub(crate) fn build_anew(
    columns: &Vec<Column>,
    alloc: Global,
    mask: &Mask,
    choices: &[(usize, Choice)],
) -> Result<Vec<Column>, AllocError>
    requires long { All (λ column. length column.values ≡ len mask.now) columns.now.items }
    requires held { (k : ℕ) (d : ColumnView) → k < length columns.now.items → All (IsNullOrHeld (chosen_layout (choice_of choices.now k) (slice_index_or columns.now.items k d).layout)) (slice_index_or columns.now.items k d).values }
    requires few { len mask.now ≤ 2 ^ 24 }
    ensures { IfOk result (λ built. AllBuilt mask.now choices.now built.items columns.now.items) }
{
    let mut built = Vec::with_capacity(alloc, columns.len())?;
    for k in 0..columns.len() {
        let column = built_anew(alloc, &columns[k], mask, choice_of(choices, k))?;
        built.push(column)?;
    }
    Ok(built)
}
