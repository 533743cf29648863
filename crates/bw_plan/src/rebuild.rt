//! REBUILD: resolves its columns to indexes.

ghost use Rattle.std.specs.Prelude.{◌≡◌, IfOk, false, not};
ghost use Rattle.std.specs.List.{list_any};
ghost use Rattle.std.specs.Str.{bytes_eq};
ghost use Rattle.bw_model.specs.Refusals.{chosen_columns, is_missing};
ghost use Rattle.bw_model.specs.Store.{are_distinct};
ghost use Rattle.bw_plan.specs.Checks.{Answers, Decides, listed_tests};
ghost use Rattle.bw_plan.specs.Sets.{AreChoicesFor};

use crate::headers::Headers;
use crate::words::choice_for;
use bw_model::Refusal;
use bw_sql::{LayoutChoice, Name};
use bw_table::Choice;
use std::alloc::{AllocError, Global};

/// The indexes of the columns that a REBUILD changes in a table of these columns, with their choices. It is refused if
/// one doesn't exist, and else if one is named twice. Refusals are found before anything is allocated.
pub fn resolve_rebuild(
    alloc: Global,
    headers: &Headers<'_>,
    choices: &[LayoutChoice],
) -> Result<Vec<(usize, Choice)>, Refusal>
    ensures { Answers (listed_tests headers.now (chosen_columns choices.now)) result (λ plan. AreChoicesFor headers.now choices.now plan.items) }
{
    check_choices(headers, choices)?;
    let plan = placed_choices(alloc, headers, choices)?;
    Ok(plan)
}

/// Refuses a REBUILD that names a column that doesn't exist, and else one that names a column twice. Allocates nothing.
pub fn check_choices(headers: &Headers<'_>, choices: &[LayoutChoice]) -> Result<(), Refusal>
    ensures { Decides (listed_tests headers.now (chosen_columns choices.now)) result (λ _. Unit {0}) }
{
    if lacks_chosen_column(headers, choices) {
        return Err(Refusal::NoSuchColumn);
    }
    if is_chosen_twice(choices) {
        return Err(Refusal::ColumnNamedTwice);
    }
    Ok(())
}

/// Whether a column to be rebuilt doesn't exist.
fn lacks_chosen_column(headers: &Headers<'_>, choices: &[LayoutChoice]) -> bool
    ensures { result ≡ list_any (is_missing headers.now) (chosen_columns choices.now) }
{
    for choice in choices {
        if headers.place(&choice.column).is_none() {
            return true;
        }
    }
    false
}

/// Whether a column is named twice in a REBUILD.
fn is_chosen_twice(choices: &[LayoutChoice]) -> bool
    ensures { result ≡ not (are_distinct (chosen_columns choices.now)) }
{
    match choices {
        [] => false,
        [choice, rest @ ..] => is_chosen(rest, &choice.column) || is_chosen_twice(rest),
    }
}

fn is_chosen(choices: &[LayoutChoice], name: &Name) -> bool
    ensures { result ≡ list_any (bytes_eq name.now) (chosen_columns choices.now) }
{
    for choice in choices {
        if name == &choice.column {
            return true;
        }
    }
    false
}

/// The choices with the indexes of their columns, all of which exist.
fn placed_choices(
    alloc: Global,
    headers: &Headers<'_>,
    choices: &[LayoutChoice],
) -> Result<Vec<(usize, Choice)>, AllocError>
    requires { list_any (is_missing headers.now) (chosen_columns choices.now) ≡ false }
    ensures { IfOk result (λ plan. AreChoicesFor headers.now choices.now plan.items) }
{
    let mut placed = Vec::with_capacity(alloc, choices.len())?;
    for choice in choices {
        let Some(place) = headers.place(&choice.column) else {
            unreachable!()
        };
        placed.push((place, choice_for(choice.layout, choice.kind)))?;
    }
    Ok(placed)
}
