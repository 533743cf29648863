//! Finds columns whose chosen layout doesn't hold their type.

ghost use Rattle.std.specs.Prelude.{◌≡◌};
ghost use Rattle.std.specs.List.{list_any};
ghost use Rattle.bw_model.specs.Changes.{chosen_header};
ghost use Rattle.bw_model.specs.Refusals.{is_too_narrow};
ghost use Rattle.bw_model.specs.Store.{header_of};

use crate::headers::Headers;
use crate::words::{layout_of, layout_or, type_of};
use bw_code::{Header, Layout};
use bw_sql::{ColumnDefinition, LayoutChoice, Name};

/// Whether one of the defined columns is given a layout that doesn't hold its type.
pub fn defines_too_narrow(definitions: &[ColumnDefinition]) -> bool
    ensures { result ≡ list_any (λ definition. is_too_narrow (header_of definition)) definitions.now }
{
    definitions.iter().any(is_too_narrow)
}

fn is_too_narrow(definition: &ColumnDefinition) -> bool
    ensures { result ≡ is_too_narrow (header_of definition.now) }
{
    let layout = layout_or(definition.layout, Layout::V);
    !layout.holds(type_of(definition.column_type))
}

/// Whether one of the choices gives its column a layout that doesn't hold the column's type.
pub fn chooses_too_narrow(headers: &Headers<'_>, choices: &[LayoutChoice]) -> bool
    ensures { result ≡ list_any (λ header. is_too_narrow (chosen_header choices.now header)) headers.now }
{
    headers
        .as_slice()
        .iter()
        .any(|header| is_chosen_too_narrow(header, choices))
}

fn is_chosen_too_narrow(header: &Header<Name>, choices: &[LayoutChoice]) -> bool
    ensures { result ≡ is_too_narrow (chosen_header choices.now header.now) }
{
    match choices {
        [] => !header.layout.holds(header.column_type),
        [choice, _rest @ ..] if header.name == choice.column => {
            !layout_of(choice.layout).holds(header.column_type)
        }
        [_choice, rest @ ..] => is_chosen_too_narrow(header, rest),
    }
}
