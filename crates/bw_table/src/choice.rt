//! How a column is to be rebuilt.

ghost use Rattle.std.specs.Prelude.{◌≡◌};
ghost use Rattle.bw_table.specs.Changes.{choice_of, chosen_kind, chosen_layout, kind_or};
ghost use Rattle.bw_table.specs.Tables.{AreChosen, header_by};

use bw_code::{Header, Kind, Layout};

/// The layout for a column, and its kind if that is to change.
#[derive(Clone, Copy, Debug, PartialEq, Eq)]
pub struct Choice {
    pub layout: Layout,
    pub kind: Option<Kind>,
}

/// The first choice for column `k`, if there is one.
pub(crate) fn choice_of(choices: &[(usize, Choice)], k: usize) -> Option<Choice>
    ensures { result ≡ choice_of choices.now k }
{
    for entry in choices {
        let (column, choice) = *entry;
        if column == k {
            return Some(choice);
        }
    }
    None
}

/// The chosen layout, or the column's own.
pub(crate) fn chosen_layout(choice: Option<Choice>, own: Layout) -> Layout
    ensures { result ≡ chosen_layout choice own }
{
    match choice {
        Some(choice) => choice.layout,
        None => own,
    }
}

/// The chosen kind, or the column's own.
pub(crate) fn chosen_kind(choice: Option<Choice>, own: Kind) -> Kind
    ensures { result ≡ chosen_kind choice own }
{
    match choice {
        Some(choice) => kind_or(choice.kind, own),
        None => own,
    }
}

fn kind_or(kind: Option<Kind>, own: Kind) -> Kind
    ensures { result ≡ kind_or kind own }
{
    match kind {
        Some(kind) => kind,
        None => own,
    }
}

/// Puts a column's choice into its header.
fn choose<N>(header: &mut Header<N>, choice: Option<Choice>)
    ensures { header.new ≡ header_by choice header.old }
{
    header.layout = chosen_layout(choice, header.layout);
    header.kind = chosen_kind(choice, header.kind);
}

/// Puts the choices for columns into their headers.
pub(crate) fn choose_all<N>(headers: &mut Vec<Header<N>>, choices: &[(usize, Choice)])
    ensures { AreChosen choices.now headers.old.items headers.new.items }
{
    for k in 0..headers.len() {
        choose(&mut headers[k], choice_of(choices, k));
    }
}
