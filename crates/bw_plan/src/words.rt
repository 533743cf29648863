//! Translates the words of a statement to types, layouts and kinds.

ghost use Rattle.std.specs.Prelude.{◌≡◌, option_map};
ghost use Rattle.bw_model.specs.Store.{header_of};
ghost use Rattle.bw_model.specs.Words.{kind_of, kind_or, layout_of, layout_or, type_of};

use bw_code::{ColumnType, Header, Kind, Layout};
use bw_sql::{ColumnDefinition, KindWord, LayoutWord, Name, TypeWord};
use bw_table::Choice;

/// The column of a definition. The default layout is V, the default kind OFFSET.
pub fn header_for(definition: ColumnDefinition) -> Header<Name>
    ensures { result ≡ header_of definition }
{
    let ColumnDefinition {
        name,
        column_type,
        layout,
        kind,
    } = definition;
    Header {
        name,
        column_type: type_of(column_type),
        layout: layout_or(layout, Layout::V),
        kind: kind_or(kind, Kind::Offset),
    }
}

/// The choice for a column, from the words of a REBUILD.
pub(crate) fn choice_for(layout: LayoutWord, kind: Option<KindWord>) -> Choice
    ensures layout { result.layout ≡ layout_of layout }
    ensures kind { result.kind ≡ option_map kind_of kind }
{
    Choice {
        layout: layout_of(layout),
        kind: kind_if_any(kind),
    }
}

pub(crate) fn type_of(word: TypeWord) -> ColumnType
    ensures { result ≡ type_of word }
{
    match word {
        TypeWord::Integer => ColumnType::Integer,
        TypeWord::BigInt => ColumnType::BigInt,
    }
}

pub(crate) fn layout_or(word: Option<LayoutWord>, otherwise: Layout) -> Layout
    ensures { result ≡ layout_or word otherwise }
{
    match word {
        Some(word) => layout_of(word),
        None => otherwise,
    }
}

fn kind_or(word: Option<KindWord>, otherwise: Kind) -> Kind
    ensures { result ≡ kind_or word otherwise }
{
    match word {
        Some(word) => kind_of(word),
        None => otherwise,
    }
}

fn kind_if_any(word: Option<KindWord>) -> Option<Kind>
    ensures { result ≡ option_map kind_of word }
{
    match word {
        Some(word) => Some(kind_of(word)),
        None => None,
    }
}

pub(crate) fn layout_of(word: LayoutWord) -> Layout
    ensures { result ≡ layout_of word }
{
    match word {
        LayoutWord::P => Layout::P,
        LayoutWord::V => Layout::V,
        LayoutWord::H => Layout::H,
        LayoutWord::S => Layout::S,
    }
}

fn kind_of(word: KindWord) -> Kind
    ensures { result ≡ kind_of word }
{
    match word {
        KindWord::Offset => Kind::Offset,
        KindWord::Dictionary => Kind::Dictionary,
    }
}
