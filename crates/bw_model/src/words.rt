//! The types, layouts and kinds that the keywords of a statement stand for.

ghost use Rattle.std.specs.Prelude.{◌≡◌};
ghost use Rattle.bw_model.specs.Words.{kind_of, kind_or, layout_of, layout_or, type_of};

use bw_code::{ColumnType, Kind, Layout};
use bw_sql::{KindWord, LayoutWord, TypeWord};

/// The type that a keyword stands for.
pub(crate) fn type_of(word: TypeWord) -> ColumnType
    ensures { result ≡ type_of word }
{
    match word {
        TypeWord::Integer => ColumnType::Integer,
        TypeWord::BigInt => ColumnType::BigInt,
    }
}

/// The layout that a keyword stands for.
pub(crate) fn layout_of(word: LayoutWord) -> Layout
    ensures { result ≡ layout_of word }
{
    match word {
        LayoutWord::P => Layout::P,
        LayoutWord::V => Layout::V,
        LayoutWord::H => Layout::H,
        LayoutWord::S => Layout::S,
    }
}

/// The kind that a keyword stands for.
fn kind_of(word: KindWord) -> Kind
    ensures { result ≡ kind_of word }
{
    match word {
        KindWord::Offset => Kind::Offset,
        KindWord::Dictionary => Kind::Dictionary,
    }
}

/// The layout that a keyword stands for, or another if there is no keyword.
pub(crate) fn layout_or(word: Option<LayoutWord>, otherwise: Layout) -> Layout
    ensures { result ≡ layout_or word otherwise }
{
    match word {
        Some(word) => layout_of(word),
        None => otherwise,
    }
}

/// The kind that a keyword stands for, or another if there is no keyword.
pub(crate) fn kind_or(word: Option<KindWord>, otherwise: Kind) -> Kind
    ensures { result ≡ kind_or word otherwise }
{
    match word {
        Some(word) => kind_of(word),
        None => otherwise,
    }
}
