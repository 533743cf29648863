//! An offset encoding for the values of a column, derived from its own encoding alone.

ghost use Rattle.std.specs.Prelude.{All, List, Option, ℤ};
ghost use Rattle.bw_code.specs.Encodings.{IsEncoding, IsWithin};
ghost use Rattle.bw_column.specs.Codes.{IsCoded};
ghost use Rattle.bw_column.specs.Values.{known};

use crate::bounds::entry_ends;
use bw_code::{Encoding, Offset};

/// An offset encoding in which each value has a code that has one in this encoding.
pub(crate) fn span_of(encoding: &Encoding) -> Offset
    requires { IsEncoding encoding.now }
    ensures { (values : List (Option ℤ)) → All (IsCoded encoding.now) values → All (IsWithin result) (known values) }
{
    match encoding {
        Encoding::Offset(offset) => *offset,
        Encoding::Dictionary(dictionary) => Offset::spanning(entry_ends(dictionary.entries())),
    }
}
