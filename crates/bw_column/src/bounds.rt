//! Bounds on the values of a column, derived from its encoding alone.

ghost use Rattle.std.specs.Prelude.{ℤ, ◌≤ℤ◌};
ghost use Rattle.bw_code.specs.Ascending.{IsAscending};
ghost use Rattle.bw_code.specs.Encodings.{IsWithin};
ghost use Rattle.bw_code.specs.Fittings.{AreEnds};
ghost use Rattle.bw_column.specs.Extremes.{AreBounds, AreEntryBounds};
ghost use Rattle.bw_column.specs.Values.{IsStorable, known};

use crate::column::Column;
use bw_code::{Encoding, Ends, Offset};

/// The greatest i64 that has a code in an offset encoding, whose top may be above every i64.
fn greatest_of(offset: Offset) -> i64
    ensures { (x : ℤ) → IsWithin offset x → IsStorable x → x ≤ℤ result }
{
    let largest = u64::MAX >> (64 - offset.width);
    offset.base.saturating_add_unsigned(largest)
}

/// The first and the last of ascending entries; `None` for an empty list.
pub(crate) fn entry_ends(entries: &[i64]) -> Option<Ends>
    requires { IsAscending entries.now }
    ensures bounds { AreEntryBounds entries.now result }
    ensures ends { AreEnds entries.now result }
{
    if entries.is_empty() {
        return None;
    }
    Some(Ends {
        least: entries[0],
        greatest: entries[entries.len() - 1],
    })
}

impl Column {
    /// Bounds between which all non-null values lie. They need not be values of the column: they come from the
    /// encoding, and no row is read. Returns `None` only where no value has a code.
    pub fn bounds(&self) -> Option<Ends>
        ensures { AreBounds (known self.now.values) result }
    {
        // Each value has its code, and is an i64.
        let _held = self.len();
        match self.encoding() {
            Encoding::Offset(offset) => Some(Ends {
                least: offset.base,
                greatest: greatest_of(*offset),
            }),
            Encoding::Dictionary(dictionary) => entry_ends(dictionary.entries()),
        }
    }
}
