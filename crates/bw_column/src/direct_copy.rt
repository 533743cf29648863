//! Copying values straight from another column, where its codes will do as they are: no copy of it is made before.

ghost use Rattle.std.specs.Prelude.{IsTrue, length, ◌↔◌, ◌≡◌};
ghost use Rattle.bw_mask.specs.Masks.{len};
ghost use Rattle.bw_code.specs.declared.kind.Layout.TheVariants as layouts;
ghost use Rattle.bw_column.specs.Copies.{CanCopy};
ghost use Rattle.bw_column.specs.Places.{chosen_values, overwritten};

use crate::column::Column;
use bw_cells::Measured;
use bw_code::{Encoding, Kind, Layout};
use bw_mask::Mask;

/// Whether a layout holds each value that another one holds.
fn holds_all_of(layout: Layout, other: Layout) -> bool
    ensures { IsTrue result ↔ (layout ≡ layouts.H → other ≡ layouts.H) }
{
    layout != Layout::H || other == Layout::H
}

impl Column {
    /// Whether this column can take any of another column's values by its codes as they are: both are of kind OFFSET,
    /// each of those values has a code in this column, and its layout holds what the other's holds.
    pub fn can_copy(&self, other: &Column) -> bool
        ensures { IsTrue result ↔ CanCopy self.now other.now }
    {
        if self.kind() != Kind::Offset || other.kind() != Kind::Offset {
            return false;
        }
        if !holds_all_of(self.layout(), other.layout()) {
            return false;
        }
        self.has_codes_of(other)
    }

    /// Writes the values that another column has in the set places, which this column can take, to the same places.
    /// Takes no memory.
    pub fn copy_values(&mut self, places: &Mask, other: &Column)
        requires can { CanCopy self.old other.now }
        requires copied { length other.now.values ≡ length self.old.values }
        requires places { len places.now ≡ length self.old.values }
        ensures values { self.new.values ≡ overwritten places.now (chosen_values places.now other.now.values) self.old.values }
        ensures layout { self.new.layout ≡ self.old.layout }
        ensures encoding { self.new.encoding ≡ self.old.encoding }
    {
        let _held = other.len();
        let Encoding::Offset(offset) = self.encoding else {
            unreachable!()
        };
        self.copy_distances(offset, places, other);
    }
}
