//! Columns in layout S and of kind OFFSET that are built anew in that layout and kind: bytes are copied as they are
//! stored where the width stays.

ghost use Rattle.std.specs.Prelude.{IfOk, ◌≡◌};
ghost use Rattle.bw_code.specs.Encodings.{IsFit, kind_of};
ghost use Rattle.bw_code.specs.declared.kind.Kind.TheVariants as kinds;
ghost use Rattle.bw_code.specs.declared.kind.Layout.TheVariants as layouts;
ghost use Rattle.bw_column.specs.Values.{known};

use crate::column::Column;
use bw_cells::Measured;
use bw_code::{Encoding, Kind, Layout, Offset};
use std::alloc::{AllocError, Global};

impl Column {
    /// The same values, with the encoding of kind OFFSET that fits them. The column is in layout S and of kind OFFSET.
    pub(crate) fn rebuilt_slices(&self, alloc: Global) -> Result<Column, AllocError>
        requires layout { self.now.layout ≡ layouts.S }
        requires kind { kind_of self.now.encoding ≡ kinds.Offset }
        ensures values { IfOk result (λ c. c.values ≡ self.now.values) }
        ensures layout { IfOk result (λ c. c.layout ≡ layouts.S) }
        ensures fits { IfOk result (λ c. IsFit (known self.now.values) c.encoding) }
        ensures kind { IfOk result (λ c. kind_of c.encoding ≡ kinds.Offset) }
    {
        let count = self.len();
        let offset = Offset::spanning(self.ends());
        if offset.width != self.encoding().width() {
            return Column::build(alloc, self, Layout::S, Kind::Offset);
        }
        let encoding = Encoding::Offset(offset);
        let mut column = Column::of_nulls(alloc, Layout::S, encoding, count)?;
        column.copy_distances(offset, self.nonnull(), self);
        Ok(column)
    }
}
