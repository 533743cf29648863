//! Building columns from values.

ghost use Rattle.std.specs.Prelude.{[], All, IfOk, OnOk, length, ◌+◌, ◌<◌, ◌^◌, ◌≡◌, ◌≤◌};
ghost use Rattle.bw_code.specs.Encodings.{IsFit, kind_of, width};
ghost use Rattle.bw_code.specs.declared.kind.Kind.TheVariants as kinds;
ghost use Rattle.bw_column.specs.Columns.{Keeps};
ghost use Rattle.bw_column.specs.Values.{IsNullOrHeld, known, widest};

use crate::column::Column;
use crate::storage::Codes;
use crate::unlent::{Unlent, goes_by_planes};
use bw_cells::Measured;
use bw_code::{Encoding, Kind, Layout, Offset};
use bw_dictionary::{dictionary_like, rank_cells};
use bw_mask::Mask;
use std::alloc::{AllocError, Global};

impl Column {
    /// An empty column with room for `room` values.
    pub(crate) fn with_room(
        alloc: Global,
        layout: Layout,
        encoding: Encoding,
        room: usize,
    ) -> Result<Column, AllocError>
        requires narrow { width encoding ≤ widest layout }
        requires few { room ≤ 2 ^ 24 }
        ensures values { IfOk result (λ c. c.values ≡ []) }
        ensures layout { IfOk result (λ c. c.layout ≡ layout) }
        ensures encoding { IfOk result (λ c. c.encoding ≡ encoding) }
        ensures room { IfOk result (λ c. room ≤ c.room) }
    {
        let mut codes = Codes::with_width(alloc, layout, encoding.width())?;
        codes.reserve(room)?;
        let mut nonnull = Mask::filled(alloc, 0, false)?;
        nonnull.reserve(room)?;
        Ok(Column {
            encoding,
            codes,
            nonnull,
        })
    }

    /// A column of these values. Its encoding is the one of the given kind that fits the non-null values.
    pub fn build<C: Measured>(
        alloc: Global,
        values: &C,
        layout: Layout,
        kind: Kind,
    ) -> Result<Column, AllocError>
        requires held { All (IsNullOrHeld layout) (C.cells values.now) }
        requires few { length (C.cells values.now) ≤ 2 ^ 24 }
        ensures values { IfOk result (λ c. c.values ≡ C.cells values.now) }
        ensures layout { IfOk result (λ c. c.layout ≡ layout) }
        ensures fits { IfOk result (λ c. IsFit (known (C.cells values.now)) c.encoding) }
        ensures kind { IfOk result (λ c. kind_of c.encoding ≡ kind) }
    {
        match kind {
            Kind::Offset => Column::build_measured(alloc, values, layout),
            Kind::Dictionary => Column::build_ranked(alloc, values, layout),
        }
    }

    /// A column of these values, each encoded as its distance from the least.
    fn build_measured<C: Measured>(
        alloc: Global,
        values: &C,
        layout: Layout,
    ) -> Result<Column, AllocError>
        requires held { All (IsNullOrHeld layout) (C.cells values.now) }
        requires few { length (C.cells values.now) ≤ 2 ^ 24 }
        ensures values { IfOk result (λ c. c.values ≡ C.cells values.now) }
        ensures layout { IfOk result (λ c. c.layout ≡ layout) }
        ensures fits { IfOk result (λ c. IsFit (known (C.cells values.now)) c.encoding) }
        ensures kind { IfOk result (λ c. kind_of c.encoding ≡ kinds.Offset) }
    {
        let offset = Offset::spanning(values.ends());
        let encoding = Encoding::Offset(offset);
        let mut column = Column::with_room(alloc, layout, encoding, values.len())?;
        column.extend_from(values);
        Ok(column)
    }

    /// A column of these values, each encoded as its index among the distinct ones; distinct values and indices are
    /// found in one pass.
    fn build_ranked<C: Measured>(
        alloc: Global,
        values: &C,
        layout: Layout,
    ) -> Result<Column, AllocError>
        requires held { All (IsNullOrHeld layout) (C.cells values.now) }
        requires few { length (C.cells values.now) ≤ 2 ^ 24 }
        ensures values { IfOk result (λ c. c.values ≡ C.cells values.now) }
        ensures layout { IfOk result (λ c. c.layout ≡ layout) }
        ensures fits { IfOk result (λ c. IsFit (known (C.cells values.now)) c.encoding) }
        ensures kind { IfOk result (λ c. kind_of c.encoding ≡ kinds.Dictionary) }
    {
        let ranked = rank_cells(alloc, values)?;
        let encoding = dictionary_like(alloc, &ranked.entries)?;
        let mut column = Column::with_room(alloc, layout, encoding, values.len())?;
        column.extend_ranked(values, &ranked);
        Ok(column)
    }

    /// A column of the same values, as `build` would make it. From a dictionary to a dictionary no value is read: the
    /// entries already exist, and only codes are mapped. From distances in S to distances in S slices are copied if the
    /// width stays.
    pub fn rebuild(&self, alloc: Global, layout: Layout, kind: Kind) -> Result<Column, AllocError>
        requires { All (IsNullOrHeld layout) self.now.values }
        ensures values { IfOk result (λ c. c.values ≡ self.now.values) }
        ensures layout { IfOk result (λ c. c.layout ≡ layout) }
        ensures fits { IfOk result (λ c. IsFit (known self.now.values) c.encoding) }
        ensures kind { IfOk result (λ c. kind_of c.encoding ≡ kind) }
    {
        let _few = self.len();
        match (self.kind(), kind) {
            (Kind::Dictionary, Kind::Dictionary) => self.rebuilt_in(alloc, layout),
            (Kind::Offset, Kind::Offset) if layout == Layout::S && self.layout() == Layout::S => {
                self.rebuilt_slices(alloc)
            }
            _ if goes_by_planes(self.layout(), layout) => Column::build(alloc, self, layout, kind),
            _ => Column::build(alloc, &Unlent { column: self }, layout, kind),
        }
    }

    /// Makes room for `more` further values. The column stays as it is, also where it runs out of memory.
    #[tactic(auto, using(bw_code::proofs::Lists::made_len))]
    pub(crate) fn reserve(&mut self, more: usize) -> Result<(), AllocError>
        requires { length self.old.values + more ≤ 2 ^ 24 }
        ensures room { OnOk result (length self.old.values + more ≤ self.new.room) }
        ensures keeps { Keeps self.new self.old }
    {
        self.codes.reserve(more)?;
        self.nonnull.reserve(more)
    }
}
