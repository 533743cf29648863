//! The step that gives a column a code for each of some values.

ghost use Rattle.std.specs.Bool.{OnTrue};
ghost use Rattle.std.specs.Prelude.{All, IfOk, length, ◌++◌, ◌+◌, ◌^◌, ◌≡◌, ◌≤◌};
ghost use Rattle.bw_code.specs.Encodings.{IsFit, kind_of, width};
ghost use Rattle.bw_code.specs.declared.encoding.Encoding.TheVariants as by;
ghost use Rattle.bw_code.specs.declared.kind.Kind.TheVariants as kinds;
ghost use Rattle.bw_column.specs.Codes.{IsCoded};
ghost use Rattle.bw_column.specs.Columns.{Keeps};
ghost use Rattle.bw_column.specs.Preparing.{CanTake, after};
ghost use Rattle.bw_column.specs.Storing.{ShiftsTo};
ghost use Rattle.bw_column.specs.Values.{IsNullOrHeld, known, widest};

use crate::column::Column;
use crate::entry_step::Raise;
use crate::unlent::{Unlent, goes_by_planes};
use bw_cells::{Measured, ends_of_both};
use bw_code::{Encoding, Kind, Layout, Offset};
use bw_dictionary::rank_cells;
use std::alloc::{AllocError, Global};

/// What a column does before it takes values, so that each of them has a code.
#[derive(Drop)]
pub(crate) enum Step {
    /// Nothing: each value has one.
    Stay,
    /// Its codes are rebased where they lie.
    Shift(Offset),
    /// Its dictionary gets one entry more, for which codes rise where they lie.
    Raise(Raise),
    /// Another column replaces it: the same values, encoded again.
    Replace(Column),
}

impl Column {
    /// The offset encoding that spans the column's values and these.
    fn offset_with<C: Measured>(&self, values: &C) -> Offset
        requires kind { kind_of self.now.encoding ≡ kinds.Offset }
        requires held { All (IsNullOrHeld self.now.layout) (C.cells values.now) }
        ensures fits { IsFit (known (self.now.values ++ C.cells values.now)) (by.Offset result) }
        ensures own { All (IsCoded (by.Offset result)) self.now.values }
        ensures coded { All (IsCoded (by.Offset result)) (C.cells values.now) }
        ensures narrow { result.width ≤ widest self.now.layout }
    {
        let _held = self.len();
        Offset::spanning(ends_of_both(self.ends(), values.ends()))
    }

    /// The step to the encoding of the column's kind that fits its values and these, with room for `more` further
    /// values. The column keeps its values, layout and encoding, also where it runs out of memory.
    pub(crate) fn step_with<C: Measured>(
        &mut self,
        alloc: Global,
        values: &C,
        more: usize,
    ) -> Result<Step, AllocError>
        requires held { All (IsNullOrHeld self.old.layout) (C.cells values.now) }
        requires some { length (C.cells values.now) ≤ 2 ^ 24 }
        requires few { length self.old.values + more ≤ 2 ^ 24 }
        ensures can { IfOk result (CanTake self.new) }
        ensures values { IfOk result (λ step. (after self.new step).values ≡ self.old.values) }
        ensures layout { IfOk result (λ step. (after self.new step).layout ≡ self.old.layout) }
        ensures fits { IfOk result (λ step. IsFit (known (self.old.values ++ C.cells values.now)) (after self.new step).encoding) }
        ensures kind { IfOk result (λ step. kind_of (after self.new step).encoding ≡ kind_of self.old.encoding) }
        ensures coded { IfOk result (λ step. All (IsCoded (after self.new step).encoding) (C.cells values.now)) }
        ensures room { IfOk result (λ step. length self.old.values + more ≤ (after self.new step).room) }
        ensures keeps { Keeps self.new self.old }
    {
        match self.kind() {
            Kind::Offset => {
                let offset = self.offset_with(values);
                self.step_to(alloc, offset, more)
            }
            Kind::Dictionary => {
                let ranked = rank_cells(alloc, values)?;
                let (step, _) = self.step_to_entries(alloc, values, &ranked.entries, more)?;
                Ok(step)
            }
        }
    }

    /// The same values in another offset encoding, with room for `more` further values.
    fn anew(&self, alloc: Global, offset: Offset, more: usize) -> Result<Column, AllocError>
        requires coded { All (IsCoded (by.Offset offset)) self.now.values }
        requires narrow { offset.width ≤ widest self.now.layout }
        requires few { length self.now.values + more ≤ 2 ^ 24 }
        ensures values { IfOk result (λ c. c.values ≡ self.now.values) }
        ensures layout { IfOk result (λ c. c.layout ≡ self.now.layout) }
        ensures encoding { IfOk result (λ c. c.encoding ≡ by.Offset offset) }
        ensures room { IfOk result (λ c. length self.now.values + more ≤ c.room) }
    {
        let encoding = Encoding::Offset(offset);
        let mut column = Column::with_room(alloc, self.layout(), encoding, self.len() + more)?;
        if goes_by_planes(self.layout(), self.layout()) {
            column.extend_from(self);
        } else {
            column.extend_from(&Unlent { column: self });
        }
        Ok(column)
    }

    /// Whether codes can be rebased where they lie, becoming codes of `bits` bits.
    fn shifts_to(&self, bits: u32) -> bool
        ensures { OnTrue result (ShiftsTo self.now.layout (width self.now.encoding) bits) }
    {
        match self.layout() {
            Layout::P => (bits <= 32) == (self.encoding.width() <= 32),
            Layout::V | Layout::H | Layout::S => bits == self.encoding.width(),
        }
    }

    /// The step to another offset encoding, with room for `more` further values. Codes that can be shifted need no
    /// second column. The column keeps its values, layout and encoding, also where it runs out of memory.
    fn step_to(&mut self, alloc: Global, offset: Offset, more: usize) -> Result<Step, AllocError>
        requires kind { kind_of self.old.encoding ≡ kinds.Offset }
        requires coded { All (IsCoded (by.Offset offset)) self.old.values }
        requires narrow { offset.width ≤ widest self.old.layout }
        requires few { length self.old.values + more ≤ 2 ^ 24 }
        ensures can { IfOk result (CanTake self.new) }
        ensures values { IfOk result (λ step. (after self.new step).values ≡ self.old.values) }
        ensures layout { IfOk result (λ step. (after self.new step).layout ≡ self.old.layout) }
        ensures encoding { IfOk result (λ step. (after self.new step).encoding ≡ by.Offset offset) }
        ensures room { IfOk result (λ step. length self.old.values + more ≤ (after self.new step).room) }
        ensures keeps { Keeps self.new self.old }
    {
        if self.shifts_to(offset.width) {
            self.reserve(more)?;
            return Ok(Step::Shift(offset));
        }
        Ok(Step::Replace(self.anew(alloc, offset, more)?))
    }

    /// Rebases the codes, which are distances from a base.
    fn shift_to(&mut self, offset: Offset)
        requires { CanTake self.old (Step.Shift offset) }
        ensures values { self.new.values ≡ self.old.values }
        ensures layout { self.new.layout ≡ self.old.layout }
        ensures encoding { self.new.encoding ≡ by.Offset offset }
        ensures room { self.old.room ≤ self.new.room }
    {
        let Encoding::Offset(own) = self.encoding else {
            unreachable!()
        };
        self.codes
            .shift(&self.nonnull, own.base, offset.base, offset.width);
        self.encoding = Encoding::Offset(offset);
    }

    /// Applies a step. Takes no memory.
    pub(crate) fn take(&mut self, step: Step)
        requires { CanTake self.old step }
        ensures values { self.new.values ≡ (after self.old step).values }
        ensures layout { self.new.layout ≡ (after self.old step).layout }
        ensures encoding { self.new.encoding ≡ (after self.old step).encoding }
        ensures room { (after self.old step).room ≤ self.new.room }
    {
        match step {
            Step::Stay => {}
            Step::Shift(offset) => self.shift_to(offset),
            Step::Raise(raise) => self.raise_to(raise),
            Step::Replace(column) => *self = column,
        }
    }
}
