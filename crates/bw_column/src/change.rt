//! Appending values to a column, and overwriting some of its values. All that may run out of memory is done first.

ghost use Rattle.std.specs.Prelude.{All, IfOk, IsTrue, count_by, true, false, length, ◌++◌, ◌+◌, ◌<◌, ◌^◌, ◌↔◌, ◌≡◌, ◌≤◌};
ghost use Rattle.bw_code.specs.Encodings.{kind_of};
ghost use Rattle.bw_code.specs.declared.kind.Kind.TheVariants as kinds;
ghost use Rattle.bw_mask.specs.Masks.{len};
ghost use Rattle.bw_column.specs.Codes.{IsCoded};
ghost use Rattle.bw_column.specs.Columns.{Keeps};
ghost use Rattle.bw_column.specs.Places.{overwritten};
ghost use Rattle.bw_column.specs.Preparing.{IsEncodingFor, IsPreparedFor, more};
ghost use Rattle.bw_column.specs.Values.{IsNullOrHeld};

use crate::column::Column;
use crate::copying::spans;
use crate::ended::EndedCells;
use crate::kept::{KeptCodes, find_codes};
use crate::step::Step;
use bw_cells::{Cells, Measured};
use bw_code::{Encoding, Kind};
use bw_dictionary::rank_cells;
use bw_mask::Mask;
use std::alloc::{AllocError, Global};
use std::marker::Model;

/// What a column has prepared to take values: the step after which each of them has a code, and the codes that were
/// looked up in a dictionary.
#[derive(Drop)]
pub struct Prepared {
    pub(crate) step: Step,
    pub(crate) codes: KeptCodes,
}

impl Model for Prepared {
    ghost use Rattle.bw_column.specs.Preparing.{Preparation};

    ghost Value = { Preparation };

    ghost view = { λ p. record { step = p.step; codes = p.codes } };
}

/// By how many values a column grows.
fn count_more<C: Cells>(values: &C, grow: bool) -> usize
    ensures { result ≡ more grow (C.cells values.now) }
{
    if grow { values.len() } else { 0 }
}

impl Column {
    /// Prepares to take the values: at the end where the column is to grow (`grow`), else in place of others. Where one
    /// of them has no code, the result includes the step to an encoding that fits all values. The column keeps its
    /// values, layout and encoding, also where it runs out of memory; at most its room grows.
    pub fn room_for<C: Measured>(
        &mut self,
        alloc: Global,
        values: &C,
        grow: bool,
    ) -> Result<Prepared, AllocError>
        requires held { All (IsNullOrHeld self.old.layout) (C.cells values.now) }
        requires some { length (C.cells values.now) ≤ 2 ^ 24 }
        requires few { length self.old.values + more grow (C.cells values.now) ≤ 2 ^ 24 }
        ensures prepared { IfOk result (IsPreparedFor self.new (C.cells values.now) grow) }
        ensures keeps { Keeps self.new self.old }
    {
        match self.kind() {
            Kind::Offset => self.room_measured(alloc, values, grow),
            Kind::Dictionary => self.room_ranked(alloc, values, grow),
        }
    }

    /// The same for a column of kind OFFSET.
    fn room_measured<C: Measured>(
        &mut self,
        alloc: Global,
        values: &C,
        grow: bool,
    ) -> Result<Prepared, AllocError>
        requires kind { kind_of self.old.encoding ≡ kinds.Offset }
        requires held { All (IsNullOrHeld self.old.layout) (C.cells values.now) }
        requires some { length (C.cells values.now) ≤ 2 ^ 24 }
        requires few { length self.old.values + more grow (C.cells values.now) ≤ 2 ^ 24 }
        ensures prepared { IfOk result (IsPreparedFor self.new (C.cells values.now) grow) }
        ensures keeps { Keeps self.new self.old }
    {
        let more = count_more(values, grow);
        let codes = KeptCodes::Distances;
        let values = EndedCells::of(values);
        if self.has_codes_for(&values) {
            self.reserve(more)?;
            let step = Step::Stay;
            return Ok(Prepared { step, codes });
        }
        let step = self.step_with(alloc, &values, more)?;
        Ok(Prepared { step, codes })
    }

    /// Whether each of the values has a code in a column of kind OFFSET; their least and greatest decide it.
    fn has_codes_for<C: Measured>(&self, values: &C) -> bool
        requires { kind_of self.now.encoding ≡ kinds.Offset }
        ensures { IsTrue result ↔ All (IsCoded self.now.encoding) (C.cells values.now) }
    {
        let Encoding::Offset(own) = self.encoding else {
            unreachable!()
        };
        spans(own, values.ends())
    }

    /// The same for a column of kind DICTIONARY: the distinct values and the index of each value among them are found
    /// in one pass.
    fn room_ranked<C: Measured>(
        &mut self,
        alloc: Global,
        values: &C,
        grow: bool,
    ) -> Result<Prepared, AllocError>
        requires kind { kind_of self.old.encoding ≡ kinds.Dictionary }
        requires held { All (IsNullOrHeld self.old.layout) (C.cells values.now) }
        requires some { length (C.cells values.now) ≤ 2 ^ 24 }
        requires few { length self.old.values + more grow (C.cells values.now) ≤ 2 ^ 24 }
        ensures prepared { IfOk result (IsPreparedFor self.new (C.cells values.now) grow) }
        ensures keeps { Keeps self.new self.old }
    {
        let more = count_more(values, grow);
        let ranked = rank_cells(alloc, values)?;
        if let Some(codes) = find_codes(alloc, &self.encoding, values, &ranked)? {
            self.reserve(more)?;
            let step = Step::Stay;
            return Ok(Prepared { step, codes });
        }
        let (step, table) = self.step_to_entries(alloc, values, &ranked.entries, more)?;
        let codes = KeptCodes::Places(ranked.codes(alloc, values, &table)?);
        Ok(Prepared { step, codes })
    }

    /// Appends the values. Takes no memory.
    pub fn append<C: Measured>(&mut self, prepared: Prepared, values: &C)
        requires { IsPreparedFor self.old (C.cells values.now) true prepared }
        ensures values { self.new.values ≡ self.old.values ++ C.cells values.now }
        ensures layout { self.new.layout ≡ self.old.layout }
        ensures encoding { IsEncodingFor self.old.values self.old.encoding (C.cells values.now) self.new.encoding }
    {
        let Prepared { step, codes } = prepared;
        self.take(step);
        match codes {
            KeptCodes::Distances => self.extend_from(values),
            KeptCodes::Places(codes) => self.extend_with(values, &codes),
        }
    }

    /// Writes the values to the set places: the n-th value to the n-th set place. Takes no memory.
    pub fn overwrite(&mut self, prepared: Prepared, places: &Mask, values: &[Option<i64>])
        requires prepared { IsPreparedFor self.old values.now false prepared }
        requires places { len places.now ≡ length self.old.values }
        requires count { count_by (λ row. row) places.now.rows ≡ length values.now }
        ensures values { self.new.values ≡ overwritten places.now values.now self.old.values }
        ensures layout { self.new.layout ≡ self.old.layout }
        ensures encoding { IsEncodingFor self.old.values self.old.encoding values.now self.new.encoding }
    {
        let Prepared { step, codes } = prepared;
        self.take(step);
        self.put_runs(places, values, &codes);
    }
}
