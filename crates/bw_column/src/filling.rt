//! Overwriting rows with one value. It has one code, so that no list of values or codes is needed.

ghost use Rattle.std.specs.Prelude.{All, IfOk, count_by, false, if◌then◌else◌, is_some, length, replicate, true, ℕ, ◌%◌, ◌&&◌, ◌+◌, ◌^◌, ◌≡◌, ◌≤◌};
ghost use Rattle.bw_mask.specs.Masks.{SameShape, bit_of, len, row_at};
ghost use Rattle.bw_column.specs.Codes.{IsCoded, code_for};
ghost use Rattle.bw_column.specs.Columns.{Keeps};
ghost use Rattle.bw_column.specs.Places.{filled_values, overwritten};
ghost use Rattle.bw_column.specs.Preparing.{IsEncodingFor, IsPreparedFor};
ghost use Rattle.bw_column.specs.Values.{IsNullOrHeld};

use crate::change::Prepared;
use crate::codes::{code_of, has_code_times};
use crate::column::Column;
use crate::kept::KeptCodes;
use crate::runs::put_presence;
use crate::step::Step;
use bw_mask::Mask;
use std::alloc::{AllocError, Global};

/// All words of rows are filled if more than one of so many rows is set. Of fewer rows, most words have none, and are
/// left out.
const DENSE: usize = 8;

/// Which of some rows of a word are non-null once they have this value.
fn present_rows(rows: u64, value: Option<i64>) -> u64
    ensures { (i : ℕ) → bit_of result i ≡ (bit_of rows i && is_some value) }
{
    if value.is_some() { rows } else { 0 }
}

/// Each of the rows becomes non-null, or each becomes null.
fn set_present(nonnull: &mut Mask, rows: &Mask, present: bool)
    requires { len rows.now ≡ len nonnull.old }
    ensures shape { SameShape nonnull.new nonnull.old }
    ensures rows { (j : ℕ) → row_at nonnull.new j ≡ (if row_at rows.now j then present else row_at nonnull.old j) }
{
    if present {
        nonnull.or_in(rows);
    } else {
        nonnull.andnot_in(rows);
    }
}

impl Column {
    /// Writes a value and its code to the set places, all of them at once.
    fn fill_places(&mut self, places: &Mask, value: Option<i64>, code: u64)
        requires coded { IsCoded self.old.encoding value }
        requires code { code ≡ code_for self.old.encoding value }
        requires held { IsNullOrHeld self.old.layout value }
        requires places { len places.now ≡ length self.old.values }
        ensures values { self.new.values ≡ overwritten places.now (replicate (count_by (λ row. row) places.now.rows) value) self.old.values }
        ensures layout { self.new.layout ≡ self.old.layout }
        ensures encoding { self.new.encoding ≡ self.old.encoding }
    {
        self.codes.fill_rows(places, code);
        set_present(&mut self.nonnull, places, value.is_some());
    }

    /// Writes a value and its code to some of at most 64 rows from row `at` on, the first row of a word: to row at + i
    /// where bit i of `rows` is set. Every other row keeps its value.
    fn fill_rows(&mut self, at: usize, n: usize, rows: u64, value: Option<i64>, code: u64)
        requires word { at % 64 ≡ 0 }
        requires few { n ≤ 64 }
        requires there { at + n ≤ length self.old.values }
        requires given { (i : ℕ) → n ≤ i → bit_of rows i ≡ false }
        requires coded { IsCoded self.old.encoding value }
        requires code { code ≡ code_for self.old.encoding value }
        requires held { IsNullOrHeld self.old.layout value }
        ensures values { self.new.values ≡ filled_values self.old.values at rows value }
        ensures layout { self.new.layout ≡ self.old.layout }
        ensures encoding { self.new.encoding ≡ self.old.encoding }
    {
        self.codes.fill_run(at, rows, code);
        put_presence(&mut self.nonnull, at, n, rows, present_rows(rows, value));
    }

    /// Writes a value and its code to the set places, a word of rows at a time.
    fn fill_with(&mut self, places: &Mask, value: Option<i64>, code: u64)
        requires coded { IsCoded self.old.encoding value }
        requires code { code ≡ code_for self.old.encoding value }
        requires held { IsNullOrHeld self.old.layout value }
        requires few { length self.old.values ≤ 2 ^ 24 }
        requires places { len places.now ≡ length self.old.values }
        ensures values { self.new.values ≡ overwritten places.now (replicate (count_by (λ row. row) places.now.rows) value) self.old.values }
        ensures layout { self.new.layout ≡ self.old.layout }
        ensures encoding { self.new.encoding ≡ self.old.encoding }
    {
        let end = places.len();
        let mut at = 0;
        while let Some(place) = places.next_from(at) {
            let start = place - place % 64;
            let n = (end - start).min(64);
            self.fill_rows(start, n, places.bits(start, n), value, code);
            at = start + n;
        }
    }

    /// Writes a value to the set places. It has a code if any place is set.
    fn fill_all(&mut self, places: &Mask, value: Option<i64>)
        requires coded { All (IsCoded self.old.encoding) (replicate (count_by (λ row. row) places.now.rows) value) }
        requires held { All (IsNullOrHeld self.old.layout) (replicate (count_by (λ row. row) places.now.rows) value) }
        requires few { length self.old.values ≤ 2 ^ 24 }
        requires places { len places.now ≡ length self.old.values }
        ensures values { self.new.values ≡ overwritten places.now (replicate (count_by (λ row. row) places.now.rows) value) self.old.values }
        ensures layout { self.new.layout ≡ self.old.layout }
        ensures encoding { self.new.encoding ≡ self.old.encoding }
    {
        if let Some(_place) = places.next_from(0) {
            let code = code_of(&self.encoding, value);
            if places.count() > places.len() / DENSE {
                self.fill_places(places, value, code);
            } else {
                self.fill_with(places, value, code);
            }
        }
    }

    /// Writes one value to all set places. Takes no memory.
    pub fn fill(&mut self, prepared: Prepared, places: &Mask, value: Option<i64>)
        requires prepared { IsPreparedFor self.old (replicate (count_by (λ row. row) places.now.rows) value) false prepared }
        requires places { len places.now ≡ length self.old.values }
        ensures values { self.new.values ≡ overwritten places.now (replicate (count_by (λ row. row) places.now.rows) value) self.old.values }
        ensures layout { self.new.layout ≡ self.old.layout }
        ensures encoding { IsEncodingFor self.old.values self.old.encoding (replicate (count_by (λ row. row) places.now.rows) value) self.new.encoding }
    {
        let Prepared { step, codes: _ } = prepared;
        self.take(step);
        self.fill_all(places, value);
    }

    /// Prepares to write `count` copies of a value in place of others, as `room_for` does for a list of values. The
    /// column keeps its values, layout and encoding, also where it runs out of memory; at most its room grows.
    pub fn room_to_fill(
        &mut self,
        alloc: Global,
        value: Option<i64>,
        count: usize,
    ) -> Result<Prepared, AllocError>
        requires { All (IsNullOrHeld self.old.layout) (replicate count value) }
        ensures prepared { IfOk result (IsPreparedFor self.new (replicate count value) false) }
        ensures keeps { Keeps self.new self.old }
    {
        let codes = KeptCodes::Distances;
        if has_code_times(&self.encoding, value, count) {
            self.reserve(0)?;
            let step = Step::Stay;
            return Ok(Prepared { step, codes });
        }
        let one = [value];
        let step = self.step_with(alloc, &one.as_slice(), 0)?;
        Ok(Prepared { step, codes })
    }
}
