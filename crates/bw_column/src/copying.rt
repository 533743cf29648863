//! Copying values from another column, a word of rows at a time, by their codes.

ghost use Rattle.std.specs.Prelude.{All, IfOk, IsTrue, List, Option, [], drop, false, if◌then◌else◌, length, slice_index, take, ℕ, ℤ, ◌%◌, ◌&&◌, ◌++◌, ◌+◌, ◌<◌, ◌^◌, ◌↔◌, ◌≡◌, ◌≤◌};
ghost use Rattle.bw_mask.specs.Masks.{bit_of, len};
ghost use Rattle.bw_code.specs.Encodings.{IsWithin, kind_of};
ghost use Rattle.bw_code.specs.Fittings.{AreEnds};
ghost use Rattle.bw_code.specs.declared.encoding.Encoding.TheVariants as by;
ghost use Rattle.bw_code.specs.declared.kind.Kind.TheVariants as kind;
ghost use Rattle.bw_code.specs.declared.kind.Layout.TheVariants as layouts;
ghost use Rattle.bw_column.specs.Codes.{IsCoded};
ghost use Rattle.bw_column.specs.Columns.{Keeps};
ghost use Rattle.bw_column.specs.Copies.{IsCopyPreparedFor, IsMasked, layout_of_copy, masked, step_alone};
ghost use Rattle.bw_column.specs.Moves.{IsMoved};
ghost use Rattle.bw_column.specs.Places.{chosen_values, overwritten, put_values};
ghost use Rattle.bw_column.specs.Preparing.{IsEncodingFor, IsPreparedFor, after};
ghost use Rattle.bw_column.specs.Values.{IsNullOrHeld, known};

use crate::codes::greatest_code;
use crate::column::Column;
use crate::growing::EntriesInUse;
use crate::step::Step;
use crate::within::has_top;
use bw_cells::Measured;
use bw_code::{Encoding, Ends, Kind, Layout, Offset};
use bw_dictionary::{dictionary_like, find_standing, move_codes};
use bw_mask::{Mask, has_bit};
use std::alloc::{AllocError, Global};
use std::marker::Model;

/// The codes by which a column takes the values of a copy.
#[derive(Drop)]
pub(crate) enum CopiedCodes {
    /// Distances from the column's base.
    Distances,
    /// For each code in the copy's dictionary that a row has, the code of the same value in the column's.
    Moved(Vec<u64>),
}

/// A copy, and what a column has prepared to take its values.
#[derive(Drop)]
pub struct PreparedCopy {
    pub(crate) step: Step,
    pub(crate) codes: CopiedCodes,
    pub(crate) copy: Column,
}

impl Model for PreparedCopy {
    ghost use Rattle.bw_column.specs.Copies.{CopyPreparation};

    ghost Value = { CopyPreparation };

    ghost view = { λ p. record { step = p.step; codes = p.codes; copy = p.copy } };
}

/// Whether bases and widths alone show that each value with a code in `other` has one in `offset`, too.
fn covers(offset: Offset, other: Offset) -> bool
    ensures { IsTrue result → (x : ℤ) → IsWithin other x → IsWithin offset x }
{
    if other.base < offset.base {
        return false;
    }
    let lift = other.base.abs_diff(offset.base);
    let greatest = greatest_code(offset);
    lift <= greatest && greatest_code(other) <= greatest - lift
}

/// Whether values between these ends have codes in an offset encoding.
pub(crate) fn spans(offset: Offset, ends: Option<Ends>) -> bool
    ensures { (values : List (Option ℤ)) → AreEnds (known values) ends → (IsTrue result ↔ All (IsCoded (by.Offset offset)) values) }
{
    let Some(Ends { least, greatest }) = ends else {
        return true;
    };
    if least < offset.base {
        return false;
    }
    greatest.abs_diff(offset.base) <= greatest_code(offset)
}

/// Sets to 0 the code of each row that is not in both words of bits. Returns the rows that are in both.
#[tactic(auto, using(bw_mask::proofs::Bits::bit_of_and))]
fn keep_rows(codes: &mut [u64], present: u64, rows: u64) -> u64
    requires { length codes.old ≤ 64 }
    ensures count { length codes.new ≡ length codes.old }
    ensures each { (k : ℕ) → k < length codes.old → slice_index codes.new k ≡ (if bit_of result k then slice_index codes.old k else 0) }
    ensures kept { (k : ℕ) → bit_of result k ≡ (bit_of present k && bit_of rows k) }
{
    let kept = present & rows;
    for i in 0..codes.len() {
        codes[i] = if has_bit(kept, i) { codes[i] } else { 0 };
    }
    kept
}

/// A copy of an encoding.
fn encoding_like(alloc: Global, encoding: &Encoding) -> Result<Encoding, AllocError>
    ensures { IfOk result (λ e. e ≡ encoding.now) }
{
    match encoding {
        Encoding::Offset(offset) => Ok(Encoding::Offset(*offset)),
        Encoding::Dictionary(dictionary) => dictionary_like(alloc, dictionary.entries()),
    }
}

impl Column {
    /// A copy of the values in the rows of a mask, in the same encoding, with NULL in the other rows: distances in V or S
    /// in the same layout, all others as plain codes. It stays the same while the columns change.
    pub fn copy_at(&self, alloc: Global, places: &Mask) -> Result<Column, AllocError>
        requires { len places.now ≡ length self.now.values }
        ensures values { IfOk result (λ copy. copy.values ≡ masked places.now self.now.values) }
        ensures masked { IfOk result (λ copy. IsMasked places.now copy.values) }
        ensures held { IfOk result (λ copy. All (IsNullOrHeld self.now.layout) copy.values) }
        ensures encoding { IfOk result (λ copy. copy.encoding ≡ self.now.encoding) }
        ensures layout { IfOk result (λ copy. copy.layout ≡ layout_of_copy self.now.layout (kind_of self.now.encoding)) }
    {
        let _held = self.len();
        match (&self.encoding, self.layout()) {
            (Encoding::Offset(offset), Layout::V | Layout::S) => {
                self.stored_copy_at(alloc, *offset, places)
            }
            _ => self.plain_copy_at(alloc, places),
        }
    }

    /// Such a copy as plain codes.
    fn plain_copy_at(&self, alloc: Global, places: &Mask) -> Result<Column, AllocError>
        requires { len places.now ≡ length self.now.values }
        ensures values { IfOk result (λ copy. copy.values ≡ masked places.now self.now.values) }
        ensures encoding { IfOk result (λ copy. copy.encoding ≡ self.now.encoding) }
        ensures layout { IfOk result (λ copy. copy.layout ≡ layouts.P) }
    {
        let _few = self.len();
        let _sound = self.encoding();
        let encoding = encoding_like(alloc, &self.encoding)?;
        let mut copy = Column::with_room(alloc, Layout::P, encoding, self.len())?;
        copy.extend_masked(self, places);
        Ok(copy)
    }

    /// Appends the values that another column of this encoding has in the rows of a mask, and NULL for each other row,
    /// within the room.
    fn extend_masked(&mut self, other: &Column, places: &Mask)
        requires places { len places.now ≡ length other.now.values }
        requires none { self.old.values ≡ [] }
        requires encoding { self.old.encoding ≡ other.now.encoding }
        requires held { All (IsNullOrHeld self.old.layout) other.now.values }
        requires room { length other.now.values ≤ self.old.room }
        requires few { length other.now.values ≤ 2 ^ 24 }
        ensures values { self.new.values ≡ masked places.now other.now.values }
        ensures layout { self.new.layout ≡ self.old.layout }
        ensures encoding { self.new.encoding ≡ self.old.encoding }
    {
        let mut at = 0;
        while at < other.len() {
            let n = (other.len() - at).min(64);
            self.extend_masked_run(other, places, at, n);
            at += n;
        }
    }

    /// Appends n of these values from row `at` on, at most 64, by their codes.
    fn extend_masked_run(&mut self, other: &Column, places: &Mask, at: usize, n: usize)
        requires places { len places.now ≡ length other.now.values }
        requires encoding { self.old.encoding ≡ other.now.encoding }
        requires held { All (IsNullOrHeld self.old.layout) other.now.values }
        requires block { n ≤ 64 }
        requires inside { at + n ≤ length other.now.values }
        requires room { length self.old.values + n ≤ self.old.room }
        requires few { length self.old.values + n ≤ 2 ^ 24 }
        ensures values { self.new.values ≡ self.old.values ++ take n (drop at (masked places.now other.now.values)) }
        ensures layout { self.new.layout ≡ self.old.layout }
        ensures encoding { self.new.encoding ≡ self.old.encoding }
        ensures room { self.old.room ≤ self.new.room }
    {
        let _sound = other.encoding();
        let mut list = [0; 64];
        let codes = &mut list[..n];
        let present = other.read_codes(at, codes);
        let kept = keep_rows(codes, present, places.bits(at, n));
        self.extend_rows(codes, kept);
    }

    /// Prepares to take the values of a copy of the same kind. Where one of them has no code, the result includes the
    /// step to an encoding that fits all values, as in `room_for`. The column keeps its values, layout and encoding,
    /// also where it runs out of memory; at most its room grows.
    pub fn room_to_copy(
        &mut self,
        alloc: Global,
        places: &Mask,
        copy: Column,
    ) -> Result<PreparedCopy, AllocError>
        requires kind { kind_of copy.encoding ≡ kind_of self.old.encoding }
        requires masked { IsMasked places.now copy.values }
        requires held { All (IsNullOrHeld self.old.layout) copy.values }
        ensures prepared { IfOk result (IsCopyPreparedFor self.new places.now) }
        ensures values { IfOk result (λ prepared. prepared.copy.values ≡ copy.values) }
        ensures keeps { Keeps self.new self.old }
    {
        match self.kind() {
            Kind::Offset => {
                let step = self.step_to_copy(alloc, places, &copy)?;
                let codes = CopiedCodes::Distances;
                Ok(PreparedCopy { step, codes, copy })
            }
            Kind::Dictionary => {
                let (step, moves) = self.step_and_moves(alloc, places, &copy)?;
                let codes = CopiedCodes::Moved(moves);
                Ok(PreparedCopy { step, codes, copy })
            }
        }
    }

    /// The step before a column of kind OFFSET takes the values of a copy.
    fn step_to_copy(
        &mut self,
        alloc: Global,
        places: &Mask,
        copy: &Column,
    ) -> Result<Step, AllocError>
        requires own { kind_of self.old.encoding ≡ kind.Offset }
        requires kind { kind_of copy.now.encoding ≡ kind.Offset }
        requires masked { IsMasked places.now copy.now.values }
        requires held { All (IsNullOrHeld self.old.layout) copy.now.values }
        ensures prepared { IfOk result (λ step. IsPreparedFor self.new (chosen_values places.now copy.now.values) false (step_alone step)) }
        ensures kind { IfOk result (λ step. kind_of (after self.new step).encoding ≡ kind.Offset) }
        ensures keeps { Keeps self.new self.old }
    {
        let _few = self.len();
        let _many = copy.len();
        if self.has_codes_of(copy) {
            self.reserve(0)?;
            return Ok(Step::Stay);
        }
        let step = self.step_with(alloc, copy, 0)?;
        Ok(step)
    }

    /// The step before a column of kind DICTIONARY takes the values of a copy, and a table of the codes that they then
    /// have. Only the entries that some row has are looked up or merged. No row is read beyond its code.
    fn step_and_moves(
        &mut self,
        alloc: Global,
        places: &Mask,
        copy: &Column,
    ) -> Result<(Step, Vec<u64>), AllocError>
        requires own { kind_of self.old.encoding ≡ kind.Dictionary }
        requires kind { kind_of copy.now.encoding ≡ kind.Dictionary }
        requires masked { IsMasked places.now copy.now.values }
        requires held { All (IsNullOrHeld self.old.layout) copy.now.values }
        ensures prepared { IfOk result (λ both. IsPreparedFor self.new (chosen_values places.now copy.now.values) false (step_alone both.0)) }
        ensures moves { IfOk result (λ both. All (IsMoved copy.now.encoding (after self.new both.0).encoding both.1.items) copy.now.values) }
        ensures keeps { Keeps self.new self.old }
    {
        let _few = self.len();
        let _sound = copy.encoding();
        let entries = copy.entries();
        let stands = copy.standing(alloc, entries)?;
        if let Some(moves) = find_standing(alloc, self.entries(), entries, &stands)? {
            self.reserve(0)?;
            return Ok((Step::Stay, moves));
        }
        let own_entries = self.entries();
        let own_stands = self.standing(alloc, own_entries)?;
        let own = EntriesInUse {
            entries: own_entries,
            stands: &own_stands,
        };
        let others = EntriesInUse {
            entries,
            stands: &stands,
        };
        let grown = self.grown_in(alloc, self.layout(), own, copy, others, 0)?;
        Ok((Step::Replace(grown.column), grown.codes))
    }

    /// Whether each value of another column has a code in this one. Both are of kind OFFSET. Bases and widths may
    /// decide it without reading values; else the least and greatest value do.
    pub(crate) fn has_codes_of(&self, other: &Column) -> bool
        requires own { kind_of self.now.encoding ≡ kind.Offset }
        requires kind { kind_of other.now.encoding ≡ kind.Offset }
        ensures { IsTrue result ↔ All (IsCoded self.now.encoding) other.now.values }
    {
        let Encoding::Offset(own) = self.encoding else {
            unreachable!()
        };
        let Encoding::Offset(offset) = other.encoding else {
            unreachable!()
        };
        let _sound = other.encoding();
        if covers(own, offset) {
            return true;
        }
        // Planes tell their ends sooner than all distances.
        if other.layout() == Layout::V || !has_top(own) {
            return spans(own, other.ends());
        }
        other.lies_within(own)
    }

    /// Writes the values of a copy to some of at most 64 rows from row `at` on, the first row of a word: to row at + i
    /// where bit i of `rows` is set, by their codes. Every other row keeps its value.
    fn copy_codes(&mut self, offset: Offset, at: usize, n: usize, rows: u64, copy: &Column)
        requires word { at % 64 ≡ 0 }
        requires few { n ≤ 64 }
        requires there { at + n ≤ length self.old.values }
        requires copied { at + n ≤ length copy.now.values }
        requires given { (i : ℕ) → n ≤ i → bit_of rows i ≡ false }
        requires encoding { self.old.encoding ≡ by.Offset offset }
        requires coded { All (IsCoded self.old.encoding) copy.now.values }
        requires held { All (IsNullOrHeld self.old.layout) copy.now.values }
        ensures values { self.new.values ≡ put_values self.old.values at rows (take n (drop at copy.now.values)) }
        ensures layout { self.new.layout ≡ self.old.layout }
        ensures encoding { self.new.encoding ≡ self.old.encoding }
    {
        let mut list = [0; 64];
        let codes = &mut list[..n];
        let present = copy.distances(at, offset.base, codes);
        self.put_coded(at, rows, codes, present);
    }

    /// Writes the values of a copy to the set places by their codes, a word of rows at a time.
    pub(crate) fn copy_runs(&mut self, offset: Offset, places: &Mask, copy: &Column)
        requires encoding { self.old.encoding ≡ by.Offset offset }
        requires coded { All (IsCoded self.old.encoding) copy.now.values }
        requires held { All (IsNullOrHeld self.old.layout) copy.now.values }
        requires copied { length copy.now.values ≡ length self.old.values }
        requires places { len places.now ≡ length self.old.values }
        ensures values { self.new.values ≡ overwritten places.now (chosen_values places.now copy.now.values) self.old.values }
        ensures layout { self.new.layout ≡ self.old.layout }
        ensures encoding { self.new.encoding ≡ self.old.encoding }
    {
        let end = places.len();
        let mut at = 0;
        while let Some(place) = places.next_from(at) {
            let start = place - place % 64;
            let n = (end - start).min(64);
            self.copy_codes(offset, start, n, places.bits(start, n), copy);
            at = start + n;
        }
    }

    /// Writes the values of a copy to some of at most 64 rows, as `copy_codes`, by a table of the codes that they have
    /// in this column.
    fn copy_moved(&mut self, at: usize, n: usize, rows: u64, copy: &Column, moves: &[u64])
        requires word { at % 64 ≡ 0 }
        requires few { n ≤ 64 }
        requires there { at + n ≤ length self.old.values }
        requires copied { at + n ≤ length copy.now.values }
        requires given { (i : ℕ) → n ≤ i → bit_of rows i ≡ false }
        requires moved { All (IsMoved copy.now.encoding self.old.encoding moves.now) copy.now.values }
        requires held { All (IsNullOrHeld self.old.layout) copy.now.values }
        ensures values { self.new.values ≡ put_values self.old.values at rows (take n (drop at copy.now.values)) }
        ensures layout { self.new.layout ≡ self.old.layout }
        ensures encoding { self.new.encoding ≡ self.old.encoding }
    {
        let _own = self.encoding();
        let _sound = copy.encoding();
        let mut list = [0; 64];
        let codes = &mut list[..n];
        let present = copy.read_codes(at, codes);
        move_codes(codes, present, moves);
        self.put_coded(at, rows, codes, present);
    }

    /// Writes the values of a copy to the set places by such a table, a word of rows at a time.
    fn copy_entries(&mut self, places: &Mask, copy: &Column, moves: &[u64])
        requires moved { All (IsMoved copy.now.encoding self.old.encoding moves.now) copy.now.values }
        requires held { All (IsNullOrHeld self.old.layout) copy.now.values }
        requires copied { length copy.now.values ≡ length self.old.values }
        requires places { len places.now ≡ length self.old.values }
        ensures values { self.new.values ≡ overwritten places.now (chosen_values places.now copy.now.values) self.old.values }
        ensures layout { self.new.layout ≡ self.old.layout }
        ensures encoding { self.new.encoding ≡ self.old.encoding }
    {
        let end = places.len();
        let mut at = 0;
        while let Some(place) = places.next_from(at) {
            let start = place - place % 64;
            let n = (end - start).min(64);
            self.copy_moved(start, n, places.bits(start, n), copy, moves);
            at = start + n;
        }
    }

    /// Writes the values of a copy to the set places, from which the copy was taken. Takes no memory.
    pub fn copy_from(&mut self, prepared: PreparedCopy, places: &Mask)
        requires prepared { IsCopyPreparedFor self.old places.now prepared }
        requires places { len places.now ≡ length self.old.values }
        ensures values { self.new.values ≡ overwritten places.now (chosen_values places.now prepared.copy.values) self.old.values }
        ensures layout { self.new.layout ≡ self.old.layout }
        ensures encoding { IsEncodingFor self.old.values self.old.encoding (chosen_values places.now prepared.copy.values) self.new.encoding }
    {
        let PreparedCopy { step, codes, copy } = prepared;
        self.take(step);
        match codes {
            CopiedCodes::Distances => {
                let Encoding::Offset(offset) = self.encoding else {
                    unreachable!()
                };
                self.copy_distances(offset, places, &copy);
            }
            CopiedCodes::Moved(moves) => self.copy_entries(places, &copy, &moves),
        }
    }
}
