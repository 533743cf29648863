//! Growing a column's dictionary by other values: the entries that some row still has are merged with the new ones, and
//! each code is mapped to its new index.

ghost use Rattle.std.specs.Prelude.{All, Contains, IfOk, IfSome, None, drop, if◌then◌else◌, is_some, length, slice_index, slice_index_or, take, true, ℕ, ℤ, ◌++◌, ◌+◌, ◌<◌, ◌^◌, ◌↔◌, ◌≡◌, ◌≤◌};
ghost use Rattle.bw_code.specs.Ascending.{IsAscending};
ghost use Rattle.bw_code.specs.Encodings.{AreCodes, AreDistinct, IsFit, code_of, kind_of, width};
ghost use Rattle.bw_code.specs.declared.encoding.Encoding.TheVariants as by;
ghost use Rattle.bw_code.specs.declared.kind.Kind.TheVariants as kinds;
ghost use Rattle.bw_mask.specs.Masks.{bit_of};
ghost use Rattle.bw_column.specs.Codes.{codes_for};
ghost use Rattle.bw_column.specs.Moves.{IsMoved, raised_code};
ghost use Rattle.bw_column.specs.Values.{IsNullOrHeld, known, widest};
ghost use Rattle.bw_dictionary.specs.Merging.{AreStandingCodes, StandsAt, StandsIn};

use crate::column::Column;
use crate::raising::{raise_codes, raised_from};
use bw_cells::Measured;
use bw_code::{Encoding, Layout};
use bw_dictionary::{
    MergedEntries, dictionary_of, first_unmarked, mark_standing, merge_entries, move_codes,
};
use std::alloc::{AllocError, Global};

/// How many of the rows before row `at` are in the same word of rows.
fn rows_before(at: usize) -> usize
    requires { 0 < at }
    ensures some { 0 < result }
    ensures few { result ≤ 64 }
    ensures there { result ≤ at }
{
    (at - 1) % 64 + 1
}

/// Replaces each code of a block by the table's value at its index, and by 0 where the row's bit isn't set. A table
/// that only raises the indices from one on isn't read, since its values may be far apart in memory.
fn map_codes(codes: &mut [u64], present: u64, moves: &[u64], from: Option<usize>)
    requires few { length codes.old ≤ 64 }
    requires inside { (k : ℕ) → k < length codes.old → bit_of present k ≡ true → slice_index codes.old k < length moves.now }
    requires raised { IfSome from (λ place. (m : ℕ) → m < length moves.now → slice_index moves.now m ≡ raised_code place m) }
    ensures count { length codes.new ≡ length codes.old }
    ensures each { (k : ℕ) → k < length codes.old → slice_index codes.new k ≡ (if bit_of present k then slice_index moves.now (slice_index codes.old k) else 0) }
{
    match from {
        Some(place) => raise_codes(codes, present, place as u64),
        None => move_codes(codes, present, moves),
    }
}

/// The entries of a dictionary, and which of them some row has.
#[derive(Clone, Copy)]
pub(crate) struct EntriesInUse<'a> {
    pub(crate) entries: &'a [i64],
    pub(crate) stands: &'a [bool],
    ghost ascending: { IsAscending entries.now },
    ghost flags: { length stands.now ≡ length entries.now },
}

/// A column whose dictionary has other values, too.
#[derive(Drop)]
pub(crate) struct Grown {
    pub(crate) column: Column,
    /// The codes that the other entries in use have in that dictionary, each at the entry's index.
    pub(crate) codes: Vec<u64>,
}

impl Column {
    /// The values that have a code in a column of kind DICTIONARY, ascending. The index of each is its code.
    pub fn entries(&self) -> &[i64]
        requires { kind_of self.now.encoding ≡ kinds.Dictionary }
        ensures is { self.now.encoding ≡ by.Dictionary result.now }
        ensures ascending { IsAscending result.now }
    {
        let Encoding::Dictionary(dictionary) = &self.encoding else {
            unreachable!()
        };
        dictionary.entries()
    }

    /// Fills `codes` with the codes of at most 64 rows from row `at` on, and returns which of the rows are non-null.
    #[tactic(auto, using(bw_code::proofs::Lists::made_len))]
    pub fn read_codes(&self, at: usize, codes: &mut [u64]) -> u64
        requires few { length codes.old ≤ 64 }
        requires there { at + length codes.old ≤ length self.now.values }
        ensures codes { codes.new ≡ take (length codes.old) (drop at (codes_for self.now.encoding self.now.values)) }
        ensures present { (i : ℕ) → bit_of result i ≡ is_some (slice_index_or (take (length codes.old) (drop at self.now.values)) i None) }
    {
        self.codes.read(at, codes);
        self.nonnull.bits(at, codes.len())
    }

    /// Marks the entries of its dictionary that some row has.
    fn mark_rows(&self, entries: &[i64], stands: &mut [bool])
        requires encoding { self.now.encoding ≡ by.Dictionary entries.now }
        requires count { length stands.old ≡ length entries.now }
        requires none { (m : ℕ) → StandsAt stands.old m → ⊥ }
        ensures count { length stands.new ≡ length stands.old }
        ensures stands { (x : ℤ) → (StandsIn entries.now stands.new x ↔ Contains (known self.now.values) x) }
    {
        let _sound = self.encoding();
        let mut list = [0; 64];
        let mut at = self.len();
        let mut first = 0;
        // From the last row backwards: where entries are few, all are marked after few rows, also where the newest
        // entry is only in the last row.
        while at > 0 {
            let n = rows_before(at);
            let codes = &mut list[..n];
            at -= n;
            let present = self.read_codes(at, codes);
            mark_standing(stands, codes, present);
            first = first_unmarked(stands, first);
            if first == entries.len() {
                return;
            }
        }
    }

    /// Which entries of its dictionary some row has.
    pub(crate) fn standing(&self, alloc: Global, entries: &[i64]) -> Result<Vec<bool>, AllocError>
        requires { self.now.encoding ≡ by.Dictionary entries.now }
        ensures count { IfOk result (λ stands. length stands.items ≡ length entries.now) }
        ensures stands { IfOk result (λ stands. (x : ℤ) → (StandsIn entries.now stands.items x ↔ Contains (known self.now.values) x)) }
    {
        let mut stands = Vec::from_elem(alloc, false, entries.len())?;
        self.mark_rows(entries, &mut stands);
        Ok(stands)
    }

    /// The same values in a layout and another dictionary, with room for `more` further values. `moves` has the new
    /// code of each value at the index of its old code. `from` is the index from which on each moves by one, if that
    /// is how they move.
    fn mapped(
        &self,
        alloc: Global,
        layout: Layout,
        encoding: Encoding,
        moves: &[u64],
        from: Option<usize>,
        more: usize,
    ) -> Result<Column, AllocError>
        requires moved { All (IsMoved self.now.encoding encoding moves.now) self.now.values }
        requires raised { IfSome from (λ place. (m : ℕ) → m < length moves.now → slice_index moves.now m ≡ raised_code place m) }
        requires narrow { width encoding ≤ widest layout }
        requires held { All (IsNullOrHeld layout) self.now.values }
        requires few { length self.now.values + more ≤ 2 ^ 24 }
        ensures values { IfOk result (λ c. c.values ≡ self.now.values) }
        ensures layout { IfOk result (λ c. c.layout ≡ layout) }
        ensures encoding { IfOk result (λ c. c.encoding ≡ encoding) }
        ensures room { IfOk result (λ c. length self.now.values + more ≤ c.room) }
    {
        let _sound = self.encoding();
        let _other_sound = encoding.width();
        let mut column = Column::with_room(alloc, layout, encoding, self.len() + more)?;
        let mut list = [0; 64];
        let mut at = 0;
        while at < self.len() {
            let n = (self.len() - at).min(64);
            let codes = &mut list[..n];
            let present = self.read_codes(at, codes);
            map_codes(codes, present, moves, from);
            column.extend_rows(codes, present);
            at += n;
        }
        Ok(column)
    }

    /// The same, without looking at the table for each row where no entry moves, or all from one on move by one; from V
    /// to V then by planes.
    fn moved(
        &self,
        alloc: Global,
        layout: Layout,
        encoding: Encoding,
        moves: &[u64],
        more: usize,
    ) -> Result<Column, AllocError>
        requires kind { kind_of self.now.encoding ≡ kinds.Dictionary }
        requires moved { All (IsMoved self.now.encoding encoding moves.now) self.now.values }
        requires narrow { width encoding ≤ widest layout }
        requires held { All (IsNullOrHeld layout) self.now.values }
        requires few { length self.now.values + more ≤ 2 ^ 24 }
        ensures values { IfOk result (λ c. c.values ≡ self.now.values) }
        ensures layout { IfOk result (λ c. c.layout ≡ layout) }
        ensures encoding { IfOk result (λ c. c.encoding ≡ encoding) }
        ensures room { IfOk result (λ c. length self.now.values + more ≤ c.room) }
    {
        let from = raised_from(moves);
        if layout == Layout::V && self.layout() == Layout::V {
            if let Some(place) = from {
                return self.raised(alloc, encoding, place, more);
            }
        }
        self.mapped(alloc, layout, encoding, moves, from, more)
    }

    /// The same values in a layout and a dictionary that includes those of the cells, with room for `more` further
    /// values. `own` are the entries of the column that some row has, and `others` those that some cell has.
    pub(crate) fn grown_in<C: Measured>(
        &self,
        alloc: Global,
        layout: Layout,
        own: EntriesInUse<'_>,
        cells: &C,
        others: EntriesInUse<'_>,
        more: usize,
    ) -> Result<Grown, AllocError>
        requires own { self.now.encoding ≡ by.Dictionary own.entries.now }
        requires own_stands { (x : ℤ) → (StandsIn own.entries.now own.stands.now x ↔ Contains (known self.now.values) x) }
        requires others { (x : ℤ) → (StandsIn others.entries.now others.stands.now x ↔ Contains (known (C.cells cells.now)) x) }
        requires own_held { All (IsNullOrHeld layout) self.now.values }
        requires held { All (IsNullOrHeld layout) (C.cells cells.now) }
        requires few { length self.now.values + more ≤ 2 ^ 24 }
        ensures values { IfOk result (λ g. g.column.values ≡ self.now.values) }
        ensures layout { IfOk result (λ g. g.column.layout ≡ layout) }
        ensures fits { IfOk result (λ g. IsFit (known (self.now.values ++ C.cells cells.now)) g.column.encoding) }
        ensures kind { IfOk result (λ g. kind_of g.column.encoding ≡ kinds.Dictionary) }
        ensures room { IfOk result (λ g. length self.now.values + more ≤ g.column.room) }
        ensures codes { IfOk result (λ g. AreStandingCodes (code_of g.column.encoding) others.entry.entries.now others.entry.stands.now g.codes.items) }
    {
        let MergedEntries {
            entries,
            moves,
            places: codes,
        } = merge_entries(
            alloc,
            own.entries,
            own.stands,
            others.entries,
            others.stands,
        )?;
        let encoding = dictionary_of(entries);
        let column = self.moved(alloc, layout, encoding, &moves, more)?;
        Ok(Grown { column, codes })
    }

    /// The same values in a dictionary that includes those of the cells, with room for `more` further values. `own` are
    /// the entries of the column that some row has, and `entries` are the distinct values of the cells.
    pub(crate) fn grown<C: Measured>(
        &self,
        alloc: Global,
        own: EntriesInUse<'_>,
        cells: &C,
        entries: &[i64],
        more: usize,
    ) -> Result<Grown, AllocError>
        requires own { self.now.encoding ≡ by.Dictionary own.entries.now }
        requires own_stands { (x : ℤ) → (StandsIn own.entries.now own.stands.now x ↔ Contains (known self.now.values) x) }
        requires distinct { AreDistinct (known (C.cells cells.now)) entries.now }
        requires held { All (IsNullOrHeld self.now.layout) (C.cells cells.now) }
        requires few { length self.now.values + more ≤ 2 ^ 24 }
        ensures values { IfOk result (λ g. g.column.values ≡ self.now.values) }
        ensures layout { IfOk result (λ g. g.column.layout ≡ self.now.layout) }
        ensures fits { IfOk result (λ g. IsFit (known (self.now.values ++ C.cells cells.now)) g.column.encoding) }
        ensures kind { IfOk result (λ g. kind_of g.column.encoding ≡ kinds.Dictionary) }
        ensures room { IfOk result (λ g. length self.now.values + more ≤ g.column.room) }
        ensures codes { IfOk result (λ g. AreCodes (code_of g.column.encoding) entries.now g.codes.items) }
    {
        let _held = self.len();
        let stands = Vec::from_elem(alloc, true, entries.len())?;
        let others = EntriesInUse {
            entries,
            stands: &stands,
        };
        self.grown_in(alloc, self.layout(), own, cells, others, more)
    }

    /// The same values in a layout and a dictionary of only those entries that some row has. No value is read, only
    /// codes are mapped.
    pub(crate) fn rebuilt_in(&self, alloc: Global, layout: Layout) -> Result<Column, AllocError>
        requires kind { kind_of self.now.encoding ≡ kinds.Dictionary }
        requires held { All (IsNullOrHeld layout) self.now.values }
        ensures values { IfOk result (λ c. c.values ≡ self.now.values) }
        ensures layout { IfOk result (λ c. c.layout ≡ layout) }
        ensures fits { IfOk result (λ c. IsFit (known self.now.values) c.encoding) }
        ensures kind { IfOk result (λ c. kind_of c.encoding ≡ kinds.Dictionary) }
    {
        let _few = self.len();
        let entries = self.entries();
        let stands = self.standing(alloc, entries)?;
        let own = EntriesInUse {
            entries,
            stands: &stands,
        };
        let none = [];
        let cells = none.as_slice();
        let others = EntriesInUse {
            entries: &[],
            stands: &[],
        };
        let grown = self.grown_in(alloc, layout, own, &cells, others, 0)?;
        Ok(grown.column)
    }
}
