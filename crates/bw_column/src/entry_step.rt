//! The step to a dictionary that includes other values.
ghost use Rattle.std.specs.Prelude.{All, Contains, IfOk, IfSome, [], length, ℤ, ◌++◌, ◌+◌, ◌^◌, ◌↔◌, ◌∷◌, ◌≡◌, ◌≤◌};
ghost use Rattle.bw_code.specs.Encodings.{AreCodes, AreDistinct, IsFit, code_of, kind_of};
ghost use Rattle.bw_code.specs.declared.encoding.Encoding.TheVariants as by;
ghost use Rattle.bw_code.specs.declared.kind.Kind.TheVariants as kinds;
ghost use Rattle.bw_column.specs.Columns.{Keeps};
ghost use Rattle.bw_column.specs.Preparing.{CanRaise, CanTake, after};
ghost use Rattle.bw_column.specs.Values.{IsNullOrHeld, known};
ghost use Rattle.bw_dictionary.specs.Merging.{StandsIn};

use crate::column::Column;
use crate::growing::{EntriesInUse, Grown};
use crate::step::Step;
use bw_cells::Measured;
use bw_code::Encoding;
use bw_dictionary::{AddedEntry, add_entry, dictionary_of, first_unmarked};
use bw_mask::Mask;
use std::alloc::{AllocError, Global};

/// A dictionary with one entry more, and what has to change for it.
#[derive(Drop)]
pub(crate) struct Raise {
    pub(crate) encoding: Encoding,
    /// The rows whose code rises by one: their values come after the new entry.
    pub(crate) above: Mask,
}

/// Such a dictionary, and the code of the new entry there.
#[derive(Drop)]
struct RaiseWithCode {
    raise: Raise,
    code: u64,
}

impl Column {
    /// What has to change for one entry more, if it is new, if all others are in use, and if codes keep their width.
    fn raise_for(
        &self,
        alloc: Global,
        own: EntriesInUse<'_>,
        x: i64,
    ) -> Result<Option<RaiseWithCode>, AllocError>
        requires own { self.now.encoding ≡ by.Dictionary own.entries.now }
        requires own_stands { (y : ℤ) → (StandsIn own.entries.now own.stands.now y ↔ Contains (known self.now.values) y) }
        ensures can { IfOk result (λ found. IfSome found (λ it. CanRaise self.now it.raise)) }
        ensures fits { IfOk result (λ found. IfSome found (λ it. IsFit (known self.now.values ++ x ∷ []) it.raise.encoding)) }
        ensures kind { IfOk result (λ found. IfSome found (λ it. kind_of it.raise.encoding ≡ kinds.Dictionary)) }
        ensures code { IfOk result (λ found. IfSome found (λ it. AreCodes (code_of it.raise.encoding) (x ∷ []) (it.code ∷ []))) }
    {
        let _sound = self.encoding();
        if self.encoding.encode(x).is_some() || first_unmarked(own.stands, 0) < own.entries.len() {
            return Ok(None);
        }
        let AddedEntry { entries, index } = add_entry(alloc, own.entries, x)?;
        let encoding = dictionary_of(entries);
        if encoding.width() != self.encoding.width() {
            return Ok(None);
        }
        let above = self.rows_with_code_from(alloc, index)?;
        Ok(Some(RaiseWithCode {
            raise: Raise { encoding, above },
            code: index as u64,
        }))
    }

    /// The step to a dictionary that includes those of the cells, with room for `more` further values, and the code that
    /// each of `entries`, their distinct values, then has. Where one new entry is all that changes, codes rise in place,
    /// and no second column is made. The column keeps its values, layout and encoding, also where it runs out of
    /// memory.
    pub(crate) fn step_to_entries<C: Measured>(
        &mut self,
        alloc: Global,
        cells: &C,
        entries: &[i64],
        more: usize,
    ) -> Result<(Step, Vec<u64>), AllocError>
        requires distinct { AreDistinct (known (C.cells cells.now)) entries.now }
        requires kind { kind_of self.old.encoding ≡ kinds.Dictionary }
        requires held { All (IsNullOrHeld self.old.layout) (C.cells cells.now) }
        requires few { length self.old.values + more ≤ 2 ^ 24 }
        ensures can { IfOk result (λ both. CanTake self.new both.0) }
        ensures values { IfOk result (λ both. (after self.new both.0).values ≡ self.old.values) }
        ensures layout { IfOk result (λ both. (after self.new both.0).layout ≡ self.old.layout) }
        ensures fits { IfOk result (λ both. IsFit (known (self.old.values ++ C.cells cells.now)) (after self.new both.0).encoding) }
        ensures kind { IfOk result (λ both. kind_of (after self.new both.0).encoding ≡ kinds.Dictionary) }
        ensures room { IfOk result (λ both. length self.old.values + more ≤ (after self.new both.0).room) }
        ensures codes { IfOk result (λ both. AreCodes (code_of (after self.new both.0).encoding) entries.now both.1.items) }
        ensures keeps { Keeps self.new self.old }
    {
        let _held = self.len();
        let own_entries = self.entries();
        let own_stands = self.standing(alloc, own_entries)?;
        let own = EntriesInUse {
            entries: own_entries,
            stands: &own_stands,
        };
        if entries.len() == 1 {
            if let Some(found) = self.raise_for(alloc, own, entries[0])? {
                let RaiseWithCode { raise, code } = found;
                let codes = Vec::from_elem(alloc, code, 1)?;
                self.reserve(more)?;
                return Ok((Step::Raise(raise), codes));
            }
        }
        let Grown { column, codes } = self.grown(alloc, own, cells, entries, more)?;
        Ok((Step::Replace(column), codes))
    }

    /// Takes the dictionary with one entry more. Takes no memory.
    pub(crate) fn raise_to(&mut self, raise: Raise)
        requires { CanRaise self.old raise }
        ensures values { self.new.values ≡ self.old.values }
        ensures layout { self.new.layout ≡ self.old.layout }
        ensures encoding { self.new.encoding ≡ raise.encoding }
        ensures room { self.old.room ≤ self.new.room }
    {
        let Raise { encoding, above } = raise;
        self.codes.shift(&above, 1, 0, self.encoding.width());
        self.encoding = encoding;
    }
}
