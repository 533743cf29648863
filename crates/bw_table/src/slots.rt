//! The slots of a table, stored by columns.

ghost use Rattle.std.specs.Prelude.{All, Err, IfOk, OnErr, OnOk, [], length, map, slice_index_or, ℕ, ◌+◌, ◌<◌, ◌^◌, ◌≡◌, ◌≢◌, ◌≤◌};
ghost use Rattle.std.specs.List.{AllPairs};
ghost use Rattle.bw_mask.specs.Masks.{len, row_at};
ghost use Rattle.bw_code.specs.Encodings.{kind_of};
ghost use Rattle.bw_code.specs.declared.encoding.Encoding.{Encoding};
ghost use Rattle.bw_code.specs.declared.kind.Layout.{Layout};
ghost use Rattle.bw_code.specs.declared.kind.Layout.TheVariants.{P};
ghost use Rattle.bw_column.specs.Values.{IsNullOrHeld};
ghost use Rattle.bw_table.specs.Changes.{AreAppended, AreInserted, AreRebuilt, AreUpdated, HoldAsChosen, IsFull, rows_found, slots_without, value_for};
ghost use Rattle.bw_table.specs.Sets.{IsThere};
ghost use Rattle.bw_table.specs.Slots.{IsHeldRow, SlotsView, live_slots, slot_at, slot_column, slot_limit};
ghost use Rattle.bw_table.specs.declared.fault.TableFault.TheVariants.{Full, Range};

use crate::appending::{apply, prepare, push_live};
use crate::choice::Choice;
use crate::exchanging::{exchange_columns, exchanged_columns};
use crate::fault::TableFault;
use crate::rebuilding::build_anew;
use crate::rows::Rows;
use crate::setting::{SetTo, apply_sets, prepare_sets};
use bw_column::Column;
use bw_mask::Mask;
use std::alloc::{AllocError, Global};
use std::marker::Model;

/// The largest number of slots.
const SLOT_LIMIT: usize = 16_777_216;

/// The slots of a table: columns of equal length, and which slots are live. Contracts see the list of the slots.
#[derive(Drop)]
pub struct Slots {
    pub(crate) columns: Vec<Column>,
    pub(crate) live: Mask,
}

impl Model for Slots {
    ghost use Rattle.std.specs.Prelude.{map};
    ghost use Rattle.bw_table.specs.Slots.{AreColumns, SlotsView, slots_of};

    ghost Value = { SlotsView };

    ghost view = { λ s. record { slots = slots_of s.columns.items s.live; layouts = map (λ column. column.layout) s.columns.items; encodings = map (λ column. column.encoding) s.columns.items } };

    ghost invariant = { λ s. AreColumns s.columns.items s.live };
}

impl Slots {
    /// The number of slots.
    #[tactic(auto, using(crate::proofs::Across::slots_count))]
    pub fn len(&self) -> usize
        ensures count { result ≡ length self.now.slots }
        ensures few { result ≤ slot_limit }
    {
        self.live.len()
    }

    /// The number of columns. Each slot has a value for each column, which the column's layout holds.
    #[tactic(auto, using(crate::proofs::Across::slots_wide, crate::proofs::Across::slots_held))]
    pub fn width(&self) -> usize
        ensures count { result ≡ length self.now.encodings }
        ensures wide { All (λ slot. length slot.row ≡ length self.now.encodings) self.now.slots }
        ensures held { All (λ slot. IsHeldRow self.now.layouts slot.row) self.now.slots }
    {
        self.columns.len()
    }

    /// The number of live slots.
    #[tactic(auto, using(crate::proofs::Updated::live_count))]
    pub fn live_count(&self) -> usize
        ensures count { result ≡ length (live_slots self.now.slots) }
        ensures few { result ≤ slot_limit }
    {
        self.live.count()
    }

    /// Appends live slots with these rows. If it runs out of memory, nothing changes.
    fn append(&mut self, alloc: Global, rows: &Rows<'_>) -> Result<(), AllocError>
        requires held { All (IsHeldRow self.old.layouts) rows.now }
        requires few { length self.old.slots + length rows.now ≤ 2 ^ 24 }
        ensures appended { OnOk result (AreAppended self.old rows.now self.new) }
        ensures layouts { self.new.layouts ≡ self.old.layouts }
        ensures kinds { map kind_of self.new.encodings ≡ map kind_of self.old.encodings }
        ensures unchanged { OnErr result (self.new ≡ self.old) }
    {
        let prepared = prepare(&mut self.columns, alloc, rows)?;
        self.live.reserve(rows.len())?;
        apply(&mut self.columns, prepared, rows);
        push_live(&mut self.live, rows.len());
        Ok(())
    }

    /// The live slots alone, with each column rebuilt and the choices applied.
    pub(crate) fn rebuilt(
        &self,
        alloc: Global,
        choices: &[(usize, Choice)],
    ) -> Result<Slots, AllocError>
        requires { HoldAsChosen choices.now self.now }
        ensures { IfOk result (AreRebuilt choices.now self.now) }
    {
        let columns = build_anew(&self.columns, alloc, &self.live, choices)?;
        let live = Mask::filled(alloc, self.live.count(), true)?;
        Ok(Slots { columns, live })
    }

    /// Drops the dead slots, and appends live slots with these rows. If it runs out of memory, nothing changes.
    #[tactic(auto, using(crate::proofs::SameKinds::rebuilt_kinds, crate::proofs::SameKinds::rebuilt_layouts))]
    fn append_compact(&mut self, alloc: Global, rows: &Rows<'_>) -> Result<(), AllocError>
        requires held { All (IsHeldRow self.old.layouts) rows.now }
        requires few { length (live_slots self.old.slots) + length rows.now ≤ 2 ^ 24 }
        ensures appended { OnOk result ((compact : SlotsView) × AreRebuilt [] self.old compact × AreAppended compact rows.now self.new) }
        ensures layouts { self.new.layouts ≡ self.old.layouts }
        ensures kinds { map kind_of self.new.encodings ≡ map kind_of self.old.encodings }
        ensures unchanged { OnErr result (self.new ≡ self.old) }
    {
        // Each value is held by its column's layout.
        let _held = self.width();
        let mut compact = self.rebuilt(alloc, &[])?;
        compact.append(alloc, rows)?;
        *self = compact;
        Ok(())
    }

    /// Appends live slots with these rows. If there are not enough slots, the dead ones are dropped first. Fails if the
    /// live slots and the rows are too many, or if it runs out of memory; then nothing changes.
    #[tactic(auto, using(crate::proofs::Inserted::fewer_live, crate::proofs::Inserted::inserted_behind, crate::proofs::Inserted::inserted_compact))]
    pub(crate) fn insert(&mut self, alloc: Global, rows: &Rows<'_>) -> Result<(), TableFault>
        requires held { All (IsHeldRow self.old.layouts) rows.now }
        ensures inserted { OnOk result (AreInserted self.old rows.now self.new) }
        ensures full { IsFull self.old rows.now → result ≡ Err Full }
        ensures room { (IsFull self.old rows.now → ⊥) → result ≢ Err Full }
        ensures fault { result ≢ Err Range }
        ensures layouts { self.new.layouts ≡ self.old.layouts }
        ensures kinds { map kind_of self.new.encodings ≡ map kind_of self.old.encodings }
        ensures unchanged { OnErr result (self.new ≡ self.old) }
    {
        if rows.len() <= SLOT_LIMIT - self.len() {
            self.append(alloc, rows)?;
            return Ok(());
        }
        if rows.len() > SLOT_LIMIT - self.live_count() {
            return Err(TableFault::Full);
        }
        self.append_compact(alloc, rows)?;
        Ok(())
    }

    /// Sets columns in the found slots, all at once: a column that is set to another column takes the values that it
    /// had before. If it runs out of memory, nothing changes.
    pub(crate) fn update(
        &mut self,
        alloc: Global,
        found: &Mask,
        sets: &[(usize, SetTo)],
    ) -> Result<(), AllocError>
        requires found { len found.now ≡ length self.old.slots }
        requires named { All (λ set. set.0 < length self.old.encodings) sets.now }
        requires apart { AllPairs (λ set other. set.0 ≢ other.0) sets.now }
        requires there { All (λ set. IsThere (length self.old.encodings) set.1) sets.now }
        requires held { All (λ set. All (IsNullOrHeld (slice_index_or self.old.layouts set.0 P)) (map (value_for set.1) (rows_found found.now self.old.slots))) sets.now }
        ensures updated { OnOk result (AreUpdated found.now sets.now self.old self.new) }
        ensures layouts { self.new.layouts ≡ self.old.layouts }
        ensures kinds { map kind_of self.new.encodings ≡ map kind_of self.old.encodings }
        ensures unchanged { OnErr result (self.new ≡ self.old) }
    {
        if let Some(pair) = exchanged_columns(&self.columns, found, sets) {
            exchange_columns(&mut self.columns, found, pair);
            return Ok(());
        }
        let changes = prepare_sets(&mut self.columns, alloc, found, sets)?;
        apply_sets(&mut self.columns, found, sets, changes);
        Ok(())
    }

    /// Makes the found slots dead. Allocates nothing.
    #[tactic(auto, using(bw_code::proofs::Lists::made_len))]
    pub(crate) fn delete(&mut self, found: &Mask)
        requires { len found.now ≡ length self.old.slots }
        ensures slots { self.new.slots ≡ slots_without found.now self.old.slots }
        ensures layouts { self.new.layouts ≡ self.old.layouts }
        ensures encodings { self.new.encodings ≡ self.old.encodings }
    {
        self.live.andnot_in(found);
    }

    /// The mask of the live slots.
    #[tactic(auto, using(crate::proofs::Across::slots_count, crate::proofs::Across::live_rows, crate::proofs::Across::slots_wide))]
    pub fn live(&self) -> &Mask
        ensures wide { All (λ slot. length slot.row ≡ length self.now.encodings) self.now.slots }
        ensures len { len result.now ≡ length self.now.slots }
        ensures rows { (i : ℕ) → i < length self.now.slots → row_at result.now i ≡ (slot_at self.now.slots i).live }
        ensures few { len result.now ≤ 2 ^ 24 }
    {
        &self.live
    }

    /// Column `k`, dead slots included.
    pub fn column(&self, k: usize) -> &Column
        requires { k < length self.now.encodings }
        ensures values { result.now.values ≡ slot_column self.now.slots k }
        ensures held { All (IsNullOrHeld result.now.layout) result.now.values }
        ensures layout { (d : Layout) → result.now.layout ≡ slice_index_or self.now.layouts k d }
        ensures encoding { (d : Encoding) → result.now.encoding ≡ slice_index_or self.now.encodings k d }
    {
        &self.columns[k]
    }
}
