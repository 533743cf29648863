//! A table in memory.

ghost use Rattle.std.specs.Prelude.{◌≡◌, ◌⊎◌, ◌+◌, ◌≤◌, ◌++◌, [], All, IfOk, MatchResult, OnErr, OnOk, false, length, map, true};
ghost use Rattle.std.specs.List.{AllZip};
ghost use Rattle.bw_model.specs.declared.refusal.Refusal.TheVariants.{OutOfMemory, OutOfRange};
ghost use Rattle.bw_code.specs.Types.{IsRowOf, IsTyped, types_of};
ghost use Rattle.bw_mask.specs.Masks.{len};
ghost use Rattle.bw_model.specs.Store.{AreHeaders, row_limit};
ghost use Rattle.bw_plan.specs.Sets.{AreSettable};
ghost use Rattle.bw_table.specs.Changes.{AreInserted, AreRebuilt, AreUpdated, copies_fit, slots_with, slots_without};
ghost use Rattle.bw_table.specs.Opening.{rows_across};
ghost use Rattle.bw_table.specs.Tables.{AreChosen, HoldTypes, slots_in};
ghost use Rattle.bw_engine.specs.StoredChanges.{IsNew};
ghost use Rattle.bw_engine.specs.Stores.{rows_in};

use bw_cells::Measured;
use bw_mask::Mask;
use bw_model::Refusal;
use bw_plan::Headers;
use bw_sql::Name;
use bw_table::{Choice, Header, Rows, SetTo, Table as SlotTable, TableFault};
use std::alloc::{AllocError, Global};
use std::marker::Model;

/// The largest number of rows in a table.
const ROW_LIMIT: usize = 16_777_216;

/// How tight the encodings of a table's columns are taken to be. What a SAVE does first depends on it, and not what it
/// writes: no contract speaks of it.
#[derive(Clone, Copy)]
enum Tightness {
    /// No narrower code and no higher base would do.
    Tight,
    /// Values were replaced or deleted, so that one would perhaps do.
    PerhapsLoose,
}

/// A table of 1 to 64 columns with distinct names. Contracts see its headers, its slots and the encodings of its
/// columns.
#[derive(Drop)]
pub struct Table {
    table: SlotTable<Name>,
    tightness: Tightness,
}

impl Model for Table {
    ghost use Rattle.std.specs.Prelude.{List, ℕ};
    ghost use Rattle.bw_model.specs.Store.{AreHeaders};
    ghost use Rattle.bw_table.specs.Tables.{TableView};

    ghost Value = { TableView (List ℕ) };

    ghost view = { λ t. t.table };

    ghost invariant = { λ t. AreHeaders t.table.headers };
}

impl Table {
    /// A table of these columns, without rows.
    pub(crate) fn create(alloc: Global, headers: Vec<Header<Name>>) -> Result<Table, AllocError>
        requires { AreHeaders headers.items }
        ensures headers { IfOk result (λ t. t.headers ≡ headers.items) }
        ensures slots { IfOk result (λ t. t.slots ≡ []) }
        ensures is_new { IfOk result IsNew }
    {
        Ok(Table {
            table: SlotTable::create(alloc, headers)?,
            tightness: Tightness::Tight,
        })
    }

    /// The table of these columns: the cells of each header, in `rows` rows.
    #[tactic(auto, using(crate::proofs::LiveRows::new_rows))]
    pub(crate) fn of_columns<C: Measured>(
        alloc: Global,
        headers: Vec<Header<Name>>,
        rows: usize,
        columns: &[C],
    ) -> Result<Table, AllocError>
        requires headers { AreHeaders headers.items }
        requires few { rows ≤ row_limit }
        requires long { All (λ cells. length cells ≡ rows) (map C.cells columns.now) }
        requires typed { AllZip IsTyped headers.items (map C.cells columns.now) }
        ensures headers { IfOk result (λ t. t.headers ≡ headers.items) }
        ensures rows { IfOk result (λ t. rows_in t.slots ≡ rows_across rows (map C.cells columns.now)) }
        ensures is_new { IfOk result IsNew }
    {
        Ok(Table {
            table: SlotTable::of_columns(alloc, headers, rows, columns)?,
            tightness: Tightness::Tight,
        })
    }

    /// The columns, in order.
    pub(crate) fn headers(&self) -> Headers<'_>
        ensures value { result ≡ self.now.headers }
        ensures valid { AreHeaders self.now.headers }
    {
        Headers::new(self.table.headers())
    }

    /// The table of slots, with the name, the layout and the kind of each column.
    pub(crate) fn stored(&self) -> &SlotTable<Name>
        ensures { result.now ≡ self.now }
    {
        &self.table
    }

    /// Whether the encodings of the columns are taken to be as tight as their values allow: no row was updated or deleted
    /// since the table was created or opened.
    pub(crate) fn is_tight(&self) -> bool {
        match self.tightness {
            Tightness::Tight => true,
            Tightness::PerhapsLoose => false,
        }
    }

    /// The number of rows.
    #[tactic(auto, using(crate::proofs::Inserted::row_count))]
    pub(crate) fn row_count(&self) -> usize
        ensures value { result ≡ length (rows_in self.now.slots) }
        ensures bound { result ≤ row_limit }
    {
        self.table.row_count()
    }

    /// How many more rows the table can take.
    pub(crate) fn room(&self) -> usize
        ensures { result + length (rows_in self.now.slots) ≡ row_limit }
    {
        ROW_LIMIT - self.row_count()
    }

    /// Appends these rows. If it runs out of memory, nothing changes.
    #[tactic(auto, using(crate::proofs::Inserted::not_full))]
    pub(crate) fn insert(&mut self, alloc: Global, rows: &Rows<'_>) -> Result<(), AllocError>
        requires typed { All (IsRowOf (types_of self.old.headers)) rows.now }
        requires room { length (rows_in self.old.slots) + length rows.now ≤ row_limit }
        ensures headers { self.new.headers ≡ self.old.headers }
        ensures rows { OnOk result (rows_in self.new.slots ≡ rows_in self.old.slots ++ rows.now) }
        ensures inserted { OnOk result (AreInserted (slots_in self.old) rows.now (slots_in self.new)) }
        ensures unchanged { OnErr result (self.new ≡ self.old) }
    {
        match self.table.insert(alloc, rows) {
            Ok(()) => Ok(()),
            Err(TableFault::Memory) => Err(AllocError),
            Err(TableFault::Full) => unreachable!(),
            Err(TableFault::Range) => unreachable!(),
        }
    }

    /// Sets columns in the found slots, all at once: a column that is set to another column takes the values that it
    /// had before. Fails if a copied value isn't of the type of the column that takes it, or if it runs out of memory;
    /// then nothing changes.
    pub(crate) fn update(
        &mut self,
        alloc: Global,
        found: &Mask,
        sets: &[(usize, SetTo)],
    ) -> Result<(), Refusal>
        requires found { len found.now ≡ length self.old.slots }
        requires settable { AreSettable self.old.headers sets.now }
        ensures fit { OnOk result (copies_fit (types_of self.old.headers) found.now sets.now self.old.slots ≡ true) }
        ensures refusal { MatchResult result (λ _. Unit {0}) (λ e. (e ≡ OutOfMemory) ⊎ ((e ≡ OutOfRange) × (copies_fit (types_of self.old.headers) found.now sets.now self.old.slots ≡ false))) }
        ensures headers { self.new.headers ≡ self.old.headers }
        ensures slots { OnOk result (self.new.slots ≡ slots_with found.now sets.now self.old.slots) }
        ensures updated { OnOk result (AreUpdated found.now sets.now (slots_in self.old) (slots_in self.new)) }
        ensures unchanged { OnErr result (self.new ≡ self.old) }
    {
        self.tightness = Tightness::PerhapsLoose;
        match self.table.update(alloc, found, sets) {
            Ok(()) => Ok(()),
            Err(TableFault::Range) => Err(Refusal::OutOfRange),
            Err(TableFault::Memory) => Err(Refusal::OutOfMemory),
            Err(TableFault::Full) => unreachable!(),
        }
    }

    /// Makes the found slots dead. Allocates nothing.
    pub(crate) fn delete(&mut self, found: &Mask)
        requires { len found.now ≡ length self.old.slots }
        ensures headers { self.new.headers ≡ self.old.headers }
        ensures slots { self.new.slots ≡ slots_without found.now self.old.slots }
        ensures encodings { self.new.encodings ≡ self.old.encodings }
    {
        self.tightness = Tightness::PerhapsLoose;
        self.table.delete(found);
    }

    /// Rebuilds columns in the chosen layouts and kinds; each layout must hold its column's type. If it runs out of
    /// memory, nothing changes.
    pub(crate) fn rebuild(
        &mut self,
        alloc: Global,
        choices: &[(usize, Choice)],
    ) -> Result<(), AllocError>
        requires { HoldTypes choices.now self.old.headers }
        ensures headers { OnOk result (AreChosen choices.now self.old.headers self.new.headers) }
        ensures rows { OnOk result (rows_in self.new.slots ≡ rows_in self.old.slots) }
        ensures rebuilt { OnOk result (AreRebuilt choices.now (slots_in self.old) (slots_in self.new)) }
        ensures unchanged { OnErr result (self.new ≡ self.old) }
    {
        self.table.rebuild(alloc, choices)
    }
}
