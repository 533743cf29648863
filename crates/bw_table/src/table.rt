//! A table of slots.

ghost use Rattle.std.specs.Prelude.{All, Err, IfOk, IsTrue, OnErr, OnOk, [], false, length, map, slice_index_or, true, ℕ, ◌<◌, ◌≡◌, ◌≢◌, ◌≤◌};
ghost use Rattle.std.specs.List.{AllPairs, AllZip};
ghost use Rattle.bw_mask.specs.Masks.{len, row_at};
ghost use Rattle.bw_code.specs.Encodings.{kind_of};
ghost use Rattle.bw_code.specs.Types.{IsNullOrOfType, IsRowOf, IsTyped, holds, holds_its_type, types_of};
ghost use Rattle.bw_code.specs.declared.encoding.Encoding.{Encoding};
ghost use Rattle.bw_column.specs.Values.{IsNullOrHeld, value_at};
ghost use Rattle.bw_table.specs.Changes.{AreInserted, AreRebuilt, AreUpdated, IsFull, IsSetTo, copies_fit, slots_without};
ghost use Rattle.bw_table.specs.Opening.{AreFitted, rows_across};
ghost use Rattle.bw_table.specs.Sets.{AreEmpty};
ghost use Rattle.bw_table.specs.Slots.{live_slot, live_slots, slot_at, slot_column, slot_limit};
ghost use Rattle.bw_table.specs.Tables.{AreChosen, AreFirst, HoldTypes, slots_in};
ghost use Rattle.bw_table.specs.declared.fault.TableFault.TheVariants.{Full, Range};

use crate::choice::{Choice, choose_all};
use crate::copies::copies_fit;
use crate::fault::TableFault;
use crate::opening::columns_of;
use crate::rows::Rows;
use crate::setting::SetTo;
use crate::slots::Slots;
use bw_cells::Measured;
use bw_code::Header;
use bw_column::Column;
use bw_mask::Mask;
use std::alloc::{AllocError, Global};
use std::marker::Model;

/// A table: its columns, and slots, some of which are live. Its rows are those of the live slots, in order. The values
/// of a column are of the type in its header, which its layout holds. What a column's name is, is left to the layer
/// above.
#[derive(Drop)]
pub struct Table<N> {
    headers: Vec<Header<N>>,
    slots: Slots,
}

impl<N> Model for Table<N> {
    ghost use Rattle.bw_table.specs.Tables.{AreHeadersOf, TableView};

    ghost Value = { TableView N };

    ghost view = { λ t. record { headers = t.headers.items; slots = t.slots.slots; encodings = t.slots.encodings } };

    ghost invariant = { λ t. AreHeadersOf t.headers.items t.slots };
}

impl<N: Drop> Table<N> {
    /// A table of these columns, without slots. Each column's layout holds its type.
    pub fn create(alloc: Global, headers: Vec<Header<N>>) -> Result<Table<N>, AllocError>
        requires held { All (λ header. IsTrue (holds_its_type header)) headers.items }
        ensures headers { IfOk result (λ t. t.headers ≡ headers.items) }
        ensures slots { IfOk result (λ t. t.slots ≡ []) }
        ensures encodings { IfOk result (λ t. AreFirst t.headers t.encodings) }
    {
        let columns = empty_columns(alloc, &headers)?;
        let slots = Slots {
            columns,
            live: Mask::filled(alloc, 0, false)?,
        };
        Ok(Table { headers, slots })
    }

    /// The table of these columns: for each header its values, which are of its type, in live slots. Each column gets
    /// the encoding that fits its values, in the layout and of the kind in its header. Fails only if it runs out of
    /// memory.
    pub fn of_columns<C: Measured>(
        alloc: Global,
        headers: Vec<Header<N>>,
        rows: usize,
        columns: &[C],
    ) -> Result<Table<N>, AllocError>
        requires few { rows ≤ slot_limit }
        requires held { All (λ header. IsTrue (holds_its_type header)) headers.items }
        requires long { All (λ cells. length cells ≡ rows) (map C.cells columns.now) }
        requires typed { AllZip IsTyped headers.items (map C.cells columns.now) }
        ensures headers { IfOk result (λ t. t.headers ≡ headers.items) }
        ensures slots { IfOk result (λ t. t.slots ≡ map live_slot (rows_across rows (map C.cells columns.now))) }
        ensures encodings { IfOk result (λ t. AreFitted t.headers (map C.cells columns.now) t.encodings) }
    {
        let columns = columns_of(alloc, &headers, columns)?;
        let slots = Slots {
            columns,
            live: Mask::filled(alloc, rows, true)?,
        };
        Ok(Table { headers, slots })
    }

    /// The headers of the columns, in order. Each column's layout holds its type.
    pub fn headers(&self) -> &[Header<N>]
        ensures is { result.now ≡ self.now.headers }
        ensures held { All (λ header. IsTrue (holds_its_type header)) self.now.headers }
    {
        self.headers.as_slice()
    }

    /// The number of slots, dead ones included.
    pub fn slot_count(&self) -> usize
        ensures count { result ≡ length self.now.slots }
        ensures few { result ≤ slot_limit }
    {
        self.slots.len()
    }

    /// The number of rows.
    pub fn row_count(&self) -> usize
        ensures count { result ≡ length (live_slots self.now.slots) }
        ensures few { result ≤ slot_limit }
    {
        self.slots.live_count()
    }

    /// The slots, without the names of the columns.
    #[tactic(auto, using(crate::proofs::Heads::slots_back))]
    pub fn slots(&self) -> &Slots
        ensures { result.now ≡ slots_in self.now }
    {
        &self.slots
    }

    /// The mask of the live slots. Each slot, dead or live, has for each column null or a value of its type.
    #[tactic(auto, using(crate::proofs::Heads::kinds_count))]
    pub fn live(&self) -> &Mask
        ensures wide { All (λ slot. length slot.row ≡ length self.now.headers) self.now.slots }
        ensures typed { All (λ slot. IsRowOf (types_of self.now.headers) slot.row) self.now.slots }
        ensures len { len result.now ≡ length self.now.slots }
        ensures rows { (i : ℕ) → i < length self.now.slots → row_at result.now i ≡ (slot_at self.now.slots i).live }
    {
        self.slots.live()
    }

    /// Column `k`: a value for each slot, dead ones included.
    #[tactic(auto, using(crate::proofs::Heads::kinds_count))]
    pub fn column(&self, k: usize) -> &Column
        requires { k < length self.now.headers }
        ensures values { result.now.values ≡ slot_column self.now.slots k }
        ensures typed { (h : Header N) → All (IsNullOrOfType (slice_index_or self.now.headers k h).column_type) result.now.values }
        ensures held { All (IsNullOrHeld result.now.layout) result.now.values }
        ensures layout { (d : Header N) → result.now.layout ≡ (slice_index_or self.now.headers k d).layout }
        ensures kind { (d : Header N) → kind_of result.now.encoding ≡ (slice_index_or self.now.headers k d).kind }
        ensures encoding { (d : Encoding) → result.now.encoding ≡ slice_index_or self.now.encodings k d }
    {
        self.slots.column(k)
    }

    /// The value of column `column` in slot `slot`.
    #[tactic(auto, using(crate::proofs::Across::column_at, crate::proofs::Heads::kinds_count))]
    pub fn fetch(&self, slot: usize, column: usize) -> Option<i64>
        requires slot { slot < length self.now.slots }
        requires column { column < length self.now.headers }
        ensures { result ≡ value_at (slot_at self.now.slots slot).row column }
    {
        self.slots.column(column).get(slot)
    }

    /// Appends live slots with these rows. Their values are of their columns' types. If there are not enough slots, the
    /// dead ones are dropped first. Fails if the live slots and the rows are more than 16,777,216, or if it runs out of
    /// memory; then nothing changes.
    pub fn insert(&mut self, alloc: Global, rows: &Rows<'_>) -> Result<(), TableFault>
        requires typed { All (IsRowOf (types_of self.old.headers)) rows.now }
        ensures headers { self.new.headers ≡ self.old.headers }
        ensures inserted { OnOk result (AreInserted (slots_in self.old) rows.now (slots_in self.new)) }
        ensures full { IsFull (slots_in self.old) rows.now → result ≡ Err Full }
        ensures room { (IsFull (slots_in self.old) rows.now → ⊥) → result ≢ Err Full }
        ensures fault { result ≢ Err Range }
        ensures unchanged { OnErr result (self.new ≡ self.old) }
    {
        self.slots.insert(alloc, rows)
    }

    /// Sets columns in the found slots, all at once: a column that is set to another column takes the values that it
    /// had before. Fails if a copied value is out of range for its target column's type, or if it runs out of memory;
    /// then nothing changes.
    pub fn update(
        &mut self,
        alloc: Global,
        found: &Mask,
        sets: &[(usize, SetTo)],
    ) -> Result<(), TableFault>
        requires found { len found.now ≡ length self.old.slots }
        requires named { All (λ set. set.0 < length self.old.headers) sets.now }
        requires apart { AllPairs (λ set other. set.0 ≢ other.0) sets.now }
        requires values { All (IsSetTo (types_of self.old.headers)) sets.now }
        ensures headers { self.new.headers ≡ self.old.headers }
        ensures updated { OnOk result (AreUpdated found.now sets.now (slots_in self.old) (slots_in self.new)) }
        ensures range { copies_fit (types_of self.old.headers) found.now sets.now self.old.slots ≡ false → result ≡ Err Range }
        ensures fit { copies_fit (types_of self.old.headers) found.now sets.now self.old.slots ≡ true → result ≢ Err Range }
        ensures room { result ≢ Err Full }
        ensures unchanged { OnErr result (self.new ≡ self.old) }
    {
        if !copies_fit(&self.headers, &self.slots, found, sets) {
            return Err(TableFault::Range);
        }
        self.slots.update(alloc, found, sets)?;
        Ok(())
    }

    /// Makes the found slots dead. Allocates nothing.
    pub fn delete(&mut self, found: &Mask)
        requires { len found.now ≡ length self.old.slots }
        ensures headers { self.new.headers ≡ self.old.headers }
        ensures slots { self.new.slots ≡ slots_without found.now self.old.slots }
        ensures encodings { self.new.encodings ≡ self.old.encodings }
    {
        self.slots.delete(found);
    }

    /// Drops the dead slots and rebuilds each column in the layout and of the kind chosen for it. That layout holds the
    /// column's type. If it runs out of memory, nothing changes.
    pub fn rebuild(&mut self, alloc: Global, choices: &[(usize, Choice)]) -> Result<(), AllocError>
        requires held { HoldTypes choices.now self.old.headers }
        ensures headers { OnOk result (AreChosen choices.now self.old.headers self.new.headers) }
        ensures rebuilt { OnOk result (AreRebuilt choices.now (slots_in self.old) (slots_in self.new)) }
        ensures unchanged { OnErr result (self.new ≡ self.old) }
    {
        self.slots = self.slots.rebuilt(alloc, choices)?;
        choose_all(&mut self.headers, choices);
        Ok(())
    }

    /// Drops the dead slots and rebuilds each column. If it runs out of memory, nothing changes.
    pub fn compact(&mut self, alloc: Global) -> Result<(), AllocError>
        ensures headers { self.new.headers ≡ self.old.headers }
        ensures rebuilt { OnOk result (AreRebuilt [] (slots_in self.old) (slots_in self.new)) }
        ensures unchanged { OnErr result (self.new ≡ self.old) }
    {
        self.slots = self.slots.rebuilt(alloc, &[])?;
        Ok(())
    }
}

/// An empty column for each header.
fn empty_columns<N>(alloc: Global, headers: &Vec<Header<N>>) -> Result<Vec<Column>, AllocError>
    ensures { IfOk result (λ columns. AreEmpty headers.now.items columns.items) }
{
    let none: &[Option<i64>] = &[];
    let mut columns = Vec::with_capacity(alloc, headers.len())?;
    for header in headers {
        columns.push(Column::build(alloc, &none, header.layout, header.kind)?)?;
    }
    Ok(columns)
}
