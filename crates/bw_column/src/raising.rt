//! Codes that rise by one from an index on, where a dictionary got one entry more: in layout V plane by plane.

ghost use Rattle.std.specs.Prelude.{All, IfOk, IfSome, drop, if◌then◌else◌, is_some, length, nat_le, slice_index, take, true, ℕ, ◌%◌, ◌&&◌, ◌++◌, ◌+◌, ◌<◌, ◌^◌, ◌≡◌, ◌≤◌, ◌⊎◌};
ghost use Rattle.bw_mask.specs.Masks.{bit_of, len, row_at};
ghost use Rattle.bw_code.specs.Encodings.{kind_of, width};
ghost use Rattle.bw_code.specs.declared.kind.Kind.TheVariants as kinds;
ghost use Rattle.bw_code.specs.declared.kind.Layout.TheVariants as layouts;
ghost use Rattle.bw_column.specs.Codes.{code_for};
ghost use Rattle.bw_column.specs.Moves.{IsRaised, raised_code};
ghost use Rattle.bw_column.specs.Values.{value_at, widest};

use crate::column::Column;
use crate::storage::Codes;
use bw_cells::Measured;
use bw_code::{CmpOp, CodeTest, Encoding, Layout, Meter};
use bw_mask::{Mask, has_bit};
use bw_vertical::shift_words;
use std::alloc::{AllocError, Global};

/// The index before which no entry moves, and from which on each moves by one, if they move so.
pub(crate) fn raised_from(moves: &[u64]) -> Option<usize>
    ensures inside { IfSome result (λ place. place ≤ length moves.now) }
    ensures each { IfSome result (λ place. (m : ℕ) → m < length moves.now → slice_index moves.now m ≡ raised_code place m) }
{
    let mut place = 0;
    while place < moves.len() && moves[place] == place as u64 {
        place += 1;
    }
    for m in place..moves.len() {
        if moves[m] != m as u64 + 1 {
            return None;
        }
    }
    Some(place)
}

/// Raises each code of a block by one if it is at least `place`, and makes it 0 where the row's bit isn't set.
pub(crate) fn raise_codes(codes: &mut [u64], present: u64, place: u64)
    requires few { length codes.old ≤ 64 }
    requires fit { (k : ℕ) → k < length codes.old → bit_of present k ≡ true → slice_index codes.old k < 2 ^ 63 }
    ensures count { length codes.new ≡ length codes.old }
    ensures each { (k : ℕ) → k < length codes.old → slice_index codes.new k ≡ (if bit_of present k then raised_code place (slice_index codes.old k) else 0) }
{
    'codes: for i in 0..codes.len() {
        codes[i] = if has_bit(present, i) {
            codes[i] + u64::from(place <= codes[i])
        } else {
            0
        };
    }
}

impl Column {
    /// The non-null rows whose code is at least an index of its dictionary, or no row if the index is past the last.
    pub(crate) fn rows_with_code_from(
        &self,
        alloc: Global,
        place: usize,
    ) -> Result<Mask, AllocError>
        requires kind { kind_of self.now.encoding ≡ kinds.Dictionary }
        ensures count { IfOk result (λ mask. len mask ≡ length self.now.values) }
        ensures rows { IfOk result (λ mask. (i : ℕ) → row_at mask i ≡ (is_some (value_at self.now.values i) && nat_le place (code_for self.now.encoding (value_at self.now.values i)))) }
    {
        let _sound = self.encoding();
        let mut rows = Mask::filled(alloc, self.len(), false)?;
        if self.entries().len() <= place {
            return Ok(rows);
        }
        let test = CodeTest::Cmp(CmpOp::Ge, place as u64);
        let mut unread = Meter::new();
        self.codes.scan(test, &self.nonnull, &mut rows, &mut unread);
        Ok(rows)
    }

    /// Appends n rows of another column, from the first row of a word on, with the codes that they have after one entry
    /// came before those from an index on. `above` are the rows with such an entry. Both columns are in layout V.
    fn extend_raised(&mut self, other: &Column, above: &Mask, at: usize, n: usize)
        requires layout { self.old.layout ≡ layouts.V }
        requires other { other.now.layout ≡ layouts.V }
        requires count { len above.now ≡ length other.now.values }
        requires raised { (place : ℕ) × All (IsRaised other.now.encoding self.old.encoding place) other.now.values × ((i : ℕ) → row_at above.now i ≡ (is_some (value_at other.now.values i) && nat_le place (code_for other.now.encoding (value_at other.now.values i)))) }
        requires some { 0 < n }
        requires block { n ≤ 64 }
        requires word { at % 64 ≡ 0 }
        requires here { length self.old.values ≡ at }
        requires inside { at + n ≤ length other.now.values }
        requires whole { (n ≡ 64) ⊎ (at + n ≡ length other.now.values) }
        requires room { at + n ≤ self.old.room }
        ensures values { self.new.values ≡ self.old.values ++ take n (drop at other.now.values) }
        ensures layout { self.new.layout ≡ self.old.layout }
        ensures encoding { self.new.encoding ≡ self.old.encoding }
        ensures room { self.old.room ≤ self.new.room }
    {
        let _few = other.len();
        let _sound = other.encoding();
        let Codes::V(codes) = &other.codes else {
            unreachable!()
        };
        let own = other.encoding.width() as usize;
        let k = self.encoding.width() as usize;
        let mut words = [0; 64];
        codes.read_words(at / 64, &mut words);
        shift_words(&mut words, own, k, above.bits(at, n), 1);
        self.extend_word(&words, n, other.nonnull.bits(at, n));
    }

    /// The same values in layout V and a dictionary with one entry more, at an index, with room for `more` further
    /// values. The column is in layout V.
    pub(crate) fn raised(
        &self,
        alloc: Global,
        encoding: Encoding,
        place: usize,
        more: usize,
    ) -> Result<Column, AllocError>
        requires kind { kind_of self.now.encoding ≡ kinds.Dictionary }
        requires layout { self.now.layout ≡ layouts.V }
        requires raised { All (IsRaised self.now.encoding encoding place) self.now.values }
        requires narrow { width encoding ≤ widest layouts.V }
        requires few { length self.now.values + more ≤ 2 ^ 24 }
        ensures values { IfOk result (λ c. c.values ≡ self.now.values) }
        ensures layout { IfOk result (λ c. c.layout ≡ layouts.V) }
        ensures encoding { IfOk result (λ c. c.encoding ≡ encoding) }
        ensures room { IfOk result (λ c. length self.now.values + more ≤ c.room) }
    {
        let above = self.rows_with_code_from(alloc, place)?;
        let mut column = Column::with_room(alloc, Layout::V, encoding, self.len() + more)?;
        let mut at = 0;
        while at < self.len() {
            let n = (self.len() - at).min(64);
            column.extend_raised(self, &above, at, n);
            at += n;
        }
        Ok(column)
    }
}
