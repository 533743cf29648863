//! A column of integers and nulls.

ghost use Rattle.std.specs.Prelude.{All, Some, is_some, length, option_map, slice_set, ℕ, ◌<◌, ◌^◌, ◌≡◌, ◌≤◌};
ghost use Rattle.bw_mask.specs.Masks.{SameShape, bit_of, len, row_at};
ghost use Rattle.bw_code.specs.Encodings.{IsEncoding, kind_of, width};
ghost use Rattle.bw_column.specs.Codes.{IsCoded, code_for, codes_for};
ghost use Rattle.bw_column.specs.Storing.{lent_layout, lent_list};
ghost use Rattle.bw_column.specs.Values.{IsNullOrHeld, value_at, widest};

use crate::reading::value;
use crate::storage::{Codes, Storage};
use bw_code::{Encoding, Kind, Layout};
use bw_mask::Mask;
use std::marker::Model;

/// A column of integers and nulls: the codes of its values, 0 for a null, and the mask of the non-null rows.
#[derive(Drop)]
pub struct Column {
    pub(crate) encoding: Encoding,
    pub(crate) codes: Codes,
    pub(crate) nonnull: Mask,
}

impl Model for Column {
    ghost use Rattle.std.specs.Prelude.{min};
    ghost use Rattle.bw_column.specs.Codes.{AreRowCodes, values_from};
    ghost use Rattle.bw_column.specs.Columns.{ColumnView};
    ghost use Rattle.bw_column.specs.Storing.{layout_of, list_of};

    ghost Value = { ColumnView };

    ghost view = { λ c. record { values = values_from c.encoding (list_of c.codes) c.nonnull; layout = layout_of c.codes; encoding = c.encoding; room = min (list_of c.codes).room c.nonnull.room } };

    ghost invariant = { λ c. AreRowCodes (layout_of c.codes) c.encoding (list_of c.codes) c.nonnull };
}

impl Column {
    /// The number of values. Each is null or one of the integers that the layout can hold.
    #[tactic(auto, using(bw_code::proofs::Lists::made_len, crate::proofs::Rows::row_held))]
    pub fn len(&self) -> usize
        ensures count { result ≡ length self.now.values }
        ensures few { result ≤ 2 ^ 24 }
        ensures held { All (IsNullOrHeld self.now.layout) self.now.values }
    {
        self.codes.len()
    }

    /// The layout that was chosen when the column was built.
    pub fn layout(&self) -> Layout
        ensures { result ≡ self.now.layout }
    {
        self.codes.layout()
    }

    /// The kind of encoding.
    pub fn kind(&self) -> Kind
        ensures { result ≡ kind_of self.now.encoding }
    {
        self.encoding.kind()
    }

    /// The encoding of the non-null values. Each of them has a code.
    pub fn encoding(&self) -> &Encoding
        ensures is { result.now ≡ self.now.encoding }
        ensures sound { IsEncoding self.now.encoding }
        ensures coded { All (IsCoded self.now.encoding) self.now.values }
    {
        &self.encoding
    }

    /// The rows whose value is non-null.
    #[tactic(auto, using(bw_code::proofs::Lists::made_len))]
    pub fn nonnull(&self) -> &Mask
        ensures len { len result.now ≡ length self.now.values }
        ensures few { len result.now ≤ 2 ^ 24 }
        ensures rows { (r : ℕ) → row_at result.now r ≡ is_some (value_at self.now.values r) }
    {
        &self.nonnull
    }

    /// The value of row i.
    #[tactic(auto, using(bw_code::proofs::Lists::made_len))]
    pub fn get(&self, i: usize) -> Option<i64>
        requires { i < length self.now.values }
        ensures is { result ≡ value_at self.now.values i }
        ensures held { IsNullOrHeld self.now.layout result }
    {
        value(&self.encoding, self.codes.get(i), self.nonnull.get(i))
    }

    /// The code of row i; `None` for a null.
    #[tactic(auto, using(bw_code::proofs::Lists::made_len))]
    pub fn code(&self, i: usize) -> Option<u64>
        requires { i < length self.now.values }
        ensures { result ≡ option_map (λ x. code_for self.now.encoding (Some x)) (value_at self.now.values i) }
    {
        self.nonnull.get(i).then_some(self.codes.get(i))
    }

    /// `out` becomes the rows whose code has bit i set. Bit 0 is the lowest. The code of a null is 0.
    #[tactic(auto, using(bw_code::proofs::Lists::made_len))]
    pub fn plane(&self, i: u32, out: &mut Mask)
        requires bit { i < width self.now.encoding }
        requires out { len out.old ≡ length self.now.values }
        ensures shape { SameShape out.new out.old }
        ensures rows { (r : ℕ) → row_at out.new r ≡ bit_of (code_for self.now.encoding (value_at self.now.values r)) i }
    {
        self.codes.plane(i, out);
    }

    /// The codes of the values, 0 for a null, lent as the type of the layout.
    pub fn storage(&self) -> Storage<'_>
        ensures layout { lent_layout result ≡ self.now.layout }
        ensures width { (lent_list result).width ≡ width self.now.encoding }
        ensures narrow { (lent_list result).width ≤ widest self.now.layout }
        ensures codes { (lent_list result).codes ≡ codes_for self.now.encoding self.now.values }
    {
        self.codes.lent()
    }

    /// Sets row i to a value and its code.
    #[tactic(auto, using(bw_code::proofs::Lists::made_len))]
    pub(crate) fn put(&mut self, i: usize, value: Option<i64>, code: u64)
        requires inside { i < length self.old.values }
        requires coded { IsCoded self.old.encoding value }
        requires code { code ≡ code_for self.old.encoding value }
        requires held { IsNullOrHeld self.old.layout value }
        ensures values { self.new.values ≡ slice_set self.old.values i value }
        ensures layout { self.new.layout ≡ self.old.layout }
        ensures encoding { self.new.encoding ≡ self.old.encoding }
        ensures room { self.old.room ≤ self.new.room }
    {
        self.codes.set(i, code);
        self.nonnull.set(i, value.is_some());
    }
}
