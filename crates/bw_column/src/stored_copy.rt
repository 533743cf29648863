//! Copying values between columns as they are stored: planes from planes, slices from slices.

ghost use Rattle.std.specs.Prelude.{All, IfOk, None, if◌then◌else◌, length, replicate, ◌^◌, ◌≡◌, ◌≤◌, ℕ, false, true};
ghost use Rattle.bw_mask.specs.Masks.{SameShape, len, row_at};
ghost use Rattle.bw_code.specs.Encodings.{width};
ghost use Rattle.bw_code.specs.declared.encoding.Encoding.TheVariants as by;
ghost use Rattle.bw_column.specs.Codes.{IsCoded};
ghost use Rattle.bw_column.specs.Copies.{masked};
ghost use Rattle.bw_column.specs.Places.{chosen_values, overwritten};
ghost use Rattle.bw_column.specs.Storing.{IsSliced};
ghost use Rattle.bw_column.specs.Values.{IsNullOrHeld, widest};

use crate::column::Column;
use crate::runs::put_presence;
use crate::storage::Codes;
use bw_code::{Encoding, Layout, Offset};
use bw_mask::Mask;
use std::alloc::{AllocError, Global};

/// Each of the rows becomes non-null where it is in `present`, else null.
fn put_all_present(nonnull: &mut Mask, rows: &Mask, present: &Mask)
    requires rows { len rows.now ≡ len nonnull.old }
    requires present { len present.now ≡ len nonnull.old }
    ensures shape { SameShape nonnull.new nonnull.old }
    ensures rows { (j : ℕ) → row_at nonnull.new j ≡ (if row_at rows.now j then row_at present.now j else row_at nonnull.old j) }
{
    let end = nonnull.len();
    let mut at = 0;
    while at < end {
        let n = (end - at).min(64);
        put_presence(nonnull, at, n, rows.bits(at, n), present.bits(at, n));
        at += n;
    }
}

impl Column {
    /// A column of n nulls, in V or S.
    pub(crate) fn of_nulls(
        alloc: Global,
        layout: Layout,
        encoding: Encoding,
        n: usize,
    ) -> Result<Column, AllocError>
        requires layout { IsSliced layout }
        requires narrow { width encoding ≤ widest layout }
        requires few { n ≤ 2 ^ 24 }
        ensures values { IfOk result (λ c. c.values ≡ replicate n None) }
        ensures layout { IfOk result (λ c. c.layout ≡ layout) }
        ensures encoding { IfOk result (λ c. c.encoding ≡ encoding) }
    {
        let mut codes = Codes::with_width(alloc, layout, encoding.width())?;
        codes.reserve(n)?;
        codes.extend_zeros(n);
        let nonnull = Mask::filled(alloc, n, false)?;
        Ok(Column {
            encoding,
            codes,
            nonnull,
        })
    }

    /// Writes the values of a copy to the set places as they are stored, if both columns have planes, or slices of one
    /// width. Returns whether they have; else nothing changes.
    fn copy_stored(&mut self, offset: Offset, places: &Mask, copy: &Column) -> bool
        requires encoding { self.old.encoding ≡ by.Offset offset }
        requires coded { All (IsCoded self.old.encoding) copy.now.values }
        requires held { All (IsNullOrHeld self.old.layout) copy.now.values }
        requires copied { length copy.now.values ≡ length self.old.values }
        requires places { len places.now ≡ length self.old.values }
        ensures values { result ≡ true → self.new.values ≡ overwritten places.now (chosen_values places.now copy.now.values) self.old.values }
        ensures same { result ≡ false → self.new.values ≡ self.old.values }
        ensures layout { self.new.layout ≡ self.old.layout }
        ensures encoding { self.new.encoding ≡ self.old.encoding }
    {
        let Encoding::Offset(other) = copy.encoding else {
            return false;
        };
        let (rows, from) = (&copy.nonnull, other.base);
        if !self
            .codes
            .copy_rows(&copy.codes, places, rows, from, offset.base)
        {
            return false;
        }
        put_all_present(&mut self.nonnull, places, rows);
        true
    }

    /// Writes the values of a copy to the set places: as they are stored where both columns allow it, else by their
    /// codes.
    pub(crate) fn copy_distances(&mut self, offset: Offset, places: &Mask, copy: &Column)
        requires encoding { self.old.encoding ≡ by.Offset offset }
        requires coded { All (IsCoded self.old.encoding) copy.now.values }
        requires held { All (IsNullOrHeld self.old.layout) copy.now.values }
        requires copied { length copy.now.values ≡ length self.old.values }
        requires places { len places.now ≡ length self.old.values }
        ensures values { self.new.values ≡ overwritten places.now (chosen_values places.now copy.now.values) self.old.values }
        ensures layout { self.new.layout ≡ self.old.layout }
        ensures encoding { self.new.encoding ≡ self.old.encoding }
    {
        if !self.copy_stored(offset, places, copy) {
            self.copy_runs(offset, places, copy);
        }
    }

    /// A copy of the values in the rows of a mask, in the same layout and encoding, with NULL in the other rows. The
    /// layout is V or S.
    pub(crate) fn stored_copy_at(
        &self,
        alloc: Global,
        offset: Offset,
        places: &Mask,
    ) -> Result<Column, AllocError>
        requires layout { IsSliced self.now.layout }
        requires encoding { self.now.encoding ≡ by.Offset offset }
        requires places { len places.now ≡ length self.now.values }
        ensures values { IfOk result (λ copy. copy.values ≡ masked places.now self.now.values) }
        ensures encoding { IfOk result (λ copy. copy.encoding ≡ self.now.encoding) }
        ensures layout { IfOk result (λ copy. copy.layout ≡ self.now.layout) }
    {
        let _few = self.len();
        let _sound = self.encoding();
        let encoding = Encoding::Offset(offset);
        let mut copy = Column::of_nulls(alloc, self.layout(), encoding, self.len())?;
        copy.copy_distances(offset, places, self);
        Ok(copy)
    }
}
