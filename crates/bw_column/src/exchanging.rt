//! Exchanging the values of two columns in some rows, in place.

ghost use Rattle.std.specs.Prelude.{if◌then◌else◌, length, ℕ, ◌≡◌};
ghost use Rattle.bw_mask.specs.Masks.{SameShape, len, row_at};
ghost use Rattle.bw_column.specs.Places.{chosen_values, overwritten};

use crate::column::Column;
use crate::runs::put_presence;
use bw_mask::Mask;

/// The bits of the rows of two masks are exchanged.
fn exchange_bits(nonnull: &mut Mask, other: &mut Mask, rows: &Mask)
    requires other { len other.old ≡ len nonnull.old }
    requires rows { len rows.now ≡ len nonnull.old }
    ensures shape { SameShape nonnull.new nonnull.old }
    ensures other_shape { SameShape other.new other.old }
    ensures rows { (j : ℕ) → row_at nonnull.new j ≡ (if row_at rows.now j then row_at other.old j else row_at nonnull.old j) }
    ensures others { (j : ℕ) → row_at other.new j ≡ (if row_at rows.now j then row_at nonnull.old j else row_at other.old j) }
{
    let end = nonnull.len();
    let mut at = 0;
    while at < end {
        let n = (end - at).min(64);
        let chosen = rows.bits(at, n);
        let own = nonnull.bits(at, n);
        put_presence(nonnull, at, n, chosen, other.bits(at, n));
        put_presence(other, at, n, chosen, own);
        at += n;
    }
}

impl Column {
    /// Exchanges the values that two columns of the same layout and encoding have in the set places. Takes no memory.
    pub fn exchange_values(&mut self, other: &mut Column, places: &Mask)
        requires layout { other.old.layout ≡ self.old.layout }
        requires encoding { other.old.encoding ≡ self.old.encoding }
        requires other { length other.old.values ≡ length self.old.values }
        requires places { len places.now ≡ length self.old.values }
        ensures values { self.new.values ≡ overwritten places.now (chosen_values places.now other.old.values) self.old.values }
        ensures others { other.new.values ≡ overwritten places.now (chosen_values places.now self.old.values) other.old.values }
        ensures layout { self.new.layout ≡ self.old.layout }
        ensures encoding { self.new.encoding ≡ self.old.encoding }
        ensures other_layout { other.new.layout ≡ other.old.layout }
        ensures other_encoding { other.new.encoding ≡ other.old.encoding }
    {
        self.codes.exchange_rows(&mut other.codes, places);
        exchange_bits(&mut self.nonnull, &mut other.nonnull, places);
    }
}
