//! A value with its group.

ghost use Rattle.std.specs.Prelude.{◌≡◌};

use std::marker::Model;

/// How many numbers a half of a value can be.
const HALF: u64 = 1 << 32;

/// A value that isn't NULL, and the group number of its row. The value is in halves, so that it takes 12 bytes with its
/// group and not the 16 of an aligned pair. Contracts see the pair.
#[derive(Clone, Copy, Debug)]
pub(crate) struct GroupedNumber {
    group: u32,
    low: u32,
    high: u32,
}

impl Model for GroupedNumber {
    ghost use Rattle.std.specs.Prelude.{◌%◌, ◌*◌, ◌+◌, ◌/◌, ◌<◌, ◌^◌, ◌≡◌};
    ghost use Rattle.std.specs.Int.{cast_signed, cast_unsigned, w64};
    ghost use Rattle.std.proofs.Common.{arith};
    ghost use Rattle.std.proofs.lemmas.Int.{of_z-to_z};
    ghost use Rattle.bw_groups.specs.Parts.{NumberInGroup};

    ghost Value = { NumberInGroup };

    ghost view = { λ row. record { group = row.group; number = cast_signed w64 (row.high * 2 ^ 32 + row.low) } };

    ghost invariant = { λ row. (row.low < 2 ^ 32) × (row.high < 2 ^ 32) };

    ghost inverse = { λ row. record { group = row.group; low = cast_unsigned w64 row.number % 2 ^ 32; high = cast_unsigned w64 row.number / 2 ^ 32 } };

    ghost inverse_ok = { λ row fits i.
        let whole = row.high * 2 ^ 32 + row.low in
        let back = of_z-to_z w64 whole (omega (arith, fits.0, fits.1)) in
        let low : cast_unsigned w64 (cast_signed w64 whole) % 2 ^ 32 ≡ row.low = omega (arith, back, fits.0) in
        let high : cast_unsigned w64 (cast_signed w64 whole) / 2 ^ 32 ≡ row.high = omega (arith, back, fits.0) in
        record { group = row.group; low = low i; high = high i } };
}

impl GroupedNumber {
    pub(crate) fn new(group: u32, number: i64) -> GroupedNumber
        ensures { result ≡ record { group = group; number = number } }
    {
        let bits = number.cast_unsigned();
        GroupedNumber {
            group,
            low: (bits % HALF) as u32,
            high: (bits / HALF) as u32,
        }
    }

    pub(crate) fn group(self) -> u32
        ensures { result ≡ self.group }
    {
        self.group
    }

    pub(crate) fn number(self) -> i64
        ensures { result ≡ self.number }
    {
        let bits = u64::from(self.high) * HALF + u64::from(self.low);
        bits.cast_signed()
    }
}
