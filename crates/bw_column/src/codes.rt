//! Encoding many values at a time.

ghost use Rattle.std.specs.Bool.{OnTrue};
ghost use Rattle.std.specs.Prelude.{All, IfSome, IsSome, IsTrue, is_some, length, replicate, ◌-◌, ◌^◌, ◌↔◌, ◌≡◌};
ghost use Rattle.bw_code.specs.declared.encoding.Encoding.TheVariants as by;
ghost use Rattle.bw_column.specs.Codes.{IsCoded, code_for, codes_for};

use bw_code::{Encoding, Offset};

/// The code of a value, if it has one.
fn code(encoding: &Encoding, value: Option<i64>) -> Option<u64>
    ensures is { IfSome result (λ code. code ≡ code_for encoding.now value) }
    ensures coded { IsSome result ↔ IsCoded encoding.now value }
{
    match value {
        None => Some(0),
        Some(x) => encoding.encode(x),
    }
}

/// Whether `count` copies of a value have a code; true where `count` is 0.
pub(crate) fn has_code_times(encoding: &Encoding, value: Option<i64>, count: usize) -> bool
    ensures { IsTrue result ↔ All (IsCoded encoding.now) (replicate count value) }
{
    count == 0 || code(encoding, value).is_some()
}

/// The code of a value that has one.
pub(crate) fn code_of(encoding: &Encoding, value: Option<i64>) -> u64
    requires { IsCoded encoding.now value }
    ensures { result ≡ code_for encoding.now value }
{
    let Some(code) = code(encoding, value) else {
        unreachable!()
    };
    code
}

/// The greatest code of an offset encoding.
pub(crate) fn greatest_code(offset: Offset) -> u64
    ensures { result ≡ 2 ^ offset.width - 1 }
{
    u64::MAX >> (64 - offset.width)
}

/// Writes the distance of each value from the base to `codes` at the same index, and returns whether every value has a
/// code. The distance of a value below the base wraps around; at 64 bits only the comparison with the base detects it.
fn encode_by_offset(offset: Offset, values: &[Option<i64>], codes: &mut [u64]) -> bool
    requires { length codes.old ≡ length values.now }
    ensures all { IsTrue result ↔ All (IsCoded (by.Offset offset)) values.now }
    ensures codes { OnTrue result (codes.new ≡ codes_for (by.Offset offset) values.now) }
{
    let greatest = greatest_code(offset);
    let mut all = true;
    // No branch per value, so that the loop can be vectorized. A null is encoded as the base, whose code is 0.
    for i in 0..values.len() {
        let value = values[i].unwrap_or(offset.base);
        let distance = value
            .cast_unsigned()
            .wrapping_sub(offset.base.cast_unsigned());
        codes[i] = distance;
        all &= (offset.base <= value) & (distance <= greatest);
    }
    all
}

/// The same for any encoding, one value at a time.
fn encode_each(encoding: &Encoding, values: &[Option<i64>], codes: &mut [u64]) -> bool
    requires { length codes.old ≡ length values.now }
    ensures all { IsTrue result ↔ All (IsCoded encoding.now) values.now }
    ensures codes { OnTrue result (codes.new ≡ codes_for encoding.now values.now) }
{
    for i in 0..values.len() {
        let Some(code) = code(encoding, values[i]) else {
            return false;
        };
        codes[i] = code;
    }
    true
}

/// Writes the code of each value to `codes` at the same index, and returns whether every value has one. If not, the
/// content of `codes` is unspecified.
pub(crate) fn encode_all(encoding: &Encoding, values: &[Option<i64>], codes: &mut [u64]) -> bool
    requires { length codes.old ≡ length values.now }
    ensures all { IsTrue result ↔ All (IsCoded encoding.now) values.now }
    ensures codes { OnTrue result (codes.new ≡ codes_for encoding.now values.now) }
{
    match encoding {
        Encoding::Offset(offset) => encode_by_offset(*offset, values, codes),
        Encoding::Dictionary(_) => encode_each(encoding, values, codes),
    }
}
