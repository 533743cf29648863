//! Digits that are read eight at a time.

ghost use Rattle.std.specs.Prelude.{◌<◌, ◌^◌, ◌≡◌, IfSome};
ghost use Rattle.std.specs.Bool.{then_some};
ghost use Rattle.std.specs.Char.{is_ascii_digit};
ghost use Rattle.std.specs.Int.Digits.{number_from_digits, AllBelowBase};
ghost use Rattle.std.specs.List.{list_all};
ghost use Rattle.std.specs.Str.Parse.{digits_value};

use std::simd::prelude::*;

/// How many digits are read at a time.
pub(crate) const LANES: usize = 8;

/// The weights of the eight digits.
const PLACES: [u32; LANES] = [10_000_000, 1_000_000, 100_000, 10_000, 1_000, 100, 10, 1];

/// The number that eight bytes spell; `None` if not each of them is a digit.
pub(crate) fn number_written(bytes: u8x8) -> Option<u64>
    ensures number { result ≡ then_some (list_all is_ascii_digit bytes) (digits_value 10 bytes) }
    ensures small { IfSome result (λ number. number < 10 ^ LANES) }
{
    // A byte below '0' wraps around to more than 9, and a byte above '9' is more than 9, too.
    let digits = bytes - u8x8::splat(b'0');
    let others = digits.simd_gt(u8x8::splat(9)).to_bitmask();
    if others != 0 {
        return None;
    }
    Some(u64::from(number_of(digits)))
}

/// The number of these digits, the highest first.
fn number_of(digits: u8x8) -> u32
    requires { AllBelowBase 10 digits }
    ensures number { result ≡ number_from_digits 10 digits }
    ensures small { result < 10 ^ LANES }
{
    digits
        .cast::<u32>()
        .strict_mul(u32x8::from_array(PLACES))
        .strict_reduce_sum()
}
