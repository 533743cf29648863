//! Sums of values from sums of their codes.

ghost use Rattle.std.specs.Prelude.{◌≡◌, ◌<◌, ◌≤◌, ◌^◌, ◌+ℤ◌, ◌*ℤ◌, pos};

/// `count` times the base, plus the sum of the codes.
pub(crate) fn based_total(base: i64, count: usize, codes: u128) -> i128
    requires few { count ≤ 2 ^ 24 }
    requires small { codes < 2 ^ 89 }
    ensures { result ≡ (pos count *ℤ base) +ℤ pos codes }
{
    i128::from(base) * count as i128 + codes as i128
}
