//! How many bits a code needs.

ghost use Rattle.std.specs.Prelude.{◌≡◌, ◌≤◌};
ghost use Rattle.bw_code.specs.Encodings.{bits_of};

/// The least number of bits, at least one, that holds a number.
pub(crate) fn width_of(largest: u64) -> u32
    ensures is { result ≡ bits_of largest }
    ensures some { 1 ≤ result }
    ensures few { result ≤ 64 }
{
    (64 - largest.leading_zeros()).max(1)
}
