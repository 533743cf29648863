//! A run of values as distances above a base.

ghost use Rattle.std.specs.Prelude.{FitsSigned, List, Option, Some, [], is_some, ℕ, ℤ, ◌+◌, ◌++◌, ◌<◌, ◌∷◌, ◌≡◌};
ghost use Rattle.std.specs.Int.{w64};
ghost use Rattle.bw_cells.specs.Distances.{distance_from};
ghost use Rattle.bw_groups.specs.Runs.{AreFilled, IsMeasured};

use bw_cells::set_bytes;

/// The result of measuring a run: its number of values, and a bit for each that tells whether it is an integer.
#[derive(Clone, Copy, Debug)]
pub struct MeasuredRun {
    /// The number of values in the run.
    pub len: usize,
    /// Bit i tells whether value i is an integer.
    pub present: u64,
}

/// Writes a value after the `at` values before it: its distance above the base, and whether it is an integer.
#[inline]
pub fn put_distance(
    out: &mut [u64; 64],
    there: &mut [u8; 64],
    at: usize,
    distance: u64,
    is_there: bool,
)
    requires { at < 64 }
    ensures put { (base : ℤ) (run : List (Option ℤ)) (value : Option ℤ) → AreFilled base run at out.old there.old → ((x : ℤ) → value ≡ Some x → FitsSigned w64 x) → distance ≡ distance_from base value → is_there ≡ is_some value → AreFilled base (run ++ value ∷ []) (at + 1) out.new there.new }
    ensures keeps { (base : ℤ) (run : List (Option ℤ)) → AreFilled base run at out.old there.old → AreFilled base run at out.new there.new }
{
    out[at] = distance;
    there[at] = u8::from(is_there);
}

/// The measured run of `len` values that were written by `put_distance`.
pub fn filled_run(len: usize, there: &[u8; 64]) -> MeasuredRun
    ensures { (base : ℤ) (run : List (Option ℤ)) (out : List ℕ) → AreFilled base run len out there.now → IsMeasured base run result.len result.present out }
{
    MeasuredRun {
        len,
        present: set_bytes(there),
    }
}

/// The distance of a value above a base, modulo 2^64; 0 for NULL.
pub fn distance_of(value: Option<i64>, base: i64) -> u64
    ensures distance { result ≡ distance_from base value }
    ensures fits { (x : ℤ) → value ≡ Some x → FitsSigned w64 x }
{
    match value {
        Some(number) => number.cast_unsigned().wrapping_sub(base.cast_unsigned()),
        None => 0,
    }
}
