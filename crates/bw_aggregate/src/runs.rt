//! Sums of codes over runs of 64 rows.

ghost use Rattle.std.specs.Prelude.{All, Bool, List, drop, if◌then◌else◌, length, map, slice_index, sum, take, ℕ, ◌*◌, ◌+◌, ◌<◌, ◌^◌, ◌≡◌, ◌≤◌};
ghost use Rattle.bw_mask.specs.Masks.{bit_of};
ghost use Rattle.bw_code.specs.Widths.{widest_code};
ghost use Rattle.bw_aggregate.specs.Runs.{IsRun, code_sum, lower_half, upper_half};

use bw_mask::has_bit;

/// The code of row `i` of a run; 0 if the row isn't selected.
// Reads the code in either case, so that choosing needs no branch: which rows are selected is unpredictable.
fn code_in(codes: &[u64], rows: u64, i: usize) -> u64
    requires few { length codes.now ≤ 64 }
    requires there { i < length codes.now }
    ensures { result ≡ (if bit_of rows i then slice_index codes.now i else 0) }
{
    let code = codes[i];
    if has_bit(rows, i) { code } else { 0 }
}

/// The sum of the codes of a run's selected rows.
fn sum_in(codes: &[u64], rows: u64) -> u64
    requires few { length codes.now ≤ 64 }
    requires narrow { All (λ code. code < 2 ^ 32) codes.now }
    ensures sum { (need : List Bool) (all : List ℕ) (at : ℕ) → length need ≡ length all → codes.now ≡ take (length codes.now) (drop at all) → IsRun need at (length codes.now) rows
        → code_sum need all (at + length codes.now) ≡ code_sum need all at + result }
    ensures small { result ≤ 64 * 2 ^ 32 }
{
    let mut sum = 0;
    'codes: for i in 0..codes.len() {
        sum += code_in(codes, rows, i);
    }
    sum
}

/// The sum of all codes of a run.
fn sum_all(codes: &[u64]) -> u64
    requires few { length codes.now ≤ 64 }
    requires narrow { All (λ code. code < 2 ^ 32) codes.now }
    ensures is { result ≡ sum codes.now }
    ensures small { result ≤ 64 * 2 ^ 32 }
{
    let mut sum = 0;
    'codes: for i in 0..codes.len() {
        sum += codes[i];
    }
    sum
}

/// The sum of the codes of a run's selected rows, of at most 32 bits each. If all rows are selected, their bits aren't
/// tested.
fn narrow_sum(codes: &[u64], rows: u64) -> u64
    requires few { length codes.now ≤ 64 }
    requires narrow { All (λ code. code < 2 ^ 32) codes.now }
    ensures sum { (need : List Bool) (all : List ℕ) (at : ℕ) → length need ≡ length all → codes.now ≡ take (length codes.now) (drop at all) → IsRun need at (length codes.now) rows
        → code_sum need all (at + length codes.now) ≡ code_sum need all at + result }
    ensures small { result ≤ 64 * 2 ^ 32 }
{
    if rows == u64::MAX {
        sum_all(codes)
    } else {
        sum_in(codes, rows)
    }
}

/// The lower 32 bits of each code of a run.
fn lower_halves(codes: &[u64]) -> [u64; 64]
    requires { length codes.now ≤ 64 }
    ensures { take (length codes.now) result ≡ map lower_half codes.now }
{
    let mut halves = [0; 64];
    'codes: for i in 0..codes.len() {
        halves[i] = codes[i] % (1 << 32);
    }
    halves
}

/// The upper 32 bits of each code of a run.
fn upper_halves(codes: &[u64]) -> [u64; 64]
    requires { length codes.now ≤ 64 }
    ensures { take (length codes.now) result ≡ map upper_half codes.now }
{
    let mut halves = [0; 64];
    'codes: for i in 0..codes.len() {
        halves[i] = codes[i] >> 32;
    }
    halves
}

/// The sum of the codes of a run's selected rows. Codes of more than 32 bits are summed by halves, so that no sum
/// wraps.
pub(crate) fn run_sum(codes: &[u64], bits: u32, rows: u64) -> u128
    requires few { length codes.now ≤ 64 }
    requires fit { All (λ code. code < 2 ^ bits) codes.now }
    requires narrow { bits ≤ widest_code }
    ensures sum { (need : List Bool) (all : List ℕ) (at : ℕ) → length need ≡ length all → codes.now ≡ take (length codes.now) (drop at all) → IsRun need at (length codes.now) rows
        → code_sum need all (at + length codes.now) ≡ code_sum need all at + result }
    ensures small { result ≤ 65 * 2 ^ 64 }
{
    if bits <= 32 {
        return u128::from(narrow_sum(codes, rows));
    }
    let lower = narrow_sum(&lower_halves(codes)[..codes.len()], rows);
    let upper = narrow_sum(&upper_halves(codes)[..codes.len()], rows);
    u128::from(lower) + (u128::from(upper) << 32)
}
