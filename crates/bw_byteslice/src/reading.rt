//! Reading codes from slices in memory.

ghost use Rattle.std.specs.Prelude.{[], length, slice_index, slice_index_or, ℕ, ◌*◌, ◌+◌, ◌/◌, ◌<◌, ◌^◌, ◌≡◌, ◌≤◌};
ghost use Rattle.bw_code.specs.Widths.{widest_code, widest_half};
ghost use Rattle.bw_byteslice.specs.Slices.{slices_of};
ghost use Rattle.bw_byteslice.specs.Storing.{byte_of, bytes_of, code_of, number_at};

use crate::shift::shift_of;

/// How many codes are read at a time.
const RUN: usize = 64;

/// The code of row j.
pub(crate) fn code_at(slices: &[Vec<u8>], width: u32, j: usize) -> u64
    requires narrow { width ≤ widest_code }
    requires count { length slices.now ≡ slices_of width }
    requires bytes { (i j : ℕ) → byte_of (bytes_of slices.now) j i < 256 }
    requires there { (i : ℕ) → i < slices_of width → j < length (slice_index_or (bytes_of slices.now) i []) }
    ensures { result ≡ code_of width (bytes_of slices.now) j }
{
    let mut number = 0;
    for i in 0..slices.len() {
        let slice = &slices[i];
        number = number * 256 + u64::from(slice[j]);
    }
    number >> shift_of(width)
}

/// Fills `out` with the bytes of a slice from row `at` on, shifted right by `spare` bits.
#[inline(always)]
fn read_one(first: &[u8], at: usize, spare: u32, out: &mut [u32])
    requires spare { spare < 8 }
    requires first { at + length out.old ≤ length first.now }
    ensures len { length out.new ≡ length out.old }
    ensures codes { (r : ℕ) → r < length out.old → slice_index out.new r ≡ slice_index first.now (at + r) / 2 ^ spare }
{
    for r in 0..out.len() {
        let number = u32::from(first[at + r]);
        out[r] = number >> spare;
    }
}

/// Fills `out` with the numbers that the bytes of two slices make from row `at` on, shifted right by `spare` bits.
#[inline(always)]
fn read_two(first: &[u8], second: &[u8], at: usize, spare: u32, out: &mut [u32])
    requires spare { spare < 8 }
    requires first { at + length out.old ≤ length first.now }
    requires second { at + length out.old ≤ length second.now }
    ensures len { length out.new ≡ length out.old }
    ensures codes { (r : ℕ) → r < length out.old → slice_index out.new r ≡ (slice_index first.now (at + r) * 256 + slice_index second.now (at + r)) / 2 ^ spare }
{
    for r in 0..out.len() {
        let number = u32::from(first[at + r]);
        let number = number * 256 + u32::from(second[at + r]);
        out[r] = number >> spare;
    }
}

/// Fills `out` with the numbers that the bytes of three slices make from row `at` on, shifted right by `spare` bits.
#[inline(always)]
fn read_three(first: &[u8], second: &[u8], third: &[u8], at: usize, spare: u32, out: &mut [u32])
    requires spare { spare < 8 }
    requires first { at + length out.old ≤ length first.now }
    requires second { at + length out.old ≤ length second.now }
    requires third { at + length out.old ≤ length third.now }
    ensures len { length out.new ≡ length out.old }
    ensures codes { (r : ℕ) → r < length out.old → slice_index out.new r ≡ ((slice_index first.now (at + r) * 256 + slice_index second.now (at + r)) * 256 + slice_index third.now (at + r)) / 2 ^ spare }
{
    for r in 0..out.len() {
        let number = u32::from(first[at + r]);
        let number = number * 256 + u32::from(second[at + r]);
        let number = number * 256 + u32::from(third[at + r]);
        out[r] = number >> spare;
    }
}

/// Fills `out` with the numbers that the bytes of four slices make from row `at` on, shifted right by `spare` bits.
#[inline(always)]
fn read_four(
    first: &[u8],
    second: &[u8],
    third: &[u8],
    fourth: &[u8],
    at: usize,
    spare: u32,
    out: &mut [u32],
)
    requires spare { spare < 8 }
    requires first { at + length out.old ≤ length first.now }
    requires second { at + length out.old ≤ length second.now }
    requires third { at + length out.old ≤ length third.now }
    requires fourth { at + length out.old ≤ length fourth.now }
    ensures len { length out.new ≡ length out.old }
    ensures codes { (r : ℕ) → r < length out.old → slice_index out.new r ≡ (((slice_index first.now (at + r) * 256 + slice_index second.now (at + r)) * 256 + slice_index third.now (at + r)) * 256 + slice_index fourth.now (at + r)) / 2 ^ spare }
{
    for r in 0..out.len() {
        let number = u32::from(first[at + r]);
        let number = number * 256 + u32::from(second[at + r]);
        let number = number * 256 + u32::from(third[at + r]);
        let number = number * 256 + u32::from(fourth[at + r]);
        out[r] = number >> spare;
    }
}

/// Fills `out` with the numbers that the bytes of at most four slices make from row `at` on, shifted right by `spare`
/// bits. A register holds twice as many 32-bit numbers as 64-bit ones. The loops over the bytes are inlined, since they
/// are faster where the number of rows is known.
#[inline(always)]
fn read_numbers(slices: &[Vec<u8>], spare: u32, at: usize, out: &mut [u32])
    requires few { length slices.now ≤ 4 }
    requires spare { spare < 8 }
    requires there { (i : ℕ) → i < length slices.now → at + length out.old ≤ length (slice_index_or (bytes_of slices.now) i []) }
    ensures len { length out.new ≡ length out.old }
    ensures numbers { (r : ℕ) → r < length out.old → slice_index out.new r ≡ number_at (length slices.now) (bytes_of slices.now) (at + r) / 2 ^ spare }
{
    match slices {
        [] => out.fill(0),
        [first] => read_one(first, at, spare, out),
        [first, second] => read_two(first, second, at, spare, out),
        [first, second, third] => read_three(first, second, third, at, spare, out),
        [first, second, third, fourth] => read_four(first, second, third, fourth, at, spare, out),
        _ => unreachable!(),
    }
}

/// Fills `out` with the 64-bit numbers that have these halves, shifted right by `spare` bits.
fn join(high: &[u32], low: &[u32], spare: u32, out: &mut [u64])
    requires high { length out.old ≡ length high.now }
    requires low { length out.old ≡ length low.now }
    requires spare { spare < 8 }
    ensures len { length out.new ≡ length out.old }
    ensures same { (r : ℕ) → r < length out.old → slice_index out.new r ≡ (2 ^ 32 * slice_index high.now r + slice_index low.now r) / 2 ^ spare }
{
    for r in 0..out.len() {
        let number = 0x1_0000_0000 * u64::from(high[r]) + u64::from(low[r]);
        out[r] = number >> spare;
    }
}

/// Fills `out` with the numbers of more than 32 bits that the bytes of some slices and of four slices below them make
/// from row `at` on, shifted right by `spare` bits.
fn read_halves(upper: &[Vec<u8>], lower: &[Vec<u8>], spare: u32, at: usize, out: &mut [u64])
    requires few { length out.old ≤ 64 }
    requires upper { length upper.now ≤ 4 }
    requires lower { length lower.now ≡ 4 }
    requires spare { spare < 8 }
    requires there { (i : ℕ) → i < length upper.now → at + length out.old ≤ length (slice_index_or (bytes_of upper.now) i []) }
    requires lower_there { (i : ℕ) → i < length lower.now → at + length out.old ≤ length (slice_index_or (bytes_of lower.now) i []) }
    ensures len { length out.new ≡ length out.old }
    ensures numbers { (r : ℕ) → r < length out.old → slice_index out.new r
        ≡ (2 ^ 32 * number_at (length upper.now) (bytes_of upper.now) (at + r) + number_at (length lower.now) (bytes_of lower.now) (at + r)) / 2 ^ spare }
{
    let n = out.len();
    let mut high = [0; RUN];
    let mut low = [0; RUN];
    read_numbers(upper, 0, at, &mut high[..n]);
    read_numbers(lower, 0, at, &mut low[..n]);
    join(&high[..n], &low[..n], spare, out);
}

/// Fills `out` with codes of more than 32 bits from row `at` on, at most `RUN` of them.
fn read_wide(slices: &[Vec<u8>], width: u32, at: usize, out: &mut [u64])
    requires wide { widest_half < width }
    requires narrow { width ≤ widest_code }
    requires count { length slices.now ≡ slices_of width }
    requires few { length out.old ≤ 64 }
    requires there { (i : ℕ) → i < slices_of width → at + length out.old ≤ length (slice_index_or (bytes_of slices.now) i []) }
    ensures len { length out.new ≡ length out.old }
    ensures codes { (r : ℕ) → r < length out.old → slice_index out.new r ≡ code_of width (bytes_of slices.now) (at + r) }
{
    let m = slices.len() - 4;
    read_halves(&slices[..m], &slices[m..], shift_of(width), at, out);
}

/// Fills `out` with the numbers.
fn widen(numbers: &[u32], out: &mut [u64])
    requires { length out.old ≡ length numbers.now }
    ensures len { length out.new ≡ length out.old }
    ensures same { (r : ℕ) → r < length out.old → slice_index out.new r ≡ slice_index numbers.now r }
{
    for r in 0..out.len() {
        out[r] = u64::from(numbers[r]);
    }
}

/// Fills `out` with codes from row `at` on, at most `RUN` of them.
fn read_run(slices: &[Vec<u8>], width: u32, at: usize, out: &mut [u64])
    requires narrow { width ≤ widest_code }
    requires count { length slices.now ≡ slices_of width }
    requires bytes { (i j : ℕ) → byte_of (bytes_of slices.now) j i < 256 }
    requires few { length out.old ≤ 64 }
    requires there { (i : ℕ) → i < slices_of width → at + length out.old ≤ length (slice_index_or (bytes_of slices.now) i []) }
    ensures len { length out.new ≡ length out.old }
    ensures codes { (r : ℕ) → r < length out.old → slice_index out.new r ≡ code_of width (bytes_of slices.now) (at + r) }
{
    if width > 32 {
        return read_wide(slices, width, at, out);
    }
    let mut run = [0; RUN];
    let spare = shift_of(width);
    // Most runs are whole, and are faster where the length is known.
    if out.len() == RUN {
        read_numbers(slices, spare, at, &mut run);
        widen(&run, out);
    } else {
        let codes = &mut run[..out.len()];
        read_numbers(slices, spare, at, codes);
        widen(codes, out);
    }
}

/// Fills `out` with the codes from row `at` on.
pub(crate) fn read(slices: &[Vec<u8>], width: u32, at: usize, out: &mut [u64])
    requires narrow { width ≤ widest_code }
    requires count { length slices.now ≡ slices_of width }
    requires few { at + length out.old ≤ 2 ^ 24 }
    requires bytes { (i j : ℕ) → byte_of (bytes_of slices.now) j i < 256 }
    requires there { (i : ℕ) → i < slices_of width → at + length out.old ≤ length (slice_index_or (bytes_of slices.now) i []) }
    ensures len { length out.new ≡ length out.old }
    ensures codes { (r : ℕ) → r < length out.old → slice_index out.new r ≡ code_of width (bytes_of slices.now) (at + r) }
{
    let mut done = 0;
    'runs: while done < out.len() {
        let n = (out.len() - done).min(RUN);
        read_run(slices, width, at + done, &mut out[done..done + n]);
        done += n;
    }
}
