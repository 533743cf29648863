//! Plain codes, 64 of them at a time.

ghost use Rattle.std.specs.Prelude.{All, length, nat_le, not, slice_index, take, ◌&&◌, ℕ, ◌+◌, ◌<◌, ◌^◌, ◌≡◌, ◌≤◌};
ghost use Rattle.bw_mask.specs.Masks.{bit_of};
ghost use Rattle.bw_code.specs.Tests.{code_compares, meets, TestFits};

use crate::compare::{CmpOp, CodeTest};
use std::simd::prelude::*;

/// The codes from `low` to `low + span`, or all others.
#[derive(Clone, Copy)]
pub(crate) struct Interval {
    low: u32,
    span: u32,
    is_inside: bool,
    ghost ends: { low + span < 2 ^ 32 },
}

impl Interval {
    ghost use Rattle.bw_code.specs.Intervals.{is_in};

    fn from_to(low: u32, high: u32) -> Interval
        requires { low ≤ high }
        ensures { (code : ℕ) → is_in result code ≡ (nat_le low code && nat_le code high) }
    {
        Interval {
            low,
            span: high - low,
            is_inside: true,
        }
    }

    fn others(self) -> Interval
        ensures { (code : ℕ) → is_in result code ≡ not (is_in self code) }
    {
        Interval {
            low: self.low,
            span: self.span,
            is_inside: !self.is_inside,
        }
    }

    /// The 32-bit codes that meet a test.
    pub(crate) fn of(test: CodeTest) -> Interval
        requires { TestFits 32 test }
        ensures { (code : ℕ) → code < 2 ^ 32 → is_in result code ≡ meets test code }
    {
        let all = Interval::from_to(0, u32::MAX);
        match test {
            CodeTest::None => all.others(),
            CodeTest::All => all,
            CodeTest::Cmp(op, constant) => Interval::compared(op, constant as u32),
            CodeTest::Range(low, high) if low <= high => {
                Interval::from_to(low as u32, high as u32)
            }
            CodeTest::Range(..) => all.others(),
        }
    }

    fn compared(op: CmpOp, constant: u32) -> Interval
        ensures { (code : ℕ) → code < 2 ^ 32 → is_in result code ≡ code_compares op code constant }
    {
        match op {
            CmpOp::Eq => Interval::from_to(constant, constant),
            CmpOp::Ne => Interval::from_to(constant, constant).others(),
            CmpOp::Lt => Interval::from_to(constant, u32::MAX).others(),
            CmpOp::Le => Interval::from_to(0, constant),
            CmpOp::Gt => Interval::from_to(0, constant).others(),
            CmpOp::Ge => Interval::from_to(constant, u32::MAX),
        }
    }

    /// Bit i says whether the i-th of the first 64 codes is in the interval.
    pub(crate) fn rows(self, codes: &[u32]) -> u64
        requires { 64 ≤ length codes.now }
        ensures { (i : ℕ) → i < 64 → bit_of result i ≡ is_in self (slice_index codes.now i) }
    {
        let inside = rows_between(codes, self.low, self.span);
        if self.is_inside { inside } else { !inside }
    }
}

/// Bit i says whether the i-th of the first 64 codes is `low`, `low + 1`, .. or `low + span`.
pub fn rows_between(codes: &[u32], low: u32, span: u32) -> u64
    requires long { 64 ≤ length codes.now }
    requires ends { low + span < 2 ^ 32 }
    ensures { (i : ℕ) → i < 64 → bit_of result i ≡ (nat_le low (slice_index codes.now i) && nat_le (slice_index codes.now i) (low + span)) }
{
    // A code below `low` wraps around to more than any span.
    (u32x64::from_slice(codes) - u32x64::splat(low))
        .simd_le(u32x64::splat(span))
        .to_bitmask()
}

/// Bit i says whether the i-th of the first 64 codes and of the first 64 others satisfy the comparison.
pub(crate) fn compared(op: CmpOp, codes: &[u32], others: &[u32]) -> u64
    requires long { 64 ≤ length codes.now }
    requires other { 64 ≤ length others.now }
    ensures { (i : ℕ) → i < 64 → bit_of result i ≡ code_compares op (slice_index codes.now i) (slice_index others.now i) }
{
    let (x, y) = (u32x64::from_slice(codes), u32x64::from_slice(others));
    match op {
        CmpOp::Eq => x.simd_eq(y).to_bitmask(),
        CmpOp::Ne => x.simd_ne(y).to_bitmask(),
        CmpOp::Lt => x.simd_lt(y).to_bitmask(),
        CmpOp::Le => x.simd_le(y).to_bitmask(),
        CmpOp::Gt => y.simd_lt(x).to_bitmask(),
        CmpOp::Ge => y.simd_le(x).to_bitmask(),
    }
}

/// Bit r says whether the r-th of the first 64 codes has bit i set.
pub(crate) fn rows_with_bit(codes: &[u32], i: u32) -> u64
    requires long { 64 ≤ length codes.now }
    requires bit { i < 32 }
    ensures { (r : ℕ) → r < 64 → bit_of result r ≡ bit_of (slice_index codes.now r) i }
{
    (u32x64::from_slice(codes) & u32x64::splat(1 << i))
        .simd_ne(u32x64::splat(0))
        .to_bitmask()
}

/// The codes, padded with zeros.
pub fn filled_up(codes: &[u32]) -> [u32; 64]
    requires { length codes.now ≤ 64 }
    ensures { (i : ℕ) → slice_index result i ≡ slice_index codes.now i }
{
    let mut block = [0; 64];
    for i in 0..codes.len() {
        block[i] = codes[i];
    }
    block
}

/// The codes as 32-bit numbers.
pub(crate) fn narrow(codes: &[u64], out: &mut [u32])
    requires long { length out.old ≡ length codes.now }
    requires fit { All (λ code. code < 2 ^ 32) codes.now }
    ensures { out.new ≡ codes.now }
{
    for i in 0..out.len() {
        out[i] = codes[i] as u32;
    }
}

/// Fills `out` with the first codes, as 64-bit numbers.
pub fn widen(codes: &[u32], out: &mut [u64])
    requires { length out.old ≤ length codes.now }
    ensures { out.new ≡ take (length out.old) codes.now }
{
    for i in 0..out.len() {
        out[i] = u64::from(codes[i]);
    }
}
