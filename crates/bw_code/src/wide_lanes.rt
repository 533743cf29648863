//! Plain codes, 64 of them at a time.

ghost use Rattle.std.specs.Prelude.{All, length, nat_le, not, slice_index, ◌&&◌, ℕ, ◌+◌, ◌<◌, ◌^◌, ◌≡◌, ◌≤◌};
ghost use Rattle.bw_mask.specs.Masks.{bit_of};
ghost use Rattle.bw_code.specs.Tests.{code_compares, meets, TestFits};

use crate::compare::{CmpOp, CodeTest};
use std::simd::prelude::*;

/// The codes from `low` to `low + span`, or all others.
#[derive(Clone, Copy)]
pub(crate) struct WideInterval {
    low: u64,
    span: u64,
    is_inside: bool,
    ghost ends: { low + span < 2 ^ 64 },
}

impl WideInterval {
    ghost use Rattle.bw_code.specs.Intervals.{is_in_wide as is_in};

    fn from_to(low: u64, high: u64) -> WideInterval
        requires { low ≤ high }
        ensures { (code : ℕ) → is_in result code ≡ (nat_le low code && nat_le code high) }
    {
        WideInterval {
            low,
            span: high - low,
            is_inside: true,
        }
    }

    fn others(self) -> WideInterval
        ensures { (code : ℕ) → is_in result code ≡ not (is_in self code) }
    {
        WideInterval {
            low: self.low,
            span: self.span,
            is_inside: !self.is_inside,
        }
    }

    /// The 64-bit codes that meet a test.
    pub(crate) fn of(test: CodeTest) -> WideInterval
        requires { TestFits 64 test }
        ensures { (code : ℕ) → code < 2 ^ 64 → is_in result code ≡ meets test code }
    {
        let all = WideInterval::from_to(0, u64::MAX);
        match test {
            CodeTest::None => all.others(),
            CodeTest::All => all,
            CodeTest::Cmp(op, constant) => WideInterval::compared(op, constant),
            CodeTest::Range(low, high) if low <= high => { WideInterval::from_to(low, high) }
            CodeTest::Range(..) => all.others(),
        }
    }

    fn compared(op: CmpOp, constant: u64) -> WideInterval
        ensures { (code : ℕ) → code < 2 ^ 64 → is_in result code ≡ code_compares op code constant }
    {
        match op {
            CmpOp::Eq => WideInterval::from_to(constant, constant),
            CmpOp::Ne => WideInterval::from_to(constant, constant).others(),
            CmpOp::Lt => WideInterval::from_to(constant, u64::MAX).others(),
            CmpOp::Le => WideInterval::from_to(0, constant),
            CmpOp::Gt => WideInterval::from_to(0, constant).others(),
            CmpOp::Ge => WideInterval::from_to(constant, u64::MAX),
        }
    }

    /// Bit i says whether the i-th of the first 64 codes is in the interval.
    pub(crate) fn rows(self, codes: &[u64]) -> u64
        requires { 64 ≤ length codes.now }
        ensures { (i : ℕ) → i < 64 → bit_of result i ≡ is_in self (slice_index codes.now i) }
    {
        let inside = between(codes, self.low, self.span);
        if self.is_inside { inside } else { !inside }
    }
}

/// Bit i says whether the i-th of the first 64 codes is `low`, `low + 1`, .. or `low + span`.
fn between(codes: &[u64], low: u64, span: u64) -> u64
    requires long { 64 ≤ length codes.now }
    requires ends { low + span < 2 ^ 64 }
    ensures { (i : ℕ) → i < 64 → bit_of result i ≡ (nat_le low (slice_index codes.now i) && nat_le (slice_index codes.now i) (low + span)) }
{
    // A code below `low` wraps around to more than any span.
    (u64x64::from_slice(codes) - u64x64::splat(low))
        .simd_le(u64x64::splat(span))
        .to_bitmask()
}

/// Bit i says whether the i-th of the first 64 codes and of the first 64 others satisfy the comparison.
pub fn compared_rows(op: CmpOp, codes: &[u64], others: &[u64]) -> u64
    requires long { 64 ≤ length codes.now }
    requires other { 64 ≤ length others.now }
    ensures { (i : ℕ) → i < 64 → bit_of result i ≡ code_compares op (slice_index codes.now i) (slice_index others.now i) }
{
    let (x, y) = (u64x64::from_slice(codes), u64x64::from_slice(others));
    match op {
        CmpOp::Eq => x.simd_eq(y).to_bitmask(),
        CmpOp::Ne => x.simd_ne(y).to_bitmask(),
        CmpOp::Lt => x.simd_lt(y).to_bitmask(),
        CmpOp::Le => x.simd_le(y).to_bitmask(),
        CmpOp::Gt => y.simd_lt(x).to_bitmask(),
        CmpOp::Ge => y.simd_le(x).to_bitmask(),
    }
}

/// Bit r says whether the r-th of the first 64 codes has bit i set.
pub(crate) fn rows_with_bit(codes: &[u64], i: u32) -> u64
    requires long { 64 ≤ length codes.now }
    requires bit { i < 64 }
    ensures { (r : ℕ) → r < 64 → bit_of result r ≡ bit_of (slice_index codes.now r) i }
{
    (u64x64::from_slice(codes) & u64x64::splat(1 << i))
        .simd_ne(u64x64::splat(0))
        .to_bitmask()
}

/// The codes, padded with zeros.
pub(crate) fn filled_up(codes: &[u64]) -> [u64; 64]
    requires { length codes.now ≤ 64 }
    ensures { (i : ℕ) → slice_index result i ≡ slice_index codes.now i }
{
    let mut block = [0; 64];
    for i in 0..codes.len() {
        block[i] = codes[i];
    }
    block
}
