//! Encoding by the distance from a base: frame of reference (Goldstein, Ramakrishnan and Shaft, ICDE 1998).

ghost use Rattle.std.specs.Prelude.{All, IsTrue, List, length, ℤ, ◌↔◌, ◌≡◌, ◌≤◌, ◌^◌, ◌-◌, ◌+ℤ◌, pos, FitsSigned};
ghost use Rattle.std.specs.Bool.{OnTrue};
ghost use Rattle.std.specs.Int.{w64};

use crate::compare::{CmpOp, CodeTest};
use crate::ends::{Ends, ends_of};
use crate::width::width_of;

/// An encoding by the distance from a base. The values from the base to base + 2^width - 1 have a code; this greatest
/// value may be above every i64.
#[derive(Clone, Copy, Debug, PartialEq, Eq)]
pub struct Offset {
    /// The value whose code is 0.
    pub base: i64,
    /// The width of a code in bits: 1 to 64.
    pub width: u32,
    ghost some: { 1 ≤ width },
    ghost few: { width ≤ 64 },
}

impl Offset {
    ghost use Rattle.bw_code.specs.Fittings.{AreEnds};
    ghost use Rattle.bw_code.specs.Encodings.{offset_code, offset_range, offset_test, test_above, test_below, AreCodes, IsOffsetFit, IsWithin};

    /// The test where all values are below the constant.
    fn test_below(op: CmpOp) -> CodeTest
        ensures { result ≡ test_below op }
    {
        match op {
            CmpOp::Ne | CmpOp::Lt | CmpOp::Le => CodeTest::All,
            CmpOp::Eq | CmpOp::Gt | CmpOp::Ge => CodeTest::None,
        }
    }

    /// The test where all values are above the constant.
    fn test_above(op: CmpOp) -> CodeTest
        ensures { result ≡ test_above op }
    {
        match op {
            CmpOp::Ne | CmpOp::Gt | CmpOp::Ge => CodeTest::All,
            CmpOp::Eq | CmpOp::Lt | CmpOp::Le => CodeTest::None,
        }
    }

    /// The offset encoding that spans values between these ends.
    pub fn spanning(ends: Option<Ends>) -> Offset
        ensures fits { (values : List ℤ) → AreEnds values ends → IsOffsetFit values result }
        ensures coded { (values : List ℤ) → AreEnds values ends → All (IsWithin result) values }
    {
        let Some(Ends { least, greatest }) = ends else {
            return Offset { base: 0, width: 1 };
        };
        Offset {
            base: least,
            width: width_of(greatest.abs_diff(least)),
        }
    }

    /// The offset encoding that spans the values.
    pub(crate) fn of_values(values: &[i64]) -> Offset
        ensures fits { IsOffsetFit values.now result }
        ensures coded { All (IsWithin result) values.now }
    {
        Offset::spanning(ends_of(values))
    }

    /// The greatest code.
    fn largest_code(self) -> u64
        ensures { result ≡ 2 ^ self.width - 1 }
    {
        u64::MAX >> (64 - self.width)
    }

    /// The code of a value, if it has one.
    pub(crate) fn encode(self, x: i64) -> Option<u64>
        ensures { result ≡ offset_code self x }
    {
        let code = x.abs_diff(self.base);
        if self.base <= x && code <= self.largest_code() {
            Some(code)
        } else {
            None
        }
    }

    /// Writes the code of each value to `codes` at the same index, and returns whether every value has one.
    pub(crate) fn encode_all(self, values: &[i64], codes: &mut [u64]) -> bool
        requires { length codes.old ≡ length values.now }
        ensures all { IsTrue result ↔ All (IsWithin self) values.now }
        ensures codes { OnTrue result (AreCodes (offset_code self) values.now codes.new) }
    {
        let largest = self.largest_code();
        let mut all = true;
        // No branch per value, so that the loop can be vectorized.
        for i in 0..values.len() {
            let code = values[i].abs_diff(self.base);
            codes[i] = code;
            all &= (self.base <= values[i]) & (code <= largest);
        }
        all
    }

    /// The value that a code stands for.
    pub(crate) fn decode(self, code: u64) -> i64
        requires { FitsSigned w64 (self.base +ℤ pos code) }
        ensures { result ≡ self.base +ℤ pos code }
    {
        self.base.wrapping_add_unsigned(code)
    }

    /// The test met by exactly the codes of those values that satisfy the comparison with the constant.
    pub(crate) fn test(self, op: CmpOp, constant: i64) -> CodeTest
        ensures { result ≡ offset_test self op constant }
    {
        if constant < self.base {
            return Offset::test_above(op);
        }
        let code = constant.abs_diff(self.base);
        if code <= self.largest_code() {
            CodeTest::Cmp(op, code)
        } else {
            Offset::test_below(op)
        }
    }

    /// The test met by exactly the codes of the values from `low` to `high`.
    pub(crate) fn range(self, low: i64, high: i64) -> CodeTest
        ensures { result ≡ offset_range self low high }
    {
        if high < self.base {
            return CodeTest::None;
        }
        let largest = self.largest_code();
        let first = low.max(self.base).abs_diff(self.base);
        let last = high.abs_diff(self.base).min(largest);
        if first > last {
            CodeTest::None
        } else if first == 0 && last == largest {
            CodeTest::All
        } else {
            CodeTest::Range(first, last)
        }
    }
}
