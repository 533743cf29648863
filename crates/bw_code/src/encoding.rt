//! How integers are encoded by codes that keep their order.

ghost use Rattle.std.specs.Bool.{OnTrue};
ghost use Rattle.std.specs.Prelude.{◌≡◌, ◌<◌, ◌≤◌, ◌^◌, ◌↔◌, ◌&&◌, ℕ, ℤ, Some, All, IfOk, IfSome, IsSome, IsTrue, int_le, length};
ghost use Rattle.bw_code.specs.Encodings.{code_of, kind_of, range_of, same_encoding, test_of, value_of, width, AreCodes, HasCode, IsCode, IsEncoding, IsFit};
ghost use Rattle.bw_code.specs.Tests.{int_compares, meets, TestFits};

use crate::compare::{CmpOp, CodeTest};
use crate::dictionary::Dictionary;
use crate::kind::Kind;
use crate::offset::Offset;
use std::alloc::{AllocError, Global};

/// How integers are encoded. Of two values that have codes, the lesser has the lesser code.
#[derive(Debug, Drop)]
pub enum Encoding {
    /// As distances from a base.
    Offset(Offset),
    /// As indices among the sorted distinct values.
    Dictionary(Dictionary),
}

impl PartialEq for Encoding {
    ghost use Rattle.bw_code.specs.Sameness.{same_partial};

    ghost eq = { same_encoding };

    ghost laws = { same_partial };

    fn eq(&self, other: &Encoding) -> bool {
        match (self, other) {
            (Encoding::Offset(a), Encoding::Offset(b)) => a.base == b.base && a.width == b.width,
            (Encoding::Dictionary(a), Encoding::Dictionary(b)) => a == b,
            _ => false,
        }
    }
}

impl Eq for Encoding {
    ghost use Rattle.bw_code.specs.Sameness.{same_equivalence};

    ghost laws = { same_equivalence };
}

impl Encoding {
    /// The kind of the encoding.
    pub fn kind(&self) -> Kind
        ensures { result ≡ kind_of self.now }
    {
        match self {
            Encoding::Offset(_) => Kind::Offset,
            Encoding::Dictionary(_) => Kind::Dictionary,
        }
    }

    /// The width of a code in bits.
    pub fn width(&self) -> u32
        ensures is { result ≡ width self.now }
        ensures sound { IsEncoding self.now }
        ensures some { 1 ≤ result }
        ensures few { result ≤ 64 }
    {
        match self {
            Encoding::Offset(offset) => offset.width,
            Encoding::Dictionary(dictionary) => dictionary.width(),
        }
    }

    /// The code of a value, if it has one.
    pub fn encode(&self, x: i64) -> Option<u64>
        ensures is { result ≡ code_of self.now x }
        ensures coded { IsSome result ↔ HasCode self.now x }
        ensures low { IfSome result (λ code. code < 2 ^ width self.now) }
        ensures back { IfSome result (λ code. value_of self.now code ≡ x) }
    {
        match self {
            Encoding::Offset(offset) => offset.encode(x),
            Encoding::Dictionary(dictionary) => dictionary.encode(x),
        }
    }

    /// Writes the code of each value to `codes` at the same index, and returns whether every value has one. If not, the
    /// content of `codes` is unspecified.
    pub fn encode_all(&self, values: &[i64], codes: &mut [u64]) -> bool
        requires { length codes.old ≡ length values.now }
        ensures all { IsTrue result ↔ All (HasCode self.now) values.now }
        ensures codes { OnTrue result (AreCodes (code_of self.now) values.now codes.new) }
    {
        match self {
            Encoding::Offset(offset) => offset.encode_all(values, codes),
            Encoding::Dictionary(dictionary) => dictionary.encode_all(values, codes),
        }
    }

    /// The value that a code stands for.
    pub fn decode(&self, code: u64) -> i64
        requires { IsCode self.now code }
        ensures is { result ≡ value_of self.now code }
        ensures again { code_of self.now result ≡ Some code }
    {
        match self {
            Encoding::Offset(offset) => offset.decode(code),
            Encoding::Dictionary(dictionary) => dictionary.decode(code),
        }
    }

    /// The test met by exactly the codes of those values that satisfy the comparison with the constant.
    pub fn test(&self, op: CmpOp, constant: i64) -> CodeTest
        ensures is { result ≡ test_of self.now op constant }
        ensures fits { TestFits (width self.now) result }
        ensures meets { (x : ℤ) (code : ℕ) → code_of self.now x ≡ Some code → meets result code ≡ int_compares op x constant }
    {
        match self {
            Encoding::Offset(offset) => offset.test(op, constant),
            Encoding::Dictionary(dictionary) => dictionary.test(op, constant),
        }
    }

    /// The test met by exactly the codes of the values from `low` to `high`, both inclusive.
    pub fn range(&self, low: i64, high: i64) -> CodeTest
        ensures is { result ≡ range_of self.now low high }
        ensures fits { TestFits (width self.now) result }
        ensures meets { (x : ℤ) (code : ℕ) → code_of self.now x ≡ Some code → meets result code ≡ (int_le low x && int_le x high) }
    {
        match self {
            Encoding::Offset(offset) => offset.range(low, high),
            Encoding::Dictionary(dictionary) => dictionary.range(low, high),
        }
    }
}

/// The encoding of a kind that fits the values: each of them has a code.
pub fn fit(alloc: Global, values: &[i64], kind: Kind) -> Result<Encoding, AllocError>
    ensures fits { IfOk result (IsFit values.now) }
    ensures kind { IfOk result (λ e. kind_of e ≡ kind) }
    ensures coded { IfOk result (λ e. All (HasCode e) values.now) }
{
    match kind {
        Kind::Offset => Ok(Encoding::Offset(Offset::of_values(values))),
        Kind::Dictionary => Ok(Encoding::Dictionary(Dictionary::of_values(alloc, values)?)),
    }
}
