//! Comparisons, and tests on codes.

ghost use Rattle.std.specs.Prelude.{◌≡◌};
ghost use Rattle.bw_code.specs.Tests.{code_compares, int_compares, meets};

/// A comparison of two numbers.
#[derive(Clone, Copy, Debug, PartialEq, Eq)]
pub enum CmpOp {
    /// They are equal.
    Eq,
    /// They are not equal.
    Ne,
    /// The first is below the second.
    Lt,
    /// The first is below or equal to the second.
    Le,
    /// The first is above the second.
    Gt,
    /// The first is above or equal to the second.
    Ge,
}

impl CmpOp {
    /// Whether two codes satisfy the comparison.
    pub fn compares(self, x: u64, y: u64) -> bool
        ensures { result ≡ code_compares self x y }
    {
        match self {
            CmpOp::Eq => x == y,
            CmpOp::Ne => x != y,
            CmpOp::Lt => x < y,
            CmpOp::Le => x <= y,
            CmpOp::Gt => x > y,
            CmpOp::Ge => x >= y,
        }
    }

    /// Whether two integers satisfy the comparison.
    pub fn compares_integers(self, left: i64, right: i64) -> bool
        ensures { result ≡ int_compares self left right }
    {
        match self {
            CmpOp::Eq => left == right,
            CmpOp::Ne => left != right,
            CmpOp::Lt => left < right,
            CmpOp::Le => left <= right,
            CmpOp::Gt => left > right,
            CmpOp::Ge => left >= right,
        }
    }
}

/// A test on codes.
#[derive(Clone, Copy, Debug, PartialEq, Eq)]
pub enum CodeTest {
    /// No code meets it.
    None,
    /// Every code meets it.
    All,
    /// The codes that satisfy the comparison with this one.
    Cmp(CmpOp, u64),
    /// The codes from the first to the second, both inclusive.
    Range(u64, u64),
}

impl CodeTest {
    /// Whether a code meets the test.
    pub fn meets(self, code: u64) -> bool
        ensures { result ≡ meets self code }
    {
        match self {
            CodeTest::None => false,
            CodeTest::All => true,
            CodeTest::Cmp(op, constant) => op.compares(code, constant),
            CodeTest::Range(low, high) => low <= code && code <= high,
        }
    }
}
