//! Tests by ranks among sorted entries.

ghost use Rattle.std.specs.Prelude.{◌≡◌, ◌-◌};
ghost use Rattle.bw_code.specs.Encodings.{rank_range, rank_test};

use crate::compare::{CmpOp, CodeTest};

/// The test for a comparison with a constant among `count` entries, `r` of them below the constant and `q` below or
/// equal to it.
pub(crate) fn rank_test(op: CmpOp, r: u64, q: u64, count: u64) -> CodeTest
    ensures { result ≡ rank_test op r q count }
{
    match op {
        CmpOp::Eq if r == q => CodeTest::None,
        CmpOp::Eq => CodeTest::Cmp(CmpOp::Eq, r),
        CmpOp::Ne if r == q => CodeTest::All,
        CmpOp::Ne => CodeTest::Cmp(CmpOp::Ne, r),
        CmpOp::Lt if r == 0 => CodeTest::None,
        CmpOp::Lt if r == count => CodeTest::All,
        CmpOp::Lt => CodeTest::Cmp(CmpOp::Lt, r),
        CmpOp::Le if q == 0 => CodeTest::None,
        CmpOp::Le if q == count => CodeTest::All,
        CmpOp::Le => CodeTest::Cmp(CmpOp::Lt, q),
        CmpOp::Gt if q == count => CodeTest::None,
        CmpOp::Gt if q == 0 => CodeTest::All,
        CmpOp::Gt => CodeTest::Cmp(CmpOp::Ge, q),
        CmpOp::Ge if r == count => CodeTest::None,
        CmpOp::Ge if r == 0 => CodeTest::All,
        CmpOp::Ge => CodeTest::Cmp(CmpOp::Ge, r),
    }
}

/// The test for a range of values among `count` entries, `r` of them below its low end and `q` below or equal to its
/// high end.
pub(crate) fn rank_range(r: u64, q: u64, count: u64) -> CodeTest
    ensures { result ≡ rank_range r q count }
{
    if q <= r {
        CodeTest::None
    } else if r == 0 && q == count {
        CodeTest::All
    } else {
        CodeTest::Range(r, q - 1)
    }
}
