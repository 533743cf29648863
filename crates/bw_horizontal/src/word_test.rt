//! What is asked of each word of a scan, prepared before the first one.

ghost use Rattle.std.specs.Prelude.{ℕ, ◌≡◌};
ghost use Rattle.bw_lane.specs.Marking.{marks};
ghost use Rattle.bw_lane.specs.Sections.{IsStored, holds};
ghost use Rattle.bw_code.specs.Tests.{TestFits, code_compares, meets};
ghost use Rattle.bw_horizontal.specs.Prepared.{asked};
ghost use Rattle.bw_horizontal.specs.Words.{AreDelimiters};

use bw_code::{CmpOp, CodeTest};
use bw_lane::{LaneOp, SectionMasks, SectionTest};

/// A test of the codes of a word. Each kind is a type of its own, so that a scan chooses once, and not at each word.
pub(crate) trait WordTest: Copy {
    ghost marked: { Self → ℕ → ℕ };

    /// The delimiters of the sections of a word whose code meets the test.
    fn marked(&self, word: u64) -> u64
        ensures { result ≡ marked self.now word };
}

impl WordTest for SectionTest {
    ghost use Rattle.bw_lane.specs.Marking.{marks};

    ghost marked = { marks };

    #[inline]
    fn marked(&self, word: u64) -> u64 {
        self.marks(word)
    }
}

/// Both of two comparisons.
#[derive(Clone, Copy)]
pub(crate) struct Between {
    low: SectionTest,
    high: SectionTest,
}

impl WordTest for Between {
    ghost use Rattle.bw_horizontal.specs.Prepared.{marked_between};

    ghost marked = { marked_between };

    #[inline]
    fn marked(&self, word: u64) -> u64 {
        self.low.marks(word) & self.high.marks(word)
    }
}

/// The test of a scan.
#[derive(Clone, Copy)]
pub(crate) enum Prepared {
    Compared(SectionTest),
    Between(Between),
}

/// The comparison of lanes for an operator.
pub(crate) fn lane_op(op: CmpOp) -> LaneOp
    ensures { (x y : ℕ) → holds result x y ≡ code_compares op x y }
{
    match op {
        CmpOp::Eq => LaneOp::Eq,
        CmpOp::Ne => LaneOp::Ne,
        CmpOp::Lt => LaneOp::Lt,
        CmpOp::Le => LaneOp::Le,
        CmpOp::Gt => LaneOp::Gt,
        CmpOp::Ge => LaneOp::Ge,
    }
}

/// Prepares a test. No code is below 0, and each is at least 0.
pub(crate) fn prepare(masks: &SectionMasks, test: CodeTest) -> Prepared
    requires { TestFits masks.now.width test }
    ensures { (word : ℕ) → IsStored masks.now.width word → AreDelimiters masks.now.width (meets test) word (asked result word) }
{
    match test {
        CodeTest::None => Prepared::Compared(masks.against(LaneOp::Lt, masks.constant(0))),
        CodeTest::All => Prepared::Compared(masks.against(LaneOp::Ge, masks.constant(0))),
        CodeTest::Cmp(op, constant) => {
            Prepared::Compared(masks.against(lane_op(op), masks.constant(constant as u32)))
        }
        CodeTest::Range(low, high) => Prepared::Between(Between {
            low: masks.against(LaneOp::Ge, masks.constant(low as u32)),
            high: masks.against(LaneOp::Le, masks.constant(high as u32)),
        }),
    }
}
