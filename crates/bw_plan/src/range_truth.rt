//! The truth of BETWEEN at the needed slots.

ghost use Rattle.std.specs.Prelude.{OnErr, OnOk, length, ◌≡◌};
ghost use Rattle.bw_code.specs.Meters.{raised};
ghost use Rattle.bw_column.specs.Comparisons.{AreTruthsAt};
ghost use Rattle.bw_mask.specs.Masks.{len, row_at};
ghost use Rattle.bw_model.specs.Condition.{lies_between};
ghost use Rattle.bw_plan.specs.Costs.{reading_of, units_of_between, units_of_ends};
ghost use Rattle.bw_plan.specs.Operands.{IsOperandOf, operand_at};

use crate::comparison_truth::set_compared;
use crate::operand::{SlotOperand, number};
use bw_code::Meter;
use bw_mask::{Mask, Truth, TruthValue};
use bw_sql::CompareOp;
use std::alloc::{AllocError, Global};

/// Does `set_between` by two comparisons, the second only at the slots where the first is not false.
#[tactic(auto, using(crate::proofs::Comparing::filled_long))]
fn set_between_ends(
    alloc: Global,
    value: &SlotOperand<'_>,
    low: &SlotOperand<'_>,
    high: &SlotOperand<'_>,
    need: &Mask,
    truth: &mut Truth,
    meter: &mut Meter,
) -> Result<(), AllocError>
    requires truth { length truth.old ≡ len need.now }
    requires value { IsOperandOf (len need.now) value.now }
    requires low { IsOperandOf (len need.now) low.now }
    requires high { IsOperandOf (len need.now) high.now }
    ensures len { length truth.new ≡ length truth.old }
    ensures truth { OnOk result (AreTruthsAt need.now (λ i. lies_between (operand_at value.now i) (operand_at low.now i) (operand_at high.now i)) truth.new) }
    ensures units { OnOk result (meter.new ≡ raised meter.old (units_of_ends (reading_of value.now) (reading_of low.now) (reading_of high.now) (row_at need.now))) }
    ensures unread { OnErr result (meter.new ≡ meter.old) }
    ensures unchanged { OnErr result (truth.new ≡ truth.old) }
{
    let mut below = Truth::filled(alloc, need.len(), TruthValue::Unknown)?;
    let mut rest = need.try_clone()?;
    set_compared(value, CompareOp::Ge, low, need, truth, meter);
    rest.andnot_in(truth.falses());
    set_compared(value, CompareOp::Le, high, &rest, &mut below, meter);
    truth.and_in(&below);
    Ok(())
}

/// Sets the truth, at each needed slot, to whether the value is from `low` to `high`, inclusive. It is unknown at every
/// slot that isn't needed. The earlier truth is ignored. A column between two numbers is scanned once, without
/// allocating. If it runs out of memory, nothing changes.
pub(crate) fn set_between(
    alloc: Global,
    value: &SlotOperand<'_>,
    low: &SlotOperand<'_>,
    high: &SlotOperand<'_>,
    need: &Mask,
    truth: &mut Truth,
    meter: &mut Meter,
) -> Result<(), AllocError>
    requires truth { length truth.old ≡ len need.now }
    requires value { IsOperandOf (len need.now) value.now }
    requires low { IsOperandOf (len need.now) low.now }
    requires high { IsOperandOf (len need.now) high.now }
    ensures len { length truth.new ≡ length truth.old }
    ensures truth { OnOk result (AreTruthsAt need.now (λ i. lies_between (operand_at value.now i) (operand_at low.now i) (operand_at high.now i)) truth.new) }
    ensures units { OnOk result (meter.new ≡ raised meter.old (units_of_between (reading_of value.now) (reading_of low.now) (reading_of high.now) (row_at need.now))) }
    ensures unread { OnErr result (meter.new ≡ meter.old) }
    ensures unchanged { OnErr result (truth.new ≡ truth.old) }
{
    let (SlotOperand::Column(column), Some(first), Some(last)) = (value, number(low), number(high))
    else {
        return set_between_ends(alloc, value, low, high, need, truth, meter);
    };
    column.range_in(first, last, need, truth, meter);
    Ok(())
}
