//! The slots where a condition is true.

ghost use Rattle.std.specs.Prelude.{IfOk, OnErr, OnOk, length, Some, ◌≡◌};
ghost use Rattle.bw_mask.specs.Masks.{len, row_at};
ghost use Rattle.bw_code.specs.Meters.{raised};
ghost use Rattle.bw_column.specs.Comparisons.{AreTrueAt};
ghost use Rattle.bw_column.specs.Values.{value_at};
ghost use Rattle.bw_model.specs.Condition.{compared, lies_between};
ghost use Rattle.bw_plan.specs.Costs.{of_column, of_constant, units_by, units_of_between, units_of_compared};
ghost use Rattle.bw_plan.specs.Operands.{truth_in};
ghost use Rattle.bw_plan.specs.Plans.{plan_of};

use crate::comparison_truth::comparison;
use crate::evaluation::evaluate;
use crate::operand::{SlotOperand, number, slot_operand};
use crate::plan::{Predicate, RowCondition};
use bw_code::Meter;
use bw_column::Column;
use bw_mask::Mask;
use bw_sql::CompareOp;
use bw_table::Slots;
use std::alloc::{AllocError, Global};

/// The needed rows of a column whose value compares so with a number.
fn rows_compared(
    alloc: Global,
    column: &Column,
    sign: CompareOp,
    constant: i64,
    need: &Mask,
    meter: &mut Meter,
) -> Result<Mask, AllocError>
    requires { len need.now ≡ length column.now.values }
    ensures found { IfOk result (AreTrueAt need.now (λ i. compared sign (value_at column.now.values i) (Some constant))) }
    ensures units { OnOk result (meter.new ≡ raised meter.old (units_of_compared (of_column column.now) sign (of_constant (Some constant)) (row_at need.now))) }
    ensures unread { OnErr result (meter.new ≡ meter.old) }
{
    column.rows_compared(alloc, comparison(sign), constant, need, meter)
}

/// The needed rows of a column whose value is from `low` to `high`, inclusive.
fn rows_between(
    alloc: Global,
    column: &Column,
    low: i64,
    high: i64,
    need: &Mask,
    meter: &mut Meter,
) -> Result<Mask, AllocError>
    requires { len need.now ≡ length column.now.values }
    ensures found { IfOk result (AreTrueAt need.now (λ i. lies_between (value_at column.now.values i) (Some low) (Some high))) }
    ensures units { OnOk result (meter.new ≡ raised meter.old (units_of_between (of_column column.now) (of_constant (Some low)) (of_constant (Some high)) (row_at need.now))) }
    ensures unread { OnErr result (meter.new ≡ meter.old) }
{
    column.rows_between(alloc, low, high, need, meter)
}

/// The needed slots where a condition is true. The units read are added to the meter, and none if it runs out of memory.
/// A column compared with one number, or between two, is scanned for the slots where that is true alone: that takes one
/// mask, and a second one where a needed value is NULL. Any other condition is evaluated.
pub fn find(
    alloc: Global,
    condition: &RowCondition,
    slots: &Slots,
    need: &Mask,
    meter: &mut Meter,
) -> Result<Mask, AllocError>
    requires { len need.now ≡ length slots.now.slots }
    ensures found { IfOk result (AreTrueAt need.now (truth_in (plan_of condition.now) slots.now.slots)) }
    ensures units { OnOk result (meter.new ≡ raised meter.old (units_by (plan_of condition.now) slots.now (row_at need.now))) }
    ensures unread { OnErr result (meter.new ≡ meter.old) }
{
    if let RowCondition::Test(Predicate::Compare(left, sign, right)) = condition {
        let left = slot_operand(*left, slots);
        let right = slot_operand(*right, slots);
        if let (SlotOperand::Column(column), Some(constant)) = (&left, number(&right)) {
            return rows_compared(alloc, *column, *sign, constant, need, meter);
        }
    }
    if let RowCondition::Test(Predicate::Between(value, low, high)) = condition {
        let value = slot_operand(*value, slots);
        let low = number(&slot_operand(*low, slots));
        let high = number(&slot_operand(*high, slots));
        if let (SlotOperand::Column(column), Some(low), Some(high)) = (&value, low, high) {
            return rows_between(alloc, *column, low, high, need, meter);
        }
    }
    Ok(evaluate(alloc, condition, slots, need, meter)?.into_trues())
}
