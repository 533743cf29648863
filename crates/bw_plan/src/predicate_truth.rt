//! The truth of a predicate at the needed slots of a table.

ghost use Rattle.std.specs.Prelude.{OnErr, OnOk, is_none, length, ◌≡◌};
ghost use Rattle.bw_code.specs.Meters.{raised};
ghost use Rattle.bw_column.specs.Comparisons.{AreTruthsAt};
ghost use Rattle.bw_column.specs.Values.{value_at};
ghost use Rattle.bw_mask.specs.Masks.{len, row_at};
ghost use Rattle.bw_mask.specs.Truth.{truth_of_bool};
ghost use Rattle.bw_plan.specs.Costs.{units_by};
ghost use Rattle.bw_plan.specs.Operands.{IsOperandOf, operand_at, truth_in};
ghost use Rattle.bw_plan.specs.Plans.{predicate_of};

use crate::comparison_truth::set_compared;
use crate::list_truth::set_listed;
use crate::operand::{SlotOperand, slot_operand};
use crate::plan::Predicate;
use crate::range_truth::set_between;
use bw_code::Meter;
use bw_column::Column;
use bw_mask::{Mask, Truth, TruthValue};
use bw_table::Slots;
use std::alloc::{AllocError, Global};

/// Sets the truth, at the needed slots, to whether the column's value is NULL. No code is read.
fn set_column_null(column: &Column, need: &Mask, truth: &mut Truth)
    requires need { len need.now ≡ length column.now.values }
    requires truth { length truth.old ≡ length column.now.values }
    ensures { AreTruthsAt need.now (λ i. truth_of_bool (is_none (value_at column.now.values i))) truth.new }
{
    let (mut trues, mut falses) = truth.take_masks();
    falses.become_intersection(need, column.nonnull());
    trues.become_intersection(need, need);
    trues.andnot_in(&falses);
    *truth = Truth::new(trues, falses);
}

/// Sets the truth, at the needed slots, to whether the operand is NULL.
fn set_null(value: &SlotOperand<'_>, need: &Mask, truth: &mut Truth)
    requires truth { length truth.old ≡ len need.now }
    requires value { IsOperandOf (len need.now) value.now }
    ensures { AreTruthsAt need.now (λ i. truth_of_bool (is_none (operand_at value.now i))) truth.new }
{
    match value {
        SlotOperand::Column(column) => set_column_null(*column, need, truth),
        SlotOperand::Constant(value) => truth.set_all(TruthValue::of(value.is_none()), need),
    }
}

/// Sets the truth to that of a predicate at each needed slot, dead or live. It is unknown at every slot that isn't
/// needed. The earlier truth is ignored. The units that the comparisons read are added to the meter. Allocates the
/// numbers of an IN list, and three masks for a BETWEEN other than of a column between two numbers. If it runs out of
/// memory, nothing changes.
pub(crate) fn set_predicate(
    alloc: Global,
    predicate: &Predicate,
    slots: &Slots,
    need: &Mask,
    truth: &mut Truth,
    meter: &mut Meter,
) -> Result<(), AllocError>
    requires need { len need.now ≡ length slots.now.slots }
    requires truth { length truth.old ≡ length slots.now.slots }
    ensures len { length truth.new ≡ length truth.old }
    ensures truth { OnOk result (AreTruthsAt need.now (truth_in (predicate_of predicate.now) slots.now.slots) truth.new) }
    ensures units { OnOk result (meter.new ≡ raised meter.old (units_by (predicate_of predicate.now) slots.now (row_at need.now))) }
    ensures unread { OnErr result (meter.new ≡ meter.old) }
    ensures unchanged { OnErr result (truth.new ≡ truth.old) }
{
    match predicate {
        Predicate::Compare(left, sign, right) => {
            let left = slot_operand(*left, slots);
            let right = slot_operand(*right, slots);
            set_compared(&left, *sign, &right, need, truth, meter);
            Ok(())
        }
        Predicate::Between(value, low, high) => {
            let value = slot_operand(*value, slots);
            let low = slot_operand(*low, slots);
            let high = slot_operand(*high, slots);
            set_between(alloc, &value, &low, &high, need, truth, meter)
        }
        Predicate::In(value, entries) => {
            let value = slot_operand(*value, slots);
            set_listed(alloc, &value, entries, need, truth, meter)
        }
        Predicate::IsNull(value) => {
            let value = slot_operand(*value, slots);
            set_null(&value, need, truth);
            // Which values are NULL is stored in a mask beside the codes, so no unit is read.
            meter.add(0);
            Ok(())
        }
    }
}
