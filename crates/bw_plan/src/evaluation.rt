//! The truth of a condition at the needed slots of a table.

ghost use Rattle.std.specs.Prelude.{IfOk, OnErr, OnOk, length, map, ◌≡◌};
ghost use Rattle.bw_mask.specs.Masks.{len, row_at};
ghost use Rattle.bw_code.specs.Meters.{raised};
ghost use Rattle.bw_column.specs.Comparisons.{AreTruthsAt};
ghost use Rattle.bw_table.specs.Slots.{slot_at};
ghost use Rattle.bw_plan.specs.Costs.{units_by, units_of_each, units_of_some};
ghost use Rattle.bw_plan.specs.Operands.{truth_in};
ghost use Rattle.bw_plan.specs.Plans.{each_by, plan_of, plans_of, some_by};

use crate::plan::RowCondition;
use crate::predicate_truth::set_predicate;
use bw_code::Meter;
use bw_mask::{Mask, Truth, TruthValue};
use bw_table::Slots;
use std::alloc::{AllocError, Global};

/// The truth of a condition at each needed slot, and unknown at the others. In a run of AND, the next part is evaluated
/// only in the slots that are not yet false; in a run of OR, only in those that are not yet true. The units read are
/// added to the meter at the end, and none if it runs out of memory. Each run holds three masks of all slots while it
/// is evaluated.
#[tactic(auto, using(crate::proofs::Spending::raised_by_read))]
pub fn evaluate(
    alloc: Global,
    condition: &RowCondition,
    slots: &Slots,
    need: &Mask,
    meter: &mut Meter,
) -> Result<Truth, AllocError>
    requires { len need.now ≡ length slots.now.slots }
    ensures truths { IfOk result (AreTruthsAt need.now (truth_in (plan_of condition.now) slots.now.slots)) }
    ensures units { OnOk result (meter.new ≡ raised meter.old (units_by (plan_of condition.now) slots.now (row_at need.now))) }
    ensures unread { OnErr result (meter.new ≡ meter.old) }
{
    let mut truth = Truth::filled(alloc, slots.len(), TruthValue::Unknown)?;
    let mut read = Meter::new();
    set_truth(alloc, condition, slots, need, &mut truth, &mut read)?;
    meter.add(read.units());
    Ok(truth)
}

/// The truth of a condition at each needed slot, and unknown at the others, whatever it was before.
#[cycle(condition)]
fn set_truth(
    alloc: Global,
    condition: &RowCondition,
    slots: &Slots,
    need: &Mask,
    truth: &mut Truth,
    meter: &mut Meter,
) -> Result<(), AllocError>
    requires need { len need.now ≡ length slots.now.slots }
    requires truth { length truth.old ≡ length slots.now.slots }
    ensures truths { OnOk result (AreTruthsAt need.now (truth_in (plan_of condition.now) slots.now.slots) truth.new) }
    ensures units { OnOk result (meter.new ≡ raised meter.old (units_by (plan_of condition.now) slots.now (row_at need.now))) }
    ensures len { length truth.new ≡ length truth.old }
{
    match condition {
        RowCondition::And(parts) => set_each(alloc, parts, slots, need, truth, meter),
        RowCondition::Or(parts) => set_some(alloc, parts, slots, need, truth, meter),
        RowCondition::Not(part) => {
            set_truth(alloc, part, slots, need, truth, meter)?;
            truth.not_in();
            Ok(())
        }
        RowCondition::Is(part, value) => {
            set_truth(alloc, part, slots, need, truth, meter)?;
            truth.is_test_in(*value, false, need);
            Ok(())
        }
        RowCondition::Test(predicate) => set_predicate(alloc, predicate, slots, need, truth, meter),
    }
}

/// The AND of the parts at each needed slot. Once a slot is false it stays so, and no further part is evaluated there.
#[cycle(condition)]
fn set_each(
    alloc: Global,
    parts: &[RowCondition],
    slots: &Slots,
    need: &Mask,
    truth: &mut Truth,
    meter: &mut Meter,
) -> Result<(), AllocError>
    requires need { len need.now ≡ length slots.now.slots }
    requires truth { length truth.old ≡ length slots.now.slots }
    ensures truths { OnOk result (AreTruthsAt need.now (λ i. each_by (plans_of (map plan_of parts.now)) (slot_at slots.now.slots i).row) truth.new) }
    ensures units { OnOk result (meter.new ≡ raised meter.old (units_of_each (plans_of (map plan_of parts.now)) slots.now (row_at need.now))) }
    ensures len { length truth.new ≡ length truth.old }
{
    let [first, others @ ..] = parts else {
        truth.set_all(TruthValue::True, need);
        // There are no parts, so nothing is read. Adding 0 shows that without a bound on the meter.
        meter.add(0);
        return Ok(());
    };
    set_truth(alloc, first, slots, need, truth, meter)?;
    let mut rest = need.try_clone()?;
    rest.andnot_in(truth.falses());
    let mut said = Truth::filled(alloc, slots.len(), TruthValue::Unknown)?;
    for part in others {
        set_truth(alloc, part, slots, &rest, &mut said, meter)?;
        truth.and_in(&said);
        rest.andnot_in(truth.falses());
    }
    Ok(())
}

/// The OR of the parts at each needed slot. Once a slot is true it stays so, and no further part is evaluated there.
#[cycle(condition)]
fn set_some(
    alloc: Global,
    parts: &[RowCondition],
    slots: &Slots,
    need: &Mask,
    truth: &mut Truth,
    meter: &mut Meter,
) -> Result<(), AllocError>
    requires need { len need.now ≡ length slots.now.slots }
    requires truth { length truth.old ≡ length slots.now.slots }
    ensures truths { OnOk result (AreTruthsAt need.now (λ i. some_by (plans_of (map plan_of parts.now)) (slot_at slots.now.slots i).row) truth.new) }
    ensures units { OnOk result (meter.new ≡ raised meter.old (units_of_some (plans_of (map plan_of parts.now)) slots.now (row_at need.now))) }
    ensures len { length truth.new ≡ length truth.old }
{
    let [first, others @ ..] = parts else {
        truth.set_all(TruthValue::False, need);
        // There are no parts, so nothing is read. Adding 0 shows that without a bound on the meter.
        meter.add(0);
        return Ok(());
    };
    set_truth(alloc, first, slots, need, truth, meter)?;
    let mut rest = need.try_clone()?;
    rest.andnot_in(truth.trues());
    let mut said = Truth::filled(alloc, slots.len(), TruthValue::Unknown)?;
    for part in others {
        set_truth(alloc, part, slots, &rest, &mut said, meter)?;
        truth.or_in(&said);
        rest.andnot_in(truth.trues());
    }
    Ok(())
}
