//! The truth of IN at the needed slots.

ghost use Rattle.std.specs.Prelude.{IfOk, OnErr, OnOk, is_none, length, option_to_list, ◌++◌, ◌<◌, ◌≡◌};
ghost use Rattle.std.specs.List.{list_any};
ghost use Rattle.bw_code.specs.Meters.{raised};
ghost use Rattle.bw_column.specs.Comparisons.{AreTruthsAt};
ghost use Rattle.bw_column.specs.Costs.{units_of_list};
ghost use Rattle.bw_column.specs.Values.{known, value_at};
ghost use Rattle.bw_mask.specs.Masks.{len, row_at};
ghost use Rattle.bw_model.specs.Condition.{is_one_of};
ghost use Rattle.bw_plan.specs.Costs.{reading_of, units_of_listed};
ghost use Rattle.bw_plan.specs.Operands.{IsOperandOf, operand_at};

use crate::comparison_truth::{compare_values, set_unread};
use crate::operand::SlotOperand;
use bw_code::Meter;
use bw_column::Column;
use bw_mask::{Mask, Truth, TruthValue};
use bw_sql::{CompareOp, Value};
use std::alloc::{AllocError, Global};

/// Whether an entry is NULL.
fn has_null(entries: &[Value]) -> bool
    ensures { result ≡ list_any is_none entries.now }
{
    for entry in entries {
        if entry.is_none() {
            return true;
        }
    }
    false
}

/// Appends an entry if it isn't NULL.
fn push_if_number(numbers: &mut Vec<i64>, entry: Value) -> Result<(), AllocError>
    ensures { OnOk result (numbers.new.items ≡ numbers.old.items ++ option_to_list entry) }
{
    if let Some(number) = entry {
        numbers.push(number)?;
    }
    Ok(())
}

/// The non-null entries, in order.
#[tactic(auto, using(bw_cells::proofs::Known::known_more))]
fn numbers_of(alloc: Global, entries: &[Value]) -> Result<Vec<i64>, AllocError>
    ensures { IfOk result (λ numbers. numbers.items ≡ known entries.now) }
{
    let mut numbers = Vec::with_capacity(alloc, entries.len())?;
    for entry in entries {
        push_if_number(&mut numbers, *entry)?;
    }
    Ok(numbers)
}

/// The truth of `value IN (entries)`.
fn one_of(value: Value, entries: &[Value]) -> TruthValue
    ensures { result ≡ is_one_of value entries.now }
{
    let mut found = TruthValue::False;
    for entry in entries {
        found = found.or(compare_values(value, CompareOp::Eq, *entry));
    }
    found
}

/// Sets the truth, at the needed slots, to whether a column's value is one of the entries. If an entry is NULL, the
/// result is never false.
fn set_column_listed(
    alloc: Global,
    column: &Column,
    entries: &[Value],
    need: &Mask,
    truth: &mut Truth,
    meter: &mut Meter,
) -> Result<(), AllocError>
    requires some { 0 < length entries.now }
    requires need { len need.now ≡ length column.now.values }
    requires truth { length truth.old ≡ length column.now.values }
    ensures len { length truth.new ≡ length truth.old }
    ensures truth { OnOk result (AreTruthsAt need.now (λ i. is_one_of (value_at column.now.values i) entries.now) truth.new) }
    ensures units { OnOk result (meter.new ≡ raised meter.old (units_of_list column.now (known entries.now) need.now)) }
    ensures unread { OnErr result (meter.new ≡ meter.old) }
    ensures unchanged { OnErr result (truth.new ≡ truth.old) }
{
    let numbers = numbers_of(alloc, entries)?;
    column.in_list_in(&numbers, need, truth, meter);
    if has_null(entries) {
        truth.forget_falses();
    }
    Ok(())
}

/// Sets the truth, at each needed slot, to whether the value is one of the entries. It is unknown at every slot that
/// isn't needed. The earlier truth is ignored. If it runs out of memory, nothing changes.
#[tactic(auto, using(crate::proofs::Counting::nothing_listed))]
pub(crate) fn set_listed(
    alloc: Global,
    value: &SlotOperand<'_>,
    entries: &[Value],
    need: &Mask,
    truth: &mut Truth,
    meter: &mut Meter,
) -> Result<(), AllocError>
    requires truth { length truth.old ≡ len need.now }
    requires value { IsOperandOf (len need.now) value.now }
    ensures len { length truth.new ≡ length truth.old }
    ensures truth { OnOk result (AreTruthsAt need.now (λ i. is_one_of (operand_at value.now i) entries.now) truth.new) }
    ensures units { OnOk result (meter.new ≡ raised meter.old (units_of_listed (reading_of value.now) entries.now (row_at need.now))) }
    ensures unread { OnErr result (meter.new ≡ meter.old) }
    ensures unchanged { OnErr result (truth.new ≡ truth.old) }
{
    // IN of an empty list is false, even for a NULL.
    if entries.is_empty() {
        set_unread(TruthValue::False, need, truth, meter);
        return Ok(());
    }
    match value {
        SlotOperand::Column(column) => {
            set_column_listed(alloc, *column, entries, need, truth, meter)
        }
        SlotOperand::Constant(value) => {
            set_unread(one_of(*value, entries), need, truth, meter);
            Ok(())
        }
    }
}
