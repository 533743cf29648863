//! The truth of a comparison at the needed slots.

ghost use Rattle.std.specs.Prelude.{length, ◌≡◌};
ghost use Rattle.bw_code.specs.Meters.{raised};
ghost use Rattle.bw_column.specs.Comparisons.{AreTruthsAt};
ghost use Rattle.bw_column.specs.Values.{value_at};
ghost use Rattle.bw_mask.specs.Masks.{len, row_at};
ghost use Rattle.bw_model.specs.Condition.{compared};
ghost use Rattle.bw_plan.specs.Costs.{of_column, of_constant, reading_of, units_of_compared};
ghost use Rattle.bw_plan.specs.Operands.{IsOperandOf, cmp_of, mirrored, operand_at};

use crate::operand::SlotOperand;
use bw_code::{CmpOp, Meter};
use bw_column::Column;
use bw_mask::{Mask, Truth, TruthValue};
use bw_sql::{CompareOp, Value};

/// The comparison for an operator.
pub(crate) fn comparison(sign: CompareOp) -> CmpOp
    ensures { result ≡ cmp_of sign }
{
    match sign {
        CompareOp::Eq => CmpOp::Eq,
        CompareOp::Ne => CmpOp::Ne,
        CompareOp::Lt => CmpOp::Lt,
        CompareOp::Le => CmpOp::Le,
        CompareOp::Gt => CmpOp::Gt,
        CompareOp::Ge => CmpOp::Ge,
    }
}

/// The operator that gives the same result with the two sides exchanged.
fn exchanged(sign: CompareOp) -> CompareOp
    ensures { result ≡ mirrored sign }
{
    match sign {
        CompareOp::Eq => CompareOp::Eq,
        CompareOp::Ne => CompareOp::Ne,
        CompareOp::Lt => CompareOp::Gt,
        CompareOp::Le => CompareOp::Ge,
        CompareOp::Gt => CompareOp::Lt,
        CompareOp::Ge => CompareOp::Le,
    }
}

/// The truth of a comparison of two values. It is unknown if one of them is NULL.
pub(crate) fn compare_values(left: Value, sign: CompareOp, right: Value) -> TruthValue
    ensures { result ≡ compared sign left right }
{
    let (Some(left), Some(right)) = (left, right) else {
        return TruthValue::Unknown;
    };
    TruthValue::of(comparison(sign).compares_integers(left, right))
}

/// Sets the truth to `value` at each needed slot. No unit is added to the meter.
pub(crate) fn set_unread(value: TruthValue, need: &Mask, truth: &mut Truth, meter: &mut Meter)
    requires { len need.now ≡ length truth.old }
    ensures truth { AreTruthsAt need.now (λ _. value) truth.new }
    ensures units { meter.new ≡ raised meter.old 0 }
{
    truth.set_all(value, need);
    meter.add(0);
}

/// Sets the truth, at the needed slots, to the result of comparing the column with a value.
fn set_compared_with(
    column: &Column,
    sign: CompareOp,
    value: Value,
    need: &Mask,
    truth: &mut Truth,
    meter: &mut Meter,
)
    requires need { len need.now ≡ length column.now.values }
    requires truth { length truth.old ≡ length column.now.values }
    ensures truth { AreTruthsAt need.now (λ i. compared sign (value_at column.now.values i) value) truth.new }
    ensures units { meter.new ≡ raised meter.old (units_of_compared (of_column column.now) sign (of_constant value) (row_at need.now)) }
{
    match value {
        Some(constant) => column.compare_in(comparison(sign), constant, need, truth, meter),
        None => set_unread(TruthValue::Unknown, need, truth, meter),
    }
}

/// Sets the truth, at the needed slots, to the result of comparing the column with an operand.
fn set_column_compared(
    column: &Column,
    sign: CompareOp,
    other: &SlotOperand<'_>,
    need: &Mask,
    truth: &mut Truth,
    meter: &mut Meter,
)
    requires need { len need.now ≡ length column.now.values }
    requires truth { length truth.old ≡ length column.now.values }
    requires other { IsOperandOf (len need.now) other.now }
    ensures truth { AreTruthsAt need.now (λ i. compared sign (value_at column.now.values i) (operand_at other.now i)) truth.new }
    ensures units { meter.new ≡ raised meter.old (units_of_compared (of_column column.now) sign (reading_of other.now) (row_at need.now)) }
{
    match other {
        SlotOperand::Column(right) => {
            column.compare_column_in(comparison(sign), *right, need, truth, meter)
        }
        SlotOperand::Constant(value) => {
            set_compared_with(column, sign, *value, need, truth, meter)
        }
    }
}

/// Sets the truth, at the needed slots, to the result of comparing a value with an operand.
fn set_value_compared(
    value: Value,
    sign: CompareOp,
    other: &SlotOperand<'_>,
    need: &Mask,
    truth: &mut Truth,
    meter: &mut Meter,
)
    requires truth { length truth.old ≡ len need.now }
    requires other { IsOperandOf (len need.now) other.now }
    ensures truth { AreTruthsAt need.now (λ i. compared sign value (operand_at other.now i)) truth.new }
    ensures units { meter.new ≡ raised meter.old (units_of_compared (of_constant value) sign (reading_of other.now) (row_at need.now)) }
{
    match other {
        SlotOperand::Column(column) => {
            set_compared_with(*column, exchanged(sign), value, need, truth, meter)
        }
        SlotOperand::Constant(other) => {
            set_unread(compare_values(value, sign, *other), need, truth, meter)
        }
    }
}

/// Sets the truth, at the needed slots, to the result of comparing two operands. It is unknown where either is NULL,
/// and at every slot that isn't needed. The earlier truth is ignored. The units read are added to the meter. Allocates
/// nothing.
pub(crate) fn set_compared(
    left: &SlotOperand<'_>,
    sign: CompareOp,
    right: &SlotOperand<'_>,
    need: &Mask,
    truth: &mut Truth,
    meter: &mut Meter,
)
    requires truth { length truth.old ≡ len need.now }
    requires left { IsOperandOf (len need.now) left.now }
    requires right { IsOperandOf (len need.now) right.now }
    ensures truth { AreTruthsAt need.now (λ i. compared sign (operand_at left.now i) (operand_at right.now i)) truth.new }
    ensures units { meter.new ≡ raised meter.old (units_of_compared (reading_of left.now) sign (reading_of right.now) (row_at need.now)) }
{
    match left {
        SlotOperand::Column(column) => {
            set_column_compared(*column, sign, right, need, truth, meter)
        }
        SlotOperand::Constant(value) => {
            set_value_compared(*value, sign, right, need, truth, meter)
        }
    }
}
