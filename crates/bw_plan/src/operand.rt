//! The source of an operand's value at each slot of a table.

ghost use Rattle.std.specs.Prelude.{length, ℕ, ◌≡◌};
ghost use Rattle.bw_plan.specs.Costs.{number_of, reading_in, reading_of};
ghost use Rattle.bw_plan.specs.Operands.{IsOperandOf, operand_at};
ghost use Rattle.bw_plan.specs.Plans.{value_by};
ghost use Rattle.bw_table.specs.Slots.{slot_at};

use crate::plan::Source;
use bw_column::Column;
use bw_sql::Value;
use bw_table::Slots;

/// The source of an operand's value at each slot: a column, or one value for all slots.
#[derive(Drop)]
pub(crate) enum SlotOperand<'a> {
    Column(&'a Column),
    Constant(Value),
}

/// The operand of a source over these slots. An index past the last column is NULL.
pub(crate) fn slot_operand<'a>(source: Source, slots: &'a Slots) -> SlotOperand<'a>
    ensures long { IsOperandOf (length slots.entry.now.slots) result }
    ensures reading { reading_of result ≡ reading_in slots.entry.now source }
    ensures values { (i : ℕ) → operand_at result i ≡ value_by source (slot_at slots.entry.now.slots i).row }
{
    match source {
        Source::Place(place) => {
            if place < slots.width() {
                SlotOperand::Column(slots.column(place))
            } else {
                SlotOperand::Constant(None)
            }
        }
        Source::Constant(value) => SlotOperand::Constant(value),
    }
}

/// The number that an operand is at every slot, or `None` for a column or NULL.
pub(crate) fn number(operand: &SlotOperand<'_>) -> Option<i64>
    ensures { result ≡ number_of (reading_of operand.now) }
{
    match operand {
        SlotOperand::Column(_) => None,
        SlotOperand::Constant(value) => *value,
    }
}
