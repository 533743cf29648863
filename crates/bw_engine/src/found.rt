//! The rows that a condition finds.

ghost use Rattle.std.specs.Prelude.{◌≡◌, ◌<◌, ℕ, All, IfOk, Some, length, option_map};
ghost use Rattle.bw_mask.specs.Masks.{len, row_at};
ghost use Rattle.bw_table.specs.Slots.{slot_at};
ghost use Rattle.bw_engine.specs.Stores.{AreFoundIn};
ghost use Rattle.bw_plan.specs.Plans.{plan_of};

use crate::table::Table;
use bw_code::Meter;
use bw_mask::Mask;
use bw_plan::{RowCondition, find};
use bw_table::Slots;
use std::alloc::{AllocError, Global};

/// The live slots where the condition is true; without a condition, all live slots.
pub(crate) fn found_slots(
    alloc: Global,
    table: &Table,
    condition: &Option<RowCondition>,
) -> Result<Mask, AllocError>
    ensures found { IfOk result (AreFoundIn table.now.slots (option_map plan_of condition.now)) }
    ensures wide { All (λ slot. length slot.row ≡ length table.now.headers) table.now.slots }
{
    let live = table.stored().live();
    match condition {
        Some(condition) => true_slots(alloc, table.stored().slots(), live, condition),
        None => live.try_clone(),
    }
}

/// The live slots where a condition is true.
fn true_slots(
    alloc: Global,
    slots: &Slots,
    live: &Mask,
    condition: &RowCondition,
) -> Result<Mask, AllocError>
    requires len { len live.now ≡ length slots.now.slots }
    requires live { (i : ℕ) → i < length slots.now.slots → row_at live.now i ≡ (slot_at slots.now.slots i).live }
    ensures { IfOk result (AreFoundIn slots.now.slots (Some (plan_of condition.now))) }
{
    let mut meter = Meter::new();
    find(alloc, condition, slots, live, &mut meter)
}
