//! The least and the greatest value of a column in the rows of its table. Allocates nothing.

ghost use Rattle.std.specs.Prelude.{None, ◌≡◌, ◌<◌, ◌+◌, ◌^◌, ◌≤◌, if◌then◌else◌, length, slice_index_or, ℕ};
ghost use Rattle.bw_cells.specs.Known.{known};
ghost use Rattle.bw_code.specs.Fittings.{AreEnds};
ghost use Rattle.bw_mask.specs.Masks.{len, row_at};
ghost use Rattle.bw_model.specs.Filing.{column_of};
ghost use Rattle.bw_engine.specs.Stores.{rows_in};

use crate::table::Table;
use bw_cells::{Cells, Measured};
use bw_code::Ends;
use bw_column::Column;
use bw_mask::Mask;
use bw_sql::Value;
use std::marker::Model;

/// The values of a column in the live slots, and NULL in the dead ones.
#[derive(Drop)]
struct LiveOrNull<'a> {
    column: &'a Column,
    live: &'a Mask,
}

impl<'a> Model for LiveOrNull<'a> {
    ghost use Rattle.std.specs.Prelude.{List, Option, length, ℤ, ◌≡◌};
    ghost use Rattle.bw_column.specs.Copies.{masked};
    ghost use Rattle.bw_mask.specs.Masks.{len};

    ghost Value = { List (Option ℤ) };

    ghost view = { λ c. masked c.live.now c.column.now.values };

    ghost invariant = { λ c. len c.live.now ≡ length c.column.now.values };
}

impl<'a> Cells for LiveOrNull<'a> {
    ghost cells = { λ c. c };

    fn len(&self) -> usize {
        self.column.len()
    }

    fn read(&self, at: usize, out: &mut [Value]) {
        // The number of rows is bounded.
        let _few = self.column.len();
        self.column.read(at, out);
        blank_dead(self.live, at, out);
    }
}

impl<'a> Measured for LiveOrNull<'a> {}

/// Replaces by NULL the value of each dead slot; `out[i]` is the value of slot `at + i`.
fn blank_dead(live: &Mask, at: usize, out: &mut [Value])
    requires there { at + length out.old ≤ len live.now }
    requires few { at + length out.old ≤ 2 ^ 24 }
    ensures len { length out.new ≡ length out.old }
    ensures each { (i : ℕ) → i < length out.old → slice_index_or out.new i None ≡ (if row_at live.now (at + i) then slice_index_or out.old i None else None) }
{
    for i in 0..out.len() {
        if !live.get(at + i) {
            out[i] = None;
        }
    }
}

/// The least and the greatest value of column `k` in the rows, if it has a non-null value there.
pub(crate) fn live_ends(table: &Table, k: usize) -> Option<Ends>
    requires { k < length table.now.headers }
    ensures { AreEnds (known (column_of (rows_in table.now.slots) k)) result }
{
    let stored = table.stored();
    let column = stored.column(k);
    if stored.row_count() == column.len() {
        return column.ends();
    }
    let live = stored.live();
    LiveOrNull { column, live }.ends()
}
