//! Comparing two columns at the needed rows.

ghost use Rattle.std.specs.Prelude.{is_some, length, negsuc, not, slice_index, true, ℕ, ◌&&◌, ◌+◌, ◌-◌, ◌<◌, ◌^◌, ◌≡◌, ◌≤◌};
ghost use Rattle.bw_mask.specs.Masks.{SameShape, bit_of, len, row_at};
ghost use Rattle.bw_cells.specs.Distances.{distance_from};
ghost use Rattle.bw_code.specs.Meters.{raised};
ghost use Rattle.bw_code.specs.Units.{units_of_fetches};
ghost use Rattle.bw_column.specs.Comparisons.{compare_so};
ghost use Rattle.bw_column.specs.Costs.{needed_known, units_of_both, units_of_columns};
ghost use Rattle.bw_column.specs.Values.{value_at};

use crate::column::Column;
use bw_cells::Measured;
use bw_code::{CmpOp, Meter, compared_rows};
use bw_mask::Mask;

/// The units of fetching two values for each row of a mask.
fn units_of_rows(rows: &Mask) -> u64
    requires { len rows.now ≤ 2 ^ 24 }
    ensures { result ≡ units_of_fetches (row_at rows.now) (len rows.now) }
{
    2 * rows.count() as u64
}

/// Buffers for the distances of 64 rows of two columns, which are filled again for each 64 rows.
#[derive(Drop)]
struct Rises {
    left: [u64; 64],
    right: [u64; 64],
}

impl Column {
    /// Fills `out` with the distances of the values of the 64 rows from row `at` on, as far as they exist, from the
    /// least 64-bit integer: numbers in the order of the values, whatever the encoding. Returns which of the rows are
    /// non-null.
    fn rise_of_block(&self, at: usize, out: &mut [u64; 64]) -> u64
        requires { at ≤ length self.now.values }
        ensures rises { (i : ℕ) → i < 64 → at + i < length self.now.values → slice_index out.new i ≡ distance_from (negsuc (2 ^ 63 - 1)) (value_at self.now.values (at + i)) }
        ensures present { (i : ℕ) → i < 64 → at + i < length self.now.values → bit_of result i ≡ is_some (value_at self.now.values (at + i)) }
    {
        let n = (self.len() - at).min(64);
        self.distances(at, i64::MIN, &mut out[..n])
    }

    /// Bit i says whether the values of row `at + i` satisfy the comparison, as far as that row exists.
    fn compared_block(&self, op: CmpOp, other: &Column, at: usize, rises: &mut Rises) -> u64
        requires at { at ≤ length self.now.values }
        requires other { length other.now.values ≡ length self.now.values }
        ensures { (i : ℕ) → i < 64 → at + i < length self.now.values
            → bit_of result i ≡ compare_so op (value_at self.now.values (at + i)) (value_at other.now.values (at + i)) }
    {
        let _held = self.len();
        let _others_held = other.len();
        let present = self.rise_of_block(at, &mut rises.left);
        let others = other.rise_of_block(at, &mut rises.right);
        present & others & compared_rows(op, &rises.left, &rises.right)
    }

    /// Of the 64 rows from row `at` on, the needed ones whose values satisfy the comparison.
    #[tactic(auto, using(bw_mask::proofs::Bits::bit_of_and))]
    fn chosen_of_block(
        &self,
        op: CmpOp,
        other: &Column,
        at: usize,
        needed: u64,
        rises: &mut Rises,
    ) -> u64
        requires at { at ≤ length self.now.values }
        requires other { length other.now.values ≡ length self.now.values }
        ensures { (i : ℕ) → i < 64 → at + i < length self.now.values
            → bit_of result i ≡ (bit_of needed i && compare_so op (value_at self.now.values (at + i)) (value_at other.now.values (at + i))) }
    {
        if needed == 0 {
            0
        } else {
            needed & self.compared_block(op, other, at, rises)
        }
    }

    /// `out` becomes the needed rows whose values satisfy the comparison.
    pub(crate) fn compare_rows(&self, op: CmpOp, other: &Column, need: &Mask, out: &mut Mask)
        requires other { length other.now.values ≡ length self.now.values }
        requires need { len need.now ≡ length self.now.values }
        requires out { len out.old ≡ length self.now.values }
        ensures shape { SameShape out.new out.old }
        ensures rows { (i : ℕ) → row_at out.new i ≡ (row_at need.now i && compare_so op (value_at self.now.values i) (value_at other.now.values i)) }
    {
        let mut rises = Rises {
            left: [0; 64],
            right: [0; 64],
        };
        for q in 0..self.len().div_ceil(64) {
            let needed = need.bits(64 * q, 64);
            let found = self.chosen_of_block(op, other, 64 * q, needed, &mut rises);
            out.put_word(q, found);
        }
    }

    /// `out` becomes the known rows whose values satisfy the comparison, by the first way that the two columns allow: a
    /// scan of both, an addition of planes, or their values.
    fn compare_known(
        &self,
        op: CmpOp,
        other: &Column,
        known: &Mask,
        out: &mut Mask,
        meter: &mut Meter,
    )
        requires other { length other.now.values ≡ length self.now.values }
        requires few { len known.now ≤ 2 ^ 24 }
        requires known { len known.now ≡ length self.now.values }
        requires there { (i : ℕ) → row_at known.now i ≡ true → (is_some (value_at self.now.values i) && is_some (value_at other.now.values i)) ≡ true }
        requires out { len out.old ≡ length self.now.values }
        ensures shape { SameShape out.new out.old }
        ensures rows { (i : ℕ) → row_at out.new i ≡ (row_at known.now i && compare_so op (value_at self.now.values i) (value_at other.now.values i)) }
        ensures units { meter.new ≡ raised meter.old (units_of_both self.now other.now (row_at known.now)) }
    {
        if self.is_alike(other) {
            self.compare_codes(op, other, known, out, meter);
        } else if self.has_sums_with(other) {
            self.compare_sums(op, other, known, out, meter);
        } else {
            self.compare_rows(op, other, known, out);
            meter.add(units_of_rows(known));
        }
    }

    /// Splits the needed rows where neither value is null: those where the comparison holds, and the others.
    pub(crate) fn split_by_column(
        &self,
        op: CmpOp,
        other: &Column,
        need: &Mask,
        trues: &mut Mask,
        falses: &mut Mask,
        meter: &mut Meter,
    )
        requires other { length other.now.values ≡ length self.now.values }
        requires need { len need.now ≡ length self.now.values }
        requires trues { len trues.old ≡ length self.now.values }
        requires falses { len falses.old ≡ length self.now.values }
        ensures shape { SameShape trues.new trues.old }
        ensures other_shape { SameShape falses.new falses.old }
        ensures trues { (i : ℕ) → row_at trues.new i ≡ (row_at need.now i && compare_so op (value_at self.now.values i) (value_at other.now.values i)) }
        ensures falses { (i : ℕ) → row_at falses.new i ≡ ((needed_known need.now self.now.values i && is_some (value_at other.now.values i)) && not (row_at trues.new i)) }
        ensures units { meter.new ≡ raised meter.old (units_of_columns self.now other.now need.now) }
    {
        falses.become_intersection(need, self.nonnull());
        falses.and_in(other.nonnull());
        self.compare_known(op, other, falses, trues, meter);
        falses.andnot_in(trues);
    }
}
