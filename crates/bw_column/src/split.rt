//! Splitting the needed non-null rows into those where a comparison holds and the others.

ghost use Rattle.std.specs.Prelude.{Bool, Some, is_some, length, not, true, ℕ, ℤ, ◌&&◌, ◌≡◌};
ghost use Rattle.std.specs.List.{list_any};
ghost use Rattle.std.specs.Ordering.{int_eq};
ghost use Rattle.bw_mask.specs.Masks.{SameShape, len, row_at};
ghost use Rattle.bw_code.specs.Encodings.{code_of, test_of, width};
ghost use Rattle.bw_code.specs.Meters.{raised};
ghost use Rattle.bw_code.specs.Tests.{TestFits, meets};
ghost use Rattle.bw_code.specs.declared.compare.CmpOp.TheVariants as op;
ghost use Rattle.bw_column.specs.Comparisons.{holds_of};
ghost use Rattle.bw_column.specs.Costs.{needed_known, units_of_list, units_of_test};
ghost use Rattle.bw_column.specs.Values.{value_at};

use crate::column::Column;
use bw_code::{CmpOp, CodeTest, Meter};
use bw_mask::Mask;

impl Column {
    /// Splits into the rows whose code meets the test, and the others.
    #[tactic(auto, using(bw_code::proofs::Lists::made_len))]
    pub(crate) fn split(
        &self,
        test: CodeTest,
        need: &Mask,
        trues: &mut Mask,
        falses: &mut Mask,
        meter: &mut Meter,
    )
        requires test { TestFits (width self.now.encoding) test }
        requires need { len need.now ≡ length self.now.values }
        requires trues { len trues.old ≡ length self.now.values }
        requires falses { len falses.old ≡ length self.now.values }
        ensures shape { SameShape trues.new trues.old }
        ensures other_shape { SameShape falses.new falses.old }
        ensures trues { (holds : ℤ → Bool) → ((x : ℤ) (code : ℕ) → code_of self.now.encoding x ≡ Some code → meets test code ≡ holds x)
            → (i : ℕ) → row_at trues.new i ≡ (row_at need.now i && holds_of holds (value_at self.now.values i)) }
        ensures falses { (i : ℕ) → row_at falses.new i ≡ (needed_known need.now self.now.values i && not (row_at trues.new i)) }
        ensures units { meter.new ≡ raised meter.old (units_of_test self.now test (needed_known need.now self.now.values)) }
    {
        falses.become_intersection(need, &self.nonnull);
        self.codes.scan(test, falses, trues, meter);
        falses.andnot_in(trues);
    }

    /// Removes the rows of an entry from `rest`, whose rows are non-null. The content of `found` afterwards is
    /// unspecified.
    #[tactic(auto, using(bw_code::proofs::Lists::made_len))]
    fn take_out(&self, entry: i64, rest: &mut Mask, found: &mut Mask, meter: &mut Meter)
        requires rest { len rest.old ≡ length self.now.values }
        requires found { len found.old ≡ length self.now.values }
        requires known { (i : ℕ) → row_at rest.old i ≡ true → is_some (value_at self.now.values i) ≡ true }
        ensures shape { SameShape rest.new rest.old }
        ensures other_shape { SameShape found.new found.old }
        ensures rows { (i : ℕ) → row_at rest.new i ≡ (row_at rest.old i && not (holds_of (λ x. int_eq x entry) (value_at self.now.values i))) }
        ensures units { meter.new ≡ raised meter.old (units_of_test self.now (test_of self.now.encoding op.Eq entry) (row_at rest.old)) }
    {
        let test = self.encoding.test(CmpOp::Eq, entry);
        self.codes.scan(test, rest, found, meter);
        rest.andnot_in(found);
    }

    /// Splits into the rows whose value is one of the entries, and the others.
    pub(crate) fn split_by_list(
        &self,
        entries: &[i64],
        need: &Mask,
        trues: &mut Mask,
        falses: &mut Mask,
        meter: &mut Meter,
    )
        requires need { len need.now ≡ length self.now.values }
        requires trues { len trues.old ≡ length self.now.values }
        requires falses { len falses.old ≡ length self.now.values }
        ensures shape { SameShape trues.new trues.old }
        ensures other_shape { SameShape falses.new falses.old }
        ensures trues { (i : ℕ) → row_at trues.new i ≡ (row_at need.now i && holds_of (λ x. list_any (λ entry. int_eq x entry) entries.now) (value_at self.now.values i)) }
        ensures falses { (i : ℕ) → row_at falses.new i ≡ (needed_known need.now self.now.values i && not (row_at trues.new i)) }
        ensures units { meter.new ≡ raised meter.old (units_of_list self.now entries.now need.now) }
    {
        let mut cost = Meter::new();
        falses.become_intersection(need, self.nonnull());
        for entry in entries {
            self.take_out(*entry, falses, trues, &mut cost);
        }
        meter.add(cost.units());
        trues.become_intersection(need, self.nonnull());
        trues.andnot_in(falses);
    }
}
