//! Comparing a column at the needed rows, without taking memory.

ghost use Rattle.std.specs.Prelude.{length, ℕ, ℤ, Bool, ◌≡◌, Some};
ghost use Rattle.bw_mask.specs.Masks.{len};
ghost use Rattle.bw_code.specs.Encodings.{code_of, width};
ghost use Rattle.bw_code.specs.Meters.{raised};
ghost use Rattle.bw_code.specs.Tests.{TestFits, meets};
ghost use Rattle.bw_column.specs.Comparisons.{AreTruthsAt, compared, compared_with, is_listed, lies_between, truth_of};
ghost use Rattle.bw_column.specs.Costs.{needed_known, units_of_columns, units_of_comparison, units_of_list, units_of_range, units_of_test};
ghost use Rattle.bw_column.specs.Values.{value_at};

use crate::column::Column;
use bw_code::{CmpOp, CodeTest, Meter};
use bw_mask::{Mask, Truth};

impl Column {
    /// Evaluates at the needed rows the predicate on values that a test of codes stands for.
    fn test_in(&self, test: CodeTest, need: &Mask, truth: &mut Truth, meter: &mut Meter)
        requires test { TestFits (width self.now.encoding) test }
        requires need { len need.now ≡ length self.now.values }
        requires truth { length truth.old ≡ length self.now.values }
        ensures truth { (holds : ℤ → Bool) → ((x : ℤ) (code : ℕ) → code_of self.now.encoding x ≡ Some code → meets test code ≡ holds x)
            → AreTruthsAt need.now (λ i. truth_of holds (value_at self.now.values i)) truth.new }
        ensures units { meter.new ≡ raised meter.old (units_of_test self.now test (needed_known need.now self.now.values)) }
    {
        let (mut trues, mut falses) = truth.take_masks();
        self.split(test, need, &mut trues, &mut falses, meter);
        *truth = Truth::new(trues, falses);
    }

    /// `truth` becomes, at each needed row, the truth of comparing the value with the constant. Its earlier content
    /// does not matter. It is unknown at a null and at every row that is not needed. The units of one scan of the
    /// needed non-null rows are added to the meter. Takes no memory.
    pub fn compare_in(
        &self,
        op: CmpOp,
        constant: i64,
        need: &Mask,
        truth: &mut Truth,
        meter: &mut Meter,
    )
        requires need { len need.now ≡ length self.now.values }
        requires truth { length truth.old ≡ length self.now.values }
        ensures truth { AreTruthsAt need.now (λ i. compared_with op constant (value_at self.now.values i)) truth.new }
        ensures units { meter.new ≡ raised meter.old (units_of_comparison self.now op constant need.now) }
    {
        let test = self.encoding().test(op, constant);
        self.test_in(test, need, truth, meter);
    }

    /// `truth` becomes, at each needed row, whether the value lies between `low` and `high`, both inclusive, as in
    /// `compare_in`. Where `low` is above `high`, no value does. The units of one scan are added to the meter. Takes no
    /// memory.
    pub fn range_in(&self, low: i64, high: i64, need: &Mask, truth: &mut Truth, meter: &mut Meter)
        requires need { len need.now ≡ length self.now.values }
        requires truth { length truth.old ≡ length self.now.values }
        ensures truth { AreTruthsAt need.now (λ i. lies_between low high (value_at self.now.values i)) truth.new }
        ensures units { meter.new ≡ raised meter.old (units_of_range self.now low high need.now) }
    {
        let test = self.encoding().range(low, high);
        self.test_in(test, need, truth, meter);
    }

    /// `truth` becomes, at each needed row, whether the value is one of the entries, as in `compare_in`. No value is in
    /// an empty list. For each entry in order, the units of one scan of the needed non-null rows that are not yet true
    /// are added to the meter. Takes no memory.
    pub fn in_list_in(&self, entries: &[i64], need: &Mask, truth: &mut Truth, meter: &mut Meter)
        requires need { len need.now ≡ length self.now.values }
        requires truth { length truth.old ≡ length self.now.values }
        ensures truth { AreTruthsAt need.now (λ i. is_listed entries.now (value_at self.now.values i)) truth.new }
        ensures units { meter.new ≡ raised meter.old (units_of_list self.now entries.now need.now) }
    {
        let (mut trues, mut falses) = truth.take_masks();
        self.split_by_list(entries, need, &mut trues, &mut falses, meter);
        *truth = Truth::new(trues, falses);
    }

    /// `truth` becomes, at each needed row, the truth of comparing the values of both columns. Its earlier content does
    /// not matter. It is unknown where either value is null and at every row that is not needed. Takes no memory. The
    /// meter is raised by what is read of both at the needed rows where neither is null (`units_of_columns`): a scan of
    /// both side by side where their layout and encoding are the same, the planes of both where only their bases or
    /// widths differ, and else two fetches for each row. Where one of them is in layout H, the planes are counted but
    /// not read: values are compared instead.
    pub fn compare_column_in(
        &self,
        op: CmpOp,
        other: &Column,
        need: &Mask,
        truth: &mut Truth,
        meter: &mut Meter,
    )
        requires other { length other.now.values ≡ length self.now.values }
        requires need { len need.now ≡ length self.now.values }
        requires truth { length truth.old ≡ length self.now.values }
        ensures truth { AreTruthsAt need.now (λ i. compared op (value_at self.now.values i) (value_at other.now.values i)) truth.new }
        ensures units { meter.new ≡ raised meter.old (units_of_columns self.now other.now need.now) }
    {
        let (mut trues, mut falses) = truth.take_masks();
        self.split_by_column(op, other, need, &mut trues, &mut falses, meter);
        *truth = Truth::new(trues, falses);
    }
}
