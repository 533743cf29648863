//! Finding the needed rows where a comparison with numbers holds, without finding those where it doesn't.

ghost use Rattle.std.specs.Prelude.{Bool, IfOk, OnErr, OnOk, Some, is_some, length, true, ℕ, ℤ, ◌&&◌, ◌≡◌};
ghost use Rattle.bw_mask.specs.Masks.{len, row_at};
ghost use Rattle.bw_code.specs.Encodings.{code_of, width};
ghost use Rattle.bw_code.specs.Meters.{raised};
ghost use Rattle.bw_code.specs.Tests.{TestFits, meets};
ghost use Rattle.bw_column.specs.Comparisons.{AreTrueAt, compared_with, holds_of, lies_between, truth_of};
ghost use Rattle.bw_column.specs.Costs.{needed_known, units_of_comparison, units_of_range, units_of_test};
ghost use Rattle.bw_column.specs.Values.{value_at};

use crate::column::Column;
use bw_code::{CmpOp, CodeTest, Meter};
use bw_mask::Mask;
use std::alloc::{AllocError, Global};

impl Column {
    /// `found` becomes the rows of `known`, all non-null, whose code meets the test.
    #[tactic(auto, using(bw_code::proofs::Lists::made_len))]
    fn find_known(&self, test: CodeTest, known: &Mask, found: &mut Mask, meter: &mut Meter)
        requires test { TestFits (width self.now.encoding) test }
        requires len { len known.now ≡ length self.now.values }
        requires found { len found.old ≡ length self.now.values }
        requires known { (i : ℕ) → row_at known.now i ≡ true → is_some (value_at self.now.values i) ≡ true }
        ensures len { len found.new ≡ len found.old }
        ensures rows { (holds : ℤ → Bool) → ((x : ℤ) (code : ℕ) → code_of self.now.encoding x ≡ Some code → meets test code ≡ holds x)
            → (i : ℕ) → row_at found.new i ≡ (row_at known.now i && holds_of holds (value_at self.now.values i)) }
        ensures units { meter.new ≡ raised meter.old (units_of_test self.now test (row_at known.now)) }
    {
        self.codes.scan(test, known, found, meter);
    }

    /// The needed rows where the predicate on values holds that a test of codes stands for.
    #[tactic(auto, using(bw_code::proofs::Lists::made_len))]
    fn find(
        &self,
        alloc: Global,
        test: CodeTest,
        need: &Mask,
        meter: &mut Meter,
    ) -> Result<Mask, AllocError>
        requires test { TestFits (width self.now.encoding) test }
        requires need { len need.now ≡ length self.now.values }
        ensures found { (holds : ℤ → Bool) → ((x : ℤ) (code : ℕ) → code_of self.now.encoding x ≡ Some code → meets test code ≡ holds x)
            → IfOk result (AreTrueAt need.now (λ i. truth_of holds (value_at self.now.values i))) }
        ensures units { OnOk result (meter.new ≡ raised meter.old (units_of_test self.now test (needed_known need.now self.now.values))) }
        ensures unread { OnErr result (meter.new ≡ meter.old) }
    {
        let mut found = Mask::filled(alloc, need.len(), false)?;
        // Where no needed value is null, the codes of the needed rows are scanned as they stand.
        if need.is_within(&self.nonnull) {
            self.find_known(test, need, &mut found, meter);
            return Ok(found);
        }
        let mut known = need.try_clone()?;
        known.and_in(&self.nonnull);
        self.find_known(test, &known, &mut found, meter);
        Ok(found)
    }

    /// The needed rows whose value compares so with the constant. The units of one scan of the needed non-null rows are
    /// added to the meter. Takes one mask, and a second one where a needed value is null. If it runs out of memory, no
    /// units are added.
    pub fn rows_compared(
        &self,
        alloc: Global,
        op: CmpOp,
        constant: i64,
        need: &Mask,
        meter: &mut Meter,
    ) -> Result<Mask, AllocError>
        requires { len need.now ≡ length self.now.values }
        ensures found { IfOk result (AreTrueAt need.now (λ i. compared_with op constant (value_at self.now.values i))) }
        ensures units { OnOk result (meter.new ≡ raised meter.old (units_of_comparison self.now op constant need.now)) }
        ensures unread { OnErr result (meter.new ≡ meter.old) }
    {
        let test = self.encoding().test(op, constant);
        self.find(alloc, test, need, meter)
    }

    /// The needed rows whose value lies between `low` and `high`, both inclusive, as in `rows_compared`. Where `low` is
    /// above `high`, no value does.
    pub fn rows_between(
        &self,
        alloc: Global,
        low: i64,
        high: i64,
        need: &Mask,
        meter: &mut Meter,
    ) -> Result<Mask, AllocError>
        requires { len need.now ≡ length self.now.values }
        ensures found { IfOk result (AreTrueAt need.now (λ i. lies_between low high (value_at self.now.values i))) }
        ensures units { OnOk result (meter.new ≡ raised meter.old (units_of_range self.now low high need.now)) }
        ensures unread { OnErr result (meter.new ≡ meter.old) }
    {
        let test = self.encoding().range(low, high);
        self.find(alloc, test, need, meter)
    }
}
