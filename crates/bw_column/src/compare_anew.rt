//! Comparing a column at the needed rows, with the result in a new `Truth`.

ghost use Rattle.std.specs.Prelude.{IfOk, OnErr, OnOk, length, ◌≡◌};
ghost use Rattle.bw_mask.specs.Masks.{len};
ghost use Rattle.bw_code.specs.Meters.{raised};
ghost use Rattle.bw_column.specs.Comparisons.{AreTruthsAt, compared, compared_with, is_listed, lies_between};
ghost use Rattle.bw_column.specs.Costs.{units_of_columns, units_of_comparison, units_of_list, units_of_range};
ghost use Rattle.bw_column.specs.Values.{value_at};

use crate::column::Column;
use bw_code::{CmpOp, Meter};
use bw_mask::{Mask, Truth, TruthValue};
use std::alloc::{AllocError, Global};

impl Column {
    /// The same as `compare_in`, in a new `Truth`. Where it runs out of memory, the meter stays as it is.
    pub fn compare(
        &self,
        alloc: Global,
        op: CmpOp,
        constant: i64,
        need: &Mask,
        meter: &mut Meter,
    ) -> Result<Truth, AllocError>
        requires { len need.now ≡ length self.now.values }
        ensures truth { IfOk result (AreTruthsAt need.now (λ i. compared_with op constant (value_at self.now.values i))) }
        ensures units { OnOk result (meter.new ≡ raised meter.old (units_of_comparison self.now op constant need.now)) }
        ensures unread { OnErr result (meter.new ≡ meter.old) }
    {
        let mut truth = Truth::filled(alloc, self.len(), TruthValue::Unknown)?;
        self.compare_in(op, constant, need, &mut truth, meter);
        Ok(truth)
    }

    /// The same as `range_in`, in a new `Truth`. Where it runs out of memory, the meter stays as it is.
    pub fn range(
        &self,
        alloc: Global,
        low: i64,
        high: i64,
        need: &Mask,
        meter: &mut Meter,
    ) -> Result<Truth, AllocError>
        requires { len need.now ≡ length self.now.values }
        ensures truth { IfOk result (AreTruthsAt need.now (λ i. lies_between low high (value_at self.now.values i))) }
        ensures units { OnOk result (meter.new ≡ raised meter.old (units_of_range self.now low high need.now)) }
        ensures unread { OnErr result (meter.new ≡ meter.old) }
    {
        let mut truth = Truth::filled(alloc, self.len(), TruthValue::Unknown)?;
        self.range_in(low, high, need, &mut truth, meter);
        Ok(truth)
    }

    /// The same as `in_list_in`, in a new `Truth`. Where it runs out of memory, the meter stays as it is.
    pub fn in_list(
        &self,
        alloc: Global,
        entries: &[i64],
        need: &Mask,
        meter: &mut Meter,
    ) -> Result<Truth, AllocError>
        requires { len need.now ≡ length self.now.values }
        ensures truth { IfOk result (AreTruthsAt need.now (λ i. is_listed entries.now (value_at self.now.values i))) }
        ensures units { OnOk result (meter.new ≡ raised meter.old (units_of_list self.now entries.now need.now)) }
        ensures unread { OnErr result (meter.new ≡ meter.old) }
    {
        let mut truth = Truth::filled(alloc, self.len(), TruthValue::Unknown)?;
        self.in_list_in(entries, need, &mut truth, meter);
        Ok(truth)
    }

    /// The same as `compare_column_in`, in a new `Truth`. Where it runs out of memory, the meter stays as it is.
    pub fn compare_column(
        &self,
        alloc: Global,
        op: CmpOp,
        other: &Column,
        need: &Mask,
        meter: &mut Meter,
    ) -> Result<Truth, AllocError>
        requires other { length other.now.values ≡ length self.now.values }
        requires need { len need.now ≡ length self.now.values }
        ensures truth { IfOk result (AreTruthsAt need.now (λ i. compared op (value_at self.now.values i) (value_at other.now.values i))) }
        ensures units { OnOk result (meter.new ≡ raised meter.old (units_of_columns self.now other.now need.now)) }
        ensures unread { OnErr result (meter.new ≡ meter.old) }
    {
        let mut truth = Truth::filled(alloc, self.len(), TruthValue::Unknown)?;
        self.compare_column_in(op, other, need, &mut truth, meter);
        Ok(truth)
    }
}
