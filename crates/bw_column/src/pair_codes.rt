//! Comparing two columns by their codes, without fetching values.

ghost use Rattle.std.specs.Prelude.{is_some, length, true, ℕ, ◌&&◌, ◌+◌, ◌^◌, ◌≡◌, ◌≤◌};
ghost use Rattle.bw_mask.specs.Masks.{SameShape, len, row_at};
ghost use Rattle.bw_code.specs.Encodings.{width};
ghost use Rattle.bw_code.specs.Meters.{raised};
ghost use Rattle.bw_code.specs.Units.{units_of_addition, units_of_pair};
ghost use Rattle.bw_code.specs.Widths.{widest_code};
ghost use Rattle.bw_column.specs.Codes.{codes_for};
ghost use Rattle.bw_column.specs.Comparisons.{compare_so};
ghost use Rattle.bw_column.specs.Costs.{are_alike, have_sums};
ghost use Rattle.bw_column.specs.Values.{value_at};

use crate::column::Column;
use crate::column_planes::add_planes;
use bw_code::{CmpOp, Encoding, Layout, Meter, Source};
use bw_mask::Mask;

/// The units of all planes of two columns of these widths, where any row is known; else 0.
fn units_of_planes(width: u32, other_width: u32, known: &Mask) -> u64
    requires few { len known.now ≤ 2 ^ 24 }
    requires narrow { width ≤ widest_code }
    requires other_narrow { other_width ≤ widest_code }
    ensures { result ≡ units_of_addition width other_width (row_at known.now) (len known.now) }
{
    if known.any() {
        u64::from(width + other_width) * known.len().div_ceil(256) as u64
    } else {
        0
    }
}

impl Column {
    /// Whether both have the same layout and encoding, so that their codes compare as their values do.
    pub fn is_alike(&self, other: &Column) -> bool
        ensures { result ≡ are_alike self.now other.now }
    {
        self.layout() == other.layout() && self.encoding == other.encoding
    }

    /// `out` becomes the known rows whose values satisfy the comparison, by scanning the codes of both side by side.
    #[tactic(auto, using(bw_code::proofs::Lists::made_len))]
    pub(crate) fn compare_codes(
        &self,
        op: CmpOp,
        other: &Column,
        known: &Mask,
        out: &mut Mask,
        meter: &mut Meter,
    )
        requires other { length other.now.values ≡ length self.now.values }
        requires layout { other.now.layout ≡ self.now.layout }
        requires encoding { other.now.encoding ≡ self.now.encoding }
        requires known { len known.now ≡ length self.now.values }
        requires there { (i : ℕ) → row_at known.now i ≡ true → (is_some (value_at self.now.values i) && is_some (value_at other.now.values i)) ≡ true }
        requires out { len out.old ≡ length self.now.values }
        ensures shape { SameShape out.new out.old }
        ensures rows { (i : ℕ) → row_at out.new i ≡ (row_at known.now i && compare_so op (value_at self.now.values i) (value_at other.now.values i)) }
        ensures units { meter.new ≡ raised meter.old (units_of_pair self.now.layout (width self.now.encoding) (row_at known.now) (codes_for self.now.encoding self.now.values) (codes_for other.now.encoding other.now.values)) }
    {
        self.codes.scan_pair(&other.codes, op, known, out, meter);
    }

    /// Whether both are of kind OFFSET and in layouts that have planes.
    pub(crate) fn has_sums_with(&self, other: &Column) -> bool
        ensures { result ≡ have_sums self.now other.now }
    {
        let are_offsets = match (&self.encoding, &other.encoding) {
            (Encoding::Offset(_), Encoding::Offset(_)) => true,
            _ => false,
        };
        are_offsets && self.layout() != Layout::P && other.layout() != Layout::P
    }

    /// `out` becomes the known rows whose values satisfy the comparison: by the planes of both, adding the bases, where
    /// both lend planes, else by the values. In both cases the cost is that of the planes.
    #[tactic(auto, using(bw_code::proofs::Lists::made_len))]
    pub(crate) fn compare_sums(
        &self,
        op: CmpOp,
        other: &Column,
        known: &Mask,
        out: &mut Mask,
        meter: &mut Meter,
    )
        requires sums { have_sums self.now other.now ≡ true }
        requires other { length other.now.values ≡ length self.now.values }
        requires known { len known.now ≡ length self.now.values }
        requires there { (i : ℕ) → row_at known.now i ≡ true → (is_some (value_at self.now.values i) && is_some (value_at other.now.values i)) ≡ true }
        requires out { len out.old ≡ length self.now.values }
        ensures shape { SameShape out.new out.old }
        ensures rows { (i : ℕ) → row_at out.new i ≡ (row_at known.now i && compare_so op (value_at self.now.values i) (value_at other.now.values i)) }
        ensures units { meter.new ≡ raised meter.old (units_of_addition (width self.now.encoding) (width other.now.encoding) (row_at known.now) (length self.now.values)) }
    {
        let (Encoding::Offset(left), Encoding::Offset(right)) = (&self.encoding, &other.encoding)
        else {
            unreachable!()
        };
        let (Some(mut planes), Some(mut others)) = (self.codes.planes(), other.codes.planes())
        else {
            // A plane of H is spread over all words of a segment: reading its codes is faster.
            self.compare_rows(op, other, known, out);
            meter.add(units_of_planes(left.width, right.width, known));
            return;
        };
        add_planes(&mut planes, *left, &mut others, *right, op, known, out);
        meter.add(planes.reads());
        meter.add(others.reads());
    }
}
