//! The bit planes of a column's codes, each layout's in its own way.

ghost use Rattle.std.specs.Prelude.{IfSome, if◌then◌else◌, length, pos, ℕ, ◌&&◌, ◌*◌, ◌+◌, ◌+ℤ◌, ◌^◌, ◌≡◌, ◌≤◌};
ghost use Rattle.bw_mask.specs.Masks.{SameShape, len, row_at};
ghost use Rattle.bw_code.specs.Tests.{int_compares};
ghost use Rattle.bw_code.specs.Units.{segments_of, some_below};
ghost use Rattle.bw_code.specs.Widths.{widest_code};
ghost use Rattle.bw_vertical.specs.Planes.{code_in};
ghost use Rattle.bw_column.specs.PlaneSources.{HoldsCodes, reads_in, units_in};
ghost use Rattle.bw_column.specs.Storing.{layout_of, list_of};
ghost use Rattle.bw_column.specs.Values.{widest};

use crate::storage::Codes;
use bw_byteslice::SlicePlanes;
use bw_code::{CmpOp, Offset, Source};
use bw_mask::Mask;
use bw_vertical::{PlaneSource, add_from};

/// The bit planes of a column of codes, read one at a time: unit q * width + i is plane i of segment q, which has 256
/// rows.
#[derive(Drop)]
pub(crate) enum ColumnPlanes<'a> {
    V(PlaneSource<'a>),
    S(SlicePlanes<'a>),
}

impl<'a> Source<[u64; 4]> for ColumnPlanes<'a> {
    ghost use Rattle.bw_column.specs.PlaneSources.{reads_in, units_in};

    ghost units = { units_in };

    ghost reads = { reads_in };

    fn read(&mut self, i: usize) -> [u64; 4] {
        match self {
            ColumnPlanes::V(planes) => planes.read(i),
            ColumnPlanes::S(planes) => planes.read(i),
        }
    }

    fn reads(&self) -> u64 {
        match self {
            ColumnPlanes::V(planes) => planes.reads(),
            ColumnPlanes::S(planes) => planes.reads(),
        }
    }
}

/// Compares the values of two columns as `add_from` does. The layout of the second is matched once, not at each read.
fn add_beside<A: Source<[u64; 4]>>(
    a: &mut A,
    left: Offset,
    others: &mut ColumnPlanes<'_>,
    right: Offset,
    op: CmpOp,
    need: &Mask,
    out: &mut Mask,
)
    requires narrow { left.width ≤ widest_code }
    requires other_narrow { right.width ≤ widest_code }
    requires few { len need.now ≤ 2 ^ 24 }
    requires out { len out.old ≡ len need.now }
    requires units { length (A.units a.old) ≡ segments_of 256 (len need.now) * left.width }
    requires other_units { length (units_in others.old) ≡ segments_of 256 (len need.now) * right.width }
    requires reads { A.reads a.old ≤ 2 ^ 62 }
    requires other_reads { reads_in others.old ≤ 2 ^ 62 }
    ensures units { A.units a.new ≡ A.units a.old }
    ensures other_units { units_in others.new ≡ units_in others.old }
    ensures reads { A.reads a.new ≡ A.reads a.old + (if some_below (len need.now) (row_at need.now) then segments_of 256 (len need.now) * left.width else 0) }
    ensures other_reads { reads_in others.new ≡ reads_in others.old + (if some_below (len need.now) (row_at need.now) then segments_of 256 (len need.now) * right.width else 0) }
    ensures shape { SameShape out.new out.old }
    ensures rows { (i : ℕ) → row_at out.new i ≡ (row_at need.now i
        && int_compares op (left.base +ℤ pos (code_in left.width (A.units a.old) i)) (right.base +ℤ pos (code_in right.width (units_in others.old) i))) }
{
    match others {
        ColumnPlanes::V(b) => add_from(a, left, b, right, op, need, out),
        ColumnPlanes::S(b) => add_from(a, left, b, right, op, need, out),
    }
}

/// Compares the values of two columns as `add_from` does. The layout of each is matched once, not at each read.
pub(crate) fn add_planes(
    planes: &mut ColumnPlanes<'_>,
    left: Offset,
    others: &mut ColumnPlanes<'_>,
    right: Offset,
    op: CmpOp,
    need: &Mask,
    out: &mut Mask,
)
    requires narrow { left.width ≤ widest_code }
    requires other_narrow { right.width ≤ widest_code }
    requires few { len need.now ≤ 2 ^ 24 }
    requires out { len out.old ≡ len need.now }
    requires units { length (units_in planes.old) ≡ segments_of 256 (len need.now) * left.width }
    requires other_units { length (units_in others.old) ≡ segments_of 256 (len need.now) * right.width }
    requires reads { reads_in planes.old ≤ 2 ^ 62 }
    requires other_reads { reads_in others.old ≤ 2 ^ 62 }
    ensures units { units_in planes.new ≡ units_in planes.old }
    ensures other_units { units_in others.new ≡ units_in others.old }
    ensures reads { reads_in planes.new ≡ reads_in planes.old + (if some_below (len need.now) (row_at need.now) then segments_of 256 (len need.now) * left.width else 0) }
    ensures other_reads { reads_in others.new ≡ reads_in others.old + (if some_below (len need.now) (row_at need.now) then segments_of 256 (len need.now) * right.width else 0) }
    ensures shape { SameShape out.new out.old }
    ensures rows { (i : ℕ) → row_at out.new i ≡ (row_at need.now i
        && int_compares op (left.base +ℤ pos (code_in left.width (units_in planes.old) i)) (right.base +ℤ pos (code_in right.width (units_in others.old) i))) }
{
    match planes {
        ColumnPlanes::V(a) => add_beside(a, left, others, right, op, need, out),
        ColumnPlanes::S(a) => add_beside(a, left, others, right, op, need, out),
    }
}

impl Codes {
    /// The planes, none of them read yet, where the layout has planes; `None` for layouts P and H.
    pub(crate) fn planes(&self) -> Option<ColumnPlanes<'_>>
        requires { (list_of self.now).width ≤ widest (layout_of self.now) }
        ensures { IfSome result (HoldsCodes (list_of self.now)) }
    {
        match self {
            Codes::V(codes) => Some(ColumnPlanes::V(codes.planes())),
            Codes::S(codes) => Some(ColumnPlanes::S(codes.planes())),
            Codes::P(_) | Codes::H(_) => None,
        }
    }
}
