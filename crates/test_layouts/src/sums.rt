//! Two columns with different bases, compared over their planes, checked against a plain comparison of their values,
//! which are integers of 128 bits.

ghost use Rattle.std.specs.Prelude.{length, ◌<◌, ◌≡◌, ◌≤◌};
ghost use Rattle.bw_mask.specs.Masks.{len};
ghost use Rattle.bw_code.specs.Columns.{Fit};

use crate::codes::{OPERATORS, codes_of, column_of, filled, holds, other_codes};
use crate::seen::{see, see_at};
use bw_code::{CmpOp, Offset, Source};
use bw_mask::Mask;
use bw_vertical::{VerticalColumn, add_from};
use std::process::Abort;

// More than one segment.
const ROWS: usize = 300;

/// Codes of values.
#[derive(Clone, Copy)]
struct Side<'a> {
    offset: Offset,
    codes: &'a [u64],
}

impl<'a> Side<'a> {
    fn value(&self, row: usize) -> i128
        requires { row < length self.now.codes.now }
    {
        i128::from(self.offset.base) + i128::from(self.codes[row])
    }
}

/// Compares the values of two columns over their planes, and returns how often planes of each were read.
fn reads_of(
    column: &VerticalColumn,
    left: Offset,
    other: &VerticalColumn,
    right: Offset,
    op: CmpOp,
    need: &Mask,
    out: &mut Mask,
) -> (u64, u64)
    requires narrow { left.width ≤ 64 }
    requires other_narrow { right.width ≤ 64 }
    requires width { column.now.width ≡ left.width }
    requires other_width { other.now.width ≡ right.width }
    requires few { len need.now ≤ 1000 }
    requires codes { length column.now.codes ≡ len need.now }
    requires others { length other.now.codes ≡ len need.now }
    requires out { len out.old ≡ len need.now }
    ensures { len out.new ≡ len need.now }
{
    let (mut planes, mut others) = (column.planes(), other.planes());
    add_from(&mut planes, left, &mut others, right, op, need, out);
    (planes.reads(), others.reads())
}

/// The same for the values of two sides.
fn compared<R: Abort + AllocGlobal>(
    rt: &R,
    left: &Side<'_>,
    right: &Side<'_>,
    op: CmpOp,
    need: &Mask,
    out: &mut Mask,
) -> (u64, u64)
    requires narrow { left.now.offset.width ≤ 64 }
    requires other_narrow { right.now.offset.width ≤ 64 }
    requires fit { Fit left.now.offset.width left.now.codes.now }
    requires other_fit { Fit right.now.offset.width right.now.codes.now }
    requires few { len need.now ≤ 1000 }
    requires codes { length left.now.codes.now ≡ len need.now }
    requires others { length right.now.codes.now ≡ len need.now }
    requires out { len out.old ≡ len need.now }
    ensures { len out.new ≡ len need.now }
{
    let column = column_of(rt, left.offset.width, left.codes);
    let other = column_of(rt, right.offset.width, right.codes);
    reads_of(&column, left.offset, &other, right.offset, op, need, out)
}

/// 10, 12, 17 with base 10 in 3 bits, compared with 11, 11, 20 with base 11 in 4: the first is below the second in rows
/// 0 and 2, and each plane is read once.
#[test]
fn other_bases(rt: HostRuntime) {
    let left = Side {
        offset: Offset { base: 10, width: 3 },
        codes: &[0, 2, 7],
    };
    let right = Side {
        offset: Offset { base: 11, width: 4 },
        codes: &[0, 0, 9],
    };
    let need = filled(&rt, 3, true);
    let mut out = filled(&rt, 3, false);
    let reads = compared(&rt, &left, &right, CmpOp::Lt, &need, &mut out);
    see(&rt, out.words(), &[0b101]);
    see(&rt, reads, (3, 4));
}

/// The needed rows that were found are those whose values satisfy the comparison.
fn check_found<R: Abort>(
    rt: &R,
    op: CmpOp,
    left: &Side<'_>,
    right: &Side<'_>,
    need: &Mask,
    found: &Mask,
)
    requires codes { length left.now.codes.now ≡ 300 }
    requires others { length right.now.codes.now ≡ 300 }
    requires need { len need.now ≡ 300 }
    requires found { len found.now ≡ 300 }
{
    for row in 0..ROWS {
        let compares = holds(op, left.value(row), right.value(row));
        see_at(rt, (op, row), found.get(row), need.get(row) && compares);
    }
}

/// The needed rows of more than one segment.
fn need_of_segments<R: Abort + AllocGlobal>(rt: &R) -> Mask
    ensures { len result ≡ 300 }
{
    let mut need = filled(rt, ROWS, true);
    need.put_bits(64, 64, 0x0123_4567_89ab_cdef);
    need
}

/// Compares values over several segments, reading each plane once.
fn check_comparison<R: Abort + AllocGlobal>(rt: &R, left: &Side<'_>, right: &Side<'_>, op: CmpOp)
    requires narrow { left.now.offset.width ≤ 64 }
    requires other_narrow { right.now.offset.width ≤ 64 }
    requires fit { Fit left.now.offset.width left.now.codes.now }
    requires other_fit { Fit right.now.offset.width right.now.codes.now }
    requires codes { length left.now.codes.now ≡ 300 }
    requires others { length right.now.codes.now ≡ 300 }
{
    let need = need_of_segments(rt);
    let mut found = filled(rt, ROWS, true);
    let (reads, others) = compared(rt, left, right, op, &need, &mut found);
    see_at(rt, op, reads, 2 * u64::from(left.offset.width));
    see_at(rt, op, others, 2 * u64::from(right.offset.width));
    check_found(rt, op, left, right, &need, &found);
}

/// Compares values of two offsets by each operator.
fn check_addition<R: Abort + AllocGlobal>(rt: &R, left: Offset, right: Offset)
    requires some { 1 ≤ left.width }
    requires other_some { 1 ≤ right.width }
    requires narrow { left.width ≤ 64 }
    requires other_narrow { right.width ≤ 64 }
{
    let codes = codes_of(rt, left.width, ROWS);
    let others = other_codes(rt, right.width, ROWS);
    let first = Side {
        offset: left,
        codes: &codes,
    };
    let second = Side {
        offset: right,
        codes: &others,
    };
    for op in OPERATORS {
        check_comparison(rt, &first, &second, op);
    }
}

fn check_both_ways<R: Abort + AllocGlobal>(rt: &R, left: Offset, right: Offset)
    requires some { 1 ≤ left.width }
    requires other_some { 1 ≤ right.width }
    requires narrow { left.width ≤ 64 }
    requires other_narrow { right.width ≤ 64 }
{
    check_addition(rt, left, right);
    check_addition(rt, right, left);
}

/// Bases that are near, that are the same, that are apart by as much as codes of some widths reach or more, and that
/// are the ends of i64, which are apart by 2^64 - 1.
const BASES: [(i64, i64); 12] = [
    (-3, -1),
    (-3, -3),
    (-3, 5),
    (-1, 0),
    (-2_147_483_648, 0),
    (-2_147_483_648, 0x7fff_ffff_ffff),
    (0, 0x100_0000_0000),
    (i64::MIN, i64::MIN),
    (i64::MIN, 0),
    (0, i64::MAX),
    (i64::MAX - 1, i64::MAX),
    (i64::MIN, i64::MAX),
];

/// Compares values with two bases, for codes of many widths each.
fn check_bases<R: Abort + AllocGlobal>(rt: &R, left: i64, right: i64) {
    for width in [1, 3, 13, 32, 33, 40, 63, 64] {
        for other in [1, 31, 33, 40, 64] {
            let near = Offset { base: left, width };
            let far = Offset {
                base: right,
                width: other,
            };
            check_both_ways(rt, near, far);
        }
    }
}

#[test]
fn sums_against_values(rt: HostRuntime) {
    for (left, right) in &BASES {
        check_bases(&rt, *left, *right);
    }
}
