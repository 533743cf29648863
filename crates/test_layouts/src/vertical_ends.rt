//! The least and the greatest code of some rows of planes, compared with those of plain codes.

ghost use Rattle.std.specs.Prelude.{length, vec_len, ◌<◌, ◌^◌, ◌≡◌, ◌≤◌};
ghost use Rattle.bw_mask.specs.Masks.{len};
ghost use Rattle.bw_code.specs.Columns.{Fit};

use crate::codes::{FREQUENT, cut, filled};
use crate::copies::random_rows;
use crate::seen::see_at;
use crate::shifts::column_with;
use bw_mask::Mask;
use bw_vertical::VerticalColumn;
use std::process::Abort;

/// How codes follow one another.
#[derive(Clone, Copy, Debug)]
enum Order {
    Random,
    Ascending,
    Descending,
    Equal,
}

const ORDERS: [Order; 4] = [
    Order::Random,
    Order::Ascending,
    Order::Descending,
    Order::Equal,
];

/// The code of a row. Those that ascend end with all ones if the width holds no more, and those that descend with 0.
fn code_in(order: Order, width: u32, row: usize) -> u64
    requires { width ≤ 64 }
    ensures { result < 2 ^ width }
{
    let most = cut(u64::MAX, width);
    let code = match order {
        Order::Random => (row as u64)
            .wrapping_mul(0x9e37_79b9_7f4a_7c15)
            .rotate_right(17),
        Order::Ascending => most.min(row as u64),
        Order::Descending => most - most.min(row as u64),
        Order::Equal => FREQUENT,
    };
    cut(code, width)
}

fn codes_in<R: Abort + AllocGlobal>(rt: &R, order: Order, width: u32, rows: usize) -> Vec<u64>
    requires { width ≤ 64 }
    ensures count { vec_len result ≡ rows }
    ensures fit { Fit width result.items }
{
    let mut codes = Vec::new(rt.alloc());
    for row in 0..rows {
        codes.push(code_in(order, width, row)).expect(rt, "memory");
    }
    codes
}

/// Every third row.
fn third_rows<R: Abort + AllocGlobal>(rt: &R, rows: usize) -> Mask
    requires { rows ≤ 10000 }
    ensures { len result ≡ rows }
{
    let mut mask = filled(rt, rows, false);
    for row in 0..rows {
        mask.set(row, row % 3 == 0);
    }
    mask
}

/// The least and the greatest of the codes of these rows, which are looked at one by one.
fn plain_ends(codes: &[u64], rows: &Mask) -> Option<(u64, u64)>
    requires { len rows.now ≡ length codes.now }
{
    let mut ends = None;
    for row in 0..codes.len() {
        if rows.get(row) {
            let (least, greatest) = ends.unwrap_or((codes[row], codes[row]));
            ends = Some((codes[row].min(least), codes[row].max(greatest)));
        }
    }
    ends
}

/// The ends of these rows are those of the plain codes.
fn check_ends<R: Abort>(
    rt: &R,
    case: (Order, u32),
    codes: &[u64],
    column: &VerticalColumn,
    rows: &Mask,
)
    requires codes { column.now.codes ≡ codes.now }
    requires rows { len rows.now ≡ length codes.now }
{
    let found = column.ends(rows);
    let ends = if found.any {
        Some((found.least, found.greatest))
    } else {
        None
    };
    see_at(rt, (case, codes.len()), ends, plain_ends(codes, rows));
}

/// The ends of all rows, of none, of some, and of the first, the middle and the last row alone.
fn check_masks<R: Abort + AllocGlobal>(rt: &R, order: Order, width: u32, rows: usize)
    requires some { 1 ≤ width }
    requires narrow { width ≤ 64 }
    requires rows { 1 ≤ rows }
    requires few { rows ≤ 10000 }
{
    let codes = codes_in(rt, order, width, rows);
    let column: VerticalColumn = column_with(rt, width, &codes);
    let case = (order, width);
    check_ends(rt, case, &codes, &column, &filled(rt, rows, true));
    check_ends(rt, case, &codes, &column, &filled(rt, rows, false));
    check_ends(rt, case, &codes, &column, &third_rows(rt, rows));
    check_ends(rt, case, &codes, &column, &random_rows(rt, rows));
    for row in [0, rows / 2, rows - 1] {
        let mut alone = filled(rt, rows, false);
        alone.set(row, true);
        check_ends(rt, case, &codes, &column, &alone);
    }
}

#[test]
fn ends_of_codes_in_planes(rt: HostRuntime) {
    for width in [1, 7, 8, 13, 32, 64] {
        for rows in [1, 63, 64, 255, 256, 257, 1000] {
            for order in ORDERS {
                check_masks(&rt, order, width, rows);
            }
        }
    }
}
