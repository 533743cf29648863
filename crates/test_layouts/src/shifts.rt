//! Rebased codes, in each layout, compared with plain sums.

ghost use Rattle.std.specs.Prelude.{length, slice_index, vec_len, ℕ, ◌-ℤ◌, ◌<◌, ◌^◌, ◌↔◌, ◌≡◌, ◌≤◌};
ghost use Rattle.bw_mask.specs.Masks.{len, row_at};
ghost use Rattle.bw_code.specs.Columns.{Fit};
ghost use Rattle.bw_code.specs.Shifts.{StaysBelow, shifted};

use crate::codes::{cut, need_of};
use crate::seen::see_at;
use bw_byteslice::SliceColumn;
use bw_code::{CodeColumn, PlainColumn};
use bw_horizontal::HorizontalColumn;
use bw_mask::Mask;
use bw_vertical::VerticalColumn;
use std::process::Abort;

// More than one segment, and rows past its last word.
const ROWS: usize = 300;

/// Widths of the codes before and after, a low and a high code, and the bases before and after.
const MOVES: [(u32, u32, (u64, u64), (i64, i64)); 23] = [
    (5, 5, (3, 30), (10, 9)),
    (8, 8, (0, 0xfe), (1, 0)),
    (10, 10, (0x100, 0x3ff), (-0x100, 0)),
    (16, 16, (1, 0xff), (0, -0xff00)),
    (17, 17, (0xffff, 0x1_fffe), (-4, -5)),
    (31, 31, (1, 0x7fff_ffff), (-1, 0)),
    (32, 32, (1, 0xffff_ffff), (i64::MIN, i64::MIN + 1)),
    (32, 1, (0xffff_fffe, 0xffff_ffff), (0, 0xffff_fffe)),
    (1, 32, (0, 1), (0xffff_fffe, 0)),
    (33, 33, (1, 0xffff_ffff), (0x1_0000_0000, 0)),
    (33, 33, (1, 0x1_ffff_ffff), (-1, 0)),
    (
        33,
        64,
        (0, 0x1_ffff_ffff),
        (i64::MAX, i64::MIN + 0x1_ffff_ffff),
    ),
    (
        64,
        33,
        (0xffff_fffe_0000_0000, u64::MAX),
        (i64::MIN + 0x1_ffff_ffff, i64::MAX),
    ),
    (40, 40, (0, 0xff), (i64::MIN + 0xff_ffff_ff00, i64::MIN)),
    (
        40,
        40,
        (0xff_ffff_ff00, 0xff_ffff_ffff),
        (i64::MIN, i64::MIN + 0xff_ffff_ff00),
    ),
    (40, 63, (0, 0), (i64::MAX, 0)),
    (64, 40, (0xff, 0xff_ffff_ffff), (0, 0xff)),
    (63, 63, (0, 1), (i64::MAX, 1)),
    (
        63,
        63,
        (0x7fff_ffff_ffff_fffe, 0x7fff_ffff_ffff_ffff),
        (1, i64::MAX),
    ),
    (64, 64, (0, 0x7fff_ffff_ffff_ffff), (0, i64::MIN)),
    (64, 64, (0x8000_0000_0000_0000, u64::MAX), (i64::MIN, 0)),
    (64, 64, (0, 0), (i64::MAX, i64::MIN)),
    (64, 64, (u64::MAX, u64::MAX), (i64::MIN, i64::MAX)),
];

/// Codes to be rebased: 0 in the rows that stay, else a low code, a high one, or one between them.
fn codes_between<R: Abort + AllocGlobal>(rt: &R, width: u32, low: u64, high: u64) -> Vec<u64>
    requires { width ≤ 64 }
    ensures count { vec_len result ≡ 300 }
    ensures fit { Fit width result.items }
{
    let mut list = Vec::new(rt.alloc());
    for row in 0..ROWS {
        let code = match row % 9 {
            0 | 3 => low,
            2 | 5 => high,
            6 | 8 => low.max(high / 3 * 2),
            _ => 0,
        };
        list.push(cut(code, width)).expect(rt, "memory");
    }
    list
}

/// A code, rebased where it moves, as a plain sum.
pub(crate) fn moved_code(code: u64, moves: bool, from: i64, to: i64) -> i128
    ensures { result ≡ shifted (from -ℤ to) moves code }
{
    if moves {
        i128::from(code) + (i128::from(from) - i128::from(to))
    } else {
        i128::from(code)
    }
}

/// Stops the test where a rebased code would have more than this many bits.
pub(crate) fn check_fit<R: Abort>(
    rt: &R,
    width: u32,
    codes: &[u64],
    rows: &Mask,
    from: i64,
    to: i64,
)
    requires narrow { width ≤ 64 }
    requires rows { len rows.now ≡ length codes.now }
    ensures { (i : ℕ) → i < length codes.now → StaysBelow (2 ^ width) (shifted (from -ℤ to) (row_at rows.now i) (slice_index codes.now i)) }
{
    let greatest = i128::from(cut(u64::MAX, width));
    for i in 0..codes.len() {
        let sum = moved_code(codes[i], rows.get(i), from, to);
        assert!(rt; 0 <= sum && sum <= greatest);
    }
}

/// A column that is known to hold these codes.
pub(crate) fn column_with<C: CodeColumn + Drop, R: Abort + AllocGlobal>(
    rt: &R,
    width: u32,
    codes: &[u64],
) -> C
    requires some { 1 ≤ width }
    requires narrow { width ≤ C.WIDEST }
    requires fit { Fit width codes.now }
    requires few { length codes.now ≤ 10000 }
    ensures width { (C.seen result).width ≡ width }
    ensures codes { (C.seen result).codes ≡ codes.now }
{
    let mut column = C::with_width(rt.alloc(), width).expect(rt, "memory");
    column.reserve(codes.len()).expect(rt, "memory");
    column.extend(codes);
    column
}

/// Checks the rebased codes of a column.
fn check_moved<C: CodeColumn + Drop, R: Abort>(
    rt: &R,
    codes: &[u64],
    rows: &Mask,
    from: i64,
    to: i64,
    column: C,
)
    requires count { length (C.seen column).codes ≡ length codes.now }
    requires rows { len rows.now ≡ length codes.now }
{
    for row in 0..codes.len() {
        let wanted = moved_code(codes[row], rows.get(row), from, to);
        see_at(rt, (from, to, row), i128::from(column.get(row)), wanted);
    }
}

fn check_planes<R: Abort + AllocGlobal>(
    rt: &R,
    width: u32,
    codes: &[u64],
    rows: &Mask,
    from: i64,
    to: i64,
)
    requires some { 1 ≤ width }
    requires narrow { width ≤ 64 }
    requires fit { Fit width codes.now }
    requires few { length codes.now ≡ 300 }
    requires rows { len rows.now ≡ length codes.now }
{
    let mut column: VerticalColumn = column_with(rt, width, codes);
    check_fit(rt, width, codes, rows, from, to);
    column.shift(rows, from, to);
    check_moved(rt, codes, rows, from, to, column);
}

fn check_words<R: Abort + AllocGlobal>(
    rt: &R,
    width: u32,
    codes: &[u64],
    rows: &Mask,
    from: i64,
    to: i64,
)
    requires some { 1 ≤ width }
    requires narrow { width ≤ 32 }
    requires fit { Fit width codes.now }
    requires few { length codes.now ≡ 300 }
    requires rows { len rows.now ≡ length codes.now }
{
    let mut column: HorizontalColumn = column_with(rt, width, codes);
    check_fit(rt, width, codes, rows, from, to);
    column.shift(rows, from, to);
    check_moved(rt, codes, rows, from, to, column);
}

fn check_slices<R: Abort + AllocGlobal>(
    rt: &R,
    width: u32,
    codes: &[u64],
    rows: &Mask,
    from: i64,
    to: i64,
)
    requires some { 1 ≤ width }
    requires narrow { width ≤ 64 }
    requires fit { Fit width codes.now }
    requires few { length codes.now ≡ 300 }
    requires rows { len rows.now ≡ length codes.now }
{
    let mut column: SliceColumn = column_with(rt, width, codes);
    check_fit(rt, width, codes, rows, from, to);
    column.shift(rows, from, to);
    check_moved(rt, codes, rows, from, to, column);
}

fn check_plain<R: Abort + AllocGlobal>(
    rt: &R,
    width: u32,
    after: u32,
    codes: &[u64],
    rows: &Mask,
    from: i64,
    to: i64,
)
    requires some { 1 ≤ width }
    requires narrow { width ≤ 64 }
    requires some_after { 1 ≤ after }
    requires narrow_after { after ≤ 64 }
    requires bytes { (after ≤ 32) ↔ (width ≤ 32) }
    requires fit { Fit width codes.now }
    requires few { length codes.now ≡ 300 }
    requires rows { len rows.now ≡ length codes.now }
{
    let mut column: PlainColumn = column_with(rt, width, codes);
    check_fit(rt, after, codes, rows, from, to);
    column.shift(rows, from, to, after);
    see_at(rt, width, column.width(), after);
    check_moved(rt, codes, rows, from, to, column);
}

/// Planes keep their width.
#[test]
fn shifted_planes(rt: HostRuntime) {
    let rows = need_of(&rt, ROWS);
    for (width, after, (low, high), (from, to)) in &MOVES {
        let bits = (*width).clamp(1, 64);
        if bits == *after {
            let codes = codes_between(&rt, bits, *low, *high);
            check_planes(&rt, bits, &codes, &rows, *from, *to);
        }
    }
}

/// So do words of codes side by side.
#[test]
fn shifted_words(rt: HostRuntime) {
    let rows = need_of(&rt, ROWS);
    for (width, after, (low, high), (from, to)) in &MOVES {
        let bits = (*width).clamp(1, 32);
        if bits == *after {
            let codes = codes_between(&rt, bits, *low, *high);
            check_words(&rt, bits, &codes, &rows, *from, *to);
        }
    }
}

/// So do slices of bytes.
#[test]
fn shifted_slices(rt: HostRuntime) {
    let rows = need_of(&rt, ROWS);
    for (width, after, (low, high), (from, to)) in &MOVES {
        let bits = (*width).clamp(1, 64);
        if bits == *after {
            let codes = codes_between(&rt, bits, *low, *high);
            check_slices(&rt, bits, &codes, &rows, *from, *to);
        }
    }
}

/// The width `after`, clamped so that its codes take as many bytes as codes of `width`.
fn bits_after(width: u32, after: u32) -> u32
    ensures some { 1 ≤ result }
    ensures narrow { result ≤ 64 }
    ensures bytes { (result ≤ 32) ↔ (width ≤ 32) }
{
    if width <= 32 {
        after.clamp(1, 32)
    } else {
        after.clamp(33, 64)
    }
}

#[test]
fn shifted_plain_codes(rt: HostRuntime) {
    let rows = need_of(&rt, ROWS);
    for (width, after, (low, high), (from, to)) in &MOVES {
        let bits = (*width).clamp(1, 64);
        let codes = codes_between(&rt, bits, *low, *high);
        check_plain(
            &rt,
            bits,
            bits_after(bits, *after),
            &codes,
            &rows,
            *from,
            *to,
        );
    }
}
