//! Codes of every size, tests on them, and columns of them in any layout.

ghost use Rattle.std.specs.Prelude.{length, vec_len, ◌+◌, ◌<◌, ◌^◌, ◌≡◌, ◌≤◌};
ghost use Rattle.bw_mask.specs.Masks.{len};
ghost use Rattle.bw_code.specs.Columns.{Fit};
ghost use Rattle.bw_code.specs.Tests.{TestFits};

use bw_code::{CmpOp, CodeColumn, CodeTest};
use bw_mask::Mask;
use std::process::Abort;

pub(crate) const OPERATORS: [CmpOp; 6] = [
    CmpOp::Eq,
    CmpOp::Ne,
    CmpOp::Lt,
    CmpOp::Le,
    CmpOp::Gt,
    CmpOp::Ge,
];

/// Whether two numbers satisfy the comparison, by Rust's operators.
pub(crate) fn holds(op: CmpOp, x: i128, y: i128) -> bool {
    match op {
        CmpOp::Eq => x == y,
        CmpOp::Ne => x != y,
        CmpOp::Lt => x < y,
        CmpOp::Le => x <= y,
        CmpOp::Gt => x > y,
        CmpOp::Ge => x >= y,
    }
}

/// A code that many rows have, as far as its bits fit the width.
pub(crate) const FREQUENT: u64 = 0x9c3e_71d5_0b55_aa51;

/// The `width` lowest bits of a number.
pub(crate) fn cut(number: u64, width: u32) -> u64
    requires { width ≤ 64 }
    ensures { result < 2 ^ width }
{
    if width < 64 {
        number % (1 << width)
    } else {
        number
    }
}

/// The code with only its highest bit set.
pub(crate) fn top_bit(width: u32) -> u64
    requires some { 1 ≤ width }
    requires narrow { width ≤ 64 }
    ensures { result < 2 ^ width }
{
    cut(1 << (width - 1), width)
}

/// Codes of all sizes: the frequent one, all ones, 0, only the highest bit, all ones but it, 1, and more.
pub(crate) fn code_at(width: u32, row: usize) -> u64
    requires some { 1 ≤ width }
    requires narrow { width ≤ 64 }
    ensures { result < 2 ^ width }
{
    let code = match row % 7 {
        0 => FREQUENT,
        1 => u64::MAX,
        2 => 0,
        3 => top_bit(width),
        4 => cut(u64::MAX, width - 1),
        5 => 1,
        _ => (row as u64)
            .wrapping_mul(0x9e37_79b9_7f4a_7c15)
            .rotate_right(17),
    };
    cut(code, width)
}

/// For each row the same code as that of `code_at`, one that may differ in its lowest bit, or that of another row. In
/// 196 rows each of the seven kinds of codes meets each.
pub(crate) fn other_code_at(width: u32, row: usize) -> u64
    requires some { 1 ≤ width }
    requires narrow { width ≤ 64 }
    ensures { result < 2 ^ width }
{
    let code = code_at(width, row);
    match row % 4 {
        0 => code,
        1 => code - code % 2,
        _ => code_at(width, row / 7),
    }
}

pub(crate) fn codes_of<R: Abort + AllocGlobal>(rt: &R, width: u32, rows: usize) -> Vec<u64>
    requires some { 1 ≤ width }
    requires narrow { width ≤ 64 }
    ensures count { vec_len result ≡ rows }
    ensures fit { Fit width result.items }
{
    let mut codes = Vec::new(rt.alloc());
    for row in 0..rows {
        codes.push(code_at(width, row)).expect(rt, "memory");
    }
    codes
}

pub(crate) fn other_codes<R: Abort + AllocGlobal>(rt: &R, width: u32, rows: usize) -> Vec<u64>
    requires some { 1 ≤ width }
    requires narrow { width ≤ 64 }
    ensures count { vec_len result ≡ rows }
    ensures fit { Fit width result.items }
{
    let mut codes = Vec::new(rt.alloc());
    for row in 0..rows {
        codes.push(other_code_at(width, row)).expect(rt, "memory");
    }
    codes
}

/// Appends codes, in two parts.
fn extend<C: CodeColumn>(column: &mut C, codes: &[u64])
    requires fit { Fit (C.seen column.old).width codes.now }
    requires few { length (C.seen column.old).codes + length codes.now ≤ 1000 }
    requires room { length (C.seen column.old).codes + length codes.now ≤ (C.seen column.old).room }
    ensures width { (C.seen column.new).width ≡ (C.seen column.old).width }
    ensures count { length (C.seen column.new).codes ≡ length (C.seen column.old).codes + length codes.now }
{
    let (first, rest) = codes.split_at(codes.len() / 3);
    column.extend(first);
    column.extend(rest);
}

/// A column of these codes, appended in two parts.
pub(crate) fn column_of<C: CodeColumn + Drop, R: Abort + AllocGlobal>(
    rt: &R,
    width: u32,
    codes: &[u64],
) -> C
    requires some { 1 ≤ width }
    requires narrow { width ≤ C.WIDEST }
    requires fit { Fit width codes.now }
    requires few { length codes.now ≤ 1000 }
    ensures width { (C.seen result).width ≡ width }
    ensures count { length (C.seen result).codes ≡ length codes.now }
{
    let mut column = C::with_width(rt.alloc(), width).expect(rt, "memory");
    column.reserve(codes.len()).expect(rt, "memory");
    extend(&mut column, codes);
    column
}

/// The test, for codes of this width.
pub(crate) fn fitted(test: CodeTest, width: u32) -> CodeTest
    requires { width ≤ 64 }
    ensures { TestFits width result }
{
    match test {
        CodeTest::Cmp(op, constant) => CodeTest::Cmp(op, cut(constant, width)),
        CodeTest::Range(low, high) => CodeTest::Range(cut(low, width), cut(high, width)),
        other => other,
    }
}

/// The given number of rows, all set or all clear.
pub(crate) fn filled<R: Abort + AllocGlobal>(rt: &R, rows: usize, bit: bool) -> Mask
    requires { rows ≤ 10000 }
    ensures { len result ≡ rows }
{
    Mask::filled(rt.alloc(), rows, bit).expect(rt, "memory")
}

/// Rows of which one of three is not needed.
pub(crate) fn need_of<R: Abort + AllocGlobal>(rt: &R, rows: usize) -> Mask
    requires { rows ≤ 10000 }
    ensures { len result ≡ rows }
{
    let mut need = filled(rt, rows, false);
    for row in 0..rows {
        need.set(row, row % 3 != 1);
    }
    need
}

/// How many rows a segment of words has, for codes of this width.
pub(crate) fn segment_rows(width: u32) -> usize
    requires some { 1 ≤ width }
    requires narrow { width ≤ 32 }
    ensures some { 1 ≤ result }
    ensures few { result ≤ 64 }
{
    let section = width as usize + 1;
    section * (64 / section)
}
