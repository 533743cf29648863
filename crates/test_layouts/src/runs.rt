//! Codes written to some of 64 rows, word by word, compared with a plain list.

ghost use Rattle.std.specs.Prelude.{length, vec_len, ◌%◌, ◌+◌, ◌<◌, ◌^◌, ◌≡◌, ◌≤◌};
ghost use Rattle.bw_mask.specs.Masks.{len};
ghost use Rattle.bw_code.specs.Columns.{Fit};

use crate::codes::{code_at, codes_of, column_of, filled, other_codes};
use crate::seen::see_at;
use bw_byteslice::SliceColumn;
use bw_code::{CodeColumn, PlainColumn};
use bw_horizontal::HorizontalColumn;
use bw_mask::Mask;
use bw_vertical::VerticalColumn;
use std::process::Abort;

/// Four whole words, and a part of one: 44 rows.
const ROWS: usize = 300;

/// Whether a row takes a code. One of the words takes them in no row, one in all, one in its first and its last, and
/// the others in some.
fn is_chosen(row: usize) -> bool {
    match row / 64 {
        0 => row % 5 == 2 || row % 7 == 1,
        1 => false,
        2 => true,
        3 => row % 64 == 0 || row % 64 == 63,
        _ => row % 3 != 1,
    }
}

fn chosen_rows<R: Abort + AllocGlobal>(rt: &R) -> Mask
    ensures { len result ≡ 300 }
{
    let mut chosen = filled(rt, ROWS, false);
    for row in 0..ROWS {
        chosen.set(row, is_chosen(row));
    }
    chosen
}

/// Writes n codes of a list to the chosen rows, from row `at` on.
fn put_run<C: CodeColumn>(column: &mut C, chosen: &Mask, codes: &[u64], at: usize, n: usize)
    requires word { at % 64 ≡ 0 }
    requires few { n ≤ 64 }
    requires there { at + n ≤ length (C.seen column.old).codes }
    requires list { at + n ≤ length codes.now }
    requires fit { Fit (C.seen column.old).width codes.now }
    ensures width { (C.seen column.new).width ≡ (C.seen column.old).width }
    ensures count { length (C.seen column.new).codes ≡ length (C.seen column.old).codes }
{
    column.put_run(at, chosen.bits(at, n), &codes[at..at + n]);
}

/// Writes one code to the chosen rows of a word.
fn fill_run<C: CodeColumn>(column: &mut C, chosen: &Mask, at: usize, code: u64)
    requires word { at % 64 ≡ 0 }
    requires inside { at ≤ length (C.seen column.old).codes }
    requires rows { len chosen.now ≡ length (C.seen column.old).codes }
    requires fits { code < 2 ^ (C.seen column.old).width }
    ensures width { (C.seen column.new).width ≡ (C.seen column.old).width }
    ensures count { length (C.seen column.new).codes ≡ length (C.seen column.old).codes }
{
    column.fill_run(at, chosen.bits(at, 64), code);
}

/// Writes the codes of a list to the chosen rows, word by word.
fn put_chosen<C: CodeColumn>(column: &mut C, chosen: &Mask, codes: &[u64])
    requires list { length codes.now ≡ 300 }
    requires count { length (C.seen column.old).codes ≡ 300 }
    requires fit { Fit (C.seen column.old).width codes.now }
    ensures count { length (C.seen column.new).codes ≡ 300 }
{
    put_run(column, chosen, codes, 0, 64);
    put_run(column, chosen, codes, 64, 64);
    put_run(column, chosen, codes, 128, 64);
    put_run(column, chosen, codes, 192, 64);
    put_run(column, chosen, codes, 256, 44);
}

/// Writes a separate code for each word to its chosen rows.
fn fill_chosen<C: CodeColumn>(column: &mut C, chosen: &Mask, width: u32)
    requires some { 1 ≤ width }
    requires narrow { width ≤ 64 }
    requires width { (C.seen column.old).width ≡ width }
    requires count { length (C.seen column.old).codes ≡ 300 }
    requires rows { len chosen.now ≡ 300 }
    ensures count { length (C.seen column.new).codes ≡ 300 }
{
    fill_run(column, chosen, 0, filling(width, 0));
    fill_run(column, chosen, 64, filling(width, 64));
    fill_run(column, chosen, 128, filling(width, 128));
    fill_run(column, chosen, 192, filling(width, 192));
    fill_run(column, chosen, 256, filling(width, 256));
}

/// The code that the chosen rows of this row's word are filled with.
fn filling(width: u32, row: usize) -> u64
    requires some { 1 ≤ width }
    requires narrow { width ≤ 64 }
    ensures { result < 2 ^ width }
{
    code_at(width, row / 64 + 6)
}

/// All codes of a column.
fn codes_in<C: CodeColumn, R: Abort + AllocGlobal>(rt: &R, column: &C) -> Vec<u64> {
    let mut codes = Vec::from_elem(rt.alloc(), 0, column.len()).expect(rt, "memory");
    column.read(0, &mut codes);
    codes
}

/// The first codes, and the others in the chosen rows.
fn replaced<R: Abort + AllocGlobal>(rt: &R, first: &[u64], others: &[u64]) -> Vec<u64>
    requires first { length first.now ≡ 300 }
    requires others { length others.now ≡ 300 }
{
    let mut codes = Vec::new(rt.alloc());
    for row in 0..ROWS {
        let code = if is_chosen(row) {
            others[row]
        } else {
            first[row]
        };
        codes.push(code).expect(rt, "memory");
    }
    codes
}

/// The codes that fill the words, each in all rows of its word.
fn fillings<R: Abort + AllocGlobal>(rt: &R, width: u32) -> Vec<u64>
    requires some { 1 ≤ width }
    requires narrow { width ≤ 64 }
    ensures count { vec_len result ≡ 300 }
{
    let mut codes = Vec::new(rt.alloc());
    for row in 0..ROWS {
        codes.push(filling(width, row)).expect(rt, "memory");
    }
    codes
}

/// Codes written to the chosen rows are found there, and the others stay.
fn check_put<C: CodeColumn + Drop, R: Abort + AllocGlobal>(rt: &R, width: u32)
    requires some { 1 ≤ width }
    requires narrow { width ≤ 64 }
    requires widest { width ≤ C.WIDEST }
{
    let (first, others) = (codes_of(rt, width, ROWS), other_codes(rt, width, ROWS));
    let mut column: C = column_of(rt, width, &first);
    put_chosen(&mut column, &chosen_rows(rt), &others);
    let wanted = replaced(rt, &first, &others);
    see_at(
        rt,
        width,
        codes_in(rt, &column).as_slice(),
        wanted.as_slice(),
    );
}

/// The same for one code per word.
fn check_fill<C: CodeColumn + Drop, R: Abort + AllocGlobal>(rt: &R, width: u32)
    requires some { 1 ≤ width }
    requires narrow { width ≤ 64 }
    requires widest { width ≤ C.WIDEST }
{
    let first = codes_of(rt, width, ROWS);
    let mut column: C = column_of(rt, width, &first);
    fill_chosen(&mut column, &chosen_rows(rt), width);
    let wanted = replaced(rt, &first, &fillings(rt, width));
    see_at(
        rt,
        width,
        codes_in(rt, &column).as_slice(),
        wanted.as_slice(),
    );
}

fn check_runs<C: CodeColumn + Drop, R: Abort + AllocGlobal>(rt: &R, width: u32)
    requires some { 1 ≤ width }
    requires narrow { width ≤ 64 }
    requires widest { width ≤ C.WIDEST }
{
    check_put::<C, R>(rt, width);
    check_fill::<C, R>(rt, width);
}

#[test]
fn runs_of_codes(rt: HostRuntime) {
    for width in 1..=64 {
        check_runs::<PlainColumn, _>(&rt, width);
        check_runs::<VerticalColumn, _>(&rt, width);
        check_runs::<SliceColumn, _>(&rt, width);
    }
    for width in 1..=32 {
        check_runs::<HorizontalColumn, _>(&rt, width);
    }
}
