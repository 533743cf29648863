//! Files of comma-separated values, and their rows or their first fault.

use crate::seen::{see, see_at};
use bw_code::ColumnType;
use bw_code::ColumnType::{BigInt, Integer};
use bw_csvload::Cells::{Integers, Values};
use bw_csvload::FirstRecord::{Header, Row};
use bw_csvload::{Cells, CsvFault, FirstRecord, rows};
use std::process::Abort;

/// A byte order mark, and three records of two fields: a number in quotes and nothing, NULL in small letters and a minus, a
/// plus and a leading zero.
const THREE_RECORDS: &[u8] = b"\xEF\xBB\xBF\"7\",\r\nnull,-2\r\n+5,08\r\n";

/// The types of tables of one column and of two.
const ONE_INTEGER: [ColumnType; 1] = [Integer];

const ONE_BIGINT: [ColumnType; 1] = [BigInt];

const TWO_INTEGERS: [ColumnType; 2] = [Integer, Integer];

const BIGINT_AND_INTEGER: [ColumnType; 2] = [BigInt, Integer];

/// Checks that the file contains this many rows, with these cells, row by row.
fn see_rows<R: Abort + AllocGlobal>(
    rt: &R,
    file: &[u8],
    types: &[ColumnType],
    first: FirstRecord,
    count: usize,
    cells: Cells<'_>,
) {
    let found = rows(rt.alloc(), file, types, first).expect(rt, "rows");
    see(rt, found.len(), count);
    see(rt, found.cells(), cells);
}

/// Checks that this is the fault of a file.
fn see_fault<R: Abort + AllocGlobal>(
    rt: &R,
    file: &[u8],
    types: &[ColumnType],
    first: FirstRecord,
    wanted: CsvFault,
) {
    let found = rows(rt.alloc(), file, types, first).err();
    see_at(rt, file, found, Some(wanted));
}

#[test]
fn three_records(rt: HostRuntime) {
    let found = rows(rt.alloc(), THREE_RECORDS, &TWO_INTEGERS, Row).expect(&rt, "rows");
    assert!(rt; found.len() == 3);
    see(&rt, found.row(0), Integers(&[Some(7), None]));
    see(&rt, found.row(1), Integers(&[None, Some(-2)]));
    see(&rt, found.row(2), Integers(&[Some(5), Some(8)]));
    see_rows(
        &rt,
        THREE_RECORDS,
        &TWO_INTEGERS,
        Row,
        3,
        Integers(&[Some(7), None, None, Some(-2), Some(5), Some(8)]),
    );
}

/// Two records after one of one field.
const TWO_RECORDS: &[u8] = b"name\nnull,-2\n+5,08";

#[test]
fn a_header_is_left_out(rt: HostRuntime) {
    let last_two = [None, Some(-2), Some(5), Some(8)];
    see_rows(
        &rt,
        THREE_RECORDS,
        &TWO_INTEGERS,
        Header,
        2,
        Integers(&last_two),
    );
    // Neither its fields nor their number are checked.
    see_rows(
        &rt,
        TWO_RECORDS,
        &TWO_INTEGERS,
        Header,
        2,
        Integers(&last_two),
    );
    let no_row = b"a,b,\"c\nd\"\n";
    see_rows(&rt, no_row, &TWO_INTEGERS, Header, 0, Integers(&[]));
}

#[test]
fn a_header_is_a_record(rt: HostRuntime) {
    see_fault(&rt, TWO_RECORDS, &TWO_INTEGERS, Row, CsvFault::Fields(1));
    // It is still record 1.
    see_fault(
        &rt,
        b"a,b\n1,x\n",
        &TWO_INTEGERS,
        Header,
        CsvFault::NotInteger(2, 2),
    );
    see_fault(
        &rt,
        b"a,b\n1,2\n3\n",
        &TWO_INTEGERS,
        Header,
        CsvFault::Fields(3),
    );
}

/// Files of two columns, and their faults.
const FAULTS: [(&[u8], CsvFault); 8] = [
    (
        b"\xEF\xBB\xBF\"7\",\r\nnull,-2\r\nx,08\r\n",
        CsvFault::NotInteger(3, 1),
    ),
    (b"\xEF\xBB\xBF\"7\",\r\n9\r\n+5,08\r\n", CsvFault::Fields(2)),
    // The number of fields comes before them, an earlier record before a later one, and an earlier field before a later
    // one.
    (b"1,2\nx,2,3\n", CsvFault::Fields(2)),
    (b"1,x\n1\n", CsvFault::NotInteger(1, 2)),
    (b"2147483648,x\n", CsvFault::Range),
    (b"x,2147483648\n", CsvFault::NotInteger(1, 1)),
    // An empty line is not a record, and has no number.
    (b"\n\n1,2\n\r\n\n1,x\n", CsvFault::NotInteger(2, 2)),
    (b"1,2\n\"\"\n", CsvFault::Fields(2)),
];

#[test]
fn the_first_fault(rt: HostRuntime) {
    for (file, wanted) in &FAULTS {
        see_fault(&rt, file, &TWO_INTEGERS, Row, *wanted);
    }
}

/// With or without a byte order mark, and empty lines.
const NO_ROWS: [&[u8]; 3] = [b"", b"\xEF\xBB\xBF", b"\n\r\n\n"];

#[test]
fn files_without_rows(rt: HostRuntime) {
    for file in &NO_ROWS {
        for first in [Row, Header] {
            see_rows(&rt, file, &TWO_INTEGERS, first, 0, Integers(&[]));
            see_rows(&rt, file, &BIGINT_AND_INTEGER, first, 0, Values(&[]));
        }
    }
}

#[test]
fn marks(rt: HostRuntime) {
    // A second mark is dropped with the first, and a third is text.
    let two_marks = b"\xEF\xBB\xBF\xEF\xBB\xBF4";
    see_rows(&rt, two_marks, &ONE_INTEGER, Row, 1, Integers(&[Some(4)]));
    let third_mark = b"\xEF\xBB\xBF\xEF\xBB\xBF\xEF\xBB\xBF4";
    see_fault(
        &rt,
        third_mark,
        &ONE_INTEGER,
        Row,
        CsvFault::NotInteger(1, 1),
    );
    let later_mark = b"4\n\xEF\xBB\xBF4";
    see_fault(
        &rt,
        later_mark,
        &ONE_INTEGER,
        Row,
        CsvFault::NotInteger(2, 1),
    );
}

/// Files of one cell of an INTEGER column.
const INTEGER_CELLS: [(&[u8], Option<i32>); 9] = [
    (b"nUlL", None),
    (b"\"nUlL\"", None),
    (b"\"NULL\"\n", None),
    (b"-2147483648", Some(i32::MIN)),
    (b"2147483647", Some(i32::MAX)),
    (
        b"+0000000000000000000000000000000002147483647",
        Some(i32::MAX),
    ),
    (b"-0", Some(0)),
    (b"\"1\"2", Some(12)),
    (b"\"-3\"\r\n", Some(-3)),
];

#[test]
fn cells_of_one_integer_column(rt: HostRuntime) {
    see_rows(
        &rt,
        b"\"\"\n4\n",
        &ONE_INTEGER,
        Row,
        2,
        Integers(&[None, Some(4)]),
    );
    for (file, cell) in &INTEGER_CELLS {
        see_rows(&rt, file, &ONE_INTEGER, Row, 1, Integers(&[*cell]));
    }
}

/// Files of one cell of a BIGINT column.
const BIGINT_CELLS: [(&[u8], Option<i64>); 9] = [
    (b"null", None),
    (b"2147483648", Some(2_147_483_648)),
    (b"-2147483649", Some(-2_147_483_649)),
    (b"-9223372036854775808", Some(i64::MIN)),
    (b"9223372036854775807", Some(i64::MAX)),
    (b"\"+9223372036854775807\"\r\n", Some(i64::MAX)),
    // Forty digits, the first of them zeros.
    (b"-0000000000000000000009223372036854775808", Some(i64::MIN)),
    (b"0000000000000000000000000000000000000000", Some(0)),
    (b"-7", Some(-7)),
];

#[test]
fn cells_of_one_bigint_column(rt: HostRuntime) {
    see_rows(
        &rt,
        b"\"\"\n4\n",
        &ONE_BIGINT,
        Row,
        2,
        Values(&[None, Some(4)]),
    );
    for (file, cell) in &BIGINT_CELLS {
        see_rows(&rt, file, &ONE_BIGINT, Row, 1, Values(&[*cell]));
    }
}

/// Files of one field that is not an integer.
const NO_INTEGERS: [&[u8]; 12] = [
    b"+", b"-", b"--1", b"+-1", b"1.0", b" 7", b"7 ", b" ", b" NULL", b"NULLS", b"+NULL", b"\xFF",
];

#[test]
fn fields_that_are_no_integer(rt: HostRuntime) {
    for file in &NO_INTEGERS {
        see_fault(&rt, file, &ONE_INTEGER, Row, CsvFault::NotInteger(1, 1));
        see_fault(&rt, file, &ONE_BIGINT, Row, CsvFault::NotInteger(1, 1));
    }
}

#[test]
fn digits_before_a_letter(rt: HostRuntime) {
    // The digits before the last are outside both types already.
    let mut long = [b'9'; 100];
    long[99] = b'x';
    see_fault(&rt, &long, &ONE_INTEGER, Row, CsvFault::NotInteger(1, 1));
    see_fault(&rt, &long, &ONE_BIGINT, Row, CsvFault::NotInteger(1, 1));
}

/// Files of one number outside INTEGER, but within BIGINT.
const OUTSIDE_INTEGER: [&[u8]; 4] = [
    b"2147483648",
    b"-2147483649",
    b"9223372036854775807",
    b"-9223372036854775808",
];

/// Files of one number outside both types.
const OUTSIDE_BIGINT: [&[u8]; 9] = [
    b"9223372036854775808",
    b"-9223372036854775809",
    b"9999999999999999999",
    b"10000000000000000000",
    b"99999999999999999999",
    // One more than 2 ^ 64, and so 1 where digits wrap around.
    b"18446744073709551617",
    b"-340282366920938463463374607431768211457",
    // Forty digits.
    b"1234567890123456789012345678901234567890",
    b"-0000000000000000000009223372036854775809",
];

#[test]
fn numbers_outside_integer(rt: HostRuntime) {
    for file in &OUTSIDE_INTEGER {
        see_fault(&rt, file, &ONE_INTEGER, Row, CsvFault::Range);
    }
}

#[test]
fn numbers_outside_both_types(rt: HostRuntime) {
    for file in &OUTSIDE_BIGINT {
        see_fault(&rt, file, &ONE_INTEGER, Row, CsvFault::Range);
        see_fault(&rt, file, &ONE_BIGINT, Row, CsvFault::Range);
    }
}

#[test]
fn columns_of_both_types(rt: HostRuntime) {
    let file = b"9223372036854775807,-2147483648\n,2147483647\n-1,null\n";
    let found = rows(rt.alloc(), file, &BIGINT_AND_INTEGER, Row).expect(&rt, "rows");
    assert!(rt; found.len() == 3);
    see(
        &rt,
        found.row(0),
        Values(&[Some(i64::MAX), Some(-2_147_483_648)]),
    );
    see(&rt, found.row(1), Values(&[None, Some(2_147_483_647)]));
    see(&rt, found.row(2), Values(&[Some(-1), None]));
}

#[test]
fn each_field_by_its_own_column(rt: HostRuntime) {
    let first = b"2147483648,1\n";
    let cells = [Some(2_147_483_648), Some(1)];
    see_rows(&rt, first, &BIGINT_AND_INTEGER, Row, 1, Values(&cells));
    see_fault(&rt, first, &[Integer, BigInt], Row, CsvFault::Range);
    let second = b"1,2147483648\n";
    let cells = [Some(1), Some(2_147_483_648)];
    see_rows(&rt, second, &[Integer, BigInt], Row, 1, Values(&cells));
    see_fault(&rt, second, &BIGINT_AND_INTEGER, Row, CsvFault::Range);
}
