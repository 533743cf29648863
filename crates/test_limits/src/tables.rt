//! Tables and answers with many rows.

use crate::harness::{check_run, numbered, repeated};

#[test]
fn a_table_that_is_full(rt: HostRuntime) {
    // 2,047 times 8,192 rows and 8,191 more are one row less than 16,777,216.
    let insert = repeated(&rt, "INSERT INTO t VALUES ", "(1),", 8_191, "(1);");
    let last = repeated(&rt, "INSERT INTO t VALUES ", "(1),", 8_190, "(1);");
    check_run(
        &rt,
        &[
            ("CREATE TABLE t (a INT);", 1),
            (insert.as_str(), 2_047),
            (last.as_str(), 1),
            ("INSERT INTO t VALUES (2), (3);", 1),
            ("INSERT INTO t VALUES (4);", 1),
            ("INSERT INTO t VALUES (5);", 1),
            ("SELECT a FROM t WHERE a <> 1;", 1),
        ],
        &[
            ("ok\n", 1),
            ("ok 8192\n", 2_047),
            (
                "ok 8191\nerror 28: table full\nok 1\nerror 28: table full\nA\n4\nrows 1\n",
                1,
            ),
        ],
    );
}

#[test]
fn an_answer_of_a_million_lines(rt: HostRuntime) {
    let insert = repeated(
        &rt,
        "INSERT INTO t VALUES ",
        "(7, NULL),",
        4_999,
        "(-8, 9);",
    );
    let lines = repeated(&rt, "", "7,NULL\n", 4_999, "-8,9\n");
    check_run(
        &rt,
        &[
            ("CREATE TABLE t (a INT, b INT);", 1),
            (insert.as_str(), 200),
            ("SELECT * FROM t;", 1),
        ],
        &[
            ("ok\n", 1),
            ("ok 5000\n", 200),
            ("A,B\n", 1),
            (lines.as_str(), 200),
            ("rows 1000000\n", 1),
        ],
    );
}

#[test]
fn many_rows_of_sixty_four_columns(rt: HostRuntime) {
    let kinds = numbered(&rt, "c", 1..64, " INT, ");
    let headings = numbered(&rt, "C", 1..64, ",");
    let row = repeated(&rt, "(", "1, ", 63, "-2), ");
    let last = repeated(&rt, "(", "1, ", 63, "-2);");
    let insert = repeated(
        &rt,
        "INSERT INTO t VALUES ",
        row.as_str(),
        299,
        last.as_str(),
    );
    let line = repeated(&rt, "", "1,", 63, "-2\n");
    check_run(
        &rt,
        &[
            ("CREATE TABLE t (", 1),
            (kinds.as_str(), 1),
            ("c0 INT);", 1),
            (insert.as_str(), 40),
            ("SELECT * FROM t;", 1),
        ],
        &[
            ("ok\n", 1),
            ("ok 300\n", 40),
            (headings.as_str(), 1),
            ("C0\n", 1),
            (line.as_str(), 12_000),
            ("rows 12000\n", 1),
        ],
    );
}

#[test]
fn sixty_four_tables_of_sixty_four_columns(rt: HostRuntime) {
    let columns = numbered(&rt, "c", 1..64, " INT, ");
    let mut creates = String::new(rt.alloc());
    for table in 0..64 {
        let create = format!(in rt.alloc(); "CREATE TABLE t{table} ({columns}c0 INT);").expect(
            &rt, "memory",
        );
        creates.push_str(create.as_str()).expect(&rt, "memory");
    }
    let listed = numbered(&rt, "T", 0..64, ",64,0\n");
    check_run(
        &rt,
        &[
            (creates.as_str(), 1),
            ("CREATE TABLE t64 (a INT);TABLES;", 1),
        ],
        &[
            ("ok\n", 64),
            ("error 24: over a limit\nTABLE,COLUMNS,ROWS\n", 1),
            (listed.as_str(), 1),
            ("rows 64\n", 1),
        ],
    );
}

#[test]
fn lines_that_are_longer_than_their_buffer(rt: HostRuntime) {
    check_run(
        &rt,
        &[
            ("CREATE TABLE t (a INT);", 1),
            ("INSERT INTO t VALUES (-2147483648), (NULL);", 1),
            ("SELECT a", 1),
            (", a", 999),
            (" FROM t;", 1),
        ],
        &[
            ("ok\nok 2\nA", 1),
            (",A", 999),
            ("\n-2147483648", 1),
            (",-2147483648", 999),
            ("\nNULL", 1),
            (",NULL", 999),
            ("\nrows 2\n", 1),
        ],
    );
}
