//! Statements as large as the limits allow, in the run and in the plain program.

use crate::harness::{check_pieces, check_script, joined, numbered};
use std::process::Abort;

// Checks which rows a condition finds in a table of one column.
fn check_found<R: Abort + AllocGlobal>(
    rt: &R,
    rows: &str,
    condition: &[(&str, usize)],
    replies: &str,
) {
    let condition = joined(rt, condition);
    let script = format!(in rt.alloc();
        "CREATE TABLE t (a INT); INSERT INTO t VALUES {rows}; SELECT a FROM t WHERE {condition};"
    ).expect(rt, "memory");
    check_script(rt, script.as_str(), replies);
}

#[test]
fn sixty_four_columns(rt: HostRuntime) {
    let kinds = numbered(&rt, "c", 1..64, " INT, ");
    let names = numbered(&rt, "c", 1..64, ", ");
    let headings = numbered(&rt, "C", 1..64, ",");
    let cells = numbered(&rt, "", 1..64, ",");
    let replies = joined(
        &rt,
        &[
            ("ok\nok 1\nok 1\n", 1),
            (headings.as_str(), 1),
            ("C0\n", 1),
            (cells.as_str(), 1),
            ("0\n", 1),
            (cells.as_str(), 1),
            ("NULL\nrows 2\nC0,", 1),
            (headings.as_str(), 1),
            ("C0\n0,", 1),
            (cells.as_str(), 1),
            ("0\nrows 1\n", 1),
        ],
    );
    check_pieces(
        &rt,
        &[
            ("CREATE TABLE t (", 1),
            (kinds.as_str(), 1),
            ("c0 INT); INSERT INTO t VALUES (", 1),
            (cells.as_str(), 1),
            ("0); INSERT INTO t (", 1),
            (names.as_str(), 1),
            ("c0) VALUES (", 1),
            (cells.as_str(), 1),
            ("NULL); SELECT * FROM t WHERE c63 = 63; SELECT c0, ", 1),
            (names.as_str(), 1),
            ("c0 FROM t WHERE c0 = 0;", 1),
        ],
        replies.as_str(),
    );
}

#[test]
fn a_thousand_entries_of_a_list(rt: HostRuntime) {
    let entries = numbered(&rt, "", 0..999, ", ");
    let rows = "(-1), (999), (1000), (NULL)";
    for (test, last, replies) in [
        ("a IN (", "999)", "ok\nok 4\nA\n999\nrows 1\n"),
        ("a IN (", "1000)", "ok\nok 4\nA\n1000\nrows 1\n"),
        ("a NOT IN (", "999)", "ok\nok 4\nA\n-1\n1000\nrows 2\n"),
        ("a IN (", "999, 1000)", "ok\nok 4\nerror 24: over a limit\n"),
    ] {
        check_found(
            &rt,
            rows,
            &[(test, 1), (entries.as_str(), 1), (last, 1)],
            replies,
        );
    }
}

#[test]
fn literals_at_the_ends_of_64_bits(rt: HostRuntime) {
    check_script(
        &rt,
        "CREATE TABLE t (a INT); INSERT INTO t VALUES (2147483647), (NULL), (-2147483648); \
         SELECT a FROM t WHERE a < 9223372036854775807 AND a > -9223372036854775808; \
         SELECT a FROM t WHERE a = 9223372036854775807 OR a = -9223372036854775808; \
         SELECT a FROM t WHERE a NOT BETWEEN -9223372036854775808 AND 2147483646; \
         SELECT a FROM t WHERE a IN (9223372036854775807, -9223372036854775808, -2147483648); \
         INSERT INTO t VALUES (9223372036854775807); INSERT INTO t VALUES (-9223372036854775808); \
         INSERT INTO t VALUES (9223372036854775808); INSERT INTO t VALUES (-9223372036854775809);",
        "ok\nok 3\nA\n2147483647\n-2147483648\nrows 2\nA\nrows 0\nA\n2147483647\nrows 1\nA\n-2147483648\nrows 1\n\
         error 26: value out of range\nerror 26: value out of range\n\
         error 13: number too large\nerror 13: number too large\n",
    );
}

/// Pieces of conditions of thousands of predicates, and what they find.
const THOUSANDS: [([(&str, usize); 3], &str); 5] = [
    (
        [("a=0", 1), (" OR a=0", 8_999), (" OR a=7", 1)],
        "7\nrows 1\n",
    ),
    (
        [("a<9", 1), (" AND a<9", 7_999), (" AND a>7", 1)],
        "8\nrows 1\n",
    ),
    (
        [("a=7", 1), (" AND a=0 OR a=0", 3_999), (" OR a=8", 1)],
        "8\nrows 1\n",
    ),
    (
        [("NOT a=0", 1), (" AND NOT a=0", 4_999), (" AND NOT a=8", 1)],
        "7\nrows 1\n",
    ),
    (
        [("a IS NULL", 1), (" OR a IS NULL", 4_000), (" OR a>7", 1)],
        "8\nNULL\nrows 2\n",
    ),
];

// Checks which of three rows a condition finds.
fn check_three<R: Abort + AllocGlobal>(rt: &R, condition: &[(&str, usize)], found: &str) {
    let replies = joined(rt, &[("ok\nok 3\nA\n", 1), (found, 1)]);
    check_found(rt, "(7), (8), (NULL)", condition, replies.as_str());
}

#[test]
fn thousands_of_predicates(rt: HostRuntime) {
    for (condition, found) in &THOUSANDS {
        check_three(&rt, condition, found);
    }
}

#[test]
fn all_depths_at_full_size(rt: HostRuntime) {
    let level = joined(&rt, &[(")", 1), (" OR a=0", 140)]);
    let negated = joined(&rt, &[(")", 1), (" AND a<9", 115)]);
    for (condition, found) in [
        ([("(", 64), ("a=7", 1), (level.as_str(), 64)], "7\nrows 1\n"),
        (
            [("NOT (", 64), ("a=7", 1), (negated.as_str(), 64)],
            "7\nrows 1\n",
        ),
        (
            [("NOT (", 63), ("a=7", 1), (negated.as_str(), 63)],
            "8\nrows 1\n",
        ),
    ] {
        check_three(&rt, &condition, found);
    }
}

#[test]
fn sixty_four_tables_with_rows(rt: HostRuntime) {
    let tables = numbered(&rt, "CREATE TABLE t", 0..64, " (a INT);");
    let filled = filled_tables(&rt);
    let shown = numbered(&rt, "SELECT a FROM t", 1..64, ";");
    let rows = rows_of_tables(&rt);
    check_pieces(
        &rt,
        &[
            (tables.as_str(), 1),
            (filled.as_str(), 1),
            (shown.as_str(), 1),
        ],
        joined(&rt, &[("ok\n", 64), ("ok 3\n", 64), (rows.as_str(), 1)]).as_str(),
    );
}

fn filled_tables<R: Abort + AllocGlobal>(rt: &R) -> String {
    let mut script = String::new(rt.alloc());
    for table in 0..64 {
        let filled = format!(in rt.alloc();
            "INSERT INTO t{table} VALUES ({table}), (NULL), (-{table});"
        ).expect(rt, "memory");
        script.push_str(filled.as_str()).expect(rt, "memory");
    }
    script
}

fn rows_of_tables<R: Abort + AllocGlobal>(rt: &R) -> String {
    let mut replies = String::new(rt.alloc());
    for table in 1..64 {
        let rows = format!(in rt.alloc(); "A\n{table}\nNULL\n-{table}\nrows 3\n").expect(
            rt, "memory",
        );
        replies.push_str(rows.as_str()).expect(rt, "memory");
    }
    replies
}
