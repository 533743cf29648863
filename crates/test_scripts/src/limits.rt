//! Limits of the language, each tested on both sides.

use crate::harness::{check_pieces, check_script, joined, numbered};

#[test]
fn bytes_of_a_statement(rt: HostRuntime) {
    // The second statement has 15 bytes and its blanks.
    for (blanks, replies) in [
        (65_521, "ok\nA\nrows 0\nA\nrows 0\n"),
        (65_522, "ok\nerror 11: statement too long\nA\nrows 0\n"),
    ] {
        check_pieces(
            &rt,
            &[
                ("CREATE TABLE t (a INT);SELECT a FROM t", 1),
                (" ", blanks),
                (";SELECT a FROM t;", 1),
            ],
            replies,
        );
    }
}

#[test]
fn bytes_of_a_rest(rt: HostRuntime) {
    check_pieces(&rt, &[("x", 65_536)], "error 10: syntax error\n");
    check_pieces(
        &rt,
        &[("x", 65_536), (" ", 1)],
        "error 11: statement too long\n",
    );
    check_pieces(&rt, &[("\n", 70_000)], "");
}

#[test]
fn depth_of_parentheses(rt: HostRuntime) {
    for (depth, replies) in [
        (64, "ok\nok 1\nA\n1\nrows 1\n"),
        (65, "ok\nok 1\nerror 12: nested too deeply\n"),
    ] {
        check_pieces(
            &rt,
            &[
                (
                    "CREATE TABLE t (a INT); INSERT INTO t VALUES (1); SELECT a FROM t WHERE ",
                    1,
                ),
                ("(", depth),
                ("a = 1", 1),
                (")", depth),
                (";", 1),
            ],
            replies,
        );
    }
}

#[test]
fn the_first_fault_counts(rt: HostRuntime) {
    for (before, after, replies) in [
        (
            "",
            " 9223372036854775808 #;",
            "error 12: nested too deeply\n",
        ),
        (
            "9223372036854775808 ",
            " #;",
            "error 13: number too large\n",
        ),
        ("# ", " 9223372036854775808;", "error 10: syntax error\n"),
    ] {
        check_pieces(&rt, &[(before, 1), ("(", 65), (after, 1)], replies);
    }
    check_script(&rt, "1a 9223372036854775808;", "error 10: syntax error\n");
}

#[test]
fn bytes_of_a_name(rt: HostRuntime) {
    let replies = joined(
        &rt,
        &[
            ("ok\n", 1),
            ("N", 128),
            ("\nrows 0\nerror 10: syntax error\n", 1),
        ],
    );
    check_pieces(
        &rt,
        &[
            ("CREATE TABLE t (", 1),
            ("n", 128),
            (" INT); SELECT * FROM t; CREATE TABLE u (", 1),
            ("n", 129),
            (" INT);", 1),
        ],
        replies.as_str(),
    );
}

#[test]
fn columns_of_a_table(rt: HostRuntime) {
    let others = numbered(&rt, ", c", 1..64, " INT");
    for (end, replies) in [
        (");", "ok\n"),
        (", c64 INT);", "error 24: over a limit\n"),
        (", c0 INT);", "error 23: column named twice\n"),
    ] {
        check_pieces(
            &rt,
            &[
                ("CREATE TABLE t (c0 INT", 1),
                (others.as_str(), 1),
                (end, 1),
            ],
            replies,
        );
    }
}

#[test]
fn tables_of_a_store(rt: HostRuntime) {
    let tables = numbered(&rt, "CREATE TABLE t", 0..64, " (a INT);");
    let replies = joined(
        &rt,
        &[
            ("ok\n", 64),
            (
                "error 24: over a limit\nerror 21: table exists\nA\nrows 0\n",
                1,
            ),
        ],
    );
    check_pieces(
        &rt,
        &[
            (tables.as_str(), 1),
            (
                "CREATE TABLE t64 (a INT); CREATE TABLE t63 (a INT); SELECT a FROM t63;",
                1,
            ),
        ],
        replies.as_str(),
    );
}
