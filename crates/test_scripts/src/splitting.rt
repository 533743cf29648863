//! Scripts and their parts: cuts, texts, comments, and the rest after the last cut.

use crate::harness::check_examples;

#[test]
fn cuts_outside_texts_and_comments(rt: HostRuntime) {
    check_examples(
        &rt,
        &[
            (
                "CREATE TABLE t (a INTEGER); -- one; two\n;; SELECT 'x;y'; SELECT 'it''s; one'; SELECT a FROM t",
                "ok\nerror 10: syntax error\nerror 10: syntax error\nerror 10: syntax error\n",
            ),
            ("", ""),
            (" \t\r\n;; -- nothing; here", ""),
            ("SELECT 'not closed; SELECT", "error 10: syntax error\n"),
            (
                "CREATE TABLE t (a INT)--;\n; SELECT -- a comment\n a FROM t;",
                "ok\nA\nrows 0\n",
            ),
            (
                "CREATE TABLE t (a INT); SELECT a FROM t WHERE a < --1;\n 5;",
                "ok\nA\nrows 0\n",
            ),
        ],
    );
}

#[test]
fn the_rest_is_not_executed(rt: HostRuntime) {
    check_examples(
        &rt,
        &[(
            "CREATE TABLE t (a INT); CREATE TABLE u (a INT)",
            "ok\nerror 10: syntax error\n",
        )],
    );
}
