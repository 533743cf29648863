//! Tables dropped and listed.

use crate::harness::{check_examples, check_pieces, run_over};
use crate::seen::{see, see_bytes};
use bw_shell::{OnError, RunEnd};

#[test]
fn a_table_that_is_not_there(rt: HostRuntime) {
    check_examples(
        &rt,
        &[(
            "DROP TABLE t; TABLES;",
            "error 20: no such table\nTABLE,COLUMNS,ROWS\nrows 0\n",
        )],
    );
}

#[test]
fn a_run_stops_at_a_table_that_is_not_there(rt: HostRuntime) {
    let mut output = Vec::new(rt.alloc());
    let end = run_over(
        rt.alloc(),
        &mut b"DROP TABLE t; TABLES;".as_slice(),
        &mut output,
        OnError::Stop,
    );
    see(&rt, end, RunEnd::Stopped);
    see_bytes(&rt, &output, b"error 20: no such table\n");
}

#[test]
fn the_others_keep_their_order(rt: HostRuntime) {
    check_examples(
        &rt,
        &[
            (
                "CREATE TABLE a (x INT); CREATE TABLE b (x INT, y INT); CREATE TABLE c (x INT); \
             CREATE TABLE d (x INT, y INT, z INT); INSERT INTO d VALUES (1, 2, 3), (4, 5, 6); INSERT INTO b (y) VALUES (7); \
             DROP TABLE B; TABLES; CREATE TABLE b (x INT); TABLES; DROP TABLE a; DROP TABLE d; TABLES; SELECT * FROM b;",
                "ok\nok\nok\nok\nok 2\nok 1\n\
             ok\nTABLE,COLUMNS,ROWS\nA,1,0\nC,1,0\nD,3,2\nrows 3\n\
             ok\nTABLE,COLUMNS,ROWS\nA,1,0\nC,1,0\nD,3,2\nB,1,0\nrows 4\n\
             ok\nok\nTABLE,COLUMNS,ROWS\nC,1,0\nB,1,0\nrows 2\nX\nrows 0\n",
            ),
            (
                "CREATE TABLE t (a INT); INSERT INTO t VALUES (1); DROP TABLE u; SELECT a FROM t; DROP TABLE t; \
             SELECT a FROM t; DROP TABLE t; TABLES;",
                "ok\nok 1\nerror 20: no such table\nA\n1\nrows 1\nok\nerror 20: no such table\nerror 20: no such table\n\
             TABLE,COLUMNS,ROWS\nrows 0\n",
            ),
        ],
    );
}

#[test]
fn words_that_are_names_elsewhere(rt: HostRuntime) {
    check_examples(
        &rt,
        &[
            (
                "CREATE TABLE tables (rebuild INT, h INT USING h); create table H (offset INT offset); tables; \
             INSERT INTO tables (h) VALUES (1); Tables; SELECT h FROM tables; DROP TABLE h; DROP TABLE tables; TABLES;",
                "ok\nok\nTABLE,COLUMNS,ROWS\nTABLES,2,0\nH,1,0\nrows 2\nok 1\nTABLE,COLUMNS,ROWS\nTABLES,2,1\nH,1,0\nrows 2\n\
             H\n1\nrows 1\nok\nok\nTABLE,COLUMNS,ROWS\nrows 0\n",
            ),
            (
                "TABLES TABLES; TABLES *; DROP TABLE; DROP t; DROP TABLE t, u; DROP TABLE select; TABLE; tables t;",
                "error 10: syntax error\nerror 10: syntax error\nerror 10: syntax error\nerror 10: syntax error\n\
             error 10: syntax error\nerror 10: syntax error\nerror 10: syntax error\nerror 10: syntax error\n",
            ),
        ],
    );
}

#[test]
fn a_list_of_tables_of_the_longest_statement(rt: HostRuntime) {
    check_pieces(
        &rt,
        &[("TABLES", 1), (" ", 65_530), (";", 1)],
        "TABLE,COLUMNS,ROWS\nrows 0\n",
    );
    check_pieces(
        &rt,
        &[("TABLES", 1), (" ", 65_531), (";TABLES;", 1)],
        "error 11: statement too long\nTABLE,COLUMNS,ROWS\nrows 0\n",
    );
}
