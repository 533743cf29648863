//! STATS. The numbers come from the formulas of docs/LAYOUTS.md, worked out by hand.

use crate::harness::{check_counts, check_examples};
use std::process::Abort;

/// Two groups of 16 values, whose codes of 8 bits differ in their first bit.
const TWO_GROUPS: &str = "CREATE TABLE t (a INT USING V); INSERT INTO t VALUES \
     (0), (1), (2), (3), (4), (5), (6), (7), (8), (9), (10), (11), (12), (13), (14), (15), \
     (240), (241), (242), (243), (244), (245), (246), (247), (248), (249), (250), (251), (252), (253), (254), (255); ";

/// Checks the replies to a script about these values, after the two replies to the statements that create them.
fn check_groups<R: Abort + AllocGlobal>(rt: &R, script: &str, replies: &str) {
    let script = format!(in rt.alloc(); "{TWO_GROUPS}{script}").expect(rt, "memory");
    let replies = format!(in rt.alloc(); "ok\nok 32\n{replies}").expect(rt, "memory");
    check_counts(rt, script.as_str(), replies.as_str());
}

#[test]
fn units_in_each_layout(rt: HostRuntime) {
    check_groups(
        &rt,
        "STATS SELECT a FROM t WHERE a < 128; REBUILD t (a USING S); STATS SELECT a FROM t WHERE a < 128; \
         REBUILD t (a USING H); STATS SELECT a FROM t WHERE a < 128; \
         REBUILD t (a USING P); STATS SELECT a FROM t WHERE a < 128;",
        "units 4\nok\nunits 1\nok\nunits 9\nok\nunits 32\n",
    );
}

#[test]
fn units_of_conditions(rt: HostRuntime) {
    check_groups(
        &rt,
        "STATS SELECT a FROM t WHERE a < 128 AND a = 3; STATS SELECT a FROM t WHERE a < 128 OR a = 3; \
         STATS SELECT a FROM t WHERE a IN (3, 250); STATS SELECT a FROM t WHERE a BETWEEN 3 AND 200; \
         STATS SELECT a FROM t WHERE a < 300; STATS SELECT a FROM t WHERE NULL = 1; \
         STATS SELECT a FROM t WHERE a IS NULL; STATS SELECT a FROM t WHERE a = a; STATS SELECT a FROM t;",
        "units 12\nunits 8\nunits 16\nunits 8\nunits 0\nunits 0\nunits 0\nunits 16\nunits 0\n",
    );
}

#[test]
fn dead_rows_are_not_needed(rt: HostRuntime) {
    check_groups(
        &rt,
        "DELETE FROM t WHERE a >= 128; STATS SELECT a FROM t WHERE a < 128; STATS SELECT a FROM t WHERE a = a; \
         DELETE FROM t; STATS SELECT a FROM t WHERE a < 128;",
        "ok 16\nunits 4\nunits 16\nok 16\nunits 0\n",
    );
}

#[test]
fn a_column_stays_as_wide_as_it_was(rt: HostRuntime) {
    check_counts(
        &rt,
        "CREATE TABLE t (a INT USING V); INSERT INTO t VALUES (1), (2), (3); STATS SELECT a FROM t WHERE a < 2; \
         UPDATE t SET a = 1000000 WHERE a = 2; STATS SELECT a FROM t WHERE a < 2; \
         UPDATE t SET a = 2 WHERE a = 1000000; STATS SELECT a FROM t WHERE a < 2; \
         DELETE FROM t WHERE a = 3; STATS SELECT a FROM t WHERE a < 2; REBUILD t; STATS SELECT a FROM t WHERE a < 2;",
        "ok\nok 3\nunits 2\nok 1\nunits 20\nok 1\nunits 20\nok 1\nunits 20\nok\nunits 1\n",
    );
}

#[test]
fn stats_are_refused_as_their_select(rt: HostRuntime) {
    check_examples(
        &rt,
        &[
            (
                "STATS SELECT a FROM t; CREATE TABLE t (a INT); STATS SELECT z FROM t; STATS SELECT a FROM t WHERE z = 1; \
                 STATS SELECT COUNT(*), a FROM t; STATS TABLES; STATS; STATS STATS SELECT a FROM t; STATS SELECT a FROM t;",
                "error 20: no such table\nok\nerror 22: no such column\nerror 22: no such column\n\
                 error 27: columns and set functions mixed\nerror 10: syntax error\nerror 10: syntax error\n\
                 error 10: syntax error\nunits 0\n",
            ),
            (
                "CREATE TABLE stats (stats INT); STATS SELECT stats FROM stats; SELECT stats FROM stats WHERE stats = 1;",
                "ok\nunits 0\nSTATS\nrows 0\n",
            ),
        ],
    );
}
