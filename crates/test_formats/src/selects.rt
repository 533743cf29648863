//! How a SELECT, and STATS with one, are parsed; and similar texts that are no statement.

use crate::seen::see_at;
use bw_sql::{Select, SelectItems, SqlFault, Statement, statement};
use std::process::Abort;

// What a SELECT asks: its table, how many items it lists (none of `*`), whether it has a WHERE, and what it groups by.
#[derive(Clone, Copy)]
struct Asked {
    table: &'static str,
    items: usize,
    has_condition: bool,
    grouping: Option<&'static str>,
}

// Texts of SELECTs, each with and without a WHERE and a GROUP BY, some with tables and columns named STATS.
const SELECTS: [(&str, Asked); 8] = [
    (
        "SELECT * FROM t",
        Asked {
            table: "T",
            items: 0,
            has_condition: false,
            grouping: None,
        },
    ),
    (
        "SELECT a, b FROM t WHERE a < 3",
        Asked {
            table: "T",
            items: 2,
            has_condition: true,
            grouping: None,
        },
    ),
    (
        "select a, count(*), sum(b) from t group by a",
        Asked {
            table: "T",
            items: 3,
            has_condition: false,
            grouping: Some("A"),
        },
    ),
    (
        "SELECT SUM(a) FROM t WHERE a < 3 OR b IS NOT NULL GROUP BY c_2",
        Asked {
            table: "T",
            items: 1,
            has_condition: true,
            grouping: Some("C_2"),
        },
    ),
    (
        "SELECT a FROM t WHERE a IN (1, NULL) AND (a = b) IS TRUE GROUP -- of\n BY a",
        Asked {
            table: "T",
            items: 1,
            has_condition: true,
            grouping: Some("A"),
        },
    ),
    (
        "SELECT stats, MAX(stats) FROM stats",
        Asked {
            table: "STATS",
            items: 2,
            has_condition: false,
            grouping: None,
        },
    ),
    (
        "SELECT stats FROM stats WHERE stats = stats",
        Asked {
            table: "STATS",
            items: 1,
            has_condition: true,
            grouping: None,
        },
    ),
    (
        "SELECT * FROM stats WHERE NOT stats BETWEEN stats AND 3 GROUP BY stats",
        Asked {
            table: "STATS",
            items: 0,
            has_condition: true,
            grouping: Some("STATS"),
        },
    ),
];

fn items_in(asked: &Select) -> usize {
    match &asked.items {
        SelectItems::All => 0,
        SelectItems::List(list) => list.as_slice().len(),
    }
}

fn see_grouping<R: Abort>(rt: &R, text: &str, asked: &Select, wanted: Option<&'static str>) {
    match (&asked.grouping, wanted) {
        (Some(name), Some(wanted)) => see_at(rt, text, name.as_bytes(), wanted.as_bytes()),
        (grouping, wanted) => see_at(rt, text, grouping.is_some(), wanted.is_some()),
    }
}

fn see_asked<R: Abort>(rt: &R, text: &str, asked: Select, wanted: &Asked) {
    see_at(rt, text, asked.table.as_bytes(), wanted.table.as_bytes());
    see_at(rt, text, items_in(&asked), wanted.items);
    see_at(rt, text, asked.condition.is_some(), wanted.has_condition);
    see_grouping(rt, text, &asked, wanted.grouping);
}

#[test]
fn a_select_has_the_parts_that_it_spells(rt: HostRuntime) {
    for (text, wanted) in &SELECTS {
        match statement(rt.alloc(), text.as_bytes()) {
            Ok(Statement::Select(asked)) => see_asked(&rt, text, asked, wanted),
            _ => panic!(&rt; "no SELECT: {text}"),
        }
    }
}

#[test]
fn stats_asks_of_the_select_after_it(rt: HostRuntime) {
    for (text, wanted) in &SELECTS {
        let text = format!(in rt.alloc(); "sTATS {text}").expect(&rt, "memory");
        match statement(rt.alloc(), text.as_bytes()) {
            Ok(Statement::Stats(asked)) => see_asked(&rt, &text, asked, wanted),
            _ => panic!(&rt; "no STATS: {text}"),
        }
    }
}

// Other statements in which STATS is a name.
const NAMED_STATS: [&str; 8] = [
    "CREATE TABLE stats (stats INTEGER USING V)",
    "DROP TABLE stats",
    "INSERT INTO stats (stats) VALUES (1)",
    "UPDATE stats SET stats = stats WHERE stats > 1",
    "DELETE FROM stats WHERE stats IS NULL",
    "REBUILD stats (stats USING S)",
    "LOAD stats FROM 'stats.csv' WITH HEADER",
    "SAVE stats TO 'stats'",
];

#[test]
fn stats_is_a_name_elsewhere(rt: HostRuntime) {
    for text in &NAMED_STATS {
        let fault = statement(rt.alloc(), text.as_bytes()).err();
        see_at(&rt, *text, fault, None);
    }
}

// Similar texts that are no statement.
const NOT_SPELLED: [&str; 33] = [
    "STATS",
    "STATS TABLES",
    "STATS STATS SELECT a FROM t",
    "STATS SELECT",
    "STATS t",
    "STATS * FROM t",
    "STATS a FROM t",
    "STATS FROM t",
    "STATS (SELECT a FROM t)",
    "STATS, SELECT a FROM t",
    "STATS DELETE FROM t",
    "STATS UPDATE t SET a = 1",
    "SELECT STATS a FROM t",
    "SELECT a FROM t STATS",
    "SELECT a FROM t GROUP a",
    "SELECT a FROM t BY a",
    "SELECT a FROM t GROUP",
    "SELECT a FROM t GROUP BY",
    "SELECT a FROM t GROUP BY a, b",
    "SELECT a FROM t GROUP BY a b",
    "SELECT a FROM t GROUP BY 1",
    "SELECT a FROM t GROUP BY NULL",
    "SELECT a FROM t GROUP BY *",
    "SELECT a FROM t GROUP BY (a)",
    "SELECT a FROM t GROUP BY COUNT(a)",
    "SELECT a FROM t GROUP BY 'a'",
    "SELECT a FROM t GROUP BY a GROUP BY a",
    "SELECT a FROM t GROUP BY a WHERE a < 3",
    "SELECT a FROM t WHERE GROUP BY a",
    "SELECT a FROM t WHERE a < 3 AND GROUP BY a",
    "SELECT a GROUP BY a FROM t",
    "UPDATE t SET a = 1 GROUP BY a",
    "DELETE FROM t GROUP BY a",
];

#[test]
fn wrong_neighbours_are_no_statement(rt: HostRuntime) {
    for text in &NOT_SPELLED {
        let fault = statement(rt.alloc(), text.as_bytes()).err();
        see_at(&rt, *text, fault, Some(SqlFault::Syntax));
    }
}
