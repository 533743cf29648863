//! A success of each call that may run out of memory.

use crate::harness::statement_in;
use crate::seen::{see, see_at, see_bytes};
use bw_engine::{Engine, FileAnswer, Outcome};
use bw_mask::TruthValue;
use bw_model::{Reply, Row, Table, answer_of, found_rows, header_of, truth_at};
use bw_shell::{Folder, FolderFault, MemoryFolder};
use bw_sql::{
    CompareOp, Condition, CreateTable, Insert, Part, Select, Span, SqlFault, Statement, Symbol,
    Token, TokenKind, parts, tokens,
};
use std::process::Abort;

fn token(kind: TokenKind, start: usize, end: usize) -> Token {
    Token {
        kind,
        span: Span { start, end },
    }
}

#[test]
fn tokens_of_a_text(rt: HostRuntime) {
    let found = tokens(rt.alloc(), b"a<>-12 'it''s'--x\n>=").expect(&rt, "tokens");
    assert_eq!(rt;
        found.as_slice(),
        [
            token(TokenKind::Word, 0, 1),
            token(TokenKind::Symbol(Symbol::Compare(CompareOp::Ne)), 1, 3),
            token(TokenKind::Symbol(Symbol::Minus), 3, 4),
            token(TokenKind::Number, 4, 6),
            token(TokenKind::Text, 7, 14),
            token(TokenKind::Symbol(Symbol::Compare(CompareOp::Ge)), 18, 20),
        ]
        .as_slice()
    );
    see(
        &rt,
        tokens(rt.alloc(), b"12a").err(),
        Some(SqlFault::Syntax),
    );
}

#[test]
fn parts_of_a_script(rt: HostRuntime) {
    let found = parts(rt.alloc(), b"a; ;'b;' ; c").expect(&rt, "parts");
    let part = |start, end, is_closed| Part {
        span: Span { start, end },
        is_closed,
    };
    assert_eq!(rt;
        found.as_slice(),
        [part(0, 1, true), part(4, 9, true), part(10, 12, false)].as_slice()
    );
}

fn create_in<R: Abort + AllocGlobal>(rt: &R, text: &str) -> CreateTable {
    match statement_in(rt, text) {
        Statement::CreateTable(create) => create,
        _ => panic!(rt; "no CREATE TABLE"),
    }
}

fn select_in<R: Abort + AllocGlobal>(rt: &R, text: &str) -> Select {
    match statement_in(rt, text) {
        Statement::Select(select) => select,
        _ => panic!(rt; "no SELECT"),
    }
}

fn insert_in<R: Abort + AllocGlobal>(rt: &R, text: &str) -> Insert {
    match statement_in(rt, text) {
        Statement::Insert(insert) => insert,
        _ => panic!(rt; "no INSERT"),
    }
}

// Each of these fails if the text is another statement.
#[test]
fn statements_of_texts(rt: HostRuntime) {
    select_in(&rt, "SELECT * FROM t");
    insert_in(&rt, "INSERT INTO t VALUES (1)");
    create_in(&rt, "CREATE TABLE t (a INT)");
}

#[test]
fn a_name_is_copied(rt: HostRuntime) {
    let create = create_in(&rt, "create table Visits (day int)");
    let copy = create.table.try_clone(rt.alloc()).expect(&rt, "memory");
    see_bytes(&rt, copy.as_bytes(), b"VISITS");
    assert!(rt; copy == create.table);
}

/// The table of 3, NULL and -1 in one column A.
fn three_rows<R: Abort + AllocGlobal>(rt: &R) -> Table {
    let create = create_in(rt, "CREATE TABLE t (a INT)");
    let mut headers = Vec::new(rt.alloc());
    for column in &create.columns {
        let header = header_of(rt.alloc(), column).expect(rt, "memory");
        headers.push(header).expect(rt, "memory");
    }
    assert!(rt; headers.len() == 1);
    let mut table = Table::new(rt.alloc(), headers);
    table.append(rows_of_three(rt)).expect(rt, "memory");
    table
}

fn rows_of_three<R: Abort + AllocGlobal>(rt: &R) -> Vec<Row> {
    let mut rows = Vec::new(rt.alloc());
    for value in [Some(3), None, Some(-1)] {
        let row = vec![in rt.alloc(); value].expect(rt, "memory");
        rows.push(Row::new(row)).expect(rt, "memory");
    }
    rows
}

fn select_below_3<R: Abort + AllocGlobal>(rt: &R) -> Select {
    select_in(rt, "SELECT a FROM t WHERE a < 3")
}

/// The number of found rows, and the number of lines in their answer.
fn found_and_answered<R: Abort + AllocGlobal>(
    rt: &R,
    table: &Table,
    select: &Select,
) -> (usize, usize) {
    let found = found_rows(rt.alloc(), table, &select.condition).expect(rt, "memory");
    let answer = answer_of(rt.alloc(), table, select).expect(rt, "memory");
    (found.len(), answer.line_count())
}

#[test]
fn the_plain_program_answers(rt: HostRuntime) {
    let found = found_and_answered(&rt, &three_rows(&rt), &select_below_3(&rt));
    see(&rt, found, (1, 1));
}

/// Checks the truth of a condition at each of three rows.
fn see_truths<R: Abort>(rt: &R, table: &Table, condition: &Condition, truths: [TruthValue; 3]) {
    see(rt, table.rows().len(), 3);
    for (row, truth) in table.rows().iter().zip(truths) {
        see(rt, truth_at(table.headers(), row, condition), truth);
    }
}

#[test]
fn truths_by_the_plain_program(rt: HostRuntime) {
    let select = select_below_3(&rt);
    let condition = select.condition.as_ref().expect(&rt, "a condition");
    let truths = [TruthValue::False, TruthValue::Unknown, TruthValue::True];
    see_truths(&rt, &three_rows(&rt), condition, truths);
}

/// The kind of a reply, and the number in it.
#[derive(Clone, Copy, Debug, PartialEq)]
enum ReplyKind {
    Done,
    Count(u64),
    Units(u64),
    Lines(usize),
    Refused,
}

fn kind_of(reply: Reply) -> ReplyKind {
    match reply {
        Reply::Done => ReplyKind::Done,
        Reply::Count(count) => ReplyKind::Count(count),
        Reply::Units(units) => ReplyKind::Units(units),
        Reply::Rows(answer) => ReplyKind::Lines(answer.line_count()),
        Reply::Refused(_) => ReplyKind::Refused,
    }
}

/// The engine's reply to a statement that wants no file.
fn replied<R: Abort + AllocGlobal>(rt: &R, engine: &mut Engine, text: &str) -> ReplyKind {
    let statement = statement_in(rt, text);
    assert!(rt; engine.wants(&statement).is_none());
    match engine.execute(statement, FileAnswer::NotAsked) {
        Outcome::Reply(reply) => kind_of(reply),
        Outcome::Save(_) => panic!(rt; "a SAVE"),
    }
}

#[test]
fn an_engine_executes(rt: HostRuntime) {
    let mut engine = Engine::new(rt.alloc()).expect(&rt, "memory");
    for (text, reply) in [
        ("CREATE TABLE t (a INT)", ReplyKind::Done),
        ("INSERT INTO t VALUES (1), (NULL)", ReplyKind::Count(2)),
        ("TABLES", ReplyKind::Lines(1)),
        ("SELECT a FROM t", ReplyKind::Lines(2)),
        ("STATS SELECT a FROM t WHERE a = 1", ReplyKind::Units(1)),
    ] {
        see_at(&rt, text, replied(&rt, &mut engine, text), reply);
    }
}

#[test]
fn a_folder_keeps_files(rt: HostRuntime) {
    let mut folder = MemoryFolder::new(rt.alloc());
    see(&rt, folder.read("f", 10).err(), Some(FolderFault::Missing));
    folder.write("f", b"abc").expect(&rt, "memory");
    see(&rt, folder.read("f", 2).err(), Some(FolderFault::TooLarge));
    see(&rt, folder.failures(), 0);
    let bytes = folder.read("f", 3).expect(&rt, "a file");
    see_bytes(&rt, &bytes, b"abc");
}
