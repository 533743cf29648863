//! The effect of a statement.

ghost use Rattle.std.specs.Prelude.{◌≡◌, IfOk, MatchOption, OnErr, length, map};
ghost use Rattle.bw_model.specs.Insert.{target_columns, with_rows};
ghost use Rattle.bw_model.specs.Contents.{lines_in};
ghost use Rattle.bw_model.specs.Refusals.{first_that_holds, insert_tests, load_tests};
ghost use Rattle.bw_model.specs.Step.{outcome_of, with_lines};
ghost use Rattle.bw_model.specs.Store.{Store as AnyStore, header_of};
ghost use Rattle.bw_model.specs.declared.content.Content.TheVariants.{Nothing};
ghost use Rattle.bw_model.specs.declared.reply.Reply.{Reply as AnyReply};
ghost use Rattle.bw_model.specs.declared.reply.Reply.TheVariants.{Count, Refused};
ghost use Rattle.bw_sql.specs.Tree.{statement_of};
ghost use Rattle.bw_sql.specs.declared.tree.Statement.TheVariants as statements;

use crate::content::Content;
use crate::delete::delete_rows;
use crate::insert::{rows_for, rows_of, target_columns, types_named};
use crate::listing::listing_of;
use crate::rebuild::rebuild_columns;
use crate::refusal::Refusal;
use crate::refusal_tests::{
    create_tests, first_that_holds, insert_tests, lines_in, load_tests, open_tests, save_tests,
    units_in,
};
use crate::reply::Reply;
use crate::select::answer_of;
use crate::select_refusals::refused_query;
use crate::store::{Row, Store, Table, header_of, names, place_of_table, same_rows, table_of};
use crate::update::update_rows;
use bw_code::Header;
use bw_sql::{
    ColumnDefinition, CreateTable, Delete, Insert, Load, Name, NameList, Open, Rebuild, Save,
    Select, Statement, Update,
};
use std::alloc::{AllocError, Global};

/// The reply to a statement over this store, given what its file tells it. The store becomes what the statement makes
/// of it. Where it runs out of memory it stays as it was.
pub fn step(
    alloc: Global,
    store: &mut Store,
    said: &Content,
    statement: &Statement,
) -> Result<Reply, AllocError>
    ensures outcome { IfOk result (λ reply. ◌≡◌ {A = AnyReply × AnyStore} (reply, store.new) (outcome_of store.old said.now (statement_of statement.now))) }
    ensures unchanged { OnErr result (store.new ≡ store.old) }
{
    match statement {
        Statement::CreateTable(create) => create_table(alloc, &mut store.tables, create),
        Statement::DropTable(name) => Ok(drop_table(&mut store.tables, name)),
        Statement::ListTables => Ok(Reply::Rows(listing_of(alloc, &store.tables)?)),
        Statement::Insert(rows) => insert(alloc, &mut store.tables, rows),
        Statement::Update(change) => update(alloc, &mut store.tables, change),
        Statement::Delete(change) => delete(alloc, &mut store.tables, change),
        Statement::Rebuild(change) => rebuild(alloc, &mut store.tables, change),
        Statement::Select(query) => select(alloc, &store.tables, query),
        Statement::Stats(query) => stats(alloc, &store.tables, said, query),
        Statement::Load(request) => load(alloc, &mut store.tables, said, request),
        Statement::Save(request) => save(alloc, &store.tables, request),
        Statement::Open(request) => open_table(alloc, &mut store.tables, said, request),
    }
}

fn create_table(
    alloc: Global,
    tables: &mut Vec<(Name, Table)>,
    create: &CreateTable,
) -> Result<Reply, AllocError>
    ensures outcome { IfOk result (λ reply. ◌≡◌ {A = AnyReply × AnyStore} (reply, tables.new.items) (outcome_of tables.old.items Nothing (statement_of (statements.CreateTable create.now)))) }
    ensures unchanged { OnErr result (tables.new.items ≡ tables.old.items) }
{
    let headers = headers_of(alloc, &create.columns)?;
    let columns = names(alloc, &headers)?;
    if let Some(refusal) = first_that_holds(&create_tests(
        &columns,
        &headers,
        &create.table,
        tables,
    )) {
        return Ok(Reply::Refused(refusal));
    }
    let name = create.table.try_clone(alloc)?;
    tables.push((name, Table::new(alloc, headers)))?;
    Ok(Reply::Done)
}

/// The columns that definitions make.
fn headers_of(alloc: Global, columns: &[ColumnDefinition]) -> Result<Vec<Header<Name>>, AllocError>
    ensures { IfOk result (λ headers. headers.items ≡ map header_of columns.now) }
{
    let mut headers = Vec::new(alloc);
    for column in columns {
        headers.push(header_of(alloc, column)?)?;
    }
    Ok(headers)
}

fn drop_table(tables: &mut Vec<(Name, Table)>, name: &Name) -> Reply
    ensures { ◌≡◌ {A = AnyReply × AnyStore} (result, tables.new.items) (outcome_of tables.old.items Nothing (statement_of (statements.DropTable name.now))) }
{
    match place_of_table(tables, name) {
        Some(place) => {
            tables.remove(place);
            Reply::Done
        }
        None => Reply::Refused(Refusal::NoSuchTable),
    }
}

fn insert(alloc: Global, tables: &mut [(Name, Table)], insert: &Insert) -> Result<Reply, AllocError>
    ensures outcome { IfOk result (λ reply. ◌≡◌ {A = AnyReply × AnyStore} (reply, tables.new) (outcome_of tables.old Nothing (statement_of (statements.Insert insert.now)))) }
    ensures unchanged { OnErr result (tables.new ≡ tables.old) }
{
    let Some(place) = place_of_table(tables, &insert.table) else {
        return Ok(Reply::Refused(Refusal::NoSuchTable));
    };
    let rows = rows_of(alloc, &insert.rows)?;
    insert_rows(alloc, &mut tables[place].1, &insert.columns, &rows)
}

/// Appends rows to this table.
fn insert_rows(
    alloc: Global,
    table: &mut Table,
    listed: &Option<NameList>,
    rows: &[Row],
) -> Result<Reply, AllocError>
    ensures outcome { IfOk result (λ reply. MatchOption (first_that_holds (insert_tests (target_columns table.old.headers listed.now) rows.now table.old))
        ((reply ≡ Count (length rows.now)) × (table.new ≡ with_rows listed.now rows.now table.old))
        (λ refusal. (reply ≡ Refused refusal) × (table.new ≡ table.old))) }
    ensures unchanged { OnErr result (table.new ≡ table.old) }
{
    let columns = target_columns(alloc, table.headers(), listed)?;
    let types = types_named(alloc, table.headers(), &columns)?;
    if let Some(refusal) = first_that_holds(&insert_tests(&columns, &types, rows, table)) {
        return Ok(Reply::Refused(refusal));
    }
    let new = rows_for(alloc, table.headers(), &columns, rows)?;
    table.append(new)?;
    Ok(Reply::Count(rows.len() as u64))
}

fn update(alloc: Global, tables: &mut [(Name, Table)], update: &Update) -> Result<Reply, AllocError>
    ensures outcome { IfOk result (λ reply. ◌≡◌ {A = AnyReply × AnyStore} (reply, tables.new) (outcome_of tables.old Nothing (statement_of (statements.Update update.now)))) }
    ensures unchanged { OnErr result (tables.new ≡ tables.old) }
{
    let Some(place) = place_of_table(tables, &update.table) else {
        return Ok(Reply::Refused(Refusal::NoSuchTable));
    };
    update_rows(alloc, &mut tables[place].1, &update.sets, &update.condition)
}

fn delete(alloc: Global, tables: &mut [(Name, Table)], delete: &Delete) -> Result<Reply, AllocError>
    ensures outcome { IfOk result (λ reply. ◌≡◌ {A = AnyReply × AnyStore} (reply, tables.new) (outcome_of tables.old Nothing (statement_of (statements.Delete delete.now)))) }
    ensures unchanged { OnErr result (tables.new ≡ tables.old) }
{
    let Some(place) = place_of_table(tables, &delete.table) else {
        return Ok(Reply::Refused(Refusal::NoSuchTable));
    };
    delete_rows(alloc, &mut tables[place].1, &delete.condition)
}

fn rebuild(
    alloc: Global,
    tables: &mut [(Name, Table)],
    rebuild: &Rebuild,
) -> Result<Reply, AllocError>
    ensures outcome { IfOk result (λ reply. ◌≡◌ {A = AnyReply × AnyStore} (reply, tables.new) (outcome_of tables.old Nothing (statement_of (statements.Rebuild rebuild.now)))) }
    ensures unchanged { OnErr result (tables.new ≡ tables.old) }
{
    let Some(place) = place_of_table(tables, &rebuild.table) else {
        return Ok(Reply::Refused(Refusal::NoSuchTable));
    };
    rebuild_columns(alloc, &mut tables[place].1, &rebuild.choices)
}

fn select(alloc: Global, tables: &[(Name, Table)], query: &Select) -> Result<Reply, AllocError>
    ensures { IfOk result (λ reply. ◌≡◌ {A = AnyReply × AnyStore} (reply, tables.now) (outcome_of tables.now Nothing (statement_of (statements.Select query.now)))) }
{
    let Some(table) = table_of(tables, &query.table) else {
        return Ok(Reply::Refused(Refusal::NoSuchTable));
    };
    if let Some(refusal) = refused_query(alloc, table, query)? {
        return Ok(Reply::Refused(refusal));
    }
    let shows = answer_of(alloc, table, query)?;
    Ok(Reply::Rows(shows))
}

fn stats(
    alloc: Global,
    tables: &[(Name, Table)],
    said: &Content,
    query: &Select,
) -> Result<Reply, AllocError>
    ensures { IfOk result (λ reply. ◌≡◌ {A = AnyReply × AnyStore} (reply, tables.now) (outcome_of tables.now said.now (statement_of (statements.Stats query.now)))) }
{
    let Some(table) = table_of(tables, &query.table) else {
        return Ok(Reply::Refused(Refusal::NoSuchTable));
    };
    if let Some(refusal) = refused_query(alloc, table, query)? {
        return Ok(Reply::Refused(refusal));
    }
    Ok(Reply::Units(units_in(said)))
}

fn load(
    alloc: Global,
    tables: &mut [(Name, Table)],
    said: &Content,
    request: &Load,
) -> Result<Reply, AllocError>
    ensures outcome { IfOk result (λ reply. ◌≡◌ {A = AnyReply × AnyStore} (reply, tables.new) (outcome_of tables.old said.now (statement_of (statements.Load request.now)))) }
    ensures unchanged { OnErr result (tables.new ≡ tables.old) }
{
    let Some(place) = place_of_table(tables, &request.table) else {
        return Ok(Reply::Refused(Refusal::NoSuchTable));
    };
    load_lines(alloc, &mut tables[place].1, said)
}

/// Appends the rows of a CSV file to this table.
fn load_lines(alloc: Global, table: &mut Table, said: &Content) -> Result<Reply, AllocError>
    ensures outcome { IfOk result (λ reply. MatchOption (first_that_holds (load_tests said.now table.old))
        ((reply ≡ Count (length (lines_in said.now))) × (table.new ≡ with_lines (lines_in said.now) table.old))
        (λ refusal. (reply ≡ Refused refusal) × (table.new ≡ table.old))) }
    ensures unchanged { OnErr result (table.new ≡ table.old) }
{
    if let Some(refusal) = first_that_holds(&load_tests(said, table)) {
        return Ok(Reply::Refused(refusal));
    }
    let rows = lines_in(said);
    table.append(same_rows(alloc, rows)?)?;
    Ok(Reply::Count(rows.len() as u64))
}

fn save(alloc: Global, tables: &[(Name, Table)], request: &Save) -> Result<Reply, AllocError>
    ensures { IfOk result (λ reply. ◌≡◌ {A = AnyReply × AnyStore} (reply, tables.now) (outcome_of tables.now Nothing (statement_of (statements.Save request.now)))) }
{
    let Some(table) = table_of(tables, &request.table) else {
        return Ok(Reply::Refused(Refusal::NoSuchTable));
    };
    if let Some(refusal) = first_that_holds(&save_tests(alloc, table)?) {
        return Ok(Reply::Refused(refusal));
    }
    Ok(Reply::Count(table.rows().len() as u64))
}

fn open_table(
    alloc: Global,
    tables: &mut Vec<(Name, Table)>,
    said: &Content,
    request: &Open,
) -> Result<Reply, AllocError>
    ensures outcome { IfOk result (λ reply. ◌≡◌ {A = AnyReply × AnyStore} (reply, tables.new.items) (outcome_of tables.old.items said.now (statement_of (statements.Open request.now)))) }
    ensures unchanged { OnErr result (tables.new.items ≡ tables.old.items) }
{
    if let Some(refusal) = first_that_holds(&open_tests(&request.table, tables, said)) {
        return Ok(Reply::Refused(refusal));
    }
    let Content::Held(table) = said else {
        unreachable!()
    };
    let name = request.table.try_clone(alloc)?;
    let table = table.try_clone(alloc)?;
    let count = table.rows().len() as u64;
    tables.push((name, table))?;
    Ok(Reply::Count(count))
}
