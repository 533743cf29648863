//! The engine.

ghost use Rattle.std.specs.Prelude.{◌≡◌, ℕ, List, [], IfOk, is_none};
ghost use Rattle.std.specs.Option.{option_copied};
ghost use Rattle.bw_model.specs.FileUse.{file_read, file_use};
ghost use Rattle.bw_model.specs.Refusals.{refused_early};
ghost use Rattle.bw_sql.specs.Tree.{load, open_table, statement_of};
ghost use Rattle.bw_sql.specs.declared.tree.FirstRecord.{FirstRecord as WhichFirst};
ghost use Rattle.bw_engine.specs.Files.{Executes, LeavesBy, saving_of};
ghost use Rattle.bw_engine.specs.Outcomes.{reply_of};
ghost use Rattle.bw_engine.specs.Stores.{store_of};
ghost use Rattle.bw_engine.specs.declared.outcome.Outcome.TheVariants as outcomes;

use crate::create::{TABLE_LIMIT, create_table};
use crate::delete::delete;
use crate::drop::drop_table;
use crate::file_answer::FileAnswer;
use crate::insert::insert;
use crate::listing::list_tables;
use crate::load::load;
use crate::open::open_table;
use crate::outcome::{Outcome, Saving};
use crate::rebuild::rebuild;
use crate::save::save;
use crate::select::select;
use crate::stats::stats;
use crate::table::Table;
use crate::update::update;
use bw_model::{Refusal, Reply};
use bw_sql::{Name, Statement};
use indexmap::IndexMap;
use std::alloc::{AllocError, Global};
use std::marker::Model;

/// Tables in memory, in creation order. Contracts see the headers, the slots and the column encodings of each;
/// `store_of` gives the model's store of them.
#[derive(Drop)]
pub struct Engine {
    tables: IndexMap<Name, Table>,
    alloc: Global,
}

impl Model for Engine {
    ghost use Rattle.bw_engine.specs.Stores.{Stored};

    ghost Value = { Stored };

    ghost view = { λ e. e.tables.entries };
}

impl Engine {
    /// An engine without tables. Reserves room for the largest number of tables.
    pub fn new(alloc: Global) -> Result<Engine, AllocError>
        ensures { IfOk result (λ engine. engine ≡ []) }
    {
        let tables = IndexMap::with_capacity(alloc, TABLE_LIMIT)?;
        Ok(Engine { tables, alloc })
    }

    /// The name of the file that a statement reads: that of a LOAD or an OPEN, unless it is refused for a reason that
    /// doesn't depend on the file.
    pub fn wants<'s>(&self, statement: &'s Statement) -> Option<&'s str>
        ensures { option_copied result ≡ file_read (file_use (store_of self.now) (statement_of statement.now)) }
    {
        match statement {
            Statement::Load(request) => {
                may_load(&self.tables, &request.table).then_some(request.file.as_str())
            }
            Statement::Open(request) => {
                may_open(&self.tables, &request.table).then_some(request.file.as_str())
            }
            Statement::CreateTable(_)
            | Statement::DropTable(_)
            | Statement::ListTables
            | Statement::Insert(_)
            | Statement::Update(_)
            | Statement::Delete(_)
            | Statement::Rebuild(_)
            | Statement::Select(_)
            | Statement::Stats(_)
            | Statement::Save(_) => None,
        }
    }

    /// Executes a statement. If it is refused, nothing changes, not even how a column is encoded. `file` is used only
    /// where `wants` names a file. The bytes that a SAVE writes are returned.
    pub fn execute(&mut self, statement: Statement, file: FileAnswer<'_>) -> Outcome
        ensures outcome { Executes self.old (statement_of statement) file.entry result (store_of self.new) }
        ensures stored { LeavesBy self.old (statement_of statement) result self.new }
    {
        carry_out(self.alloc, &mut self.tables, statement, file)
    }
}

/// Whether a LOAD into this table passes all checks that don't depend on the file.
fn may_load(tables: &IndexMap<Name, Table>, table: &Name) -> bool
    ensures { (file : List ℕ) (first : WhichFirst) → result ≡ is_none (refused_early (store_of tables.now.entries) (load table.now file first)) }
{
    tables.contains_key(table)
}

/// Whether an OPEN of this table passes all checks that don't depend on the file.
fn may_open(tables: &IndexMap<Name, Table>, table: &Name) -> bool
    ensures { (file : List ℕ) → result ≡ is_none (refused_early (store_of tables.now.entries) (open_table table.now file)) }
{
    !tables.contains_key(table) && tables.len() < TABLE_LIMIT
}

/// Executes a statement.
fn carry_out(
    alloc: Global,
    tables: &mut IndexMap<Name, Table>,
    statement: Statement,
    file: FileAnswer<'_>,
) -> Outcome
    ensures outcome { Executes tables.old.entries (statement_of statement) file.entry result (store_of tables.new.entries) }
    ensures stored { LeavesBy tables.old.entries (statement_of statement) result tables.new.entries }
{
    match statement {
        Statement::CreateTable(create) => replied(create_table(alloc, tables, create)),
        Statement::DropTable(name) => replied(drop_table(tables, &name)),
        Statement::ListTables => replied(list_tables(alloc, tables)),
        Statement::Insert(rows) => replied(insert(alloc, tables, rows)),
        Statement::Update(change) => replied(update(alloc, tables, change)),
        Statement::Delete(change) => replied(delete(alloc, tables, change)),
        Statement::Rebuild(change) => replied(rebuild(alloc, tables, change)),
        Statement::Select(query) => replied(select(alloc, tables, query)),
        Statement::Stats(query) => replied(stats(alloc, tables, query)),
        Statement::Load(request) => replied(load(alloc, tables, request, file)),
        Statement::Open(request) => replied(open_table(alloc, tables, request, file)),
        Statement::Save(request) => saved(save(alloc, tables, request)),
    }
}

/// The outcome for a reply or a refusal.
fn replied(outcome: Result<Reply, Refusal>) -> Outcome
    ensures { result ≡ outcomes.Reply (reply_of outcome) }
{
    match outcome {
        Ok(reply) => Outcome::Reply(reply),
        Err(refusal) => Outcome::Reply(Reply::Refused(refusal)),
    }
}

/// The outcome of a SAVE: the bytes to write, or the reply for a refusal.
fn saved(outcome: Result<Saving, Refusal>) -> Outcome
    ensures { result ≡ saving_of outcome }
{
    match outcome {
        Ok(saving) => Outcome::Save(saving),
        Err(refusal) => Outcome::Reply(Reply::Refused(refusal)),
    }
}
