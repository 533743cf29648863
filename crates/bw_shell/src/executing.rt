//! Executes a statement, with a folder for its file.

ghost use Rattle.std.specs.Prelude.{◌≡◌, ◌≤◌, ◌<◌, ◌+◌, ◌^◌, IsSome, None};
ghost use Rattle.bw_engine.specs.Files.{Replies};
ghost use Rattle.bw_engine.specs.StoredChanges.{LeavesStored};
ghost use Rattle.bw_engine.specs.Stores.{store_of};
ghost use Rattle.bw_model.specs.FileUse.{file_read, file_use};
ghost use Rattle.bw_sql.specs.Tree.{statement_of};
ghost use Rattle.bw_shell.specs.Answers.{Answers};
ghost use Rattle.bw_shell.specs.FileWriting.{WritesOut};
ghost use Rattle.bw_shell.specs.FileReading.{AnswersFault, IsReadFor};
ghost use Rattle.bw_shell.specs.States.{seen, with_tables};

use crate::folders::{Folder, FolderFault};
use bw_engine::{Engine, FILE_LIMIT, FileAnswer, Outcome, Refusal, Reply, Saving};
use bw_sql::Statement;

/// Executes a statement. Reads the file that it wants first, and writes the bytes of a SAVE.
pub(crate) fn execute<F: Folder>(engine: &mut Engine, folder: &mut F, statement: Statement) -> Reply
    requires { F.failure_count folder.old < 2 ^ 63 }
    ensures answers { Answers (with_tables engine.old (seen (F.files folder.old) (F.failure_count folder.old))) (statement_of statement) result (with_tables engine.new (seen (F.files folder.new) (F.failure_count folder.new))) }
    ensures failures { F.failure_count folder.new ≤ F.failure_count folder.old + 1 }
{
    match read_wanted(engine, folder, &statement) {
        None => execute_alone(engine, folder, statement),
        Some(Ok(bytes)) => answer_of(engine, statement, FileAnswer::Bytes(bytes.as_slice())),
        Some(Err(fault)) => answer_fault(engine, statement, fault),
    }
}

/// The bytes of the file that a statement wants, or the fault of reading it. `None` if it wants no file.
fn read_wanted<F: Folder>(
    engine: &Engine,
    folder: &mut F,
    statement: &Statement,
) -> Option<Result<Vec<u8>, FolderFault>>
    requires { F.failure_count folder.old < 2 ^ 63 }
    ensures { IsReadFor (file_read (file_use (store_of engine.now) (statement_of statement.now))) (seen (F.files folder.old) (F.failure_count folder.old)) (seen (F.files folder.new) (F.failure_count folder.new)) result }
{
    let name = engine.wants(statement)?;
    Some(folder.read(name, FILE_LIMIT))
}

/// Executes a statement that wants no file.
fn execute_alone<F: Folder>(engine: &mut Engine, folder: &mut F, statement: Statement) -> Reply
    requires few { F.failure_count folder.old < 2 ^ 63 }
    requires alone { file_read (file_use (store_of engine.old) (statement_of statement)) ≡ None }
    ensures answers { Answers (with_tables engine.old (seen (F.files folder.old) (F.failure_count folder.old))) (statement_of statement) result (with_tables engine.new (seen (F.files folder.new) (F.failure_count folder.new))) }
    ensures failures { F.failure_count folder.new ≤ F.failure_count folder.old + 1 }
{
    match engine.execute(statement, FileAnswer::NotAsked) {
        Outcome::Reply(reply) => reply,
        Outcome::Save(saving) => save(folder, saving),
    }
}

/// The reply to a statement whose file couldn't be read.
fn answer_fault(engine: &mut Engine, statement: Statement, fault: FolderFault) -> Reply
    requires { IsSome (file_read (file_use (store_of engine.old) (statement_of statement))) }
    ensures replies { AnswersFault fault engine.old (statement_of statement) result (store_of engine.new) }
    ensures stored { LeavesStored engine.old (statement_of statement) result engine.new }
{
    match fault {
        FolderFault::Missing => answer_of(engine, statement, FileAnswer::Unreadable),
        FolderFault::TooLarge => answer_of(engine, statement, FileAnswer::TooLarge),
        FolderFault::Failed => Reply::Refused(Refusal::UnreadableFile),
        FolderFault::Memory => Reply::Refused(Refusal::OutOfMemory),
    }
}

/// The reply to a statement that reads a file.
fn answer_of(engine: &mut Engine, statement: Statement, file: FileAnswer<'_>) -> Reply
    requires { IsSome (file_read (file_use (store_of engine.old) (statement_of statement))) }
    ensures replies { Replies engine.old (statement_of statement) file.entry result (store_of engine.new) }
    ensures stored { LeavesStored engine.old (statement_of statement) result engine.new }
{
    match engine.execute(statement, file) {
        Outcome::Reply(reply) => reply,
        Outcome::Save(_) => unreachable!(),
    }
}

/// Creates or replaces a file with the bytes of a table.
fn save<F: Folder>(folder: &mut F, saving: Saving) -> Reply
    requires { F.failure_count folder.old < 2 ^ 63 }
    ensures { WritesOut saving.file saving.bytes.items saving.rows (seen (F.files folder.old) (F.failure_count folder.old)) (seen (F.files folder.new) (F.failure_count folder.new)) result }
{
    match folder.write(saving.file.as_str(), saving.bytes.as_slice()) {
        Ok(()) => Reply::Count(saving.rows),
        Err(FolderFault::Memory) => Reply::Refused(Refusal::OutOfMemory),
        Err(FolderFault::Failed) => Reply::Refused(Refusal::UnwritableFile),
        Err(FolderFault::Missing | FolderFault::TooLarge) => unreachable!(),
    }
}
