//! Laws about the definitions.

ghost use Rattle.std.specs.Prelude.{◌≡◌, ◌≢◌, ◌+◌, ◌++◌, ◌<◌, ◌⊎◌, ℕ, All, Bool, IsSome, List, None, Some, [], length, map};
ghost use Rattle.std.specs.List.{flat_map};
ghost use Rattle.bw_lex.specs.Parts.{AreParts};
ghost use Rattle.bw_lex.specs.declared.script.Part.{Part as AnyPart};
ghost use Rattle.bw_engine.specs.Counting.{units_of};
ghost use Rattle.bw_sql.specs.Statements.{Says};
ghost use Rattle.bw_sql.specs.Tree.{SelectTree, StatementTree, open_table, save, select, stats};
ghost use Rattle.bw_model.specs.FileUse.{reads, use_in};
ghost use Rattle.bw_model.specs.ReplyText.{reply_text};
ghost use Rattle.bw_model.specs.Step.{outcome_of};
ghost use Rattle.bw_model.specs.Store.{Store, Table, names, table_limit, table_of};
ghost use Rattle.bw_model.specs.Told.{as_read};
ghost use Rattle.bw_model.specs.declared.content.Content.{Content as AnyContent};
ghost use Rattle.bw_model.specs.declared.refusal.Refusal.TheVariants.{UnreadableFile, UnwritableFile};
ghost use Rattle.bw_model.specs.declared.reply.Reply.{Reply as AnyReply};
ghost use Rattle.bw_model.specs.declared.reply.Reply.TheVariants.{Count, Refused, Units};
ghost use Rattle.bw_shell.specs.Answers.{Answers, CannotRead, RunsOutOfMemory};
ghost use Rattle.bw_shell.specs.Conversations.{EndsAtCut, Responds, RespondsInTurn};
ghost use Rattle.bw_shell.specs.Elsewhere.{IsNoSaveTo};
ghost use Rattle.bw_shell.specs.Opening.{Opens};
ghost use Rattle.bw_shell.specs.Output.{IsOutput};
ghost use Rattle.bw_shell.specs.Replies.{Answered, WroteReplies};
ghost use Rattle.bw_shell.specs.Run.{MayAnswer, Session};
ghost use Rattle.bw_shell.specs.States.{State, file_in, store_in};
ghost use Rattle.bw_shell.specs.declared.reading.ScriptEnd.{ScriptEnd as HowRead};
ghost use Rattle.bw_shell.specs.declared.reading.ScriptEnd.TheVariants.{Fault};
ghost use Rattle.bw_shell.specs.declared.running.OnError.{OnError as WhatThen};
ghost use Rattle.bw_shell.specs.declared.running.RunEnd.{RunEnd as HowEnded};
ghost use Rattle.bw_shell.specs.declared.running.RunEnd.TheVariants.{ReadFault};

/// A session over a script's parts writes the texts of replies, one per part in order: for all parts if it is done; for
/// all but a rest that no `;` closes if reading failed; up to the first error if it stops there; and else for some
/// parts, followed by a prefix of the next reply. It leaves the state that the last answered part left, including the
/// part whose reply was begun.
pub fn replies_are_written()
    ensures { (on_error : WhatThen) (read : HowRead) (script : List ℕ) (state : State) (parts : List AnyPart) (end : HowEnded) (bytes : List ℕ) (last : State) → AreParts script parts → Session on_error read script state parts end bytes last → WroteReplies on_error read script state parts end bytes last }
{}

/// The bytes that runs write determine their replies: if the replies to two scripts have the same text, they are the
/// same replies, except that the headings `COLUMNS` and `ROWS` of a list of tables read like columns with these names.
pub fn output_determines_replies()
    ensures { (script other : List ℕ) (parts others : List AnyPart) (a b : List AnyReply) (first second after last : State) → first.tables ≡ [] → second.tables ≡ [] → Answered script first parts a after → Answered other second others b last → flat_map reply_text a ≡ flat_map reply_text b → map as_read a ≡ map as_read b }
{}

/// A script has one output over the same files: two runs in which neither the writer nor the folder fails, and which
/// never report running out of memory, end in the same way and write the same bytes.
pub fn one_output()
    ensures { (on_error : WhatThen) (read : HowRead) (script : List ℕ) (state last left : State) (end other : HowEnded) (bytes also : List ℕ) → IsOutput on_error read script state end bytes last → IsOutput on_error read script state other also left → (end ≡ other) × (bytes ≡ also) }
{}

/// A saved table opens again with the same columns and rows. Suppose that a SAVE replied `ok n`, and that its file is
/// unchanged when an OPEN reads it, under a free name and with fewer tables than the limit. Then n is the number of the
/// saved table's rows, and the OPEN adds exactly this table after the existing ones and replies `ok n`; or memory ran
/// out, and nothing changes; or the folder failed at reading.
pub fn saved_tables_open()
    ensures { (before after later last : State) (name file other : List ℕ) (n : ℕ) (reply : AnyReply) → IsSome before.files → Answers before (save name file) (Count n) after
        → file_in later.files file ≡ file_in after.files file → table_of (store_in later) other ≡ None → length later.tables < table_limit → Answers later (open_table other file) reply last
        → (table : Table) × (table_of (store_in before) name ≡ Some table) × (n ≡ length table.rows) × (Opens later other table reply last ⊎ RunsOutOfMemory later (open_table other file) reply last ⊎ CannotRead later reply last) }
{}

/// If the folder's files are known, a statement changes no file except the one that it saves a table to.
pub fn other_files_stay()
    ensures { (before after : State) (statement : StatementTree) (reply : AnyReply) (file : List ℕ) → IsSome before.files → Answers before statement reply after → ((name : List ℕ) → statement ≡ save name file → ⊥)
        → file_in after.files file ≡ file_in before.files file }
{}

/// A table that is saved in a run opens again later in the run with the same columns and rows, whatever the parts of
/// the script between them say, unless one of them saves to the same file. Suppose that a SAVE replied `ok n`, that any
/// such parts follow, and then an OPEN of its file under a free name and with fewer tables than the limit. Then n is
/// the number of the saved table's rows, and the OPEN adds exactly this table after the existing ones and replies `ok
/// n`; or memory ran out, and nothing changes; or the folder failed at reading.
pub fn saved_tables_open_later()
    ensures { (script : List ℕ) (before after later last : State) (parts : List AnyPart) (replies : List AnyReply) (name file other : List ℕ) (n : ℕ) (reply : AnyReply)
        → IsSome before.files → Answers before (save name file) (Count n) after → Answered script after parts replies later → All (IsNoSaveTo file script) parts
        → table_of (store_in later) other ≡ None → length later.tables < table_limit → Answers later (open_table other file) reply last
        → (table : Table) × (table_of (store_in before) name ≡ Some table) × (n ≡ length table.rows) × (Opens later other table reply last ⊎ RunsOutOfMemory later (open_table other file) reply last ⊎ CannotRead later reply last) }
{}

/// A statement gets error 41, or gets error 40 though the file that it reads exists, only if the folder failed during
/// it: its count of failures rose by one. (Error 40 for a file that doesn't exist needs no failure.)
pub fn file_errors_are_failures()
    ensures written { (before after : State) (statement : StatementTree) → Answers before statement (Refused UnwritableFile) after → after.failures ≡ before.failures + 1 }
    ensures read { (before after : State) (statement : StatementTree) (file bytes : List ℕ) → use_in statement ≡ reads file → file_in before.files file ≡ Some bytes → Answers before statement (Refused UnreadableFile) after
        → after.failures ≡ before.failures + 1 }
{}

/// Layouts and kinds of encoding have no effect on the reply to a SELECT: over two tables whose columns have the same
/// names in the same order, and whose rows are the same, it has the same reply, be it an answer or a refusal.
pub fn layouts_never_show()
    ensures { (store other : Store) (said also : AnyContent) (table twin : Table) (name alias : List ℕ) (query : SelectTree)
        → table_of store name ≡ Some table → table_of other alias ≡ Some twin → names table.headers ≡ names twin.headers → table.rows ≡ twin.rows
        → (outcome_of store said (select (record { items = query.items; table = name; condition = query.condition; grouping = query.grouping }))).0 ≡ (outcome_of other also (select (record { items = query.items; table = alias; condition = query.condition; grouping = query.grouping }))).0 }
{}

/// A run that ended at an error or because its writer failed is also a run of every longer script: with more bytes
/// after those that the reader gave, it ends in the same way, writes the same bytes and leaves the same state, however
/// the rest is read.
pub fn early_ends_stay()
    ensures { (on_error : WhatThen) (read : HowRead) (end : HowEnded) (script more : List ℕ) (state last : State) (parts all : List AnyPart) (bytes : List ℕ) → AreParts script parts → AreParts (script ++ more) all → end ≢ ReadFault
        → Session on_error Fault script state parts end bytes last → Session on_error read (script ++ more) state all end bytes last }
{}

/// Running two scripts in turn is the same as running their concatenation, if the first ends after a `;` (or is empty):
/// each run of the two in turn is a run of the concatenation, and the other way round. If the run of the first ends at
/// one of its parts, the second isn't run.
pub fn scripts_join()
    ensures joined { (on_error : WhatThen) (script other : List ℕ) (state : State) (old new : List ℕ) (end : HowEnded) (last : State) → EndsAtCut script → RespondsInTurn on_error script other state old new end last → Responds on_error (script ++ other) state old new end last }
    ensures split { (on_error : WhatThen) (script other : List ℕ) (state : State) (old new : List ℕ) (end : HowEnded) (last : State) → EndsAtCut script → Responds on_error (script ++ other) state old new end last → RespondsInTurn on_error script other state old new end last }
{}

/// A STATS prints the number of units that the condition reads at the live slots of its table, as they are encoded at
/// that time, capped at the greatest 64-bit number; and it changes nothing, including slots and encodings. In every
/// run, a part of the script that is answered by such a number is a STATS, and the number is that of the tables before
/// it.
pub fn stats_count_units()
    ensures counted { (before after : State) (query : SelectTree) (n : ℕ) → Answers before (stats query) (Units n) after → (n ≡ units_of before.tables query) × (after.tables ≡ before.tables) }
    ensures each { (before after : State) (closed : Bool) (text : List ℕ) (n : ℕ) → MayAnswer before closed text (Units n) after
        → (query : SelectTree) × Says text (stats query) × (n ≡ units_of before.tables query) × (after.tables ≡ before.tables) }
{}
