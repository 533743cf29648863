//! Answers the parts of a script one after the other, while it is read.

ghost use Rattle.std.specs.Prelude.{◌≡◌, ◌≤◌, ◌<◌, ◌+◌, ◌^◌, IfOk, IfSome, List, MatchResult, [], length, ℕ};
ghost use Rattle.bw_lex.specs.declared.fault.SqlFault.TheVariants.{TooLong};
ghost use Rattle.bw_model.specs.ReplyText.{reply_text};
ghost use Rattle.bw_shell.specs.Sessions.{AnswersPart, AnswersPiece, AnswersRest};
ghost use Rattle.bw_shell.specs.Run.{MayAnswer, stops};
ghost use Rattle.bw_shell.specs.States.{seen, with_tables};
ghost use Rattle.bw_shell.specs.Writing.{Wrote};
ghost use Rattle.bw_split.specs.Prefixes.{longest_part};
ghost use Rattle.bw_split.specs.Splitters.{Begun, Stands};
ghost use Rattle.bw_split.specs.declared.progress.Stage.TheVariants as stage;

use crate::executing::execute;
use crate::folders::Folder;
use crate::reply_text::write_reply;
use crate::running::{OnError, RunEnd};
use crate::writing::WriteFault;
use bw_engine::{Engine, Refusal, Reply};
use bw_split::Splitter;
use bw_sql::{SqlFault, statement};
use std::alloc::{AllocError, Global};
use std::io::Write;

/// A store, and the part of a script that has begun.
#[derive(Drop)]
pub(crate) struct Session {
    alloc: Global,
    on_error: OnError,
    splitter: Splitter,
    engine: Engine,
}

impl Session {
    /// A store without tables, before the first byte of a script.
    pub(crate) fn new(alloc: Global, on_error: OnError) -> Result<Session, AllocError>
        ensures begun { IfOk result (λ a. Begun a.splitter []) }
        ensures store { IfOk result (λ a. a.engine ≡ []) }
        ensures on_error { IfOk result (λ a. a.on_error ≡ on_error) }
    {
        let splitter = Splitter::new(alloc)?;
        let engine = Engine::new(alloc)?;
        Ok(Session {
            alloc,
            on_error,
            splitter,
            engine,
        })
    }

    /// Answers the parts that this piece of the script closes. Returns `None` if the run goes on.
    pub(crate) fn answer_piece<W: Write, F: Folder>(
        &mut self,
        writer: &mut W,
        folder: &mut F,
        piece: &[u8],
    ) -> Option<RunEnd>
        requires begun { self.old.splitter.stage ≡ stage.Begun }
        requires failures { F.failure_count folder.old + length piece.now < 2 ^ 63 }
        ensures answers { (part : List ℕ) → Begun self.old.splitter part
            → AnswersPiece self.old.on_error part piece.now (with_tables self.old.engine (seen (F.files folder.old) (F.failure_count folder.old))) (W.contents writer.old) (W.contents writer.new) result self.new.splitter
            (with_tables self.new.engine (seen (F.files folder.new) (F.failure_count folder.new))) }
        ensures failures { F.failure_count folder.new ≤ F.failure_count folder.old + length piece.now }
        ensures on_error { self.new.on_error ≡ self.old.on_error }
        ensures begun { IfSome result (λ _. Begun self.new.splitter []) }
    {
        let mut rest = piece;
        while let Some(taken) = self.splitter.feed(rest) {
            if let Some(end) = self.answer_part(writer, folder, true) {
                return Some(end);
            }
            rest = &rest[taken..];
        }
        None
    }

    /// Answers the rest after the last cut of a script that ends here.
    pub(crate) fn answer_rest<W: Write, F: Folder>(
        &mut self,
        writer: &mut W,
        folder: &mut F,
    ) -> RunEnd
        requires begun { self.old.splitter.stage ≡ stage.Begun }
        requires failures { F.failure_count folder.old < 2 ^ 63 }
        ensures answers { (part : List ℕ) → Begun self.old.splitter part
            → AnswersRest self.old.on_error part (with_tables self.old.engine (seen (F.files folder.old) (F.failure_count folder.old))) (W.contents writer.old) (W.contents writer.new) result
            (with_tables self.new.engine (seen (F.files folder.new) (F.failure_count folder.new))) }
        ensures begun { Begun self.new.splitter [] }
        ensures on_error { self.new.on_error ≡ self.old.on_error }
    {
        if !self.splitter.finish() {
            self.splitter.clear();
            return RunEnd::Done;
        }
        match self.answer_part(writer, folder, false) {
            Some(end) => end,
            None => RunEnd::Done,
        }
    }

    /// Answers the current part, and begins the next one. Returns `None` if the run goes on.
    fn answer_part<W: Write, F: Folder>(
        &mut self,
        writer: &mut W,
        folder: &mut F,
        is_closed: bool,
    ) -> Option<RunEnd>
        requires stands { self.old.splitter.stage ≡ stage.Standing }
        requires failures { F.failure_count folder.old < 2 ^ 63 }
        ensures answers { (part : List ℕ) → Stands self.old.splitter part
            → AnswersPart self.old.on_error is_closed part (with_tables self.old.engine (seen (F.files folder.old) (F.failure_count folder.old))) (W.contents writer.old) (W.contents writer.new) result
            (with_tables self.new.engine (seen (F.files folder.new) (F.failure_count folder.new))) }
        ensures begun { Begun self.new.splitter [] }
        ensures failures { F.failure_count folder.new ≤ F.failure_count folder.old + 1 }
        ensures on_error { self.new.on_error ≡ self.old.on_error }
    {
        let text = self.splitter.text();
        let reply = reply_to(self.alloc, &mut self.engine, folder, text, is_closed);
        self.splitter.clear();
        if let Err(WriteFault) = hand_over(writer, &reply) {
            return Some(RunEnd::WriteFault);
        }
        if stops(self.on_error, &reply) {
            return Some(RunEnd::Stopped);
        }
        None
    }
}

// Whether the run stops after this reply.
fn stops(on_error: OnError, reply: &Reply) -> bool
    ensures { result ≡ stops on_error reply.now }
{
    match on_error {
        OnError::Stop => matches!(reply, Reply::Refused(_)),
        OnError::Continue => false,
    }
}

// The reply to a part of a script.
fn reply_to<F: Folder>(
    alloc: Global,
    engine: &mut Engine,
    folder: &mut F,
    text: Result<&[u8], SqlFault>,
    is_closed: bool,
) -> Reply
    requires { F.failure_count folder.old < 2 ^ 63 }
    ensures answers { (part : List ℕ) → MatchResult text.entry (λ text. (length part ≤ longest_part) × (text.now ≡ part)) (λ fault. (longest_part < length part) × (fault ≡ TooLong))
        → MayAnswer (with_tables engine.old (seen (F.files folder.old) (F.failure_count folder.old))) is_closed part result (with_tables engine.new (seen (F.files folder.new) (F.failure_count folder.new))) }
    ensures failures { F.failure_count folder.new ≤ F.failure_count folder.old + 1 }
{
    let Ok(text) = text else {
        return Reply::Refused(Refusal::StatementTooLong);
    };
    if !is_closed {
        return Reply::Refused(Refusal::Syntax);
    }
    match statement(alloc, text) {
        Ok(statement) => execute(engine, folder, statement),
        Err(fault) => Reply::Refused(Refusal::from(fault)),
    }
}

// Writes a reply and flushes the writer. No clause mentions the flush, since the trait only ensures that it keeps the
// bytes.
fn hand_over<W: Write>(writer: &mut W, reply: &Reply) -> Result<(), WriteFault>
    ensures { Wrote (W.contents writer.old) (W.contents writer.new) (reply_text reply.now) result }
{
    write_reply(writer, reply)?;
    writer.flush().map_err(|_| WriteFault)
}
