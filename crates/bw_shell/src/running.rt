//! Runs a script, from its bytes to the bytes of its replies.

ghost use Rattle.std.specs.Prelude.{◌≡◌, ◌≤◌, ◌<◌, ◌^◌, [], IfOk, length};
ghost use Rattle.bw_shell.specs.Run.{IsRun, RunsTo};
ghost use Rattle.bw_shell.specs.States.{seen};
ghost use Rattle.bw_split.specs.Splitters.{Begun};

use crate::folders::Folder;
use crate::reading::{LONGEST_SCRIPT, Next, ScriptEnd, read_piece};
use crate::session::Session;
use std::alloc::{AllocError, Global};
use std::io::{Read, Write};

// The number of bytes that are read at a time.
const PIECE: usize = 65_536;

/// What follows an error reply.
#[derive(Clone, Copy, Debug, PartialEq, Eq)]
pub enum OnError {
    Continue,
    Stop,
}

/// How a run ends.
#[derive(Clone, Copy, Debug, PartialEq, Eq)]
pub enum RunEnd {
    /// Each part of the script was answered.
    Done,
    /// A reply was an error, and the run stops at errors.
    Stopped,
    /// The reader failed, or the script is longer than 2^30 bytes. The parts before that point that a `;` closes were
    /// answered.
    ReadFault,
    /// A write failed or took no byte, or a flush failed. What was written is whole replies and a prefix of
    /// the next.
    WriteFault,
    /// There is no memory for the buffers or the engine. Nothing was read, executed or written.
    Memory,
}

/// Answers each part of a script in order over a store without tables, and writes the replies. Files are read from the
/// folder and written to it. Each reply is written before the next piece of the script is read, and the memory for the
/// script's text doesn't grow with its length.
pub fn run<R: Read, W: Write, F: Folder>(
    alloc: Global,
    reader: &mut R,
    writer: &mut W,
    folder: &mut F,
    on_error: OnError,
) -> RunEnd
    requires { F.failure_count folder.old ≤ 2 ^ 62 }
    ensures { RunsTo on_error (R.remaining reader.old) (R.remaining reader.new) (W.contents writer.old) (W.contents writer.new) (seen (F.files folder.old) (F.failure_count folder.old)) (seen (F.files folder.new) (F.failure_count folder.new)) result }
{
    let Ok(mut buffer) = new_buffer(alloc) else {
        return RunEnd::Memory;
    };
    let Ok(mut session) = Session::new(alloc, on_error) else {
        return RunEnd::Memory;
    };
    answer_script(&mut session, reader, &mut buffer, writer, folder)
}

fn new_buffer(alloc: Global) -> Result<Vec<u8>, AllocError>
    ensures { IfOk result (λ buffer. 0 < length buffer.items) }
{
    vec![in alloc; 0u8; PIECE]
}

// Reads a script into the buffer, piece by piece, and answers each.
fn answer_script<R: Read, W: Write, F: Folder>(
    session: &mut Session,
    reader: &mut R,
    buffer: &mut [u8],
    writer: &mut W,
    folder: &mut F,
) -> RunEnd
    requires begun { Begun session.old.splitter [] }
    requires fresh { session.old.engine ≡ [] }
    requires room { 0 < length buffer.old }
    requires failures { F.failure_count folder.old ≤ 2 ^ 62 }
    ensures { IsRun session.old.on_error (R.remaining reader.old) (R.remaining reader.new) (W.contents writer.old) (W.contents writer.new) (seen (F.files folder.old) (F.failure_count folder.old)) (seen (F.files folder.new) (F.failure_count folder.new)) result }
{
    let mut left = LONGEST_SCRIPT;
    loop {
        match read_piece(reader, buffer, left) {
            Next::Piece(n) => {
                if let Some(end) = session.answer_piece(writer, folder, &buffer[..n]) {
                    return end;
                }
                left -= n;
            }
            Next::End(ScriptEnd::Reached) => return session.answer_rest(writer, folder),
            Next::End(ScriptEnd::Fault) => return RunEnd::ReadFault,
        }
    }
}
