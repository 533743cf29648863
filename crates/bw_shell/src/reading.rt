//! Reads a script piece by piece.

ghost use Rattle.std.specs.Prelude.{◌<◌, length};
ghost use Rattle.bw_shell.specs.Script.{GivesNext};

use std::io::Read;

/// The largest script, 2^30 bytes. A longer one is cut here, and its reading counts as failed.
pub(crate) const LONGEST_SCRIPT: usize = 1 << 30;

/// How the reading of a script ended.
#[derive(Clone, Copy, Debug, PartialEq, Eq)]
pub enum ScriptEnd {
    /// At its last byte.
    Reached,
    /// At an error of the reader, or past the longest script.
    Fault,
}

/// The next piece of a script.
#[derive(Clone, Copy, Debug, PartialEq, Eq)]
pub(crate) enum Next {
    /// This many bytes, at the start of the buffer.
    Piece(usize),
    End(ScriptEnd),
}

/// Reads once into a buffer, at most `left` bytes. If `left` is 0, one byte is still read, as it shows whether the
/// script ends there.
pub(crate) fn read_piece<R: Read>(reader: &mut R, buffer: &mut [u8], left: usize) -> Next
    requires room { 0 < length buffer.old }
    ensures { GivesNext (R.remaining reader.old) (R.remaining reader.new) left buffer.new result }
{
    let asked = buffer.len().min(left.max(1));
    match reader.read(&mut buffer[..asked]) {
        Ok(0) => Next::End(ScriptEnd::Reached),
        Ok(n) if n <= left => Next::Piece(n),
        Ok(_) | Err(_) => Next::End(ScriptEnd::Fault),
    }
}
