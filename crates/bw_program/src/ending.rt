//! How the program ends: its exit status, and the line that it writes to standard error.

ghost use Rattle.std.specs.Prelude.{◌≡◌, ◌++◌, ◌∷◌, [], option_map};
ghost use Rattle.std.specs.Process.{exit_status};
ghost use Rattle.bw_program.specs.Endings.{line_of, said_by, status_of};
ghost use Rattle.bw_shell.specs.Writing.{AppendsPrefix, Wrote};

use crate::request::WordsFault;
use bw_shell::{RunEnd, WriteFault, put};
use std::io::Write;
use std::process::ExitCode;

/// How the program ends.
#[derive(Clone, Copy, Debug, PartialEq, Eq)]
pub enum Ending {
    /// The script was run, with this end.
    Ran(RunEnd),
    /// The script couldn't be opened.
    NotOpened,
    /// The command line gave no request.
    NotAsked(WordsFault),
}

impl Ending {
    /// The exit status of the program.
    pub fn status(self) -> u8
        ensures { result ≡ status_of self }
    {
        match self {
            Ending::Ran(RunEnd::Done) => 0,
            Ending::Ran(RunEnd::Stopped) => 1,
            Ending::Ran(RunEnd::ReadFault | RunEnd::WriteFault | RunEnd::Memory)
            | Ending::NotOpened
            | Ending::NotAsked(WordsFault::Memory) => 2,
            Ending::NotAsked(WordsFault::Usage) => 64,
        }
    }

    /// The line that the program writes to standard error, without the newline.
    pub fn line(self) -> Option<&'static str>
        ensures { option_map (λ line. line.now) result ≡ line_of self }
    {
        match self {
            Ending::Ran(RunEnd::Done | RunEnd::Stopped) => None,
            Ending::Ran(RunEnd::ReadFault) => Some("bitcol: reading failed"),
            Ending::Ran(RunEnd::WriteFault) => Some("bitcol: writing failed"),
            Ending::Ran(RunEnd::Memory) | Ending::NotAsked(WordsFault::Memory) => {
                Some("bitcol: out of memory")
            }
            Ending::NotOpened => Some("bitcol: cannot open the script"),
            Ending::NotAsked(WordsFault::Usage) => Some("usage: bitcol [--stop] [SCRIPT]"),
        }
    }
}

/// Writes the line of this ending to standard error, and returns the exit status. If writing fails, a prefix of the
/// line is written.
pub fn end_with<W: Write>(errors: &mut W, ending: Ending) -> ExitCode
    ensures status { exit_status result ≡ status_of ending }
    ensures said { AppendsPrefix (W.contents errors.old) (W.contents errors.new) (said_by ending) }
{
    if let Some(line) = ending.line() {
        let _ = say(errors, line);
    }
    ExitCode::from(ending.status())
}

fn say<W: Write>(errors: &mut W, line: &str) -> Result<(), WriteFault>
    ensures { Wrote (W.contents errors.old) (W.contents errors.new) (line.now ++ 10 ∷ []) result }
{
    put(errors, line.as_bytes())?;
    put(errors, b"\n")
}
