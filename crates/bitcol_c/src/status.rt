//! The status numbers that are returned to C.

ghost use Rattle.std.specs.Prelude.{◌≡◌};
ghost use Rattle.bitcol_c.specs.Statuses.{number_of, on_error};

use bw_shell::{OnError, RunEnd};

/// The call succeeded.
pub(crate) const DONE: u32 = 0;
/// A name isn't valid UTF-8.
pub(crate) const NO_NAME: u32 = 10;
/// There is no such file.
pub(crate) const NO_FILE: u32 = 40;
/// The buffer for a file is too small.
pub(crate) const NO_ROOM: u32 = 46;
/// Out of memory.
pub(crate) const NO_MEMORY: u32 = 90;

/// The status number of a script's end.
pub(crate) fn number_of(end: RunEnd) -> u32
    ensures { result ≡ number_of end }
{
    match end {
        RunEnd::Done => 0,
        RunEnd::Stopped => 1,
        RunEnd::ReadFault => 2,
        RunEnd::WriteFault => 3,
        RunEnd::Memory => 4,
    }
}

/// What follows an error reply: every number but 0 stops there.
pub(crate) fn on_error(stops: u32) -> OnError
    ensures { result ≡ on_error stops }
{
    if stops == 0 {
        OnError::Continue
    } else {
        OnError::Stop
    }
}
