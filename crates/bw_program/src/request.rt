//! Parses the words of the command line.

ghost use Rattle.std.specs.Prelude.{◌≡◌, IfOk, map};
ghost use Rattle.clap.specs.Words.{app_of, found_of, rows_of};
ghost use Rattle.bw_program.specs.Command.{command_app, fault_by, rows_ask};
ghost use Rattle.bw_program.specs.Words.{Answers, asked_by, asked_of, on_error_of};

use bw_shell::OnError;
use clap::error::ErrorKind;
use clap::{Arg, ArgAction, ArgMatches, Command};
use std::alloc::{AllocError, Global};
use std::convert::AsStr;

/// What a command line asks for.
#[derive(Clone, Copy, Debug, PartialEq, Eq)]
pub struct Request<'a> {
    /// The path of the script, or `None` for standard input.
    pub script: Option<&'a str>,
    pub on_error: OnError,
}

/// Why a command line gives no request.
#[derive(Clone, Copy, Debug, PartialEq, Eq)]
pub enum WordsFault {
    /// The words don't match the program's usage.
    Usage,
    /// Out of memory.
    Memory,
}

/// Reads `bitcol [--stop] [SCRIPT]`. The first word is the program's own name.
pub fn request_of<'a, S: AsStr>(alloc: Global, words: &'a [S]) -> Result<Request<'a>, WordsFault>
    ensures { Answers (asked_by (map S.text words.entry.now)) result }
{
    let Ok(command) = command(alloc) else {
        return Err(WordsFault::Memory);
    };
    match command.try_get_matches_from(words) {
        Ok(matches) => Ok(request_in(&matches)),
        Err(error) => Err(fault_of(error.kind())),
    }
}

fn command<'a>(alloc: Global) -> Result<Command<'a>, AllocError>
    ensures { IfOk result (λ command. app_of command ≡ command_app) }
{
    let stop = Arg::new(alloc, "stop")
        .long("stop")
        .action(ArgAction::SetTrue);
    let script = Arg::new(alloc, "script");
    Command::new(alloc, "bitcol")
        .disable_help_flag(true)
        .arg(stop)?
        .arg(script)
}

// The request in the matches of the command.
fn request_in<'a>(matches: &ArgMatches<'a>) -> Request<'a>
    ensures { (asked : _) → rows_ask (rows_of (found_of matches.now)) asked → asked_of result ≡ asked }
{
    Request {
        script: matches.get_str("script"),
        on_error: on_error(matches.get_flag("stop")),
    }
}

fn on_error(stop: bool) -> OnError
    ensures { result ≡ on_error_of stop }
{
    if stop {
        OnError::Stop
    } else {
        OnError::Continue
    }
}

// The fault for an error of `clap`: out of memory, or wrong usage.
fn fault_of(kind: ErrorKind) -> WordsFault
    ensures { result ≡ fault_by kind }
{
    match kind {
        ErrorKind::OutOfMemory => WordsFault::Memory,
        _ => WordsFault::Usage,
    }
}
