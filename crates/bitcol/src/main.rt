//! `bitcol [--stop] [SCRIPT]` runs a script from a file, or from standard input, and writes the
//! replies to standard output. What it decides stands in `bw_program`.
#![tactic(auto)]

use bw_program::program;
use std::io;
use std::process::ExitCode;

fn main(rt: HostRuntime) -> ExitCode {
    let stderr = rt.stderr();
    let mut errors = io::writer(&stderr);
    program(
        rt.alloc(),
        &rt,
        &rt,
        &mut rt.reader(),
        io::writer(&rt),
        &mut errors,
    )
}
