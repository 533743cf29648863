//! `bw_bench [ROUNDS [VALUES]]` reads a script from standard input and times how fast its parts are found, and their
//! tokens and statements are read, compared with a plain pass over the same bytes. It also times how fast VALUES values
//! are fitted, encoded and scanned, compared with plain passes over the same values, and how fast codes of each width
//! are stored, read and scanned in each layout. The figures go to standard error; standard output has what was read.
//! `bench/parsing.py`, `bench/codes.py` and `bench/layouts.py` run it.
#![tactic(auto)]

mod codes;
mod layouts;

use crate::codes::time_codes;
use crate::layouts::time_layouts;
use bw_sql::{Part, parts, statement, tokens};
use std::alloc::Global;
use std::io::Read;
use std::time::{Duration, Instant};
use std::{env, io};

// The default number of values.
const VALUES: u32 = 1_000;

// The kinds of work that are timed, each over the parts of the script.
#[derive(Clone, Copy)]
enum Work {
    // Looks at each byte, one after the other.
    PlainPass,
    Tokens,
    Statements,
}

fn main(rt: HostRuntime) -> io::Result<()> {
    let alloc = rt.alloc();
    let mut script = Vec::new(alloc);
    rt.reader().read_to_end(&mut script)?;
    let Ok(parts) = parts(alloc, &script) else {
        return Ok(());
    };
    let rounds = word_or(&rt, 1, 1)?;
    let plain = timed(&rt, Work::PlainPass, &script, &parts, rounds)?;
    let lexed = timed(&rt, Work::Tokens, &script, &parts, rounds)?;
    let parsed = timed(&rt, Work::Statements, &script, &parts, rounds)?;
    report(&rt, "plain", plain)?;
    report(&rt, "tokens", lexed)?;
    report(&rt, "statement", parsed)?;
    println!(rt; "bytes {}, parts {}", script.len(), parts.len())?;
    println!(rt; "tokens {}, statements {}", lexed.found, parsed.found)?;
    let count = word_or(&rt, 2, VALUES)? as usize;
    time_codes(&rt, rounds, count)?;
    time_layouts(&rt, rounds, count)
}

// The total time of all rounds, and what one round found.
#[derive(Clone, Copy)]
struct Figure {
    time: Duration,
    found: u64,
}

// The number in this word of the command line, or else the default.
fn word_or(rt: &HostRuntime, place: usize, otherwise: u32) -> io::Result<u32> {
    let word = env::args(rt)?.nth(place);
    Ok(match word {
        Some(word) => word.parse().unwrap_or(otherwise),
        None => otherwise,
    })
}

fn timed(
    rt: &HostRuntime,
    work: Work,
    script: &[u8],
    parts: &[Part],
    rounds: u32,
) -> io::Result<Figure> {
    let start = Instant::now(rt)?;
    let mut found = 0;
    for _ in 0..rounds {
        found = one_round(rt.alloc(), work, script, parts);
    }
    Ok(Figure {
        time: start.elapsed(rt)?,
        found,
    })
}

fn one_round(alloc: Global, work: Work, script: &[u8], parts: &[Part]) -> u64 {
    let mut found: u64 = 0;
    for part in parts {
        let text = text_of(script, part);
        found = found.wrapping_add(match work {
            Work::PlainPass => plain_pass(text),
            Work::Tokens => count_tokens(alloc, text),
            Work::Statements => count_statements(alloc, text),
        });
    }
    found
}

fn text_of<'s>(script: &'s [u8], part: &Part) -> &'s [u8] {
    script.get(part.span.start..part.span.end).unwrap_or(&[])
}

fn plain_pass(text: &[u8]) -> u64 {
    let mut sum: u64 = 0;
    for byte in text {
        sum = sum.rotate_left(1) ^ u64::from(*byte);
    }
    sum
}

fn count_tokens(alloc: Global, text: &[u8]) -> u64 {
    match tokens(alloc, text) {
        Ok(tokens) => tokens.len() as u64,
        Err(_) => 0,
    }
}

fn count_statements(alloc: Global, text: &[u8]) -> u64 {
    match statement(alloc, text) {
        Ok(_) => 1,
        Err(_) => 0,
    }
}

fn report(rt: &HostRuntime, what: &str, figure: Figure) -> io::Result<()> {
    eprintln!(rt;
        "{what} {} ns, found {}",
        figure.time.as_nanos(),
        figure.found
    )
}
