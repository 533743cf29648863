//! The program, apart from its streams and its files.

ghost use Rattle.std.specs.Prelude.{◌≡◌, List, map, option_map};
ghost use Rattle.std.specs.Process.{exit_status};
ghost use Rattle.bw_program.specs.Answers.{AnswersScript, EndsOver, Follows};
ghost use Rattle.bw_program.specs.Endings.{said_by, status_of};
ghost use Rattle.bw_program.specs.Words.{Text, asked_by};
ghost use Rattle.bw_shell.specs.Writing.{AppendsPrefix};

use crate::ending::{Ending, end_with};
use crate::request::{Request, WordsFault, request_of};
use bw_shell::{HostFolder, OnError, RunEnd, run};
use std::alloc::Global;
use std::convert::AsStr;
use std::env::Env;
use std::fs::Files;
use std::io::{BufWriter, ErrorKind, Read, Write};
use std::process::ExitCode;
use std::{env, fs};

// The number of bytes of replies that are buffered before they are written.
const OUTPUT_BUFFER: usize = 65_536;

/// Runs the program over its words, its files and its three streams.
pub fn program<E: Env, F: Files, I: Read, O: Write + Drop, W: Write>(
    alloc: Global,
    env: &E,
    files: &F,
    input: &mut I,
    output: O,
    errors: &mut W,
) -> ExitCode
    ensures { (words : List Text) × (ending : Ending) × Follows (asked_by words) (I.remaining input.old) (I.remaining input.new) ending × (exit_status result ≡ status_of ending) × AppendsPrefix (W.contents errors.old) (W.contents errors.new) (said_by ending) }
{
    let ending = answer_asked(alloc, env, files, input, output);
    end_with(errors, ending)
}

// Answers what the environment's words ask for. Words that can't be read count as refused.
fn answer_asked<E: Env, F: Files, I: Read, O: Write + Drop>(
    alloc: Global,
    env: &E,
    files: &F,
    input: &mut I,
    output: O,
) -> Ending
    ensures { (words : List Text) × Follows (asked_by words) (I.remaining input.old) (I.remaining input.new) result }
{
    match words_of(alloc, env) {
        Ok(words) => answer_words(alloc, words.as_slice(), files, input, output),
        Err(fault) => Ending::NotAsked(fault),
    }
}

fn words_of<E: Env>(alloc: Global, env: &E) -> Result<Vec<String>, WordsFault> {
    match env::args(&(env, alloc)) {
        Ok(words) => words.collect(alloc).map_err(|_| WordsFault::Memory),
        Err(error) if error.kind() == ErrorKind::OutOfMemory => Err(WordsFault::Memory),
        Err(_) => Err(WordsFault::Usage),
    }
}

// The words are parsed first, then the script is opened.
fn answer_words<S: AsStr, F: Files, I: Read, O: Write + Drop>(
    alloc: Global,
    words: &[S],
    files: &F,
    input: &mut I,
    output: O,
) -> Ending
    ensures { Follows (asked_by (map S.text words.now)) (I.remaining input.old) (I.remaining input.new) result }
{
    match request_of(alloc, words) {
        Ok(request) => answer(alloc, request, files, input, output),
        Err(fault) => Ending::NotAsked(fault),
    }
}

/// Answers the script that a request asks for: the file that it names, or `input`.
pub fn answer<F: Files, I: Read, O: Write + Drop>(
    alloc: Global,
    request: Request<'_>,
    files: &F,
    input: &mut I,
    output: O,
) -> Ending
    ensures { AnswersScript (option_map (λ path. path.now) request.entry.script) request.entry.on_error (I.remaining input.old) (I.remaining input.new) result }
{
    let Some(path) = request.script else {
        return Ending::Ran(run_script(alloc, files, input, output, request.on_error));
    };
    match fs::open(files, path) {
        Ok(mut file) => {
            Ending::Ran(run_script(alloc, files, &mut file, output, request.on_error))
        }
        Err(_) => Ending::NotOpened,
    }
}

fn run_script<F: Files, R: Read, O: Write + Drop>(
    alloc: Global,
    files: &F,
    script: &mut R,
    output: O,
    on_error: OnError,
) -> RunEnd
    ensures { EndsOver on_error (R.remaining script.old) (R.remaining script.new) result }
{
    let Ok(mut output) = BufWriter::with_capacity(alloc, OUTPUT_BUFFER, output) else {
        return RunEnd::Memory;
    };
    let mut folder = HostFolder::new(alloc, files);
    let end = run(alloc, script, &mut output, &mut folder, on_error);
    // What a failed writer left in the buffer is dropped, and not written again.
    let _ = output.into_parts();
    end
}
