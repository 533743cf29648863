//! Scripts in pieces: which parts are complete, however they are split, and parts of the greatest length.

ghost use Rattle.std.specs.Prelude.{length, ◌≡◌, ◌≤◌};
ghost use Rattle.bw_split.specs.declared.progress.Stage.TheVariants as stage;

use crate::seen::{see, see_at};
use bw_lex::{SqlFault, parts};
use bw_split::{LONGEST_PART, Splitter};
use std::fmt::Debug;
use std::process::Abort;

// Scripts, and their parts by the definition: each with a `;` after it if a cut closes it, else with a `|`.
const SCRIPTS: [(&[u8], &[u8]); 8] = [
    (b"", b""),
    (b" ;\t;; -- nothing; here", b""),
    (b"-", b"-|"),
    (b"--", b""),
    (b" -; --;", b" -;"),
    (b"'", b"'|"),
    (
        b"SELECT 'not closed;; -- it",
        b"SELECT 'not closed;; -- it|",
    ),
    (
        b"CREATE TABLE t (a INT); -- one; 'two\n;; SELECT 'x;y--'; 'it''s; one' - -- three;\n-5;--;\n ; -;SELECT a -- the; end",
        b"CREATE TABLE t (a INT); SELECT 'x;y--'; 'it''s; one' - -- three;\n-5; -;SELECT a -- the; end|",
    ),
];

fn add<R: Abort + AllocGlobal>(
    rt: &R,
    given: &mut Vec<u8>,
    text: Result<&[u8], SqlFault>,
    mark: u8,
) {
    match text {
        Ok(text) => given.extend_from_slice(text).expect(rt, "memory"),
        Err(_) => given.extend_from_slice(b"too long").expect(rt, "memory"),
    }
    given.push(mark).expect(rt, "memory");
}

// Feeds the bytes, and appends each complete part.
fn feed_all<R: Abort + AllocGlobal>(
    rt: &R,
    splitter: &mut Splitter,
    bytes: &[u8],
    given: &mut Vec<u8>,
)
    requires { splitter.old.stage ≡ stage.Begun }
    ensures { splitter.new.stage ≡ stage.Begun }
{
    let mut rest = bytes;
    loop {
        let Some(taken) = splitter.feed(rest) else {
            return;
        };
        add(rt, given, splitter.text(), b';');
        splitter.clear();
        rest = &rest[taken..];
    }
}

fn feed_singly<R: Abort + AllocGlobal>(
    rt: &R,
    splitter: &mut Splitter,
    bytes: &[u8],
    given: &mut Vec<u8>,
)
    requires { splitter.old.stage ≡ stage.Begun }
    ensures { splitter.new.stage ≡ stage.Begun }
{
    let mut at = 0;
    while at < bytes.len() {
        feed_all(rt, splitter, &bytes[at..at + 1], given);
        at += 1;
    }
}

fn finish<R: Abort + AllocGlobal>(rt: &R, splitter: &mut Splitter, given: &mut Vec<u8>)
    requires { splitter.old.stage ≡ stage.Begun }
{
    if splitter.finish() {
        add(rt, given, splitter.text(), b'|');
    }
}

fn given_in_two<R: Abort + AllocGlobal>(rt: &R, script: &[u8], at: usize) -> Vec<u8>
    requires { at ≤ length script.now }
{
    let mut splitter = Splitter::new(rt.alloc()).expect(rt, "memory");
    let mut given = Vec::new(rt.alloc());
    feed_all(rt, &mut splitter, &script[..at], &mut given);
    feed_all(rt, &mut splitter, &script[at..], &mut given);
    finish(rt, &mut splitter, &mut given);
    given
}

fn given_singly<R: Abort + AllocGlobal>(rt: &R, script: &[u8]) -> Vec<u8> {
    let mut splitter = Splitter::new(rt.alloc()).expect(rt, "memory");
    let mut given = Vec::new(rt.alloc());
    feed_singly(rt, &mut splitter, script, &mut given);
    finish(rt, &mut splitter, &mut given);
    given
}

// The parts of the whole script at once.
fn given_by_parts<R: Abort + AllocGlobal>(rt: &R, script: &[u8]) -> Vec<u8> {
    let mut given = Vec::new(rt.alloc());
    let parts = parts(rt.alloc(), script).expect(rt, "memory");
    for part in &parts {
        let text = script
            .get(part.span.start..part.span.end)
            .expect(rt, "a part of the script");
        add(
            rt,
            &mut given,
            Ok(text),
            if part.is_closed { b';' } else { b'|' },
        );
    }
    given
}

// Checks that these are the parts of a script, split in this way.
fn see_given<C: Debug + Copy, R: Abort>(rt: &R, cut: C, given: Vec<u8>, want: &[u8]) {
    see_at(rt, cut, given.as_slice() == want, true);
}

fn check_script<R: Abort + AllocGlobal>(rt: &R, script: &[u8], want: &[u8]) {
    see_given(rt, "nowhere", given_by_parts(rt, script), want);
    see_given(rt, "everywhere", given_singly(rt, script), want);
    for at in 0..script.len() + 1 {
        see_given(rt, at, given_in_two(rt, script, at), want);
    }
}

#[test]
fn however_it_is_cut(rt: HostRuntime) {
    for (script, want) in &SCRIPTS {
        check_script(&rt, script, want);
    }
}

// Feeds a piece in which no part ends.
fn goes_on<R: Abort>(rt: &R, splitter: &mut Splitter, piece: &[u8])
    requires { splitter.old.stage ≡ stage.Begun }
    ensures { splitter.new.stage ≡ stage.Begun }
{
    if splitter.feed(piece).is_some() {
        panic!(rt; "a part stands");
    }
}

// Feeds a piece of which this many bytes are taken, and after which this part is complete.
fn stands<R: Abort>(rt: &R, splitter: &mut Splitter, piece: &[u8], want: usize, text: &[u8])
    requires { splitter.old.stage ≡ stage.Begun }
{
    let Some(taken) = splitter.feed(piece) else {
        panic!(rt; "no part stands");
    };
    see(rt, taken, want);
    see(rt, splitter.text().expect(rt, "a short part"), text);
    splitter.clear();
}

#[test]
fn two_dashes_in_two_pieces(rt: HostRuntime) {
    let mut splitter = Splitter::new(rt.alloc()).expect(&rt, "memory");
    goes_on(&rt, &mut splitter, b"-");
    stands(&rt, &mut splitter, b"-;\n;TABLES;", 11, b"TABLES");
}

// `TABLES` and blanks, this many bytes in all, and a cut.
fn long_part<R: Abort + AllocGlobal>(rt: &R, len: usize) -> Vec<u8> {
    let mut script = Vec::from_slice(rt.alloc(), b"TABLES").expect(rt, "memory");
    script.resize(len, b' ').expect(rt, "memory");
    script.push(b';').expect(rt, "memory");
    script
}

#[test]
fn parts_as_long_as_may_be(rt: HostRuntime) {
    let longest = long_part(&rt, LONGEST_PART);
    let given = given_singly(&rt, &longest);
    see_given(&rt, LONGEST_PART, given, &longest);
    let longer = LONGEST_PART + 1;
    let given = given_singly(&rt, &long_part(&rt, longer));
    see_given(&rt, longer, given, b"too long;");
}
