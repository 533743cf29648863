//! The parts of a script.

ghost use Rattle.std.specs.Prelude.{◌≡◌, ◌==◌, ◌^◌, ◌<◌, ◌++◌, ◌∷◌, [], ℕ, All, IfOk, List, drop, if◌then◌else◌, length, not};
ghost use Rattle.std.specs.List.{list_all, prefix_len};
ghost use Rattle.bw_lex.specs.Fronts.{EndsRun, IsFront, first_front, is_plain, plain_front, plain_len, says_len, text_len};
ghost use Rattle.bw_lex.specs.Parts.{AreParts, IsJoined, IsPartOf};
ghost use Rattle.bw_lex.specs.Spellings.{begins_with, is_blank};
ghost use Rattle.bw_lex.specs.declared.script.Part.{Part};

use crate::lanes::plain_len;
use crate::piece::{comment_len, is_blank};
use crate::token::Span;
use std::alloc::{AllocError, Global};

/// A part of a script: what is between two `;` outside texts and comments, or after the last.
#[derive(Clone, Copy, Debug, PartialEq, Eq)]
pub struct Part {
    /// The whole part, including blanks and comments, without the `;`.
    pub span: Span,
    /// Whether a `;` closes it.
    pub is_closed: bool,
}

// A prefix of a script: its number of bytes, and whether it is nothing but blanks and comments.
#[derive(Clone, Copy)]
pub(crate) struct Front {
    pub(crate) len: usize,
    pub(crate) is_blank: bool,
}

fn says_len(after: &[u8]) -> usize
    ensures { result ≡ says_len after.now }
{
    after.iter().take_while(|b| **b != b'\'').count()
}

// After a quote: the text's length with its quotes, up to the next quote or the end.
fn text_len(after: &[u8]) -> usize
    requires { length after.now < 2 ^ 63 }
    ensures { result ≡ text_len after.now }
{
    let says = says_len(after);
    if says < after.len() {
        says + 2
    } else {
        says + 1
    }
}

fn are_blank(bytes: &[u8]) -> bool
    ensures { result ≡ list_all is_blank bytes.now }
{
    bytes.iter().all(|b| is_blank(*b))
}

fn plain_front(bytes: &[u8]) -> Front
    ensures { result ≡ plain_front bytes.now }
{
    let len = plain_len(bytes);
    let is_blank = are_blank(&bytes[..len]);
    Front { len, is_blank }
}

// A comment, a text, or other bytes. `None` at a cut or at the end.
fn first_front(script: &[u8]) -> Option<Front>
    requires { length script.now < 2 ^ 63 }
    ensures { result ≡ first_front script.now }
{
    match script {
        [] => None,
        [b';', ..] => None,
        [b'\'', after @ ..] => Some(Front {
            len: text_len(after),
            is_blank: false,
        }),
        [b'-', b'-', ..] => Some(Front {
            len: comment_len(script),
            is_blank: true,
        }),
        [b'-', ..] => Some(Front {
            len: 1,
            is_blank: false,
        }),
        _ => Some(plain_front(script)),
    }
}

// What precedes the first cut.
fn first_run(script: &[u8]) -> Front
    requires { length script.now < 2 ^ 63 }
    ensures front { IsFront script.now result }
    ensures ends { EndsRun (drop result.len script.now) }
{
    let mut len = 0;
    let mut is_blank = true;
    loop {
        match first_front(&script[len..]) {
            None => return Front { len, is_blank },
            Some(front) => {
                len += front.len;
                is_blank = is_blank && front.is_blank;
            }
        }
    }
}

fn add_unless_blank(parts: &mut Vec<Part>, is_blank: bool, part: Part) -> Result<(), AllocError>
    ensures { IfOk result (λ _. parts.new.items ≡ parts.old.items ++ (if is_blank then [] else part ∷ [])) }
{
    if !is_blank {
        parts.push(part)?;
    }
    Ok(())
}

/// The parts of a script in order: the runs between its cuts that aren't blank, and the rest after the last cut if it
/// isn't blank. A cut is a `;` outside texts and comments.
pub fn parts(alloc: Global, script: &[u8]) -> Result<Vec<Part>, AllocError>
    requires { length script.now < 2 ^ 63 }
    ensures parts { IfOk result (λ parts. AreParts script.now parts.items) }
    ensures each { IfOk result (λ parts. All (IsPartOf script.now) parts.items) }
{
    let mut parts = Vec::new(alloc);
    let mut start = 0;
    loop {
        let run = first_run(&script[start..]);
        let end = start + run.len;
        let is_closed = end < script.len();
        let span = Span { start, end };
        add_unless_blank(&mut parts, run.is_blank, Part { span, is_closed })?;
        if !is_closed {
            return Ok(parts);
        }
        start = end + 1;
    }
}

/// A script has only one list of parts, and it is the runs that they come from with the cuts between them.
pub fn one_splitting()
    ensures whole { (script : List ℕ) (parts : List Part) → AreParts script parts → IsJoined 0 script parts }
    ensures same { (script : List ℕ) (a b : List Part) → AreParts script a → AreParts script b → a ≡ b }
{}
