//! The terminals of a text, and the two limits on tokens.

ghost use Rattle.std.specs.Prelude.{◌≡◌, ◌+◌, ◌-◌, ◌*◌, ◌^◌, ◌<◌, ◌≤◌, [], All, IfErr, IfOk, IsTrue, MatchResult, None, OnOk, Some, SomeIff, if◌then◌else◌, length, map};
ghost use Rattle.std.specs.Char.{is_ascii_digit, to_ascii_uppercase};
ghost use Rattle.std.specs.List.{list_all};
ghost use Rattle.bw_lex.specs.Spellings.{IsSpelled, IsWord};
ghost use Rattle.bw_sql.specs.Names.{keyword_of};
ghost use Rattle.bw_sql.specs.Statements.{AreTerminals, IsTerminalsFault};
ghost use Rattle.bw_sql.specs.Terminals.{depth_fault, is_close, is_minus, is_open, number_fault, number_value, terminal_of, word_or_name};

use crate::keyword::reserved_word;
use crate::terminal::{NameWord, Terminal, TextToken};
use bw_lex::{Piece, SqlFault, Symbol, TokenKind, first_piece};
use std::alloc::Global;

// How many `(` and `)` were seen, and whether a `-` came last.
#[derive(Clone, Copy)]
struct Limits {
    opened: usize,
    closed: usize,
    after_minus: bool,
}

impl Limits {
    fn largest_number(&self) -> u64
        ensures { result ≡ (if self.now.after_minus then 2 ^ 63 else 2 ^ 63 - 1) }
    {
        if self.after_minus {
            1 << 63
        } else {
            (1 << 63) - 1
        }
    }

    // Records the next terminal, unless it is a `(` nested too deeply.
    fn admit(&mut self, terminal: &Terminal) -> Result<(), SqlFault>
        requires opened { self.old.opened < 2 ^ 63 }
        requires closed { self.old.closed < 2 ^ 63 }
        ensures depth { MatchResult result
            (λ _. depth_fault self.old.opened self.old.closed terminal.now ≡ None)
            (λ fault. (fault ≡ SqlFault.TooDeep) × (depth_fault self.old.opened self.old.closed terminal.now ≡ Some SqlFault.TooDeep)) }
        ensures opened { OnOk result (self.new.opened ≡ self.old.opened + (if is_open terminal.now then 1 else 0)) }
        ensures closed { OnOk result (self.new.closed ≡ self.old.closed + (if is_close terminal.now then 1 else 0)) }
        ensures minus { OnOk result (self.new.after_minus ≡ is_minus terminal.now) }
    {
        self.after_minus = false;
        match terminal {
            Terminal::Symbol(Symbol::Open) => {
                if self.opened >= self.closed + 64 {
                    return Err(SqlFault::TooDeep);
                }
                self.opened += 1;
            }
            Terminal::Symbol(Symbol::Close) => self.closed += 1,
            Terminal::Symbol(Symbol::Minus) => self.after_minus = true,
            _ => {}
        }
        Ok(())
    }
}

// The greatest number of digits that fit 64 bits whatever they are.
const FEW_DIGITS: usize = 19;

// The number that a few digits spell.
fn short_number(digits: &[u8]) -> u64
    requires digits { IsTrue (list_all is_ascii_digit digits.now) }
    requires few { length digits.now ≤ 19 }
    ensures { result ≡ number_value digits.now }
{
    let mut n: u64 = 0;
    for digit in digits {
        n = n * 10 + u64::from(*digit - b'0');
    }
    n
}

// The number with one more digit appended, if it fits 64 bits.
fn with_digit(n: u64, digit: u8) -> Option<u64>
    requires { IsTrue (is_ascii_digit digit) }
    ensures { SomeIff result (10 * n + (digit - 48) < 2 ^ 64) (10 * n + (digit - 48)) }
{
    match n.checked_mul(10) {
        Some(tens) => tens.checked_add(u64::from(digit - b'0')),
        None => None,
    }
}

// The number that many digits spell, if it fits 64 bits. There may be leading zeros.
fn long_number(digits: &[u8]) -> Option<u64>
    requires { IsTrue (list_all is_ascii_digit digits.now) }
    ensures { SomeIff result (number_value digits.now < 2 ^ 64) (number_value digits.now) }
{
    let mut rest = digits;
    let mut n: u64 = 0;
    while let [digit, after @ ..] = rest {
        match with_digit(n, *digit) {
            Some(more) => n = more,
            None => return None,
        }
        rest = after;
    }
    Some(n)
}

// The number that digits spell, if it fits 64 bits.
fn number(digits: &[u8]) -> Option<u64>
    requires { IsTrue (list_all is_ascii_digit digits.now) }
    ensures { SomeIff result (number_value digits.now < 2 ^ 64) (number_value digits.now) }
{
    if digits.len() <= FEW_DIGITS {
        Some(short_number(digits))
    } else {
        long_number(digits)
    }
}

fn word<'a>(bytes: &'a [u8]) -> Terminal<'a>
    requires word { IsWord bytes.now }
    requires short { length bytes.now ≤ 128 }
    ensures { result ≡ word_or_name (keyword_of (map to_ascii_uppercase bytes.entry.now)) (map to_ascii_uppercase bytes.entry.now) }
{
    match reserved_word(bytes) {
        Some(keyword) => Terminal::Keyword(keyword),
        None => Terminal::Name(NameWord::new(bytes)),
    }
}

// The terminal for the bytes of a token, unless they are a number above the largest allowed.
fn terminal<'a>(kind: TokenKind, bytes: &'a [u8], largest: u64) -> Result<Terminal<'a>, SqlFault>
    requires spelled { IsSpelled kind bytes.now }
    requires bound { largest < 2 ^ 64 }
    ensures { MatchResult result
        (λ terminal. (terminal ≡ terminal_of kind bytes.entry.now) × (number_fault largest terminal ≡ None))
        (λ fault. (fault ≡ SqlFault.BigNumber) × (number_fault largest (terminal_of kind bytes.entry.now) ≡ Some SqlFault.BigNumber)) }
{
    match kind {
        TokenKind::Word => Ok(word(bytes)),
        TokenKind::Number => match number(bytes) {
            Some(n) if n <= largest => Ok(Terminal::Number(n)),
            _ => Err(SqlFault::BigNumber),
        },
        TokenKind::Text => Ok(Terminal::Text(TextToken::new(bytes))),
        TokenKind::Symbol(symbol) => Ok(Terminal::Symbol(symbol)),
    }
}

/// The terminals of a text, or the fault of its first token that is bad or over a limit.
pub(crate) fn terminals<'a>(alloc: Global, text: &'a [u8]) -> Result<Vec<Terminal<'a>>, SqlFault>
    requires { length text.now < 2 ^ 63 }
    ensures found { IfOk result (λ terminals. AreTerminals text.entry.now terminals.items) }
    ensures fault { IfErr result (λ fault. IsTerminalsFault fault text.entry.now) }
{
    let mut terminals = Vec::with_capacity(alloc, text.len() / 2)?;
    let mut limits = Limits {
        opened: 0,
        closed: 0,
        after_minus: false,
    };
    let mut at = 0;
    while at < text.len() {
        match first_piece(alloc, &text[at..])? {
            Piece::Separator(n) => at += n,
            Piece::Token(kind, n) => {
                let next = terminal(kind, &text[at..at + n], limits.largest_number())?;
                limits.admit(&next)?;
                terminals.push(next)?;
                at += n;
            }
            Piece::Bad => return Err(SqlFault::Syntax),
        }
    }
    Ok(terminals)
}
