//! The first piece of a text: a separator or a token, as long as possible.

ghost use Rattle.std.specs.Prelude.{◌≡◌, ◌==◌, ◌≢◌, ◌+◌, ◌^◌, ◌<◌, ◌≤◌, [], ◌∷◌, length, IfOk, IfSome, IsTrue, slice_index};
ghost use Rattle.std.specs.List.{list_any, prefix_len};
ghost use Rattle.std.specs.Char.{is_ascii_digit};
ghost use Rattle.std.specs.Str.{is_utf8};
ghost use Rattle.bw_lex.specs.Pieces.{FitsIn, comment_len, contents, first_piece, is_alone, is_comment, number_piece, pair_of, quoted_end, single_of, single_piece, symbol_piece, text_piece, word_piece};
ghost use Rattle.bw_lex.specs.Spellings.{is_blank, is_good_text, is_word_byte, word_goes_on};
ghost use Rattle.bw_lex.specs.Tokens.{BeginsWith};

use crate::lanes::digits_len;
use crate::token::{CompareOp, Symbol, TokenKind};
use std::alloc::{AllocError, Global};

/// What a text begins with, and its number of bytes.
#[derive(Clone, Copy, Debug, PartialEq, Eq)]
pub enum Piece {
    /// A blank, or a comment up to the end of its line.
    Separator(usize),
    Token(TokenKind, usize),
    /// Neither.
    Bad,
}

fn is_word_byte(b: u8) -> bool
    ensures { result ≡ is_word_byte b }
{
    b.is_ascii_alphanumeric() || b == b'_'
}

fn word_len(bytes: &[u8]) -> usize
    ensures { result ≡ prefix_len is_word_byte bytes.now }
{
    bytes.iter().take_while(|b| is_word_byte(**b)).count()
}

fn word(bytes: &[u8]) -> Piece
    ensures { result ≡ word_piece bytes.now }
{
    let n = word_len(bytes);
    if n <= 128 {
        Piece::Token(TokenKind::Word, n)
    } else {
        Piece::Bad
    }
}

fn word_goes_on(bytes: &[u8]) -> bool
    ensures { result ≡ word_goes_on bytes.now }
{
    match bytes {
        [b, ..] => is_word_byte(*b),
        [] => false,
    }
}

fn number(bytes: &[u8]) -> Piece
    ensures { result ≡ number_piece bytes.now }
{
    let n = digits_len(bytes);
    if word_goes_on(&bytes[n..]) {
        Piece::Bad
    } else {
        Piece::Token(TokenKind::Number, n)
    }
}

fn symbol(bytes: &[u8]) -> Piece
    ensures { result ≡ symbol_piece bytes.now }
{
    match bytes {
        [a, b, ..] => match pair(*a, *b) {
            Some(symbol) => Piece::Token(TokenKind::Symbol(symbol), 2),
            None => single_piece(*a),
        },
        [a] => single_piece(*a),
        [] => Piece::Bad,
    }
}

fn single_piece(b: u8) -> Piece
    ensures { result ≡ single_piece (single_of b) }
{
    match single(b) {
        Some(symbol) => Piece::Token(TokenKind::Symbol(symbol), 1),
        None => Piece::Bad,
    }
}

// A symbol that can be recognized without the next byte.
fn is_alone(b: u8) -> bool
    ensures { result ≡ is_alone b }
{
    b == b'(' || b == b')' || b == b',' || b == b'*' || b == b'+'
}

fn pair(a: u8, b: u8) -> Option<Symbol>
    ensures { result ≡ pair_of a b }
{
    match (a, b) {
        (b'<', b'>') => Some(Symbol::Compare(CompareOp::Ne)),
        (b'!', b'=') => Some(Symbol::Compare(CompareOp::Ne)),
        (b'<', b'=') => Some(Symbol::Compare(CompareOp::Le)),
        (b'>', b'=') => Some(Symbol::Compare(CompareOp::Ge)),
        _ => None,
    }
}

fn single(b: u8) -> Option<Symbol>
    ensures { result ≡ single_of b }
{
    match b {
        b'(' => Some(Symbol::Open),
        b')' => Some(Symbol::Close),
        b',' => Some(Symbol::Comma),
        b'*' => Some(Symbol::Star),
        b'+' => Some(Symbol::Plus),
        b'-' => Some(Symbol::Minus),
        b'<' => Some(Symbol::Compare(CompareOp::Lt)),
        b'=' => Some(Symbol::Compare(CompareOp::Eq)),
        b'>' => Some(Symbol::Compare(CompareOp::Gt)),
        _ => None,
    }
}

// After a quote: the index past the next quote that isn't doubled.
fn text_end(bytes: &[u8]) -> Option<usize>
    requires { length bytes.now < 2 ^ 63 }
    ensures { result ≡ quoted_end 1 bytes.now }
{
    let mut rest = bytes;
    let mut at = 1;
    loop {
        match rest {
            [] => return None,
            [b'\'', b'\'', after @ ..] => {
                at += 2;
                rest = after;
            }
            [b'\'', ..] => return Some(at + 1),
            [_, after @ ..] => {
                at += 1;
                rest = after;
            }
        }
    }
}

// After a quote: the content up to the next quote that isn't doubled.
pub(crate) fn text_contents(alloc: Global, bytes: &[u8]) -> Result<Vec<u8>, AllocError>
    ensures { IfOk result (λ text. text.items ≡ contents bytes.now) }
{
    let mut rest = bytes;
    let mut text = Vec::new(alloc);
    loop {
        match rest {
            [] => return Ok(text),
            [b'\'', b'\'', after @ ..] => {
                text.push(b'\'')?;
                rest = after;
            }
            [b'\'', ..] => return Ok(text),
            [b, after @ ..] => {
                text.push(*b)?;
                rest = after;
            }
        }
    }
}

fn is_text(bytes: &[u8]) -> bool
    ensures { result ≡ is_utf8 bytes.now }
{
    str::from_utf8(bytes).is_ok()
}

fn has_zero(bytes: &[u8]) -> bool
    ensures { result ≡ list_any (λ b. b == 0) bytes.now }
{
    bytes.iter().any(|b| *b == 0)
}

fn good_text(bytes: &[u8]) -> bool
    ensures { result ≡ is_good_text bytes.now }
{
    !bytes.is_empty() && bytes.len() <= 255 && !has_zero(bytes) && is_text(bytes)
}

fn text(alloc: Global, bytes: &[u8]) -> Result<Piece, AllocError>
    requires { length bytes.now < 2 ^ 63 }
    ensures { IfOk result (λ piece. piece ≡ text_piece bytes.now) }
{
    match text_end(bytes) {
        Some(n) => {
            let contents = text_contents(alloc, bytes)?;
            Ok(if good_text(&contents) {
                Piece::Token(TokenKind::Text, n)
            } else {
                Piece::Bad
            })
        }
        None => Ok(Piece::Bad),
    }
}

pub(crate) fn comment_len(bytes: &[u8]) -> usize
    ensures { result ≡ comment_len bytes.now }
{
    bytes.iter().take_while(|b| **b != b'\n').count()
}

fn is_comment(bytes: &[u8]) -> bool
    ensures { result ≡ is_comment bytes.now }
{
    matches!(bytes, [b'-', b'-', ..])
}

pub(crate) fn is_blank(b: u8) -> bool
    ensures { result ≡ is_blank b }
{
    b == b'\t' || b == b'\n' || b == b'\r' || b == b' '
}

/// The separator or the token that a text begins with, as long as possible.
pub fn first_piece(alloc: Global, bytes: &[u8]) -> Result<Piece, AllocError>
    requires { length bytes.now < 2 ^ 63 }
    ensures is { IfOk result (λ piece. piece ≡ first_piece bytes.now) }
    ensures within { IfOk result (λ piece. FitsIn piece bytes.now) }
    ensures begins { IfOk result (BeginsWith bytes.now) }
{
    piece_of(alloc, bytes)
}

fn piece_of(alloc: Global, bytes: &[u8]) -> Result<Piece, AllocError>
    requires { length bytes.now < 2 ^ 63 }
    ensures { IfOk result (λ piece. piece ≡ first_piece bytes.now) }
{
    // The most common bytes come first.
    let [b, after @ ..] = bytes else {
        return Ok(Piece::Bad);
    };
    if is_alone(*b) {
        Ok(single_piece(*b))
    } else if b.is_ascii_digit() {
        Ok(number(bytes))
    } else if is_blank(*b) {
        Ok(Piece::Separator(1))
    } else if b.is_ascii_alphabetic() {
        Ok(word(bytes))
    } else if *b == b'\'' {
        text(alloc, after)
    } else if is_comment(bytes) {
        Ok(Piece::Separator(comment_len(bytes)))
    } else {
        Ok(symbol(bytes))
    }
}
