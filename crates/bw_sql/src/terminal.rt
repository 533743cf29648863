//! Tokens as the grammar sees them.

ghost use Rattle.std.specs.Prelude.{◌≡◌, IfOk, map};
ghost use Rattle.std.specs.Char.{to_ascii_uppercase};
ghost use Rattle.bw_lex.specs.Pieces.{text_says};
ghost use Rattle.bw_lex.specs.Spellings.{IsSpelled};
ghost use Rattle.bw_lex.specs.declared.token.TokenKind.TheVariants as kinds;
ghost use Rattle.bw_sql.specs.Names.{IsName};
ghost use Rattle.bw_sql.specs.Words.{first_record_of, kind_of, layout_of, statement_word_of};

use crate::file_name::FileName;
use crate::keyword::{Keyword, spells};
use crate::name::Name;
use crate::tree::{FirstRecord, KindWord, LayoutWord};
use bw_lex::Symbol;
use std::alloc::{AllocError, Global};
use std::marker::Model;

/// A name that begins a statement, where a statement may begin.
#[derive(Clone, Copy, Debug, PartialEq, Eq)]
pub(crate) enum StatementWord {
    Tables,
    Rebuild,
    Load,
    Save,
    Stats,
}

/// A word that is a name, in any case. Contracts see the name.
#[derive(Debug, Drop)]
pub(crate) struct NameWord<'a> {
    bytes: &'a [u8],
}

impl<'a> Model for NameWord<'a> {
    ghost use Rattle.std.specs.Prelude.{ℕ, List, map};
    ghost use Rattle.std.specs.Char.{to_ascii_uppercase};
    ghost use Rattle.bw_sql.specs.Names.{IsName};

    ghost Value = { List ℕ };

    ghost view = { λ word. map to_ascii_uppercase word.bytes.now };

    ghost invariant = { λ word. IsName (map to_ascii_uppercase word.bytes.now) };
}

impl<'a> NameWord<'a> {
    /// The word with these bytes.
    pub(crate) fn new(bytes: &'a [u8]) -> NameWord<'a>
        requires { IsName (map to_ascii_uppercase bytes.now) }
        ensures { result ≡ map to_ascii_uppercase bytes.entry.now }
    {
        NameWord { bytes }
    }

    /// The name, in an owned buffer.
    pub(crate) fn to_name(&self, alloc: Global) -> Result<Name, AllocError>
        ensures { IfOk result (λ name. name ≡ self.now) }
    {
        Name::from_word(alloc, self.bytes)
    }

    /// The layout that it spells.
    pub(crate) fn layout(&self) -> Option<LayoutWord>
        ensures { result ≡ layout_of self.now }
    {
        layout_word(self.bytes)
    }

    /// The statement that it begins.
    pub(crate) fn statement(&self) -> Option<StatementWord>
        ensures { result ≡ statement_word_of self.now }
    {
        statement_word(self.bytes)
    }

    /// The kind that it spells.
    pub(crate) fn kind(&self) -> Option<KindWord>
        ensures { result ≡ kind_of self.now }
    {
        kind_word(self.bytes)
    }

    /// What it states about a file's first record, after WITH.
    pub(crate) fn first_record(&self) -> Option<FirstRecord>
        ensures { result ≡ first_record_of self.now }
    {
        first_record_word(self.bytes)
    }
}

#[tactic(auto, unfolding(crate::specs::Words::layout_of))]
fn layout_word(word: &[u8]) -> Option<LayoutWord>
    ensures { result ≡ layout_of (map to_ascii_uppercase word.now) }
{
    if spells(word, b"P") {
        Some(LayoutWord::P)
    } else if spells(word, b"V") {
        Some(LayoutWord::V)
    } else if spells(word, b"H") {
        Some(LayoutWord::H)
    } else if spells(word, b"S") {
        Some(LayoutWord::S)
    } else {
        None
    }
}

#[tactic(auto, unfolding(crate::specs::Words::kind_of))]
fn kind_word(word: &[u8]) -> Option<KindWord>
    ensures { result ≡ kind_of (map to_ascii_uppercase word.now) }
{
    if spells(word, b"OFFSET") {
        Some(KindWord::Offset)
    } else if spells(word, b"DICTIONARY") {
        Some(KindWord::Dictionary)
    } else {
        None
    }
}

#[tactic(auto, unfolding(crate::specs::Words::statement_word_of))]
fn statement_word(word: &[u8]) -> Option<StatementWord>
    ensures { result ≡ statement_word_of (map to_ascii_uppercase word.now) }
{
    if spells(word, b"TABLES") {
        Some(StatementWord::Tables)
    } else if spells(word, b"REBUILD") {
        Some(StatementWord::Rebuild)
    } else if spells(word, b"LOAD") {
        Some(StatementWord::Load)
    } else if spells(word, b"SAVE") {
        Some(StatementWord::Save)
    } else if spells(word, b"STATS") {
        Some(StatementWord::Stats)
    } else {
        None
    }
}

#[tactic(auto, unfolding(crate::specs::Words::first_record_of))]
fn first_record_word(word: &[u8]) -> Option<FirstRecord>
    ensures { result ≡ first_record_of (map to_ascii_uppercase word.now) }
{
    if spells(word, b"HEADER") {
        Some(FirstRecord::Header)
    } else {
        None
    }
}

/// A text, with its quotes. Contracts see its content.
#[derive(Debug, Drop)]
pub(crate) struct TextToken<'a> {
    bytes: &'a [u8],
}

impl<'a> Model for TextToken<'a> {
    ghost use Rattle.std.specs.Prelude.{ℕ, List};
    ghost use Rattle.bw_lex.specs.Pieces.{text_says};
    ghost use Rattle.bw_lex.specs.Spellings.{IsSpelled};
    ghost use Rattle.bw_lex.specs.declared.token.TokenKind.TheVariants as kinds;

    ghost Value = { List ℕ };

    ghost view = { λ text. text_says text.bytes.now };

    ghost invariant = { λ text. IsSpelled kinds.Text text.bytes.now };
}

impl<'a> TextToken<'a> {
    /// The text with these bytes.
    pub(crate) fn new(bytes: &'a [u8]) -> TextToken<'a>
        requires { IsSpelled kinds.Text bytes.now }
        ensures { result ≡ text_says bytes.entry.now }
    {
        TextToken { bytes }
    }

    /// The file name that it contains, in an owned buffer.
    pub(crate) fn to_file_name(&self, alloc: Global) -> Result<FileName, AllocError>
        ensures { IfOk result (λ file. file ≡ self.now) }
    {
        FileName::from_text(alloc, self.bytes)
    }
}

/// A token as the grammar sees it.
#[derive(Debug, Drop)]
pub(crate) enum Terminal<'a> {
    Keyword(Keyword),
    Name(NameWord<'a>),
    Number(u64),
    Text(TextToken<'a>),
    Symbol(Symbol),
}
