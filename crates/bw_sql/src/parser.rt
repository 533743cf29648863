//! Parsing statements from terminals, left to right: the steps that several statements share, and the dispatch to each
//! statement. Each statement has its own file.

ghost use Rattle.std.specs.Prelude.{◌≡◌, ◌<◌, ◌≤◌, ◌∷◌, ℕ, IfErr, IfOk, List, MatchBool, MatchResult, OnOk, length, option_map};
ghost use Rattle.bw_sql.specs.declared.terminal.Terminal.{Terminal};
ghost use Rattle.bw_sql.specs.Grammar.{Spells};
ghost use Rattle.bw_sql.specs.Reading as reading;
ghost use Rattle.bw_sql.specs.Reading.{Gives, GivesAll, GivesRow};
ghost use Rattle.bw_sql.specs.Statements.{IsParseFault};
ghost use Rattle.bw_sql.specs.Tree.{condition_of, statement_of};

use crate::file_name::FileName;
use crate::keyword::Keyword;
use crate::name::Name;
use crate::name_list::NameList;
use crate::terminal::{StatementWord, Terminal};
use crate::tree::{Condition, KindWord, LayoutWord, Statement, Value};
use bw_lex::{SqlFault, Symbol};
use std::alloc::Global;

/// The terminals that are not parsed yet.
#[derive(Drop)]
pub(crate) struct Parser<'a> {
    pub(crate) rest: &'a [Terminal<'a>],
    pub(crate) alloc: Global,
}

impl<'a> Parser<'a> {
    // Takes the next terminal if it is this symbol.
    pub(crate) fn eat(&mut self, symbol: Symbol) -> bool
        ensures { MatchBool result
            (self.old.rest.now ≡ Terminal.Symbol symbol ∷ self.new.rest.now)
            ((self.new.rest.now ≡ self.old.rest.now) × ((ts : List Terminal) → self.old.rest.now ≡ Terminal.Symbol symbol ∷ ts → ⊥)) }
    {
        match self.rest {
            [first, rest @ ..] => match first {
                Terminal::Symbol(found) if *found == symbol => {
                    self.rest = rest;
                    true
                }
                _ => false,
            },
            [] => false,
        }
    }

    // Takes the next terminal if it is this reserved word.
    pub(crate) fn eat_word(&mut self, keyword: Keyword) -> bool
        ensures { MatchBool result
            (self.old.rest.now ≡ Terminal.Keyword keyword ∷ self.new.rest.now)
            ((self.new.rest.now ≡ self.old.rest.now) × ((ts : List Terminal) → self.old.rest.now ≡ Terminal.Keyword keyword ∷ ts → ⊥)) }
    {
        match self.rest {
            [first, rest @ ..] => match first {
                Terminal::Keyword(found) if *found == keyword => {
                    self.rest = rest;
                    true
                }
                _ => false,
            },
            [] => false,
        }
    }

    // Takes this symbol, which must be next.
    pub(crate) fn take(&mut self, symbol: Symbol) -> Result<(), SqlFault>
        ensures { MatchResult result
            (λ _. self.old.rest.now ≡ Terminal.Symbol symbol ∷ self.new.rest.now)
            (λ fault. (fault ≡ SqlFault.Syntax) × ((ts : List Terminal) → self.old.rest.now ≡ Terminal.Symbol symbol ∷ ts → ⊥)) }
    {
        if self.eat(symbol) {
            Ok(())
        } else {
            Err(SqlFault::Syntax)
        }
    }

    // Takes this reserved word, which must be next.
    pub(crate) fn take_word(&mut self, keyword: Keyword) -> Result<(), SqlFault>
        ensures { MatchResult result
            (λ _. self.old.rest.now ≡ Terminal.Keyword keyword ∷ self.new.rest.now)
            (λ fault. (fault ≡ SqlFault.Syntax) × ((ts : List Terminal) → self.old.rest.now ≡ Terminal.Keyword keyword ∷ ts → ⊥)) }
    {
        if self.eat_word(keyword) {
            Ok(())
        } else {
            Err(SqlFault::Syntax)
        }
    }

    // name
    #[tactic(auto, unfolding(crate::specs::Reading::name_at))]
    pub(crate) fn name(&mut self) -> Result<Name, SqlFault>
        ensures shorter { OnOk result (length self.new.rest.now < length self.old.rest.now) }
        ensures read { Gives (λ name. name) result self.new.rest.now (reading.name_at self.old.rest.now) }
    {
        match self.rest {
            [first, rest @ ..] => match first {
                Terminal::Name(word) => {
                    self.rest = rest;
                    Ok(word.to_name(self.alloc)?)
                }
                _ => Err(SqlFault::Syntax),
            },
            [] => Err(SqlFault::Syntax),
        }
    }

    // name {, name}
    #[tactic(auto, unfolding(crate::specs::Reading::names_at))]
    pub(crate) fn names(&mut self) -> Result<NameList, SqlFault>
        ensures shorter { OnOk result (length self.new.rest.now < length self.old.rest.now) }
        ensures read { (n : ℕ) → length self.old.rest.now < n
            → Gives (λ names. names) result self.new.rest.now (reading.names_at n self.old.rest.now) }
    {
        let mut names = Vec::new(self.alloc);
        names.push(self.name()?)?;
        while self.eat(Symbol::Comma) {
            names.push(self.name()?)?;
        }
        Ok(NameList::new(names))
    }

    // number
    #[tactic(auto, unfolding(crate::specs::Reading::number_at))]
    fn number(&mut self) -> Result<u64, SqlFault>
        ensures shorter { OnOk result (length self.new.rest.now < length self.old.rest.now) }
        ensures read { Gives (λ n. n) result self.new.rest.now (reading.number_at self.old.rest.now) }
    {
        match self.rest {
            [first, rest @ ..] => match first {
                Terminal::Number(n) => {
                    self.rest = rest;
                    Ok(*n)
                }
                _ => Err(SqlFault::Syntax),
            },
            [] => Err(SqlFault::Syntax),
        }
    }

    // literal = [+ | -] number
    #[tactic(auto, unfolding(crate::specs::Reading::literal_at))]
    fn literal(&mut self) -> Result<i64, SqlFault>
        ensures shorter { OnOk result (length self.new.rest.now < length self.old.rest.now) }
        ensures read { Gives (λ z. z) result self.new.rest.now (reading.literal_at self.old.rest.now) }
    {
        if self.eat(Symbol::Minus) {
            let n = self.number()?;
            negative(n).ok_or(SqlFault::Syntax)
        } else if self.eat(Symbol::Plus) {
            let n = self.number()?;
            positive(n).ok_or(SqlFault::Syntax)
        } else {
            let n = self.number()?;
            positive(n).ok_or(SqlFault::Syntax)
        }
    }

    // value = literal | NULL. A number without a sign is tried first, since it is the most common.
    #[tactic(auto, unfolding(crate::specs::Reading::value_at, crate::specs::Reading::literal_at, crate::specs::Reading::number_at))]
    pub(crate) fn value(&mut self) -> Result<Value, SqlFault>
        ensures shorter { OnOk result (length self.new.rest.now < length self.old.rest.now) }
        ensures read { Gives (λ value. value) result self.new.rest.now (reading.value_at self.old.rest.now) }
    {
        match self.rest {
            [first, rest @ ..] => match first {
                Terminal::Number(n) => {
                    self.rest = rest;
                    Ok(Some(positive(*n).ok_or(SqlFault::Syntax)?))
                }
                Terminal::Keyword(Keyword::Null) => {
                    self.rest = rest;
                    Ok(None)
                }
                _ => Ok(Some(self.literal()?)),
            },
            [] => Err(SqlFault::Syntax),
        }
    }

    // value {, value}, likewise
    pub(crate) fn values(&mut self, values: &mut Vec<Value>) -> Result<usize, SqlFault>
        ensures shorter { OnOk result (length self.new.rest.now < length self.old.rest.now) }
        ensures read { GivesRow values.old.items values.new.items result reading.values_at self.old.rest.now self.new.rest.now }
    {
        values.push(self.value()?)?;
        let mut width = 1;
        while self.eat(Symbol::Comma) {
            values.push(self.value()?)?;
            width += 1;
        }
        Ok(width)
    }

    // layout = P | V | H | S
    #[tactic(auto, unfolding(crate::specs::Reading::layout_at))]
    pub(crate) fn layout(&mut self) -> Result<LayoutWord, SqlFault>
        ensures shorter { OnOk result (length self.new.rest.now < length self.old.rest.now) }
        ensures read { Gives (λ layout. layout) result self.new.rest.now (reading.layout_at self.old.rest.now) }
    {
        match self.rest {
            [first, rest @ ..] => match first {
                Terminal::Name(word) => {
                    self.rest = rest;
                    word.layout().ok_or(SqlFault::Syntax)
                }
                _ => Err(SqlFault::Syntax),
            },
            [] => Err(SqlFault::Syntax),
        }
    }

    // [kind], where kind = OFFSET | DICTIONARY
    #[tactic(auto, unfolding(crate::specs::Reading::kind_at))]
    pub(crate) fn kind(&mut self) -> Option<KindWord>
        ensures no_longer { length self.new.rest.now ≤ length self.old.rest.now }
        ensures read { (result, self.new.rest.now) ≡ reading.kind_at self.old.rest.now }
    {
        match self.rest {
            [first, rest @ ..] => match first {
                Terminal::Name(word) => {
                    let kind = word.kind();
                    if kind.is_some() {
                        self.rest = rest;
                    }
                    kind
                }
                _ => None,
            },
            [] => None,
        }
    }

    // text
    #[tactic(auto, unfolding(crate::specs::Reading::text_at))]
    pub(crate) fn file_name(&mut self) -> Result<FileName, SqlFault>
        ensures shorter { OnOk result (length self.new.rest.now < length self.old.rest.now) }
        ensures read { Gives (λ file. file) result self.new.rest.now (reading.text_at self.old.rest.now) }
    {
        match self.rest {
            [first, rest @ ..] => match first {
                Terminal::Text(text) => {
                    self.rest = rest;
                    Ok(text.to_file_name(self.alloc)?)
                }
                _ => Err(SqlFault::Syntax),
            },
            [] => Err(SqlFault::Syntax),
        }
    }

    // FROM text
    #[tactic(auto, unfolding(crate::specs::Reading::source_at))]
    pub(crate) fn source(&mut self) -> Result<FileName, SqlFault>
        ensures shorter { OnOk result (length self.new.rest.now < length self.old.rest.now) }
        ensures read { Gives (λ file. file) result self.new.rest.now (reading.source_at self.old.rest.now) }
    {
        self.take_word(Keyword::From)?;
        self.file_name()
    }

    // [WHERE cond]
    #[tactic(auto, unfolding(crate::specs::Reading::filter_at, crate::specs::Reading::condition_at))]
    pub(crate) fn filter(&mut self) -> Result<Option<Condition>, SqlFault>
        ensures no_longer { OnOk result (length self.new.rest.now ≤ length self.old.rest.now) }
        ensures read { (n : ℕ) → length self.old.rest.now < n
            → Gives (option_map condition_of) result self.new.rest.now (reading.filter_at n self.old.rest.now) }
    {
        if self.eat_word(Keyword::Where) {
            Ok(Some(self.condition()?))
        } else {
            Ok(None)
        }
    }

    // a name that begins a statement
    #[tactic(auto, unfolding(crate::specs::Reading::statement_word_at))]
    fn statement_word(&mut self) -> Result<StatementWord, SqlFault>
        ensures shorter { OnOk result (length self.new.rest.now < length self.old.rest.now) }
        ensures read { Gives (λ word. word) result self.new.rest.now (reading.statement_word_at self.old.rest.now) }
    {
        match self.rest {
            [first, rest @ ..] => match first {
                Terminal::Name(word) => {
                    self.rest = rest;
                    word.statement().ok_or(SqlFault::Syntax)
                }
                _ => Err(SqlFault::Syntax),
            },
            [] => Err(SqlFault::Syntax),
        }
    }

    // a statement that begins with a name
    #[tactic(auto, unfolding(crate::specs::Reading::worded_at))]
    fn worded_statement(&mut self) -> Result<Statement, SqlFault>
        ensures shorter { OnOk result (length self.new.rest.now < length self.old.rest.now) }
        ensures read { (n : ℕ) → length self.old.rest.now < n
            → Gives statement_of result self.new.rest.now (reading.worded_at n self.old.rest.now) }
    {
        match self.statement_word()? {
            StatementWord::Tables => Ok(Statement::ListTables),
            StatementWord::Rebuild => self.rebuild(),
            StatementWord::Load => self.load(),
            StatementWord::Save => self.save(),
            StatementWord::Stats => self.stats(),
        }
    }

    // statement
    #[tactic(auto, unfolding(crate::specs::Reading::statement_at))]
    fn statement(&mut self) -> Result<Statement, SqlFault>
        ensures shorter { OnOk result (length self.new.rest.now < length self.old.rest.now) }
        ensures read { (n : ℕ) → length self.old.rest.now < n
            → Gives statement_of result self.new.rest.now (reading.statement_at n self.old.rest.now) }
    {
        if self.eat_word(Keyword::Create) {
            self.create_table()
        } else if self.eat_word(Keyword::Drop) {
            self.drop_table()
        } else if self.eat_word(Keyword::Insert) {
            self.insert()
        } else if self.eat_word(Keyword::Update) {
            self.update()
        } else if self.eat_word(Keyword::Delete) {
            self.delete()
        } else if self.eat_word(Keyword::Select) {
            Ok(Statement::Select(self.select()?))
        } else if self.eat_word(Keyword::Open) {
            self.open_table()
        } else {
            self.worded_statement()
        }
    }
}

// The number with a plus sign, if it fits 64 bits.
#[tactic(auto, unfolding(crate::specs::Reading::positive))]
fn positive(n: u64) -> Option<i64>
    ensures { result ≡ reading.positive n }
{
    i64::try_from(n).ok()
}

#[tactic(auto, unfolding(crate::specs::Reading::negative))]
fn negative(n: u64) -> Option<i64>
    ensures { result ≡ reading.negative n }
{
    i64::try_from(-i128::from(n)).ok()
}

// The statement that the terminals spell, with nothing left after it.
#[tactic(auto, unfolding(crate::specs::Reading::whole_at))]
fn read_whole(alloc: Global, terminals: &[Terminal]) -> Result<Statement, SqlFault>
    ensures { (n : ℕ) → length terminals.now < n → GivesAll statement_of result (reading.whole_at n terminals.now) }
{
    let mut parser = Parser {
        rest: terminals,
        alloc,
    };
    let statement = parser.statement()?;
    if parser.rest.is_empty() {
        Ok(statement)
    } else {
        Err(SqlFault::Syntax)
    }
}

/// The statement that the terminals spell.
pub(crate) fn parse(alloc: Global, terminals: &[Terminal]) -> Result<Statement, SqlFault>
    ensures found { IfOk result (λ statement. Spells terminals.now (statement_of statement)) }
    ensures fault { IfErr result (λ fault. IsParseFault fault terminals.now) }
{
    read_whole(alloc, terminals)
}
