//! Parsing LOAD from terminals.

ghost use Rattle.std.specs.Prelude.{◌≡◌, ◌<◌, ◌≤◌, OnOk, length};
ghost use Rattle.bw_sql.specs.Reading as reading;
ghost use Rattle.bw_sql.specs.Reading.{Gives};
ghost use Rattle.bw_sql.specs.Tree.{statement_of};

use crate::keyword::Keyword;
use crate::parser::Parser;
use crate::terminal::Terminal;
use crate::tree::{FirstRecord, Load, Statement};
use bw_lex::SqlFault;

impl<'a> Parser<'a> {
    // HEADER, after WITH
    #[tactic(auto, unfolding(crate::specs::Reading::with_at))]
    fn header(&mut self) -> Result<FirstRecord, SqlFault>
        ensures shorter { OnOk result (length self.new.rest.now < length self.old.rest.now) }
        ensures read { Gives (λ first. first) result self.new.rest.now (reading.with_at self.old.rest.now) }
    {
        match self.rest {
            [first, rest @ ..] => match first {
                Terminal::Name(word) => {
                    self.rest = rest;
                    word.first_record().ok_or(SqlFault::Syntax)
                }
                _ => Err(SqlFault::Syntax),
            },
            [] => Err(SqlFault::Syntax),
        }
    }

    // [WITH HEADER]
    #[tactic(auto, unfolding(crate::specs::Reading::first_record_at))]
    fn first_record(&mut self) -> Result<FirstRecord, SqlFault>
        ensures no_longer { OnOk result (length self.new.rest.now ≤ length self.old.rest.now) }
        ensures read { Gives (λ first. first) result self.new.rest.now (reading.first_record_at self.old.rest.now) }
    {
        if self.eat_word(Keyword::With) {
            self.header()
        } else {
            Ok(FirstRecord::Row)
        }
    }

    // after LOAD: name FROM text [WITH HEADER]
    #[tactic(auto, unfolding(crate::specs::Reading::load_at))]
    pub(crate) fn load(&mut self) -> Result<Statement, SqlFault>
        ensures shorter { OnOk result (length self.new.rest.now < length self.old.rest.now) }
        ensures read { Gives statement_of result self.new.rest.now (reading.load_at self.old.rest.now) }
    {
        let table = self.name()?;
        let file = self.source()?;
        let first = self.first_record()?;
        Ok(Statement::Load(Load { table, file, first }))
    }
}
