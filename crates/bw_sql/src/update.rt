//! Parsing UPDATE from terminals.

ghost use Rattle.std.specs.Prelude.{◌≡◌, ◌<◌, ℕ, OnOk, length};
ghost use Rattle.bw_sql.specs.Reading as reading;
ghost use Rattle.bw_sql.specs.Reading.{Gives};
ghost use Rattle.bw_sql.specs.Tree.{statement_of};

use crate::keyword::Keyword;
use crate::parser::Parser;
use crate::tree::{SetClause, Statement, Update};
use bw_lex::{CompareOp, SqlFault, Symbol};

impl<'a> Parser<'a> {
    // name = source
    #[tactic(auto, unfolding(crate::specs::Reading::set_at))]
    fn set_clause(&mut self) -> Result<SetClause, SqlFault>
        ensures shorter { OnOk result (length self.new.rest.now < length self.old.rest.now) }
        ensures read { Gives (λ set. set) result self.new.rest.now (reading.set_at self.old.rest.now) }
    {
        let column = self.name()?;
        self.take(Symbol::Compare(CompareOp::Eq))?;
        let source = self.operand()?;
        Ok(SetClause { column, source })
    }

    // name = source {, name = source}
    #[tactic(auto, unfolding(crate::specs::Reading::sets_at))]
    fn set_clauses(&mut self) -> Result<Vec<SetClause>, SqlFault>
        ensures shorter { OnOk result (length self.new.rest.now < length self.old.rest.now) }
        ensures read { (n : ℕ) → length self.old.rest.now < n
            → Gives (λ sets. sets.items) result self.new.rest.now (reading.sets_at n self.old.rest.now) }
    {
        let mut sets = Vec::new(self.alloc);
        sets.push(self.set_clause()?)?;
        while self.eat(Symbol::Comma) {
            sets.push(self.set_clause()?)?;
        }
        Ok(sets)
    }

    // after UPDATE: name SET name = source {, name = source} [WHERE cond]
    #[tactic(auto, unfolding(crate::specs::Reading::update_at))]
    pub(crate) fn update(&mut self) -> Result<Statement, SqlFault>
        ensures shorter { OnOk result (length self.new.rest.now < length self.old.rest.now) }
        ensures read { (n : ℕ) → length self.old.rest.now < n
            → Gives statement_of result self.new.rest.now (reading.update_at n self.old.rest.now) }
    {
        let table = self.name()?;
        self.take_word(Keyword::Set)?;
        let sets = self.set_clauses()?;
        let condition = self.filter()?;
        Ok(Statement::Update(Update {
            table,
            sets,
            condition,
        }))
    }
}
