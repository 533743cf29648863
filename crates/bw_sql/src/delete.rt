//! Parsing DELETE from terminals.

ghost use Rattle.std.specs.Prelude.{◌≡◌, ◌<◌, ℕ, OnOk, length};
ghost use Rattle.bw_sql.specs.Reading as reading;
ghost use Rattle.bw_sql.specs.Reading.{Gives};
ghost use Rattle.bw_sql.specs.Tree.{statement_of};

use crate::keyword::Keyword;
use crate::parser::Parser;
use crate::tree::{Delete, Statement};
use bw_lex::SqlFault;

impl<'a> Parser<'a> {
    // after DELETE: FROM name [WHERE cond]
    #[tactic(auto, unfolding(crate::specs::Reading::delete_at))]
    pub(crate) fn delete(&mut self) -> Result<Statement, SqlFault>
        ensures shorter { OnOk result (length self.new.rest.now < length self.old.rest.now) }
        ensures read { (n : ℕ) → length self.old.rest.now < n
            → Gives statement_of result self.new.rest.now (reading.delete_at n self.old.rest.now) }
    {
        self.take_word(Keyword::From)?;
        let table = self.name()?;
        let condition = self.filter()?;
        Ok(Statement::Delete(Delete { table, condition }))
    }
}
