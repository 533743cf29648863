//! Parsing DROP TABLE from terminals.

ghost use Rattle.std.specs.Prelude.{◌≡◌, ◌<◌, OnOk, length};
ghost use Rattle.bw_sql.specs.Reading as reading;
ghost use Rattle.bw_sql.specs.Reading.{Gives};
ghost use Rattle.bw_sql.specs.Tree.{statement_of};

use crate::keyword::Keyword;
use crate::parser::Parser;
use crate::tree::Statement;
use bw_lex::SqlFault;

impl<'a> Parser<'a> {
    // after DROP: TABLE name
    #[tactic(auto, unfolding(crate::specs::Reading::drop_at))]
    pub(crate) fn drop_table(&mut self) -> Result<Statement, SqlFault>
        ensures shorter { OnOk result (length self.new.rest.now < length self.old.rest.now) }
        ensures read { Gives statement_of result self.new.rest.now (reading.drop_at self.old.rest.now) }
    {
        self.take_word(Keyword::Table)?;
        Ok(Statement::DropTable(self.name()?))
    }
}
