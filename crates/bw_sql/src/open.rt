//! Parsing OPEN from terminals.

ghost use Rattle.std.specs.Prelude.{◌≡◌, ◌<◌, OnOk, length};
ghost use Rattle.bw_sql.specs.Reading as reading;
ghost use Rattle.bw_sql.specs.Reading.{Gives};
ghost use Rattle.bw_sql.specs.Tree.{statement_of};

use crate::parser::Parser;
use crate::tree::{Open, Statement};
use bw_lex::SqlFault;

impl<'a> Parser<'a> {
    // after OPEN: name FROM text
    #[tactic(auto, unfolding(crate::specs::Reading::open_at))]
    pub(crate) fn open_table(&mut self) -> Result<Statement, SqlFault>
        ensures shorter { OnOk result (length self.new.rest.now < length self.old.rest.now) }
        ensures read { Gives statement_of result self.new.rest.now (reading.open_at self.old.rest.now) }
    {
        let table = self.name()?;
        let file = self.source()?;
        Ok(Statement::Open(Open { table, file }))
    }
}
