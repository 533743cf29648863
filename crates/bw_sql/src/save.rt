//! Parsing SAVE from terminals.

ghost use Rattle.std.specs.Prelude.{◌≡◌, ◌<◌, OnOk, length};
ghost use Rattle.bw_sql.specs.Reading as reading;
ghost use Rattle.bw_sql.specs.Reading.{Gives};
ghost use Rattle.bw_sql.specs.Tree.{statement_of};

use crate::keyword::Keyword;
use crate::parser::Parser;
use crate::tree::{Save, Statement};
use bw_lex::SqlFault;

impl<'a> Parser<'a> {
    // after SAVE: name TO text
    #[tactic(auto, unfolding(crate::specs::Reading::save_at))]
    pub(crate) fn save(&mut self) -> Result<Statement, SqlFault>
        ensures shorter { OnOk result (length self.new.rest.now < length self.old.rest.now) }
        ensures read { Gives statement_of result self.new.rest.now (reading.save_at self.old.rest.now) }
    {
        let table = self.name()?;
        self.take_word(Keyword::To)?;
        let file = self.file_name()?;
        Ok(Statement::Save(Save { table, file }))
    }
}
