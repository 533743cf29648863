//! Parsing CREATE TABLE from terminals.

ghost use Rattle.std.specs.Prelude.{◌≡◌, ◌<◌, ◌≤◌, ℕ, OnOk, length};
ghost use Rattle.bw_sql.specs.Reading as reading;
ghost use Rattle.bw_sql.specs.Reading.{Gives};
ghost use Rattle.bw_sql.specs.Tree.{statement_of};

use crate::keyword::Keyword;
use crate::parser::Parser;
use crate::tree::{ColumnDefinition, CreateTable, LayoutWord, Statement, TypeWord};
use bw_lex::{SqlFault, Symbol};

impl<'a> Parser<'a> {
    // INTEGER | INT | BIGINT
    #[tactic(auto, unfolding(crate::specs::Reading::type_at))]
    fn column_type(&mut self) -> Result<TypeWord, SqlFault>
        ensures shorter { OnOk result (length self.new.rest.now < length self.old.rest.now) }
        ensures read { Gives (λ word. word) result self.new.rest.now (reading.type_at self.old.rest.now) }
    {
        if self.eat_word(Keyword::Bigint) {
            Ok(TypeWord::BigInt)
        } else if self.eat_word(Keyword::Integer) {
            Ok(TypeWord::Integer)
        } else {
            self.take_word(Keyword::Int)?;
            Ok(TypeWord::Integer)
        }
    }

    // [USING layout]
    #[tactic(auto, unfolding(crate::specs::Reading::using_at))]
    fn using(&mut self) -> Result<Option<LayoutWord>, SqlFault>
        ensures no_longer { OnOk result (length self.new.rest.now ≤ length self.old.rest.now) }
        ensures read { Gives (λ layout. layout) result self.new.rest.now (reading.using_at self.old.rest.now) }
    {
        if self.eat_word(Keyword::Using) {
            Ok(Some(self.layout()?))
        } else {
            Ok(None)
        }
    }

    // coldef = name (INTEGER | INT | BIGINT) [USING layout] [kind]
    #[tactic(auto, unfolding(crate::specs::Reading::column_at))]
    fn column(&mut self) -> Result<ColumnDefinition, SqlFault>
        ensures shorter { OnOk result (length self.new.rest.now < length self.old.rest.now) }
        ensures read { Gives (λ column. column) result self.new.rest.now (reading.column_at self.old.rest.now) }
    {
        let name = self.name()?;
        let column_type = self.column_type()?;
        let layout = self.using()?;
        let kind = self.kind();
        Ok(ColumnDefinition {
            name,
            column_type,
            layout,
            kind,
        })
    }

    // coldef {, coldef}
    #[tactic(auto, unfolding(crate::specs::Reading::columns_at))]
    fn columns(&mut self) -> Result<Vec<ColumnDefinition>, SqlFault>
        ensures shorter { OnOk result (length self.new.rest.now < length self.old.rest.now) }
        ensures read { (n : ℕ) → length self.old.rest.now < n
            → Gives (λ columns. columns.items) result self.new.rest.now (reading.columns_at n self.old.rest.now) }
    {
        let mut columns = Vec::new(self.alloc);
        columns.push(self.column()?)?;
        while self.eat(Symbol::Comma) {
            columns.push(self.column()?)?;
        }
        Ok(columns)
    }

    // after CREATE: TABLE name ( coldef {, coldef} )
    #[tactic(auto, unfolding(crate::specs::Reading::create_at))]
    pub(crate) fn create_table(&mut self) -> Result<Statement, SqlFault>
        ensures shorter { OnOk result (length self.new.rest.now < length self.old.rest.now) }
        ensures read { (n : ℕ) → length self.old.rest.now < n
            → Gives statement_of result self.new.rest.now (reading.create_at n self.old.rest.now) }
    {
        self.take_word(Keyword::Table)?;
        let table = self.name()?;
        self.take(Symbol::Open)?;
        let columns = self.columns()?;
        self.take(Symbol::Close)?;
        Ok(Statement::CreateTable(CreateTable { table, columns }))
    }
}
