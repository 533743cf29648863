//! Parsing INSERT from terminals.

ghost use Rattle.std.specs.Prelude.{◌≡◌, ◌<◌, ◌≤◌, ℕ, OnOk, length};
ghost use Rattle.bw_sql.specs.Reading as reading;
ghost use Rattle.bw_sql.specs.Reading.{Gives, GivesRow};
ghost use Rattle.bw_sql.specs.Tree.{statement_of};

use crate::keyword::Keyword;
use crate::name_list::NameList;
use crate::parser::Parser;
use crate::rows::ValueRows;
use crate::tree::{Insert, Statement, Value};
use bw_lex::{SqlFault, Symbol};

impl<'a> Parser<'a> {
    // [( name {, name} )]
    #[tactic(auto, unfolding(crate::specs::Reading::column_list_at))]
    fn column_list(&mut self) -> Result<Option<NameList>, SqlFault>
        ensures no_longer { OnOk result (length self.new.rest.now ≤ length self.old.rest.now) }
        ensures read { (n : ℕ) → length self.old.rest.now < n
            → Gives (λ columns. columns) result self.new.rest.now (reading.column_list_at n self.old.rest.now) }
    {
        if self.eat(Symbol::Open) {
            let names = self.names()?;
            self.take(Symbol::Close)?;
            Ok(Some(names))
        } else {
            Ok(None)
        }
    }

    // ( value {, value} ): appends the values to the given ones; returns how many were appended
    #[tactic(auto, unfolding(crate::specs::Reading::row_at))]
    fn row(&mut self, values: &mut Vec<Value>) -> Result<usize, SqlFault>
        ensures shorter { OnOk result (length self.new.rest.now < length self.old.rest.now) }
        ensures read { GivesRow values.old.items values.new.items result reading.row_at self.old.rest.now self.new.rest.now }
    {
        self.take(Symbol::Open)?;
        let width = self.values(values)?;
        self.take(Symbol::Close)?;
        Ok(width)
    }

    // tuple {, tuple}
    #[tactic(auto, unfolding(crate::specs::Reading::rows_at))]
    fn rows(&mut self) -> Result<ValueRows, SqlFault>
        ensures shorter { OnOk result (length self.new.rest.now < length self.old.rest.now) }
        ensures read { (n : ℕ) → length self.old.rest.now < n
            → Gives (λ rows. rows) result self.new.rest.now (reading.rows_at n self.old.rest.now) }
    {
        let mut values = Vec::new(self.alloc);
        let mut widths = Vec::new(self.alloc);
        widths.push(self.row(&mut values)?)?;
        while self.eat(Symbol::Comma) {
            widths.push(self.row(&mut values)?)?;
        }
        Ok(ValueRows::new(values, widths))
    }

    // after INSERT: INTO name [( name {, name} )] VALUES tuple {, tuple}
    #[tactic(auto, unfolding(crate::specs::Reading::insert_at))]
    pub(crate) fn insert(&mut self) -> Result<Statement, SqlFault>
        ensures shorter { OnOk result (length self.new.rest.now < length self.old.rest.now) }
        ensures read { (n : ℕ) → length self.old.rest.now < n
            → Gives statement_of result self.new.rest.now (reading.insert_at n self.old.rest.now) }
    {
        self.take_word(Keyword::Into)?;
        let table = self.name()?;
        let columns = self.column_list()?;
        self.take_word(Keyword::Values)?;
        let rows = self.rows()?;
        Ok(Statement::Insert(Insert {
            table,
            columns,
            rows,
        }))
    }
}
