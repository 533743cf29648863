//! Parsing REBUILD from terminals.

ghost use Rattle.std.specs.Prelude.{◌≡◌, ◌<◌, ◌≤◌, ℕ, OnOk, length};
ghost use Rattle.bw_sql.specs.Reading as reading;
ghost use Rattle.bw_sql.specs.Reading.{Gives};
ghost use Rattle.bw_sql.specs.Tree.{statement_of};

use crate::keyword::Keyword;
use crate::parser::Parser;
use crate::tree::{LayoutChoice, Rebuild, Statement};
use bw_lex::{SqlFault, Symbol};

impl<'a> Parser<'a> {
    // choice = name USING layout [kind]
    #[tactic(auto, unfolding(crate::specs::Reading::choice_at))]
    fn choice(&mut self) -> Result<LayoutChoice, SqlFault>
        ensures shorter { OnOk result (length self.new.rest.now < length self.old.rest.now) }
        ensures read { Gives (λ choice. choice) result self.new.rest.now (reading.choice_at self.old.rest.now) }
    {
        let column = self.name()?;
        self.take_word(Keyword::Using)?;
        let layout = self.layout()?;
        let kind = self.kind();
        Ok(LayoutChoice {
            column,
            layout,
            kind,
        })
    }

    // choice {, choice}
    #[tactic(auto, unfolding(crate::specs::Reading::choices_at))]
    fn choices(&mut self) -> Result<Vec<LayoutChoice>, SqlFault>
        ensures shorter { OnOk result (length self.new.rest.now < length self.old.rest.now) }
        ensures read { (n : ℕ) → length self.old.rest.now < n
            → Gives (λ choices. choices.items) result self.new.rest.now (reading.choices_at n self.old.rest.now) }
    {
        let mut choices = Vec::new(self.alloc);
        choices.push(self.choice()?)?;
        while self.eat(Symbol::Comma) {
            choices.push(self.choice()?)?;
        }
        Ok(choices)
    }

    // [( choice {, choice} )]
    #[tactic(auto, unfolding(crate::specs::Reading::choice_list_at))]
    fn choice_list(&mut self) -> Result<Vec<LayoutChoice>, SqlFault>
        ensures no_longer { OnOk result (length self.new.rest.now ≤ length self.old.rest.now) }
        ensures read { (n : ℕ) → length self.old.rest.now < n
            → Gives (λ choices. choices.items) result self.new.rest.now (reading.choice_list_at n self.old.rest.now) }
    {
        if self.eat(Symbol::Open) {
            let choices = self.choices()?;
            self.take(Symbol::Close)?;
            Ok(choices)
        } else {
            Ok(Vec::new(self.alloc))
        }
    }

    // after REBUILD: name [( choice {, choice} )]
    #[tactic(auto, unfolding(crate::specs::Reading::rebuild_at))]
    pub(crate) fn rebuild(&mut self) -> Result<Statement, SqlFault>
        ensures shorter { OnOk result (length self.new.rest.now < length self.old.rest.now) }
        ensures read { (n : ℕ) → length self.old.rest.now < n
            → Gives statement_of result self.new.rest.now (reading.rebuild_at n self.old.rest.now) }
    {
        let table = self.name()?;
        let choices = self.choice_list()?;
        Ok(Statement::Rebuild(Rebuild { table, choices }))
    }
}
