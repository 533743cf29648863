//! Parsing SELECT and STATS from terminals.

ghost use Rattle.std.specs.Prelude.{◌≡◌, ◌<◌, ◌≤◌, ℕ, OnOk, length};
ghost use Rattle.bw_sql.specs.Reading as reading;
ghost use Rattle.bw_sql.specs.Reading.{Gives};
ghost use Rattle.bw_sql.specs.Tree.{items_of, select_of, statement_of};
ghost use Rattle.bw_sql.specs.Words as words;

use crate::item_list::ItemList;
use crate::keyword::Keyword;
use crate::name::Name;
use crate::parser::Parser;
use crate::terminal::Terminal;
use crate::tree::{Select, SelectItem, SelectItems, SetFunction, Statement};
use bw_lex::{SqlFault, Symbol};

/// The set function that a reserved word names.
#[tactic(auto, unfolding(crate::specs::Words::function_of))]
fn function_of(word: Keyword) -> Option<SetFunction>
    ensures { result ≡ words.function_of word }
{
    match word {
        Keyword::Count => Some(SetFunction::Count),
        Keyword::Sum => Some(SetFunction::Sum),
        Keyword::Min => Some(SetFunction::Min),
        Keyword::Max => Some(SetFunction::Max),
        Keyword::Median => Some(SetFunction::Median),
        _ => None,
    }
}

impl<'a> Parser<'a> {
    // function = COUNT | SUM | MIN | MAX | MEDIAN
    #[tactic(auto, unfolding(crate::specs::Reading::function_at))]
    fn function(&mut self) -> Result<SetFunction, SqlFault>
        ensures shorter { OnOk result (length self.new.rest.now < length self.old.rest.now) }
        ensures read { Gives (λ function. function) result self.new.rest.now (reading.function_at self.old.rest.now) }
    {
        match self.rest {
            [first, rest @ ..] => match first {
                Terminal::Keyword(word) => {
                    self.rest = rest;
                    function_of(*word).ok_or(SqlFault::Syntax)
                }
                _ => Err(SqlFault::Syntax),
            },
            [] => Err(SqlFault::Syntax),
        }
    }

    // the argument of a set function: * for COUNT only, or a name
    #[tactic(auto, unfolding(crate::specs::Reading::argument_at))]
    fn argument(&mut self, function: SetFunction) -> Result<SelectItem, SqlFault>
        ensures shorter { OnOk result (length self.new.rest.now < length self.old.rest.now) }
        ensures read { Gives (λ item. item) result self.new.rest.now (reading.argument_at function self.old.rest.now) }
    {
        if function == SetFunction::Count && self.eat(Symbol::Star) {
            Ok(SelectItem::CountRows)
        } else {
            Ok(SelectItem::Function(function, self.name()?))
        }
    }

    // function ( * | name )
    #[tactic(auto, unfolding(crate::specs::Reading::function_item_at))]
    fn function_item(&mut self) -> Result<SelectItem, SqlFault>
        ensures shorter { OnOk result (length self.new.rest.now < length self.old.rest.now) }
        ensures read { Gives (λ item. item) result self.new.rest.now (reading.function_item_at self.old.rest.now) }
    {
        let function = self.function()?;
        self.take(Symbol::Open)?;
        let item = self.argument(function)?;
        self.take(Symbol::Close)?;
        Ok(item)
    }

    // item = name | COUNT ( * ) | function ( name )
    #[tactic(auto, unfolding(crate::specs::Reading::item_at, crate::specs::Reading::function_item_at, crate::specs::Reading::function_at))]
    fn item(&mut self) -> Result<SelectItem, SqlFault>
        ensures shorter { OnOk result (length self.new.rest.now < length self.old.rest.now) }
        ensures read { Gives (λ item. item) result self.new.rest.now (reading.item_at self.old.rest.now) }
    {
        match self.rest {
            [first, rest @ ..] => match first {
                Terminal::Name(word) => {
                    self.rest = rest;
                    Ok(SelectItem::Column(word.to_name(self.alloc)?))
                }
                _ => self.function_item(),
            },
            [] => Err(SqlFault::Syntax),
        }
    }

    // item {, item}
    #[tactic(auto, unfolding(crate::specs::Reading::item_list_at))]
    fn item_list(&mut self) -> Result<ItemList, SqlFault>
        ensures shorter { OnOk result (length self.new.rest.now < length self.old.rest.now) }
        ensures read { (n : ℕ) → length self.old.rest.now < n
            → Gives (λ items. items) result self.new.rest.now (reading.item_list_at n self.old.rest.now) }
    {
        let mut items = Vec::new(self.alloc);
        items.push(self.item()?)?;
        while self.eat(Symbol::Comma) {
            items.push(self.item()?)?;
        }
        Ok(ItemList::new(items))
    }

    // items = * | item {, item}
    #[tactic(auto, unfolding(crate::specs::Reading::items_at))]
    fn items(&mut self) -> Result<SelectItems, SqlFault>
        ensures shorter { OnOk result (length self.new.rest.now < length self.old.rest.now) }
        ensures read { (n : ℕ) → length self.old.rest.now < n
            → Gives items_of result self.new.rest.now (reading.items_at n self.old.rest.now) }
    {
        if self.eat(Symbol::Star) {
            Ok(SelectItems::All)
        } else {
            Ok(SelectItems::List(self.item_list()?))
        }
    }

    // [GROUP BY name]
    #[tactic(auto, unfolding(crate::specs::Reading::grouping_at))]
    fn grouping(&mut self) -> Result<Option<Name>, SqlFault>
        ensures no_longer { OnOk result (length self.new.rest.now ≤ length self.old.rest.now) }
        ensures read { Gives (λ grouping. grouping) result self.new.rest.now (reading.grouping_at self.old.rest.now) }
    {
        if self.eat_word(Keyword::Group) {
            self.take_word(Keyword::By)?;
            Ok(Some(self.name()?))
        } else {
            Ok(None)
        }
    }

    // after SELECT: items FROM name [WHERE cond] [GROUP BY name]
    #[tactic(auto, unfolding(crate::specs::Reading::select_at))]
    pub(crate) fn select(&mut self) -> Result<Select, SqlFault>
        ensures shorter { OnOk result (length self.new.rest.now < length self.old.rest.now) }
        ensures read { (n : ℕ) → length self.old.rest.now < n
            → Gives select_of result self.new.rest.now (reading.select_at n self.old.rest.now) }
    {
        let items = self.items()?;
        self.take_word(Keyword::From)?;
        let table = self.name()?;
        let condition = self.filter()?;
        let grouping = self.grouping()?;
        Ok(Select {
            items,
            table,
            condition,
            grouping,
        })
    }

    // after STATS: a SELECT
    #[tactic(auto, unfolding(crate::specs::Reading::stats_at))]
    pub(crate) fn stats(&mut self) -> Result<Statement, SqlFault>
        ensures shorter { OnOk result (length self.new.rest.now < length self.old.rest.now) }
        ensures read { (n : ℕ) → length self.old.rest.now < n
            → Gives statement_of result self.new.rest.now (reading.stats_at n self.old.rest.now) }
    {
        self.take_word(Keyword::Select)?;
        Ok(Statement::Stats(self.select()?))
    }
}
