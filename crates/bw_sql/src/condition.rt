//! Parsing conditions from terminals, left to right.

ghost use Rattle.std.specs.Prelude.{◌≡◌, ◌<◌, ◌≤◌, ◌∷◌, ℕ, IfOk, List, MatchOption, MatchResult, OnOk, length};
ghost use Rattle.bw_lex.specs.declared.token.CompareOp.{CompareOp as AnyCompareOp};
ghost use Rattle.bw_sql.specs.declared.terminal.Terminal.{Terminal};
ghost use Rattle.bw_sql.specs.Grammar as grammar;
ghost use Rattle.bw_sql.specs.Reading as reading;
ghost use Rattle.bw_sql.specs.Reading.{Gives};
ghost use Rattle.bw_sql.specs.Tree.{condition_of, comparison, conditions_in, negated, tested};

use crate::keyword::Keyword;
use crate::parser::Parser;
use crate::terminal::Terminal;
use crate::tree::{Condition, Operand, TruthWord};
use bw_lex::{CompareOp, SqlFault, Symbol};

impl<'a> Parser<'a> {
    // cond = term {OR term}
    #[cycle(condition)]
    #[tactic(auto, unfolding(crate::specs::Reading::condition_by))]
    pub(crate) fn condition(&mut self) -> Result<Condition, SqlFault>
        ensures shorter { OnOk result (length self.new.rest.now < length self.old.rest.now) }
        ensures read { (n : ℕ) → length self.old.rest.now < n
            → Gives condition_of result self.new.rest.now (reading.condition_by (reading.primary_at n) n self.old.rest.now) }
    {
        let parts = self.terms()?;
        Ok(any_of(parts))
    }

    // term {OR term}
    #[cycle(condition)]
    fn terms(&mut self) -> Result<Vec<Condition>, SqlFault>
        ensures some { IfOk result (λ parts. 0 < length parts.items) }
        ensures shorter { OnOk result (length self.new.rest.now < length self.old.rest.now) }
        ensures read { (n : ℕ) → length self.old.rest.now < n
            → Gives conditions_in result self.new.rest.now (reading.parts_at reading.after_or (reading.term_by (reading.primary_at n) n) n self.old.rest.now) }
    {
        let mut parts = Vec::new(self.alloc);
        parts.push(self.term()?)?;
        while self.eat_word(Keyword::Or) {
            parts.push(self.term()?)?;
        }
        Ok(parts)
    }

    // term = factor {AND factor}
    #[cycle(condition)]
    #[tactic(auto, unfolding(crate::specs::Reading::term_by))]
    fn term(&mut self) -> Result<Condition, SqlFault>
        ensures shorter { OnOk result (length self.new.rest.now < length self.old.rest.now) }
        ensures read { (n : ℕ) → length self.old.rest.now < n
            → Gives condition_of result self.new.rest.now (reading.term_by (reading.primary_at n) n self.old.rest.now) }
    {
        let parts = self.factors()?;
        Ok(all_of(parts))
    }

    // factor {AND factor}
    #[cycle(condition)]
    fn factors(&mut self) -> Result<Vec<Condition>, SqlFault>
        ensures some { IfOk result (λ parts. 0 < length parts.items) }
        ensures shorter { OnOk result (length self.new.rest.now < length self.old.rest.now) }
        ensures read { (n : ℕ) → length self.old.rest.now < n
            → Gives conditions_in result self.new.rest.now (reading.parts_at reading.after_and (reading.factor_by (reading.primary_at n)) n self.old.rest.now) }
    {
        let mut parts = Vec::new(self.alloc);
        parts.push(self.factor()?)?;
        while self.eat_word(Keyword::And) {
            parts.push(self.factor()?)?;
        }
        Ok(parts)
    }

    // factor = [NOT] test
    #[cycle(condition)]
    #[tactic(auto, unfolding(crate::specs::Reading::factor_by))]
    fn factor(&mut self) -> Result<Condition, SqlFault>
        ensures shorter { OnOk result (length self.new.rest.now < length self.old.rest.now) }
        ensures read { (n : ℕ) → length self.old.rest.now < n
            → Gives condition_of result self.new.rest.now (reading.factor_by (reading.primary_at n) self.old.rest.now) }
    {
        if self.eat_word(Keyword::Not) {
            let part = self.test()?;
            self.negated(part)
        } else {
            self.test()
        }
    }

    // test = primary [IS [NOT] truth]
    #[cycle(condition)]
    #[tactic(auto, unfolding(crate::specs::Reading::test_by))]
    fn test(&mut self) -> Result<Condition, SqlFault>
        ensures shorter { OnOk result (length self.new.rest.now < length self.old.rest.now) }
        ensures read { (n : ℕ) → length self.old.rest.now < n
            → Gives condition_of result self.new.rest.now (reading.test_by (reading.primary_at n) self.old.rest.now) }
    {
        let condition = self.primary()?;
        self.tested(condition)
    }

    // primary = ( cond ) | predicate
    #[cycle(condition)]
    #[tactic(auto, unfolding(crate::specs::Reading::primary_at))]
    fn primary(&mut self) -> Result<Condition, SqlFault>
        ensures shorter { OnOk result (length self.new.rest.now < length self.old.rest.now) }
        ensures read { (n : ℕ) → length self.old.rest.now < n
            → Gives condition_of result self.new.rest.now (reading.primary_at n self.old.rest.now) }
    {
        if self.eat(Symbol::Open) {
            let inner = self.condition()?;
            self.take(Symbol::Close)?;
            Ok(inner)
        } else {
            self.predicate()
        }
    }

    // after a condition: [IS [NOT] truth]
    #[tactic(auto, unfolding(crate::specs::Reading::tested_at))]
    fn tested(&mut self, condition: Condition) -> Result<Condition, SqlFault>
        ensures no_longer { OnOk result (length self.new.rest.now ≤ length self.old.rest.now) }
        ensures read { Gives condition_of result self.new.rest.now (reading.tested_at (condition_of condition) self.old.rest.now) }
    {
        if self.eat_word(Keyword::Is) {
            self.truth_test(condition)
        } else {
            Ok(condition)
        }
    }

    // after a condition and IS: [NOT] truth
    #[tactic(auto, unfolding(crate::specs::Reading::is_at))]
    fn truth_test(&mut self, condition: Condition) -> Result<Condition, SqlFault>
        ensures no_longer { OnOk result (length self.new.rest.now ≤ length self.old.rest.now) }
        ensures read { Gives condition_of result self.new.rest.now (reading.is_at (condition_of condition) self.old.rest.now) }
    {
        if self.eat_word(Keyword::Not) {
            let word = self.truth()?;
            let test = self.is(condition, word)?;
            self.negated(test)
        } else {
            let word = self.truth()?;
            self.is(condition, word)
        }
    }

    // TRUE | FALSE | UNKNOWN
    #[tactic(auto, unfolding(crate::specs::Reading::truth_at))]
    fn truth(&mut self) -> Result<TruthWord, SqlFault>
        ensures shorter { OnOk result (length self.new.rest.now < length self.old.rest.now) }
        ensures read { Gives (λ word. word) result self.new.rest.now (reading.truth_at self.old.rest.now) }
    {
        if self.eat_word(Keyword::True) {
            Ok(TruthWord::True)
        } else if self.eat_word(Keyword::False) {
            Ok(TruthWord::False)
        } else if self.eat_word(Keyword::Unknown) {
            Ok(TruthWord::Unknown)
        } else {
            Err(SqlFault::Syntax)
        }
    }

    // predicate
    #[tactic(auto, unfolding(crate::specs::Reading::predicate_at))]
    fn predicate(&mut self) -> Result<Condition, SqlFault>
        ensures shorter { OnOk result (length self.new.rest.now < length self.old.rest.now) }
        ensures read { (n : ℕ) → length self.old.rest.now < n
            → Gives condition_of result self.new.rest.now (reading.predicate_at n self.old.rest.now) }
    {
        let operand = self.operand()?;
        self.tail(operand)
    }

    // operand = value | name
    #[tactic(auto, unfolding(crate::specs::Reading::operand_at, crate::specs::Reading::value_at, crate::specs::Reading::literal_at, crate::specs::Reading::number_at))]
    pub(crate) fn operand(&mut self) -> Result<Operand, SqlFault>
        ensures shorter { OnOk result (length self.new.rest.now < length self.old.rest.now) }
        ensures read { Gives (λ operand. operand) result self.new.rest.now (reading.operand_at self.old.rest.now) }
    {
        match self.rest {
            [first, rest @ ..] => match first {
                Terminal::Name(word) => {
                    self.rest = rest;
                    Ok(Operand::Column(word.to_name(self.alloc)?))
                }
                _ => Ok(Operand::Constant(self.value()?)),
            },
            [] => Err(SqlFault::Syntax),
        }
    }

    // after an operand: compare operand | [NOT] BETWEEN .. | [NOT] IN .. | IS [NOT] NULL
    #[tactic(auto, unfolding(crate::specs::Reading::tail_at, crate::specs::Reading::range_at))]
    fn tail(&mut self, operand: Operand) -> Result<Condition, SqlFault>
        ensures shorter { OnOk result (length self.new.rest.now < length self.old.rest.now) }
        ensures read { (n : ℕ) → length self.old.rest.now < n
            → Gives condition_of result self.new.rest.now (reading.tail_at n operand self.old.rest.now) }
    {
        if self.eat_word(Keyword::Is) {
            self.null_test(operand)
        } else if self.eat_word(Keyword::Not) {
            let test = self.range(operand)?;
            self.negated(test)
        } else {
            match self.eat_comparison() {
                Some(op) => self.comparison(operand, op),
                None => self.range(operand),
            }
        }
    }

    // Takes the next terminal if it is a comparison.
    fn eat_comparison(&mut self) -> Option<CompareOp>
        ensures { MatchOption result
            ((self.new.rest.now ≡ self.old.rest.now) × ((op : AnyCompareOp) (ts : List Terminal) → self.old.rest.now ≡ Terminal.Symbol (Symbol.Compare op) ∷ ts → ⊥))
            (λ op. self.old.rest.now ≡ Terminal.Symbol (Symbol.Compare op) ∷ self.new.rest.now) }
    {
        match self.rest {
            [first, rest @ ..] => match first {
                Terminal::Symbol(Symbol::Compare(op)) => {
                    self.rest = rest;
                    Some(*op)
                }
                _ => None,
            },
            [] => None,
        }
    }

    // after an operand and a comparison: operand
    fn comparison(&mut self, operand: Operand, op: CompareOp) -> Result<Condition, SqlFault>
        ensures shorter { OnOk result (length self.new.rest.now < length self.old.rest.now) }
        ensures read { Gives condition_of result self.new.rest.now (reading.map_first (comparison operand op) (reading.operand_at self.old.rest.now)) }
    {
        let other = self.operand()?;
        Ok(Condition::Compare(operand, op, other))
    }

    // after an operand and IS: [NOT] NULL
    #[tactic(auto, unfolding(crate::specs::Reading::null_at))]
    fn null_test(&mut self, operand: Operand) -> Result<Condition, SqlFault>
        ensures shorter { OnOk result (length self.new.rest.now < length self.old.rest.now) }
        ensures read { Gives condition_of result self.new.rest.now (reading.null_at operand self.old.rest.now) }
    {
        if self.eat_word(Keyword::Null) {
            Ok(Condition::IsNull(operand))
        } else {
            self.take_word(Keyword::Not)?;
            self.take_word(Keyword::Null)?;
            self.negated(Condition::IsNull(operand))
        }
    }

    // after an operand: BETWEEN operand AND operand | IN ( value {, value} )
    #[tactic(auto, unfolding(crate::specs::Reading::range_at))]
    fn range(&mut self, operand: Operand) -> Result<Condition, SqlFault>
        ensures shorter { OnOk result (length self.new.rest.now < length self.old.rest.now) }
        ensures read { (n : ℕ) → length self.old.rest.now < n
            → Gives condition_of result self.new.rest.now (reading.range_at n operand self.old.rest.now) }
    {
        if self.eat_word(Keyword::Between) {
            self.between(operand)
        } else {
            self.take_word(Keyword::In)?;
            self.among(operand)
        }
    }

    // after an operand and BETWEEN: operand AND operand
    #[tactic(auto, unfolding(crate::specs::Reading::bounds_at))]
    fn between(&mut self, operand: Operand) -> Result<Condition, SqlFault>
        ensures shorter { OnOk result (length self.new.rest.now < length self.old.rest.now) }
        ensures read { Gives condition_of result self.new.rest.now (reading.bounds_at operand self.old.rest.now) }
    {
        let low = self.operand()?;
        self.take_word(Keyword::And)?;
        Ok(Condition::Between(operand, low, self.operand()?))
    }

    // after an operand and IN: ( value {, value} )
    #[tactic(auto, unfolding(crate::specs::Reading::among_at))]
    fn among(&mut self, operand: Operand) -> Result<Condition, SqlFault>
        ensures shorter { OnOk result (length self.new.rest.now < length self.old.rest.now) }
        ensures read { (n : ℕ) → length self.old.rest.now < n
            → Gives condition_of result self.new.rest.now (reading.among_at n operand self.old.rest.now) }
    {
        self.take(Symbol::Open)?;
        let mut values = Vec::new(self.alloc);
        self.values(&mut values)?;
        self.take(Symbol::Close)?;
        Ok(Condition::In(operand, values))
    }

    fn negated(&self, condition: Condition) -> Result<Condition, SqlFault>
        ensures { MatchResult result (λ c. condition_of c ≡ negated (condition_of condition)) (λ fault. fault ≡ SqlFault.Memory) }
    {
        Ok(Condition::Not(Box::new(self.alloc, condition)?))
    }

    fn is(&self, condition: Condition, word: TruthWord) -> Result<Condition, SqlFault>
        ensures { MatchResult result (λ c. condition_of c ≡ tested (condition_of condition) word) (λ fault. fault ≡ SqlFault.Memory) }
    {
        Ok(Condition::Is(Box::new(self.alloc, condition)?, word))
    }
}

// One part is itself, two or more are a chain of OR.
fn any_of(mut parts: Vec<Condition>) -> Condition
    requires { 0 < length parts.items }
    ensures { condition_of result ≡ grammar.any_of (conditions_in parts) }
{
    if parts.len() == 1 {
        parts.remove(0)
    } else {
        Condition::Or(parts)
    }
}

// One part is itself, two or more are a chain of AND.
fn all_of(mut parts: Vec<Condition>) -> Condition
    requires { 0 < length parts.items }
    ensures { condition_of result ≡ grammar.all_of (conditions_in parts) }
{
    if parts.len() == 1 {
        parts.remove(0)
    } else {
        Condition::And(parts)
    }
}
