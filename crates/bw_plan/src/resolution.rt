//! Resolves the names in a condition to indexes.

ghost use Rattle.std.specs.Prelude.{◌≡◌, IfOk, List, option_map};
ghost use Rattle.bw_model.specs.Condition.{truth_at, truth_of_word};
ghost use Rattle.bw_model.specs.Refusals.{condition_misses, has_long_list, lists_too_long, names_missing, operand_is_missing};
ghost use Rattle.bw_model.specs.Store.{Header as AnyHeader, Row};
ghost use Rattle.bw_plan.specs.Checks.{Decides, condition_tests};
ghost use Rattle.bw_plan.specs.Plans.{plan_of, planned, source_of, truth_by};
ghost use Rattle.bw_sql.specs.Tree.{ConditionTree, condition_of};

use crate::headers::Headers;
use crate::plan::{Predicate, RowCondition, Source};
use bw_mask::TruthValue;
use bw_model::Refusal;
use bw_sql::{Condition, Operand, TruthWord};
use std::alloc::{AllocError, Global};

/// The largest number of entries of an IN list.
const ENTRY_LIMIT: usize = 1_000;

/// Refuses a condition that names a column that doesn't exist, and else one with an IN list of more than 1,000 entries.
pub(crate) fn check_condition(
    headers: &Headers<'_>,
    condition: &Option<Condition>,
) -> Result<(), Refusal>
    ensures { Decides (condition_tests headers.now (option_map condition_of condition.now)) result (λ _. Unit {0}) }
{
    let Some(condition) = condition else {
        return Ok(());
    };
    if names_missing(headers, condition) {
        return Err(Refusal::NoSuchColumn);
    }
    if has_long_list(condition) {
        return Err(Refusal::OverLimit);
    }
    Ok(())
}

/// Whether there is a condition, and it names a column that doesn't exist.
pub(crate) fn misses(headers: &Headers<'_>, condition: &Option<Condition>) -> bool
    ensures { result ≡ condition_misses headers.now (option_map condition_of condition.now) }
{
    match condition {
        Some(condition) => names_missing(headers, condition),
        None => false,
    }
}

/// Whether there is a condition, and one of its IN lists is too long.
pub(crate) fn has_long_lists(condition: &Option<Condition>) -> bool
    ensures { result ≡ lists_too_long (option_map condition_of condition.now) }
{
    match condition {
        Some(condition) => has_long_list(condition),
        None => false,
    }
}

/// Whether the condition names a column that doesn't exist.
fn names_missing(headers: &Headers<'_>, condition: &Condition) -> bool
    ensures { result ≡ names_missing headers.now (condition_of condition.now) }
{
    match condition {
        Condition::And(parts) | Condition::Or(parts) => {
            for part in parts {
                if names_missing(headers, part) {
                    return true;
                }
            }
            false
        }
        Condition::Not(part) | Condition::Is(part, _) => names_missing(headers, part),
        Condition::Compare(left, _, right) => is_missing(headers, left)
            || is_missing(headers, right),
        Condition::Between(value, low, high) => {
            is_missing(headers, value) || is_missing(headers, low) || is_missing(headers, high)
        }
        Condition::In(value, _) | Condition::IsNull(value) => is_missing(headers, value),
    }
}

pub(crate) fn is_missing(headers: &Headers<'_>, operand: &Operand) -> bool
    ensures { result ≡ operand_is_missing headers.now operand.now }
{
    match operand {
        Operand::Column(name) => headers.place(name).is_none(),
        Operand::Constant(_) => false,
    }
}

/// Whether one of the condition's IN lists is too long.
fn has_long_list(condition: &Condition) -> bool
    ensures { result ≡ has_long_list (condition_of condition.now) }
{
    match condition {
        Condition::And(parts) | Condition::Or(parts) => {
            for part in parts {
                if has_long_list(part) {
                    return true;
                }
            }
            false
        }
        Condition::Not(part) | Condition::Is(part, _) => has_long_list(part),
        Condition::In(_, entries) => entries.len() > ENTRY_LIMIT,
        Condition::Compare(_, _, _) | Condition::Between(_, _, _) | Condition::IsNull(_) => false,
    }
}

/// The condition with each column name replaced by its index. A column that doesn't exist is NULL.
pub(crate) fn placed(
    alloc: Global,
    headers: &Headers<'_>,
    condition: &Condition,
) -> Result<RowCondition, AllocError>
    ensures { IfOk result (λ plan. plan_of plan ≡ planned headers.now (condition_of condition.now)) }
{
    match condition {
        Condition::And(parts) => {
            let mut plans = Vec::with_capacity(alloc, parts.len())?;
            for part in parts {
                plans.push(placed(alloc, headers, part)?)?;
            }
            Ok(RowCondition::And(plans))
        }
        Condition::Or(parts) => {
            let mut plans = Vec::with_capacity(alloc, parts.len())?;
            for part in parts {
                plans.push(placed(alloc, headers, part)?)?;
            }
            Ok(RowCondition::Or(plans))
        }
        Condition::Not(part) => {
            let plan = placed(alloc, headers, part)?;
            Ok(RowCondition::Not(Box::new(alloc, plan)?))
        }
        Condition::Is(part, word) => {
            let plan = placed(alloc, headers, part)?;
            Ok(RowCondition::Is(Box::new(alloc, plan)?, truth_of_word(*word)))
        }
        Condition::Compare(left, op, right) => Ok(RowCondition::Test(Predicate::Compare(
            source(headers, left),
            *op,
            source(headers, right),
        ))),
        Condition::Between(value, low, high) => Ok(RowCondition::Test(Predicate::Between(
            source(headers, value),
            source(headers, low),
            source(headers, high),
        ))),
        Condition::In(value, entries) => Ok(RowCondition::Test(Predicate::In(
            source(headers, value),
            Vec::from_slice(alloc, entries)?,
        ))),
        Condition::IsNull(value) => Ok(RowCondition::Test(Predicate::IsNull(source(
            headers, value,
        )))),
    }
}

/// The source of an operand's values. A column that doesn't exist is always NULL.
pub(crate) fn source(headers: &Headers<'_>, operand: &Operand) -> Source
    ensures { result ≡ source_of headers.now operand.now }
{
    match operand {
        Operand::Column(name) => match headers.place(name) {
            Some(place) => Source::Place(place),
            None => Source::Constant(None),
        },
        Operand::Constant(value) => Source::Constant(*value),
    }
}

fn truth_of_word(word: TruthWord) -> TruthValue
    ensures { result ≡ truth_of_word word }
{
    match word {
        TruthWord::True => TruthValue::True,
        TruthWord::False => TruthValue::False,
        TruthWord::Unknown => TruthValue::Unknown,
    }
}

/// A condition with indexes for names has the same truth at each row as the condition itself.
pub fn plans_keep_truth()
    ensures { (headers : List AnyHeader) (row : Row) (condition : ConditionTree) → truth_by (planned headers condition) row ≡ truth_at headers row condition }
{}
