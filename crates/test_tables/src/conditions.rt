//! Conditions of a table of two columns: as the program takes them, and their truth in a plain row by SQL-92's logic of
//! three truths.

use bw_plan::{Predicate, RowCondition, Source};
use bw_sql::CompareOp;
use std::process::Abort;

/// The values of the two columns.
pub(crate) type Row = [Option<i64>; 2];

/// A comparison of the values of two sources.
#[derive(Clone, Copy, Debug)]
pub(crate) struct Comparison(pub(crate) Source, pub(crate) CompareOp, pub(crate) Source);

/// A condition of a table of two columns.
#[derive(Clone, Copy, Debug)]
pub(crate) enum Condition {
    Compare(Comparison),
    Between(Source, Source, Source),
    NotBetween(Source, Source, Source),
    IsNull(Source),
    And(Comparison, Comparison),
    Or(Comparison, Comparison),
}

pub(crate) fn number(value: i64) -> Source {
    Source::Constant(Some(value))
}

pub(crate) fn two<R: Abort + AllocGlobal>(
    rt: &R,
    first: RowCondition,
    second: RowCondition,
) -> Vec<RowCondition> {
    let mut parts = Vec::new(rt.alloc());
    parts.push(first).expect(rt, "memory");
    parts.push(second).expect(rt, "memory");
    parts
}

fn test_of(comparison: Comparison) -> RowCondition {
    let Comparison(left, op, right) = comparison;
    RowCondition::Test(Predicate::Compare(left, op, right))
}

/// The condition as the program takes it.
pub(crate) fn row_condition<R: Abort + AllocGlobal>(rt: &R, condition: Condition) -> RowCondition {
    match condition {
        Condition::Compare(comparison) => test_of(comparison),
        Condition::Between(value, low, high) => {
            RowCondition::Test(Predicate::Between(value, low, high))
        }
        Condition::NotBetween(value, low, high) => {
            let between = RowCondition::Test(Predicate::Between(value, low, high));
            RowCondition::Not(Box::new(rt.alloc(), between).expect(rt, "memory"))
        }
        Condition::IsNull(value) => RowCondition::Test(Predicate::IsNull(value)),
        Condition::And(first, second) => RowCondition::And(two(
            rt,
            test_of(first),
            test_of(second),
        )),
        Condition::Or(first, second) => RowCondition::Or(two(rt, test_of(first), test_of(second))),
    }
}

fn value_in(row: Row, source: Source) -> Option<i64> {
    match source {
        Source::Place(place) => row[place % 2],
        Source::Constant(value) => value,
    }
}

/// Whether the comparison of two numbers holds.
fn holds(x: i64, op: CompareOp, y: i64) -> bool {
    match op {
        CompareOp::Eq => x == y,
        CompareOp::Ne => x != y,
        CompareOp::Lt => x < y,
        CompareOp::Le => x <= y,
        CompareOp::Gt => x > y,
        CompareOp::Ge => x >= y,
    }
}

/// The truth of a comparison, `None` if it is unknown.
fn compared_in(row: Row, comparison: Comparison) -> Option<bool> {
    let Comparison(left, op, right) = comparison;
    match (value_in(row, left), value_in(row, right)) {
        (Some(x), Some(y)) => Some(holds(x, op, y)),
        _ => None,
    }
}

fn not(truth: Option<bool>) -> Option<bool> {
    match truth {
        Some(holds) => Some(!holds),
        None => None,
    }
}

fn and(truth: Option<bool>, other: Option<bool>) -> Option<bool> {
    match (truth, other) {
        (Some(false), _) | (_, Some(false)) => Some(false),
        (Some(true), Some(true)) => Some(true),
        _ => None,
    }
}

fn or(truth: Option<bool>, other: Option<bool>) -> Option<bool> {
    not(and(not(truth), not(other)))
}

/// The truth of `value BETWEEN low AND high`: at least the one and at most the other.
fn between_in(row: Row, value: Source, low: Source, high: Source) -> Option<bool> {
    and(
        compared_in(row, Comparison(value, CompareOp::Ge, low)),
        compared_in(row, Comparison(value, CompareOp::Le, high)),
    )
}

/// The truth of a condition in a row, `None` if it is unknown.
pub(crate) fn truth_in(row: Row, condition: Condition) -> Option<bool> {
    match condition {
        Condition::Compare(comparison) => compared_in(row, comparison),
        Condition::Between(value, low, high) => between_in(row, value, low, high),
        Condition::NotBetween(value, low, high) => not(between_in(row, value, low, high)),
        Condition::IsNull(value) => Some(value_in(row, value).is_none()),
        Condition::And(first, second) => and(compared_in(row, first), compared_in(row, second)),
        Condition::Or(first, second) => or(compared_in(row, first), compared_in(row, second)),
    }
}
