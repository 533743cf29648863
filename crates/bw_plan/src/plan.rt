//! Conditions with columns given by index.

use bw_mask::TruthValue;
use bw_sql::{CompareOp, Value};

/// A condition with columns given by index. A run of AND or of OR is one list.
#[derive(Debug, Drop)]
pub enum RowCondition {
    And(Vec<RowCondition>),
    Or(Vec<RowCondition>),
    Not(Box<RowCondition>),
    /// `condition IS truth`.
    Is(Box<RowCondition>, TruthValue),
    Test(Predicate),
}

/// A predicate over a row.
#[derive(Debug, Drop)]
pub enum Predicate {
    Compare(Source, CompareOp, Source),
    /// `value BETWEEN low AND high`.
    Between(Source, Source, Source),
    /// `value IN (entries)`.
    In(Source, Vec<Value>),
    /// `value IS NULL`.
    IsNull(Source),
}

/// The source of a predicate's value.
#[derive(Clone, Copy, Debug)]
pub enum Source {
    /// The value at this index of the row.
    Place(usize),
    Constant(Value),
}
