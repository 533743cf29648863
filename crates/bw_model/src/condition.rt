//! The truth of a condition at a row.

ghost use Rattle.std.specs.Prelude.{◌≡◌, IfOk, map, option_map};
ghost use Rattle.bw_model.specs.Condition.{compared, found_rows, is_found, is_one_of, lies_between, order_meets, truth_at, truth_of_word, value_of};
ghost use Rattle.bw_sql.specs.Tree.{condition_of};

use crate::store::{Row, Table, place_of, value_from};
use bw_code::Header;
use bw_mask::TruthValue;
use bw_sql::{CompareOp, Condition, Name, Operand, TruthWord, Value};
use std::alloc::{AllocError, Global};
use std::cmp::Ordering;

/// Whether numbers in this order satisfy the comparison.
fn order_meets(op: CompareOp, order: Ordering) -> bool
    ensures { result ≡ order_meets op order }
{
    match op {
        CompareOp::Eq => order == Ordering::Equal,
        CompareOp::Ne => order != Ordering::Equal,
        CompareOp::Lt => order == Ordering::Less,
        CompareOp::Le => order != Ordering::Greater,
        CompareOp::Gt => order == Ordering::Greater,
        CompareOp::Ge => order != Ordering::Less,
    }
}

/// A comparison with NULL on either side is unknown.
fn compared(op: CompareOp, left: Value, right: Value) -> TruthValue
    ensures { result ≡ compared op left right }
{
    match (left, right) {
        (Some(left), Some(right)) if order_meets(op, left.cmp(&right)) => TruthValue::True,
        (Some(_), Some(_)) => TruthValue::False,
        _ => TruthValue::Unknown,
    }
}

pub(crate) fn value_of(headers: &[Header<Name>], row: &Row, operand: &Operand) -> Value
    ensures { result ≡ value_of headers.now row.now operand.now }
{
    match operand {
        Operand::Column(name) => value_from(row.values(), place_of(headers, name)),
        Operand::Constant(value) => *value,
    }
}

fn truth_of_word(word: TruthWord) -> TruthValue
    ensures { result ≡ truth_of_word word }
{
    match word {
        TruthWord::True => TruthValue::True,
        TruthWord::False => TruthValue::False,
        TruthWord::Unknown => TruthValue::Unknown,
    }
}

/// `x BETWEEN low AND high` is `x >= low AND x <= high`.
fn lies_between(value: Value, low: Value, high: Value) -> TruthValue
    ensures { result ≡ lies_between value low high }
{
    compared(CompareOp::Ge, value, low).and(compared(CompareOp::Le, value, high))
}

/// `x IN (a, b)` is `x = a OR x = b`.
#[tactic(auto, using(bw_mask::proofs::Tables::or_of_assoc, bw_mask::proofs::Tables::or_of_False))]
fn is_one_of(value: Value, entries: &[Value]) -> TruthValue
    ensures { result ≡ is_one_of value entries.now }
{
    let mut found = TruthValue::False;
    for entry in entries {
        found = found.or(compared(CompareOp::Eq, value, *entry));
    }
    found
}

/// The truth of a condition at a row of these columns.
#[tactic(auto, using(bw_mask::proofs::Tables::and_of_assoc, bw_mask::proofs::Tables::or_of_assoc, bw_mask::proofs::Tables::and_of_True, bw_mask::proofs::Tables::or_of_False))]
pub fn truth_at(headers: &[Header<Name>], row: &Row, condition: &Condition) -> TruthValue
    ensures { result ≡ truth_at headers.now row.now (condition_of condition.now) }
{
    match condition {
        Condition::And(parts) => {
            let mut all = TruthValue::True;
            for part in parts {
                all = all.and(truth_at(headers, row, part));
            }
            all
        }
        Condition::Or(parts) => {
            let mut some = TruthValue::False;
            for part in parts {
                some = some.or(truth_at(headers, row, part));
            }
            some
        }
        Condition::Not(part) => truth_at(headers, row, part).not(),
        Condition::Is(part, word) => {
            TruthValue::of(truth_at(headers, row, part).is(truth_of_word(*word)))
        }
        Condition::Compare(left, op, right) => compared(
            *op,
            value_of(headers, row, left),
            value_of(headers, row, right),
        ),
        Condition::Between(operand, low, high) => lies_between(
            value_of(headers, row, operand),
            value_of(headers, row, low),
            value_of(headers, row, high),
        ),
        Condition::In(operand, entries) => is_one_of(value_of(headers, row, operand), entries),
        Condition::IsNull(operand) => TruthValue::of(value_of(headers, row, operand).is_none()),
    }
}

/// Every row is found where there is no condition.
pub(crate) fn is_found(headers: &[Header<Name>], condition: &Option<Condition>, row: &Row) -> bool
    ensures { result ≡ is_found headers.now (option_map condition_of condition.now) row.now }
{
    match condition {
        None => true,
        Some(condition) => truth_at(headers, row, condition) == TruthValue::True,
    }
}

/// The rows at which the condition is true, in order.
pub fn found_rows<'a>(
    alloc: Global,
    table: &'a Table,
    condition: &Option<Condition>,
) -> Result<Vec<&'a Row>, AllocError>
    ensures { IfOk result (λ rows. map (λ row. row.now) rows.items ≡ found_rows table.now (option_map condition_of condition.now)) }
{
    table
        .rows()
        .iter()
        .filter(|row| is_found(table.headers(), condition, row))
        .collect(alloc)
}
