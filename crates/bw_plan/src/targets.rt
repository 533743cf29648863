//! The target columns of an INSERT, and whether its values are of their types.

ghost use Rattle.std.specs.Prelude.{All as Every, get_or, length, ◌<◌, ◌≡◌};
ghost use Rattle.std.specs.List.{list_all};
ghost use Rattle.bw_code.specs.Types.{are_of_types, is_null_or_of_type};
ghost use Rattle.bw_code.specs.declared.kind.ColumnType.{ColumnType as AnyType};
ghost use Rattle.bw_code.specs.declared.kind.ColumnType.TheVariants.{Integer};
ghost use Rattle.bw_model.specs.Refusals.{types_named};
ghost use Rattle.bw_plan.specs.Targeting.{names_of};

use crate::headers::Headers;
use bw_code::ColumnType;
use bw_sql::{Name, Value, ValueRows};

/// The target columns of an INSERT: all columns of the table in order, or the listed ones.
#[derive(Clone, Copy)]
pub(crate) enum Targets<'a> {
    All,
    Listed(&'a [Name]),
}

impl<'a> Targets<'a> {
    /// The number of target columns.
    pub(crate) fn len(self, headers: &Headers<'_>) -> usize
        ensures { result ≡ length (names_of headers.now self.entry) }
    {
        match self {
            Targets::All => headers.len(),
            Targets::Listed(names) => names.len(),
        }
    }

    /// The type of target column `k`.
    fn column_type(self, headers: &Headers<'_>, k: usize) -> ColumnType
        requires { k < length (names_of headers.now self) }
        ensures { (d : AnyType) → result ≡ get_or (types_named headers.now (names_of headers.now self.entry)) k d }
    {
        match self {
            Targets::All => headers.column_type(k),
            Targets::Listed(names) => headers.type_named(&names[k]),
        }
    }
}

/// Whether a value is NULL or an integer of the type.
pub(crate) fn is_null_or_of_type(column_type: ColumnType, value: Value) -> bool
    ensures { result ≡ is_null_or_of_type column_type value }
{
    match value {
        Some(number) => column_type.contains(number),
        None => true,
    }
}

/// Whether each value of the rows, which have the targets' width, is of its column's type.
pub(crate) fn rows_fit(headers: &Headers<'_>, targets: Targets<'_>, rows: &ValueRows) -> bool
    requires some { 0 < length (names_of headers.now targets) }
    requires widths { Every (λ row. length row ≡ length (names_of headers.now targets)) rows.now }
    ensures { result ≡ list_all (are_of_types (types_named headers.now (names_of headers.now targets.entry))) rows.now }
{
    // If all columns are INTEGER, no column lookup is needed.
    if headers.are_integer() {
        return are_integers(rows.values());
    }
    let width = targets.len(headers);
    let mut rest = rows.values();
    while !rest.is_empty() {
        let (row, after) = rest.split_at(width);
        if !row_fits(headers, targets, row) {
            return false;
        }
        rest = after;
    }
    true
}

fn are_integers(values: &[Value]) -> bool
    ensures { result ≡ list_all (is_null_or_of_type Integer) values.now }
{
    values
        .iter()
        .all(|value| is_null_or_of_type(ColumnType::Integer, *value))
}

/// Whether each value of a row is of its column's type.
fn row_fits(headers: &Headers<'_>, targets: Targets<'_>, row: &[Value]) -> bool
    requires { length row.now ≡ length (names_of headers.now targets) }
    ensures { result ≡ are_of_types (types_named headers.now (names_of headers.now targets.entry)) row.now }
{
    for k in 0..row.len() {
        if !is_null_or_of_type(targets.column_type(headers, k), row[k]) {
            return false;
        }
    }
    true
}
