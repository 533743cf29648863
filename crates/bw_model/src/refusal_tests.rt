//! Why a statement is refused.

ghost use Rattle.std.specs.Prelude.{◌≡◌, ◌==◌, ◌||◌, IfOk, Option, length, map, nat_le, nat_lt, option_map};
ghost use Rattle.std.specs.List.{list_all, list_any};
ghost use Rattle.bw_model.specs.Refusals.{chosen_columns, condition_misses, copy_test, create_tests, delete_tests, fault_test, first_that_holds, fits_in, has_long_list, insert_tests, is_missing, is_too_narrow, lists_too_long, load_tests, may_be_set, names_missing, open_tests, operand_is_missing, rebuild_tests, save_tests, set_columns, set_tests, types_named};
ghost use Rattle.bw_model.specs.Contents.{is_missing_file, is_no_table, is_too_large, lines_in, units_in};
ghost use Rattle.bw_code.specs.Types.{are_of_types, is_null_or_of_type};
ghost use Rattle.bw_model.specs.Changes.{chosen_header};
ghost use Rattle.bw_model.specs.Condition.{found_rows};
ghost use Rattle.bw_model.specs.Store.{Table as AnyTable, column_limit, names as names_of, table_limit, type_named};
ghost use Rattle.bw_sql.specs.Tree.{ConditionTree, condition_of};

use crate::condition::value_of;
use crate::content::Content;
use crate::file_length::is_too_long;
use crate::refusal::Refusal;
use crate::store::{Row, Table, are_distinct, place_of, table_of, type_named};
use bw_code::{ColumnType, Header};
use bw_sql::{Condition, LayoutChoice, Name, Operand, SetClause, Value};
use std::alloc::{AllocError, Global};

/// The greatest number of columns of a table.
const COLUMN_LIMIT: usize = 64;

/// The greatest number of tables in a store.
const TABLE_LIMIT: usize = 64;

/// The greatest number of rows of a table.
const ROW_LIMIT: usize = 16_777_216;

/// The greatest number of entries in an IN list.
const ENTRY_LIMIT: usize = 1_000;

/// A refusal, and whether it applies.
pub(crate) type Test = (Refusal, bool);

/// The first refusal that applies.
pub(crate) fn first_that_holds(tests: &[Test]) -> Option<Refusal>
    ensures { result ≡ first_that_holds tests.now }
{
    match tests {
        [] => None,
        [test, _rest @ ..] if test.1 => Some(test.0),
        [_test, rest @ ..] => first_that_holds(rest),
    }
}

pub(crate) fn is_missing(headers: &[Header<Name>], name: &Name) -> bool
    ensures { result ≡ is_missing headers.now name.now }
{
    place_of(headers, name).is_none()
}

fn operand_is_missing(headers: &[Header<Name>], operand: &Operand) -> bool
    ensures { result ≡ operand_is_missing headers.now operand.now }
{
    match operand {
        Operand::Column(name) => is_missing(headers, name),
        Operand::Constant(_) => false,
    }
}

/// Whether the condition names a column that doesn't exist.
fn names_missing(headers: &[Header<Name>], condition: &Condition) -> bool
    ensures { result ≡ names_missing headers.now (condition_of condition.now) }
{
    match condition {
        Condition::And(parts) | Condition::Or(parts) => {
            for part in parts {
                if names_missing(headers, part) {
                    return true;
                }
            }
            false
        }
        Condition::Not(part) | Condition::Is(part, _) => names_missing(headers, part),
        Condition::Compare(left, _, right) => {
            operand_is_missing(headers, left) || operand_is_missing(headers, right)
        }
        Condition::Between(operand, low, high) => {
            operand_is_missing(headers, operand)
                || operand_is_missing(headers, low)
                || operand_is_missing(headers, high)
        }
        Condition::In(operand, _) | Condition::IsNull(operand) => {
            operand_is_missing(headers, operand)
        }
    }
}

/// Whether an IN list of the condition is too long.
fn has_long_list(condition: &Condition) -> bool
    ensures { result ≡ has_long_list (condition_of condition.now) }
{
    match condition {
        Condition::And(parts) | Condition::Or(parts) => {
            for part in parts {
                if has_long_list(part) {
                    return true;
                }
            }
            false
        }
        Condition::Not(part) | Condition::Is(part, _) => has_long_list(part),
        Condition::In(_, entries) => entries.len() > ENTRY_LIMIT,
        Condition::Compare(_, _, _) | Condition::Between(_, _, _) | Condition::IsNull(_) => false,
    }
}

pub(crate) fn condition_misses(headers: &[Header<Name>], condition: &Option<Condition>) -> bool
    ensures { result ≡ condition_misses headers.now (option_map condition_of condition.now) }
{
    match condition {
        None => false,
        Some(condition) => names_missing(headers, condition),
    }
}

pub(crate) fn lists_too_long(condition: &Option<Condition>) -> bool
    ensures { result ≡ lists_too_long (option_map condition_of condition.now) }
{
    match condition {
        None => false,
        Some(condition) => has_long_list(condition),
    }
}

/// Whether a value is NULL or an integer of the type.
fn is_null_or_of_type(column_type: ColumnType, value: Value) -> bool
    ensures { result ≡ is_null_or_of_type column_type value }
{
    match value {
        None => true,
        Some(number) => column_type.contains(number),
    }
}

/// Whether a layout is given that can't hold the column's type.
fn is_too_narrow(header: &Header<Name>) -> bool
    ensures { result ≡ is_too_narrow header.now }
{
    !header.layout.holds(header.column_type)
}

fn any_is_too_narrow(headers: &[Header<Name>]) -> bool
    ensures { result ≡ list_any is_too_narrow headers.now }
{
    headers.iter().any(is_too_narrow)
}

/// The tests of CREATE TABLE; these are the names of the columns.
pub(crate) fn create_tests(
    names: &[Name],
    columns: &[Header<Name>],
    name: &Name,
    tables: &[(Name, Table)],
) -> [Test; 4]
    requires { names.now ≡ names_of columns.now }
    ensures { result ≡ create_tests columns.now name.now tables.now }
{
    [
        (Refusal::TableExists, table_of(tables, name).is_some()),
        (Refusal::ColumnNamedTwice, !are_distinct(names)),
        (
            Refusal::OverLimit,
            is_over_limit(columns.len(), tables.len()),
        ),
        (Refusal::LayoutTooNarrow, any_is_too_narrow(columns)),
    ]
}

/// Whether there is no column or too many, or one more table would be too many.
fn is_over_limit(columns: usize, tables: usize) -> bool
    ensures { result ≡ (columns == 0 || nat_lt column_limit columns || nat_le table_limit tables) }
{
    columns == 0 || columns > COLUMN_LIMIT || tables >= TABLE_LIMIT
}

/// The tests of INSERT over a table; these are the types of the columns that the values are for.
pub(crate) fn insert_tests(
    columns: &[Name],
    types: &[ColumnType],
    rows: &[Row],
    table: &Table,
) -> [Test; 5]
    requires { types.now ≡ types_named table.now.headers columns.now }
    ensures { result ≡ insert_tests columns.now rows.now table.now }
{
    let width = columns.len();
    let count = table.rows().len() + rows.len();
    [
        (Refusal::NoSuchColumn, misses_any(table.headers(), columns)),
        (Refusal::ColumnNamedTwice, !are_distinct(columns)),
        (Refusal::WrongNumberOfValues, !are_of_width(rows, width)),
        (Refusal::OutOfRange, !all_are_of_types(types, rows)),
        (Refusal::TableFull, count > ROW_LIMIT),
    ]
}

/// The tests of UPDATE that read no row, and the columns that it sets, for a table of these columns.
pub(crate) fn set_tests(
    columns: &[Name],
    headers: &[Header<Name>],
    sets: &[SetClause],
    condition: &Option<Condition>,
) -> [Test; 6]
    requires { columns.now ≡ set_columns sets.now }
    ensures { result ≡ set_tests headers.now sets.now (option_map condition_of condition.now) }
{
    [
        (Refusal::NoSuchColumn, misses_any(headers, columns)),
        (Refusal::NoSuchColumn, misses_source(headers, sets)),
        (Refusal::NoSuchColumn, condition_misses(headers, condition)),
        (Refusal::ColumnNamedTwice, !are_distinct(columns)),
        (Refusal::OverLimit, lists_too_long(condition)),
        (Refusal::OutOfRange, !may_all_be_set(headers, sets)),
    ]
}

/// Whether a right side is a column that doesn't exist.
fn misses_source(headers: &[Header<Name>], sets: &[SetClause]) -> bool
    ensures { result ≡ list_any (λ set. operand_is_missing headers.now set.source) sets.now }
{
    sets.iter()
        .any(|set| operand_is_missing(headers, &set.source))
}

fn may_all_be_set(headers: &[Header<Name>], sets: &[SetClause]) -> bool
    ensures { result ≡ list_all (λ set. may_be_set (type_named headers.now set.column) set.source) sets.now }
{
    sets.iter().all(|set| may_be_set(type_named(headers, &set.column), &set.source))
}

/// Whether a column of a type may be set to this, as far as it can be decided without reading a row: a literal has to
/// be of the type.
fn may_be_set(column_type: ColumnType, source: &Operand) -> bool
    ensures { result ≡ may_be_set column_type source.now }
{
    match source {
        Operand::Column(_) => true,
        Operand::Constant(value) => is_null_or_of_type(column_type, *value),
    }
}

/// Whether the value that each column is set to in a row is of its type.
fn fits_in(headers: &[Header<Name>], sets: &[SetClause], row: &Row) -> bool
    ensures { result ≡ fits_in headers.now sets.now row.now }
{
    sets.iter().all(|set| {
        is_null_or_of_type(
            type_named(headers, &set.column),
            value_of(headers, row, &set.source),
        )
    })
}

/// The test of UPDATE over a table that reads the found rows.
pub(crate) fn copy_test(headers: &[Header<Name>], sets: &[SetClause], found: &[&Row]) -> Test
    ensures { (table : AnyTable) (condition : Option ConditionTree) → headers.now ≡ table.headers → map (λ row. row.now) found.now ≡ found_rows table condition
        → result ≡ copy_test sets.now condition table }
{
    (Refusal::OutOfRange, !all_fit_in(headers, sets, found))
}

fn all_fit_in(headers: &[Header<Name>], sets: &[SetClause], found: &[&Row]) -> bool
    ensures { result ≡ list_all (fits_in headers.now sets.now) (map (λ row. row.now) found.now) }
{
    match found {
        [] => true,
        [row, rest @ ..] => fits_in(headers, sets, row) && all_fit_in(headers, sets, rest),
    }
}

/// The tests of DELETE over a table.
pub(crate) fn delete_tests(condition: &Option<Condition>, table: &Table) -> [Test; 2]
    ensures { result ≡ delete_tests (option_map condition_of condition.now) table.now }
{
    let headers = table.headers();
    [
        (Refusal::NoSuchColumn, condition_misses(headers, condition)),
        (Refusal::OverLimit, lists_too_long(condition)),
    ]
}

/// The tests of REBUILD over a table: these columns are to be rebuilt, and these are all columns with the layouts and
/// kinds chosen for them.
pub(crate) fn rebuild_tests(
    columns: &[Name],
    chosen: &[Header<Name>],
    choices: &[LayoutChoice],
    table: &Table,
) -> [Test; 3]
    requires columns { columns.now ≡ chosen_columns choices.now }
    requires chosen { chosen.now ≡ map (chosen_header choices.now) table.now.headers }
    ensures { result ≡ rebuild_tests choices.now table.now }
{
    [
        (Refusal::NoSuchColumn, misses_any(table.headers(), columns)),
        (Refusal::ColumnNamedTwice, !are_distinct(columns)),
        (Refusal::LayoutTooNarrow, any_is_too_narrow(chosen)),
    ]
}

pub(crate) fn misses_any(headers: &[Header<Name>], columns: &[Name]) -> bool
    ensures { result ≡ list_any (is_missing headers.now) columns.now }
{
    columns.iter().any(|name| is_missing(headers, name))
}

fn are_of_width(rows: &[Row], width: usize) -> bool
    ensures { result ≡ list_all (λ row. length row == width) rows.now }
{
    rows.iter().all(|row| row.values().len() == width)
}

fn all_are_of_types(types: &[ColumnType], rows: &[Row]) -> bool
    ensures { result ≡ list_all (are_of_types types.now) rows.now }
{
    rows.iter().all(|row| are_of_types(types, row.values()))
}

/// Whether each value of a row is of its column's type, up to the end of the shorter list.
fn are_of_types(types: &[ColumnType], values: &[Value]) -> bool
    ensures { result ≡ are_of_types types.now values.now }
{
    match types {
        [] => true,
        [column_type, types @ ..] => match values {
            [] => true,
            [value, values @ ..] => {
                is_null_or_of_type(*column_type, *value) && are_of_types(types, values)
            }
        },
    }
}

/// Whether the file doesn't exist or can't be read.
fn is_missing_file(said: &Content) -> bool
    ensures { result ≡ is_missing_file said.now }
{
    matches!(said, Content::Missing)
}

/// Whether the file is longer than a file may be.
fn is_too_large(said: &Content) -> bool
    ensures { result ≡ is_too_large said.now }
{
    matches!(said, Content::TooLarge)
}

/// Whether the file is not a valid table file.
fn is_no_table(said: &Content) -> bool
    ensures { result ≡ is_no_table said.now }
{
    !matches!(said, Content::Held(_))
}

/// The fault of a CSV file, if it has one.
fn fault_test(said: &Content) -> Test
    ensures { result ≡ fault_test said.now }
{
    match said {
        Content::Fault(fault) => (Refusal::from(*fault), true),
        _ => (Refusal::OutOfRange, false),
    }
}

/// How many units a condition reads.
pub(crate) fn units_in(said: &Content) -> u64
    ensures { result ≡ units_in said.now }
{
    match said {
        Content::Counted(units) => *units,
        _ => 0,
    }
}

/// The rows that a CSV file contains.
pub(crate) fn lines_in(said: &Content) -> &[Row]
    ensures { result.now ≡ lines_in said.now }
{
    match said {
        Content::Lines(rows) => rows.as_slice(),
        _ => &[],
    }
}

/// The tests of LOAD over a table, with the content of its file.
pub(crate) fn load_tests(said: &Content, table: &Table) -> [Test; 4]
    ensures { result ≡ load_tests said.now table.now }
{
    let count = table.rows().len() + lines_in(said).len();
    [
        (Refusal::UnreadableFile, is_missing_file(said)),
        (Refusal::FileTooLarge, is_too_large(said)),
        fault_test(said),
        (Refusal::TableFull, count > ROW_LIMIT),
    ]
}

/// The tests of OPEN, with the content of its file.
pub(crate) fn open_tests(name: &Name, tables: &[(Name, Table)], said: &Content) -> [Test; 5]
    ensures { result ≡ open_tests name.now tables.now said.now }
{
    [
        (Refusal::TableExists, table_of(tables, name).is_some()),
        (Refusal::OverLimit, tables.len() >= TABLE_LIMIT),
        (Refusal::UnreadableFile, is_missing_file(said)),
        (Refusal::FileTooLarge, is_too_large(said)),
        (Refusal::NotTableFile, is_no_table(said)),
    ]
}

/// The tests of SAVE over a table.
pub(crate) fn save_tests(alloc: Global, table: &Table) -> Result<[Test; 1], AllocError>
    ensures { IfOk result (λ tests. tests ≡ save_tests table.now) }
{
    Ok([(Refusal::FileTooLarge, is_too_long(alloc, table)?)])
}
