//! The text of a reply.

ghost use Rattle.std.specs.Prelude.{◌≡◌, IfOk, string_bytes};
ghost use Rattle.bw_model.specs.Answers.{AreWholeLines, lines_of};
ghost use Rattle.bw_model.specs.Cells.{cells_in, shown_all};
ghost use Rattle.bw_model.specs.ReplyText.{answer_text, call_text, cell_text, heading_text, lines_text, refusal_text, reply_text, with_commas};

use crate::answer::{Answer, Cell, Cells, Heading};
use crate::refusal::Refusal;
use crate::reply::Reply;
use crate::select::shown;
use bw_sql::{Name, Value};
use std::alloc::{AllocError, Global};

/// The lines of a reply.
pub fn reply_text(alloc: Global, reply: &Reply) -> Result<Vec<u8>, AllocError>
    ensures { IfOk result (λ text. text.items ≡ reply_text reply.now) }
{
    match reply {
        Reply::Done => Vec::from_slice(alloc, b"ok\n"),
        Reply::Count(n) => Ok(format!(in alloc; "ok {n}\n")?.into_bytes()),
        Reply::Units(n) => Ok(format!(in alloc; "units {n}\n")?.into_bytes()),
        Reply::Rows(answer) => answer_text(alloc, answer),
        Reply::Refused(refusal) => {
            let text = refusal_text(alloc, *refusal)?;
            Ok(format!(in alloc; "{text}\n")?.into_bytes())
        }
    }
}

/// The text of a set function over a column.
fn call_text(alloc: Global, function: &[u8], column: &Name) -> Result<Vec<u8>, AllocError>
    ensures { IfOk result (λ text. text.items ≡ call_text function.now column.now) }
{
    let mut text = Vec::from_slice(alloc, function)?;
    text.push(b'(')?;
    text.extend_from_slice(column.as_bytes())?;
    text.push(b')')?;
    Ok(text)
}

fn heading_text(alloc: Global, heading: &Heading) -> Result<Vec<u8>, AllocError>
    ensures { IfOk result (λ text. text.items ≡ heading_text heading.now) }
{
    match heading {
        Heading::Column(name) => Vec::from_slice(alloc, name.as_bytes()),
        Heading::CountRows => Vec::from_slice(alloc, b"COUNT(*)"),
        Heading::Count(name) => call_text(alloc, b"COUNT", name),
        Heading::Sum(name) => call_text(alloc, b"SUM", name),
        Heading::Min(name) => call_text(alloc, b"MIN", name),
        Heading::Max(name) => call_text(alloc, b"MAX", name),
        Heading::Median(name) => call_text(alloc, b"MEDIAN", name),
        Heading::Table => Vec::from_slice(alloc, b"TABLE"),
        Heading::Columns => Vec::from_slice(alloc, b"COLUMNS"),
        Heading::Rows => Vec::from_slice(alloc, b"ROWS"),
    }
}

fn cell_text(alloc: Global, cell: &Cell) -> Result<Vec<u8>, AllocError>
    ensures { IfOk result (λ text. text.items ≡ cell_text cell.now) }
{
    match cell {
        Cell::Null => Vec::from_slice(alloc, b"NULL"),
        Cell::Number(n) => Ok(format!(in alloc; "{n}")?.into_bytes()),
        Cell::Name(name) => Vec::from_slice(alloc, name.as_bytes()),
    }
}

/// The headings, separated by commas.
fn headings_text(alloc: Global, headings: &[Heading]) -> Result<Vec<u8>, AllocError>
    ensures { IfOk result (λ text. text.items ≡ with_commas heading_text headings.now) }
{
    let [first, others @ ..] = headings else {
        return Ok(Vec::new(alloc));
    };
    let mut text = heading_text(alloc, first)?;
    for heading in others {
        text.push(b',')?;
        text.extend_from_slice(&heading_text(alloc, heading)?)?;
    }
    Ok(text)
}

/// The cells of a line, separated by commas.
fn cells_text(alloc: Global, cells: &[Cell]) -> Result<Vec<u8>, AllocError>
    ensures { IfOk result (λ text. text.items ≡ with_commas cell_text cells.now) }
{
    let [first, others @ ..] = cells else {
        return Ok(Vec::new(alloc));
    };
    let mut text = cell_text(alloc, first)?;
    for cell in others {
        text.push(b',')?;
        text.extend_from_slice(&cell_text(alloc, cell)?)?;
    }
    Ok(text)
}

/// The lines of this width, as text.
fn lines_text(alloc: Global, cells: &[Cell], width: usize) -> Result<Vec<u8>, AllocError>
    requires { AreWholeLines width cells.now }
    ensures { IfOk result (λ text. text.items ≡ lines_text (lines_of width cells.now)) }
{
    let mut text = Vec::new(alloc);
    let mut rest = cells;
    while !rest.is_empty() {
        let (first, after) = rest.split_at(width);
        text.extend_from_slice(&cells_text(alloc, first)?)?;
        text.push(b'\n')?;
        rest = after;
    }
    Ok(text)
}

/// The cells that show the values.
fn shown_cells(alloc: Global, values: &[Value]) -> Result<Vec<Cell>, AllocError>
    ensures { IfOk result (λ cells. cells.items ≡ shown_all values.now) }
{
    values.iter().map(|value| shown(*value)).collect(alloc)
}

/// The lines of this width of the cells, as text.
fn answer_lines(alloc: Global, cells: Cells<'_>, width: usize) -> Result<Vec<u8>, AllocError>
    requires { AreWholeLines width (cells_in cells) }
    ensures { IfOk result (λ text. text.items ≡ lines_text (lines_of width (cells_in cells.entry))) }
{
    match cells {
        Cells::Values(values) => {
            let cells = shown_cells(alloc, values)?;
            lines_text(alloc, &cells, width)
        }
        Cells::Mixed(cells) => lines_text(alloc, cells, width),
    }
}

/// The headings, the lines, and the number of lines.
fn answer_text(alloc: Global, answer: &Answer) -> Result<Vec<u8>, AllocError>
    ensures { IfOk result (λ text. text.items ≡ answer_text answer.now) }
{
    let headings = answer.headings();
    let count = answer.line_count();
    let mut text = headings_text(alloc, headings)?;
    text.push(b'\n')?;
    text.extend_from_slice(&answer_lines(alloc, answer.cells(), headings.len())?)?;
    text.extend_from_slice(format!(in alloc; "rows {count}\n")?.as_bytes())?;
    Ok(text)
}

fn refusal_text(alloc: Global, refusal: Refusal) -> Result<String, AllocError>
    ensures { IfOk result (λ text. string_bytes text ≡ refusal_text refusal) }
{
    match refusal {
        Refusal::Syntax => String::from_str(alloc, "error 10: syntax error"),
        Refusal::StatementTooLong => String::from_str(alloc, "error 11: statement too long"),
        Refusal::NestedTooDeeply => String::from_str(alloc, "error 12: nested too deeply"),
        Refusal::NumberTooLarge => String::from_str(alloc, "error 13: number too large"),
        Refusal::NoSuchTable => String::from_str(alloc, "error 20: no such table"),
        Refusal::TableExists => String::from_str(alloc, "error 21: table exists"),
        Refusal::NoSuchColumn => String::from_str(alloc, "error 22: no such column"),
        Refusal::ColumnNamedTwice => String::from_str(alloc, "error 23: column named twice"),
        Refusal::OverLimit => String::from_str(alloc, "error 24: over a limit"),
        Refusal::WrongNumberOfValues => {
            String::from_str(alloc, "error 25: wrong number of values")
        }
        Refusal::OutOfRange => String::from_str(alloc, "error 26: value out of range"),
        Refusal::MixedItems => {
            String::from_str(alloc, "error 27: columns and set functions mixed")
        }
        Refusal::TableFull => String::from_str(alloc, "error 28: table full"),
        Refusal::UnreadableFile => String::from_str(alloc, "error 40: file cannot be read"),
        Refusal::UnwritableFile => String::from_str(alloc, "error 41: file cannot be written"),
        Refusal::WrongNumberOfFields { record } => {
            format!(in alloc; "error 42: record {record} has the wrong number of fields")
        }
        Refusal::NotInteger { record, field } => {
            format!(in alloc; "error 43: record {record} field {field} is not an integer")
        }
        Refusal::NotTableFile => String::from_str(alloc, "error 44: not a table file"),
        Refusal::FileTooLarge => String::from_str(alloc, "error 46: file too large"),
        Refusal::LayoutTooNarrow => String::from_str(alloc, "error 60: layout H holds no BIGINT"),
        Refusal::OutOfMemory => String::from_str(alloc, "error 90: out of memory"),
    }
}
