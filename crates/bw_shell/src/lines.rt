//! The lines of an answer. Lines of values are built in a buffer and written at once.

ghost use Rattle.std.specs.Bool.{OnTrue};
ghost use Rattle.std.specs.Prelude.{◌≡◌, ◌++◌, ◌<◌, length};
ghost use Rattle.bw_model.specs.Answers.{AreWholeLines, lines_of};
ghost use Rattle.bw_model.specs.Cells.{cells_in, shown_all};
ghost use Rattle.bw_model.specs.ReplyText.{cell_text, line, lines_text, with_commas};
ghost use Rattle.bw_shell.specs.ValueTexts.{value_text};
ghost use Rattle.bw_shell.specs.Writing.{Wrote};

use crate::backward_text::BackwardText;
use crate::writing::{WriteFault, put, put_number};
use bw_model::{Cell, Cells};
use bw_sql::Value;
use std::io::Write;

/// Blocks have up to this many values, but at least one line. A value and its separator take at most 21 bytes, so the
/// buffer has room for them.
const VALUES: usize = 192;

/// Writes the lines, each of `width` cells.
pub(crate) fn put_lines<W: Write>(
    writer: &mut W,
    cells: Cells<'_>,
    width: usize,
) -> Result<(), WriteFault>
    requires { AreWholeLines width (cells_in cells) }
    ensures { Wrote (W.contents writer.old) (W.contents writer.new) (lines_text (lines_of width (cells_in cells.entry))) result }
{
    match cells {
        Cells::Values(values) => put_values(writer, values, width),
        Cells::Mixed(cells) => put_each_line(writer, cells, width),
    }
}

/// Writes the values as lines of `width` values, in blocks of whole lines.
fn put_values<W: Write>(writer: &mut W, values: &[Value], width: usize) -> Result<(), WriteFault>
    requires { AreWholeLines width (shown_all values.now) }
    ensures { Wrote (W.contents writer.old) (W.contents writer.new) (lines_text (lines_of width (shown_all values.now))) result }
{
    let mut text = BackwardText::new();
    let block = (VALUES / width).max(1) * width;
    let mut rest = values;
    while !rest.is_empty() {
        let (first, after) = rest.split_at(rest.len().min(block));
        put_block(writer, &mut text, first, width)?;
        rest = after;
    }
    Ok(())
}

/// Writes some lines, built in the buffer if they fit.
fn put_block<W: Write>(
    writer: &mut W,
    text: &mut BackwardText,
    values: &[Value],
    width: usize,
) -> Result<(), WriteFault>
    requires { AreWholeLines width (shown_all values.now) }
    ensures { Wrote (W.contents writer.old) (W.contents writer.new) (lines_text (lines_of width (shown_all values.now))) result }
{
    text.clear();
    if lines_before(text, values, width) {
        return put(writer, text.text());
    }
    put_each_value_line(writer, values, width)
}

/// Writes the lines of the values, value by value.
fn put_each_value_line<W: Write>(
    writer: &mut W,
    values: &[Value],
    width: usize,
) -> Result<(), WriteFault>
    requires { AreWholeLines width (shown_all values.now) }
    ensures { Wrote (W.contents writer.old) (W.contents writer.new) (lines_text (lines_of width (shown_all values.now))) result }
{
    let mut rest = values;
    while !rest.is_empty() {
        let (first, after) = rest.split_at(width);
        put_value_line(writer, first)?;
        rest = after;
    }
    Ok(())
}

/// Puts the lines of the values before the text and returns true. Returns false if there is no room; then the text is
/// unspecified.
fn lines_before(text: &mut BackwardText, values: &[Value], width: usize) -> bool
    requires { AreWholeLines width (shown_all values.now) }
    ensures { OnTrue result (text.new ≡ lines_text (lines_of width (shown_all values.now)) ++ text.old) }
{
    let mut rest = values;
    while !rest.is_empty() {
        let (before, last) = rest.split_at(rest.len() - width);
        if !line_before(text, last) {
            return false;
        }
        rest = before;
    }
    true
}

/// Puts the line of the values before the text and returns true. Returns false if there may be no room; then the text
/// stays as it is.
fn line_before(text: &mut BackwardText, values: &[Value]) -> bool
    requires { 0 < length values.now }
    ensures { OnTrue result (text.new ≡ line (with_commas value_text values.now) ++ text.old) }
{
    if values.len() > text.room() / 21 {
        return false;
    }
    text.put_line(values);
    true
}

/// Writes the line of the values.
fn put_value_line<W: Write>(writer: &mut W, values: &[Value]) -> Result<(), WriteFault>
    ensures { Wrote (W.contents writer.old) (W.contents writer.new) (line (with_commas value_text values.now)) result }
{
    put_comma_values(writer, values)?;
    put(writer, b"\n")
}

/// Writes values separated by commas.
fn put_comma_values<W: Write>(writer: &mut W, values: &[Value]) -> Result<(), WriteFault>
    ensures { Wrote (W.contents writer.old) (W.contents writer.new) (with_commas value_text values.now) result }
{
    let [first, others @ ..] = values else {
        return Ok(());
    };
    put_value(writer, first)?;
    for value in others {
        put(writer, b",")?;
        put_value(writer, value)?;
    }
    Ok(())
}

fn put_value<W: Write>(writer: &mut W, value: &Value) -> Result<(), WriteFault>
    ensures { Wrote (W.contents writer.old) (W.contents writer.new) (value_text value.now) result }
{
    match value {
        None => put(writer, b"NULL"),
        Some(number) => put_number(writer, *number),
    }
}

/// Writes the lines, cell by cell.
fn put_each_line<W: Write>(writer: &mut W, cells: &[Cell], width: usize) -> Result<(), WriteFault>
    requires { AreWholeLines width cells.now }
    ensures { Wrote (W.contents writer.old) (W.contents writer.new) (lines_text (lines_of width cells.now)) result }
{
    let mut rest = cells;
    while !rest.is_empty() {
        let (first, after) = rest.split_at(width);
        put_line(writer, first)?;
        rest = after;
    }
    Ok(())
}

/// Writes a line.
fn put_line<W: Write>(writer: &mut W, cells: &[Cell]) -> Result<(), WriteFault>
    ensures { Wrote (W.contents writer.old) (W.contents writer.new) (line (with_commas cell_text cells.now)) result }
{
    put_cells(writer, cells)?;
    put(writer, b"\n")
}

/// Writes cells separated by commas.
fn put_cells<W: Write>(writer: &mut W, cells: &[Cell]) -> Result<(), WriteFault>
    ensures { Wrote (W.contents writer.old) (W.contents writer.new) (with_commas cell_text cells.now) result }
{
    let [first, others @ ..] = cells else {
        return Ok(());
    };
    put_cell(writer, first)?;
    for cell in others {
        put(writer, b",")?;
        put_cell(writer, cell)?;
    }
    Ok(())
}

fn put_cell<W: Write>(writer: &mut W, cell: &Cell) -> Result<(), WriteFault>
    ensures { Wrote (W.contents writer.old) (W.contents writer.new) (cell_text cell.now) result }
{
    match cell {
        Cell::Null => put(writer, b"NULL"),
        Cell::Number(n) => put_number(writer, *n),
        Cell::Name(name) => put(writer, name.as_bytes()),
    }
}
