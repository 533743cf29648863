//! The text of a reply. It is written piece by piece, without allocating.

ghost use Rattle.std.specs.Prelude.{◌++◌, ◌<◌, ◌*◌, codes, decimal};
ghost use Rattle.bw_model.specs.ReplyText.{answer_text, call_text, heading_text, line, refusal_text, reply_text, with_commas};
ghost use Rattle.bw_shell.specs.Writing.{Wrote};

use crate::lines::put_lines;
use crate::writing::{WriteFault, put, put_number};
use bw_model::{Answer, Heading, Refusal, Reply};
use std::io::Write;

/// Writes the lines of a reply, or a prefix of them if the writer fails.
pub fn write_reply<W: Write>(writer: &mut W, reply: &Reply) -> Result<(), WriteFault>
    ensures { Wrote (W.contents writer.old) (W.contents writer.new) (reply_text reply.now) result }
{
    match reply {
        Reply::Done => put(writer, b"ok\n"),
        Reply::Count(n) => put_count(writer, b"ok ", *n),
        Reply::Units(n) => put_count(writer, b"units ", *n),
        Reply::Rows(answer) => put_answer(writer, answer),
        Reply::Refused(refusal) => {
            put_refusal(writer, *refusal)?;
            put(writer, b"\n")
        }
    }
}

// A line of a word and a number.
fn put_count<W: Write>(writer: &mut W, word: &[u8], n: u64) -> Result<(), WriteFault>
    ensures { Wrote (W.contents writer.old) (W.contents writer.new) (line (word.now ++ decimal n)) result }
{
    put(writer, word)?;
    put_number(writer, n)?;
    put(writer, b"\n")
}

fn put_answer<W: Write>(writer: &mut W, answer: &Answer) -> Result<(), WriteFault>
    ensures { Wrote (W.contents writer.old) (W.contents writer.new) (answer_text answer.now) result }
{
    let headings = answer.headings();
    put_headings(writer, headings)?;
    put(writer, b"\n")?;
    put_lines(writer, answer.cells(), headings.len())?;
    put_count(writer, b"rows ", answer.line_count() as u64)
}

fn put_headings<W: Write>(writer: &mut W, headings: &[Heading]) -> Result<(), WriteFault>
    ensures { Wrote (W.contents writer.old) (W.contents writer.new) (with_commas heading_text headings.now) result }
{
    let [first, others @ ..] = headings else {
        return Ok(());
    };
    put_heading(writer, first)?;
    for heading in others {
        put(writer, b",")?;
        put_heading(writer, heading)?;
    }
    Ok(())
}

fn put_heading<W: Write>(writer: &mut W, heading: &Heading) -> Result<(), WriteFault>
    ensures { Wrote (W.contents writer.old) (W.contents writer.new) (heading_text heading.now) result }
{
    match heading {
        Heading::Column(name) => put(writer, name.as_bytes()),
        Heading::CountRows => put(writer, b"COUNT(*)"),
        Heading::Count(name) => put_call(writer, b"COUNT", name.as_bytes()),
        Heading::Sum(name) => put_call(writer, b"SUM", name.as_bytes()),
        Heading::Min(name) => put_call(writer, b"MIN", name.as_bytes()),
        Heading::Max(name) => put_call(writer, b"MAX", name.as_bytes()),
        Heading::Median(name) => put_call(writer, b"MEDIAN", name.as_bytes()),
        Heading::Table => put(writer, b"TABLE"),
        Heading::Columns => put(writer, b"COLUMNS"),
        Heading::Rows => put(writer, b"ROWS"),
    }
}

// A set function over a column.
fn put_call<W: Write>(writer: &mut W, function: &[u8], column: &[u8]) -> Result<(), WriteFault>
    ensures { Wrote (W.contents writer.old) (W.contents writer.new) (call_text function.now column.now) result }
{
    put(writer, function)?;
    put(writer, b"(")?;
    put(writer, column)?;
    put(writer, b")")
}

fn put_refusal<W: Write>(writer: &mut W, refusal: Refusal) -> Result<(), WriteFault>
    ensures { Wrote (W.contents writer.old) (W.contents writer.new) (refusal_text refusal) result }
{
    match refusal {
        Refusal::Syntax => put(writer, b"error 10: syntax error"),
        Refusal::StatementTooLong => put(writer, b"error 11: statement too long"),
        Refusal::NestedTooDeeply => put(writer, b"error 12: nested too deeply"),
        Refusal::NumberTooLarge => put(writer, b"error 13: number too large"),
        Refusal::NoSuchTable => put(writer, b"error 20: no such table"),
        Refusal::TableExists => put(writer, b"error 21: table exists"),
        Refusal::NoSuchColumn => put(writer, b"error 22: no such column"),
        Refusal::ColumnNamedTwice => put(writer, b"error 23: column named twice"),
        Refusal::OverLimit => put(writer, b"error 24: over a limit"),
        Refusal::WrongNumberOfValues => put(writer, b"error 25: wrong number of values"),
        Refusal::OutOfRange => put(writer, b"error 26: value out of range"),
        Refusal::MixedItems => put(writer, b"error 27: columns and set functions mixed"),
        Refusal::TableFull => put(writer, b"error 28: table full"),
        Refusal::UnreadableFile => put(writer, b"error 40: file cannot be read"),
        Refusal::UnwritableFile => put(writer, b"error 41: file cannot be written"),
        Refusal::WrongNumberOfFields { record } => put_field_count_fault(writer, record),
        Refusal::NotInteger { record, field } => put_field_fault(writer, record, field),
        Refusal::NotTableFile => put(writer, b"error 44: not a table file"),
        Refusal::FileTooLarge => put(writer, b"error 46: file too large"),
        Refusal::LayoutTooNarrow => put(writer, b"error 60: layout H holds no BIGINT"),
        Refusal::OutOfMemory => put(writer, b"error 90: out of memory"),
    }
}

fn put_field_count_fault<W: Write>(writer: &mut W, record: u64) -> Result<(), WriteFault>
    ensures { Wrote (W.contents writer.old) (W.contents writer.new)
        (codes "error 42: record " ++ decimal «record» ++ codes " has the wrong number of fields") result }
{
    put(writer, b"error 42: record ")?;
    put_number(writer, record)?;
    put(writer, b" has the wrong number of fields")
}

fn put_field_fault<W: Write>(writer: &mut W, record: u64, field: u64) -> Result<(), WriteFault>
    ensures { Wrote (W.contents writer.old) (W.contents writer.new)
        (codes "error 43: record " ++ decimal «record» ++ codes " field " ++ decimal field ++ codes " is not an integer") result }
{
    put(writer, b"error 43: record ")?;
    put_number(writer, record)?;
    put(writer, b" field ")?;
    put_number(writer, field)?;
    put(writer, b" is not an integer")
}
