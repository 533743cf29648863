//! Text that is built from its end to its start.

ghost use Rattle.std.specs.Prelude.{◌≡◌, ◌++◌, ◌*◌, ◌+◌, ◌<◌, ◌≤◌, List, [], codes, drop, length, ℕ};
ghost use Rattle.bw_model.specs.ReplyText.{line, with_commas};
ghost use Rattle.bw_shell.specs.ValueTexts.{value_text};

use crate::digits::write_number;
use bw_sql::Value;
use std::marker::Model;

/// The capacity in bytes.
const ROOM: usize = 4096;

/// Text that is built from its end to its start, the order in which the digits of a number come. Allocates nothing.
/// Contracts see the text so far.
#[derive(Drop)]
pub(crate) struct BackwardText {
    bytes: [u8; ROOM],
    start: usize,
}

impl Model for BackwardText {
    ghost Value = { List ℕ };

    ghost view = { λ t. drop t.start t.bytes };

    ghost invariant = { λ t. t.start ≤ 4096 };
}

/// Writes NULL so that it ends at `end`, and returns where it starts.
fn write_null(bytes: &mut [u8], end: usize) -> usize
    requires room { 4 ≤ end }
    requires inside { end ≤ length bytes.old }
    ensures start { result + 4 ≡ end }
    ensures written { drop result bytes.new ≡ codes "NULL" ++ drop end bytes.old }
{
    bytes[end - 4..end].copy_from_slice(b"NULL");
    end - 4
}

/// Writes a value, which takes up to 20 bytes, so that it ends at `end`, and returns where it starts.
#[inline(always)]
fn write_value(value: Value, bytes: &mut [u8], end: usize) -> usize
    requires room { 20 ≤ end }
    requires inside { end ≤ length bytes.old }
    ensures before { result ≤ end }
    ensures near { end ≤ result + 20 }
    ensures written { drop result bytes.new ≡ value_text value ++ drop end bytes.old }
{
    match value {
        None => write_null(bytes, end),
        Some(number) => write_number(number, bytes, end),
    }
}

/// Writes the line of the values so that it ends at `end`, and returns where it starts.
#[inline(always)]
fn write_line(values: &[Value], bytes: &mut [u8], end: usize) -> usize
    requires some { 0 < length values.now }
    requires room { 21 * length values.now ≤ end }
    requires inside { end ≤ length bytes.old }
    ensures before { result ≤ end }
    ensures written { drop result bytes.new ≡ line (with_commas value_text values.now) ++ drop end bytes.old }
{
    let mut at = end;
    let mut mark = b'\n';
    let mut i = values.len();
    while i > 0 {
        i -= 1;
        bytes[at - 1] = mark;
        at = write_value(values[i], bytes, at - 1);
        mark = b',';
    }
    at
}

impl BackwardText {
    /// An empty text.
    pub(crate) fn new() -> BackwardText
        ensures { result ≡ [] }
    {
        BackwardText {
            bytes: [0; ROOM],
            start: ROOM,
        }
    }

    /// Clears the text.
    pub(crate) fn clear(&mut self)
        ensures { self.new ≡ [] }
    {
        self.start = ROOM;
    }

    /// The number of bytes that there is still room for.
    pub(crate) fn room(&self) -> usize
        ensures { result + length self.now ≡ 4096 }
    {
        self.start
    }

    /// The text.
    pub(crate) fn text(&self) -> &[u8]
        ensures { result.now ≡ self.now }
    {
        &self.bytes[self.start..]
    }

    /// Puts the line of the values before the text. There is to be room for 21 bytes for each value.
    pub(crate) fn put_line(&mut self, values: &[Value])
        requires some { 0 < length values.now }
        requires room { 21 * length values.now + length self.old ≤ 4096 }
        ensures { self.new ≡ line (with_commas value_text values.now) ++ self.old }
    {
        self.start = write_line(values, &mut self.bytes, self.start);
    }
}
