//! The rows that a statement returns.

ghost use Rattle.std.specs.Prelude.{◌≡◌, ◌*◌, ◌<◌, length};
ghost use Rattle.bw_model.specs.Answers.{AreWholeLines, lines_of};
ghost use Rattle.bw_model.specs.Cells.{cells_in, cells_kept, shown_all};

use bw_sql::{Name, Value};
use std::marker::Model;

/// The heading of a column of an answer.
#[derive(Debug, Drop)]
pub enum Heading {
    Column(Name),
    /// `COUNT(*)`.
    CountRows,
    Count(Name),
    Sum(Name),
    Min(Name),
    Max(Name),
    Median(Name),
    /// The name of a table.
    Table,
    /// Its number of columns.
    Columns,
    /// Its number of rows.
    Rows,
}

/// A cell of an answer.
#[derive(Debug, Drop)]
pub enum Cell {
    Null,
    Number(i128),
    Name(Name),
}

/// The cells of an answer, line by line, as they are lent.
#[derive(Clone, Copy, Debug)]
pub enum Cells<'a> {
    /// All of them values.
    Values(&'a [Value]),
    /// Cells of any kind.
    Mixed(&'a [Cell]),
}

/// The cells of an answer, line by line. Values take half as much memory as cells of any kind.
#[derive(Debug, Drop)]
enum Kept {
    Values(Vec<Value>),
    Mixed(Vec<Cell>),
}

/// At least one heading, and lines with one cell for each heading. The lines are stored flat in one buffer. Contracts
/// see the headings and the list of the lines.
#[derive(Debug, Drop)]
pub struct Answer {
    headings: Vec<Heading>,
    cells: Kept,
}

impl Model for Answer {
    ghost use Rattle.std.specs.Prelude.{length};
    ghost use Rattle.bw_model.specs.declared.answer.Heading.{Heading};
    ghost use Rattle.bw_model.specs.declared.answer.Cell.{Cell};
    ghost use Rattle.bw_model.specs.Answers.{AreWholeLines, Shown, lines_of};
    ghost use Rattle.bw_model.specs.Cells.{cells_kept};

    ghost Value = { Shown };

    ghost view = { λ a. record { headings = a.headings.items; lines = lines_of (length a.headings.items) (cells_kept a.cells) } };

    ghost invariant = { λ a. AreWholeLines (length a.headings.items) (cells_kept a.cells) };
}

impl Answer {
    /// The answer with these cells, line by line.
    pub fn new(headings: Vec<Heading>, cells: Vec<Cell>) -> Answer
        requires { AreWholeLines (length headings.items) cells.items }
        ensures headings { result.headings ≡ headings.items }
        ensures lines { result.lines ≡ lines_of (length headings.items) cells.items }
    {
        Answer {
            headings,
            cells: Kept::Mixed(cells),
        }
    }

    /// The answer that shows these values, line by line.
    pub fn of_values(headings: Vec<Heading>, values: Vec<Value>) -> Answer
        requires { AreWholeLines (length headings.items) (shown_all values.items) }
        ensures headings { result.headings ≡ headings.items }
        ensures lines { result.lines ≡ lines_of (length headings.items) (shown_all values.items) }
    {
        Answer {
            headings,
            cells: Kept::Values(values),
        }
    }

    /// The headings, from left to right.
    pub fn headings(&self) -> &[Heading]
        ensures { result.now ≡ self.now.headings }
    {
        self.headings.as_slice()
    }

    /// The number of cells.
    fn cell_count(&self) -> usize
        ensures count { result ≡ length self.now.lines * length self.now.headings }
        ensures some { 0 < length self.now.headings }
    {
        match &self.cells {
            Kept::Values(values) => values.as_slice().len(),
            Kept::Mixed(cells) => cells.as_slice().len(),
        }
    }

    /// The number of lines.
    pub fn line_count(&self) -> usize
        ensures { result ≡ length self.now.lines }
    {
        self.cell_count() / self.headings.as_slice().len()
    }

    /// The cells of all lines, line by line.
    pub fn cells(&self) -> Cells<'_>
        ensures whole { AreWholeLines (length self.now.headings) (cells_in result) }
        ensures lines { lines_of (length self.now.headings) (cells_in result) ≡ self.now.lines }
    {
        match &self.cells {
            Kept::Values(values) => Cells::Values(values.as_slice()),
            Kept::Mixed(cells) => Cells::Mixed(cells.as_slice()),
        }
    }
}
