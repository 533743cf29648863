//! The cells of an answer, collected one by one.

ghost use Rattle.std.specs.Prelude.{IfOk, IfSome, OnOk, [], length, ◌++◌, ◌∷◌, ◌≡◌};
ghost use Rattle.bw_model.specs.Answers.{AreWholeLines, lines_of};
ghost use Rattle.bw_model.specs.Cells.{shown_all};
ghost use Rattle.bw_model.specs.Select.{shown};
ghost use Rattle.bw_engine.specs.AnswerCells.{collected};

use crate::set_functions::{cell, wide};
use bw_model::{Answer, Cell, Heading};
use bw_sql::Value;
use std::alloc::{AllocError, Global};

/// The cells of an answer, all of which are numbers or NULL. While all of them fit 64 bits, they are kept as values,
/// which take half the memory of cells and are written faster.
#[derive(Debug, Drop)]
pub(crate) enum AnswerCells {
    Values(Vec<Value>),
    Mixed(Vec<Cell>),
}

impl AnswerCells {
    /// No cells, with room for `count`.
    pub(crate) fn with_capacity(alloc: Global, count: usize) -> Result<AnswerCells, AllocError>
        ensures { IfOk result (λ cells. collected cells ≡ []) }
    {
        Ok(AnswerCells::Values(Vec::with_capacity(alloc, count)?))
    }

    /// The answer with these cells, line by line.
    pub(crate) fn answer(self, headings: Vec<Heading>) -> Answer
        requires { AreWholeLines (length headings.items) (collected self) }
        ensures headings { result.headings ≡ headings.items }
        ensures lines { result.lines ≡ lines_of (length headings.items) (collected self) }
    {
        match self {
            AnswerCells::Values(values) => Answer::of_values(headings, values),
            AnswerCells::Mixed(cells) => Answer::new(headings, cells),
        }
    }

    /// Appends the cell of a number; `None` is NULL.
    pub(crate) fn push(&mut self, alloc: Global, number: Option<i128>) -> Result<(), AllocError>
        ensures { OnOk result (collected self.new ≡ collected self.old ++ shown number ∷ []) }
    {
        match self {
            AnswerCells::Values(values) => match narrow(number) {
                Some(value) => values.push(value)?,
                None => {
                    let mut cells = cells_of_values(alloc, values.as_slice(), values.capacity())?;
                    cells.push(cell(number))?;
                    *self = AnswerCells::Mixed(cells);
                }
            },
            AnswerCells::Mixed(cells) => cells.push(cell(number))?,
        }
        Ok(())
    }
}

/// The number as a value, if it fits 64 bits.
fn narrow(number: Option<i128>) -> Option<Value>
    ensures { IfSome result (λ value. value ≡ number) }
{
    let Some(number) = number else {
        return Some(None);
    };
    match i64::try_from(number) {
        Ok(number) => Some(Some(number)),
        Err(_) => None,
    }
}

/// The cells of the values, with room for `count`.
fn cells_of_values(alloc: Global, values: &[Value], count: usize) -> Result<Vec<Cell>, AllocError>
    ensures { IfOk result (λ cells. cells.items ≡ shown_all values.now) }
{
    let mut cells = Vec::with_capacity(alloc, count)?;
    for value in values {
        cells.push(cell(wide(*value)))?;
    }
    Ok(cells)
}
