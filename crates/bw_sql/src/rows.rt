//! The rows of a VALUES list.

ghost use Rattle.std.specs.Prelude.{◌≡◌, ◌+◌, ◌++◌, ◌∷◌, [], length, map, sum, IsTrue, ◌↔◌, All};
ghost use Rattle.bw_sql.specs.Rows.{joined, rows_of};

use crate::tree::Value;
use std::marker::Model;

/// Rows of values, each with its own length. They are stored flat in one buffer, together with the lengths of the rows.
/// Contracts see the list of the rows.
#[derive(Debug, Drop)]
pub struct ValueRows {
    values: Vec<Value>,
    widths: Vec<usize>,
}

impl Model for ValueRows {
    ghost use Rattle.std.specs.Prelude.{◌≡◌, ℤ, List, Option, length, sum};
    ghost use Rattle.bw_sql.specs.Rows.{rows_of};

    ghost Value = { List (List (Option ℤ)) };

    ghost view = { λ rows. rows_of rows.widths.items rows.values.items };

    ghost invariant = { λ rows. sum rows.widths.items ≡ length rows.values.items };
}

impl ValueRows {
    /// The rows with these widths, one after another in the values.
    pub fn new(values: Vec<Value>, widths: Vec<usize>) -> ValueRows
        requires { sum widths.items ≡ length values.items }
        ensures { result ≡ rows_of widths.items values.items }
    {
        ValueRows { values, widths }
    }

    /// The number of rows.
    pub fn len(&self) -> usize
        ensures { result ≡ length self.now }
    {
        self.widths.as_slice().len()
    }

    /// The number of values of each row, in order.
    pub fn widths(&self) -> &[usize]
        ensures { result.now ≡ map length self.now }
    {
        &self.widths
    }

    /// Whether every row has this many values.
    pub fn are_all_of_width(&self, width: usize) -> bool
        ensures { IsTrue result ↔ All (λ row. length row ≡ width) self.now }
    {
        are_all(self.widths.as_slice(), width)
    }

    /// The values of all rows, row by row.
    pub fn values(&self) -> &[Value]
        ensures { result.now ≡ joined self.now }
    {
        self.values.as_slice()
    }

    /// The values of all rows, row by row, by value.
    pub fn into_values(self) -> Vec<Value>
        ensures { result.items ≡ joined self }
    {
        let ValueRows { values, widths: _ } = self;
        values
    }
}

fn are_all(widths: &[usize], width: usize) -> bool
    ensures { IsTrue result ↔ All (λ w. w ≡ width) widths.now }
{
    widths.iter().all(|w| *w == width)
}
