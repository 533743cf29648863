//! A column of version 1 that lies in the bytes of a table file: words.

ghost use Rattle.std.specs.Prelude.{All, IfSome, List, None, Option, length, ◌≡◌, ◌≤◌, ℤ};
ghost use Rattle.bw_code.specs.Headers.{row_limit};
ghost use Rattle.bw_file.specs.Cells.{column_bytes, column_size, IsCell};

use crate::cells::read_cells;
use crate::distances::read_distances;
use crate::ends::{Spelling, spelled_ends};
use crate::presence::has_spare_bit;
use crate::row_bits::bits_of_rows;
use bw_cells::{Cells, Measured, distances_in_run};
use bw_code::Ends;
use std::marker::Model;

/// A column of words, lent from the file's bytes. Contracts see the list of its cells.
#[derive(Drop)]
pub(crate) struct WordColumn<'a> {
    // One bit for each row.
    present: &'a [u8],
    // Four bytes for each row.
    words: &'a [u8],
    rows: usize,
    // The ends of the cells that are integers.
    ends: Option<Ends>,
}

impl<'a> Model for WordColumn<'a> {
    ghost use Rattle.std.specs.Prelude.{List, Option, ℤ};
    ghost use Rattle.bw_file.specs.Reading.{IsColumn, cells_in};

    ghost Value = { List (Option ℤ) };

    ghost view = { λ column. cells_in column.rows column.present.now column.words.now };

    ghost invariant = { λ column. IsColumn column.rows column.present.now column.words.now column.ends };
}

impl<'a> WordColumn<'a> {
    /// The number of rows of the column. The cell of each is NULL or an INTEGER.
    pub(crate) fn rows(&self) -> usize
        ensures count { result ≡ length self.now }
        ensures few { length self.now ≤ row_limit }
        ensures integers { All IsCell self.now }
    {
        self.rows
    }

    /// The column of `rows` rows that has exactly these bytes, if they are those of one.
    pub(crate) fn in_bytes(bytes: &'a [u8], rows: usize) -> Option<WordColumn<'a>>
        requires few { rows ≤ row_limit }
        requires long { length bytes.now ≡ column_size rows }
        ensures count { IfSome result (λ cells. length cells ≡ rows) }
        ensures integers { IfSome result (λ cells. All IsCell cells) }
        ensures spelled { IfSome result (λ cells. bytes.entry.now ≡ column_bytes cells) }
        ensures none { result ≡ None → (cells : List (Option ℤ)) → length cells ≡ rows → All IsCell cells → bytes.entry.now ≡ column_bytes cells → ⊥ }
    {
        let (present, words) = bytes.split_at(rows.div_ceil(8));
        if has_spare_bit(present, rows) {
            return None;
        }
        let Spelling::Right(ends) = spelled_ends(present, words, rows) else {
            return None;
        };
        Some(WordColumn {
            present,
            words,
            rows,
            ends,
        })
    }
}

impl<'a> Cells for WordColumn<'a> {
    ghost cells = { λ cells. cells };

    fn len(&self) -> usize {
        self.rows
    }

    fn read(&self, at: usize, out: &mut [Option<i64>]) {
        read_cells(self.present, self.words, at, out);
    }
}

impl<'a> Measured for WordColumn<'a> {
    fn ends(&self) -> Option<Ends> {
        self.ends
    }

    fn distances(&self, at: usize, base: i64, out: &mut [u64]) -> u64 {
        if at % 8 != 0 {
            return distances_in_run(self, at, base, out);
        }
        read_distances(self.present, self.words, at, base, out);
        bits_of_rows(self.present, at, out.len())
    }
}
