//! A column that lies in the bytes of a table file.

ghost use Rattle.std.specs.Prelude.{All, IfSome, List, None, Option, length, ℕ, ℤ, ◌++◌, ◌≡◌, ◌≤◌};
ghost use Rattle.bw_code.specs.Types.{IsNullOrOfType};
ghost use Rattle.bw_code.specs.declared.kind.ColumnType.TheVariants.{Integer};
ghost use Rattle.bw_code.specs.Headers.{row_limit};
ghost use Rattle.bw_file.specs.Format.{column_bytes};
ghost use Rattle.bw_file.specs.Planes.{IsWideCell};
ghost use Rattle.bw_file.specs.declared.version.Version.TheVariants.{First};

use crate::plane_column::PlaneColumn;
use crate::version::Version;
use crate::word_column::WordColumn;
use bw_cells::{Cells, Measured};
use bw_code::{ColumnType, Ends, PlaneBlock};
use std::marker::Model;

/// A column, depending on the version of its file.
#[derive(Drop)]
pub(crate) enum LentColumn<'a> {
    Words(WordColumn<'a>),
    Planes(PlaneColumn<'a>),
}

/// A column of a table file, lent from the file's bytes. Contracts see the list of its cells.
#[derive(Drop)]
pub struct FileColumn<'a> {
    column: LentColumn<'a>,
}

impl<'a> Model for FileColumn<'a> {
    ghost use Rattle.std.specs.Prelude.{List, Option, ℤ};
    ghost use Rattle.bw_file.specs.Lent.{lent_cells};

    ghost Value = { List (Option ℤ) };

    ghost view = { λ file. lent_cells file.column };
}

impl<'a> FileColumn<'a> {
    /// The number of rows of the column. The cell of each is NULL or a BIGINT.
    pub fn rows(&self) -> usize
        ensures count { result ≡ length self.now }
        ensures few { length self.now ≤ row_limit }
        ensures wide { All IsWideCell self.now }
    {
        match &self.column {
            LentColumn::Words(column) => column.rows(),
            LentColumn::Planes(column) => column.rows(),
        }
    }

    /// The column of `rows` rows and of this type at the start of the bytes, and the bytes after it; `None` if there is
    /// none. In version 1 the type is INTEGER.
    pub(crate) fn first_in(
        version: Version,
        bytes: &'a [u8],
        rows: usize,
        column_type: ColumnType,
    ) -> Option<(FileColumn<'a>, &'a [u8])>
        requires few { rows ≤ row_limit }
        requires integer { version ≡ First → column_type ≡ Integer }
        ensures count { IfSome result (λ f. length f.0 ≡ rows) }
        ensures typed { IfSome result (λ f. All (IsNullOrOfType column_type) f.0) }
        ensures spelled { IfSome result (λ f. bytes.entry.now ≡ column_bytes version f.0 ++ f.1.now) }
        ensures none { result ≡ None → (cells : List (Option ℤ)) (tail : List ℕ) → length cells ≡ rows → All (IsNullOrOfType column_type) cells → bytes.entry.now ≡ column_bytes version cells ++ tail → ⊥ }
    {
        match version {
            Version::First => {
                let size = rows.div_ceil(8) + 4 * rows;
                if bytes.len() < size {
                    return None;
                }
                let (first, after) = bytes.split_at(size);
                let Some(column) = WordColumn::in_bytes(first, rows) else {
                    return None;
                };
                Some((
                    FileColumn {
                        column: LentColumn::Words(column),
                    },
                    after,
                ))
            }
            Version::Second => {
                let Some((column, after)) = PlaneColumn::first_in(bytes, rows, column_type) else {
                    return None;
                };
                Some((
                    FileColumn {
                        column: LentColumn::Planes(column),
                    },
                    after,
                ))
            }
        }
    }
}

impl<'a> Cells for FileColumn<'a> {
    ghost cells = { λ cells. cells };

    fn len(&self) -> usize {
        match &self.column {
            LentColumn::Words(column) => column.len(),
            LentColumn::Planes(column) => column.len(),
        }
    }

    fn read(&self, at: usize, out: &mut [Option<i64>]) {
        match &self.column {
            LentColumn::Words(column) => column.read(at, out),
            LentColumn::Planes(column) => column.read(at, out),
        }
    }
}

impl<'a> Measured for FileColumn<'a> {
    fn ends(&self) -> Option<Ends> {
        match &self.column {
            LentColumn::Words(column) => column.ends(),
            LentColumn::Planes(column) => column.ends(),
        }
    }

    fn distances(&self, at: usize, base: i64, out: &mut [u64]) -> u64 {
        match &self.column {
            LentColumn::Words(column) => column.distances(at, base, out),
            LentColumn::Planes(column) => column.distances(at, base, out),
        }
    }

    fn planes(
        &self,
        at: usize,
        count: usize,
        base: i64,
        k: usize,
        block: &mut PlaneBlock,
    ) -> Option<[u64; 32]> {
        match &self.column {
            LentColumn::Words(_) => None,
            LentColumn::Planes(column) => column.planes(at, count, base, k, block),
        }
    }
}
