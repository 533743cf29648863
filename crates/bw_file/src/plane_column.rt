//! A column of version 2 that lies in the bytes of a table file: planes.

ghost use Rattle.std.specs.Prelude.{All, IfSome, List, None, Option, get_or, if◌then◌else◌, length, slice_index, ℕ, ℤ, ◌%◌, ◌*◌, ◌/◌, ◌^◌, ◌+◌, ◌++◌, ◌<◌, ◌≡◌, ◌≤◌};
ghost use Rattle.bw_code.specs.Types.{IsNullOrOfType};
ghost use Rattle.bw_code.specs.Headers.{row_limit};
ghost use Rattle.bw_file.specs.Cells.{presence_size};
ghost use Rattle.bw_mask.specs.Masks.{bit_of};
ghost use Rattle.bw_code.specs.Widths.{widest_code};
ghost use Rattle.bw_file.specs.Planes.{column_bytes, read_cell, IsWideCell};

use crate::cells::has_cell;
use crate::code_ends::{Values, values_in};
use crate::codes::{read_block, read_codes};
use crate::plane_parts::plane_parts;
use crate::presence::has_spare_bit;
use crate::row_bits::{bits_of_rows, read_rows};
use crate::stray::has_stray_bit;
use bw_cells::{Cells, Measured, distances_in_run};
use bw_code::{ColumnType, Ends, Offset, PlaneBlock};
use bw_mask::has_bit;
use std::marker::Model;

/// A column of planes, lent from the file's bytes. Contracts see the list of its cells.
#[derive(Drop)]
pub(crate) struct PlaneColumn<'a> {
    // One bit for each row.
    present: &'a [u8],
    // One plane for each bit of the codes, with one bit for each row, the highest bit first.
    planes: &'a [u8],
    rows: usize,
    base: i64,
    width: usize,
    // The ends of the cells that are integers.
    ends: Option<Ends>,
}

impl<'a> Model for PlaneColumn<'a> {
    ghost use Rattle.std.specs.Prelude.{List, Option, ℤ};
    ghost use Rattle.bw_file.specs.Planes.{cells_in, IsPlaneColumn};

    ghost Value = { List (Option ℤ) };

    ghost view = { λ column. cells_in column.rows column.base column.width column.present.now column.planes.now };

    ghost invariant = { λ column. IsPlaneColumn column.rows column.base column.width column.present.now column.planes.now column.ends };
}

impl<'a> PlaneColumn<'a> {
    /// The number of rows of the column. The cell of each is NULL or a BIGINT.
    pub(crate) fn rows(&self) -> usize
        ensures count { result ≡ length self.now }
        ensures few { length self.now ≤ row_limit }
        ensures wide { All IsWideCell self.now }
    {
        self.rows
    }

    /// The column of `rows` rows and of this type at the start of the bytes, and the bytes after it, if there is one.
    pub(crate) fn first_in(
        bytes: &'a [u8],
        rows: usize,
        column_type: ColumnType,
    ) -> Option<(PlaneColumn<'a>, &'a [u8])>
        requires few { rows ≤ row_limit }
        ensures count { IfSome result (λ f. length f.0 ≡ rows) }
        ensures typed { IfSome result (λ f. All (IsNullOrOfType column_type) f.0) }
        ensures spelled { IfSome result (λ f. bytes.entry.now ≡ column_bytes f.0 ++ f.1.now) }
        ensures none { result ≡ None → (cells : List (Option ℤ)) (tail : List ℕ) → length cells ≡ rows → All (IsNullOrOfType column_type) cells → bytes.entry.now ≡ column_bytes cells ++ tail → ⊥ }
    {
        let Some(parts) = plane_parts(bytes, rows) else {
            return None;
        };
        if has_spare_bit(parts.present, rows) {
            return None;
        }
        if has_stray_bit(parts.present, parts.planes, rows.div_ceil(8), parts.width) {
            return None;
        }
        let Values::OfType(ends) = values_in(
            parts.present,
            parts.planes,
            rows,
            parts.width,
            parts.base,
            column_type,
        ) else {
            return None;
        };
        let fit = Offset::spanning(ends);
        if fit.base != parts.base {
            return None;
        }
        if fit.width as usize != parts.width {
            return None;
        }
        let column = PlaneColumn {
            present: parts.present,
            planes: parts.planes,
            rows,
            base: parts.base,
            width: parts.width,
            ends,
        };
        Some((column, parts.after))
    }
}

impl<'a> Cells for PlaneColumn<'a> {
    ghost cells = { λ cells. cells };

    fn len(&self) -> usize {
        self.rows
    }

    fn read(&self, at: usize, out: &mut [Option<i64>]) {
        read_plane_cells(
            self.present,
            self.planes,
            self.rows,
            self.base,
            self.width,
            at,
            out,
        );
    }
}

impl<'a> Measured for PlaneColumn<'a> {
    fn ends(&self) -> Option<Ends> {
        self.ends
    }

    fn distances(&self, at: usize, base: i64, out: &mut [u64]) -> u64 {
        if at % 8 != 0 {
            return distances_in_run(self, at, base, out);
        }
        read_codes(self.planes, self.rows.div_ceil(8), self.width, at, out);
        let there = bits_of_rows(self.present, at, out.len());
        let more = self.base.cast_unsigned().wrapping_sub(base.cast_unsigned());
        lift(out, there, more);
        there
    }

    fn planes(
        &self,
        at: usize,
        count: usize,
        base: i64,
        k: usize,
        block: &mut PlaneBlock,
    ) -> Option<[u64; 32]> {
        if at % 8 != 0 || base != self.base || k != self.width {
            return None;
        }
        read_block(self.planes, self.rows.div_ceil(8), k, at, count, block);
        let mut present = [0; 32];
        read_rows(self.present, at, count, &mut present);
        Some(present)
    }
}

/// Fills `out` with the cells of the rows from row `at` on, whose codes have k bits and are distances from the base.
fn read_plane_cells(
    present: &[u8],
    planes: &[u8],
    rows: usize,
    base: i64,
    k: usize,
    at: usize,
    out: &mut [Option<i64>],
)
    requires narrow { k ≤ widest_code }
    requires few { rows ≤ row_limit }
    requires inside { at + length out.old ≤ rows }
    requires present { length present.now ≡ presence_size rows }
    requires planes { length planes.now ≡ k * presence_size rows }
    requires wide { (i : ℕ) → i < rows → IsWideCell (read_cell base k (presence_size rows) present.now planes.now i) }
    ensures count { length out.new ≡ length out.old }
    ensures each { (r : ℕ) → r < length out.old → get_or out.new r None ≡ read_cell base k (presence_size rows) present.now planes.now (at + r) }
{
    'rows: for r in 0..out.len() {
        out[r] = cell_at(present, planes, rows, base, k, at + r);
    }
}

/// The cell of row i, whose code has k bits and is a distance from the base.
fn cell_at(present: &[u8], planes: &[u8], rows: usize, base: i64, k: usize, i: usize) -> Option<i64>
    requires narrow { k ≤ widest_code }
    requires few { rows ≤ row_limit }
    requires inside { i < rows }
    requires present { length present.now ≡ presence_size rows }
    requires planes { length planes.now ≡ k * presence_size rows }
    requires wide { IsWideCell (read_cell base k (presence_size rows) present.now planes.now i) }
    ensures { result ≡ read_cell base k (presence_size rows) present.now planes.now i }
{
    if !has_cell(present, i) {
        return None;
    }
    let mut codes = [0; 8];
    read_codes(planes, rows.div_ceil(8), k, i / 8 * 8, &mut codes);
    Some(base.wrapping_add_unsigned(codes[i % 8]))
}

/// Adds `more` to each number whose bit is set, modulo 2^64.
fn lift(numbers: &mut [u64], there: u64, more: u64)
    requires few { length numbers.old ≤ 64 }
    ensures len { length numbers.new ≡ length numbers.old }
    ensures each { (r : ℕ) → r < length numbers.old → slice_index numbers.new r ≡ (if bit_of there r then (slice_index numbers.old r + more) % 2 ^ 64 else slice_index numbers.old r) }
{
    'numbers: for r in 0..numbers.len() {
        let number = numbers[r];
        numbers[r] = if has_bit(there, r) {
            number.wrapping_add(more)
        } else {
            number
        };
    }
}
