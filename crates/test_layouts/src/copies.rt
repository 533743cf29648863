//! Codes copied from another column, and rows of zeros, compared with plain codes.

ghost use Rattle.std.specs.Prelude.{length, slice_index, vec_len, ℕ, ◌+◌, ◌-ℤ◌, ◌<◌, ◌^◌, ◌≡◌, ◌≤◌};
ghost use Rattle.bw_mask.specs.Masks.{len, row_at};
ghost use Rattle.bw_code.specs.Columns.{Fit};
ghost use Rattle.bw_code.specs.Shifts.{StaysBelow, shifted};

use crate::codes::{code_at, codes_of, cut, filled, need_of, other_code_at};
use crate::seen::see_at;
use crate::shifts::{check_fit, column_with, moved_code};
use bw_byteslice::SliceColumn;
use bw_code::CodeColumn;
use bw_mask::Mask;
use bw_vertical::VerticalColumn;
use std::process::Abort;

/// A column that takes codes of another one, and rows of zeros.
pub(crate) trait Copies: CodeColumn {
    // Whether codes of the first width can be copied to a column of the second one.
    ghost takes: { ℕ → ℕ → Type 0 };

    /// The code of each of the rows becomes that of the other column, rebased where the row is in `moved`.
    fn copy_rows(&mut self, other: &Self, rows: &Mask, moved: &Mask, from: i64, to: i64)
        requires width { takes (Self.seen other.now).width (Self.seen self.old).width }
        requires count { length (Self.seen other.now).codes ≡ length (Self.seen self.old).codes }
        requires rows { len rows.now ≡ length (Self.seen self.old).codes }
        requires moved { len moved.now ≡ length (Self.seen self.old).codes }
        requires fit { (i : ℕ) → i < length (Self.seen self.old).codes → StaysBelow (2 ^ (Self.seen self.old).width) (shifted (from -ℤ to) (row_at moved.now i) (slice_index (Self.seen other.now).codes i)) }
        ensures width { (Self.seen self.new).width ≡ (Self.seen self.old).width }
        ensures count { length (Self.seen self.new).codes ≡ length (Self.seen self.old).codes };

    /// Appends n rows with code 0, within the room.
    fn extend_zeros(&mut self, n: usize)
        requires room { length (Self.seen self.old).codes + n ≤ (Self.seen self.old).room }
        requires few { length (Self.seen self.old).codes + n ≤ 2 ^ 24 }
        ensures width { (Self.seen self.new).width ≡ (Self.seen self.old).width }
        ensures count { length (Self.seen self.new).codes ≡ length (Self.seen self.old).codes + n };

    /// Checks that what is stored past the last row is zeros.
    fn check_past<R: Abort>(&self, rt: &R);
}

impl Copies for SliceColumn {
    ghost takes = { λ own width. own ≡ width };

    fn copy_rows(&mut self, other: &SliceColumn, rows: &Mask, moved: &Mask, from: i64, to: i64) {
        self.copy_rows(other, rows, moved, from, to);
    }

    fn extend_zeros(&mut self, n: usize) {
        self.extend_zeros(n);
    }

    fn check_past<R: Abort>(&self, rt: &R) {
        let rows = self.len();
        for j in 0..self.width().div_ceil(8) as usize {
            let slice = self.slice(j);
            for row in rows..slice.len() {
                see_at(rt, (j, row), slice[row], 0);
            }
        }
    }
}

impl Copies for VerticalColumn {
    ghost takes = { λ own width. own ≤ 64 };

    fn copy_rows(&mut self, other: &VerticalColumn, rows: &Mask, moved: &Mask, from: i64, to: i64) {
        self.copy_rows(other, rows, moved, from, to);
    }

    fn extend_zeros(&mut self, n: usize) {
        self.extend_zeros(n);
    }

    fn check_past<R: Abort>(&self, rt: &R) {
        let k = self.width() as usize;
        for g in 0..k.div_ceil(4) {
            let group = self.group(g);
            let planes = (k - 4 * g).min(4);
            // Only the last segment has rows past the last one.
            for p in group.len().saturating_sub(planes)..group.len() {
                check_plane_past(rt, &group[p], self.len());
            }
        }
    }
}

/// The bits of a word from row `at` on that are past the last row.
fn past_rows(at: usize, rows: usize) -> u64 {
    match rows.saturating_sub(at) {
        0 => u64::MAX,
        n if n < 64 => u64::MAX << n,
        _ => 0,
    }
}

/// Checks that a plane of the last segment has only zeros past the last row.
fn check_plane_past<R: Abort>(rt: &R, plane: &[u64; 4], rows: usize)
    requires { rows ≤ 2 ^ 24 }
{
    let first = rows.saturating_sub(1) / 256 * 256;
    for w in 0..4 {
        let at = first + 64 * w;
        see_at(rt, (rows, w), plane[w] & past_rows(at, rows), 0);
    }
}

/// How codes are rebased.
#[derive(Clone, Copy, PartialEq)]
enum Way {
    Same,
    Up,
    Down,
}

/// All ones but the highest bit.
fn half_of(width: u32) -> u64
    requires some { 1 ≤ width }
    requires narrow { width ≤ 64 }
{
    cut(u64::MAX, width - 1)
}

/// The bases before and after. Codes of `own` bits become higher by half of what `width` bits have room for, or lower
/// by half of what their own have room for.
fn bases_of(own: u32, width: u32, way: Way) -> (i64, i64)
    requires own { 1 ≤ own }
    requires own_narrow { own ≤ 64 }
    requires some { 1 ≤ width }
    requires narrow { width ≤ 64 }
{
    let by = |width: u32| i64::try_from(half_of(width)).unwrap_or(0);
    match way {
        Way::Same => (7, 7),
        Way::Up => (by(width), 0),
        Way::Down => (0, by(own)),
    }
}

/// A code of `own` bits that fits `width` bits after it is rebased this way.
fn code_to_move(own: u32, width: u32, row: usize, way: Way) -> u64
    requires own { 1 ≤ own }
    requires own_narrow { own ≤ 64 }
    requires some { 1 ≤ width }
    requires narrow { width ≤ 64 }
    ensures { result < 2 ^ own }
{
    let code = other_code_at(own, row);
    let code = match way {
        Way::Same => cut(code, width),
        Way::Up => cut(code, width - 1),
        Way::Down => cut(cut(code, own - 1), width).wrapping_add(half_of(own)),
    };
    cut(code, own)
}

/// Codes of `own` bits that fit `width` bits after those of the rows in `moving` are rebased this way.
fn codes_to_move<R: Abort + AllocGlobal>(
    rt: &R,
    own: u32,
    width: u32,
    moving: &Mask,
    way: Way,
) -> Vec<u64>
    requires own { 1 ≤ own }
    requires own_narrow { own ≤ 64 }
    requires some { 1 ≤ width }
    requires narrow { width ≤ 64 }
    requires few { len moving.now ≤ 10000 }
    ensures count { vec_len result ≡ len moving.now }
    ensures fit { Fit own result.items }
{
    let mut list = Vec::new(rt.alloc());
    for row in 0..moving.len() {
        let way = if moving.get(row) { way } else { Way::Same };
        let code = code_to_move(own, width, row, way);
        list.push(code).expect(rt, "memory");
    }
    list
}

/// Appends zeros, and checks them.
fn check_zeros<C: Copies, R: Abort>(rt: &R, column: &mut C, n: usize)
    requires old { length (C.seen column.old).codes ≤ 10000 }
    requires new { n ≤ 10000 }
{
    let rows = column.len();
    column.reserve(n).expect(rt, "memory");
    column.extend_zeros(n);
    see_at(rt, n, column.len(), rows + n);
    for row in rows..rows + n {
        see_at(rt, (rows, row), column.get(row), 0);
    }
    column.check_past(rt);
}

/// Copies rows of codes of `own` bits to a column of codes of `width` bits, and checks all its codes. Then appends rows
/// of zeros.
fn check_copy<C: Copies + Drop, R: Abort + AllocGlobal>(
    rt: &R,
    own: u32,
    width: u32,
    rows: &Mask,
    moving: &Mask,
    way: Way,
)
    requires own { 1 ≤ own }
    requires own_narrow { own ≤ 64 }
    requires own_widest { own ≤ C.WIDEST }
    requires some { 1 ≤ width }
    requires narrow { width ≤ 64 }
    requires widest { width ≤ C.WIDEST }
    requires takes { C.takes own width }
    requires few { len rows.now ≤ 10000 }
    requires moving { len moving.now ≡ len rows.now }
{
    let (from, to) = bases_of(own, width, way);
    let codes = codes_of(rt, width, rows.len());
    let others = codes_to_move(rt, own, width, moving, way);
    let mut column: C = column_with(rt, width, &codes);
    let other: C = column_with(rt, own, &others);
    check_fit(rt, width, &others, moving, from, to);
    column.copy_rows(&other, rows, moving, from, to);
    for row in 0..codes.len() {
        let wanted = if rows.get(row) {
            moved_code(others[row], moving.get(row), from, to)
        } else {
            i128::from(codes[row])
        };
        see_at(
            rt,
            (own, width, from, to, row),
            i128::from(column.get(row)),
            wanted,
        );
    }
    column.check_past(rt);
    check_zeros(rt, &mut column, 70);
}

/// Rows that look random.
pub(crate) fn random_rows<R: Abort + AllocGlobal>(rt: &R, rows: usize) -> Mask
    requires { rows ≤ 10000 }
    ensures { len result ≡ rows }
{
    let mut mask = filled(rt, rows, false);
    for row in 0..rows {
        mask.set(row, code_at(1, 7 * row + 6) == 1);
    }
    mask
}

fn check_ways<C: Copies + Drop, R: Abort + AllocGlobal>(rt: &R, own: u32, width: u32, rows: &Mask)
    requires own { 1 ≤ own }
    requires own_narrow { own ≤ 64 }
    requires own_widest { own ≤ C.WIDEST }
    requires some { 1 ≤ width }
    requires narrow { width ≤ 64 }
    requires widest { width ≤ C.WIDEST }
    requires takes { C.takes own width }
    requires few { len rows.now ≤ 10000 }
{
    let all = filled(rt, rows.len(), true);
    let some = need_of(rt, rows.len());
    for way in [Way::Same, Way::Up, Way::Down] {
        check_copy::<C, R>(rt, own, width, rows, &all, way);
        check_copy::<C, R>(rt, own, width, rows, &some, way);
    }
}

fn check_rows<C: Copies + Drop, R: Abort + AllocGlobal>(rt: &R, own: u32, width: u32, rows: usize)
    requires own { 1 ≤ own }
    requires own_narrow { own ≤ 64 }
    requires own_widest { own ≤ C.WIDEST }
    requires some { 1 ≤ width }
    requires narrow { width ≤ 64 }
    requires widest { width ≤ C.WIDEST }
    requires takes { C.takes own width }
    requires few { rows ≤ 10000 }
{
    check_ways::<C, R>(rt, own, width, &filled(rt, rows, false));
    check_ways::<C, R>(rt, own, width, &filled(rt, rows, true));
    check_ways::<C, R>(rt, own, width, &random_rows(rt, rows));
}

#[test]
fn copied_slices(rt: HostRuntime) {
    for width in 1..=64 {
        for rows in [1, 63, 64, 65, 257] {
            check_rows::<SliceColumn, _>(&rt, width, width, rows);
        }
    }
}

/// A run in which no row is copied lies between two in which some are.
#[test]
fn copied_runs(rt: HostRuntime) {
    let mut rows = filled(&rt, 192, false);
    rows.set(1, true);
    rows.set(191, true);
    for width in [1, 8, 9, 33, 64] {
        check_ways::<SliceColumn, _>(&rt, width, width, &rows);
    }
}

#[test]
fn copied_planes(rt: HostRuntime) {
    for width in 1..=64 {
        check_ways::<VerticalColumn, _>(&rt, width, width, &random_rows(&rt, 257));
    }
}

#[test]
fn ends_of_planes(rt: HostRuntime) {
    for width in [1, 9, 64] {
        for rows in [1, 65, 255, 256, 257] {
            check_rows::<VerticalColumn, _>(&rt, width, width, rows);
        }
    }
}

/// Codes are copied to wider and to narrower ones.
#[test]
fn planes_of_other_widths(rt: HostRuntime) {
    for own in [1, 4, 9, 32, 63, 64] {
        for width in [1, 3, 10, 33, 63, 64] {
            check_ways::<VerticalColumn, _>(&rt, own, width, &random_rows(&rt, 257));
        }
    }
}

/// Planes are copied in blocks of 4096 rows.
#[test]
fn blocks_of_planes(rt: HostRuntime) {
    for (own, width) in [(1, 1), (2, 7), (33, 6), (64, 64)] {
        for rows in [4095, 4096, 4097, 8300] {
            let (some, moving) = (random_rows(&rt, rows), need_of(&rt, rows));
            check_copy::<VerticalColumn, _>(&rt, own, width, &some, &moving, Way::Up);
        }
    }
}

fn check_new<C: Copies + Drop, R: Abort + AllocGlobal>(rt: &R, width: u32, rows: usize)
    requires some { 1 ≤ width }
    requires widest { width ≤ C.WIDEST }
    requires few { rows ≤ 10000 }
{
    let mut column: C = column_with(rt, width, &[]);
    check_zeros(rt, &mut column, rows);
}

#[test]
fn zeros_in_no_rows(rt: HostRuntime) {
    for width in [1, 8, 9, 33, 64] {
        for rows in [0, 1, 31, 32, 33, 255, 256, 257, 300] {
            check_new::<SliceColumn, _>(&rt, width, rows);
            check_new::<VerticalColumn, _>(&rt, width, rows);
        }
    }
}
