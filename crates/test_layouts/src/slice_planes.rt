//! The planes of slices, compared with the bits of the codes.

ghost use Rattle.std.specs.Prelude.{length, ◌*◌, ◌+◌, ◌/◌, ◌<◌, ◌≡◌, ◌≤◌};
ghost use Rattle.bw_code.specs.Units.{segments_of};

use crate::codes::{code_at, codes_of, column_of};
use crate::seen::{see, see_at};
use bw_byteslice::SliceColumn;
use bw_code::{CodeColumn, Source};
use std::process::Abort;

/// The rows of a plane, compared with the bits of the codes.
fn check_plane<R: Abort>(rt: &R, column: &SliceColumn, plane: &[u64; 4], q: usize, i: u32)
    requires segment { q < 1000 }
    requires plane { i < column.now.width }
{
    let width = column.width();
    let bit = width - 1 - i;
    for r in 0..256 {
        let row = 256 * q + r;
        let wanted = row < column.len() && code_at(width, row) >> bit & 1 == 1;
        see_at(rt, (row, bit), plane[r / 64] >> (r % 64) & 1 == 1, wanted);
    }
}

/// A plane by the index of its unit.
fn check_unit<R: Abort>(rt: &R, column: &SliceColumn, plane: &[u64; 4], unit: usize)
    requires { unit < 1000 }
{
    let k = column.width() as usize;
    check_plane(rt, column, plane, unit / k, (unit % k) as u32);
}

/// How many planes the segments of a column have.
fn count_of_planes(column: &SliceColumn) -> usize
    requires narrow { column.now.width ≤ 64 }
    requires some_rows { 1 ≤ length column.now.codes }
    requires few_rows { length column.now.codes ≤ 1000 }
    ensures planes { result ≡ segments_of 256 (length column.now.codes) * column.now.width }
    ensures some { 1 ≤ result }
    ensures few { result ≤ 256 }
{
    column.len().div_ceil(256) * column.width() as usize
}

/// All planes in the order of their units, and the first once more.
fn check_planes<R: Abort>(rt: &R, column: &SliceColumn)
    requires narrow { column.now.width ≤ 64 }
    requires some_rows { 1 ≤ length column.now.codes }
    requires few { length column.now.codes ≤ 1000 }
{
    let units = count_of_planes(column);
    let mut planes = column.planes();
    for unit in 0..units {
        let plane = planes.read(unit);
        check_unit(rt, column, &plane, unit);
    }
    let first = planes.read(0);
    check_unit(rt, column, &first, 0);
    see(rt, planes.reads(), units as u64 + 1);
}

fn check_codes<R: Abort + AllocGlobal>(rt: &R, width: u32, rows: usize)
    requires some { 1 ≤ width }
    requires narrow { width ≤ 64 }
    requires some_rows { 1 ≤ rows }
    requires few { rows ≤ 1000 }
{
    check_planes(rt, &column_of(rt, width, &codes_of(rt, width, rows)));
}

#[test]
fn planes_against_codes(rt: HostRuntime) {
    for width in 1..=64 {
        for rows in [1, 32, 33, 65, 256, 257, 301] {
            check_codes(&rt, width, rows);
        }
    }
}
