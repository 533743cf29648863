//! Distances of cells from a base.

ghost use Rattle.std.specs.Prelude.{None, drop, is_some, length, map, nat_lt, slice_index, slice_index_or, take, ℕ, ◌+◌, ◌<◌, ◌≡◌, ◌≤◌};
ghost use Rattle.bw_mask.specs.Masks.{bit_of};
ghost use Rattle.bw_cells.specs.Distances.{distance_from};

use crate::cells::Cells;
use std::simd::prelude::*;

/// Bit i says whether cell i is an integer.
pub fn presence(cells: &[Option<i64>]) -> u64
    requires { length cells.now ≤ 64 }
    ensures { (i : ℕ) → bit_of result i ≡ is_some (slice_index_or cells.now i None) }
{
    let mut there = [0; 64];
    for i in 0..cells.len() {
        there[i] = u8::from(cells[i].is_some());
    }
    set_bytes(&there)
}

/// Bit i says whether byte i is set.
pub fn set_bytes(bytes: &[u8; 64]) -> u64
    ensures { (i : ℕ) → i < 64 → bit_of result i ≡ nat_lt 0 (slice_index bytes.now i) }
{
    u8x64::splat(0)
        .simd_lt(u8x64::from_array(*bytes))
        .to_bitmask()
}

/// Fills `out` with the distance of each cell from the base, modulo 2^64, and with 0 for a NULL.
fn distances_of(cells: &[Option<i64>], base: i64, out: &mut [u64])
    requires { length cells.now ≡ length out.old }
    ensures { out.new ≡ map (distance_from base) cells.now }
{
    // No branch per cell, so that the loop can be vectorized. A NULL is treated as the base.
    for i in 0..cells.len() {
        let number = cells[i].unwrap_or(base);
        out[i] = number.cast_unsigned().wrapping_sub(base.cast_unsigned());
    }
}

/// Fills `out` with the distance of each of at most 64 cells from index `at` on, and returns which of them are
/// integers.
pub fn distances_in_run<C: Cells>(cells: &C, at: usize, base: i64, out: &mut [u64]) -> u64
    requires few { length out.old ≤ 64 }
    requires inside { at + length out.old ≤ length (C.cells cells.now) }
    ensures distances { out.new ≡ map (distance_from base) (take (length out.old) (drop at (C.cells cells.now))) }
    ensures present { (i : ℕ) → bit_of result i ≡ is_some (slice_index_or (take (length out.old) (drop at (C.cells cells.now))) i None) }
{
    let mut list = [None; 64];
    let run = &mut list[..out.len()];
    cells.read(at, run);
    distances_of(run, base, out);
    presence(run)
}
