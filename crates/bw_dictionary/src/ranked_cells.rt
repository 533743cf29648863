//! The distinct integers among cells, and the index of each cell's integer among them.

ghost use Rattle.std.specs.Prelude.{All, IfOk, [], drop, length, map, pos, take, ◌+◌, ◌+ℤ◌, ◌^◌, ◌≡◌, ◌≤◌, ◌≤ℤ◌};
ghost use Rattle.bw_cells.specs.Distances.{distance_from};
ghost use Rattle.bw_cells.specs.Known.{known};
ghost use Rattle.bw_code.specs.Encodings.{IsGreatest, IsLeast};
ghost use Rattle.bw_dictionary.specs.Moving.{moved_place};
ghost use Rattle.bw_dictionary.specs.Ranking.{AreRanked};

use crate::standing::move_codes;
use bw_cells::Measured;
use bw_code::Ends;
use bw_rank::{Ranks, rank};
use std::alloc::{AllocError, Global};

/// The distinct integers among cells, and the index of each cell's integer among them: the entries of a dictionary and
/// its codes.
#[derive(Debug, Drop)]
pub struct RankedCells {
    /// The distinct integers, ascending.
    pub entries: Vec<i64>,
    /// For each cell the index of its integer among the entries, and 0 for a NULL.
    pub places: Vec<u32>,
}

impl RankedCells {
    /// Fills `codes` with the indices of the cells from cell `at` on.
    pub fn read_codes(&self, at: usize, codes: &mut [u64])
        requires { at + length codes.old ≤ length self.now.places.items }
        ensures { codes.new ≡ take (length codes.old) (drop at self.now.places.items) }
    {
        widen(&self.places[at..at + codes.len()], codes);
    }

    /// The codes of the cells, from a table with one code for each entry; that of a NULL is 0.
    pub fn codes<C: Measured>(
        &self,
        alloc: Global,
        cells: &C,
        table: &[u64],
    ) -> Result<Vec<u64>, AllocError>
        requires ranked { AreRanked (C.cells cells.now) self.now }
        requires table { length table.now ≡ length self.now.entries.items }
        ensures { IfOk result (λ codes. codes.items ≡ map (moved_place table.now self.now.entries.items) (C.cells cells.now)) }
    {
        let mut codes = Vec::with_capacity(alloc, cells.len())?;
        let mut list = [0; 64];
        let mut at = 0;
        while at < cells.len() {
            let n = (cells.len() - at).min(64);
            let run = &mut list[..n];
            let present = cells.distances(at, 0, run);
            self.read_codes(at, run);
            move_codes(run, present, table);
            codes.extend_from_slice(run)?;
            at += n;
        }
        Ok(codes)
    }
}

/// Indices as codes.
fn widen(places: &[u32], codes: &mut [u64])
    requires { length places.now ≡ length codes.old }
    ensures { codes.new ≡ places.now }
{
    'places: for i in 0..places.len() {
        codes[i] = u64::from(places[i]);
    }
}

/// The distinct integers among at most 16,777,216 cells, and the index of each cell's integer among them.
pub fn rank_cells<C: Measured>(alloc: Global, cells: &C) -> Result<RankedCells, AllocError>
    requires { length (C.cells cells.now) ≤ 2 ^ 24 }
    ensures { IfOk result (AreRanked (C.cells cells.now)) }
{
    match cells.ends() {
        Some(ends) => rank_between(alloc, cells, ends),
        None => rank_nulls(alloc, cells),
    }
}

/// No integers, and index 0 for each NULL.
fn rank_nulls<C: Measured>(alloc: Global, cells: &C) -> Result<RankedCells, AllocError>
    requires { known (C.cells cells.now) ≡ [] }
    ensures { IfOk result (AreRanked (C.cells cells.now)) }
{
    Ok(RankedCells {
        entries: Vec::new(alloc),
        places: Vec::from_elem(alloc, 0, cells.len())?,
    })
}

/// The same for cells with these ends, by their distances from the least. That of a NULL is 0, so it gets no entry of
/// its own.
fn rank_between<C: Measured>(
    alloc: Global,
    cells: &C,
    ends: Ends,
) -> Result<RankedCells, AllocError>
    requires few { length (C.cells cells.now) ≤ 2 ^ 24 }
    requires least { IsLeast (known (C.cells cells.now)) ends.least }
    requires greatest { IsGreatest (known (C.cells cells.now)) ends.greatest }
    ensures { IfOk result (AreRanked (C.cells cells.now)) }
{
    let distances = distances_of(alloc, cells, ends.least)?;
    let Ranks { entries, ranks } = rank(alloc, &distances)?;
    Ok(RankedCells {
        entries: values_at(alloc, ends, &entries)?,
        places: ranks,
    })
}

/// The distance of each cell from the base; 0 for a NULL.
fn distances_of<C: Measured>(alloc: Global, cells: &C, base: i64) -> Result<Vec<u64>, AllocError>
    ensures { IfOk result (λ distances. distances.items ≡ map (distance_from base) (C.cells cells.now)) }
{
    let mut distances = Vec::with_capacity(alloc, cells.len())?;
    let mut run = [0; 64];
    let mut at = 0;
    while at < cells.len() {
        let n = (cells.len() - at).min(64);
        cells.distances(at, base, &mut run[..n]);
        distances.extend_from_slice(&run[..n])?;
        at += n;
    }
    Ok(distances)
}

/// The integers at these distances from the least.
fn values_at(alloc: Global, ends: Ends, distances: &[u64]) -> Result<Vec<i64>, AllocError>
    requires { All (λ n. (ends.least +ℤ pos n) ≤ℤ ends.greatest) distances.now }
    ensures { IfOk result (λ values. values.items ≡ map (λ n. ends.least +ℤ pos n) distances.now) }
{
    let mut values = Vec::with_capacity(alloc, distances.len())?;
    'distances: for i in 0..distances.len() {
        values.push_reserved(value_at(ends, distances[i]));
    }
    Ok(values)
}

fn value_at(ends: Ends, distance: u64) -> i64
    requires { (ends.least +ℤ pos distance) ≤ℤ ends.greatest }
    ensures { result ≡ ends.least +ℤ pos distance }
{
    ends.least.wrapping_add_unsigned(distance)
}
