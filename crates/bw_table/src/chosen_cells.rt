//! The values of a column in the rows of a mask, as cells that are read where they are: no list of them is built.

ghost use Rattle.std.specs.Prelude.{IfOk, drop, length, map, take, ◌*◌, ◌++◌, ◌+◌, ◌<◌, ◌^◌, ◌≡◌, ◌≤◌};
ghost use Rattle.bw_mask.specs.Masks.{MaskRows, len};
ghost use Rattle.bw_column.specs.Places.{chosen_values};
ghost use Rattle.bw_column.specs.Values.{value_at};
ghost use Rattle.bw_table.specs.Changes.{places, places_below};
ghost use Rattle.bw_table.specs.Choosing.{AreCounts};

use crate::gathering::pick;
use bw_cells::{Cells, Measured};
use bw_column::Column;
use bw_mask::Mask;
use std::alloc::{AllocError, Global};
use std::marker::Model;

/// The values of a column in the rows of a mask, in order.
#[derive(Drop)]
pub struct ChosenCells<'a> {
    column: &'a Column,
    mask: &'a Mask,
    /// For each word of 64 rows, how many rows of the mask are before it.
    before: Vec<u32>,
}

impl<'a> Model for ChosenCells<'a> {
    ghost use Rattle.std.specs.Prelude.{List, Option, length, ℤ, ◌≡◌};
    ghost use Rattle.bw_column.specs.Places.{chosen_values};
    ghost use Rattle.bw_mask.specs.Masks.{len};
    ghost use Rattle.bw_table.specs.Choosing.{AreCounts};

    ghost Value = { List (Option ℤ) };

    ghost view = { λ c. chosen_values c.mask.now c.column.now.values };

    ghost invariant = { λ c. (length c.column.now.values ≡ len c.mask.now) × AreCounts c.mask.now c.before.items };
}

/// How many rows of the mask are before each of its words.
fn counts_before(alloc: Global, mask: &Mask) -> Result<Vec<u32>, AllocError>
    requires { len mask.now ≤ 2 ^ 24 }
    ensures { IfOk result (λ counts. AreCounts mask.now counts.items) }
{
    let words = mask.len().div_ceil(64);
    let mut counts = Vec::with_capacity(alloc, words)?;
    let mut count = 0;
    for w in 0..words {
        counts.push(count)?;
        let n = (mask.len() - 64 * w).min(64);
        count += mask.bits(64 * w, n).count_ones();
    }
    Ok(counts)
}

/// The word in which row i of the mask's rows is.
fn word_with(before: &[u32], i: usize) -> usize
    requires { (mask : MaskRows) × AreCounts mask before.now × (i < length (places mask)) }
    ensures { (mask : MaskRows) → AreCounts mask before.now → i < length (places mask)
        → (length (places_below mask (64 * result)) ≤ i) × (i < length (places_below mask (64 * (result + 1)))) }
{
    before.partition_point(|count| *count as usize <= i) - 1
}

/// Writes a column's values in the rows of word `w` of a mask to the start of `out`, in order, and returns their number.
fn read_word(column: &Column, mask: &Mask, w: usize, out: &mut [Option<i64>; 64]) -> usize
    requires long { length column.now.values ≡ len mask.now }
    requires there { 64 * w < len mask.now }
    ensures few { result ≤ 64 }
    ensures values { map (value_at column.now.values) (places_below mask.now (64 * (w + 1)))
        ≡ map (value_at column.now.values) (places_below mask.now (64 * w)) ++ take result out.new }
{
    let mut run = [None; 64];
    let end = column.len();
    let at = 64 * w;
    let n = (end - at).min(64);
    column.read(at, &mut run[..n]);
    pick(&run[..n], mask.bits(at, n), out)
}

/// Copies n cells of a part, from index `skip` on, to those from index `done` on.
fn copy_part(out: &mut [Option<i64>], done: usize, part: &[Option<i64>], skip: usize, n: usize)
    requires room { done + n ≤ length out.old }
    requires there { skip + n ≤ length part.now }
    ensures long { length out.new ≡ length out.old }
    ensures front { take (done + n) out.new ≡ take done out.old ++ take n (drop skip part.now) }
{
    out[done..done + n].copy_from_slice(&part[skip..skip + n]);
}

impl<'a> ChosenCells<'a> {
    /// The values of a column in the rows of a mask.
    pub fn new(
        alloc: Global,
        column: &'a Column,
        mask: &'a Mask,
    ) -> Result<ChosenCells<'a>, AllocError>
        requires { length column.now.values ≡ len mask.now }
        ensures cells { IfOk result (λ cells. cells ≡ chosen_values mask.entry.now column.entry.now.values) }
        ensures few { IfOk result (λ cells. length cells ≤ len mask.entry.now) }
    {
        // The number of rows is bounded.
        let _few = column.len();
        let before = counts_before(alloc, mask)?;
        Ok(ChosenCells {
            column,
            mask,
            before,
        })
    }
}

impl<'a> Cells for ChosenCells<'a> {
    ghost cells = { λ c. c };

    fn len(&self) -> usize {
        self.mask.count()
    }

    fn read(&self, at: usize, out: &mut [Option<i64>]) {
        if out.is_empty() {
            return;
        }
        // The number of rows is bounded.
        let _few = self.mask.len();
        let mut front = [None; 64];
        let mut w = word_with(&self.before, at);
        let mut done = 0;
        while done < out.len() {
            let count = read_word(self.column, self.mask, w, &mut front);
            let skip = at + done - self.before[w] as usize;
            let n = (count - skip).min(out.len() - done);
            copy_part(out, done, &front[..count], skip, n);
            done += n;
            w += 1;
        }
    }
}

impl<'a> Measured for ChosenCells<'a> {}
