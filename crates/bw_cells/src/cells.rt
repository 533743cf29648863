//! A list of cells.

ghost use Rattle.std.specs.Prelude.{All, IfSome, List, None, Option, [], drop, is_some, length, map, slice_index, slice_index_or, take, ℕ, ℤ, ◌+◌, ◌<◌, ◌≡◌, ◌≤◌};
ghost use Rattle.bw_code.specs.Fittings.{AreEnds};
ghost use Rattle.bw_cells.specs.Distances.{distance_from};
ghost use Rattle.bw_cells.specs.Known.{known};
ghost use Rattle.bw_mask.specs.Masks.{bit_of, row_in};
ghost use Rattle.bw_code.specs.Encodings.{IsWithin};
ghost use Rattle.bw_code.specs.Widths.{widest_code};

use crate::distances::distances_in_run;
use crate::ends::ends_in_runs;
use bw_code::{Ends, Offset, PlaneBlock};

/// A list of cells, each an integer or NULL. It is read in blocks, so that it need not be stored as such a list: cells
/// may be decoded, widened or gathered as they are read.
pub trait Cells {
    ghost cells: { Self → List (Option ℤ) };

    /// The number of cells.
    fn len(&self) -> usize
        ensures { result ≡ length (cells self.now) };

    /// Fills `out` with the cells from index `at` on. Takes no memory.
    fn read(&self, at: usize, out: &mut [Option<i64>])
        requires { at + length out.old ≤ length (cells self.now) }
        ensures { out.new ≡ take (length out.old) (drop at (cells self.now)) };
}

/// Cells whose least and greatest value and distances from a base can be computed.
pub trait Measured: Cells {
    /// The least and the greatest of the integers, if there are any. Takes no memory. It reads all cells in blocks,
    /// unless a type stores them in a form in which their ends are found faster.
    fn ends(&self) -> Option<Ends>
        ensures { AreEnds (known (Self.cells self.now)) result }
    {
        ends_in_runs(self)
    }

    /// An offset encoding in which each of the integers has a code. Takes no memory. Where a type knows one without reading
    /// its cells, the base may be lower than the least integer, and the codes wider than they have to be.
    fn span(&self) -> Offset
        ensures { All (IsWithin result) (known (Self.cells self.now)) }
    {
        Offset::spanning(self.ends())
    }

    /// Fills `out` with the distance from the base of each of at most 64 cells from index `at` on, modulo 2^64, and
    /// with 0 for a NULL. Bit i of the result says whether cell `at + i` is an integer; past the last cell bits are 0.
    /// Takes no memory.
    fn distances(&self, at: usize, base: i64, out: &mut [u64]) -> u64
        requires few { length out.old ≤ 64 }
        requires inside { at + length out.old ≤ length (Self.cells self.now) }
        ensures distances { out.new ≡ map (distance_from base) (take (length out.old) (drop at (Self.cells self.now))) }
        ensures present { (i : ℕ) → bit_of result i ≡ is_some (slice_index_or (take (length out.old) (drop at (Self.cells self.now))) i None) }
    {
        distances_in_run(self, at, base, out)
    }

    /// The planes of k bits of at most 2,048 cells from index `at` on, where they can be made without reading each cell:
    /// row r of plane b becomes bit b of the distance of cell `at + r` from the base, modulo 2^64, and is 0 for a NULL
    /// and past the last cell. The planes from k on are unspecified. Row i of the result, whose words have 64 rows each,
    /// says whether cell `at + i` is an integer; past the last cell rows are 0. Returns `None` where the planes can't be
    /// made so. Takes no memory.
    fn planes(
        &self,
        at: usize,
        count: usize,
        base: i64,
        k: usize,
        block: &mut PlaneBlock,
    ) -> Option<[u64; 32]>
        requires few { count ≤ 2048 }
        requires narrow { k ≤ widest_code }
        requires inside { at + count ≤ length (Self.cells self.now) }
        ensures planes { IfSome result (λ present. (b r : ℕ) → b < k → r < 2048 → row_in (slice_index_or block.new b []) r ≡ bit_of (slice_index (map (distance_from base) (take count (drop at (Self.cells self.now)))) r) b) }
        ensures present { IfSome result (λ present. (i : ℕ) → row_in present i ≡ is_some (slice_index_or (take count (drop at (Self.cells self.now))) i None)) }
    {
        None
    }
}
