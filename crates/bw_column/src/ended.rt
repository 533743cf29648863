//! Cells whose least and greatest value are computed once.

ghost use Rattle.std.specs.Prelude.{◌≡◌};

use bw_cells::{Cells, Measured};
use bw_code::Ends;
use std::marker::Model;

/// Cells with their least and greatest value, so that asking for these again takes no second pass over the cells.
#[derive(Drop)]
pub(crate) struct EndedCells<'a, C: Measured> {
    cells: &'a C,
    ends: Option<Ends>,
}

impl<'a, C: Measured> Model for EndedCells<'a, C> {
    ghost use Rattle.std.specs.Prelude.{List, Option, ℤ};
    ghost use Rattle.bw_cells.specs.Known.{known};
    ghost use Rattle.bw_code.specs.Fittings.{AreEnds};

    ghost Value = { List (Option ℤ) };

    ghost view = { λ ended. C.cells ended.cells.now };

    ghost invariant = { λ ended. AreEnds (known (C.cells ended.cells.now)) ended.ends };
}

impl<'a, C: Measured> EndedCells<'a, C> {
    /// The cells, with their ends computed now.
    pub(crate) fn of(cells: &'a C) -> EndedCells<'a, C>
        ensures { result ≡ C.cells cells.now }
    {
        EndedCells {
            cells,
            ends: cells.ends(),
        }
    }
}

impl<'a, C: Measured> Cells for EndedCells<'a, C> {
    ghost cells = { λ ended. ended };

    fn len(&self) -> usize {
        self.cells.len()
    }

    fn read(&self, at: usize, out: &mut [Option<i64>]) {
        self.cells.read(at, out);
    }
}

impl<'a, C: Measured> Measured for EndedCells<'a, C> {
    fn ends(&self) -> Option<Ends> {
        self.ends
    }

    fn distances(&self, at: usize, base: i64, out: &mut [u64]) -> u64 {
        self.cells.distances(at, base, out)
    }
}
