//! A column that doesn't lend its planes, for columns to which its codes come faster as they are.

use crate::column::Column;
use bw_cells::{Cells, Measured};
use bw_code::{Ends, Layout};

/// Whether codes come from one layout to another faster by their planes than by the codes themselves.
pub(crate) fn goes_by_planes(from: Layout, to: Layout) -> bool {
    match from {
        Layout::V => true,
        Layout::S => matches!(to, Layout::V | Layout::S),
        Layout::P | Layout::H => false,
    }
}

/// The values of a column, which lends no planes.
#[derive(Clone, Copy)]
pub(crate) struct Unlent<'a> {
    pub(crate) column: &'a Column,
}

impl Cells for Unlent<'_> {
    ghost cells = { λ cells. cells.column.now.values };

    fn len(&self) -> usize {
        self.column.len()
    }

    fn read(&self, at: usize, out: &mut [Option<i64>]) {
        self.column.read(at, out);
    }
}

impl Measured for Unlent<'_> {
    fn ends(&self) -> Option<Ends> {
        self.column.ends()
    }

    fn distances(&self, at: usize, base: i64, out: &mut [u64]) -> u64 {
        self.column.distances(at, base, out)
    }
}
