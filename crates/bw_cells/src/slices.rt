//! Cells stored in memory as a slice.

use crate::cells::{Cells, Measured};

impl Cells for &[Option<i64>] {
    ghost cells = { λ s. s.now };

    fn len(&self) -> usize {
        <[Option<i64>]>::len(self)
    }

    fn read(&self, at: usize, out: &mut [Option<i64>]) {
        out.copy_from_slice(&self[at..at + out.len()]);
    }
}

impl Measured for &[Option<i64>] {}
