//! Cells: integers and nulls that are read in blocks, wherever and in whatever form they are stored.
#![tactic(auto)]

mod cells;
mod distances;
mod ends;
mod slices;

pub use cells::{Cells, Measured};
pub use distances::{distances_in_run, presence, set_bytes};
pub use ends::ends_of_both;
