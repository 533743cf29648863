//! Codes as slices of bytes (layout S, ByteSlice).
#![tactic(auto)]

mod blocks;
mod column;
mod copying;
mod exchanging;
mod filling;
mod laws;
mod pair;
mod plane;
mod plane_blocks;
mod plane_source;
mod reading;
mod rebasing;
mod rows;
mod runs;
mod scan;
mod shift;
mod source;
mod storage;

pub use column::SliceColumn;
pub use laws::codes_of_units;
pub use pair::pair_from;
pub use plane_source::SlicePlanes;
pub use scan::scan_from;
