//! Columns of integers and nulls, kept as codes.
#![tactic(auto)]

mod bounds;
mod building;
mod change;
mod codes;
mod column;
mod column_planes;
mod compare;
mod compare_anew;
mod copying;
mod direct_copy;
mod distances;
mod ended;
mod ends;
mod entry_step;
mod exchanging;
mod extending;
mod filling;
mod finding;
mod growing;
mod in_memory;
mod kept;
mod lent_ends;
mod lent_planes;
mod pair_codes;
mod pairs;
mod raising;
mod reading;
mod rebuilding;
mod runs;
mod slice_ends;
mod span;
mod split;
mod step;
mod storage;
mod stored_copy;
mod unlent;
mod within;

pub use change::Prepared;
pub use column::Column;
pub use copying::PreparedCopy;
pub use storage::Storage;

/// Compares columns of kind OFFSET over sources of planes, whatever their bases.
pub use bw_vertical::add_from;
