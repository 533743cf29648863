//! Set functions of a column's values, computed from bit planes (O'Neil and Quass, SIGMOD 1997).
#![tactic(auto)]

mod descent;
mod digits;
mod end;
mod ends;
mod entry_sums;
mod known;
mod left;
mod middle;
mod nearest_planes;
mod nearest_runs;
mod nth_code;
mod parting;
mod plane;
mod plane_sums;
mod rows;
mod runs;
mod segments;
mod set_functions;
mod summary;
mod tally;
mod tally_planes;
mod tally_runs;
mod telling;
mod totals;

pub use parting::next_group;
pub use set_functions::{count, max, median, min, sum};
pub use summary::{Asked, Summary, summarize};
