//! Ranks of numbers among the distinct ones.
#![tactic(auto)]

mod counted;
mod marks;
mod packed;
mod ranked;
mod ranks;
mod refinement;
mod table;
mod widths;

pub use ranked::{Ranked, rank_counted, rank_narrow};
pub use ranks::{Ranks, rank};
