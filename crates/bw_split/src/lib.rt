//! A script in pieces, however it is split: its parts, one after another.
#![tactic(auto)]

mod lanes;
mod laws;
mod part_prefix;
mod part_range;
mod progress;
mod splitter;
mod stretch;

pub use laws::{parts_are_given, piece_by_piece, pieces_give_parts};
pub use part_prefix::LONGEST_PART;
pub use splitter::Splitter;
