//! Kernels over lanes: each does for many rows at once what its definition states for one. None takes memory.
#![tactic(auto)]

mod planes;
mod sections;
mod slices;
mod words;

pub use planes::{add_const_step, low_first_step, plane_pair_step, plane_step};
pub use sections::{LaneOp, SectionMasks, SectionTest, word_compare, word_compare_pair};
pub use slices::{byte_pair_step, byte_step};
pub use words::{and_words, andnot_words, count_and_words, count_words, or_words};
