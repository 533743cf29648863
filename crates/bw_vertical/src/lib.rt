//! Codes as planes of bits (layout V, BitWeaving/V).
#![tactic(auto)]

mod addition;
mod blending;
mod block_words;
mod blocks;
mod bytes;
mod code_blocks;
mod code_ends;
mod codes;
mod column;
mod copying;
mod descent;
mod filling;
mod growing;
mod pair;
mod plane_blocks;
mod rows;
mod runs;
mod scan;
mod shifting;
mod source;
mod storage;
mod swapping;

pub use addition::add_from;
pub use block_words::{put_codes_of_words, put_word_of_planes, read_word_of_planes};
pub use blocks::{plane_words, put_plane_words, wide_plane_words};
pub use bytes::{bytes_of_words, codes_of_words, halves_of_words};
pub use code_blocks::{
    put_block_of_narrow, put_block_of_wide, put_planes_of_bytes, put_word_of_wide,
};
pub use code_ends::CodeEnds;
pub use column::VerticalColumn;
pub use pair::pair_from;
pub use scan::scan_from;
pub use shifting::shift_words;
pub use source::PlaneSource;
