//! Codes side by side in words (layout H, BitWeaving/H).
#![tactic(auto)]

mod blending;
mod column;
mod full_words;
mod gather;
mod pair;
mod place;
mod planes;
mod rebasing;
mod scan;
mod source;
mod storage;
mod word_test;

pub use column::HorizontalColumn;
pub use pair::pair_from;
pub use scan::scan_from;
