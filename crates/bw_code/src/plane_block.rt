//! The planes of 2,048 rows, as columns and table files hand them to each other.

/// How many rows a block has.
pub const BLOCK_ROWS: usize = 2048;

/// The planes of a block of rows: plane b has bit b of each row's number, and row r is bit r % 64 of word r / 64.
///
/// A block has whole cache lines of each plane. The planes of a file lie far apart, and if one word of each is read or
/// written at a time, the caches lose its line before the next word.
pub type PlaneBlock = [[u64; 32]; 64];
