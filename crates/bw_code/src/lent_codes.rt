//! Plain codes as they lie in memory.

/// The codes of a plain column as they lie in memory, row by row.
#[derive(Clone, Copy)]
pub enum LentCodes<'a> {
    /// Codes of at most 32 bits.
    Narrow(&'a [u32]),
    /// Codes of more than 32 bits.
    Wide(&'a [u64]),
}
