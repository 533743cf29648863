//! Random numbers.

use bw_code::Layout;

pub(crate) const LAYOUTS: [Layout; 4] = [Layout::P, Layout::V, Layout::H, Layout::S];

/// Numbers by shifts and exclusive or (Marsaglia's xorshift).
#[derive(Drop)]
pub(crate) struct Random {
    state: u64,
}

impl Random {
    /// The same numbers each time.
    pub(crate) fn new() -> Random {
        Random {
            state: 0x9e37_79b9_7f4a_7c15,
        }
    }

    pub(crate) fn next(&mut self) -> u64 {
        self.state ^= self.state << 13;
        self.state ^= self.state >> 7;
        self.state ^= self.state << 17;
        self.state
    }
}
