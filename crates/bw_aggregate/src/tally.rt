//! The result of one pass over the codes of some rows.

use crate::end::Distances;

/// The sum of the codes of rows, and the least distance of the non-null ones from each end.
#[derive(Clone, Copy)]
pub(crate) struct Tally {
    pub(crate) sum: u128,
    pub(crate) nearest: Distances,
}

impl Tally {
    /// The tally if nothing is asked for.
    pub(crate) const NOTHING: Tally = Tally {
        sum: 0,
        nearest: Distances::NONE,
    };
}
