//! Dictionaries by ranks: the distinct integers among cells with the index of each cell's integer, found in one pass;
//! merging entries with others; and looking up entries in others.
#![tactic(auto)]

mod adding;
mod entries;
mod finding;
mod merging;
mod ranked_cells;
mod standing;

pub use adding::{AddedEntry, add_entry};
pub use entries::{dictionary_like, dictionary_of};
pub use finding::{find_entries, find_standing};
pub use merging::{MergedEntries, merge_entries};
pub use ranked_cells::{RankedCells, rank_cells};
pub use standing::{first_unmarked, mark_standing, move_codes};
