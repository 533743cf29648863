//! Putting one integer among the entries of a dictionary.

ghost use Rattle.std.specs.Prelude.{Contains, IfOk};
ghost use Rattle.bw_code.specs.Ascending.{IsAscending};
ghost use Rattle.bw_dictionary.specs.Adding.{IsEntryAdded};

use crate::finding::first_from;
use std::alloc::{AllocError, Global};

/// The entries of a dictionary after one more was put among them.
#[derive(Debug, Drop)]
pub struct AddedEntry {
    /// All entries, ascending.
    pub entries: Vec<i64>,
    /// The index of the new one.
    pub index: usize,
}

/// Puts an integer that is not among the entries where it belongs.
pub fn add_entry(alloc: Global, entries: &[i64], x: i64) -> Result<AddedEntry, AllocError>
    requires ascending { IsAscending entries.now }
    requires new { Contains entries.now x → ⊥ }
    ensures { IfOk result (λ added. IsEntryAdded entries.now x added.entries.items added.index) }
{
    let index = first_from(entries, 0, x);
    let mut all = Vec::with_capacity(alloc, entries.len() + 1)?;
    all.extend_from_slice(entries)?;
    all.insert(index, x)?;
    Ok(AddedEntry {
        entries: all,
        index,
    })
}
