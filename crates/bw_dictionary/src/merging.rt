//! Merging two lists of entries, of each only those in use.

ghost use Rattle.std.specs.Prelude.{Bool, IfOk, IsTrue, List, length, vec_capacity, ℕ, ◌+◌, ◌<◌, ◌≡◌, ◌≤◌};
ghost use Rattle.bw_code.specs.Ascending.{IsAscending};
ghost use Rattle.bw_dictionary.specs.Merging.{IsOldNext, IsTurn, IsUnion, Merging};

use std::alloc::{AllocError, Global};

/// Which list the next entry comes from.
enum Turn {
    /// The next old entry is not in use.
    SkipOld,
    /// The next new entry is not in use.
    SkipNew,
    /// The next old entry alone.
    Old,
    /// The next new entry alone.
    New,
    /// Both lists have it.
    Both,
}

/// The result of merging two lists of entries.
#[derive(Debug, Drop)]
pub struct MergedEntries {
    /// All entries, ascending.
    pub entries: Vec<i64>,
    /// For each old entry that is in use its index among all.
    pub moves: Vec<u64>,
    /// For each new entry that is in use its index among all.
    pub places: Vec<u64>,
}

/// Which list the next entry comes from, after i old and j new ones.
fn turn_of(
    old: &[i64],
    old_stands: &[bool],
    new: &[i64],
    new_stands: &[bool],
    i: usize,
    j: usize,
) -> Turn
    requires old_flags { length old_stands.now ≡ length old.now }
    requires new_flags { length new_stands.now ≡ length new.now }
    requires old { i ≤ length old.now }
    requires new { j ≤ length new.now }
    requires some { i + j < length old.now + length new.now }
    ensures { IsTurn old.now old_stands.now new.now new_stands.now i j result }
{
    if i < old.len() && !old_stands[i] {
        return Turn::SkipOld;
    }
    if j < new.len() && !new_stands[j] {
        return Turn::SkipNew;
    }
    if i == old.len() {
        return Turn::New;
    }
    if j == new.len() {
        return Turn::Old;
    }
    if old[i] < new[j] {
        return Turn::Old;
    }
    if new[j] < old[i] {
        return Turn::New;
    }
    Turn::Both
}

/// Whether the next old entry is in use and comes before the next new one, after i old and j new ones.
fn is_old_next(old: &[i64], stands: &[bool], new: &[i64], i: usize, j: usize) -> bool
    requires flags { length stands.now ≡ length old.now }
    requires new { j ≤ length new.now }
    ensures { IsTrue result → IsOldNext old.now stands.now new.now i j }
{
    i < old.len() && stands[i] && (j == new.len() || old[i] < new[j])
}

/// Takes the old entries from index `from` on that are in use and come before the next new one, after j new ones.
/// Returns the index of the first that it leaves. Most entries come in long runs, which a loop of their own takes.
fn take_run(
    old: &[i64],
    stands: &[bool],
    new: &[i64],
    from: usize,
    j: usize,
    entries: &mut Vec<i64>,
    moves: &mut Vec<u64>,
) -> usize
    requires flags { length stands.now ≡ length old.now }
    requires old { IsAscending old.now }
    requires new { IsAscending new.now }
    requires from { from ≤ length old.now }
    requires taken { j ≤ length new.now }
    requires entries_room { length old.now + length new.now ≤ vec_capacity entries.old }
    requires moves_room { length old.now ≤ vec_capacity moves.old }
    requires merging { (new_stands : List Bool) × (places : List ℕ) × Merging old.now stands.now new.now new_stands from j entries.old.items moves.old.items places }
    ensures from { from ≤ result }
    ensures inside { result ≤ length old.now }
    ensures entries_room { vec_capacity entries.old ≤ vec_capacity entries.new }
    ensures moves_room { vec_capacity moves.old ≤ vec_capacity moves.new }
    ensures merging { (new_stands : List Bool) (places : List ℕ) → Merging old.now stands.now new.now new_stands from j entries.old.items moves.old.items places → Merging old.now stands.now new.now new_stands result j entries.new.items moves.new.items places }
{
    let mut i = from;
    'run: while is_old_next(old, stands, new, i, j) {
        let index = entries.len() as u64;
        entries.push_reserved(old[i]);
        moves.push_reserved(index);
        i += 1;
    }
    i
}

/// The entries of both lists that are in use.
pub fn merge_entries(
    alloc: Global,
    old: &[i64],
    old_stands: &[bool],
    new: &[i64],
    new_stands: &[bool],
) -> Result<MergedEntries, AllocError>
    requires old_flags { length old_stands.now ≡ length old.now }
    requires new_flags { length new_stands.now ≡ length new.now }
    requires old { IsAscending old.now }
    requires new { IsAscending new.now }
    ensures { IfOk result (λ merged. IsUnion old.now old_stands.now new.now new_stands.now merged.entries.items merged.moves.items merged.places.items) }
{
    let mut entries = Vec::with_capacity(alloc, old.len() + new.len())?;
    let mut moves = Vec::with_capacity(alloc, old.len())?;
    let mut places = Vec::with_capacity(alloc, new.len())?;
    let mut i = 0;
    let mut j = 0;
    'merge: while i < old.len() || j < new.len() {
        let place = entries.len() as u64;
        match turn_of(old, old_stands, new, new_stands, i, j) {
            Turn::SkipOld => {
                moves.push_reserved(0);
                i += 1;
            }
            Turn::SkipNew => {
                places.push_reserved(0);
                j += 1;
            }
            Turn::Old => {
                entries.push_reserved(old[i]);
                moves.push_reserved(place);
                i = take_run(old, old_stands, new, i + 1, j, &mut entries, &mut moves);
            }
            Turn::New => {
                entries.push_reserved(new[j]);
                places.push_reserved(place);
                j += 1;
            }
            Turn::Both => {
                entries.push_reserved(old[i]);
                moves.push_reserved(place);
                places.push_reserved(place);
                i += 1;
                j += 1;
            }
        }
    }
    Ok(MergedEntries {
        entries,
        moves,
        places,
    })
}
