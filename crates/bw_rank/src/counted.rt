//! Ranks, and how often each of the distinct numbers occurs.

ghost use Rattle.std.specs.Prelude.{All, IfOk, List, length, ℕ, ◌<◌, ◌≤◌, ◌^◌};
ghost use Rattle.bw_rank.specs.Ranks.{AreRanked, AreRanks};

use crate::ranked::Ranked;
use crate::table::counts_below;
use std::alloc::{AllocError, Global};

/// Counts how often each of the distinct numbers occurs.
pub(crate) fn with_times(
    alloc: Global,
    entries: Vec<u64>,
    ranks: Vec<u32>,
) -> Result<Ranked, AllocError>
    requires few { length ranks.items ≤ 2 ^ 24 }
    requires inside { All (λ r. r < length entries.items) ranks.items }
    ensures { IfOk result (λ ranked. (numbers : List ℕ) → AreRanks numbers entries.items ranks.items → AreRanked numbers ranked) }
{
    let times = counts_below(alloc, &ranks, entries.len())?;
    Ok(Ranked {
        entries,
        times,
        ranks,
    })
}
