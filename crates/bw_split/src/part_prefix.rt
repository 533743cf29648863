//! The kept prefix of a part.

ghost use Rattle.std.specs.Prelude.{◌≡◌, ◌+◌, ◌++◌, ◌<◌, ◌≤◌, [], IfOk, List, MatchResult, length, nat_le, take, vec_capacity, ℕ};
ghost use Rattle.bw_lex.specs.declared.fault.SqlFault.TheVariants.{TooLong};
ghost use Rattle.bw_split.specs.Prefixes.{Holds, longest_part};
ghost use Rattle.bw_split.specs.Stretches.{carried};

use bw_lex::SqlFault;
use std::alloc::{AllocError, Global};
use std::marker::Model;

/// The greatest number of bytes of a part that are kept. A longer part is too long to be a statement.
pub const LONGEST_PART: usize = 65_536;

/// The first bytes of a part, up to the greatest length, and whether the part continues after them.
#[derive(Drop)]
pub(crate) struct PartPrefix {
    bytes: Vec<u8>,
    is_longer: bool,
}

impl Model for PartPrefix {
    ghost use Rattle.std.specs.Prelude.{◌≤◌, length, vec_capacity};
    ghost use Rattle.bw_split.specs.Prefixes.{Prefix, longest_part};

    ghost Value = { Prefix };

    ghost view = { λ k. record { bytes = k.bytes.items; is_longer = k.is_longer } };

    ghost invariant = { λ k. (length k.bytes.items ≤ longest_part) × (longest_part ≤ vec_capacity k.bytes) };
}

// Appends the bytes as far as there is room. Returns whether they all fit.
fn keep(prefix: &mut Vec<u8>, bytes: &[u8]) -> bool
    requires short { length prefix.old.items ≤ longest_part }
    requires room { longest_part ≤ vec_capacity prefix.old }
    ensures prefix { prefix.new.items ≡ take longest_part (prefix.old.items ++ bytes.now) }
    ensures room { longest_part ≤ vec_capacity prefix.new }
    ensures fits { result ≡ nat_le (length prefix.old.items + length bytes.now) longest_part }
{
    let room = LONGEST_PART - prefix.len();
    let Ok(()) = prefix.extend_from_slice(&bytes[..bytes.len().min(room)]) else {
        unreachable!()
    };
    bytes.len() <= room
}

impl PartPrefix {
    /// Empty, with room for the longest part.
    pub(crate) fn new(alloc: Global) -> Result<PartPrefix, AllocError>
        ensures { IfOk result (λ prefix. Holds prefix []) }
    {
        Ok(PartPrefix {
            bytes: Vec::with_capacity(alloc, LONGEST_PART)?,
            is_longer: false,
        })
    }

    /// Clears the part.
    pub(crate) fn clear(&mut self)
        ensures { Holds self.new [] }
    {
        self.bytes.clear();
        self.is_longer = false;
    }

    /// Clears the part if a new one starts after some bytes of the piece.
    pub(crate) fn carry(&mut self, start: usize)
        ensures { (part : List ℕ) → Holds self.old part → Holds self.new (carried start part) }
    {
        if start > 0 {
            self.clear();
        }
    }

    /// Appends bytes to the part.
    pub(crate) fn add(&mut self, bytes: &[u8])
        ensures { (part : List ℕ) → Holds self.old part → Holds self.new (part ++ bytes.now) }
    {
        let fits = keep(&mut self.bytes, bytes);
        self.is_longer |= !fits;
    }

    /// The whole part.
    pub(crate) fn text(&self) -> Result<&[u8], SqlFault>
        ensures { (part : List ℕ) → Holds self.now part → MatchResult result (λ text. (length part ≤ longest_part) × (text.now ≡ part)) (λ fault. (longest_part < length part) × (fault ≡ TooLong)) }
    {
        if self.is_longer {
            Err(SqlFault::TooLong)
        } else {
            Ok(&self.bytes)
        }
    }
}
