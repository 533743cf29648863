//! Encoding by the index among the sorted distinct values: order-preserving dictionaries (Antoshenkov, Lomet and
//! Murray, ICDE 1996).

ghost use Rattle.std.specs.Bool.{OnTrue};
ghost use Rattle.std.specs.Prelude.{◌≡◌, ◌<◌, ◌≤◌, ◌-◌, IfOk, List, ℤ, length, pos, slice_index_or, All, Contains, IsSome, IsTrue, ◌↔◌};
ghost use Rattle.bw_code.specs.Ascending.{IsAscending};

use crate::compare::{CmpOp, CodeTest};
use crate::ranks::{rank_range, rank_test};
use crate::width::width_of;
use std::alloc::{AllocError, Global};
use std::marker::Model;

/// An encoding by the index among the sorted distinct values.
#[derive(Debug, Drop)]
pub struct Dictionary {
    entries: Vec<i64>,
}

impl Model for Dictionary {
    ghost Value = { List ℤ };

    ghost view = { λ d. d.entries.items };

    ghost invariant = { λ d. IsAscending d.entries.items };
}

impl PartialEq for Dictionary {
    ghost use Rattle.std.specs.Cmp.Lexicographic.{pointwise, lists_per};
    ghost use Rattle.std.specs.Ordering.{int_eq};
    ghost use Rattle.std.specs.Cmp.{partial_equiv_from_equiv};
    ghost use Rattle.std.proofs.lemmas.Cmp.{int_eq_equiv};

    ghost eq = { λ a b. pointwise int_eq a b };

    ghost laws = { lists_per (partial_equiv_from_equiv int_eq_equiv) };

    fn eq(&self, other: &Dictionary) -> bool {
        self.entries == other.entries
    }
}

impl Eq for Dictionary {
    ghost use Rattle.std.proofs.lemmas.Cmp.{int_eq_equiv, lists_equiv};

    ghost laws = { lists_equiv int_eq_equiv };
}

impl Dictionary {
    ghost use Rattle.bw_code.specs.Encodings.{below, bits_of, entry_code, rank_range, rank_test, upto, AreCodes, AreDistinct, AreEntries};

    /// The dictionary of the distinct values among these.
    pub(crate) fn of_values(alloc: Global, values: &[i64]) -> Result<Dictionary, AllocError>
        ensures { IfOk result (AreDistinct values.now) }
    {
        let mut entries = Vec::from_slice(alloc, values)?;
        entries.sort_unstable();
        entries.dedup();
        entries.shrink_to_fit();
        Ok(Dictionary { entries })
    }

    /// The dictionary that has these entries.
    pub fn of_entries(entries: Vec<i64>) -> Dictionary
        requires { IsAscending entries.items }
        ensures { result ≡ entries.items }
    {
        let mut entries = entries;
        entries.shrink_to_fit();
        Dictionary { entries }
    }

    /// The values that have a code, ascending. The index of each is its code.
    pub fn entries(&self) -> &[i64]
        ensures is { result.now ≡ self.now }
        ensures ascending { IsAscending self.now }
    {
        &self.entries
    }

    /// The width of a code in bits: the least, at least one, that holds the last index.
    pub(crate) fn width(&self) -> u32
        ensures is { result ≡ bits_of (length self.now - 1) }
        ensures entries { AreEntries self.now }
        ensures some { 1 ≤ result }
        ensures few { result ≤ 64 }
    {
        width_of(self.entries.len().saturating_sub(1) as u64)
    }

    /// How many entries are below an integer.
    fn below(&self, x: i64) -> u64
        ensures { result ≡ below self.now x }
    {
        self.entries.as_slice().partition_point(|entry| *entry < x) as u64
    }

    /// How many entries are below or equal to an integer.
    fn upto(&self, x: i64) -> u64
        ensures { result ≡ upto self.now x }
    {
        self.entries.as_slice().partition_point(|entry| *entry <= x) as u64
    }

    /// The code of a value, if it has one.
    pub(crate) fn encode(&self, x: i64) -> Option<u64>
        ensures is { result ≡ entry_code self.now x }
        ensures coded { IsSome result ↔ Contains self.now x }
        ensures entries { AreEntries self.now }
    {
        match self.entries.as_slice().binary_search(&x) {
            Ok(place) => Some(place as u64),
            Err(_) => None,
        }
    }

    /// Writes the code of each value to `codes` at the same index, up to the first value that has none, and returns
    /// whether every value has one.
    pub(crate) fn encode_all(&self, values: &[i64], codes: &mut [u64]) -> bool
        requires { length codes.old ≡ length values.now }
        ensures all { IsTrue result ↔ All (Contains self.now) values.now }
        ensures codes { OnTrue result (AreCodes (entry_code self.now) values.now codes.new) }
    {
        for i in 0..values.len() {
            let Some(code) = self.encode(values[i]) else {
                return false;
            };
            codes[i] = code;
        }
        true
    }

    /// The value that a code stands for.
    pub(crate) fn decode(&self, code: u64) -> i64
        requires { code < length self.now }
        ensures is { result ≡ slice_index_or self.now code (pos 0) }
        ensures entries { AreEntries self.now }
    {
        self.entries[code as usize]
    }

    /// The test met by exactly the codes of those values that satisfy the comparison with the constant.
    pub(crate) fn test(&self, op: CmpOp, constant: i64) -> CodeTest
        ensures is { result ≡ rank_test op (below self.now constant) (upto self.now constant) (length self.now) }
        ensures entries { AreEntries self.now }
    {
        let count = self.entries.len() as u64;
        rank_test(op, self.below(constant), self.upto(constant), count)
    }

    /// The test met by exactly the codes of the values from `low` to `high`.
    pub(crate) fn range(&self, low: i64, high: i64) -> CodeTest
        ensures is { result ≡ rank_range (below self.now low) (upto self.now high) (length self.now) }
        ensures entries { AreEntries self.now }
    {
        let count = self.entries.len() as u64;
        rank_range(self.below(low), self.upto(high), count)
    }
}
