//! The codes of a dictionary in place of its values.
ghost use Rattle.std.specs.Prelude.{if◌then◌else◌, length, slice_index, ℕ, ◌<◌, ◌≡◌, ◌≤◌};
ghost use Rattle.bw_code.specs.Encodings.{kind_of};
ghost use Rattle.bw_code.specs.declared.kind.Kind.TheVariants as kinds;
ghost use Rattle.bw_engine.specs.Codes.{codes_in, rebased};
ghost use Rattle.bw_mask.specs.Masks.{bit_of};

use crate::slot_cells::SlotCells;
use bw_code::Ends;
use bw_column::Column;
use bw_mask::{Mask, has_bit};
use bw_sql::Value;

/// A column of kind DICTIONARY by its codes, which have the order of its values. A NULL stays NULL.
#[derive(Drop)]
pub(crate) struct CodeCells<'a> {
    pub(crate) column: &'a Column,
    ghost by_dictionary: { kind_of column.now.encoding ≡ kinds.Dictionary },
}

impl<'a> SlotCells for CodeCells<'a> {
    ghost use Rattle.bw_engine.specs.Codes.{codes_in};

    ghost cells = { λ c. codes_in c.column.now.encoding c.column.now.values };

    fn len(&self) -> usize {
        // The number of entries is bounded.
        let _few = self.column.entries().len();
        let _coded = self.column.encoding();
        self.column.len()
    }

    fn bounds(&self, _found: usize) -> Option<Ends> {
        let _coded = self.column.encoding();
        // Where there is no entry, no cell is an integer.
        let last = self.column.entries().len().saturating_sub(1);
        Some(Ends {
            least: 0,
            greatest: last as i64,
        })
    }

    fn nonnull(&self) -> &Mask {
        self.column.nonnull()
    }

    fn get(&self, i: usize) -> Value {
        let _few = self.column.entries().len();
        let _coded = self.column.encoding();
        match self.column.code(i) {
            Some(code) => Some(code as i64),
            None => None,
        }
    }

    fn distances(&self, at: usize, base: i64, out: &mut [u64]) -> u64 {
        let _few = self.column.entries().len();
        let _coded = self.column.encoding();
        let present = self.column.read_codes(at, out);
        // A code is its own distance from 0.
        if base != 0 {
            rebase(out, present, base);
        }
        present
    }
}

/// Replaces each of at most 64 numbers by its distance from a base, modulo 2^64, where its bit is set.
fn rebase(numbers: &mut [u64], set: u64, base: i64)
    requires { length numbers.old ≤ 64 }
    ensures count { length numbers.new ≡ length numbers.old }
    ensures each { (k : ℕ) → k < length numbers.old → slice_index numbers.new k ≡ (if bit_of set k then rebased base (slice_index numbers.old k) else slice_index numbers.old k) }
{
    for i in 0..numbers.len() {
        numbers[i] = distance_where(has_bit(set, i), numbers[i], base);
    }
}

/// The distance of a number from a base, modulo 2^64, where its bit is set. It is computed in any case, so that the
/// choice needs no branch.
#[inline]
fn distance_where(is_set: bool, number: u64, base: i64) -> u64
    ensures { result ≡ (if is_set then rebased base number else number) }
{
    let distance = number.wrapping_sub(base.cast_unsigned());
    if is_set { distance } else { number }
}
