//! Distances of the cells of a column from a base, from their bits and words.

ghost use Rattle.std.specs.Prelude.{None, Some, drop, get_or, if◌then◌else◌, length, ℕ, ◌%◌, ◌*◌, ◌+◌, ◌/◌, ◌<◌, ◌≡◌, ◌≤◌};
ghost use Rattle.std.specs.Int.{bit_at};
ghost use Rattle.byteorder.specs.Endian.{little_number};
ghost use Rattle.bw_cells.specs.Distances.{distance_from};
ghost use Rattle.bw_code.specs.Headers.{row_limit};
ghost use Rattle.bw_file.specs.Reading.{cell_by, read_cell};

use crate::cells::{has_bit, has_cell, word_at};

/// Fills `out` with the distance of each cell from row `at` on from the base, modulo 2^64, and with 0 for a null. Row
/// `at` is the first row of a byte.
pub(crate) fn read_distances(present: &[u8], words: &[u8], at: usize, base: i64, out: &mut [u64])
    requires few { at + length out.old ≤ row_limit }
    requires first { at % 8 ≡ 0 }
    requires present { at + length out.old ≤ 8 * length present.now }
    requires words { 4 * (at + length out.old) ≤ length words.now }
    ensures count { length out.new ≡ length out.old }
    ensures each { (k : ℕ) → k < length out.old → get_or out.new k 0 ≡ distance_from base (read_cell present.now words.now (at + k)) }
{
    let eights = out.len() / 8;
    'eights: for q in 0..eights {
        let start = 8 * q;
        let byte = present[at / 8 + q];
        let numbers = &words[4 * (at + start)..];
        read_eight_distances(byte, numbers, base, &mut out[start..start + 8]);
    }
    'rest: for k in 8 * eights..out.len() {
        let there = has_cell(present, at + k);
        out[k] = distance(there, word_at(words, at + k), base);
    }
}

/// Fills `out` with the distances of eight cells from the base, from the byte with their bits and from their words.
#[inline]
fn read_eight_distances(present: u8, words: &[u8], base: i64, out: &mut [u64])
    requires count { length out.old ≡ 8 }
    requires words { 32 ≤ length words.now }
    ensures count { length out.new ≡ 8 }
    ensures each { (j : ℕ) → j < 8 → get_or out.new j 0 ≡ distance_from base (cell_by (bit_at present j) (little_number 4 (drop (4 * j) words.now))) }
{
    'rows: for j in 0..8 {
        out[j] = distance(has_bit(present, j), word_at(words, j), base);
    }
}

/// The distance of a word from the base, modulo 2^64, where its cell is non-null, else 0.
#[inline]
fn distance(there: bool, word: i32, base: i64) -> u64
    ensures { result ≡ distance_from base (if there then Some word else None) }
{
    // A null is treated as the base, so that the choice needs no branch.
    let number = if there { i64::from(word) } else { base };
    number.cast_unsigned().wrapping_sub(base.cast_unsigned())
}
