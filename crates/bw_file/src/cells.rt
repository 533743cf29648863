//! Reading the cells of a column from its bits and words.

ghost use Rattle.std.specs.Prelude.{None, Some, drop, get_or, if◌then◌else◌, length, nat_eq, slice_index, ℕ, ◌%◌, ◌*◌, ◌+◌, ◌/◌, ◌<◌, ◌==◌, ◌≡◌, ◌≤◌};
ghost use Rattle.std.specs.Int.{bit_at, cast_signed, w32};
ghost use Rattle.byteorder.specs.Endian.{little_number};
ghost use Rattle.bw_code.specs.Headers.{row_limit};
ghost use Rattle.bw_file.specs.Reading.{cell_by, read_cell};

use byteorder::{ByteOrder, LittleEndian};

/// Fills `out` with the cells of the rows from row `at` on.
pub(crate) fn read_cells(present: &[u8], words: &[u8], at: usize, out: &mut [Option<i64>])
    requires few { at + length out.old ≤ row_limit }
    requires present { at + length out.old ≤ 8 * length present.now }
    requires words { 4 * (at + length out.old) ≤ length words.now }
    ensures count { length out.new ≡ length out.old }
    ensures each { (k : ℕ) → k < length out.old → get_or out.new k None ≡ read_cell present.now words.now (at + k) }
{
    let eights = whole_eights(at, out.len());
    'eights: for q in 0..eights {
        let start = 8 * q;
        let numbers = &words[4 * (at + start)..];
        read_eight(present[at / 8 + q], numbers, &mut out[start..start + 8]);
    }
    'rest: for k in 8 * eights..out.len() {
        out[k] = read_cell(present, words, at + k);
    }
}

/// How many groups of eight rows from row `at` on have their bits in one byte each: none if `at` is not the first row
/// of a byte.
fn whole_eights(at: usize, count: usize) -> usize
    ensures within { 8 * result ≤ count }
    ensures first { 0 < result → at % 8 ≡ 0 }
{
    if at % 8 == 0 { count / 8 } else { 0 }
}

/// Fills `out` with the cells of eight rows, from the byte with their bits and from their words. The positions of the
/// bits are constants here, so that a cell takes half as many steps as on its own.
#[inline]
fn read_eight(present: u8, words: &[u8], out: &mut [Option<i64>])
    requires count { length out.old ≡ 8 }
    requires words { 32 ≤ length words.now }
    ensures count { length out.new ≡ 8 }
    ensures each { (j : ℕ) → j < 8 → get_or out.new j None ≡ cell_by (bit_at present j) (little_number 4 (drop (4 * j) words.now)) }
{
    'rows: for j in 0..8 {
        out[j] = cell_by(present, j, word_at(words, j));
    }
}

/// The cell of row i.
fn read_cell(present: &[u8], words: &[u8], i: usize) -> Option<i64>
    requires few { i < row_limit }
    requires present { i / 8 < length present.now }
    requires words { 4 * i + 4 ≤ length words.now }
    ensures { result ≡ read_cell present.now words.now i }
{
    cell_by(present[i / 8], i % 8, word_at(words, i))
}

/// Whether word i is 0.
#[inline]
pub(crate) fn is_zero(words: &[u8], i: usize) -> bool
    requires { 4 * i + 4 ≤ length words.now }
    ensures { result ≡ nat_eq (little_number 4 (drop (4 * i) words.now)) 0 }
{
    LittleEndian::read_u32(&words[4 * i..]) == 0
}

/// Word i as a number.
#[inline]
pub(crate) fn word_at(words: &[u8], i: usize) -> i32
    requires { 4 * i + 4 ≤ length words.now }
    ensures { result ≡ cast_signed w32 (little_number 4 (drop (4 * i) words.now)) }
{
    LittleEndian::read_i32(&words[4 * i..])
}

/// The cell with bit j of the byte and this word.
#[inline]
fn cell_by(present: u8, j: usize, word: i32) -> Option<i64>
    requires { j < 8 }
    ensures { result ≡ (if bit_at present j == 1 then Some word else None) }
{
    // A null has a word, too, so that the choice needs no branch.
    let number = i64::from(word);
    if has_bit(present, j) {
        Some(number)
    } else {
        None
    }
}

/// Whether the cell of row i is non-null.
#[inline]
pub(crate) fn has_cell(present: &[u8], i: usize) -> bool
    requires few { i < row_limit }
    requires present { i / 8 < length present.now }
    ensures { result ≡ (bit_at (slice_index present.now (i / 8)) (i % 8) == 1) }
{
    has_bit(present[i / 8], i % 8)
}

/// Whether bit j of the byte is set.
#[inline]
pub(crate) fn has_bit(byte: u8, j: usize) -> bool
    requires { j < 8 }
    ensures { result ≡ (bit_at byte j == 1) }
{
    byte >> j & 1 == 1
}
