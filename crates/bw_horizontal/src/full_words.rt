//! Codes of 32 bits, the widest: a word has one of them, so that word j is the code of row j.

ghost use Rattle.std.specs.Prelude.{All, false, if◌then◌else◌, length, slice_index, ℕ, ◌+◌, ◌-◌, ◌<◌, ◌^◌, ◌≡◌, ◌≤◌};
ghost use Rattle.bw_mask.specs.Masks.{bit_of};
ghost use Rattle.bw_lane.specs.Sections.{IsStored};
ghost use Rattle.bw_code.specs.Columns.{Fit, is_chosen};
ghost use Rattle.bw_horizontal.specs.Words.{code_in};

use bw_code::{fill_chosen, put_chosen};

/// The width of codes that have a word each.
pub(crate) const FULL: u32 = 32;

/// Row at + i takes code i where bit i of `rows` is set.
pub(crate) fn put_run(words: &mut [u64], at: usize, rows: u64, codes: &[u64])
    requires few { length codes.now ≤ 64 }
    requires there { at + length codes.now ≤ length words.old }
    requires given { (i : ℕ) → length codes.now ≤ i → bit_of rows i ≡ false }
    requires fit { Fit 32 codes.now }
    requires stored { All (IsStored 32) words.old }
    ensures len { length words.new ≡ length words.old }
    ensures stored { All (IsStored 32) words.new }
    ensures codes { (j : ℕ) → code_in 32 words.new j ≡ (if is_chosen at rows j then slice_index codes.now (j - at) else code_in 32 words.old j) }
{
    put_chosen(&mut words[at..at + codes.len()], rows, codes);
}

/// Row at + i takes the code where bit i of `rows` is set. No bit is set for rows from `end` on.
pub(crate) fn fill_run(words: &mut [u64], at: usize, end: usize, rows: u64, code: u64)
    requires begin { at ≤ end }
    requires end { end ≤ at + 64 }
    requires there { end ≤ length words.old }
    requires none { (j : ℕ) → end ≤ j → is_chosen at rows j ≡ false }
    requires fits { code < 2 ^ 32 }
    requires stored { All (IsStored 32) words.old }
    ensures len { length words.new ≡ length words.old }
    ensures stored { All (IsStored 32) words.new }
    ensures codes { (j : ℕ) → code_in 32 words.new j ≡ (if is_chosen at rows j then code else code_in 32 words.old j) }
{
    fill_chosen(&mut words[at..end], rows, code);
}

/// The codes of the rows from `at` on become these.
pub(crate) fn write(words: &mut [u64], at: usize, codes: &[u64])
    requires there { at + length codes.now ≤ length words.old }
    requires fit { Fit 32 codes.now }
    requires stored { All (IsStored 32) words.old }
    ensures len { length words.new ≡ length words.old }
    ensures stored { All (IsStored 32) words.new }
    ensures put { (i : ℕ) → i < length codes.now → code_in 32 words.new (at + i) ≡ slice_index codes.now i }
    ensures other { (j : ℕ) → (at ≤ j → at + length codes.now ≤ j) → code_in 32 words.new j ≡ code_in 32 words.old j }
{
    words[at..at + codes.len()].copy_from_slice(codes);
}

/// Fills `out` with the codes of the rows from `at` on.
pub(crate) fn read(words: &[u64], at: usize, out: &mut [u64])
    requires there { at + length out.old ≤ length words.now }
    requires stored { All (IsStored 32) words.now }
    ensures len { length out.new ≡ length out.old }
    ensures codes { (i : ℕ) → i < length out.old → slice_index out.new i ≡ code_in 32 words.now (at + i) }
{
    out.copy_from_slice(&words[at..at + out.len()]);
}
