//! Collecting rows until they fill a word of a mask: each word is written once.

ghost use Rattle.std.specs.Prelude.{Bool, false, ℕ, ◌+◌, ◌<◌, ◌≡◌, ◌≤◌};
ghost use Rattle.bw_mask.specs.Masks.{SameShape, bit_of, len, row_at};
ghost use Rattle.bw_horizontal.specs.Gathering.{AreGathered};

use bw_mask::Mask;

/// The bits from bit `places` on.
fn past(word: u64, places: usize) -> u64
    requires { places ≤ 64 }
    ensures { (i : ℕ) → bit_of result i ≡ bit_of word (places + i) }
{
    if places < 64 { word >> places } else { 0 }
}

/// Appends n rows after the first `at`, and returns the rows of a word that is not full yet; `rest` has those before.
pub(crate) fn gather(out: &mut Mask, at: usize, rest: u64, n: usize, rows: u64) -> u64
    requires most { n ≤ 64 }
    requires clean { (i : ℕ) → n ≤ i → bit_of rows i ≡ false }
    ensures shape { SameShape out.new out.old }
    ensures rows { (wanted : ℕ → Bool) → AreGathered out.old at rest wanted → ((i : ℕ) → i < n → bit_of rows i ≡ wanted (at + i))
        → AreGathered out.new (at + n) result wanted }
{
    let begun = at % 64;
    let word = rest | rows << begun;
    if begun + n < 64 {
        return word;
    }
    out.put_word(at / 64, word);
    past(rows, 64 - begun)
}

/// Writes the rows of the last word to the mask.
pub(crate) fn finish(out: &mut Mask, at: usize, rest: u64)
    ensures shape { SameShape out.new out.old }
    ensures rows { (wanted : ℕ → Bool) → AreGathered out.old at rest wanted → (j : ℕ) → j < at → j < len out.old → row_at out.new j ≡ wanted j }
{
    out.put_bits(at / 64 * 64, at % 64, rest);
}
