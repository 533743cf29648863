//! Which entries of a dictionary some code refers to, and mapping codes to other indices, in blocks of at most 64 rows.

ghost use Rattle.std.specs.Prelude.{false, if◌then◌else◌, length, slice_index, slice_index_or, true, ℕ, ◌<◌, ◌↔◌, ◌≡◌, ◌≤◌, ◌⊎◌};
ghost use Rattle.bw_mask.specs.Masks.{bit_of};
ghost use Rattle.bw_dictionary.specs.Merging.{StandsAt};
ghost use Rattle.bw_dictionary.specs.Moving.{IsCodeOf};

use bw_mask::has_bit;

/// Marks the entries that the codes of a block refer to, for those rows whose bit is set.
pub fn mark_standing(stands: &mut [bool], codes: &[u64], present: u64)
    requires few { length codes.now ≤ 64 }
    requires inside { (k : ℕ) → k < length codes.now → bit_of present k ≡ true → slice_index codes.now k < length stands.old }
    ensures count { length stands.new ≡ length stands.old }
    ensures marks { (m : ℕ) → StandsAt stands.new m ↔ (StandsAt stands.old m ⊎ IsCodeOf codes.now present (length codes.now) m) }
{
    'codes: for i in 0..codes.len() {
        if has_bit(present, i) {
            stands[codes[i] as usize] = true;
        }
    }
}

/// The first index from `from` on whose entry isn't marked; the number of entries if all are.
pub fn first_unmarked(stands: &[bool], from: usize) -> usize
    requires from { from ≤ length stands.now }
    requires marked { (m : ℕ) → m < from → StandsAt stands.now m }
    ensures inside { result ≤ length stands.now }
    ensures marked { (m : ℕ) → m < result → StandsAt stands.now m }
    ensures there { result < length stands.now → slice_index_or stands.now result true ≡ false }
{
    let mut first = from;
    'marked: while first < stands.len() && stands[first] {
        first += 1;
    }
    first
}

/// Replaces each code of a block by the table's value at its index, and by 0 where the row's bit isn't set.
pub fn move_codes(codes: &mut [u64], present: u64, moves: &[u64])
    requires few { length codes.old ≤ 64 }
    requires inside { (k : ℕ) → k < length codes.old → bit_of present k ≡ true → slice_index codes.old k < length moves.now }
    ensures count { length codes.new ≡ length codes.old }
    ensures each { (k : ℕ) → k < length codes.old → slice_index codes.new k ≡ (if bit_of present k then slice_index moves.now (slice_index codes.old k) else 0) }
{
    if moves.is_empty() {
        codes.fill(0);
        return;
    }
    let last = moves.len() - 1;
    // Two loops without a branch: in one, the compiler would read the table only where the bit is set, and where rows
    // are present in no order each other branch would be mispredicted.
    'codes: for i in 0..codes.len() {
        codes[i] = moves[(codes[i] as usize).min(last)];
    }
    'present: for i in 0..codes.len() {
        codes[i] = if has_bit(present, i) { codes[i] } else { 0 };
    }
}
