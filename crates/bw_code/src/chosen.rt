//! Writing 64-bit codes to some rows of a run of at most 64.

ghost use Rattle.std.specs.Prelude.{if◌then◌else◌, length, slice_index, ℕ, ◌<◌, ◌≡◌, ◌≤◌};
ghost use Rattle.bw_mask.specs.Masks.{bit_of};

use bw_mask::has_bit;

/// Writes codes, each where its bit is set. The others stay.
fn put_few(kept: &mut [u64], rows: u64, codes: &[u64])
    requires few { length codes.now ≤ 64 }
    requires long { length kept.old ≡ length codes.now }
    ensures long { length kept.new ≡ length kept.old }
    ensures each { (i : ℕ) → i < length kept.old → slice_index kept.new i ≡ (if bit_of rows i then slice_index codes.now i else slice_index kept.old i) }
{
    // Both codes are read before the choice, so that no branch per code is left and the loop can be vectorized.
    for i in 0..kept.len() {
        let own = kept[i];
        let code = codes[i];
        kept[i] = if has_bit(rows, i) { code } else { own };
    }
}

/// The same for 64 rows.
fn put_64(kept: &mut [u64], rows: u64, codes: &[u64])
    requires whole { length kept.old ≡ 64 }
    requires long { length kept.old ≡ length codes.now }
    ensures long { length kept.new ≡ length kept.old }
    ensures each { (i : ℕ) → i < length kept.old → slice_index kept.new i ≡ (if bit_of rows i then slice_index codes.now i else slice_index kept.old i) }
{
    for i in 0..64 {
        let own = kept[i];
        let new = codes[i];
        kept[i] = if has_bit(rows, i) { new } else { own };
    }
}

/// Writes codes, each where its bit is set. The others stay. There are at most 64.
pub fn put_chosen(kept: &mut [u64], rows: u64, codes: &[u64])
    requires few { length codes.now ≤ 64 }
    requires long { length kept.old ≡ length codes.now }
    ensures long { length kept.new ≡ length kept.old }
    ensures each { (i : ℕ) → i < length kept.old → slice_index kept.new i ≡ (if bit_of rows i then slice_index codes.now i else slice_index kept.old i) }
{
    // Most calls have a whole run, and are faster where the length is known.
    if kept.len() == 64 {
        put_64(kept, rows, codes);
    } else {
        put_few(kept, rows, codes);
    }
}

/// Writes one code wherever a bit is set. The others stay.
fn fill_few(kept: &mut [u64], rows: u64, code: u64)
    requires few { length kept.old ≤ 64 }
    ensures long { length kept.new ≡ length kept.old }
    ensures each { (i : ℕ) → i < length kept.old → slice_index kept.new i ≡ (if bit_of rows i then code else slice_index kept.old i) }
{
    // No branch per code, so that the loop can be vectorized.
    for i in 0..kept.len() {
        let own = kept[i];
        kept[i] = if has_bit(rows, i) { code } else { own };
    }
}

/// The same for 64 rows.
fn fill_64(kept: &mut [u64], rows: u64, code: u64)
    requires whole { length kept.old ≡ 64 }
    ensures long { length kept.new ≡ length kept.old }
    ensures each { (i : ℕ) → i < length kept.old → slice_index kept.new i ≡ (if bit_of rows i then code else slice_index kept.old i) }
{
    for i in 0..64 {
        let own = kept[i];
        kept[i] = if has_bit(rows, i) { code } else { own };
    }
}

/// Writes one code wherever a bit is set. The others stay. There are at most 64.
pub fn fill_chosen(kept: &mut [u64], rows: u64, code: u64)
    requires few { length kept.old ≤ 64 }
    ensures long { length kept.new ≡ length kept.old }
    ensures each { (i : ℕ) → i < length kept.old → slice_index kept.new i ≡ (if bit_of rows i then code else slice_index kept.old i) }
{
    if kept.len() == 64 {
        fill_64(kept, rows, code);
    } else {
        fill_few(kept, rows, code);
    }
}
