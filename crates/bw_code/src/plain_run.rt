//! Writing plain codes to some of 64 rows.

ghost use Rattle.std.specs.Prelude.{All, false, if◌then◌else◌, length, slice_index, true, ℕ, ◌+◌, ◌<◌, ◌^◌, ◌≡◌, ◌≤◌};
ghost use Rattle.bw_mask.specs.Masks.{bit_of};
ghost use Rattle.bw_code.specs.Columns.{filled_codes, put_codes};

use bw_mask::has_bit;

/// Writes codes as 32-bit numbers, each where its bit is set. The others stay.
fn put_few(kept: &mut [u32], rows: u64, codes: &[u64])
    requires few { length codes.now ≤ 64 }
    requires long { length kept.old ≡ length codes.now }
    requires fit { All (λ code. code < 2 ^ 32) codes.now }
    ensures long { length kept.new ≡ length kept.old }
    ensures each { (i : ℕ) → i < length kept.old → slice_index kept.new i ≡ (if bit_of rows i then slice_index codes.now i else slice_index kept.old i) }
{
    // Both codes are read before the choice, so that no branch per code is left and the loop can be vectorized.
    for i in 0..kept.len() {
        let own = kept[i];
        let code = codes[i] as u32;
        kept[i] = if has_bit(rows, i) { code } else { own };
    }
}

/// The same for 64 rows.
fn put_64(kept: &mut [u32], rows: u64, codes: &[u64])
    requires whole { length kept.old ≡ 64 }
    requires long { length kept.old ≡ length codes.now }
    requires fit { All (λ code. code < 2 ^ 32) codes.now }
    ensures long { length kept.new ≡ length kept.old }
    ensures each { (i : ℕ) → i < length kept.old → slice_index kept.new i ≡ (if bit_of rows i then slice_index codes.now i else slice_index kept.old i) }
{
    for i in 0..64 {
        let own = kept[i];
        let code = codes[i] as u32;
        kept[i] = if has_bit(rows, i) { code } else { own };
    }
}

/// Writes codes as 32-bit numbers, each where its bit is set. The others stay.
fn put_chosen(kept: &mut [u32], rows: u64, codes: &[u64])
    requires few { length codes.now ≤ 64 }
    requires long { length kept.old ≡ length codes.now }
    requires fit { All (λ code. code < 2 ^ 32) codes.now }
    ensures long { length kept.new ≡ length kept.old }
    ensures each { (i : ℕ) → i < length kept.old → slice_index kept.new i ≡ (if bit_of rows i then slice_index codes.now i else slice_index kept.old i) }
{
    // Most calls have a whole run, and are faster where the length is known.
    if kept.len() == 64 {
        put_64(kept, rows, codes);
    } else {
        put_few(kept, rows, codes);
    }
}

/// Writes one code wherever a bit is set. The others stay.
fn fill_few(kept: &mut [u32], rows: u64, code: u32)
    requires few { length kept.old ≤ 64 }
    ensures long { length kept.new ≡ length kept.old }
    ensures each { (i : ℕ) → i < length kept.old → slice_index kept.new i ≡ (if bit_of rows i then code else slice_index kept.old i) }
{
    // No branch per code, so that the loop can be vectorized.
    for i in 0..kept.len() {
        let own = kept[i];
        kept[i] = if has_bit(rows, i) { code } else { own };
    }
}

/// The same for 64 rows.
fn fill_64(kept: &mut [u32], rows: u64, code: u32)
    requires whole { length kept.old ≡ 64 }
    ensures long { length kept.new ≡ length kept.old }
    ensures each { (i : ℕ) → i < length kept.old → slice_index kept.new i ≡ (if bit_of rows i then code else slice_index kept.old i) }
{
    for i in 0..64 {
        let own = kept[i];
        kept[i] = if has_bit(rows, i) { code } else { own };
    }
}

/// Writes one code wherever a bit is set. The others stay.
fn fill_chosen(kept: &mut [u32], rows: u64, code: u32)
    requires few { length kept.old ≤ 64 }
    ensures long { length kept.new ≡ length kept.old }
    ensures each { (i : ℕ) → i < length kept.old → slice_index kept.new i ≡ (if bit_of rows i then code else slice_index kept.old i) }
{
    if kept.len() == 64 {
        fill_64(kept, rows, code);
    } else {
        fill_few(kept, rows, code);
    }
}

/// Row at + i takes code i where bit i of `rows` is set.
pub(crate) fn put_run(kept: &mut [u32], at: usize, rows: u64, codes: &[u64])
    requires few { length codes.now ≤ 64 }
    requires there { at + length codes.now ≤ length kept.old }
    requires given { (i : ℕ) → length codes.now ≤ i → bit_of rows i ≡ false }
    requires fit { All (λ code. code < 2 ^ 32) codes.now }
    ensures { kept.new ≡ put_codes kept.old at rows codes.now }
{
    let block = &mut kept[at..at + codes.len()];
    put_chosen(block, rows, codes);
}

/// Row at + i takes the code where bit i of `rows` is set.
pub(crate) fn fill_run(kept: &mut [u32], at: usize, rows: u64, code: u32)
    requires few { length kept.old ≤ 2 ^ 24 }
    requires inside { at ≤ length kept.old }
    requires there { (i : ℕ) → bit_of rows i ≡ true → at + i < length kept.old }
    ensures { kept.new ≡ filled_codes kept.old at rows code }
{
    let end = (at + 64).min(kept.len());
    let block = &mut kept[at..end];
    fill_chosen(block, rows, code);
}
