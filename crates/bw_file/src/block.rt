//! Blocks of rows: one bit for each, eight to a byte.

ghost use Rattle.std.specs.Prelude.{false, length, not, true, ℕ, ◌&&◌, ◌*◌, ◌+◌, ◌/◌, ◌<◌, ◌≡◌, ◌≤◌};
ghost use Rattle.bw_file.specs.Descents.{bit_at_row};

/// How many bytes of a plane are processed together. Together with the rows that are left they fit the L1 cache.
pub(crate) const BLOCK: usize = 512;

/// The first n of the bytes from `from` on, padded with zeros.
pub(crate) fn block_of(bytes: &[u8], from: usize, n: usize) -> [u8; BLOCK]
    requires few { n ≤ 512 }
    requires there { from + n ≤ length bytes.now }
    ensures bits { (r : ℕ) → r / 8 < n → bit_at_row result r ≡ bit_at_row bytes.now (8 * from + r) }
    ensures rest { (r : ℕ) → n ≤ r / 8 → bit_at_row result r ≡ false }
{
    let mut block = [0; BLOCK];
    block[..n].copy_from_slice(&bytes[from..from + n]);
    block
}

/// Whether the bit of any row is set.
pub(crate) fn has_row(rows: &[u8; BLOCK]) -> bool
    ensures none { result ≡ false → (r : ℕ) → bit_at_row rows.now r ≡ false }
    ensures some { result ≡ true → (r : ℕ) × (bit_at_row rows.now r ≡ true) }
{
    has_row_with(rows, rows)
}

/// Whether the bit of any of some rows is clear in the bytes of a plane, which has a byte for each of the rows.
pub(crate) fn has_row_without(rows: &[u8; BLOCK], plane: &[u8]) -> bool
    requires few { length plane.now ≤ 512 }
    requires within { (r : ℕ) → length plane.now ≤ r / 8 → bit_at_row rows.now r ≡ false }
    ensures none { result ≡ false → (r : ℕ) → (bit_at_row rows.now r && not (bit_at_row plane.now r)) ≡ false }
    ensures some { result ≡ true → (r : ℕ) × ((bit_at_row rows.now r && not (bit_at_row plane.now r)) ≡ true) }
{
    // No early exit, so that the loop is vectorized.
    let mut any = 0;
    'bytes: for j in 0..plane.len() {
        any |= rows[j] & !plane[j];
    }
    any != 0
}

/// Whether the bit of any of some rows is set in the bytes of a plane.
pub(crate) fn has_row_with(rows: &[u8; BLOCK], plane: &[u8]) -> bool
    requires few { length plane.now ≤ 512 }
    ensures none { result ≡ false → (r : ℕ) → (bit_at_row rows.now r && bit_at_row plane.now r) ≡ false }
    ensures some { result ≡ true → (r : ℕ) × ((bit_at_row rows.now r && bit_at_row plane.now r) ≡ true) }
{
    let mut any = 0;
    'bytes: for j in 0..plane.len() {
        any |= rows[j] & plane[j];
    }
    any != 0
}

/// Keeps those of some rows whose bit in a plane is clear. The plane has a byte for each of the rows.
pub(crate) fn keep_without(rows: &mut [u8; BLOCK], plane: &[u8])
    requires few { length plane.now ≤ 512 }
    requires within { (r : ℕ) → length plane.now ≤ r / 8 → bit_at_row rows.old r ≡ false }
    ensures { (r : ℕ) → bit_at_row rows.new r ≡ (bit_at_row rows.old r && not (bit_at_row plane.now r)) }
{
    'bytes: for j in 0..plane.len() {
        rows[j] &= !plane[j];
    }
}

/// Keeps those of some rows whose bit in a plane is set. The plane has a byte for each of the rows.
pub(crate) fn keep_with(rows: &mut [u8; BLOCK], plane: &[u8])
    requires few { length plane.now ≤ 512 }
    requires within { (r : ℕ) → length plane.now ≤ r / 8 → bit_at_row rows.old r ≡ false }
    ensures { (r : ℕ) → bit_at_row rows.new r ≡ (bit_at_row rows.old r && bit_at_row plane.now r) }
{
    'bytes: for j in 0..plane.len() {
        rows[j] &= plane[j];
    }
}
