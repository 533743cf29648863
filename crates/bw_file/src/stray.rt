//! Bits that may not be set in a plane.

ghost use Rattle.std.specs.Prelude.{bit_and, false, length, slice_index, true, ℕ, ◌*◌, ◌-◌, ◌<◌, ◌^◌, ◌≡◌, ◌≤◌};
ghost use Rattle.bw_code.specs.Widths.{widest_code};
ghost use Rattle.bw_file.specs.Planes.{HasNoStrayBit};

/// Whether a bit of a plane is set that is clear in the bits of the rows, which are the same number of bytes.
fn has_bit_beyond(present: &[u8], plane: &[u8]) -> bool
    requires { length plane.now ≡ length present.now }
    ensures no { result ≡ false → (j : ℕ) → j < length present.now → bit_and (slice_index plane.now j) (255 - slice_index present.now j) ≡ 0 }
    ensures yes { result ≡ true → ((j : ℕ) → j < length present.now → bit_and (slice_index plane.now j) (255 - slice_index present.now j) ≡ 0) → ⊥ }
{
    // No early exit, so that the loop is vectorized.
    let mut stray = 0;
    'bytes: for j in 0..present.len() {
        stray |= plane[j] & !present[j];
    }
    stray != 0
}

/// How many bytes at the start are full: each of their rows has a cell.
fn full_bytes(bytes: &[u8]) -> usize
    ensures few { result ≤ length bytes.now }
    ensures full { (j : ℕ) → j < result → slice_index bytes.now j ≡ 255 }
{
    let mut n = 0;
    while n < bytes.len() && bytes[n] == u8::MAX {
        n += 1;
    }
    n
}

/// Whether a plane has a bit set at a row whose cell is null, or past the last row. Each plane has `size` bytes.
pub(crate) fn has_stray_bit(present: &[u8], planes: &[u8], size: usize, k: usize) -> bool
    requires narrow { k ≤ widest_code }
    requires short { size ≤ 2 ^ 24 }
    requires present { length present.now ≡ size }
    requires planes { length planes.now ≡ k * size }
    ensures no { result ≡ false → HasNoStrayBit k size present.now planes.now }
    ensures yes { result ≡ true → HasNoStrayBit k size present.now planes.now → ⊥ }
{
    // No bit is stray where every row has a cell. Many columns have no null, and then their planes aren't read here.
    let full = full_bytes(present);
    'planes: for p in 0..k {
        if has_bit_beyond(&present[full..], &planes[p * size + full..p * size + size]) {
            return true;
        }
    }
    false
}
