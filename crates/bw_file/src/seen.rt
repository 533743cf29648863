//! Whether an offset encoding is the tightest one for a column, told by the planes of its codes.

ghost use Rattle.std.specs.Prelude.{[], false, not, slice_index_or, true, ℕ, ◌&&◌, ◌-◌, ◌<◌, ◌≡◌, ◌≤◌, ◌⊎◌};
ghost use Rattle.bw_mask.specs.Masks.{row_in};
ghost use Rattle.bw_code.specs.Widths.{widest_code};

use bw_code::PlaneBlock;

/// What was seen of a column's codes so far. Once both are seen, no base is higher and no width narrower.
#[derive(Clone, Copy)]
pub(crate) struct Seen {
    /// Code 0, which is that of the base.
    pub(crate) base: bool,
    /// A code that has its highest bit set.
    pub(crate) top: bool,
}

/// Whether one of the rows is set.
fn has_row(rows: &[u64; 32]) -> bool
    ensures { result ≡ true → (r : ℕ) × (r < 2048) × (row_in rows.now r ≡ true) }
{
    for j in 0..32 {
        if rows[j] != 0 {
            return true;
        }
    }
    false
}

/// Leaves out the rows that are set in a plane.
fn leave_out(rows: &mut [u64; 32], plane: &[u64; 32])
    ensures { (r : ℕ) → r < 2048 → row_in rows.new r ≡ (row_in rows.old r && not (row_in plane.now r)) }
{
    // No branch, so that the loop is vectorized.
    for j in 0..32 {
        rows[j] &= !plane[j];
    }
}

/// Whether one of the rows has code 0: it is set in none of the first k planes.
fn has_zero(rows: &[u64; 32], block: &PlaneBlock, k: usize) -> bool
    requires narrow { k ≤ widest_code }
    ensures { result ≡ true → (r : ℕ) × (r < 2048) × (row_in rows.now r ≡ true) × ((b : ℕ) → b < k → row_in (slice_index_or block.now b []) r ≡ false) }
{
    let mut left = *rows;
    for b in 0..k {
        leave_out(&mut left, &block[b]);
    }
    has_row(&left)
}

impl Seen {
    /// Nothing was seen yet.
    pub(crate) fn nothing() -> Seen
        ensures base { result.base ≡ false }
        ensures top { result.top ≡ false }
    {
        Seen {
            base: false,
            top: false,
        }
    }

    /// With a block of rows more, whose codes have k bits; `present` are its non-null rows.
    pub(crate) fn with_block(self, present: &[u64; 32], block: &PlaneBlock, k: usize) -> Seen
        requires some { 1 ≤ k }
        requires narrow { k ≤ widest_code }
        ensures base { result.base ≡ true → (self.base ≡ true) ⊎ ((r : ℕ) × (r < 2048) × (row_in present.now r ≡ true) × ((b : ℕ) → b < k → row_in (slice_index_or block.now b []) r ≡ false)) }
        ensures top { result.top ≡ true → (self.top ≡ true) ⊎ ((r : ℕ) × (r < 2048) × (row_in (slice_index_or block.now (k - 1) []) r ≡ true)) }
    {
        Seen {
            base: self.base || has_zero(present, block, k),
            top: self.top || has_row(&block[k - 1]),
        }
    }

    /// Whether the codes have been seen to reach both.
    pub(crate) fn both(self) -> bool
        ensures { result ≡ (self.base && self.top) }
    {
        self.base && self.top
    }
}
