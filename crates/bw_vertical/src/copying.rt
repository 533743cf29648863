//! Copying codes from other planes, a segment at a time. A constant is added to those of some rows on the way.

ghost use Rattle.std.specs.Prelude.{[], if◌then◌else◌, length, slice_index_or, vec_len, ℕ, ◌*◌, ◌+◌, ◌-◌, ◌/◌, ◌<◌, ◌^◌, ◌≡◌, ◌≢◌, ◌≤◌, ◌⊎◌};
ghost use Rattle.bw_mask.specs.Masks.{bit_of, len as mask_len, row_at, row_in};
ghost use Rattle.bw_code.specs.Widths.{widest_code};
ghost use Rattle.bw_vertical.specs.Carries.{IsCarry, carried, lane_bit};
ghost use Rattle.bw_vertical.specs.Storage.{AreGroups, HasSegment, KeepsSizes, code_of, groups_of, is_set, lists, word_of};

use crate::blending::blend_plane;
use crate::rows::lanes_at;
use crate::shifting::{add_to_plane, lanes_where};
use crate::storage::plane_at;
use bw_mask::Mask;

/// How many segments are copied plane by plane before the next ones.
const BLOCK: usize = 16;

/// Bit b of the codes of segment q; 0 where they have fewer bits.
fn bits_at(groups: &[Vec<[u64; 4]>], k: usize, q: usize, b: usize) -> [u64; 4]
    requires narrow { k ≤ widest_code }
    requires small { q < 2 ^ 32 }
    requires count { length groups.now ≡ groups_of k }
    requires there { HasSegment k (lists groups.now) q }
    ensures { (j : ℕ) → j < 256 → row_in result j ≡ bit_of (code_of k (lists groups.now) (256 * q + j)) b }
{
    if b < k {
        *plane_at(groups, k, q, k - 1 - b)
    } else {
        [0; 4]
    }
}

/// Bit b of the codes of segment q after `by` is added to those of the moved rows. `carry` is that from the bits below,
/// and becomes that to the bits above.
#[inline(always)]
fn sum_bits(
    groups: &[Vec<[u64; 4]>],
    k: usize,
    q: usize,
    b: usize,
    moved: &[u64; 4],
    by: u64,
    carry: &mut [u64; 4],
) -> [u64; 4]
    requires narrow { k ≤ widest_code }
    requires small { q < 2 ^ 32 }
    requires count { length groups.now ≡ groups_of k }
    requires there { HasSegment k (lists groups.now) q }
    requires bit { b < 64 }
    ensures sums { (j : ℕ) → j < 256 → lane_bit carry.old j ≡ carried (code_of k (lists groups.now) (256 * q + j)) (if row_in moved.now j then by else 0) b
        → row_in result j ≡ bit_of (code_of k (lists groups.now) (256 * q + j) + (if row_in moved.now j then by else 0)) b }
    ensures carry { (j : ℕ) → j < 256 → lane_bit carry.old j ≡ carried (code_of k (lists groups.now) (256 * q + j)) (if row_in moved.now j then by else 0) b
        → lane_bit carry.new j ≡ carried (code_of k (lists groups.now) (256 * q + j)) (if row_in moved.now j then by else 0) (b + 1) }
{
    let mut bits = bits_at(groups, k, q, b);
    if by != 0 {
        add_to_plane(&mut bits, &lanes_where(moved, by, b), carry);
    }
    bits
}

/// The rows of one plane, that of bit b, of segment q become those of the same bit of other codes after `by` is added to
/// those of the moved rows. `carry` is that from the bits below, and becomes that to the bits above.
fn copy_plane(
    groups: &mut Vec<Vec<[u64; 4]>>,
    k: usize,
    others: &[Vec<[u64; 4]>],
    own: usize,
    q: usize,
    b: usize,
    rows: &[u64; 4],
    moved: &[u64; 4],
    by: u64,
    carry: &mut [u64; 4],
)
    requires narrow { k ≤ widest_code }
    requires small { q < 2 ^ 32 }
    requires count { vec_len groups.old ≡ groups_of k }
    requires there { HasSegment k (lists groups.old.items) q }
    requires other_narrow { own ≤ widest_code }
    requires other_count { length others.now ≡ groups_of own }
    requires other_there { HasSegment own (lists others.now) q }
    requires bit { b < k }
    ensures sizes { KeepsSizes groups.new.items groups.old.items }
    ensures plane { (j : ℕ) → j < 256 → lane_bit carry.old j ≡ carried (code_of own (lists others.now) (256 * q + j)) (if row_in moved.now j then by else 0) b
        → is_set k (lists groups.new.items) (k - 1 - b) (256 * q + j)
        ≡ (if row_in rows.now j then bit_of (code_of own (lists others.now) (256 * q + j) + (if row_in moved.now j then by else 0)) b else is_set k (lists groups.old.items) (k - 1 - b) (256 * q + j)) }
    ensures carry { (j : ℕ) → j < 256 → lane_bit carry.old j ≡ carried (code_of own (lists others.now) (256 * q + j)) (if row_in moved.now j then by else 0) b
        → lane_bit carry.new j ≡ carried (code_of own (lists others.now) (256 * q + j)) (if row_in moved.now j then by else 0) (b + 1) }
    ensures other { (p v : ℕ) → p < k → (p ≢ k - 1 - b) ⊎ (v / 4 ≢ q) → word_of k (lists groups.new.items) p v ≡ word_of k (lists groups.old.items) p v }
{
    let bits = sum_bits(others, own, q, b, moved, by, carry);
    blend_plane(groups, k, q, k - 1 - b, &bits, rows);
}

/// The rows of the plane of bit b, in n segments from segment q on, become those of the same bit of other codes after
/// `by` is added to those of the moved rows. Each segment has its own carry from the bits below, which becomes that to
/// the bits above. Rows and moved rows are given by the words of their masks.
fn copy_bit(
    groups: &mut Vec<Vec<[u64; 4]>>,
    k: usize,
    others: &[Vec<[u64; 4]>],
    own: usize,
    q: usize,
    n: usize,
    b: usize,
    rows: &[u64],
    moved: &[u64],
    by: u64,
    carries: &mut [[u64; 4]; BLOCK],
)
    requires narrow { k ≤ widest_code }
    requires small { q + n ≤ 2 ^ 32 }
    requires few { n ≤ 16 }
    requires count { vec_len groups.old ≡ groups_of k }
    requires there { (s : ℕ) → s < n → HasSegment k (lists groups.old.items) (q + s) }
    requires other_narrow { own ≤ widest_code }
    requires other_count { length others.now ≡ groups_of own }
    requires other_there { (s : ℕ) → s < n → HasSegment own (lists others.now) (q + s) }
    requires bit { b < k }
    ensures sizes { KeepsSizes groups.new.items groups.old.items }
    ensures plane { (s j : ℕ) → s < n → j < 256 → IsCarry (slice_index_or carries.old s []) own (lists others.now) moved.now by (q + s) b j
        → is_set k (lists groups.new.items) (k - 1 - b) (256 * (q + s) + j)
        ≡ (if row_in rows.now (256 * (q + s) + j) then bit_of (code_of own (lists others.now) (256 * (q + s) + j) + (if row_in moved.now (256 * (q + s) + j) then by else 0)) b
        else is_set k (lists groups.old.items) (k - 1 - b) (256 * (q + s) + j)) }
    ensures carry { (s j : ℕ) → s < n → j < 256 → IsCarry (slice_index_or carries.old s []) own (lists others.now) moved.now by (q + s) b j
        → IsCarry (slice_index_or carries.new s []) own (lists others.now) moved.now by (q + s) (b + 1) j }
    ensures other { (p v : ℕ) → p < k → (p ≢ k - 1 - b) ⊎ ((v / 4 < q) ⊎ (q + n ≤ v / 4)) → word_of k (lists groups.new.items) p v ≡ word_of k (lists groups.old.items) p v }
{
    for s in 0..n {
        let row_lanes = lanes_at(rows, q + s);
        let moved_lanes = lanes_at(moved, q + s);
        let carry = &mut carries[s];
        copy_plane(
            groups,
            k,
            others,
            own,
            q + s,
            b,
            &row_lanes,
            &moved_lanes,
            by,
            carry,
        );
    }
}

/// The codes of the rows in n segments from segment q on become those of other planes, with `by` added to those of the
/// moved rows, modulo 2^k. Plane by plane, so that few places of memory are read and written at a time.
fn copy_block(
    groups: &mut Vec<Vec<[u64; 4]>>,
    k: usize,
    others: &[Vec<[u64; 4]>],
    own: usize,
    q: usize,
    n: usize,
    rows: &[u64],
    moved: &[u64],
    by: u64,
)
    requires narrow { k ≤ widest_code }
    requires small { q + n ≤ 2 ^ 32 }
    requires few { n ≤ 16 }
    requires count { vec_len groups.old ≡ groups_of k }
    requires there { (s : ℕ) → s < n → HasSegment k (lists groups.old.items) (q + s) }
    requires other_narrow { own ≤ widest_code }
    requires other_count { length others.now ≡ groups_of own }
    requires other_there { (s : ℕ) → s < n → HasSegment own (lists others.now) (q + s) }
    ensures sizes { KeepsSizes groups.new.items groups.old.items }
    ensures block { (i s j : ℕ) → i < k → s < n → j < 256 → is_set k (lists groups.new.items) i (256 * (q + s) + j)
        ≡ (if row_in rows.now (256 * (q + s) + j) then bit_of (code_of own (lists others.now) (256 * (q + s) + j) + (if row_in moved.now (256 * (q + s) + j) then by else 0)) (k - 1 - i)
        else is_set k (lists groups.old.items) i (256 * (q + s) + j)) }
    ensures other { (i v : ℕ) → i < k → (v / 4 < q) ⊎ (q + n ≤ v / 4) → word_of k (lists groups.new.items) i v ≡ word_of k (lists groups.old.items) i v }
{
    let mut carries = [[0; 4]; BLOCK];
    for b in 0..k {
        copy_bit(
            groups,
            k,
            others,
            own,
            q,
            n,
            b,
            rows,
            moved,
            by,
            &mut carries,
        );
    }
}

/// The code of each of the rows becomes that of other planes, with `by` added to those of the moved rows, modulo 2^k.
pub(crate) fn copy_codes(
    groups: &mut Vec<Vec<[u64; 4]>>,
    k: usize,
    len: usize,
    others: &[Vec<[u64; 4]>],
    own: usize,
    rows: &Mask,
    moved: &Mask,
    by: u64,
)
    requires planes { AreGroups k (lists groups.old.items) len }
    requires others { AreGroups own (lists others.now) len }
    requires rows { mask_len rows.now ≡ len }
    ensures sizes { KeepsSizes groups.new.items groups.old.items }
    ensures codes { (i j : ℕ) → i < k → is_set k (lists groups.new.items) i j
        ≡ (if row_at rows.now j then bit_of (code_of own (lists others.now) j + (if row_at moved.now j then by else 0)) (k - 1 - i) else is_set k (lists groups.old.items) i j) }
{
    let (row_words, moved_words) = (rows.words(), moved.words());
    let segments = len.div_ceil(256);
    let mut q = 0;
    'runs: while q < segments {
        let n = (segments - q).min(BLOCK);
        copy_block(groups, k, others, own, q, n, row_words, moved_words, by);
        q += n;
    }
}
