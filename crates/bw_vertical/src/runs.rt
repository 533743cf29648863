//! Writing codes to some rows of a word, all at once.

ghost use Rattle.std.specs.Prelude.{if◌then◌else◌, length, slice_index, true, vec_len, ℕ, ◌*◌, ◌+◌, ◌-◌, ◌/◌, ◌<◌, ◌^◌, ◌≡◌, ◌≢◌, ◌≤◌};
ghost use Rattle.bw_mask.specs.Masks.{bit_of};
ghost use Rattle.bw_code.specs.Widths.{widest_code};
ghost use Rattle.bw_vertical.specs.Storage.{HasSegment, KeepsSizes, groups_of, is_set, lists, word_of};

use crate::blending::blend_words;
use crate::blocks::{plane_words, wide_plane_words};
use crate::shifting::rows_where;

/// The codes of these rows of word w become those whose planes have these words. The codes are named only in the
/// clauses.
fn put_words(
    groups: &mut Vec<Vec<[u64; 4]>>,
    k: usize,
    w: usize,
    rows: u64,
    codes: &[u64],
    words: &[u64],
)
    requires narrow { k ≤ widest_code }
    requires small { w < 2 ^ 32 }
    requires count { vec_len groups.old ≡ groups_of k }
    requires there { HasSegment k (lists groups.old.items) (w / 4) }
    requires long { k ≤ length words.now }
    requires words { (b r : ℕ) → b < k → r < 64 → bit_of (slice_index words.now b) r ≡ bit_of (slice_index codes.now r) b }
    ensures sizes { KeepsSizes groups.new.items groups.old.items }
    ensures put { (i r : ℕ) → i < k → r < 64 → is_set k (lists groups.new.items) i (64 * w + r)
        ≡ (if bit_of rows r then bit_of (slice_index codes.now r) (k - 1 - i) else is_set k (lists groups.old.items) i (64 * w + r)) }
    ensures other { (i v : ℕ) → i < k → v ≢ w → word_of k (lists groups.new.items) i v ≡ word_of k (lists groups.old.items) i v }
{
    blend_words(groups, k, w, words, rows);
}

/// In word w, row r takes code r where bit r of `rows` is set.
pub(crate) fn put_chosen(
    groups: &mut Vec<Vec<[u64; 4]>>,
    k: usize,
    w: usize,
    rows: u64,
    codes: &[u64],
)
    requires narrow { k ≤ widest_code }
    requires small { w < 2 ^ 32 }
    requires count { vec_len groups.old ≡ groups_of k }
    requires there { HasSegment k (lists groups.old.items) (w / 4) }
    requires few { length codes.now ≤ 64 }
    ensures sizes { KeepsSizes groups.new.items groups.old.items }
    ensures put { (i r : ℕ) → i < k → r < 64 → is_set k (lists groups.new.items) i (64 * w + r)
        ≡ (if bit_of rows r then bit_of (slice_index codes.now r) (k - 1 - i) else is_set k (lists groups.old.items) i (64 * w + r)) }
    ensures other { (i v : ℕ) → i < k → v ≢ w → word_of k (lists groups.new.items) i v ≡ word_of k (lists groups.old.items) i v }
{
    if k <= 32 {
        put_words(groups, k, w, rows, codes, &plane_words(codes, k));
    } else {
        put_words(groups, k, w, rows, codes, &wide_plane_words(codes, k));
    }
}

/// The words of the planes of k bits at these rows, where each of them has the same code. The words from k on are
/// unspecified.
fn equal_words(rows: u64, code: u64, k: usize) -> [u64; 64]
    requires narrow { k ≤ widest_code }
    ensures { (b r : ℕ) → b < k → r < 64 → bit_of rows r ≡ true → bit_of (slice_index result b) r ≡ bit_of code b }
{
    let mut words = [0; 64];
    for b in 0..k {
        words[b] = rows_where(rows, code, b);
    }
    words
}

/// The codes of these rows of word w become this one.
pub(crate) fn fill_chosen(groups: &mut Vec<Vec<[u64; 4]>>, k: usize, w: usize, rows: u64, code: u64)
    requires narrow { k ≤ widest_code }
    requires small { w < 2 ^ 32 }
    requires count { vec_len groups.old ≡ groups_of k }
    requires there { HasSegment k (lists groups.old.items) (w / 4) }
    ensures sizes { KeepsSizes groups.new.items groups.old.items }
    ensures put { (i r : ℕ) → i < k → r < 64 → is_set k (lists groups.new.items) i (64 * w + r)
        ≡ (if bit_of rows r then bit_of code (k - 1 - i) else is_set k (lists groups.old.items) i (64 * w + r)) }
    ensures other { (i v : ℕ) → i < k → v ≢ w → word_of k (lists groups.new.items) i v ≡ word_of k (lists groups.old.items) i v }
{
    blend_words(groups, k, w, &equal_words(rows, code, k), rows);
}
