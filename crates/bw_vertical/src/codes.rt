//! Reading and writing single codes in planes.

ghost use Rattle.std.specs.Prelude.{length, vec_len, ℕ, ◌-◌, ◌/◌, ◌<◌, ◌^◌, ◌≡◌, ◌≢◌, ◌≤◌};
ghost use Rattle.bw_mask.specs.Masks.{SameShape, bit_of, len as mask_len, row_at};
ghost use Rattle.bw_code.specs.Widths.{widest_code};
ghost use Rattle.bw_vertical.specs.Storage.{AreGroups, HasSegment, KeepsSizes, code_of, groups_of, is_set, lists};

use crate::rows::put_lanes;
use crate::storage::{plane_at, put_word, word_at};
use bw_mask::Mask;

/// The code of row j.
#[tactic(auto, using(crate::proofs::Settings::word_there))]
pub(crate) fn code_at(groups: &[Vec<[u64; 4]>], k: usize, j: usize) -> u64
    requires narrow { k ≤ widest_code }
    requires small { j < 2 ^ 32 }
    requires count { length groups.now ≡ groups_of k }
    requires there { HasSegment k (lists groups.now) (j / 256) }
    ensures { result ≡ code_of k (lists groups.now) j }
{
    let mut code = 0;
    for i in 0..k {
        code = code * 2 + (word_at(groups, k, i, j / 64) >> (j % 64) & 1);
    }
    code
}

/// The word with bit r set to `bit`.
fn with_bit(word: u64, r: usize, bit: bool) -> u64
    requires { r < 64 }
    ensures same { bit_of result r ≡ bit }
    ensures other { (s : ℕ) → s < 64 → s ≢ r → bit_of result s ≡ bit_of word s }
{
    word & !(1 << r) | u64::from(bit) << r
}

/// The code of row j becomes this one.
#[tactic(auto, using(crate::proofs::Settings::word_there))]
pub(crate) fn put_code(groups: &mut Vec<Vec<[u64; 4]>>, k: usize, j: usize, code: u64)
    requires narrow { k ≤ widest_code }
    requires small { j < 2 ^ 32 }
    requires count { vec_len groups.old ≡ groups_of k }
    requires there { HasSegment k (lists groups.old.items) (j / 256) }
    ensures sizes { KeepsSizes groups.new.items groups.old.items }
    ensures same { (i : ℕ) → i < k → is_set k (lists groups.new.items) i j ≡ bit_of code (k - 1 - i) }
    ensures other { (i r : ℕ) → i < k → r ≢ j → is_set k (lists groups.new.items) i r ≡ is_set k (lists groups.old.items) i r }
{
    for i in 0..k {
        let word = word_at(groups, k, i, j / 64);
        let bit = code >> (k - 1 - i) & 1 == 1;
        put_word(groups, k, i, j / 64, with_bit(word, j % 64, bit));
    }
}

/// `out` becomes the rows whose code has bit i set. Bit 0 is the lowest.
pub(crate) fn put_plane(groups: &[Vec<[u64; 4]>], k: usize, i: usize, len: usize, out: &mut Mask)
    requires planes { AreGroups k (lists groups.now) len }
    requires bit { i < k }
    requires out { mask_len out.old ≡ len }
    ensures shape { SameShape out.new out.old }
    ensures rows { (j : ℕ) → row_at out.new j ≡ is_set k (lists groups.now) (k - 1 - i) j }
{
    for q in 0..len.div_ceil(256) {
        put_lanes(out, q, plane_at(groups, k, q, k - 1 - i));
    }
}
