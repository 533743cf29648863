//! Runs of bytes that are scanned sixteen at a time.

ghost use Rattle.std.specs.Prelude.{◌≡◌, ◌≤◌};
ghost use Rattle.std.specs.Simd.Lanes.{mask_l, zip2};
ghost use Rattle.bw_lex.specs.Fronts.{is_plain, plain_len};
ghost use Rattle.bw_split.specs.Ordinary.{begins_before, ordinary_len};

use std::simd::prelude::*;

const LANES: usize = 16;

// Bit i is 1 where byte i, given the byte `next[i]` after it, begins a text, a cut or a comment.
fn special(bytes: u8x16, next: u8x16) -> u64
    ensures { result ≡ mask_l (zip2 (λ b n. begins_before n b) bytes next) }
{
    let dash = u8x16::splat(b'-');
    (bytes.simd_eq(u8x16::splat(b'\''))
        | bytes.simd_eq(u8x16::splat(b';'))
        | (bytes.simd_eq(dash) & next.simd_eq(dash))).to_bitmask()
}

fn is_plain(b: u8) -> bool
    ensures { result ≡ is_plain b }
{
    b != b'\'' && b != b';' && b != b'-'
}

fn plain_one_by_one(bytes: &[u8]) -> usize
    ensures { result ≡ plain_len bytes.now }
{
    bytes.iter().take_while(|b| is_plain(**b)).count()
}

/// A number of leading bytes that begin no text, cut or comment: all before the first that does, except for a few at
/// the end.
pub(crate) fn ordinary_len(bytes: &[u8]) -> usize
    ensures { result ≤ ordinary_len bytes.now }
{
    let mut at = 0;
    while bytes.len() - at > LANES {
        let found = special(
            u8x16::from_slice(&bytes[at..]),
            u8x16::from_slice(&bytes[at + 1..]),
        );
        if found != 0 {
            return at + found.trailing_zeros() as usize;
        }
        at += LANES;
    }
    at + plain_one_by_one(&bytes[at..])
}
