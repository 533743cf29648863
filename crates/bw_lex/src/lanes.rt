//! Runs of bytes that are scanned sixteen at a time.

ghost use Rattle.std.specs.Prelude.{◌≡◌, ◌==◌, ◌||◌, ◌≤◌, ◌<◌, length, map, not};
ghost use Rattle.std.specs.Char.{is_ascii_digit};
ghost use Rattle.std.specs.List.{prefix_len};
ghost use Rattle.std.specs.Simd.Lanes.{mask_l};
ghost use Rattle.bw_lex.specs.Fronts.{is_plain, plain_len};

use std::simd::prelude::*;

const LANES: usize = 16;

// Bit i is 1 where byte i is not a digit.
fn no_digits(bytes: u8x16) -> u64
    ensures { result ≡ mask_l (map (λ b. not (is_ascii_digit b)) bytes) }
{
    (bytes.simd_lt(u8x16::splat(b'0')) | bytes.simd_gt(u8x16::splat(b'9'))).to_bitmask()
}

// Bit i is 1 where byte i may begin a text, a cut or a comment.
fn not_plain(bytes: u8x16) -> u64
    ensures { result ≡ mask_l (map (λ b. not (is_plain b)) bytes) }
{
    (bytes.simd_eq(u8x16::splat(b'\''))
        | bytes.simd_eq(u8x16::splat(b';'))
        | bytes.simd_eq(u8x16::splat(b'-'))).to_bitmask()
}

fn digits_one_by_one(bytes: &[u8]) -> usize
    ensures { result ≡ prefix_len is_ascii_digit bytes.now }
{
    bytes.iter().take_while(|b| b.is_ascii_digit()).count()
}

/// The number of leading digits.
pub(crate) fn digits_len(bytes: &[u8]) -> usize
    ensures { result ≡ prefix_len is_ascii_digit bytes.now }
{
    if bytes.len() >= LANES {
        let found = no_digits(u8x16::from_slice(bytes));
        if found != 0 {
            return found.trailing_zeros() as usize;
        }
    }
    digits_one_by_one(bytes)
}

fn is_plain(b: u8) -> bool
    ensures { result ≡ is_plain b }
{
    b != b'\'' && b != b';' && b != b'-'
}

fn plain_one_by_one(bytes: &[u8]) -> usize
    ensures { result ≡ plain_len bytes.now }
{
    bytes.iter().take_while(|b| is_plain(**b)).count()
}

/// How many bytes come before the first that may begin a text, a cut or a comment.
pub(crate) fn plain_len(bytes: &[u8]) -> usize
    ensures { result ≡ plain_len bytes.now }
{
    let mut at = 0;
    while bytes.len() - at >= LANES {
        let found = not_plain(u8x16::from_slice(&bytes[at..]));
        if found != 0 {
            return at + found.trailing_zeros() as usize;
        }
        at += LANES;
    }
    at + plain_one_by_one(&bytes[at..])
}
