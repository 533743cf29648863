//! Comparisons by slices of bytes (ByteSlice: Feng and others, SIGMOD 2015).

ghost use Rattle.std.specs.Prelude.{nat_lt, slice_index, ℕ, ◌%◌, ◌&&◌, ◌<◌, ◌==◌, ◌^◌, ◌||◌, ◌≡◌};
ghost use Rattle.bw_lane.specs.Rows.{bit_of};

use std::simd::prelude::*;

fn low_half(bits: u64) -> u32
    ensures { result ≡ bits % 2 ^ 32 }
{
    (bits % 0x1_0000_0000) as u32
}

/// Compares 32 rows with a constant by one more byte. `lt` are the rows below the constant so far, `eq` those equal to
/// it so far, and `c` is the constant's byte.
pub fn byte_step(slice: &[u8; 32], c: u8, lt: &mut u32, eq: &mut u32)
    ensures less { (r : ℕ) → r < 32 → bit_of lt.new r ≡ (bit_of lt.old r || (bit_of eq.old r && nat_lt (slice_index slice.now r) c)) }
    ensures same { (r : ℕ) → r < 32 → bit_of eq.new r ≡ (bit_of eq.old r && (slice_index slice.now r == c)) }
{
    let (s, c) = (u8x32::from_array(*slice), u8x32::splat(c));
    *lt |= *eq & low_half(s.simd_lt(c).to_bitmask());
    *eq &= low_half(s.simd_eq(c).to_bitmask());
}

/// Compares 32 rows of two columns by one more byte. `lt` are the rows in which the first is below the second so far,
/// `eq` those in which they are equal so far.
pub fn byte_pair_step(a: &[u8; 32], b: &[u8; 32], lt: &mut u32, eq: &mut u32)
    ensures less { (r : ℕ) → r < 32 → bit_of lt.new r ≡ (bit_of lt.old r || (bit_of eq.old r && nat_lt (slice_index a.now r) (slice_index b.now r))) }
    ensures same { (r : ℕ) → r < 32 → bit_of eq.new r ≡ (bit_of eq.old r && (slice_index a.now r == slice_index b.now r)) }
{
    let (x, y) = (u8x32::from_array(*a), u8x32::from_array(*b));
    *lt |= *eq & low_half(x.simd_lt(y).to_bitmask());
    *eq &= low_half(x.simd_eq(y).to_bitmask());
}
