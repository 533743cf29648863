//! Comparisons by bit planes (BitWeaving/V: Li and Patel, SIGMOD 2013).

ghost use Rattle.std.specs.Prelude.{if◌then◌else◌, not, ℕ, ◌&&◌, ◌<◌, ◌||◌, ◌≡◌};
ghost use Rattle.bw_lane.specs.Rows.{row_in};

use std::simd::prelude::*;

/// Compares 256 rows with a constant by one more plane, of the bit below those compared before. `lt` are the rows below
/// the constant so far, `eq` those equal to it so far, and `bit` is the constant's bit.
pub fn plane_step(lt: &mut [u64; 4], eq: &mut [u64; 4], plane: &[u64; 4], bit: bool)
    ensures less { (j : ℕ) → j < 256 → row_in lt.new j ≡ (row_in lt.old j || (row_in eq.old j && (bit && not (row_in plane.now j)))) }
    ensures same { (j : ℕ) → j < 256 → row_in eq.new j ≡ (row_in eq.old j && (if bit then row_in plane.now j else not (row_in plane.now j))) }
{
    let (p, e) = (u64x4::from_array(*plane), u64x4::from_array(*eq));
    if bit {
        *lt = (u64x4::from_array(*lt) | (e ^ (e & p))).to_array();
        *eq = (e & p).to_array();
    } else {
        *eq = (e ^ (e & p)).to_array();
    }
}

/// Compares 256 rows of two columns by one more plane, of the bit below those compared before. `lt` are the rows where
/// the first is below the second so far, and `eq` those where they are equal so far.
pub fn plane_pair_step(lt: &mut [u64; 4], eq: &mut [u64; 4], a: &[u64; 4], b: &[u64; 4])
    ensures less { (j : ℕ) → j < 256 → row_in lt.new j ≡ (row_in lt.old j || (row_in eq.old j && (row_in b.now j && not (row_in a.now j)))) }
    ensures same { (j : ℕ) → j < 256 → row_in eq.new j ≡ (row_in eq.old j && (if row_in b.now j then row_in a.now j else not (row_in a.now j))) }
{
    let (x, y, e) = (
        u64x4::from_array(*a),
        u64x4::from_array(*b),
        u64x4::from_array(*eq),
    );
    let decided = e & (x ^ y);
    *lt = (u64x4::from_array(*lt) | (decided & y)).to_array();
    *eq = (e ^ decided).to_array();
}

/// Adds one bit to that of each of 256 rows, and the carry from the plane below. `a` becomes the bits of the sums, and
/// `carry` the carry to the plane above.
pub fn add_const_step(a: &mut [u64; 4], carry: &mut [u64; 4], bit: bool)
    ensures sum { (j : ℕ) → j < 256 → row_in a.new j ≡ (if row_in a.old j then (if bit then row_in carry.old j else not (row_in carry.old j)) else (if bit then not (row_in carry.old j) else row_in carry.old j)) }
    ensures carry { (j : ℕ) → j < 256 → row_in carry.new j ≡ (if bit then (row_in a.old j || row_in carry.old j) else (row_in a.old j && row_in carry.old j)) }
{
    let (p, c) = (u64x4::from_array(*a), u64x4::from_array(*carry));
    if bit {
        *a = (p ^ c ^ u64x4::splat(u64::MAX)).to_array();
        *carry = (p | c).to_array();
    } else {
        *a = (p ^ c).to_array();
        *carry = (p & c).to_array();
    }
}

/// Compares 256 rows of two columns by one more plane, of the bit above those compared before: `lt` are the rows where
/// the first number is below the second by the bits so far.
pub fn low_first_step(lt: &mut [u64; 4], a: &[u64; 4], b: &[u64; 4])
    ensures { (j : ℕ) → j < 256 → row_in lt.new j ≡ (if row_in a.now j then (row_in b.now j && row_in lt.old j) else (row_in b.now j || row_in lt.old j)) }
{
    let (x, y, l) = (
        u64x4::from_array(*a),
        u64x4::from_array(*b),
        u64x4::from_array(*lt),
    );
    // Where x has the bit, y and the lower bits are both needed, else one of them is.
    *lt = ((y & l) | ((y | l) ^ ((y | l) & x))).to_array();
}
