//! Words of sections: codes side by side in a word, each with a delimiter bit above it (BitWeaving/H: Li and Patel,
//! SIGMOD 2013, after Lamport, CACM 1975).

ghost use Rattle.std.specs.Prelude.{◌≡◌, ℕ, ◌==◌, if◌then◌else◌, ◌+◌, ◌-◌, ◌*◌, ◌/◌, ◌%◌, ◌<◌, ◌≤◌, ◌^◌, length, slice_index, bit_and, bit_xor};
ghost use Rattle.std.specs.List.{All};
ghost use Rattle.bw_lane.specs.Sections.{IsCompared, IsStored, code_bits, delimiter_bits, lowest_bits, section_of, sections_in};
ghost use Rattle.bw_lane.specs.Marking.{marks};

use std::simd::prelude::*;

/// A comparison of two codes.
#[derive(Clone, Copy, Debug, PartialEq, Eq)]
pub enum LaneOp {
    Eq,
    Ne,
    Lt,
    Le,
    Gt,
    Ge,
}

/// The lowest bit of each section of a word.
fn lowest_of_sections(width: u32) -> u64
    requires { width ≤ 32 }
    ensures { result ≡ lowest_bits width (sections_in width) }
{
    let section = width + 1;
    let mut lowest = 0;
    for _t in 0..64 / section {
        lowest = (lowest << section) | 1;
    }
    lowest
}

/// For codes of `width` bits: the lowest bit, the delimiter and the bits of the code of each section of a word.
#[derive(Clone, Copy)]
pub struct SectionMasks {
    pub width: u32,
    lowest: u64,
    delimiters: u64,
    codes: u64,
    ghost in_range: { width ≤ 32 },
    ghost lowest_is: { lowest ≡ lowest_bits width (sections_in width) },
    ghost delimiters_is: { delimiters ≡ delimiter_bits width (sections_in width) },
    ghost codes_is: { codes ≡ code_bits width (sections_in width) },
}

impl SectionMasks {
    pub fn new(width: u32) -> Self
        requires { width ≤ 32 }
        ensures { result.width ≡ width }
    {
        let lowest = lowest_of_sections(width);
        let delimiters = lowest << width;
        let codes = delimiters - lowest;
        SectionMasks {
            width,
            lowest,
            delimiters,
            codes,
        }
    }

    fn unequal(&self, x: u64, y: u64) -> u64
        requires x_stored { IsStored self.now.width x }
        requires y_stored { IsStored self.now.width y }
        ensures { IsCompared LaneOp.Ne self.now.width x y result }
    {
        ((x ^ y) + self.codes) & self.delimiters
    }

    fn equal(&self, x: u64, y: u64) -> u64
        requires x_stored { IsStored self.now.width x }
        requires y_stored { IsStored self.now.width y }
        ensures { IsCompared LaneOp.Eq self.now.width x y result }
    {
        (((x ^ y) + self.codes) & self.delimiters) ^ self.delimiters
    }

    fn less(&self, x: u64, y: u64) -> u64
        requires x_stored { IsStored self.now.width x }
        requires y_stored { IsStored self.now.width y }
        ensures { IsCompared LaneOp.Lt self.now.width x y result }
    {
        (y + (x ^ self.codes)) & self.delimiters
    }

    fn at_most(&self, x: u64, y: u64) -> u64
        requires x_stored { IsStored self.now.width x }
        requires y_stored { IsStored self.now.width y }
        ensures { IsCompared LaneOp.Le self.now.width x y result }
    {
        (y + (x ^ self.codes) + self.lowest) & self.delimiters
    }

    /// Compares the codes of two words, section by section.
    pub fn compare(&self, op: LaneOp, x: u64, y: u64) -> u64
        requires x_stored { IsStored self.now.width x }
        requires y_stored { IsStored self.now.width y }
        ensures { IsCompared op self.now.width x y result }
    {
        match op {
            LaneOp::Eq => self.equal(x, y),
            LaneOp::Ne => self.unequal(x, y),
            LaneOp::Lt => self.less(x, y),
            LaneOp::Le => self.at_most(x, y),
            LaneOp::Gt => self.less(y, x),
            LaneOp::Ge => self.at_most(y, x),
        }
    }
}

/// A comparison of the codes of any word with those of one word, prepared for many words. Whatever the comparison, a word is
/// flipped, added to, masked and flipped again, so that no branch is taken per word.
#[derive(Clone, Copy)]
pub struct SectionTest {
    flip: u64,
    add: u64,
    delimiters: u64,
    turn: u64,
}

impl SectionTest {
    /// Compares the codes of a word, section by section: of a prepared comparison the delimiters are set where it holds.
    #[inline]
    pub fn marks(&self, word: u64) -> u64
        ensures { result ≡ marks self.now word }
    {
        ((word ^ self.flip).wrapping_add(self.add) & self.delimiters) ^ self.turn
    }
}

impl SectionMasks {
    /// Prepares the comparison of the codes of any word with those of `y`.
    pub fn against(&self, op: LaneOp, y: u64) -> SectionTest
        requires { IsStored self.now.width y }
        ensures { (x : ℕ) → IsStored self.now.width x → IsCompared op self.now.width x y (marks result x) }
    {
        let (flip, add, turn) = match op {
            LaneOp::Eq => (y, self.codes, self.delimiters),
            LaneOp::Ne => (y, self.codes, 0),
            LaneOp::Lt => (self.codes, y, 0),
            LaneOp::Le => (self.codes, y + self.lowest, 0),
            LaneOp::Gt => (0, y ^ self.codes, 0),
            LaneOp::Ge => (0, (y ^ self.codes) + self.lowest, 0),
        };
        SectionTest {
            flip,
            add,
            delimiters: self.delimiters,
            turn,
        }
    }
}

impl SectionMasks {
    /// The word whose sections all hold the code `c`.
    pub fn constant(&self, c: u32) -> u64
        requires { c < 2 ^ self.now.width }
        ensures stored { IsStored self.now.width result }
        ensures each { (t : ℕ) → t < sections_in self.now.width → section_of self.now.width t result ≡ c }
    {
        self.lowest * u64::from(c)
    }

    /// The code of section `t` of a word.
    pub fn code(&self, word: u64, t: u32) -> u64
        requires place { t < sections_in self.now.width }
        ensures { result ≡ section_of self.now.width t word }
    {
        let section = self.width + 1;
        (word >> (t * section)) & ((1 << section) - 1)
    }

    /// The word with the code of section `t` replaced.
    pub fn with_code(&self, word: u64, t: u32, c: u32) -> u64
        requires place { t < sections_in self.now.width }
        requires word_stored { IsStored self.now.width word }
        requires code { c < 2 ^ self.now.width }
        ensures stored { IsStored self.now.width result }
        ensures codes { (u : ℕ) → section_of self.now.width u result ≡ (if u == t then c else section_of self.now.width u word) }
    {
        let section = self.width + 1;
        word ^ ((self.code(word, t) ^ c as u64) << (t * section))
    }
}

impl SectionMasks {
    fn unequal_lanes(&self, x: u64x4, y: u64x4) -> u64x4
        requires x_stored { All (IsStored self.now.width) x }
        requires y_stored { All (IsStored self.now.width) y }
        ensures { (j : ℕ) → j < 4 → IsCompared LaneOp.Ne self.now.width (slice_index x j) (slice_index y j) (slice_index result j) }
    {
        ((x ^ y) + u64x4::splat(self.codes)) & u64x4::splat(self.delimiters)
    }

    fn equal_lanes(&self, x: u64x4, y: u64x4) -> u64x4
        requires x_stored { All (IsStored self.now.width) x }
        requires y_stored { All (IsStored self.now.width) y }
        ensures { (j : ℕ) → j < 4 → IsCompared LaneOp.Eq self.now.width (slice_index x j) (slice_index y j) (slice_index result j) }
    {
        (((x ^ y) + u64x4::splat(self.codes)) & u64x4::splat(self.delimiters))
            ^ u64x4::splat(self.delimiters)
    }

    fn less_lanes(&self, x: u64x4, y: u64x4) -> u64x4
        requires x_stored { All (IsStored self.now.width) x }
        requires y_stored { All (IsStored self.now.width) y }
        ensures { (j : ℕ) → j < 4 → IsCompared LaneOp.Lt self.now.width (slice_index x j) (slice_index y j) (slice_index result j) }
    {
        (y + (x ^ u64x4::splat(self.codes))) & u64x4::splat(self.delimiters)
    }

    fn at_most_lanes(&self, x: u64x4, y: u64x4) -> u64x4
        requires x_stored { All (IsStored self.now.width) x }
        requires y_stored { All (IsStored self.now.width) y }
        ensures { (j : ℕ) → j < 4 → IsCompared LaneOp.Le self.now.width (slice_index x j) (slice_index y j) (slice_index result j) }
    {
        (y + (x ^ u64x4::splat(self.codes)) + u64x4::splat(self.lowest))
            & u64x4::splat(self.delimiters)
    }

    /// Compares the codes of four words with those of four others, section by section.
    pub fn compare_lanes(&self, op: LaneOp, x: u64x4, y: u64x4) -> u64x4
        requires x_stored { All (IsStored self.now.width) x }
        requires y_stored { All (IsStored self.now.width) y }
        ensures { (j : ℕ) → j < 4 → IsCompared op self.now.width (slice_index x j) (slice_index y j) (slice_index result j) }
    {
        match op {
            LaneOp::Eq => self.equal_lanes(x, y),
            LaneOp::Ne => self.unequal_lanes(x, y),
            LaneOp::Lt => self.less_lanes(x, y),
            LaneOp::Le => self.at_most_lanes(x, y),
            LaneOp::Gt => self.less_lanes(y, x),
            LaneOp::Ge => self.at_most_lanes(y, x),
        }
    }
}

/// Compares the codes of each word with those of `y`, section by section: four words at a time, and a plain loop for the
/// rest. In each section of `out` the delimiter is set where the comparison holds, and no other bit is.
pub fn word_compare(op: LaneOp, x: &[u64], y: u64, k: u32, out: &mut [u64])
    requires width { k ≤ 32 }
    requires same { length out.old ≡ length x.now }
    requires x_stored { All (IsStored k) x.now }
    requires y_stored { IsStored k y }
    ensures { (j : ℕ) → j < length x.now → IsCompared op k (slice_index x.now j) y (slice_index out.new j) }
{
    let masks = SectionMasks::new(k);
    let mut i = 0;
    'fours: while x.len() - i >= 4 {
        let four = masks.compare_lanes(op, u64x4::from_slice(&x[i..]), u64x4::splat(y));
        four.copy_to_slice(&mut out[i..]);
        i += 4;
    }
    'rest: while i < x.len() {
        out[i] = masks.compare(op, x[i], y);
        i += 1;
    }
}

/// Compares the codes of each word of `x` with those of the word of `y` at the same index, as `word_compare` does with
/// one word.
pub fn word_compare_pair(op: LaneOp, x: &[u64], y: &[u64], k: u32, out: &mut [u64])
    requires width { k ≤ 32 }
    requires same { length out.old ≡ length x.now }
    requires other { length y.now ≡ length x.now }
    requires x_stored { All (IsStored k) x.now }
    requires y_stored { All (IsStored k) y.now }
    ensures { (j : ℕ) → j < length x.now → IsCompared op k (slice_index x.now j) (slice_index y.now j) (slice_index out.new j) }
{
    let masks = SectionMasks::new(k);
    let mut i = 0;
    'fours: while x.len() - i >= 4 {
        let four = masks.compare_lanes(op, u64x4::from_slice(&x[i..]), u64x4::from_slice(&y[i..]));
        four.copy_to_slice(&mut out[i..]);
        i += 4;
    }
    'rest: while i < x.len() {
        out[i] = masks.compare(op, x[i], y[i]);
        i += 1;
    }
}
