//! The position of a row's code in words of sections.

ghost use Rattle.std.specs.Prelude.{if◌then◌else◌, length, slice_index, ℕ, ◌%◌, ◌*◌, ◌+◌, ◌/◌, ◌<◌, ◌==◌, ◌^◌, ◌≡◌, ◌≤◌};
ghost use Rattle.std.specs.List.{All};
ghost use Rattle.bw_mask.specs.Masks.{bit_of};
ghost use Rattle.bw_code.specs.Columns.{Fit};
ghost use Rattle.bw_lane.specs.Sections.{IsStored, section_of, sections_in};
ghost use Rattle.bw_code.specs.Widths.{widest_half};
ghost use Rattle.bw_horizontal.specs.Words.{code_in, section_in, segment_rows, word_of};

use bw_lane::SectionMasks;
use bw_mask::has_bit;

/// The word with the code of section `t` replaced if its row is chosen. Both words are made before the choice, so that no
/// branch is left.
fn with_chosen(masks: SectionMasks, word: u64, t: u32, code: u64, chosen: bool) -> u64
    requires narrow { masks.width ≤ widest_half }
    requires place { t < sections_in masks.width }
    requires stored { IsStored masks.width word }
    requires fits { code < 2 ^ masks.width }
    ensures stored { IsStored masks.width result }
    ensures codes { (u : ℕ) → section_of masks.width u result ≡ (if u == t then (if chosen then code else section_of masks.width t word) else section_of masks.width u word) }
{
    let new = masks.with_code(word, t, code as u32);
    if chosen { new } else { word }
}

/// The position of a row's code. Those of the rows after it are found without a division.
#[derive(Clone, Copy)]
pub(crate) struct Place {
    masks: SectionMasks,
    row: usize,
    /// The first word of the row's segment.
    start: usize,
    /// The row's word in its segment.
    word: usize,
    /// The row's section in its word.
    section: u32,
    ghost narrow: { masks.width ≤ widest_half },
    ghost start_is: { start ≡ row / segment_rows masks.width * (masks.width + 1) },
    ghost word_is: { word ≡ row % segment_rows masks.width % (masks.width + 1) },
    ghost section_is: { section ≡ section_in masks.width row },
}

impl Place {
    /// The position of a row in words of codes of this width.
    pub(crate) fn of(width: u32, row: usize) -> Place
        requires narrow { width ≤ widest_half }
        requires small { row ≤ 2 ^ 32 }
        ensures width { result.masks.width ≡ width }
        ensures row { result.row ≡ row }
    {
        let masks = SectionMasks::new(width);
        let words = width as usize + 1;
        let rows = words * (64 / words);
        let (q, r) = (row / rows, row % rows);
        Place {
            masks,
            row,
            start: q * words,
            word: r % words,
            section: (r / words) as u32,
        }
    }

    /// How many rows from this one on are in its section, each in the word after that of the row before.
    pub(crate) fn run(self) -> usize
        ensures some { 1 ≤ result }
        ensures end { result + self.row % segment_rows self.masks.width % (self.masks.width + 1) ≡ self.masks.width + 1 }
    {
        self.masks.width as usize + 1 - self.word
    }

    /// The position `rows` rows later, at most the first after the run.
    pub(crate) fn after(self, rows: usize) -> Place
        requires small { self.row ≤ 2 ^ 32 }
        requires run { rows + self.row % segment_rows self.masks.width % (self.masks.width + 1) ≤ self.masks.width + 1 }
        ensures width { result.masks.width ≡ self.masks.width }
        ensures row { result.row ≡ self.row + rows }
    {
        let masks = self.masks;
        let words = masks.width as usize + 1;
        let row = self.row + rows;
        if self.word + rows < words {
            return Place {
                masks,
                row,
                start: self.start,
                word: self.word + rows,
                section: self.section,
            };
        }
        // Without a division, since this runs at the end of each run.
        if (self.section as usize + 2) * words <= 64 {
            return Place {
                masks,
                row,
                start: self.start,
                word: 0,
                section: self.section + 1,
            };
        }
        Place {
            masks,
            row,
            start: self.start + words,
            word: 0,
            section: 0,
        }
    }

    /// The row's code.
    pub(crate) fn code(self, words: &[u64]) -> u64
        requires { word_of self.masks.width self.row < length words.now }
        ensures { result ≡ code_in self.masks.width words.now self.row }
    {
        self.masks.code(words[self.start + self.word], self.section)
    }

    /// Fills `out` with the codes of the rows from this one on, all within the run.
    pub(crate) fn codes(self, words: &[u64], out: &mut [u64])
        requires run { length out.old + self.row % segment_rows self.masks.width % (self.masks.width + 1) ≤ self.masks.width + 1 }
        requires there { (i : ℕ) → i < length out.old → word_of self.masks.width (self.row + i) < length words.now }
        ensures len { length out.new ≡ length out.old }
        ensures codes { (i : ℕ) → i < length out.old → slice_index out.new i ≡ code_in self.masks.width words.now (self.row + i) }
    {
        let first = self.start + self.word;
        for i in 0..out.len() {
            out[i] = self.masks.code(words[first + i], self.section);
        }
    }

    /// The row's code becomes this one.
    pub(crate) fn put(self, words: &mut [u64], code: u64)
        requires there { word_of self.masks.width self.row < length words.old }
        requires stored { All (IsStored self.masks.width) words.old }
        requires fits { code < 2 ^ self.masks.width }
        ensures len { length words.new ≡ length words.old }
        ensures stored { All (IsStored self.masks.width) words.new }
        ensures codes { (j : ℕ) → code_in self.masks.width words.new j ≡ (if j == self.row then code else code_in self.masks.width words.old j) }
    {
        let i = self.start + self.word;
        words[i] = self.masks.with_code(words[i], self.section, code as u32);
    }

    /// The codes of the rows from this one on, all within the run, become these.
    pub(crate) fn put_run(self, words: &mut [u64], codes: &[u64])
        requires some { 1 ≤ length codes.now }
        requires run { length codes.now + self.row % segment_rows self.masks.width % (self.masks.width + 1) ≤ self.masks.width + 1 }
        requires there { (i : ℕ) → i < length codes.now → word_of self.masks.width (self.row + i) < length words.old }
        requires stored { All (IsStored self.masks.width) words.old }
        requires fit { Fit self.masks.width codes.now }
        ensures len { length words.new ≡ length words.old }
        ensures stored { All (IsStored self.masks.width) words.new }
        ensures put { (i : ℕ) → i < length codes.now → code_in self.masks.width words.new (self.row + i) ≡ slice_index codes.now i }
        ensures other { (j : ℕ) → (self.row ≤ j → self.row + length codes.now ≤ j) → code_in self.masks.width words.new j ≡ code_in self.masks.width words.old j }
    {
        let first = self.start + self.word;
        // Only the run's words, one for each code: no bounds check is left per row.
        let run = &mut words[first..first + codes.len()];
        for i in 0..codes.len() {
            run[i] = self.masks.with_code(run[i], self.section, codes[i] as u32);
        }
    }

    /// Of the rows from this one on, all within the run, those whose bit is set take their codes, row i code i. The
    /// others keep theirs.
    pub(crate) fn put_chosen(self, words: &mut [u64], rows: u64, codes: &[u64])
        requires some { 1 ≤ length codes.now }
        requires run { length codes.now + self.row % segment_rows self.masks.width % (self.masks.width + 1) ≤ self.masks.width + 1 }
        requires there { (i : ℕ) → i < length codes.now → word_of self.masks.width (self.row + i) < length words.old }
        requires stored { All (IsStored self.masks.width) words.old }
        requires fit { Fit self.masks.width codes.now }
        ensures len { length words.new ≡ length words.old }
        ensures stored { All (IsStored self.masks.width) words.new }
        ensures put { (i : ℕ) → i < length codes.now → code_in self.masks.width words.new (self.row + i) ≡ (if bit_of rows i then slice_index codes.now i else code_in self.masks.width words.old (self.row + i)) }
        ensures other { (j : ℕ) → (self.row ≤ j → self.row + length codes.now ≤ j) → code_in self.masks.width words.new j ≡ code_in self.masks.width words.old j }
    {
        let first = self.start + self.word;
        let run = &mut words[first..first + codes.len()];
        for i in 0..codes.len() {
            let chosen = has_bit(rows, i);
            run[i] = with_chosen(self.masks, run[i], self.section, codes[i], chosen);
        }
    }
}
