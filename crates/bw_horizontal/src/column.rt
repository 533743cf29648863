//! The column of codes side by side in words.

ghost use Rattle.std.specs.Prelude.{IfSome, None, length, nat_lt, pos, slice_index, ℕ, ◌%◌, ◌&&◌, ◌*◌, ◌+◌, ◌-ℤ◌, ◌<◌, ◌^◌, ◌≡◌};
ghost use Rattle.bw_mask.specs.Masks.{bit_of, len, row_at};
ghost use Rattle.bw_lane.specs.Sections.{sections_in};
ghost use Rattle.bw_code.specs.Columns.{code_at, count, KeepsShape};
ghost use Rattle.bw_code.specs.Shifts.{shifted, StaysBelow};
ghost use Rattle.bw_code.specs.declared.kind.Layout.TheVariants as layouts;
ghost use Rattle.bw_code.specs.Units.{segments_of};
ghost use Rattle.bw_code.specs.Widths.{widest_half};
ghost use Rattle.bw_horizontal.specs.Words.{row_of_bit, segment_rows};

use crate::full_words::FULL;
use crate::pair::pair_from;
use crate::place::Place;
use crate::rebasing::shift_codes;
use crate::scan::scan_from;
use crate::source::WordSource;
use crate::storage::{fill_up, put_codes, read_codes, words_for};
use crate::{blending, planes};
use bw_code::{CmpOp, CodeColumn, CodeTest, Meter, Source, word_between};
use bw_mask::Mask;
use std::alloc::{AllocError, Global};
use std::marker::Model;

/// Codes of at most 32 bits, side by side in words (BitWeaving/H: Li and Patel, SIGMOD 2013). A section is a code and a
/// delimiter bit above it, which is 0, and a word has as many sections as fit it. A segment has as many words as a
/// section has bits; its consecutive rows lie in consecutive words, then in the next section of these words, and so on.
#[derive(Drop)]
pub struct HorizontalColumn {
    width: u32,
    len: usize,
    words: Vec<u64>,
}

impl Model for HorizontalColumn {
    ghost use Rattle.std.specs.Prelude.{vec_capacity};
    ghost use Rattle.bw_code.specs.Columns.{CodeList};
    ghost use Rattle.bw_horizontal.specs.Words.{AreWords, codes_of, room_in};

    ghost Value = { CodeList };

    ghost view = { λ h. record { width = h.width; codes = codes_of h.width h.len h.words.items; room = room_in h.width (vec_capacity h.words) } };

    ghost invariant = { λ h. AreWords h.width h.len h.words.items };
}

impl HorizontalColumn {
    /// The words: bit p of section t of word i of segment q is bit p of the code of the row that lies there.
    /// Delimiters, bits above the last section and sections without a row are 0.
    pub fn words(&self) -> &[u64]
        ensures count { length result.now ≡ segments_of (segment_rows self.now.width) (count self.now) * (self.now.width + 1) }
        ensures bits { (w p : ℕ) → bit_of (slice_index result.now w) p ≡ (nat_lt p (sections_in self.now.width * (self.now.width + 1)) && bit_of (code_at self.now (row_of_bit self.now.width w p)) (p % (self.now.width + 1))) }
    {
        let HorizontalColumn {
            width: _,
            len: _,
            words,
        } = self;
        words
    }

    /// The codes as they lie in memory, where they have 32 bits, and so a word each; `None` where they are narrower.
    pub fn lent(&self) -> Option<&[u64]>
        ensures codes { IfSome result (λ codes. codes.now ≡ self.now.codes) }
        ensures none { result ≡ None → self.now.width < 32 }
    {
        if self.width == FULL {
            Some(&self.words[..self.len])
        } else {
            None
        }
    }

    /// Rebases the code of each of the rows. Each rebased code fits the column's width, too. Takes no memory.
    #[tactic(auto, using(crate::proofs::Views::count_is))]
    pub fn shift(&mut self, rows: &Mask, from: i64, to: i64)
        requires rows { len rows.now ≡ count self.old }
        requires fit { (i : ℕ) → i < count self.old → StaysBelow (2 ^ self.old.width) (shifted (from -ℤ to) (row_at rows.now i) (code_at self.old i)) }
        ensures shape { KeepsShape self.new self.old }
        ensures count { count self.new ≡ count self.old }
        ensures codes { (i : ℕ) → i < count self.old → pos (code_at self.new i) ≡ shifted (from -ℤ to) (row_at rows.now i) (code_at self.old i) }
    {
        shift_codes(&mut self.words, self.width, rows, word_between(from, to));
    }
}

impl CodeColumn for HorizontalColumn {
    ghost layout = { layouts.H };

    ghost WIDEST = { widest_half };

    ghost seen = { λ h. h };

    const WIDEST: u32 = 32;

    fn with_width(alloc: Global, width: u32) -> Result<HorizontalColumn, AllocError> {
        Ok(HorizontalColumn {
            width,
            len: 0,
            words: Vec::new(alloc),
        })
    }

    #[tactic(auto, using(crate::proofs::Views::count_is))]
    fn reserve(&mut self, more: usize) -> Result<(), AllocError> {
        let more_words = words_for(self.width, self.len + more) - self.words.len();
        self.words.reserve(more_words)
    }

    fn push(&mut self, code: u64) {
        self.extend(&[code]);
    }

    #[tactic(auto, using(crate::proofs::Views::count_is))]
    fn extend(&mut self, codes: &[u64]) {
        let len = self.len + codes.len();
        fill_up(&mut self.words, self.width, len);
        put_codes(&mut self.words, self.width, self.len, codes);
        self.len = len;
    }

    #[tactic(auto, using(crate::proofs::Views::count_is))]
    fn len(&self) -> usize {
        self.len
    }

    fn width(&self) -> u32 {
        self.width
    }

    #[tactic(auto, using(crate::proofs::Views::count_is))]
    fn get(&self, i: usize) -> u64 {
        Place::of(self.width, i).code(&self.words)
    }

    #[tactic(auto, using(crate::proofs::Views::count_is))]
    fn set(&mut self, i: usize, code: u64) {
        Place::of(self.width, i).put(&mut self.words, code);
    }

    #[tactic(auto, using(crate::proofs::Views::count_is))]
    fn put_run(&mut self, at: usize, rows: u64, codes: &[u64]) {
        blending::put_run(&mut self.words, self.width, at, rows, codes);
    }

    #[tactic(auto, using(crate::proofs::Views::count_is))]
    fn fill_run(&mut self, at: usize, rows: u64, code: u64) {
        let end = self.len.min(at + 64);
        blending::fill_run(&mut self.words, self.width, at, end, rows, code);
    }

    #[tactic(auto, using(crate::proofs::Views::count_is))]
    fn read(&self, at: usize, out: &mut [u64]) {
        read_codes(&self.words, self.width, at, out);
    }

    #[tactic(auto, using(crate::proofs::Views::count_is))]
    fn plane(&self, i: u32, out: &mut Mask) {
        planes::plane(&self.words, self.width, i, out);
    }

    #[tactic(auto, using(crate::proofs::Views::count_is))]
    fn scan(&self, test: CodeTest, need: &Mask, out: &mut Mask, meter: &mut Meter) {
        let mut source = WordSource::new(&self.words);
        scan_from(&mut source, self.width, test, need, out);
        meter.add(source.reads());
    }

    #[tactic(auto, using(crate::proofs::Views::count_is))]
    fn scan_pair(
        &self,
        other: &HorizontalColumn,
        op: CmpOp,
        need: &Mask,
        out: &mut Mask,
        meter: &mut Meter,
    ) {
        let mut words = WordSource::new(&self.words);
        let mut others = WordSource::new(&other.words);
        pair_from(&mut words, &mut others, self.width, op, need, out);
        meter.add(words.reads());
        meter.add(others.reads());
    }
}
