//! Appending values to a column.

ghost use Rattle.std.specs.Prelude.{All, List, Option, drop, false, length, slice_index, take, true, ℕ, ℤ, ◌%◌, ◌++◌, ◌+◌, ◌<◌, ◌^◌, ◌≡◌, ◌≤◌};
ghost use Rattle.bw_mask.specs.Masks.{bit_of, row_in};
ghost use Rattle.bw_code.specs.Encodings.{width};
ghost use Rattle.bw_code.specs.Lists.{made};
ghost use Rattle.bw_code.specs.Widths.{widest_code};
ghost use Rattle.bw_code.specs.declared.encoding.Encoding.TheVariants as by;
ghost use Rattle.bw_column.specs.Codes.{IsCoded, IsRowCode, codes_for, value_from};
ghost use Rattle.bw_column.specs.PlaneSources.{ArePlanesOf};
ghost use Rattle.bw_column.specs.Values.{IsNullOrHeld};
ghost use Rattle.bw_code.specs.declared.kind.Layout.TheVariants as layouts;
ghost use Rattle.bw_vertical.specs.Planes.{code_by, code_by_planes};

use crate::codes::encode_all;
use crate::column::Column;
use bw_cells::{Cells, Measured, presence};
use bw_code::{BLOCK_ROWS, Encoding, Offset, PlaneBlock};
use bw_dictionary::RankedCells;
use bw_mask::Mask;
use bw_vertical::{put_codes_of_words, read_word_of_planes};

/// Appends n rows to a mask, given as words of 64 rows, within the room.
fn push_words(mask: &mut Mask, n: usize, words: &[u64; 32])
    requires block { n ≤ 2048 }
    requires room { length mask.old.rows + n ≤ mask.old.room }
    requires few { length mask.old.rows + n ≤ 2 ^ 32 }
    ensures rows { mask.new.rows ≡ mask.old.rows ++ made n (row_in words.now) }
    ensures room { mask.old.room ≤ mask.new.room }
{
    for j in 0..n.div_ceil(64) {
        mask.push_bits((n - 64 * j).min(64), words[j]);
    }
}

/// Fills `out` with the codes of k bits of the first rows of a block of planes.
fn read_codes_of_planes(block: &PlaneBlock, k: usize, out: &mut [u64])
    requires narrow { k ≤ widest_code }
    requires few { length out.old ≤ 2048 }
    ensures len { length out.new ≡ length out.old }
    ensures codes { (r : ℕ) → r < length out.old → slice_index out.new r ≡ code_by_planes k block.now r }
{
    let mut words = [0; 64];
    let n = out.len();
    for j in 0..n.div_ceil(64) {
        read_word_of_planes(block, k, j, &mut words);
        put_codes_of_words(&words, k, &mut out[64 * j..n.min(64 * j + 64)]);
    }
}

impl Column {
    /// Appends at most 64 rows by their codes, within the room: those whose bit is set are non-null.
    #[tactic(auto, using(bw_code::proofs::Lists::made_len))]
    pub(crate) fn extend_rows(&mut self, codes: &[u64], present: u64)
        requires block { length codes.now ≤ 64 }
        requires rows { (k : ℕ) → k < length codes.now → IsRowCode self.old.encoding (slice_index codes.now k) (bit_of present k) }
        requires held { All (IsNullOrHeld self.old.layout) (made (length codes.now) (λ k. value_from self.old.encoding (slice_index codes.now k) (bit_of present k))) }
        requires room { length self.old.values + length codes.now ≤ self.old.room }
        requires few { length self.old.values + length codes.now ≤ 2 ^ 24 }
        ensures values { self.new.values ≡ self.old.values ++ made (length codes.now) (λ k. value_from self.old.encoding (slice_index codes.now k) (bit_of present k)) }
        ensures layout { self.new.layout ≡ self.old.layout }
        ensures encoding { self.new.encoding ≡ self.old.encoding }
        ensures room { self.old.room ≤ self.new.room }
    {
        self.codes.extend(codes);
        self.nonnull.push_bits(codes.len(), present);
    }

    /// Appends n rows by the words of the planes of their codes, within the room: those whose bit is set are non-null.
    /// The rows lie in one word. The layout is V.
    #[tactic(auto, using(bw_code::proofs::Lists::made_len))]
    pub(crate) fn extend_word(&mut self, words: &[u64; 64], n: usize, present: u64)
        requires layout { self.old.layout ≡ layouts.V }
        requires some { 0 < n }
        requires word { length self.old.values % 64 + n ≤ 64 }
        requires rest { (b r : ℕ) → b < width self.old.encoding → n ≤ r → r < 64 → bit_of (slice_index words.now b) r ≡ false }
        requires rows { (k : ℕ) → k < n → IsRowCode self.old.encoding (code_by (width self.old.encoding) words.now k) (bit_of present k) }
        requires held { All (IsNullOrHeld self.old.layout) (made n (λ k. value_from self.old.encoding (code_by (width self.old.encoding) words.now k) (bit_of present k))) }
        requires room { length self.old.values + n ≤ self.old.room }
        requires few { length self.old.values + n ≤ 2 ^ 24 }
        ensures values { self.new.values ≡ self.old.values ++ made n (λ k. value_from self.old.encoding (code_by (width self.old.encoding) words.now k) (bit_of present k)) }
        ensures layout { self.new.layout ≡ self.old.layout }
        ensures encoding { self.new.encoding ≡ self.old.encoding }
        ensures room { self.old.room ≤ self.new.room }
    {
        self.codes.extend_words(words, n);
        self.nonnull.push_bits(n, present);
    }

    /// Appends at most 64 values with their codes, within the room.
    fn extend(&mut self, values: &[Option<i64>], codes: &[u64])
        requires block { length values.now ≤ 64 }
        requires coded { All (IsCoded self.old.encoding) values.now }
        requires codes { codes.now ≡ codes_for self.old.encoding values.now }
        requires held { All (IsNullOrHeld self.old.layout) values.now }
        requires room { length self.old.values + length values.now ≤ self.old.room }
        requires few { length self.old.values + length values.now ≤ 2 ^ 24 }
        ensures values { self.new.values ≡ self.old.values ++ values.now }
        ensures layout { self.new.layout ≡ self.old.layout }
        ensures encoding { self.new.encoding ≡ self.old.encoding }
        ensures room { self.old.room ≤ self.new.room }
    {
        let _sound = self.encoding();
        self.extend_rows(codes, presence(values));
    }

    /// Appends at most 64 values, within the room.
    fn extend_block(&mut self, values: &[Option<i64>])
        requires block { length values.now ≤ 64 }
        requires coded { All (IsCoded self.old.encoding) values.now }
        requires held { All (IsNullOrHeld self.old.layout) values.now }
        requires room { length self.old.values + length values.now ≤ self.old.room }
        requires few { length self.old.values + length values.now ≤ 2 ^ 24 }
        ensures values { self.new.values ≡ self.old.values ++ values.now }
        ensures layout { self.new.layout ≡ self.old.layout }
        ensures encoding { self.new.encoding ≡ self.old.encoding }
        ensures room { self.old.room ≤ self.new.room }
    {
        let mut list = [0; 64];
        let codes = &mut list[..values.len()];
        if !encode_all(&self.encoding, values, codes) {
            unreachable!()
        }
        self.extend(values, codes);
    }

    /// Appends cells, within the room, looking up the code of each.
    fn extend_each<C: Cells>(&mut self, cells: &C)
        requires coded { All (IsCoded self.old.encoding) (C.cells cells.now) }
        requires held { All (IsNullOrHeld self.old.layout) (C.cells cells.now) }
        requires room { length self.old.values + length (C.cells cells.now) ≤ self.old.room }
        requires few { length self.old.values + length (C.cells cells.now) ≤ 2 ^ 24 }
        ensures values { self.new.values ≡ self.old.values ++ C.cells cells.now }
        ensures layout { self.new.layout ≡ self.old.layout }
        ensures encoding { self.new.encoding ≡ self.old.encoding }
        ensures room { self.old.room ≤ self.new.room }
    {
        let mut run = [None; 64];
        let mut at = 0;
        while at < cells.len() {
            let n = (cells.len() - at).min(64);
            cells.read(at, &mut run[..n]);
            self.extend_block(&run[..n]);
            at += n;
        }
    }

    /// Appends n cells, at most 2,048, within the room, by the planes of their distances from the base. Returns false,
    /// and changes nothing, where the layout can't take planes, or not from its next row on.
    #[tactic(auto, using(bw_code::proofs::Lists::made_len))]
    fn extend_planes(
        &mut self,
        offset: Offset,
        block: &PlaneBlock,
        n: usize,
        present: &[u64; 32],
    ) -> bool
        requires encoding { self.old.encoding ≡ by.Offset offset }
        requires some { 0 < n }
        requires block { n ≤ 2048 }
        requires cells { (cells : List (Option ℤ)) × (length cells ≡ n) × All (IsCoded (by.Offset offset)) cells × All (IsNullOrHeld self.old.layout) cells × ArePlanesOf offset.width offset.base cells block.now present.now }
        requires room { length self.old.values + n ≤ self.old.room }
        requires few { length self.old.values + n ≤ 2 ^ 24 }
        ensures values { result ≡ true → (cells : List (Option ℤ)) → length cells ≡ n → All (IsCoded (by.Offset offset)) cells → All (IsNullOrHeld self.old.layout) cells → ArePlanesOf offset.width offset.base cells block.now present.now → self.new.values ≡ self.old.values ++ cells }
        ensures layout { self.new.layout ≡ self.old.layout }
        ensures encoding { self.new.encoding ≡ self.old.encoding }
        ensures room { self.old.room ≤ self.new.room }
        ensures same { result ≡ false → self.new ≡ self.old }
    {
        if !self.codes.extend_block(block, n) {
            return false;
        }
        push_words(&mut self.nonnull, n, present);
        true
    }

    /// The same in any layout and from any row on, by the codes that the planes hold.
    #[tactic(auto, using(bw_code::proofs::Lists::made_len))]
    fn extend_codes(&mut self, offset: Offset, block: &PlaneBlock, n: usize, present: &[u64; 32])
        requires encoding { self.old.encoding ≡ by.Offset offset }
        requires block { n ≤ 2048 }
        requires cells { (cells : List (Option ℤ)) × (length cells ≡ n) × All (IsCoded (by.Offset offset)) cells × All (IsNullOrHeld self.old.layout) cells × ArePlanesOf offset.width offset.base cells block.now present.now }
        requires room { length self.old.values + n ≤ self.old.room }
        requires few { length self.old.values + n ≤ 2 ^ 24 }
        ensures values { (cells : List (Option ℤ)) → length cells ≡ n → All (IsCoded (by.Offset offset)) cells → All (IsNullOrHeld self.old.layout) cells → ArePlanesOf offset.width offset.base cells block.now present.now → self.new.values ≡ self.old.values ++ cells }
        ensures layout { self.new.layout ≡ self.old.layout }
        ensures encoding { self.new.encoding ≡ self.old.encoding }
        ensures room { self.old.room ≤ self.new.room }
    {
        let mut list = [0; BLOCK_ROWS];
        let codes = &mut list[..n];
        read_codes_of_planes(block, offset.width as usize, codes);
        self.codes.extend(codes);
        push_words(&mut self.nonnull, n, present);
    }

    /// Appends `codes.len()` cells, at most 64, from cell `at` on, within the room. Their codes are their distances
    /// from the base; `codes` is a buffer.
    fn extend_distances<C: Measured>(
        &mut self,
        offset: Offset,
        cells: &C,
        at: usize,
        codes: &mut [u64],
    )
        requires encoding { self.old.encoding ≡ by.Offset offset }
        requires coded { All (IsCoded self.old.encoding) (C.cells cells.now) }
        requires held { All (IsNullOrHeld self.old.layout) (C.cells cells.now) }
        requires block { length codes.old ≤ 64 }
        requires inside { at + length codes.old ≤ length (C.cells cells.now) }
        requires room { length self.old.values + length codes.old ≤ self.old.room }
        requires few { length self.old.values + length codes.old ≤ 2 ^ 24 }
        ensures values { self.new.values ≡ self.old.values ++ take (length codes.old) (drop at (C.cells cells.now)) }
        ensures layout { self.new.layout ≡ self.old.layout }
        ensures encoding { self.new.encoding ≡ self.old.encoding }
        ensures room { self.old.room ≤ self.new.room }
    {
        let present = cells.distances(at, offset.base, codes);
        self.extend_rows(codes, present);
    }

    /// Appends n cells, at most 2,048, from cell `at` on, within the room, by their distances from the base.
    fn extend_runs<C: Measured>(&mut self, offset: Offset, cells: &C, at: usize, n: usize)
        requires encoding { self.old.encoding ≡ by.Offset offset }
        requires coded { All (IsCoded self.old.encoding) (C.cells cells.now) }
        requires held { All (IsNullOrHeld self.old.layout) (C.cells cells.now) }
        requires inside { at + n ≤ length (C.cells cells.now) }
        requires short { at + n ≤ 2 ^ 24 }
        requires room { length self.old.values + n ≤ self.old.room }
        requires few { length self.old.values + n ≤ 2 ^ 24 }
        ensures values { self.new.values ≡ self.old.values ++ take n (drop at (C.cells cells.now)) }
        ensures layout { self.new.layout ≡ self.old.layout }
        ensures encoding { self.new.encoding ≡ self.old.encoding }
        ensures room { self.old.room ≤ self.new.room }
    {
        let mut list = [0; 64];
        let mut done = 0;
        while done < n {
            let count = (n - done).min(64);
            self.extend_distances(offset, cells, at + done, &mut list[..count]);
            done += count;
        }
    }

    /// Appends n cells, at most 2,048, from cell `at` on, within the room: by their planes, where the cells have planes
    /// of the column's base and width, else by their distances from the base. The block is a buffer.
    fn extend_part<C: Measured>(
        &mut self,
        offset: Offset,
        cells: &C,
        at: usize,
        n: usize,
        block: &mut PlaneBlock,
    )
        requires encoding { self.old.encoding ≡ by.Offset offset }
        requires coded { All (IsCoded self.old.encoding) (C.cells cells.now) }
        requires held { All (IsNullOrHeld self.old.layout) (C.cells cells.now) }
        requires some { 0 < n }
        requires block { n ≤ 2048 }
        requires inside { at + n ≤ length (C.cells cells.now) }
        requires short { at + n ≤ 2 ^ 24 }
        requires room { length self.old.values + n ≤ self.old.room }
        requires few { length self.old.values + n ≤ 2 ^ 24 }
        ensures values { self.new.values ≡ self.old.values ++ take n (drop at (C.cells cells.now)) }
        ensures layout { self.new.layout ≡ self.old.layout }
        ensures encoding { self.new.encoding ≡ self.old.encoding }
        ensures room { self.old.room ≤ self.new.room }
    {
        let k = offset.width as usize;
        let Some(present) = cells.planes(at, n, offset.base, k, block) else {
            self.extend_runs(offset, cells, at, n);
            return;
        };
        if !self.extend_planes(offset, block, n, &present) {
            self.extend_codes(offset, block, n, &present);
        }
    }

    /// Appends cells, within the room. Their codes are their distances from the base, so none is looked up.
    fn extend_measured<C: Measured>(&mut self, offset: Offset, cells: &C)
        requires encoding { self.old.encoding ≡ by.Offset offset }
        requires coded { All (IsCoded self.old.encoding) (C.cells cells.now) }
        requires held { All (IsNullOrHeld self.old.layout) (C.cells cells.now) }
        requires room { length self.old.values + length (C.cells cells.now) ≤ self.old.room }
        requires few { length self.old.values + length (C.cells cells.now) ≤ 2 ^ 24 }
        ensures values { self.new.values ≡ self.old.values ++ C.cells cells.now }
        ensures layout { self.new.layout ≡ self.old.layout }
        ensures encoding { self.new.encoding ≡ self.old.encoding }
        ensures room { self.old.room ≤ self.new.room }
    {
        let mut block = [[0; 32]; 64];
        let mut at = 0;
        while at < cells.len() {
            let n = (cells.len() - at).min(BLOCK_ROWS);
            self.extend_part(offset, cells, at, n, &mut block);
            at += n;
        }
    }

    /// Appends cells, within the room.
    pub(crate) fn extend_from<C: Measured>(&mut self, cells: &C)
        requires coded { All (IsCoded self.old.encoding) (C.cells cells.now) }
        requires held { All (IsNullOrHeld self.old.layout) (C.cells cells.now) }
        requires room { length self.old.values + length (C.cells cells.now) ≤ self.old.room }
        requires few { length self.old.values + length (C.cells cells.now) ≤ 2 ^ 24 }
        ensures values { self.new.values ≡ self.old.values ++ C.cells cells.now }
        ensures layout { self.new.layout ≡ self.old.layout }
        ensures encoding { self.new.encoding ≡ self.old.encoding }
        ensures room { self.old.room ≤ self.new.room }
    {
        match self.encoding {
            Encoding::Offset(offset) => self.extend_measured(offset, cells),
            Encoding::Dictionary(_) => self.extend_each(cells),
        }
    }

    /// Appends cells with their codes, within the room. Of the cells it reads only which are non-null.
    pub(crate) fn extend_with<C: Measured>(&mut self, cells: &C, codes: &[u64])
        requires coded { All (IsCoded self.old.encoding) (C.cells cells.now) }
        requires codes { codes.now ≡ codes_for self.old.encoding (C.cells cells.now) }
        requires held { All (IsNullOrHeld self.old.layout) (C.cells cells.now) }
        requires room { length self.old.values + length (C.cells cells.now) ≤ self.old.room }
        requires few { length self.old.values + length (C.cells cells.now) ≤ 2 ^ 24 }
        ensures values { self.new.values ≡ self.old.values ++ C.cells cells.now }
        ensures layout { self.new.layout ≡ self.old.layout }
        ensures encoding { self.new.encoding ≡ self.old.encoding }
    {
        let _sound = self.encoding();
        let mut list = [0; 64];
        let mut at = 0;
        while at < cells.len() {
            let n = (cells.len() - at).min(64);
            let present = cells.distances(at, 0, &mut list[..n]);
            self.extend_rows(&codes[at..at + n], present);
            at += n;
        }
    }

    /// The same by the indices of the cells among the entries, which are widened block by block.
    pub(crate) fn extend_ranked<C: Measured>(&mut self, cells: &C, ranked: &RankedCells)
        requires coded { All (IsCoded self.old.encoding) (C.cells cells.now) }
        requires codes { ranked.now.places.items ≡ codes_for self.old.encoding (C.cells cells.now) }
        requires held { All (IsNullOrHeld self.old.layout) (C.cells cells.now) }
        requires room { length self.old.values + length (C.cells cells.now) ≤ self.old.room }
        requires few { length self.old.values + length (C.cells cells.now) ≤ 2 ^ 24 }
        ensures values { self.new.values ≡ self.old.values ++ C.cells cells.now }
        ensures layout { self.new.layout ≡ self.old.layout }
        ensures encoding { self.new.encoding ≡ self.old.encoding }
    {
        let _sound = self.encoding();
        let mut list = [0; 64];
        let mut at = 0;
        while at < cells.len() {
            let n = (cells.len() - at).min(64);
            let codes = &mut list[..n];
            let present = cells.distances(at, 0, codes);
            ranked.read_codes(at, codes);
            self.extend_rows(codes, present);
            at += n;
        }
    }
}
