//! Columns of codes as planes of bits.

ghost use Rattle.std.specs.Prelude.{[], false, if◌then◌else◌, replicate, slice_index, pos, ◌-ℤ◌, ◌++◌, ◌%◌, ◌/◌, ◌≤◌, ◌^◌, length, slice_index_or, ℕ, ◌*◌, ◌+◌, ◌-◌, ◌<◌, ◌≡◌};
ghost use Rattle.bw_mask.specs.Masks.{bit_of, len, row_at, row_in};
ghost use Rattle.bw_code.specs.Columns.{code_at, count, Fit, KeepsShape};
ghost use Rattle.bw_code.specs.Shifts.{StaysBelow, shifted};
ghost use Rattle.bw_code.specs.declared.kind.Layout.TheVariants as layouts;
ghost use Rattle.bw_code.specs.Units.{segments_of};
ghost use Rattle.bw_code.specs.Lists.{made};
ghost use Rattle.bw_code.specs.Widths.{widest_code};
ghost use Rattle.bw_vertical.specs.Descents.{AreCodeEnds};
ghost use Rattle.bw_vertical.specs.Planes.{code_by, code_by_planes, code_in};
ghost use Rattle.bw_vertical.specs.Storage.{groups_of, planes_in};

use crate::code_ends::CodeEnds;
use crate::copying::copy_codes;
use crate::descent::code_ends;
use crate::filling::fill_codes;
use crate::growing::{begin_segment, empty_groups, push_segments, reserve_segments};
use crate::pair::pair_from;
use crate::plane_blocks::{put_block, take_block};
use crate::scan::scan_from;
use crate::shifting::shift_codes;
use crate::source::PlaneSource;
use crate::storage::take_planes;
use crate::swapping::exchange_codes;
use crate::{blocks, codes, runs};
use bw_code::{CmpOp, CodeColumn, CodeTest, Meter, PlaneBlock, Source, word_between};
use bw_mask::Mask;
use std::alloc::{AllocError, Global};
use std::marker::Model;

/// Codes of at most 64 bits as planes, each of which holds one bit of every code (BitWeaving/V: Li and Patel, SIGMOD
/// 2013). Plane 0 holds the highest bits.
#[derive(Drop)]
pub struct VerticalColumn {
    width: u32,
    len: usize,
    groups: Vec<Vec<[u64; 4]>>,
}

impl Model for VerticalColumn {
    ghost use Rattle.bw_code.specs.Columns.{CodeList};
    ghost use Rattle.bw_vertical.specs.Storage.{AreGroups, capacities, codes_of, lists, room_of};

    ghost Value = { CodeList };

    ghost view = { λ c. record { width = c.width; codes = codes_of c.width (lists c.groups.items) c.len; room = room_of c.width (capacities c.groups.items) } };

    ghost invariant = { λ c. AreGroups c.width (lists c.groups.items) c.len };
}

impl VerticalColumn {
    /// Group g: planes 4 g to 4 g + 3, as far as they exist. With m planes in the group, plane 4 g + i of segment q is
    /// at index q * m + i. A segment is 256 rows; row j of it is bit j % 64 of word j / 64. Bits past the last row are
    /// 0.
    #[tactic(auto, using(crate::proofs::Holding::codes_len))]
    pub fn group(&self, g: usize) -> &[[u64; 4]]
        requires { g < groups_of self.now.width }
        ensures count { length result.now ≡ segments_of 256 (count self.now) * planes_in self.now.width g }
        ensures rows { (q i r : ℕ) → i < planes_in self.now.width g → r < 256
            → row_in (slice_index_or result.now (q * planes_in self.now.width g + i) []) r ≡ bit_of (code_at self.now (256 * q + r)) (self.now.width - 1 - (4 * g + i)) }
    {
        let VerticalColumn {
            width: _,
            len: _,
            groups,
        } = self;
        &groups[g]
    }

    /// The planes as units that are read one at a time, none of them read yet: unit q * width + i is plane i of segment q.
    #[tactic(auto, using(crate::proofs::Holding::codes_len))]
    pub fn planes(&self) -> PlaneSource<'_>
        ensures units { length result.units ≡ segments_of 256 (count self.now) * self.now.width }
        ensures rows { (q i r : ℕ) → q < segments_of 256 (count self.now) → i < self.now.width → r < 256
            → row_in (slice_index_or result.units (q * self.now.width + i) []) r ≡ bit_of (code_at self.now (256 * q + r)) (self.now.width - 1 - i) }
        ensures codes { (j : ℕ) → j / 256 < segments_of 256 (count self.now) → code_in self.now.width result.units j ≡ code_at self.now j }
        ensures none { result.reads ≡ 0 }
    {
        PlaneSource::new(&self.groups, self.width, self.len)
    }

    /// Word b becomes bit b of the codes of rows 64 w to 64 w + 63. Rows past the last have code 0. The words from the
    /// width on stay.
    #[tactic(auto, using(crate::proofs::Holding::codes_len))]
    pub fn read_words(&self, w: usize, words: &mut [u64; 64])
        requires { 64 * w < count self.now }
        ensures { (b r : ℕ) → b < self.now.width → r < 64 → bit_of (slice_index words.new b) r ≡ bit_of (code_at self.now (64 * w + r)) b }
    {
        take_planes(&self.groups, self.width as usize, w, words);
    }

    /// Plane b of the block becomes bit b of the codes of the 2,048 rows from row `at` on, which begins a segment. Rows
    /// past the last have code 0.
    #[tactic(auto, using(crate::proofs::Holding::codes_len))]
    pub fn read_block(&self, at: usize, block: &mut PlaneBlock)
        requires first { at % 256 ≡ 0 }
        requires inside { at < count self.now }
        ensures { (b r : ℕ) → b < self.now.width → r < 2048 → row_in (slice_index_or block.new b []) r ≡ bit_of (code_at self.now (at + r)) b }
    {
        let segments = self.len.div_ceil(256);
        take_block(&self.groups, self.width as usize, at / 256, segments, block);
    }

    /// The least and the greatest code of these rows.
    pub fn ends(&self, rows: &Mask) -> CodeEnds
        requires rows { len rows.now ≡ count self.now }
        ensures { AreCodeEnds (row_at rows.now) (code_at self.now) (count self.now) result }
    {
        code_ends(&self.groups, self.width as usize, self.len, rows)
    }

    /// Appends n rows, which lie in one word, within the room, by the words of their planes: word b has bit b of each
    /// code, and no bit after the rows.
    #[tactic(auto, using(crate::proofs::Holding::codes_len))]
    pub fn extend_words(&mut self, words: &[u64; 64], n: usize)
        requires some { 0 < n }
        requires word { count self.old % 64 + n ≤ 64 }
        requires rest { (b r : ℕ) → b < self.old.width → n ≤ r → r < 64 → bit_of (slice_index words.now b) r ≡ false }
        requires room { count self.old + n ≤ self.old.room }
        requires few { count self.old + n ≤ 2 ^ 24 }
        ensures shape { KeepsShape self.new self.old }
        ensures codes { self.new.codes ≡ self.old.codes ++ made n (code_by self.old.width words.now) }
    {
        let k = self.width as usize;
        begin_segment(&mut self.groups, k, self.len);
        blocks::put_planes(&mut self.groups, k, self.len, n, words);
        self.len += n;
    }

    /// Appends n rows, the first of which begins a segment, within the room, by a block of their planes: plane b has bit
    /// b of each code, and no bit after the rows.
    #[tactic(auto, using(crate::proofs::Holding::codes_len))]
    pub fn extend_block(&mut self, block: &PlaneBlock, n: usize)
        requires some { 0 < n }
        requires block { n ≤ 2048 }
        requires first { count self.old % 256 ≡ 0 }
        requires rest { (b r : ℕ) → b < self.old.width → n ≤ r → r < 2048 → row_in (slice_index_or block.now b []) r ≡ false }
        requires room { count self.old + n ≤ self.old.room }
        requires few { count self.old + n ≤ 2 ^ 24 }
        ensures shape { KeepsShape self.new self.old }
        ensures codes { self.new.codes ≡ self.old.codes ++ made n (code_by_planes self.old.width block.now) }
    {
        let k = self.width as usize;
        let segments = n.div_ceil(256);
        push_segments(&mut self.groups, k, segments);
        put_block(&mut self.groups, k, self.len / 256, segments, block);
        self.len += n;
    }

    /// Rebases the code of each of the rows. Each rebased code fits the column's width, too. Takes no memory.
    pub fn shift(&mut self, rows: &Mask, from: i64, to: i64)
        requires rows { len rows.now ≡ count self.old }
        requires fit { (i : ℕ) → i < count self.old → StaysBelow (2 ^ self.old.width) (shifted (from -ℤ to) (row_at rows.now i) (code_at self.old i)) }
        ensures shape { KeepsShape self.new self.old }
        ensures count { count self.new ≡ count self.old }
        ensures codes { (i : ℕ) → i < count self.old → pos (code_at self.new i) ≡ shifted (from -ℤ to) (row_at rows.now i) (code_at self.old i) }
    {
        let k = self.width as usize;
        shift_codes(&mut self.groups, k, self.len, rows, word_between(from, to));
    }

    /// Appends n rows with code 0, within the room.
    pub fn extend_zeros(&mut self, n: usize)
        requires room { count self.old + n ≤ self.old.room }
        requires few { count self.old + n ≤ 2 ^ 24 }
        ensures shape { KeepsShape self.new self.old }
        ensures codes { self.new.codes ≡ self.old.codes ++ replicate n 0 }
    {
        let more = (self.len + n).div_ceil(256) - self.len.div_ceil(256);
        // Bits past the last row of the last segment are zeros already.
        push_segments(&mut self.groups, self.width as usize, more);
        self.len += n;
    }

    /// The code of each of the rows becomes that of the same row of another column, of any width, rebased where the row
    /// is in `moved`. Each of these codes fits the width of this column. Takes no memory.
    pub fn copy_rows(
        &mut self,
        other: &VerticalColumn,
        rows: &Mask,
        moved: &Mask,
        from: i64,
        to: i64,
    )
        requires count { count other.now ≡ count self.old }
        requires rows { len rows.now ≡ count self.old }
        requires moved { len moved.now ≡ count self.old }
        requires fit { (i : ℕ) → i < count self.old → StaysBelow (2 ^ self.old.width) (shifted (from -ℤ to) (row_at moved.now i) (code_at other.now i)) }
        ensures shape { KeepsShape self.new self.old }
        ensures count { count self.new ≡ count self.old }
        ensures codes { (i : ℕ) → i < count self.old → pos (code_at self.new i)
            ≡ (if row_at rows.now i then shifted (from -ℤ to) (row_at moved.now i) (code_at other.now i) else pos (code_at self.old i)) }
    {
        let (k, own) = (self.width as usize, other.width as usize);
        let by = word_between(from, to);
        copy_codes(
            &mut self.groups,
            k,
            self.len,
            &other.groups,
            own,
            rows,
            moved,
            by,
        );
    }

    /// Appends codes, whose rows lie in one word, within the room.
    #[tactic(auto, using(crate::proofs::Holding::codes_len))]
    fn append(&mut self, codes: &[u64])
        requires some { 0 < length codes.now }
        requires word { count self.old % 64 + length codes.now ≤ 64 }
        requires fit { Fit self.old.width codes.now }
        requires room { count self.old + length codes.now ≤ self.old.room }
        requires few { count self.old + length codes.now ≤ 2 ^ 24 }
        ensures shape { KeepsShape self.new self.old }
        ensures codes { self.new.codes ≡ self.old.codes ++ codes.now }
    {
        let k = self.width as usize;
        begin_segment(&mut self.groups, k, self.len);
        blocks::put_block(&mut self.groups, k, self.len, codes);
        self.len += codes.len();
    }
}

impl CodeColumn for VerticalColumn {
    ghost layout = { layouts.V };

    ghost WIDEST = { widest_code };

    ghost seen = { λ c. c };

    const WIDEST: u32 = 64;

    #[tactic(auto, using(crate::proofs::Holding::codes_len))]
    fn with_width(alloc: Global, width: u32) -> Result<VerticalColumn, AllocError> {
        let groups = empty_groups(alloc, (width as usize).div_ceil(4))?;
        Ok(VerticalColumn {
            width,
            len: 0,
            groups,
        })
    }

    #[tactic(auto, using(crate::proofs::Holding::codes_len))]
    fn reserve(&mut self, more: usize) -> Result<(), AllocError> {
        let segments = (self.len + more).div_ceil(256) - self.len.div_ceil(256);
        reserve_segments(&mut self.groups, self.width as usize, segments)
    }

    #[tactic(auto, using(crate::proofs::Holding::codes_len))]
    fn push(&mut self, code: u64) {
        let k = self.width as usize;
        begin_segment(&mut self.groups, k, self.len);
        codes::put_code(&mut self.groups, k, self.len, code);
        self.len += 1;
    }

    fn extend(&mut self, codes: &[u64]) {
        let mut rest = codes;
        'parts: while !rest.is_empty() {
            let (front, back) = rest.split_at(rest.len().min(64 - self.len() % 64));
            self.append(front);
            rest = back;
        }
    }

    #[tactic(auto, using(crate::proofs::Holding::codes_len))]
    fn len(&self) -> usize {
        self.len
    }

    fn width(&self) -> u32 {
        self.width
    }

    #[tactic(auto, using(crate::proofs::Holding::codes_len))]
    fn get(&self, i: usize) -> u64 {
        codes::code_at(&self.groups, self.width as usize, i)
    }

    #[tactic(auto, using(crate::proofs::Holding::codes_len))]
    fn set(&mut self, i: usize, code: u64) {
        codes::put_code(&mut self.groups, self.width as usize, i, code);
    }

    #[tactic(auto, using(crate::proofs::Holding::codes_len))]
    fn put_run(&mut self, at: usize, rows: u64, codes: &[u64]) {
        if at < self.len {
            runs::put_chosen(&mut self.groups, self.width as usize, at / 64, rows, codes);
        }
    }

    #[tactic(auto, using(crate::proofs::Holding::codes_len))]
    fn fill_run(&mut self, at: usize, rows: u64, code: u64) {
        if at < self.len {
            runs::fill_chosen(&mut self.groups, self.width as usize, at / 64, rows, code);
        }
    }

    fn fill_rows(&mut self, rows: &Mask, code: u64) {
        fill_codes(&mut self.groups, self.width as usize, self.len, rows, code);
    }

    fn exchange_rows(&mut self, other: &mut VerticalColumn, rows: &Mask) {
        let k = self.width as usize;
        exchange_codes(&mut self.groups, &mut other.groups, k, self.len, rows);
    }

    #[tactic(auto, using(crate::proofs::Holding::codes_len))]
    fn read(&self, at: usize, out: &mut [u64]) {
        blocks::read_codes(&self.groups, self.width as usize, at, out);
    }

    #[tactic(auto, using(crate::proofs::Holding::codes_len))]
    fn plane(&self, i: u32, out: &mut Mask) {
        codes::put_plane(&self.groups, self.width as usize, i as usize, self.len, out);
    }

    #[tactic(auto, using(crate::proofs::Holding::codes_len))]
    fn scan(&self, test: CodeTest, need: &Mask, out: &mut Mask, meter: &mut Meter) {
        let mut source = self.planes();
        scan_from(&mut source, self.width, test, need, out);
        meter.add(source.reads());
    }

    #[tactic(auto, using(crate::proofs::Holding::codes_len))]
    fn scan_pair(
        &self,
        other: &VerticalColumn,
        op: CmpOp,
        need: &Mask,
        out: &mut Mask,
        meter: &mut Meter,
    ) {
        let (mut left, mut right) = (self.planes(), other.planes());
        pair_from(&mut left, &mut right, self.width, op, need, out);
        meter.add(left.reads());
        meter.add(right.reads());
    }
}
