//! The column of layout S.

ghost use Rattle.std.specs.Prelude.{[], false, if◌then◌else◌, length, pos, replicate, slice_index, slice_index_or, ℕ, ◌*◌, ◌+◌, ◌++◌, ◌-◌, ◌-ℤ◌, ◌%◌, ◌/◌, ◌<◌, ◌^◌, ◌≡◌, ◌≤◌};
ghost use Rattle.bw_mask.specs.Masks.{bit_of, len, row_at, row_in};
ghost use Rattle.bw_code.specs.Columns.{KeepsShape, code_at, count};
ghost use Rattle.bw_code.specs.Lists.{made};
ghost use Rattle.bw_code.specs.Shifts.{StaysBelow, shifted};
ghost use Rattle.bw_code.specs.Units.{digit, segments_of};
ghost use Rattle.bw_code.specs.Widths.{widest_code};
ghost use Rattle.bw_code.specs.declared.kind.Layout.TheVariants as layouts;
ghost use Rattle.bw_byteslice.specs.Slices.{shift_of, slices_of};
ghost use Rattle.bw_vertical.specs.Planes.{code_by_planes};

use crate::copying::copy_codes;
use crate::exchanging::exchange_codes;
use crate::filling::fill_codes;
use crate::pair::pair_from;
use crate::plane_blocks::{put_block, take_block};
use crate::plane_source::SlicePlanes;
use crate::rebasing::shift_codes;
use crate::scan::scan_from;
use crate::shift::{shift_of, slices_of};
use crate::source::SliceSource;
use crate::{plane, reading, runs, storage};
use bw_code::{CmpOp, CodeColumn, CodeTest, Meter, PlaneBlock, Source, word_between};
use bw_mask::Mask;
use std::alloc::{AllocError, Global};
use std::marker::Model;

/// A column of codes of at most 64 bits as slices of bytes. Each code is shifted left until its highest bit is the
/// highest of a byte; slice j holds byte j of each code, the highest byte first (ByteSlice: Feng and others, SIGMOD
/// 2015).
#[derive(Drop)]
pub struct SliceColumn {
    width: u32,
    len: usize,
    slices: Vec<Vec<u8>>,
}

impl Model for SliceColumn {
    ghost use Rattle.bw_code.specs.Columns.{CodeList};
    ghost use Rattle.bw_code.specs.Lists.{made};
    ghost use Rattle.bw_byteslice.specs.Storing.{AreSlices, bytes_of, capacities_of, code_of, room_of};

    ghost Value = { CodeList };

    ghost view = { λ c. record { width = c.width; codes = made c.len (code_of c.width (bytes_of c.slices.items)); room = room_of (capacities_of c.slices.items) } };

    ghost invariant = { λ c. AreSlices c.width c.len (bytes_of c.slices.items) };
}

/// How many bytes the segments of 32 rows take that hold these rows.
fn whole_segments(rows: usize) -> usize
    requires { rows ≤ 2 ^ 24 }
    ensures { result ≡ 32 * segments_of 32 rows }
{
    32 * rows.div_ceil(32)
}

impl SliceColumn {
    /// Slice j, one for each byte of a code: byte j of each row's code, shifted left, where byte 0 is the highest.
    /// After the last row come zeros, up to a multiple of 32.
    pub fn slice(&self, j: usize) -> &[u8]
        requires { j < slices_of self.now.width }
        ensures len { length result.now ≡ 32 * segments_of 32 (count self.now) }
        ensures bytes { (r : ℕ) → slice_index result.now r ≡ digit 256 (slices_of self.now.width) (code_at self.now r * 2 ^ shift_of self.now.width) j }
    {
        let SliceColumn {
            width: _,
            len: _,
            slices,
        } = self;
        &slices[j]
    }

    /// The planes of the codes, read directly from the slices, none of them read yet. With codes of k bits, unit q * k
    /// + i is plane i of segment q, which is rows 256 q to 256 q + 255: bit k - 1 - i of each code. Rows past the last
    /// are not set.
    pub fn planes(&self) -> SlicePlanes<'_>
        ensures units { length result.units ≡ segments_of 256 (count self.now) * self.now.width }
        ensures rows { (q i r : ℕ) → q < segments_of 256 (count self.now) → i < self.now.width → r < 256
            → row_in (slice_index_or result.units (q * self.now.width + i) []) r ≡ bit_of (code_at self.now (256 * q + r)) (self.now.width - 1 - i) }
        ensures none { result.reads ≡ 0 }
    {
        SlicePlanes::new(&self.slices, self.width, self.len)
    }

    /// Plane b of the block becomes bit b of the codes of the 2,048 rows from row `at` on, the first of a word of 64 rows.
    /// Rows past the last have code 0.
    pub fn read_block(&self, at: usize, block: &mut PlaneBlock)
        requires first { at % 64 ≡ 0 }
        requires inside { at < count self.now }
        ensures { (b r : ℕ) → b < self.now.width → r < 2048 → row_in (slice_index_or block.new b []) r ≡ bit_of (code_at self.now (at + r)) b }
    {
        take_block(&self.slices, self.width, at / 64, block);
    }

    /// Appends n rows, at most 2,048, within the room, by a block of their planes: plane b has bit b of each code, and no
    /// bit after the rows.
    pub fn extend_block(&mut self, block: &PlaneBlock, n: usize)
        requires few { n ≤ 2048 }
        requires rest { (b r : ℕ) → b < self.old.width → n ≤ r → r < 2048 → row_in (slice_index_or block.now b []) r ≡ false }
        requires room { count self.old + n ≤ self.old.room }
        requires short { count self.old + n ≤ 2 ^ 24 }
        ensures shape { KeepsShape self.new self.old }
        ensures codes { self.new.codes ≡ self.old.codes ++ made n (code_by_planes self.old.width block.now) }
    {
        let at = self.len;
        let rows = at + n;
        storage::grow(&mut self.slices, whole_segments(rows));
        put_block(&mut self.slices, self.width, at, n, block);
        self.len = rows;
    }

    /// Rebases the code of each of the rows. Each rebased code fits the column's width, too. Takes no memory.
    pub fn shift(&mut self, rows: &Mask, from: i64, to: i64)
        requires rows { len rows.now ≡ count self.old }
        requires fit { (i : ℕ) → i < count self.old → StaysBelow (2 ^ self.old.width) (shifted (from -ℤ to) (row_at rows.now i) (code_at self.old i)) }
        ensures shape { KeepsShape self.new self.old }
        ensures count { count self.new ≡ count self.old }
        ensures codes { (i : ℕ) → i < count self.old → pos (code_at self.new i) ≡ shifted (from -ℤ to) (row_at rows.now i) (code_at self.old i) }
    {
        let by = word_between(from, to);
        shift_codes(&mut self.slices, self.width, self.len, rows, by);
    }

    /// Appends n rows with code 0, within the room.
    pub fn extend_zeros(&mut self, n: usize)
        requires room { count self.old + n ≤ self.old.room }
        requires few { count self.old + n ≤ 2 ^ 24 }
        ensures shape { KeepsShape self.new self.old }
        ensures codes { self.new.codes ≡ self.old.codes ++ replicate n 0 }
    {
        let rows = self.len + n;
        // Bytes past the last row are zeros already.
        storage::grow(&mut self.slices, whole_segments(rows));
        self.len = rows;
    }

    /// The code of each of `rows` becomes that of the same row of another column of this width, rebased where the row
    /// is in `moved`. Each of these codes fits the width. Takes no memory.
    pub fn copy_rows(&mut self, other: &SliceColumn, rows: &Mask, moved: &Mask, from: i64, to: i64)
        requires width { other.now.width ≡ self.old.width }
        requires count { count other.now ≡ count self.old }
        requires rows { len rows.now ≡ count self.old }
        requires moved { len moved.now ≡ count self.old }
        requires fit { (i : ℕ) → i < count self.old → StaysBelow (2 ^ self.old.width) (shifted (from -ℤ to) (row_at moved.now i) (code_at other.now i)) }
        ensures shape { KeepsShape self.new self.old }
        ensures count { count self.new ≡ count self.old }
        ensures codes { (i : ℕ) → i < count self.old → pos (code_at self.new i) ≡ (if row_at rows.now i then shifted (from -ℤ to) (row_at moved.now i) (code_at other.now i) else pos (code_at self.old i)) }
    {
        let by = word_between(from, to);
        copy_codes(
            &mut self.slices,
            &other.slices,
            self.width,
            self.len,
            rows,
            moved,
            by,
        );
    }
}

impl CodeColumn for SliceColumn {
    ghost layout = { layouts.S };

    ghost WIDEST = { widest_code };

    ghost seen = { λ c. c };

    const WIDEST: u32 = 64;

    fn with_width(alloc: Global, width: u32) -> Result<SliceColumn, AllocError> {
        let slices = storage::no_bytes(alloc, slices_of(width))?;
        Ok(SliceColumn {
            width,
            len: 0,
            slices,
        })
    }

    fn reserve(&mut self, more: usize) -> Result<(), AllocError> {
        storage::reserve(&mut self.slices, whole_segments(self.len + more))
    }

    fn push(&mut self, code: u64) {
        self.extend(&[code]);
    }

    fn extend(&mut self, codes: &[u64]) {
        let at = self.len;
        let rows = at + codes.len();
        storage::grow(&mut self.slices, whole_segments(rows));
        storage::put(&mut self.slices, self.width, at, codes);
        self.len = rows;
    }

    fn len(&self) -> usize {
        self.len
    }

    fn width(&self) -> u32 {
        self.width
    }

    fn get(&self, i: usize) -> u64 {
        reading::code_at(&self.slices, self.width, i)
    }

    fn set(&mut self, i: usize, code: u64) {
        storage::put(&mut self.slices, self.width, i, &[code]);
    }

    fn put_run(&mut self, at: usize, rows: u64, codes: &[u64]) {
        runs::put_run(&mut self.slices, self.width, at, rows, codes);
    }

    fn fill_run(&mut self, at: usize, rows: u64, code: u64) {
        let count = (self.len - at).min(64);
        runs::fill_run(&mut self.slices, self.width, at, count, rows, code);
    }

    fn fill_rows(&mut self, rows: &Mask, code: u64) {
        fill_codes(&mut self.slices, self.width, self.len, rows, code);
    }

    fn exchange_rows(&mut self, other: &mut SliceColumn, rows: &Mask) {
        exchange_codes(
            &mut self.slices,
            &mut other.slices,
            self.width,
            self.len,
            rows,
        );
    }

    fn read(&self, at: usize, out: &mut [u64]) {
        reading::read(&self.slices, self.width, at, out);
    }

    fn plane(&self, i: u32, out: &mut Mask) {
        let place = i + shift_of(self.width);
        let slice = &self.slices[self.slices.len() - 1 - place as usize / 8];
        plane::put_rows(slice, place % 8, out);
    }

    fn scan(&self, test: CodeTest, need: &Mask, out: &mut Mask, meter: &mut Meter) {
        let mut source = SliceSource::new(&self.slices);
        scan_from(&mut source, self.width, test, need, out);
        meter.add(source.reads());
    }

    fn scan_pair(
        &self,
        other: &SliceColumn,
        op: CmpOp,
        need: &Mask,
        out: &mut Mask,
        meter: &mut Meter,
    ) {
        let mut left = SliceSource::new(&self.slices);
        let mut right = SliceSource::new(&other.slices);
        pair_from(&mut left, &mut right, self.width, op, need, out);
        meter.add(left.reads());
        meter.add(right.reads());
    }
}
