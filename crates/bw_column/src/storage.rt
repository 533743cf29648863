//! The codes of a column, each layout in its own type.

ghost use Rattle.std.specs.Prelude.{[], IfOk, OnOk, drop, false, if◌then◌else◌, length, replicate, slice_index, slice_index_or, slice_set, take, true, ℕ, ◌%◌, ◌&&◌, ◌++◌, ◌+◌, ◌<◌, ◌^◌, ◌≡◌, ◌≤◌, pos, ◌-ℤ◌};
ghost use Rattle.bw_mask.specs.Masks.{SameShape, bit_of, len, row_at, row_in};
ghost use Rattle.bw_code.specs.Columns.{Fit, KeepsShape, code_at, count, filled_codes, put_codes};
ghost use Rattle.bw_code.specs.Lists.{made};
ghost use Rattle.bw_code.specs.Meters.{raised};
ghost use Rattle.bw_code.specs.Shifts.{StaysBelow, shifted};
ghost use Rattle.bw_code.specs.Tests.{TestFits, code_compares, meets};
ghost use Rattle.bw_code.specs.Units.{units_of_pair, units_of_scan};
ghost use Rattle.bw_code.specs.Widths.{widest_code};
ghost use Rattle.bw_column.specs.Storing.{IsSliced, ShiftsTo, layout_of, lent_layout, lent_list, list_of};
ghost use Rattle.bw_column.specs.Values.{widest};
ghost use Rattle.bw_code.specs.declared.kind.Layout.TheVariants as layouts;
ghost use Rattle.bw_vertical.specs.Planes.{code_by, code_by_planes};

use crate::in_memory::put_lent_block;
use bw_byteslice::SliceColumn;
use bw_code::{CmpOp, CodeColumn, CodeTest, Layout, Meter, PlainColumn, PlaneBlock};
use bw_horizontal::HorizontalColumn;
use bw_mask::Mask;
use bw_vertical::VerticalColumn;
use std::alloc::{AllocError, Global};

/// The codes of a column, lent as the type of its layout.
#[derive(Clone, Copy)]
pub enum Storage<'a> {
    P(&'a PlainColumn),
    V(&'a VerticalColumn),
    H(&'a HorizontalColumn),
    S(&'a SliceColumn),
}

/// Codes in a layout. Each call does what `CodeColumn` says.
#[derive(Drop)]
pub(crate) enum Codes {
    P(PlainColumn),
    V(VerticalColumn),
    H(HorizontalColumn),
    S(SliceColumn),
}

impl Codes {
    /// An empty list of codes.
    pub(crate) fn with_width(alloc: Global, layout: Layout, width: u32) -> Result<Codes, AllocError>
        requires some { 1 ≤ width }
        requires narrow { width ≤ widest layout }
        ensures layout { IfOk result (λ codes. layout_of codes ≡ layout) }
        ensures width { IfOk result (λ codes. (list_of codes).width ≡ width) }
        ensures codes { IfOk result (λ codes. (list_of codes).codes ≡ []) }
    {
        match layout {
            Layout::P => Ok(Codes::P(PlainColumn::with_width(alloc, width)?)),
            Layout::V => Ok(Codes::V(VerticalColumn::with_width(alloc, width)?)),
            Layout::H => Ok(Codes::H(HorizontalColumn::with_width(alloc, width)?)),
            Layout::S => Ok(Codes::S(SliceColumn::with_width(alloc, width)?)),
        }
    }

    pub(crate) fn layout(&self) -> Layout
        ensures { result ≡ layout_of self.now }
    {
        match self {
            Codes::P(_) => Layout::P,
            Codes::V(_) => Layout::V,
            Codes::H(_) => Layout::H,
            Codes::S(_) => Layout::S,
        }
    }

    /// How many bits a code has.
    pub(crate) fn width(&self) -> u32
        ensures width { result ≡ (list_of self.now).width }
        ensures narrow { result ≤ widest_code }
    {
        match self {
            Codes::P(codes) => codes.width(),
            Codes::V(codes) => codes.width(),
            Codes::H(codes) => codes.width(),
            Codes::S(codes) => codes.width(),
        }
    }

    /// The codes, lent.
    pub(crate) fn lent(&self) -> Storage<'_>
        ensures layout { lent_layout result ≡ layout_of self.now }
        ensures codes { lent_list result ≡ list_of self.now }
    {
        match self {
            Codes::P(codes) => Storage::P(codes),
            Codes::V(codes) => Storage::V(codes),
            Codes::H(codes) => Storage::H(codes),
            Codes::S(codes) => Storage::S(codes),
        }
    }

    pub(crate) fn reserve(&mut self, more: usize) -> Result<(), AllocError>
        requires { count (list_of self.old) + more ≤ 2 ^ 24 }
        ensures layout { layout_of self.new ≡ layout_of self.old }
        ensures room { OnOk result (count (list_of self.old) + more ≤ (list_of self.new).room) }
        ensures shape { KeepsShape (list_of self.new) (list_of self.old) }
        ensures codes { (list_of self.new).codes ≡ (list_of self.old).codes }
    {
        match self {
            Codes::P(codes) => codes.reserve(more),
            Codes::V(codes) => codes.reserve(more),
            Codes::H(codes) => codes.reserve(more),
            Codes::S(codes) => codes.reserve(more),
        }
    }

    pub(crate) fn extend(&mut self, more: &[u64])
        requires fit { Fit (list_of self.old).width more.now }
        requires room { count (list_of self.old) + length more.now ≤ (list_of self.old).room }
        requires few { count (list_of self.old) + length more.now ≤ 2 ^ 24 }
        ensures layout { layout_of self.new ≡ layout_of self.old }
        ensures shape { KeepsShape (list_of self.new) (list_of self.old) }
        ensures codes { (list_of self.new).codes ≡ (list_of self.old).codes ++ more.now }
    {
        match self {
            Codes::P(codes) => codes.extend(more),
            Codes::V(codes) => codes.extend(more),
            Codes::H(codes) => codes.extend(more),
            Codes::S(codes) => codes.extend(more),
        }
    }

    /// Appends n rows with code 0, within the room. The layout is V or S.
    pub(crate) fn extend_zeros(&mut self, n: usize)
        requires layout { IsSliced (layout_of self.old) }
        requires room { count (list_of self.old) + n ≤ (list_of self.old).room }
        requires few { count (list_of self.old) + n ≤ 2 ^ 24 }
        ensures layout { layout_of self.new ≡ layout_of self.old }
        ensures shape { KeepsShape (list_of self.new) (list_of self.old) }
        ensures codes { (list_of self.new).codes ≡ (list_of self.old).codes ++ replicate n 0 }
    {
        match self {
            Codes::V(codes) => codes.extend_zeros(n),
            Codes::S(codes) => codes.extend_zeros(n),
            Codes::P(_) | Codes::H(_) => unreachable!(),
        }
    }

    pub(crate) fn fill_rows(&mut self, rows: &Mask, code: u64)
        requires rows { len rows.now ≡ count (list_of self.old) }
        requires fits { code < 2 ^ (list_of self.old).width }
        ensures layout { layout_of self.new ≡ layout_of self.old }
        ensures shape { KeepsShape (list_of self.new) (list_of self.old) }
        ensures count { count (list_of self.new) ≡ count (list_of self.old) }
        ensures codes { (i : ℕ) → i < count (list_of self.old) → code_at (list_of self.new) i
            ≡ (if row_at rows.now i then code else code_at (list_of self.old) i) }
    {
        match self {
            Codes::P(codes) => codes.fill_rows(rows, code),
            Codes::V(codes) => codes.fill_rows(rows, code),
            Codes::H(codes) => codes.fill_rows(rows, code),
            Codes::S(codes) => codes.fill_rows(rows, code),
        }
    }

    /// The codes of the rows are exchanged with those of other codes of the same layout and width. Takes no memory.
    pub(crate) fn exchange_rows(&mut self, other: &mut Codes, rows: &Mask)
        requires layout { layout_of other.old ≡ layout_of self.old }
        requires width { (list_of other.old).width ≡ (list_of self.old).width }
        requires other { count (list_of other.old) ≡ count (list_of self.old) }
        requires rows { len rows.now ≡ count (list_of self.old) }
        ensures layout { layout_of self.new ≡ layout_of self.old }
        ensures other_layout { layout_of other.new ≡ layout_of other.old }
        ensures shape { KeepsShape (list_of self.new) (list_of self.old) }
        ensures other_shape { KeepsShape (list_of other.new) (list_of other.old) }
        ensures count { count (list_of self.new) ≡ count (list_of self.old) }
        ensures other_count { count (list_of other.new) ≡ count (list_of other.old) }
        ensures codes { (i : ℕ) → i < count (list_of self.old) → code_at (list_of self.new) i
            ≡ (if row_at rows.now i then code_at (list_of other.old) i else code_at (list_of self.old) i) }
        ensures others { (i : ℕ) → i < count (list_of self.old) → code_at (list_of other.new) i
            ≡ (if row_at rows.now i then code_at (list_of self.old) i else code_at (list_of other.old) i) }
    {
        match (self, other) {
            (Codes::P(codes), Codes::P(others)) => codes.exchange_rows(others, rows),
            (Codes::V(codes), Codes::V(others)) => codes.exchange_rows(others, rows),
            (Codes::H(codes), Codes::H(others)) => codes.exchange_rows(others, rows),
            (Codes::S(codes), Codes::S(others)) => codes.exchange_rows(others, rows),
            _ => unreachable!(),
        }
    }

    /// The codes of the rows become those of the same rows of other codes, rebased where the row is in `moved`, if both
    /// have planes, or slices of one width. Returns whether they have; else nothing changes. Takes no memory.
    pub(crate) fn copy_rows(
        &mut self,
        other: &Codes,
        rows: &Mask,
        moved: &Mask,
        from: i64,
        to: i64,
    ) -> bool
        requires count { count (list_of other.now) ≡ count (list_of self.old) }
        requires rows { len rows.now ≡ count (list_of self.old) }
        requires moved { len moved.now ≡ count (list_of self.old) }
        requires fit { (i : ℕ) → i < count (list_of self.old) → StaysBelow (2 ^ (list_of self.old).width) (shifted (from -ℤ to) (row_at moved.now i) (code_at (list_of other.now) i)) }
        ensures layout { layout_of self.new ≡ layout_of self.old }
        ensures shape { KeepsShape (list_of self.new) (list_of self.old) }
        ensures count { count (list_of self.new) ≡ count (list_of self.old) }
        ensures codes { result ≡ true → (i : ℕ) → i < count (list_of self.old) → pos (code_at (list_of self.new) i)
            ≡ (if row_at rows.now i then shifted (from -ℤ to) (row_at moved.now i) (code_at (list_of other.now) i) else pos (code_at (list_of self.old) i)) }
        ensures same { result ≡ false → self.new ≡ self.old }
    {
        match (self, other) {
            (Codes::V(codes), Codes::V(others)) => {
                codes.copy_rows(others, rows, moved, from, to);
                true
            }
            (Codes::S(codes), Codes::S(others)) if codes.width() == others.width() => {
                codes.copy_rows(others, rows, moved, from, to);
                true
            }
            _ => false,
        }
    }

    /// Appends n codes, within the room, by the words of their planes. Their rows lie in one word. The layout is V.
    pub(crate) fn extend_words(&mut self, words: &[u64; 64], n: usize)
        requires layout { layout_of self.old ≡ layouts.V }
        requires some { 0 < n }
        requires word { count (list_of self.old) % 64 + n ≤ 64 }
        requires rest { (b r : ℕ) → b < (list_of self.old).width → n ≤ r → r < 64 → bit_of (slice_index words.now b) r ≡ false }
        requires room { count (list_of self.old) + n ≤ (list_of self.old).room }
        requires few { count (list_of self.old) + n ≤ 2 ^ 24 }
        ensures layout { layout_of self.new ≡ layout_of self.old }
        ensures shape { KeepsShape (list_of self.new) (list_of self.old) }
        ensures codes { (list_of self.new).codes ≡ (list_of self.old).codes ++ made n (code_by (list_of self.old).width words.now) }
    {
        match self {
            Codes::V(codes) => codes.extend_words(words, n),
            Codes::P(_) | Codes::H(_) | Codes::S(_) => unreachable!(),
        }
    }

    /// Plane b of the block becomes bit b of the codes of the 2,048 rows from row `at` on, which begins a segment. Rows
    /// past the last have code 0. Returns false where planes are not made faster than codes are read; then the block is
    /// unspecified.
    pub(crate) fn read_block(&self, at: usize, block: &mut PlaneBlock) -> bool
        requires first { at % 256 ≡ 0 }
        requires inside { at < count (list_of self.now) }
        ensures { result ≡ true → (b r : ℕ) → b < (list_of self.now).width → r < 2048 → row_in (slice_index_or block.new b []) r ≡ bit_of (code_at (list_of self.now) (at + r)) b }
    {
        match self {
            Codes::V(codes) => {
                codes.read_block(at, block);
                true
            }
            Codes::S(codes) => {
                codes.read_block(at, block);
                true
            }
            Codes::P(_) | Codes::H(_) => {
                let Some(codes) = self.in_memory() else {
                    return false;
                };
                let _few = self.len();
                put_lent_block(codes, self.width() as usize, at, block);
                true
            }
        }
    }

    /// Appends n codes, at most 2,048, within the room, by a block of their planes. Returns false, and changes nothing,
    /// where the layout can't take planes, or not from its next row on.
    pub(crate) fn extend_block(&mut self, block: &PlaneBlock, n: usize) -> bool
        requires some { 0 < n }
        requires block { n ≤ 2048 }
        requires rest { (b r : ℕ) → b < (list_of self.old).width → n ≤ r → r < 2048 → row_in (slice_index_or block.now b []) r ≡ false }
        requires room { count (list_of self.old) + n ≤ (list_of self.old).room }
        requires few { count (list_of self.old) + n ≤ 2 ^ 24 }
        ensures layout { layout_of self.new ≡ layout_of self.old }
        ensures shape { KeepsShape (list_of self.new) (list_of self.old) }
        ensures codes { result ≡ true → (list_of self.new).codes ≡ (list_of self.old).codes ++ made n (code_by_planes (list_of self.old).width block.now) }
        ensures same { result ≡ false → self.new ≡ self.old }
    {
        match self {
            Codes::V(codes) if codes.len() % 256 == 0 => {
                codes.extend_block(block, n);
                true
            }
            Codes::S(codes) => {
                codes.extend_block(block, n);
                true
            }
            _ => false,
        }
    }

    pub(crate) fn len(&self) -> usize
        ensures count { result ≡ count (list_of self.now) }
        ensures few { result ≤ 2 ^ 24 }
    {
        match self {
            Codes::P(codes) => codes.len(),
            Codes::V(codes) => codes.len(),
            Codes::H(codes) => codes.len(),
            Codes::S(codes) => codes.len(),
        }
    }

    pub(crate) fn get(&self, i: usize) -> u64
        requires { i < count (list_of self.now) }
        ensures code { result ≡ code_at (list_of self.now) i }
        ensures fits { result < 2 ^ (list_of self.now).width }
    {
        match self {
            Codes::P(codes) => codes.get(i),
            Codes::V(codes) => codes.get(i),
            Codes::H(codes) => codes.get(i),
            Codes::S(codes) => codes.get(i),
        }
    }

    pub(crate) fn set(&mut self, i: usize, code: u64)
        requires there { i < count (list_of self.old) }
        requires fits { code < 2 ^ (list_of self.old).width }
        ensures layout { layout_of self.new ≡ layout_of self.old }
        ensures shape { KeepsShape (list_of self.new) (list_of self.old) }
        ensures codes { (list_of self.new).codes ≡ slice_set (list_of self.old).codes i code }
    {
        match self {
            Codes::P(codes) => codes.set(i, code),
            Codes::V(codes) => codes.set(i, code),
            Codes::H(codes) => codes.set(i, code),
            Codes::S(codes) => codes.set(i, code),
        }
    }

    pub(crate) fn put_run(&mut self, at: usize, rows: u64, run: &[u64])
        requires word { at % 64 ≡ 0 }
        requires few { length run.now ≤ 64 }
        requires there { at + length run.now ≤ count (list_of self.old) }
        requires given { (i : ℕ) → length run.now ≤ i → bit_of rows i ≡ false }
        requires fit { Fit (list_of self.old).width run.now }
        ensures layout { layout_of self.new ≡ layout_of self.old }
        ensures shape { KeepsShape (list_of self.new) (list_of self.old) }
        ensures codes { (list_of self.new).codes ≡ put_codes (list_of self.old).codes at rows run.now }
    {
        match self {
            Codes::P(codes) => codes.put_run(at, rows, run),
            Codes::V(codes) => codes.put_run(at, rows, run),
            Codes::H(codes) => codes.put_run(at, rows, run),
            Codes::S(codes) => codes.put_run(at, rows, run),
        }
    }

    pub(crate) fn fill_run(&mut self, at: usize, rows: u64, code: u64)
        requires word { at % 64 ≡ 0 }
        requires inside { at ≤ count (list_of self.old) }
        requires there { (i : ℕ) → bit_of rows i ≡ true → at + i < count (list_of self.old) }
        requires fits { code < 2 ^ (list_of self.old).width }
        ensures layout { layout_of self.new ≡ layout_of self.old }
        ensures shape { KeepsShape (list_of self.new) (list_of self.old) }
        ensures codes { (list_of self.new).codes ≡ filled_codes (list_of self.old).codes at rows code }
    {
        match self {
            Codes::P(codes) => codes.fill_run(at, rows, code),
            Codes::V(codes) => codes.fill_run(at, rows, code),
            Codes::H(codes) => codes.fill_run(at, rows, code),
            Codes::S(codes) => codes.fill_run(at, rows, code),
        }
    }

    pub(crate) fn read(&self, at: usize, out: &mut [u64])
        requires { at + length out.old ≤ count (list_of self.now) }
        ensures codes { out.new ≡ take (length out.old) (drop at (list_of self.now).codes) }
        ensures fit { Fit (list_of self.now).width out.new }
    {
        match self {
            Codes::P(codes) => codes.read(at, out),
            Codes::V(codes) => codes.read(at, out),
            Codes::H(codes) => codes.read(at, out),
            Codes::S(codes) => codes.read(at, out),
        }
    }

    pub(crate) fn plane(&self, i: u32, out: &mut Mask)
        requires bit { i < (list_of self.now).width }
        requires out { len out.old ≡ count (list_of self.now) }
        ensures shape { SameShape out.new out.old }
        ensures rows { (r : ℕ) → row_at out.new r ≡ bit_of (code_at (list_of self.now) r) i }
    {
        match self {
            Codes::P(codes) => codes.plane(i, out),
            Codes::V(codes) => codes.plane(i, out),
            Codes::H(codes) => codes.plane(i, out),
            Codes::S(codes) => codes.plane(i, out),
        }
    }

    pub(crate) fn scan(&self, test: CodeTest, need: &Mask, out: &mut Mask, meter: &mut Meter)
        requires test { TestFits (list_of self.now).width test }
        requires need { len need.now ≡ count (list_of self.now) }
        requires out { len out.old ≡ count (list_of self.now) }
        ensures shape { SameShape out.new out.old }
        ensures rows { (r : ℕ) → row_at out.new r ≡ (row_at need.now r && meets test (code_at (list_of self.now) r)) }
        ensures units { meter.new ≡ raised meter.old (units_of_scan (layout_of self.now) (list_of self.now).width test (row_at need.now) (list_of self.now).codes) }
    {
        match self {
            Codes::P(codes) => codes.scan(test, need, out, meter),
            Codes::V(codes) => codes.scan(test, need, out, meter),
            Codes::H(codes) => codes.scan(test, need, out, meter),
            Codes::S(codes) => codes.scan(test, need, out, meter),
        }
    }

    pub(crate) fn scan_pair(
        &self,
        other: &Codes,
        op: CmpOp,
        need: &Mask,
        out: &mut Mask,
        meter: &mut Meter,
    )
        requires layout { layout_of other.now ≡ layout_of self.now }
        requires width { (list_of other.now).width ≡ (list_of self.now).width }
        requires other { count (list_of other.now) ≡ count (list_of self.now) }
        requires need { len need.now ≡ count (list_of self.now) }
        requires out { len out.old ≡ count (list_of self.now) }
        ensures shape { SameShape out.new out.old }
        ensures rows { (r : ℕ) → row_at out.new r ≡ (row_at need.now r && code_compares op (code_at (list_of self.now) r) (code_at (list_of other.now) r)) }
        ensures units { meter.new ≡ raised meter.old (units_of_pair (layout_of self.now) (list_of self.now).width (row_at need.now) (list_of self.now).codes (list_of other.now).codes) }
    {
        match (self, other) {
            (Codes::P(codes), Codes::P(others)) => codes.scan_pair(others, op, need, out, meter),
            (Codes::V(codes), Codes::V(others)) => codes.scan_pair(others, op, need, out, meter),
            (Codes::H(codes), Codes::H(others)) => codes.scan_pair(others, op, need, out, meter),
            (Codes::S(codes), Codes::S(others)) => codes.scan_pair(others, op, need, out, meter),
            _ => unreachable!(),
        }
    }

    /// Changes in place the base of the code of each row in `rows` from `from` to `to`, and the width of all codes to
    /// `width`.
    pub(crate) fn shift(&mut self, rows: &Mask, from: i64, to: i64, width: u32)
        requires here { ShiftsTo (layout_of self.old) (list_of self.old).width width }
        requires some { 1 ≤ width }
        requires narrow { width ≤ widest (layout_of self.old) }
        requires rows { len rows.now ≡ count (list_of self.old) }
        requires fit { (i : ℕ) → i < count (list_of self.old) → StaysBelow (2 ^ width) (shifted (from -ℤ to) (row_at rows.now i) (code_at (list_of self.old) i)) }
        ensures layout { layout_of self.new ≡ layout_of self.old }
        ensures width { (list_of self.new).width ≡ width }
        ensures count { count (list_of self.new) ≡ count (list_of self.old) }
        ensures codes { (i : ℕ) → i < count (list_of self.old) → pos (code_at (list_of self.new) i) ≡ shifted (from -ℤ to) (row_at rows.now i) (code_at (list_of self.old) i) }
        ensures room { (list_of self.old).room ≤ (list_of self.new).room }
    {
        match self {
            Codes::P(codes) => codes.shift(rows, from, to, width),
            Codes::V(codes) => codes.shift(rows, from, to),
            Codes::H(codes) => codes.shift(rows, from, to),
            Codes::S(codes) => codes.shift(rows, from, to),
        }
    }
}
