//! A plain list of codes of 64 bits.

ghost use Rattle.std.specs.Prelude.{All, length, slice_index, vec_capacity, vec_len, ℕ, ◌&&◌, ◌++◌, ◌+◌, ◌<◌, ◌^◌, ◌≡◌, ◌≤◌};
ghost use Rattle.bw_mask.specs.Masks.{bit_of, len, row_at, SameShape};
ghost use Rattle.bw_code.specs.Intervals.{is_in_wide as is_in};
ghost use Rattle.bw_code.specs.Widths.{widest_code};
ghost use Rattle.bw_code.specs.declared.kind.Layout.TheVariants as layouts;

use crate::column::CodeColumn;
use crate::compare::{CmpOp, CodeTest};
use crate::meter::Meter;
use crate::narrow_codes::units;
use crate::shift::shift_wide_codes;
use crate::wide_lanes::{self, WideInterval, filled_up};
use crate::{plain_pair, wide_pair, wide_run};
use bw_mask::Mask;
use std::alloc::{AllocError, Global};
use std::marker::Model;

/// A plain list of codes of 64 bits.
#[derive(Drop)]
pub struct WideCodes {
    width: u32,
    codes: Vec<u64>,
}

impl Model for WideCodes {
    ghost use Rattle.std.specs.Prelude.{vec_capacity};
    ghost use Rattle.bw_code.specs.Columns.{CodeList, AreWide};

    ghost Value = { CodeList };

    ghost view = { λ p. record { width = p.width; codes = p.codes.items; room = vec_capacity p.codes } };

    ghost invariant = { λ p. AreWide p.width p.codes.items };
}

impl CodeColumn for WideCodes {
    ghost layout = { layouts.P };

    ghost WIDEST = { widest_code };

    ghost seen = { λ p. p };

    const WIDEST: u32 = 64;

    fn with_width(alloc: Global, width: u32) -> Result<WideCodes, AllocError> {
        Ok(WideCodes {
            width,
            codes: Vec::new(alloc),
        })
    }

    fn reserve(&mut self, more: usize) -> Result<(), AllocError> {
        self.codes.reserve(more)
    }

    fn push(&mut self, code: u64) {
        let Ok(()) = self.codes.push(code) else {
            unreachable!()
        };
    }

    fn extend(&mut self, codes: &[u64]) {
        append(&mut self.codes, codes);
    }

    fn len(&self) -> usize {
        self.codes.len()
    }

    fn width(&self) -> u32 {
        self.width
    }

    fn get(&self, i: usize) -> u64 {
        self.codes[i]
    }

    fn set(&mut self, i: usize, code: u64) {
        let codes = &mut self.codes;
        codes[i] = code;
    }

    fn put_run(&mut self, at: usize, rows: u64, codes: &[u64]) {
        wide_run::put_run(&mut self.codes, at, rows, codes);
    }

    fn fill_run(&mut self, at: usize, rows: u64, code: u64) {
        wide_run::fill_run(&mut self.codes, at, rows, code);
    }

    fn read(&self, at: usize, out: &mut [u64]) {
        out.copy_from_slice(&self.codes[at..at + out.len()]);
    }

    fn plane(&self, i: u32, out: &mut Mask) {
        rows_with_bit(&self.codes, i, out);
    }

    fn scan(&self, test: CodeTest, need: &Mask, out: &mut Mask, meter: &mut Meter) {
        match test {
            CodeTest::None => {
                out.and_in(need);
                out.andnot_in(need);
            }
            CodeTest::All => {
                out.or_in(need);
                out.and_in(need);
            }
            CodeTest::Cmp(..) | CodeTest::Range(..) => {
                rows_in(&self.codes, WideInterval::of(test), need, out);
            }
        }
        meter.add(units(test, need));
    }

    fn scan_pair(
        &self,
        other: &WideCodes,
        op: CmpOp,
        need: &Mask,
        out: &mut Mask,
        meter: &mut Meter,
    ) {
        wide_pair::compare_rows(op, &self.codes, &other.codes, need, out);
        meter.add(plain_pair::units(need));
    }
}

impl WideCodes {
    ghost use Rattle.std.specs.Prelude.{pos, ◌-ℤ◌};
    ghost use Rattle.bw_code.specs.Columns.{code_at, count};
    ghost use Rattle.bw_code.specs.Shifts.{shifted, StaysBelow};

    /// The codes as they lie in memory.
    pub(crate) fn codes(&self) -> &[u64]
        ensures { result.now ≡ self.now.codes }
    {
        &self.codes
    }

    /// Changes the base of the code of each row in `rows` from `from` to `to`, and the width of all codes to `width`.
    /// Takes no memory.
    pub(crate) fn shift(&mut self, rows: &Mask, from: i64, to: i64, width: u32)
        requires some { 1 ≤ width }
        requires narrow { width ≤ widest_code }
        requires fit { (i : ℕ) → i < count self.old → StaysBelow (2 ^ width) (shifted (from -ℤ to) (row_at rows.now i) (code_at self.old i)) }
        ensures width { self.new.width ≡ width }
        ensures count { count self.new ≡ count self.old }
        ensures codes { (i : ℕ) → i < count self.old → pos (code_at self.new i) ≡ shifted (from -ℤ to) (row_at rows.now i) (code_at self.old i) }
        ensures room { self.old.room ≤ self.new.room }
    {
        shift_wide_codes(&mut self.codes, rows, from, to);
        self.width = width;
    }
}

/// Appends codes, within the capacity.
fn append(kept: &mut Vec<u64>, codes: &[u64])
    requires room { vec_len kept.old + length codes.now ≤ vec_capacity kept.old }
    ensures capacity { vec_capacity kept.old ≤ vec_capacity kept.new }
    ensures items { kept.new.items ≡ kept.old.items ++ codes.now }
{
    let len = kept.len();
    let Ok(()) = kept.resize(len + codes.len(), 0) else {
        unreachable!()
    };
    kept[len..].copy_from_slice(codes);
}

/// Which of 64 rows are needed and have codes in the interval.
fn chosen(codes: &[u64], interval: WideInterval, needed: u64) -> u64
    requires { 64 ≤ length codes.now }
    ensures { (i : ℕ) → i < 64 → bit_of result i ≡ (bit_of needed i && is_in interval (slice_index codes.now i)) }
{
    if needed == 0 {
        0
    } else {
        needed & interval.rows(codes)
    }
}

/// `out` becomes the needed rows whose codes are in the interval.
fn rows_in(codes: &[u64], interval: WideInterval, need: &Mask, out: &mut Mask)
    requires few { length codes.now ≤ 2 ^ 24 }
    requires need { len need.now ≡ length codes.now }
    requires out { len out.old ≡ length codes.now }
    ensures shape { SameShape out.new out.old }
    ensures rows { (r : ℕ) → row_at out.new r ≡ (row_at need.now r && is_in interval (slice_index codes.now r)) }
{
    let blocks = codes.len() / 64;
    for q in 0..blocks {
        let found = chosen(&codes[64 * q..], interval, need.bits(64 * q, 64));
        out.put_word(q, found);
    }
    let at = 64 * blocks;
    let found = chosen(&filled_up(&codes[at..]), interval, need.bits(at, 64));
    out.put_word(blocks, found);
}

/// `out` becomes the rows whose code has bit i set.
fn rows_with_bit(codes: &[u64], i: u32, out: &mut Mask)
    requires few { length codes.now ≤ 2 ^ 24 }
    requires bit { i < 64 }
    requires out { len out.old ≡ length codes.now }
    ensures shape { SameShape out.new out.old }
    ensures rows { (r : ℕ) → row_at out.new r ≡ bit_of (slice_index codes.now r) i }
{
    let blocks = codes.len() / 64;
    for q in 0..blocks {
        out.put_word(q, wide_lanes::rows_with_bit(&codes[64 * q..], i));
    }
    let rest = filled_up(&codes[64 * blocks..]);
    out.put_word(blocks, wide_lanes::rows_with_bit(&rest, i));
}
