//! Columns of codes, in any layout.

ghost use Rattle.std.specs.Prelude.{[], IfOk, OnOk, drop, false, if◌then◌else◌, length, slice_set, take, true, ℕ, ◌%◌, ◌&&◌, ◌++◌, ◌+◌, ◌<◌, ◌^◌, ◌≡◌, ◌≤◌, ◌∷◌};
ghost use Rattle.bw_mask.specs.Masks.{bit_of, len, row_at, SameShape};
ghost use Rattle.bw_code.specs.declared.kind.Layout.{Layout};
ghost use Rattle.bw_code.specs.Columns.{code_at, count, filled_codes, put_codes, CodeList, Fit, KeepsShape};
ghost use Rattle.bw_code.specs.Meters.{raised};
ghost use Rattle.bw_code.specs.Tests.{code_compares, meets, TestFits};
ghost use Rattle.bw_code.specs.Units.{units_of_pair, units_of_scan};

use crate::compare::{CmpOp, CodeTest};
use crate::meter::Meter;
use bw_mask::{Mask, has_bit};
use std::alloc::{AllocError, Global};

/// A column of at most 16,777,216 codes, each below 2^width. Row i has code i.
pub trait CodeColumn: Sized {
    ghost layout: { Layout };

    ghost WIDEST: { ℕ };

    ghost seen: { Self → CodeList };

    /// The greatest width of the layout.
    const WIDEST: u32;

    /// An empty column.
    fn with_width(alloc: Global, width: u32) -> Result<Self, AllocError>
        requires some { 1 ≤ width }
        requires narrow { width ≤ WIDEST }
        ensures width { IfOk result (λ column. (seen column).width ≡ width) }
        ensures codes { IfOk result (λ column. (seen column).codes ≡ []) };

    /// Makes room for `more` further codes. The codes stay as they are, also where it runs out of memory.
    fn reserve(&mut self, more: usize) -> Result<(), AllocError>
        requires { count (seen self.old) + more ≤ 2 ^ 24 }
        ensures room { OnOk result (count (seen self.old) + more ≤ (seen self.new).room) }
        ensures shape { KeepsShape (seen self.new) (seen self.old) }
        ensures codes { (seen self.new).codes ≡ (seen self.old).codes };

    /// Appends a code, within the room.
    fn push(&mut self, code: u64)
        requires fits { code < 2 ^ (seen self.old).width }
        requires room { count (seen self.old) < (seen self.old).room }
        requires few { count (seen self.old) < 2 ^ 24 }
        ensures shape { KeepsShape (seen self.new) (seen self.old) }
        ensures codes { (seen self.new).codes ≡ (seen self.old).codes ++ code ∷ [] };

    /// Appends codes, within the room.
    fn extend(&mut self, codes: &[u64])
        requires fit { Fit (seen self.old).width codes.now }
        requires room { count (seen self.old) + length codes.now ≤ (seen self.old).room }
        requires few { count (seen self.old) + length codes.now ≤ 2 ^ 24 }
        ensures shape { KeepsShape (seen self.new) (seen self.old) }
        ensures codes { (seen self.new).codes ≡ (seen self.old).codes ++ codes.now };

    /// The number of codes.
    fn len(&self) -> usize
        ensures count { result ≡ count (seen self.now) }
        ensures few { result ≤ 2 ^ 24 };

    /// The width of a code in bits. All codes fit it.
    fn width(&self) -> u32
        ensures width { result ≡ (seen self.now).width }
        ensures fit { Fit (seen self.now).width (seen self.now).codes }
        ensures some { 1 ≤ result }
        ensures narrow { result ≤ WIDEST };

    /// Code i.
    fn get(&self, i: usize) -> u64
        requires { i < count (seen self.now) }
        ensures code { result ≡ code_at (seen self.now) i }
        ensures fits { result < 2 ^ (seen self.now).width };

    /// Replaces code i.
    fn set(&mut self, i: usize, code: u64)
        requires there { i < count (seen self.old) }
        requires fits { code < 2 ^ (seen self.old).width }
        ensures shape { KeepsShape (seen self.new) (seen self.old) }
        ensures codes { (seen self.new).codes ≡ slice_set (seen self.old).codes i code };

    /// Writes codes to some of at most 64 rows from row `at` on, the first row of a word: row at + i takes code i where
    /// bit i of `rows` is set. Every other row keeps its code.
    fn put_run(&mut self, at: usize, rows: u64, codes: &[u64])
        requires word { at % 64 ≡ 0 }
        requires few { length codes.now ≤ 64 }
        requires there { at + length codes.now ≤ count (seen self.old) }
        requires given { (i : ℕ) → length codes.now ≤ i → bit_of rows i ≡ false }
        requires fit { Fit (seen self.old).width codes.now }
        ensures shape { KeepsShape (seen self.new) (seen self.old) }
        ensures codes { (seen self.new).codes ≡ put_codes (seen self.old).codes at rows codes.now }
    {
        for i in 0..codes.len() {
            if has_bit(rows, i) {
                self.set(at + i, codes[i]);
            }
        }
    }

    /// Writes one code to some of 64 rows from row `at` on, the first row of a word: to row at + i where bit i of
    /// `rows` is set. Every other row keeps its code.
    fn fill_run(&mut self, at: usize, rows: u64, code: u64)
        requires word { at % 64 ≡ 0 }
        requires inside { at ≤ count (seen self.old) }
        requires there { (i : ℕ) → bit_of rows i ≡ true → at + i < count (seen self.old) }
        requires fits { code < 2 ^ (seen self.old).width }
        ensures shape { KeepsShape (seen self.new) (seen self.old) }
        ensures codes { (seen self.new).codes ≡ filled_codes (seen self.old).codes at rows code }
    {
        for i in 0..64 {
            if has_bit(rows, i) {
                self.set(at + i, code);
            }
        }
    }

    /// The code of each of the rows becomes this one. Takes no memory.
    fn fill_rows(&mut self, rows: &Mask, code: u64)
        requires rows { len rows.now ≡ count (seen self.old) }
        requires fits { code < 2 ^ (seen self.old).width }
        ensures shape { KeepsShape (seen self.new) (seen self.old) }
        ensures count { count (seen self.new) ≡ count (seen self.old) }
        ensures codes { (i : ℕ) → i < count (seen self.old) → code_at (seen self.new) i
            ≡ (if row_at rows.now i then code else code_at (seen self.old) i) }
    {
        let end = self.len();
        let mut at = 0;
        while at < end {
            let n = (end - at).min(64);
            self.fill_run(at, rows.bits(at, n), code);
            at += n;
        }
    }

    /// The codes of the rows of this column and of another one of the same width are exchanged. Takes no memory.
    fn exchange_rows(&mut self, other: &mut Self, rows: &Mask)
        requires width { (seen other.old).width ≡ (seen self.old).width }
        requires other { count (seen other.old) ≡ count (seen self.old) }
        requires rows { len rows.now ≡ count (seen self.old) }
        ensures shape { KeepsShape (seen self.new) (seen self.old) }
        ensures other_shape { KeepsShape (seen other.new) (seen other.old) }
        ensures count { count (seen self.new) ≡ count (seen self.old) }
        ensures other_count { count (seen other.new) ≡ count (seen other.old) }
        ensures codes { (i : ℕ) → i < count (seen self.old) → code_at (seen self.new) i
            ≡ (if row_at rows.now i then code_at (seen other.old) i else code_at (seen self.old) i) }
        ensures others { (i : ℕ) → i < count (seen self.old) → code_at (seen other.new) i
            ≡ (if row_at rows.now i then code_at (seen self.old) i else code_at (seen other.old) i) }
    {
        let mut own_list = [0; 64];
        let mut other_list = [0; 64];
        let end = self.len();
        let mut at = 0;
        while at < end {
            let n = (end - at).min(64);
            let chosen = rows.bits(at, n);
            let own = &mut own_list[..n];
            self.read(at, own);
            let others = &mut other_list[..n];
            other.read(at, others);
            self.put_run(at, chosen, others);
            other.put_run(at, chosen, own);
            at += n;
        }
    }

    /// Fills `out` with the codes from row `at` on.
    fn read(&self, at: usize, out: &mut [u64])
        requires { at + length out.old ≤ count (seen self.now) }
        ensures codes { out.new ≡ take (length out.old) (drop at (seen self.now).codes) }
        ensures fit { Fit (seen self.now).width out.new };

    /// `out` becomes the rows whose code has bit i set. Bit 0 is the lowest.
    fn plane(&self, i: u32, out: &mut Mask)
        requires bit { i < (seen self.now).width }
        requires out { len out.old ≡ count (seen self.now) }
        ensures shape { SameShape out.new out.old }
        ensures rows { (r : ℕ) → row_at out.new r ≡ bit_of (code_at (seen self.now) r) i };

    /// `out` becomes the needed rows whose code meets the test. The units that this reads in the
    /// column's layout are added to the meter.
    fn scan(&self, test: CodeTest, need: &Mask, out: &mut Mask, meter: &mut Meter)
        requires test { TestFits (seen self.now).width test }
        requires need { len need.now ≡ count (seen self.now) }
        requires out { len out.old ≡ count (seen self.now) }
        ensures shape { SameShape out.new out.old }
        ensures rows { (r : ℕ) → row_at out.new r ≡ (row_at need.now r && meets test (code_at (seen self.now) r)) }
        ensures units { meter.new ≡ raised meter.old (units_of_scan layout (seen self.now).width test (row_at need.now) (seen self.now).codes) };

    /// `out` becomes the needed rows whose codes in both columns satisfy the comparison, this column's on the left. The
    /// units that this reads of both in their layout are added to the meter.
    fn scan_pair(&self, other: &Self, op: CmpOp, need: &Mask, out: &mut Mask, meter: &mut Meter)
        requires width { (seen other.now).width ≡ (seen self.now).width }
        requires other { count (seen other.now) ≡ count (seen self.now) }
        requires need { len need.now ≡ count (seen self.now) }
        requires out { len out.old ≡ count (seen self.now) }
        ensures shape { SameShape out.new out.old }
        ensures rows { (r : ℕ) → row_at out.new r ≡ (row_at need.now r && code_compares op (code_at (seen self.now) r) (code_at (seen other.now) r)) }
        ensures units { meter.new ≡ raised meter.old (units_of_pair layout (seen self.now).width (row_at need.now) (seen self.now).codes (seen other.now).codes) };
}
