//! The plain layout: a list of codes.

ghost use Rattle.std.specs.Prelude.{pos, ℕ, ◌-ℤ◌, ◌<◌, ◌^◌, ◌↔◌, ◌≡◌, ◌≤◌};
ghost use Rattle.bw_mask.specs.Masks.{row_at};
ghost use Rattle.bw_code.specs.Widths.{widest_code, widest_half};
ghost use Rattle.bw_code.specs.declared.kind.Layout.TheVariants as layouts;

use crate::column::CodeColumn;
use crate::compare::{CmpOp, CodeTest};
use crate::lent_codes::LentCodes;
use crate::meter::Meter;
use crate::narrow_codes::NarrowCodes;
use crate::wide_codes::WideCodes;
use bw_mask::Mask;
use std::alloc::{AllocError, Global};
use std::marker::Model;

/// Codes of 4 bytes each, or of 8 bytes each.
#[derive(Drop)]
pub(crate) enum PlainCodes {
    Narrow(NarrowCodes),
    Wide(WideCodes),
}

/// A plain list of codes: of 4 bytes each where they have at most 32 bits, else of 8.
#[derive(Drop)]
pub struct PlainColumn {
    codes: PlainCodes,
}

impl Model for PlainColumn {
    ghost use Rattle.bw_code.specs.Columns.{CodeList};
    ghost use Rattle.bw_code.specs.Plain.{plain_list, ArePlainCodes};

    ghost Value = { CodeList };

    ghost view = { λ p. plain_list p.codes };

    ghost invariant = { λ p. ArePlainCodes p.codes };
}

impl CodeColumn for PlainColumn {
    ghost layout = { layouts.P };

    ghost WIDEST = { widest_code };

    ghost seen = { λ p. p };

    const WIDEST: u32 = 64;

    fn with_width(alloc: Global, width: u32) -> Result<PlainColumn, AllocError> {
        let codes = if width <= 32 {
            PlainCodes::Narrow(NarrowCodes::with_width(alloc, width)?)
        } else {
            PlainCodes::Wide(WideCodes::with_width(alloc, width)?)
        };
        Ok(PlainColumn { codes })
    }

    fn reserve(&mut self, more: usize) -> Result<(), AllocError> {
        match &mut self.codes {
            PlainCodes::Narrow(codes) => codes.reserve(more),
            PlainCodes::Wide(codes) => codes.reserve(more),
        }
    }

    fn push(&mut self, code: u64) {
        match &mut self.codes {
            PlainCodes::Narrow(codes) => codes.push(code),
            PlainCodes::Wide(codes) => codes.push(code),
        }
    }

    fn extend(&mut self, codes: &[u64]) {
        match &mut self.codes {
            PlainCodes::Narrow(own) => own.extend(codes),
            PlainCodes::Wide(own) => own.extend(codes),
        }
    }

    fn len(&self) -> usize {
        match &self.codes {
            PlainCodes::Narrow(codes) => codes.len(),
            PlainCodes::Wide(codes) => codes.len(),
        }
    }

    fn width(&self) -> u32 {
        match &self.codes {
            PlainCodes::Narrow(codes) => codes.width(),
            PlainCodes::Wide(codes) => codes.width(),
        }
    }

    fn get(&self, i: usize) -> u64 {
        match &self.codes {
            PlainCodes::Narrow(codes) => codes.get(i),
            PlainCodes::Wide(codes) => codes.get(i),
        }
    }

    fn set(&mut self, i: usize, code: u64) {
        match &mut self.codes {
            PlainCodes::Narrow(codes) => codes.set(i, code),
            PlainCodes::Wide(codes) => codes.set(i, code),
        }
    }

    fn put_run(&mut self, at: usize, rows: u64, codes: &[u64]) {
        match &mut self.codes {
            PlainCodes::Narrow(own) => own.put_run(at, rows, codes),
            PlainCodes::Wide(own) => own.put_run(at, rows, codes),
        }
    }

    fn fill_run(&mut self, at: usize, rows: u64, code: u64) {
        match &mut self.codes {
            PlainCodes::Narrow(codes) => codes.fill_run(at, rows, code),
            PlainCodes::Wide(codes) => codes.fill_run(at, rows, code),
        }
    }

    fn read(&self, at: usize, out: &mut [u64]) {
        match &self.codes {
            PlainCodes::Narrow(codes) => codes.read(at, out),
            PlainCodes::Wide(codes) => codes.read(at, out),
        }
    }

    fn plane(&self, i: u32, out: &mut Mask) {
        match &self.codes {
            PlainCodes::Narrow(codes) => codes.plane(i, out),
            PlainCodes::Wide(codes) => codes.plane(i, out),
        }
    }

    fn scan(&self, test: CodeTest, need: &Mask, out: &mut Mask, meter: &mut Meter) {
        match &self.codes {
            PlainCodes::Narrow(codes) => codes.scan(test, need, out, meter),
            PlainCodes::Wide(codes) => codes.scan(test, need, out, meter),
        }
    }

    fn scan_pair(
        &self,
        other: &PlainColumn,
        op: CmpOp,
        need: &Mask,
        out: &mut Mask,
        meter: &mut Meter,
    ) {
        match (&self.codes, &other.codes) {
            (PlainCodes::Narrow(a), PlainCodes::Narrow(b)) => a.scan_pair(b, op, need, out, meter),
            (PlainCodes::Wide(a), PlainCodes::Wide(b)) => a.scan_pair(b, op, need, out, meter),
            _ => unreachable!(),
        }
    }
}

impl PlainColumn {
    ghost use Rattle.bw_code.specs.Columns.{code_at, count};
    ghost use Rattle.bw_code.specs.Plain.{codes_lent, IsLentAs};
    ghost use Rattle.bw_code.specs.Shifts.{shifted, StaysBelow};

    /// The codes as they lie in memory.
    pub fn lent(&self) -> LentCodes<'_>
        ensures codes { codes_lent result ≡ self.now.codes }
        ensures form { IsLentAs self.now.width result }
    {
        match &self.codes {
            PlainCodes::Narrow(codes) => LentCodes::Narrow(codes.codes()),
            PlainCodes::Wide(codes) => LentCodes::Wide(codes.codes()),
        }
    }

    /// Changes the base of the code of each row in `rows` from `from` to `to`, and the width of all codes to `width`;
    /// they take as many bytes as before. Takes no memory.
    pub fn shift(&mut self, rows: &Mask, from: i64, to: i64, width: u32)
        requires some { 1 ≤ width }
        requires narrow { width ≤ widest_code }
        requires bytes { (width ≤ widest_half) ↔ (self.old.width ≤ widest_half) }
        requires fit { (i : ℕ) → i < count self.old → StaysBelow (2 ^ width) (shifted (from -ℤ to) (row_at rows.now i) (code_at self.old i)) }
        ensures width { self.new.width ≡ width }
        ensures count { count self.new ≡ count self.old }
        ensures codes { (i : ℕ) → i < count self.old → pos (code_at self.new i) ≡ shifted (from -ℤ to) (row_at rows.now i) (code_at self.old i) }
        ensures room { self.old.room ≤ self.new.room }
    {
        match &mut self.codes {
            PlainCodes::Narrow(codes) => codes.shift(rows, from, to, width),
            PlainCodes::Wide(codes) => codes.shift(rows, from, to, width),
        }
    }
}
