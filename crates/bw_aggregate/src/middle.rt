//! The lower median, found in the planes of the codes, in place or in copies, or by digits.

ghost use Rattle.std.specs.Prelude.{All, IfOk, List, Some, length, ℕ, ◌-◌, ◌/◌, ◌<◌, ◌^◌, ◌≡◌, ◌≤◌};
ghost use Rattle.std.specs.List.{items_where_true};
ghost use Rattle.bw_mask.specs.Masks.{len};
ghost use Rattle.bw_code.specs.Encodings.{width};
ghost use Rattle.bw_code.specs.Units.{segments_of};
ghost use Rattle.bw_column.specs.Codes.{codes_for};
ghost use Rattle.bw_column.specs.Values.{IsNullOrHeld};
ghost use Rattle.bw_cells.specs.SetFunctions.{median};
ghost use Rattle.bw_code.specs.Widths.{widest_code};
ghost use Rattle.bw_aggregate.specs.Chosen.{AreKnownRows, chosen};
ghost use Rattle.bw_aggregate.specs.Descending.{IsDescent};
ghost use Rattle.bw_aggregate.specs.Descents.{IsNthCode};

use crate::descent::Descent;
use crate::nth_code::nth_code;
use crate::plane::{GroupPlane, Plane};
use crate::segments::Left;
use bw_code::CodeColumn;
use bw_column::{Column, Storage};
use bw_mask::Mask;
use bw_vertical::VerticalColumn;
use std::alloc::{AllocError, Global};

/// Takes the descent down all planes in place, from the top.
fn descend_in_place(codes: &VerticalColumn, descent: &mut Descent)
    requires { codes.now.width ≤ widest_code }
    ensures { (held : List ℕ) (n : ℕ) → IsDescent codes.now.codes held n codes.now.width descent.old → IsDescent codes.now.codes held n 0 descent.new }
{
    let width = codes.width();
    'planes: for i in 0..width {
        let plane = GroupPlane::of(codes, i as usize);
        descent.step(&Plane::InPlace(plane));
    }
}

/// Takes the descent down copies of all planes, from the top.
fn descend_in_copies(column: &Column, bits: u32, descent: &mut Descent, copy: &mut Mask)
    requires bits { bits ≡ width column.now.encoding }
    requires copy { len copy.old ≡ length column.now.values }
    ensures { (held : List ℕ) (n : ℕ) → IsDescent (codes_for column.now.encoding column.now.values) held n bits descent.old → IsDescent (codes_for column.now.encoding column.now.values) held n 0 descent.new }
{
    'planes: for i in (0..bits).rev() {
        column.plane(i, copy);
        descent.step(&Plane::Copied(copy.words()));
    }
}

/// Takes the descent down all planes.
fn descended(
    alloc: Global,
    column: &Column,
    bits: u32,
    mut descent: Descent,
) -> Result<Descent, AllocError>
    requires { bits ≡ width column.now.encoding }
    ensures { IfOk result (λ end. (held : List ℕ) (n : ℕ) → IsDescent (codes_for column.now.encoding column.now.values) held n bits descent
        → IsDescent (codes_for column.now.encoding column.now.values) held n 0 end) }
{
    match column.storage() {
        Storage::V(codes) => {
            descend_in_place(codes, &mut descent);
            Ok(descent)
        }
        _ => {
            let mut copy = Mask::filled(alloc, column.len(), false)?;
            descend_in_copies(column, bits, &mut descent, &mut copy);
            Ok(descent)
        }
    }
}

/// The code of the lower median of the rows, found plane by plane. `segments` is the column's number of segments.
fn code_by_planes(
    alloc: Global,
    column: &Column,
    rows: &Mask,
    segments: u32,
    count: usize,
) -> Result<u64, AllocError>
    requires len { len rows.now ≡ length column.now.values }
    requires count { count ≡ length (items_where_true rows.now.rows (codes_for column.now.encoding column.now.values)) }
    requires some { 0 < count }
    requires few { length column.now.values ≤ 2 ^ 24 }
    requires segments { segments ≡ segments_of 256 (length column.now.values) }
    ensures { IfOk result (IsNthCode (items_where_true rows.now.rows (codes_for column.now.encoding column.now.values)) ((count - 1) / 2)) }
{
    let bits = column.encoding().width();
    let left = Left::of(alloc, rows, segments)?;
    let descent = Descent::from_top(left, count, (count - 1) / 2);
    Ok(descended(alloc, column, bits, descent)?.code())
}

/// The code of the lower median of the rows; `count` is their number, at least 1, and `segments` the column's number of
/// segments. Uses planes if they are stored or cheap to make, and else digits.
fn median_code(
    alloc: Global,
    column: &Column,
    rows: &Mask,
    segments: u32,
    count: usize,
) -> Result<u64, AllocError>
    requires len { len rows.now ≡ length column.now.values }
    requires count { count ≡ length (items_where_true rows.now.rows (codes_for column.now.encoding column.now.values)) }
    requires some { 0 < count }
    requires few { length column.now.values ≤ 2 ^ 24 }
    requires segments { segments ≡ segments_of 256 (length column.now.values) }
    ensures { IfOk result (IsNthCode (items_where_true rows.now.rows (codes_for column.now.encoding column.now.values)) ((count - 1) / 2)) }
{
    match column.storage() {
        Storage::P(codes) => nth_code(alloc, codes, rows, (count - 1) / 2),
        Storage::H(codes) => nth_code(alloc, codes, rows, (count - 1) / 2),
        Storage::V(_) | Storage::S(_) => code_by_planes(alloc, column, rows, segments, count),
    }
}

/// The lower median of the values of the rows; `count` is their number, at least 1. None of them is NULL.
pub(crate) fn median_of(
    alloc: Global,
    column: &Column,
    known: &Mask,
    segments: u32,
    count: usize,
) -> Result<i64, AllocError>
    requires known { AreKnownRows column.now known.now known.now }
    requires len { len known.now ≡ length column.now.values }
    requires count { count ≡ length (chosen column.now known.now) }
    requires some { 0 < count }
    requires few { length column.now.values ≤ 2 ^ 24 }
    requires held { All (IsNullOrHeld column.now.layout) column.now.values }
    requires segments { segments ≡ segments_of 256 (length column.now.values) }
    ensures { IfOk result (λ value. Some value ≡ median (chosen column.now known.now)) }
{
    let encoding = column.encoding();
    let code = median_code(alloc, column, known, segments, count)?;
    Ok(encoding.decode(code))
}
