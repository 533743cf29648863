//! Units of scans, computed by a plain program that evaluates the definitions row by row.

ghost use Rattle.std.specs.Prelude.{IfOk, length, slice_index, vec_len, if◌then◌else◌, max, ℕ, ◌*◌, ◌+◌, ◌<◌, ◌^◌, ◌≡◌, ◌≤◌};
ghost use Rattle.bw_mask.specs.Masks.{len, row_at};
ghost use Rattle.bw_code.specs.declared.compare.CodeTest.TheVariants.{Range};
ghost use Rattle.bw_code.specs.Units.{agreement, cost_of, segmentation, segments_of, some_below, sum_below, units_of_addition, units_of_fetches, units_of_pair, units_of_scan};

use bw_code::{CodeTest, Layout};
use bw_mask::Mask;
use std::alloc::{AllocError, Global};

/// How many leading digits of two numbers are equal, of this many.
fn agreement(base: u128, digits: u32, x: u128, y: u128) -> u64
    requires { 0 < base }
    ensures agreement { result ≡ agreement base digits x y }
    ensures most { result ≤ digits }
{
    let (mut x_rest, mut y_rest, mut agreed) = (x, y, 0);
    for i in 0..digits {
        agreed = if x_rest % base == y_rest % base {
            agreed + 1
        } else {
            0
        };
        x_rest /= base;
        y_rest /= base;
    }
    agreed
}

/// The agreement of two codes in a layout.
fn agree(layout: Layout, width: u32, x: u64, y: u64) -> u64
    requires { width ≤ 64 }
    ensures { result ≡ (segmentation layout width).agree x y }
{
    let (x, y) = (u128::from(x), u128::from(y));
    match layout {
        Layout::P | Layout::H => 0,
        Layout::V => agreement(2, width, x, y),
        Layout::S => {
            let bytes = width.div_ceil(8);
            let up = 8 * bytes - width;
            agreement(256, bytes, x << up, y << up)
        }
    }
}

/// The rows of a segment.
pub(crate) fn rows_of(layout: Layout, width: u32) -> usize
    requires { width ≤ 64 }
    ensures rows { result ≡ (segmentation layout width).rows }
    ensures few { result ≤ 256 }
{
    match layout {
        Layout::P => 1,
        Layout::V => 256,
        Layout::H => (width as usize + 1) * (64 / (width as usize + 1)),
        Layout::S => 32,
    }
}

/// The units of a segment with a needed row, by the greatest agreement.
fn cost(layout: Layout, width: u32, agreed: u64) -> u64
    requires { width ≤ 64 }
    ensures cost { result ≡ (segmentation layout width).cost agreed }
    ensures most { result ≤ 65 }
{
    let width = u64::from(width);
    match layout {
        Layout::P => 1,
        Layout::V => width.min((agreed / 4 + 1).saturating_mul(4)),
        Layout::H => width + 1,
        Layout::S => width.div_ceil(8).min(agreed.saturating_add(1)),
    }
}

/// Whether a row is needed; none past the end is.
fn is_needed(need: &Mask, row: usize) -> bool
    ensures { result ≡ row_at need.now row }
{
    row < need.len() && need.get(row)
}

/// The agreement of a row, if it is needed.
fn agreed_at(agreed: &[u64], row: usize, is_needed: bool) -> u64
    requires { length agreed.now < 2 ^ 62 }
    ensures { result ≡ (if is_needed then slice_index agreed.now row else 0) }
{
    if is_needed && row < agreed.len() {
        agreed[row]
    } else {
        0
    }
}

fn greater(a: u64, b: u64) -> u64
    ensures { result ≡ max a b }
{
    a.max(b)
}

/// The units of segment q, by the agreements of its rows.
fn segment_units(layout: Layout, width: u32, need: &Mask, agreed: &[u64], q: usize) -> u64
    requires width { width ≤ 64 }
    requires few { q < 2 ^ 32 }
    requires agreed { length agreed.now < 2 ^ 32 }
    ensures units { result ≡ (let cut = segmentation layout width in cost_of cut (λ j. row_at need.now (cut.rows * q + j)) (λ j. slice_index agreed.now (cut.rows * q + j))) }
    ensures most { result ≤ 65 }
{
    let rows = rows_of(layout, width);
    let mut is_some = false;
    let mut greatest = 0;
    for j in 0..rows {
        let needed = is_needed(need, rows * q + j);
        is_some |= needed;
        greatest = greater(greatest, agreed_at(agreed, rows * q + j, needed));
    }
    if is_some {
        cost(layout, width, greatest)
    } else {
        0
    }
}

/// The units of all segments, by the agreements of the rows.
fn column_units(layout: Layout, width: u32, need: &Mask, agreed: &[u64]) -> u64
    requires width { width ≤ 64 }
    requires rows { 1 ≤ (segmentation layout width).rows }
    requires few { len need.now ≤ 2 ^ 24 }
    requires agreed { length agreed.now ≡ len need.now }
    ensures units { result ≡ (let cut = segmentation layout width in sum_below (segments_of cut.rows (len need.now)) (λ q. cost_of cut (λ j. row_at need.now (cut.rows * q + j)) (λ j. slice_index agreed.now (cut.rows * q + j)))) }
    ensures most { result ≤ 2 ^ 40 }
{
    let mut units = 0;
    for q in 0..need.len().div_ceil(rows_of(layout, width)) {
        units += segment_units(layout, width, need, agreed, q);
    }
    units
}

/// The agreements of codes with a constant, or with the closer of two.
fn agreements(
    alloc: Global,
    layout: Layout,
    width: u32,
    codes: &[u64],
    low: u64,
    high: u64,
) -> Result<Vec<u64>, AllocError>
    requires width { width ≤ 64 }
    ensures count { IfOk result (λ agreed. vec_len agreed ≡ length codes.now) }
    ensures agreed { IfOk result (λ agreed. (i : ℕ) → i < length codes.now → slice_index agreed.items i ≡
        max ((segmentation layout width).agree (slice_index codes.now i) low) ((segmentation layout width).agree (slice_index codes.now i) high)) }
{
    let mut agreed = Vec::new(alloc);
    for code in codes {
        let with_low = agree(layout, width, *code, low);
        agreed.push(with_low.max(agree(layout, width, *code, high)))?;
    }
    Ok(agreed)
}

/// The agreements of codes with those of another column.
fn pair_agreements(
    alloc: Global,
    layout: Layout,
    width: u32,
    codes: &[u64],
    others: &[u64],
) -> Result<Vec<u64>, AllocError>
    requires width { width ≤ 64 }
    requires count { length others.now ≡ length codes.now }
    ensures count { IfOk result (λ agreed. vec_len agreed ≡ length codes.now) }
    ensures agreed { IfOk result (λ agreed. (i : ℕ) → i < length codes.now → slice_index agreed.items i ≡ (segmentation layout width).agree (slice_index codes.now i) (slice_index others.now i)) }
{
    let mut agreed = Vec::new(alloc);
    for i in 0..codes.len() {
        agreed.push(agree(layout, width, codes[i], others[i]))?;
    }
    Ok(agreed)
}

/// The units of one scan for a range.
fn range_units(
    alloc: Global,
    layout: Layout,
    width: u32,
    low: u64,
    high: u64,
    need: &Mask,
    codes: &[u64],
) -> Result<u64, AllocError>
    requires width { width ≤ 64 }
    requires rows { 1 ≤ (segmentation layout width).rows }
    requires few { len need.now ≤ 2 ^ 24 }
    requires count { length codes.now ≡ len need.now }
    ensures { IfOk result (λ units. units ≡ units_of_scan layout width (Range low high) (row_at need.now) codes.now) }
{
    let agreed = agreements(alloc, layout, width, codes, low, high)?;
    Ok(column_units(layout, width, need, &agreed))
}

/// The units of one scan.
pub(crate) fn scan_units(
    alloc: Global,
    layout: Layout,
    width: u32,
    test: CodeTest,
    need: &Mask,
    codes: &[u64],
) -> Result<u64, AllocError>
    requires width { width ≤ 64 }
    requires rows { 1 ≤ (segmentation layout width).rows }
    requires few { len need.now ≤ 2 ^ 24 }
    requires count { length codes.now ≡ len need.now }
    ensures { IfOk result (λ units. units ≡ units_of_scan layout width test (row_at need.now) codes.now) }
{
    match test {
        CodeTest::None | CodeTest::All => Ok(0),
        CodeTest::Cmp(_, constant) => {
            range_units(alloc, layout, width, constant, constant, need, codes)
        }
        CodeTest::Range(low, high) => range_units(alloc, layout, width, low, high, need, codes),
    }
}

/// The units of a scan of two columns.
pub(crate) fn pair_units(
    alloc: Global,
    layout: Layout,
    width: u32,
    need: &Mask,
    codes: &[u64],
    others: &[u64],
) -> Result<u64, AllocError>
    requires width { width ≤ 64 }
    requires rows { 1 ≤ (segmentation layout width).rows }
    requires few { len need.now ≤ 2 ^ 24 }
    requires count { length codes.now ≡ len need.now }
    requires others_count { length others.now ≡ len need.now }
    ensures { IfOk result (λ units. units ≡ units_of_pair layout width (row_at need.now) codes.now others.now) }
{
    let agreed = pair_agreements(alloc, layout, width, codes, others)?;
    Ok(2 * column_units(layout, width, need, &agreed))
}

/// Whether any row is needed.
fn is_some_needed(need: &Mask) -> bool
    ensures { result ≡ some_below (len need.now) (row_at need.now) }
{
    let mut is_some = false;
    for row in 0..need.len() {
        is_some |= is_needed(need, row);
    }
    is_some
}

/// The units of comparing two columns by adding their bases.
pub(crate) fn addition_units(width: u32, other_width: u32, need: &Mask) -> u64
    requires width { width ≤ 64 }
    requires other_width { other_width ≤ 64 }
    ensures { result ≡ units_of_addition width other_width (row_at need.now) (len need.now) }
{
    if is_some_needed(need) {
        u64::from(width + other_width) * need.len().div_ceil(256) as u64
    } else {
        0
    }
}

fn one_if(is_needed: bool) -> u64
    ensures { result ≡ (if is_needed then 1 else 0) }
{
    if is_needed { 1 } else { 0 }
}

/// The units of comparing two columns by fetching their values.
pub(crate) fn fetch_units(need: &Mask) -> u64
    ensures { result ≡ units_of_fetches (row_at need.now) (len need.now) }
{
    let mut count = 0;
    for row in 0..need.len() {
        count += one_if(is_needed(need, row));
    }
    2 * count
}
