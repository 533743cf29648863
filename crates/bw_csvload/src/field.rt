//! The value of a field of a file.

ghost use Rattle.std.specs.Prelude.{◌<◌, ◌≡◌};
ghost use Rattle.std.specs.Char.{is_ascii_digit};
ghost use Rattle.std.specs.List.{list_all};
ghost use Rattle.bw_code.specs.declared.kind.ColumnType.TheVariants.{Integer};
ghost use Rattle.bw_csvload.specs.Sizes.{size_after, size_of, size_written};
ghost use Rattle.bw_csvload.specs.Fields.{cell_of, is_minus, is_null, within_type, without_sign};

use crate::fault::FieldFault;
use crate::lanes::{LANES, number_written};
use bw_code::ColumnType;
use std::simd::prelude::*;

/// The least number of 20 digits, which is outside each type with either sign.
const TOO_LARGE: u64 = 10_000_000_000_000_000_000;

/// From this number on one more digit makes 20.
const FULL: u64 = TOO_LARGE / 10;

/// The value of a field of an INTEGER column: NULL, or an integer of the type.
pub(crate) fn integer_cell(text: &[u8]) -> Result<Option<i32>, FieldFault>
    ensures { result ≡ cell_of Integer text.now }
{
    if is_null(text) {
        return Ok(None);
    }
    let Some(size) = size_written(text) else {
        return Err(FieldFault::NotInteger);
    };
    let Ok(size) = i64::try_from(size) else {
        return Err(FieldFault::Range);
    };
    let number = if is_minus(text) { -size } else { size };
    match i32::try_from(number) {
        Ok(number) => Ok(Some(number)),
        Err(_) => Err(FieldFault::Range),
    }
}

/// The value of a field of a column of this type: NULL, or an integer of the type.
pub(crate) fn cell(text: &[u8], column_type: ColumnType) -> Result<Option<i64>, FieldFault>
    ensures { result ≡ cell_of column_type text.now }
{
    if is_null(text) {
        return Ok(None);
    }
    let Some(size) = size_written(text) else {
        return Err(FieldFault::NotInteger);
    };
    let size = i128::from(size);
    within_type(column_type, if is_minus(text) { -size } else { size })
}

/// The integer, if it is of the type.
fn within_type(column_type: ColumnType, number: i128) -> Result<Option<i64>, FieldFault>
    ensures { result ≡ within_type column_type number }
{
    match i64::try_from(number) {
        Ok(number) if column_type.contains(number) => Ok(Some(number)),
        _ => Err(FieldFault::Range),
    }
}

/// Whether the text is empty, or NULL in any case.
fn is_null(text: &[u8]) -> bool
    ensures { result ≡ is_null text.now }
{
    text.is_empty() || text.eq_ignore_ascii_case(b"NULL")
}

/// Whether the text begins with a minus.
fn is_minus(text: &[u8]) -> bool
    ensures { result ≡ is_minus text.now }
{
    match text {
        [first, ..] => *first == b'-',
        [] => false,
    }
}

/// The text without its leading sign, if there is one.
fn without_sign(text: &[u8]) -> &[u8]
    ensures { result.now ≡ without_sign text.now }
{
    match text {
        [b'+' | b'-', rest @ ..] => rest,
        _ => text,
    }
}

/// The number that the digits after the sign spell, or `TOO_LARGE` if it is greater; `None` if they are not one or more
/// digits.
fn size_written(text: &[u8]) -> Option<u64>
    ensures { result ≡ size_written text.now }
{
    let digits = without_sign(text);
    if digits.is_empty() {
        return None;
    }
    size_of(digits)
}

/// The number that the text spells, or `TOO_LARGE` if it is greater; `None` if not each byte is a digit.
fn size_of(text: &[u8]) -> Option<u64>
    ensures { result ≡ size_of text.now }
{
    if text.len() < LANES {
        return size_after(0, text);
    }
    let front = number_written(u8x8::from_slice(text))?;
    size_after(front, &text[LANES..])
}

/// The number that the digits of `front` followed by the text spell, or `TOO_LARGE` if it is greater; `None` if not
/// each byte is a digit.
fn size_after(front: u64, text: &[u8]) -> Option<u64>
    requires { front < TOO_LARGE }
    ensures { result ≡ size_after front text.now }
{
    let mut size = front;
    for i in 0..text.len() {
        if !text[i].is_ascii_digit() {
            return None;
        }
        // More digits would only make it greater, so that they need not be added.
        if size >= FULL {
            return all_digits(&text[i + 1..]).then_some(TOO_LARGE);
        }
        size = size * 10 + u64::from(text[i] - b'0');
    }
    Some(size)
}

/// Whether each byte is a digit.
fn all_digits(text: &[u8]) -> bool
    ensures { result ≡ list_all is_ascii_digit text.now }
{
    text.iter().all(|byte| byte.is_ascii_digit())
}
