//! What columns of a few codes store, bit by bit.

ghost use Rattle.std.specs.Prelude.{length, ◌≡◌, ◌≤◌};
ghost use Rattle.bw_byteslice.specs.Slices.{slices_of};

use crate::codes::column_of;
use crate::seen::{see, see_at};
use bw_byteslice::SliceColumn;
use bw_code::{CodeColumn, Source};
use bw_horizontal::HorizontalColumn;
use bw_vertical::{VerticalColumn, plane_words, put_plane_words, wide_plane_words};
use std::process::Abort;

/// The planes of the codes 22 and 1, of five bits: four in the first group and one in the second.
#[test]
fn planes_of_two_codes(rt: HostRuntime) {
    let column: VerticalColumn = column_of(&rt, 5, &[0b10110, 0b00001]);
    let (high, low) = (column.group(0), column.group(1));
    see(
        &rt,
        high,
        &[[1, 0, 0, 0], [0; 4], [1, 0, 0, 0], [1, 0, 0, 0]],
    );
    see(&rt, low, &[[2, 0, 0, 0]]);
}

/// The same planes, read one at a time.
#[test]
fn planes_of_two_codes_as_units(rt: HostRuntime) {
    let column: VerticalColumn = column_of(&rt, 5, &[0b10110, 0b00001]);
    let mut planes = column.planes();
    let (high, low) = (planes.read(0), planes.read(4));
    see(&rt, (high, low), ([1, 0, 0, 0], [2, 0, 0, 0]));
    see(&rt, planes.reads(), 2);
}

/// The words of the same planes by themselves.
#[test]
fn words_of_two_codes(rt: HostRuntime) {
    let words = plane_words(&[0b10110, 0b00001], 5);
    see(&rt, (words[0], words[1], words[3], words[4]), (2, 1, 0, 1));
}

/// Three codes of 40 bits.
const WIDE: [u64; 3] = [0x96_0000_00a5, 0x0f_8000_0001, 0xff_ffff_ffff];

/// Their planes, of which group g is digit g of each code in base 16, from its highest bit to its lowest. The digits
/// are 9 6 0 0 0 0 0 0 a 5, then 0 f 8 0 0 0 0 0 0 1, and then only f. In a word the first code is bit 0, the second
/// bit 1 and the third bit 2.
const WIDE_PLANES: [[u64; 4]; 10] = [
    [0b101, 0b100, 0b100, 0b101],
    [0b110, 0b111, 0b111, 0b110],
    [0b110, 0b100, 0b100, 0b100],
    [0b100; 4],
    [0b100; 4],
    [0b100; 4],
    [0b100; 4],
    [0b100; 4],
    [0b101, 0b100, 0b101, 0b100],
    [0b100, 0b101, 0b100, 0b111],
];

#[test]
fn planes_of_three_wide_codes(rt: HostRuntime) {
    let column: VerticalColumn = column_of(&rt, 40, &WIDE);
    for g in 0..10 {
        for i in 0..4 {
            see_at(
                &rt,
                (g, i),
                column.group(g)[i],
                [WIDE_PLANES[g][i], 0, 0, 0],
            );
        }
    }
}

/// The words of those planes by themselves, that of the lowest bits first, also over words that were not cleared.
#[test]
fn words_of_three_wide_codes(rt: HostRuntime) {
    let words = wide_plane_words(&WIDE, 40);
    let mut others = [u64::MAX; 64];
    put_plane_words(&WIDE, 40, &mut others);
    for b in 0..40 {
        let plane = WIDE_PLANES[b / 4][b % 4];
        see_at(&rt, b, words[39 - b], plane);
        see_at(&rt, b, others[39 - b], plane);
    }
}

/// In nine bits 300 is 1001 0110 0, 511 is 1111 1111 1, and 1 is only the last bit.
#[test]
fn bytes_of_three_codes(rt: HostRuntime) {
    let column: SliceColumn = column_of(&rt, 9, &[300, 511, 1]);
    see(&rt, &column.slice(0)[..4], &[0x96, 0xff, 0x00, 0x00]);
    see(&rt, &column.slice(1)[..4], &[0x00, 0x80, 0x80, 0x00]);
    see(
        &rt,
        (column.slice(0).len(), column.slice(1).len()),
        (32, 32),
    );
}

/// Checks the first four bytes of each slice.
fn check_slices<R: Abort>(rt: &R, column: &SliceColumn, slices: &[[u8; 4]])
    requires some { 1 ≤ length column.now.codes }
    requires slices { length slices.now ≤ slices_of column.now.width }
{
    for j in 0..slices.len() {
        see_at(rt, j, &column.slice(j)[..4], &slices[j][..]);
    }
}

/// The bytes of those codes of 40 bits.
#[test]
fn bytes_of_three_wide_codes(rt: HostRuntime) {
    let slices = [
        [0x96, 0x0f, 0xff, 0x00],
        [0x00, 0x80, 0xff, 0x00],
        [0x00, 0x00, 0xff, 0x00],
        [0x00, 0x00, 0xff, 0x00],
        [0xa5, 0x01, 0xff, 0x00],
    ];
    check_slices(&rt, &column_of(&rt, 40, &WIDE), &slices);
}

/// All ones, only the highest bit, and 1: in 33 bits shifted left by seven, and in 63 by one.
#[test]
fn bytes_at_the_ends(rt: HostRuntime) {
    let mut slices = [[0xff, 0x00, 0x00, 0x00]; 8];
    slices[0] = [0xff, 0x80, 0x00, 0x00];
    slices[4] = [0x80, 0x00, 0x80, 0x00];
    check_slices(
        &rt,
        &column_of(&rt, 33, &[0x1_ffff_ffff, 0x1_0000_0000, 1]),
        &slices[..5],
    );
    slices[4] = [0xff, 0x00, 0x00, 0x00];
    slices[7] = [0xfe, 0x00, 0x02, 0x00];
    check_slices(
        &rt,
        &column_of(&rt, 63, &[0x7fff_ffff_ffff_ffff, 0x4000_0000_0000_0000, 1]),
        &slices,
    );
    slices[7] = [0xff, 0x00, 0x01, 0x00];
    check_slices(
        &rt,
        &column_of(&rt, 64, &[u64::MAX, 0x8000_0000_0000_0000, 1]),
        &slices,
    );
}

/// The planes of 0 and 300, of nine bits: 1 0010 1100 has four bits, of which the highest is by itself in plane 0.
#[test]
fn planes_of_nine_bits(rt: HostRuntime) {
    let column: VerticalColumn = column_of(&rt, 9, &[0, 300]);
    let (none, second) = ([0; 4], [2, 0, 0, 0]);
    see(&rt, column.group(0), &[second, none, none, second]);
    see(&rt, column.group(1), &[none, second, second, none]);
    see(&rt, column.group(2), &[none]);
}

/// The bytes of the same codes: in the second slice both are 0.
#[test]
fn bytes_of_nine_bits(rt: HostRuntime) {
    let column: SliceColumn = column_of(&rt, 9, &[0, 300]);
    see(&rt, &column.slice(0)[..4], &[0x00, 0x96, 0x00, 0x00]);
    see(&rt, column.slice(1), &[0; 32]);
}

/// 62 times 0, and then 3 twice, of two bits.
fn threes_across_segments<R: Abort + AllocGlobal>(rt: &R) -> HorizontalColumn {
    let mut column = HorizontalColumn::with_width(rt.alloc(), 2).expect(rt, "memory");
    column.reserve(64).expect(rt, "memory");
    for row in 0..62_usize {
        column.push(0);
    }
    column.push(3);
    column.push(3);
    column
}

/// Of two bits and a delimiter: the first 3 lies in the highest section of the last word of a segment, and the second one begins
/// the next segment.
#[test]
fn words_of_two_segments(rt: HostRuntime) {
    let column = threes_across_segments(&rt);
    see(&rt, column.words(), &[0, 0, 0x3000_0000_0000_0000, 3, 0, 0]);
}

/// Of two bits and a delimiter: the first three rows lie in the lowest sections of three words, and the fourth above the first.
#[test]
fn words_of_four_codes(rt: HostRuntime) {
    let mut column = HorizontalColumn::with_width(rt.alloc(), 2).expect(&rt, "memory");
    column.reserve(4).expect(&rt, "memory");
    column.extend(&[3, 1, 0]);
    column.push(2);
    column.set(2, 1);
    see_four_codes(&rt, &column);
}

fn see_four_codes<R: Abort>(rt: &R, column: &HorizontalColumn)
    requires { length column.now.codes ≡ 4 }
{
    see(
        &rt,
        (column.get(0), column.get(2), column.get(3)),
        (3, 1, 2),
    );
    see(rt, column.words(), &[0b010_011, 0b001, 0b001]);
}
