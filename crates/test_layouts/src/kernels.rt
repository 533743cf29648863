//! Kernels of lanes, on worked numbers.

use crate::seen::see;
use bw_lane::{
    LaneOp, SectionMasks, byte_step, count_words, plane_step, word_compare, word_compare_pair,
};
use std::process::Abort;

// Sections of two bits and a delimiter: the codes 1, 3 and then 0, and 2 in each.
const CODES: u64 = 25;

const TWOS: u64 = 0x2492_4924_9249_2492;

// The delimiters of the sections whose code is below 2: all but that of the code 3.
const BELOW: u64 = 0x4924_9249_2492_4904;

/// Compares the sections of those words with 2, as a constant and side by side.
fn compared<R: Abort>(rt: &R) -> ([u64; 1], [u64; 1]) {
    let masks = SectionMasks::new(2);
    let twos = masks.constant(2);
    let codes = masks.with_code(masks.with_code(masks.constant(0), 0, 1), 1, 3);
    see(rt, (codes, twos), (CODES, TWOS));
    let (mut by_constant, mut by_pair) = ([0], [0]);
    word_compare(LaneOp::Lt, &[codes], twos, 2, &mut by_constant);
    word_compare_pair(LaneOp::Lt, &[codes], &[twos], 2, &mut by_pair);
    (by_constant, by_pair)
}

#[test]
fn a_word_of_sections(rt: HostRuntime) {
    see(&rt, compared(&rt), ([BELOW], [BELOW]));
}

// The bytes 0 to 31 compared with 16.
#[test]
fn a_slice_of_bytes(rt: HostRuntime) {
    let mut slice = [0; 32];
    for i in 0..32 {
        slice[i] = i as u8;
    }
    let (mut lt, mut eq) = (0, u32::MAX);
    byte_step(&slice, 16, &mut lt, &mut eq);
    see(&rt, (lt, eq), (0x0000_ffff, 0x0001_0000));
}

// The first four rows have the bit set in their code, as in the constant.
#[test]
fn a_plane_of_bits(rt: HostRuntime) {
    let (mut lt, mut eq) = ([0; 4], [u64::MAX; 4]);
    plane_step(&mut lt, &mut eq, &[15, 0, 0, 0], true);
    let others = 0xffff_ffff_ffff_fff0;
    see(
        &rt,
        (lt, eq),
        ([others, u64::MAX, u64::MAX, u64::MAX], [15, 0, 0, 0]),
    );
}

#[test]
fn bits_of_words(rt: HostRuntime) {
    see(&rt, count_words(&[u64::MAX, 1, 0, 0, 3]), 67);
}
