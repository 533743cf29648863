//! Scans of planes that are stored in a list defined by the test: what is found, and how often the list was read.

ghost use Rattle.std.specs.Prelude.{length, ◌≤◌};
ghost use Rattle.bw_code.specs.Tests.{TestFits};

use crate::seen::see;
use bw_code::{CmpOp, CodeTest, Source};
use bw_mask::Mask;
use bw_vertical::scan_from;
use std::process::Abort;

/// Planes in a list, that of the highest bit first, and how often they were read.
#[derive(Drop)]
struct PlaneList {
    planes: Vec<[u64; 4]>,
    reads: u64,
}

impl Source<[u64; 4]> for PlaneList {
    ghost units = { λ list. list.planes.items };

    ghost reads = { λ list. list.reads };

    fn read(&mut self, i: usize) -> [u64; 4] {
        self.reads += 1;
        self.planes[i]
    }

    fn reads(&self) -> u64 {
        self.reads
    }
}

/// Scans the codes of this many rows of one segment. Returns the rows that are found, of the first 64, and how often a
/// plane was read.
fn scanned<R: Abort + AllocGlobal>(
    rt: &R,
    planes: &[[u64; 4]],
    rows: usize,
    test: CodeTest,
) -> (u64, u64)
    requires some { 1 ≤ length planes.now }
    requires few { length planes.now ≤ 64 }
    requires any { 1 ≤ rows }
    requires segment { rows ≤ 256 }
    requires fits { TestFits (length planes.now) test }
{
    let mut list = PlaneList {
        planes: Vec::from_slice(rt.alloc(), planes).expect(rt, "memory"),
        reads: 0,
    };
    let need = Mask::filled(rt.alloc(), rows, true).expect(rt, "memory");
    let mut found = Mask::filled(rt.alloc(), rows, false).expect(rt, "memory");
    scan_from(&mut list, planes.len() as u32, test, &need, &mut found);
    (found.bits(0, 64), list.reads())
}

/// The planes of the codes 0 to 15 and 240 to 255.
const SIXTEENS: [[u64; 4]; 8] = [
    [0xffff_0000, 0, 0, 0],
    [0xffff_0000, 0, 0, 0],
    [0xffff_0000, 0, 0, 0],
    [0xffff_0000, 0, 0, 0],
    [0xff00_ff00, 0, 0, 0],
    [0xf0f0_f0f0, 0, 0, 0],
    [0xcccc_cccc, 0, 0, 0],
    [0xaaaa_aaaa, 0, 0, 0],
];

// Four planes decide the comparison with 128 for all rows, until a row with that code is added.
#[test]
fn a_scan_stops_after_four_planes(rt: HostRuntime) {
    let below_128 = CodeTest::Cmp(CmpOp::Lt, 128);
    see(&rt, scanned(&rt, &SIXTEENS, 32, below_128), (0xffff, 4));
    let mut planes = SIXTEENS;
    planes[0] = [0x1_ffff_0000, 0, 0, 0];
    see(&rt, scanned(&rt, &planes, 33, below_128), (0xffff, 8));
}

// The codes 0 and 300, of nine bits.
#[test]
fn a_scan_of_two_codes(rt: HostRuntime) {
    let mut planes = [[0; 4]; 9];
    for i in [0, 3, 5, 6] {
        planes[i] = [2, 0, 0, 0];
    }
    let below_256 = CodeTest::Cmp(CmpOp::Lt, 256);
    see(&rt, scanned(&rt, &planes, 2, below_256), (1, 4));
}
