//! Bit planes read directly from slices as a source of units.

ghost use Rattle.std.specs.Prelude.{length, ◌%◌, ◌<◌, ◌^◌, ◌≡◌};
ghost use Rattle.bw_byteslice.specs.BitPlanes.{plane_in, planes_of};
ghost use Rattle.bw_byteslice.specs.Storing.{AreSlices, bytes_of};

use crate::plane::word_up_to_end;
use crate::source::place;
use bw_code::Source;
use std::marker::Model;

/// Bit i of the bytes of rows 256 q to 256 q + 255. Rows past the last byte are not set.
fn plane_at(slice: &[u8], q: usize, i: u32) -> [u64; 4]
    requires bit { i < 8 }
    requires small { q < 2 ^ 32 }
    requires whole { length slice.now % 32 ≡ 0 }
    ensures { result ≡ plane_in slice.now q i }
{
    [
        word_up_to_end(slice, 4 * q, i),
        word_up_to_end(slice, 4 * q + 1, i),
        word_up_to_end(slice, 4 * q + 2, i),
        word_up_to_end(slice, 4 * q + 3, i),
    ]
}

/// The planes of a column of slices, read one at a time: with k bits, unit q * k + i is plane i of segment q. A segment is
/// 256 rows; row r of it is bit r % 64 of word r / 64.
#[derive(Drop)]
pub struct SlicePlanes<'a> {
    slices: &'a [Vec<u8>],
    width: usize,
    len: usize,
    segment: usize,
    start: usize,
    reads: u64,
}

impl<'a> Model for SlicePlanes<'a> {
    ghost use Rattle.bw_code.specs.Units.{PlanesRead};
    ghost use Rattle.bw_byteslice.specs.BitPlanes.{ArePlanes, planes_of};
    ghost use Rattle.bw_byteslice.specs.Storing.{bytes_of};

    ghost Value = { PlanesRead };

    ghost view = { λ s. record { units = planes_of s.width s.len (bytes_of s.slices.now); reads = s.reads } };

    ghost invariant = { λ s. ArePlanes s.width s.len (bytes_of s.slices.now) s.segment s.start };
}

impl<'a> SlicePlanes<'a> {
    /// The planes of `len` codes, none of them read yet.
    pub(crate) fn new(slices: &'a [Vec<u8>], width: u32, len: usize) -> SlicePlanes<'a>
        requires { AreSlices width len (bytes_of slices.now) }
        ensures units { result.units ≡ planes_of width len (bytes_of slices.now) }
        ensures none { result.reads ≡ 0 }
    {
        SlicePlanes {
            slices,
            width: width as usize,
            len,
            segment: 0,
            start: 0,
            reads: 0,
        }
    }
}

impl<'a> Source<[u64; 4]> for SlicePlanes<'a> {
    ghost units = { λ s. s.units };

    ghost reads = { λ s. s.reads };

    fn read(&mut self, i: usize) -> [u64; 4] {
        self.reads += 1;
        let (segment, start) = place(self.segment, self.start, self.width, i);
        self.segment = segment;
        self.start = start;
        let plane = i - start;
        plane_at(&self.slices[plane / 8], segment, 7 - (plane % 8) as u32)
    }

    fn reads(&self) -> u64 {
        self.reads
    }
}
