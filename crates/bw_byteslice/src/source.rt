//! The units of slices in memory, with their reads counted.

ghost use Rattle.std.specs.Prelude.{drop, length, take, ◌*◌, ◌/◌, ◌<◌, ◌≡◌};
ghost use Rattle.bw_byteslice.specs.Storing.{AreEven, bytes_of, units_of};

use bw_code::Source;
use std::marker::Model;
use std::simd::prelude::*;

/// The segment of unit i and the first unit of that segment, given those of the unit that was read before: without a
/// division if the unit is in the same segment or the next.
pub(crate) fn place(q: usize, start: usize, m: usize, i: usize) -> (usize, usize)
    requires some { 0 < m }
    requires start { start ≡ q * m }
    ensures segment { result.0 ≡ i / m }
    ensures start { result.1 ≡ i / m * m }
{
    if start <= i && i - start < m {
        (q, start)
    } else if start <= i && i - start == m {
        (q + 1, i)
    } else {
        (i / m, i / m * m)
    }
}

/// Bytes 32 q to 32 q + 31.
pub(crate) fn bytes_at(slice: &[u8], q: usize) -> [u8; 32]
    requires { q < length slice.now / 32 }
    ensures { result ≡ take 32 (drop (32 * q) slice.now) }
{
    u8x32::from_slice(&slice[32 * q..]).to_array()
}

/// Slices in memory. Unit q * m + i is segment q of slice i, of m slices.
#[derive(Drop)]
pub(crate) struct SliceSource<'a> {
    slices: &'a [Vec<u8>],
    q: usize,
    start: usize,
    reads: u64,
}

impl<'a> Model for SliceSource<'a> {
    ghost use Rattle.bw_byteslice.specs.Storing.{IsInPlace, Reading, bytes_of};

    ghost Value = { Reading };

    ghost view = { λ s. record { slices = bytes_of s.slices.now; reads = s.reads } };

    ghost invariant = { λ s. IsInPlace (bytes_of s.slices.now) s.q s.start };
}

impl<'a> SliceSource<'a> {
    pub(crate) fn new(slices: &'a [Vec<u8>]) -> SliceSource<'a>
        requires { AreEven (bytes_of slices.now) }
        ensures slices { result.slices ≡ bytes_of slices.now }
        ensures none { result.reads ≡ 0 }
    {
        SliceSource {
            slices,
            q: 0,
            start: 0,
            reads: 0,
        }
    }
}

impl<'a> Source<[u8; 32]> for SliceSource<'a> {
    ghost units = { λ s. units_of s.slices };

    ghost reads = { λ s. s.reads };

    fn read(&mut self, i: usize) -> [u8; 32] {
        self.reads += 1;
        let (q, start) = place(self.q, self.start, self.slices.len(), i);
        self.q = q;
        self.start = start;
        bytes_at(&self.slices[i - start], q)
    }

    fn reads(&self) -> u64 {
        self.reads
    }
}
