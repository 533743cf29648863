//! Planes in memory as a source of units.

ghost use Rattle.std.specs.Prelude.{length, min, ◌*◌, ◌+◌, ◌-◌, ◌/◌, ◌<◌, ◌^◌, ◌≡◌, ◌≤◌};
ghost use Rattle.bw_code.specs.Widths.{widest_code};
ghost use Rattle.bw_vertical.specs.Storage.{AreGroups, HasSegment, LieAhead, Stands, groups_of, lists, planes_in, units_of};

use crate::storage::planes_in;
use bw_code::Source;
use std::marker::Model;

/// The segment of unit i and the first unit of that segment, given those of another unit; within the same segment
/// without a division.
fn place(segment: usize, start: usize, k: usize, i: usize) -> (usize, usize)
    requires some { 0 < k }
    requires start { start ≡ segment * k }
    ensures segment { result.0 ≡ i / k }
    ensures start { result.1 ≡ i / k * k }
{
    if start <= i && i - start < k {
        (segment, start)
    } else {
        (i / k, i / k * k)
    }
}

/// The position of a source: a segment and its first unit, how many of its planes are in groups that were not read from
/// yet, those groups, and the rest of the group that was read from last, from unit `next` on.
#[derive(Clone, Copy)]
struct Standing<'a> {
    segment: usize,
    start: usize,
    left: usize,
    behind: &'a [Vec<[u64; 4]>],
    rest: &'a [[u64; 4]],
    next: usize,
}

/// The position before the next group of the segment, which begins with unit i.
fn next_group<'a>(
    groups: &'a [Vec<[u64; 4]>],
    k: usize,
    from: Standing<'a>,
    i: usize,
) -> Standing<'a>
    requires narrow { k ≤ widest_code }
    requires left { 0 < from.left }
    requires within { from.left ≤ k }
    requires start { from.start ≡ from.segment * k }
    requires small { from.segment < 2 ^ 32 }
    requires count { length groups.now ≡ groups_of k }
    requires there { HasSegment k (lists groups.now) from.segment }
    requires ahead { LieAhead k groups.now from.behind.now from.left }
    requires unit { i ≡ from.start + (k - from.left) }
    ensures stands { Stands k groups.now result.segment result.start result.left result.behind.now result.rest.now result.next }
    ensures next { result.next ≡ i }
    ensures count { length result.rest.now ≡ min 4 from.entry.left }
{
    let m = from.left.min(4);
    let group = &from.behind[0];
    Standing {
        left: from.left - m,
        behind: &from.behind[1..],
        rest: &group[from.segment * m..from.segment * m + m],
        next: i,
        ..from
    }
}

/// The position before group g of a segment.
fn at_group<'a>(
    groups: &'a [Vec<[u64; 4]>],
    k: usize,
    segment: usize,
    start: usize,
    g: usize,
) -> Standing<'a>
    requires start { start ≡ segment * k }
    requires group { 4 * g < k }
    requires narrow { k ≤ widest_code }
    requires small { segment < 2 ^ 32 }
    requires count { length groups.now ≡ groups_of k }
    requires there { HasSegment k (lists groups.now) segment }
    ensures stands { Stands k groups.now result.segment result.start result.left result.behind.now result.rest.now result.next }
    ensures next { result.next ≡ start + 4 * g }
    ensures count { length result.rest.now ≡ planes_in k g }
{
    let next = start + 4 * g;
    let from = Standing {
        segment,
        start,
        left: k - 4 * g,
        behind: &groups[g..],
        rest: &[],
        next,
    };
    next_group(groups, k, from, next)
}

/// The position before unit i, which may be any, given its segment and the segment's first unit.
#[inline(always)]
fn jumped<'a>(
    groups: &'a [Vec<[u64; 4]>],
    k: usize,
    segment: usize,
    start: usize,
    i: usize,
) -> Standing<'a>
    requires some { 0 < k }
    requires narrow { k ≤ widest_code }
    requires low { i < 2 ^ 32 }
    requires start { start ≡ segment * k }
    requires count { length groups.now ≡ groups_of k }
    requires there { HasSegment k (lists groups.now) (i / k) }
    ensures stands { Stands k groups.now result.segment result.start result.left result.behind.now result.rest.now result.next }
    ensures next { result.next ≡ i }
    ensures some { 0 < length result.rest.now }
{
    let (segment, start) = place(segment, start, k, i);
    let group = at_group(groups, k, segment, start, (i - start) / 4);
    Standing {
        rest: &group.rest[i - group.next..],
        next: i,
        ..group
    }
}

/// The position before unit i, the first one after those read: the first unit of the next group of the segment, or of
/// the next segment.
#[inline(always)]
fn stepped<'a>(groups: &'a [Vec<[u64; 4]>], k: usize, from: Standing<'a>, i: usize) -> Standing<'a>
    requires some { 0 < k }
    requires narrow { k ≤ widest_code }
    requires low { i < 2 ^ 32 }
    requires count { length groups.now ≡ groups_of k }
    requires there { HasSegment k (lists groups.now) (i / k) }
    requires from { Stands k groups.now from.segment from.start from.left from.behind.now from.rest.now from.next }
    requires next { i ≡ from.next }
    requires none { length from.rest.now ≡ 0 }
    ensures stands { Stands k groups.now result.segment result.start result.left result.behind.now result.rest.now result.next }
    ensures next { result.next ≡ i }
    ensures some { 0 < length result.rest.now }
{
    if from.left > 0 {
        return next_group(groups, k, from, i);
    }
    at_group(groups, k, from.segment + 1, i, 0)
}

/// The position before unit i, which may be any. The first unit of the next segment, and units of this one, are found
/// without a division.
#[inline(always)]
fn moved<'a>(groups: &'a [Vec<[u64; 4]>], k: usize, from: Standing<'a>, i: usize) -> Standing<'a>
    requires some { 0 < k }
    requires narrow { k ≤ widest_code }
    requires low { i < 2 ^ 32 }
    requires count { length groups.now ≡ groups_of k }
    requires there { HasSegment k (lists groups.now) (i / k) }
    requires from { Stands k groups.now from.segment from.start from.left from.behind.now from.rest.now from.next }
    ensures stands { Stands k groups.now result.segment result.start result.left result.behind.now result.rest.now result.next }
    ensures next { result.next ≡ i }
    ensures some { 0 < length result.rest.now }
{
    if i == from.start + k {
        return at_group(groups, k, from.segment + 1, i, 0);
    }
    jumped(groups, k, from.segment, from.start, i)
}

/// The planes of a column, read one at a time: unit q * width + i is plane i of segment q. The rest of the group that
/// was read from last is kept, so that a read of the next unit need only check whether a plane is left.
#[derive(Drop)]
pub struct PlaneSource<'a> {
    groups: &'a [Vec<[u64; 4]>],
    width: usize,
    len: usize,
    standing: Standing<'a>,
    reads: u64,
}

impl<'a> Model for PlaneSource<'a> {
    ghost use Rattle.bw_code.specs.Units.{PlanesRead};
    ghost use Rattle.bw_vertical.specs.Storage.{IsInPlace, lists, units_of};

    ghost Value = { PlanesRead };

    ghost view = { λ s. record { units = units_of s.width (lists s.groups.now) s.len; reads = s.reads } };

    ghost invariant = { λ s. IsInPlace s.width s.groups.now s.len s.standing.segment s.standing.start s.standing.left s.standing.behind.now s.standing.rest.now s.standing.next };
}

impl<'a> PlaneSource<'a> {
    /// The planes of `len` rows, none of them read yet.
    pub(crate) fn new(groups: &'a [Vec<[u64; 4]>], width: u32, len: usize) -> PlaneSource<'a>
        requires { AreGroups width (lists groups.now) len }
        ensures units { result.units ≡ units_of width (lists groups.now) len }
        ensures none { result.reads ≡ 0 }
    {
        PlaneSource {
            groups,
            width: width as usize,
            len,
            standing: Standing {
                segment: 0,
                start: 0,
                left: width as usize,
                behind: groups,
                rest: &[],
                next: 0,
            },
            reads: 0,
        }
    }
}

impl<'a> Source<[u64; 4]> for PlaneSource<'a> {
    ghost units = { λ s. s.units };

    ghost reads = { λ s. s.reads };

    // If not inlined, each call would keep the source in memory.
    #[inline(always)]
    fn read(&mut self, i: usize) -> [u64; 4] {
        self.reads += 1;
        // Where units are read in order, i is known to be the next one, and only the second test is left.
        let mut at = self.standing;
        if i != at.next {
            at = moved(self.groups, self.width, at, i);
        } else if at.rest.is_empty() {
            at = stepped(self.groups, self.width, at, i);
        }
        self.standing = Standing {
            rest: &at.rest[1..],
            next: i + 1,
            ..at
        };
        at.rest[0]
    }

    fn reads(&self) -> u64 {
        self.reads
    }
}
