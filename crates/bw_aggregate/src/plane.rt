//! A bit plane, read in place or from a copy.

ghost use Rattle.std.specs.Prelude.{[], slice_index_or, ℕ, ◌*◌, ◌+◌, ◌-◌, ◌<◌, ◌^◌, ◌≡◌, ◌≤◌};
ghost use Rattle.bw_mask.specs.Masks.{bit_of, row_in};
ghost use Rattle.bw_code.specs.Columns.{code_at, count};
ghost use Rattle.bw_code.specs.Units.{segments_of};
ghost use Rattle.bw_code.specs.Widths.{widest_code};
ghost use Rattle.bw_aggregate.specs.Planes.{IsGroupPlane, is_in};

use crate::rows::rows_at;
use bw_code::CodeColumn;
use bw_vertical::VerticalColumn;

/// A plane within its group: in each segment, the plane at index `at` of `count`.
#[derive(Clone, Copy)]
pub(crate) struct GroupPlane<'a> {
    group: &'a [[u64; 4]],
    count: u32,
    at: u32,
}

/// One bit of each row's code.
#[derive(Clone, Copy)]
pub(crate) enum Plane<'a> {
    InPlace(GroupPlane<'a>),
    /// The words of a mask.
    Copied(&'a [u64]),
}

impl<'a> GroupPlane<'a> {
    /// Plane `i` of a column, counted from the highest.
    pub(crate) fn of(codes: &'a VerticalColumn, i: usize) -> GroupPlane<'a>
        requires within { i < codes.now.width }
        requires narrow { codes.now.width ≤ widest_code }
        ensures { IsGroupPlane codes.now i result }
    {
        let i = i as u32;
        GroupPlane {
            group: codes.group(i as usize / 4),
            count: (codes.width() - i / 4 * 4).min(4),
            at: i % 4,
        }
    }

    /// The rows of segment `q` whose bit is set; none past the last segment.
    fn rows(&self, q: u32) -> [u64; 4]
        ensures { (j : ℕ) → j < 256 → row_in result j ≡ row_in (slice_index_or self.now.group.now (q * self.now.count + self.now.at) []) j }
    {
        let place = q as usize * self.count as usize + self.at as usize;
        if place < self.group.len() {
            self.group[place]
        } else {
            [0; 4]
        }
    }
}

impl<'a> Plane<'a> {
    /// The rows of segment `q` whose bit is set.
    pub(crate) fn rows(&self, q: u32) -> [u64; 4]
        ensures { (j : ℕ) → j < 256 → row_in result j ≡ is_in self.now (256 * q + j) }
    {
        match self {
            Plane::InPlace(plane) => plane.rows(q),
            Plane::Copied(words) => rows_at(words, q),
        }
    }
}

/// Plane `i` of segment `q`.
pub(crate) fn plane_at(codes: &VerticalColumn, q: usize, i: usize) -> &[u64; 4]
    requires there { q < segments_of 256 (count codes.now) }
    requires within { i < codes.now.width }
    requires few { count codes.now ≤ 2 ^ 24 }
    requires narrow { codes.now.width ≤ widest_code }
    ensures { (j : ℕ) → j < 256 → row_in result.now j ≡ bit_of (code_at codes.now (256 * q + j)) (codes.now.width - 1 - i) }
{
    let GroupPlane { group, count, at } = GroupPlane::of(codes, i);
    &group[q * count as usize + at as usize]
}
