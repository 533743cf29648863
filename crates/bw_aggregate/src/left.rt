//! Narrows the rows that are left, plane by plane.

ghost use Rattle.std.specs.Prelude.{Bool, IfOk, List, length, ℕ, ◌&&◌, ◌*◌, ◌^◌, ◌≡◌, ◌≤◌};
ghost use Rattle.std.specs.List.{items_where_true};
ghost use Rattle.bw_mask.specs.Masks.{bit_of, len};
ghost use Rattle.bw_aggregate.specs.Descents.{Holds};
ghost use Rattle.bw_aggregate.specs.Left.{left_count};
ghost use Rattle.bw_aggregate.specs.Planes.{IsPlane, has_bit};

use crate::plane::Plane;
use crate::rows::{count_both, has_row, rows_at, rows_with};
use crate::segments::{Left, Segment};
use bw_mask::Mask;
use std::alloc::{AllocError, Global};

impl Left {
    /// The rows of a mask; `count` is the column's number of segments.
    pub(crate) fn of(alloc: Global, rows: &Mask, count: u32) -> Result<Left, AllocError>
        requires few { count ≤ 2 ^ 16 }
        requires all { len rows.now ≤ 256 * count }
        ensures { IfOk result (λ left. (codes : List ℕ) → length codes ≡ len rows.now → Holds codes (items_where_true rows.now.rows codes) left) }
    {
        let words = rows.words();
        let mut segments = Vec::from_elem(alloc, Segment::NONE, count as usize)?;
        let mut kept = 0;
        'segments: for number in 0..count {
            let rows = rows_at(words, number);
            segments[kept] = Segment { number, rows };
            kept += usize::from(has_row(&rows));
        }
        segments.truncate(kept);
        Ok(Left { segments })
    }

    /// The number of these rows whose bit is set in the plane.
    pub(crate) fn count_in(&self, plane: &Plane) -> usize
        ensures is { (codes : List ℕ) (i : ℕ) → IsPlane codes i plane.now → result ≡ left_count codes (λ code. bit_of code i) self.now }
        ensures few { result ≤ 2 ^ 24 }
    {
        let mut count = 0;
        'segments: for k in 0..self.segments.len() {
            let segment = &self.segments[k];
            count += count_both(&segment.rows, &plane.rows(segment.number));
        }
        count
    }

    /// Keeps the rows whose bit in the plane is `bit`.
    pub(crate) fn keep(&mut self, plane: &Plane, bit: bool)
        ensures { (codes : List ℕ) (i : ℕ) → IsPlane codes i plane.now → (p : ℕ → Bool) → left_count codes p self.new ≡ left_count codes (λ code. has_bit i bit code && p code) self.old }
    {
        let mut kept = 0;
        'segments: for k in 0..self.segments.len() {
            let Segment { number, rows } = self.segments[k];
            let rows = rows_with(&rows, &plane.rows(number), bit);
            self.segments[kept] = Segment { number, rows };
            kept += usize::from(has_row(&rows));
        }
        self.segments.truncate(kept);
    }
}
