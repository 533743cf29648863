//! Finds one entry of the sorted codes of some rows, one bit plane per step.

ghost use Rattle.std.specs.Prelude.{List, length, true, ℕ, ◌+◌, ◌<◌, ◌^◌, ◌≡◌};
ghost use Rattle.bw_aggregate.specs.Descents.{BeginsAll, Holds, next};
ghost use Rattle.bw_aggregate.specs.Planes.{IsPlane};

use crate::plane::Plane;
use crate::segments::Left;

/// A descent to one entry of the sorted codes of some rows. Before each plane, the rows that are left are those whose
/// code begins with the bits found so far; the entry is one of theirs.
#[derive(Drop)]
pub(crate) struct Descent {
    left: Left,
    /// The number of rows that are left.
    count: usize,
    /// The entry's index among their sorted codes.
    nth: usize,
    /// The bits found so far.
    code: u64,
}

/// The bits found so far, followed by one more.
pub(crate) fn with_bit(code: u64, bit: bool) -> u64
    ensures { code < 2 ^ 63 → result ≡ next code bit }
{
    code.wrapping_mul(2).wrapping_add(u64::from(bit))
}

impl Descent {
    ghost use Rattle.bw_aggregate.specs.Descending.{IsDescent};

    /// The start, above the top plane, where all rows are left.
    pub(crate) fn from_top(left: Left, count: usize, nth: usize) -> Descent
        ensures { (codes held : List ℕ) (k : ℕ) → Holds codes held left → BeginsAll k held → count ≡ length held → nth < count → IsDescent codes held nth k result }
    {
        Descent {
            left,
            count,
            nth,
            code: 0,
        }
    }

    /// Goes one plane down.
    pub(crate) fn step(&mut self, plane: &Plane)
        ensures { (codes held : List ℕ) (n i : ℕ) → IsPlane codes i plane.now → IsDescent codes held n (i + 1) self.old → IsDescent codes held n i self.new }
    {
        let ones = self.left.count_in(plane);
        let zeros = self.count.saturating_sub(ones);
        if self.nth < zeros {
            self.left.keep(plane, false);
            self.count = zeros;
            self.code = with_bit(self.code, false);
        } else {
            self.left.keep(plane, true);
            self.count = ones;
            self.nth -= zeros;
            self.code = with_bit(self.code, true);
        }
    }

    /// The code that was found.
    pub(crate) fn code(&self) -> u64
        ensures { result ≡ self.now.code }
    {
        self.code
    }
}
