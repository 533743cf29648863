//! The two ends of sorted codes.

ghost use Rattle.std.specs.Prelude.{true, ◌-◌, ◌^◌, ◌≡◌, ◌≤◌};
ghost use Rattle.bw_aggregate.specs.Ends.{distance};

/// Which end of the sorted codes is wanted.
#[derive(Clone, Copy, Debug, PartialEq, Eq)]
pub(crate) enum End {
    Least,
    Greatest,
}

/// The distance of the nearest code from each end. Since no code is nearer than 0, an end that isn't wanted starts at
/// 0.
#[derive(Clone, Copy, Debug)]
pub(crate) struct Distances {
    pub(crate) least: u64,
    pub(crate) greatest: u64,
}

impl Distances {
    /// No end is wanted.
    pub(crate) const NONE: Distances = Distances {
        least: 0,
        greatest: 0,
    };

    /// Whether no code can be nearer to either end, as both distances are 0.
    pub(crate) fn are_none(self) -> bool
        ensures least { result ≡ true → self.least ≡ 0 }
        ensures greatest { result ≡ true → self.greatest ≡ 0 }
    {
        self.least == 0 && self.greatest == 0
    }
}

/// The largest distance of any code.
pub(crate) const FARTHEST: u64 = u64::MAX;

/// The distance of a code from the end: from 0, or from the greatest possible code.
pub(crate) fn distance(end: End, top: u64, code: u64) -> u64
    requires { code ≤ top }
    ensures is { result ≡ distance end top code }
    ensures most { result ≤ top }
{
    match end {
        End::Least => code,
        End::Greatest => top - code,
    }
}

/// The greatest code of `bits` bits.
pub(crate) fn greatest_code(bits: u32) -> u64
    requires some { 1 ≤ bits }
    requires few { bits ≤ 64 }
    ensures { result ≡ 2 ^ bits - 1 }
{
    u64::MAX >> (64 - bits)
}
