//! The rows that are left, in segments of 256.

ghost use Rattle.std.specs.Prelude.{vec_len, ◌^◌, ◌≤◌};

/// The rows of a segment that are left.
#[derive(Clone, Copy)]
pub(crate) struct Segment {
    pub(crate) number: u32,
    pub(crate) rows: [u64; 4],
}

impl Segment {
    pub(crate) const NONE: Segment = Segment {
        number: 0,
        rows: [0; 4],
    };
}

/// The rows of a column that are left, as the segments that have any.
#[derive(Drop)]
pub(crate) struct Left {
    pub(crate) segments: Vec<Segment>,
    ghost few: { vec_len segments ≤ 2 ^ 16 },
}
