//! Two columns of a table.

ghost use Rattle.std.specs.Prelude.{◌<◌};

/// The indices of two columns of a table, the first one below the second.
#[derive(Clone, Copy)]
pub(crate) struct ColumnPair {
    pub(crate) first: usize,
    pub(crate) second: usize,
    ghost apart: { first < second },
}
