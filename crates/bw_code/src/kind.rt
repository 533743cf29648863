//! Which integers a column holds, how it is encoded, and how its codes lie in memory.

ghost use Rattle.std.specs.Prelude.{◌≡◌};
ghost use Rattle.bw_code.specs.Types.{holds, is_of_type};

/// How the values of a column become codes.
#[derive(Clone, Copy, Debug, PartialEq, Eq)]
pub enum Kind {
    /// A value's distance from the least one.
    Offset,
    /// A value's index among the distinct values in ascending order.
    Dictionary,
}

/// Which integers a column holds, besides NULL.
#[derive(Clone, Copy, Debug, PartialEq, Eq)]
pub enum ColumnType {
    /// 32-bit signed integers.
    Integer,
    /// 64-bit signed integers.
    BigInt,
}

impl ColumnType {
    /// Whether the type contains the integer.
    pub fn contains(self, value: i64) -> bool
        ensures { result ≡ is_of_type self value }
    {
        match self {
            ColumnType::Integer => i32::try_from(value).is_ok(),
            ColumnType::BigInt => true,
        }
    }
}

/// How the codes of a column lie in memory.
#[derive(Clone, Copy, Debug, PartialEq, Eq)]
pub enum Layout {
    /// A plain list of codes.
    P,
    /// Planes of bits: BitWeaving/V (Li and Patel, SIGMOD 2013).
    V,
    /// Words of codes side by side: BitWeaving/H (Li and Patel, SIGMOD 2013).
    H,
    /// Slices of bytes: ByteSlice (Feng and others, SIGMOD 2015).
    S,
}

impl Layout {
    /// Whether a column of the type may have this layout: H has codes of at most 32 bits, so it cannot hold a BIGINT
    /// column.
    pub fn holds(self, column_type: ColumnType) -> bool
        ensures { result ≡ holds self column_type }
    {
        match (self, column_type) {
            (Layout::H, ColumnType::BigInt) => false,
            (_, _) => true,
        }
    }
}
