//! Why a text is no statement.

ghost use Rattle.std.specs.Prelude.{◌≡◌};
ghost use Rattle.bw_lex.specs.declared.fault.SqlFault.TheVariants.{Memory};

use std::alloc::{AllocError, AllocFailed};

/// Why a text is no statement.
#[derive(Clone, Copy, Debug, PartialEq, Eq, Drop)]
pub enum SqlFault {
    /// A bad token, or tokens that form no statement.
    Syntax,
    /// More than 65,536 bytes.
    TooLong,
    /// A `(` preceded by 64 more `(` than `)`.
    TooDeep,
    /// A number above 9223372036854775807, or above 9223372036854775808 after a `-`.
    BigNumber,
    /// An allocation failed.
    Memory,
}

impl From<AllocError> for SqlFault {
    ghost from_gives = { λ _ e. e ≡ Memory };

    fn from(_error: AllocError) -> SqlFault {
        SqlFault::Memory
    }
}

impl<T: Drop> From<AllocFailed<T>> for SqlFault {
    ghost from_gives = { λ _ e. e ≡ Memory };

    fn from(_error: AllocFailed<T>) -> SqlFault {
        SqlFault::Memory
    }
}
