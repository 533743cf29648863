//! Errors of adding or changing rows.

ghost use Rattle.std.specs.Prelude.{◌≡◌};
ghost use Rattle.bw_table.specs.declared.fault.TableFault.TheVariants.{Memory};

use std::alloc::AllocError;

/// Why a table can't take rows or values. The table is unchanged.
#[derive(Clone, Copy, Debug, PartialEq, Eq)]
pub enum TableFault {
    /// The table's rows and the new ones are more than 16,777,216.
    Full,
    /// A copied value is out of range for its target column's type.
    Range,
    /// Out of memory.
    Memory,
}

impl From<AllocError> for TableFault {
    ghost from_gives = { λ _ fault. fault ≡ Memory };

    fn from(_error: AllocError) -> TableFault {
        TableFault::Memory
    }
}
