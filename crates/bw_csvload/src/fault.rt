//! Why a file could not be read as rows.

ghost use Rattle.std.specs.Prelude.{◌≡◌};
ghost use Rattle.bw_csvload.specs.declared.fault.CsvFault.TheVariants.{Memory};

use std::alloc::AllocFailed;

/// Why a file could not be read as rows: its first fault, by record and then by field. Records are counted from 1,
/// including a header, and the fields of a record from 1.
#[derive(Debug, Clone, Copy, PartialEq, Eq)]
pub enum CsvFault {
    /// This record has more or fewer fields than the table has columns.
    Fields(u64),
    /// In this record this field is neither NULL nor an integer.
    NotInteger(u64, u64),
    /// An integer is outside the type of its column.
    Range,
    /// There was not enough memory for the rows or for a record.
    Memory,
}

impl<T: Drop> From<AllocFailed<T>> for CsvFault {
    ghost from_gives = { λ _ fault. fault ≡ Memory };

    fn from(_error: AllocFailed<T>) -> CsvFault {
        CsvFault::Memory
    }
}

/// What is wrong with a field, whatever its position.
#[derive(Debug, Clone, Copy, PartialEq, Eq)]
pub(crate) enum FieldFault {
    /// It is neither NULL nor an integer.
    NotInteger,
    /// It is an integer outside the type of its column.
    Range,
}
