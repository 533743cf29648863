//! Why a statement is refused.

ghost use Rattle.std.specs.Prelude.{◌≡◌};
ghost use Rattle.bw_model.specs.Refusals.{refusal_of_csv, refusal_of_fault};
ghost use Rattle.bw_model.specs.declared.refusal.Refusal.TheVariants.{OutOfMemory};

use bw_csvload::CsvFault;
use bw_sql::SqlFault;
use std::alloc::{AllocError, AllocFailed};

/// Why a statement is refused. A refused statement changes nothing.
#[derive(Clone, Copy, Debug, PartialEq, Eq, Drop)]
pub enum Refusal {
    /// Error 10: no statement, or one without a closing `;`.
    Syntax,
    /// Error 11: more than 65,536 bytes.
    StatementTooLong,
    /// Error 12: more than 64 parentheses deep.
    NestedTooDeeply,
    /// Error 13: a number that doesn't fit 64 bits.
    NumberTooLarge,
    /// Error 20.
    NoSuchTable,
    /// Error 21.
    TableExists,
    /// Error 22.
    NoSuchColumn,
    /// Error 23.
    ColumnNamedTwice,
    /// Error 24: too many columns, tables or IN entries.
    OverLimit,
    /// Error 25: a row of VALUES that doesn't have one value for each column.
    WrongNumberOfValues,
    /// Error 26: a value outside its column's type.
    OutOfRange,
    /// Error 27: columns and set functions in one list.
    MixedItems,
    /// Error 28: more rows than a table may have.
    TableFull,
    /// Error 40.
    UnreadableFile,
    /// Error 41.
    UnwritableFile,
    /// Error 42: a record (counted from 1) whose number of fields isn't the number of the table's columns.
    WrongNumberOfFields { record: u64 },
    /// Error 43: a field (counted from 1) that is neither null nor an integer.
    NotInteger { record: u64, field: u64 },
    /// Error 44.
    NotTableFile,
    /// Error 46.
    FileTooLarge,
    /// Error 60: a BIGINT column in layout H, whose codes have at most 32 bits.
    LayoutTooNarrow,
    /// Error 90: an allocation failed.
    OutOfMemory,
}

impl From<SqlFault> for Refusal {
    ghost from_gives = { λ fault refusal. refusal ≡ refusal_of_fault fault };

    fn from(fault: SqlFault) -> Refusal {
        match fault {
            SqlFault::Syntax => Refusal::Syntax,
            SqlFault::TooLong => Refusal::StatementTooLong,
            SqlFault::TooDeep => Refusal::NestedTooDeeply,
            SqlFault::BigNumber => Refusal::NumberTooLarge,
            SqlFault::Memory => Refusal::OutOfMemory,
        }
    }
}

impl From<CsvFault> for Refusal {
    ghost from_gives = { λ fault refusal. refusal ≡ refusal_of_csv fault };

    fn from(fault: CsvFault) -> Refusal {
        match fault {
            CsvFault::Fields(record) => Refusal::WrongNumberOfFields { record },
            CsvFault::NotInteger(record, field) => Refusal::NotInteger { record, field },
            CsvFault::Range => Refusal::OutOfRange,
            CsvFault::Memory => Refusal::OutOfMemory,
        }
    }
}

impl From<AllocError> for Refusal {
    ghost from_gives = { λ _ refusal. refusal ≡ OutOfMemory };

    fn from(_error: AllocError) -> Refusal {
        Refusal::OutOfMemory
    }
}

impl<T: Drop> From<AllocFailed<T>> for Refusal {
    ghost from_gives = { λ _ refusal. refusal ≡ OutOfMemory };

    fn from(_error: AllocFailed<T>) -> Refusal {
        Refusal::OutOfMemory
    }
}
