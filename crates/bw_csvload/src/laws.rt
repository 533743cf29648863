//! Laws of the rows of a file.

ghost use Rattle.std.specs.Prelude.{All, List, length, ℕ, ◌<◌, ◌^◌};
ghost use Rattle.bw_code.specs.Types.{IsRowOf};
ghost use Rattle.bw_code.specs.declared.kind.ColumnType.{ColumnType};
ghost use Rattle.bw_csvload.specs.Fitting.{IsOrFault};
ghost use Rattle.bw_csvload.specs.Rows.{rows_of_file};
ghost use Rattle.bw_csvload.specs.declared.load.FirstRecord.{FirstRecord as AnyFirst};

/// Each row of a file has a cell for each column, null or of the column's type; and a fault of a file is a fault of its
/// text, whose numbers fit 64 bits.
pub fn rows_fit()
    ensures { (types : List ColumnType) (first : AnyFirst) (bytes : List ℕ) → length types < 2 ^ 64 → length bytes < 2 ^ 62 → IsOrFault (All (IsRowOf types)) (rows_of_file types first bytes) }
{}
