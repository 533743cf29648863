//! The records of a text, one after another.

ghost use Rattle.std.specs.Prelude.{◌≡◌, ◌≤◌, ◌+◌, length, ◌∷◌, [], true, IfOk, IfErr, ◌<◌};
ghost use Rattle.std.specs.Bool.{MatchBool};
ghost use Rattle.csv.specs.Records.{fields_of};
ghost use Rattle.bw_csvload.specs.Records.{IsReading, records_left};
ghost use Rattle.bw_csvload.specs.Rows.{csv_records};

use crate::fault::CsvFault;
use csv::{ByteRecord, Reader, ReaderBuilder};
use std::alloc::Global;

/// A reader of the records of this text.
pub(crate) fn records_of(alloc: Global, text: &[u8]) -> Reader<&[u8]>
    ensures reading { IsReading result }
    ensures records { records_left result ≡ csv_records text.now }
    ensures few { length (records_left result) ≤ length text.now + 1 }
{
    ReaderBuilder::new()
        .has_headers(false)
        .flexible(true)
        .from_reader(alloc, text)
}

/// Reads the next record, if there is one. Reading a slice does not fail, and records of any length are accepted, so
/// the only error is out of memory.
pub(crate) fn read_next(
    reader: &mut Reader<&[u8]>,
    fields: &mut ByteRecord,
) -> Result<bool, CsvFault>
    requires { IsReading reader.old }
    ensures reading { IfOk result (λ found. found ≡ true → IsReading reader.new) }
    ensures next { IfOk result (λ found. MatchBool found (records_left reader.old ≡ fields_of fields.new ∷ records_left reader.new) (records_left reader.old ≡ [])) }
    ensures memory { IfErr result (λ fault. fault ≡ CsvFault.Memory) }
{
    let Ok(found) = reader.read_byte_record(fields) else {
        return Err(CsvFault::Memory);
    };
    Ok(found)
}
