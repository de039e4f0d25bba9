ghost use Rattle.std.specs.Prelude.{◌≡◌, true, IfOk, OnErr, option_map};
ghost use Rattle.csv.specs.Reading.{default_config, error_kind, has_failed, records, strip_bom};
ghost use Rattle.csv.specs.Records.{fields_of};
ghost use Rattle.csv_records.specs.Fields.{field as field_in};
ghost use Rattle.csv_records.specs.Interruption.{interruption_of};
ghost use Rattle.csv_records.specs.Upcoming.{IsSetUp, TakesRecord, upcoming};

use crate::interruption::Interruption;
use csv::{ByteRecord, Error, ErrorKind, Reader, ReaderBuilder};
use std::alloc::Global;
use std::io::Read;

/// A reader of records of any length, whose next record is the first.
pub fn open_records<R: Read>(alloc: Global, reader: R) -> Reader<R>
    ensures set_up { IsSetUp result }
    ensures upcoming { upcoming R.remaining result
        ≡ option_map (λ bytes. records default_config (strip_bom bytes)) (R.remaining reader) }
{
    ReaderBuilder::new()
        .has_headers(false)
        .flexible(true)
        .from_reader(alloc, reader)
}

/// Reads the next record, if there is one. Nothing is read after an error.
pub fn read_record<R: Read>(
    reader: &mut Reader<R>,
    row: &mut ByteRecord,
) -> Result<bool, Interruption>
    requires { IsSetUp reader.old }
    ensures set_up { IfOk result (λ found. found ≡ true → IsSetUp reader.new) }
    ensures takes { IfOk result (TakesRecord (upcoming R.remaining reader.old)
        (upcoming R.remaining reader.new) (fields_of row.new)) }
    ensures failed { OnErr result (has_failed reader.new ≡ true) }
{
    reader.read_byte_record(row).map_err(interruption)
}

/// The field at a place, and an empty one where the record has fewer.
pub fn field(row: &ByteRecord, place: usize) -> &[u8]
    ensures { result.now ≡ field_in place (fields_of row.now) }
{
    row.get(place).unwrap_or(&[])
}

fn interruption(error: Error) -> Interruption
    ensures { result ≡ interruption_of (error_kind error) }
{
    match error.into_kind() {
        ErrorKind::OutOfMemory => Interruption::Memory,
        _ => Interruption::Read,
    }
}
