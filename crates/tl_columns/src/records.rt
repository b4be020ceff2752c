//! The records of a CSV file, as the crate `csv` reads them. No other module knows that crate.

ghost use Rattle.std.specs.Prelude.{◌≡◌, ◌<◌, [], length, get_or, IfOk};
ghost use Rattle.tl_columns.specs.Records.{csv_records};

use csv::{ByteRecord, ReaderBuilder};
use std::alloc::{AllocError, Global};
use std::marker::Model;
use tl_base::List;

/// A record. Contracts see it as the list of its fields, each by its bytes.
#[derive(Drop)]
pub(crate) struct Record {
    row: ByteRecord,
}

impl Model for Record {
    ghost use Rattle.std.specs.Prelude.{List, ℕ};
    ghost use Rattle.csv.specs.Records.{fields_of};

    ghost Value = { List (List ℕ) };

    ghost view = { λ it. fields_of it.row };
}

impl Record {
    /// The number of fields.
    pub(crate) fn len(&self) -> usize
        ensures { result ≡ length self.now }
    {
        self.row.len()
    }

    /// The bytes of the field in that column, counted from 0.
    pub(crate) fn field(&self, column: usize) -> &[u8]
        requires { column < length self.now }
        ensures { result.now ≡ get_or self.now column [] }
    {
        match self.row.get(column) {
            Some(field) => field,
            None => unreachable!(),
        }
    }
}

/// The records of the bytes: commas, double quotes, any line ends, no header row, records of any
/// lengths. A reader of bytes in memory fails for want of memory alone.
pub(crate) fn records(alloc: Global, bytes: &[u8]) -> Result<List<Record>, AllocError>
    ensures { IfOk result (λ list. list ≡ csv_records bytes.now) }
{
    let reader = ReaderBuilder::new()
        .has_headers(false)
        .flexible(true)
        .from_reader(alloc, bytes);
    let mut list = List::new(alloc);
    for row in reader.into_byte_records() {
        match row {
            Ok(row) => list.push(Record { row })?,
            Err(_) => return Err(AllocError),
        }
    }
    Ok(list)
}
