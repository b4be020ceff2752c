//! The table of a CSV file.

ghost use Rattle.std.specs.Prelude.{◌≤◌, ◌+◌, length, IfOk, IfErr, alloc_error};
ghost use Rattle.std.specs.List.{All};
ghost use Rattle.tl_base.specs.Returned.{IsMemoryOr, ReturnsError, ReturnsOk};
ghost use Rattle.tl_base.specs.declared.limits.TheConstants.{MAX_FILE_BYTES, MAX_PAGE_WIDTH};
ghost use Rattle.tl_table.specs.declared.cell.Table.{Table};
ghost use Rattle.tl_table.specs.FewCells.{HasFewCells};
ghost use Rattle.tl_table.specs.Sound.{table_size, IsSound};
ghost use Rattle.tl_table.specs.Spellable.{IsSpellable};
ghost use Rattle.tl_columns.specs.declared.error.CsvError.{CsvError};
ghost use Rattle.tl_columns.specs.declared.error.CsvError.TheVariants.{Memory};
ghost use Rattle.tl_columns.specs.Columns.{IsCsvTable};
ghost use Rattle.tl_columns.specs.Records.{csv_records};
ghost use Rattle.tl_columns.specs.Refused.{IsCsvRefused};
ghost use Rattle.tl_columns.specs.inner.Sizes.{AreOfFile};

use crate::cells::{CellForm, cells_of};
use crate::checks::{check_limits, check_records, column_count};
use crate::error::CsvError;
use crate::records::{Record, records};
use std::alloc::Global;
use tl_base::Breaking;
use tl_table::Table;

/// The table of the records, or what is wrong with them.
fn table_of(alloc: Global, records: &[Record], form: &CellForm<'_>) -> Result<Table, CsvError>
    requires { AreOfFile records.now }
    ensures ok { IfOk result (IsCsvTable records.now form.now.head form.now.least.now form.now.breaking) }
    ensures err { IfErr result (IsMemoryOr (Memory alloc_error) (IsCsvRefused records.now)) }
{
    check_records(records)?;
    check_limits(records)?;
    let cells = cells_of(alloc, records, form)?;
    Ok(Table {
        number: 0,
        cols: column_count(records) as u32,
        rows: records.len() as u32,
        cells,
    })
}

/// The table of a CSV file of at most [`tl_base::MAX_FILE_BYTES`] bytes: a row for each record, a column for
/// each field of the first record, and a cell for each field, whose words are its one paragraph. The
/// records are those of the crate `csv` without a header row and without trimming, of any lengths. With
/// `head` the cells of the first row are header cells. `least[j]` columns is the floor of the first cell of
/// column `j`, at most [`tl_base::MAX_PAGE_WIDTH`]; a number past the last column has no effect. The time
/// and the memory grow with the number of bytes and fields.
pub fn from_csv(
    alloc: Global,
    bytes: &[u8],
    head: bool,
    least: &[u32],
    breaking: Breaking,
) -> Result<Table, CsvError>
    requires size { length bytes.now ≤ MAX_FILE_BYTES }
    requires narrow { All (λ floor. floor ≤ MAX_PAGE_WIDTH) least.now }
    // The table is that of the records, and where they have one, it is returned.
    ensures ok { IfOk result (IsCsvTable (csv_records bytes.now) head least.now breaking) }
    ensures each_ok { (table : Table) → IsCsvTable (csv_records bytes.now) head least.now breaking table
        → ReturnsOk (Memory alloc_error) table result }
    // An error comes only where its cause is the first, and where one is the first, it is returned.
    ensures err { IfErr result (IsMemoryOr (Memory alloc_error) (IsCsvRefused (csv_records bytes.now))) }
    ensures each_err { (error : CsvError) → IsCsvRefused (csv_records bytes.now) error
        → ReturnsError (Memory alloc_error) error result }
    // It holds no more than the file: each cell counts 1, and the last may have neither a comma nor a line end.
    ensures small { IfOk result (λ table. table_size table ≤ length bytes.now + 1) }
    // It is sound, has few cells, and a file of HTML can spell it.
    ensures sound { IfOk result IsSound }
    ensures few { IfOk result HasFewCells }
    ensures spellable { IfOk result (IsSpellable breaking) }
{
    let list = records(alloc, bytes)?;
    let form = CellForm {
        head,
        least,
        breaking,
    };
    table_of(alloc, list.as_slice(), &form)
}
