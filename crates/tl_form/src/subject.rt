//! A document: a table on a page, and which of its sections is due when.

ghost use Rattle.std.specs.Prelude.{◌≡◌, ◌+◌, ◌<◌, ◌≤◌, ◌^◌, IfOk, length, option_map};
ghost use Rattle.std.specs.List.{All, AllZip};
ghost use Rattle.tl_base.specs.declared.limits.TheConstants.{MAX_COLUMNS, MAX_HEIGHT};
ghost use Rattle.tl_table.specs.declared.cell.Table.{Table, out-Table};
ghost use Rattle.tl_form.specs.Expected.{IsDocumentOf, IsTableOf, first_due, next_due, own_number, placed_width};
ghost use Rattle.tl_table.specs.Least.{IsLeastWidth};
ghost use Rattle.tl_table.specs.Numbered.{AreByNumber};
ghost use Rattle.tl_table.specs.Sound.{IsSound, nested_in_table};
ghost use Rattle.tl_form.specs.Subjects.{due_of, meant};

use crate::widths::placed_width;
use std::alloc::{AllocError, Global};
use tl_base::Style;
use tl_cert::Section;
use tl_table::{Table, by_number, least_width, nested};

/// A table on a page in a style, with the least width of it and of each table nested in it.
#[derive(Drop)]
pub struct Subject<'a> {
    pub table: &'a Table,
    pub style: Style,
    /// The page width, in columns of text.
    pub page: u32,
    /// The greatest number of a table.
    pub last: u32,
    /// The least widths of the tables, by their numbers from that of the table itself on.
    pub least: Vec<u32>,
    /// The tables, by their numbers from that of the table itself on.
    pub tables: Vec<&'a Table>,
}

/// A section of this table at this width.
#[derive(Clone, Copy)]
pub struct Due {
    pub table: u32,
    pub width: u32,
}

/// The least widths of the tables, in columns of text, in their order.
fn least_widths(alloc: Global, tables: &[&Table], style: Style) -> Result<Vec<u32>, AllocError>
    requires { All (λ one. IsSound one.now) tables.now }
    ensures each { IfOk result (λ least. AllZip (λ one width. IsLeastWidth one.now style width) tables.now least.items) }
    ensures small { IfOk result (λ least. All (λ width. width ≤ MAX_HEIGHT) least.items) }
{
    let mut least = Vec::new(alloc);
    for one in tables {
        let width = least_width(alloc, one, style)?;
        least.push(width)?;
    }
    Ok(least)
}

impl<'a> Subject<'a> {
    /// The table on a page of so many columns.
    pub fn of(
        alloc: Global,
        table: &'a Table,
        style: Style,
        page: u32,
    ) -> Result<Subject<'a>, AllocError>
        requires sound { IsSound table.now }
        ensures is { IfOk result (λ subject. IsDocumentOf table.now style page (meant subject)) }
        ensures small { IfOk result (λ subject. All (λ least. least ≤ MAX_HEIGHT) subject.least.items) }
        ensures tables { IfOk result (λ subject. AreByNumber subject.table.now subject.tables.items) }
    {
        let tables = by_number(alloc, table)?;
        let least = least_widths(alloc, tables.as_slice(), style)?;
        Ok(Subject {
            table,
            style,
            page,
            last: table.number + nested(table),
            least,
            tables,
        })
    }

    /// The table with this number.
    pub fn table_of(&self, number: u32) -> &'a Table
        requires tables { AreByNumber self.now.table.now self.now.tables.items }
        requires from { own_number (meant self.now) ≤ number }
        requires upto { number ≤ own_number (meant self.now) + nested_in_table self.now.table.now }
        ensures { IsTableOf (meant self.now) number result.now }
    {
        self.tables[(number - self.table.number) as usize]
    }

    /// The first section that is due.
    pub fn first_due(&self) -> Due
        ensures { due_of result ≡ first_due (meant self.now) self.now.last }
    {
        Due {
            table: self.last,
            width: self.page,
        }
    }

    /// What is due after a section of the table with this number whose placement takes so many columns.
    pub fn next_due(&self, number: u32, placed: u32) -> Option<Due>
        requires from { own_number (meant self.now) ≤ number }
        requires there { number < own_number (meant self.now) + length self.now.least.items }
        ensures { option_map due_of result ≡ next_due (meant self.now) number placed }
    {
        let own = self.table.number;
        if number == own {
            return None;
        }
        if placed > self.least[(number - own) as usize] {
            return Some(Due {
                table: number,
                width: placed - 1,
            });
        }
        Some(Due {
            table: number - 1,
            width: self.page,
        })
    }

    /// What is due after this section. `None` exactly after a section of the document's own table.
    pub fn due_after(&self, section: &Section) -> Option<Due>
        requires from { own_number (meant self.now) ≤ section.now.table }
        requires there { section.now.table < own_number (meant self.now) + length self.now.least.items }
        requires few { length section.now.widths ≤ MAX_COLUMNS }
        requires small { placed_width self.now.style section.now < 2 ^ 32 }
        ensures { option_map due_of result ≡ next_due (meant self.now) section.now.table (placed_width self.now.style section.now) }
    {
        let placed = placed_width(self.style, section) as u32;
        self.next_due(section.table, placed)
    }
}
