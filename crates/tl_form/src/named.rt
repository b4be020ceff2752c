//! The layout that a certificate names.

ghost use Rattle.std.specs.Prelude.{◌≡◌, ◌<◌, ◌≤◌, ℕ, length, get_or, sum, IfOk, IsTrue, ◌↔◌, MatchOption};
ghost use Rattle.std.specs.List.{AllByRecursion};
ghost use Rattle.std.specs.Option.{ForSome};
ghost use Rattle.tl_base.specs.declared.limits.TheConstants.{MAX_COLUMNS, MAX_PAGE_WIDTH};
ghost use Rattle.tl_base.specs.Style.{gap_of};
ghost use Rattle.tl_base.specs.Sizes.{room};
ghost use Rattle.tl_cert.specs.declared.section.Section.{Section};
ghost use Rattle.tl_cert.specs.Text.{IsNarrow, IsWritable};
ghost use Rattle.tl_table.specs.declared.cell.Content.{out-Content};
ghost use Rattle.tl_table.specs.declared.cell.Table.{out-Table};
ghost use Rattle.tl_table.specs.declared.cell.TableCell.{out-TableCell};
ghost use Rattle.tl_table.specs.Layouts.{Fits};
ghost use Rattle.tl_form.specs.Named.{IsChosen, IsLastPlacement, IsNamed};
ghost use Rattle.tl_form.specs.Nested.{IsPlacedWithin};
ghost use Rattle.tl_table.specs.Sound.{IsSound};
ghost use Rattle.tl_table.specs.Tables.{tables_in, tables_of};
ghost use Rattle.tl_form.specs.Valid.{IsValid};
ghost use Rattle.tl_form.specs.ValidLaws.{HasHeight};
ghost use Rattle.tl_form.specs.inner.Naming.{CanLay, HasPart, HasRooms, HaveFewColumns, IsLaidWith, IsLower, IsPlacedBy, LaysOut, NoneWithin};

use crate::laid::lay;
use crate::widths::placed_width;
use std::alloc::{AllocError, Global};
use tl_base::{List, Style, room_on_page};
use tl_cert::{Certificate, Section};
use tl_problem::Placed;
use tl_table::{Content, Layout, Table, TableCell};

/// Whether the section is one of the table with this number, and its placement takes at most `room`
/// columns.
fn is_within(section: &Section, style: Style, number: u32, room: u32) -> bool
    requires { length section.now.widths ≤ MAX_COLUMNS }
    ensures { IsTrue result ↔ IsPlacedWithin style number room section.now }
{
    section.table == number && placed_width(style, section) <= u64::from(room)
}

/// Whether the section is lower than the best so far, if there is one.
fn is_lower(sections: &[Section], i: usize, best: Option<usize>) -> bool
    requires there { i < length sections.now }
    requires best { ForSome best (λ best. best < length sections.now) }
    ensures { IsTrue result ↔ IsLower sections.now i best }
{
    match best {
        Some(best) => sections[i].height < sections[best].height,
        None => true,
    }
}

/// The section by which the table with this number is laid out in a room of so many columns: the first
/// of the least height among those whose placements the room holds.
fn chosen(sections: &[Section], style: Style, number: u32, room: u32) -> Option<usize>
    requires { HaveFewColumns sections.now }
    ensures { MatchOption result (NoneWithin style sections.now number room (length sections.now))
        (IsChosen style sections.now number room) }
{
    let mut best: Option<usize> = None;
    for i in 0..sections.len() {
        if is_within(&sections[i], style, number, room) && is_lower(sections, i, best) {
            best = Some(i);
        }
    }
    best
}

/// The placement of the section with this place in the certificate, which is one of the table.
fn placed_by(
    alloc: Global,
    table: &Table,
    style: Style,
    sections: &[Section],
    at: usize,
) -> Result<Placed, AllocError>
    requires part { HasPart style sections.now table.now }
    requires there { at < length sections.now }
    requires own { (d : Section) → (get_or sections.now at d).table ≡ (out-Table table.now).number }
    ensures own { IfOk result (IsPlacedBy style sections.now at table.now) }
    ensures rooms { IfOk result (HasRooms style sections.now (out-Table table.now)) }
{
    let laid = lay(alloc, table, style, &sections[..at], &sections[at])?.unwrap();
    Ok(laid.into_placed())
}

/// The layout of the table with the placement of one of its sections.
#[cycle(layout)]
fn layout_on(
    alloc: Global,
    table: &Table,
    style: Style,
    sections: &[Section],
    placed: Placed,
) -> Result<Layout, AllocError>
    requires { HasRooms style sections.now (out-Table table.now) placed }
    ensures { IfOk result (IsLaidWith style sections.now table.now placed) }
{
    let mut inner = List::new(alloc);
    for cell in table.cells.as_slice() {
        inner = with_cell(
            alloc,
            cell,
            style,
            sections,
            placed.widths.as_slice(),
            inner,
        )?;
    }
    Ok(Layout {
        widths: placed.widths,
        heights: placed.heights,
        inner,
    })
}

/// The layouts, and after them those of the tables nested in the cell.
#[cycle(layout)]
fn with_cell(
    alloc: Global,
    cell: &TableCell,
    style: Style,
    sections: &[Section],
    widths: &[u32],
    mut inner: List<Layout>,
) -> Result<List<Layout>, AllocError>
    requires sum { sum widths.now ≤ MAX_PAGE_WIDTH }
    requires few { length widths.now ≤ MAX_COLUMNS }
    requires some { (out-TableCell cell.now).place.left < (out-TableCell cell.now).place.right }
    requires within { (out-TableCell cell.now).place.right ≤ length widths.now }
    requires can { AllByRecursion (CanLay style sections.now
        (room (gap_of style) widths.now (out-TableCell cell.now).place.left (out-TableCell cell.now).place.right))
        (tables_in (out-TableCell cell.now)) }
    ensures { IfOk result (LaysOut style sections.now
        (room (gap_of style) widths.now (out-TableCell cell.now).place.left (out-TableCell cell.now).place.right)
        (tables_in (out-TableCell cell.now)) inner) }
{
    let room = room_on_page(style.gap(), widths, cell.place.left, cell.place.right);
    for block in cell.blocks.as_slice() {
        inner = with_block(alloc, block, style, sections, room, inner)?;
    }
    Ok(inner)
}

/// The layouts, and after them that of the table that the block is, if it is one.
#[cycle(layout)]
fn with_block(
    alloc: Global,
    block: &Content,
    style: Style,
    sections: &[Section],
    room: u32,
    mut inner: List<Layout>,
) -> Result<List<Layout>, AllocError>
    requires { AllByRecursion (CanLay style sections.now room) (tables_of (out-Content block.now)) }
    ensures { IfOk result (LaysOut style sections.now room (tables_of (out-Content block.now)) inner) }
{
    match block {
        Content::Para(_) => Ok(inner),
        Content::Table(table) => {
            let at = chosen(sections, style, table.number, room).unwrap();
            let placed = placed_by(alloc, table, style, sections, at)?;
            let layout = layout_on(alloc, table, style, sections, placed)?;
            inner.push(layout)?;
            Ok(inner)
        }
    }
}

/// The layout of the table that the certificate names: the table is laid out by the last section, and a
/// nested table in a room by the first of its sections with the least height among those whose
/// placements the room holds. It fits the page of the certificate, with the height that is claimed. The
/// error is out of memory.
pub fn layout(
    alloc: Global,
    table: &Table,
    style: Style,
    certificate: &Certificate,
) -> Result<Layout, AllocError>
    requires sound { IsSound table.now }
    requires written { IsWritable certificate.now }
    requires valid { IsValid table.now style certificate.now.width certificate.now.budget certificate.now }
    requires wide_enough { IsNarrow certificate.now.claim → ⊥ }
    ensures named { IfOk result (IsNamed table.now style certificate.now) }
    ensures fits { IfOk result (λ layout. (height : ℕ) → HasHeight certificate.now.claim height →
        Fits table.now style certificate.now.width height layout) }
{
    let sections = certificate.sections.as_slice();
    let placed = placed_by(alloc, table, style, sections, sections.len() - 1)?;
    layout_with(alloc, table, style, certificate, placed)
}

/// The same layout, with the placement of the last section, which a search has at hand: it is not found
/// again from the section's widths. The error is out of memory.
pub fn layout_with(
    alloc: Global,
    table: &Table,
    style: Style,
    certificate: &Certificate,
    placed: Placed,
) -> Result<Layout, AllocError>
    requires sound { IsSound table.now }
    requires written { IsWritable certificate.now }
    requires valid { IsValid table.now style certificate.now.width certificate.now.budget certificate.now }
    requires wide_enough { IsNarrow certificate.now.claim → ⊥ }
    requires placed { IsLastPlacement table.now style certificate.now.width certificate.now.sections placed }
    ensures named { IfOk result (IsNamed table.now style certificate.now) }
    ensures fits { IfOk result (λ layout. (height : ℕ) → HasHeight certificate.now.claim height →
        Fits table.now style certificate.now.width height layout) }
{
    layout_on(alloc, table, style, certificate.sections.as_slice(), placed)
}
