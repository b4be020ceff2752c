//! What the sections of a certificate tell of the tables nested directly in a table: at each width a
//! height that no layout is below, and one that a layout has.

ghost use Rattle.std.specs.Prelude.{◌≡◌, ℕ, ◌≤◌, List, IfOk, MatchOption};
ghost use Rattle.std.specs.Option.{option_copied};
ghost use Rattle.std.specs.List.{All};
ghost use Rattle.tl_base.specs.declared.limits.TheConstants.{MAX_PAGE_WIDTH};
ghost use Rattle.tl_base.specs.declared.steps.Config.{Config};
ghost use Rattle.tl_table.specs.declared.cell.Table.{out-Table};
ghost use Rattle.tl_table.specs.declared.cell.TableCell.{out-TableCell};
ghost use Rattle.tl_form.specs.declared.heights.InnerSteps.{InnerSteps};
ghost use Rattle.tl_form.specs.Expected.{placed_width};
ghost use Rattle.tl_table.specs.Least.{IsLeastWidth};
ghost use Rattle.tl_form.specs.Nested.{AreInnerSteps, AreStepsBy};
ghost use Rattle.tl_form.specs.Problems.{HasSoundProblem};
ghost use Rattle.tl_table.specs.Sound.{IsSound, IsSoundCell};
ghost use Rattle.tl_table.specs.Tables.{inner_tables, tables_in};
ghost use Rattle.tl_form.specs.inner.Collecting.{AreToldSteps, Collects, IsAsWideAs, IsFewest, IsMost, IsPlacedIn, LackSteps, TellsHeight};
ghost use Rattle.tl_form.specs.inner.Collecting.{capped, greater, is_below, lesser, told_by, with_step};

use crate::heights::{HeightBound, InnerSteps};
use crate::problems::has_sound_problem;
use std::alloc::{AllocError, Global};
use tl_base::{Config, List, Steps, Style};
use tl_cert::Section;
use tl_table::{Content, Table, TableCell, least_width};

/// What one section tells of its table.
#[derive(Clone, Copy)]
pub struct Finding {
    /// The page width that was searched, in columns.
    pub width: u32,
    /// How many columns the placement takes, up to the last number of 64 bits.
    pub placed: u64,
    /// The height of the placement, in lines.
    pub height: u32,
    /// No layout on the page has a height below this, in lines.
    pub lower: u32,
}

/// The columns that the placement of the section takes, up to the last number of 64 bits.
fn placed_width(section: &Section, style: Style) -> u64
    ensures { result ≡ capped (placed_width style section.now) }
{
    let widths = section.widths.as_slice();
    if widths.is_empty() {
        return 0;
    }
    let gaps = u64::from(style.gap()).saturating_mul(widths.len() as u64 - 1);
    let mut width = gaps.saturating_add(u64::from(style.edges()));
    for &each in widths {
        width = width.saturating_add(u64::from(each));
    }
    width
}

/// What the sections of a table tell, in their order.
fn told_by(
    alloc: Global,
    sections: &[Section],
    style: Style,
    number: u32,
) -> Result<Vec<Finding>, AllocError>
    ensures { IfOk result (λ told. told.items ≡ told_by style number sections.now) }
{
    let mut told = Vec::new(alloc);
    for section in sections {
        if section.table == number {
            told.push(Finding {
                width: section.width,
                placed: placed_width(section, style),
                height: section.height,
                lower: section.lower,
            })?;
        }
    }
    Ok(told)
}

/// The greater of the number that is known, if one is, and another.
fn greater(known: Option<u32>, n: u32) -> u32
    ensures { result ≡ greater known n }
{
    match known {
        None => n,
        Some(known) => known.max(n),
    }
}

/// The lesser of the number that is known, if one is, and another.
fn lesser(known: Option<u32>, n: u32) -> u32
    ensures { result ≡ lesser known n }
{
    match known {
        None => n,
        Some(known) => known.min(n),
    }
}

/// The greatest lower bound on pages of at least `w` columns. `None` exactly where no section has one.
fn greatest_lower(told: &[Finding], w: u32) -> Option<u32>
    ensures { MatchOption result (All (λ one. IsAsWideAs w one → ⊥) told.now)
        (IsMost (IsAsWideAs w) (λ one. one.lower) told.now) }
{
    let mut greatest = None;
    for one in told {
        if w <= one.width {
            greatest = Some(greater(greatest, one.lower));
        }
    }
    greatest
}

/// The least height of the placements of at most `w` columns. `None` exactly where there is none.
fn least_height(told: &[Finding], w: u64) -> Option<u32>
    ensures { MatchOption result (All (λ one. IsPlacedIn w one → ⊥) told.now)
        (IsFewest (IsPlacedIn w) (λ one. one.height) told.now) }
{
    let mut least = None;
    for one in told {
        if one.placed <= w {
            least = Some(lesser(least, one.height));
        }
    }
    least
}

/// The height at a width, as a bound of either kind. `None` exactly where no section tells one.
fn height_by(bound: HeightBound, told: &[Finding], w: u32) -> Option<u32>
    ensures { MatchOption result ((h : ℕ) → TellsHeight bound told.now w h → ⊥)
        (TellsHeight bound told.now w) }
{
    match bound {
        HeightBound::Low => greatest_lower(told, w),
        HeightBound::High => least_height(told, u64::from(w)),
    }
}

/// Whether the height is below that of the last step, if there is one.
fn is_below(last: Option<&Config>, height: u32) -> bool
    ensures { result ≡ is_below (option_copied last.entry) height }
{
    match last {
        None => true,
        Some(last) => height < last.height,
    }
}

/// The steps with one more at the width, where it is lower.
fn with_step(mut configs: List<Config>, width: u32, height: u32) -> Result<List<Config>, AllocError>
    ensures { IfOk result (λ after. after ≡ with_step configs width height) }
{
    if is_below(configs.as_slice().last(), height) {
        configs.push(Config { width, height })?;
    }
    Ok(configs)
}

/// The steps of a bound from the least width up to `page` columns. `None` exactly where there are none.
fn bound_steps(
    alloc: Global,
    bound: HeightBound,
    told: &[Finding],
    least: u32,
    page: u32,
) -> Result<Option<Steps>, AllocError>
    requires { page ≤ MAX_PAGE_WIDTH }
    ensures { IfOk result (λ found. MatchOption found
        ((steps : List Config) → AreToldSteps bound told.now least page steps → ⊥)
        (AreToldSteps bound told.now least page)) }
{
    if page < least {
        return Ok(None);
    }
    let mut configs = List::new(alloc);
    for w in least..page + 1 {
        let Some(height) = height_by(bound, told, w) else {
            return Ok(None);
        };
        configs = with_step(configs, w, height)?;
    }
    Ok(Some(Steps::from_list(configs)))
}

/// The steps of a nested table. `None` exactly where it has none.
fn steps_of(
    alloc: Global,
    nested: &Table,
    style: Style,
    page: u32,
    sections: &[Section],
) -> Result<Option<InnerSteps>, AllocError>
    requires sound { IsSound nested.now }
    requires page { page ≤ MAX_PAGE_WIDTH }
    ensures { IfOk result (λ found. MatchOption found
        ((steps : InnerSteps) → AreStepsBy style page sections.now nested.now steps → ⊥)
        (AreStepsBy style page sections.now nested.now)) }
{
    let told = told_by(alloc, sections, style, nested.number)?;
    let least = least_width(alloc, nested, style)?;
    let Some(low) = bound_steps(alloc, HeightBound::Low, &told, least, page)? else {
        return Ok(None);
    };
    let Some(high) = bound_steps(alloc, HeightBound::High, &told, least, page)? else {
        return Ok(None);
    };
    Ok(Some(InnerSteps {
        table: nested.number,
        low,
        high,
    }))
}

/// The steps of the tables nested in a cell, after those of the cells before it. `None` exactly where
/// one of these tables has none.
fn steps_in_cell(
    alloc: Global,
    cell: &TableCell,
    style: Style,
    page: u32,
    sections: &[Section],
    mut inner: List<InnerSteps>,
) -> Result<Option<List<InnerSteps>>, AllocError>
    requires sound { IsSoundCell (out-TableCell cell.now) }
    requires page { page ≤ MAX_PAGE_WIDTH }
    ensures { IfOk result (λ found. MatchOption found
        (LackSteps style page sections.now (tables_in (out-TableCell cell.now)))
        (Collects style page sections.now (tables_in (out-TableCell cell.now)) inner)) }
{
    for block in cell.blocks.as_slice() {
        match block {
            Content::Para(_) => {}
            Content::Table(nested) => {
                let Some(steps) = steps_of(alloc, nested, style, page, sections)? else {
                    return Ok(None);
                };
                inner.push(steps)?;
            }
        }
    }
    Ok(Some(inner))
}

/// The steps of the tables nested directly in a table, in the order of its cells and their blocks.
/// `None` exactly where one of them has none.
pub(crate) fn collected_steps(
    alloc: Global,
    table: &Table,
    style: Style,
    page: u32,
    sections: &[Section],
) -> Result<Option<List<InnerSteps>>, AllocError>
    requires sound { IsSound table.now }
    requires page { page ≤ MAX_PAGE_WIDTH }
    ensures { IfOk result (λ found. MatchOption found
        (LackSteps style page sections.now (inner_tables (out-Table table.now)))
        (AreInnerSteps table.now style page sections.now)) }
{
    let mut inner = List::new(alloc);
    for cell in table.cells.as_slice() {
        let Some(more) = steps_in_cell(alloc, cell, style, page, sections, inner)? else {
            return Ok(None);
        };
        inner = more;
    }
    Ok(Some(inner))
}

/// The steps that sections give the tables nested directly in a table, up to `width` columns: `low` is
/// the greatest lower bound of a nested table's sections on pages at least as wide, `high` the least
/// height of those whose placements are no wider. `None` exactly where one of these tables has no such
/// steps, or the problem of the table with them is not sound. Sections of other tables change nothing.
/// The time grows with the widths, the nested tables and the sections.
pub fn inner_steps(
    alloc: Global,
    table: &Table,
    style: Style,
    width: u32,
    sections: &[Section],
) -> Result<Option<List<InnerSteps>>, AllocError>
    requires sound { IsSound table.now }
    requires narrow { width ≤ MAX_PAGE_WIDTH }
    requires wide { (least : ℕ) → IsLeastWidth table.now style least → least ≤ width }
    ensures { IfOk result (λ found. MatchOption found
        ((inner : List InnerSteps) → AreInnerSteps table.now style width sections.now inner
        → HasSoundProblem table.now style width inner → ⊥)
        (λ inner. AreInnerSteps table.now style width sections.now inner
        × HasSoundProblem table.now style width inner)) }
{
    let Some(inner) = collected_steps(alloc, table, style, width, sections)? else {
        return Ok(None);
    };
    if has_sound_problem(alloc, table, style, width, inner.as_slice())? {
        Ok(Some(inner))
    } else {
        Ok(None)
    }
}
