//! The greatest number of columns up to which words may stay whole.

ghost use Rattle.std.specs.Prelude.{◌≡◌, IfOk, IfSome, IfNone};
ghost use Rattle.tl_base.specs.declared.breaking.Breaking.TheVariants.{Words, Wider};
ghost use Rattle.tl_fit.specs.Fit.{IsFit, IsGreatest};
ghost use Rattle.tl_fit.specs.inner.Trials.{IsTrial, IsNoTable, IsNeverRefused};
ghost use Rattle.tl_read.specs.Reading.{with_breaking};

use crate::units::widest_in_table;
use std::alloc::{AllocError, Global};
use tl_base::{Breaking, MAX_PAGE_WIDTH, Style};
use tl_read::{Reading, Source, read};
use tl_table::{file_spells_one_table, least_width};

/// What it comes to that words of at most so many columns stay whole.
#[derive(Clone, Copy)]
struct Trial {
    /// The least width of a page that holds the table, in columns.
    least: u32,
    /// The width of the widest unit of at most so many columns.
    widest: u32,
}

/// The breaking with which a page of `width` columns holds the table of the bytes, and as few words as can
/// be may break: none where all may stay whole; else those that are wider than the greatest number of columns
/// with which a page of the width holds it, up to [`MAX_PAGE_WIDTH`]; and every word where no number does.
/// Where the bytes are no table, all stay whole. The breaking of the source itself counts for nothing. The
/// error is out of memory.
///
/// It costs a reading and a least width for each width of a unit that is tried, from the greatest on.
pub fn fit(
    alloc: Global,
    bytes: &[u8],
    source: &Source,
    style: Style,
    width: u32,
) -> Result<Breaking, AllocError>
    ensures { IfOk result (IsFit source.now style width bytes.now) }
{
    file_spells_one_table();
    let whole = source.with_breaking(Breaking::Words);
    match tried(alloc, bytes, whole, style, MAX_PAGE_WIDTH)? {
        Some(trial) if trial.least > width => {
            let most = greatest(alloc, bytes, source, style, width)?;
            Ok(Breaking::Wider(most))
        }
        _ => Ok(Breaking::Words),
    }
}

/// The greatest number of columns up to [`MAX_PAGE_WIDTH`] with which, the words of at most so many columns
/// whole, a page of `width` columns holds the table of the bytes; or 0 where there is none.
fn greatest(
    alloc: Global,
    bytes: &[u8],
    source: &Source,
    style: Style,
    width: u32,
) -> Result<u32, AllocError>
    requires { IsNeverRefused (with_breaking Words source.now) bytes.now }
    ensures { IfOk result (IsGreatest source.now style width bytes.now) }
{
    file_spells_one_table();
    let mut most = MAX_PAGE_WIDTH;
    while most > 0 {
        let trial = tried_within(alloc, bytes, source, style, most)?;
        if trial.least <= width {
            return Ok(most);
        }
        // No number between breaks other words: the units are those that there are.
        most = trial.widest.saturating_sub(1);
    }
    Ok(0)
}

/// What the table of the bytes comes to, where words of at most `most` columns stay whole.
fn tried_within(
    alloc: Global,
    bytes: &[u8],
    source: &Source,
    style: Style,
    most: u32,
) -> Result<Trial, AllocError>
    requires { IsNeverRefused (with_breaking Words source.now) bytes.now }
    ensures { IfOk result (IsTrial (with_breaking (Wider most) source.now) style most bytes.now) }
{
    let broken = source.with_breaking(Breaking::Wider(most));
    match tried(alloc, bytes, broken, style, most)? {
        Some(trial) => Ok(trial),
        // Whether bytes are refused does not stand on the breaking.
        None => unreachable!(),
    }
}

/// What the table of the bytes comes to, where units of at most `most` columns are looked at; `None` where
/// the bytes are no table.
fn tried(
    alloc: Global,
    bytes: &[u8],
    source: Source,
    style: Style,
    most: u32,
) -> Result<Option<Trial>, AllocError>
    ensures trial { IfOk result (λ found. IfSome found (IsTrial source style most bytes.now)) }
    ensures never { IfOk result (λ found. IfSome found (λ _. IsNeverRefused source bytes.now)) }
    ensures none { IfOk result (λ found. IfNone found (IsNoTable source bytes.now)) }
{
    let Reading::Table(table) = read(alloc, bytes, source)? else {
        return Ok(None);
    };
    let least = least_width(alloc, &table, style)?;
    let widest = widest_in_table(&table, most);
    Ok(Some(Trial { least, widest }))
}
