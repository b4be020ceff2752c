//! The narrowest pages of drawn tables, counted by hand.

ghost use Rattle.std.specs.Prelude.{◌≡◌, ◌≤◌, IfSome};
ghost use Rattle.tl_base.specs.declared.limits.TheConstants.{MAX_BUDGET, MAX_PAGE_WIDTH};
ghost use Rattle.tl_cert.specs.Text.{IsWritable};
ghost use Rattle.tl_table.specs.Sound.{IsSound};

use crate::documents::{MakePlain, run_by, table_of};
use std::alloc::Global;
use std::process::Abort;
use std::test::Fail;
use std::thread::Threads;
use tl_base::{MAX_PAGE_WIDTH, Style};
use tl_cert::{Certificate, Claim};
use tl_narrow::{Aim, Slim, slimmest};
use tl_table::Table;
use tl_verify::verify;

/// A certificate as text, as `at 9 lowest 3`, once it was judged to be valid at its own width.
fn push_certificate(
    rt: &(impl Threads + Sync),
    alloc: Global,
    line: &mut String,
    table: &Table,
    budget: u32,
    certificate: &Option<Certificate>,
) -> Result<(), Fail>
    requires sound { IsSound table.now }
    requires cuts { budget ≤ MAX_BUDGET }
    requires writable { IfSome certificate.now IsWritable }
{
    let Some(certificate) = certificate else {
        line.push_str(" none;")?;
        return Ok(());
    };
    let (width, style) = (certificate.width, certificate.style);
    if width < 1 || width > MAX_PAGE_WIDTH {
        return Err("no page is so wide".into());
    }
    let run = run_by(rt, alloc, 1);
    if verify(&run, table, style, width, budget, certificate).is_err() {
        return Err("a certificate is refused".into());
    }
    let text = match certificate.claim {
        Claim::Lowest(height) => format!(in alloc; " at {width} lowest {height};")?,
        Claim::Bounded(height, lower) => format!(in alloc;
            " at {width} bounded {height} {lower};"
        )?,
        Claim::Narrow(least) => format!(in alloc; " at {width} narrow {least};")?,
    };
    line.push_str(text.as_str())?;
    Ok(())
}

/// What a search tells, as text: its two widths, and the certificates kept, less and spent.
fn told(
    rt: &(impl Threads + Sync),
    alloc: Global,
    table: &Table,
    budget: u32,
    slim: &Slim,
) -> Result<String, Fail>
    requires sound { IsSound table.now }
    requires cuts { budget ≤ MAX_BUDGET }
    requires kept { IfSome slim.now.kept IsWritable }
    requires less { IfSome slim.now.less IsWritable }
    requires spent { IfSome slim.now.spent IsWritable }
{
    let (width, least) = (slim.width, slim.least);
    let mut line = format!(in alloc; "{width} {least};")?;
    push_certificate(rt, alloc, &mut line, table, budget, &slim.kept)?;
    push_certificate(rt, alloc, &mut line, table, budget, &slim.less)?;
    push_certificate(rt, alloc, &mut line, table, budget, &slim.spent)?;
    Ok(line)
}

/// A page in style plain of at most so many lines and columns, by searches of so many cuts.
fn plain(height: u32, most: u32, budget: u32) -> Aim
    ensures most { result.most ≡ most }
    ensures budget { result.budget ≡ budget }
{
    Aim {
        style: Style::Plain,
        height,
        most,
        budget,
    }
}

/// Compares what a search tells with what is wanted.
fn compare(
    rt: &(impl Abort + Threads + Sync),
    alloc: Global,
    file: &str,
    aim: Aim,
    wanted: &str,
) -> Result<(), Fail>
    requires some { 1 ≤ aim.most }
    requires page { aim.most ≤ MAX_PAGE_WIDTH }
    requires cuts { aim.budget ≤ MAX_BUDGET }
{
    let table = table_of(alloc, file)?;
    let maker = MakePlain::new();
    let slim = slimmest(&run_by(rt, alloc, 2), &table, aim, None, &maker)?;
    let line = told(rt, alloc, &table, aim.budget, &slim)?;
    assert_eq!(rt; line.as_str(), wanted);
    Ok(())
}

/// What a second search tells that is given the certificate of the first, which was made for the page of
/// 10 columns, and how many searches it made.
fn after_another(
    rt: &(impl Abort + Threads + Sync),
    alloc: Global,
    file: &str,
    height: u32,
) -> Result<(String, Option<u32>), Fail> {
    let table = table_of(alloc, file)?;
    let run = run_by(rt, alloc, 1);
    let aim = Aim {
        style: Style::Plain,
        height,
        most: 12,
        budget: 5000,
    };
    let maker = MakePlain::new();
    let mut first = slimmest(&run, &table, aim, None, &maker)?;
    if first.width != 10 {
        return Err("another page is the narrowest".into());
    }
    let kept = first.kept.take();
    let maker = MakePlain::new();
    let narrower = Aim {
        style: Style::Plain,
        height,
        most: 10,
        budget: 5000,
    };
    let slim = slimmest(&run, &table, narrower, kept, &maker)?;
    let line = told(rt, alloc, &table, 5000, &slim)?;
    Ok((line, maker.made.number()))
}

/// A table of two columns: it takes 10 columns and 2 lines, or 7 and 3.
const PAIR: &str = "<table><tr><td>aaa bbb<td>cc dd ee</table>";

/// `PAIR` in a cell of its own.
const NESTED: &str = "<table><tr><td><table><tr><td>aaa bbb<td>cc dd ee</table></table>";

/// A table without columns, which takes no line.
const EMPTY: &str = "<table></table>";

#[test]
fn the_narrowest_page_of_two_lines(rt: HostRuntime) -> Result<(), Fail> {
    let wanted = "10 10; at 10 lowest 2; at 9 lowest 3; none;";
    compare(&rt, rt.alloc(), PAIR, plain(2, 500, 5000), wanted)
}

#[test]
fn at_the_least_width_a_chain_shows_that_none_is_narrower(rt: HostRuntime) -> Result<(), Fail> {
    let wanted = "7 7; at 7 lowest 3; at 6 narrow 7; none;";
    compare(&rt, rt.alloc(), PAIR, plain(3, 500, 5000), wanted)
}

#[test]
fn no_page_has_no_lines(rt: HostRuntime) -> Result<(), Fail> {
    let wanted = "0 501; none; at 500 lowest 1; none;";
    compare(&rt, rt.alloc(), PAIR, plain(0, 500, 5000), wanted)
}

#[test]
fn without_cuts_the_search_ends_at_the_widest_page(rt: HostRuntime) -> Result<(), Fail> {
    let wanted = "0 7; none; at 6 narrow 7; at 500 bounded 3 1;";
    compare(&rt, rt.alloc(), PAIR, plain(2, 500, 0), wanted)
}

#[test]
fn a_nested_table_is_as_narrow_as_it_can_be(rt: HostRuntime) -> Result<(), Fail> {
    let wanted = "10 10; at 10 lowest 2; at 9 lowest 3; none;";
    compare(&rt, rt.alloc(), NESTED, plain(2, 500, 5000), wanted)
}

#[test]
fn the_widest_page_may_be_the_only_one(rt: HostRuntime) -> Result<(), Fail> {
    let wanted = "7 7; at 7 lowest 3; at 6 narrow 7; none;";
    compare(&rt, rt.alloc(), PAIR, plain(3, 7, 5000), wanted)
}

#[test]
fn a_page_below_the_least_width_holds_nothing(rt: HostRuntime) -> Result<(), Fail> {
    let wanted = "0 7; none; at 6 narrow 7; none;";
    compare(&rt, rt.alloc(), PAIR, plain(3, 6, 5000), wanted)
}

#[test]
fn a_table_without_columns_takes_the_narrowest_page(rt: HostRuntime) -> Result<(), Fail> {
    let wanted = "1 1; at 1 lowest 0; none; none;";
    compare(&rt, rt.alloc(), EMPTY, plain(0, 500, 5000), wanted)
}

#[test]
fn any_height_is_met_at_the_least_width(rt: HostRuntime) -> Result<(), Fail> {
    let wanted = "7 7; at 7 lowest 3; at 6 narrow 7; none;";
    compare(
        &rt,
        rt.alloc(),
        PAIR,
        plain(1_073_741_824, 500, 5000),
        wanted,
    )
}

#[test]
fn a_framed_page_has_its_own_widths(rt: HostRuntime) -> Result<(), Fail> {
    let wanted = "11 11; at 11 lowest 4; at 10 lowest 5; none;";
    let aim = Aim {
        style: Style::Frame,
        height: 4,
        most: 500,
        budget: 5000,
    };
    compare(&rt, rt.alloc(), PAIR, aim, wanted)
}

#[test]
fn heights_that_were_found_are_enough_without_cuts(rt: HostRuntime) -> Result<(), Fail> {
    let wanted = "7 7; at 7 lowest 3; at 6 narrow 7; none;";
    compare(&rt, rt.alloc(), PAIR, plain(3, 500, 0), wanted)
}

#[test]
fn a_nested_table_without_cuts_ends_the_search(rt: HostRuntime) -> Result<(), Fail> {
    let wanted = "0 7; none; at 6 narrow 7; at 12 bounded 3 2;";
    compare(&rt, rt.alloc(), NESTED, plain(2, 12, 0), wanted)
}

/// The widest page is not tried again: of the pages of 7 to 9 columns those of 8 and 9 are.
#[test]
fn a_page_that_has_its_certificate_is_not_tried(rt: HostRuntime) -> Result<(), Fail> {
    let (line, made) = after_another(&rt, rt.alloc(), PAIR, 2)?;
    assert_eq!(&rt;
        line.as_str(),
        "10 10; at 10 lowest 2; at 9 lowest 3; none;"
    );
    assert_eq!(&rt; made, Some(2));
    Ok(())
}
