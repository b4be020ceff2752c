//! Sections of drawn documents, counted by hand.

ghost use Rattle.std.specs.Prelude.{◌≤◌};
ghost use Rattle.tl_base.specs.declared.limits.TheConstants.{MAX_BUDGET, MAX_PAGE_WIDTH};

use crate::documents::{Count, MakePlain, Meeting, run_by, table_of};
use std::alloc::{AllocError, Global};
use std::process::Abort;
use std::test::Fail;
use std::thread::Threads;
use tl_base::{Gate, Style};
use tl_cert::Section;
use tl_fan::Run;
use tl_nested::sections;
use tl_solve::{Progress, Watcher};
use tl_table::least_width;

/// A gate that writes down when the pieces 0 to 3 come, from 1 on.
#[derive(Drop)]
struct Arrivals {
    count: Count,
    times: [Count; 4],
}

impl Gate for Arrivals {
    fn pass(&self, piece: u32) {
        if let Some(before) = self.count.add(1) {
            self.times[(piece % 4) as usize].add(before.wrapping_add(1));
        }
    }
}

impl Watcher for Arrivals {
    fn wants(&self, _before: u32, _cuts: u32) -> bool {
        false
    }

    fn see(&self, _progress: Progress) {}
}

/// A section as text: its table, width, height and lower bound, and the widths of its columns, as
/// `1 12 2 2: 3 5;`.
fn push_section(alloc: Global, line: &mut String, section: &Section) -> Result<(), AllocError> {
    let (number, width) = (section.table, section.width);
    let (height, lower) = (section.height, section.lower);
    line.push_str(format!(in alloc; "{number} {width} {height} {lower}:")?.as_str())?;
    for each in section.widths.as_slice() {
        line.push_str(format!(in alloc; " {each}")?.as_str())?;
    }
    line.push(';')
}

/// The sections of a file on a page in style plain, as text. Each is searched once.
fn sections_of<R: Abort + Threads + Sync, G: Gate + Watcher>(
    run: &Run<'_, R, G>,
    file: &str,
    width: u32,
    budget: u32,
) -> Result<String, Fail>
    requires page { width ≤ MAX_PAGE_WIDTH }
    requires cuts { budget ≤ MAX_BUDGET }
{
    let alloc = run.alloc;
    let table = table_of(alloc, file)?;
    let least = least_width(alloc, &table, Style::Plain)?;
    if width < least {
        return Err("no layout fits the page".into());
    }
    let style = Style::Plain;
    let maker = MakePlain::new();
    let found = sections(run, &table, style, width, budget, &maker)?;
    assert_eq!(run.rt; maker.made.number(), u32::try_from(found.len()).ok());
    let mut line = String::new(alloc);
    for section in found.as_slice() {
        push_section(alloc, &mut line, section)?;
    }
    Ok(line)
}

/// Compares the sections of a file by 1, 2 and 16 workers with those that are wanted.
fn compare(
    rt: &(impl Abort + Threads + Sync),
    alloc: Global,
    file: &str,
    width: u32,
    budget: u32,
    wanted: &str,
) -> Result<(), Fail>
    requires page { width ≤ MAX_PAGE_WIDTH }
    requires cuts { budget ≤ MAX_BUDGET }
{
    let found = sections_of(&run_by(rt, alloc, 1), file, width, budget)?;
    assert_eq!(rt; found.as_str(), wanted);
    let found = sections_of(&run_by(rt, alloc, 2), file, width, budget)?;
    assert_eq!(rt; found.as_str(), wanted);
    let found = sections_of(&run_by(rt, alloc, 16), file, width, budget)?;
    assert_eq!(rt; found.as_str(), wanted);
    Ok(())
}

/// A table of two columns: it takes 10 columns and 2 lines, or 7 and 3.
const PAIR: &str = "<table><tr><td>aaa bbb</td><td>cc dd ee</td></tr></table>";

/// `PAIR` in a cell of its own.
const NESTED: &str =
    "<table><tr><td><table><tr><td>aaa bbb</td><td>cc dd ee</td></tr></table></table>";

/// Two nested tables, side by side.
const BESIDE: &str =
    "<table><tr><td><table><tr><td>aa bb</table><td><table><tr><td>cc dd</table></table>";

/// A table in a table in a table.
const DEEP: &str = "<table><tr><td><table><tr><td><table><tr><td>a bb</table></table></table>";

/// A table with two nested tables, in the first of which there is a third.
const FORKED: &str =
    "<table><tr><td><table><tr><td><table><tr><td>a</table></table><td><table><tr><td>b</table></table>";

/// A table in a table, and so on, eight in all.
const DEEPEST: &str = "<table><tr><td><table><tr><td><table><tr><td><table><tr><td>\
     <table><tr><td><table><tr><td><table><tr><td><table><tr><td>a bb\
     </table></table></table></table></table></table></table></table>";

const DEEPEST_SECTIONS: &str =
    "7 5 1 1: 4;7 3 2 2: 2;6 5 1 1: 4;6 3 2 2: 2;5 5 1 1: 4;5 3 2 2: 2;4 5 1 1: 4;4 3 2 2: 2;\
     3 5 1 1: 4;3 3 2 2: 2;2 5 1 1: 4;2 3 2 2: 2;1 5 1 1: 4;1 3 2 2: 2;0 5 1 1: 4;";

#[test]
fn a_table_alone_has_one_section(rt: HostRuntime) -> Result<(), Fail> {
    compare(&rt, rt.alloc(), PAIR, 12, 100, "0 12 2 2: 3 5;")
}

#[test]
fn a_nested_table_has_a_section_for_each_narrower_placement(rt: HostRuntime) -> Result<(), Fail> {
    compare(
        &rt,
        rt.alloc(),
        NESTED,
        12,
        100,
        "1 12 2 2: 3 5;1 9 3 3: 3 2;0 12 2 2: 10;",
    )
}

#[test]
fn on_a_narrow_page_a_nested_table_has_fewer_sections(rt: HostRuntime) -> Result<(), Fail> {
    compare(&rt, rt.alloc(), NESTED, 9, 100, "1 9 3 3: 3 2;0 9 3 3: 7;")
}

#[test]
fn at_the_least_width_each_table_has_one_section(rt: HostRuntime) -> Result<(), Fail> {
    compare(&rt, rt.alloc(), NESTED, 7, 100, "1 7 3 3: 3 2;0 7 3 3: 7;")
}

#[test]
fn without_cuts_a_height_found_is_no_lower_bound(rt: HostRuntime) -> Result<(), Fail> {
    compare(&rt, rt.alloc(), NESTED, 12, 0, "1 12 3 2: 3 2;0 12 3 2: 7;")
}

#[test]
fn tables_side_by_side_come_from_the_greatest_number_down(rt: HostRuntime) -> Result<(), Fail> {
    let wanted = "2 12 1 1: 5;2 4 2 2: 2;1 12 1 1: 5;1 4 2 2: 2;0 12 1 1: 5 5;";
    compare(&rt, rt.alloc(), BESIDE, 12, 100, wanted)
}

#[test]
fn three_tables_inside_one_another_are_searched_from_the_inside(
    rt: HostRuntime,
) -> Result<(), Fail> {
    let wanted = "2 5 1 1: 4;2 3 2 2: 2;1 5 1 1: 4;1 3 2 2: 2;0 5 1 1: 4;";
    compare(&rt, rt.alloc(), DEEP, 5, 100, wanted)
}

#[test]
fn tables_side_by_side_on_a_narrower_page(rt: HostRuntime) -> Result<(), Fail> {
    let wanted = "2 11 1 1: 5;2 4 2 2: 2;1 11 1 1: 5;1 4 2 2: 2;0 11 2 2: 2 2;";
    compare(&rt, rt.alloc(), BESIDE, 11, 100, wanted)
}

#[test]
fn fan_out_sections(rt: HostRuntime) -> Result<(), Fail> {
    let gate = Meeting::new();
    let run = Run {
        rt: &rt,
        alloc: rt.alloc(),
        workers: 2,
        gate: &gate,
    };
    let found = sections_of(&run, BESIDE, 12, 100)?;
    let wanted = "2 12 1 1: 5;2 4 2 2: 2;1 12 1 1: 5;1 4 2 2: 2;0 12 1 1: 5 5;";
    assert_eq!(&rt; found.as_str(), wanted);
    assert!(&rt; gate.both_met());
    Ok(())
}

#[test]
fn the_deepest_tables_come_first_and_each_once(rt: HostRuntime) -> Result<(), Fail> {
    let gate = Arrivals {
        count: Count::new(),
        times: [Count::new(), Count::new(), Count::new(), Count::new()],
    };
    let run = Run {
        rt: &rt,
        alloc: rt.alloc(),
        workers: 1,
        gate: &gate,
    };
    sections_of(&run, FORKED, 20, 100)?;
    assert_eq!(&rt; gate.count.number(), Some(3));
    assert_eq!(&rt; gate.times[2].number(), Some(1));
    assert_eq!(&rt; gate.times[1].number(), Some(2));
    assert_eq!(&rt; gate.times[3].number(), Some(3));
    Ok(())
}

#[test]
fn a_table_nested_eight_deep(rt: HostRuntime) -> Result<(), Fail> {
    compare(&rt, rt.alloc(), DEEPEST, 5, 100, DEEPEST_SECTIONS)
}

/// A table of 199 rows, each with a table of its own.
fn many(alloc: Global) -> Result<String, AllocError> {
    let mut file = String::from_str(alloc, "<table>")?;
    for _ in 0..199 {
        file.push_str("<tr><td><table><tr><td>a</table>")?;
    }
    file.push_str("</table>")?;
    Ok(file)
}

/// Their sections on a page of one column: one line each, and 199 in all.
fn many_sections(alloc: Global) -> Result<String, AllocError> {
    let mut line = String::new(alloc);
    for number in (1..200u32).rev() {
        line.push_str(format!(in alloc; "{number} 1 1 1: 1;")?.as_str())?;
    }
    line.push_str("0 1 199 199: 1;")?;
    Ok(line)
}

#[test]
fn two_hundred_tables_by_sixteen_workers(rt: HostRuntime) -> Result<(), Fail> {
    let alloc = rt.alloc();
    let file = many(alloc)?;
    let found = sections_of(&run_by(&rt, alloc, 16), file.as_str(), 1, 100)?;
    assert_eq!(&rt; found.as_str(), many_sections(alloc)?.as_str());
    Ok(())
}
