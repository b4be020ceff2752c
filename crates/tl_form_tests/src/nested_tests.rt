//! What drawn sections tell of a nested table.

ghost use Rattle.std.specs.Prelude.{◌≤◌};
ghost use Rattle.tl_base.specs.declared.limits.TheConstants.{MAX_PAGE_WIDTH};
ghost use Rattle.tl_table.specs.Sound.{IsSound};

use crate::problem_tests::number;
use crate::tests::table_of;
use std::alloc::{AllocError, Global};
use std::process::Abort;
use std::test::Fail;
use tl_base::{Breaking, List, Steps, Style};
use tl_cert::{Log, Section, Trace};
use tl_form::inner_steps;
use tl_table::{Table, least_width};

/// The numbers of a text, separated by spaces.
fn numbers(alloc: Global, text: &str) -> Result<List<u32>, Fail> {
    let mut list = List::new(alloc);
    for word in text.split(' ') {
        list.push(number(word)?)?;
    }
    Ok(list)
}

/// A section: its table, its page's width, a height, a lower bound, and the widths of its columns:
/// `1 12 2 2: 3 5`.
fn section(alloc: Global, text: &str) -> Result<Section, Fail> {
    let (head, widths) = text.split_once(": ").ok_or("a section without widths")?;
    let widths = numbers(alloc, widths)?;
    match numbers(alloc, head)?.as_slice() {
        &[table, width, height, lower] => Ok(Section {
            table,
            width,
            height,
            lower,
            widths,
            trace: Trace::new(alloc),
            log: Log::new(alloc),
        }),
        _ => Err("a section without four numbers".into()),
    }
}

/// The sections of a text, separated by `; `. An empty text has none.
fn sections(alloc: Global, text: &str) -> Result<List<Section>, Fail> {
    let mut list = List::new(alloc);
    if text.is_empty() {
        return Ok(list);
    }
    for one in text.split("; ") {
        list.push(section(alloc, one)?)?;
    }
    Ok(list)
}

/// Steps as text: ` 7:3 10:2`.
fn push_steps(alloc: Global, line: &mut String, steps: &Steps) -> Result<(), AllocError> {
    for step in steps.configs() {
        let (width, height) = (step.width, step.height);
        line.push_str(format!(in alloc; " {width}:{height}")?.as_str())?;
    }
    Ok(())
}

/// The steps of the tables nested directly in a table: `1 low 7:3 10:2 high 7:3 10:2;` for each.
fn shown(
    alloc: Global,
    table: &Table,
    width: u32,
    sections: &[Section],
) -> Result<String, AllocError>
    requires sound { IsSound table.now }
    requires page { width ≤ MAX_PAGE_WIDTH }
{
    let mut line = String::new(alloc);
    let least = least_width(alloc, table, Style::Plain)?;
    if width < least {
        line.push_str("no layout")?;
        return Ok(line);
    }
    let Some(inner) = inner_steps(alloc, table, Style::Plain, width, sections)? else {
        line.push_str("none")?;
        return Ok(line);
    };
    for one in inner.as_slice() {
        let number = one.table;
        line.push_str(format!(in alloc; "{number} low")?.as_str())?;
        push_steps(alloc, &mut line, &one.low)?;
        line.push_str(" high")?;
        push_steps(alloc, &mut line, &one.high)?;
        line.push(';')?;
    }
    Ok(line)
}

/// The steps that sections give the tables nested directly in a file's table.
fn steps_of(
    alloc: Global,
    file: &str,
    width: u32,
    sections: &[Section],
) -> Result<String, AllocError>
    requires { width ≤ MAX_PAGE_WIDTH }
{
    match table_of(alloc, file, Breaking::Words)? {
        Ok(table) => shown(alloc, &table, width, sections),
        Err(text) => Ok(text),
    }
}

/// Compares the steps that the sections of a text give the tables nested directly in a file's table.
fn tell(
    rt: &impl Abort,
    alloc: Global,
    file: &str,
    width: u32,
    told: &str,
    wanted: &str,
) -> Result<(), Fail>
    requires { width ≤ MAX_PAGE_WIDTH }
{
    let list = sections(alloc, told)?;
    let found = steps_of(alloc, file, width, list.as_slice())?;
    assert_eq!(rt; found.as_str(), wanted);
    Ok(())
}

/// A table of two columns, in a cell of its own: it takes 10 columns and 2 lines, or 7 and 3.
const NESTED: &str =
    "<table><tr><td><table><tr><td>aaa bbb</td><td>cc dd ee</td></tr></table></table>";

/// Sections of the table inside `NESTED` on 12 columns and on 9, and one of the table around it.
const SECTIONS: &str = "1 12 2 2: 3 5; 1 9 3 3: 3 2; 0 12 2 2: 10";

#[test]
fn sections_tell_the_heights_of_a_nested_table(rt: HostRuntime) -> Result<(), Fail> {
    let wanted = "1 low 7:3 10:2 high 7:3 10:2;";
    tell(&rt, rt.alloc(), NESTED, 12, SECTIONS, wanted)
}

#[test]
fn no_step_begins_past_the_page(rt: HostRuntime) -> Result<(), Fail> {
    let wanted = "1 low 7:3 high 7:3;";
    tell(&rt, rt.alloc(), NESTED, 9, SECTIONS, wanted)
}

#[test]
fn without_a_placement_at_the_least_width_there_are_no_steps(rt: HostRuntime) -> Result<(), Fail> {
    tell(&rt, rt.alloc(), NESTED, 12, "1 12 2 2: 3 5", "none")
}

#[test]
fn a_height_found_is_no_lower_bound(rt: HostRuntime) -> Result<(), Fail> {
    let wanted = "1 low 7:2 high 7:3;";
    tell(&rt, rt.alloc(), NESTED, 12, "1 12 3 2: 3 2", wanted)
}

#[test]
fn a_lower_bound_above_a_height_leaves_no_sound_problem(rt: HostRuntime) -> Result<(), Fail> {
    tell(&rt, rt.alloc(), NESTED, 12, "1 12 3 4: 3 2", "none")
}

#[test]
fn sections_of_other_tables_change_nothing(rt: HostRuntime) -> Result<(), Fail> {
    let told = "1 12 2 2: 3 5; 1 9 3 3: 3 2; 0 12 2 2: 10; 2 12 1 1: 7";
    let wanted = "1 low 7:3 10:2 high 7:3 10:2;";
    tell(&rt, rt.alloc(), NESTED, 12, told, wanted)
}

#[test]
fn a_table_without_nested_ones_needs_no_section(rt: HostRuntime) -> Result<(), Fail> {
    tell(&rt, rt.alloc(), "<table><tr><td>a</table>", 5, "", "")
}
