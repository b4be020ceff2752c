//! Certificates of four tables, worked by hand, each with its changes.

ghost use Rattle.std.specs.Prelude.{◌≤◌};
ghost use Rattle.tl_base.specs.declared.limits.TheConstants.{MAX_BUDGET, MAX_PAGE_WIDTH};
ghost use Rattle.tl_base.specs.declared.style.Style.TheVariants.{Plain};
ghost use Rattle.tl_cert.specs.Text.{IsNarrow, IsWritable};
ghost use Rattle.tl_table.specs.Sound.{IsSound};
ghost use Rattle.tl_form.specs.Valid.{IsValid};

use crate::documents::{Meeting, run_by, table_of};
use std::alloc::{AllocError, Global};
use std::process::Abort;
use std::test::Fail;
use std::thread::Threads;
use tl_base::{Gate, Style};
use tl_cert::{Certificate, Claim, read};
use tl_fan::Run;
use tl_form::layout;
use tl_table::{Layout, Table};
use tl_verify::{Reject, Verdict, verify};

/// Two columns, of `aaa bbb` and of `cc dd ee`.
const TWO_COLUMNS: &str = "<table><tr><td>aaa bbb<td>cc dd ee</table>";

/// `TWO_COLUMNS` nested in a table of one cell.
const NESTED: &str = "<table><tr><td><table><tr><td>aaa bbb<td>cc dd ee</table></table>";

/// Two words that need 12 columns.
const TWO_WORDS: &str = "<table><tr><td>abcdef<td>ghij</table>";

/// Four columns of 25 at most, of which the third and the fourth have two long words each.
const FOUR_COLUMNS: &str =
    "<table><tr><td>a a<td>b b<td>c<br>c<tr><td>p<td>q<td>cccc cccc<td>dddd dddd</table>";

/// What is shown of the layout: widths, heights, and the layouts inside.
#[cycle(shown)]
fn push_layout(alloc: Global, line: &mut String, layout: &Layout) -> Result<(), AllocError> {
    line.push('[')?;
    for width in layout.widths.as_slice() {
        line.push_str(format!(in alloc; "{width} ")?.as_str())?;
    }
    line.push('/')?;
    for height in layout.heights.as_slice() {
        line.push_str(format!(in alloc; " {height}")?.as_str())?;
    }
    for inner in layout.inner.as_slice() {
        push_layout(alloc, line, inner)?;
    }
    line.push(']')
}

/// The word, and after it the layout that the certificate names.
fn named(
    alloc: Global,
    word: &str,
    table: &Table,
    certificate: &Certificate,
) -> Result<String, Fail>
    requires sound { IsSound table.now }
    requires written { IsWritable certificate.now }
    requires valid { IsValid table.now Plain certificate.now.width certificate.now.budget certificate.now }
    requires wide_enough { IsNarrow certificate.now.claim → ⊥ }
{
    let mut line = String::from_str(alloc, word)?;
    let layout = layout(alloc, table, Style::Plain, certificate)?;
    push_layout(alloc, &mut line, &layout)?;
    Ok(line)
}

/// What is found of the certificate of this text for the file: a verdict with the layout, or the
/// first step that fails.
fn judged<R: Threads + Sync, G: Gate>(
    run: &Run<'_, R, G>,
    file: &str,
    width: u32,
    budget: u32,
    text: &str,
) -> Result<String, Fail>
    requires some { 1 ≤ width }
    requires narrow { width ≤ MAX_PAGE_WIDTH }
    requires cuts { budget ≤ MAX_BUDGET }
{
    let alloc = run.alloc;
    let table = table_of(alloc, file)?;
    let Ok(certificate) = read(alloc, text.as_bytes()) else {
        return Err("no certificate".into());
    };
    let style = Style::Plain;
    if let Err(reject) = verify(run, &table, style, width, budget, &certificate) {
        return Ok(format!(in alloc; "{reject}")?);
    }
    match certificate.claim {
        Claim::Lowest(_) => named(alloc, "lowest ", &table, &certificate),
        Claim::Bounded(_, _) => named(alloc, "bounded ", &table, &certificate),
        Claim::Narrow(_) => Ok(String::from_str(alloc, "narrow")?),
    }
}

/// Certificates of the two columns at 12 columns with a budget of 6, and what is found of each. A
/// certificate stands on one line here, with `;` where its lines end.
const TWO_COLUMNS_JUDGED: &str = "
tablelayout 1 12 plain 6;lowest 2;section 0 12 2 2 0 1;widths 3 5;z0 chain;end; => lowest [3 5 / 2]
tablelayout 1 12 plain 7;lowest 2;section 0 12 2 2 0 1;widths 3 5;z0 chain;end; => claim
tablelayout 1 11 plain 6;lowest 2;section 0 12 2 2 0 1;widths 3 5;z0 chain;end; => claim
tablelayout 1 12 frame 6;lowest 2;section 0 12 2 2 0 1;widths 3 5;z0 chain;end; => claim
tablelayout 1 12 plain 6;lowest 1;section 0 12 2 2 0 1;widths 3 5;z0 chain;end; => claim
tablelayout 1 12 plain 6;bounded 2 2;section 0 12 2 2 0 1;widths 3 5;z0 chain;end; => claim
tablelayout 1 12 plain 6;lowest 2;section 1 12 2 2 0 1;widths 3 5;z0 chain;end; => missing section of table 0
tablelayout 1 12 plain 6;lowest 2;section 0 11 2 2 0 1;widths 3 5;z0 chain;end; => missing section of table 0
tablelayout 1 12 plain 6;lowest 2;TWICE TWICE end; => extra section 1
tablelayout 1 12 plain 6;lowest 2;section 0 12 2 2 0 1;widths 3 4;z0 chain;end; => layout of section 0
tablelayout 1 12 plain 6;lowest 2;section 0 12 2 2 0 1;widths 3 6;z0 chain;end; => layout of section 0
tablelayout 1 12 plain 6;lowest 3;section 0 12 3 2 0 1;widths 3 5;z0 chain;end; => layout of section 0
tablelayout 1 12 plain 6;lowest 2;section 0 12 2 2 1 1;widths 3 5;cut 0 0 1;z0 chain;end; => trace of section 0
tablelayout 1 12 plain 6;lowest 2;section 0 12 2 1 0 1;widths 3 5;z0 chain;end; => trace of section 0
tablelayout 1 12 plain 6;lowest 2;section 0 12 2 2 0 1;widths 3 5;z0 cycle;end; => line 0 of section 0
tablelayout 1 12 plain 6;lowest 2;section 0 12 2 2 0 1;widths 3 5;z0 @0 fired;end; => line 0 of section 0
tablelayout 1 12 plain 6;bounded 3 2;section 0 12 3 2 0 1;widths 3 2;z0 chain;end; => trace of section 0
tablelayout 1 12 plain 6;narrow 13;chain 0 0 1;end; => claim
";

/// Certificates of the two columns at 12 columns with a budget of 0, and what is found of each.
const NO_CUT: &str = "
tablelayout 1 12 plain 0;bounded 3 2;section 0 12 3 2 0 1;widths 3 2;z0 chain;end; => bounded [3 2 / 3]
tablelayout 1 12 plain 0;lowest 3;section 0 12 3 2 0 1;widths 3 2;z0 chain;end; => claim
";

/// What stands for longer parts: the head of a certificate of the nested table, its sections, of the
/// inner table at 12 and at 9 columns and of the outer one, and its end; a section that stands twice;
/// and the cuts of the four columns.
const PARTS: [(&str, &str); 7] = [
    ("HEAD ", "tablelayout 1 12 plain 5000;lowest 2;"),
    ("FIRST ", "section 1 12 2 2 0 1;widths 3 5;z0 chain;"),
    ("SECOND ", "section 1 9 3 3 0 1;widths 3 2;z0 chain;"),
    ("OUTER ", "section 0 12 2 2 0 1;widths 10;z0 chain;"),
    ("END", "end;"),
    ("TWICE ", "section 0 12 2 2 0 1;widths 3 5;z0 chain;"),
    (
        "CUTS ",
        "section 0 25 4 4 3 3;widths 1 1 4 4;cut 0 0 0;cut 1 1 0;cut 3 2 0;",
    ),
];

/// Certificates of the nested table at 12 columns: with both sections of the inner table, without the
/// second, with the two exchanged, without both, with another width, and with a worse height; and with two
/// faults, of which the first in order is named.
const NESTED_JUDGED: &str = "
HEAD FIRST SECOND OUTER END => lowest [10 / 2[3 5 / 2]]
HEAD FIRST OUTER END => missing section of table 1
HEAD SECOND FIRST OUTER END => missing section of table 1
HEAD OUTER END => missing section of table 1
HEAD FIRST SECOND END => missing section of table 0
HEAD FIRST SECOND OUTER OUTER END => extra section 3
HEAD FIRST section 1 8 3 3 0 1;widths 3 2;z0 chain;OUTER END => missing section of table 1
HEAD FIRST SECOND section 0 12 2 2 0 1;widths 9;z0 chain;END => layout of section 2
HEAD FIRST section 1 9 3 2 0 1;widths 3 2;z0 chain;OUTER END => trace of section 1
HEAD FIRST section 1 9 3 3 0 1;widths 3 2;z0 cycle;OUTER END => line 0 of section 1
HEAD section 1 12 2 2 0 1;widths 3 5;z0 cycle;section 1 9 3 2 0 1;widths 3 2;z0 chain;OUTER END => line 0 of section 0
HEAD FIRST section 1 9 3 2 0 1;widths 3 2;z0 chain;section 0 12 2 2 0 1;widths 9;z0 chain;END => trace of section 1
HEAD section 1 12 2 2 0 1;widths 3 5;z0 cycle;OUTER END => line 0 of section 0
HEAD section 1 12 3 3 0 1;widths 3 5;z0 chain;SECOND OUTER OUTER END => layout of section 0
";

/// Two nested tables, side by side, and their certificate at 12 columns.
const BESIDE: &str =
    "<table><tr><td><table><tr><td>aa bb</table><td><table><tr><td>cc dd</table></table>";

const BESIDE_SHOWN: &str =
    "tablelayout 1 12 plain 5000;lowest 1;section 2 12 1 1 0 1;widths 5;z0 chain;section 2 4 2 2 0 1;widths 2;z0 chain;\
     section 1 12 1 1 0 1;widths 5;z0 chain;section 1 4 2 2 0 1;widths 2;z0 chain;section 0 12 1 1 0 1;widths 5 5;z0 chain;end;";

/// Certificates of the four columns at 25 columns with a budget of 3.
const FOUR_COLUMNS_JUDGED: &str = "
tablelayout 1 25 plain 3;lowest 4;CUTS 2-8 chain;2+9 chain;z0 @0 @1 fired;end; => lowest [1 1 4 4 / 2 2]
tablelayout 1 25 plain 3;lowest 4;CUTS 2-8 chain;2+9 chain;z0 @0 @2 fired;end; => line 2 of section 0
";

/// Chains of the two words at 11 columns.
const CHAINS: &str = "
tablelayout 1 11 plain 5000;narrow 12;chain 0 0 1;end; => narrow
tablelayout 1 11 plain 5000;narrow 11;chain 0 0 1;end; => chain
tablelayout 1 11 plain 5000;narrow 13;chain 0 0 1;end; => chain
tablelayout 1 11 plain 5000;narrow 8;chain 0 0;end; => chain
tablelayout 1 11 plain 5000;narrow 12;chain 1 0 1;end; => chain
tablelayout 1 11 plain 5000;narrow 12;chain 0 1 0;end; => chain
tablelayout 1 11 plain 5000;narrow 12;chain 0 0 2;end; => chain
tablelayout 1 11 plain 5000;narrow 12;chain 0 0 1;chain 0 0 1;end; => chain
tablelayout 1 11 plain 5000;narrow 12;chain 0 0:1 1;end; => chain
";

/// Chains of the nested table at 6 columns.
const NESTED_CHAINS: &str = "
tablelayout 1 6 plain 5000;narrow 7;chain 0 0:1;chain 1 0 1;end; => narrow
tablelayout 1 6 plain 5000;narrow 7;chain 0 0:1;end; => chain
tablelayout 1 6 plain 5000;narrow 7;chain 1 0 1;end; => chain
tablelayout 1 6 plain 5000;narrow 7;chain 0 0:1;chain 0 0 1;end; => chain
tablelayout 1 6 plain 5000;narrow 7;chain 0 0;chain 1 0 1;end; => chain
tablelayout 1 6 plain 5000;narrow 7;chain 1 0 1;chain 0 0:1;end; => chain
";

/// The text of a certificate that stands on one line.
fn spelt(alloc: Global, line: &str) -> Result<String, AllocError> {
    let mut text = String::from_str(alloc, line)?;
    for (name, part) in PARTS {
        text = text.as_str().replace(alloc, name, part)?;
    }
    text.as_str().replace(alloc, ";", "\n")
}

/// Compares what is found of each line's certificate with what stands after its arrow.
fn compare<R: Abort + Threads + Sync, G: Gate>(
    run: &Run<'_, R, G>,
    lines: &str,
    file: &str,
    width: u32,
    budget: u32,
) -> Result<(), Fail>
    requires some { 1 ≤ width }
    requires narrow { width ≤ MAX_PAGE_WIDTH }
    requires cuts { budget ≤ MAX_BUDGET }
{
    let cases = lines.strip_prefix('\n').ok_or("a case on the first line")?;
    for line in cases.lines() {
        let (input, wanted) = line.split_once(" => ").ok_or("a line without an arrow")?;
        let text = spelt(run.alloc, input)?;
        let found = judged(run, file, width, budget, text.as_str())?;
        assert_eq!(run.rt; found.as_str(), wanted, "{input}");
    }
    Ok(())
}

#[test]
fn two_columns_are_lowest_and_each_change_is_refused(rt: HostRuntime) -> Result<(), Fail> {
    compare(
        &run_by(&rt, rt.alloc(), 1),
        TWO_COLUMNS_JUDGED,
        TWO_COLUMNS,
        12,
        6,
    )
}

#[test]
fn a_search_without_a_cut_is_bounded(rt: HostRuntime) -> Result<(), Fail> {
    compare(&run_by(&rt, rt.alloc(), 2), NO_CUT, TWO_COLUMNS, 12, 0)
}

#[test]
fn a_nested_table_has_all_its_sections_in_order(rt: HostRuntime) -> Result<(), Fail> {
    compare(&run_by(&rt, rt.alloc(), 1), NESTED_JUDGED, NESTED, 12, 5000)?;
    compare(&run_by(&rt, rt.alloc(), 2), NESTED_JUDGED, NESTED, 12, 5000)?;
    compare(
        &run_by(&rt, rt.alloc(), 16),
        NESTED_JUDGED,
        NESTED,
        12,
        5000,
    )
}

#[test]
fn lines_that_bound_one_column_prove_four_lines(rt: HostRuntime) -> Result<(), Fail> {
    compare(
        &run_by(&rt, rt.alloc(), 1),
        FOUR_COLUMNS_JUDGED,
        FOUR_COLUMNS,
        25,
        3,
    )
}

#[test]
fn a_chain_is_of_the_table_and_weighs_what_is_claimed(rt: HostRuntime) -> Result<(), Fail> {
    compare(&run_by(&rt, rt.alloc(), 1), CHAINS, TWO_WORDS, 11, 5000)
}

#[test]
fn a_chain_goes_on_with_those_of_nested_tables(rt: HostRuntime) -> Result<(), Fail> {
    compare(&run_by(&rt, rt.alloc(), 2), NESTED_CHAINS, NESTED, 6, 5000)
}

#[test]
fn errors_name_the_step_that_fails(rt: HostRuntime) -> Result<(), Fail> {
    let alloc = rt.alloc();
    let memory = Reject::Memory(AllocError);
    assert_eq!(&rt; format!(in alloc; "{memory}")?.as_str(), "out of memory");
    let line = Reject::Line(3, 7);
    assert_eq!(&rt;
        format!(in alloc; "{line}")?.as_str(),
        "line 7 of section 3"
    );
    Ok(())
}

#[test]
fn fan_out_verify(rt: HostRuntime) -> Result<(), Fail> {
    let alloc = rt.alloc();
    let gate = Meeting::new();
    let text = spelt(alloc, BESIDE_SHOWN)?;
    let run = Run {
        rt: &rt,
        alloc,
        workers: 2,
        gate: &gate,
    };
    let found = judged(&run, BESIDE, 12, 5000, text.as_str())?;
    assert_eq!(&rt; found.as_str(), "lowest [5 5 / 1[5 / 1][5 / 1]]");
    assert!(&rt; gate.both_met());
    Ok(())
}

fn share<T: Send + Sync + Drop>(_value: T) {}

/// Each of the types may be shared by threads and sent between them.
#[test]
fn a_verdict_and_an_error_may_go_to_other_threads() {
    share::<Option<Verdict>>(None);
    share::<Option<Reject>>(None);
}
