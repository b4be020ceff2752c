//! Command lines, and what they ask for.

use std::alloc::{AllocError, Global};
use std::process::Abort;
use std::test::Fail;
use tl_base::{Search, Style};
use tl_command::{Ask, BreakRule, Choice, Command, Options};
use tl_floors::Floors;
use tl_sides::{Align, Side};

/// Command lines beside what they ask for: the command, the number, the names, and after `:` each
/// option that is given, in the order style, breaks, budget, search, workers, CSV, head, least widths,
/// trim and HTML.
const ASKS: &[(&str, &str)] = &[
    ("lay 7 t.html p.txt", "lay 7 t.html p.txt :"),
    ("lay 1 t p c", "lay 1 t p c :"),
    ("lay 500 t p c --html", "lay 500 t p c : html"),
    ("lay 7 t p --style plain", "lay 7 t p : style=plain"),
    ("lay 7 t p --style compact", "lay 7 t p : style=compact"),
    ("lay 7 t p --style frame", "lay 7 t p : style=frame"),
    ("lay 7 t p --style grid", "lay 7 t p : style=grid"),
    ("lay 7 t p --style box", "lay 7 t p : style=box"),
    ("check 7 t c --style box", "check 7 t c : style=box"),
    ("lay 7 t p --style rule", "lay 7 t p : style=rule"),
    ("tidy 7 t p --style apart", "tidy 7 t p : style=apart"),
    ("lay 7 t p --break words", "lay 7 t p : break=words"),
    ("lay 7 t p --break any", "lay 7 t p : break=any"),
    ("lay 7 t p --break fit", "lay 7 t p : break=fit"),
    ("check 7 t c --break fit", "check 7 t c : break=fit"),
    ("lay 7 t p --break 0", "lay 7 t p : break=0"),
    ("lay 7 t p --break 500", "lay 7 t p : break=500"),
    ("check 7 t c --break 12 --csv", "check 7 t c : break=12 csv"),
    ("lay 7 t p --budget 0", "lay 7 t p : budget=0"),
    ("lay 7 t p --budget 100000", "lay 7 t p : budget=100000"),
    ("lay 7 t p --solver plain", "lay 7 t p : solver=plain"),
    ("lay 7 t p --solver best", "lay 7 t p : solver=best"),
    ("lay 7 t p --solver learn", "lay 7 t p : solver=learn"),
    ("lay 7 t p --solver rounds", "lay 7 t p : solver=rounds"),
    (
        "lay 7 t p c --style frame --break any --budget 5 --solver best --html",
        "lay 7 t p c : style=frame break=any budget=5 solver=best html",
    ),
    (
        "lay 7 t p --html --solver plain --budget 10 --break words --style compact",
        "lay 7 t p : style=compact break=words budget=10 solver=plain html",
    ),
    ("lay 7 t p --trim", "lay 7 t p : trim"),
    ("lay 7 t p --align l", "lay 7 t p : align=l"),
    ("lay 7 t p --align c,r,l,r", "lay 7 t p : align=c,r,l,r"),
    (
        "lay 7 t p --align l,r,c,l,r,c,l,r,c,l,r,c,l,r,c,l,r,c,l,r,c,l,r,c,l,r,c,l,r,c,l,r,c,l,r,c,l,r,c,l,r,c,l,r,c,l,r,c,l,r,c,l,r,c,l,r,c,l,r,c",
        "lay 7 t p : align=l,r,c,l,r,c,l,r,c,l,r,c,l,r,c,l,r,c,l,r,c,l,r,c,l,r,c,l,r,c,l,r,c,l,r,c,l,r,c,l,r,c,l,r,c,l,r,c,l,r,c,l,r,c,l,r,c,l,r,c",
    ),
    (
        "narrow 2 t p --align auto --trim",
        "narrow 2 t p : align=auto trim",
    ),
    ("lay 7 t p --align cells", "lay 7 t p : align=cells"),
    ("tidy 2 t p --html --align r", "tidy 2 t p : align=r html"),
    (
        "lay 7 t p c --html --style grid --trim",
        "lay 7 t p c : style=grid trim html",
    ),
    ("narrow 2 t p --trim --html", "narrow 2 t p : trim html"),
    ("tidy 2 t p --trim --budget 1", "tidy 2 t p : budget=1 trim"),
    ("check 1 t c", "check 1 t c :"),
    (
        "check 500 t c --style compact",
        "check 500 t c : style=compact",
    ),
    (
        "check 80 t c --budget 6 --style plain --break any",
        "check 80 t c : style=plain break=any budget=6",
    ),
    ("lay 7 t p --workers 1", "lay 7 t p : workers=1"),
    ("lay 7 t p --workers 16", "lay 7 t p : workers=16"),
    ("check 7 t c --workers 2", "check 7 t c : workers=2"),
    ("lay 7 t p --csv", "lay 7 t p : csv"),
    ("check 7 t c --csv", "check 7 t c : csv"),
    ("lay 7 t p --csv --head", "lay 7 t p : csv head"),
    ("check 7 t c --head --csv", "check 7 t c : csv head"),
    ("lay 7 t p --least 5 --csv", "lay 7 t p : csv least=5"),
    ("check 7 t c --csv --least 0", "check 7 t c : csv least=0"),
    ("lay 7 t p --csv --least 500", "lay 7 t p : csv least=500"),
    (
        "lay 7 t p --csv --least 5,0,5,10",
        "lay 7 t p : csv least=5,0,5,10",
    ),
    (
        "lay 7 t p c --least 1,2 --workers 3 --head --html --csv --solver best",
        "lay 7 t p c : solver=best workers=3 csv head least=1,2 html",
    ),
    ("narrow 0 t p", "narrow 0 t p :"),
    ("narrow 1073741824 t p c", "narrow 1073741824 t p c :"),
    ("narrow 2 t p c l", "narrow 2 t p c l :"),
    ("narrow 2 t p c l s", "narrow 2 t p c l s :"),
    (
        "narrow 20 t p c l s --workers 2 --html --solver plain --budget 7 --break any --style frame",
        "narrow 20 t p c l s : style=frame break=any budget=7 solver=plain workers=2 html",
    ),
    (
        "narrow 3 t p --csv --head --least 4",
        "narrow 3 t p : csv head least=4",
    ),
    ("tidy 7 t p", "tidy 7 t p :"),
    ("tidy 500 t p c", "tidy 500 t p c :"),
    ("tidy 1 t p c l", "tidy 1 t p c l :"),
    (
        "tidy 7 t p c l s --workers 2 --html --solver plain --budget 7 --break any --style frame",
        "tidy 7 t p c l s : style=frame break=any budget=7 solver=plain workers=2 html",
    ),
    ("demo 0", "demo 0 :"),
    ("demo 4294967295", "demo 4294967295 :"),
];

/// A name that has to be there is one however it begins, and any is that does not begin with `--`.
const NAMES_THAT_LOOK_ALIKE: &[(&str, &str)] = &[
    ("lay 7 --html --style", "lay 7 --html --style :"),
    ("lay 7 t --html --html", "lay 7 t --html : html"),
    ("check 7 -- ---", "check 7 -- --- :"),
    ("check 7 t --html --budget 1", "check 7 t --html : budget=1"),
    ("lay 7 t p -", "lay 7 t p - :"),
    ("lay 7 t p -html --html", "lay 7 t p -html : html"),
    ("lay 7 lay 7 check", "lay 7 lay 7 check :"),
    ("lay 7 p pp p.", "lay 7 p pp p. :"),
    ("lay 7 t --csv --csv", "lay 7 t --csv : csv"),
];

/// No command, or another one.
const COMMANDS: &[&str] = &[
    "",
    "lay",
    "check",
    "demo",
    "narrow",
    "lie 7 t p",
    "narrows 7 t p",
    "tidy",
    "tidie 7 t p",
    "LAY 7 t p",
    "lays 7 t p",
    "la 7 t p",
    " lay 7 t p",
    "7 t p",
    "t",
    "tablelayout lay 7 t p",
];

/// Names that are missing, or one too many.
const COUNTS: &[&str] = &[
    "lay 7",
    "lay 7 t",
    "lay t p",
    "lay 7 t p c d",
    "lay 7 t p c html",
    "lay 7 t p --html c",
    "narrow 7 t",
    "narrow 7 t p c l s x",
    "tidy 7 t",
    "tidy 7 t p c l s x",
    "check 7",
    "check 7 t",
    "check 7 t c p",
    "check 7 t c -",
    "demo 0 0",
    "demo 0 t",
];

/// No number, or none that the command takes.
const NUMBERS: &[&str] = &[
    "lay 0 t p",
    "lay 501 t p",
    "lay 07 t p",
    "lay 00 t p",
    "lay +7 t p",
    "lay -7 t p",
    "lay 7.0 t p",
    "lay 7px t p",
    "lay x t p",
    "lay  t p",
    "lay 500000 t p",
    "lay 4294967303 t p",
    "lay 18446744073709551623 t p",
    "lay 99999999999999999999999 t p",
    "narrow 1073741825 t p",
    "narrow 02 t p",
    "narrow -1 t p",
    "narrow t p c",
    "tidy 0 t p",
    "tidy 501 t p",
    "tidy 07 t p",
    "check 0 t c",
    "check 501 t c",
    "check 012 t c",
    "demo ",
    "demo 07",
    "demo 00",
    "demo -1",
    "demo 4294967296",
    "demo 18446744073709551616",
];

/// Names that are empty, or the same.
const NAMES: &[&str] = &[
    "lay 7  p",
    "lay 7 t ",
    "lay 7 t p ",
    "lay 7 t t",
    "lay 7 t p p",
    "lay 7 t p t",
    "lay 7 t t c",
    "narrow 7 t p c l p",
    "narrow 7 t p c l t",
    "narrow 7 t p c l ",
    "tidy 7 t p c l p",
    "tidy 7 t p c l t",
    "check 7 t t",
    "check 7  c",
    "check 7 t ",
];

/// An option before the names.
const EARLY: &[&str] = &[
    "--html lay 7 t p",
    "lay --html 7 t p",
    "lay --budget 7 t p",
    "lay --style plain 7 t p",
];

/// An option twice.
const TWICE: &[&str] = &[
    "lay 7 t p --html --html",
    "lay 7 t p --style plain --style plain",
    "lay 7 t p --style plain --style frame",
    "lay 7 t p --break any --break words",
    "lay 7 t p --break any --break 0",
    "lay 7 t p --budget 1 --budget 2",
    "lay 7 t p --solver best --solver plain",
    "lay 7 t p --html --budget 5 --html",
    "lay 7 t p --trim --trim",
    "tidy 7 t p --trim --html --trim",
    "lay 7 t p --budget 5 --style frame --budget 5",
    "check 7 t c --budget 6 --budget 6",
    "lay 7 t p --csv --csv",
    "lay 7 t p --csv --head --head",
    "lay 7 t p --least 1 --csv --least 1",
    "lay 7 t p --workers 2 --workers 3",
    "check 7 t c --csv --workers 1 --csv",
];

/// What speaks of a CSV file without `--csv`.
const NO_CSV: &[&str] = &[
    "lay 7 t p --head",
    "lay 7 t p --least 5",
    "lay 7 t p --head --least 5",
    "lay 7 t p --html --head",
    "narrow 7 t p --head",
    "tidy 7 t p --head",
    "check 7 t c --head",
    "check 7 t c --least 5,6",
    "lay 7 t --csv --head",
];

/// A value that is missing, or that the option does not have.
const VALUES: &[&str] = &[
    "lay 7 t p --style",
    "lay 7 t p --style ",
    "lay 7 t p --style none",
    "lay 7 t p --style Plain",
    "lay 7 t p --style comp",
    "lay 7 t p --style grids",
    "lay 7 t p --style Box",
    "lay 7 t p --style --trim",
    "lay 7 t p --style --html",
    "lay 7 t p --style=plain",
    "lay 7 t p --break",
    "lay 7 t p --break ",
    "lay 7 t p --break all",
    "lay 7 t p --break word",
    "lay 7 t p --break any any",
    "lay 7 t p --break fitted",
    "lay 7 t p --break 501",
    "lay 7 t p --break 05",
    "lay 7 t p --break -1",
    "lay 7 t p --break 5.0",
    "lay 7 t p --budget",
    "lay 7 t p --budget ",
    "lay 7 t p --budget 100001",
    "lay 7 t p --budget 01",
    "lay 7 t p --budget -1",
    "lay 7 t p --budget +1",
    "lay 7 t p --budget 1.5",
    "lay 7 t p --budget all",
    "lay 7 t p --budget 4294967296",
    "lay 7 t p --budget 18446744073709551616",
    "lay 7 t p --solver",
    "lay 7 t p --solver ",
    "lay 7 t p --solver learnt",
    "lay 7 t p --solver round",
    "lay 7 t p --solver Best",
    "lay 7 t p --solver plain best",
    "lay 7 t p --html yes",
    "lay 7 t p --trim yes",
    "lay 7 t p --align",
    "lay 7 t p --align ",
    "lay 7 t p --align l,",
    "lay 7 t p --align ,l",
    "lay 7 t p --align l,,r",
    "lay 7 t p --align lr",
    "lay 7 t p --align L",
    "lay 7 t p --align left",
    "lay 7 t p --align auto,l",
    "lay 7 t p --align Auto",
    "lay 7 t p --align cell",
    "lay 7 t p --align cells,l",
    "lay 7 t p --align l --align r",
    "lay 7 t p --align l,r,c,l,r,c,l,r,c,l,r,c,l,r,c,l,r,c,l,r,c,l,r,c,l,r,c,l,r,c,l,r,c,l,r,c,l,r,c,l,r,c,l,r,c,l,r,c,l,r,c,l,r,c,l,r,c,l,r,c,l",
    "lay 7 t p --trimmed",
    "lay 7 t p --TRIM",
    "lay 7 t p --HTML",
    "lay 7 t p --html -html",
    "lay 7 t p --",
    "lay 7 t p --htm",
    "lay 7 t p --html ",
    "check 7 t c --budget 100001",
    "lay 7 t p --workers",
    "lay 7 t p --workers ",
    "lay 7 t p --workers 0",
    "lay 7 t p --workers 17",
    "lay 7 t p --workers 01",
    "lay 7 t p --workers 1.0",
    "lay 7 t p --workers all",
    "lay 7 t p --workers 4294967297",
    "check 7 t c --workers 0",
    "lay 7 t p --csv yes",
    "lay 7 t p --CSV",
    "lay 7 t p --csv --head 1",
    "lay 7 t p --heads --csv",
    "lay 7 t p --csv --least",
    "lay 7 t p --csv --least ",
    "lay 7 t p --csv --least 5,",
    "lay 7 t p --csv --least ,5",
    "lay 7 t p --csv --least ,",
    "lay 7 t p --csv --least 5,,6",
    "lay 7 t p --csv --least 5, 6",
    "lay 7 t p --csv --least 5;6",
    "lay 7 t p --csv --least 05",
    "lay 7 t p --csv --least 5,06",
    "lay 7 t p --csv --least 501",
    "lay 7 t p --csv --least 5,501,6",
    "lay 7 t p --csv --least -1",
    "lay 7 t p --csv --least 5x",
    "lay 7 t p --csv --least 4294967301",
    "lay 7 t p --csv --least 18446744073709551621",
    "lay 7 t p --csv --least 5 6",
    "lay 7 t p --csv --least=5",
];

/// An option that the command does not take.
const NOT_TAKEN: &[&str] = &[
    "check 7 t c --html",
    "check 7 t c --trim",
    "check 7 t c --align l",
    "check 7 t c --align auto",
    "check 7 t c --csv --trim",
    "check 7 t c --solver best",
    "check 7 t c --solver plain",
    "check 7 t c --budget 6 --html",
    "demo 0 --html",
    "demo 0 --trim",
    "demo 0 --budget 6",
    "demo 0 --style plain",
    "demo 0 --break words",
    "demo 0 --solver best",
    "demo 0 --workers 2",
    "demo 0 --csv",
    "demo 0 --csv --head",
];

/// The arguments of a command line, each separated by one space from the next: between two spaces is
/// an empty argument.
fn arguments(alloc: Global, line: &str) -> Result<Vec<String>, AllocError> {
    let mut arguments = Vec::new(alloc);
    if line.is_empty() {
        return Ok(arguments);
    }
    for argument in line.split(' ') {
        arguments.push(String::from_str(alloc, argument)?)?;
    }
    Ok(arguments)
}

fn command_word(command: Command) -> &'static str {
    match command {
        Command::Lay => "lay",
        Command::Narrow => "narrow",
        Command::Tidy => "tidy",
        Command::Check => "check",
        Command::Demo => "demo",
    }
}

fn style_word(style: Style) -> &'static str {
    match style {
        Style::Plain => "plain",
        Style::Compact => "compact",
        Style::Frame => "frame",
        Style::Grid => "grid",
        Style::Box => "box",
        Style::Rule => "rule",
        Style::Apart => "apart",
    }
}

/// Which words may break, where it is given.
fn push_break(alloc: Global, text: &mut String, rule: Option<BreakRule>) -> Result<(), AllocError> {
    match rule {
        None => Ok(()),
        Some(BreakRule::Words) => text.push_str(" break=words"),
        Some(BreakRule::Any) => text.push_str(" break=any"),
        Some(BreakRule::Fit) => text.push_str(" break=fit"),
        Some(BreakRule::Wider(most)) => push_number(alloc, text, "break", Some(most)),
        Some(BreakRule::Fitted(most)) => push_number(alloc, text, "fitted", Some(most)),
    }
}

fn search_word(search: Search) -> &'static str {
    match search {
        Search::Plain => "plain",
        Search::Best => "best",
        Search::Learn => "learn",
        Search::Rounds => "rounds",
    }
}

/// A word after the name of what it says, where there is one.
fn push_word(
    alloc: Global,
    text: &mut String,
    name: &str,
    word: Option<&str>,
) -> Result<(), AllocError> {
    match word {
        Some(word) => text.push_str(format!(in alloc; " {name}={word}")?.as_str()),
        None => Ok(()),
    }
}

/// The name of a flag, where it is given.
fn push_flag(text: &mut String, name: &str, given: bool) -> Result<(), AllocError> {
    if given {
        text.push_str(" ")?;
        text.push_str(name)?;
    }
    Ok(())
}

/// A number after the name of what it says, where there is one.
fn push_number(
    alloc: Global,
    text: &mut String,
    name: &str,
    number: Option<u32>,
) -> Result<(), AllocError> {
    match number {
        Some(number) => text.push_str(format!(in alloc; " {name}={number}")?.as_str()),
        None => Ok(()),
    }
}

/// The least widths, where they are given.
fn push_least(alloc: Global, text: &mut String, least: &Option<Floors>) -> Result<(), AllocError> {
    let Some(least) = least else {
        return Ok(());
    };
    for (column, floor) in least.as_slice().iter().enumerate() {
        text.push_str(if column == 0 { " least=" } else { "," })?;
        text.push_str(format!(in alloc; "{floor}")?.as_str())?;
    }
    Ok(())
}

fn side_letter(side: Side) -> &'static str {
    match side {
        Side::Left => "l",
        Side::Right => "r",
        Side::Center => "c",
    }
}

/// The sides, where they are given.
fn push_align(alloc: Global, text: &mut String, align: &Option<Align>) -> Result<(), AllocError> {
    let sides = match align {
        None => return Ok(()),
        Some(Align::Auto) => return push_word(alloc, text, "align", Some("auto")),
        Some(Align::Cells) => return push_word(alloc, text, "align", Some("cells")),
        Some(Align::Columns(sides)) => sides,
    };
    for (column, side) in sides.as_slice().iter().enumerate() {
        text.push_str(if column == 0 { " align=" } else { "," })?;
        text.push_str(side_letter(*side))?;
    }
    Ok(())
}

/// The options in words, each after a space.
fn push_options(alloc: Global, text: &mut String, options: &Options) -> Result<(), AllocError> {
    push_word(alloc, text, "style", options.style.map(style_word))?;
    push_break(alloc, text, options.breaking)?;
    push_number(alloc, text, "budget", options.budget)?;
    push_word(alloc, text, "solver", options.search.map(search_word))?;
    push_number(alloc, text, "workers", options.workers)?;
    push_flag(text, "csv", options.csv)?;
    push_flag(text, "head", options.head)?;
    push_least(alloc, text, &options.least)?;
    push_align(alloc, text, &options.align)?;
    push_flag(text, "trim", options.trim)?;
    push_flag(text, "html", options.html)
}

/// What is asked for, in words.
fn described(alloc: Global, words: &[String]) -> Result<String, AllocError> {
    let Some(ask) = Ask::parse(words) else {
        return String::from_str(alloc, "nothing");
    };
    let mut text = format!(in alloc; "{} {}", command_word(ask.command), ask.number)?;
    for name in ask.names {
        text.push_str(" ")?;
        text.push_str(name.as_str())?;
    }
    text.push_str(" :")?;
    push_options(alloc, &mut text, &ask.options)?;
    Ok(text)
}

/// The command line asks for this.
fn check(rt: &(impl Abort + AllocGlobal), line: &str, wanted: &str) -> Result<(), Fail> {
    let words = arguments(rt.alloc(), line)?;
    let asked = described(rt.alloc(), words.as_slice())?;
    assert_eq!(rt; asked.as_str(), wanted, "{line}");
    Ok(())
}

#[test]
fn arguments_ask_for_a_command_with_its_options(rt: HostRuntime) -> Result<(), Fail> {
    for rows in [ASKS, NAMES_THAT_LOOK_ALIKE] {
        for (line, wanted) in rows {
            check(&rt, line, wanted)?;
        }
    }
    Ok(())
}

#[test]
fn invalid_arguments_ask_for_nothing(rt: HostRuntime) -> Result<(), Fail> {
    for lines in [
        COMMANDS, COUNTS, NUMBERS, NAMES, EARLY, TWICE, NO_CSV, VALUES, NOT_TAKEN,
    ] {
        for line in lines {
            check(&rt, line, "nothing")?;
        }
    }
    Ok(())
}

/// The argument `0` so many times, with a comma between each two.
fn zeros(alloc: Global, count: usize) -> Result<String, AllocError> {
    let mut list = String::from_str(alloc, "0")?;
    for _ in 1..count {
        list.push_str(",0")?;
    }
    Ok(list)
}

#[test]
fn as_many_least_widths_as_a_table_may_have_columns_are_taken(rt: HostRuntime) -> Result<(), Fail> {
    let alloc = rt.alloc();
    for count in [1, 59, 60] {
        let list = zeros(alloc, count)?;
        let line = format!(in alloc; "lay 7 t p --csv --least {list}")?;
        let wanted = format!(in alloc; "lay 7 t p : csv least={list}")?;
        check(&rt, line.as_str(), wanted.as_str())?;
    }
    for count in [61, 62, 500] {
        let list = zeros(alloc, count)?;
        let line = format!(in alloc; "lay 7 t p --csv --least {list}")?;
        check(&rt, line.as_str(), "nothing")?;
    }
    Ok(())
}

/// Takes what may be sent to other threads and shared between them.
fn share<T: Send + Sync>(_value: Option<&T>) {}

#[test]
fn what_is_asked_for_may_go_to_other_threads() {
    share::<Ask<'_>>(None);
    share::<Command>(None);
    share::<Choice>(None);
    share::<Options>(None);
    share::<Search>(None);
}
