//! Words, units and lines counted by hand, and each call at its limit.

use std::alloc::{AllocError, Global};
use std::process::Abort;
use std::test::Fail;
use tl_base::{Config, List, Text};
use tl_text::{
    Atom, Line, Para, TextError, configs, count_lines, least_width, lines, part, widest_within,
    words,
};

/// A paragraph written by hand: `/` is a break, and `+` begins a unit that goes on with a word.
fn atoms(alloc: Global, spelt: &str) -> Result<List<Atom>, Fail> {
    let units = words(alloc, spelt)?;
    let mut atoms = List::new(alloc);
    for unit in units.as_slice() {
        let unit = unit.as_str();
        if unit == "/" {
            atoms.push(Atom::Break)?;
        } else if let Some(rest) = unit.strip_prefix('+') {
            atoms.push(Atom::Glue(Text::from_str(alloc, rest)?))?;
        } else {
            atoms.push(Atom::Word(Text::from_str(alloc, unit)?))?;
        }
    }
    Ok(atoms)
}

fn paragraph(alloc: Global, spelt: &str) -> Result<Para, Fail> {
    Ok(Para::new(atoms(alloc, spelt)?).ok_or("no paragraph")?)
}

/// The paragraph as it is written by hand.
fn written(alloc: Global, p: &Para) -> Result<String, AllocError> {
    let mut line = String::new(alloc);
    for atom in p.atoms() {
        if !line.is_empty() {
            line.push(' ')?;
        }
        match atom {
            Atom::Word(text) => line.push_str(text.as_str())?,
            Atom::Glue(text) => {
                line.push('+')?;
                line.push_str(text.as_str())?;
            }
            Atom::Break => line.push('/')?,
        }
    }
    Ok(line)
}

/// Fails the test where this is not so of the row.
fn holds(rt: &impl Abort, row: &str, is: bool) {
    assert!(rt; is, "{row:?}");
}

/// A paragraph of so many words of four columns.
fn long_paragraph(alloc: Global, words: u32) -> Result<Para, Fail> {
    let mut list = List::new(alloc);
    for _ in 0..words {
        list.push(Atom::Word(Text::from_str(alloc, "word")?))?;
    }
    Ok(Para::new(list).ok_or("no paragraph")?)
}

/// The words of a text, each with a `|` after it.
fn joined_words(alloc: Global, text: &str) -> Result<String, AllocError> {
    let mut found = String::new(alloc);
    for word in words(alloc, text)?.as_slice() {
        found.push_str(word.as_str())?;
        found.push('|')?;
    }
    Ok(found)
}

#[test]
fn words_are_separated_by_ascii_white_space_alone(rt: HostRuntime) -> Result<(), Fail> {
    for (text, want) in [
        ("", ""),
        (" \t\n\u{c}\r", ""),
        ("aa", "aa|"),
        ("  aa  bb cc ", "aa|bb|cc|"),
        ("aa\tbb\ncc\u{c}dd\ree", "aa|bb|cc|dd|ee|"),
        ("x\u{a0}y z\u{b}z", "x\u{a0}y|z\u{b}z|"),
        ("中\u{3000}中 é", "中\u{3000}中|é|"),
    ] {
        let found = joined_words(rt.alloc(), text)?;
        holds(&rt, text, found.as_str() == want);
    }
    Ok(())
}

#[test]
fn a_paragraph_is_made_of_solid_units_that_begin_with_a_word(rt: HostRuntime) -> Result<(), Fail> {
    for (spelt, is) in [
        ("", false),
        ("/", true),
        ("a", true),
        ("+a", false),
        ("a +b / c +d", true),
        ("a / +b", false),
        ("/ / +b", false),
    ] {
        let found = Para::new(atoms(rt.alloc(), spelt)?);
        holds(&rt, spelt, found.is_some() == is);
    }
    Ok(())
}

/// Whether a paragraph can be made of this unit alone.
fn is_a_unit(alloc: Global, text: &str) -> Result<bool, AllocError> {
    let mut list = List::new(alloc);
    list.push(Atom::Word(Text::from_str(alloc, text)?))?;
    Ok(Para::new(list).is_some())
}

#[test]
fn a_unit_is_not_empty_and_has_no_white_space(rt: HostRuntime) -> Result<(), Fail> {
    for text in ["", " ", "a b", "a\n", "\u{c}a"] {
        holds(&rt, text, !is_a_unit(rt.alloc(), text)?);
    }
    Ok(())
}

#[test]
fn a_paragraph_has_at_most_so_many_bytes_and_breaks(rt: HostRuntime) -> Result<(), Fail> {
    for (breaks, is) in [(1_048_572, true), (1_048_573, false)] {
        let mut list = atoms(rt.alloc(), "é +éa")?;
        for _ in 0..breaks - 1 {
            list.push(Atom::Break)?;
        }
        assert_eq!(rt; Para::new(list).is_some(), is, "{breaks} breaks");
    }
    Ok(())
}

/// Whether these are the widths from which on a paragraph has fewer lines, up to the last, and their
/// numbers of lines.
fn has_configs(
    alloc: Global,
    p: &Para,
    steps: &[(u32, u32)],
    last: u32,
) -> Result<bool, AllocError> {
    if least_width(p) > last || last > 500 {
        return Ok(false);
    }
    let found = configs(alloc, p, last)?;
    Ok(are_configs(found.configs(), steps))
}

/// Whether the configurations have these widths and heights.
fn are_configs(found: &[Config], steps: &[(u32, u32)]) -> bool {
    found.len() == steps.len()
        && found
            .iter()
            .zip(steps)
            .all(|(config, step)| (config.width, config.height) == *step)
}

/// Whether a paragraph has the lines in a width that the steps say, as they are counted and as they are made.
fn has_lines(alloc: Global, p: &Para, steps: &[(u32, u32)], width: u32) -> bool {
    let want = steps
        .iter()
        .rev()
        .find(|step| step.0 <= width)
        .map(|step| step.1);
    let made = lines(alloc, p, width).ok().map(|made| made.len());
    count_lines(p, width) == want && made == want.map(|n| n as usize)
}

/// Whether a paragraph has the lines that the steps say in each width up to the last.
fn has_lines_up_to(alloc: Global, p: &Para, steps: &[(u32, u32)], last: u32) -> bool {
    let mut are = true;
    for width in 0..=last {
        are = are && has_lines(alloc, p, steps, width);
    }
    are
}

// For each paragraph: the widths from which on it has fewer lines, with their numbers of lines,
// counted by hand; the last width tried.
#[test]
fn each_width_has_the_least_number_of_lines(rt: HostRuntime) -> Result<(), Fail> {
    for (spelt, steps, last) in [
        ("aa bb cc", [(2, 3), (5, 2), (8, 1)].as_slice(), 9),
        ("abcdef", [(6, 1)].as_slice(), 8),
        ("aaa bbb", [(3, 2), (7, 1)].as_slice(), 8),
        ("a bbbb c", [(4, 3), (6, 2), (8, 1)].as_slice(), 9),
        ("aaaaa b", [(5, 2), (7, 1)].as_slice(), 8),
        // a word without width, between two others and alone
        ("a \u{200b} b", [(1, 3), (2, 2), (4, 1)].as_slice(), 5),
        ("\u{200b}", [(0, 1)].as_slice(), 2),
        // wide characters, and a mark that takes no column
        ("中中 中", [(4, 2), (7, 1)].as_slice(), 8),
        ("e\u{301} e\u{301}", [(1, 2), (3, 1)].as_slice(), 4),
        // breaks
        ("/", [(0, 1)].as_slice(), 2),
        ("/ / /", [(0, 3)].as_slice(), 2),
        ("/ a /", [(1, 2)].as_slice(), 3),
        ("a / / b /", [(1, 3)].as_slice(), 3),
        ("a b / cc dd", [(2, 4), (3, 3), (5, 2)].as_slice(), 6),
        // units that go on with a word
        ("ab +cd", [(2, 2), (4, 1)].as_slice(), 5),
        ("a +b c +d", [(1, 4), (2, 2), (5, 1)].as_slice(), 6),
        ("a +bb +c", [(2, 3), (3, 2), (4, 1)].as_slice(), 5),
    ] {
        let p = paragraph(rt.alloc(), spelt)?;
        holds(&rt, spelt, has_configs(rt.alloc(), &p, steps, last)?);
        holds(&rt, spelt, has_lines_up_to(rt.alloc(), &p, steps, last));
    }
    Ok(())
}

/// Whether the lines are these ranges of units.
fn are_lines(found: &[Line], want: &[(u32, u32)]) -> bool {
    found.len() == want.len()
        && found
            .iter()
            .zip(want)
            .all(|(line, range)| (line.first, line.past) == *range)
}

#[test]
fn a_line_has_as_many_units_as_fit_and_the_break_that_ends_it(rt: HostRuntime) -> Result<(), Fail> {
    for (spelt, width, want) in [
        ("aa bb cc", 7, [(0, 2), (2, 3)].as_slice()),
        ("aa bb cc", 8, [(0, 3)].as_slice()),
        ("a bbbb c", 6, [(0, 2), (2, 3)].as_slice()),
        ("a / / b /", 5, [(0, 2), (2, 3), (3, 5)].as_slice()),
        ("/ a", 1, [(0, 1), (1, 2)].as_slice()),
        ("ab +cd", 3, [(0, 1), (1, 2)].as_slice()),
        ("a +b c +d", 4, [(0, 3), (3, 4)].as_slice()),
        ("a b / c", 2, [(0, 1), (1, 3), (3, 4)].as_slice()),
    ] {
        let p = paragraph(rt.alloc(), spelt)?;
        let found = lines(rt.alloc(), &p, width).ok().ok_or("too wide")?;
        holds(&rt, spelt, are_lines(found.as_slice(), want));
    }
    Ok(())
}

#[test]
fn the_first_unit_that_is_too_wide_is_named(rt: HostRuntime) -> Result<(), Fail> {
    for (spelt, width, place) in [
        ("abcdef", 5, 0),
        ("a bbb cccc", 2, 1),
        ("/ a +bbb", 2, 2),
        ("aa 中中 中", 3, 1),
    ] {
        let p = paragraph(rt.alloc(), spelt)?;
        let named = match lines(rt.alloc(), &p, width) {
            Err(TextError::TooWide(at)) => Some(at),
            _ => None,
        };
        holds(&rt, spelt, named == Some(place));
    }
    Ok(())
}

// Words of four columns: a line of w columns holds (w + 1) / 5 of them.
#[test]
fn a_long_paragraph_has_the_least_number_of_lines_at_each_width(
    rt: HostRuntime,
) -> Result<(), Fail> {
    let p = long_paragraph(rt.alloc(), 70_000)?;
    assert!(rt; least_width(&p) <= 500);
    let steps = configs(rt.alloc(), &p, 500)?;
    for width in 4..=500 {
        let held = (width + 1) / 5;
        assert!(rt; held > 0);
        let want = (70_000u32).div_ceil(held);
        assert_eq!(rt; steps.height_at(width), Some(want), "{width}");
    }
    for (width, want) in [(4, 70_000), (14, 23_334), (500, 700)] {
        let made = lines(rt.alloc(), &p, width).ok().map(|made| made.len());
        assert_eq!(rt; made, Some(want), "{width}");
    }
    Ok(())
}

#[test]
fn a_long_text_has_each_of_its_words(rt: HostRuntime) -> Result<(), Fail> {
    let mut text = String::new(rt.alloc());
    for _ in 0..10_000 {
        text.push_str("a bb\tccc ")?;
    }
    assert_eq!(rt; words(rt.alloc(), text.as_str())?.len(), 30_000);
    Ok(())
}

#[test]
fn a_word_is_separated_between_its_grapheme_clusters(rt: HostRuntime) -> Result<(), Fail> {
    for (spelt, want) in [
        ("abc", "a +b +c"),
        ("e\u{301}e\u{301}", "e\u{301} +e\u{301}"),
        // two regional indicators are a flag, and a third stands alone
        ("\u{1f1f7}\u{1f1fa}", "\u{1f1f7}\u{1f1fa}"),
        (
            "\u{1f1f7}\u{1f1fa}\u{1f1f8}",
            "\u{1f1f7}\u{1f1fa} +\u{1f1f8}",
        ),
        ("中文 ab", "中 +文 a +b"),
        // breaks stay, and so does a unit that goes on with a word
        ("/ ab / / c /", "/ a +b / / c /"),
        ("ab +cd", "a +b +cd"),
    ] {
        let p = paragraph(rt.alloc(), spelt)?;
        let separated = part(rt.alloc(), &p, 0)?;
        holds(
            &rt,
            spelt,
            written(rt.alloc(), &separated)?.as_str() == want,
        );
    }
    Ok(())
}

/// Words, how many columns stay whole, and the units that there are then.
const PARTS: &[(&str, u32, &str)] = &[
    // a word of so many columns stays whole, and one of one column more is parted after its marks
    ("src/lib.rt", 10, "src/lib.rt"),
    ("src/lib.rt", 9, "src/ +lib. +rt"),
    ("src/lib.rt", 4, "src/ +lib. +rt"),
    // a part that is wider still is separated, and the others stay
    ("src/lib.rt", 3, "s +r +c +/ +l +i +b +. +rt"),
    ("ab src/lib.rt", 4, "ab src/ +lib. +rt"),
    ("max_page_width", 13, "max_ +page_ +width"),
    // a number and a time have one part, and a version only between its letters
    ("1.234,56", 8, "1.234,56"),
    ("1.234,56", 7, "1 +. +2 +3 +4 +, +5 +6"),
    ("12:30", 4, "1 +2 +: +3 +0"),
    ("v1.2-rc3", 5, "v1.2- +rc3"),
    ("1.a:2", 2, "1. +a: +2"),
    ("2026-12-01", 5, "2026- +12- +01"),
    // each mark, before a letter or digit of ASCII alone
    ("a;b=c?d&e+f#g@h%i", 2, "a; +b= +c? +d& +e+ +f# +g@ +h% +i"),
    (
        "https://example.org/a?b=c",
        8,
        "https:// +example. +org/ +a? +b= +c",
    ),
    ("a--b", 3, "a-- +b"),
    ("a/\u{e9}", 2, "a +/ +\u{e9}"),
    ("-a-", 2, "- +a-"),
    ("a(b", 2, "a +( +b"),
    // wide characters, and a cluster that is wider than what stays whole
    ("\u{4e2d}/a", 4, "\u{4e2d}/a"),
    ("\u{4e2d}/a", 3, "\u{4e2d}/ +a"),
    ("\u{4e2d}/a", 2, "\u{4e2d} +/ +a"),
    ("\u{4e2d}/a", 1, "\u{4e2d} +/ +a"),
    // what goes on with a word stays as it is
    ("ab +c-d / e-f", 2, "ab +c-d / e- +f"),
];

#[test]
fn a_word_that_is_too_wide_is_parted_after_its_marks(rt: HostRuntime) -> Result<(), Fail> {
    for (spelt, most, want) in PARTS {
        let parted = part(rt.alloc(), &paragraph(rt.alloc(), spelt)?, *most)?;
        let units = written(rt.alloc(), &parted)?;
        assert_eq!(rt; units.as_str(), *want, "{spelt} above {most}");
    }
    Ok(())
}

#[test]
fn the_widest_unit_is_no_wider_than_is_asked_for(rt: HostRuntime) -> Result<(), Fail> {
    let p = paragraph(rt.alloc(), "a bbb / cc dddd")?;
    for (most, want) in [(0, 0), (1, 1), (2, 2), (3, 3), (4, 4), (500, 4)] {
        assert_eq!(rt; widest_within(&p, most), want, "{most}");
    }
    Ok(())
}

#[test]
fn the_longest_word_and_a_long_paragraph_are_separated(rt: HostRuntime) -> Result<(), Fail> {
    let mut text = String::new(rt.alloc());
    for _ in 0..1 << 20 {
        text.push('a')?;
    }
    let p = paragraph(rt.alloc(), text.as_str())?;
    assert_eq!(rt; part(rt.alloc(), &p, 0)?.atoms().len(), 1 << 20);
    let p = long_paragraph(rt.alloc(), 70_000)?;
    assert_eq!(rt; part(rt.alloc(), &p, 0)?.atoms().len(), 280_000);
    Ok(())
}

#[test]
fn each_error_has_its_message(rt: HostRuntime) -> Result<(), Fail> {
    for (error, want) in [
        (TextError::Memory(AllocError), "out of memory"),
        (
            TextError::TooWide(7),
            "the unit at 7 is wider than the width",
        ),
    ] {
        assert_eq!(rt; format!(in rt.alloc(); "{error}")?.as_str(), want);
    }
    Ok(())
}

fn share<T: Send + Sync + Drop>(_value: T) {}

#[test]
fn paragraphs_lines_and_steps_may_go_to_other_threads(rt: HostRuntime) -> Result<(), Fail> {
    let p = paragraph(rt.alloc(), "aa bb")?;
    assert!(rt; least_width(&p) <= 7);
    share(lines(rt.alloc(), &p, 5));
    share(part(rt.alloc(), &p, 0));
    share(configs(rt.alloc(), &p, 7));
    share(p);
    Ok(())
}
