//! Command lines, what commands get of them, which ask for progress, and what is wrong with some.

use crate::{arrange, asks_for_progress, complaint};
use std::alloc::{AllocError, Global};
use std::test::Fail;

/// Command lines beside what the command gets.
const LINES: &[(&str, &str)] = &[
    ("", ""),
    ("demo 7", "demo 7"),
    ("lay 7 t p c", "lay 7 t p c"),
    (
        "lay 7 t p --style frame --csv",
        "lay 7 t p --style frame --csv",
    ),
    (
        "--csv --style frame lay 7 t p",
        "lay 7 t p --csv --style frame",
    ),
    (
        "lay --least 1,2 7 --csv t --break any p",
        "lay 7 t p --least 1,2 --csv --break any",
    ),
    (
        "lay 7 --budget 0 t --workers 2 p --solver best",
        "lay 7 t p --budget 0 --workers 2 --solver best",
    ),
    (
        "narrow 7 t --head p --html c --csv l s",
        "narrow 7 t p c l s --head --html --csv",
    ),
    ("lay 7 t p --", "lay 7 t p"),
    ("-- lay 7 t p", "lay 7 t p"),
    ("lay 7 --csv -- t p", "lay 7 t p --csv"),
    ("lay 7 -- --csv -- --style", "lay 7 ./--csv ./-- ./--style"),
    ("lay 7 t p -html -- -c", "lay 7 t p -html -c"),
    ("lay 7 - - -", "lay 7 /dev/stdin /dev/stdout /dev/stdout"),
    ("lay 7 -- - p", "lay 7 /dev/stdin p"),
    ("lay 7 ./- p", "lay 7 ./- p"),
    (
        "narrow 7 t p - - -",
        "narrow 7 t p /dev/stdout /dev/stdout /dev/stdout",
    ),
    ("check 7 - c", "check 7 /dev/stdin c"),
    ("check --csv 7 t -", "check 7 t /dev/stdin --csv"),
    ("- - t p", "- - t p"),
    ("lay 7 t  --html", "lay 7 t  --html"),
    ("lay 7 t p --style", "lay 7 t p --style"),
    ("lay 7 t p --style -- --csv", "lay 7 t p --style -- --csv"),
    ("lay 7 t p --stlye frame", "lay 7 t p frame --stlye"),
    ("lay 7 t --html", "--html lay 7 t"),
    ("demo --csv 7", "--csv demo 7"),
    ("lay 7 t p --progress", "lay 7 t p"),
    ("--progress batch", "batch"),
    (
        "lay --progress 7 --csv --progress t p --style any",
        "lay 7 t p --csv --style any",
    ),
    ("lay 7 --trim t --html p", "lay 7 t p --trim --html"),
    ("lay 7 --align r,l t p", "lay 7 t p --align r,l"),
    ("lay 7 t p -- --progress", "lay 7 t p ./--progress"),
    (
        "lay 7 t p --style --progress",
        "lay 7 t p --style --progress",
    ),
    ("lay 7 t --progress", "lay 7 t"),
];

/// Command lines that ask for progress.
const ASKING: &[&str] = &[
    "--progress",
    "--progress batch",
    "lay 7 t p --progress",
    "lay --progress 7 --csv --progress t p --style any",
    "lay 7 t p --style --progress --progress",
    "--progress -- lay 7 t p",
];

/// Command lines that do not.
const NOT_ASKING: &[&str] = &[
    "",
    "lay 7 t p --csv",
    "lay 7 t p -progress progress --progres --progress=",
    "lay 7 t p --style --progress",
    "lay 7 t p -- --progress",
    "-- lay 7 --progress --progress",
];

/// Command lines beside what is wrong with them.
const WRONG: &[(&str, &str)] = &[
    (
        "lay 7 t p --progres",
        "unknown option '--progres': did you mean '--progress'?",
    ),
    (
        "--prgress demo 7",
        "unknown option '--prgress': did you mean '--progress'?",
    ),
    (
        "lay 7 t p --style --progress",
        "option '--style' does not take '--progress'",
    ),
    (
        "lay 7 t p --trimm",
        "unknown option '--trimm': did you mean '--trim'?",
    ),
    (
        "check 7 t c --trim",
        "command 'check' does not take '--trim'",
    ),
    ("lay 7 t p --align x", "option '--align' does not take 'x'"),
    (
        "check 7 t c --align l",
        "command 'check' does not take '--align'",
    ),
    (
        "lay 7 t p --style gird",
        "option '--style' does not take 'gird'",
    ),
    (
        "lay 7 t p --progress --stile any",
        "unknown option '--stile': did you mean '--style'?",
    ),
];

/// The arguments of a command line, each separated by one space from the next.
fn arguments(alloc: Global, line: &str) -> Result<Vec<String>, AllocError> {
    let mut arguments = Vec::new(alloc);
    if line.is_empty() {
        return Ok(arguments);
    }
    for argument in line.split(' ') {
        arguments.push(String::from_str(alloc, argument)?)?;
    }
    Ok(arguments)
}

#[test]
fn commands_get_names_and_then_options(rt: HostRuntime) -> Result<(), Fail> {
    let alloc = rt.alloc();
    for (line, wanted) in LINES {
        let words = arguments(alloc, line)?;
        let arranged = arrange(alloc, words.as_slice())?;
        let wanted = arguments(alloc, wanted)?;
        assert_eq!(rt; arranged.as_slice(), wanted.as_slice());
    }
    Ok(())
}

#[test]
fn progress_is_asked_for_where_options_may_stand(rt: HostRuntime) -> Result<(), Fail> {
    let alloc = rt.alloc();
    for line in ASKING {
        let words = arguments(alloc, line)?;
        assert!(rt; asks_for_progress(words.as_slice()));
    }
    for line in NOT_ASKING {
        let words = arguments(alloc, line)?;
        assert!(rt; !asks_for_progress(words.as_slice()));
    }
    Ok(())
}

#[test]
fn a_misspelled_option_is_named_beside_the_nearest(rt: HostRuntime) -> Result<(), Fail> {
    let alloc = rt.alloc();
    for (line, wanted) in WRONG {
        let words = arguments(alloc, line)?;
        let complaint = complaint(alloc, words.as_slice())?;
        assert_eq!(rt; complaint.as_str(), *wanted);
    }
    Ok(())
}
