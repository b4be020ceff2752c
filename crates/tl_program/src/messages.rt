//! The messages that are printed. Each ends with a line feed.

ghost use Rattle.std.specs.Prelude.{◌≡◌, ◌++◌, IfOk, codes, decimal, string_bytes};
ghost use Rattle.tl_program.specs.Messages.{fault_words, record_words, limit_word, refusal_text, rejection_text};
ghost use Rattle.tl_program.specs.Messages.{summary_text, message_with, page_end, width_word};

use crate::report::Report;
use std::alloc::{AllocError, Global};
use tl_lay::{Rejection, Summary};
use tl_read::{Fault, Limit, RecordFault, Refusal};

/// What is wrong with a file that is no document.
fn fault_words(fault: Fault) -> &'static str
    ensures { result.now ≡ fault_words fault }
{
    match fault {
        Fault::NotUtf8 => "not utf-8",
        Fault::UnendedTag => "unended tag",
        Fault::UnendedComment => "unended comment",
        Fault::BadTag => "bad tag",
        Fault::UnknownElement => "unknown element",
        Fault::BadReference => "bad reference",
        Fault::BadCharacter => "bad character",
        Fault::NoTable => "no table",
        Fault::StrayText => "stray text",
        Fault::MisplacedTag => "misplaced tag",
        Fault::UnclosedTable => "unclosed table",
    }
}

/// What is wrong with a record of a CSV file.
fn record_words(fault: RecordFault) -> &'static str
    ensures { result.now ≡ record_words fault }
{
    match fault {
        RecordFault::Uneven => "uneven record",
        RecordFault::NotUtf8 => "record not utf-8",
        RecordFault::BadCharacter => "bad character in record",
    }
}

/// What is limited.
fn limit_word(limit: Limit) -> &'static str
    ensures { result.now ≡ limit_word limit }
{
    match limit {
        Limit::File => "file",
        Limit::Depth => "depth",
        Limit::Tables => "tables",
        Limit::Cells => "cells",
        Limit::Columns => "columns",
        Limit::Rows => "rows",
        Limit::Reach => "reach",
    }
}

/// The message of a refusal.
fn refusal_text(alloc: Global, refusal: Refusal) -> Result<String, AllocError>
    ensures { IfOk result (λ text. string_bytes text ≡ refusal_text refusal) }
{
    match refusal {
        Refusal::BadInput(fault, place) => {
            let words = fault_words(fault);
            format!(in alloc; "bad input: {words} at {place}\n")
        }
        Refusal::Overlap { table, row, column } => {
            format!(in alloc; "bad input: overlap in table {table} at row {row} column {column}\n")
        }
        Refusal::Limit(limit, number) => {
            let word = limit_word(limit);
            format!(in alloc; "limit: {word} {number}\n")
        }
        Refusal::BadRecord(fault, place) => {
            let words = record_words(fault);
            format!(in alloc; "bad input: {words} at {place}\n")
        }
    }
}

/// Why a certificate is rejected.
fn rejection_text(alloc: Global, rejection: Rejection) -> Result<String, AllocError>
    ensures { IfOk result (λ text. string_bytes text ≡ rejection_text rejection) }
{
    match rejection {
        Rejection::Syntax(place) => format!(in alloc; "syntax at {place}"),
        Rejection::Range(place) => format!(in alloc; "range at {place}"),
        Rejection::TooLong => format!(in alloc; "too long"),
        Rejection::Claim => format!(in alloc; "claim"),
        Rejection::Chain => format!(in alloc; "chain"),
        Rejection::Missing(table) => format!(in alloc; "missing section of table {table}"),
        Rejection::Extra(section) => format!(in alloc; "extra section {section}"),
        Rejection::Layout(section) => format!(in alloc; "layout of section {section}"),
        Rejection::Trace(section) => format!(in alloc; "trace of section {section}"),
        Rejection::Line(section, line) => format!(in alloc; "line {line} of section {section}"),
    }
}

/// The numbers of a demonstration.
fn summary_text(alloc: Global, summary: Summary) -> Result<String, AllocError>
    ensures { IfOk result (λ text. string_bytes text ≡ summary_text summary) }
{
    let Summary {
        cells,
        count,
        height,
        lower,
        cuts,
    } = summary;
    format!(in alloc; "cells {cells} count {count} height {height} lower {lower} cuts {cuts}\n")
}

/// The end of a message that speaks of a page, with the number of columns above which its words may break.
fn page_end(alloc: Global, most: Option<u32>) -> Result<String, AllocError>
    ensures { IfOk result (λ text. string_bytes text ≡ page_end most) }
{
    match most {
        Some(most) => format!(in alloc; " break {most}\n"),
        None => format!(in alloc; "\n"),
    }
}

/// The message that names a width and a least width.
fn between_text(
    alloc: Global,
    width: Option<u32>,
    least: u32,
    end: &str,
) -> Result<String, AllocError>
    ensures { IfOk result (λ text. string_bytes text
        ≡ codes "bounded width " ++ (width_word width ++ (codes " least " ++ (decimal least ++ end.now)))) }
{
    match width {
        Some(width) => format!(in alloc; "bounded width {width} least {least}{end}"),
        None => format!(in alloc; "bounded width none least {least}{end}"),
    }
}

/// The message of a report, with the number of columns above which words may break, where that was found.
pub fn message_text(alloc: Global, report: Report, most: Option<u32>) -> Result<String, AllocError>
    ensures { IfOk result (λ text. string_bytes text ≡ message_with most report) }
{
    let end = page_end(alloc, most)?;
    match report {
        Report::Lowest { height, width } => {
            format!(in alloc; "lowest height {height} width {width}{end}")
        }
        Report::Bounded {
            height,
            lower,
            width,
        } => format!(in alloc; "bounded height {height} lower {lower} width {width}{end}"),
        Report::Narrow { least, width } => {
            format!(in alloc; "narrow least {least} width {width}\n")
        }
        Report::Slimmest { width, height } => {
            format!(in alloc; "slimmest width {width} height {height}{end}")
        }
        Report::Between { width, least } => between_text(alloc, width, least, end.as_str()),
        Report::TooTall { height } => format!(in alloc; "too tall height {height}\n"),
        Report::Tidy { height, width } => {
            format!(in alloc; "tidy height {height} width {width}{end}")
        }
        Report::Wider { width, least } => {
            format!(in alloc; "untidy width {width} least {least}{end}")
        }
        Report::Unchosen => format!(in alloc; "untidy choice{end}"),
        Report::Refused(refusal) => refusal_text(alloc, refusal),
        Report::Rejected(rejection) => {
            let reason = rejection_text(alloc, rejection)?;
            format!(in alloc; "rejected: {reason}\n")
        }
        Report::Summary(summary) => summary_text(alloc, summary),
        Report::Usage => format!(in alloc; "usage\n"),
        Report::ReadFault => format!(in alloc; "read fault\n"),
    }
}
