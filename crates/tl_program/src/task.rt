//! What a command asks of a table: its options, each as it is given or by default.

ghost use Rattle.std.specs.Prelude.{◌≡◌, []};
ghost use Rattle.tl_command.specs.Ask.{asked_by};
ghost use Rattle.tl_command.specs.declared.options.BreakRule.TheVariants as rules;
ghost use Rattle.tl_sides.specs.declared.align.Align.TheVariants.{Columns};
ghost use Rattle.tl_program.specs.Tasks.{breaking_by, format_by, format_of, given_or, source_by, task_of, task_on};

use crate::names::certificate_name;
use tl_base::{Breaking, Search, Style};
use tl_command::{Ask, BreakRule, Options};
use tl_floors::Floors;
use tl_lay::{Format, Task};
use tl_read::Source;
use tl_sides::{Align, Sides};

/// How paragraphs are broken into lines where these words may break; they are whole before it is found which may.
fn breaking_by(rule: BreakRule) -> Breaking
    ensures { result ≡ breaking_by rule }
{
    match rule {
        BreakRule::Words => Breaking::Words,
        BreakRule::Any => Breaking::Wider(0),
        BreakRule::Wider(most) | BreakRule::Fitted(most) => Breaking::Wider(most),
        BreakRule::Fit => Breaking::Words,
    }
}

/// What kind of file the table is read from.
fn source_of(options: &Options) -> Source
    ensures { result ≡ source_by options.now.csv options.now.head (given_or [] options.now.least)
        (breaking_by (given_or rules.Words options.now.breaking)) }
{
    let breaking = breaking_by(options.breaking.unwrap_or(BreakRule::Words));
    if options.csv {
        Source::Csv {
            head: options.head,
            floors: options.least.unwrap_or(Floors::none()),
            breaking,
        }
    } else {
        Source::Html(breaking)
    }
}

/// How the page is written. HTML has no spaces to be left out, and no sides.
fn format_by(options: &Options) -> Format
    ensures { result ≡ format_by (given_or (Columns []) options.now.align) options.now.trim options.now.html }
{
    let align = options.align.unwrap_or(Align::Columns(Sides::none()));
    if options.html {
        Format::Html
    } else if options.trim {
        Format::Trimmed(align)
    } else {
        Format::Text(align)
    }
}

/// How the page that is asked for is written.
fn format_of(ask: &Ask<'_>) -> Format
    ensures { result ≡ format_of (asked_by ask.now) }
{
    format_by(&ask.options)
}

/// What is asked of a table: the number is the width of its page.
pub fn task_of(ask: &Ask<'_>) -> Task
    ensures { result ≡ task_of (asked_by ask.now) }
{
    task_on(ask, ask.number)
}

/// What is asked of a table, for pages of so many columns at most.
pub fn task_on(ask: &Ask<'_>, width: u32) -> Task
    ensures { result ≡ task_on width (asked_by ask.now) }
{
    let options = &ask.options;
    Task {
        width,
        style: options.style.unwrap_or(Style::Plain),
        source: source_of(options),
        budget: options.budget,
        search: options.search.unwrap_or(Search::Best),
        workers: options.workers.unwrap_or(1),
        format: format_of(ask),
        certified: certificate_name(ask).is_some(),
    }
}
