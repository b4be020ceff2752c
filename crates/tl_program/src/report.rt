//! What is reported, with its exit status.

ghost use Rattle.std.specs.Prelude.{◌≡◌};
ghost use Rattle.tl_program.specs.Messages.{of_page, refusal_status, status_of};
ghost use Rattle.tl_program.specs.Reports.{report_of, verdict_report};

use crate::status::Status;
use tl_lay::{Answer, Rejection, Summary, Verdict};
use tl_read::Refusal;

/// What is reported. Heights are in lines, widths in columns.
#[derive(Clone, Copy)]
pub enum Report {
    /// A page of this height is stored, or its certificate is valid, and no layout is lower.
    Lowest { height: u32, width: u64 },
    /// A page of this height is stored, or its certificate is valid, and no layout is below the lower
    /// bound.
    Bounded { height: u32, lower: u32, width: u64 },
    /// No page below the least width holds the table, and this one is narrower.
    Narrow { least: u32, width: u32 },
    /// A page of this width is stored, which is the narrowest that holds the table in at most so many
    /// lines.
    Slimmest { width: u32, height: u32 },
    /// No page below the least width holds the table in so few lines; the page that is stored is wider,
    /// and there is none where no width is named.
    Between { width: Option<u32>, least: u32 },
    /// No page of any width holds the table in so few lines.
    TooTall { height: u32 },
    /// A page of this height is stored, the lowest on this width, which is the least of a page that is so
    /// low, in the layout that is chosen.
    Tidy { height: u32, width: u32 },
    /// The lowest page is stored, on this width; a page below the least width is not so low.
    Wider { width: u32, least: u32 },
    /// The lowest page is stored, on the narrowest page that is so low, in some layout.
    Unchosen,
    /// The file is refused.
    Refused(Refusal),
    /// The certificate is rejected.
    Rejected(Rejection),
    /// A table was laid out, and its certificate checked.
    Summary(Summary),
    /// The arguments are invalid: docs/COMMAND.md.
    Usage,
    /// The file could not be read.
    ReadFault,
}

impl Report {
    /// What is reported of an answer.
    pub fn of_answer(answer: &Answer) -> Report
        ensures { result ≡ report_of answer.now }
    {
        match *answer {
            Answer::Lowest { height, width, .. } => Report::Lowest { height, width },
            Answer::Bounded {
                height,
                lower,
                width,
                ..
            } => Report::Bounded {
                height,
                lower,
                width,
            },
            Answer::Narrow { least, width, .. } => Report::Narrow { least, width },
            Answer::Slimmest { width, height, .. } => Report::Slimmest { width, height },
            Answer::Between { width, least, .. } => Report::Between { width, least },
            Answer::TooTall { height, .. } => Report::TooTall { height },
            Answer::Tidy { height, width, .. } => Report::Tidy { height, width },
            Answer::Wider { width, least, .. } => Report::Wider { width, least },
            Answer::Unchosen { .. } => Report::Unchosen,
            Answer::Refused(refusal) => Report::Refused(refusal),
        }
    }

    /// What is reported of a verdict.
    pub fn of_verdict(verdict: Verdict) -> Report
        ensures { result ≡ verdict_report verdict }
    {
        match verdict {
            Verdict::Lowest { height, width } => Report::Lowest { height, width },
            Verdict::Bounded {
                height,
                lower,
                width,
            } => Report::Bounded {
                height,
                lower,
                width,
            },
            Verdict::Narrow { least, width } => Report::Narrow { least, width },
            Verdict::Rejected(rejection) => Report::Rejected(rejection),
            Verdict::Refused(refusal) => Report::Refused(refusal),
        }
    }

    /// The number of columns above which words may break, where it speaks of a page.
    pub fn of_page(self, most: Option<u32>) -> Option<u32>
        ensures { result ≡ of_page most self }
    {
        match self {
            Report::Lowest { .. }
            | Report::Bounded { .. }
            | Report::Slimmest { .. }
            | Report::Between { .. }
            | Report::Tidy { .. }
            | Report::Wider { .. }
            | Report::Unchosen => most,
            Report::Narrow { .. }
            | Report::TooTall { .. }
            | Report::Refused(_)
            | Report::Rejected(_)
            | Report::Summary(_)
            | Report::Usage
            | Report::ReadFault => None,
        }
    }

    /// The status with which the program ends after it.
    pub fn status(self) -> Status
        ensures { result ≡ status_of self }
    {
        match self {
            Report::Lowest { .. } => Status::Lowest,
            Report::Bounded { .. } => Status::Bounded,
            Report::Narrow { .. } => Status::Narrow,
            Report::Slimmest { .. } => Status::Lowest,
            Report::Between { .. } => Status::Bounded,
            Report::TooTall { .. } => Status::TooTall,
            Report::Tidy { .. } => Status::Lowest,
            Report::Wider { .. } | Report::Unchosen => Status::Bounded,
            Report::Refused(refusal) => refusal_status(refusal),
            Report::Rejected(_) => Status::Rejected,
            Report::Summary(summary) if summary.lower == summary.height => Status::Lowest,
            Report::Summary(_) => Status::Bounded,
            Report::Usage => Status::Usage,
            Report::ReadFault => Status::ReadFault,
        }
    }
}

fn refusal_status(refusal: Refusal) -> Status
    ensures { result ≡ refusal_status refusal }
{
    match refusal {
        Refusal::BadInput(_, _) | Refusal::Overlap { .. } | Refusal::BadRecord(_, _) => {
            Status::BadInput
        }
        Refusal::Limit(_, _) => Status::Limit,
    }
}
