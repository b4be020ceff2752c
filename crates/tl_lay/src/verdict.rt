//! What a text of a certificate is found to be.

use crate::rejection::Rejection;
use tl_read::Refusal;

/// What a text of a certificate shows of a table. Heights are in lines, widths in columns.
#[derive(Clone, Copy)]
pub enum Verdict {
    /// The certificate is valid: a page of this height and width holds the table, and no layout is lower.
    Lowest { height: u32, width: u64 },
    /// The certificate is valid: a page of this height and width holds the table, and no layout is below the
    /// lower bound.
    Bounded { height: u32, lower: u32, width: u64 },
    /// The certificate is valid: no page below the least width holds the table, and this one is narrower.
    Narrow { least: u32, width: u32 },
    /// The text is that of no valid certificate.
    Rejected(Rejection),
    /// The bytes are refused, and the text was not judged.
    Refused(Refusal),
}
