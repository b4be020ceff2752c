//! What a table is answered with.

use tl_base::List;
use tl_read::Refusal;

/// What is known of the narrowest page after a search for it: the page that was found, where there is one, and
/// the texts of the certificates that there are, where they are wanted.
#[derive(Drop)]
pub struct Evidence {
    /// The bytes of the page.
    pub page: Option<List<u8>>,
    /// The text of the certificate of that page.
    pub kept: Option<List<u8>>,
    /// That of the page one column narrower than the least width that is known, which is not so low.
    pub less: Option<List<u8>>,
    /// That of the page between, with which the search ended early.
    pub spent: Option<List<u8>>,
}

/// What a table is answered with. Heights are in lines, widths in columns, pages and texts in bytes. A text of a
/// certificate is there where it is wanted.
#[derive(Drop)]
pub enum Answer {
    /// A page of this height, in a layout of this width. No layout is lower.
    Lowest {
        height: u32,
        width: u64,
        page: List<u8>,
        certificate: Option<List<u8>>,
    },
    /// A page of this height, in a layout of this width. No layout is below the lower bound.
    Bounded {
        height: u32,
        lower: u32,
        width: u64,
        page: List<u8>,
        certificate: Option<List<u8>>,
    },
    /// No page below the least width holds the table, and this one is narrower.
    Narrow {
        least: u32,
        width: u32,
        certificate: Option<List<u8>>,
    },
    /// The narrowest page that holds the table in at most so many lines.
    Slimmest {
        width: u32,
        height: u32,
        evidence: Evidence,
    },
    /// No page below the least width holds the table in so few lines. The page that was found is wider, and
    /// there is none where no width is named.
    Between {
        width: Option<u32>,
        least: u32,
        evidence: Evidence,
    },
    /// No page of any width holds the table in so few lines.
    TooTall {
        height: u32,
        evidence: Evidence,
    },
    /// A page of this height, the lowest on this width, which is the least of a page that is so low, in the
    /// layout that is chosen.
    Tidy {
        height: u32,
        width: u32,
        evidence: Evidence,
    },
    /// The lowest page, on this width. A page below the least width is not so low.
    Wider {
        width: u32,
        least: u32,
        evidence: Evidence,
    },
    /// The lowest page, on the narrowest page that is so low, in some layout.
    Unchosen {
        evidence: Evidence,
    },
    /// The bytes are refused.
    Refused(Refusal),
}
