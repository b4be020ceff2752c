//! A whole certificate.

use crate::Section;
use tl_base::{Chain, List, Style};

/// What a certificate proves.
#[derive(Clone, Copy, Debug, PartialEq, Eq)]
pub enum Claim {
    /// The lowest page has this height, in lines.
    Lowest(u32),
    /// There is a page of the first height, and none below the second, which is less.
    Bounded(u32, u32),
    /// No page narrower than so many columns holds the table.
    Narrow(u32),
}

/// A claim on one table at one width, and its proof: chains of cells for `Narrow`, sections for the
/// other claims.
#[derive(Debug)]
pub struct Certificate {
    /// The page width, in columns of text.
    pub width: u32,
    pub style: Style,
    /// How many cuts the search of each section was allowed.
    pub budget: u32,
    pub claim: Claim,
    pub chains: List<Chain>,
    pub sections: List<Section>,
}

impl Drop for Certificate {
    fn drop(self) {
        let Certificate {
            width: _width,
            style: _style,
            budget: _budget,
            claim: _claim,
            chains: _chains,
            sections: _sections,
        } = self;
    }
}
