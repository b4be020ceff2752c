//! Cuts the bytes of a table file into tags and texts. It does not know which tags may stand inside
//! which others, and it forms no table. Its one contract: `tokens` returns the tokens exactly where
//! the grammar spells the bytes, and otherwise the first fault and its place.
#![tactic(auto)]

mod elements;
mod file;
mod markup;
mod number;
mod output;
mod piece;
mod reader;
mod reference;
mod side;
mod tag;
mod token;

pub use file::tokens;
pub use markup::is_control;
pub use token::{Element, Spans, Token, TokenError, TokenKind};
