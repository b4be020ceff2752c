//! Reads the tokens of a table file as a document: one table, its groups, rows and cells, and the
//! tables nested in them. It measures no text and forms no grid. Its one contract: `tree` returns
//! the tree exactly where the grammar of documents spells it by the tokens, within the limits of
//! depth and tables, and otherwise the first token that no document has there.
#![tactic(auto)]

mod document;
mod error;
mod flow;
mod laws;
mod node;
mod open;
mod reading;
mod stop;
mod tags;

pub use document::tree;
pub use error::TreeError;
pub use laws::tokens_spell_one_tree;
pub use node::{Block, CellNode, GroupNode, Part, TableNode};
