//! The tree of a whole document.

ghost use Rattle.std.specs.Prelude.{◌≡◌, OnOk, IfOk, IfErr, alloc_error};
ghost use Rattle.tl_base.specs.Returned.{ReturnsError, IsMemoryOr};
ghost use Rattle.tl_tree.specs.Tags.{class_of, kinds, is_text, is_table_start};
ghost use Rattle.tl_tree.specs.Readable.{AreReadable};
ghost use Rattle.tl_tree.specs.Sound.{IsSound};
ghost use Rattle.tl_tree.specs.Spelling.{SpellsTree, IsWithinLimits, SpellsNoTree, ReturnsTree};
ghost use Rattle.tl_tree.specs.declared.node.TableNode.{TableNode};
ghost use Rattle.tl_tree.specs.declared.error.TreeError.{TreeError};
ghost use Rattle.tl_tree.specs.declared.error.TreeError.TheVariants.{Memory};

use crate::error::TreeError;
use crate::node::TableNode;
use crate::reading::Reading;
use crate::stop::Stop;
use std::alloc::Global;
use tl_token::{Element, Token, TokenKind};

impl Stop {
    ghost use Rattle.tl_tree.specs.inner.Documents.{stop_error};

    /// The error of a token at which reading stops.
    fn at(self, index: u32, kind: &TokenKind) -> TreeError
        ensures { result ≡ stop_error index (class_of kind.now) self }
    {
        match self {
            Stop::Memory(error) => TreeError::Memory(error),
            Stop::TooDeep => TreeError::TooDeep(index),
            Stop::TooManyTables => TreeError::TooManyTables(index),
            Stop::Misfit => {
                if is_text(kind) {
                    TreeError::StrayText(index)
                } else {
                    TreeError::Misplaced(index)
                }
            }
        }
    }
}

fn is_text(kind: &TokenKind) -> bool
    ensures { result ≡ is_text (class_of kind.now) }
{
    match kind {
        TokenKind::Text(_) => true,
        TokenKind::Start(_, _) | TokenKind::End(_) => false,
    }
}

fn is_table_start(kind: &TokenKind) -> bool
    ensures { result ≡ is_table_start (class_of kind.now) }
{
    match kind {
        TokenKind::Start(element, _) => matches!(element, Element::Table),
        TokenKind::Text(_) | TokenKind::End(_) => false,
    }
}

/// Reads the tokens one after another.
fn read(alloc: Global, tokens: &[Token]) -> Result<TableNode, TreeError>
    requires { AreReadable tokens.now }
    ensures ok { IfOk result (SpellsTree tokens.now) }
    ensures within { OnOk result (IsWithinLimits (kinds tokens.now)) }
    ensures err { IfErr result (IsMemoryOr (Memory alloc_error) (SpellsNoTree tokens.now)) }
{
    let mut reading = Reading::Before;
    let mut tables = 0usize;
    for (index, token) in tokens.iter().enumerate() {
        reading = match reading.read(alloc, &token.kind, tables) {
            Ok(next) => next,
            Err(stop) => return Err(stop.at(index as u32, &token.kind)),
        };
        if is_table_start(&token.kind) {
            tables += 1;
        }
    }
    reading.into_tree()
}

/// The tree that the tokens of a file spell: its table, with the tables nested in it. The tables are
/// numbered from 0 by their start tags.
///
/// Each error that names a token names the first at which no document goes on, or at which a limit is
/// passed; at one token a misplaced tag comes before `MAX_DEPTH`, and that before `MAX_TABLES`. The
/// time and the memory grow with the number of tokens and characters alone.
pub fn tree(alloc: Global, tokens: &[Token]) -> Result<TableNode, TreeError>
    requires { AreReadable tokens.now }
    // The tree is one that the tokens spell, within the limits, and each that they spell is returned.
    ensures ok { IfOk result (SpellsTree tokens.now) }
    ensures within { OnOk result (IsWithinLimits (kinds tokens.now)) }
    ensures each_ok { (node : TableNode) → SpellsTree tokens.now node → IsWithinLimits (kinds tokens.now) → ReturnsTree node result }
    ensures sound { IfOk result IsSound }
    // Each error comes exactly where its cause is so.
    ensures err { IfErr result (IsMemoryOr (Memory alloc_error) (SpellsNoTree tokens.now)) }
    ensures each_err { (error : TreeError) → SpellsNoTree tokens.now error → ReturnsError (Memory alloc_error) error result }
{
    read(alloc, tokens)
}
