//! A document as it is read, from its first token to its last.

ghost use Rattle.std.specs.Prelude.{◌≡◌, ◌≢◌, ◌≤◌, ◌<◌, ◌+◌, ℕ, length, chars, IfOk, IfErr, Some};
ghost use Rattle.tl_token.specs.declared.token.Element.TheVariants.{Table, Outer as OuterElement};
ghost use Rattle.tl_tree.specs.declared.stop.Stop.TheVariants.{Misfit};
ghost use Rattle.tl_token.specs.declared.token.TokenKind.{TokenKind};
ghost use Rattle.tl_tree.specs.Tags as tags;
ghost use Rattle.tl_tree.specs.Tags.{class_of, kind_of_start, kind_of_end};
ghost use Rattle.tl_tree.specs.inner.Machine as machine;
ghost use Rattle.tl_tree.specs.Readable.{IsReadable};
ghost use Rattle.tl_tree.specs.declared.reading.Reading.TheVariants.{After};
ghost use Rattle.tl_tree.specs.inner.Lines.{line_size};
ghost use Rattle.tl_tree.specs.inner.Verdict.{end_fault};
ghost use Rattle.tl_tree.specs.inner.Reading.{IsModest};
ghost use Rattle.tl_tree.specs.inner.Documents.{state_of, IsModestReading, IsFresh, Reads, IsStop, IsLimit, Nests, Leaves};

use crate::error::TreeError;
use crate::flow::Flow;
use crate::node::{Block, TableNode};
use crate::open::{Holder, OpenTable};
use crate::stop::Stop;
use crate::tags::is_white;
use std::alloc::{AllocError, Global};
use tl_base::{List, MAX_DEPTH, MAX_FILE_BYTES, MAX_TABLES};
use tl_token::{Element, Spans, TokenKind};

/// A flow in which a table is open, with its blocks before that table.
#[derive(Drop)]
pub(crate) struct Outer {
    pub(crate) holder: Holder,
    pub(crate) blocks: List<Block>,
}

/// How far a document has been read.
pub(crate) enum Reading {
    /// Its table has not begun.
    Before,
    /// A table is open, inside of these flows, the innermost last.
    Inside(Vec<Outer>, OpenTable),
    /// Its table has ended.
    After(TableNode),
}

impl Drop for Reading {
    fn drop(self) {
        match self {
            Reading::Before => {}
            Reading::Inside(_outer, _table) => {}
            Reading::After(_node) => {}
        }
    }
}

impl Reading {
    /// The tree of the document, if its table has ended.
    pub(crate) fn into_tree(self) -> Result<TableNode, TreeError>
        ensures ok { IfOk result (λ node. self ≡ After node) }
        ensures err { IfErr result (λ error. end_fault (state_of self) ≡ Some error) }
    {
        match self {
            Reading::Before => Err(TreeError::NoTable),
            Reading::Inside(_outer, _table) => Err(TreeError::Unclosed),
            Reading::After(node) => Ok(node),
        }
    }

    /// Reads one token on. `tables` is the number of tables that have begun.
    pub(crate) fn read(
        self,
        alloc: Global,
        kind: &TokenKind,
        tables: usize,
    ) -> Result<Reading, Stop>
        requires modest { IsModestReading self }
        requires few { IsReadable (class_of kind.now) }
        requires counted { tables ≤ MAX_TABLES }
        requires fresh { IsFresh self tables }
        ensures ok { IfOk result (Reads self tables (class_of kind.now)) }
        ensures err { IfErr result (IsStop (state_of self) tables (class_of kind.now)) }
    {
        match kind {
            TokenKind::Text(text) => self.text(alloc, text.as_str()),
            TokenKind::Start(element, spans) => self.start(alloc, *element, *spans, tables),
            TokenKind::End(element) => self.end(alloc, *element),
        }
    }

    fn text(self, alloc: Global, text: &str) -> Result<Reading, Stop>
        requires { IsModestReading self }
        ensures ok { IfOk result (λ new. (tables : ℕ) → Reads self tables (tags.text (chars text.now)) new) }
        ensures err { IfErr result (λ stop. (tables : ℕ) → IsStop (state_of self) tables (tags.text (chars text.now)) stop) }
    {
        match self {
            Reading::Inside(outer, table) => Ok(Reading::Inside(outer, table.text(alloc, text)?)),
            other => {
                if is_white(text) {
                    Ok(other)
                } else {
                    Err(Stop::Misfit)
                }
            }
        }
    }

    fn start(
        self,
        alloc: Global,
        element: Element,
        spans: Spans,
        tables: usize,
    ) -> Result<Reading, Stop>
        requires modest { IsModestReading self }
        requires few { IsReadable (kind_of_start element spans) }
        requires counted { tables ≤ MAX_TABLES }
        requires fresh { IsFresh self tables }
        ensures ok { IfOk result (Reads self tables (kind_of_start element spans)) }
        ensures err { IfErr result (IsStop (state_of self) tables (kind_of_start element spans)) }
    {
        if element == Element::Table {
            return self.start_table(alloc, tables);
        }
        match self {
            Reading::Inside(outer, table) => {
                Ok(Reading::Inside(outer, table.start(alloc, element, spans)?))
            }
            other => pass_outer(other, element),
        }
    }

    fn end(self, alloc: Global, element: Element) -> Result<Reading, Stop>
        requires { IsModestReading self }
        ensures ok { IfOk result (λ new. (tables : ℕ) → Reads self tables (kind_of_end element) new) }
        ensures err { IfErr result (λ stop. (tables : ℕ) → IsStop (state_of self) tables (kind_of_end element) stop) }
    {
        match self {
            Reading::Inside(outer, table) => {
                if element == Element::Table {
                    Ok(end_table(alloc, outer, table)?)
                } else {
                    Ok(Reading::Inside(outer, table.end(alloc, element)?))
                }
            }
            other => pass_outer(other, element),
        }
    }

    fn start_table(self, alloc: Global, tables: usize) -> Result<Reading, Stop>
        requires modest { IsModestReading self }
        requires counted { tables ≤ MAX_TABLES }
        requires fresh { IsFresh self tables }
        ensures ok { IfOk result (Reads self tables tags.table_start) }
        ensures err { IfErr result (IsStop (state_of self) tables tags.table_start) }
    {
        match self {
            Reading::Before => Ok(Reading::Inside(
                Vec::new(alloc),
                OpenTable::Start(tables as u32),
            )),
            Reading::Inside(outer, table) => match table {
                OpenTable::Flow(holder, flow) => nest_table(alloc, outer, holder, flow, tables),
                _ => Err(Stop::Misfit),
            },
            Reading::After(_) => Err(Stop::Misfit),
        }
    }
}

/// A table begins in a flow.
fn nest_table(
    alloc: Global,
    outer: Vec<Outer>,
    holder: Holder,
    flow: Flow,
    tables: usize,
) -> Result<Reading, Stop>
    requires small { line_size flow.line ≤ MAX_FILE_BYTES }
    requires counted { tables ≤ MAX_TABLES }
    ensures ok { IfOk result (Nests outer.items holder flow tables) }
    ensures err { IfErr result (IsLimit (length outer.items + 1) tables) }
{
    let mut outer = outer;
    if outer.len() + 1 >= MAX_DEPTH {
        return Err(Stop::TooDeep);
    }
    if tables >= MAX_TABLES {
        return Err(Stop::TooManyTables);
    }
    let blocks = flow.end(alloc)?;
    outer.push(Outer { holder, blocks })?;
    Ok(Reading::Inside(outer, OpenTable::Start(tables as u32)))
}

/// A table ends: it is the document's, or a block of the flow around it.
fn end_table(alloc: Global, outer: Vec<Outer>, table: OpenTable) -> Result<Reading, AllocError>
    requires { IsModest table }
    ensures { IfOk result (Leaves outer.items table) }
{
    let mut outer = outer;
    let node = table.into_parts(alloc)?.end();
    match outer.pop() {
        None => Ok(Reading::After(node)),
        Some(Outer { holder, mut blocks }) => {
            blocks.push(Block::Table(Box::new(alloc, node)?))?;
            let flow = Flow::new(alloc, blocks);
            Ok(Reading::Inside(outer, OpenTable::Flow(holder, flow)))
        }
    }
}

/// A tag around the table, where no table is open.
fn pass_outer(reading: Reading, element: Element) -> Result<Reading, Stop>
    ensures ok { IfOk result (λ new. (new ≡ reading) × (element ≡ OuterElement)) }
    ensures err { IfErr result (λ stop. (stop ≡ Misfit) × (element ≢ OuterElement)) }
{
    if element == Element::Outer {
        Ok(reading)
    } else {
        Err(Stop::Misfit)
    }
}
