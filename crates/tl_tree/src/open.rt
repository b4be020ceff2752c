//! A table as it is read: what of it is whole, and what is open in it. Each value owns what stands
//! around it: a row its group, a group the groups before it.

ghost use Rattle.std.specs.Prelude.{◌≡◌, ◌+◌, ◌<◌, ◌≤◌, ◌^◌, ◌++◌, ◌∷◌, [], None, IfOk, IfErr, is_some};
ghost use Rattle.tl_tree.specs.inner.Machine.{row_tags_at, group_of, column_tags_at, due};
ghost use Rattle.tl_tree.specs.inner.Stops.{IsMisfitOr};

use crate::flow::Flow;
use crate::node::{Block, CellNode, GroupNode, Part, TableNode};
use crate::stop::Stop;
use std::alloc::{AllocError, Global};
use tl_base::{List, MAX_FILE_BYTES};
use tl_token::Spans;

/// What a table has before its groups.
#[derive(Drop)]
pub(crate) struct Head {
    pub(crate) number: u32,
    pub(crate) caption: Option<List<Block>>,
    pub(crate) columns: u32,
}

/// A table of which more groups may come, and no column.
pub(crate) struct Parts {
    pub(crate) head: Head,
    pub(crate) groups: List<GroupNode>,
}

/// A group of which more rows may come.
pub(crate) struct OpenGroup {
    pub(crate) table: Parts,
    pub(crate) part: Part,
    pub(crate) rows: List<List<CellNode>>,
}

/// A row of which more cells may come.
pub(crate) struct OpenRow {
    pub(crate) group: OpenGroup,
    pub(crate) cells: List<CellNode>,
}

/// A cell, but for its flow.
pub(crate) struct OpenCell {
    pub(crate) row: OpenRow,
    pub(crate) head: bool,
    pub(crate) spans: Spans,
}

/// What a flow stands in.
#[derive(Drop)]
pub(crate) enum Holder {
    /// The caption of the table of that number.
    Caption(u32),
    Cell(OpenCell),
}

/// A table of which the end tag has not come, by what the next token stands in.
#[derive(Drop)]
pub(crate) enum OpenTable {
    /// The table of that number, of which nothing has come.
    Start(u32),
    /// More columns may come.
    Columns(Head),
    /// A `colgroup`, whose end adds so many columns: its own span, until a `col` comes.
    Colgroup(Head, u32),
    Between(Parts),
    Group(OpenGroup),
    Row(OpenRow),
    Flow(Holder, Flow),
}

impl Drop for Parts {
    fn drop(self) {
        let Parts {
            head: _head,
            groups: _groups,
        } = self;
    }
}

impl Drop for OpenGroup {
    fn drop(self) {
        let OpenGroup {
            table: _table,
            part: _part,
            rows: _rows,
        } = self;
    }
}

impl Drop for OpenRow {
    fn drop(self) {
        let OpenRow {
            group: _group,
            cells: _cells,
        } = self;
    }
}

impl Drop for OpenCell {
    fn drop(self) {
        let OpenCell {
            row: _row,
            head: _head,
            spans: _spans,
        } = self;
    }
}

impl Head {
    ghost use Rattle.tl_tree.specs.inner.Reading.{head_so_far, parts_so_far, after_entries, in_flow, Adds};
    ghost use Rattle.tl_tree.specs.inner.Lines.{line_size};
    ghost use Rattle.tl_tree.specs.Outline.{table, caption, columns};
    ghost use Rattle.tl_tree.specs.Grammar.{paragraph_ends, columns as columns_mark};

    fn new(number: u32) -> Head
        ensures so_far { head_so_far result ≡ table number ∷ [] }
        ensures none { result.columns ≡ 0 }
    {
        Head {
            number,
            caption: None,
            columns: 0,
        }
    }

    fn with_caption(number: u32, alloc: Global, flow: Flow) -> Result<Head, AllocError>
        requires { line_size flow.line ≤ MAX_FILE_BYTES }
        ensures adds { IfOk result (λ head. Adds (in_flow (table number ∷ caption ∷ []) flow) (after_entries (head_so_far head)) (paragraph_ends ∷ [])) }
        ensures none { IfOk result (λ head. head.columns ≡ 0) }
    {
        Ok(Head {
            number,
            caption: Some(flow.end(alloc)?),
            columns: 0,
        })
    }

    pub(crate) fn add_columns(self, more: u32) -> Head
        requires { self.columns + more < 2 ^ 32 }
        ensures more { result.columns ≡ self.columns + more }
        ensures same { head_so_far result ≡ head_so_far self }
    {
        let Head {
            number,
            caption,
            columns,
        } = self;
        Head {
            number,
            caption,
            columns: columns + more,
        }
    }

    /// No more columns come.
    fn end(self, alloc: Global) -> Parts
        ensures { Adds (after_entries (head_so_far self)) (after_entries (parts_so_far result)) (columns_mark self.columns ∷ []) }
    {
        Parts {
            head: self,
            groups: List::new(alloc),
        }
    }
}

impl OpenCell {
    ghost use Rattle.tl_tree.specs.inner.Reading.{cell_so_far, row_so_far, after_entries, in_flow, Adds};
    ghost use Rattle.tl_tree.specs.inner.Lines.{line_size};
    ghost use Rattle.tl_tree.specs.Grammar.{paragraph_ends};

    /// The row with the cell of that flow as its last.
    pub(crate) fn end(self, alloc: Global, flow: Flow) -> Result<OpenRow, AllocError>
        requires { line_size flow.line ≤ MAX_FILE_BYTES }
        ensures adds { IfOk result (λ row. Adds (in_flow (cell_so_far self) flow) (after_entries (row_so_far row)) (paragraph_ends ∷ [])) }
        ensures part { IfOk result (λ row. row.group.part ≡ self.row.group.part) }
    {
        let OpenCell {
            mut row,
            head,
            spans,
        } = self;
        let flow = flow.end(alloc)?;
        row.cells.push(CellNode {
            head,
            colspan: spans.colspan,
            rowspan: spans.rowspan,
            least: spans.least,
            align: spans.align,
            flow,
        })?;
        Ok(row)
    }
}

impl OpenRow {
    ghost use Rattle.tl_tree.specs.inner.Reading.{row_so_far, group_so_far};

    /// The group with the row as its last.
    pub(crate) fn end(self) -> Result<OpenGroup, AllocError>
        ensures so_far { IfOk result (λ group. group_so_far group ≡ row_so_far self) }
        ensures part { IfOk result (λ group. group.part ≡ self.group.part) }
    {
        let OpenRow { mut group, cells } = self;
        group.rows.push(cells)?;
        Ok(group)
    }
}

impl OpenGroup {
    ghost use Rattle.tl_tree.specs.inner.Reading.{group_so_far, parts_so_far};
    ghost use Rattle.tl_tree.specs.Outline.{group};

    pub(crate) fn new(alloc: Global, table: Parts, part: Part) -> OpenGroup
        ensures so_far { group_so_far result ≡ parts_so_far table ++ group part ∷ [] }
        ensures part { result.part ≡ part }
    {
        OpenGroup {
            table,
            part,
            rows: List::new(alloc),
        }
    }

    /// The table with the group as its last.
    pub(crate) fn end(self) -> Result<Parts, AllocError>
        ensures { IfOk result (λ parts. parts_so_far parts ≡ group_so_far self) }
    {
        let OpenGroup {
            mut table,
            part,
            rows,
        } = self;
        table.groups.push(GroupNode { part, rows })?;
        Ok(table)
    }
}

impl Parts {
    ghost use Rattle.tl_tree.specs.inner.Reading.{parts_so_far};
    ghost use Rattle.tl_tree.specs.Outline.{outline, table_end};

    /// The whole table.
    pub(crate) fn end(self) -> TableNode
        ensures { outline result ≡ parts_so_far self ++ table_end ∷ [] }
    {
        let Parts { head, groups } = self;
        let Head {
            number,
            caption,
            columns,
        } = head;
        TableNode {
            number,
            caption,
            columns,
            groups,
        }
    }
}

impl OpenTable {
    ghost use Rattle.tl_tree.specs.inner.Reading.{outcome, after_entries, parts_so_far, machine_place, place_columns, open_size, Adds, IsModest, RowGoesOn};
    ghost use Rattle.tl_tree.specs.inner.Reading.{GroupGoesOn, ColumnsGoOn};

    /// The row that goes on, once the cell in it has ended.
    pub(crate) fn into_row(self, alloc: Global) -> Result<OpenRow, Stop>
        requires { open_size self ≤ MAX_FILE_BYTES }
        ensures ok { IfOk result (λ row. RowGoesOn (outcome self) (machine_place self) row) }
        ensures err { IfErr result (λ stop. IsMisfitOr (row_tags_at (machine_place self) ≡ None) stop) }
    {
        match self {
            OpenTable::Row(row) => Ok(row),
            OpenTable::Flow(holder, flow) => match holder {
                Holder::Cell(cell) => Ok(cell.end(alloc, flow)?),
                Holder::Caption(_) => Err(Stop::Misfit),
            },
            _ => Err(Stop::Misfit),
        }
    }

    /// The group that goes on, once what is open in it has ended.
    pub(crate) fn into_group(self, alloc: Global) -> Result<OpenGroup, Stop>
        requires { open_size self ≤ MAX_FILE_BYTES }
        ensures ok { IfOk result (λ group. GroupGoesOn (outcome self) (machine_place self) group) }
        ensures err { IfErr result (λ stop. IsMisfitOr (group_of (machine_place self) ≡ None) stop) }
    {
        match self {
            OpenTable::Group(group) => Ok(group),
            OpenTable::Row(row) => Ok(row.end()?),
            OpenTable::Flow(holder, flow) => match holder {
                Holder::Cell(cell) => Ok(cell.end(alloc, flow)?.end()?),
                Holder::Caption(_) => Err(Stop::Misfit),
            },
            _ => Err(Stop::Misfit),
        }
    }

    /// The columns that go on, once what is open before them has ended.
    pub(crate) fn into_head(self, alloc: Global) -> Result<Head, Stop>
        requires { IsModest self }
        ensures ok { IfOk result (λ head. ColumnsGoOn (outcome self) (machine_place self) head) }
        ensures few { IfOk result (λ head. head.columns ≡ place_columns (machine_place self)) }
        ensures err { IfErr result (λ stop. IsMisfitOr (column_tags_at (machine_place self) ≡ None) stop) }
    {
        match self {
            OpenTable::Start(number) => Ok(Head::new(number)),
            OpenTable::Columns(head) => Ok(head),
            OpenTable::Colgroup(head, pending) => Ok(head.add_columns(pending)),
            OpenTable::Flow(holder, flow) => match holder {
                Holder::Caption(number) => Ok(Head::with_caption(number, alloc, flow)?),
                Holder::Cell(_) => Err(Stop::Misfit),
            },
            _ => Err(Stop::Misfit),
        }
    }

    /// The table, once all that is open in it has ended.
    pub(crate) fn into_parts(self, alloc: Global) -> Result<Parts, AllocError>
        requires { IsModest self }
        ensures { IfOk result (λ parts. Adds (outcome self) (after_entries (parts_so_far parts)) (due (machine_place self))) }
    {
        match self {
            OpenTable::Start(number) => Ok(Head::new(number).end(alloc)),
            OpenTable::Columns(head) => Ok(head.end(alloc)),
            OpenTable::Colgroup(head, pending) => Ok(head.add_columns(pending).end(alloc)),
            OpenTable::Between(parts) => Ok(parts),
            OpenTable::Group(group) => group.end(),
            OpenTable::Row(row) => row.end()?.end(),
            OpenTable::Flow(holder, flow) => match holder {
                Holder::Caption(number) => {
                    Ok(Head::with_caption(number, alloc, flow)?.end(alloc))
                }
                Holder::Cell(cell) => cell.end(alloc, flow)?.end()?.end(),
            },
        }
    }

    /// Whether a group is open, for a row to go on with.
    pub(crate) fn has_group(&self) -> bool
        ensures { result ≡ is_some (group_of (machine_place self.now)) }
    {
        match self {
            OpenTable::Group(_) | OpenTable::Row(_) => true,
            OpenTable::Flow(holder, _) => matches!(holder, Holder::Cell(_)),
            _ => false,
        }
    }
}
