//! What the grid of a tree's table depends on.

ghost use Rattle.std.specs.Prelude.{◌≡◌, map, IfOk};
ghost use Rattle.tl_tree.specs.declared.node.TableNode.{out-TableNode};
ghost use Rattle.tl_table.specs.Formed.{span_of, is_foot, group_shape, shape_of};

use std::alloc::{AllocError, Global};
use tl_base::List;
use tl_grid::{Shape, ShapeGroup, SpanOf};
use tl_tree::{CellNode, GroupNode, Part, TableNode};

/// The spans of a row's cells.
fn row_spans(alloc: Global, row: &[CellNode]) -> Result<List<SpanOf>, AllocError>
    ensures { IfOk result (λ spans. spans ≡ map span_of row.now) }
{
    let mut spans = List::new(alloc);
    for cell in row {
        spans.push(SpanOf {
            colspan: cell.colspan,
            rowspan: cell.rowspan,
        })?;
    }
    Ok(spans)
}

/// The spans of each row's cells.
fn rows_spans(alloc: Global, rows: &[List<CellNode>]) -> Result<List<List<SpanOf>>, AllocError>
    ensures { IfOk result (λ spans. spans ≡ map (map span_of) rows.now) }
{
    let mut spans = List::new(alloc);
    for row in rows {
        spans.push(row_spans(alloc, row.as_slice())?)?;
    }
    Ok(spans)
}

/// Whether a group's rows are formed last.
fn is_foot(part: Part) -> bool
    ensures { result ≡ is_foot part }
{
    match part {
        Part::Foot => true,
        Part::Loose | Part::Head | Part::Body => false,
    }
}

/// A row group as the grid sees it.
fn group_shape(alloc: Global, group: &GroupNode) -> Result<ShapeGroup, AllocError>
    ensures { IfOk result (λ shape. shape ≡ group_shape group.now) }
{
    let foot = is_foot(group.part);
    let rows = rows_spans(alloc, group.rows.as_slice())?;
    Ok(ShapeGroup { foot, rows })
}

/// What the grid of the table depends on.
pub fn shape_of(alloc: Global, node: &TableNode) -> Result<Shape, AllocError>
    ensures { IfOk result (λ shape. shape ≡ shape_of (out-TableNode node.now)) }
{
    let mut groups = List::new(alloc);
    for group in node.groups.as_slice() {
        groups.push(group_shape(alloc, group)?)?;
    }
    Ok(Shape {
        columns: node.columns,
        groups,
    })
}
