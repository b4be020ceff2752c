//! What the tags and texts of a table do to it, one by one.

ghost use Rattle.std.specs.Prelude.{◌≡◌, ◌≢◌, ◌≤◌, false, true, IfOk, IfErr, chars};
ghost use Rattle.tl_token.specs.declared.token.Element.TheVariants.{Table};
ghost use Rattle.tl_tree.specs.Tags as tags;
ghost use Rattle.tl_tree.specs.Tags.{Section, part_of, kind_of_start, kind_of_end, is_white, is_table_start};
ghost use Rattle.tl_tree.specs.inner.Machine.{move, never};
ghost use Rattle.tl_tree.specs.Readable.{IsReadable};
ghost use Rattle.tl_tree.specs.inner.Stops.{IsMisfitOr};

use crate::flow::Flow;
use crate::node::Part;
use crate::open::{Holder, OpenCell, OpenGroup, OpenRow, OpenTable};
use crate::stop::Stop;
use std::alloc::{AllocError, Global};
use tl_base::{List, MAX_COLSPAN};
use tl_token::{Element, Spans};

impl OpenTable {
    ghost use Rattle.tl_tree.specs.inner.Reading.{machine_place, IsModest, Moves, is_caption_flow, is_cell_flow};

    fn is_in_caption(&self) -> bool
        ensures { result ≡ is_caption_flow (machine_place self.now) }
    {
        match self {
            OpenTable::Flow(holder, _) => matches!(holder, Holder::Caption(_)),
            _ => false,
        }
    }

    /// Whether a header cell is open, if `head`, or one that is none.
    fn is_in_cell(&self, head: bool) -> bool
        ensures { result ≡ is_cell_flow head (machine_place self.now) }
    {
        match self {
            OpenTable::Flow(holder, _) => match holder {
                Holder::Cell(cell) => cell.head == head,
                Holder::Caption(_) => false,
            },
            _ => false,
        }
    }

    fn start_caption(self, alloc: Global) -> Result<OpenTable, Stop>
        requires modest { IsModest self }
        ensures ok { IfOk result (Moves self tags.caption_start) }
        ensures err { IfErr result (IsMisfitOr (move (machine_place self) tags.caption_start ≡ never)) }
    {
        match self {
            OpenTable::Start(number) => Ok(OpenTable::Flow(
                Holder::Caption(number),
                Flow::new(alloc, List::new(alloc)),
            )),
            _ => Err(Stop::Misfit),
        }
    }

    fn end_caption(self, alloc: Global) -> Result<OpenTable, Stop>
        requires modest { IsModest self }
        ensures ok { IfOk result (Moves self tags.caption_end) }
        ensures err { IfErr result (IsMisfitOr (move (machine_place self) tags.caption_end ≡ never)) }
    {
        match self {
            OpenTable::Flow(Holder::Caption(_), _) => Ok(OpenTable::Columns(self.into_head(
                alloc,
            )?)),
            _ => Err(Stop::Misfit),
        }
    }

    fn start_colgroup(self, alloc: Global, span: u32) -> Result<OpenTable, Stop>
        requires modest { IsModest self }
        ensures ok { IfOk result (Moves self (tags.colgroup_start span)) }
        ensures err { IfErr result (IsMisfitOr (move (machine_place self) (tags.colgroup_start span) ≡ never)) }
    {
        Ok(OpenTable::Colgroup(self.into_head(alloc)?, span))
    }

    fn end_colgroup(self) -> Result<OpenTable, Stop>
        requires modest { IsModest self }
        ensures ok { IfOk result (Moves self tags.colgroup_end) }
        ensures err { IfErr result (IsMisfitOr (move (machine_place self) tags.colgroup_end ≡ never)) }
    {
        match self {
            OpenTable::Colgroup(head, pending) => Ok(OpenTable::Columns(head.add_columns(pending))),
            _ => Err(Stop::Misfit),
        }
    }

    fn read_col(self, alloc: Global, span: u32) -> Result<OpenTable, Stop>
        requires modest { IsModest self }
        requires few { span ≤ MAX_COLSPAN }
        ensures ok { IfOk result (Moves self (tags.col span)) }
        ensures err { IfErr result (IsMisfitOr (move (machine_place self) (tags.col span) ≡ never)) }
    {
        match self {
            OpenTable::Colgroup(head, _) => Ok(OpenTable::Colgroup(head.add_columns(span), 0)),
            other => Ok(OpenTable::Columns(other.into_head(alloc)?.add_columns(span))),
        }
    }

    fn start_group(self, alloc: Global, part: Part) -> Result<OpenTable, AllocError>
        requires { IsModest self }
        ensures { IfOk result (λ new. (section : Section) → part_of section ≡ part → Moves self (tags.group_start section) new) }
    {
        let table = self.into_parts(alloc)?;
        Ok(OpenTable::Group(OpenGroup::new(alloc, table, part)))
    }

    fn end_group(self, alloc: Global, part: Part) -> Result<OpenTable, Stop>
        requires { IsModest self }
        ensures ok { IfOk result (λ new. (section : Section) → part_of section ≡ part → Moves self (tags.group_end section) new) }
        ensures err { IfErr result (λ stop. (section : Section) → part_of section ≡ part
            → IsMisfitOr (move (machine_place self) (tags.group_end section) ≡ never) stop) }
    {
        let group = self.into_group(alloc)?;
        if group.part == part {
            Ok(OpenTable::Between(group.end()?))
        } else {
            Err(Stop::Misfit)
        }
    }

    /// A row goes on with the group that is open, or with loose rows of its own.
    fn start_row(self, alloc: Global) -> Result<OpenTable, Stop>
        requires modest { IsModest self }
        ensures ok { IfOk result (Moves self tags.row_start) }
        ensures err { IfErr result (IsMisfitOr (move (machine_place self) tags.row_start ≡ never)) }
    {
        if self.has_group() {
            let group = self.into_group(alloc)?;
            let cells = List::new(alloc);
            return Ok(OpenTable::Row(OpenRow { group, cells }));
        }
        let table = self.into_parts(alloc)?;
        let group = OpenGroup::new(alloc, table, Part::Loose);
        let cells = List::new(alloc);
        Ok(OpenTable::Row(OpenRow { group, cells }))
    }

    fn end_row(self, alloc: Global) -> Result<OpenTable, Stop>
        requires modest { IsModest self }
        ensures ok { IfOk result (Moves self tags.row_end) }
        ensures err { IfErr result (IsMisfitOr (move (machine_place self) tags.row_end ≡ never)) }
    {
        Ok(OpenTable::Group(self.into_row(alloc)?.end()?))
    }

    fn start_cell(self, alloc: Global, head: bool, spans: Spans) -> Result<OpenTable, Stop>
        requires modest { IsModest self }
        ensures ok { IfOk result (Moves self (tags.cell_start head spans)) }
        ensures err { IfErr result (IsMisfitOr (move (machine_place self) (tags.cell_start head spans) ≡ never)) }
    {
        let row = self.into_row(alloc)?;
        let cell = OpenCell { row, head, spans };
        let flow = Flow::new(alloc, List::new(alloc));
        Ok(OpenTable::Flow(Holder::Cell(cell), flow))
    }

    fn end_cell(self, alloc: Global, head: bool) -> Result<OpenTable, Stop>
        requires modest { IsModest self }
        ensures ok { IfOk result (Moves self (tags.cell_end head)) }
        ensures err { IfErr result (IsMisfitOr (move (machine_place self) (tags.cell_end head) ≡ never)) }
    {
        if self.is_in_cell(head) {
            Ok(OpenTable::Row(self.into_row(alloc)?))
        } else {
            Err(Stop::Misfit)
        }
    }

    fn read_break(self, alloc: Global) -> Result<OpenTable, Stop>
        requires modest { IsModest self }
        ensures ok { IfOk result (Moves self tags.br) }
        ensures err { IfErr result (IsMisfitOr (move (machine_place self) tags.br ≡ never)) }
    {
        match self {
            OpenTable::Flow(holder, mut flow) => {
                flow.read_break(alloc)?;
                Ok(OpenTable::Flow(holder, flow))
            }
            _ => Err(Stop::Misfit),
        }
    }

    fn end_paragraph(self, alloc: Global) -> Result<OpenTable, Stop>
        requires modest { IsModest self }
        ensures ok { IfOk result (Moves self tags.p_or_div) }
        ensures err { IfErr result (IsMisfitOr (move (machine_place self) tags.p_or_div ≡ never)) }
    {
        match self {
            OpenTable::Flow(holder, flow) => {
                Ok(OpenTable::Flow(holder, Flow::new(alloc, flow.end(alloc)?)))
            }
            _ => Err(Stop::Misfit),
        }
    }

    fn pass_inline(self) -> Result<OpenTable, Stop>
        requires modest { IsModest self }
        ensures ok { IfOk result (Moves self tags.inline_tag) }
        ensures err { IfErr result (IsMisfitOr (move (machine_place self) tags.inline_tag ≡ never)) }
    {
        match self {
            OpenTable::Flow(holder, flow) => Ok(OpenTable::Flow(holder, flow)),
            _ => Err(Stop::Misfit),
        }
    }

    /// A text: a part of the flow that is open, or white space between tags.
    pub(crate) fn text(self, alloc: Global, text: &str) -> Result<OpenTable, Stop>
        requires modest { IsModest self }
        ensures ok { IfOk result (Moves self (tags.text (chars text.now))) }
        ensures err { IfErr result (IsMisfitOr (move (machine_place self) (tags.text (chars text.now)) ≡ never)) }
    {
        match self {
            OpenTable::Flow(holder, mut flow) => {
                flow.read_text(alloc, text)?;
                Ok(OpenTable::Flow(holder, flow))
            }
            other => {
                if is_white(text) {
                    Ok(other)
                } else {
                    Err(Stop::Misfit)
                }
            }
        }
    }

    /// A start tag that begins no table.
    pub(crate) fn start(
        self,
        alloc: Global,
        element: Element,
        spans: Spans,
    ) -> Result<OpenTable, Stop>
        requires modest { IsModest self }
        requires few { IsReadable (kind_of_start element spans) }
        requires no_table { is_table_start (kind_of_start element spans) ≡ false }
        ensures ok { IfOk result (Moves self (kind_of_start element spans)) }
        ensures err { IfErr result (IsMisfitOr (move (machine_place self) (kind_of_start element spans) ≡ never)) }
    {
        match element {
            Element::Caption => self.start_caption(alloc),
            Element::Colgroup => self.start_colgroup(alloc, spans.span),
            Element::Col => self.read_col(alloc, spans.span),
            Element::Thead => Ok(self.start_group(alloc, Part::Head)?),
            Element::Tbody => Ok(self.start_group(alloc, Part::Body)?),
            Element::Tfoot => Ok(self.start_group(alloc, Part::Foot)?),
            Element::Tr => self.start_row(alloc),
            Element::Td => self.start_cell(alloc, false, spans),
            Element::Th => self.start_cell(alloc, true, spans),
            Element::Br => self.read_break(alloc),
            Element::P | Element::Div => self.end_paragraph(alloc),
            Element::Inline => self.pass_inline(),
            Element::Table | Element::Outer => Err(Stop::Misfit),
        }
    }

    /// An end tag that ends no table.
    pub(crate) fn end(self, alloc: Global, element: Element) -> Result<OpenTable, Stop>
        requires modest { IsModest self }
        requires no_table { element ≢ Table }
        ensures ok { IfOk result (Moves self (kind_of_end element)) }
        ensures err { IfErr result (IsMisfitOr (move (machine_place self) (kind_of_end element) ≡ never)) }
    {
        match element {
            Element::Caption => self.end_caption(alloc),
            Element::Colgroup => self.end_colgroup(),
            Element::Thead => self.end_group(alloc, Part::Head),
            Element::Tbody => self.end_group(alloc, Part::Body),
            Element::Tfoot => self.end_group(alloc, Part::Foot),
            Element::Tr => self.end_row(alloc),
            Element::Td => self.end_cell(alloc, false),
            Element::Th => self.end_cell(alloc, true),
            Element::P | Element::Div => self.end_paragraph(alloc),
            Element::Inline => self.pass_inline(),
            Element::Table | Element::Col | Element::Br | Element::Outer => Err(Stop::Misfit),
        }
    }
}

/// Whether the text is white space alone.
pub(crate) fn is_white(text: &str) -> bool
    ensures { result ≡ is_white (tags.text (chars text.now)) }
{
    text.chars().all(|c| c.is_ascii_whitespace())
}
