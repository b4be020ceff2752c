//! What may be sent to other threads and shared between them: all data of the crates up to tl_form.

use tl_base::{
    Breaking, Chain, Config, DeskFault, Entry, List, MemoryDesk, NoGate, Steps, Style, Text,
};
use tl_form::{Due, InnerSteps, Laid, Subject};
use tl_grid::{Grid, GridError, Place, Shape, ShapeGroup, SpanOf};
use tl_table::{Content, FormError, Kind, Layout, Table, TableCell};
use tl_text::{Atom, Line, Para, TextError};
use tl_token::{Element, Spans, Token, TokenError, TokenKind};

/// Takes what may be sent to other threads and shared between them.
fn share<T: Send + Sync + Drop>(_value: Option<T>) {}

#[test]
fn what_all_crates_share_may_go_to_other_threads() {
    share::<List<u32>>(None);
    share::<Text>(None);
    share::<Config>(None);
    share::<Steps>(None);
    share::<Entry>(None);
    share::<Chain>(None);
    share::<Style>(None);
    share::<Breaking>(None);
    share::<DeskFault>(None);
    share::<MemoryDesk>(None);
    share::<NoGate>(None);
}

#[test]
fn tokens_may_go_to_other_threads() {
    share::<Element>(None);
    share::<Spans>(None);
    share::<Token>(None);
    share::<TokenKind>(None);
    share::<TokenError>(None);
}

#[test]
fn paragraphs_and_their_lines_may_go_to_other_threads() {
    share::<Atom>(None);
    share::<Para>(None);
    share::<Line>(None);
    share::<TextError>(None);
}

#[test]
fn shapes_and_grids_may_go_to_other_threads() {
    share::<SpanOf>(None);
    share::<ShapeGroup>(None);
    share::<Shape>(None);
    share::<Place>(None);
    share::<Grid>(None);
    share::<GridError>(None);
}

#[test]
fn tables_and_layouts_may_go_to_other_threads() {
    share::<Table>(None);
    share::<TableCell>(None);
    share::<Content>(None);
    share::<Kind>(None);
    share::<Layout>(None);
    share::<FormError>(None);
}

#[test]
fn what_is_due_and_its_problem_may_go_to_other_threads() {
    share::<Subject<'static>>(None);
    share::<Due>(None);
    share::<InnerSteps>(None);
    share::<Laid>(None);
}
