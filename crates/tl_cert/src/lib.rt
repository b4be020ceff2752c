//! Certificates of a layout: what proves that no lower page exists, or that no page is wide enough. Each
//! is a text that a second program can read and check, line by line. This crate knows the certificate's
//! parts, its text and when a line of it is good; it knows no table and searches nothing. Its one
//! contract: `write` and `read` are the certificate's text, both ways, each fault at its place.
#![tactic(auto)]

mod areas;
mod certificate;
mod certificate_text;
mod chain_text;
mod error;
mod follow;
mod laws;
mod limits;
mod log;
mod log_text;
mod reader;
mod section;
mod section_text;
mod text_laws;
mod trace;
mod writing;

pub use certificate::{Certificate, Claim};
pub use certificate_text::read;
pub use error::CertError;
pub use laws::{
    enough_budget_closes, good_logs_are_sound, nogoods_are_true, pieces_can_be_appended,
    traces_part_vectors, zones_meet_their_bounds,
};
pub use limits::{
    MAX_BOUNDS, MAX_CLASS, MAX_FIRES, MAX_LINE, MAX_SECTIONS, MAX_SPAN, MAX_TABLE, MAX_ZONE,
};
pub use log::{Bound, End, Log, LogLine, Nogood, Side};
pub use section::Section;
pub use text_laws::texts_are_apart;
pub use trace::{CutAt, Trace};
pub use writing::write;
