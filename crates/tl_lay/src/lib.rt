//! Lays out a table of bytes in memory, and answers with a page of fixed-width text that is as low as any layout
//! can be, and the text of a certificate that no page is lower; or judges such a text. It depends on the crates
//! that read, search, judge and draw. It knows no command line, no file, no message and no status. Its one
//! contract: what each answer of `lay`, `narrow` and `tidy` says of the table, and each verdict of `check`.
#![tactic(auto)]

mod answer;
mod budget;
mod format;
mod input;
mod judge;
mod laws;
mod limits;
mod lowest;
mod makers;
mod narrowest;
mod rejection;
mod summary;
mod task;
mod tidiest;
mod verdict;

pub use answer::{Answer, Evidence};
pub use format::Format;
pub use input::{Given, Input, read_input};
pub use judge::{check, judge_text};
pub use laws::{laid_is_lowest, narrowed_is_narrowest, tidied_is_tidiest};
pub use limits::{DEFAULT_BUDGET, DEMO_BUDGET};
pub use lowest::lay;
pub use narrowest::narrow;
pub use rejection::Rejection;
pub use summary::{Summary, demonstrate};
pub use task::Task;
pub use tidiest::tidy;
pub use verdict::Verdict;
