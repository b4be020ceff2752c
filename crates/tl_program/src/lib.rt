//! Carries out a command line over a desk: it loads files, lays out their table or judges a certificate of it,
//! stores what that gives, and prints a message. It depends on the crate that lays out bytes in memory; here are
//! the desk, the order of the steps, the messages and the statuses. Its one contract: `run` stores and prints the
//! answer of the call for the bytes that were loaded.
#![tactic(auto)]

mod answers;
mod check;
mod input;
mod messages;
mod names;
mod output;
mod report;
mod running;
mod settling;
mod status;
mod task;

pub use answers::texts_of;
pub use messages::message_text;
pub use report::Report;
pub use running::run;
pub use settling::{fitted_in, settled};
pub use status::Status;
pub use task::{task_of, task_on};
