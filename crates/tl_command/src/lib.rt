//! Reads the arguments of the command line: which command is asked for, on a page of which width, of
//! which files, with which options. It opens no file and lays nothing out. Its one contract: the
//! arguments are exactly those that ask for what is returned, and where nothing is returned they ask
//! for nothing.
#![tactic(auto)]

mod ask;
mod command;
mod lists;
mod names;
mod numbers;
mod options;
mod values;

pub use ask::Ask;
pub use command::Command;
pub use numbers::number_within;
pub use options::{BreakRule, Choice, MAX_WORKERS, Options};
