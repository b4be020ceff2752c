//! Puts the arguments of the command line into the order in which a command takes them: names, then
//! options. `--progress`, which the program itself takes, is left out, and `asks_for_progress` says
//! whether it is there. The crate opens no file and prints nothing. Its contracts: what `arrange`
//! and `asks_for_progress` return is what the definitions `arranged` and `asks_for_progress` make
//! of what they are given.
#![tactic(auto)]

mod names;
mod order;
mod progress;
mod question;
mod role;
#[cfg(test)]
mod tests;
mod wrong;

pub use order::{Side, arrange};
pub use progress::asks_for_progress;
pub use question::{Question, VERSION};
pub use role::Role;
pub use wrong::complaint;
