//! Judges a whole certificate against its table. Whoever reads a certificate trusts no search: none
//! stands below this crate. Its one contract: unless memory runs out, `verify` accepts exactly the valid
//! certificates, and otherwise names the first step that fails.
#![tactic(auto)]

mod chains;
mod claim;
mod reject;
mod sections;
mod verdict;

pub use reject::Reject;
pub use verdict::{Verdict, verify};
