//! The desk over the files and the standard streams of the system, and which names are those of one
//! file. It knows no table and no command. Its contracts: a fault is returned only where its count of
//! faults rose, and two names as those of one file only if they are two. What files hold, and where
//! they are, is shown to no contract.
#![tactic(auto)]

mod desk;
mod places;
mod replacing;
mod telling;

pub use desk::{RealDesk, STANDARD_OUTPUT};
pub use places::shared_file;
pub use telling::tell;
