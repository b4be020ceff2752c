//! Answers requests for tables, one after the other, as they come. An answer is the message of a command and the bytes of what
//! it stores. It depends on the calls that lay out bytes in memory, and knows no file. Its one contract: what is sent
//! are the answers to the requests that came, in their order, and each is that of the call for its own request.
#![tactic(auto)]

mod answering;
mod ending;
mod reply;
mod turns;

pub use ending::Ending;
pub use turns::{asks_for_batch, batch};
