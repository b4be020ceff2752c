//! An exchange of bytes: those that come, those that go, and how either may fail; lines and files are taken from it. It
//! knows nothing of what is asked and answered. Its one contract: what is taken is just what came next, and
//! an error is returned only where the exchange failed, or its bytes ended too early.
#![tactic(auto)]

mod blocks;
mod exchange;
#[cfg(test)]
mod fakes;
mod line;
mod streams;
mod taking;
#[cfg(test)]
mod tests;

pub use blocks::receive_file;
pub use exchange::{Exchange, ExchangeFault};
pub use line::{MAX_LINE_BYTES, receive_line};
pub use streams::Streams;
pub use taking::TakeError;
