//! Takes requests from an exchange: a line that asks for something in the words of a command, and the bytes of its
//! files. It answers none. Its one contract: what is taken is the next request, and where none is, no request begins
//! the bytes that came.
#![tactic(auto)]

mod heading;
mod names;
mod request;
#[cfg(test)]
mod tests;

pub use request::{Arrival, receive_request};
