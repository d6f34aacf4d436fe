//! The contents of replies: their status, with its text, and the values in their data (manual topics: message packets,
//! status codes, commands).
//!
//! | Reply to | Data |
//! |---|---|
//! | word range read, logical read | words, each low byte first |
//! | typed read | the parameter of an array and of its element, and the words of the elements |
//! | a write | none |
//!
//! A float is two words, the low one first: its four bytes are those of an IEEE single, low byte first.
#![tactic(auto)]

mod floats;
pub mod laws;
mod reply;
mod status;
mod typed;
mod words;

pub use floats::{float_words, floats_in};
pub use reply::{Reply, read_reply};
pub use status::status_text;
pub use typed::{Typed, read_typed};
pub use words::words_in;
