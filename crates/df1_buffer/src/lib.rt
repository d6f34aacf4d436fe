//! A buffering sink, which passes on what is written in small parts to another sink in large ones.
#![tactic(auto)]

mod buffered;

pub use buffered::{Buffered, PIECE};
