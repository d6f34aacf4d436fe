//! Dissection of a captured line, byte by byte: each item that is decoded, with the offsets of its first and last byte,
//! and its text (manual topics: full-duplex protocol, half-duplex protocol, message packets).
//!
//! A capture is of one side: all bytes of one direction of a full-duplex line, or of a half-duplex line the master's
//! bytes or the slaves'. Every list of bytes splits in exactly one way into items and an unfinished prefix of one. Each
//! item has a line, and so has each response inside a full-duplex frame; the beginning of a half-duplex message has no
//! line of its own.
//!
//! A frame that is cut off by the start of the next one ends at the second byte of the pair that starts the next.
#![tactic(auto)]

mod command;
mod dissector;
mod ear;
mod fields;
mod kind;
mod laws;
mod line;
mod reader;

pub use dissector::{CollectedLines, Dissector, LINE, LINES};
pub use kind::Kind;
pub use laws::{one_dissection, worked_captures};
pub use reader::{Reader, Thing};
