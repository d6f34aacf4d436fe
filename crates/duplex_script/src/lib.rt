//! What the lines of a full-duplex script say, one after another: how the ends a and b are set up, and the events
//! between them; and what may be wrong with a further line.
#![tactic(auto)]

mod apply;
mod first_flaw;
mod reader;

pub use apply::times_event;
pub use reader::DuplexReader;
