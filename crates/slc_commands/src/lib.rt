//! The logical commands of an SLC: reads and writes of the words of a data file, by file, type, element and sub-element
//! (manual topics: commands, status codes).
//!
//! | FNC | Command | What follows |
//! |---|---|---|
//! | A1 | read with two fields | size, address |
//! | A2 | read with three fields | size, address |
//! | A9 | write with two fields | size, address, data |
//! | AA | write with three fields | size, address, data |
//! | AB | masked write with three fields | size, address, mask of 2 bytes low first, data |
//!
//! If a field is cut off, bytes are left after a read, or a write's data isn't as long as its size says, the command is
//! refused with STS 10. Next, a size of 0 or an odd one is refused with F0/01, and a size over 244 with F0/09; then
//! come the refusals of the place of the words.
#![tactic(auto)]

mod execute;
pub mod laws;
mod order;
mod words;

pub use execute::do_slc;
pub use order::{SlcFnc, SlcOrder, read_slc};
