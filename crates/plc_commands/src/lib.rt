//! The commands of a PLC, and those that every station has (manual topics: commands, status codes).
//!
//! | CMD | FNC | Command | What follows |
//! |---|---|---|---|
//! | 06 | 00 | echo | any bytes |
//! | 06 | 03 | status | nothing |
//! | 01 | none | unprotected read | address of 2 bytes, size of 1 byte |
//! | 08 | none | unprotected write | address of 2 bytes, data |
//! | 0F | 00 | word range write | offset and total of 2 bytes each, level address, data |
//! | 0F | 01 | word range read | offset, total, level address, size of 1 byte |
//! | 0F | 26 | read-modify-write | sets of a level address, an AND mask and an OR mask of 2 bytes each |
//! | 0F | 67 | typed write | offset, total, level address, parameter, data |
//! | 0F | 68 | typed read | offset, total, level address, size of 2 bytes in elements |
//!
//! Numbers of 2 bytes are sent low byte first. Offset and total count words in the word range commands, and elements in
//! the typed ones.
#![tactic(auto)]

mod change;
mod codes;
mod execute;
mod fields;
pub mod laws;
mod order;
mod range;
mod read;
mod sets;
mod span;
mod typed;
mod unprotected;

pub use execute::do_plc;
pub use order::{PlcOrder, Set};
pub use read::read_plc;
pub use sets::Sets;
