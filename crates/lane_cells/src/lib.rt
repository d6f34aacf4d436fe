//! The cells of a queue of bytes on their way from one end of a line to another: each byte with what is known of its
//! origin; and when an end that receives a whole message there is deceived (manual topics: full-duplex protocol,
//! half-duplex protocol).
#![tactic(auto)]

mod cell;
mod deceit;

pub use cell::{Cell, Spare};
pub use deceit::{is_deceived, is_station_deceived};
