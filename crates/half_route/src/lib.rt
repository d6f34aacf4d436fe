//! Messages between stations: the script of a half-duplex line whose master routes them, its run, and its report.
//!
//! A station issues a command to another or to the master. The master fetches it by a poll, and a router in front of
//! the master's node routes it to the station of its DST; the reply comes back the same way. The master executes
//! commands for its own address (manual topic: half-duplex protocol, slave-to-slave messages).
#![tactic(auto)]

pub mod laws;
mod reading;
mod running;

pub use reading::{RouteScript, read_route};
pub use running::{RouteRecord, print_route, route};
pub use station_router::Router;
