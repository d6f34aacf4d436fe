//! The world of a half-duplex script: a master and its stations with their nodes, the bytes on their way between them,
//! and what each event of the script does to them. The host of the master is a node, or a router in front of one that
//! carries messages from station to station; in a replay it is a node.
//!
//! Each direction between the master and a station is a queue of cells. An event happens at the master, at a station,
//! or to the bytes between the two:
//!
//! - issue: the master's node issues a command;
//! - take: an end sends a byte, which joins the back of its queue; a byte of the master joins the queue to every
//!   station;
//! - deliver: the head of a queue arrives;
//! - lose: the head of a queue is lost;
//! - alter: the head of a queue is changed, and no longer ends a transmission;
//! - foreign: a byte arrives that the end did not send;
//! - tick: a tick passes at the master.
//!
//! A station's node issues a command by a call of its own, which no event makes.
//!
//! An end is deceived if it receives a whole message at a byte that ends no transmission of the other end, or one of
//! another body. A station is also deceived if the transmission was for another station than the message names, whether
//! the message names this station or not (manual topic: half-duplex protocol).
#![tactic(auto)]

pub mod complete_law;
mod deal;
pub mod laws;
mod line_station;
mod link;
mod master;
pub mod once_law;
mod reported;
mod setup;
pub mod transmission_law;
mod way;
pub mod wire_law;
mod world;

pub use way::Way;
pub use world::HalfWorld;
