//! Each command once: what this means for an initiator and a station, and what it rests on, however the line between
//! them works.
//!
//! - One direction of a link: what a receiver accepts is among what was taken up to be sent, in order, each once,
//!   whatever is lost, altered or added on the way, and whatever responses come back.
//! - A node: what it hands out and receives, and that its replies are what its station answered to the commands.
//!
//! Everything here is stated in definitions and shown by lemmas; the lines of both modes build on it (manual topics:
//! full-duplex protocol, half-duplex protocol).
#![tactic(auto)]

pub mod laws;
