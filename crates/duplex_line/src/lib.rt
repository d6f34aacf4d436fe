//! The world of a full-duplex script: two ends with their nodes, the bytes on their way between them, and what each
//! event of the script does to them.
//!
//! Each direction of the line is a queue of cells. An event happens at one end, or to the bytes from it:
//!
//! - issue: the end's node issues a command;
//! - take: the end sends a byte, which joins the back of its queue;
//! - deliver: the head of its queue arrives at the other end;
//! - lose: the head of its queue is lost;
//! - alter: the head of its queue is changed, and no longer ends a transmission;
//! - foreign: a byte that the end did not send arrives at the other end;
//! - tick: a tick passes at the end.
//!
//! An end is deceived if it receives a whole frame at a byte that ends no transmission of the other end, or one of
//! another body (manual topic: full-duplex protocol).
#![tactic(auto)]

mod deal;
pub mod laws;
mod line_end;
mod reported;
mod sent;
mod world;

pub use world::DuplexWorld;
