//! The world of a script of either mode, and playing a script on it: its run, as a record.
#![tactic(auto)]

mod playing;
mod world;

pub use playing::{play, replay};
pub use world::World;
