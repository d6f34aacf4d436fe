//! Replays a script from an input: what each piece of it reports is written to an output before the next piece is read.
#![tactic(auto)]

mod fault;
mod replaying;

pub use fault::ReplayFault;
pub use replaying::replay_input;
