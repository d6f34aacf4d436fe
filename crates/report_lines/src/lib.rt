//! The lines of a report about an end: what it and its host made of a byte, of a fate and of a tick, and the final
//! words of its data tables that aren't 0.
#![tactic(auto)]

mod told;
mod words;

pub use told::{tell_act, tell_gone, tell_news, tell_routed, tell_turn};
pub use words::push_all;
