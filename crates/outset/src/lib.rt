//! The initial state of an end of a full-duplex link, by its plan: its setup and its node, whose data files hold the
//! first values of their words.
#![tactic(auto)]

mod node;
mod setup;

pub use node::node_of;
pub use setup::setup_of;
