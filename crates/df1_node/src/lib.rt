//! The host behind an end of a link: the station, which executes commands on the data tables of a controller, the
//! initiator, which issues commands, and the node, which joins the two.
#![tactic(auto)]

mod commands;
mod handed;
mod initiator;
mod issued;
pub mod laws;
mod node;
mod outcome;
mod part;
mod queue;
mod station;

pub use data_files::{FileSpec, MakeFault, Tables};
pub use initiator::Initiator;
pub use node::{Node, NodeSetup};
pub use outcome::{IssueFault, Outcome};
pub use station::Station;
