//! Commands whose script is read completely before anything is written: a route, and rehearsals of transfers.
#![tactic(auto)]

mod fault;
mod printing;
mod reading;
mod rehearsing;
mod routing;
mod settled;

pub use fault::RunFault;
pub use reading::read_input;
pub use rehearsing::{pull_input, push_input};
pub use routing::route_input;
