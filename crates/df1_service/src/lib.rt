//! The service of one end by its plan over an input and an output. The plan's commands, or the orders of a transfer,
//! are issued first; then the end takes the signals of the input, and what it sends goes to the output. At the end the
//! outcomes of the commands are reported.
#![tactic(auto)]

mod commands;
mod fault;
mod outcomes;
mod plan_file;
mod service;
mod told;

pub use commands::Issues;
pub use fault::ServiceFault;
pub use outcomes::write_outcomes;
pub use service::{Ended, Service, serve_plan};
pub use told::write_told;
