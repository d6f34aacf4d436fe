//! Conformance vectors: tables of cases, each an input and its expected bytes, and the forty cases of this project.
//!
//! A case asks for the check of some bytes, for the frame of a body, or for a station's reply to a command.
#![tactic(auto)]

mod case;
mod forty;
mod station;
mod table;
mod telling;

pub use case::{Case, Kind};
pub use forty::{LONGEST, each_case_holds, forty_cases};
pub use table::run_table;
pub use telling::{VectorsFault, write_vectors};
