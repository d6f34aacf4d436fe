//! The content of a script that was read: how each end of the line is set up, and the events of the line between them;
//! and which scripts can be played.
#![tactic(auto)]

mod script;

pub use script::{EndPlan, Ends, Event, Events, Lane, Script, Specs, WordOf, Words};
pub use script_statement::{Bytes, Items, Who};
