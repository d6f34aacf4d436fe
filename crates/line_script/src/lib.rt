//! The script of a replay or a rehearsal, and its exact reading, with the first faulty line and its cause. A script is
//! a text of lines: it sets up the two ends of a full-duplex link, or the master and the stations of a half-duplex
//! line, and then says, event by event, what happens to each byte between them.
#![tactic(auto)]

mod fault;
mod given_command;
mod given_delivery;
mod given_word;
mod laws;
mod profile;
mod reader;
mod step;
mod text_reader;
mod whole_text;

pub use fault::{Cause, LineFault, ScriptFault};
pub use laws::{
    a_refused_line_stays_refused, refused_over_the_limit, what_is_left_is_what_the_lines_leave,
};
pub use profile::Profile;
pub use reader::{LINE, Reader, SCRIPT};
pub use script_parts::{
    Bytes, EndPlan, Ends, Event, Events, Items, Lane, Script, Specs, Who, WordOf, Words,
};
pub use step::TimesEvent;
pub use text_reader::TextReader;
pub use whole_text::{line_end, read_profile, read_script};
