//! Replays a script of either mode: reads it, plays its run over the line, and prints the record of what happened; also
//! while the script comes in, byte by byte or line by line.
#![tactic(auto)]

mod replayer;
mod whole;

pub use line_script::{
    Bytes, Cause, EndPlan, Ends, Event, Events, Items, Lane, Profile, Script, ScriptFault, Specs,
    Who, WordOf, Words, read_profile, read_script,
};
pub use line_world::World;
pub use replay_report::{Line, Lines, Record, print};
pub use replayer::{Replayer, StreamFault};
pub use whole::replay;
