//! The drill and the storm: two full-duplex scripts, each made from two numbers, their runs, and one line that reports
//! the result. A drill disturbs the bytes by four patterns; a storm alters bytes of bodies.
#![tactic(auto)]

mod course;
mod drilled;
mod report_text;
mod script;
mod storm_script;
mod tally;
mod telling;

pub use drilled::{Drilled, LINE, drill};
pub use round_scripts::MOST_ROUNDS;
pub use script::{drill_script, each_drill_can_be_played};
pub use storm_script::{each_storm_can_be_played, storm};
pub use telling::{DrillFault, write_drill, write_storm};
