//! Scripts of rounds: end b has an integer file of 16 elements, end a writes a word of it in each round, and things
//! then happen to the bytes. What they have in common: the ends, the commands, and the events of a round after its
//! command.
#![tactic(auto)]

mod command;
mod course;
mod ends;

pub use command::put_command;
pub use course::{CourseEvent, TO_A, TO_B, UNDISTURBED, put_course};
pub use ends::{MOST_ROUNDS, setup};
