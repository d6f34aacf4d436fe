//! Laws of every run of a script of either mode: no command is overtaken by one that was issued before it with the same
//! SRC, each has its outcome after so many ticks, and one that is over is never executed late.
#![tactic(auto)]

mod bounds;
mod late;
mod overtaking;

pub use bounds::{
    a_line_comes_to_rest, a_lossy_line_comes_to_rest, ends_come_to_idle, outcomes_come,
    the_bound_is_reached, the_bound_of_a_master_is_near,
};
pub use late::{
    a_command_is_over, no_late_execution, no_late_execution_by_a_station,
    no_settled_command_is_held, no_unanswered_command_is_held, no_undelivered_command_is_held,
    nothing_comes_late,
};
pub use overtaking::nothing_is_overtaken;
