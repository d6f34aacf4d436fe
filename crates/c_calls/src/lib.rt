//! The calls of the C library as functions on what a handle holds: the code returned, the values reported, and the
//! state afterwards.
#![tactic(auto)]

mod behind;
mod commands;
mod copying;
mod ends;
mod laws;
mod locks;
mod runs;
mod state;
mod transfers;
mod words;

pub use commands::{copy_reply, issue, tell_outcome};
pub use copying::copy;
pub use ends::{copy_body, give, hear, tell_quiet, tick};
pub use laws::{
    a_run_ends_where_there_is_something_to_do, a_run_is_given_up_to_the_end_of_a_message,
    a_run_of_words_is_set, each_change_is_told,
};
pub use locks::lock;
pub use runs::{GivenTold, give_run, hear_run};
pub use state::{StateTold, tell_state};
pub use transfers::{copy_pulled, pull, push, tell_pushed};
pub use words::{set_word, set_words, tell_change, tell_file, tell_files, tell_word, tell_words};
