//! The program `df1` as one call: it takes the arguments and the outside world, and returns an exit status.
#![tactic(auto)]

mod checking;
mod data_words;
mod dissecting;
mod drilling;
mod form;
mod note;
mod number;
mod refusal;
mod replaying;
mod scripts;
mod serving;
mod top;
mod vectors;

pub use top::{Ran, run};
