//! What the lines of a script say of one end, in either mode: its settings, compatibility file, block, data files and
//! the first values of its words; what may be wrong with a further line, and the plan that they make.
#![tactic(auto)]

mod end_draft;
mod flaw;
mod given_files;
mod given_places;
mod given_words;
mod stage;

pub use end_draft::EndDraft;
pub use flaw::{Flaw, StatementFault};
pub use given_files::GivenFiles;
pub use given_words::GivenWords;
pub use stage::Stage;
