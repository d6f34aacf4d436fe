//! The data tables of a controller (manual topic: addressing): its files in the order given, and their words in one
//! vector, file after file, with a directory of where each file starts.
#![tactic(auto)]

mod faults;
mod file_spec;
pub mod laws;
mod make_fault;
mod place;
mod tables;
mod word_bytes;

pub use faults::{MAX_ELEMENTS, MAX_FILES, file_fault};
pub use file_spec::FileSpec;
pub use make_fault::MakeFault;
pub use place::{Place, locate, type_byte};
pub use tables::Tables;
pub use word_bytes::{push_words, words_of};
