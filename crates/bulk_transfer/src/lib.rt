//! Transfers of whole files, rehearsed on a full-duplex line: end a issues the orders of a transfer, and then the
//! events of a script happen. The words that are reported as pulled are those of the file, and the words that are
//! reported as pushed are in it (manual topics: commands, word range read and write).
#![tactic(auto)]

pub mod laws;
mod pull;
mod push;
mod rehearsal;

pub use pull::rehearse_pull;
pub use push::rehearse_push;
pub use rehearsal::Rehearsal;
