//! The ends that C can have: what a handle may hold, how it is made of plain structs, the code of each refusal, and
//! what is reported of what an end did.
#![tactic(auto)]

mod code;
mod files;
mod held;
mod links;
mod node;
mod parts;
mod told;
mod values;

pub use code::Code;
pub use files::kind_of;
pub use held::Held;
pub use links::{check_of, duplex_of, master_of, number_fault, slave_of};
pub use parts::{DuplexLink, FileParts, MasterLink, NodeParts, SlaveLink, WordParts};
pub use told::{OutTold, StepTold, TurnTold, out_of, routed, step_of, turn_of};
