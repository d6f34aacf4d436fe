//! The plan of an end that is served over a line, and its reading. A plan is a TOML document that says how the end is
//! set up, which data files it has, and which commands it issues. The first cause why a document is not a plan is
//! reported.
//!
//! | Key | Value | Default |
//! |---|---|---|
//! | `check` | `"bcc"` or `"crc"` | `"bcc"` |
//! | `peer` | 0 to 255 | 0 |
//! | `block` | text of hexadecimal pairs, at most 244 bytes | empty |
//! | `compat` | the number of a bit or integer file of the plan | none |
//! | `file` | an array of tables with `number`, `type`, `count` and optionally `words` | none |
//! | `issue` | an array of commands, each a text of hexadecimal pairs of a payload including its CMD, or a table with `source`, 0 to 255, and `payload`, such a text | none |
//! | a setting | one of the keys of a full-duplex end: a boolean for a switch, an integer for a number | its initial value, at the address 1 |
//!
//! The causes are reported in this order: a document that TOML refuses; a key that is none of these; the first key, in
//! byte order of the names, whose value is refused; a compatibility file that doesn't exist or has another type.
#![tactic(auto)]

mod fault;
mod files;
mod issue;
mod plan;
mod plan_key;
mod reading;
mod settings;
mod values;

pub use fault::PlanFault;
pub use plan::{Commands, Plan, PlannedCommand};
pub use plan_key::PlanKey;
pub use reading::read_plan;
