//! The keys of an end, each with one row of a table: its name, the kinds of end that have it, its values and its
//! default; and the settings in the lines of a script or a plan.
#![tactic(auto)]

mod key;
mod laws;
mod row;
mod settings;

pub use key::{EndKey, KEYS};
pub use laws::each_key_has_its_name;
pub use row::{First, Role, Roles, Values};
pub use settings::{Setting, Settings};
