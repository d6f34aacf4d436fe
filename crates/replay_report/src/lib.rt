//! The report of a replay and its text: what the ends of the line sent, executed and had reported to them, event by
//! event, the final words of their data files that aren't 0, and how often an end was deceived.
#![tactic(auto)]

mod digits;
mod page;
mod printing;
mod record;
mod short;

pub use digits::pair;
pub use page::Page;
pub use printing::{print, print_lines, put_line, put_sent};
pub use record::{Line, Lines, Record};
