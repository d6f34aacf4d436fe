//! Addresses of words and bits in data files, in their usual text form: `N7:3`, `F8:0`, `T4:1.ACC`, `N7:3/5` (manual
//! topic: addressing).
//!
//! | Part | Text |
//! |---|---|
//! | type | one of the letters S, B, T, C, R, N and F: Status, Bit, Timer, Counter, Control, Integer, Float |
//! | file | a number 0 to 999; after an S it may be omitted and is then 2, so `S:1` is `S2:1` |
//! | element | `:` and a number 0 to 999 |
//! | sub-element | nothing, meaning 0; or `.` and the name or the number of a word of the element |
//! | bit | nothing; or `/` and a number 0 to 15, not after an F |
//!
//! | Sub-element | 0 | 1 | 2 |
//! |---|---|---|---|
//! | Timer, Counter | `CTL` | `PRE` | `ACC` |
//! | Control | `CTL` | `LEN` | `POS` |
//!
//! A number may have leading zeros; letters are capitals.
#![tactic(auto)]

mod address;
pub mod laws;
mod number;
mod parts;
mod text;

pub use address::{Address, AddressFault, read_address};
pub use text::write_address;
