//! What one line of a script says: its words, the statement that they form, and the names and values in statements. A
//! line says the same in either mode; the reader of the lines decides whether it may stand there.
//!
//! The forms, by the count of their words. E is an end: `a` or `b` of a full-duplex link, `m` or the number S of a
//! station of a half-duplex line; `n` and SRC are numbers, HH, HHHH and HEX are pairs of hexadecimal digits.
//!
//! | Words | Forms |
//! |---|---|
//! | one | `end`; `Ek`, `Et`, `Ed`, `Ex` of a and b; `mk`, `mt`; `Sk`, `Sd`, `Sx` |
//! | two | `station S`; `Ek n`, `Et n`, `Ed n`, `Ex n`, `Ei HEX`, `Ec HH`, `En HEX` of a and b; `mk n`, `mt n`, `md S`, `mx S`; `Sk n`, `Sd n`, `Sx n`, `Sc HH`, `Sn HEX` |
//! | three | `set mode full`, `set mode half`, `set check VALUE`, `set E.NAME VALUE`; `mi S HEX`, `md S n`, `mx S n`, `mc S HH`, `mn S HEX`; `Ei SRC HEX` of a and b |
//! | four | `mi S SRC HEX` |
//! | five | `file E NUMBER TYPE COUNT`; `word E NUMBER INDEX HHHH` |
//!
//! `Si T HEX`, by which the station S issues a command to the station T or to the master, isn't among them: it is a
//! form only if the master carries messages between the stations.
#![tactic(auto)]

mod event_line;
mod half_event;
mod items;
mod set_line;
mod setup_statement;
mod statement;
mod station_command;
mod who;
mod words;

pub use event_line::{is_payload, payload_of, verb_of};
pub use half_event::{HalfEvent, Way};
pub use items::{Bytes, Items};
pub use setup_statement::SetupStatement;
pub use statement::{EVENTS, EndLetter, EndName, Statement, Verb, file_number, statement_of};
pub use station_command::station_issue;
pub use who::Who;
pub use words::{FirstWords, first_words, hex_of, number_of, register_of};
