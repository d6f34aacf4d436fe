//! Addresses, payloads and replies for the C library: plain structs become addresses, and each refusal is a code
//! (manual topics: addressing, commands, status codes).
//!
//! | Number | Command | Read | Write |
//! |---|---|---|---|
//! | 0 | word range | `0F 01` | `0F 00` |
//! | 1 | typed | `0F 68` | `0F 67` |
//! | 2 | logical with two fields | `0F A1` | `0F A9` |
//! | 3 | logical with three fields | `0F A2` | `0F AA` |
//!
//! Of several faults the first of these is returned: the number is not that of a command; the type byte of the address
//! is not that of a type; the fault of the payload.
#![tactic(auto)]

mod addresses;
mod commands;
mod faults;
mod parts;
mod payloads;
mod replies;

pub use addresses::{address_text, read_address};
pub use commands::Command;
pub use parts::{AddressParts, AnswerParts, TypedParts};
pub use payloads::{
    bit_payload, echo_payload, masked_payload, modify_payload, read_payload, status_payload,
    unprotected_read_payload, unprotected_write_payload, write_payload,
};
pub use replies::{read_reply, read_typed, status_text};
