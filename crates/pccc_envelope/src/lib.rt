//! The envelope at the front of every PCCC message body, the key that distinguishes messages, and the filter that
//! detects repeats of the last accepted message.
//!
//! A body begins with the six bytes `DST SRC CMD STS TNSlow TNShigh`. A reply carries its command's envelope with DST
//! and SRC swapped, bit 6 of CMD set and the same TNS (manual topic: message packets).
#![tactic(auto)]

pub mod duplicate_filter;
mod envelope;
mod key;

pub use envelope::{Envelope, is_reply, read_envelope, reply_of, write_envelope};
pub use key::{Key, key_of};
