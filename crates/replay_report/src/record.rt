//! What a run did: the lines of its report, the words that it left, and how often an end was deceived.

use script_parts::Words;
use script_statement::{Bytes, Items, Who};

/// The lines of a report, in the order of the events.
pub type Lines = Items<Line>;

/// A line of a report that an event made. `who` is the end that it describes, `n` the number of one of its commands,
/// counted from 1 in the order in which they were issued.
#[derive(Drop)]
pub enum Line {
    /// The end sent these bytes at one event: at least one.
    Sent { who: Who, bytes: Bytes },
    /// The end executed the command of this body.
    Exec { who: Who, body: Bytes },
    /// The reply to command `n` was accepted, with this body.
    Answered { who: Who, n: u32, body: Bytes },
    /// Command `n` was given up: no acknowledgement of its message came.
    Undelivered { who: Who, n: u32 },
    /// No reply to command `n` came in time.
    Unanswered { who: Who, n: u32 },
    /// A reply of this body was accepted that answers no command.
    Stray { who: Who, body: Bytes },
    /// The master accepted a message of this body that it carries to a station.
    Routed { who: Who, body: Bytes },
    /// A message was accepted before: it was acknowledged again and not handed on.
    Repeat { who: Who },
    /// A message was refused for want of buffer space.
    Full { who: Who },
    /// A message came damaged.
    Damaged { who: Who },
    /// The sender asked for a missing response by an ENQ.
    Enquiry { who: Who },
    /// A reply was given up.
    Dropped { who: Who },
}

/// The record of a run: the report's lines, the words that aren't 0 in the end, and the count of deceptions.
pub struct Record {
    pub lines: Lines,
    pub words: Words,
    pub deceived: u64,
}

// By hand, so that whoever drops one proves nothing of its parts.
impl Drop for Record {
    fn drop(self) {
        let Record {
            lines: _lines,
            words: _words,
            deceived: _,
        } = self;
    }
}
