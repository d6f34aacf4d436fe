//! The content of a script: the plan of each end, and the events of the line between them.
ghost use Rattle.std.specs.Prelude.{◌≡◌};
ghost use Rattle.end_settings.specs.Given.{chosen};

use data_files::FileSpec;
use df1_check::Check;
use end_settings::{EndKey, Settings};
use script_statement::{Bytes, Items, Who};

/// The data files of an end, in the order of their declarations.
pub type Specs = Items<FileSpec>;

/// The first values of words, in the order in which they were set.
pub type Words = Items<WordOf>;

/// The plans of the ends: a, then b; or the master, then the stations in the order of their declarations.
pub type Ends = Items<EndPlan>;

/// The events of a script, in its order.
pub type Events = Items<Event>;

/// A direction of the line: the queue of the bytes that one end sent to another.
#[derive(Clone, Copy, Debug, PartialEq, Eq)]
pub struct Lane {
    pub from: Who,
    pub to: Who,
}

/// Something that happens on the line.
#[derive(Drop)]
pub enum Event {
    /// An end issues a command to the station `dst`, with the SRC `src`, or with its own address if that is None; the
    /// payload begins with CMD and has 1 to 245 bytes.
    Issue {
        who: Who,
        src: Option<u8>,
        dst: u8,
        payload: Bytes,
    },
    /// An end sends up to `n` bytes, which go into its queue.
    Take {
        who: Who,
        n: u32,
    },
    /// Up to `n` bytes at the head of a queue arrive.
    Deliver {
        lane: Lane,
        n: u32,
    },
    /// Up to `n` bytes at the head of a queue are lost.
    Lose {
        lane: Lane,
        n: u32,
    },
    /// The byte at the head of a queue is altered by exclusive or with `mask`, which isn't 0.
    Alter {
        lane: Lane,
        mask: u8,
    },
    /// Foreign bytes, at most 250, arrive at once, as if through this queue.
    Foreign {
        lane: Lane,
        bytes: Bytes,
    },
    /// `n` ticks pass at an end.
    Tick {
        who: Who,
        n: u32,
    },
}

/// The first value of a word: word `index`, from 0, of data file `file` of an end.
#[derive(Clone, Copy, Debug, PartialEq, Eq)]
pub struct WordOf {
    pub who: Who,
    pub file: u16,
    pub index: u32,
    pub value: u16,
}

/// The setup of an end. A field that a key of the table of settings sets has a value of that key's row.
#[derive(Drop)]
pub struct EndPlan {
    pub who: Who,
    /// Whether responses may stand inside messages.
    pub embed: bool,
    /// Its address: the DST of what is sent to it.
    pub node: u8,
    /// TNS of its first command.
    pub tns: u16,
    /// Ticks until an ENQ asks for a missing response.
    pub ack_ticks: u32,
    /// The maximum number of retransmissions of a message after a NAK.
    pub max_naks: u32,
    /// The number of ENQs after which a message is given up.
    pub max_enqs: u32,
    /// Ticks until a command counts as unanswered.
    pub reply_ticks: u32,
    /// The maximum number of retransmissions of a master's message.
    pub max_resends: u32,
    /// Ticks until a poll counts as not answered.
    pub poll_ticks: u32,
    /// The maximum number of transmissions of a slave's message.
    pub max_sends: u32,
    /// The number of replies that may wait.
    pub room: usize,
    /// The number of commands that may be outstanding.
    pub window: usize,
    /// The number of commands of one source that may be outstanding.
    pub per_source: usize,
    /// The number of the compatibility file, a bit or integer file of the end.
    pub compat: Option<u16>,
    /// The status block, at most 244 bytes.
    pub block: Bytes,
    pub files: Specs,
    pub words: Words,
}

impl EndPlan {
    ghost use Rattle.script_parts.specs.Plans.{plan_with};

    /// Returns the plan of an end with these settings, whose address is `address` if they don't set it. What else they
    /// don't set has the initial value of the table of keys.
    pub fn new(
        who: Who,
        address: u8,
        settings: &Settings,
        compat: Option<u16>,
        block: Bytes,
        files: Specs,
        words: Words,
    ) -> Self
        ensures { result ≡ plan_with who (chosen settings.now address) compat block files words }
    {
        EndPlan {
            who,
            embed: settings.chosen(EndKey::Embed, address) == 1,
            node: settings.chosen(EndKey::Node, address) as u8,
            tns: settings.chosen(EndKey::Tns, address) as u16,
            ack_ticks: settings.chosen(EndKey::AckTicks, address),
            max_naks: settings.chosen(EndKey::MaxNaks, address),
            max_enqs: settings.chosen(EndKey::MaxEnqs, address),
            reply_ticks: settings.chosen(EndKey::ReplyTicks, address),
            max_resends: settings.chosen(EndKey::MaxResends, address),
            poll_ticks: settings.chosen(EndKey::PollTicks, address),
            max_sends: settings.chosen(EndKey::MaxSends, address),
            room: settings.chosen(EndKey::Room, address) as usize,
            window: settings.chosen(EndKey::Window, address) as usize,
            per_source: settings.chosen(EndKey::PerSource, address) as usize,
            compat,
            block,
            files,
            words,
        }
    }
}

/// A script that was read.
pub struct Script {
    /// Whether the script is half duplex.
    pub half: bool,
    /// Which check ends a message.
    pub check: Check,
    pub ends: Ends,
    pub events: Events,
}

// By hand, so that whoever drops one proves nothing of its parts.
impl Drop for Script {
    fn drop(self) {
        let Script {
            half: _,
            check: _,
            ends: _ends,
            events: _events,
        } = self;
    }
}
