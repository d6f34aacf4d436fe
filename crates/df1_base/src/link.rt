//! What passes between the parts of an end of a link, and between an end and its driver: responses, bytes to transmit,
//! and what a byte, a tick or a take meant.

use crate::{Did, News};

/// A response to a frame (manual topic: full-duplex protocol).
#[derive(Clone, Copy, Debug, PartialEq, Eq)]
pub enum Resp {
    /// DLE ACK: the frame was taken.
    Ack,
    /// DLE NAK: it was not.
    Nak,
}

/// A byte to transmit.
#[derive(Clone, Copy, Debug, PartialEq, Eq)]
pub struct Out {
    /// The byte.
    pub byte: u8,
    /// The number of the transmission whose last byte this is.
    pub last_of: Option<u64>,
    /// The number of the transmission of which this byte is a one-byte body unit.
    pub body_of: Option<u64>,
}

/// What a received byte meant to an end.
#[derive(Clone, Copy, Debug, PartialEq, Eq)]
pub enum Act {
    /// A message was accepted.
    Accept,
    /// A duplicate message arrived, and was acknowledged again.
    Repeat,
    /// There was no room for a message.
    Refuse,
    /// A frame was damaged.
    Damaged,
    /// A frame was abandoned for a new one.
    Forgot,
    /// An ACK.
    PeerAck,
    /// A NAK.
    PeerNak,
    /// An ENQ.
    PeerEnq,
    /// None of these.
    Nothing,
}

/// The effect of a byte on an end.
#[derive(Clone, Copy, Debug, PartialEq, Eq)]
pub struct Step {
    /// What the byte meant.
    pub act: Act,
    /// What the host did with an accepted message: None exactly if the act isn't Accept.
    pub did: Option<Did>,
    /// The host's answer to a fate that was reported at this byte, and Nothing if there was none.
    pub news: News,
    /// Whether a whole frame was received at this byte, whatever the act.
    pub whole: bool,
    /// The station that a whole half-duplex message names, and 0 in every other case.
    pub station: u8,
}

/// The effect of a tick on an end.
#[derive(Clone, Copy, Debug, PartialEq, Eq)]
pub enum Turn {
    /// Nothing to report.
    Still,
    /// The sender asks for the last response again, by an ENQ.
    Ask,
    /// A message was given up, with the host's answer to that.
    Failed(News),
}
