//! The kinds of things that have a line, and which of them are faults of the line.
ghost use Rattle.std.specs.Prelude.{◌≡◌};
ghost use Rattle.df1_dissect.specs.Kinds.{full_kind as kind_of_full, master_kind as kind_of_master, slave_kind as kind_of_slave, is_bad, is_response};

use df1_frame::Heard;
use half_frame::{MasterHeard, SlaveHeard};

/// The kind of thing that a line reports. `u8` is the station of a message or poll, or the byte that is reported.
#[derive(Clone, Copy, Debug, PartialEq, Eq)]
pub enum Kind {
    /// A whole message with a body of 6 to 250 bytes and the right check.
    Good,
    /// The same, sent by the master to this station.
    Message(u8),
    /// A frame with the right check and a body of under 6 bytes.
    Short,
    /// A frame with a wrong check.
    BadCheck,
    /// A frame with a body of over 250 bytes.
    Long,
    /// A frame that was broken off by a DLE and this byte.
    Broken(u8),
    /// A frame that was cut off by the start of the next.
    Restart,
    /// A slave's message that is broken off, or that has a short or long body or a wrong check.
    Damaged,
    /// The same, sent by the master to this station.
    DamagedFor(u8),
    /// A poll of this station.
    Poll(u8),
    /// A poll with a wrong BCC.
    BadPoll,
    /// DLE ACK.
    Ack,
    /// DLE NAK.
    Nak,
    /// DLE NAK of the master's, by which it asks the slaves to drop what they hold.
    Reset,
    /// DLE ENQ.
    Enq,
    /// DLE EOT.
    Eot,
    /// This byte, outside.
    Stray(u8),
    /// A DLE and this byte, outside.
    StrayPair(u8),
}

impl Kind {
    /// Returns whether it is a fault: no line without faults has it.
    pub fn is_bad(self) -> bool
        ensures { result ≡ is_bad self }
    {
        match self {
            Kind::Good | Kind::Message(_) | Kind::Poll(_) => false,
            Kind::Ack | Kind::Nak | Kind::Reset | Kind::Enq | Kind::Eot => false,
            _ => true,
        }
    }

    /// Returns whether it is a response, which may stand inside a full-duplex frame.
    pub(crate) fn is_response(self) -> bool
        ensures { result ≡ is_response self }
    {
        matches!(self, Kind::Ack | Kind::Nak)
    }
}

/// Returns the kind of an item that is decoded on a full-duplex line.
pub(crate) fn full_kind(heard: Option<Heard>) -> Option<Kind>
    ensures { result ≡ kind_of_full heard }
{
    match heard? {
        Heard::Good => Some(Kind::Good),
        Heard::Short => Some(Kind::Short),
        Heard::BadCheck => Some(Kind::BadCheck),
        Heard::Long => Some(Kind::Long),
        Heard::Broken(code) => Some(Kind::Broken(code)),
        Heard::Restart => Some(Kind::Restart),
        Heard::Ack => Some(Kind::Ack),
        Heard::Nak => Some(Kind::Nak),
        Heard::Enq => Some(Kind::Enq),
        Heard::Stray(byte) => Some(Kind::Stray(byte)),
        Heard::StrayPair(code) => Some(Kind::StrayPair(code)),
    }
}

/// Returns the kind of an item that a slave decodes from the master's bytes. The start of a message has no line.
pub(crate) fn master_kind(heard: Option<SlaveHeard>) -> Option<Kind>
    ensures { result ≡ kind_of_master heard }
{
    match heard? {
        SlaveHeard::Addressed(station) => Some(Kind::Message(station)),
        SlaveHeard::Header(_) => None,
        SlaveHeard::Poll(station) => Some(Kind::Poll(station)),
        SlaveHeard::BadPoll => Some(Kind::BadPoll),
        SlaveHeard::Damaged(station) => Some(Kind::DamagedFor(station)),
        SlaveHeard::Ack => Some(Kind::Ack),
        SlaveHeard::Reset => Some(Kind::Reset),
        SlaveHeard::Stray(byte) => Some(Kind::Stray(byte)),
        SlaveHeard::StrayPair(code) => Some(Kind::StrayPair(code)),
    }
}

/// Returns the kind of an item that the master decodes from the slaves' bytes.
pub(crate) fn slave_kind(heard: Option<MasterHeard>) -> Option<Kind>
    ensures { result ≡ kind_of_slave heard }
{
    match heard? {
        MasterHeard::Good => Some(Kind::Good),
        MasterHeard::Damaged => Some(Kind::Damaged),
        MasterHeard::Ack => Some(Kind::Ack),
        MasterHeard::Nak => Some(Kind::Nak),
        MasterHeard::Eot => Some(Kind::Eot),
        MasterHeard::Stray(byte) => Some(Kind::Stray(byte)),
        MasterHeard::StrayPair(code) => Some(Kind::StrayPair(code)),
    }
}
