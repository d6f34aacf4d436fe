//! What can be decoded on a full-duplex line, and the pairs that mean it.

ghost use Rattle.std.specs.Prelude.{◌≡◌};
ghost use Rattle.df1_frame.specs.Spelling.{response as response_of};
ghost use Rattle.df1_frame.specs.Grammar.{stray_pair_heard};

use crate::SHORT_NAK;
use df1_base::{ACK, ENQ, NAK};

/// What is decoded at a byte.
#[derive(Clone, Copy, Debug, PartialEq, Eq)]
pub enum Heard {
    /// A frame with a body of at least 6 bytes, for which there is room, and with the right check.
    Good,
    /// A frame with the right check and a body of under 6 bytes.
    Short,
    /// A frame with a wrong check, for whose body there is room.
    BadCheck,
    /// A frame with a longer body than there is room for.
    Long,
    /// A frame that was broken off by a DLE and this byte.
    Broken(u8),
    /// A frame that was cut off by the DLE STX of the next.
    Restart,
    /// DLE ACK.
    Ack,
    /// DLE NAK.
    Nak,
    /// DLE ENQ, outside a frame.
    Enq,
    /// This byte, outside a frame.
    Stray(u8),
    /// A DLE and this byte, outside a frame.
    StrayPair(u8),
}

/// Returns what a response says, if the code is that of one.
pub(crate) fn response(code: u8) -> Option<Heard>
    ensures { result ≡ response_of code }
{
    match code {
        ACK => Some(Heard::Ack),
        NAK | SHORT_NAK => Some(Heard::Nak),
        _ => None,
    }
}

/// Returns what a DLE and this code say outside a frame.
pub(crate) fn stray_pair(code: u8) -> Heard
    ensures { result ≡ stray_pair_heard (response_of code) code }
{
    match response(code) {
        Some(heard) => heard,
        None if code == ENQ => Heard::Enq,
        None => Heard::StrayPair(code),
    }
}
