//! What can be decoded on a half-duplex line, by a slave and by the master, and the pairs that mean it.

ghost use Rattle.std.specs.Prelude.{◌≡◌};
ghost use Rattle.half_frame.specs.SlaveGrammar.{pair_heard as slave_pair_heard, poll_heard as heard_at_poll};
ghost use Rattle.half_frame.specs.MasterGrammar.{pair_heard as master_pair_heard};

use crate::EOT;
use df1_base::{ACK, NAK};
use df1_check::bcc;
use df1_frame::SHORT_NAK;

/// What a slave decodes at a byte of the master's.
#[derive(Clone, Copy, Debug, PartialEq, Eq)]
pub enum SlaveHeard {
    /// A message to this station, with a body of at least 6 bytes, for which there is room, and with the right check.
    Addressed(u8),
    /// DLE SOH, this station and DLE STX: a message to it has started.
    Header(u8),
    /// A poll of this station with the right BCC.
    Poll(u8),
    /// A poll with a wrong BCC.
    BadPoll,
    /// A message to this station that didn't end as one, or that has a short or long body or a wrong check.
    Damaged(u8),
    /// DLE ACK.
    Ack,
    /// DLE NAK, by which the master asks the slaves to drop what they keep.
    Reset,
    /// This byte, outside.
    Stray(u8),
    /// A DLE and this byte, outside.
    StrayPair(u8),
}

/// What the master decodes at a byte of a slave's.
#[derive(Clone, Copy, Debug, PartialEq, Eq)]
pub enum MasterHeard {
    /// A message with a body of at least 6 bytes, for which there is room, and with the right check.
    Good,
    /// A message that didn't end as one, or that has a short or long body or a wrong check.
    Damaged,
    /// DLE ACK.
    Ack,
    /// DLE NAK.
    Nak,
    /// DLE EOT, by which a slave that was polled says that it has no message.
    Eot,
    /// This byte, outside.
    Stray(u8),
    /// A DLE and this byte, outside.
    StrayPair(u8),
}

/// Returns what a pair with this code, which starts nothing, says to a slave.
pub(crate) fn slave_pair(code: u8) -> SlaveHeard
    ensures { result ≡ slave_pair_heard code }
{
    match code {
        ACK => SlaveHeard::Ack,
        NAK | SHORT_NAK => SlaveHeard::Reset,
        _ => SlaveHeard::StrayPair(code),
    }
}

/// Returns what a poll of this station with this BCC says to a slave.
pub(crate) fn poll(stn: u8, check: u8) -> SlaveHeard
    ensures { result ≡ heard_at_poll stn check }
{
    if check == bcc(&[stn]) {
        SlaveHeard::Poll(stn)
    } else {
        SlaveHeard::BadPoll
    }
}

/// Returns what a pair with this code, which starts nothing, says to the master.
pub(crate) fn master_pair(code: u8) -> MasterHeard
    ensures { result ≡ master_pair_heard code }
{
    match code {
        ACK => MasterHeard::Ack,
        NAK | SHORT_NAK => MasterHeard::Nak,
        EOT => MasterHeard::Eot,
        _ => MasterHeard::StrayPair(code),
    }
}
