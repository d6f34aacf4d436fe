//! What is decoded at a byte, as C sees it. A number stands for one item, whichever side it is decoded at.
//!
//! | Number | Item | It names | Full duplex | Of a master | Of slaves |
//! |---|---|---|---|---|---|
//! | 0 | nothing | | yes | yes | yes |
//! | 1 | a good frame or message | of a master's, its station | yes | yes | yes |
//! | 2 | a frame with the right check and a body that is too short | | yes | | |
//! | 3 | a frame with a wrong check | | yes | | |
//! | 4 | a frame with a body that is too long | | yes | | |
//! | 5 | a frame that was broken off by a pair | the pair's byte | yes | | |
//! | 6 | a frame that was cut off by the next | | yes | | |
//! | 7 | DLE ACK | | yes | yes | yes |
//! | 8 | DLE NAK, which from a master is a reset | | yes | yes | yes |
//! | 9 | DLE ENQ | | yes | | |
//! | 10 | a byte outside | the byte | yes | yes | yes |
//! | 11 | a pair outside | its second byte | yes | yes | yes |
//! | 12 | the header of a message | its station | | yes | |
//! | 13 | a poll | its station | | yes | |
//! | 14 | a poll with a wrong check | | | yes | |
//! | 15 | a message that didn't end as one, or that isn't good | of a master's, its station | | yes | yes |
//! | 16 | DLE EOT | | | | yes |

ghost use Rattle.std.specs.Prelude.{◌≡◌};
ghost use Rattle.c_lines.specs.Hearings.{full_told, master_told, naming_byte, naming_none, naming_station, slave_told};

use df1_frame::Heard;
use half_frame::{MasterHeard, SlaveHeard};

/// The item that is decoded at a byte.
#[repr(C)]
#[derive(Clone, Copy)]
pub struct Hearing {
    /// The number of the item.
    pub heard: u32,
    /// The byte that the item names, or 0.
    pub byte: u8,
    /// The station that the item names, or 0.
    pub station: u8,
}

/// Returns the item decoded on a full-duplex line.
pub(crate) fn of_full(heard: Option<Heard>) -> Hearing
    ensures { result ≡ full_told heard }
{
    match heard {
        None => naming_none(0),
        Some(Heard::Good) => naming_none(1),
        Some(Heard::Short) => naming_none(2),
        Some(Heard::BadCheck) => naming_none(3),
        Some(Heard::Long) => naming_none(4),
        Some(Heard::Broken(byte)) => naming_byte(5, byte),
        Some(Heard::Restart) => naming_none(6),
        Some(Heard::Ack) => naming_none(7),
        Some(Heard::Nak) => naming_none(8),
        Some(Heard::Enq) => naming_none(9),
        Some(Heard::Stray(byte)) => naming_byte(10, byte),
        Some(Heard::StrayPair(byte)) => naming_byte(11, byte),
    }
}

/// Returns the item that a slave decodes from a master.
pub(crate) fn of_master(heard: Option<SlaveHeard>) -> Hearing
    ensures { result ≡ master_told heard }
{
    match heard {
        None => naming_none(0),
        Some(SlaveHeard::Addressed(station)) => naming_station(1, station),
        Some(SlaveHeard::Header(station)) => naming_station(12, station),
        Some(SlaveHeard::Poll(station)) => naming_station(13, station),
        Some(SlaveHeard::BadPoll) => naming_none(14),
        Some(SlaveHeard::Damaged(station)) => naming_station(15, station),
        Some(SlaveHeard::Ack) => naming_none(7),
        Some(SlaveHeard::Reset) => naming_none(8),
        Some(SlaveHeard::Stray(byte)) => naming_byte(10, byte),
        Some(SlaveHeard::StrayPair(byte)) => naming_byte(11, byte),
    }
}

/// Returns the item that the master decodes from slaves.
pub(crate) fn of_slaves(heard: Option<MasterHeard>) -> Hearing
    ensures { result ≡ slave_told heard }
{
    match heard {
        None => naming_none(0),
        Some(MasterHeard::Good) => naming_none(1),
        Some(MasterHeard::Damaged) => naming_none(15),
        Some(MasterHeard::Ack) => naming_none(7),
        Some(MasterHeard::Nak) => naming_none(8),
        Some(MasterHeard::Eot) => naming_none(16),
        Some(MasterHeard::Stray(byte)) => naming_byte(10, byte),
        Some(MasterHeard::StrayPair(byte)) => naming_byte(11, byte),
    }
}

fn naming_none(heard: u32) -> Hearing
    ensures { result ≡ naming_none heard }
{
    Hearing {
        heard,
        byte: 0,
        station: 0,
    }
}

fn naming_byte(heard: u32, byte: u8) -> Hearing
    ensures { result ≡ naming_byte heard byte }
{
    Hearing {
        heard,
        byte,
        station: 0,
    }
}

fn naming_station(heard: u32, station: u8) -> Hearing
    ensures { result ≡ naming_station heard station }
{
    Hearing {
        heard,
        byte: 0,
        station,
    }
}
