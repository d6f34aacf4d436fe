//! The full-duplex frames of a DF1 link, after the manual's full-duplex protocol.
//!
//! A frame is DLE STX, the body with each DLE doubled, DLE ETX, and the check: one byte (BCC) or two (CRC-16, low byte
//! first), never doubled. The responses DLE ACK and DLE NAK may stand between DLE STX and DLE ETX, after DLE STX and
//! after each byte of the body; they are no part of the body, and no check covers them. Every list of bytes splits in
//! exactly one way into items (frames, broken frames, pairs and bytes outside frames) and an unfinished front of one.
#![tactic(auto)]

mod decoder;
mod framer;
mod gathered;
mod heard;
mod laws;
mod plain;

pub use decoder::Decoder;
pub use framer::{Framer, Unit, check_bytes};
pub use gathered::Gathered;
pub use heard::Heard;
pub use laws::{
    frame_spells, heard_in_a_run, heard_stays, one_split, round_trip, whole_frame, worked_frames,
};
pub use plain::plain_len;

/// A second code that is read as NAK, and never sent.
pub const SHORT_NAK: u8 = 0x0F;
