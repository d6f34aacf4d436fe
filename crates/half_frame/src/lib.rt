//! The messages of a half-duplex DF1 link, after the manual's half-duplex protocol: one master and several slaves.
//!
//! A master's message is DLE SOH, the station's number, DLE STX, the body with each DLE doubled, DLE ETX, and the
//! check: one byte (BCC) or two (CRC-16, low byte first), never doubled. The check covers the station too, and the CRC
//! also STX and ETX. A poll is DLE ENQ, the station's number, and its BCC, whatever the line's check. A slave's message
//! is DLE STX, the body, DLE ETX and the check, without a station. There are no responses inside a message.
//!
//! What a slave decodes of the master's bytes, and what the master decodes of the slaves', are two grammars: every list
//! of bytes splits in exactly one way into items of each and an unfinished front of one. Inside a message a pair that
//! starts an item ends the message as damaged, and starts that item.
//!
//! A reader of captured bytes names the side of the line that they come from, `Side`; full duplex is one of the three.
#![tactic(auto)]

mod framer;
mod heard;
mod master_ear;
mod master_laws;
mod side;
mod slave_ear;
mod slave_laws;
mod text;

pub use framer::{HalfFramer, Sent, marks_change_no_byte};
pub use heard::{MasterHeard, SlaveHeard};
pub use master_ear::MasterEar;
pub use master_laws::{
    heard_in_a_run_at_the_master, heard_stays_at_the_master, one_split_at_the_master,
    pair_round_trip_at_the_master, reply_round_trip, worked_replies,
};
pub use side::Side;
pub use slave_ear::SlaveEar;
pub use slave_laws::{
    heard_in_a_run_at_a_slave, heard_stays_at_a_slave, message_round_trip, one_split_at_a_slave,
    pair_round_trip_at_a_slave, poll_round_trip, worked_messages,
};

/// Start of header: DLE SOH begins a master's message.
pub const SOH: u8 = 0x01;

/// End of transmission: DLE EOT is the answer of a slave that was polled and has no message.
pub const EOT: u8 = 0x04;
