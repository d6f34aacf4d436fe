//! The control characters of a link: each follows a DLE (manual topic: full-duplex protocol).

/// Data link escape, the first byte of each pair.
pub const DLE: u8 = 0x10;

/// Start of text: DLE STX begins a message.
pub const STX: u8 = 0x02;

/// End of text: DLE ETX ends a message's body.
pub const ETX: u8 = 0x03;

/// Enquiry: asks for the last response again.
pub const ENQ: u8 = 0x05;

/// Positive acknowledgment.
pub const ACK: u8 = 0x06;

/// Negative acknowledgment.
pub const NAK: u8 = 0x15;
