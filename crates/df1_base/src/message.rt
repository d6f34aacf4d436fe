//! The sizes of a message, and the bit that distinguishes a reply from a command (manual topic: message packets).

/// The fewest bytes of a body: an envelope without data.
pub const MIN_BODY: usize = 6;

/// The most bytes of a body.
pub const MAX_BODY: usize = 250;

/// The most bytes of a payload: CMD and what follows TNS.
pub const MAX_PAYLOAD: usize = 245;

/// The most bytes of a reply's data, or of a command after its TNS.
pub const MAX_DATA: usize = 244;

/// Bit 6 of CMD, set in a reply.
pub const REPLY: u8 = 0x40;
