//! How a command was answered.

/// The code of a reply (manual topic: status codes).
#[derive(Clone, Copy, Debug, PartialEq, Eq)]
pub enum Code {
    /// The command was executed: STS 00.
    Done,
    /// STS with this value, and no EXT STS.
    Sts(u8),
    /// STS F0, and this EXT STS.
    Ext(u8),
}
