//! The sides of a line.

/// Whose bytes are decoded (manual topics: full-duplex protocol, half-duplex protocol).
#[derive(Clone, Copy, Debug, PartialEq, Eq)]
pub enum Side {
    /// The bytes of one end of a full-duplex line.
    Full,
    /// The master's bytes of a half-duplex line, as a slave receives them.
    Master,
    /// The slaves' bytes of a half-duplex line, as the master receives them.
    Slave,
}
