//! The ends of a line, by their names.

/// An end of the line: a or b of a full-duplex link, or the master or the station of a number on a half-duplex line.
#[derive(Clone, Copy, Debug, PartialEq, Eq)]
pub enum Who {
    A,
    B,
    M,
    S(u8),
}
