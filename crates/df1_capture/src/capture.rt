//! A capture of a line: what is captured, the limit of its length, and the reasons why it isn't decoded to its end.
ghost use Rattle.std.specs.Prelude.{◌≡◌, ◌≤◌, ◌<◌, ◌+◌, ◌++◌, length, drop};

use df1_check::Check;
use half_frame::Side;
use thiserror::Error;

/// The maximum length of a capture, in bytes.
pub(crate) const CAPTURE: u64 = 268_435_456;

/// The number of bytes that one read asks for.
pub(crate) const PIECE: usize = 4096;

/// The side that is captured, and the check of its line.
#[derive(Clone, Copy, Debug, PartialEq, Eq)]
pub struct Capture {
    pub side: Side,
    pub check: Check,
}

/// The reason why a capture isn't decoded to its end, or its result isn't written.
#[derive(Clone, Copy, Debug, PartialEq, Eq, Error)]
pub enum CaptureFault {
    /// The input failed.
    #[error("the input failed")]
    Input,
    /// The output failed.
    #[error("the output failed")]
    Output,
    /// There is a byte after the first 268,435,456.
    #[error("the capture is over its limit")]
    TooLong,
}

/// Returns the bytes of a piece that are within the limit, after so many bytes before it.
pub(crate) fn within_limit(piece: &[u8], before: u64) -> &[u8]
    requires { before ≤ 268435456 }
    ensures front { piece.now ≡ result.now ++ drop (length result.now) piece.now }
    ensures size { length result.now ≤ length piece.now }
    ensures most { before + length result.now ≤ 268435456 }
    ensures full { length result.now < length piece.now → before + length result.now ≡ 268435456 }
{
    let room = CAPTURE - before;
    let all = piece.len() as u64;
    &piece[..all.min(room) as usize]
}
