//! The key of a message, by which a repeat of it is recognized.
ghost use Rattle.std.specs.Prelude.{◌≡◌, ◌≤◌, length};
ghost use Rattle.pccc_envelope.specs.Envelope.{key_of};

use crate::envelope::{CMD, SRC, TNS};

/// What distinguishes a message from the others of its line: who sent it, its command and its transaction number
/// (manual topic: full-duplex protocol, duplicate detection).
#[derive(Clone, Copy, Debug, PartialEq, Eq)]
pub struct Key {
    /// The station that sent it.
    pub src: u8,
    /// Its command, with bit 6 set in a reply.
    pub cmd: u8,
    /// Its transaction number.
    pub tns: u16,
}

/// Returns the key of a body of at least 6 bytes.
pub fn key_of(body: &[u8]) -> Key
    requires { 6 ≤ length body.now }
    ensures { result ≡ key_of body.now }
{
    Key {
        src: body[SRC],
        cmd: body[CMD],
        tns: u16::from_le_bytes([body[TNS], body[TNS + 1]]),
    }
}
