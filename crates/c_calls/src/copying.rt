//! Copying of bytes to the front of a buffer of the caller.

ghost use Rattle.std.specs.Prelude.{◌≡◌, length};
ghost use Rattle.c_calls.specs.Copied.{copied, room_code};

use c_ends::Code;

/// Copies bytes to the front of a buffer if they fit. `count` becomes their number even if they don't.
pub fn copy(bytes: &[u8], into: &mut [u8], count: &mut usize) -> Code
    ensures code { result ≡ room_code (length bytes.now) (length into.old) }
    ensures bytes { into.new ≡ copied into.old bytes.now }
    ensures count { count.new ≡ length bytes.now }
{
    *count = bytes.len();
    if bytes.len() > into.len() {
        return Code::NoRoom;
    }
    into[..bytes.len()].copy_from_slice(bytes);
    Code::Done
}
