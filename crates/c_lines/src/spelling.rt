//! The bytes of frames, messages and polls.

ghost use Rattle.std.specs.Prelude.{◌≡◌, ◌≢◌, ◌≤◌, length};
ghost use Rattle.half_frame.specs.Spelling.{bytes_of, message_bytes, poll_bytes, reply_bytes};
ghost use Rattle.c_lines.specs.Spelled.{frame_of};

use arrayvec::ArrayVec;
use df1_check::Check;
use df1_frame::Framer;
use half_frame::HalfFramer;

/// The maximum size of a frame with a body of 250 bytes: each of them doubled, two pairs and a CRC.
const MAX_FRAME: usize = 506;

/// The maximum size of a master's message: DLE SOH and a station before the bytes of a frame.
const MAX_MESSAGE: usize = 509;

/// Returns the full-duplex frame of a body of at most 250 bytes.
pub fn frame_of(check: Check, body: &[u8]) -> ArrayVec<u8, MAX_FRAME>
    requires { length body.now ≤ 250 }
    ensures frame { result.items ≡ frame_of check body.now }
    ensures most { length result.items ≤ 506 }
{
    let mut framer = Framer::new();
    framer.begin(body, check);
    let _begun = framer.done();
    let mut frame = ArrayVec::new();
    while let Some(unit) = framer.next_unit() {
        frame.push(unit.first);
        if let Some(second) = unit.second {
            frame.push(second);
        }
    }
    frame
}

/// Returns a slave's message with a body of at most 250 bytes. It contains no station, so it is the full-duplex frame
/// of its body.
pub fn reply_of(check: Check, body: &[u8]) -> ArrayVec<u8, MAX_FRAME>
    requires { length body.now ≤ 250 }
    ensures reply { result.items ≡ reply_bytes check body.now }
    ensures most { length result.items ≤ 506 }
{
    frame_of(check, body)
}

/// Returns a master's message to a station, which is neither 16 nor 255, with a body of at most 250 bytes.
pub fn message_of(check: Check, station: u8, body: &[u8]) -> ArrayVec<u8, MAX_MESSAGE>
    requires not_dle { station ≢ 16 }
    requires not_all { station ≢ 255 }
    requires fits { length body.now ≤ 250 }
    ensures message { result.items ≡ message_bytes check station body.now }
    ensures most { length result.items ≤ 509 }
{
    given_by(HalfFramer::message(station, body, check))
}

/// Returns a master's poll of a station, which is neither 16 nor 255.
pub fn poll_of(station: u8) -> ArrayVec<u8, MAX_MESSAGE>
    requires not_dle { station ≢ 16 }
    requires not_all { station ≢ 255 }
    ensures { result.items ≡ poll_bytes station }
{
    given_by(HalfFramer::poll(station))
}

/// Returns the bytes that a framer sends.
fn given_by(mut framer: HalfFramer) -> ArrayVec<u8, MAX_MESSAGE>
    ensures bytes { result.items ≡ bytes_of framer }
    ensures most { length result.items ≤ 509 }
{
    let _begun = framer.done();
    let mut bytes = ArrayVec::new();
    while let Some(byte) = framer.next_byte() {
        bytes.push(byte);
    }
    bytes
}
