//! The encoding of full-duplex frames, and of the messages and polls of a half-duplex line.

ghost use Rattle.std.specs.Prelude.{◌≡◌, ◌≢◌, ◌≤◌, ◌<◌, length, IfSome, None};
ghost use Rattle.c_ends.specs.declared.code.Code.TheVariants as code;
ghost use Rattle.c_ends.specs.Code.{code_number};
ghost use Rattle.c_ends.specs.Links.{check_of, number_fault};
ghost use Rattle.c_lines.specs.Spelled.{frame_of};
ghost use Rattle.half_frame.specs.Spelling.{message_bytes, poll_bytes, reply_bytes};
ghost use Rattle.c_calls.specs.Copied.{copied, room_code};
ghost use Rattle.df1_c.specs.Spelled.{body_fault, message_fault};

use c_calls::copy;
use c_ends::{Code, check_of, number_fault};
use c_lines::{frame_of, message_of, poll_of, reply_of};
use df1_base::MAX_BODY;
use df1_check::Check;

/// Encodes the full-duplex frame of a body into a buffer. `count` becomes its number of bytes.
#[unsafe(no_mangle)]
pub extern "C" fn df1_spell(crc: bool, body: &[u8], into: &mut [u8], count: &mut usize) -> u32
    ensures code { length body.now ≤ 250 → result ≡ code_number (room_code (length (frame_of (check_of crc) body.now)) (length into.old)) }
    ensures bytes { length body.now ≤ 250 → into.new ≡ copied into.old (frame_of (check_of crc) body.now) }
    ensures count { length body.now ≤ 250 → count.new ≡ length (frame_of (check_of crc) body.now) }
    ensures most { length body.now ≤ 250 → count.new ≤ 506 }
    ensures long { 250 < length body.now → (result ≡ code_number code.LongBody) × (into.new ≡ into.old) × (count.new ≡ count.old) }
{
    spell(check_of(crc), body, into, count).number()
}

fn spell(check: Check, body: &[u8], into: &mut [u8], count: &mut usize) -> Code
    ensures code { length body.now ≤ 250 → result ≡ room_code (length (frame_of check body.now)) (length into.old) }
    ensures bytes { length body.now ≤ 250 → into.new ≡ copied into.old (frame_of check body.now) }
    ensures count { length body.now ≤ 250 → count.new ≡ length (frame_of check body.now) }
    ensures most { length body.now ≤ 250 → count.new ≤ 506 }
    ensures long { 250 < length body.now → (result ≡ code.LongBody) × (into.new ≡ into.old) × (count.new ≡ count.old) }
{
    if body.len() > MAX_BODY {
        return Code::LongBody;
    }
    copy(&frame_of(check, body), into, count)
}

/// Encodes a master's message to a station into a buffer. `count` becomes its number of bytes.
#[unsafe(no_mangle)]
pub extern "C" fn df1_spell_message(
    station: u8,
    crc: bool,
    body: &[u8],
    into: &mut [u8],
    count: &mut usize,
) -> u32
    ensures code { message_fault station body.now ≡ None → result ≡ code_number (room_code (length (message_bytes (check_of crc) station body.now)) (length into.old)) }
    ensures bytes { message_fault station body.now ≡ None → into.new ≡ copied into.old (message_bytes (check_of crc) station body.now) }
    ensures count { message_fault station body.now ≡ None → count.new ≡ length (message_bytes (check_of crc) station body.now) }
    ensures most { message_fault station body.now ≡ None → count.new ≤ 509 }
    ensures refused { IfSome (message_fault station body.now) (λ fault. (result ≡ code_number fault) × (into.new ≡ into.old) × (count.new ≡ count.old)) }
{
    if let Some(fault) = message_fault(station, body) {
        return fault.number();
    }
    copy(&message_of(check_of(crc), station, body), into, count).number()
}

/// Encodes a slave's message into a buffer. `count` becomes its number of bytes.
#[unsafe(no_mangle)]
pub extern "C" fn df1_spell_reply(crc: bool, body: &[u8], into: &mut [u8], count: &mut usize) -> u32
    ensures code { body_fault body.now ≡ None → result ≡ code_number (room_code (length (reply_bytes (check_of crc) body.now)) (length into.old)) }
    ensures bytes { body_fault body.now ≡ None → into.new ≡ copied into.old (reply_bytes (check_of crc) body.now) }
    ensures count { body_fault body.now ≡ None → count.new ≡ length (reply_bytes (check_of crc) body.now) }
    ensures most { body_fault body.now ≡ None → count.new ≤ 506 }
    ensures refused { IfSome (body_fault body.now) (λ fault. (result ≡ code_number fault) × (into.new ≡ into.old) × (count.new ≡ count.old)) }
{
    if let Some(fault) = body_fault(body) {
        return fault.number();
    }
    copy(&reply_of(check_of(crc), body), into, count).number()
}

/// Encodes a master's poll of a station into a buffer. `count` becomes its number of bytes.
#[unsafe(no_mangle)]
pub extern "C" fn df1_spell_poll(station: u8, into: &mut [u8], count: &mut usize) -> u32
    ensures code { number_fault station ≡ None → result ≡ code_number (room_code 4 (length into.old)) }
    ensures bytes { number_fault station ≡ None → into.new ≡ copied into.old (poll_bytes station) }
    ensures count { number_fault station ≡ None → count.new ≡ 4 }
    ensures refused { IfSome (number_fault station) (λ fault. (result ≡ code_number fault) × (into.new ≡ into.old) × (count.new ≡ count.old)) }
{
    if let Some(fault) = number_fault(station) {
        return fault.number();
    }
    copy(&poll_of(station), into, count).number()
}

/// Returns the fault of a master's message to a station.
fn message_fault(station: u8, body: &[u8]) -> Option<Code>
    ensures fault { result ≡ message_fault station body.now }
    ensures none { result ≡ None → (station ≢ 16) × (station ≢ 255) × (length body.now ≤ 250) }
{
    match number_fault(station) {
        Some(fault) => Some(fault),
        None => body_fault(body),
    }
}

/// Returns the fault of a body that is too long.
fn body_fault(body: &[u8]) -> Option<Code>
    ensures fault { result ≡ body_fault body.now }
    ensures none { result ≡ None → length body.now ≤ 250 }
{
    if body.len() > MAX_BODY {
        Some(Code::LongBody)
    } else {
        None
    }
}
