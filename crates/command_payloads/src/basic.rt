//! The commands that every station executes, and unprotected reads and writes of the compatibility file.
ghost use Rattle.std.specs.Prelude.{◌≡◌, ◌*◌, OnOk};
ghost use Rattle.plc_commands.specs.Order.{Echo, Peek, Poke, Status};
ghost use Rattle.data_files.specs.WordBytes.{bytes_of};
ghost use Rattle.command_payloads.specs.Faults.{answer_of, count_fault, unless};
ghost use Rattle.command_payloads.specs.Payloads.{echo_fault, echo_payload, status_payload, unprotected_read_payload, unprotected_write_fault, unprotected_write_payload};
ghost use Rattle.command_payloads.specs.Orders.{SpellsPlc};

use crate::PayloadFault;
use crate::fault::count_fault;
use crate::pieces::{add_number, add_words};
use arrayvec::ArrayVec;

/// CMD of an echo and of a status command.
const BASIC: u8 = 0x06;

/// FNC of an echo.
const ECHO: u8 = 0x00;

/// FNC of a status command.
const STATUS: u8 = 0x03;

/// CMD of an unprotected read.
const READ: u8 = 0x01;

/// CMD of an unprotected write.
const WRITE: u8 = 0x08;

/// The maximum number of bytes of an echo.
const MOST_ECHO: usize = 243;

/// Replaces `into` by the payload of an echo of these bytes, at most 243 (manual topic: commands, echo). Returns
/// `TooMuchData`, with `into` empty, exactly for more.
pub fn echo(bytes: &[u8], into: &mut ArrayVec<u8, 245>) -> Result<(), PayloadFault>
    ensures answer { result ≡ answer_of (echo_fault bytes.now) }
    ensures bytes { into.new.items ≡ unless (echo_fault bytes.now) (echo_payload bytes.now) }
    ensures spelled { OnOk result (SpellsPlc (Echo bytes.now) into.new.items) }
{
    into.clear();
    if bytes.len() > MOST_ECHO {
        return Err(PayloadFault::TooMuchData);
    }
    into.push(BASIC);
    into.push(ECHO);
    into.try_extend_from_slice(bytes).unwrap();
    Ok(())
}

/// Replaces `into` by the payload that requests the status of a station (manual topic: commands, diagnostic status).
pub fn station_status(into: &mut ArrayVec<u8, 245>)
    ensures bytes { into.new.items ≡ status_payload }
    ensures spelled { SpellsPlc Status into.new.items }
{
    into.clear();
    into.push(BASIC);
    into.push(STATUS);
}

/// Replaces `into` by the payload that reads `count` words, 1 to 122, of the compatibility file from a byte address on,
/// which a station requires to be even (manual topic: commands, unprotected read). With `into` empty, returns `NoData`
/// exactly for no word, and `TooMuchData` exactly for over 122.
pub fn unprotected_read(
    address: u16,
    count: u16,
    into: &mut ArrayVec<u8, 245>,
) -> Result<(), PayloadFault>
    ensures answer { result ≡ answer_of (count_fault count) }
    ensures bytes { into.new.items ≡ unless (count_fault count) (unprotected_read_payload address count) }
    ensures spelled { OnOk result (SpellsPlc (Peek address (2 * count)) into.new.items) }
{
    into.clear();
    if let Some(fault) = count_fault(usize::from(count)) {
        return Err(fault);
    }
    into.push(READ);
    add_number(address, into);
    into.push((2 * count) as u8);
    Ok(())
}

/// Replaces `into` by the payload that writes words to the compatibility file from a byte address on, which a station
/// requires to be even (manual topic: commands, unprotected write). With `into` empty, returns `NoData` exactly for no
/// word, and `TooMuchData` exactly for over 121.
pub fn unprotected_write(
    address: u16,
    words: &[u16],
    into: &mut ArrayVec<u8, 245>,
) -> Result<(), PayloadFault>
    ensures answer { result ≡ answer_of (unprotected_write_fault address words.now) }
    ensures bytes { into.new.items ≡ unless (unprotected_write_fault address words.now) (unprotected_write_payload address words.now) }
    ensures spelled { OnOk result (SpellsPlc (Poke address (bytes_of words.now)) into.new.items) }
{
    into.clear();
    if let Some(fault) = count_fault(words.len()) {
        return Err(fault);
    }
    into.push(WRITE);
    add_number(address, into);
    add_words(words, into)
}
