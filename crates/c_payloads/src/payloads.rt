//! The payload of each call, or the code of the first fault.

ghost use Rattle.std.specs.Prelude.{◌≡◌, ◌*◌, IfOk};
ghost use Rattle.std.specs.Result.{result_map_both};
ghost use Rattle.data_files.specs.WordBytes.{bytes_of};
ghost use Rattle.plc_commands.specs.Order.{Echo, Peek, Poke, Status};
ghost use Rattle.command_payloads.specs.Orders.{SpellsPlc};
ghost use Rattle.command_payloads.specs.Payloads as bytes;
ghost use Rattle.c_payloads.specs.Payloads.{IsBit, IsMasked, IsModify, IsRead, IsWrite, bit_told, echo_told, masked_told, modify_told, read_told, unprotected_read_told, unprotected_write_told, write_told};

use crate::commands::{add_read, add_write, command_of};
use crate::faults::payload_code;
use crate::parts::{AddressParts, address_in};
use arrayvec::ArrayVec;
use c_ends::Code;
use command_payloads::{
    bit_write, echo, masked_write, read_modify_write, station_status, unprotected_read,
    unprotected_write,
};

/// Returns the payload that reads `count` words, 1 to 122, from an address on, or `count` elements by a typed command
/// (manual topic: commands). Otherwise returns the first of these that applies: `BadCommand`, `BadType`, the fault of
/// the payload.
pub fn read_payload(command: u32, at: &AddressParts, count: u16) -> Result<ArrayVec<u8, 245>, Code>
    ensures told { result_map_both (λ payload. payload.items) (λ code. code) result ≡ read_told command at.now count }
    ensures spelled { IfOk result (λ payload. IsRead command at.now count payload.items) }
{
    let Some(command) = command_of(command) else {
        return Err(Code::BadCommand);
    };
    let Some(place) = address_in(at) else {
        return Err(Code::BadType);
    };
    let mut payload = ArrayVec::new();
    match add_read(command, &place, count, &mut payload) {
        Ok(()) => Ok(payload),
        Err(fault) => Err(payload_code(fault)),
    }
}

/// Returns the payload that writes words from an address on, as many as fit in a message (manual topic: commands).
/// Otherwise returns the first of these that applies: `BadCommand`, `BadType`, the fault of the payload.
pub fn write_payload(
    command: u32,
    at: &AddressParts,
    words: &[u16],
) -> Result<ArrayVec<u8, 245>, Code>
    ensures told { result_map_both (λ payload. payload.items) (λ code. code) result ≡ write_told command at.now words.now }
    ensures spelled { IfOk result (λ payload. IsWrite command at.now words.now payload.items) }
{
    let Some(command) = command_of(command) else {
        return Err(Code::BadCommand);
    };
    let Some(place) = address_in(at) else {
        return Err(Code::BadType);
    };
    let mut payload = ArrayVec::new();
    match add_write(command, &place, words, &mut payload) {
        Ok(()) => Ok(payload),
        Err(fault) => Err(payload_code(fault)),
    }
}

/// Returns the payload that writes those bits of words that a mask names, from an address on (manual topic: commands,
/// protected typed logical write with mask). Otherwise returns the first of these that applies: `BadType`, `NoData`,
/// `TooMuchData`.
pub fn masked_payload(
    at: &AddressParts,
    mask: u16,
    words: &[u16],
) -> Result<ArrayVec<u8, 245>, Code>
    ensures told { result_map_both (λ payload. payload.items) (λ code. code) result ≡ masked_told at.now mask words.now }
    ensures spelled { IfOk result (λ payload. IsMasked at.now mask words.now payload.items) }
{
    let Some(place) = address_in(at) else {
        return Err(Code::BadType);
    };
    let mut payload = ArrayVec::new();
    match masked_write(&place, mask, words, &mut payload) {
        Ok(()) => Ok(payload),
        Err(fault) => Err(payload_code(fault)),
    }
}

/// Returns the payload that makes a word its old value AND one mask, OR the other (manual topic: commands,
/// read-modify-write), or `BadType`. The bit of the address is ignored.
pub fn modify_payload(at: &AddressParts, and: u16, or: u16) -> Result<ArrayVec<u8, 245>, Code>
    ensures told { result_map_both (λ payload. payload.items) (λ code. code) result ≡ modify_told at.now and or }
    ensures spelled { IfOk result (λ payload. IsModify at.now and or payload.items) }
{
    let Some(place) = address_in(at) else {
        return Err(Code::BadType);
    };
    let mut payload = ArrayVec::new();
    read_modify_write(&place, and, or, &mut payload);
    Ok(payload)
}

/// Returns the payload that sets or clears the bit of an address and leaves the other bits of the word unchanged
/// (manual topic: commands, read-modify-write). Otherwise returns the first of these that applies: `BadType`; `NoBit`
/// if the address has no bit, or one over 15.
pub fn bit_payload(at: &AddressParts, on: bool) -> Result<ArrayVec<u8, 245>, Code>
    ensures told { result_map_both (λ payload. payload.items) (λ code. code) result ≡ bit_told at.now on }
    ensures spelled { IfOk result (λ payload. IsBit at.now on payload.items) }
{
    let Some(place) = address_in(at) else {
        return Err(Code::BadType);
    };
    let mut payload = ArrayVec::new();
    match bit_write(&place, on, &mut payload) {
        Ok(()) => Ok(payload),
        Err(fault) => Err(payload_code(fault)),
    }
}

/// Returns the payload of an echo of these bytes, at most 243 (manual topic: commands, echo), otherwise `TooMuchData`.
pub fn echo_payload(bytes: &[u8]) -> Result<ArrayVec<u8, 245>, Code>
    ensures told { result_map_both (λ payload. payload.items) (λ code. code) result ≡ echo_told bytes.now }
    ensures spelled { IfOk result (λ payload. SpellsPlc (Echo bytes.now) payload.items) }
{
    let mut payload = ArrayVec::new();
    match echo(bytes, &mut payload) {
        Ok(()) => Ok(payload),
        Err(fault) => Err(payload_code(fault)),
    }
}

/// Returns the payload that reads `count` words, 1 to 122, of a station's compatibility file from a byte address on,
/// which the station requires to be even (manual topic: commands, unprotected read). Otherwise returns `NoData` or
/// `TooMuchData`.
pub fn unprotected_read_payload(address: u16, count: u16) -> Result<ArrayVec<u8, 245>, Code>
    ensures told { result_map_both (λ payload. payload.items) (λ code. code) result ≡ unprotected_read_told address count }
    ensures spelled { IfOk result (λ payload. SpellsPlc (Peek address (2 * count)) payload.items) }
{
    let mut payload = ArrayVec::new();
    match unprotected_read(address, count, &mut payload) {
        Ok(()) => Ok(payload),
        Err(fault) => Err(payload_code(fault)),
    }
}

/// Returns the payload that writes words, 1 to 121, to a station's compatibility file from a byte address on, which the
/// station requires to be even (manual topic: commands, unprotected write). Otherwise returns `NoData` or
/// `TooMuchData`.
pub fn unprotected_write_payload(address: u16, words: &[u16]) -> Result<ArrayVec<u8, 245>, Code>
    ensures told { result_map_both (λ payload. payload.items) (λ code. code) result ≡ unprotected_write_told address words.now }
    ensures spelled { IfOk result (λ payload. SpellsPlc (Poke address (bytes_of words.now)) payload.items) }
{
    let mut payload = ArrayVec::new();
    match unprotected_write(address, words, &mut payload) {
        Ok(()) => Ok(payload),
        Err(fault) => Err(payload_code(fault)),
    }
}

/// Returns the payload that requests the status of a station (manual topic: commands, diagnostic status).
pub fn status_payload() -> ArrayVec<u8, 245>
    ensures bytes { result.items ≡ bytes.status_payload }
    ensures spelled { SpellsPlc Status result.items }
{
    let mut payload = ArrayVec::new();
    station_status(&mut payload);
    payload
}
