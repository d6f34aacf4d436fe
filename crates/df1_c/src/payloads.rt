//! The payloads of commands, as an end issues them: CMD and what follows TNS.

ghost use Rattle.std.specs.Prelude.{◌≡◌, ◌≤◌, ◌*◌, length, take, IfOk, min};
ghost use Rattle.std.specs.Result.{result_map_both};
ghost use Rattle.data_files.specs.WordBytes.{bytes_of};
ghost use Rattle.plc_commands.specs.Order.{Echo, Peek, Poke, Status};
ghost use Rattle.command_payloads.specs.Orders.{SpellsPlc};
ghost use Rattle.command_payloads.specs.Payloads.{status_payload};
ghost use Rattle.c_ends.specs.Code.{code_number};
ghost use Rattle.c_calls.specs.Copied.{copied, room_code};
ghost use Rattle.c_payloads.specs.Payloads.{IsBit, IsMasked, IsModify, IsRead, IsWrite, bit_told, echo_told, masked_told, modify_told, read_told, unprotected_read_told, unprotected_write_told, write_told};
ghost use Rattle.df1_c.specs.Payloads.{given_code, given_count, given_into};

use arrayvec::ArrayVec;
use c_calls::copy;
use c_ends::Code;
use c_payloads::{
    AddressParts, bit_payload, echo_payload, masked_payload, modify_payload, read_payload,
    status_payload, unprotected_read_payload, unprotected_write_payload, write_payload,
};

/// The number of words that stands for any larger one: no message has room for that many.
const MANY_WORDS: u32 = 65535;

/// Puts the payload that reads words from an address on, or elements by a typed command, into a buffer. `count` becomes
/// its number of bytes.
#[unsafe(no_mangle)]
pub extern "C" fn df1_payload_read(
    command: u32,
    address: &AddressParts,
    words: u32,
    into: &mut [u8],
    count: &mut usize,
) -> u32
    ensures code { result ≡ code_number (given_code (read_told command address.now (min words 65535)) (length into.old)) }
    ensures bytes { into.new ≡ given_into into.old (read_told command address.now (min words 65535)) }
    ensures count { count.new ≡ given_count count.old (read_told command address.now (min words 65535)) }
    ensures most { IfOk (read_told command address.now (min words 65535)) (λ _. count.new ≤ 245) }
    ensures spelled { IfOk (read_told command address.now (min words 65535)) (λ given. length given ≤ length into.old → IsRead command address.now (min words 65535) (take count.new into.new)) }
{
    let words = words.min(MANY_WORDS) as u16;
    give(read_payload(command, address, words), into, count)
}

/// Puts the payload that writes words from an address on into a buffer. `count` becomes its number of bytes.
#[unsafe(no_mangle)]
pub extern "C" fn df1_payload_write(
    command: u32,
    address: &AddressParts,
    words: &[u16],
    into: &mut [u8],
    count: &mut usize,
) -> u32
    ensures code { result ≡ code_number (given_code (write_told command address.now words.now) (length into.old)) }
    ensures bytes { into.new ≡ given_into into.old (write_told command address.now words.now) }
    ensures count { count.new ≡ given_count count.old (write_told command address.now words.now) }
    ensures most { IfOk (write_told command address.now words.now) (λ _. count.new ≤ 245) }
    ensures spelled { IfOk (write_told command address.now words.now) (λ given. length given ≤ length into.old → IsWrite command address.now words.now (take count.new into.new)) }
{
    give(write_payload(command, address, words), into, count)
}

/// Puts the payload that writes those bits of words that a mask names, from an address on, into a buffer. `count`
/// becomes its number of bytes.
#[unsafe(no_mangle)]
pub extern "C" fn df1_payload_masked(
    address: &AddressParts,
    mask: u16,
    words: &[u16],
    into: &mut [u8],
    count: &mut usize,
) -> u32
    ensures code { result ≡ code_number (given_code (masked_told address.now mask words.now) (length into.old)) }
    ensures bytes { into.new ≡ given_into into.old (masked_told address.now mask words.now) }
    ensures count { count.new ≡ given_count count.old (masked_told address.now mask words.now) }
    ensures most { IfOk (masked_told address.now mask words.now) (λ _. count.new ≤ 245) }
    ensures spelled { IfOk (masked_told address.now mask words.now) (λ given. length given ≤ length into.old → IsMasked address.now mask words.now (take count.new into.new)) }
{
    give(masked_payload(address, mask, words), into, count)
}

/// Puts the payload that makes a word its old value AND one mask, OR the other, into a buffer. `count` becomes its
/// number of bytes.
#[unsafe(no_mangle)]
pub extern "C" fn df1_payload_modify(
    address: &AddressParts,
    and_mask: u16,
    or_mask: u16,
    into: &mut [u8],
    count: &mut usize,
) -> u32
    ensures code { result ≡ code_number (given_code (modify_told address.now and_mask or_mask) (length into.old)) }
    ensures bytes { into.new ≡ given_into into.old (modify_told address.now and_mask or_mask) }
    ensures count { count.new ≡ given_count count.old (modify_told address.now and_mask or_mask) }
    ensures most { IfOk (modify_told address.now and_mask or_mask) (λ _. count.new ≤ 245) }
    ensures spelled { IfOk (modify_told address.now and_mask or_mask) (λ given. length given ≤ length into.old → IsModify address.now and_mask or_mask (take count.new into.new)) }
{
    give(modify_payload(address, and_mask, or_mask), into, count)
}

/// Puts the payload that sets or clears the bit of an address into a buffer. `count` becomes its number of bytes.
#[unsafe(no_mangle)]
pub extern "C" fn df1_payload_bit(
    address: &AddressParts,
    on: bool,
    into: &mut [u8],
    count: &mut usize,
) -> u32
    ensures code { result ≡ code_number (given_code (bit_told address.now on) (length into.old)) }
    ensures bytes { into.new ≡ given_into into.old (bit_told address.now on) }
    ensures count { count.new ≡ given_count count.old (bit_told address.now on) }
    ensures most { IfOk (bit_told address.now on) (λ _. count.new ≤ 245) }
    ensures spelled { IfOk (bit_told address.now on) (λ given. length given ≤ length into.old → IsBit address.now on (take count.new into.new)) }
{
    give(bit_payload(address, on), into, count)
}

/// Puts the payload of an echo of these bytes into a buffer. `count` becomes its number of bytes.
#[unsafe(no_mangle)]
pub extern "C" fn df1_payload_echo(bytes: &[u8], into: &mut [u8], count: &mut usize) -> u32
    ensures code { result ≡ code_number (given_code (echo_told bytes.now) (length into.old)) }
    ensures bytes { into.new ≡ given_into into.old (echo_told bytes.now) }
    ensures count { count.new ≡ given_count count.old (echo_told bytes.now) }
    ensures most { IfOk (echo_told bytes.now) (λ _. count.new ≤ 245) }
    ensures spelled { IfOk (echo_told bytes.now) (λ given. length given ≤ length into.old → SpellsPlc (Echo bytes.now) (take count.new into.new)) }
{
    give(echo_payload(bytes), into, count)
}

/// Puts the payload that reads words of the compatibility file of a station into a buffer. `count` becomes its number
/// of bytes.
#[unsafe(no_mangle)]
pub extern "C" fn df1_payload_unprotected_read(
    address: u16,
    words: u32,
    into: &mut [u8],
    count: &mut usize,
) -> u32
    ensures code { result ≡ code_number (given_code (unprotected_read_told address (min words 65535)) (length into.old)) }
    ensures bytes { into.new ≡ given_into into.old (unprotected_read_told address (min words 65535)) }
    ensures count { count.new ≡ given_count count.old (unprotected_read_told address (min words 65535)) }
    ensures most { IfOk (unprotected_read_told address (min words 65535)) (λ _. count.new ≤ 245) }
    ensures spelled { IfOk (unprotected_read_told address (min words 65535)) (λ given. length given ≤ length into.old → SpellsPlc (Peek address (2 * min words 65535)) (take count.new into.new)) }
{
    let words = words.min(MANY_WORDS) as u16;
    give(unprotected_read_payload(address, words), into, count)
}

/// Puts the payload that writes words to the compatibility file of a station into a buffer. `count` becomes its number
/// of bytes.
#[unsafe(no_mangle)]
pub extern "C" fn df1_payload_unprotected_write(
    address: u16,
    words: &[u16],
    into: &mut [u8],
    count: &mut usize,
) -> u32
    ensures code { result ≡ code_number (given_code (unprotected_write_told address words.now) (length into.old)) }
    ensures bytes { into.new ≡ given_into into.old (unprotected_write_told address words.now) }
    ensures count { count.new ≡ given_count count.old (unprotected_write_told address words.now) }
    ensures most { IfOk (unprotected_write_told address words.now) (λ _. count.new ≤ 245) }
    ensures spelled { IfOk (unprotected_write_told address words.now) (λ given. length given ≤ length into.old → SpellsPlc (Poke address (bytes_of words.now)) (take count.new into.new)) }
{
    give(unprotected_write_payload(address, words), into, count)
}

/// Puts the payload that requests the status of a station into a buffer. `count` becomes its number of bytes.
#[unsafe(no_mangle)]
pub extern "C" fn df1_payload_status(into: &mut [u8], count: &mut usize) -> u32
    ensures code { result ≡ code_number (room_code 2 (length into.old)) }
    ensures bytes { into.new ≡ copied into.old status_payload }
    ensures count { count.new ≡ 2 }
    ensures spelled { 2 ≤ length into.old → SpellsPlc Status (take 2 into.new) }
{
    copy(&status_payload(), into, count).number()
}

/// Copies a payload, or returns the reason why there is none.
fn give(payload: Result<ArrayVec<u8, 245>, Code>, into: &mut [u8], count: &mut usize) -> u32
    ensures code { result ≡ code_number (given_code (result_map_both (λ payload. payload.items) (λ code. code) payload) (length into.old)) }
    ensures bytes { into.new ≡ given_into into.old (result_map_both (λ payload. payload.items) (λ code. code) payload) }
    ensures count { count.new ≡ given_count count.old (result_map_both (λ payload. payload.items) (λ code. code) payload) }
    ensures most { IfOk payload (λ _. count.new ≤ 245) }
    ensures whole { IfOk payload (λ payload. length payload.items ≤ length into.old → take count.new into.new ≡ payload.items) }
{
    match payload {
        Ok(payload) => copy(&payload, into, count).number(),
        Err(fault) => fault.number(),
    }
}
