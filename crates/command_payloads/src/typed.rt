//! Typed reads and writes of elements, with level addresses.
ghost use Rattle.std.specs.Prelude.{◌≡◌, ◌≤◌, ◌<◌, ◌++◌, [], length, unwrap_or, OnOk};
ghost use Rattle.arrayvec.specs.ArrayVec.{array_vec_len};
ghost use Rattle.logical_address.specs.Parameter.{written_array, written_element};
ghost use Rattle.data_files.specs.Words.{words_per_element};
ghost use Rattle.command_payloads.specs.Faults.{answer_of, reply_fault, unless};
ghost use Rattle.command_payloads.specs.Payloads.{typed_read_fault, typed_read_payload, typed_write_fault, typed_write_payload};
ghost use Rattle.command_payloads.specs.Orders.{SpellsPlc, typed_read_order, typed_write_order};

use crate::PayloadFault;
use crate::fault::{count_fault, element_fault};
use crate::pieces::{add_number, add_words, begin_range};
use arrayvec::ArrayVec;
use data_addresses::Address;
use df1_base::{FileType, MAX_DATA};
use logical_address::write_array;

/// FNC of a typed read.
const READ: u8 = 0x68;

/// FNC of a typed write.
const WRITE: u8 = 0x67;

/// Replaces `into` by the payload that reads `count` elements, at most 120 of one word or 59 floats, from an address on
/// (manual topic: commands, typed read). Otherwise, with `into` empty, returns the first of these that applies: the
/// file is a Timer, Counter or Control file, `NoType`; the address has a sub-element, `NoSub`; there is no element,
/// `NoData`; the reply has over 244 bytes of data, `TooMuchData`.
pub fn typed_read(
    at: &Address,
    count: u16,
    into: &mut ArrayVec<u8, 245>,
) -> Result<(), PayloadFault>
    ensures answer { result ≡ answer_of (typed_read_fault at.now count) }
    ensures bytes { into.new.items ≡ unless (typed_read_fault at.now count) (typed_read_payload at.now count) }
    ensures spelled { OnOk result (SpellsPlc (typed_read_order at.now count) into.new.items) }
{
    into.clear();
    if let Some(fault) = element_fault(at) {
        return Err(fault);
    }
    if let Some(fault) = reply_fault(at.kind, count) {
        return Err(fault);
    }
    begin_range(READ, count, at, into);
    add_number(count, into);
    Ok(())
}

/// Replaces `into` by the payload that writes elements with these words from an address on, as an array (manual topic:
/// commands, typed write). Otherwise, with `into` empty, returns the first of these that applies: the file is a Timer,
/// Counter or Control file, `NoType`; the address has a sub-element, `NoSub`; there is no word, `NoData`, or over 122,
/// `TooMuchData`; a float has only one word, `HalfElement`; the payload has over 245 bytes, `TooMuchData`.
pub fn typed_write(
    at: &Address,
    words: &[u16],
    into: &mut ArrayVec<u8, 245>,
) -> Result<(), PayloadFault>
    ensures answer { result ≡ answer_of (typed_write_fault at.now words.now) }
    ensures bytes { into.new.items ≡ unless (typed_write_fault at.now words.now) (typed_write_payload at.now words.now) }
    ensures spelled { OnOk result (SpellsPlc (typed_write_order at.now words.now) into.new.items) }
{
    into.clear();
    if let Some(fault) = element_fault(at) {
        return Err(fault);
    }
    if let Some(fault) = count_fault(words.len()) {
        return Err(fault);
    }
    let width = width(at.kind);
    if words.len() % width != 0 {
        return Err(PayloadFault::HalfElement);
    }
    let count = (words.len() / width) as u16;
    begin_range(WRITE, count, at, into);
    add_parameter(at.kind, count, into);
    add_words(words, into)
}

/// Returns the fault of a read of `count` elements: there is none, or the reply is too long.
fn reply_fault(kind: FileType, count: u16) -> Option<PayloadFault>
    ensures { result ≡ reply_fault kind count }
{
    if count == 0 {
        Some(PayloadFault::NoData)
    } else if 3 + parameter_len(kind) + 2 * (usize::from(count) * width(kind)) > MAX_DATA {
        Some(PayloadFault::TooMuchData)
    } else {
        None
    }
}

/// Returns the number of bytes of the parameter of an element.
fn parameter_len(kind: FileType) -> usize
    ensures { result ≡ length (written_element kind) }
{
    match kind {
        FileType::Status | FileType::Bit | FileType::Integer => 1,
        FileType::Timer | FileType::Counter | FileType::Control => 0,
        FileType::Float => 2,
    }
}

/// Returns the number of words of an element.
fn width(kind: FileType) -> usize
    ensures words { result ≡ words_per_element kind }
    ensures some { 0 < result }
    ensures few { result ≤ 3 }
{
    match kind {
        FileType::Status | FileType::Bit | FileType::Integer => 1,
        FileType::Timer | FileType::Counter | FileType::Control => 3,
        FileType::Float => 2,
    }
}

/// Adds the parameter of an array of `count` elements.
fn add_parameter(kind: FileType, count: u16, into: &mut ArrayVec<u8, 245>)
    requires { array_vec_len into.old ≤ 22 }
    ensures { into.new.items ≡ into.old.items ++ unwrap_or (written_array kind count) [] }
{
    let mut array = ArrayVec::new();
    write_array(kind, count, &mut array);
    into.try_extend_from_slice(&array).unwrap();
}
