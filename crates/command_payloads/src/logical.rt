//! Logical reads and writes, with an address of two or three fields and the type of the file.
ghost use Rattle.std.specs.Prelude.{◌≡◌, OnOk, MatchOption, ⊤, false};
ghost use Rattle.command_payloads.specs.Faults.{answer_of, unless};
ghost use Rattle.command_payloads.specs.Payloads.{fields_fault, logical_read_fault, logical_read_payload, logical_write_fault, logical_write_payload, masked_write_fault, masked_write_payload, read_function, write_function};
ghost use Rattle.command_payloads.specs.Orders.{SpellsSlc, logical_read_order, logical_write_order, masked_write_order};

use crate::PayloadFault;
use crate::fault::{count_fault, sub_fault};
use crate::pieces::{add_number, add_words, begin_logical};
use arrayvec::ArrayVec;
use data_addresses::Address;

/// FNC of a masked write.
const MASKED: u8 = 0xAB;

/// Replaces `into` by the payload that reads `count` words, 1 to 122, from an address on (manual topic: commands,
/// protected typed logical read). The address has three fields if `with_sub`, and two if not. Otherwise, with `into`
/// empty, returns the first of these that applies: two fields and a sub-element, `NoSub`; no word, `NoData`; over 122,
/// `TooMuchData`.
pub fn logical_read(
    with_sub: bool,
    at: &Address,
    count: u16,
    into: &mut ArrayVec<u8, 245>,
) -> Result<(), PayloadFault>
    ensures answer { result ≡ answer_of (logical_read_fault with_sub at.now count) }
    ensures bytes { into.new.items ≡ unless (logical_read_fault with_sub at.now count) (logical_read_payload with_sub at.now count) }
    ensures spelled { OnOk result (SpellsSlc (logical_read_order with_sub at.now count) into.new.items) }
{
    into.clear();
    if let Some(fault) = fields_fault(with_sub, at) {
        return Err(fault);
    }
    if let Some(fault) = count_fault(usize::from(count)) {
        return Err(fault);
    }
    begin_logical(read_function(with_sub), with_sub, at, count, into);
    Ok(())
}

/// Replaces `into` by the payload that writes words from an address on (manual topic: commands, protected typed logical
/// write). The address has three fields if `with_sub`, and two if not. Otherwise, with `into` empty, returns the first
/// of these that applies: two fields and a sub-element, `NoSub`; no word, `NoData`; over 122, or a payload of over 245
/// bytes, `TooMuchData`.
pub fn logical_write(
    with_sub: bool,
    at: &Address,
    words: &[u16],
    into: &mut ArrayVec<u8, 245>,
) -> Result<(), PayloadFault>
    ensures answer { result ≡ answer_of (logical_write_fault with_sub at.now words.now) }
    ensures bytes { into.new.items ≡ unless (logical_write_fault with_sub at.now words.now) (logical_write_payload with_sub at.now words.now) }
    ensures spelled { OnOk result (SpellsSlc (logical_write_order with_sub at.now words.now) into.new.items) }
{
    into.clear();
    if let Some(fault) = fields_fault(with_sub, at) {
        return Err(fault);
    }
    if let Some(fault) = count_fault(words.len()) {
        return Err(fault);
    }
    let count = words.len() as u16;
    begin_logical(write_function(with_sub), with_sub, at, count, into);
    add_words(words, into)
}

/// Replaces `into` by the payload that writes those bits of words that a mask names, from an address of three fields on
/// (manual topic: commands, protected typed logical write with mask). Each bit of a word becomes the new one if the bit
/// of the mask is set, and keeps its old value if it is clear. With `into` empty, returns `NoData` exactly for no word,
/// and `TooMuchData` exactly for over 122, or for a payload of over 245 bytes.
pub fn masked_write(
    at: &Address,
    mask: u16,
    words: &[u16],
    into: &mut ArrayVec<u8, 245>,
) -> Result<(), PayloadFault>
    ensures answer { result ≡ answer_of (masked_write_fault at.now mask words.now) }
    ensures bytes { into.new.items ≡ unless (masked_write_fault at.now mask words.now) (masked_write_payload at.now mask words.now) }
    ensures spelled { OnOk result (SpellsSlc (masked_write_order at.now mask words.now) into.new.items) }
{
    into.clear();
    if let Some(fault) = count_fault(words.len()) {
        return Err(fault);
    }
    begin_logical(MASKED, true, at, words.len() as u16, into);
    add_number(mask, into);
    add_words(words, into)
}

/// Returns the fault of a sub-element that an address of two fields can't encode.
fn fields_fault(with_sub: bool, at: &Address) -> Option<PayloadFault>
    ensures fault { result ≡ fields_fault with_sub at.now }
    ensures fits { MatchOption result (with_sub ≡ false → at.now.sub ≡ 0) (λ _. ⊤) }
{
    if with_sub { None } else { sub_fault(at) }
}

/// Returns FNC of a read.
fn read_function(with_sub: bool) -> u8
    ensures { result ≡ read_function with_sub }
{
    if with_sub { 0xA2 } else { 0xA1 }
}

/// Returns FNC of a write.
fn write_function(with_sub: bool) -> u8
    ensures { result ≡ write_function with_sub }
{
    if with_sub { 0xAA } else { 0xA9 }
}
