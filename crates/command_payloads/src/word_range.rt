//! Word range reads and writes, with level addresses.
ghost use Rattle.std.specs.Prelude.{◌≡◌, OnOk};
ghost use Rattle.command_payloads.specs.Faults.{answer_of, count_fault, unless};
ghost use Rattle.command_payloads.specs.Payloads.{word_range_read_payload, word_range_write_fault, word_range_write_payload};
ghost use Rattle.command_payloads.specs.Orders.{SpellsPlc, word_range_read_order, word_range_write_order};

use crate::PayloadFault;
use crate::fault::count_fault;
use crate::pieces::{add_words, begin_range};
use arrayvec::ArrayVec;
use data_addresses::Address;

/// FNC of a word range read.
const READ: u8 = 0x01;

/// FNC of a word range write.
const WRITE: u8 = 0x00;

/// Replaces `into` by the payload that reads `count` words, 1 to 122, from an address on (manual topic: commands, word
/// range read). With `into` empty, returns `NoData` exactly for no word, and `TooMuchData` exactly for over 122.
pub fn word_range_read(
    at: &Address,
    count: u16,
    into: &mut ArrayVec<u8, 245>,
) -> Result<(), PayloadFault>
    ensures answer { result ≡ answer_of (count_fault count) }
    ensures bytes { into.new.items ≡ unless (count_fault count) (word_range_read_payload at.now count) }
    ensures spelled { OnOk result (SpellsPlc (word_range_read_order at.now count) into.new.items) }
{
    into.clear();
    if let Some(fault) = count_fault(usize::from(count)) {
        return Err(fault);
    }
    begin_range(READ, count, at, into);
    into.push((2 * count) as u8);
    Ok(())
}

/// Replaces `into` by the payload that writes words from an address on (manual topic: commands, word range write). With
/// `into` empty, returns `NoData` exactly for no word, and `TooMuchData` exactly for over 122, or for a payload of over
/// 245 bytes.
pub fn word_range_write(
    at: &Address,
    words: &[u16],
    into: &mut ArrayVec<u8, 245>,
) -> Result<(), PayloadFault>
    ensures answer { result ≡ answer_of (word_range_write_fault at.now words.now) }
    ensures bytes { into.new.items ≡ unless (word_range_write_fault at.now words.now) (word_range_write_payload at.now words.now) }
    ensures spelled { OnOk result (SpellsPlc (word_range_write_order at.now words.now) into.new.items) }
{
    into.clear();
    if let Some(fault) = count_fault(words.len()) {
        return Err(fault);
    }
    begin_range(WRITE, words.len() as u16, at, into);
    add_words(words, into)
}
