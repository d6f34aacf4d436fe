//! Read-modify-writes of one word, with a level address.
ghost use Rattle.std.specs.Prelude.{◌≡◌, IfSome, OnOk};
ghost use Rattle.command_payloads.specs.Faults.{answer_of, unless};
ghost use Rattle.command_payloads.specs.Payloads.{bit_fault, bit_write_payload, read_modify_write_payload};
ghost use Rattle.command_payloads.specs.Orders.{SpellsPlc, bit_order, read_modify_write_order};

use crate::PayloadFault;
use crate::pieces::{CMD, add_levels, add_number};
use arrayvec::ArrayVec;
use data_addresses::Address;

/// FNC of a read-modify-write.
const FNC: u8 = 0x26;

/// The highest bit of a word.
const MOST_BIT: u8 = 15;

/// Replaces `into` by the payload that makes a word its old value AND one mask, OR the other (manual topic: commands,
/// read-modify-write). The bit of the address is ignored.
pub fn read_modify_write(at: &Address, and: u16, or: u16, into: &mut ArrayVec<u8, 245>)
    ensures bytes { into.new.items ≡ read_modify_write_payload at.now and or }
    ensures spelled { SpellsPlc (read_modify_write_order at.now and or) into.new.items }
{
    into.clear();
    into.push(CMD);
    into.push(FNC);
    add_levels(at, into);
    add_number(and, into);
    add_number(or, into);
}

/// Replaces `into` by the payload that sets or clears the bit of an address and leaves the other bits of the word
/// unchanged (manual topic: commands, read-modify-write). Returns `NoBit`, with `into` empty, exactly if the address
/// has no bit, or one over 15.
pub fn bit_write(at: &Address, on: bool, into: &mut ArrayVec<u8, 245>) -> Result<(), PayloadFault>
    ensures answer { result ≡ answer_of (bit_fault at.now.bit) }
    ensures bytes { into.new.items ≡ unless (bit_fault at.now.bit) (bit_write_payload at.now at.now.bit on) }
    ensures spelled { OnOk result (IfSome at.now.bit (λ bit. SpellsPlc (bit_order at.now bit on) into.new.items)) }
{
    into.clear();
    match at.bit {
        Some(bit) if bit <= MOST_BIT => {
            let mask = 1u16 << bit;
            read_modify_write(at, !mask, if on { mask } else { 0 }, into);
            Ok(())
        }
        _ => Err(PayloadFault::NoBit),
    }
}
