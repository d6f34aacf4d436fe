//! The commands that read and write words of data files.

ghost use Rattle.std.specs.Prelude.{◌≡◌, OnOk};
ghost use Rattle.command_payloads.specs.Faults.{answer_of, unless};
ghost use Rattle.c_payloads.specs.Commands.{SpellsRead, SpellsWrite, command_of, read_bytes, read_fault, write_bytes, write_fault};

use arrayvec::ArrayVec;
use command_payloads::{
    PayloadFault, logical_read, logical_write, typed_read, typed_write, word_range_read,
    word_range_write,
};
use data_addresses::Address;

/// A command that reads or writes words of a data file.
#[derive(Clone, Copy, Debug, PartialEq, Eq)]
pub enum Command {
    /// Word range read and write.
    WordRange,
    /// Typed read and write.
    Typed,
    /// Logical read and write whose address has two fields.
    Logical2,
    /// Logical read and write whose address has three fields.
    Logical3,
}

/// Returns the command of a number, and None exactly if there is no such command.
pub(crate) fn command_of(number: u32) -> Option<Command>
    ensures { result ≡ command_of number }
{
    match number {
        0 => Some(Command::WordRange),
        1 => Some(Command::Typed),
        2 => Some(Command::Logical2),
        3 => Some(Command::Logical3),
        _ => None,
    }
}

/// Replaces `into` by the payload that reads `count` words from an address on, or `count` elements by a typed command.
/// After a fault `into` is empty.
pub(crate) fn add_read(
    command: Command,
    at: &Address,
    count: u16,
    into: &mut ArrayVec<u8, 245>,
) -> Result<(), PayloadFault>
    ensures answer { result ≡ answer_of (read_fault command at.now count) }
    ensures bytes { into.new.items ≡ unless (read_fault command at.now count) (read_bytes command at.now count) }
    ensures spelled { OnOk result (SpellsRead command at.now count into.new.items) }
{
    match command {
        Command::WordRange => word_range_read(at, count, into),
        Command::Typed => typed_read(at, count, into),
        Command::Logical2 => logical_read(false, at, count, into),
        Command::Logical3 => logical_read(true, at, count, into),
    }
}

/// Replaces `into` by the payload that writes words from an address on. After a fault `into` is empty.
pub(crate) fn add_write(
    command: Command,
    at: &Address,
    words: &[u16],
    into: &mut ArrayVec<u8, 245>,
) -> Result<(), PayloadFault>
    ensures answer { result ≡ answer_of (write_fault command at.now words.now) }
    ensures bytes { into.new.items ≡ unless (write_fault command at.now words.now) (write_bytes command at.now words.now) }
    ensures spelled { OnOk result (SpellsWrite command at.now words.now into.new.items) }
{
    match command {
        Command::WordRange => word_range_write(at, words, into),
        Command::Typed => typed_write(at, words, into),
        Command::Logical2 => logical_write(false, at, words, into),
        Command::Logical3 => logical_write(true, at, words, into),
    }
}
