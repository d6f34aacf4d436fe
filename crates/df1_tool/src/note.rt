//! The text of a note: at most 251 bytes.
ghost use Rattle.std.specs.Prelude.{◌≡◌, ◌+◌, ◌≤◌, ◌++◌, decimal, length};
ghost use Rattle.df1_tool.specs.Notes.{input_failed as the_input, output_failed as the_output, input_too_long as the_size, no_memory as the_want};

use arrayvec::ArrayVec;
use df1_base::append;

/// The buffer size for a note, in bytes.
const NOTE: usize = 251;

/// A note, or the beginning of one.
pub(crate) type Note = ArrayVec<u8, NOTE>;

/// Returns a note of these bytes.
pub(crate) fn noted(text: &[u8]) -> Note
    requires { length text.now ≤ NOTE }
    ensures { result.items ≡ text.now }
{
    let mut note = ArrayVec::new();
    append(&mut note, text);
    note
}

/// Returns the note of an input that failed.
pub(crate) fn input_failed() -> Note
    ensures { result.items ≡ the_input }
{
    noted(b"df1: input cannot be read\n")
}

/// Returns the note of an output that failed.
pub(crate) fn output_failed() -> Note
    ensures { result.items ≡ the_output }
{
    noted(b"df1: output cannot be written\n")
}

/// Returns the note of an input that is over its limit.
pub(crate) fn input_too_long() -> Note
    ensures { result.items ≡ the_size }
{
    noted(b"df1: input is over 268435456 bytes\n")
}

/// Returns the note of want of memory.
pub(crate) fn no_memory() -> Note
    ensures { result.items ≡ the_want }
{
    noted(b"df1: no memory\n")
}

/// Returns a note of a text, a number and a text.
pub(crate) fn with_number(before: &[u8], number: u64, after: &[u8]) -> Note
    requires before { length before.now ≤ 32 }
    requires after { length after.now ≤ 32 }
    ensures { result.items ≡ before.now ++ decimal number ++ after.now }
{
    let mut note = noted(before);
    let mut digits = itoa::Buffer::new();
    append(&mut note, digits.format(number).as_bytes());
    append(&mut note, after);
    note
}
