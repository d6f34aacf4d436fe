//! Lines, and beginnings of lines, of bounded length.
ghost use Rattle.std.specs.Prelude.{◌≡◌, ◌≤◌, ◌++◌, ◌+◌, length, decimal};
ghost use Rattle.arrayvec.specs.ArrayVec.{array_vec_len};
ghost use Rattle.replay_report.specs.Report.{who_text, word_text, word_digits, deceived_text};

use crate::digits::pair;
use arrayvec::ArrayVec;
use df1_base::append;
use script_parts::WordOf;
use script_statement::Who;

/// The space for a line of bounded length, in bytes.
pub(crate) const ROOM: usize = 64;

/// A text of at most `ROOM` bytes.
pub(crate) type Short = ArrayVec<u8, ROOM>;

/// Appends the name of an end and what is said of it to a text that has room for them.
pub(crate) fn append_said(line: &mut Short, who: Who, what: &[u8])
    requires { array_vec_len line.old + 3 + length what.now ≤ ROOM }
    ensures text { line.new.items ≡ line.old.items ++ who_text who ++ what.now }
    ensures size { array_vec_len line.new ≤ array_vec_len line.old + 3 + length what.now }
{
    append_name(line, who);
    append(line, what);
}

/// Appends a decimal number to a text that has room for it.
#[inline(never)]
pub(crate) fn append_number(line: &mut Short, n: u32)
    requires { array_vec_len line.old + 10 ≤ ROOM }
    ensures text { line.new.items ≡ line.old.items ++ decimal n }
    ensures size { array_vec_len line.new ≤ array_vec_len line.old + 10 }
{
    append(line, itoa::Buffer::new().format(n).as_bytes());
}

/// Returns the line of a word.
pub(crate) fn word_line(word: WordOf) -> Short
    ensures { result.items ≡ word_text word }
{
    let mut line = ArrayVec::new();
    let mut digits = itoa::Buffer::new();
    append_said(&mut line, word.who, b" word ");
    append(&mut line, digits.format(word.file).as_bytes());
    append(&mut line, b" ");
    append(&mut line, digits.format(word.index).as_bytes());
    append(&mut line, b" ");
    append_digits(&mut line, word.value);
    append(&mut line, b"\n");
    line
}

/// Returns the line of the count of deceptions.
pub(crate) fn deceived_line(count: u64) -> Short
    ensures { result.items ≡ deceived_text count }
{
    let mut line = ArrayVec::new();
    append(&mut line, b"deceived ");
    append(&mut line, itoa::Buffer::new().format(count).as_bytes());
    append(&mut line, b"\n");
    line
}

/// Appends the name of an end to a text that has room for it.
fn append_name(line: &mut Short, who: Who)
    requires { array_vec_len line.old + 3 ≤ ROOM }
    ensures text { line.new.items ≡ line.old.items ++ who_text who }
    ensures size { array_vec_len line.new ≤ array_vec_len line.old + 3 }
{
    match who {
        Who::A => line.push(b'a'),
        Who::B => line.push(b'b'),
        Who::M => line.push(b'm'),
        Who::S(station) => append_station(line, station),
    }
}

/// Appends the name of a station to a text that has room for it.
#[inline(never)]
fn append_station(line: &mut Short, station: u8)
    requires { array_vec_len line.old + 3 ≤ ROOM }
    ensures text { line.new.items ≡ line.old.items ++ decimal station }
    ensures size { array_vec_len line.new ≤ array_vec_len line.old + 3 }
{
    append(line, itoa::Buffer::new().format(station).as_bytes());
}

/// Appends the four digits of a word to a text that has room for them.
fn append_digits(line: &mut Short, value: u16)
    requires { array_vec_len line.old + 4 ≤ ROOM }
    ensures text { line.new.items ≡ line.old.items ++ word_digits value }
    ensures size { array_vec_len line.new ≡ array_vec_len line.old + 4 }
{
    append(line, &pair((value / 256) as u8));
    append(line, &pair((value % 256) as u8));
}
