//! The lines of a dissection, of at most 700 bytes each. A line is appended to text that has room for it.
//!
//! | Kind | Line, after the offsets of its first and last byte |
//! |---|---|
//! | a good message | `good FIELDS`; of the master's, `message SS FIELDS` |
//! | a frame with a short body, or a wrong check | `short BODY`, `bad-check BODY` |
//! | a frame with a long body | `long` |
//! | a frame that was broken off or cut off | `broken CC`, `restart` |
//! | a half-duplex message that is invalid | `damaged`; of the master's, `damaged SS` |
//! | a poll | `poll SS`, `bad-poll` |
//! | a pair with a meaning | `ack`, `nak`, `reset`, `enq`, `eot` |
//! | another byte or pair | `stray BB`, `stray-pair CC` |
//! | an item that is unfinished at the end | `open` |
//!
//! SS, CC and BB are two hexadecimal digits; BODY is hexadecimal, or `-` if it is empty.
ghost use Rattle.std.specs.Prelude.{◌≡◌, ◌≤◌, ◌<◌, ◌+◌, ◌*◌, ◌/◌, ◌%◌, ◌++◌, ◌∷◌, [], ℕ, decimal, length, slice_index, slice_set};
ghost use Rattle.arrayvec.specs.ArrayVec.{array_vec_len};
ghost use Rattle.hex.specs.Hex.{encode_upper, upper_digits};
ghost use Rattle.df1_dissect.specs.Lines.{bytes_text, byte_digits, kind_text, line_text, offsets_text, open_line};
ghost use Rattle.df1_dissect.specs.Dissection.{stray_line, stray_lines};
ghost use Rattle.df1_dissect.specs.Step.{with_body};

use crate::fields::append_fields;
use crate::kind::Kind;
use crate::reader::Thing;
use arrayvec::ArrayVec;
use df1_base::{MAX_BODY, append};
use itoa::write_digits;

/// The buffer size for a line, in bytes: two digits for each byte of a body, the offsets and the fields' names.
pub(crate) const ROOM: usize = 700;

/// The buffer size for two offsets, each followed by a space.
const OFFSETS: usize = 42;

/// The line of a byte outside, without its offsets, of at most nine digits each, and the digits of the byte.
const STRAY: [u8; 29] = *b"                    stray 00\n";

/// The place in that line behind the last offset.
const LAST: usize = 19;

/// The hexadecimal digits, by value.
static DIGITS: [u8; 16] = *b"0123456789ABCDEF";

/// Appends the line of a thing with a body of at most 250 bytes.
pub(crate) fn append_line<const N: usize>(text: &mut ArrayVec<u8, N>, thing: Thing, body: &[u8])
    requires room { array_vec_len text.old + 700 ≤ N }
    requires body { length body.now ≤ MAX_BODY }
    ensures { text.new.items ≡ text.old.items ++ line_text (with_body thing body.now) }
{
    append_offsets(text, thing.first, thing.last);
    append_kind(text, thing.kind, body);
    append(text, b"\n");
}

/// Appends the lines of bytes outside, the first of which is at this offset. Their offsets differ only in the last
/// digit, so a line is put together once, in an array from its end, and the digits that differ are changed in it.
pub(crate) fn append_strays<const N: usize>(text: &mut ArrayVec<u8, N>, at: u64, bytes: &[u8])
    requires room { array_vec_len text.old + 700 ≤ N }
    requires two { 10 ≤ at }
    requires few { at + length bytes.now ≤ 268435456 }
    requires ten { at % 10 + length bytes.now ≤ 10 }
    ensures { text.new.items ≡ text.old.items ++ stray_lines at bytes.now }
{
    let mut line = STRAY;
    let second = write_digits(at, &mut line, LAST);
    let start = write_digits(at, &mut line, second - 1);
    let mut one = b'0' + (at % 10) as u8;
    for byte in bytes {
        set_stray(&mut line, second - 2, one, *byte);
        append(text, &line[start..]);
        one += 1;
    }
}

/// Changes the line of a byte outside: the last digit of the first offset, which is at `first`, that of the last one,
/// and the byte.
fn set_stray(line: &mut [u8; 29], first: usize, one: u8, byte: u8)
    requires { first < 17 }
    ensures { line.new ≡ slice_set (slice_set (slice_set (slice_set line.old first one) 18 one) 26 (slice_index upper_digits (byte / 16))) 27 (slice_index upper_digits (byte % 16)) }
{
    line[first] = one;
    line[LAST - 1] = one;
    line[LAST + 7] = high_digit(byte);
    line[LAST + 8] = low_digit(byte);
}

/// Appends the line of an item that is unfinished.
pub(crate) fn append_open_line<const N: usize>(text: &mut ArrayVec<u8, N>, first: u64, last: u64)
    requires { array_vec_len text.old + 700 ≤ N }
    ensures { text.new.items ≡ text.old.items ++ open_line first last }
{
    append_offsets(text, first, last);
    append(text, b"open\n");
}

/// Appends the beginning of a line. It is put together in an array of spaces, from the end, and appended at once.
fn append_offsets<const N: usize>(text: &mut ArrayVec<u8, N>, first: u64, last: u64)
    requires { array_vec_len text.old + 42 ≤ N }
    ensures text { text.new.items ≡ text.old.items ++ offsets_text first last }
    ensures size { array_vec_len text.new ≤ array_vec_len text.old + 42 }
{
    let mut both = [b' '; OFFSETS];
    let second = write_digits(last, &mut both, OFFSETS - 1);
    let start = write_digits(first, &mut both, second - 1);
    append(text, &both[start..]);
}

/// Appends the text of a thing of this kind.
#[tactic(auto, unfolding(crate::specs::Lines::kind_text))]
fn append_kind<const N: usize>(text: &mut ArrayVec<u8, N>, kind: Kind, body: &[u8])
    requires room { array_vec_len text.old + 650 ≤ N }
    requires body { length body.now ≤ MAX_BODY }
    ensures text { text.new.items ≡ text.old.items ++ kind_text kind body.now }
    ensures size { array_vec_len text.new ≤ array_vec_len text.old + 640 }
{
    match kind {
        Kind::Good => {
            append(text, b"good ");
            append_fields(text, body);
        }
        Kind::Message(station) => {
            append_code(text, b"message ", station);
            append(text, b" ");
            append_fields(text, body);
        }
        Kind::Short => append_body(text, b"short ", body),
        Kind::BadCheck => append_body(text, b"bad-check ", body),
        Kind::Long => append(text, b"long"),
        Kind::Broken(code) => append_code(text, b"broken ", code),
        Kind::Restart => append(text, b"restart"),
        Kind::Damaged => append(text, b"damaged"),
        Kind::DamagedFor(station) => append_code(text, b"damaged ", station),
        Kind::Poll(station) => append_code(text, b"poll ", station),
        Kind::BadPoll => append(text, b"bad-poll"),
        Kind::Ack => append(text, b"ack"),
        Kind::Nak => append(text, b"nak"),
        Kind::Reset => append(text, b"reset"),
        Kind::Enq => append(text, b"enq"),
        Kind::Eot => append(text, b"eot"),
        Kind::Stray(byte) => append_code(text, b"stray ", byte),
        Kind::StrayPair(code) => append_code(text, b"stray-pair ", code),
    }
}

/// Appends a word and the digits of a byte.
pub(crate) fn append_code<const N: usize>(text: &mut ArrayVec<u8, N>, word: &[u8], byte: u8)
    requires { array_vec_len text.old + length word.now + 2 ≤ N }
    ensures text { text.new.items ≡ text.old.items ++ word.now ++ byte_digits byte }
    ensures size { array_vec_len text.new ≡ array_vec_len text.old + length word.now + 2 }
{
    append(text, word);
    append(text, &[high_digit(byte), low_digit(byte)]);
}

/// Appends a word and a body.
fn append_body<const N: usize>(text: &mut ArrayVec<u8, N>, word: &[u8], body: &[u8])
    requires room { array_vec_len text.old + length word.now + 501 ≤ N }
    requires body { length body.now ≤ MAX_BODY }
    ensures text { text.new.items ≡ text.old.items ++ word.now ++ bytes_text body.now }
    ensures size { array_vec_len text.new ≤ array_vec_len text.old + length word.now + 501 }
{
    append(text, word);
    append_bytes(text, body);
}

/// Appends bytes in hexadecimal, or a dash if there are none.
pub(crate) fn append_bytes<const N: usize>(text: &mut ArrayVec<u8, N>, bytes: &[u8])
    requires { array_vec_len text.old + 2 * length bytes.now < N }
    ensures text { text.new.items ≡ text.old.items ++ bytes_text bytes.now }
    ensures size { array_vec_len text.new ≤ array_vec_len text.old + 2 * length bytes.now + 1 }
{
    if bytes.is_empty() {
        append(text, b"-");
    } else {
        append_hex(text, bytes);
    }
}

/// Appends bytes in hexadecimal.
fn append_hex<const N: usize>(text: &mut ArrayVec<u8, N>, bytes: &[u8])
    requires { array_vec_len text.old + 2 * length bytes.now < N }
    ensures text { text.new.items ≡ text.old.items ++ encode_upper bytes.now }
    ensures size { array_vec_len text.new ≡ array_vec_len text.old + 2 * length bytes.now }
{
    for byte in bytes {
        append(text, &[high_digit(*byte), low_digit(*byte)]);
    }
}

/// Returns the first digit of a byte.
pub(crate) fn high_digit(byte: u8) -> u8
    ensures { result ≡ slice_index upper_digits (byte / 16) }
{
    DIGITS[usize::from(byte / 16)]
}

/// Returns the second digit of a byte.
pub(crate) fn low_digit(byte: u8) -> u8
    ensures { result ≡ slice_index upper_digits (byte % 16) }
{
    DIGITS[usize::from(byte % 16)]
}
