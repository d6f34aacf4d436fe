//! The texts of codes, as C strings.

ghost use Rattle.std.specs.Prelude.{◌≡◌, ◌≤◌, length};
ghost use Rattle.c_ends.specs.Code.{code_number};
ghost use Rattle.c_calls.specs.Copied.{copied, room_code};
ghost use Rattle.df1_c.specs.Spelled.{number_text};

use arrayvec::ArrayVec;
use c_calls::copy;
use c_ends::Code;

/// The text of a number that is not a code.
const NO_CODE: &str = "no code of df1";

/// Puts the text of a code, with a zero byte at its end, into a buffer. `count` becomes its number of bytes with that
/// zero.
#[unsafe(no_mangle)]
pub extern "C" fn df1_code_text(code: u32, into: &mut [u8], count: &mut usize) -> u32
    ensures code { result ≡ code_number (room_code (length (number_text code)) (length into.old)) }
    ensures bytes { into.new ≡ copied into.old (number_text code) }
    ensures count { count.new ≡ length (number_text code) }
    ensures most { count.new ≤ 80 }
{
    copy(&ended_text(code), into, count).number()
}

/// Returns the text of a number, with the zero byte that ends it.
fn ended_text(number: u32) -> ArrayVec<u8, 80>
    ensures text { result.items ≡ number_text number }
    ensures most { length result.items ≤ 80 }
{
    let text = match Code::of_number(number) {
        Some(code) => code.text(),
        None => NO_CODE,
    };
    let mut ended = ArrayVec::new();
    ended.try_extend_from_slice(text.as_bytes()).unwrap();
    ended.push(0);
    ended
}
