//! The words of a data file as an argument: four hexadecimal digits of either case each, the low byte first.
ghost use Rattle.std.specs.Prelude.{◌≡◌, ◌≤◌, ◌*◌, ◌/◌, IfSome, MatchOption, None, Some, length};
ghost use Rattle.df1_tool.specs.Forms.{data_of as the_data};

use arrayvec::ArrayVec;

/// The buffer size for the words of a transfer, in bytes.
const BYTES: usize = 6000;

/// Returns the bytes of the words that an argument spells, if they are 1 to 3,000 words.
pub(crate) fn data_of(word: &str) -> Option<ArrayVec<u8, BYTES>>
    ensures value { MatchOption result (the_data word.now ≡ None) (λ bytes. the_data word.now ≡ Some bytes.items) }
    ensures some { IfSome result (λ bytes. 2 ≤ length bytes.items) }
    ensures few { IfSome result (λ bytes. length bytes.items ≤ BYTES) }
    ensures whole { IfSome result (λ bytes. length bytes.items ≡ 2 * (length bytes.items / 2)) }
{
    if word.is_empty() || word.len() > 2 * BYTES || word.len() % 4 != 0 {
        return None;
    }
    let mut bytes = ArrayVec::from([0; BYTES]);
    bytes.truncate(word.len() / 2);
    match hex::decode_to_slice(word, &mut bytes) {
        Ok(()) => Some(bytes),
        Err(_) => None,
    }
}
