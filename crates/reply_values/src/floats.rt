//! Floats in data: the bits of an IEEE single, which are two words, the low one first.
ghost use Rattle.std.specs.Prelude.{◌≡◌, ◌*◌, ◌≤◌, false, true, length, MatchOption};
ghost use Rattle.reply_values.specs.Values.{are_floats, float_words, floats_of};

use arrayvec::ArrayVec;
use df1_base::MAX_DATA;

/// Returns the bits of the floats in data, and None exactly if it isn't four bytes per float, or over 244 bytes.
pub fn floats_in(bytes: &[u8]) -> Option<ArrayVec<u32, 61>>
    ensures none { MatchOption result (are_floats bytes.now ≡ false) (λ _. are_floats bytes.now ≡ true) }
    ensures floats { MatchOption result (are_floats bytes.now ≡ false) (λ floats. floats.items ≡ floats_of bytes.now) }
{
    if bytes.len() % 4 != 0 || bytes.len() > MAX_DATA {
        return None;
    }
    Some(floats_of(bytes))
}

/// Returns the bits of floats, four bytes each. Remaining bytes are ignored.
fn floats_of(bytes: &[u8]) -> ArrayVec<u32, 61>
    requires { length bytes.now ≤ 244 }
    ensures { result.items ≡ floats_of bytes.now }
{
    let mut floats = ArrayVec::new();
    let mut rest = bytes;
    while let [a, b, c, d, left @ ..] = rest {
        floats.push(u32::from_le_bytes([*a, *b, *c, *d]));
        rest = left;
    }
    floats
}

/// Returns the words of a float, by its bits.
pub fn float_words(bits: u32) -> [u16; 2]
    ensures { result ≡ float_words bits }
{
    let [a, b, c, d] = bits.to_le_bytes();
    [u16::from_le_bytes([a, b]), u16::from_le_bytes([c, d])]
}
