//! Values: one byte 0 to 254, or FF and two bytes, low first.
ghost use Rattle.std.specs.Prelude.{◌≡◌, ◌+◌, ◌≤◌, ◌++◌, ℕ, List, length, IfSome, Some, if◌then◌else◌};
ghost use Rattle.std.specs.Option.{option_map};
ghost use Rattle.arrayvec.specs.ArrayVec.{array_vec_len};
ghost use Rattle.logical_address.specs.Spelling.{IsFront, SpellsValue};
ghost use Rattle.logical_address.specs.Shortest.{shortest_level, shortest_value};
ghost use Rattle.logical_address.specs.Reading.{byte_front, optional_front, value_at, value_front, word_front};

use arrayvec::ArrayVec;

/// The byte before a value of two bytes.
const WIDE: u8 = 0xFF;

/// Returns the value at the front of `bytes`, and the number of bytes that encode it, 1 or 3. Returns None exactly if
/// the encoding is cut off (manual topic: addressing).
pub fn read_value(bytes: &[u8]) -> Option<(u16, usize)>
    ensures reads { result ≡ value_at bytes.now }
    ensures spelled { IfSome result (λ found. IsFront (SpellsValue found.0) found.1 bytes.now) }
    ensures known { (n : ℕ) (front rest : List ℕ) → SpellsValue n front → bytes.now ≡ front ++ rest → result ≡ Some (n, length front) }
{
    let (value, rest) = value_front(bytes)?;
    Some((value, bytes.len() - rest.len()))
}

/// Returns the byte at the front, and the bytes after it.
pub(crate) fn byte_front(bytes: &[u8]) -> Option<(u8, &[u8])>
    ensures reads { option_map (λ found. (found.0, found.1.now)) result ≡ byte_front bytes.now }
    ensures shorter { IfSome result (λ found. length found.1.now ≤ length bytes.now) }
{
    match bytes {
        [byte, rest @ ..] => Some((*byte, rest)),
        [] => None,
    }
}

/// Returns the number encoded by two bytes at the front, low byte first, and the bytes after them.
pub(crate) fn word_front(bytes: &[u8]) -> Option<(u16, &[u8])>
    ensures reads { option_map (λ found. (found.0, found.1.now)) result ≡ word_front bytes.now }
    ensures shorter { IfSome result (λ found. length found.1.now ≤ length bytes.now) }
{
    match bytes {
        [low, high, rest @ ..] => Some((u16::from_le_bytes([*low, *high]), rest)),
        _ => None,
    }
}

/// Returns the value at the front, and the bytes after it.
pub(crate) fn value_front(bytes: &[u8]) -> Option<(u16, &[u8])>
    ensures reads { option_map (λ found. (found.0, found.1.now)) result ≡ value_front bytes.now }
    ensures shorter { IfSome result (λ found. length found.1.now ≤ length bytes.now) }
{
    match bytes {
        [] => None,
        [WIDE, rest @ ..] => word_front(rest),
        [value, rest @ ..] => Some((u16::from(*value), rest)),
    }
}

/// Returns the value at the front if `is_given`, otherwise 0, and the bytes after it.
pub(crate) fn optional_front(is_given: bool, bytes: &[u8]) -> Option<(u16, &[u8])>
    ensures reads { option_map (λ found. (found.0, found.1.now)) result ≡ optional_front is_given bytes.now }
    ensures shorter { IfSome result (λ found. length found.1.now ≤ length bytes.now) }
{
    if is_given {
        value_front(bytes)
    } else {
        Some((0, bytes))
    }
}

/// Appends the shortest encoding of a value to `into`.
pub(crate) fn push_value(value: u16, into: &mut ArrayVec<u8, 16>)
    requires { array_vec_len into.old + 3 ≤ 16 }
    ensures { into.new.items ≡ into.old.items ++ shortest_value value }
{
    let [low, high] = value.to_le_bytes();
    if value < u16::from(WIDE) {
        into.push(low);
    } else {
        into.push(WIDE);
        into.push(low);
        into.push(high);
    }
}

/// Appends a level to `into`, or nothing if it is 0.
pub(crate) fn push_level(value: u16, into: &mut ArrayVec<u8, 16>)
    requires { array_vec_len into.old + 3 ≤ 16 }
    ensures { into.new.items ≡ into.old.items ++ shortest_level value }
{
    if value != 0 {
        push_value(value, into);
    }
}
