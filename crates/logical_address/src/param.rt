//! Parameters: the kind and the size of data.
//!
//! Bits 7 to 4 of the flag byte belong to the kind and bits 3 to 0 to the size. If the highest of the four bits is
//! clear, the others are the field itself. If it is set, they are the number of bytes of the field, 1 or 2, low byte
//! first. The bytes of the kind come before those of the size. Kinds: 2 bit string, 4 integer, 8 floating point, 9
//! array.
ghost use Rattle.std.specs.Prelude.{◌≡◌, ◌<◌, ◌≤◌, ◌++◌, ◌∷◌, [], ℕ, List, length, drop, IsTrue, IfOk, IfSome, IfNone, Ok, Some};
ghost use Rattle.std.specs.Option.{option_map, is_some, unwrap_or};
ghost use Rattle.std.specs.Result.{result_map_both};
ghost use Rattle.logical_address.specs.declared.param.Param.{Param};
ghost use Rattle.logical_address.specs.Spelling.{IsFront, SpellsParam};
ghost use Rattle.logical_address.specs.Reading.{field_front, fields_front, is_wide, param_at, param_front};
ghost use Rattle.logical_address.specs.Parameter.{element_param, written_array, written_element, IsArrayOf};

use crate::value::{byte_front, word_front};
use arrayvec::ArrayVec;
use df1_base::FileType;
use thiserror::Error;

/// The flag byte of an array's parameter with one byte for its kind and one for its size.
const ARRAY_FLAG: u8 = 0x99;

/// The kind of an array.
const ARRAY: u8 = 9;

/// The kind and the size of data.
#[derive(Clone, Copy, Debug, PartialEq, Eq)]
pub struct Param {
    /// The kind: 2 bit string, 4 integer, 8 floating point, 9 array.
    pub kind: u16,
    /// The size in bytes: of an element, or of all that follows the parameter of an array.
    pub size: u16,
}

/// The reason why bytes don't begin with a parameter.
#[derive(Clone, Copy, Debug, PartialEq, Eq, Error)]
pub enum ParamFault {
    /// There is no flag byte, or a field is cut off.
    #[error("the parameter is cut off")]
    Truncated,
    /// The number of bytes of a field isn't 1 or 2.
    #[error("a field of the parameter takes another number of bytes than 1 or 2")]
    WideField,
}

/// Returns the parameter at the front of `bytes`, and the number of bytes that encode it, 1 to 5 (manual topic:
/// addressing).
///
/// Otherwise returns the first of these that applies: there is no flag byte, `Truncated`; the number of bytes of a
/// field isn't 1 or 2, `WideField`; a field is cut off, `Truncated`.
pub fn read_param(bytes: &[u8]) -> Result<(Param, usize), ParamFault>
    ensures reads { result ≡ param_at bytes.now }
    ensures spelled { IfOk result (λ found. IsFront (SpellsParam found.0) found.1 bytes.now) }
    ensures known { (param : Param) (front rest : List ℕ) → SpellsParam param front → bytes.now ≡ front ++ rest → result ≡ Ok (param, length front) }
{
    match param_front(bytes) {
        Ok((param, rest)) => Ok((param, bytes.len() - rest.len())),
        Err(fault) => Err(fault),
    }
}

/// Returns the parameter at the front, and the bytes after it.
fn param_front(bytes: &[u8]) -> Result<(Param, &[u8]), ParamFault>
    ensures reads { result_map_both (λ found. (found.0, found.1.now)) (λ fault. fault) result ≡ param_front bytes.now }
    ensures shorter { IfOk result (λ found. length found.1.now ≤ length bytes.now) }
{
    let [flag, rest @ ..] = bytes else {
        return Err(ParamFault::Truncated);
    };
    if is_wide(*flag >> 4) || is_wide(*flag & 0x0F) {
        return Err(ParamFault::WideField);
    }
    match fields_front(*flag, rest) {
        Some(found) => Ok(found),
        None => Err(ParamFault::Truncated),
    }
}

/// Returns whether the field of these four bits has a number of bytes other than 1 or 2.
fn is_wide(bits: u8) -> bool
    ensures { result ≡ is_wide bits }
{
    bits >= 8 && bits != 8 + 1 && bits != 8 + 2
}

/// Returns the field of these four bits, with its bytes at the front, and the bytes after them.
fn field_front(bits: u8, bytes: &[u8]) -> Option<(u16, &[u8])>
    ensures reads { option_map (λ found. (found.0, found.1.now)) result ≡ field_front bits bytes.now }
    ensures shorter { IfSome result (λ found. length found.1.now ≤ length bytes.now) }
{
    match bits {
        0..8 => Some((u16::from(bits), bytes)),
        9 => {
            let (field, rest) = byte_front(bytes)?;
            Some((u16::from(field), rest))
        }
        10 => word_front(bytes),
        _ => None,
    }
}

/// Returns the fields of a flag byte, with their bytes at the front, and the bytes after them.
#[tactic(auto, unfolding(crate::specs::Reading::fields_front))]
fn fields_front(flag: u8, bytes: &[u8]) -> Option<(Param, &[u8])>
    ensures reads { option_map (λ found. (found.0, found.1.now)) result ≡ fields_front flag bytes.now }
    ensures shorter { IfSome result (λ found. length found.1.now ≤ length bytes.now) }
{
    let (kind, rest) = field_front(flag >> 4, bytes)?;
    let (size, rest) = field_front(flag & 0x0F, rest)?;
    Some((Param { kind, size }, rest))
}

/// Returns the parameter of an element of a file of this type, and None exactly for a Timer, Counter or Control.
pub fn element_param(kind: FileType) -> Option<Param>
    ensures { result ≡ element_param kind }
{
    match kind {
        FileType::Status | FileType::Integer => Some(Param { kind: 4, size: 2 }),
        FileType::Bit => Some(Param { kind: 2, size: 2 }),
        FileType::Timer | FileType::Counter | FileType::Control => None,
        FileType::Float => Some(Param { kind: 8, size: 4 }),
    }
}

/// Returns the encoded parameter of an element, empty if there is none.
fn written_element(kind: FileType) -> &'static [u8]
    ensures { result.now ≡ written_element kind }
{
    match kind {
        FileType::Status | FileType::Integer => &[0x42],
        FileType::Bit => &[0x22],
        FileType::Timer | FileType::Counter | FileType::Control => &[],
        FileType::Float => &[0x94, 0x08],
    }
}

/// Replaces `into` by the parameter of an array of `count` elements of a file of this type, and that of its element:
/// `99 09 n 42` for Integer and Status, `99 09 n 22` for Bit, `99 09 n 94 08` for Float. The size n counts the bytes of
/// the element's parameter and of the data.
///
/// Returns false, with `into` empty, exactly if the type is Timer, Counter or Control or the size is over 255.
pub fn write_array(kind: FileType, count: u16, into: &mut ArrayVec<u8, 16>) -> bool
    ensures fits { result ≡ is_some (written_array kind count) }
    ensures written { into.new.items ≡ unwrap_or (written_array kind count) [] }
    ensures read_back { IsTrue result → (rest : List ℕ) → IsArrayOf kind count (into.new.items ++ rest) rest }
{
    into.clear();
    let Some(param) = element_param(kind) else {
        return false;
    };
    let element = written_element(kind);
    let size = element.len() + usize::from(param.size) * usize::from(count);
    let Ok(size) = u8::try_from(size) else {
        return false;
    };
    into.push(ARRAY_FLAG);
    into.push(ARRAY);
    into.push(size);
    into.try_extend_from_slice(element).unwrap();
    true
}
