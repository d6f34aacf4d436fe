//! The data of a typed read.
ghost use Rattle.std.specs.Prelude.{◌≡◌, IfSome, Some};
ghost use Rattle.std.specs.Option.{option_map};
ghost use Rattle.reply_values.specs.Typed.{SpellsTyped, TypedData, array_element, param_front, seen, typed_of};

use logical_address::{Param, read_param};

/// The kind of an array.
const ARRAY: u16 = 9;

/// The data of a typed read, after the parameters that describe it.
#[derive(Clone, Copy, Debug)]
pub struct Typed<'a> {
    /// The kind and the size of an element: kind 4 integer, 2 bit string or 8 floating point, size in bytes.
    pub element: Param,
    /// Whether it is an array of elements.
    pub is_array: bool,
    /// The words of the elements, each low byte first.
    pub bytes: &'a [u8],
}

/// Reads the data of a reply to a typed read: the parameter of an element, and the words (manual topics: addressing,
/// typed read). The parameter stands alone or after that of an array, whose size is the number of all bytes after it.
/// Returns None exactly if a parameter can't be read, or the size of an array differs.
pub fn read_typed(bytes: &[u8]) -> Option<Typed<'_>>
    ensures reads { option_map seen result ≡ typed_of bytes.now }
    ensures spelled { IfSome result (λ typed. SpellsTyped (seen typed) bytes.now) }
    ensures known { (typed : TypedData) → SpellsTyped typed bytes.now → option_map seen result ≡ Some typed }
{
    by_params(bytes)
}

/// Reads the data after its parameters.
fn by_params(bytes: &[u8]) -> Option<Typed<'_>>
    ensures { option_map seen result ≡ typed_of bytes.now }
{
    let (first, rest) = param_front(bytes)?;
    if first.kind == ARRAY {
        return array_element(first, rest);
    }
    Some(Typed {
        element: first,
        is_array: false,
        bytes: rest,
    })
}

/// Reads the data of an array after its parameter.
fn array_element(array: Param, bytes: &[u8]) -> Option<Typed<'_>>
    ensures { option_map seen result ≡ array_element array bytes.now }
{
    let (element, rest) = param_front(bytes)?;
    if usize::from(array.size) != bytes.len() {
        return None;
    }
    Some(Typed {
        element,
        is_array: true,
        bytes: rest,
    })
}

/// Returns the parameter at the front, and what follows it.
fn param_front(bytes: &[u8]) -> Option<(Param, &[u8])>
    ensures { option_map (λ found. (found.0, found.1.now)) result ≡ param_front bytes.now }
{
    match read_param(bytes) {
        Ok((param, used)) => Some((param, &bytes[used..])),
        Err(_) => None,
    }
}
