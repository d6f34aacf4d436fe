//! The fields that follow CMD and FNC. A field is read at the front of the bytes, and the bytes after it are returned;
//! a last field is all remaining bytes. An address with too few levels is refused with F0/02, one with too many with
//! F0/03, and anything else that can't be read with STS 10.
ghost use Rattle.std.specs.Prelude.{◌≡◌, ◌≤◌, length, Ok};
ghost use Rattle.std.specs.Result.{result_map_both};
ghost use Rattle.plc_commands.specs.Fields as field;

use crate::codes::{ILLEGAL, TOO_FEW_LEVELS, TOO_MANY_LEVELS};
use crate::{Set, Sets};
use df1_base::Code;
use logical_address::{LevelFault, Levels, Param, read_levels, read_param};

/// The kind of an array.
const ARRAY: u16 = 9;

/// Reads two bytes, low byte first.
pub(crate) fn word(bytes: &[u8]) -> Result<(u16, &[u8]), Code>
    ensures { result_map_both (λ found. (found.0, found.1.now)) (λ code. code) result ≡ field.word bytes.now }
{
    match bytes {
        [low, high, rest @ ..] => Ok((u16::from_le_bytes([*low, *high]), rest)),
        _ => Err(ILLEGAL),
    }
}

/// Reads a level address.
pub(crate) fn levels(bytes: &[u8]) -> Result<(Levels, &[u8]), Code>
    ensures { result_map_both (λ found. (found.0, found.1.now)) (λ code. code) result ≡ field.levels bytes.now }
{
    match read_levels(bytes) {
        Ok((at, used)) => Ok((at, &bytes[used..])),
        Err(LevelFault::Truncated) => Err(ILLEGAL),
        Err(LevelFault::TooFew) => Err(TOO_FEW_LEVELS),
        Err(LevelFault::TooMany) => Err(TOO_MANY_LEVELS),
    }
}

/// Reads a parameter.
fn param(bytes: &[u8]) -> Result<(Param, &[u8]), Code>
    ensures { result_map_both (λ found. (found.0, found.1.now)) (λ code. code) result ≡ field.param bytes.now }
{
    match read_param(bytes) {
        Ok((param, used)) => Ok((param, &bytes[used..])),
        Err(_) => Err(ILLEGAL),
    }
}

/// Reads the parameter of an element, alone or after that of an array whose size is that of all that follows it. Also
/// returns whether it is of an array.
pub(crate) fn parameter(bytes: &[u8]) -> Result<((Param, bool), &[u8]), Code>
    ensures { result_map_both (λ found. (found.0, found.1.now)) (λ code. code) result ≡ field.parameter bytes.now }
{
    let (first, rest) = param(bytes)?;
    if first.kind != ARRAY {
        return Ok(((first, false), rest));
    }
    let (element, data) = param(rest)?;
    if usize::from(first.size) != rest.len() {
        return Err(ILLEGAL);
    }
    Ok(((element, true), data))
}

/// Reads all remaining bytes.
pub(crate) fn all(bytes: &[u8]) -> Result<&[u8], Code>
    ensures { result_map_both (λ found. found.now) (λ code. code) result ≡ Ok bytes.now }
{
    Ok(bytes)
}

/// Checks that no byte remains.
pub(crate) fn nothing(bytes: &[u8]) -> Result<(), Code>
    ensures { result ≡ field.nothing bytes.now }
{
    match bytes {
        [] => Ok(()),
        _ => Err(ILLEGAL),
    }
}

/// Reads one last byte.
pub(crate) fn last_byte(bytes: &[u8]) -> Result<u8, Code>
    ensures { result ≡ field.last_byte bytes.now }
{
    match bytes {
        [byte] => Ok(*byte),
        _ => Err(ILLEGAL),
    }
}

/// Reads two last bytes, low byte first.
pub(crate) fn last_word(bytes: &[u8]) -> Result<u16, Code>
    ensures { result ≡ field.last_word bytes.now }
{
    match bytes {
        [low, high] => Ok(u16::from_le_bytes([*low, *high])),
        _ => Err(ILLEGAL),
    }
}

/// Reads whole words, at least one.
pub(crate) fn words(bytes: &[u8]) -> Result<&[u8], Code>
    ensures { result_map_both (λ found. found.now) (λ code. code) result ≡ field.words bytes.now }
{
    if bytes.is_empty() || bytes.len() % 2 != 0 {
        return Err(ILLEGAL);
    }
    Ok(bytes)
}

/// Reads a set of a read-modify-write.
#[tactic(auto, unfolding(crate::specs::Fields::set))]
fn set(bytes: &[u8]) -> Result<(Set, &[u8]), Code>
    ensures { result_map_both (λ found. (found.0, found.1.now)) (λ code. code) result ≡ field.set bytes.now }
{
    let (at, rest) = levels(bytes)?;
    let (and, rest) = word(rest)?;
    let (or, rest) = word(rest)?;
    Ok((Set { at, and, or }, rest))
}

/// Reads sets, at least one.
pub(crate) fn sets(bytes: &[u8]) -> Result<Sets, Code>
    requires { length bytes.now ≤ 244 }
    ensures { result ≡ field.sets bytes.now }
{
    if bytes.is_empty() {
        return Err(ILLEGAL);
    }
    let mut sets = Sets::new();
    let mut rest = bytes;
    while !rest.is_empty() {
        let (next, after) = set(rest)?;
        sets.push(next);
        rest = after;
    }
    Ok(sets)
}
