//! Level addresses: a mask byte, then a value for each of its bits 0 to 3 that is set.
ghost use Rattle.std.specs.Prelude.{◌≡◌, ◌<◌, ◌≤◌, ◌++◌, [], ℕ, List, length, IfOk, IfSome, Ok};
ghost use Rattle.std.specs.Option.{option_map};
ghost use Rattle.std.specs.Result.{result_map_both};
ghost use Rattle.logical_address.specs.declared.levels.Levels.{Levels};
ghost use Rattle.logical_address.specs.Spelling.{IsFront, SpellsLevels, has_level};
ghost use Rattle.logical_address.specs.Shortest.{shortest_levels, shortest_mask};
ghost use Rattle.logical_address.specs.Reading.{levels_at, levels_front, named_front};

use crate::value::{optional_front, push_level, push_value, value_front};
use arrayvec::ArrayVec;
use thiserror::Error;

/// The bit of the mask for the area.
const AREA: u8 = 0;

/// The bit of the mask for the file.
const FILE: u8 = 1;

/// The bit of the mask for the element.
const ELEMENT: u8 = 2;

/// The bit of the mask for the sub-element, which is the last level.
const SUB: u8 = 3;

/// The place of a word, by levels.
#[derive(Clone, Copy, Debug, PartialEq, Eq)]
pub struct Levels {
    /// The area, level 1; 0 if absent.
    pub area: u16,
    /// The number of the file, level 2.
    pub file: u16,
    /// The element, from 0, level 3.
    pub element: u16,
    /// The sub-element, from 0, level 4; 0 if absent.
    pub sub: u16,
}

/// The reason why bytes don't begin with a level address.
#[derive(Clone, Copy, Debug, PartialEq, Eq, Error)]
pub enum LevelFault {
    /// There is no mask byte, or a level is cut off.
    #[error("the address is cut off")]
    Truncated,
    /// The mask lacks the file or the element.
    #[error("the address has too few levels")]
    TooFew,
    /// The mask has a level after the sub-element.
    #[error("the address has too many levels")]
    TooMany,
}

/// Returns the level address at the front of `bytes`, and the number of bytes that encode it, 3 to 13 (manual topic:
/// addressing).
///
/// Otherwise returns the first of these that applies: there is no mask byte, `Truncated`; one of its bits 4 to 7 is
/// set, `TooMany`; bit 1 or 2 is clear, `TooFew`; a level is cut off, `Truncated`.
pub fn read_levels(bytes: &[u8]) -> Result<(Levels, usize), LevelFault>
    ensures reads { result ≡ levels_at bytes.now }
    ensures spelled { IfOk result (λ found. IsFront (SpellsLevels found.0) found.1 bytes.now) }
    ensures known { (at : Levels) (front rest : List ℕ) → SpellsLevels at front → bytes.now ≡ front ++ rest → result ≡ Ok (at, length front) }
{
    match levels_front(bytes) {
        Ok((at, rest)) => Ok((at, bytes.len() - rest.len())),
        Err(fault) => Err(fault),
    }
}

/// Returns the level address at the front, and the bytes after it.
fn levels_front(bytes: &[u8]) -> Result<(Levels, &[u8]), LevelFault>
    ensures reads { result_map_both (λ found. (found.0, found.1.now)) (λ fault. fault) result ≡ levels_front bytes.now }
    ensures shorter { IfOk result (λ found. length found.1.now ≤ length bytes.now) }
{
    let [mask, rest @ ..] = bytes else {
        return Err(LevelFault::Truncated);
    };
    if *mask > 0x0F {
        return Err(LevelFault::TooMany);
    }
    if !(has_level(*mask, FILE) && has_level(*mask, ELEMENT)) {
        return Err(LevelFault::TooFew);
    }
    match named_front(*mask, rest) {
        Some(found) => Ok(found),
        None => Err(LevelFault::Truncated),
    }
}

/// Returns whether the mask has the level of this bit.
fn has_level(mask: u8, level: u8) -> bool
    requires { level < 8 }
    ensures { result ≡ has_level mask level }
{
    (mask >> level) & 1 == 1
}

/// Returns the levels of a mask at the front, and the bytes after them.
#[tactic(auto, unfolding(crate::specs::Reading::named_front))]
fn named_front(mask: u8, bytes: &[u8]) -> Option<(Levels, &[u8])>
    ensures reads { option_map (λ found. (found.0, found.1.now)) result ≡ named_front mask bytes.now }
    ensures shorter { IfSome result (λ found. length found.1.now ≤ length bytes.now) }
{
    let (area, rest) = optional_front(has_level(mask, AREA), bytes)?;
    let (file, rest) = value_front(rest)?;
    let (element, rest) = value_front(rest)?;
    let (sub, rest) = optional_front(has_level(mask, SUB), rest)?;
    Some((
        Levels {
            area,
            file,
            element,
            sub,
        },
        rest,
    ))
}

/// Replaces `into` by the shortest encoding of an address: the area and the sub-element are encoded only if they aren't
/// 0.
pub fn write_levels(at: &Levels, into: &mut ArrayVec<u8, 16>)
    ensures written { into.new.items ≡ shortest_levels at.now }
    ensures spelled { SpellsLevels at.now into.new.items }
    ensures read_back { (rest : List ℕ) → levels_at (into.new.items ++ rest) ≡ Ok (at.now, length into.new.items) }
{
    into.clear();
    push_levels(at, into);
}

/// Writes the shortest encoding of an address into an empty `into`.
fn push_levels(at: &Levels, into: &mut ArrayVec<u8, 16>)
    requires { into.old.items ≡ [] }
    ensures { into.new.items ≡ shortest_levels at.now }
{
    into.push(shortest_mask(at));
    push_level(at.area, into);
    push_value(at.file, into);
    push_value(at.element, into);
    push_level(at.sub, into);
}

/// Returns the mask of the levels that are written.
fn shortest_mask(at: &Levels) -> u8
    ensures { result ≡ shortest_mask at.now }
{
    let area = u8::from(at.area != 0) << AREA;
    let sub = u8::from(at.sub != 0) << SUB;
    area | 1 << FILE | 1 << ELEMENT | sub
}
