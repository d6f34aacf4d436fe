//! Addresses of two or three fields: a file, its type byte, an element and, with three fields, a sub-element.
ghost use Rattle.std.specs.Prelude.{◌≡◌, ◌≤◌, ◌++◌, [], ℕ, List, Bool, false, length, IfSome, Some};
ghost use Rattle.std.specs.Option.{option_map};
ghost use Rattle.logical_address.specs.declared.three.Three.{Three};
ghost use Rattle.logical_address.specs.Spelling.{IsFront, SpellsThree};
ghost use Rattle.logical_address.specs.Shortest.{shortest_three};
ghost use Rattle.logical_address.specs.Reading.{three_at, three_front};

use crate::value::{byte_front, optional_front, push_value, value_front};
use arrayvec::ArrayVec;

/// The place of a word, by three fields and the type of its file.
#[derive(Clone, Copy, Debug, PartialEq, Eq)]
pub struct Three {
    /// The number of the file.
    pub file: u16,
    /// The type byte of the file, 84 to 8A in hexadecimal if it is one of the known types.
    pub kind: u8,
    /// The element, from 0.
    pub element: u16,
    /// The sub-element, from 0: the word in its element; 0 if absent.
    pub sub: u16,
}

/// Returns the address at the front of `bytes`, and the number of bytes that encode it, at most 10. Reads a sub-element
/// if `with_sub`, otherwise the sub-element is 0. Returns None exactly if the address is cut off (manual topic:
/// addressing).
pub fn read_three(bytes: &[u8], with_sub: bool) -> Option<(Three, usize)>
    ensures reads { result ≡ three_at with_sub bytes.now }
    ensures spelled { IfSome result (λ found. IsFront (SpellsThree with_sub found.0) found.1 bytes.now) }
    ensures known { (at : Three) (front rest : List ℕ) → SpellsThree with_sub at front → bytes.now ≡ front ++ rest → result ≡ Some (at, length front) }
{
    let (at, rest) = three_front(bytes, with_sub)?;
    Some((at, bytes.len() - rest.len()))
}

/// Returns the address at the front, and the bytes after it.
#[tactic(auto, unfolding(crate::specs::Reading::three_front))]
fn three_front(bytes: &[u8], with_sub: bool) -> Option<(Three, &[u8])>
    ensures reads { option_map (λ found. (found.0, found.1.now)) result ≡ three_front with_sub bytes.now }
    ensures shorter { IfSome result (λ found. length found.1.now ≤ length bytes.now) }
{
    let (file, rest) = value_front(bytes)?;
    let (kind, rest) = byte_front(rest)?;
    let (element, rest) = value_front(rest)?;
    let (sub, rest) = optional_front(with_sub, rest)?;
    Some((
        Three {
            file,
            kind,
            element,
            sub,
        },
        rest,
    ))
}

/// Replaces `into` by the shortest encoding of an address, whose sub-element is 0 if `with_sub` is false.
pub fn write_three(at: &Three, with_sub: bool, into: &mut ArrayVec<u8, 16>)
    requires { with_sub ≡ false → at.now.sub ≡ 0 }
    ensures written { into.new.items ≡ shortest_three with_sub at.now }
    ensures spelled { SpellsThree with_sub at.now into.new.items }
    ensures read_back { (rest : List ℕ) → three_at with_sub (into.new.items ++ rest) ≡ Some (at.now, length into.new.items) }
{
    into.clear();
    push_three(at, with_sub, into);
}

/// Writes the shortest encoding of an address into an empty `into`.
fn push_three(at: &Three, with_sub: bool, into: &mut ArrayVec<u8, 16>)
    requires { into.old.items ≡ [] }
    ensures { into.new.items ≡ shortest_three with_sub at.now }
{
    push_value(at.file, into);
    into.push(at.kind);
    push_value(at.element, into);
    if with_sub {
        push_value(at.sub, into);
    }
}
