//! The pieces of payloads, each appended to what was written before.
ghost use Rattle.std.specs.Prelude.{◌≡◌, ◌≤◌, ◌+◌, ◌*◌, ◌++◌, ◌∷◌, [], false, length, nat_le};
ghost use Rattle.arrayvec.specs.ArrayVec.{array_vec_len};
ghost use Rattle.logical_address.specs.Shortest.{shortest_levels, shortest_three};
ghost use Rattle.data_files.specs.WordBytes.{bytes_of};
ghost use Rattle.data_addresses.specs.Fields.{levels_of, three_of};
ghost use Rattle.command_payloads.specs.Faults.{answer_of, room_fault, unless};
ghost use Rattle.command_payloads.specs.Payloads.{logical_front, range, two_bytes};

use crate::PayloadFault;
use crate::fault::MOST_WORDS;
use arrayvec::ArrayVec;
use data_addresses::Address;
use df1_base::MAX_PAYLOAD;
use logical_address::{write_levels, write_three};

/// CMD of the commands that have an FNC.
pub(crate) const CMD: u8 = 0x0F;

/// Writes CMD, FNC and a whole range into an empty `into`.
pub(crate) fn begin_range(fnc: u8, total: u16, at: &Address, into: &mut ArrayVec<u8, 245>)
    requires { into.old.items ≡ [] }
    ensures bytes { into.new.items ≡ 0x0F ∷ fnc ∷ range total at.now }
    ensures size { array_vec_len into.new ≤ 22 }
{
    let [low, high] = total.to_le_bytes();
    into.try_extend_from_slice(&[CMD, fnc, 0, 0, low, high])
        .unwrap();
    add_levels(at, into);
}

/// Adds a level address.
pub(crate) fn add_levels(at: &Address, into: &mut ArrayVec<u8, 245>)
    requires { array_vec_len into.old ≤ 6 }
    ensures bytes { into.new.items ≡ into.old.items ++ shortest_levels (levels_of at.now) }
    ensures size { array_vec_len into.new ≤ 22 }
{
    let mut address = ArrayVec::new();
    write_levels(&at.levels(), &mut address);
    into.try_extend_from_slice(&address).unwrap();
}

/// Writes CMD, FNC, the size of `count` words, at most 122, and an address of two or three fields into an empty `into`.
pub(crate) fn begin_logical(
    fnc: u8,
    with_sub: bool,
    at: &Address,
    count: u16,
    into: &mut ArrayVec<u8, 245>,
)
    requires none { into.old.items ≡ [] }
    requires count { count ≤ 122 }
    requires sub { with_sub ≡ false → at.now.sub ≡ 0 }
    ensures bytes { into.new.items ≡ logical_front fnc with_sub at.now count }
    ensures size { array_vec_len into.new ≤ 19 }
{
    let mut address = ArrayVec::new();
    write_three(&at.three(), with_sub, &mut address);
    into.try_extend_from_slice(&[CMD, fnc, (2 * count) as u8])
        .unwrap();
    into.try_extend_from_slice(&address).unwrap();
}

/// Adds a number in two bytes, low byte first.
pub(crate) fn add_number(number: u16, into: &mut ArrayVec<u8, 245>)
    requires { array_vec_len into.old ≤ 200 }
    ensures bytes { into.new.items ≡ into.old.items ++ two_bytes number }
    ensures size { array_vec_len into.new ≡ array_vec_len into.old + 2 }
{
    into.try_extend_from_slice(&number.to_le_bytes()).unwrap();
}

/// Adds words, each low byte first. Returns `TooMuchData`, with `into` emptied, exactly if they don't fit.
pub(crate) fn add_words(words: &[u16], into: &mut ArrayVec<u8, 245>) -> Result<(), PayloadFault>
    ensures answer { result ≡ answer_of (room_fault into.old.items words.now) }
    ensures bytes { into.new.items ≡ unless (room_fault into.old.items words.now) (into.old.items ++ bytes_of words.now) }
{
    if !has_room(into.len(), words) {
        into.clear();
        return Err(PayloadFault::TooMuchData);
    }
    push_words(words, into);
    Ok(())
}

/// Returns whether words fit after `front` bytes.
fn has_room(front: usize, words: &[u16]) -> bool
    requires { front ≤ 245 }
    ensures { result ≡ nat_le (front + 2 * length words.now) 245 }
{
    words.len() <= MOST_WORDS && front + 2 * words.len() <= MAX_PAYLOAD
}

/// Adds words that fit.
fn push_words(words: &[u16], into: &mut ArrayVec<u8, 245>)
    requires { array_vec_len into.old + 2 * length words.now ≤ 245 }
    ensures { into.new.items ≡ into.old.items ++ bytes_of words.now }
{
    for word in words {
        let [low, high] = word.to_le_bytes();
        into.push(low);
        into.push(high);
    }
}
