//! The command of a round.
ghost use Rattle.std.specs.Prelude.{◌≡◌, ◌∷◌, ◌++◌, [], IfOk, OnOk};
ghost use Rattle.round_scripts.specs.Rounds.{command_of, payload_of};

use crate::ends::NODE_OF_B;
use df1_base::NoMemory;
use script_parts::{Bytes, Event, Events, Items, Who};
use std::alloc::Global;

/// Appends the command of a round, counted from 1, to the events before it.
pub fn put_command(
    alloc: Global,
    events: &mut Events,
    seed: u32,
    round: u32,
) -> Result<(), NoMemory>
    ensures { OnOk result (events.new ≡ events.old ++ command_of seed round ∷ []) }
{
    events.push(Event::Issue {
        who: Who::A,
        src: None,
        dst: NODE_OF_B,
        payload: payload(alloc, seed, round)?,
    })
}

/// Returns the command of a round from its CMD on, without its STS and TNS: CMD 0F and FNC AA write two bytes to an
/// element of file 7, whose type is 89 (manual topic: commands).
fn payload(alloc: Global, seed: u32, round: u32) -> Result<Bytes, NoMemory>
    ensures { IfOk result (λ payload. payload ≡ payload_of seed round) }
{
    let word = (u64::from(seed) + u64::from(round)) % 65_536;
    let [low, high] = (word as u16).to_le_bytes();
    let element = (round % 16) as u8;
    Items::copy_of(
        alloc,
        &[0x0F, 0xAA, 0x02, 0x07, 0x89, element, 0x00, low, high],
    )
}
