//! The drill's script: end b has an integer file of 16 elements, end a writes a word of it in each round, and the bytes
//! are disturbed by the round's pattern.
ghost use Rattle.std.specs.Prelude.{◌≡◌, ◌≤◌, ◌++◌, ℕ, IfOk, OnOk};
ghost use Rattle.script_parts.specs.HalfPlayable.{CanBePlayed};
ghost use Rattle.df1_drill.specs.Drill.{drill_script as the_script, round_of};

use crate::course::Pattern;
use df1_base::NoMemory;
use round_scripts::{MOST_ROUNDS, put_command, put_course, setup};
use script_parts::{Events, Script};
use std::alloc::Global;

/// Returns the drill's script of `count` rounds, at most 20,000, whose patterns and words begin at `seed`. It can be
/// played.
pub fn drill_script(alloc: Global, seed: u32, count: u32) -> Result<Script, NoMemory>
    requires { count ≤ MOST_ROUNDS }
    ensures script { IfOk result (λ script. script ≡ the_script seed count) }
    ensures playable { IfOk result CanBePlayed }
{
    let mut script = setup(alloc)?;
    for round in 1..count + 1 {
        put_round(alloc, &mut script.events, seed, round)?;
    }
    Ok(script)
}

/// Appends the events of a round, counted from 1, to those of the rounds before it.
fn put_round(alloc: Global, events: &mut Events, seed: u32, round: u32) -> Result<(), NoMemory>
    ensures { OnOk result (events.new ≡ events.old ++ round_of seed round) }
{
    put_command(alloc, events, seed, round)?;
    put_course(alloc, events, Pattern::of(seed, round).course())
}

/// Every drill of at most 20,000 rounds can be played, whatever its seed.
pub fn each_drill_can_be_played()
    ensures { (seed count : ℕ) → count ≤ MOST_ROUNDS → CanBePlayed (the_script seed count) }
{}
