//! The storm's script: end a writes a word of end b's file in each round, and up to three of its transmissions are hit,
//! in one of the first four bytes of the body, before one arrives whole.
ghost use Rattle.std.specs.Prelude.{◌≡◌, ◌≤◌, ◌<◌, ◌^◌, ◌++◌, ℕ, IfOk, OnOk};
ghost use Rattle.script_parts.specs.HalfPlayable.{CanBePlayed};
ghost use Rattle.df1_drill.specs.Storm.{hit_of, hits_of, round_of, storm_script};

use df1_base::NoMemory;
use round_scripts::{
    CourseEvent, MOST_ROUNDS, TO_A, TO_B, UNDISTURBED, put_command, put_course, setup,
};
use script_parts::{Events, Script, Who};
use std::alloc::Global;

/// Returns the storm's script of `count` rounds, at most 20,000, whose hits and words begin at `seed`. It can be
/// played.
pub fn storm(alloc: Global, seed: u32, count: u32) -> Result<Script, NoMemory>
    requires { count ≤ MOST_ROUNDS }
    ensures script { IfOk result (λ script. script ≡ storm_script seed count) }
    ensures playable { IfOk result CanBePlayed }
{
    let mut script = setup(alloc)?;
    for round in 1..count + 1 {
        put_round(alloc, &mut script.events, seed, round)?;
    }
    Ok(script)
}

/// Appends the events of a round, counted from 1, to those of the rounds before it.
fn put_round(alloc: Global, events: &mut Events, seed: u32, round: u32) -> Result<(), NoMemory>
    ensures { OnOk result (events.new ≡ events.old ++ round_of seed round) }
{
    put_command(alloc, events, seed, round)?;
    put_hits(alloc, events, u64::from(seed) + u64::from(round))?;
    put_course(alloc, events, &UNDISTURBED)
}

/// Appends the hits of a round: as many as its turn leaves on division by 4.
fn put_hits(alloc: Global, events: &mut Events, turn: u64) -> Result<(), NoMemory>
    requires { turn < 2 ^ 33 }
    ensures { OnOk result (events.new ≡ events.old ++ hits_of turn) }
{
    for hit in 1..turn % 4 + 1 {
        put_hit(alloc, events, turn, hit)?;
    }
    Ok(())
}

/// Appends a transmission of a round's command that is hit, and its NAK: the altered byte is one of DST, SRC, CMD and
/// STS.
fn put_hit(alloc: Global, events: &mut Events, turn: u64, hit: u64) -> Result<(), NoMemory>
    requires turn { turn < 2 ^ 33 }
    requires hit { hit < 5 }
    ensures { OnOk result (events.new ≡ events.old ++ hit_of turn hit) }
{
    let before = 2 + (turn + hit) % 4;
    let course = [
        CourseEvent::Take(Who::A, 23),
        CourseEvent::Deliver(TO_B, before as u32),
        CourseEvent::Alter(TO_B, 0x01),
        CourseEvent::Deliver(TO_B, 23),
        CourseEvent::Take(Who::B, 2),
        CourseEvent::Deliver(TO_A, 2),
    ];
    put_course(alloc, events, &course)
}

/// Every storm of at most 20,000 rounds can be played, whatever its seed.
pub fn each_storm_can_be_played()
    ensures { (seed count : ℕ) → count ≤ MOST_ROUNDS → CanBePlayed (storm_script seed count) }
{}
