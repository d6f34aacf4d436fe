//! Playing a script: its run, as a world and as a record.

ghost use Rattle.std.specs.Prelude.{◌≡◌, IfOk};
ghost use Rattle.script_parts.specs.HalfPlayable.{CanBePlayed};
ghost use Rattle.line_world.specs.Complete.{IsUndisturbed, IsComplete};
ghost use Rattle.line_world.specs.Once.{EachCommandOnce};
ghost use Rattle.line_world.specs.Recovery.{Recovers};
ghost use Rattle.line_world.specs.Rested.{GoesWellAfterRest};
ghost use Rattle.line_world.specs.Runs.{record_of, whole_world};
ghost use Rattle.line_world.specs.Wire.{AreDf1Wires};

use crate::World;
use df1_base::NoMemory;
use replay_report::Record;
use script_parts::Script;
use std::alloc::Global;

/// Returns the world of a script that can be read after all of its events, with their lines not yet written.
pub fn play(alloc: Global, script: &Script) -> Result<World, NoMemory>
    requires { CanBePlayed script.now }
    ensures { IfOk result (λ world. world ≡ whole_world script.now) }
{
    let mut world = World::new(alloc, script)?;
    world.step_all(script.events.as_slice())?;
    Ok(world)
}

/// Plays a script that can be read, and returns the record of its run.
///
/// If no end was deceived:
///
/// - each command of the script was executed at most once, by the station that it was issued to, and those of each
///   source in order;
/// - the words are those that the executed commands make;
/// - each accepted reply was the one to that very command.
///
/// If nothing disturbed the line, no end was deceived, and all commands were executed and answered. The same holds if a
/// full-duplex line recovers from what the script does to the bytes.
///
/// Let the line be at rest again, whatever happened on it, with no end deceived. Then each command that an end hands out
/// from there on was executed and answered, if nothing disturbs the line from there on, or a full-duplex line recovers.
/// An answer to a command that was still to come shows where a full-duplex line is at rest, and that the stations of a
/// polled line are in step (see `Rested`).
///
/// Whatever was received, what each end sent is DF1, and carries its own commands and replies.
pub fn replay(alloc: Global, script: &Script) -> Result<Record, NoMemory>
    requires { CanBePlayed script.now }
    ensures record { IfOk result (λ r. r ≡ record_of script.now) }
    ensures complete { IfOk result (λ r. IsUndisturbed script.now → IsComplete script.now r) }
    ensures recovered { IfOk result (λ r. Recovers script.now r) }
    ensures rested { IfOk result (λ r. GoesWellAfterRest script.now r) }
    ensures once { IfOk result (λ r. r.deceived ≡ 0 → EachCommandOnce script.now r) }
    ensures wires { IfOk result (λ r. AreDf1Wires script.now r) }
{
    play(alloc, script)?.finish()
}
