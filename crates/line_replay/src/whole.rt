//! Replaying a complete script: the record of its run, with all that is proved of it.

ghost use Rattle.std.specs.Prelude.{◌≡◌, IfOk};
ghost use Rattle.script_parts.specs.HalfPlayable.{CanBePlayed};
ghost use Rattle.run_laws.specs.GivenUp.{NothingComesLate};
ghost use Rattle.line_world.specs.Complete.{IsUndisturbed, IsComplete};
ghost use Rattle.line_world.specs.Once.{EachCommandOnce};
ghost use Rattle.line_world.specs.Recovery.{Recovers};
ghost use Rattle.line_world.specs.Rested.{GoesWellAfterRest};
ghost use Rattle.line_world.specs.Runs.{record_of};
ghost use Rattle.line_world.specs.Wire.{AreDf1Wires};
ghost use Rattle.run_laws.specs.Bounds.{OutcomesCome};
ghost use Rattle.run_laws.specs.Idle.{EndsComeToIdle};
ghost use Rattle.run_laws.specs.Overtaking.{NothingIsOvertaken};

use df1_base::NoMemory;
use replay_report::Record;
use script_parts::Script;
use std::alloc::Global;

/// Replays a script that can be read, and returns the record of its run; `NoMemory` for want of memory.
///
/// If no end was deceived:
///
/// - each command of the script was executed at most once, by the station that it was issued to, and those of each
///   source in order;
/// - the words are those that the executed commands make, and each accepted reply was the one to that very command;
/// - no command is executed after a later one of its source that was executed or answered, and none after it was
///   reported as given up, once nothing was on its way.
///
/// If nothing disturbed the line, no end was deceived, and all commands were executed and answered. The same holds if a
/// full-duplex line recovers from what the script does to the bytes. If the line is at rest again, and no end was
/// deceived, each command that an end hands out from there on was executed and answered, if nothing disturbs the line
/// from there on, or a full-duplex line recovers. An answer to a command that was still to come shows where a
/// full-duplex line is at rest, and that the stations of a polled line are in step.
///
/// After enough ticks at which an end had nothing to send, each of its commands has its outcome. If so many came since
/// its last command and the last that its station executed, an end of a full-duplex line has no message and no reply
/// left to send. Whatever was received, what each end sent is DF1, and carries its own commands and replies.
pub fn replay(alloc: Global, script: &Script) -> Result<Record, NoMemory>
    requires { CanBePlayed script.now }
    ensures record { IfOk result (λ r. r ≡ record_of script.now) }
    ensures once { IfOk result (λ r. r.deceived ≡ 0 → EachCommandOnce script.now r) }
    ensures settled { IfOk result (λ r. r.deceived ≡ 0 → NothingIsOvertaken script.now r) }
    ensures late { IfOk result (λ r. r.deceived ≡ 0 → NothingComesLate script.now r) }
    ensures complete { IfOk result (λ r. IsUndisturbed script.now → IsComplete script.now r) }
    ensures recovered { IfOk result (λ r. Recovers script.now r) }
    ensures rested { IfOk result (λ r. GoesWellAfterRest script.now r) }
    ensures outcomes { IfOk result (λ r. OutcomesCome script.now r) }
    ensures idle { IfOk result (λ r. EndsComeToIdle script.now r) }
    ensures wires { IfOk result (λ r. AreDf1Wires script.now r) }
{
    line_world::replay(alloc, script)
}
