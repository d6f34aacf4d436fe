//! The laws of when a command is over, each on a function of its own. None of them does anything.
ghost use Rattle.std.specs.Prelude.{◌≡◌};
ghost use Rattle.run_laws.specs.GivenUp.{NothingComesLate};
ghost use Rattle.run_laws.specs.NotHeld.{NoSettledIsHeld, NoUnansweredIsHeld, NoUndeliveredIsHeld};
ghost use Rattle.run_laws.specs.Over.{IsOverForGood, IsOverThereForGood};
ghost use Rattle.run_laws.specs.Reached.{all_lost, all_lost_to_a_station, GivesUp, GivesUpAtMaster};
ghost use Rattle.line_world.specs.Runs.{record_of};
ghost use Rattle.script_parts.specs.declared.script.Script.{Script};
ghost use Rattle.script_parts.specs.HalfPlayable.{CanBePlayed, IsHalfPlayable};
ghost use Rattle.script_parts.specs.Playable.{IsPlayable};

/// A law: take a full-duplex run in which no end is deceived, cut after whichever event. A command that was handed out,
/// that its end's sender doesn't hold, and of which no transmission ends on the way to the other end, is not executed
/// there any more (manual topic: full-duplex protocol).
pub fn no_late_execution()
    ensures { (script : Script) → IsPlayable script → (record_of script).deceived ≡ 0 → IsOverForGood script }
{}

/// A law: take a half-duplex run in which no end is deceived, cut after whichever event. A command that was handed out,
/// that the master doesn't hold, and of which no transmission ends on the way to a station, is not executed by that
/// station any more (manual topic: half-duplex protocol).
pub fn no_late_execution_by_a_station()
    ensures { (script : Script) → IsHalfPlayable script → (record_of script).deceived ≡ 0 → IsOverThereForGood script }
{}

/// A law: in a full-duplex run in which no end is deceived, no end's sender holds a command that is undelivered, after
/// whichever event (manual topic: full-duplex protocol).
pub fn no_undelivered_command_is_held()
    ensures { (script : Script) → IsPlayable script → (record_of script).deceived ≡ 0 → NoUndeliveredIsHeld script }
{}

/// A law: in a full-duplex run in which no end is deceived, take an end whose `reply_ticks` are at least the ticks of
/// one message (67 by default), and whose ticks so far were all drained. Its sender holds no command that is
/// unanswered, after whichever event (manual topic: full-duplex protocol).
pub fn no_unanswered_command_is_held()
    ensures { (script : Script) → IsPlayable script → (record_of script).deceived ≡ 0 → NoUnansweredIsHeld script }
{}

/// A law: in a half-duplex run in which no end is deceived, the master holds no command whose outcome is known
/// (undelivered, unanswered or answered), after whichever event (manual topic: half-duplex protocol).
pub fn no_settled_command_is_held()
    ensures { (script : Script) → IsHalfPlayable script → (record_of script).deceived ≡ 0 → NoSettledIsHeld script }
{}

/// A law, over the lines of the report alone: take a run in which no end is deceived, cut after whichever event. Let an
/// event have delivered or lost as many bytes of the lane as the end had sent, with none sent since. Later lines do not
/// report as executed:
///
/// - a command of a full-duplex end that the lines so far report as undelivered;
/// - one that they report as unanswered, if the end's `reply_ticks` are at least the ticks of one message and its ticks
///   so far were all drained;
/// - at that station, a command of a master that they report as undelivered, unanswered or answered (manual topics:
///   full-duplex protocol, half-duplex protocol).
pub fn nothing_comes_late()
    ensures { (script : Script) → CanBePlayed script → (record_of script).deceived ≡ 0 → NothingComesLate script (record_of script) }
{}

/// A law: at the end of these two scripts a command is over, one of a full-duplex end and one of a master, so the
/// premises of the other laws are met (manual topics: full-duplex protocol, half-duplex protocol).
pub fn a_command_is_over()
    ensures full_duplex { GivesUp all_lost }
    ensures half_duplex { GivesUpAtMaster all_lost_to_a_station }
{}
