//! Laws of how long a command may have no outcome, and of when an end is idle. Their functions do nothing.
ghost use Rattle.std.specs.Prelude.{◌≡◌, true};
ghost use Rattle.script_parts.specs.declared.script.Script.{Script};
ghost use Rattle.script_parts.specs.HalfPlayable.{CanBePlayed};
ghost use Rattle.duplex_line.specs.Rest.{is_at_rest};
ghost use Rattle.duplex_line.specs.Run.{last_state};
ghost use Rattle.line_world.specs.Runs.{record_of};
ghost use Rattle.run_laws.specs.Bounds.{OutcomesCome};
ghost use Rattle.run_laws.specs.Idle.{EndsComeToIdle, IsLeftAlone};
ghost use Rattle.run_laws.specs.SharpBounds.{ComesToRest, IsOneTickShort, IsTwoTicksShort, lost_both_ways, no_poll_answered, two_waits};

/// A law: this holds in each run, whatever is lost, altered or foreign on the line, and deceived or not. The report
/// states the outcome of each command of an end once enough ticks came since the end issued its last command, at each
/// of which it had nothing to send. Enough is as many as all its commands and the replies of its station may take:
///
/// - for a command of a full-duplex end, the waits for a response to its message, or `reply_ticks` if that is more;
/// - for a reply, the waits for a response;
/// - for a command of a master, the waits for an ACK, and for each of `reply_ticks` a poll's wait and one more (manual
///   topics: full-duplex protocol, half-duplex protocol).
pub fn outcomes_come()
    ensures { (script : Script) → CanBePlayed script → OutcomesCome script (record_of script) }
{}

/// A law: the bound of a full-duplex end can't be lower: in a run with two commands and one reply the second command
/// has no outcome one drained tick before so many have come (manual topic: full-duplex protocol).
pub fn the_bound_is_reached()
    ensures { IsOneTickShort two_waits }
{}

/// A law: the bound of a master is near: in a run with one command it has no outcome two drained ticks before so many
/// have come (manual topic: half-duplex protocol).
pub fn the_bound_of_a_master_is_near()
    ensures { IsTwoTicksShort no_poll_answered }
{}

/// A law: this holds in each full-duplex run, whatever is lost, altered or foreign on the line, and deceived or not. If
/// at least so many drained ticks came at an end since it issued its last command and since its station executed its
/// last, each command of the end has its outcome. Its sender then holds no message, and no reply of its station waits
/// to be handed out (manual topic: full-duplex protocol).
pub fn ends_come_to_idle()
    ensures { (script : Script) → CanBePlayed script → EndsComeToIdle script (record_of script) }
{}

/// A law: if as many drained ticks as in `ends_come_to_idle` came at both ends of a full-duplex line, it is at rest if
/// nothing is under way and no decoder is inside an item (manual topic: full-duplex protocol).
pub fn a_line_comes_to_rest()
    ensures { (script : Script) → CanBePlayed script → IsLeftAlone script (record_of script) → is_at_rest (last_state script) ≡ true }
{}

/// A law: there is a run that meets this, in which a reply waits for a time (manual topic: full-duplex protocol).
pub fn a_lossy_line_comes_to_rest()
    ensures { ComesToRest lost_both_ways }
{}
