//! Each command once: laws of the run of a half-duplex script. The functions do nothing.
ghost use Rattle.std.specs.Prelude.{◌≡◌};
ghost use Rattle.script_statement.specs.declared.who.Who.TheVariants.{M};
ghost use Rattle.script_parts.specs.declared.script.Script.{Script};
ghost use Rattle.script_parts.specs.HalfPlayable.{IsHalfPlayable};
ghost use Rattle.each_once.specs.Commands.{AreOutcomesTold};
ghost use Rattle.half_line.specs.Behind.{plain_node};
ghost use Rattle.half_line.specs.Issues.{issued_of};
ghost use Rattle.half_line.specs.Run.{start, last_state, lines_after, record_of};
ghost use Rattle.half_line.specs.Once.{EachOnce};

/// A law: in every run, whatever is received, the lines report for each command of the master how it ended, once, and
/// for no other (manual topic: message packets).
pub fn outcomes_are_told()
    ensures { (script : Script) → IsHalfPlayable script → AreOutcomesTold M (issued_of (last_state script).master) (lines_after plain_node (start script) script.events) }
{}

/// A law: in a run that deceives no end, whatever is lost, altered, foreign or late, each station executes commands
/// that the master issued to it, each once, those of each source in their order. Its words are what these made of the
/// first values, and each reply that the master accepts from it is what the station answered to that very command
/// (manual topic: half-duplex protocol).
#[tactic(auto, unfolding(crate::specs::Run::record_of))]
pub fn each_command_once_at_each_station()
    ensures { (script : Script) → IsHalfPlayable script → (record_of script).deceived ≡ 0 → EachOnce script (record_of script) }
{}
