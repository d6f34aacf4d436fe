//! Undisturbed runs: laws of the run of a half-duplex script. The functions do nothing.
ghost use Rattle.std.specs.Prelude.{◌≡◌, ◌∷◌, []};
ghost use Rattle.script_statement.specs.declared.who.Who.TheVariants.{M, S};
ghost use Rattle.script_parts.specs.declared.script.Script.{Script};
ghost use Rattle.script_parts.specs.HalfPlayable.{IsHalfPlayable};
ghost use Rattle.each_once.specs.Tells.{executed_in, answers_in};
ghost use Rattle.half_line.specs.Run.{plan_of_m, record_of};
ghost use Rattle.half_line.specs.Prompt.{HasTurns, IsUndisturbed};
ghost use Rattle.half_line.specs.Complete.{IsComplete};
ghost use Rattle.half_line.specs.Example.{polled_write, the_command, the_reply, two_stations, first_echo, first_echoed, second_echo, second_echoed};

/// A law: there is a run that nothing disturbs and that ends with no reply left at a station; in it no end is deceived,
/// and all commands are executed and answered. A write to a station, whose reply a poll fetches, is such a run (manual
/// topic: half-duplex protocol).
#[tactic(auto, unfolding(crate::specs::Run::record_of))]
pub fn a_polled_write_is_executed_and_answered()
    ensures playable { IsHalfPlayable polled_write }
    ensures undisturbed { IsUndisturbed polled_write }
    ensures complete { IsComplete polled_write (record_of polled_write) }
    ensures executed { executed_in (S 3) (record_of polled_write).lines ≡ the_command ∷ [] }
    ensures executed_none { executed_in (S 5) (record_of polled_write).lines ≡ [] }
    ensures answered { answers_in M (record_of polled_write).lines ≡ (1, the_reply) ∷ [] }
{}

/// A law: so is a run in which two commands are outstanding at two stations; the station of the second is polled first,
/// so its answer comes first (manual topic: half-duplex protocol).
#[tactic(auto, unfolding(crate::specs::Run::record_of))]
pub fn commands_of_two_stations_are_executed_and_answered()
    ensures playable { IsHalfPlayable two_stations }
    ensures undisturbed { IsUndisturbed two_stations }
    ensures complete { IsComplete two_stations (record_of two_stations) }
    ensures executed { executed_in (S 5) (record_of two_stations).lines ≡ first_echo ∷ [] }
    ensures executed_too { executed_in (S 3) (record_of two_stations).lines ≡ second_echo ∷ [] }
    ensures answered { answers_in M (record_of two_stations).lines ≡ (2, second_echoed) ∷ (1, first_echoed) ∷ [] }
{}

/// A law: let each station have room for as many replies as the master may have commands outstanding, and let the
/// master wait more ticks for a reply than that number times the number of its stations. In a run that loses, alters
/// and adds no byte, in which few ticks come while something is under way, and which ends with nothing under way and no
/// reply left at a station:
///
/// - no end is deceived;
/// - each station executes all commands that were issued to it, each once, those of each source in their order;
/// - the master accepts its replies to them in that order;
/// - each command is reported as answered, by its own reply (manual topic: half-duplex protocol).
#[tactic(auto, unfolding(crate::specs::Run::record_of))]
pub fn an_undisturbed_polled_run_is_complete()
    ensures { (script : Script) → IsHalfPlayable script → IsUndisturbed script → IsComplete script (record_of script) }
{}

/// A law: a master that may have one command outstanding waits long enough for each station's turn, in every script
/// (manual topic: half-duplex protocol).
pub fn one_command_has_its_turn()
    ensures { (script : Script) → IsHalfPlayable script → (plan_of_m script).window ≡ 1 → HasTurns script }
{}
