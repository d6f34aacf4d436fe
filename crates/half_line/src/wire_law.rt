//! What the ends send: a law of the run of a half-duplex script. The function does nothing.
ghost use Rattle.script_parts.specs.declared.script.Script.{Script};
ghost use Rattle.script_parts.specs.HalfPlayable.{IsHalfPlayable};
ghost use Rattle.half_line.specs.Run.{record_of};
ghost use Rattle.half_line.specs.Wire.{AreDf1Wires};

/// A law: in every run, even one that deceives an end, what the master sent and what each station sent, joined from the
/// lines of the report, is DF1: whole messages, polls, responses and EOTs, at the end perhaps an incomplete one, and
/// nothing else. Its messages, each perhaps several times in a row, are those that the end's host handed out: commands
/// that the script issues there, and replies that its station made. If no end is deceived, no two of them have the same
/// key (manual topic: half-duplex protocol).
#[tactic(auto, unfolding(crate::specs::Run::record_of))]
pub fn what_is_on_the_wire_is_df1()
    ensures { (script : Script) → IsHalfPlayable script → AreDf1Wires script (record_of script) }
{}
