//! The law of the order in which commands of one source are executed. The function does nothing.
ghost use Rattle.std.specs.Prelude.{◌≡◌};
ghost use Rattle.script_parts.specs.declared.script.Script.{Script};
ghost use Rattle.script_parts.specs.HalfPlayable.{CanBePlayed};
ghost use Rattle.line_world.specs.Runs.{record_of};
ghost use Rattle.run_laws.specs.Overtaking.{NothingIsOvertaken};

/// A law: this holds in a run in which no end is deceived, cut after whichever event. Once a station has executed a
/// command, or a reply to it is reported, no command of the same source with a lower number is executed at that station
/// any more (manual topics: full-duplex protocol, half-duplex protocol).
pub fn nothing_is_overtaken()
    ensures { (script : Script) → CanBePlayed script → (record_of script).deceived ≡ 0 → NothingIsOvertaken script (record_of script) }
{}
