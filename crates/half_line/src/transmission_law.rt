//! The transmissions of a run: a law of the run of a half-duplex script. The function does nothing.
ghost use Rattle.script_parts.specs.declared.script.Script.{Script};
ghost use Rattle.script_parts.specs.HalfPlayable.{IsHalfPlayable};
ghost use Rattle.half_line.specs.Transmissions.{AreAllInOrder};

/// A law: in every run, even one that deceives an end, and so at each point of it, this holds of each direction between
/// the master and a station. The last bytes of transmissions that arrived, followed by those on their way, have
/// strictly rising numbers, each of a transmission that the end started. The last byte of transmission n carries the
/// body of that transmission (manual topic: half-duplex protocol).
pub fn transmissions_are_in_order()
    ensures { (script : Script) → IsHalfPlayable script → AreAllInOrder script }
{}
