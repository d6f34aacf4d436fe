//! The commands `drill` and `storm`: the exit status and the note of a run.
//!
//! | Status | When | Note |
//! |---|---|---|
//! | 0 | the line was written | none |
//! | 5 | the output failed, and a first part of the line was written | `df1: output cannot be written` |
//! | 7 | out of memory, before anything was written | `df1: no memory` |
ghost use Rattle.std.specs.Prelude.{◌≡◌, ◌≤◌};
ghost use Rattle.line_world.specs.Recovery.{Recovers};
ghost use Rattle.line_world.specs.Runs.{record_of};
ghost use Rattle.df1_drill.specs.Storm.{storm_script};
ghost use Rattle.df1_drill.specs.Drill.{drill_script};
ghost use Rattle.df1_drill.specs.Telling.{drill_line, storm_line};
ghost use Rattle.df1_tool.specs.Drilling.{LineRun};

use crate::form::Rounds;
use crate::note::{Note, no_memory, output_failed};
use crate::refusal::{Refusal, refuse};
use df1_base::Sink;
use df1_drill::{DrillFault, MOST_ROUNDS, write_drill, write_storm};
use std::alloc::Global;

/// Runs the drill of these rounds, at most 20,000, writes its line to the output, and returns the status. If it isn't
/// 0, the note is written.
pub(crate) fn drill<K: Sink, N: Sink>(
    alloc: Global,
    rounds: Rounds,
    out: &mut K,
    note: &mut N,
) -> u8
    requires { rounds.count ≤ MOST_ROUNDS }
    ensures recovers { Recovers (drill_script rounds.seed rounds.count) (record_of (drill_script rounds.seed rounds.count)) }
    ensures line { LineRun (drill_line rounds.seed rounds.count)
        (record { held = K.held out.old; out_faults = K.faults out.old; noted = N.held note.old; note_faults = N.faults note.old })
        (record { held = K.held out.new; out_faults = K.faults out.new; noted = N.held note.new; note_faults = N.faults note.new })
        result }
{
    match write_drill(alloc, rounds.seed, rounds.count, out) {
        Ok(()) => 0,
        Err(fault) => refuse(&fault, note),
    }
}

/// Runs the storm of these rounds, at most 20,000, and writes its line, in the same way as `drill`.
pub(crate) fn storm<K: Sink, N: Sink>(
    alloc: Global,
    rounds: Rounds,
    out: &mut K,
    note: &mut N,
) -> u8
    requires { rounds.count ≤ MOST_ROUNDS }
    ensures recovers { Recovers (storm_script rounds.seed rounds.count) (record_of (storm_script rounds.seed rounds.count)) }
    ensures line { LineRun (storm_line rounds.seed rounds.count)
        (record { held = K.held out.old; out_faults = K.faults out.old; noted = N.held note.old; note_faults = N.faults note.old })
        (record { held = K.held out.new; out_faults = K.faults out.new; noted = N.held note.new; note_faults = N.faults note.new })
        result }
{
    match write_storm(alloc, rounds.seed, rounds.count, out) {
        Ok(()) => 0,
        Err(fault) => refuse(&fault, note),
    }
}

impl Refusal for DrillFault {
    ghost use Rattle.std.specs.Prelude.{◌≡◌};
    ghost use Rattle.df1_tool.specs.Drilling.{note_of_drill, status_of_drill};

    ghost status_of = { status_of_drill };

    ghost note_of = { note_of_drill };

    fn status(&self) -> u8 {
        match self {
            DrillFault::Output => 5,
            DrillFault::NoMemory => 7,
        }
    }

    fn note(&self) -> Note {
        match self {
            DrillFault::Output => output_failed(),
            DrillFault::NoMemory => no_memory(),
        }
    }
}
