//! The run of a drill or a storm, and the writing of its line.
ghost use Rattle.std.specs.Prelude.{◌≡◌, ◌≤◌};
ghost use Rattle.script_parts.specs.HalfPlayable.{CanBePlayed};
ghost use Rattle.line_world.specs.Recovery.{Recovers};
ghost use Rattle.line_world.specs.Runs.{record_of};
ghost use Rattle.df1_drill.specs.Storm.{storm_script};
ghost use Rattle.df1_drill.specs.Drill.{drill_script as the_drill};
ghost use Rattle.df1_drill.specs.Telling.{LineWritten, drill_line, run_line, storm_line};

use crate::drilled::run_tally;
use crate::script::drill_script;
use crate::storm_script::storm;
use df1_base::{Failed, NoMemory, Sink, write_all};
use round_scripts::MOST_ROUNDS;
use script_parts::Script;
use std::alloc::Global;
use thiserror::Error;

/// The reason why the line of a drill or a storm isn't written.
#[derive(Clone, Copy, Debug, PartialEq, Eq, Error)]
pub enum DrillFault {
    /// The output has failed.
    #[error("the output failed")]
    Output,
    /// There is no memory left.
    #[error("no memory")]
    NoMemory,
}

/// Runs the drill of `count` rounds, at most 20,000, and writes its line to the output. Returns `Output` only if the
/// output's count of faults rose; then a first part of the line was written. With `NoMemory` nothing was. If the line
/// recovers from what the drill does to the bytes, all its commands are executed and answered.
pub fn write_drill<K: Sink>(
    alloc: Global,
    seed: u32,
    count: u32,
    out: &mut K,
) -> Result<(), DrillFault>
    requires { count ≤ MOST_ROUNDS }
    ensures recovers { Recovers (the_drill seed count) (record_of (the_drill seed count)) }
    ensures line { LineWritten (drill_line seed count) (K.held out.old) (K.held out.new) (K.faults out.old) (K.faults out.new) result }
{
    match drill_script(alloc, seed, count) {
        Ok(script) => write_run(alloc, &script, out),
        Err(NoMemory) => Err(DrillFault::NoMemory),
    }
}

/// Runs the storm of `count` rounds, at most 20,000, and writes its line to the output, in the same way as
/// `write_drill`.
pub fn write_storm<K: Sink>(
    alloc: Global,
    seed: u32,
    count: u32,
    out: &mut K,
) -> Result<(), DrillFault>
    requires { count ≤ MOST_ROUNDS }
    ensures recovers { Recovers (storm_script seed count) (record_of (storm_script seed count)) }
    ensures line { LineWritten (storm_line seed count) (K.held out.old) (K.held out.new) (K.faults out.old) (K.faults out.new) result }
{
    match storm(alloc, seed, count) {
        Ok(script) => write_run(alloc, &script, out),
        Err(NoMemory) => Err(DrillFault::NoMemory),
    }
}

/// Runs a script that can be played, and writes the line that reports the result.
fn write_run<K: Sink>(alloc: Global, script: &Script, out: &mut K) -> Result<(), DrillFault>
    requires { CanBePlayed script.now }
    ensures { LineWritten (run_line script.now) (K.held out.old) (K.held out.new) (K.faults out.old) (K.faults out.new) result }
{
    match run_tally(alloc, script) {
        Ok(drilled) => match write_all(out, &drilled.line()) {
            Ok(()) => Ok(()),
            Err(Failed) => Err(DrillFault::Output),
        },
        Err(NoMemory) => Err(DrillFault::NoMemory),
    }
}
