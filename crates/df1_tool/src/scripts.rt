//! The commands `route` and `rehearse`, which read the whole script before anything is written: their status and note.
//!
//! | Status | Note |
//! |---|---|
//! | 0 | none |
//! | 3 | `df1: line N: CAUSE` |
//! | 4 | `df1: input cannot be read` |
//! | 5 | `df1: output cannot be written` |
//! | 7 | `df1: no memory` |
ghost use Rattle.std.specs.Prelude.{◌≡◌, ◌≢◌, ◌≤◌, ◌*◌, ◌/◌, length};
ghost use Rattle.line_script.specs.declared.profile.Profile.{Profile as Purpose};
ghost use Rattle.whole_scripts.specs.Rehearsals.{HasPulled, HasPushed, pulled_text, pushed_text};
ghost use Rattle.whole_scripts.specs.Routes.{HasRouted, route_text};
ghost use Rattle.df1_tool.specs.Scripts.{ScriptRun};

use crate::note::{Note, input_failed, no_memory, output_failed};
use crate::refusal::{Refusal, refuse};
use crate::replaying::refused;
use df1_base::{Sink, Source};
use std::alloc::Global;
use whole_scripts::{RunFault, pull_input, push_input, route_input};

/// Runs the route of the input, writes its report to the output, and returns the status. If it isn't 0, the note is
/// written.
pub(crate) fn route<S: Source, K: Sink, N: Sink>(
    alloc: Global,
    input: &mut S,
    out: &mut K,
    note: &mut N,
) -> u8
    ensures run { ScriptRun Purpose.Route route_text HasRouted
        (record { left = S.left input.old; input_faults = S.faults input.old; held = K.held out.old; out_faults = K.faults out.old; noted = N.held note.old; note_faults = N.faults note.old })
        (record { left = S.left input.new; input_faults = S.faults input.new; held = K.held out.new; out_faults = K.faults out.new; noted = N.held note.new; note_faults = N.faults note.new })
        result }
    ensures unwritten { result ≢ 0 → result ≢ 5 → out.new ≡ out.old }
{
    match route_input(alloc, input, out) {
        Ok(()) => 0,
        Err(fault) => refuse(&fault, note),
    }
}

/// Rehearses a transfer that reads so many words, 1 to 3,000, of a file, 0 to 999, over the script of the input, and
/// returns the status, as `route` does.
pub(crate) fn pull<S: Source, K: Sink, N: Sink>(
    alloc: Global,
    input: &mut S,
    out: &mut K,
    note: &mut N,
    file: u16,
    count: u16,
) -> u8
    requires file { file ≤ 999 }
    requires words { (1 ≤ count) × (count ≤ 3000) }
    ensures run { ScriptRun Purpose.Rehearse (pulled_text file count) (HasPulled file count)
        (record { left = S.left input.old; input_faults = S.faults input.old; held = K.held out.old; out_faults = K.faults out.old; noted = N.held note.old; note_faults = N.faults note.old })
        (record { left = S.left input.new; input_faults = S.faults input.new; held = K.held out.new; out_faults = K.faults out.new; noted = N.held note.new; note_faults = N.faults note.new })
        result }
    ensures unwritten { result ≢ 0 → result ≢ 5 → out.new ≡ out.old }
{
    match pull_input(alloc, input, out, file, count) {
        Ok(()) => 0,
        Err(fault) => refuse(&fault, note),
    }
}

/// Rehearses a transfer that writes words, 1 to 3,000 with their low bytes first, in the same way.
pub(crate) fn push<S: Source, K: Sink, N: Sink>(
    alloc: Global,
    input: &mut S,
    out: &mut K,
    note: &mut N,
    file: u16,
    bytes: &[u8],
) -> u8
    requires file { file ≤ 999 }
    requires words { (2 ≤ length bytes.now) × (length bytes.now ≤ 6000) }
    requires even { length bytes.now ≡ 2 * (length bytes.now / 2) }
    ensures run { ScriptRun Purpose.Rehearse (pushed_text file bytes.now) (HasPushed file bytes.now)
        (record { left = S.left input.old; input_faults = S.faults input.old; held = K.held out.old; out_faults = K.faults out.old; noted = N.held note.old; note_faults = N.faults note.old })
        (record { left = S.left input.new; input_faults = S.faults input.new; held = K.held out.new; out_faults = K.faults out.new; noted = N.held note.new; note_faults = N.faults note.new })
        result }
    ensures unwritten { result ≢ 0 → result ≢ 5 → out.new ≡ out.old }
{
    match push_input(alloc, input, out, file, bytes) {
        Ok(()) => 0,
        Err(fault) => refuse(&fault, note),
    }
}

impl Refusal for RunFault {
    ghost use Rattle.std.specs.Prelude.{◌≡◌};
    ghost use Rattle.df1_tool.specs.Scripts.{note_of_run, status_of_run};

    ghost status_of = { status_of_run };

    ghost note_of = { note_of_run };

    fn status(&self) -> u8 {
        match self {
            RunFault::Refusal { .. } => 3,
            RunFault::Input => 4,
            RunFault::Output => 5,
            RunFault::NoMemory => 7,
        }
    }

    fn note(&self) -> Note {
        match self {
            RunFault::Refusal { line, cause } => refused(*line, *cause),
            RunFault::Input => input_failed(),
            RunFault::Output => output_failed(),
            RunFault::NoMemory => no_memory(),
        }
    }
}
