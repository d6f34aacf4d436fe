//! The command `dissect`, and the faults by which `dissect` or `check` stops before the end of a capture.
//!
//! | Status | Note |
//! |---|---|
//! | 4 | `df1: input cannot be read` |
//! | 5 | `df1: output cannot be written` |
//! | 8 | `df1: input is over 268435456 bytes` |
ghost use Rattle.df1_tool.specs.Captures.{DissectRun};

use crate::note::{Note, input_failed, input_too_long, output_failed};
use crate::refusal::{Refusal, refuse};
use df1_base::{Sink, Source};
use df1_capture::{Capture, CaptureFault, dissect};

/// Dissects the input to the output, and returns the status. If it isn't 0, the note is written.
pub(crate) fn run<S: Source, K: Sink, N: Sink>(
    capture: Capture,
    input: &mut S,
    out: &mut K,
    note: &mut N,
) -> u8
    ensures { DissectRun capture.side capture.check
        (record { left = S.left input.old; input_faults = S.faults input.old; held = K.held out.old; out_faults = K.faults out.old; noted = N.held note.old; note_faults = N.faults note.old })
        (record { left = S.left input.new; input_faults = S.faults input.new; held = K.held out.new; out_faults = K.faults out.new; noted = N.held note.new; note_faults = N.faults note.new })
        result }
{
    match dissect(capture, input, out) {
        Ok(()) => 0,
        Err(fault) => refuse(&fault, note),
    }
}

impl Refusal for CaptureFault {
    ghost use Rattle.std.specs.Prelude.{◌≡◌};
    ghost use Rattle.df1_tool.specs.Captures.{note_of_capture, status_of_capture};

    ghost status_of = { status_of_capture };

    ghost note_of = { note_of_capture };

    fn status(&self) -> u8 {
        match self {
            CaptureFault::Input => 4,
            CaptureFault::Output => 5,
            CaptureFault::TooLong => 8,
        }
    }

    fn note(&self) -> Note {
        match self {
            CaptureFault::Input => input_failed(),
            CaptureFault::Output => output_failed(),
            CaptureFault::TooLong => input_too_long(),
        }
    }
}
