//! The command `check`: the exit status of counting the items that are decoded in a capture.
//!
//! | Status | When |
//! |---|---|
//! | 0 | no decoded item is a fault of the line, and no item is unfinished at the end |
//! | 1 | an item is a fault, or unfinished |
ghost use Rattle.df1_tool.specs.Captures.{CheckRun};

use crate::refusal::refuse;
use df1_base::{Sink, Source};
use df1_capture::{Capture, check};

/// Counts the items that are decoded in the input, writes the counts to the output, and returns the status.
/// If it is neither 0 nor 1, the note is written.
pub(crate) fn run<S: Source, K: Sink, N: Sink>(
    capture: Capture,
    input: &mut S,
    out: &mut K,
    note: &mut N,
) -> u8
    ensures { CheckRun capture.side capture.check
        (record { left = S.left input.old; input_faults = S.faults input.old; held = K.held out.old; out_faults = K.faults out.old; noted = N.held note.old; note_faults = N.faults note.old })
        (record { left = S.left input.new; input_faults = S.faults input.new; held = K.held out.new; out_faults = K.faults out.new; noted = N.held note.new; note_faults = N.faults note.new })
        result }
{
    match check(capture, input, out) {
        Ok(faulty) => u8::from(faulty),
        Err(fault) => refuse(&fault, note),
    }
}
