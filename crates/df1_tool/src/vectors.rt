//! The command `vectors`: the exit status and the note of a run of the forty cases.
//!
//! | Status | When | Note |
//! |---|---|---|
//! | 0 | the line was written, and no case differs | none |
//! | 1 | the line was written, and a case differs | none |
//! | 5 | the output failed, and a first part of the line was written | `df1: output cannot be written` |
//! | 7 | out of memory, before anything was written | `df1: no memory` |
ghost use Rattle.std.specs.Prelude.{◌≡◌};
ghost use Rattle.df1_tool.specs.Vectors.{VectorsRun, status_by};

use crate::note::{Note, no_memory, output_failed};
use crate::refusal::{Refusal, refuse};
use df1_base::Sink;
use std::alloc::Global;
use vector_suite::{VectorsFault, write_vectors};

/// Runs the forty cases, writes the line that reports the result to the output, and returns the status.
/// If that is 5 or 7, the note is written.
pub(crate) fn run<K: Sink, N: Sink>(alloc: Global, out: &mut K, note: &mut N) -> u8
    ensures { VectorsRun
        (record { held = K.held out.old; out_faults = K.faults out.old; noted = N.held note.old; note_faults = N.faults note.old })
        (record { held = K.held out.new; out_faults = K.faults out.new; noted = N.held note.new; note_faults = N.faults note.new })
        result }
{
    match write_vectors(alloc, out) {
        Ok(place) => status_by(place),
        Err(fault) => refuse(&fault, note),
    }
}

/// Returns the status of a run whose line was written, by the place of the first case that differs, if one does.
fn status_by(place: Option<usize>) -> u8
    ensures { result ≡ status_by place }
{
    match place {
        None => 0,
        Some(_) => 1,
    }
}

impl Refusal for VectorsFault {
    ghost use Rattle.std.specs.Prelude.{◌≡◌};
    ghost use Rattle.df1_tool.specs.Vectors.{note_of_vectors, status_of_vectors};

    ghost status_of = { status_of_vectors };

    ghost note_of = { note_of_vectors };

    fn status(&self) -> u8 {
        match self {
            VectorsFault::Output => 5,
            VectorsFault::NoMemory => 7,
        }
    }

    fn note(&self) -> Note {
        match self {
            VectorsFault::Output => output_failed(),
            VectorsFault::NoMemory => no_memory(),
        }
    }
}
