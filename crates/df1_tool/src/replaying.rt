//! The command `replay`: the exit status and the note of a replay of the input.
//!
//! | Status | Note |
//! |---|---|
//! | 0 | none |
//! | 3 | `df1: line N: CAUSE` |
//! | 4 | `df1: input cannot be read` |
//! | 5 | `df1: output cannot be written` |
//! | 7 | `df1: no memory` |
ghost use Rattle.std.specs.Prelude.{◌≡◌, ◌≤◌, ◌⊎◌, ◌≢◌, ℕ, length};
ghost use Rattle.std.specs.Option.{ForSome};
ghost use Rattle.df1_base.specs.Outside.{Rose};
ghost use Rattle.line_script.specs.declared.fault.Cause.{Cause as Fault};
ghost use Rattle.df1_replay.specs.Outcome.{Answered, BrokenOff, CutOff, Refused, Written, replayed, told};
ghost use Rattle.df1_replay.specs.Replayed.{Replayed};
ghost use Rattle.df1_tool.specs.Notes.{IsNoted};
ghost use Rattle.df1_tool.specs.Replays.{IsReplayStatus, cause_text, line_note, note_at, status_for};

use crate::note::{Note, input_failed, no_memory, noted, output_failed};
use crate::refusal::{Refusal, refuse};
use df1_base::{Sink, Source, append};
use df1_replay::{ReplayFault, replay_input};
use line_script::Cause;
use std::alloc::Global;

/// Replays the input to the output, and returns the status. If it isn't 0, the note is written.
pub(crate) fn run<S: Source, K: Sink, N: Sink>(
    alloc: Global,
    input: &mut S,
    out: &mut K,
    note: &mut N,
) -> u8
    ensures statuses { IsReplayStatus result }
    ensures done { result ≡ 0 → Answered replayed (S.left input.old) (S.left input.new) (K.held out.old) (K.held out.new) }
    ensures calm { result ≡ 0 → (S.faults input.new ≡ S.faults input.old) × (note.new ≡ note.old) }
    ensures replayed { result ≡ 0 → Replayed (S.left input.old) (S.left input.new) (K.held out.old) (K.held out.new) }
    ensures refusal { result ≡ 3 → (line : ℕ) × (fault : Fault)
        × Refused (S.left input.old) (S.left input.new) (K.held out.old) (K.held out.new) (S.faults input.old) (S.faults input.new) line fault
        × IsNoted (N.held note.old) (N.held note.new) (N.faults note.old) (N.faults note.new) (line_note line fault) }
    ensures input { result ≡ 4 → BrokenOff (S.left input.old) (S.left input.new) (K.held out.old) (K.held out.new) (S.faults input.old) (S.faults input.new) }
    ensures output { result ≡ 5 → Rose (K.faults out.old) (K.faults out.new) × (S.faults input.new ≡ S.faults input.old)
        × CutOff (S.left input.old) (S.left input.new) (K.held out.old) (K.held out.new) }
    ensures steady { result ≢ 5 → K.faults out.new ≡ K.faults out.old }
    ensures memory { result ≡ 7 → S.faults input.new ≡ S.faults input.old }
    ensures exact { ¬ Rose (S.faults input.old) (S.faults input.new) → ¬ Rose (K.faults out.old) (K.faults out.new)
        → ForSome (S.left input.old) (λ bytes. (result ≡ status_for bytes) ⊎ (result ≡ 7)) }
    ensures written { Written told (S.left input.old) (S.left input.new) (K.held out.old) (K.held out.new) }
    ensures note { result ≢ 0 → result ≢ 3 → IsNoted (N.held note.old) (N.held note.new) (N.faults note.old) (N.faults note.new) (note_at result) }
{
    match replay_input(alloc, input, out) {
        Ok(()) => 0,
        Err(fault) => refuse(&fault, note),
    }
}

impl Refusal for ReplayFault {
    ghost use Rattle.std.specs.Prelude.{◌≡◌};
    ghost use Rattle.df1_tool.specs.Replays.{note_of_replay, status_of_replay};

    ghost status_of = { status_of_replay };

    ghost note_of = { note_of_replay };

    fn status(&self) -> u8 {
        match self {
            ReplayFault::Refusal { .. } => 3,
            ReplayFault::Input => 4,
            ReplayFault::Output => 5,
            ReplayFault::NoMemory => 7,
        }
    }

    fn note(&self) -> Note {
        match self {
            ReplayFault::Refusal { line, cause } => refused(*line, *cause),
            ReplayFault::Input => input_failed(),
            ReplayFault::Output => output_failed(),
            ReplayFault::NoMemory => no_memory(),
        }
    }
}

/// Returns the note of a refused line.
pub(crate) fn refused(line: u32, cause: Cause) -> Note
    ensures { result.items ≡ line_note line cause }
{
    let mut note = noted(b"df1: line ");
    let mut digits = itoa::Buffer::new();
    append(&mut note, digits.format(line).as_bytes());
    append(&mut note, b": ");
    append(&mut note, text_of(cause));
    append(&mut note, b"\n");
    note
}

/// Returns the word for a cause.
fn text_of(cause: Cause) -> &'static [u8]
    ensures value { result.now ≡ cause_text cause }
    ensures short { length result.now ≤ 8 }
{
    match cause {
        Cause::Size => b"size",
        Cause::Long => b"long",
        Cause::After => b"after",
        Cause::Form => b"form",
        Cause::Place => b"place",
        Cause::Missing => b"missing",
        Cause::Value => b"value",
        Cause::Twice => b"twice",
        Cause::Spent => b"spent",
        Cause::Events => b"events",
        Cause::NoEnd => b"open",
    }
}
