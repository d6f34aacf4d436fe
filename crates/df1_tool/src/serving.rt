//! The commands `serve`, `issue`, `pull` and `push`, which serve a plan's end over the input and the output: their
//! status and note.
//!
//! | Status | Note |
//! |---|---|
//! | 0 | none, the outcomes of the plan's commands, or the result of the transfer |
//! | 3 | `df1: plan: CAUSE`, `df1: record at P: form`, `df1: record at P: cut` |
//! | 4 | `df1: input cannot be read` |
//! | 5 | `df1: output cannot be written` |
//! | 6 | `df1: plan cannot be read`, `df1: plan is over 1048576 bytes` |
//! | 7 | `df1: no memory` |
//! | 8 | `df1: input is over 268435456 bytes` |
ghost use Rattle.std.specs.Prelude.{◌≡◌, ◌⊎◌, ◌≤◌, ◌++◌, IfErr, IfOk, codes, length};
ghost use Rattle.df1_service.specs.Service.{CanBeIssued, seen, serving_of};
ghost use Rattle.df1_tool.specs.Notes.{IsNoted};
ghost use Rattle.df1_tool.specs.Served.{IsFinished, ServiceRun, note_of_fault, status_of_fault, told_of};

use crate::note::{
    Note, input_failed, input_too_long, no_memory, noted, output_failed, with_number,
};
use crate::refusal::{Refusal, refuse};
use crate::top::Ran;
use df1_base::{Failed, Sink, Source, append};
use df1_node::Node;
use df1_plan::PlanFault;
use df1_service::{Issues, Service, ServiceFault, serve_plan, write_told};
use df1_shelf::Shelf;
use duplex_end::End;
use std::alloc::Global;

/// Serves the end of the plan of this name.
pub(crate) fn run<H: Shelf, S: Source, K: Sink, N: Sink>(
    alloc: Global,
    mut shelf: H,
    name: &str,
    service: Service<'_>,
    input: S,
    out: K,
    mut note: N,
) -> Ran<H, S, K, N>
    requires { CanBeIssued (seen service.issues) }
    ensures serves { ServiceRun (serving_of service.entry) name.now
        (record { files = H.file shelf; shelf_faults = H.faults shelf; left = S.left input; input_faults = S.faults input; held = K.held out; out_faults = K.faults out; noted = N.held note; note_faults = N.faults note })
        (record { files = H.file result.shelf; shelf_faults = H.faults result.shelf; left = S.left result.input; input_faults = S.faults result.input; held = K.held result.out; out_faults = K.faults result.out; noted = N.held result.note; note_faults = N.faults result.note })
        result.status }
    ensures before { (result.status ≡ 6) ⊎ (result.status ≡ 7) → (result.input ≡ input) × (result.out ≡ out) }
{
    let ended = serve_plan(alloc, &mut shelf, name, service, input, out);
    let status = tell(&ended.end, service.issues, &mut note);
    Ran {
        status,
        shelf,
        input: ended.input,
        out: ended.out,
        note,
    }
}

/// Writes the note of how a service ended, and returns the status.
fn tell<N: Sink>(ended: &Result<End<Node>, ServiceFault>, issues: Issues<'_>, note: &mut N) -> u8
    requires { CanBeIssued (seen issues) }
    ensures finished { IfOk ended.now (λ end. IsFinished (N.held note.old) (N.held note.new) (N.faults note.old) (N.faults note.new) (told_of (seen issues.entry) end) result) }
    ensures refused { IfErr ended.now (λ fault. (result ≡ status_of_fault fault) × IsNoted (N.held note.old) (N.held note.new) (N.faults note.old) (N.faults note.new) (note_of_fault fault)) }
{
    match ended {
        Ok(end) => finish(end, issues, note),
        Err(fault) => refuse(fault, note),
    }
}

/// Writes what became of the commands of an end, and returns the status.
fn finish<N: Sink>(end: &End<Node>, issues: Issues<'_>, note: &mut N) -> u8
    requires { CanBeIssued (seen issues) }
    ensures { IsFinished (N.held note.old) (N.held note.new) (N.faults note.old) (N.faults note.new) (told_of (seen issues.entry) end.now) result }
{
    match write_told(end.host().initiator(), issues, note) {
        Ok(()) => 0,
        Err(Failed) => 5,
    }
}

impl Refusal for ServiceFault {
    ghost use Rattle.std.specs.Prelude.{◌≡◌};
    ghost use Rattle.df1_tool.specs.Served.{note_of_fault, status_of_fault};

    ghost status_of = { status_of_fault };

    ghost note_of = { note_of_fault };

    fn status(&self) -> u8 {
        match self {
            ServiceFault::Plan(_) | ServiceFault::Form(_) | ServiceFault::Cut(_) => 3,
            ServiceFault::Input => 4,
            ServiceFault::Output => 5,
            ServiceFault::PlanFailed | ServiceFault::PlanTooLong => 6,
            ServiceFault::NoMemory => 7,
            ServiceFault::TooLong => 8,
        }
    }

    fn note(&self) -> Note {
        match self {
            ServiceFault::PlanFailed => noted(b"df1: plan cannot be read\n"),
            ServiceFault::PlanTooLong => noted(b"df1: plan is over 1048576 bytes\n"),
            ServiceFault::Plan(cause) => plan_note(*cause),
            ServiceFault::Form(at) => with_number(b"df1: record at ", *at, b": form\n"),
            ServiceFault::Cut(at) => with_number(b"df1: record at ", *at, b": cut\n"),
            ServiceFault::Input => input_failed(),
            ServiceFault::Output => output_failed(),
            ServiceFault::TooLong => input_too_long(),
            ServiceFault::NoMemory => no_memory(),
        }
    }
}

/// Returns the note of a plan that is refused.
fn plan_note(cause: PlanFault) -> Note
    ensures { result.items ≡ note_of_fault (ServiceFault.Plan cause) }
{
    match cause {
        PlanFault::Text => noted(b"df1: plan: text\n"),
        PlanFault::UnknownKey => noted(b"df1: plan: unknown key\n"),
        PlanFault::Key(key) => with_word(b"df1: plan: key ", key.name().as_bytes()),
        PlanFault::File(n) => with_number(b"df1: plan: file ", u64::from(n), b"\n"),
        PlanFault::Issue(n) => with_number(b"df1: plan: issue ", u64::from(n), b"\n"),
        PlanFault::NoMemory => noted(b"df1: plan: no memory\n"),
    }
}

/// Returns a note of a text and a word.
fn with_word(text: &[u8], word: &[u8]) -> Note
    requires text { length text.now ≤ 16 }
    requires word { length word.now ≤ 16 }
    ensures { result.items ≡ text.now ++ word.now ++ codes "\n" }
{
    let mut note = noted(text);
    append(&mut note, word);
    append(&mut note, b"\n");
    note
}
