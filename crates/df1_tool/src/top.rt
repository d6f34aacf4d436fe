//! The top call.
//!
//! | Status | When |
//! |---|---|
//! | 0 | the input was read to its end (`drill`, `storm` and `vectors` don't read it), and all text was written |
//! | 1 | `check`: as for 0, and an item is a fault of the line or unfinished; `vectors`: a case differs |
//! | 2 | exactly if the words are none of the forms |
//! | 3 | the script, the plan or a timed record is refused; the note says which and why |
//! | 4 | only if the input's count of faults rose |
//! | 5 | only if the output's count of faults rose, or the note's |
//! | 6 | the plan can't be read, or is over its limit |
//! | 7 | out of memory; never with `dissect` and `check` |
//! | 8 | the input of `serve`, `issue`, `pull`, `push`, `dissect` or `check` is over its limit |
//!
//! If several apply, the status is that of the first fault in time.
ghost use Rattle.std.specs.Prelude.{◌≡◌, ◌⊎◌, ◌↔◌, ◌≢◌, ℕ, List, [], None, Some, map, slice_index_or, string_bytes, true, IsTrue};
ghost use Rattle.std.specs.Option.{ForSome};
ghost use Rattle.df1_base.specs.Outside.{Rose};
ghost use Rattle.df1_replay.specs.Outcome.{Answered, BrokenOff, CutOff, Refused, Written, replayed, told};
ghost use Rattle.df1_replay.specs.Replayed.{Replayed};
ghost use Rattle.df1_tool.specs.Notes.{IsNoted, usage};
ghost use Rattle.df1_tool.specs.Served.{ServiceRun};
ghost use Rattle.df1_tool.specs.Captures.{CheckRun, DissectRun};
ghost use Rattle.line_world.specs.Recovery.{Recovers};
ghost use Rattle.line_world.specs.Runs.{record_of};
ghost use Rattle.df1_drill.specs.Storm.{storm_script};
ghost use Rattle.df1_drill.specs.Drill.{drill_script};
ghost use Rattle.df1_drill.specs.Telling.{drill_line, storm_line};
ghost use Rattle.df1_tool.specs.Drilling.{LineRun};
ghost use Rattle.df1_tool.specs.Vectors.{VectorsRun};
ghost use Rattle.df1_tool.specs.Scripts.{ScriptRun};
ghost use Rattle.whole_scripts.specs.Rehearsals.{HasPulled, HasPushed, pulled_text, pushed_text};
ghost use Rattle.whole_scripts.specs.Routes.{HasRouted, route_text};
ghost use Rattle.line_script.specs.declared.profile.Profile.{Profile as Purpose};
ghost use Rattle.df1_capture.specs.declared.capture.Capture.{Capture as OneCapture};
ghost use Rattle.df1_tool.specs.declared.form.Form.{Form as Asked};
ghost use Rattle.df1_tool.specs.declared.form.Form.TheVariants.{Replay, Dissect, Check as Count, Drill, Storm, Vectors, Route, RehearsePull, RehearsePush};
ghost use Rattle.df1_tool.specs.declared.form.Rounds.{Rounds as TwoNumbers};
ghost use Rattle.df1_tool.specs.Forms.{data_of, form_of as the_form, plan_name, reads_whole, service_for};
ghost use Rattle.df1_tool.specs.Replays.{line_note, note_at, status_for, IsReplayStatus};
ghost use Rattle.df1_service.specs.Service.{Serving, seen, serving_of};
ghost use Rattle.line_script.specs.declared.fault.Cause.{Cause as Fault};

use crate::data_words::data_of;
use crate::form::{Form, NoForm, form_of};
use crate::refusal::refuse;
use crate::{checking, dissecting, drilling, replaying, scripts, serving, vectors};
use df1_base::{Sink, Source};
use df1_service::{Issues, Service};
use df1_shelf::Shelf;
use std::alloc::Global;

/// The exit status of a run, with the parts of the outside world as the run left them.
#[derive(Drop)]
pub struct Ran<H, S, K, N> {
    /// The exit status.
    pub status: u8,
    /// The shelf that holds the plan.
    pub shelf: H,
    /// The input.
    pub input: S,
    /// The output.
    pub out: K,
    /// The sink of the note.
    pub note: N,
}

impl<H, S, K, N> Ran<H, S, K, N> {
    /// Returns a run that ended with this status and left the four parts in this state.
    fn new(status: u8, shelf: H, input: S, out: K, note: N) -> Self
        ensures { result ≡ record { status = status; shelf = shelf; input = input; out = out; note = note } }
    {
        Ran {
            status,
            shelf,
            input,
            out,
            note,
        }
    }
}

/// Runs the program. Its words are those after the program's name; the plan is a file of the shelf; the input is read
/// at most 4,096 bytes at a time. The text or the bytes of the line go to `out`, and the note to `note`. The four are
/// returned.
pub fn run<H: Shelf, S: Source, K: Sink, N: Sink>(
    alloc: Global,
    words: &[String],
    shelf: H,
    mut input: S,
    mut out: K,
    mut note: N,
) -> Ran<H, S, K, N>
    // 2 is for words that are none of the forms.
    ensures usage { (result.status ≡ 2) ↔ (the_form (map string_bytes words.now) ≡ None) }
    ensures untouched { result.status ≡ 2 → (result.shelf ≡ shelf) × (result.input ≡ input) × (result.out ≡ out)
        × IsNoted (N.held note) (N.held result.note) (N.faults note) (N.faults result.note) usage }

    // `serve`, `issue`, `pull` and `push`.
    ensures serves { (service : Serving) → service_for (map string_bytes words.now) ≡ Some service → ServiceRun service (plan_name (map string_bytes words.now))
        (record { files = H.file shelf; shelf_faults = H.faults shelf; left = S.left input; input_faults = S.faults input; held = K.held out; out_faults = K.faults out; noted = N.held note; note_faults = N.faults note })
        (record { files = H.file result.shelf; shelf_faults = H.faults result.shelf; left = S.left result.input; input_faults = S.faults result.input; held = K.held result.out; out_faults = K.faults result.out; noted = N.held result.note; note_faults = N.faults result.note })
        result.status }
    ensures before { (service : Serving) → service_for (map string_bytes words.now) ≡ Some service → (result.status ≡ 6) ⊎ (result.status ≡ 7) → (result.input ≡ input) × (result.out ≡ out) }

    // `dissect` and `check`.
    ensures dissects { (capture : OneCapture) → the_form (map string_bytes words.now) ≡ Some (Dissect capture) → DissectRun capture.side capture.check
        (record { left = S.left input; input_faults = S.faults input; held = K.held out; out_faults = K.faults out; noted = N.held note; note_faults = N.faults note })
        (record { left = S.left result.input; input_faults = S.faults result.input; held = K.held result.out; out_faults = K.faults result.out; noted = N.held result.note; note_faults = N.faults result.note })
        result.status }
    ensures checks { (capture : OneCapture) → the_form (map string_bytes words.now) ≡ Some (Count capture) → CheckRun capture.side capture.check
        (record { left = S.left input; input_faults = S.faults input; held = K.held out; out_faults = K.faults out; noted = N.held note; note_faults = N.faults note })
        (record { left = S.left result.input; input_faults = S.faults result.input; held = K.held result.out; out_faults = K.faults result.out; noted = N.held result.note; note_faults = N.faults result.note })
        result.status }

    // `drill` and `storm`. They don't read the input. If the line recovers from what happens to the bytes, all commands
    // are executed and answered.
    ensures drills { (rounds : TwoNumbers) → the_form (map string_bytes words.now) ≡ Some (Drill rounds) → LineRun (drill_line rounds.seed rounds.count)
        (record { held = K.held out; out_faults = K.faults out; noted = N.held note; note_faults = N.faults note })
        (record { held = K.held result.out; out_faults = K.faults result.out; noted = N.held result.note; note_faults = N.faults result.note })
        result.status }
    ensures same_input { (rounds : TwoNumbers) → the_form (map string_bytes words.now) ≡ Some (Drill rounds) → result.input ≡ input }
    ensures drill_recovers { (rounds : TwoNumbers) → the_form (map string_bytes words.now) ≡ Some (Drill rounds) → Recovers (drill_script rounds.seed rounds.count) (record_of (drill_script rounds.seed rounds.count)) }
    ensures storms { (rounds : TwoNumbers) → the_form (map string_bytes words.now) ≡ Some (Storm rounds) → LineRun (storm_line rounds.seed rounds.count)
        (record { held = K.held out; out_faults = K.faults out; noted = N.held note; note_faults = N.faults note })
        (record { held = K.held result.out; out_faults = K.faults result.out; noted = N.held result.note; note_faults = N.faults result.note })
        result.status }
    ensures storm_recovers { (rounds : TwoNumbers) → the_form (map string_bytes words.now) ≡ Some (Storm rounds) → Recovers (storm_script rounds.seed rounds.count) (record_of (storm_script rounds.seed rounds.count)) }
    ensures left_input { (rounds : TwoNumbers) → the_form (map string_bytes words.now) ≡ Some (Storm rounds) → result.input ≡ input }

    // `vectors`. It doesn't read the input either.
    ensures conforms { the_form (map string_bytes words.now) ≡ Some Vectors → VectorsRun
        (record { held = K.held out; out_faults = K.faults out; noted = N.held note; note_faults = N.faults note })
        (record { held = K.held result.out; out_faults = K.faults result.out; noted = N.held result.note; note_faults = N.faults result.note })
        result.status }
    ensures input_kept { the_form (map string_bytes words.now) ≡ Some Vectors → result.input ≡ input }

    // `route` and `rehearse`. They write nothing until the whole script was read.
    ensures routes { the_form (map string_bytes words.now) ≡ Some Route → ScriptRun Purpose.Route route_text HasRouted
        (record { left = S.left input; input_faults = S.faults input; held = K.held out; out_faults = K.faults out; noted = N.held note; note_faults = N.faults note })
        (record { left = S.left result.input; input_faults = S.faults result.input; held = K.held result.out; out_faults = K.faults result.out; noted = N.held result.note; note_faults = N.faults result.note })
        result.status }
    ensures rehearses_pull { (file count : ℕ) → the_form (map string_bytes words.now) ≡ Some (RehearsePull file count) → ScriptRun Purpose.Rehearse (pulled_text file count) (HasPulled file count)
        (record { left = S.left input; input_faults = S.faults input; held = K.held out; out_faults = K.faults out; noted = N.held note; note_faults = N.faults note })
        (record { left = S.left result.input; input_faults = S.faults result.input; held = K.held result.out; out_faults = K.faults result.out; noted = N.held result.note; note_faults = N.faults result.note })
        result.status }
    ensures rehearses_push { (file : ℕ) (bytes : List ℕ) → the_form (map string_bytes words.now) ≡ Some (RehearsePush file) → data_of (slice_index_or (map string_bytes words.now) 3 []) ≡ Some bytes
        → ScriptRun Purpose.Rehearse (pushed_text file bytes) (HasPushed file bytes)
        (record { left = S.left input; input_faults = S.faults input; held = K.held out; out_faults = K.faults out; noted = N.held note; note_faults = N.faults note })
        (record { left = S.left result.input; input_faults = S.faults result.input; held = K.held result.out; out_faults = K.faults result.out; noted = N.held result.note; note_faults = N.faults result.note })
        result.status }
    ensures unwritten { (form : Asked) → the_form (map string_bytes words.now) ≡ Some form → IsTrue (reads_whole form) → result.status ≢ 0 → result.status ≢ 5 → result.out ≡ out }

    // A command that doesn't serve a plan leaves the shelf unchanged.
    ensures same_shelf { service_for (map string_bytes words.now) ≡ None → result.shelf ≡ shelf }

    // `replay`.
    ensures statuses { the_form (map string_bytes words.now) ≡ Some Replay → IsReplayStatus result.status }

    // 0 of `replay`: the input was read to its end, and the report of its script's run was written; nothing failed, and
    // no note was written. Unless an end was deceived, each station executed commands that were issued to it, each
    // once, those of each source in order, and each accepted reply is the answer to that very command. If nothing
    // disturbs the line, or it recovers, all commands were executed and answered. The same holds of the commands that an
    // end hands out from a state at rest on, or from one on that an answer shows to be at rest, if nothing disturbs the
    // line, or a full-duplex line recovers, from there on. Whatever was received, what each end sent is DF1.
    ensures done { the_form (map string_bytes words.now) ≡ Some Replay → result.status ≡ 0 → Answered replayed
        (S.left input) (S.left result.input) (K.held out) (K.held result.out) }
    ensures calm { the_form (map string_bytes words.now) ≡ Some Replay → result.status ≡ 0 → (S.faults result.input ≡ S.faults input) × (result.note ≡ note) }
    ensures replayed { the_form (map string_bytes words.now) ≡ Some Replay → result.status ≡ 0 →
        Replayed (S.left input) (S.left result.input) (K.held out) (K.held result.out) }

    // 3 of `replay`: the bytes taken contain the first faulty line and its cause, and the note names them; the report
    // of what precedes it was written.
    ensures refusal { the_form (map string_bytes words.now) ≡ Some Replay → result.status ≡ 3 → (line : ℕ) × (fault : Fault)
        × Refused (S.left input) (S.left result.input) (K.held out) (K.held result.out) (S.faults input) (S.faults result.input) line fault
        × IsNoted (N.held note) (N.held result.note) (N.faults note) (N.faults result.note) (line_note line fault) }

    // 4 and 5 of `replay`: the input or the output failed. What was determined before was written; with 5, something of
    // what the bytes taken determine is missing.
    ensures input { the_form (map string_bytes words.now) ≡ Some Replay → result.status ≡ 4 →
        BrokenOff (S.left input) (S.left result.input) (K.held out) (K.held result.out) (S.faults input) (S.faults result.input) }
    ensures output { the_form (map string_bytes words.now) ≡ Some Replay → result.status ≡ 5 →
        Rose (K.faults out) (K.faults result.out) × (S.faults result.input ≡ S.faults input)
        × CutOff (S.left input) (S.left result.input) (K.held out) (K.held result.out) }
    ensures steady { the_form (map string_bytes words.now) ≡ Some Replay → result.status ≢ 5 → K.faults result.out ≡ K.faults out }
    ensures memory { the_form (map string_bytes words.now) ≡ Some Replay → result.status ≡ 7 → S.faults result.input ≡ S.faults input }

    // If neither failed, the status of `replay` is the one that is defined, or 7 for want of memory.
    ensures exact { the_form (map string_bytes words.now) ≡ Some Replay
        → ¬ Rose (S.faults input) (S.faults result.input)
        → ¬ Rose (K.faults out) (K.faults result.out)
        → ForSome (S.left input) (λ bytes.
        (result.status ≡ status_for bytes) ⊎ (result.status ≡ 7)) }

    // Whatever the status of `replay`, a part of what is to be written for the bytes taken was written, and nothing
    // else; likewise for the note.
    ensures written { the_form (map string_bytes words.now) ≡ Some Replay → Written told
        (S.left input) (S.left result.input) (K.held out) (K.held result.out) }
    ensures note { the_form (map string_bytes words.now) ≡ Some Replay → result.status ≢ 0 → result.status ≢ 3 →
        IsNoted (N.held note) (N.held result.note) (N.faults note) (N.faults result.note) (note_at result.status) }
{
    let Some(form) = form_of(words) else {
        let status = refuse(&NoForm, &mut note);
        return Ran::new(status, shelf, input, out, note);
    };
    match form {
        Form::Replay => {
            let status = replaying::run(alloc, &mut input, &mut out, &mut note);
            Ran::new(status, shelf, input, out, note)
        }
        Form::Serve { timed } => {
            let issues = Issues::Nothing;
            let service = Service { timed, issues };
            serving::run(alloc, shelf, &words[1], service, input, out, note)
        }
        Form::Issue => {
            let service = timed(Issues::Plan);
            serving::run(alloc, shelf, &words[1], service, input, out, note)
        }
        Form::Pull { file, count } => {
            let service = timed(Issues::Pull { file, words: count });
            serving::run(alloc, shelf, &words[1], service, input, out, note)
        }
        Form::Push { file } => {
            let bytes = data_of(&words[3]).unwrap();
            let service = timed(Issues::Push {
                file,
                bytes: &bytes,
            });
            serving::run(alloc, shelf, &words[1], service, input, out, note)
        }
        Form::Dissect(capture) => {
            let status = dissecting::run(capture, &mut input, &mut out, &mut note);
            Ran::new(status, shelf, input, out, note)
        }
        Form::Check(capture) => {
            let status = checking::run(capture, &mut input, &mut out, &mut note);
            Ran::new(status, shelf, input, out, note)
        }
        Form::Drill(rounds) => {
            let status = drilling::drill(alloc, rounds, &mut out, &mut note);
            Ran::new(status, shelf, input, out, note)
        }
        Form::Storm(rounds) => {
            let status = drilling::storm(alloc, rounds, &mut out, &mut note);
            Ran::new(status, shelf, input, out, note)
        }
        Form::Vectors => {
            let status = vectors::run(alloc, &mut out, &mut note);
            Ran::new(status, shelf, input, out, note)
        }
        Form::Route => {
            let status = scripts::route(alloc, &mut input, &mut out, &mut note);
            Ran::new(status, shelf, input, out, note)
        }
        Form::RehearsePull { file, count } => {
            let status = scripts::pull(alloc, &mut input, &mut out, &mut note, file, count);
            Ran::new(status, shelf, input, out, note)
        }
        Form::RehearsePush { file } => {
            let bytes = data_of(&words[3]).unwrap();
            let status = scripts::push(alloc, &mut input, &mut out, &mut note, file, &bytes);
            Ran::new(status, shelf, input, out, note)
        }
    }
}

/// Returns a service over timed records.
fn timed(issues: Issues<'_>) -> Service<'_>
    ensures { serving_of result ≡ record { timed = true; issues = seen issues.entry } }
{
    Service {
        timed: true,
        issues,
    }
}
