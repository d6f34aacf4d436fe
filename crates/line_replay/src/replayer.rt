//! Replaying while reading: a script comes byte by byte, and the report's lines of an event line are written when it
//! ends.
ghost use Rattle.std.specs.Prelude.{◌≡◌, ◌≢◌, ◌≤◌, ◌+◌, ◌∷◌, ◌++◌, ℕ, List, [], Some, OnOk, OnErr, IfOk, IfErr, IsErrOf, length, take};
ghost use Rattle.df1_base.specs.Outside.{Rose, Put, WroteLess, Later};
ghost use Rattle.script_parts.specs.declared.script.Event.{Event as OneEvent};
ghost use Rattle.line_replay.specs.declared.replayer.StreamFault.{StreamFault as Stopped};
ghost use Rattle.line_script.specs.Fed.{HasNoFeed, accepted_script};
ghost use Rattle.line_script.specs.Lines.{script_with};
ghost use Rattle.script_parts.specs.HalfPlayable.{CanBePlayed};
ghost use Rattle.line_script.specs.Unfinished.{unfinished};
ghost use Rattle.line_world.specs.Runs.{IsNext, begun, lines_in, played, printed, record_from};
ghost use Rattle.replay_report.specs.Report.{line_text, report};
ghost use Rattle.std.specs.List.{flat_map};
ghost use Rattle.line_replay.specs.Fed.{IsDue, IsEndedReplay, IsFromPlay, IsRefusedAs, IsRefusedHere, IsRefusedWith, IsReplay, IsReplayAtEnd, IsReplayOf, IsScript, IsWorldOf, ShowsFront, ShowsLess, ShowsMore, event_text, events_text, rest_text, shown, told, world_for};

use crate::{Cause, Event, World};
use df1_base::{Failed, NoMemory, Sink};
use line_script::{ScriptFault, TextReader, line_end};
use replay_report::print;
use std::alloc::Global;
use std::marker::Model;
use thiserror::Error;

/// Why a replay stopped.
#[derive(Clone, Copy, Debug, PartialEq, Eq, Error)]
pub enum StreamFault {
    /// The first faulty line of the script, counted from 1, and the first cause that fits it.
    #[error("line {line}: {cause}")]
    At { line: u32, cause: Cause },
    /// The sink has failed, and its count of faults rose.
    #[error("the sink failed")]
    SinkFailed,
    /// There is no memory left.
    #[error("no memory")]
    NoMemory,
}

impl From<ScriptFault> for StreamFault {
    ghost use Rattle.std.specs.Prelude.{◌≡◌};
    ghost use Rattle.line_replay.specs.Fed.{stream_fault};

    ghost from_gives = { λ fault e. e ≡ stream_fault fault };

    fn from(fault: ScriptFault) -> Self {
        match fault {
            ScriptFault::At { line, cause } => StreamFault::At { line, cause },
            ScriptFault::NoMemory => StreamFault::NoMemory,
        }
    }
}

impl From<NoMemory> for StreamFault {
    ghost use Rattle.std.specs.Prelude.{◌≡◌};
    ghost use Rattle.line_replay.specs.declared.replayer.StreamFault.TheVariants.{NoMemory as Wanting};

    ghost from_gives = { λ _ e. e ≡ Wanting };

    fn from(_: NoMemory) -> Self {
        StreamFault::NoMemory
    }
}

impl From<Failed> for StreamFault {
    ghost use Rattle.std.specs.Prelude.{◌≡◌};
    ghost use Rattle.line_replay.specs.declared.replayer.StreamFault.TheVariants.{SinkFailed};

    ghost from_gives = { λ _ e. e ≡ SinkFailed };

    fn from(_: Failed) -> Self {
        StreamFault::SinkFailed
    }
}

/// A replay of a script that comes byte by byte. It keeps what the lines say except the events, the bytes of the line
/// that has started, and the world. After a fault it may only be dropped.
pub struct Replayer {
    alloc: Global,
    text: TextReader,
    world: Option<World>,
}

// By hand, so that whoever drops one proves nothing of its parts.
impl Drop for Replayer {
    fn drop(self) {
        let Replayer {
            alloc: _,
            text: _text,
            world: _world,
        } = self;
    }
}

impl Model for Replayer {
    ghost use Rattle.std.specs.Coded.{codes};
    ghost use Rattle.line_world.specs.contracts.world.World as world_row;
    ghost use Rattle.line_replay.specs.Fed.{Replaying};

    ghost Value = { Replaying };

    ghost coded = { Prim.hlevel (codes, world_row.the_row.coded) };

    ghost view = { λ r. record { text = r.text; world = r.world } };
}

impl Replayer {
    /// Returns a replay that was fed no byte.
    pub fn new(alloc: Global) -> Replayer
        ensures { IsReplayOf [] result }
    {
        Replayer {
            alloc,
            text: TextReader::new(alloc),
            world: None,
        }
    }

    /// Returns how many bytes of the started line were fed so far, at most 1,024.
    pub fn held(&self) -> usize
        ensures value { result ≡ length self.now.text.line }
        ensures begun { (text : List ℕ) → IsReplayOf text self.now → result ≡ unfinished text }
        ensures most { result ≤ 1024 }
    {
        self.text.held()
    }

    /// Returns how many bytes it was fed, at most 16,777,216.
    pub fn fed(&self) -> usize
        ensures value { result ≡ self.now.text.start + length self.now.text.line }
        ensures all { (text : List ℕ) → IsReplayOf text self.now → result ≡ length text }
        ensures most { result ≤ 16777216 }
    {
        self.text.fed()
    }

    /// Accepts the next byte of the script. If it ends an event line, the event happens, and its lines of the report
    /// are written. Returns `At` if no text with this beginning is a script, with its first faulty line and the first
    /// cause that fits it. Returns `SinkFailed` if the sink failed: then the sink holds only a first part of the lines.
    /// With another fault, and if there are no lines, the sink is unchanged.
    pub fn feed<K: Sink>(&mut self, b: u8, sink: &mut K) -> Result<(), StreamFault>
        requires { IsReplay self.old }
        ensures ok { (text : List ℕ) → IsReplayOf text self.old → OnOk result (IsReplayOf (text ++ b ∷ []) self.new × ShowsMore (shown text) (shown (text ++ b ∷ [])) (K.held sink.old) (K.held sink.new)) }
        ensures refused { (text : List ℕ) → IsReplayOf text self.old → IfErr result (IsRefusedHere (text ++ b ∷ []) (shown text)) }
        ensures front { (text : List ℕ) → IsReplayOf text self.old → (more : List ℕ) → OnErr result (ShowsFront (shown text) (told (text ++ b ∷ more)) (K.held sink.old) (K.held sink.new)) }
        ensures missing { (text : List ℕ) → IsReplayOf text self.old → (more : List ℕ) → IsErrOf result StreamFault.SinkFailed → ShowsLess (shown text) (told (text ++ b ∷ more)) (K.held sink.old) (K.held sink.new) }
        ensures untouched { (text : List ℕ) → IsReplayOf text self.old → (more : List ℕ) → told (text ++ b ∷ more) ≡ shown text → sink.new ≡ sink.old }
        ensures silent { IfErr result (λ fault. fault ≢ Stopped.SinkFailed → sink.new ≡ sink.old) }
        ensures calm { OnOk result (K.faults sink.new ≡ K.faults sink.old) }
        ensures later { Later (K.mark sink.old) (K.mark sink.new) (K.faults sink.old) (K.faults sink.new) }
        ensures cause { IsErrOf result StreamFault.SinkFailed → Rose (K.faults sink.old) (K.faults sink.new) }
    {
        match self.text.feed(b) {
            Ok(None) => Ok(()),
            Ok(Some(event)) => self.play(&event, sink),
            Err(fault) => Err(fault.into()),
        }
    }

    /// Accepts the next bytes of the script, line by line, up to a fault.
    pub fn feed_all<K: Sink>(&mut self, bytes: &[u8], sink: &mut K) -> Result<(), StreamFault>
        requires { IsReplay self.old }
        ensures replay { OnOk result (IsReplay self.new) }
        ensures ok { (text : List ℕ) → IsReplayOf text self.old → OnOk result (IsReplayOf (text ++ bytes.now) self.new × ShowsMore (shown text) (shown (text ++ bytes.now)) (K.held sink.old) (K.held sink.new)) }
        ensures refused { (text : List ℕ) → IsReplayOf text self.old → IfErr result (IsRefusedWith (text ++ bytes.now) (shown text) (K.held sink.old) (K.held sink.new)) }
        ensures front { (text : List ℕ) → IsReplayOf text self.old → OnErr result (ShowsFront (shown text) (told (text ++ bytes.now)) (K.held sink.old) (K.held sink.new)) }
        ensures missing { (text : List ℕ) → IsReplayOf text self.old → IsErrOf result StreamFault.SinkFailed → ShowsLess (shown text) (told (text ++ bytes.now)) (K.held sink.old) (K.held sink.new) }
        ensures untouched { (text : List ℕ) → IsReplayOf text self.old → told (text ++ bytes.now) ≡ shown text → sink.new ≡ sink.old }
        ensures calm { OnOk result (K.faults sink.new ≡ K.faults sink.old) }
        ensures steady { IfErr result (λ fault. fault ≢ Stopped.SinkFailed → K.faults sink.new ≡ K.faults sink.old) }
        ensures later { Later (K.mark sink.old) (K.mark sink.new) (K.faults sink.old) (K.faults sink.new) }
        ensures cause { IsErrOf result StreamFault.SinkFailed → Rose (K.faults sink.old) (K.faults sink.new) }
    {
        let mut rest = bytes;
        loop {
            match self.feed_front(rest, sink) {
                Ok(0) => return self.feed_run(rest),
                Ok(taken) => rest = &rest[taken..],
                Err(fault) => return Err(fault),
            }
        }
    }

    /// Accepts the first line of the next bytes, its line feed included, and returns its length: 0 exactly if no line
    /// feed is among the bytes, and then none is taken.
    #[inline(always)]
    fn feed_front<K: Sink>(&mut self, bytes: &[u8], sink: &mut K) -> Result<usize, StreamFault>
        requires { IsReplay self.old }
        ensures fits { IfOk result (λ taken. taken ≤ length bytes.now) }
        ensures none { IfOk result (λ taken. taken ≡ 0 → HasNoFeed bytes.now) }
        ensures ok { (text : List ℕ) → IsReplayOf text self.old → IfOk result (λ taken. IsReplayOf (text ++ take taken bytes.now) self.new × ShowsMore (shown text) (shown (text ++ take taken bytes.now)) (K.held sink.old) (K.held sink.new)) }
        ensures refused { (text : List ℕ) → IsReplayOf text self.old → IfErr result (IsRefusedHere (text ++ bytes.now) (shown text)) }
        ensures missing { (text : List ℕ) → IsReplayOf text self.old → IsErrOf result StreamFault.SinkFailed → ShowsLess (shown text) (told (text ++ bytes.now)) (K.held sink.old) (K.held sink.new) }
        ensures untouched { (text : List ℕ) → IsReplayOf text self.old → told (text ++ bytes.now) ≡ shown text → sink.new ≡ sink.old }
        ensures silent { IfErr result (λ fault. fault ≢ Stopped.SinkFailed → sink.new ≡ sink.old) }
        ensures calm { OnOk result (K.faults sink.new ≡ K.faults sink.old) }
        ensures later { Later (K.mark sink.old) (K.mark sink.new) (K.faults sink.old) (K.faults sink.new) }
        ensures cause { IsErrOf result StreamFault.SinkFailed → Rose (K.faults sink.old) (K.faults sink.new) }
    {
        match self.text.feed_step(bytes) {
            Some((step, taken)) => match self.play(&step.event(), sink) {
                Ok(()) => Ok(taken),
                Err(fault) => Err(fault),
            },
            None => self.feed_first(bytes, sink),
        }
    }

    /// Does the same, by the words of the line. It isn't inlined, since a step would pay for its stack space.
    #[inline(never)]
    fn feed_first<K: Sink>(&mut self, bytes: &[u8], sink: &mut K) -> Result<usize, StreamFault>
        requires { IsReplay self.old }
        ensures fits { IfOk result (λ taken. taken ≤ length bytes.now) }
        ensures none { IfOk result (λ taken. taken ≡ 0 → HasNoFeed bytes.now) }
        ensures ok { (text : List ℕ) → IsReplayOf text self.old → IfOk result (λ taken. IsReplayOf (text ++ take taken bytes.now) self.new × ShowsMore (shown text) (shown (text ++ take taken bytes.now)) (K.held sink.old) (K.held sink.new)) }
        ensures refused { (text : List ℕ) → IsReplayOf text self.old → IfErr result (IsRefusedHere (text ++ bytes.now) (shown text)) }
        ensures missing { (text : List ℕ) → IsReplayOf text self.old → IsErrOf result StreamFault.SinkFailed → ShowsLess (shown text) (told (text ++ bytes.now)) (K.held sink.old) (K.held sink.new) }
        ensures untouched { (text : List ℕ) → IsReplayOf text self.old → told (text ++ bytes.now) ≡ shown text → sink.new ≡ sink.old }
        ensures silent { IfErr result (λ fault. fault ≢ Stopped.SinkFailed → sink.new ≡ sink.old) }
        ensures calm { OnOk result (K.faults sink.new ≡ K.faults sink.old) }
        ensures later { Later (K.mark sink.old) (K.mark sink.new) (K.faults sink.old) (K.faults sink.new) }
        ensures cause { IsErrOf result StreamFault.SinkFailed → Rose (K.faults sink.old) (K.faults sink.new) }
    {
        let Some(end) = line_end(bytes) else {
            return Ok(0);
        };
        match self.feed_words(&bytes[..end], sink) {
            Ok(()) => Ok(end + 1),
            Err(fault) => Err(fault),
        }
    }

    /// Accepts the next bytes of the script, none of which is a line feed, and then a line feed, as by `feed` one by
    /// one.
    fn feed_words<K: Sink>(&mut self, line: &[u8], sink: &mut K) -> Result<(), StreamFault>
        requires replay { IsReplay self.old }
        requires line { HasNoFeed line.now }
        ensures ok { (text : List ℕ) → IsReplayOf text self.old → OnOk result (IsReplayOf ((text ++ line.now) ++ 10 ∷ []) self.new × ShowsMore (shown text) (shown ((text ++ line.now) ++ 10 ∷ [])) (K.held sink.old) (K.held sink.new)) }
        ensures refused { (text : List ℕ) → IsReplayOf text self.old → IfErr result (IsRefusedHere ((text ++ line.now) ++ 10 ∷ []) (shown text)) }
        ensures missing { (text : List ℕ) → IsReplayOf text self.old → (more : List ℕ) → IsErrOf result StreamFault.SinkFailed → ShowsLess (shown text) (told ((text ++ line.now) ++ 10 ∷ more)) (K.held sink.old) (K.held sink.new) }
        ensures untouched { (text : List ℕ) → IsReplayOf text self.old → (more : List ℕ) → told ((text ++ line.now) ++ 10 ∷ more) ≡ shown text → sink.new ≡ sink.old }
        ensures silent { IfErr result (λ fault. fault ≢ Stopped.SinkFailed → sink.new ≡ sink.old) }
        ensures calm { OnOk result (K.faults sink.new ≡ K.faults sink.old) }
        ensures later { Later (K.mark sink.old) (K.mark sink.new) (K.faults sink.old) (K.faults sink.new) }
        ensures cause { IsErrOf result StreamFault.SinkFailed → Rose (K.faults sink.old) (K.faults sink.new) }
    {
        match self.text.feed_line(line) {
            Ok(None) => Ok(()),
            Ok(Some(event)) => self.play(&event, sink),
            Err(fault) => Err(fault.into()),
        }
    }

    /// Accepts the next bytes of the script, none of which is a line feed.
    fn feed_run(&mut self, run: &[u8]) -> Result<(), StreamFault>
        requires { HasNoFeed run.now }
        ensures ok { (text : List ℕ) → IsReplayOf text self.old → OnOk result (IsReplayOf (text ++ run.now) self.new × (shown (text ++ run.now) ≡ shown text)) }
        ensures refused { (text : List ℕ) → IsReplayOf text self.old → IfErr result (IsRefusedHere (text ++ run.now) (shown text)) }
        ensures known { IfErr result (λ fault. fault ≢ Stopped.SinkFailed) }
    {
        if let Err(fault) = self.text.feed_run(run) {
            return Err(fault.into());
        }
        Ok(())
    }

    /// Ends the script, after which nothing is fed. Writes the report's lines of a last event line that no line feed
    /// ends, then the words that aren't 0, and how often an end was deceived. Returns `At` exactly if the whole text is
    /// not a script, with its first faulty line and the first cause that fits it. Returns `SinkFailed` if the sink
    /// failed: then the sink holds only a first part.
    pub fn finish<K: Sink>(&mut self, sink: &mut K) -> Result<(), StreamFault>
        requires { IsReplay self.old }
        ensures ok { (text : List ℕ) → IsReplayOf text self.old → OnOk result (IsScript text × ShowsMore (shown text) (told text) (K.held sink.old) (K.held sink.new)) }
        ensures refused { (text : List ℕ) → IsReplayOf text self.old → IfErr result (IsRefusedAs text (ShowsMore (shown text) (told text) (K.held sink.old) (K.held sink.new))) }
        ensures front { (text : List ℕ) → IsReplayOf text self.old → OnErr result (ShowsFront (shown text) (told text) (K.held sink.old) (K.held sink.new)) }
        ensures missing { (text : List ℕ) → IsReplayOf text self.old → IsErrOf result StreamFault.SinkFailed → ShowsLess (shown text) (told text) (K.held sink.old) (K.held sink.new) }
        ensures untouched { (text : List ℕ) → IsReplayOf text self.old → told text ≡ shown text → sink.new ≡ sink.old }
        ensures calm { OnOk result (K.faults sink.new ≡ K.faults sink.old) }
        ensures steady { IfErr result (λ fault. fault ≢ Stopped.SinkFailed → K.faults sink.new ≡ K.faults sink.old) }
        ensures later { Later (K.mark sink.old) (K.mark sink.new) (K.faults sink.old) (K.faults sink.new) }
        ensures cause { IsErrOf result StreamFault.SinkFailed → Rose (K.faults sink.old) (K.faults sink.new) }
    {
        match self.end_lines(sink) {
            Ok(()) => self.close(sink),
            Err(fault) => Err(fault),
        }
    }

    /// Ends the last line, and plays its event, if it is one.
    fn end_lines<K: Sink>(&mut self, sink: &mut K) -> Result<(), StreamFault>
        requires { IsReplay self.old }
        ensures ends { OnOk result (IsEndedReplay self.new) }
        ensures ok { (text : List ℕ) → IsReplayOf text self.old → OnOk result (IsReplayAtEnd text self.new × ShowsMore (shown text) (events_text (accepted_script text)) (K.held sink.old) (K.held sink.new)) }
        ensures refused { (text : List ℕ) → IsReplayOf text self.old → IfErr result (IsRefusedAs text (told text ≡ shown text)) }
        ensures missing { (text : List ℕ) → IsReplayOf text self.old → IsErrOf result StreamFault.SinkFailed → ShowsLess (shown text) (told text) (K.held sink.old) (K.held sink.new) }
        ensures untouched { (text : List ℕ) → IsReplayOf text self.old → told text ≡ shown text → sink.new ≡ sink.old }
        ensures silent { IfErr result (λ fault. fault ≢ Stopped.SinkFailed → sink.new ≡ sink.old) }
        ensures calm { OnOk result (K.faults sink.new ≡ K.faults sink.old) }
        ensures later { Later (K.mark sink.old) (K.mark sink.new) (K.faults sink.old) (K.faults sink.new) }
        ensures cause { IsErrOf result StreamFault.SinkFailed → Rose (K.faults sink.old) (K.faults sink.new) }
    {
        match self.text.end() {
            Ok(None) => Ok(()),
            Ok(Some(event)) => self.play(&event, sink),
            Err(fault) => Err(fault.into()),
        }
    }

    /// Writes what follows the lines of the last event, if the script has its `end`.
    fn close<K: Sink>(&mut self, sink: &mut K) -> Result<(), StreamFault>
        requires { IsEndedReplay self.old }
        ensures ok { (text : List ℕ) → IsReplayAtEnd text self.old → OnOk result (IsScript text × ShowsMore (events_text (accepted_script text)) (told text) (K.held sink.old) (K.held sink.new)) }
        ensures refused { (text : List ℕ) → IsReplayAtEnd text self.old → IfErr result (IsRefusedAs text (told text ≡ events_text (accepted_script text))) }
        ensures missing { (text : List ℕ) → IsReplayAtEnd text self.old → IsErrOf result StreamFault.SinkFailed → ShowsLess (events_text (accepted_script text)) (told text) (K.held sink.old) (K.held sink.new) }
        ensures untouched { (text : List ℕ) → IsReplayAtEnd text self.old → told text ≡ events_text (accepted_script text) → sink.new ≡ sink.old }
        ensures silent { IfErr result (λ fault. fault ≢ Stopped.SinkFailed → sink.new ≡ sink.old) }
        ensures calm { OnOk result (K.faults sink.new ≡ K.faults sink.old) }
        ensures later { Later (K.mark sink.old) (K.mark sink.new) (K.faults sink.old) (K.faults sink.new) }
        ensures cause { IsErrOf result StreamFault.SinkFailed → Rose (K.faults sink.old) (K.faults sink.new) }
    {
        match self.text.close() {
            Ok(()) => self.write_rest(sink),
            Err(fault) => Err(fault.into()),
        }
    }

    /// Writes the words that aren't 0, and how often an end was deceived.
    fn write_rest<K: Sink>(&mut self, sink: &mut K) -> Result<(), StreamFault>
        requires { CanBePlayed (script_with self.old.text.reader []) }
        ensures ok { (events : List OneEvent) → IsWorldOf (script_with self.old.text.reader events) self.old.world → OnOk result
            (Put (K.held sink.old) (K.held sink.new) (rest_text (script_with self.old.text.reader events))) }
        ensures missing { (events : List OneEvent) → IsWorldOf (script_with self.old.text.reader events) self.old.world →
            IsErrOf result StreamFault.SinkFailed → WroteLess (K.held sink.old) (K.held sink.new) (rest_text (script_with self.old.text.reader events)) }
        ensures silent { IfErr result (λ fault. fault ≢ Stopped.SinkFailed → sink.new ≡ sink.old) }
        ensures known { IfErr result IsFromPlay }
        ensures calm { OnOk result (K.faults sink.new ≡ K.faults sink.old) }
        ensures later { Later (K.mark sink.old) (K.mark sink.new) (K.faults sink.old) (K.faults sink.new) }
        ensures cause { IsErrOf result StreamFault.SinkFailed → Rose (K.faults sink.old) (K.faults sink.new) }
    {
        self.begin()?;
        match self.world.take() {
            Some(world) => print_rest(world, sink),
            None => unreachable!(),
        }
    }

    /// Plays an event, and writes its lines of the report. It is inlined, and so is all below it that a step needs: an
    /// event that is handed over in memory costs more than most do.
    #[inline(always)]
    fn play<K: Sink>(&mut self, event: &Event, sink: &mut K) -> Result<(), StreamFault>
        requires { IsDue self.old event.now }
        ensures ok { (events : List OneEvent) → IsWorldOf (script_with self.old.text.reader events) self.old.world → OnOk result
            ((self.new.text ≡ self.old.text) × IsWorldOf (script_with self.old.text.reader (events ++ event.now ∷ [])) self.new.world
            × Put (K.held sink.old) (K.held sink.new) (event_text (script_with self.old.text.reader events) event.now)) }
        ensures missing { (events : List OneEvent) → IsWorldOf (script_with self.old.text.reader events) self.old.world →
            IsErrOf result StreamFault.SinkFailed → WroteLess (K.held sink.old) (K.held sink.new) (event_text (script_with self.old.text.reader events) event.now) }
        ensures untouched { (events : List OneEvent) → IsWorldOf (script_with self.old.text.reader events) self.old.world →
            event_text (script_with self.old.text.reader events) event.now ≡ [] → sink.new ≡ sink.old }
        ensures silent { IfErr result (λ fault. fault ≢ Stopped.SinkFailed → sink.new ≡ sink.old) }
        ensures known { IfErr result IsFromPlay }
        ensures calm { OnOk result (K.faults sink.new ≡ K.faults sink.old) }
        ensures later { Later (K.mark sink.old) (K.mark sink.new) (K.faults sink.old) (K.faults sink.new) }
        ensures cause { IsErrOf result StreamFault.SinkFailed → Rose (K.faults sink.old) (K.faults sink.new) }
    {
        self.begin()?;
        match &mut self.world {
            Some(world) => play_on(world, event, sink),
            None => unreachable!(),
        }
    }

    /// Makes the world that events happen in, if there is none.
    fn begin(&mut self) -> Result<(), NoMemory>
        requires { CanBePlayed (script_with self.old.text.reader []) }
        ensures text { self.new.text ≡ self.old.text }
        ensures world { OnOk result (self.new.world ≡ Some (world_for (script_with self.old.text.reader []) self.old.world)) }
    {
        if self.world.is_none() {
            self.set_out()?;
        }
        Ok(())
    }

    /// Makes the world before the first event. It isn't inlined, since an event that finds a world would pay for its
    /// stack space.
    #[cold]
    #[inline(never)]
    fn set_out(&mut self) -> Result<(), NoMemory>
        requires { CanBePlayed (script_with self.old.text.reader []) }
        ensures text { self.new.text ≡ self.old.text }
        ensures world { OnOk result (self.new.world ≡ Some (begun (script_with self.old.text.reader []))) }
    {
        let script = self.text.setup()?;
        self.world = Some(World::new(self.alloc, &script)?);
        Ok(())
    }
}

/// Plays an event on a world, and writes the report's lines that then wait.
#[inline(always)]
fn play_on<K: Sink>(world: &mut World, event: &Event, sink: &mut K) -> Result<(), StreamFault>
    requires { IsNext world.old event.now }
    ensures ok { OnOk result ((world.new ≡ printed (played world.old event.now)) × Put (K.held sink.old) (K.held sink.new) (flat_map line_text (lines_in (played world.old event.now)))) }
    ensures missing { IsErrOf result StreamFault.SinkFailed → WroteLess (K.held sink.old) (K.held sink.new) (flat_map line_text (lines_in (played world.old event.now))) }
    ensures untouched { lines_in (played world.old event.now) ≡ [] → sink.new ≡ sink.old }
    ensures silent { IfErr result (λ fault. fault ≢ Stopped.SinkFailed → sink.new ≡ sink.old) }
    ensures known { IfErr result IsFromPlay }
    ensures calm { OnOk result (K.faults sink.new ≡ K.faults sink.old) }
    ensures later { Later (K.mark sink.old) (K.mark sink.new) (K.faults sink.old) (K.faults sink.new) }
    ensures cause { IsErrOf result StreamFault.SinkFailed → Rose (K.faults sink.old) (K.faults sink.new) }
{
    world.step(event)?;
    world.print_lines(sink)?;
    Ok(())
}

/// Writes the report of a world: the waiting lines, the words that aren't 0, and how often an end was deceived.
fn print_rest<K: Sink>(world: World, sink: &mut K) -> Result<(), StreamFault>
    ensures ok { OnOk result (Put (K.held sink.old) (K.held sink.new) (report (record_from world (lines_in world)))) }
    ensures missing { IsErrOf result StreamFault.SinkFailed → WroteLess (K.held sink.old) (K.held sink.new) (report (record_from world (lines_in world))) }
    ensures silent { IfErr result (λ fault. fault ≢ Stopped.SinkFailed → sink.new ≡ sink.old) }
    ensures known { IfErr result IsFromPlay }
    ensures calm { OnOk result (K.faults sink.new ≡ K.faults sink.old) }
    ensures later { Later (K.mark sink.old) (K.mark sink.new) (K.faults sink.old) (K.faults sink.new) }
    ensures cause { IsErrOf result StreamFault.SinkFailed → Rose (K.faults sink.old) (K.faults sink.new) }
{
    let record = world.finish()?;
    print(&record, sink)?;
    Ok(())
}
