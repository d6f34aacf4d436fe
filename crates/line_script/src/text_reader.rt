//! Reads a script byte by byte: a line is read when its line feed comes, and the last one at the end of the text.
ghost use Rattle.std.specs.Prelude.{◌≡◌, ◌<◌, ◌≤◌, ◌+◌, ◌^◌, ◌∷◌, ◌++◌, ℕ, List, [], IfOk, IsErr, MatchResult, OnOk, Ok, None, Some, false, true, length, take, if◌then◌else◌};
ghost use Rattle.std.specs.Option.{ForSome, option_to_list};
ghost use Rattle.duplex_script.specs.Drafts.{times_event};
ghost use Rattle.line_script.specs.declared.fault.ScriptFault.{ScriptFault as TheFault};
ghost use Rattle.line_script.specs.declared.fault.LineFault.{LineFault as Faulted};
ghost use Rattle.script_parts.specs.declared.script.Event.{Event as OneEvent};
ghost use Rattle.line_script.specs.Fed.{EndsFor, HasNoFeed, IsRefusedAtEnd, IsRefusedFor, StandsFor};
ghost use Rattle.line_script.specs.Lines.{after_line, script_with, text_line};
ghost use Rattle.line_script.specs.Refusal.{IsFaulty, fault_at};
ghost use Rattle.line_script.specs.ScriptText.{script_of};
ghost use Rattle.line_script.specs.Steps.{step_before};
ghost use Rattle.line_script.specs.Unfinished.{unfinished};
ghost use Rattle.line_script.specs.declared.step.TimesEvent.{TimesEvent as OneStep};

use crate::reader::{LINE, Reader, SCRIPT};
use crate::step::{TimesEvent, short_line};
use crate::whole_text::at;
use crate::{Cause, Event, Script, ScriptFault};
use arrayvec::ArrayVec;
use df1_base::NoMemory;
use std::alloc::Global;
use std::marker::Model;

/// A reader of a script that comes byte by byte. It keeps what the lines say except the events, and the bytes of the
/// line that has started. After a fault it may only be dropped.
pub struct TextReader {
    alloc: Global,
    reader: Reader,
    line: ArrayVec<u8, LINE>,
    number: u32,
    start: usize,
}

// By hand, so that whoever drops one proves nothing of its parts.
impl Drop for TextReader {
    fn drop(self) {
        let TextReader {
            alloc: _,
            reader: _reader,
            line: _line,
            number: _,
            start: _,
        } = self;
    }
}

impl Model for TextReader {
    ghost use Rattle.std.specs.Prelude.{◌+◌, ◌≤◌, length};
    ghost use Rattle.line_script.specs.Fed.{Fed};

    ghost Value = { Fed };

    ghost view = { λ r. record { reader = r.reader; line = r.line.items; number = r.number; start = r.start } };

    ghost invariant = { λ r. (r.start + length r.line.items ≤ 16777216) × (r.number ≤ r.start + 1) };
}

impl TextReader {
    /// Returns a reader that was fed nothing.
    pub fn new(alloc: Global) -> TextReader
        ensures { StandsFor [] [] result }
    {
        TextReader {
            alloc,
            reader: Reader::new(alloc),
            line: ArrayVec::new(),
            number: 1,
            start: 0,
        }
    }

    /// Returns how many bytes of the started line were fed so far, at most 1,024.
    pub fn held(&self) -> usize
        ensures value { result ≡ length self.now.line }
        ensures begun { (text : List ℕ) (events : List OneEvent) → StandsFor text events self.now → result ≡ unfinished text }
        ensures most { result ≤ 1024 }
    {
        self.line.len()
    }

    /// Returns how many bytes it was fed, at most 16,777,216.
    pub fn fed(&self) -> usize
        ensures value { result ≡ self.now.start + length self.now.line }
        ensures all { (text : List ℕ) (events : List OneEvent) → StandsFor text events self.now → result ≡ length text }
        ensures most { result ≤ 16777216 }
    {
        self.start + self.line.len()
    }

    /// Accepts the next byte of the text, and returns the event of the line that it ends, if it ends one that is an
    /// event. Returns `At` if no text with this beginning is a script: with the first faulty line and the first cause
    /// that fits it.
    pub fn feed(&mut self, b: u8) -> Result<Option<Event>, ScriptFault>
        ensures { (text : List ℕ) (events : List OneEvent) → StandsFor text events self.old → MatchResult result
            (λ event. StandsFor (text ++ b ∷ []) (events ++ option_to_list event) self.new) (IsRefusedFor (text ++ b ∷ []) (script_with self.old.reader events)) }
    {
        if self.start + self.line.len() >= SCRIPT {
            return Err(self.refusal(Cause::Size));
        }
        if b == b'\n' {
            return self.end_line(true);
        }
        if self.line.is_full() {
            return Err(self.refusal(Cause::Long));
        }
        self.line.push(b);
        Ok(None)
    }

    /// Accepts the next bytes of the text, none of which is a line feed, and then a line feed, as by `feed` one by one.
    pub fn feed_line(&mut self, run: &[u8]) -> Result<Option<Event>, ScriptFault>
        requires { HasNoFeed run.now }
        ensures { (text : List ℕ) (events : List OneEvent) → StandsFor text events self.old → MatchResult result
            (λ event. StandsFor ((text ++ run.now) ++ 10 ∷ []) (events ++ option_to_list event) self.new) (IsRefusedFor ((text ++ run.now) ++ 10 ∷ []) (script_with self.old.reader events)) }
    {
        if self.line.is_empty() {
            return self.read_line(run);
        }
        match self.feed_run(run) {
            Ok(()) => self.feed(b'\n'),
            Err(fault) => Err(fault),
        }
    }

    /// Accepts the first line of the next bytes, its line feed included, as by `feed` byte by byte, if no line is
    /// started and the line is a step that may follow. Returns the step, and how many bytes its line has. Otherwise it
    /// takes nothing and returns None: if a line is started, if the bytes don't begin with a step and a line feed, or
    /// if no text that begins with what was fed and that line is a script.
    #[inline(always)]
    pub fn feed_step(&mut self, bytes: &[u8]) -> Option<(TimesEvent, usize)>
        ensures left { result ≡ None → self.new ≡ self.old }
        ensures begun { (text : List ℕ) (events : List OneEvent) → StandsFor text events self.old → 0 < unfinished text → result ≡ None }
        ensures refused { result ≡ None → (text line more rest : List ℕ) (events : List OneEvent) (step : OneStep) → StandsFor text events self.old → unfinished text ≡ 0
            → bytes.now ≡ line ++ 10 ∷ more → step_before line ≡ Some step → IsErr (script_of ((text ++ line) ++ 10 ∷ rest)) }
        ensures fits { ForSome result (λ taken. (1 ≤ taken.1) × (taken.1 ≤ length bytes.now)) }
        ensures line { ForSome result (λ taken. (line : List ℕ) × (take taken.1 bytes.now ≡ line ++ 10 ∷ []) × HasNoFeed line × (step_before line ≡ Some taken.0)) }
        ensures stands { (text : List ℕ) (events : List OneEvent) → StandsFor text events self.old →
            ForSome result (λ taken. StandsFor (text ++ take taken.1 bytes.now) (events ++ times_event taken.0.side taken.0.verb taken.0.n ∷ []) self.new) }
    {
        if !self.line.is_empty() {
            return None;
        }
        let line = short_line(bytes)?;
        let step = self.reader.take_step(self.start, line)?;
        let taken = line.len() + 1;
        self.start += taken;
        self.number += 1;
        Some((step, taken))
    }

    /// Accepts the next bytes of the text, none of which is a line feed, as by `feed` one by one.
    pub fn feed_run(&mut self, run: &[u8]) -> Result<(), ScriptFault>
        requires { HasNoFeed run.now }
        ensures lines { OnOk result (self.new.reader ≡ self.old.reader) }
        ensures stands { (text : List ℕ) (events : List OneEvent) → StandsFor text events self.old → MatchResult result
            (λ _. StandsFor (text ++ run.now) events self.new) (IsRefusedFor (text ++ run.now) (script_with self.old.reader events)) }
    {
        let held = self.line.len() + run.len();
        if SCRIPT - self.start < held.min(LINE + 1) {
            return Err(self.refusal(Cause::Size));
        }
        match self.line.try_extend_from_slice(run) {
            Ok(()) => Ok(()),
            Err(_) => Err(self.refusal(Cause::Long)),
        }
    }

    /// Reads a line that a line feed ends, if none is started.
    #[inline(never)]
    fn read_line(&mut self, line: &[u8]) -> Result<Option<Event>, ScriptFault>
        requires { self.old.line ≡ [] }
        ensures { MatchResult result
            (λ event. (after_line self.old.reader (text_line self.old.start line.now true) ≡ Ok (self.new.reader, event))
            × (self.new.line ≡ []) × (self.new.number ≡ self.old.number + 1) × (self.new.start ≡ self.old.start + (length line.now + 1)))
            (λ fault. (cause : Faulted) × (fault ≡ fault_at self.old.number cause) × IsFaulty cause (after_line self.old.reader (text_line self.old.start line.now true))) }
    {
        match self.reader.read(self.alloc, self.start, line, true) {
            Ok(event) => {
                self.start += line.len() + 1;
                self.number += 1;
                Ok(event)
            }
            Err(fault) => Err(at(self.number, fault)),
        }
    }

    /// Reads the started line, which is ended by a line feed or, if `is_ended` is false, by the end of the text.
    #[inline(never)]
    fn end_line(&mut self, is_ended: bool) -> Result<Option<Event>, ScriptFault>
        requires room { self.old.start + (length self.old.line + (if is_ended then 1 else 0)) ≤ 16777216 }
        requires some { is_ended ≡ false → 0 < length self.old.line }
        ensures { MatchResult result
            (λ event. (after_line self.old.reader (text_line self.old.start self.old.line is_ended) ≡ Ok (self.new.reader, event))
            × (self.new.line ≡ []) × (self.new.number ≡ self.old.number + 1) × (self.new.start ≡ self.old.start + (length self.old.line + (if is_ended then 1 else 0))))
            (λ fault. (cause : Faulted) × (fault ≡ fault_at self.old.number cause) × IsFaulty cause (after_line self.old.reader (text_line self.old.start self.old.line is_ended))) }
    {
        match self
            .reader
            .read(self.alloc, self.start, &self.line, is_ended)
        {
            Ok(event) => {
                self.start += self.line.len() + usize::from(is_ended);
                self.number += 1;
                self.line.clear();
                Ok(event)
            }
            Err(fault) => Err(at(self.number, fault)),
        }
    }

    /// Ends the text, and returns the event of its last line, if no line feed has ended that line and it is an event.
    /// Nothing is fed after it. Returns `At` exactly if that line is faulty.
    pub fn end(&mut self) -> Result<Option<Event>, ScriptFault>
        ensures { (text : List ℕ) (events : List OneEvent) → StandsFor text events self.old → MatchResult result
            (λ event. EndsFor text (events ++ option_to_list event) self.new) (IsRefusedAtEnd text (script_with self.old.reader events)) }
    {
        if self.line.is_empty() {
            return Ok(None);
        }
        self.end_line(false)
    }

    /// Checks whether the text that has ended is a script: returns `NoEnd` exactly if no line of it was `end`.
    pub fn close(&self) -> Result<(), ScriptFault>
        ensures { (text : List ℕ) (events : List OneEvent) → EndsFor text events self.now → MatchResult result
            (λ _. script_of text ≡ Ok (script_with self.now.reader events)) (IsRefusedAtEnd text (script_with self.now.reader events)) }
    {
        if self.reader.is_ended() {
            Ok(())
        } else {
            Err(self.refusal(Cause::NoEnd))
        }
    }

    /// Returns the script of the lines so far, without its events.
    pub fn setup(&self) -> Result<Script, NoMemory>
        ensures { IfOk result (λ script. script ≡ script_with self.now.reader []) }
    {
        self.reader.setup(self.alloc)
    }

    /// Returns the fault of the started line.
    fn refusal(&self, cause: Cause) -> ScriptFault
        ensures { result ≡ TheFault.At self.now.number cause }
    {
        ScriptFault::At {
            line: self.number,
            cause,
        }
    }
}
