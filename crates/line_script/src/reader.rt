//! Reads a script line by line: checks each line by the limits of the text and of lines, by its words, and by the lines
//! before it.
ghost use Rattle.std.specs.Prelude.{◌≡◌, ◌≤◌, [], ◌∷◌, ◌+◌, MatchOption, MatchResult, IfOk, IsErr, Ok, Err, None, Some, List, map, min, length, true, false, if◌then◌else◌};
ghost use Rattle.end_drafts.specs.Flaws.{IsFlawed};
ghost use Rattle.line_script.specs.Readers.{after_statement, begins_half as the_half_test, fresh, fresh_for, in_mode, stage_of as the_stage};
ghost use Rattle.line_script.specs.Lines.{after_line, after_said, cause_of as the_cause, with_cause, after_words, finished, reaches_limit as the_limit_test, script_with, content as the_content, is_ended as the_end_test, is_passed_over as the_passed, line_fault as the_line_fault, line_for, text_line, words_for};
ghost use Rattle.line_script.specs.Refusal.{IsFaulty};
ghost use Rattle.line_script.specs.Steps.{delivery as the_delivery, step_before};
ghost use Rattle.line_script.specs.declared.step.TimesEvent.{TimesEvent as OneStep};
ghost use Rattle.duplex_script.specs.Drafts.{times_event, word_given};
ghost use Rattle.end_drafts.specs.declared.flaw.Flaw.{Flaw as TheFlaw};
ghost use Rattle.script_statement.specs.declared.statement.EndLetter.{EndLetter as End};
ghost use Rattle.script_statement.specs.declared.statement.Statement.{Statement as Form};
ghost use Rattle.script_statement.specs.Words.{words as the_words};
ghost use Rattle.script_statement.specs.declared.statement.Verb.{Verb as Happening};

use crate::given_command::{GivenCommand, given_command};
use crate::given_delivery::{GivenDelivery, given_delivery};
use crate::given_word::{GivenWord, given_word};
use crate::profile::{Profile, is_barred, said};
use crate::step::{TimesEvent, step_of};
use crate::{Cause, Event, Events, LineFault, Script};
use df1_base::NoMemory;
use duplex_script::DuplexReader;
use end_drafts::{Flaw, Stage, StatementFault};
use half_script::HalfReader;
use script_statement::{Statement, first_words, statement_of};
use std::alloc::Global;

/// The longest script, in bytes.
pub const SCRIPT: usize = 16_777_216;

/// The longest line, in bytes before its line feed.
pub const LINE: usize = 1024;

/// A reader of the lines of a script, which keeps what they say except the events. After a fault it may only be
/// dropped.
pub enum Reader {
    /// Full duplex, also before any line.
    Full(DuplexReader),
    /// Half duplex, after `set mode half` as the first line of a form, or from the first line on.
    Half(HalfReader),
}

// By hand, so that whoever drops one proves nothing of its parts.
impl Drop for Reader {
    fn drop(self) {
        match self {
            Reader::Full(_reader) => {}
            Reader::Half(_reader) => {}
        }
    }
}

impl Reader {
    /// Returns a reader that was fed no line.
    pub fn new(alloc: Global) -> Self
        ensures { result ≡ fresh }
    {
        Reader::Full(DuplexReader::new(alloc))
    }

    /// Returns a reader that was fed no line, for a profile.
    pub(crate) fn for_profile(alloc: Global, profile: Profile) -> Self
        ensures { result ≡ fresh_for profile }
    {
        match profile {
            Profile::Route => Reader::Half(HalfReader::new(alloc, true)),
            Profile::Replay | Profile::Rehearse => Reader::new(alloc),
        }
    }

    /// Reads the next line, and returns its event, if it is one. `start` is the number of bytes of the text before the
    /// line, `line` has no line feed, and `is_ended` says whether one follows it. For a faulty line, returns the first
    /// cause that fits it.
    pub fn read(
        &mut self,
        alloc: Global,
        start: usize,
        line: &[u8],
        is_ended: bool,
    ) -> Result<Option<Event>, LineFault>
        ensures { MatchResult result (λ event. after_line self.old (text_line start line.now is_ended) ≡ Ok (self.new, event))
            (λ fault. IsFaulty fault (after_line self.old (text_line start line.now is_ended))) }
    {
        if reaches_limit(start, line, is_ended) {
            return Err(LineFault::Faulty(Cause::Size));
        }
        if line.len() > LINE {
            return Err(LineFault::Faulty(Cause::Long));
        }
        let said = content(line, is_ended);
        match given_word(said) {
            Some(word) => self.read_given(alloc, word),
            None => match given_command(alloc, said) {
                Some(command) => self.read_issue(alloc, command),
                None => self.read_said(alloc, said),
            },
        }
    }

    /// Reads the next line for a profile: for a replay as `read` does, otherwise by its words.
    pub(crate) fn read_for(
        &mut self,
        alloc: Global,
        start: usize,
        line: &[u8],
        is_ended: bool,
        profile: Profile,
    ) -> Result<Option<Event>, LineFault>
        ensures { MatchResult result (λ event. line_for profile self.old (text_line start line.now is_ended) ≡ Ok (self.new, event))
            (λ fault. IsFaulty fault (line_for profile self.old (text_line start line.now is_ended))) }
    {
        match profile {
            Profile::Replay => self.read(alloc, start, line, is_ended),
            Profile::Route | Profile::Rehearse => {
                self.read_formed(alloc, start, line, is_ended, profile)
            }
        }
    }

    /// Reads the next line by its words.
    fn read_formed(
        &mut self,
        alloc: Global,
        start: usize,
        line: &[u8],
        is_ended: bool,
        profile: Profile,
    ) -> Result<Option<Event>, LineFault>
        ensures { MatchResult result (λ event. line_for profile self.old (text_line start line.now is_ended) ≡ Ok (self.new, event))
            (λ fault. IsFaulty fault (line_for profile self.old (text_line start line.now is_ended))) }
    {
        if reaches_limit(start, line, is_ended) {
            return Err(LineFault::Faulty(Cause::Size));
        }
        if line.len() > LINE {
            return Err(LineFault::Faulty(Cause::Long));
        }
        self.read_words_for(alloc, &first_words(content(line, is_ended)), profile)
    }

    /// Accepts the next line, which a line feed ends, as by `read`, if it is a step that may follow the lines so far;
    /// its event is that of the step. Returns None exactly if it is no step or is refused; then nothing changes.
    #[inline(always)]
    pub(crate) fn take_step(&mut self, start: usize, line: &[u8]) -> Option<TimesEvent>
        requires { start ≤ 16777216 }
        ensures step { MatchOption result (self.new ≡ self.old)
            (λ step. (step_before line.now ≡ Some step) × (after_line self.old (text_line start line.now true) ≡ Ok (self.new, Some (times_event step.side step.verb step.n)))) }
        ensures refused { result ≡ None → (step : OneStep) → step_before line.now ≡ Some step → IsErr (after_line self.old (text_line start line.now true)) }
    {
        let step = step_of(content(line, true))?;
        if reaches_limit(start, line, true) || line.len() > LINE || self.is_ended() {
            return None;
        }
        if self.take_times(step.n) {
            Some(step)
        } else {
            None
        }
    }

    /// Accepts a statement of what happens `n` times at an end or at its queue, if it may follow the lines so far, none
    /// of which was `end`. Returns false exactly if it is refused; then nothing changes.
    fn take_times(&mut self, n: u32) -> bool
        requires { the_end_test (the_stage self.old) ≡ false }
        ensures taken { result ≡ true → (side : End) (verb : Happening) → after_statement self.old (Form.Times side verb (Some n)) ≡ Ok (self.new, Some (times_event side verb n)) }
        ensures refused { result ≡ false → (side : End) (verb : Happening) → IsErr (after_statement self.old (Form.Times side verb (Some n))) }
        ensures left { result ≡ false → self.new ≡ self.old }
    {
        match self {
            Reader::Full(duplex) => duplex.take_times(n),
            Reader::Half(_) => false,
        }
    }

    /// Reads a line that sets the first value of a word of a full-duplex end.
    fn read_given(&mut self, alloc: Global, word: GivenWord) -> Result<Option<Event>, LineFault>
        ensures { MatchResult result (λ event. after_said self.old (Some (word_given word.side word.file word.index word.value)) ≡ Ok (self.new, event))
            (λ fault. IsFaulty fault (after_said self.old (Some (word_given word.side word.file word.index word.value)))) }
    {
        if self.is_ended() {
            return Err(LineFault::Faulty(Cause::After));
        }
        match self {
            Reader::Full(duplex) => {
                match duplex.take_word(word.side, word.file, word.index, word.value) {
                    Ok(()) => Ok(None),
                    Err(fault) => Err(line_fault(fault)),
                }
            }
            Reader::Half(_) => self.take(alloc, word.statement()),
        }
    }

    /// Reads a line that issues a command of a full-duplex end. It isn't inlined, since the other lines would pay for
    /// its stack space.
    #[inline(never)]
    fn read_issue(
        &mut self,
        alloc: Global,
        command: GivenCommand,
    ) -> Result<Option<Event>, LineFault>
        ensures { MatchResult result (λ event. after_said self.old (Some (Form.Issue command.side (Some command.payload))) ≡ Ok (self.new, event))
            (λ fault. IsFaulty fault (after_said self.old (Some (Form.Issue command.side (Some command.payload))))) }
    {
        if self.is_ended() {
            return Err(LineFault::Faulty(Cause::After));
        }
        let GivenCommand { side, payload } = command;
        match self {
            Reader::Full(duplex) => match duplex.take_issue(side, payload) {
                Ok(event) => Ok(Some(event)),
                Err(flaw) => Err(LineFault::Faulty(cause_of(flaw))),
            },
            Reader::Half(_) => self.take(
                alloc,
                Statement::Issue {
                    side,
                    payload: Some(payload),
                },
            ),
        }
    }

    /// Reads a line that neither gives a word nor issues a command in their most frequent spelling.
    fn read_said(&mut self, alloc: Global, said: &[u8]) -> Result<Option<Event>, LineFault>
        ensures { MatchResult result (λ event. after_words self.old (the_words said.now) ≡ Ok (self.new, event))
            (λ fault. IsFaulty fault (after_words self.old (the_words said.now))) }
    {
        match given_delivery(said) {
            Some(delivery) => self.read_delivery(alloc, delivery),
            None => self.read_words(alloc, &first_words(said)),
        }
    }

    /// Reads a line by which bytes of a master arrive at a station.
    fn read_delivery(
        &mut self,
        alloc: Global,
        delivery: GivenDelivery,
    ) -> Result<Option<Event>, LineFault>
        ensures { MatchResult result (λ event. after_said self.old (Some (the_delivery delivery.station delivery.n)) ≡ Ok (self.new, event))
            (λ fault. IsFaulty fault (after_said self.old (Some (the_delivery delivery.station delivery.n)))) }
    {
        if self.is_ended() {
            return Err(LineFault::Faulty(Cause::After));
        }
        self.take(alloc, delivery.statement())
    }

    /// Reads the first words of the next line.
    fn read_words(&mut self, alloc: Global, words: &[&[u8]]) -> Result<Option<Event>, LineFault>
        ensures { MatchResult result (λ event. after_words self.old (map (λ x. x.now) words.now) ≡ Ok (self.new, event))
            (λ fault. IsFaulty fault (after_words self.old (map (λ x. x.now) words.now))) }
    {
        if is_passed_over(words) {
            return Ok(None);
        }
        if self.is_ended() {
            return Err(LineFault::Faulty(Cause::After));
        }
        match statement_of(alloc, words)? {
            Some(statement) => self.take(alloc, statement),
            None => Err(LineFault::Faulty(Cause::Form)),
        }
    }

    /// Reads the first words of the next line for a profile.
    fn read_words_for(
        &mut self,
        alloc: Global,
        words: &[&[u8]],
        profile: Profile,
    ) -> Result<Option<Event>, LineFault>
        ensures { MatchResult result (λ event. words_for profile self.old (map (λ x. x.now) words.now) ≡ Ok (self.new, event))
            (λ fault. IsFaulty fault (words_for profile self.old (map (λ x. x.now) words.now))) }
    {
        if is_passed_over(words) {
            return Ok(None);
        }
        if self.is_ended() {
            return Err(LineFault::Faulty(Cause::After));
        }
        match said(alloc, words, profile)? {
            Some(statement) if is_barred(&statement, profile) => {
                Err(LineFault::Faulty(Cause::Place))
            }
            Some(statement) => self.take(alloc, statement),
            None => Err(LineFault::Faulty(Cause::Form)),
        }
    }

    /// Accepts a statement, if nothing is wrong with it. A refused statement takes no memory.
    fn take(&mut self, alloc: Global, statement: Statement) -> Result<Option<Event>, LineFault>
        ensures refused { (flaw : TheFlaw) → after_statement self.old statement ≡ Err flaw → result ≡ Err (LineFault.Faulty (the_cause flaw)) }
        ensures value { MatchResult result (λ event. with_cause (after_statement self.old statement) ≡ Ok (self.new, event))
            (λ fault. IsFaulty fault (with_cause (after_statement self.old statement))) }
    {
        if self.begins_half(&statement) {
            *self = Reader::Half(HalfReader::new(alloc, false));
            return Ok(None);
        }
        match self.take_in_mode(alloc, statement) {
            Ok(event) => Ok(event),
            Err(fault) => Err(line_fault(fault)),
        }
    }

    /// Accepts a statement in the mode of the lines so far.
    fn take_in_mode(
        &mut self,
        alloc: Global,
        statement: Statement,
    ) -> Result<Option<Event>, StatementFault>
        ensures refused { (flaw : TheFlaw) → in_mode self.old statement ≡ Err flaw → result ≡ Err (StatementFault.Flawed flaw) }
        ensures value { MatchResult result (λ event. in_mode self.old statement ≡ Ok (self.new, event))
            (λ fault. IsFlawed fault (in_mode self.old statement)) }
    {
        match self {
            Reader::Full(duplex) => duplex.take(statement),
            Reader::Half(half) => half.take(alloc, statement),
        }
    }

    /// Returns whether a statement chooses half duplex, as the first one.
    fn begins_half(&self, statement: &Statement) -> bool
        ensures { result ≡ the_half_test self.now statement.now }
    {
        match (self, statement) {
            (Reader::Full(duplex), Statement::Mode { half }) => *half && duplex.stage.is_fresh(),
            _ => false,
        }
    }

    /// Returns what the lines so far allow.
    fn stage(&self) -> Stage
        ensures { result ≡ the_stage self.now }
    {
        match self {
            Reader::Full(duplex) => duplex.stage,
            Reader::Half(half) => half.stage,
        }
    }

    /// Returns whether a line was `end`.
    pub(crate) fn is_ended(&self) -> bool
        ensures { result ≡ the_end_test (the_stage self.now) }
    {
        match self.stage() {
            Stage::Ended => true,
            Stage::Fresh | Stage::Settings | Stage::Events => false,
        }
    }

    /// Returns the script with these events, at the end of the text: `NoEnd` exactly if no line was `end`.
    pub fn finish(self, alloc: Global, events: Events) -> Result<Script, LineFault>
        ensures { MatchResult result (λ script. finished self events ≡ Ok script) (λ fault. IsFaulty fault (finished self events)) }
    {
        if !self.is_ended() {
            return Err(LineFault::Faulty(Cause::NoEnd));
        }
        let mut script = self.setup(alloc)?;
        script.events = events;
        Ok(script)
    }

    /// Returns the script of the lines so far, without its events.
    pub fn setup(&self, alloc: Global) -> Result<Script, NoMemory>
        ensures { IfOk result (λ script. script ≡ script_with self.now []) }
    {
        match self {
            Reader::Full(duplex) => duplex.setup(alloc),
            Reader::Half(half) => half.setup(alloc),
        }
    }
}

/// Returns the fault of a line, by that of its statement.
fn line_fault(fault: StatementFault) -> LineFault
    ensures { result ≡ the_line_fault fault }
{
    match fault {
        StatementFault::Flawed(flaw) => LineFault::Faulty(cause_of(flaw)),
        StatementFault::NoMemory => LineFault::NoMemory,
    }
}

/// Returns the cause of a line, by what is wrong with its statement.
fn cause_of(flaw: Flaw) -> Cause
    ensures { result ≡ the_cause flaw }
{
    match flaw {
        Flaw::Place => Cause::Place,
        Flaw::Missing => Cause::Missing,
        Flaw::Value => Cause::Value,
        Flaw::Twice => Cause::Twice,
        Flaw::Spent => Cause::Spent,
        Flaw::Events => Cause::Events,
    }
}

/// Returns whether the byte past the longest script is among the first bytes of a line: as many as the longest line
/// has, and one more.
fn reaches_limit(start: usize, line: &[u8], is_ended: bool) -> bool
    ensures { result ≡ the_limit_test (text_line start line.now is_ended) }
{
    start <= SCRIPT && SCRIPT - start < heard(line, is_ended)
}

/// Returns how many of the bytes of a line count there, its line feed included.
fn heard(line: &[u8], is_ended: bool) -> usize
    ensures { result ≡ min 1025 (length line.now + (if is_ended then 1 else 0)) }
{
    if line.len() > LINE {
        LINE + 1
    } else if is_ended {
        line.len() + 1
    } else {
        line.len()
    }
}

/// Returns a line without the carriage return before its line feed.
fn content(line: &[u8], is_ended: bool) -> &[u8]
    ensures { result.now ≡ the_content (text_line 0 line.now is_ended) }
{
    if is_ended && line.last() == Some(&b'\r') {
        &line[..line.len() - 1]
    } else {
        line
    }
}

/// Returns whether these are the words of a blank line or a comment.
fn is_passed_over(words: &[&[u8]]) -> bool
    ensures { result ≡ the_passed (map (λ x. x.now) words.now) }
{
    match words {
        [] => true,
        [first, ..] => first.starts_with(b"#"),
    }
}
