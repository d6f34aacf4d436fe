//! What a statement with nothing wrong changes, and the event that it is.
ghost use Rattle.std.specs.Prelude.{◌≡◌, IfOk, MatchResult, OnOk, Ok, Err, None, Some, true, false};
ghost use Rattle.end_drafts.specs.declared.flaw.Flaw.{Flaw as TheFlaw};
ghost use Rattle.end_drafts.specs.Flaws.{IsFlawed};
ghost use Rattle.duplex_script.specs.Drafts.{after_statement, with_statement as the_draft, settled, sets_up as the_setup_test, event_of as the_event, address_of as the_address, command as the_command, lane_from, times_event as the_times, word_given};
ghost use Rattle.script_statement.specs.declared.statement.EndLetter.{EndLetter as End};
ghost use Rattle.script_statement.specs.declared.statement.Verb.{Verb as Happening};

use crate::DuplexReader;
use crate::first_flaw::steps_of;
use crate::reader::{NODE_OF_A, NODE_OF_B};
use df1_base::NoMemory;
use end_drafts::{Flaw, Stage, StatementFault};
use script_parts::{Event, Lane, WordOf};
use script_statement::{Bytes, EndLetter, EndName, SetupStatement, Statement, Verb};

impl DuplexReader {
    /// Accepts a statement, and returns its event, if it is one.
    pub(crate) fn apply(&mut self, statement: Statement) -> Result<Option<Event>, NoMemory>
        ensures { IfOk result (λ event. the_draft self.old statement ≡ (self.new, event)) }
    {
        self.stage = Stage::after(&statement);
        self.events_left = self.events_left.saturating_sub(steps_of(&statement));
        if sets_up(&statement) {
            self.take_line(statement)?;
            Ok(None)
        } else {
            self.settle(&statement);
            Ok(self.event_of(statement))
        }
    }

    /// Accepts a statement of what happens `n` times at an end or at its queue, as by `take`: its event is
    /// `times_event`. Returns false exactly if the sum of events would exceed its maximum; then nothing changes.
    pub fn take_times(&mut self, n: u32) -> bool
        ensures taken { result ≡ true → (side : End) (verb : Happening) → after_statement self.old (Statement.Times side verb (Some n)) ≡ Ok (self.new, Some (the_times side verb n)) }
        ensures refused { result ≡ false → (side : End) (verb : Happening) → after_statement self.old (Statement.Times side verb (Some n)) ≡ Err TheFlaw.Events }
        ensures left { result ≡ false → self.new ≡ self.old }
    {
        let steps = n as usize;
        if steps > self.events_left {
            return false;
        }
        self.stage = Stage::Events;
        self.events_left -= steps;
        true
    }

    /// Accepts a statement that sets the first value of a word, as by `take`; it is no event.
    pub fn take_word(
        &mut self,
        side: EndLetter,
        file: u16,
        index: u32,
        value: u16,
    ) -> Result<(), StatementFault>
        ensures refused { (flaw : TheFlaw) → after_statement self.old (word_given side file index value) ≡ Err flaw → result ≡ Err (StatementFault.Flawed flaw) }
        ensures value { MatchResult result (λ _. after_statement self.old (word_given side file index value) ≡ Ok (self.new, None))
            (λ fault. IsFlawed fault (after_statement self.old (word_given side file index value))) }
    {
        if self.stage.is_set_up() {
            return Err(StatementFault::Flawed(Flaw::Place));
        }
        let word = WordOf {
            who: side.who(),
            file,
            index,
            value,
        };
        match side {
            EndLetter::A => self.a.take_word(word)?,
            EndLetter::B => self.b.take_word(word)?,
        }
        self.stage = Stage::Settings;
        Ok(())
    }

    /// Accepts a statement that issues a command with this payload at an end, as by `take`, and returns its event. The
    /// flaw is Spent if the end may issue no more, and otherwise Events if the sum of events would exceed its maximum.
    pub fn take_issue(&mut self, side: EndLetter, payload: Bytes) -> Result<Event, Flaw>
        ensures { MatchResult result (λ event. after_statement self.old (Statement.Issue side (Some payload)) ≡ Ok (self.new, Some event))
            (λ flaw. after_statement self.old (Statement.Issue side (Some payload)) ≡ Err flaw) }
    {
        if self.end(side).commands_left == 0 {
            return Err(Flaw::Spent);
        }
        if self.events_left == 0 {
            return Err(Flaw::Events);
        }
        self.stage = Stage::Events;
        self.events_left -= 1;
        self.count_command(side);
        Ok(self.command(side, None, payload))
    }

    /// Accepts a statement that is a line of an end.
    fn take_line(&mut self, statement: Statement) -> Result<(), NoMemory>
        requires { the_setup_test statement ≡ true }
        ensures { OnOk result (self.new ≡ settled self.old statement) }
    {
        if let Statement::Setup { end, line } = statement {
            self.set_up(end, line)?;
        }
        Ok(())
    }

    /// Accepts a line of an end. Only a file and a word take memory.
    #[inline(never)]
    fn set_up(&mut self, end: EndName, line: SetupStatement) -> Result<(), NoMemory>
        ensures { OnOk result (self.new ≡ settled self.old (Statement.Setup end line)) }
    {
        match end {
            EndName::Known(EndLetter::A) => self.a.take(EndLetter::A.who(), line),
            EndName::Known(EndLetter::B) => self.b.take(EndLetter::B.who(), line),
            EndName::Master | EndName::Station(_) => Ok(()),
        }
    }

    /// Applies what a statement that is no line of an end changes besides the stage and the sum of events.
    fn settle(&mut self, statement: &Statement)
        requires { the_setup_test statement.now ≡ false }
        ensures { self.new ≡ settled self.old statement.now }
    {
        match statement {
            Statement::Check(Some(check)) => self.check = Some(*check),
            Statement::Issue { side, .. } | Statement::IssueFrom { side, .. } => {
                self.count_command(*side)
            }
            _ => {}
        }
    }

    /// Counts a command of an end.
    fn count_command(&mut self, side: EndLetter)
        ensures { self.new ≡ settled self.old (Statement.Issue side None) }
    {
        match side {
            EndLetter::A => self.a.count_command(),
            EndLetter::B => self.b.count_command(),
        }
    }

    /// Returns the event of a statement.
    fn event_of(&self, statement: Statement) -> Option<Event>
        ensures { result ≡ the_event self.now statement }
    {
        match statement {
            Statement::Issue {
                side,
                payload: Some(payload),
            } => Some(self.command(side, None, payload)),
            Statement::IssueFrom { side, src, payload } => self.command_from(side, src, payload),
            Statement::Times {
                side,
                verb,
                n: Some(n),
            } => Some(times_event(side, verb, n)),
            Statement::Alter {
                side,
                mask: Some(mask),
            } => Some(Event::Alter {
                lane: lane_of(side),
                mask,
            }),
            Statement::Foreign {
                side,
                bytes: Some(bytes),
            } => Some(Event::Foreign {
                lane: lane_of(side),
                bytes,
            }),
            _ => None,
        }
    }

    /// Returns the event that issues a command at an end, for the other one, with this SRC or otherwise with its own.
    fn command(&self, side: EndLetter, src: Option<u8>, payload: Bytes) -> Event
        ensures { result ≡ the_command self.now side src payload }
    {
        Event::Issue {
            who: side.who(),
            src,
            dst: self.address_of(side.other()),
            payload,
        }
    }

    /// Returns the event that issues a command at an end with an explicit SRC, if its source and its payload are
    /// present.
    fn command_from(
        &self,
        side: EndLetter,
        src: Option<u8>,
        payload: Option<Bytes>,
    ) -> Option<Event>
        ensures { result ≡ the_event self.now (Statement.IssueFrom side src payload) }
    {
        Some(self.command(side, Some(src?), payload?))
    }

    /// Returns the address of an end.
    fn address_of(&self, side: EndLetter) -> u8
        ensures { result ≡ the_address self.now side }
    {
        match side {
            EndLetter::A => self.a.node(NODE_OF_A),
            EndLetter::B => self.b.node(NODE_OF_B),
        }
    }
}

/// Returns whether a statement is a line of an end.
fn sets_up(statement: &Statement) -> bool
    ensures { result ≡ the_setup_test statement.now }
{
    matches!(statement, Statement::Setup { .. })
}

/// Returns the event that happens `n` times at an end, or at its queue.
pub fn times_event(side: EndLetter, verb: Verb, n: u32) -> Event
    ensures { result ≡ the_times side verb n }
{
    match verb {
        Verb::Take => Event::Take { who: side.who(), n },
        Verb::Tick => Event::Tick { who: side.who(), n },
        Verb::Deliver => Event::Deliver {
            lane: lane_of(side),
            n,
        },
        Verb::Lose => Event::Lose {
            lane: lane_of(side),
            n,
        },
    }
}

/// Returns the queue of an end.
fn lane_of(side: EndLetter) -> Lane
    ensures { result ≡ lane_from side }
{
    Lane {
        from: side.who(),
        to: side.other().who(),
    }
}
