//! Reads a full-duplex script statement by statement.
ghost use Rattle.std.specs.Prelude.{◌≡◌, MatchResult, IfOk, Ok, Err, []};
ghost use Rattle.end_drafts.specs.declared.flaw.Flaw.{Flaw as TheFlaw};
ghost use Rattle.end_drafts.specs.Flaws.{IsFlawed};
ghost use Rattle.duplex_script.specs.Drafts.{fresh, after_statement, end_at as the_end, ends as the_ends, script_with};

use df1_base::NoMemory;
use df1_check::Check;
use end_drafts::{EndDraft, Stage, StatementFault};
use script_parts::{Ends, Event, Events, Script};
use script_statement::{EVENTS, EndLetter, Items, Statement, Who};
use std::alloc::Global;

/// The address of end a, if no line sets it.
pub(crate) const NODE_OF_A: u8 = 0;

/// The address of end b, if no line sets it.
pub(crate) const NODE_OF_B: u8 = 1;

/// A reader of statements, which keeps what they say except the events. After a fault it may only be dropped.
pub struct DuplexReader {
    pub stage: Stage,
    pub(crate) check: Option<Check>,
    pub(crate) a: EndDraft,
    pub(crate) b: EndDraft,
    pub(crate) events_left: usize,
}

// By hand, so that whoever drops one proves nothing of its parts.
impl Drop for DuplexReader {
    fn drop(self) {
        let DuplexReader {
            stage: _,
            check: _check,
            a: _a,
            b: _b,
            events_left: _,
        } = self;
    }
}

impl DuplexReader {
    /// Returns a reader that was fed no statement.
    pub fn new(alloc: Global) -> Self
        ensures { result ≡ fresh }
    {
        DuplexReader {
            stage: Stage::Fresh,
            check: None,
            a: EndDraft::new(alloc),
            b: EndDraft::new(alloc),
            events_left: EVENTS as usize,
        }
    }

    /// Accepts the next statement, and returns its event, if it is one. If something is wrong with the statement,
    /// returns the first flaw; then it takes no memory.
    pub fn take(&mut self, statement: Statement) -> Result<Option<Event>, StatementFault>
        ensures refused { (flaw : TheFlaw) → after_statement self.old statement ≡ Err flaw → result ≡ Err (StatementFault.Flawed flaw) }
        ensures value { MatchResult result (λ event. after_statement self.old statement ≡ Ok (self.new, event))
            (λ fault. IsFlawed fault (after_statement self.old statement)) }
    {
        match self.flaw_of(&statement) {
            Some(flaw) => Err(StatementFault::Flawed(flaw)),
            None => Ok(self.apply(statement)?),
        }
    }

    /// Returns what is known of an end.
    pub(crate) fn end(&self, side: EndLetter) -> &EndDraft
        ensures { result.now ≡ the_end self.now side }
    {
        match side {
            EndLetter::A => &self.a,
            EndLetter::B => &self.b,
        }
    }

    /// Returns the script of the statements so far, without its events.
    pub fn setup(&self, alloc: Global) -> Result<Script, NoMemory>
        ensures { IfOk result (λ script. script ≡ script_with self.now []) }
    {
        Ok(Script {
            half: false,
            check: self.check.unwrap_or(Check::Bcc),
            ends: ends_of(alloc, &self.a, &self.b)?,
            events: Events::new(alloc),
        })
    }
}

/// Returns the plans of the ends a and b.
fn ends_of(alloc: Global, a: &EndDraft, b: &EndDraft) -> Result<Ends, NoMemory>
    ensures { IfOk result (λ ends. ends ≡ the_ends a.now b.now) }
{
    let mut ends: Ends = Items::new(alloc);
    ends.push(a.plan(alloc, Who::A, NODE_OF_A)?)?;
    ends.push(b.plan(alloc, Who::B, NODE_OF_B)?)?;
    Ok(ends)
}
