//! Reads a half-duplex script statement by statement.
ghost use Rattle.std.specs.Prelude.{◌≡◌, MatchResult, IfOk, Ok, Err, [], option_map, List};
ghost use Rattle.end_drafts.specs.declared.flaw.Flaw.{Flaw as TheFlaw};
ghost use Rattle.end_drafts.specs.Flaws.{IsFlawed};
ghost use Rattle.half_script.specs.Drafts.{fresh_reader, after_statement, draft_at, ends_of as the_ends, script_with};

use crate::Stations;
use df1_base::NoMemory;
use df1_check::Check;
use end_drafts::{EndDraft, Stage, StatementFault};
use script_parts::{Ends, Event, Events, Script};
use script_statement::{EVENTS, EndName, Items, Statement, Who};
use std::alloc::Global;

/// The address of the master, if no line sets it.
pub(crate) const NODE: u8 = 0;

/// A reader of the statements of a half-duplex script, after `set mode half` if a line says so, which keeps what they
/// say except the events. After a fault it may only be dropped.
pub struct HalfReader {
    pub stage: Stage,
    /// Whether the master carries messages between the stations, so that these issue commands too.
    pub(crate) routes: bool,
    pub(crate) check: Option<Check>,
    pub(crate) master: EndDraft,
    pub(crate) stations: Stations,
    pub(crate) events_left: usize,
}

// By hand, so that whoever drops one proves nothing of its parts.
impl Drop for HalfReader {
    fn drop(self) {
        let HalfReader {
            stage: _,
            routes: _,
            check: _check,
            master: _master,
            stations: _stations,
            events_left: _,
        } = self;
    }
}

impl HalfReader {
    /// Returns a reader that was fed no statement but `set mode half`; `routes` says whether the master carries
    /// messages between the stations.
    pub fn new(alloc: Global, routes: bool) -> Self
        ensures { result ≡ fresh_reader routes }
    {
        HalfReader {
            stage: Stage::Settings,
            routes,
            check: None,
            master: EndDraft::new(alloc),
            stations: Stations::new(alloc),
            events_left: EVENTS as usize,
        }
    }

    /// Accepts the next statement, and returns its event, if it is one. If something is wrong with the statement,
    /// returns the first flaw; then it takes no memory.
    pub fn take(
        &mut self,
        alloc: Global,
        statement: Statement,
    ) -> Result<Option<Event>, StatementFault>
        ensures refused { (flaw : TheFlaw) → after_statement self.old statement ≡ Err flaw → result ≡ Err (StatementFault.Flawed flaw) }
        ensures value { MatchResult result (λ event. after_statement self.old statement ≡ Ok (self.new, event))
            (λ fault. IsFlawed fault (after_statement self.old statement)) }
    {
        match self.flaw_of(&statement) {
            Some(flaw) => Err(StatementFault::Flawed(flaw)),
            None => Ok(self.apply(alloc, statement)?),
        }
    }

    /// Returns what is known of an end, if there is such an end.
    pub(crate) fn end(&self, end: EndName) -> Option<&EndDraft>
        ensures { option_map (λ draft. draft.now) result ≡ draft_at self.now end }
    {
        match end {
            EndName::Known(_) => None,
            EndName::Master => Some(&self.master),
            EndName::Station(number) => match self.stations.find(number) {
                Some(station) => Some(&station.end),
                None => None,
            },
        }
    }

    /// Returns the script of the statements so far, without its events.
    pub fn setup(&self, alloc: Global) -> Result<Script, NoMemory>
        ensures { IfOk result (λ script. script ≡ script_with self.now []) }
    {
        Ok(Script {
            half: true,
            check: self.check.unwrap_or(Check::Bcc),
            ends: self.ends(alloc)?,
            events: Events::new(alloc),
        })
    }

    /// Returns the plans of the master and of the stations.
    fn ends(&self, alloc: Global) -> Result<Ends, NoMemory>
        ensures { IfOk result (λ ends. ends ≡ the_ends self.now) }
    {
        let mut ends: Ends = Items::new(alloc);
        ends.push(self.master.plan(alloc, Who::M, NODE)?)?;
        self.stations.add_plans(alloc, &mut ends)?;
        Ok(ends)
    }
}
