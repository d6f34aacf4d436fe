//! What a statement with nothing wrong changes, and the event that it is.
ghost use Rattle.std.specs.Prelude.{◌≡◌, IfOk, OnOk, Some, true, false};
ghost use Rattle.half_script.specs.Drafts.{address_of as the_address, altered, delivered, event_of as the_event, happening as the_happening, heard, issued, issued_by, issued_from, lane_at as the_lane, lost, numbers, sets_up as the_setup_test, settled, taken, ticked, who_at as the_who, with_statement as the_draft};

use crate::HalfReader;
use df1_base::NoMemory;
use end_drafts::Stage;
use script_parts::{Event, Lane};
use script_statement::{Bytes, EndName, HalfEvent, SetupStatement, Statement, Way, Who};
use std::alloc::Global;

/// The highest address.
const HIGHEST_ADDRESS: u32 = 255;

impl HalfReader {
    /// Accepts a statement, and returns its event, if it is one.
    pub(crate) fn apply(
        &mut self,
        alloc: Global,
        statement: Statement,
    ) -> Result<Option<Event>, NoMemory>
        ensures { IfOk result (λ event. the_draft self.old statement ≡ (self.new, event)) }
    {
        let steps = self.steps_of(&statement);
        self.stage = Stage::after(&statement);
        self.events_left = self.events_left.saturating_sub(steps);
        if sets_up(&statement) {
            self.take_line(statement)?;
            Ok(None)
        } else {
            self.settle(alloc, &statement)?;
            Ok(self.event_of(statement))
        }
    }

    /// Accepts a statement that is a line of an end.
    fn take_line(&mut self, statement: Statement) -> Result<(), NoMemory>
        requires { the_setup_test statement ≡ true }
        ensures { OnOk result (self.new ≡ settled self.old statement) }
    {
        if let Statement::Setup { end, line } = statement {
            self.set_up(end, line)?;
        }
        Ok(())
    }

    /// Accepts a line of an end. Only a file and a word take memory.
    #[inline(never)]
    fn set_up(&mut self, end: EndName, line: SetupStatement) -> Result<(), NoMemory>
        ensures { OnOk result (self.new ≡ settled self.old (Statement.Setup end line)) }
    {
        match end {
            EndName::Known(_) => Ok(()),
            EndName::Master => self.master.take(Who::M, line),
            EndName::Station(number) => self.stations.take(number, line),
        }
    }

    /// Applies what a statement that is no line of an end changes besides the stage and the sum of events. Only a
    /// station takes memory.
    fn settle(&mut self, alloc: Global, statement: &Statement) -> Result<(), NoMemory>
        requires { the_setup_test statement.now ≡ false }
        ensures { OnOk result (self.new ≡ settled self.old statement.now) }
    {
        match statement {
            Statement::Check(Some(check)) => self.check = Some(*check),
            Statement::Station(Some(number)) => self.stations.push(alloc, *number)?,
            Statement::Half(HalfEvent::Issue { .. } | HalfEvent::IssueFrom { .. }) => {
                self.master.count_command()
            }
            Statement::Half(HalfEvent::StationIssue { station, .. }) => {
                self.stations.count_command(*station)
            }
            _ => {}
        }
        Ok(())
    }

    /// Returns the event of a statement.
    fn event_of(&self, statement: Statement) -> Option<Event>
        ensures { result ≡ the_event (numbers self.now) statement }
    {
        match statement {
            Statement::Half(event) => self.happening(event),
            _ => None,
        }
    }

    /// Returns an event, if its station is declared and its values are present.
    fn happening(&self, event: HalfEvent) -> Option<Event>
        ensures { result ≡ the_happening (numbers self.now) event }
    {
        match event {
            HalfEvent::Issue { station, payload } => {
                issue(None, self.stations.declared(station), payload)
            }
            HalfEvent::IssueFrom {
                station,
                src,
                payload,
            } => issue_from(src, self.stations.declared(station), payload),
            HalfEvent::StationIssue {
                station,
                to,
                payload,
            } => issue_by(self.who(station), address_of(to), payload),
            HalfEvent::MasterTake { n } => take(Some(Who::M), n),
            HalfEvent::MasterTick { n } => tick(n),
            HalfEvent::StationTake { station, n } => take(self.who(station), n),
            HalfEvent::Deliver { way, n } => deliver(self.lane(way), n),
            HalfEvent::Lose { way, n } => lose(self.lane(way), n),
            HalfEvent::Alter { way, mask } => alter(self.lane(way), mask),
            HalfEvent::Foreign { way, bytes } => foreign(self.lane(way), bytes),
        }
    }

    /// Returns a station, if it is declared.
    fn who(&self, station: u32) -> Option<Who>
        ensures { result ≡ the_who (numbers self.now) station }
    {
        self.stations.declared(station).map(Who::S)
    }

    /// Returns the queue of a direction, if its station is declared. It is inlined, since most lines of a polled script
    /// name one.
    #[inline(always)]
    fn lane(&self, way: Way) -> Option<Lane>
        ensures { result ≡ the_lane (numbers self.now) way }
    {
        match way {
            Way::ToStation(station) => Some(Lane {
                from: Who::M,
                to: self.who(station)?,
            }),
            Way::ToMaster(station) => Some(Lane {
                from: self.who(station)?,
                to: Who::M,
            }),
        }
    }
}

/// Returns whether a statement is a line of an end.
fn sets_up(statement: &Statement) -> bool
    ensures { result ≡ the_setup_test statement.now }
{
    matches!(statement, Statement::Setup { .. })
}

/// Returns a command of the master, with this SRC or otherwise with its own.
fn issue(src: Option<u8>, dst: Option<u8>, payload: Option<Bytes>) -> Option<Event>
    ensures { result ≡ issued src dst payload }
{
    Some(Event::Issue {
        who: Who::M,
        src,
        dst: dst?,
        payload: payload?,
    })
}

/// Returns a command of the master with this SRC, if there is one.
fn issue_from(src: Option<u8>, dst: Option<u8>, payload: Option<Bytes>) -> Option<Event>
    ensures { result ≡ issued_from src dst payload }
{
    issue(Some(src?), dst, payload)
}

/// Returns a command of an end with its own SRC.
fn issue_by(who: Option<Who>, dst: Option<u8>, payload: Option<Bytes>) -> Option<Event>
    ensures { result ≡ issued_by who dst payload }
{
    Some(Event::Issue {
        who: who?,
        src: None,
        dst: dst?,
        payload: payload?,
    })
}

/// Returns a number, if it can be an address.
fn address_of(number: u32) -> Option<u8>
    ensures { result ≡ the_address number }
{
    if number <= HIGHEST_ADDRESS {
        Some(number as u8)
    } else {
        None
    }
}

/// Returns the event that an end sends bytes.
fn take(who: Option<Who>, n: Option<u32>) -> Option<Event>
    ensures { result ≡ taken who n }
{
    Some(Event::Take { who: who?, n: n? })
}

/// Returns the event that ticks pass at the master.
fn tick(n: Option<u32>) -> Option<Event>
    ensures { result ≡ ticked n }
{
    Some(Event::Tick { who: Who::M, n: n? })
}

/// Returns the event that bytes of a queue arrive.
fn deliver(lane: Option<Lane>, n: Option<u32>) -> Option<Event>
    ensures { result ≡ delivered lane n }
{
    Some(Event::Deliver { lane: lane?, n: n? })
}

/// Returns the event that bytes of a queue are lost.
fn lose(lane: Option<Lane>, n: Option<u32>) -> Option<Event>
    ensures { result ≡ lost lane n }
{
    Some(Event::Lose { lane: lane?, n: n? })
}

/// Returns the event that the head of a queue is altered.
fn alter(lane: Option<Lane>, mask: Option<u8>) -> Option<Event>
    ensures { result ≡ altered lane mask }
{
    Some(Event::Alter {
        lane: lane?,
        mask: mask?,
    })
}

/// Returns the event that foreign bytes arrive.
fn foreign(lane: Option<Lane>, bytes: Option<Bytes>) -> Option<Event>
    ensures { result ≡ heard lane bytes }
{
    Some(Event::Foreign {
        lane: lane?,
        bytes: bytes?,
    })
}
