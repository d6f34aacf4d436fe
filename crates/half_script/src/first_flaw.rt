//! What is wrong with a statement that follows those so far: one test for each flaw, and the first that fits.
ghost use Rattle.std.specs.Prelude.{◌≡◌, ◌<◌, ◌≤◌, ◌^◌, unwrap_or};
ghost use Rattle.script_parts.specs.HalfPlayable.{master_weight};
ghost use Rattle.script_parts.specs.RoutePlayable.{is_reached as the_reach_test};
ghost use Rattle.half_script.specs.Drafts.{event_steps as the_event_steps, exceeds_at as the_excess_test, flaw_of as the_flaw, is_masters as the_master_test, is_misplaced as the_misplaced, is_missing as the_missing, is_out_of_range as the_range_test, is_outside as the_outside, is_spent as the_spent, is_twice as the_twice, leads_nowhere as the_way_test, master_node as the_master_node, named_by as the_name, names_none as the_name_test, names_station as the_station_test, numbers, role_of as the_role, station_of as the_station, steps_of as the_steps};

use crate::HalfReader;
use crate::reader::NODE;
use crate::stations::STATIONS;
use end_drafts::{Flaw, Stage};
use end_settings::{EndKey, Role};
use script_statement::{EndName, HalfEvent, SetupStatement, Statement, Way};

impl HalfReader {
    /// Returns the first flaw that a statement has, in the order of the flaws.
    pub(crate) fn flaw_of(&self, statement: &Statement) -> Option<Flaw>
        ensures { result ≡ the_flaw self.now statement.now }
    {
        if is_misplaced(self.stage, statement) {
            Some(Flaw::Place)
        } else if self.is_missing(statement) {
            Some(Flaw::Missing)
        } else if self.is_out_of_range(statement) {
            Some(Flaw::Value)
        } else if self.is_twice(statement) {
            Some(Flaw::Twice)
        } else if self.is_spent(statement) {
            Some(Flaw::Spent)
        } else if self.steps_of(statement) > self.events_left {
            Some(Flaw::Events)
        } else {
            None
        }
    }

    /// Returns whether the statement names an end or an event that half duplex doesn't have, a station that isn't
    /// declared, an end out of a station's reach, a key that isn't for that end, or a file that isn't declared.
    fn is_missing(&self, statement: &Statement) -> bool
        ensures { result ≡ the_missing self.now statement.now }
    {
        match statement {
            Statement::Setup { end, line } => match self.end(*end) {
                Some(draft) => draft.lacks(role_of(self.routes, *end), line),
                None => true,
            },
            Statement::Issue { .. }
            | Statement::IssueFrom { .. }
            | Statement::Times { .. }
            | Statement::Alter { .. }
            | Statement::Foreign { .. } => true,
            Statement::Half(event) => self.leads_nowhere(event) || self.names_none(event),
            _ => false,
        }
    }

    /// Returns whether an event names a station that isn't declared.
    fn names_none(&self, event: &HalfEvent) -> bool
        ensures { result ≡ the_name_test self.now event.now }
    {
        match named_by(event) {
            Some(station) => !self.stations.has(station),
            None => false,
        }
    }

    /// Returns whether a command of a station is for neither another station nor the master, or the master carries
    /// none.
    fn leads_nowhere(&self, event: &HalfEvent) -> bool
        ensures { result ≡ the_way_test self.now event.now }
    {
        match event {
            HalfEvent::StationIssue { station, to, .. } => {
                !(self.routes && self.is_reached(*station, *to))
            }
            _ => false,
        }
    }

    /// Returns whether a station can send to this number: it is that of another station, or the master's address.
    fn is_reached(&self, station: u32, to: u32) -> bool
        ensures { result ≡ the_reach_test (numbers self.now) (the_master_node self.now) station to }
    {
        (self.stations.has(to) && to != station) || to == u32::from(self.master_node())
    }

    /// Returns the address of the master.
    fn master_node(&self) -> u8
        ensures { result ≡ the_master_node self.now }
    {
        self.master.node(NODE)
    }

    /// Returns whether something that a line says is out of its range:
    ///
    /// - a number, a word or a length;
    /// - a station, as the 33rd;
    /// - the address of a master that carries messages, as that of a station;
    /// - the type of a compatibility file, as another than bit or integer.
    fn is_out_of_range(&self, statement: &Statement) -> bool
        ensures { result ≡ the_range_test self.now statement.now }
    {
        match statement {
            Statement::Check(check) => check.is_none(),
            Statement::Station(number) => {
                number.is_none() || self.stations.len() >= STATIONS || self.is_masters(*number)
            }
            Statement::Setup { end, line } => {
                self.exceeds(*end, line) || self.names_station(*end, line)
            }
            Statement::Half(event) => is_outside(event),
            _ => false,
        }
    }

    /// Returns whether a number, a word or a length of a line of an end is out of its range, or a compatibility file is
    /// of another type than bit or integer.
    fn exceeds(&self, end: EndName, line: &SetupStatement) -> bool
        ensures { result ≡ the_excess_test self.now end line.now }
    {
        match self.end(end) {
            Some(draft) => draft.exceeds(line),
            None => false,
        }
    }

    /// Returns whether the number of a station is the address of a master that carries messages.
    fn is_masters(&self, number: Option<u8>) -> bool
        ensures { result ≡ the_master_test self.now number }
    {
        match number {
            Some(number) => self.routes && number == self.master_node(),
            None => false,
        }
    }

    /// Returns whether a line sets the address of a master that carries messages to the number of a station.
    fn names_station(&self, end: EndName, line: &SetupStatement) -> bool
        ensures { result ≡ the_station_test self.now end line.now }
    {
        match (end, line) {
            (EndName::Master, SetupStatement::Set(setting)) => match (setting.key, setting.value) {
                (EndKey::Node, Some(node)) => self.routes && self.stations.has(node),
                _ => false,
            },
            _ => false,
        }
    }

    /// Returns whether an earlier line set the key, the station, the file or the word.
    fn is_twice(&self, statement: &Statement) -> bool
        ensures { result ≡ the_twice self.now statement.now }
    {
        match statement {
            Statement::Check(_) => self.check.is_some(),
            Statement::Station(Some(number)) => self.stations.has(u32::from(*number)),
            Statement::Setup { end, line } => match self.end(*end) {
                Some(draft) => draft.repeats(line),
                None => false,
            },
            _ => false,
        }
    }

    /// Returns whether the statement is a command of an end that may issue no more.
    fn is_spent(&self, statement: &Statement) -> bool
        ensures { result ≡ the_spent self.now statement.now }
    {
        match statement {
            Statement::Half(HalfEvent::Issue { .. } | HalfEvent::IssueFrom { .. }) => {
                self.master.commands_left == 0
            }
            Statement::Half(HalfEvent::StationIssue { station, .. }) => {
                match self.stations.find(*station) {
                    Some(station) => station.end.commands_left == 0,
                    None => false,
                }
            }
            _ => false,
        }
    }

    /// Returns how many events a statement counts.
    pub(crate) fn steps_of(&self, statement: &Statement) -> usize
        ensures { result ≡ the_steps self.now statement.now }
    {
        match statement {
            Statement::Half(event) => self.event_steps(event),
            _ => 0,
        }
    }

    /// Returns how many events an event counts: each byte of the master goes into the queue of each station.
    fn event_steps(&self, event: &HalfEvent) -> usize
        ensures { result ≡ the_event_steps (numbers self.now) event.now }
    {
        match event {
            HalfEvent::Issue { .. }
            | HalfEvent::IssueFrom { .. }
            | HalfEvent::StationIssue { .. }
            | HalfEvent::Alter { .. } => 1,
            HalfEvent::MasterTake { n } => number_of(*n) * self.weight(),
            HalfEvent::MasterTick { n }
            | HalfEvent::StationTake { n, .. }
            | HalfEvent::Deliver { n, .. }
            | HalfEvent::Lose { n, .. } => number_of(*n),
            HalfEvent::Foreign { bytes, .. } => match bytes {
                Some(bytes) => bytes.as_slice().len(),
                None => 0,
            },
        }
    }

    /// Returns how many events a byte of the master counts.
    fn weight(&self) -> usize
        ensures value { result ≡ master_weight (numbers self.now) }
        ensures most { result ≤ 32 }
    {
        self.stations.len().max(1)
    }
}

/// Returns a number, or 0.
fn number_of(n: Option<u32>) -> usize
    ensures value { result ≡ unwrap_or n 0 }
    ensures most { result < 2 ^ 32 }
{
    n.unwrap_or(0) as usize
}

/// Returns whether a statement may not stand here.
fn is_misplaced(stage: Stage, statement: &Statement) -> bool
    ensures { result ≡ the_misplaced stage statement.now }
{
    match statement {
        Statement::Mode { .. } => !stage.is_fresh(),
        Statement::Check(_) | Statement::Station(_) | Statement::Setup { .. } => stage.is_set_up(),
        _ => false,
    }
}

/// Returns the kind of an end, on a line whose master carries messages or not.
fn role_of(routes: bool, end: EndName) -> Role
    ensures { result ≡ the_role routes end }
{
    match end {
        EndName::Known(_) => Role::Duplex,
        EndName::Master => Role::Master,
        EndName::Station(_) if routes => Role::RoutedStation,
        EndName::Station(_) => Role::Station,
    }
}

/// Returns the station that an event names, if it names one.
fn named_by(event: &HalfEvent) -> Option<u32>
    ensures { result ≡ the_name event.now }
{
    match event {
        HalfEvent::Issue { station, .. }
        | HalfEvent::IssueFrom { station, .. }
        | HalfEvent::StationIssue { station, .. }
        | HalfEvent::StationTake { station, .. } => Some(*station),
        HalfEvent::MasterTake { .. } | HalfEvent::MasterTick { .. } => None,
        HalfEvent::Deliver { way, .. }
        | HalfEvent::Lose { way, .. }
        | HalfEvent::Alter { way, .. }
        | HalfEvent::Foreign { way, .. } => Some(station_of(*way)),
    }
}

/// Returns the station that a direction joins with the master.
fn station_of(way: Way) -> u32
    ensures { result ≡ the_station way }
{
    match way {
        Way::ToStation(station) | Way::ToMaster(station) => station,
    }
}

/// Returns whether a number or a length of an event is out of its range.
fn is_outside(event: &HalfEvent) -> bool
    ensures { result ≡ the_outside event.now }
{
    match event {
        HalfEvent::Issue { payload, .. } | HalfEvent::StationIssue { payload, .. } => {
            payload.is_none()
        }
        HalfEvent::IssueFrom { src, payload, .. } => src.is_none() || payload.is_none(),
        HalfEvent::MasterTake { n }
        | HalfEvent::MasterTick { n }
        | HalfEvent::StationTake { n, .. }
        | HalfEvent::Deliver { n, .. }
        | HalfEvent::Lose { n, .. } => n.is_none(),
        HalfEvent::Alter { mask, .. } => mask.is_none(),
        HalfEvent::Foreign { bytes, .. } => bytes.is_none(),
    }
}
