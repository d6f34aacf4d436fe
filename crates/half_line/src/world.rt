//! The world of a script: the master, its stations, what is on its way between them, and what was reported so far.

ghost use Rattle.std.specs.Prelude.{◌≡◌, ◌≤◌, ◌+◌, ◌++◌, ℕ, List, [], length, map, None, Some, IfOk, MatchOption, OnOk, OnErr, IsOk, IsTrue};
ghost use Rattle.std.specs.List.{flat_map, All};
ghost use Rattle.df1_base.specs.Outside.{Rose, Put, WroteLess, Later};
ghost use Rattle.df1_check.specs.declared.Check.{Check as CheckKind};
ghost use Rattle.half_master.specs.Stations.{AreStations};
ghost use Rattle.replay_report.specs.Report.{line_text};
ghost use Rattle.script_parts.specs.declared.script.EndPlan.{EndPlan as Plan};
ghost use Rattle.script_parts.specs.HalfPlayable.{AreHalfEnds, IsHalfPlayable, IsHalfPossible, IsStationPlan, IsStationNumber, half_count_of, numbers_of as numbers_in};
ghost use Rattle.station_router.specs.Router.{new_router};
ghost use Rattle.outset.specs.Outset.{first_node};
ghost use Rattle.half_line.specs.Behind.{behind};
ghost use Rattle.half_line.specs.Run.{plan_of_m, record_from, all_words, first_side, number_of as the_number_of, place_of as place_in, station_at as the_station_at, station_words};
ghost use Rattle.half_line.specs.Plays.{IsNext, MayIssueAt, begun, begun_with, issued_at, initiator_at, initiator_of, most_events, played, printed, takes_no_memory};

use crate::deal::{deal_at_master, deal_at_station};
use crate::line_station::{LineStation, side_of};
use crate::reported::Reported;
use crate::setup::master_setup;
use crate::way::station_between;
use arrayvec::ArrayVec;
use df1_base::{Failed, NoMemory, Sink};
use df1_check::Check;
use df1_node::{Initiator, Node};
use half_master::Master;
use outset::node_of;
use replay_report::{Page, Record, print_lines};
use report_lines::push_all;
use script_parts::{EndPlan, Event, Script, Words};
use script_statement::Who;
use station_router::{MasterHost, Router};
use std::alloc::Global;
use std::marker::Model;

/// A master and its stations with their nodes, and the bytes on their way between them. The host of the master is a
/// node, or a router in front of one. After want of memory the world may only be dropped.
pub struct HalfWorld<H: MasterHost + Drop> {
    alloc: Global,
    master: Master<H>,
    stations: Vec<LineStation>,
    reported: Reported,
    events: u32,
}

// By hand, so that whoever drops one proves nothing of its parts.
impl<H: MasterHost + Drop> Drop for HalfWorld<H> {
    fn drop(self) {
        let HalfWorld {
            alloc: _,
            master: _master,
            stations: _stations,
            reported: _reported,
            events: _,
        } = self;
    }
}

impl<H: MasterHost + Drop> Model for HalfWorld<H> {
    ghost use Rattle.std.specs.Prelude.{◌≤◌, length};
    ghost use Rattle.std.specs.Coded.{codes};
    ghost use Rattle.df1_node.specs.contracts.node.Node as node_row;
    ghost use Rattle.half_line.specs.Acts.{half_state};
    ghost use Rattle.half_line.specs.Plays.{Played};

    ghost Value = { Played H };

    ghost coded = { Prim.hlevel (codes, node_row.the_row.coded) };

    ghost view = { λ w. record { state = half_state w.master w.stations.items w.reported.deceived; lines = w.reported.lines; events = w.events } };

    ghost invariant = { λ w. w.reported.deceived ≤ w.events };
}

impl HalfWorld<Node> {
    /// Returns the world before the first event of a script, with the node of the master's plan as the master's host.
    pub fn new(alloc: Global, script: &Script) -> Result<HalfWorld<Node>, NoMemory>
        requires { IsHalfPlayable script.now }
        ensures { IfOk result (λ world. world ≡ begun script.now) }
    {
        let node = master_node(alloc, script)?;
        HalfWorld::over(alloc, script, node)
    }
}

impl HalfWorld<Router<Node>> {
    /// Returns the world before the first event of a script, with a router between all stations of the script as the
    /// master's host, and behind it the node of the master's plan (manual topic: half-duplex protocol).
    pub fn routed(alloc: Global, script: &Script) -> Result<HalfWorld<Router<Node>>, NoMemory>
        requires { AreHalfEnds script.now.ends }
        ensures { IfOk result (λ world. world ≡ begun_with script.now (new_router (numbers_in script.now.ends) (first_node (plan_of_m script.now)))) }
    {
        let node = master_node(alloc, script)?;
        let router = Router::new(&station_numbers(script), node);
        HalfWorld::over(alloc, script, router)
    }
}

impl<H: MasterHost + Drop> HalfWorld<H> {
    /// Returns the world before the first event of a script, with this host behind the master.
    pub fn over(alloc: Global, script: &Script, host: H) -> Result<HalfWorld<H>, NoMemory>
        requires { AreHalfEnds script.now.ends }
        ensures { IfOk result (λ world. world ≡ begun_with script.now host) }
    {
        let [plan, plans @ ..] = script.ends.as_slice() else {
            unreachable!();
        };
        Ok(HalfWorld {
            alloc,
            master: Master::new(master_setup(script.check, plan), &numbers_of(plans), host),
            stations: sides_of(alloc, script.check, plans)?,
            reported: Reported {
                lines: Page::new(alloc),
                deceived: 0,
            },
            events: 0,
        })
    }

    /// Performs an event, which may happen at the master, at a station or between them. The master issues at most
    /// 65,535 commands, and the sum of the events, with this one, is at most 5,000,000. Takes, deliveries and losses
    /// end at the first that has nothing to do. Losing and altering take no memory. It isn't inlined, since a caller
    /// that has either kind of line would pay for its stack space on the other.
    #[inline(never)]
    pub fn step(&mut self, event: &Event) -> Result<(), NoMemory>
        requires { IsNext (behind H.Host H.MasterHost.own) self.old event.now }
        ensures ok { OnOk result (self.new ≡ played (behind H.Host H.MasterHost.own) self.old event.now) }
        ensures calm { IsTrue (takes_no_memory event.now) → IsOk result }
    {
        let alloc = self.alloc;
        self.events += count(event, self.stations.len());
        let Some(number) = station_at(event) else {
            return deal_at_master(
                alloc,
                event,
                &mut self.master,
                &mut self.stations,
                &mut self.reported.lines,
            );
        };
        match place_of(&self.stations, number) {
            Some(place) => deal_at_station(
                alloc,
                event,
                number,
                &mut self.master,
                &mut self.stations[place],
                &mut self.reported,
            ),
            None => Ok(()),
        }
    }

    /// Lets the node of the station of this number issue a command to a node with its own address as SRC; if no station
    /// has the number, nothing is issued. The payload has 1 to 245 bytes, bit 6 of its CMD is clear, and the station
    /// has issued fewer than 65,535 commands. It counts as one event, and the sum of the events, with this one, is at
    /// most 5,000,000 (manual topic: message packets).
    pub fn issue_at(&mut self, number: u8, dst: u8, payload: &[u8]) -> Result<(), NoMemory>
        requires { MayIssueAt self.old number payload.now }
        ensures { OnOk result (self.new ≡ issued_at self.old number dst payload.now) }
    {
        self.events += 1;
        match place_of(&self.stations, number) {
            Some(place) => self.stations[place].issue(dst, payload),
            None => Ok(()),
        }
    }

    /// Returns the initiator of the master or of a station; None if the line has no such end.
    pub fn initiator(&self, who: Who) -> Option<&Initiator>
        ensures { MatchOption result (initiator_of (behind H.Host H.MasterHost.own) self.now.state who ≡ None) (λ initiator. initiator_of (behind H.Host H.MasterHost.own) self.now.state who ≡ Some initiator.now) }
    {
        match who {
            Who::M => Some(self.master.host().node().initiator()),
            Who::S(number) => station_initiator(&self.stations, number),
            Who::A | Who::B => None,
        }
    }

    /// Writes the lines of the report that were added since the last such call, and drops them. Returns `Failed` if the
    /// sink failed: then the sink holds only a first part of their text, and the world may only be dropped.
    pub fn print_lines<K: Sink>(&mut self, sink: &mut K) -> Result<(), Failed>
        ensures state { OnOk result (self.new ≡ printed self.old) }
        ensures ok { OnOk result (Put (K.held sink.old) (K.held sink.new) (flat_map line_text self.old.lines)) }
        ensures missing { OnErr result (WroteLess (K.held sink.old) (K.held sink.new) (flat_map line_text self.old.lines)) }
        ensures untouched { self.old.lines ≡ [] → sink.new ≡ sink.old }
        ensures calm { OnOk result (K.faults sink.new ≡ K.faults sink.old) }
        ensures later { Later (K.mark sink.old) (K.mark sink.new) (K.faults sink.old) (K.faults sink.new) }
        ensures cause { OnErr result (Rose (K.faults sink.old) (K.faults sink.new)) }
    {
        print_lines(self.reported.lines.as_slice(), sink)?;
        self.reported.lines.clear();
        Ok(())
    }

    /// Returns the record of what happened: the lines, the words that aren't 0, and how often an end was deceived.
    pub fn finish(self) -> Result<Record, NoMemory>
        ensures { IfOk result (λ r. r ≡ record_from (behind H.Host H.MasterHost.own) self.state self.lines) }
    {
        let words = self.words()?;
        let HalfWorld {
            alloc: _,
            master: _master,
            stations: _stations,
            reported,
            events: _,
        } = self;
        Ok(Record {
            lines: reported.lines.into_lines(),
            words,
            deceived: reported.deceived,
        })
    }

    /// Returns the words of the master and of the stations, in their order, that aren't 0.
    fn words(&self) -> Result<Words, NoMemory>
        ensures { IfOk result (λ words. words ≡ all_words (behind H.Host H.MasterHost.own) self.now.state) }
    {
        let mut words = Words::new(self.alloc);
        push_all(Who::M, self.master.host().node().tables(), &mut words)?;
        push_stations(&self.stations, &mut words)?;
        Ok(words)
    }
}

/// Makes the node of the plan of a script's master, which has executed and issued nothing.
fn master_node(alloc: Global, script: &Script) -> Result<Node, NoMemory>
    requires { AreHalfEnds script.now.ends }
    ensures { IfOk result (λ node. node ≡ first_node (plan_of_m script.now)) }
{
    let [plan, ..] = script.ends.as_slice() else {
        unreachable!();
    };
    node_of(alloc, plan)
}

/// Returns the numbers of a script's stations, at most 32.
fn station_numbers(script: &Script) -> ArrayVec<u8, 32>
    requires { AreHalfEnds script.now.ends }
    ensures { result.items ≡ numbers_in script.now.ends }
{
    let [_, plans @ ..] = script.ends.as_slice() else {
        unreachable!();
    };
    numbers_of(plans)
}

/// Returns the initiator of the station with this number; None if there is no such station.
fn station_initiator(stations: &[LineStation], number: u8) -> Option<&Initiator>
    ensures { MatchOption result (initiator_at stations.now (place_in stations.now number) ≡ None) (λ initiator. initiator_at stations.now (place_in stations.now number) ≡ Some initiator.now) }
{
    let place = place_of(stations, number)?;
    Some(stations[place].initiator())
}

/// Adds the words of the stations that aren't 0.
fn push_stations(stations: &[LineStation], words: &mut Words) -> Result<(), NoMemory>
    ensures { OnOk result (words.new ≡ words.old ++ station_words stations.now) }
{
    for side in stations {
        push_all(Who::S(side.number()), side.tables(), words)?;
    }
    Ok(())
}

/// Returns the numbers of the stations of these plans, at most 32.
fn numbers_of(plans: &[EndPlan]) -> ArrayVec<u8, 32>
    requires { length plans.now ≤ 32 }
    ensures { result.items ≡ map (λ (plan : Plan). plan.node) plans.now }
{
    let mut numbers = ArrayVec::new();
    for plan in plans {
        numbers.push(plan.node);
    }
    numbers
}

/// Makes the stations of these plans, which have received and sent nothing.
fn sides_of(alloc: Global, check: Check, plans: &[EndPlan]) -> Result<Vec<LineStation>, NoMemory>
    requires plans { All IsStationPlan plans.now }
    requires numbers { All (λ (plan : Plan). IsStationNumber plan.node) plans.now }
    ensures { IfOk result (λ sides. sides.items ≡ map (first_side check) plans.now) }
{
    let mut sides = Vec::new(alloc);
    for plan in plans {
        sides.push(side_of(alloc, check, plan)?)?;
    }
    Ok(sides)
}

/// Returns the index of the station with this number, among at most 32.
fn place_of(stations: &[LineStation], number: u8) -> Option<usize>
    ensures { result ≡ place_in stations.now number }
{
    stations.iter().position(|side| side.number() == number)
}

/// Returns the number of the station at which an event happens, or between which and the master its bytes are; None if
/// it happens at the master.
fn station_at(event: &Event) -> Option<u8>
    ensures { result ≡ the_station_at event.now }
{
    match event {
        Event::Issue { .. } | Event::Tick { .. } => None,
        Event::Take { who, .. } => number_of(*who),
        Event::Deliver { lane, .. }
        | Event::Lose { lane, .. }
        | Event::Alter { lane, .. }
        | Event::Foreign { lane, .. } => Some(station_between(lane.from, lane.to)),
    }
}

/// Returns the number of a station.
fn number_of(who: Who) -> Option<u8>
    ensures { result ≡ the_number_of who }
{
    match who {
        Who::S(number) => Some(number),
        Who::A | Who::B | Who::M => None,
    }
}

/// Returns how many events an event counts, with so many stations: a byte of the master counts one for each, and one if
/// there is none.
fn count(event: &Event, stations: usize) -> u32
    requires { (numbers : List ℕ) × (length numbers ≡ stations) × IsHalfPossible numbers event.now × (half_count_of numbers event.now ≤ most_events) }
    ensures { (numbers : List ℕ) → length numbers ≡ stations → result ≡ half_count_of numbers event.now }
{
    match event {
        Event::Issue { .. } | Event::Alter { .. } => 1,
        Event::Take { who: Who::M, n } => *n * stations.max(1) as u32,
        Event::Take { n, .. }
        | Event::Deliver { n, .. }
        | Event::Lose { n, .. }
        | Event::Tick { n, .. } => *n,
        Event::Foreign { bytes, .. } => bytes.as_slice().len() as u32,
    }
}
