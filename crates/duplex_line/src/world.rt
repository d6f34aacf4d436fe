//! The world of a script: both ends, what is on its way between them, and what was reported so far.

ghost use Rattle.std.specs.Prelude.{◌≡◌, ◌≤◌, ◌++◌, [], IfOk, OnOk, OnErr, IsOk, IsTrue, None, Some, MatchOption};
ghost use Rattle.std.specs.List.{flat_map};
ghost use Rattle.df1_base.specs.Outside.{Rose, Put, WroteLess, Later};
ghost use Rattle.replay_report.specs.Report.{line_text};
ghost use Rattle.script_parts.specs.Playable.{IsPlayable, IsPossible, count_of};
ghost use Rattle.duplex_line.specs.Run.{record_from, all_words, who_of};
ghost use Rattle.duplex_line.specs.Plays.{IsNext, begun, initiator_of, played, printed, takes_no_memory};

use crate::deal::deal;
use crate::line_end::{LineEnd, side_of};
use crate::reported::Reported;
use crate::sent::Sent;
use df1_base::{Failed, NoMemory, Sink};
use df1_node::Initiator;
use replay_report::{Page, Record};
use report_lines::push_all;
use script_parts::{Event, Script, Words};
use script_statement::Who;
use std::alloc::Global;
use std::marker::Model;

/// Two ends with their nodes, and the bytes on their way between them. After want of memory it may only be dropped.
pub struct DuplexWorld {
    alloc: Global,
    a: LineEnd,
    b: LineEnd,
    reported: Reported,
    sent: Sent,
    events: u32,
}

// By hand, so that whoever drops one proves nothing of its parts.
impl Drop for DuplexWorld {
    fn drop(self) {
        let DuplexWorld {
            alloc: _,
            a: _a,
            b: _b,
            reported: _reported,
            sent: _sent,
            events: _,
        } = self;
    }
}

impl Model for DuplexWorld {
    ghost use Rattle.std.specs.Prelude.{◌≤◌};
    ghost use Rattle.std.specs.Coded.{codes};
    ghost use Rattle.df1_node.specs.contracts.node.Node as node_row;
    ghost use Rattle.duplex_line.specs.Acts.{line_state};
    ghost use Rattle.duplex_line.specs.Plays.{Played};
    ghost use Rattle.duplex_line.specs.Told.{with_sent};

    ghost Value = { Played };

    ghost coded = { Prim.hlevel (codes, node_row.the_row.coded) };

    ghost view = { λ w. record { state = line_state w.a w.b w.reported.deceived; lines = with_sent w.reported.lines w.sent; events = w.events } };

    ghost invariant = { λ w. w.reported.deceived ≤ w.events };
}

impl DuplexWorld {
    /// Returns the world before the first event of a script.
    pub fn new(alloc: Global, script: &Script) -> Result<DuplexWorld, NoMemory>
        requires { IsPlayable script.now }
        ensures { IfOk result (λ world. world ≡ begun script.now) }
    {
        let [a, b] = script.ends.as_slice() else {
            unreachable!();
        };
        Ok(DuplexWorld {
            alloc,
            a: side_of(alloc, script.check, a)?,
            b: side_of(alloc, script.check, b)?,
            reported: Reported {
                lines: Page::new(alloc),
                deceived: 0,
            },
            sent: Sent::new(alloc),
            events: 0,
        })
    }

    /// Performs an event that may happen, at the end a or b, which issues at most 65,535 commands; the sum of the
    /// events, with this one, is at most 5,000,000. Takes, deliveries and losses end at the first that has nothing to
    /// do, and ticks at the first that doesn't count. Losing and altering take no memory. It is inlined, since an event
    /// may be one byte alone.
    #[inline(always)]
    pub fn step(&mut self, event: &Event) -> Result<(), NoMemory>
        requires { IsNext self.old event.now }
        ensures ok { OnOk result (self.new ≡ played self.old event.now) }
        ensures calm { IsTrue (takes_no_memory event.now) → IsOk result }
    {
        let alloc = self.alloc;
        self.events += count(event);
        match place(event) {
            Who::A => deal(
                alloc,
                event,
                Who::A,
                &mut self.a,
                &mut self.b,
                &mut self.reported,
                &mut self.sent,
            ),
            Who::B => deal(
                alloc,
                event,
                Who::B,
                &mut self.b,
                &mut self.a,
                &mut self.reported,
                &mut self.sent,
            ),
            Who::M | Who::S(_) => unreachable!(),
        }
    }

    /// Returns the initiator of an end; None for every end other than a and b.
    pub fn initiator(&self, who: Who) -> Option<&Initiator>
        ensures { MatchOption result (initiator_of self.now.state who ≡ None) (λ initiator. initiator_of self.now.state who ≡ Some initiator.now) }
    {
        match who {
            Who::A => Some(self.a.initiator()),
            Who::B => Some(self.b.initiator()),
            Who::M | Who::S(_) => None,
        }
    }

    /// Writes the lines of the report that were added since the last such call, and drops them. Returns `Failed` if the
    /// sink failed: then the sink holds only a first part of their text, and the world may only be dropped.
    pub fn print_lines<K: Sink>(&mut self, sink: &mut K) -> Result<(), Failed>
        ensures state { OnOk result (self.new ≡ printed self.old) }
        ensures ok { OnOk result (Put (K.held sink.old) (K.held sink.new) (flat_map line_text self.old.lines)) }
        ensures missing { OnErr result (WroteLess (K.held sink.old) (K.held sink.new) (flat_map line_text self.old.lines)) }
        ensures untouched { self.old.lines ≡ [] → sink.new ≡ sink.old }
        ensures calm { OnOk result (K.faults sink.new ≡ K.faults sink.old) }
        ensures later { Later (K.mark sink.old) (K.mark sink.new) (K.faults sink.old) (K.faults sink.new) }
        ensures cause { OnErr result (Rose (K.faults sink.old) (K.faults sink.new)) }
    {
        self.reported.print(sink)?;
        self.sent.print(sink)
    }

    /// Returns the record of what happened: the lines, the words that aren't 0, and how often an end was deceived.
    pub fn finish(self) -> Result<Record, NoMemory>
        ensures { IfOk result (λ r. r ≡ record_from self.state self.lines) }
    {
        let words = self.words()?;
        let DuplexWorld {
            alloc,
            a: _a,
            b: _b,
            mut reported,
            mut sent,
            events: _,
        } = self;
        sent.settle(alloc, &mut reported.lines)?;
        Ok(Record {
            lines: reported.lines.into_lines(),
            words,
            deceived: reported.deceived,
        })
    }

    /// Returns the words of both ends that aren't 0.
    fn words(&self) -> Result<Words, NoMemory>
        ensures { IfOk result (λ words. words ≡ all_words self.now.state) }
    {
        let mut words = Words::new(self.alloc);
        push_all(Who::A, self.a.tables(), &mut words)?;
        push_all(Who::B, self.b.tables(), &mut words)?;
        Ok(words)
    }
}

/// Returns the end at which an event happens, or from which its bytes come.
fn place(event: &Event) -> Who
    ensures { result ≡ who_of event.now }
{
    match event {
        Event::Issue { who, .. } | Event::Take { who, .. } | Event::Tick { who, .. } => *who,
        Event::Deliver { lane, .. }
        | Event::Lose { lane, .. }
        | Event::Alter { lane, .. }
        | Event::Foreign { lane, .. } => lane.from,
    }
}

/// Returns how many events an event counts.
fn count(event: &Event) -> u32
    requires { IsPossible event.now }
    ensures { result ≡ count_of event.now }
{
    match event {
        Event::Issue { .. } | Event::Alter { .. } => 1,
        Event::Take { n, .. }
        | Event::Deliver { n, .. }
        | Event::Lose { n, .. }
        | Event::Tick { n, .. } => *n,
        Event::Foreign { bytes, .. } => bytes.as_slice().len() as u32,
    }
}
