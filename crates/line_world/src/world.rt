//! The world of a script of either mode.

ghost use Rattle.std.specs.Prelude.{◌≡◌, [], IfOk, IsOk, IsTrue, OnOk, OnErr, None, Some, MatchOption};
ghost use Rattle.std.specs.List.{flat_map};
ghost use Rattle.df1_base.specs.Outside.{Rose, Put, WroteLess, Later};
ghost use Rattle.replay_report.specs.Report.{line_text};
ghost use Rattle.script_parts.specs.HalfPlayable.{CanBePlayed};
ghost use Rattle.line_world.specs.Runs.{AreNext, IsNext, all_played, begun, initiator_of, lines_in, played, printed, record_from, takes_no_memory};

use df1_base::{Failed, NoMemory, Sink};
use df1_node::{Initiator, Node};
use duplex_line::DuplexWorld;
use half_line::HalfWorld;
use replay_report::Record;
use script_parts::{Event, Script, Who};
use std::alloc::Global;

/// The ends of a line with their nodes, and the bytes on their way between them: two ends of a full-duplex line, or a
/// master and its stations. After want of memory it may only be dropped.
pub enum World {
    /// A full-duplex line between two ends.
    Duplex(DuplexWorld),
    /// A half-duplex line, on which a master polls its stations.
    Polled(HalfWorld<Node>),
}

// By hand, so that whoever drops one proves nothing of its parts.
impl Drop for World {
    fn drop(self) {
        match self {
            World::Duplex(_world) => {}
            World::Polled(_world) => {}
        }
    }
}

impl World {
    /// Returns the world before the first event of a script, in the script's mode.
    pub fn new(alloc: Global, script: &Script) -> Result<World, NoMemory>
        requires { CanBePlayed script.now }
        ensures { IfOk result (λ world. world ≡ begun script.now) }
    {
        if script.half {
            Ok(World::Polled(HalfWorld::new(alloc, script)?))
        } else {
            Ok(World::Duplex(DuplexWorld::new(alloc, script)?))
        }
    }

    /// Performs an event that may happen on this line; no end issues more than 65,535 commands, and the sum of the
    /// events, with this one, is at most 5,000,000. Losing and altering take no memory. It is inlined, since an event
    /// may be one byte alone.
    #[inline(always)]
    pub fn step(&mut self, event: &Event) -> Result<(), NoMemory>
        requires { IsNext self.old event.now }
        ensures ok { OnOk result (self.new ≡ played self.old event.now) }
        ensures calm { IsTrue (takes_no_memory self.old event.now) → IsOk result }
    {
        match self {
            World::Duplex(world) => world.step(event),
            World::Polled(world) => world.step(event),
        }
    }

    /// Performs events that may happen one after another, as `step` does each.
    pub fn step_all(&mut self, events: &[Event]) -> Result<(), NoMemory>
        requires { AreNext self.old events.now }
        ensures { OnOk result (self.new ≡ all_played self.old events.now) }
    {
        for event in events {
            self.step(event)?;
        }
        Ok(())
    }

    /// Returns the initiator of an end; None if the world has no such end. A full-duplex line has a and b, a
    /// half-duplex line its master and its stations.
    pub fn initiator(&self, who: Who) -> Option<&Initiator>
        ensures { MatchOption result (initiator_of self.now who ≡ None) (λ initiator. initiator_of self.now who ≡ Some initiator.now) }
    {
        match self {
            World::Duplex(world) => world.initiator(who),
            World::Polled(world) => world.initiator(who),
        }
    }

    /// Writes the lines of the report that were added since the last such call, and drops them. Returns `Failed` if the
    /// sink failed: then the sink holds only a first part of their text, and the world may only be dropped.
    pub fn print_lines<K: Sink>(&mut self, sink: &mut K) -> Result<(), Failed>
        ensures state { OnOk result (self.new ≡ printed self.old) }
        ensures ok { OnOk result (Put (K.held sink.old) (K.held sink.new) (flat_map line_text (lines_in self.old))) }
        ensures missing { OnErr result (WroteLess (K.held sink.old) (K.held sink.new) (flat_map line_text (lines_in self.old))) }
        ensures untouched { lines_in self.old ≡ [] → sink.new ≡ sink.old }
        ensures calm { OnOk result (K.faults sink.new ≡ K.faults sink.old) }
        ensures later { Later (K.mark sink.old) (K.mark sink.new) (K.faults sink.old) (K.faults sink.new) }
        ensures cause { OnErr result (Rose (K.faults sink.old) (K.faults sink.new)) }
    {
        match self {
            World::Duplex(world) => world.print_lines(sink),
            World::Polled(world) => world.print_lines(sink),
        }
    }

    /// Returns the record of what happened: the lines not yet written, the words that aren't 0, and how often an end
    /// was deceived.
    pub fn finish(self) -> Result<Record, NoMemory>
        ensures { IfOk result (λ r. r ≡ record_from self (lines_in self)) }
    {
        match self {
            World::Duplex(world) => world.finish(),
            World::Polled(world) => world.finish(),
        }
    }
}
