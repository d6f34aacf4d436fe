//! Running the script of a route, and writing the report of its run.
ghost use Rattle.std.specs.Prelude.{◌≡◌, OnErr, OnOk, IfOk};
ghost use Rattle.df1_base.specs.Outside.{Later, Put, Rose, WroteLess};
ghost use Rattle.half_route.specs.Once.{RoutedOnce};
ghost use Rattle.half_route.specs.Run.{IsNext, after_event, route_of};
ghost use Rattle.replay_report.specs.Report.{report as the_report};
ghost use Rattle.script_parts.specs.RoutePlayable.{IsRoutePlayable};

use crate::RouteScript;
use df1_base::{Failed, NoMemory, Sink};
use df1_node::Node;
use half_line::HalfWorld;
use replay_report::{Record, print};
use script_parts::Event;
use script_statement::Who;
use station_router::Router;
use std::alloc::Global;

/// The record of a route's run.
#[derive(Drop)]
pub struct RouteRecord {
    /// The lines of the report, the words that aren't 0 at the end, and the count of deceptions.
    pub report: Record,
}

/// Runs a script that was read for a route, and returns the record of its run. If no end was deceived:
///
/// - each command was executed at most once, by the end that it is for, those of one end for another in order;
/// - each reply that is reported is the answer of an end to a command of the end that has it: to that very command, or,
///   for a stray reply, to one that was given up (manual topic: half-duplex protocol).
pub fn route(alloc: Global, script: &RouteScript) -> Result<RouteRecord, NoMemory>
    requires { IsRoutePlayable script.now.script }
    ensures exact { IfOk result (λ made. made.report ≡ route_of script.now.script) }
    ensures once { IfOk result (λ made. made.report.deceived ≡ 0 → RoutedOnce script.now.script made.report) }
{
    let mut world = HalfWorld::routed(alloc, &script.script)?;
    for event in script.script.events.as_slice() {
        step(&mut world, event)?;
    }
    Ok(RouteRecord {
        report: world.finish()?,
    })
}

/// Executes an event of a route: a station issues a command, or an event that happens on every half-duplex line.
fn step(world: &mut HalfWorld<Router<Node>>, event: &Event) -> Result<(), NoMemory>
    requires { IsNext world.old event.now }
    ensures { OnOk result (world.new ≡ after_event world.old event.now) }
{
    match event {
        Event::Issue {
            who: Who::S(number),
            dst,
            payload,
            ..
        } => world.issue_at(*number, *dst, payload.as_slice()),
        _ => world.step(event),
    }
}

/// Writes the report of a route's run. Returns `Failed` only if the sink failed; then it holds a first part of the
/// text, and not all.
pub fn print_route<K: Sink>(record_of: &RouteRecord, sink: &mut K) -> Result<(), Failed>
    ensures ok { OnOk result (Put (K.held sink.old) (K.held sink.new) (the_report record_of.now.report)) }
    ensures missing { OnErr result (WroteLess (K.held sink.old) (K.held sink.new) (the_report record_of.now.report)) }
    ensures calm { OnOk result (K.faults sink.new ≡ K.faults sink.old) }
    ensures later { Later (K.mark sink.old) (K.mark sink.new) (K.faults sink.old) (K.faults sink.new) }
    ensures cause { OnErr result (Rose (K.faults sink.old) (K.faults sink.new)) }
{
    print(&record_of.report, sink)
}
