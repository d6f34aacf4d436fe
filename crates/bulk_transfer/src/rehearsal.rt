//! The result of a rehearsal, and what both kinds of transfer need of the line: end a issues orders and has their
//! outcomes.

ghost use Rattle.std.specs.Prelude.{◌≡◌, Some, IsSome, OnOk};
ghost use Rattle.script_parts.specs.Playable.{AreEnds};
ghost use Rattle.duplex_line.specs.Run.{plan_of_b};
ghost use Rattle.line_world.specs.Runs.{IsNext, initiator_of, played};
ghost use Rattle.bulk_transfer.specs.Rehearsal.{order_event};

use bulk_orders::Bulk;
use df1_base::NoMemory;
use df1_node::Initiator;
use line_world::World;
use replay_report::Record;
use script_parts::{Bytes, Event, Items, Script, Who};
use std::alloc::Global;

/// The result of a rehearsal.
#[derive(Drop)]
pub struct Rehearsal {
    /// The record of what happened on the line.
    pub report: Record,
    /// The result of the transfer.
    pub bulk: Bulk,
    /// The words of a transfer that reads, low bytes first, if it is whole; otherwise none.
    pub words: Bytes,
}

/// Issues an order at end a to the end of this address.
pub(crate) fn issue(
    alloc: Global,
    world: &mut World,
    node: u8,
    payload: &[u8],
) -> Result<(), NoMemory>
    requires { IsNext world.old (order_event node payload.now) }
    ensures { OnOk result (world.new ≡ played world.old (order_event node payload.now)) }
{
    world.step(&Event::Issue {
        who: Who::A,
        src: None,
        dst: node,
        payload: Items::copy_of(alloc, payload)?,
    })
}

/// Returns the address of end b.
pub(crate) fn node_of_b(script: &Script) -> u8
    requires { AreEnds script.now.ends }
    ensures { result ≡ (plan_of_b script.now).node }
{
    let [_, b] = script.ends.as_slice() else {
        unreachable!();
    };
    b.node
}

/// Returns the initiator of end a, which a full-duplex line has.
pub(crate) fn initiator_of_a(world: &World) -> &Initiator
    requires { IsSome (initiator_of world.now Who.A) }
    ensures { initiator_of world.now Who.A ≡ Some result.now }
{
    let Some(initiator) = world.initiator(Who::A) else {
        unreachable!();
    };
    initiator
}
