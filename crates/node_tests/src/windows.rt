//! Tests of several outstanding commands of several sources: tables of calls of a node and of its answers.
ghost use Rattle.std.specs.Prelude.{◌≤◌};

use crate::equal::is;
use arrayvec::ArrayVec;
use df1_base::{Did, Host};
use df1_node::{Node, NodeSetup, Station, Tables};
use std::alloc::Global;
use std::process::Abort;
use std::test::Fail;

/// A call of a node, with its answer.
#[derive(Clone, Copy)]
enum Act {
    /// A command is issued with this source, and gets this number.
    Issue(u8, u32),
    /// This body is handed out next.
    Hand(&'static [u8]),
    /// Nothing is handed out.
    Hold,
    /// This reply is accepted.
    Take(&'static [u8], Did),
    /// At a tick these commands are unanswered.
    Tick(&'static [u32]),
}

/// What follows TNS in each command.
const PAYLOAD: &[u8] = b"\x06\x00\x55";

/// Command 1, of source 0, whose TNS is 65535.
const FIRST: &[u8] = b"\x01\x00\x06\x00\xFF\xFF\x00\x55";

/// The reply to it.
const FIRST_REPLY: &[u8] = b"\x00\x01\x46\x00\xFF\xFF\x55";

/// Command 2, of source 0, whose TNS is 0.
const SECOND: &[u8] = b"\x01\x00\x06\x00\x00\x00\x00\x55";

/// The reply to it.
const SECOND_REPLY: &[u8] = b"\x00\x01\x46\x00\x00\x00\x55";

/// Command 3, of source 9, whose TNS is 1.
const THIRD: &[u8] = b"\x01\x09\x06\x00\x01\x00\x00\x55";

/// The reply to it.
const THIRD_REPLY: &[u8] = b"\x09\x01\x46\x00\x01\x00\x55";

/// Command 4, of source 9, whose TNS is 2.
const FOURTH: &[u8] = b"\x01\x09\x06\x00\x02\x00\x00\x55";

/// The reply to it.
const FOURTH_REPLY: &[u8] = b"\x09\x01\x46\x00\x02\x00\x55";

/// Up to 16 commands of one source: lowest first, and replies in any order.
const SHARED: [Act; 13] = [
    Act::Issue(0, 1),
    Act::Issue(0, 2),
    Act::Issue(9, 3),
    Act::Hand(FIRST),
    Act::Hand(SECOND),
    Act::Hold,
    Act::Take(SECOND_REPLY, Did::Answered(2)),
    Act::Hand(THIRD),
    Act::Hold,
    Act::Take(FIRST_REPLY, Did::Answered(1)),
    Act::Take(b"\x00\x01\x46\x00\x01\x00\x55", Did::Stray),
    Act::Take(THIRD_REPLY, Did::Answered(3)),
    Act::Hold,
];

/// One command of each source: another source is served first, and two commands are unanswered at one tick.
const IN_TURN: [Act; 16] = [
    Act::Issue(0, 1),
    Act::Issue(0, 2),
    Act::Issue(9, 3),
    Act::Hand(FIRST),
    Act::Hand(THIRD),
    Act::Hold,
    Act::Take(FIRST_REPLY, Did::Answered(1)),
    Act::Hand(SECOND),
    Act::Hold,
    Act::Tick(&[2, 3]),
    Act::Issue(9, 4),
    Act::Hand(FOURTH),
    Act::Take(THIRD_REPLY, Did::Stray),
    Act::Take(FOURTH_REPLY, Did::Answered(4)),
    Act::Tick(&[]),
    Act::Hold,
];

// Executes the call, and compares the answer.
fn play(rt: &impl Abort, node: &mut Node, act: &Act) {
    let mut body = ArrayVec::new();
    let mut gone = ArrayVec::new();
    match *act {
        Act::Issue(source, number) => {
            is(rt, node.issue_from(source, 1, PAYLOAD), Ok(number));
        }
        Act::Hand(wanted) => {
            is(rt, node.next(&mut body), true);
            is(rt, body.as_slice(), wanted);
        }
        Act::Hold => is(rt, node.next(&mut body), false),
        Act::Take(reply, did) => {
            assert!(rt; reply.len() >= 6 && reply.len() <= 250);
            assert!(rt; node.has_room(reply));
            is(rt, node.accept(reply), did);
        }
        Act::Tick(wanted) => {
            node.tick(&mut gone);
            is(rt, gone.as_slice(), wanted);
        }
    }
}

// Executes all calls on a node whose window is 2, and whose replies may take one tick.
fn run(rt: &impl Abort, alloc: Global, per_source: usize, acts: &[Act]) -> Result<(), Fail>
    requires { (1 ≤ per_source) × (per_source ≤ 16) }
{
    let setup = NodeSetup {
        node: 0,
        tns: 65535,
        reply_ticks: 1,
        room: 2,
        window: 2,
        per_source,
    };
    let tables = Tables::new(alloc, &[])?;
    let mut node = Node::new(alloc, setup, Station::new(tables, None, b""))?;
    for act in acts {
        play(rt, &mut node, act);
    }
    Ok(())
}

#[test]
fn commands_are_out_together(rt: HostRuntime) -> Result<(), Fail> {
    run(&rt, rt.alloc(), 16, &SHARED)
}

#[test]
fn sources_take_turns(rt: HostRuntime) -> Result<(), Fail> {
    run(&rt, rt.alloc(), 1, &IN_TURN)
}
