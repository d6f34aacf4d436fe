//! Tests of commands of a plan that ended in each way, and the text of their outcomes.

use crate::equal::is;
use arrayvec::ArrayVec;
use df1_base::{BytesOut, Fate, Host};
use df1_node::Node;
use df1_plan::read_plan;
use df1_service::write_outcomes;
use outset::node_of;
use std::test::Fail;

/// The end of a command.
#[derive(Clone, Copy)]
enum End {
    Waiting,
    Out,
    Answered,
    Undelivered,
    Unanswered,
}

/// A plan with five commands to node 0.
const PLAN: &str =
    "tns = 513\nreply_ticks = 33\nissue = [\"0600\", \"0601\", \"0602\", \"0603\", \"0604\"]\n";

/// A reply to the first of them, whose data are 2A FF.
const REPLY: &[u8] = b"\x01\x00\x46\x00\x01\x02\x2A\xFF";

/// Lets the next command end in this way.
fn settle(node: &mut Node, end: End) {
    if let End::Waiting = end {
        return;
    }
    let _ = node.next(&mut ArrayVec::new());
    match end {
        End::Waiting | End::Out => {}
        End::Answered => {
            let _ = node.told(Fate::Delivered);
            let _ = node.accept(REPLY);
        }
        End::Undelivered => {
            let _ = node.told(Fate::Undelivered);
        }
        End::Unanswered => {
            let _ = node.told(Fate::Delivered);
            for _ in 0..33 {
                node.tick(&mut ArrayVec::new());
            }
        }
    }
}

#[test]
fn each_outcome_has_its_line(rt: HostRuntime) -> Result<(), Fail> {
    let alloc = rt.alloc();
    let table: [([End; 5], &str); 3] = [
        (
            [End::Waiting; 5],
            "1 unfinished\n2 unfinished\n3 unfinished\n4 unfinished\n5 unfinished\n",
        ),
        (
            [
                End::Answered,
                End::Undelivered,
                End::Unanswered,
                End::Out,
                End::Waiting,
            ],
            "1 answered 0100460001022AFF\n2 undelivered\n3 unanswered\n4 unfinished\n5 unfinished\n",
        ),
        (
            [
                End::Unanswered,
                End::Undelivered,
                End::Unanswered,
                End::Undelivered,
                End::Unanswered,
            ],
            "1 unanswered\n2 undelivered\n3 unanswered\n4 undelivered\n5 unanswered\n",
        ),
    ];
    for (ends, text) in table {
        let plan = read_plan(alloc, PLAN.as_bytes())?;
        let mut node = node_of(alloc, &plan.end)?;
        for command in plan.issue.as_slice() {
            node.issue(plan.peer, command.payload.as_slice())?;
        }
        for end in ends {
            settle(&mut node, end);
        }
        let mut sink = BytesOut::new(alloc, 100, 7, &[])?;
        is(
            &rt,
            write_outcomes(node.initiator(), &mut sink).is_ok(),
            true,
        );
        is(&rt, sink.held(), text.as_bytes());
    }
    Ok(())
}
