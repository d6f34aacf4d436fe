//! Tests of an end over a port, of which each call of `next` or of `put` in turn fails.
use crate::equal::is;
use df1_base::{FileType, PortMem, Signal};
use df1_check::Check;
use df1_node::{FileSpec, Node, NodeSetup, Station, Tables};
use duplex_end::{End, Served, Setup, serve};
use duplex_sender::Limits;
use std::alloc::Global;
use std::process::Abort;
use std::test::Fail;

/// A command that reads N7:0.
const COMMAND: [u8; 17] = [
    0x10, 0x02, 0x01, 0x00, 0x0F, 0x00, 0x34, 0x12, 0xA2, 0x02, 0x07, 0x89, 0x00, 0x00, 0x10, 0x03,
    0x76,
];

/// The ACK of the command, and its reply.
const REPLY: [u8; 15] = [
    0x10, 0x06, 0x10, 0x02, 0x00, 0x01, 0x4F, 0x00, 0x34, 0x12, 0x34, 0x12, 0x10, 0x03, 0x24,
];

/// Returns the end of node 1, with the word 1234 in N7:0.
fn end(alloc: Global) -> Result<End<Node>, Fail> {
    let file = FileSpec {
        number: 7,
        kind: FileType::Integer,
        count: 16,
    };
    let mut tables = Tables::new(alloc, &[file])?;
    tables.set(7, 0, 0x1234);
    let setup = NodeSetup {
        node: 1,
        tns: 1,
        reply_ticks: 100,
        room: 2,
        window: 1,
        per_source: 16,
    };
    let node = Node::new(alloc, setup, Station::new(tables, None, &[]))?;
    let limits = Limits {
        ack_ticks: 10,
        max_naks: 3,
        max_enqs: 3,
    };
    let setup = Setup {
        check: Check::Bcc,
        embed: false,
        limits,
    };
    Ok(End::new(setup, node))
}

/// Returns the signals of a raw line on which the command arrives.
fn signals(alloc: Global) -> Result<Vec<Signal>, Fail> {
    let mut signals = Vec::new(alloc);
    for b in COMMAND {
        signals.push(Signal::Byte(b))?;
        signals.push(Signal::Drain)?;
    }
    Ok(signals)
}

#[test]
fn where_next_fails_all_that_was_given_is_put(rt: HostRuntime) -> Result<(), Fail> {
    let signals = signals(rt.alloc())?;
    // The reply is sent at the last drain, which is followed by the end of the signals.
    for call in 1..36u64 {
        let put = if call == 35 { 15 } else { 0 };
        let mut port = PortMem::new(rt.alloc(), &signals, 99, &[call], &[])?;
        is(
            &rt,
            serve(&mut port, &mut end(rt.alloc())?),
            Served::InFailed,
        );
        is(&rt, port.held(), REPLY.get(..put).unwrap_or(&[]));
    }
    Ok(())
}

#[test]
fn where_put_fails_what_was_put_before_stands(rt: HostRuntime) -> Result<(), Fail> {
    let signals = signals(rt.alloc())?;
    for put in 0..15 {
        let mut port = PortMem::new(rt.alloc(), &signals, 99, &[], &[put as u64 + 1])?;
        is(
            &rt,
            serve(&mut port, &mut end(rt.alloc())?),
            Served::OutFailed,
        );
        is(&rt, port.held(), REPLY.get(..put).unwrap_or(&[]));
    }
    Ok(())
}
