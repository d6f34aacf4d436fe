//! Tests of an end over ports.
use crate::end::{COMMAND_FRAME, REPLY_FRAME, end_with_embedding};
use crate::equal::is;
use df1_base::{BytesIn, BytesOut, FeedPort, PortMem, Signal};
use duplex_end::{Served, serve};
use std::alloc::Global;
use std::test::Fail;

/// Signals, the calls of `next` and of `put` that fail, the result of serving them, and how many bytes of the command's
/// frame were put.
#[derive(Drop)]
struct Case {
    signals: &'static [Signal],
    fail_next: &'static [u64],
    fail_put: &'static [u64],
    served: Served,
    put: usize,
}

fn cases(alloc: Global) -> Result<Vec<Case>, Fail> {
    Ok(vec![in alloc;
        Case {
            signals: &[Signal::Drain, Signal::Take, Signal::Tick, Signal::Drain],
            fail_next: &[],
            fail_put: &[],
            served: Served::Ended,
            put: 19,
        },
        Case {
            signals: &[Signal::Take, Signal::Take, Signal::Bad(7), Signal::Drain],
            fail_next: &[],
            fail_put: &[],
            served: Served::Bad(7),
            put: 2,
        },
        Case {
            signals: &[Signal::Take, Signal::Long],
            fail_next: &[],
            fail_put: &[],
            served: Served::Long,
            put: 1,
        },
        Case {
            signals: &[Signal::Take, Signal::Drain],
            fail_next: &[2],
            fail_put: &[],
            served: Served::InFailed,
            put: 1,
        },
        Case {
            signals: &[Signal::Take, Signal::Drain],
            fail_next: &[],
            fail_put: &[7],
            served: Served::OutFailed,
            put: 6,
        },
    ]?)
}

#[test]
fn what_is_given_is_put_until_the_port_stops(rt: HostRuntime) -> Result<(), Fail> {
    for case in &cases(rt.alloc())? {
        let mut port = PortMem::new(rt.alloc(), case.signals, 99, case.fail_next, case.fail_put)?;
        let mut end = end_with_embedding();
        is(&rt, serve(&mut port, &mut end), case.served);
        is(
            &rt,
            port.held(),
            COMMAND_FRAME.get(..case.put).unwrap_or(&[]),
        );
    }
    Ok(())
}

#[test]
fn a_raw_line_is_answered_at_each_byte(rt: HostRuntime) -> Result<(), Fail> {
    // The command is sent at the first byte; the reply is acknowledged, and then an ENQ is answered in the same way.
    let mut line = Vec::new(rt.alloc());
    line.extend_from_slice(&[0x10, 0x06])?;
    line.extend_from_slice(&REPLY_FRAME)?;
    line.extend_from_slice(&[0x10, 0x05])?;
    let source = BytesIn::new(rt.alloc(), &line, 1, &[])?;
    let sink = BytesOut::new(rt.alloc(), 99, 3, &[])?;
    let mut port = FeedPort::new(source, sink, false);
    let mut end = end_with_embedding();
    is(&rt, serve(&mut port, &mut end), Served::Ended);
    let (_, sink) = port.into_parts();
    let mut wire = Vec::new(rt.alloc());
    wire.extend_from_slice(&COMMAND_FRAME)?;
    wire.extend_from_slice(&[0x10, 0x06, 0x10, 0x06])?;
    is(&rt, sink.held(), wire.as_slice());
    Ok(())
}
