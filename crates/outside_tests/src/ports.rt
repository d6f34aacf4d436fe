//! Tests of the ports, call by call.
use crate::equal::is;
use df1_base::{BytesIn, BytesOut, Failed, FeedPort, Port, PortMem, Signal};
use std::alloc::Global;
use std::test::Fail;

/// An input, whether it has records, and the signals that it stands for.
#[derive(Drop)]
struct Line {
    timed: bool,
    bytes: &'static [u8],
    signals: &'static [Signal],
}

/// Returns a port over an input that comes in pieces, and a sink with room for two bytes.
fn port_over(
    alloc: Global,
    bytes: &[u8],
    piece: usize,
    fail: &[u64],
    timed: bool,
) -> Result<FeedPort<BytesIn, BytesOut>, Fail> {
    let source = BytesIn::new(alloc, bytes, piece, fail)?;
    let sink = BytesOut::new(alloc, 2, 1, &[])?;
    Ok(FeedPort::new(source, sink, timed))
}

#[test]
fn an_input_gives_its_signals_in_pieces_of_any_size(rt: HostRuntime) -> Result<(), Fail> {
    let lines = [
        Line {
            timed: false,
            bytes: &[],
            signals: &[Signal::End],
        },
        Line {
            timed: false,
            bytes: &[0x10, 0x05],
            signals: &[
                Signal::Byte(0x10),
                Signal::Drain,
                Signal::Byte(0x05),
                Signal::Drain,
                Signal::End,
            ],
        },
        Line {
            timed: true,
            bytes: &[],
            signals: &[Signal::End],
        },
        Line {
            timed: true,
            bytes: &[0],
            signals: &[Signal::Bad(0)],
        },
        Line {
            timed: true,
            bytes: &[0, 7, 1, 0, 2, 0, 3, 0],
            signals: &[
                Signal::Byte(7),
                Signal::Tick,
                Signal::Take,
                Signal::Drain,
                Signal::End,
            ],
        },
        Line {
            timed: true,
            bytes: &[0, 0x10, 1, 1, 0, 7],
            signals: &[Signal::Byte(0x10), Signal::Bad(2)],
        },
        Line {
            timed: true,
            bytes: &[3, 0, 2],
            signals: &[Signal::Drain, Signal::Bad(2)],
        },
        Line {
            timed: true,
            bytes: &[4, 0],
            signals: &[Signal::Bad(0)],
        },
    ];
    for line in &lines {
        for piece in 1..4 {
            let mut port = port_over(rt.alloc(), line.bytes, piece, &[], line.timed)?;
            for signal in line.signals {
                is(&rt, port.next(), Ok(*signal));
            }
            let last = line.signals.last().copied().unwrap_or(Signal::End);
            is(&rt, port.next(), Ok(last));
        }
    }
    Ok(())
}

#[test]
fn an_input_is_read_only_where_no_signal_is_held(rt: HostRuntime) -> Result<(), Fail> {
    let mut raw = port_over(rt.alloc(), b"ab", 2, &[2], false)?;
    for signal in [
        Signal::Byte(b'a'),
        Signal::Drain,
        Signal::Byte(b'b'),
        Signal::Drain,
    ] {
        is(&rt, raw.next(), Ok(signal));
    }
    is(&rt, raw.next(), Err(Failed));
    is(&rt, raw.next(), Ok(Signal::End));
    // The read that asks for the second byte of a record fails, and the next one returns it.
    let mut timed = port_over(rt.alloc(), &[0, 7, 1, 0], 1, &[2], true)?;
    is(&rt, timed.next(), Err(Failed));
    is(&rt, timed.next(), Ok(Signal::Byte(7)));
    let (source, sink) = timed.into_parts();
    is(&rt, source.left(), [1, 0].as_slice());
    is(&rt, sink.held(), b"".as_slice());
    Ok(())
}

#[test]
fn what_is_put_goes_to_the_sink(rt: HostRuntime) -> Result<(), Fail> {
    let mut port = port_over(rt.alloc(), b"", 1, &[], false)?;
    is(&rt, port.put(b'a'), Ok(()));
    is(&rt, port.put_all(b"bc"), Err(Failed));
    let (_, sink) = port.into_parts();
    is(&rt, sink.held(), b"ab".as_slice());
    Ok(())
}

#[test]
fn a_port_in_memory_gives_its_signals_and_fails_as_told(rt: HostRuntime) -> Result<(), Fail> {
    let signals = [Signal::Byte(5), Signal::Bad(7), Signal::Tick];
    let mut port = PortMem::new(rt.alloc(), &signals, 2, &[2], &[2])?;
    is(&rt, port.next(), Ok(Signal::Byte(5)));
    is(&rt, port.next(), Err(Failed));
    is(&rt, port.next(), Ok(Signal::Bad(7)));
    is(&rt, port.next(), Ok(Signal::Bad(7)));
    is(&rt, port.put(1), Ok(()));
    is(&rt, port.put(2), Err(Failed));
    is(&rt, port.put_all(&[3, 4]), Err(Failed));
    is(&rt, port.held(), [1, 3].as_slice());
    let mut none = PortMem::new(rt.alloc(), &[], 0, &[], &[])?;
    is(&rt, none.next(), Ok(Signal::End));
    is(&rt, none.put(1), Err(Failed));
    Ok(())
}
