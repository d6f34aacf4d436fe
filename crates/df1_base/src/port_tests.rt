//! A port at its limit.
use crate::{BytesIn, BytesOut, FeedPort, Port, Signal};
use std::alloc::Global;
use std::test::Fail;

/// Returns a port over an input that comes two bytes at a time.
fn port_over(
    alloc: Global,
    bytes: &[u8],
    timed: bool,
) -> Result<FeedPort<BytesIn, BytesOut>, Fail> {
    let source = BytesIn::new(alloc, bytes, 2, &[])?;
    let sink = BytesOut::new(alloc, 2, 1, &[])?;
    Ok(FeedPort::new(source, sink, timed))
}

#[test]
fn one_byte_more_than_268435456_is_too_long(rt: HostRuntime) -> Result<(), Fail> {
    let mut raw = port_over(rt.alloc(), b"ab", false)?;
    raw.used = 268_435_455;
    for signal in [
        Signal::Byte(b'a'),
        Signal::Drain,
        Signal::Long,
        Signal::Long,
    ] {
        assert_eq!(rt; raw.next(), Ok(signal));
    }
    let mut ended = port_over(rt.alloc(), b"", false)?;
    ended.used = 268_435_456;
    assert_eq!(rt; ended.next(), Ok(Signal::End));
    let mut timed = port_over(rt.alloc(), &[1, 0, 1], true)?;
    timed.used = 268_435_454;
    for signal in [Signal::Tick, Signal::Long, Signal::Long] {
        assert_eq!(rt; timed.next(), Ok(signal));
    }
    Ok(())
}
