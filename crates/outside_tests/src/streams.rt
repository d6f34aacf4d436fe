//! Tests of the calls of each source and sink in memory, one by one.
use crate::equal::is;
use df1_base::{ByteRun, BytesIn, BytesOut, Collected, Failed, Nowhere, Sink, Source};
use std::test::Fail;

#[test]
fn a_source_in_memory_gives_pieces_and_fails_as_told(rt: HostRuntime) -> Result<(), Fail> {
    let mut source = BytesIn::new(rt.alloc(), b"abcde", 2, &[2])?;
    let mut into = [0; 4];
    is(&rt, source.read(&mut into), Ok(2));
    is(&rt, source.read(&mut into), Err(Failed));
    is(&rt, source.left(), b"cde".as_slice());
    is(&rt, source.read(&mut into), Ok(2));
    is(&rt, into, *b"cd\0\0");
    is(&rt, source.read(&mut into), Ok(1));
    is(&rt, source.read(&mut into), Ok(0));
    let mut slow = BytesIn::new(rt.alloc(), b"ab", 0, &[])?;
    is(&rt, slow.read(&mut into), Ok(1));
    Ok(())
}

#[test]
fn a_sink_in_memory_fails_where_it_is_full_and_as_told(rt: HostRuntime) -> Result<(), Fail> {
    let mut sink = BytesOut::new(rt.alloc(), 3, 2, &[2])?;
    is(&rt, sink.write(b"abcd"), Ok(2));
    is(&rt, sink.write(b"cd"), Err(Failed));
    is(&rt, sink.write(b"cd"), Ok(1));
    is(&rt, sink.write(b"d"), Err(Failed));
    is(&rt, sink.write(b""), Ok(0));
    is(&rt, sink.held(), b"abc".as_slice());
    Ok(())
}

#[test]
fn a_run_of_a_byte_ends_and_nowhere_takes_all(rt: HostRuntime) -> Result<(), Fail> {
    let mut source = ByteRun::new(85, 6);
    let mut into = [0; 4];
    is(&rt, source.read(&mut into), Ok(4));
    is(&rt, into, [85; 4]);
    is(&rt, source.read(&mut into[1..]), Ok(2));
    is(&rt, source.read(&mut into), Ok(0));
    let mut sink = Nowhere::new();
    is(&rt, sink.write(&into), Ok(4));
    is(&rt, sink.write(b""), Ok(0));
    Ok(())
}

#[test]
fn a_sink_that_grows_holds_what_was_written_since_it_was_cleared(
    rt: HostRuntime,
) -> Result<(), Fail> {
    let mut sink = Collected::new(rt.alloc());
    is(&rt, sink.write(b"abc"), Ok(3));
    is(&rt, sink.write(b"de"), Ok(2));
    is(&rt, sink.bytes(), b"abcde".as_slice());
    sink.clear();
    is(&rt, sink.write(b"f"), Ok(1));
    is(&rt, sink.bytes(), b"f".as_slice());
    Ok(())
}
