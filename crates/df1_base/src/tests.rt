//! The calls of sources and sinks over std, one by one, with their counts of faults.
ghost use Rattle.std.specs.Prelude.{◌≤◌, IfOk};

use crate::{Failed, Sink, Source, StdIn, StdOut, write_all};
use std::alloc::Global;
use std::io::{self, ErrorKind, Read, Write};
use std::test::Fail;

/// Returns the numbers 0 to 4,999, each less a multiple of 251.
fn five_thousand(alloc: Global) -> Result<Vec<u8>, Fail> {
    let mut bytes = Vec::new(alloc);
    for i in 0..5000u32 {
        bytes.push((i % 251) as u8)?;
    }
    Ok(bytes)
}

#[test]
fn a_reader_in_memory_gives_all_its_bytes_and_then_none(rt: HostRuntime) -> Result<(), Fail> {
    let bytes = five_thousand(rt.alloc())?;
    let mut source = StdIn::new(bytes.as_slice());
    let mut into = [0; 4096];
    let mut read = Vec::new(rt.alloc());
    for count in [4096, 904, 0] {
        assert_eq!(rt; source.read(&mut into), Ok(count));
        read.extend_from_slice(&into[..count])?;
    }
    assert!(rt; read.as_slice() == bytes.as_slice());
    assert_eq!(rt; source.faults, 0);
    Ok(())
}

#[test]
fn a_writer_in_memory_holds_all_that_was_written(rt: HostRuntime) -> Result<(), Fail> {
    let bytes = five_thousand(rt.alloc())?;
    let mut written = Vec::new(rt.alloc());
    {
        let mut sink = StdOut::new(&mut written);
        assert_eq!(rt; sink.write(&bytes), Ok(5000));
        assert_eq!(rt; sink.faults, 0);
    }
    assert!(rt; written.as_slice() == bytes.as_slice());
    Ok(())
}

/// A writer that takes at most two bytes at a call.
#[derive(Drop)]
struct Narrow {
    taken: Vec<u8>,
}

impl Write for Narrow {
    fn write(&mut self, from: &[u8]) -> io::Result<usize> {
        let count = from.len().min(2);
        self.taken.extend_from_slice(&from[..count])?;
        Ok(count)
    }

    fn flush(&mut self) -> io::Result<()> {
        Ok(())
    }
}

#[test]
fn short_writes_go_on_where_they_ended(rt: HostRuntime) -> Result<(), Fail> {
    let taken = Vec::new(rt.alloc());
    let mut sink = StdOut::new(Narrow { taken });
    assert_eq!(rt; sink.write(b"abcde"), Ok(2));
    assert_eq!(rt; write_all(&mut sink, b"cde"), Ok(()));
    assert_eq!(rt; sink.writer.taken.as_slice(), b"abcde".as_slice());
    assert_eq!(rt; sink.faults, 0);
    Ok(())
}

/// A stream whose calls succeed, fail, and move nothing, in turn.
#[derive(Drop)]
struct Moody {
    calls: u8,
}

impl Moody {
    fn next(&mut self) -> io::Result<usize>
        ensures { IfOk result (λ count. count ≤ 1) }
    {
        self.calls = self.calls.wrapping_add(1);
        match self.calls % 3 {
            1 => Ok(1),
            2 => Err(io::Error::from(ErrorKind::Interrupted)),
            _ => Ok(0),
        }
    }
}

impl Read for Moody {
    fn read(&mut self, into: &mut [u8]) -> io::Result<usize> {
        Ok(self.next()?.min(into.len()))
    }
}

impl Write for Moody {
    fn write(&mut self, from: &[u8]) -> io::Result<usize> {
        Ok(self.next()?.min(from.len()))
    }

    fn flush(&mut self) -> io::Result<()> {
        Ok(())
    }
}

#[test]
fn a_stream_of_std_is_asked_once_at_a_call(rt: HostRuntime) -> Result<(), Fail> {
    let mut input = StdIn::new(Moody { calls: 0 });
    let mut into = [0; 4];
    let reads = [(Ok(1), 0), (Err(Failed), 1), (Ok(0), 1), (Ok(1), 1)];
    for (answer, faults) in reads {
        assert_eq!(rt; input.read(&mut into), answer);
        assert_eq!(rt; input.faults, faults);
    }
    let mut out = StdOut::new(Moody { calls: 0 });
    let writes = [(Ok(1), 0), (Err(Failed), 1), (Err(Failed), 2), (Ok(1), 2)];
    for (answer, faults) in writes {
        assert_eq!(rt; out.write(b"ab"), answer);
        assert_eq!(rt; out.faults, faults);
    }
    Ok(())
}
