//! Tests of what a buffer writes to its sink, and when.

use crate::equal::is;
use df1_base::{BytesOut, Failed, Sink, write_all};
use df1_buffer::Buffered;
use std::alloc::Global;
use std::test::Fail;

/// Returns what the sink holds once these many bytes were written, one count after another, and the rest was flushed or
/// not.
fn handed_on(alloc: Global, counts: &[usize], flushed: bool) -> Result<usize, Fail> {
    let mut out = BytesOut::new(alloc, 16384, 4096, &[])?;
    let mut buffer = Buffered::new(&mut out);
    for count in counts {
        write_all(&mut buffer, &[b'x'; 8192][..(*count).min(8192)])?;
    }
    if flushed {
        buffer.flush()?;
    }
    Ok(out.held().len())
}

#[test]
fn bytes_wait_until_4096_are_there_or_until_they_are_flushed(rt: HostRuntime) -> Result<(), Fail> {
    let rows: [(&[usize], bool, usize); 8] = [
        (&[], true, 0),
        (&[4095], false, 0),
        (&[4095], true, 4095),
        (&[4096], false, 0),
        (&[4096, 1], false, 4096),
        (&[4095, 2], false, 4096),
        (&[8192, 1], false, 8192),
        (&[1, 8192], true, 8193),
    ];
    for (counts, flushed, held) in rows {
        is(&rt, handed_on(rt.alloc(), counts, flushed)?, held);
    }
    Ok(())
}

#[test]
fn what_a_sink_that_failed_did_not_take_still_waits(rt: HostRuntime) -> Result<(), Fail> {
    let mut out = BytesOut::new(rt.alloc(), 8, 2, &[2])?;
    let mut buffer = Buffered::new(&mut out);
    is(&rt, buffer.write(b"abcde"), Ok(5));
    is(&rt, buffer.flush(), Err(Failed));
    is(&rt, buffer.write(b"fg"), Ok(2));
    is(&rt, buffer.flush(), Ok(()));
    is(&rt, out.held(), b"abcdefg".as_slice());
    Ok(())
}
