//! A test in which each read of a run in turn fails.
use crate::equal::is;
use crate::runs::{CHECK, DISSECT, Failing, ISSUE, POLLED, REPLAY, Run};
use std::process::Abort;
use std::test::Fail;

/// Checks that if read number k fails, k - 1 bytes were taken, and what they cause to be written is written.
fn each_read_fails<R: Abort + AllocGlobal>(rt: &R, of: &Run) -> Result<(), Fail> {
    let input = of.input(rt.alloc())?;
    for taken in 0..input.len() + 1 {
        let failing = Failing {
            read: taken as u64 + 1,
            write: 0,
            note: 0,
        };
        let ran = of.ran(rt.alloc(), failing)?;
        is(rt, ran.status, 4);
        is(
            rt,
            ran.out.held(),
            of.written(rt.alloc(), taken)?.as_slice(),
        );
        is(
            rt,
            ran.note.held(),
            b"df1: input cannot be read\n".as_slice(),
        );
        is(rt, ran.input.left(), input.get(taken..).unwrap_or(&[]));
    }
    Ok(())
}

#[test]
fn where_a_read_fails_what_was_told_before_is_written(rt: HostRuntime) -> Result<(), Fail> {
    for of in &[REPLAY, POLLED, DISSECT, CHECK, ISSUE] {
        each_read_fails(&rt, of)?;
    }
    Ok(())
}
