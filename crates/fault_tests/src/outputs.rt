//! A test in which each write of a run in turn fails, and each write of its note.
use crate::equal::is;
use crate::runs::{CHECK, DISSECT, Failing, ISSUE, POLLED, REPLAY, Run, VECTORS};
use std::process::Abort;
use std::test::Fail;

/// Checks that a run in which nothing fails writes everything, and ends with its status and its note.
fn nothing_fails<R: Abort + AllocGlobal>(rt: &R, of: &Run) -> Result<(), Fail> {
    let failing = Failing {
        read: 0,
        write: 0,
        note: 0,
    };
    let ran = of.ran(rt.alloc(), failing)?;
    is(rt, ran.status, of.status);
    is(rt, ran.out.held(), of.all(rt.alloc())?.as_slice());
    is(rt, ran.note.held(), of.note.as_bytes());
    Ok(())
}

/// Checks that if write number k fails, the first k - 1 bytes are written, and no write is retried.
fn each_write_fails<R: Abort + AllocGlobal>(rt: &R, of: &Run) -> Result<(), Fail> {
    let all = of.all(rt.alloc())?;
    for count in 0..all.len() {
        let failing = Failing {
            read: 0,
            write: count as u64 + 1,
            note: 0,
        };
        let ran = of.ran(rt.alloc(), failing)?;
        is(rt, ran.status, 5);
        is(rt, ran.out.held(), all.get(..count).unwrap_or(&[]));
        is(
            rt,
            ran.note.held(),
            b"df1: output cannot be written\n".as_slice(),
        );
    }
    Ok(())
}

#[test]
fn where_a_write_fails_what_was_written_before_stands(rt: HostRuntime) -> Result<(), Fail> {
    for of in &[REPLAY, POLLED, DISSECT, CHECK, ISSUE, VECTORS] {
        nothing_fails(&rt, of)?;
        each_write_fails(&rt, of)?;
    }
    Ok(())
}

#[test]
fn where_a_write_of_the_outcomes_fails_the_status_tells_it(rt: HostRuntime) -> Result<(), Fail> {
    let note = ISSUE.note.as_bytes();
    for count in 0..note.len() {
        let failing = Failing {
            read: 0,
            write: 0,
            note: count as u64 + 1,
        };
        let ran = ISSUE.ran(rt.alloc(), failing)?;
        is(&rt, ran.status, 5);
        is(&rt, ran.out.held(), ISSUE.all(rt.alloc())?.as_slice());
        is(&rt, ran.note.held(), note.get(..count).unwrap_or(&[]));
    }
    Ok(())
}
