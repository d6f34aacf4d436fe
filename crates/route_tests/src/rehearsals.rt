//! Tests of rehearsals of transfers over scripts from an input: what they print.

use crate::equal::is;
use df1_base::{BytesIn, BytesOut};
use line_script::Cause;
use std::test::Fail;
use whole_scripts::{RunFault, pull_input, push_input};

/// Two words of end b, and a command and its reply that arrive, each with its ACK.
const EXCHANGE: &str =
    "file b 7 89 2\nword b 7 0 1234\nword b 7 1 5678\nak 99\nad 99\nbk 99\nbd 99\nak 99\nad 99\nend\n";

#[test]
fn a_transfer_that_reads_is_printed(rt: HostRuntime) -> Result<(), Fail> {
    let mut input = BytesIn::new(rt.alloc(), EXCHANGE.as_bytes(), 10, &[])?;
    let mut out = BytesOut::new(rt.alloc(), 1000, 1000, &[])?;
    is(
        &rt,
        pull_input(rt.alloc(), &mut input, &mut out, 7, 2),
        Ok(()),
    );
    is(
        &rt,
        out.held(),
        "a sent 100201000F0001000100000200060700041003DB\nb exec 01000F000100010000020006070004\nb sent 1006100200014F0001003412785610039B\na answered 1 00014F00010034127856\na sent 1006\nb word 7 0 1234\nb word 7 1 5678\ndeceived 0\npulled 34127856\n".as_bytes(),
    );
    Ok(())
}

#[test]
fn a_transfer_that_writes_is_printed(rt: HostRuntime) -> Result<(), Fail> {
    let text = "file b 7 89 2\nak 99\nad 99\nbk 99\nbd 99\nak 99\nad 99\nend\n";
    let mut input = BytesIn::new(rt.alloc(), text.as_bytes(), 10, &[])?;
    let mut out = BytesOut::new(rt.alloc(), 1000, 1000, &[])?;
    is(
        &rt,
        push_input(rt.alloc(), &mut input, &mut out, 7, b"\x34\x12"),
        Ok(()),
    );
    is(
        &rt,
        out.held(),
        "a sent 100201000F0001000000000100060700341210039B\nb exec 01000F00010000000001000607003412\nb sent 1006100200014F0001001003AF\na answered 1 00014F000100\na sent 1006\nb word 7 0 1234\ndeceived 0\npushed 1\n".as_bytes(),
    );
    Ok(())
}

#[test]
fn a_station_is_no_line_of_a_rehearsal(rt: HostRuntime) -> Result<(), Fail> {
    let mut input = BytesIn::new(rt.alloc(), b"file b 7 89 2\nstation 3\n", 30, &[])?;
    let mut out = BytesOut::new(rt.alloc(), 1000, 1000, &[])?;
    let refused = RunFault::Refusal {
        line: 2,
        cause: Cause::Form,
    };
    is(
        &rt,
        push_input(rt.alloc(), &mut input, &mut out, 7, b"\x34\x12"),
        Err(refused),
    );
    is(&rt, out.held().is_empty(), true);
    Ok(())
}
