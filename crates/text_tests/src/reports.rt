//! Tests of lines of each kind with their text, and of the report of a run.

use crate::equal::is;
use df1_base::BytesOut;
use replay_report::{Line, Record, print, put_line};
use script_parts::WordOf;
use script_statement::{Bytes, Items, Who};
use std::alloc::{AllocError, Global};
use std::test::Fail;

const FRAME: &[u8] =
    b"\x10\x02\x01\x00\x0F\x00\x01\x00\xAA\x02\x07\x89\x00\x00\x34\x12\x10\x03\x6D";

const COMMAND: &[u8] = b"\x01\x00\x0F\x00\x01\x00\xAA\x02\x07\x89\x00\x00\x34\x12";

const REPLY: &[u8] = b"\x00\x01\x4F\x00\x01\x00";

const STRAY: &[u8] = b"\x00\x01\x46\x00\x09\x00";

const CARRIED: &[u8] = b"\x05\x03\x06\x00\x01\x00\x00\x52";

/// Returns the bytes of a message.
fn bytes_of(alloc: Global, bytes: &[u8]) -> Result<Bytes, AllocError> {
    Ok(Items::from_vec(bytes.to_vec(alloc)?))
}

#[test]
fn each_line_has_its_text(rt: HostRuntime) -> Result<(), Fail> {
    let alloc = rt.alloc();
    let frame = bytes_of(alloc, FRAME)?;
    let command = bytes_of(alloc, COMMAND)?;
    let reply = bytes_of(alloc, REPLY)?;
    let stray = bytes_of(alloc, STRAY)?;
    let carried = bytes_of(alloc, CARRIED)?;
    let table = [
        (
            Line::Sent {
                who: Who::A,
                bytes: frame,
            },
            "a sent 100201000F000100AA0207890000341210036D\n",
        ),
        (
            Line::Exec {
                who: Who::B,
                body: command,
            },
            "b exec 01000F000100AA02078900003412\n",
        ),
        (
            Line::Answered {
                who: Who::A,
                n: 1,
                body: reply,
            },
            "a answered 1 00014F000100\n",
        ),
        (Line::Undelivered { who: Who::A, n: 1 }, "a undelivered 1\n"),
        (
            Line::Unanswered {
                who: Who::A,
                n: 65535,
            },
            "a unanswered 65535\n",
        ),
        (
            Line::Stray {
                who: Who::M,
                body: stray,
            },
            "m stray 000146000900\n",
        ),
        (
            Line::Routed {
                who: Who::M,
                body: carried,
            },
            "m routed 0503060001000052\n",
        ),
        (Line::Repeat { who: Who::B }, "b repeat\n"),
        (Line::Full { who: Who::B }, "b full\n"),
        (Line::Damaged { who: Who::S(254) }, "254 damaged\n"),
        (Line::Enquiry { who: Who::A }, "a enquiry\n"),
        (Line::Dropped { who: Who::S(10) }, "10 dropped\n"),
    ];
    for (line, text) in &table {
        let mut sink = BytesOut::new(alloc, 100, 7, &[])?;
        is(&rt, put_line(&mut sink, line).is_ok(), true);
        is(&rt, sink.held(), text.as_bytes());
    }
    Ok(())
}

#[test]
fn words_follow_the_lines_and_the_count_comes_last(rt: HostRuntime) -> Result<(), Fail> {
    let alloc = rt.alloc();
    let mut lines = Items::new(alloc);
    lines.push(Line::Enquiry { who: Who::A })?;
    lines.push(Line::Sent {
        who: Who::A,
        bytes: bytes_of(alloc, b"\x10\x05")?,
    })?;
    let mut words = Items::new(alloc);
    words.push(WordOf {
        who: Who::B,
        file: 7,
        index: 0,
        value: 0x1234,
    })?;
    words.push(WordOf {
        who: Who::S(12),
        file: 999,
        index: 1000,
        value: 0xA,
    })?;
    let record_of = Record {
        lines,
        words,
        deceived: 1,
    };
    let text = "a enquiry\na sent 1005\nb word 7 0 1234\n12 word 999 1000 000A\ndeceived 1\n";
    let mut sink = BytesOut::new(alloc, 100, 100, &[])?;
    is(&rt, print(&record_of, &mut sink).is_ok(), true);
    is(&rt, sink.held(), text.as_bytes());
    let mut full = BytesOut::new(alloc, 30, 9, &[])?;
    is(&rt, print(&record_of, &mut full).is_err(), true);
    is(
        &rt,
        full.held(),
        b"a enquiry\na sent 1005\nb word 7".as_slice(),
    );
    Ok(())
}
