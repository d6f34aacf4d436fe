//! Tests of the commands `dissect` and `check`, over the outside in memory.
use crate::equal::is;
use crate::program::{USAGE, words};
use df1_base::{ByteRun, BytesIn, BytesOut};
use df1_shelf::ShelfMem;
use df1_tool::{Ran, run};
use std::alloc::Global;
use std::process::Abort;
use std::test::Fail;

/// The expected result of a run over a capture.
#[derive(Drop)]
struct Case {
    words: &'static [&'static str],
    input: &'static [u8],
    read_fails: &'static [u64],
    room: usize,
    status: u8,
    out: &'static str,
    note: &'static str,
}

/// A capture of a full-duplex line: a stray byte, an ACK, a frame and the start of another.
const FULL: &[u8] = &[
    0x55, 0x10, 0x06, 0x10, 0x02, 0x08, 0x09, 0x06, 0x00, 0x02, 0x04, 0x03, 0x10, 0x03, 0xE0, 0x10,
    0x02, 0x01,
];

/// A capture of a master: a poll and the start of a message.
const MASTER: &[u8] = &[0x10, 0x05, 0x03, 0xFD, 0x10, 0x01, 0x03, 0x10, 0x02, 0x41];

/// A capture of the slaves: an ACK, a reply, and an EOT.
const SLAVE: &[u8] = &[
    0x10, 0x06, 0x10, 0x02, 0x00, 0x03, 0x4F, 0x00, 0x01, 0x00, 0x10, 0x03, 0xAD, 0x10, 0x04,
];

/// Returns a run that reads its input to the end.
fn whole(
    words: &'static [&'static str],
    input: &'static [u8],
    status: u8,
    out: &'static str,
) -> Case {
    Case {
        words,
        input,
        read_fails: &[],
        room: 4000,
        status,
        out,
        note: "",
    }
}

/// Returns a run whose input or output fails, or whose words are none of the forms.
fn stopped(
    words: &'static [&'static str],
    status: u8,
    out: &'static str,
    note: &'static str,
) -> Case {
    Case {
        words,
        input: FULL,
        read_fails: &[],
        room: 4000,
        status,
        out,
        note,
    }
}

fn ran(
    alloc: Global,
    case: &Case,
    piece: usize,
) -> Result<Ran<ShelfMem, BytesIn, BytesOut, BytesOut>, Fail> {
    let words = words(alloc, case.words)?;
    Ok(run(
        alloc,
        &words,
        ShelfMem::new(alloc),
        BytesIn::new(alloc, case.input, piece, case.read_fails)?,
        BytesOut::new(alloc, case.room, 7, &[])?,
        BytesOut::new(alloc, 300, 300, &[])?,
    ))
}

#[test]
fn a_capture_is_heard_to_its_end(rt: HostRuntime) -> Result<(), Fail> {
    let cases = [
        whole(
            &["dissect", "full", "bcc"],
            FULL,
            0,
            "0 0 stray 55\n1 2 ack\n3 14 good dst=08 src=09 cmd=06 sts=00 tns=0402 status 03\n15 17 open\n",
        ),
        whole(&["check", "full", "bcc"], FULL, 1, "heard 3 bad 1 open 3\n"),
        whole(
            &["dissect", "master", "bcc"],
            MASTER,
            0,
            "0 3 poll 03\n4 9 open\n",
        ),
        whole(
            &["check", "master", "bcc"],
            MASTER,
            1,
            "heard 1 bad 0 open 6\n",
        ),
        whole(
            &["dissect", "slave", "bcc"],
            SLAVE,
            0,
            "0 1 ack\n2 12 good dst=00 src=03 cmd=4F sts=00 tns=0001 reply -\n13 14 eot\n",
        ),
        whole(
            &["check", "slave", "bcc"],
            SLAVE,
            0,
            "heard 3 bad 0 open 0\n",
        ),
        // The other check.
        whole(
            &["dissect", "full", "crc"],
            &[
                0x10, 0x02, 0x08, 0x09, 0x06, 0x00, 0x02, 0x04, 0x03, 0x10, 0x03, 0x98, 0x48,
            ],
            0,
            "0 12 good dst=08 src=09 cmd=06 sts=00 tns=0402 status 03\n",
        ),
        whole(
            &["check", "full", "bcc"],
            &[0x10, 0x06],
            0,
            "heard 1 bad 0 open 0\n",
        ),
        // A fault and nothing unfinished.
        whole(
            &["check", "full", "bcc"],
            &[0x55],
            1,
            "heard 1 bad 1 open 0\n",
        ),
        whole(&["dissect", "full", "bcc"], b"", 0, ""),
        whole(&["check", "slave", "crc"], b"", 0, "heard 0 bad 0 open 0\n"),
    ];
    for case in &cases {
        for piece in [1, 4096] {
            let ran = ran(rt.alloc(), case, piece)?;
            is(&rt, ran.status, case.status);
            is(&rt, ran.out.held(), case.out.as_bytes());
            is(&rt, ran.note.held(), case.note.as_bytes());
            is(&rt, ran.input.left(), b"".as_slice());
        }
    }
    Ok(())
}

#[test]
fn other_endings_of_a_capture_have_their_status_and_note(rt: HostRuntime) -> Result<(), Fail> {
    let cases = [
        // A read that fails after an ACK, and after the first of its two bytes.
        Case {
            read_fails: &[4],
            ..stopped(
                &["dissect", "full", "bcc"],
                4,
                "0 0 stray 55\n1 2 ack\n",
                "df1: input cannot be read\n",
            )
        },
        Case {
            read_fails: &[3],
            ..stopped(
                &["dissect", "full", "bcc"],
                4,
                "0 0 stray 55\n",
                "df1: input cannot be read\n",
            )
        },
        Case {
            read_fails: &[3],
            ..stopped(
                &["check", "full", "bcc"],
                4,
                "",
                "df1: input cannot be read\n",
            )
        },
        // An output that takes a part of the second line, of the last, and of the counts.
        Case {
            room: 16,
            ..stopped(
                &["dissect", "full", "bcc"],
                5,
                "0 0 stray 55\n1 2",
                "df1: output cannot be written\n",
            )
        },
        Case {
            room: 4,
            input: &[0x10, 0x02],
            ..stopped(
                &["dissect", "full", "bcc"],
                5,
                "0 1 ",
                "df1: output cannot be written\n",
            )
        },
        Case {
            room: 10,
            ..stopped(
                &["check", "full", "bcc"],
                5,
                "heard 3 ba",
                "df1: output cannot be written\n",
            )
        },
        // Words that are none of the forms.
        stopped(&["dissect", "full"], 2, "", USAGE),
        stopped(&["dissect", "both", "bcc"], 2, "", USAGE),
        stopped(&["check", "full", "lrc"], 2, "", USAGE),
        stopped(&["check", "full", "bcc", "now"], 2, "", USAGE),
    ];
    for case in &cases {
        let ran = ran(rt.alloc(), case, 1)?;
        is(&rt, ran.status, case.status);
        is(&rt, ran.out.held(), case.out.as_bytes());
        is(&rt, ran.note.held(), case.note.as_bytes());
    }
    Ok(())
}

fn ran_over(alloc: Global, count: u64) -> Result<Ran<ShelfMem, ByteRun, BytesOut, BytesOut>, Fail> {
    let words = words(alloc, &["check", "full", "bcc"])?;
    Ok(run(
        alloc,
        &words,
        ShelfMem::new(alloc),
        ByteRun::new(0x55, count),
        BytesOut::new(alloc, 300, 300, &[])?,
        BytesOut::new(alloc, 300, 300, &[])?,
    ))
}

#[test]
fn a_capture_has_at_most_268435456_bytes(rt: HostRuntime) -> Result<(), Fail> {
    let cases = [
        (268_435_456, 1, "heard 268435456 bad 268435456 open 0\n", ""),
        (268_435_457, 8, "", "df1: input is over 268435456 bytes\n"),
    ];
    for (count, status, out, note) in cases {
        let ran = ran_over(rt.alloc(), count)?;
        is(&rt, ran.status, status);
        is(&rt, ran.out.held(), out.as_bytes());
        is(&rt, ran.note.held(), note.as_bytes());
    }
    Ok(())
}
