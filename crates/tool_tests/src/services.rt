//! Tests of the commands `serve`, `issue`, `pull` and `push`, over the outside in memory.
use crate::equal::is;
use crate::program::{USAGE, words};
use df1_base::{BytesIn, BytesOut};
use df1_shelf::ShelfMem;
use df1_tool::{Ran, run};
use std::alloc::Global;
use std::process::Abort;
use std::test::Fail;

/// The expected result of a run over the plan `p`.
#[derive(Drop)]
struct Case {
    words: &'static [&'static str],
    /// The text of the plan; None if there is no file.
    plan: Option<&'static str>,
    input: &'static [u8],
    read_fails: &'static [u64],
    room: usize,
    note_room: usize,
    status: u8,
    out: &'static [u8],
    note: &'static str,
}

const SERVE: &[&str] = &["serve", "p", "raw"];

const TIMED: &[&str] = &["serve", "p", "timed"];

const ISSUE: &[&str] = &["issue", "p"];

const PULL: &[&str] = &["pull", "p", "7", "2"];

const PUSH: &[&str] = &["push", "p", "7", "3412"];

const PULL_ORDER: &[u8] = &[
    0x10, 0x02, 0x01, 0x00, 0x0F, 0x00, 0x01, 0x00, 0x01, 0x00, 0x00, 0x02, 0x00, 0x06, 0x07, 0x00,
    0x04, 0x10, 0x03, 0xDB,
];

const PULL_ORDER_AND_ACK: &[u8] = &[
    0x10, 0x02, 0x01, 0x00, 0x0F, 0x00, 0x01, 0x00, 0x01, 0x00, 0x00, 0x02, 0x00, 0x06, 0x07, 0x00,
    0x04, 0x10, 0x03, 0xDB, 0x10, 0x06,
];

const PUSH_ORDER_AND_ACK: &[u8] = &[
    0x10, 0x02, 0x01, 0x00, 0x0F, 0x00, 0x01, 0x00, 0x00, 0x00, 0x00, 0x01, 0x00, 0x06, 0x07, 0x00,
    0x34, 0x12, 0x10, 0x03, 0x9B, 0x10, 0x06,
];

/// A drain, the peer's ACK, its reply with two words, and a drain.
const WORDS: &[u8] = &[
    0x03, 0x00, 0x00, 0x10, 0x00, 0x06, 0x00, 0x10, 0x00, 0x02, 0x00, 0x00, 0x00, 0x01, 0x00, 0x4F,
    0x00, 0x00, 0x00, 0x01, 0x00, 0x00, 0x00, 0x34, 0x00, 0x12, 0x00, 0x78, 0x00, 0x56, 0x00, 0x10,
    0x00, 0x03, 0x00, 0x9B, 0x03, 0x00,
];

/// The same with one word.
const WORD: &[u8] = &[
    0x03, 0x00, 0x00, 0x10, 0x00, 0x06, 0x00, 0x10, 0x00, 0x02, 0x00, 0x00, 0x00, 0x01, 0x00, 0x4F,
    0x00, 0x00, 0x00, 0x01, 0x00, 0x00, 0x00, 0x34, 0x00, 0x12, 0x00, 0x10, 0x00, 0x03, 0x00, 0x69,
    0x03, 0x00,
];

/// The same with none.
const NO_WORD: &[u8] = &[
    0x03, 0x00, 0x00, 0x10, 0x00, 0x06, 0x00, 0x10, 0x00, 0x02, 0x00, 0x00, 0x00, 0x01, 0x00, 0x4F,
    0x00, 0x00, 0x00, 0x01, 0x00, 0x00, 0x00, 0x10, 0x00, 0x03, 0x00, 0xAF, 0x03, 0x00,
];

/// The same with STS F0 and EXT STS 06.
const REFUSAL: &[u8] = &[
    0x03, 0x00, 0x00, 0x10, 0x00, 0x06, 0x00, 0x10, 0x00, 0x02, 0x00, 0x00, 0x00, 0x01, 0x00, 0x4F,
    0x00, 0xF0, 0x00, 0x01, 0x00, 0x00, 0x00, 0x06, 0x00, 0x10, 0x00, 0x03, 0x00, 0xB9, 0x03, 0x00,
];

/// The first two orders of a transfer of 101 words, with an ACK between.
const TWO_ORDERS: &[u8] = &[
    0x10, 0x02, 0x01, 0x00, 0x0F, 0x00, 0x01, 0x00, 0x01, 0x00, 0x00, 0x65, 0x00, 0x06, 0x07, 0x00,
    0xC8, 0x10, 0x03, 0xB4, 0x10, 0x06, 0x10, 0x02, 0x01, 0x00, 0x0F, 0x00, 0x02, 0x00, 0x01, 0x64,
    0x00, 0x65, 0x00, 0x06, 0x07, 0x00, 0x02, 0x10, 0x03, 0x15,
];

/// Returns a run that ends well.
fn served(
    words: &'static [&'static str],
    plan: &'static str,
    input: &'static [u8],
    out: &'static [u8],
    note: &'static str,
) -> Case {
    Case {
        words,
        plan: Some(plan),
        input,
        read_fails: &[],
        room: 4000,
        note_room: 300,
        status: 0,
        out,
        note,
    }
}

/// Returns a run that fails, over the plan of a file.
fn stopped(
    words: &'static [&'static str],
    plan: &'static str,
    input: &'static [u8],
    status: u8,
    out: &'static [u8],
    note: &'static str,
) -> Case {
    Case {
        words,
        plan: Some(plan),
        input,
        read_fails: &[],
        room: 4000,
        note_room: 300,
        status,
        out,
        note,
    }
}

fn ran(
    alloc: Global,
    case: &Case,
    piece: usize,
) -> Result<Ran<ShelfMem, BytesIn, BytesOut, BytesOut>, Fail> {
    let words = words(alloc, case.words)?;
    let mut shelf = ShelfMem::new(alloc);
    if let Some(plan) = case.plan {
        shelf.add("p", plan.as_bytes(), false)?;
    }
    Ok(run(
        alloc,
        &words,
        shelf,
        BytesIn::new(alloc, case.input, piece, case.read_fails)?,
        BytesOut::new(alloc, case.room, 7, &[])?,
        BytesOut::new(alloc, case.note_room, 200, &[])?,
    ))
}

fn check<R: Abort + AllocGlobal>(rt: &R, case: &Case) -> Result<(), Fail> {
    for piece in [1, 4096] {
        let ran = ran(rt.alloc(), case, piece)?;
        is(rt, ran.status, case.status);
        is(rt, ran.out.held(), case.out);
        is(rt, ran.note.held(), case.note.as_bytes());
        if case.status == 0 {
            is(rt, ran.input.left(), b"".as_slice());
        }
    }
    Ok(())
}

const FILE: &str = "[[file]]\nnumber = 7\ntype = \"89\"\ncount = 16\nwords = \"3412\"\n";

const PEER: &str = "node = 0\npeer = 1\nissue = [\"060055\"]\n";

/// A drain, the peer's ACK, its reply, and a drain.
const ANSWER: &[u8] = &[
    0x03, 0x00, 0x00, 0x10, 0x00, 0x06, 0x00, 0x10, 0x00, 0x02, 0x00, 0x00, 0x00, 0x01, 0x00, 0x46,
    0x00, 0x00, 0x00, 0x01, 0x00, 0x00, 0x00, 0x55, 0x00, 0x10, 0x00, 0x03, 0x00, 0x63, 0x03, 0x00,
];

const COMMAND: &[u8] = &[
    0x10, 0x02, 0x01, 0x00, 0x06, 0x00, 0x01, 0x00, 0x00, 0x55, 0x10, 0x03, 0xA3,
];

const COMMAND_AND_ACK: &[u8] = &[
    0x10, 0x02, 0x01, 0x00, 0x06, 0x00, 0x01, 0x00, 0x00, 0x55, 0x10, 0x03, 0xA3, 0x10, 0x06,
];

#[test]
fn an_end_is_served(rt: HostRuntime) -> Result<(), Fail> {
    let cases = [
        // An ENQ before any frame.
        served(SERVE, "", b"\x10\x05", b"\x10\x15", ""),
        // A frame that is broken off.
        served(SERVE, "", b"\x10\x02\x01\x10\x41", b"\x10\x15", ""),
        // No bytes.
        served(SERVE, "", b"", b"", ""),
        // A word of a file is read.
        served(
            SERVE,
            FILE,
            b"\x10\x02\x01\x00\x0F\x00\x34\x12\xA2\x02\x07\x89\x00\x00\x10\x03\x76",
            b"\x10\x06\x10\x02\x00\x01\x4F\x00\x34\x12\x34\x12\x10\x03\x24",
            "",
        ),
        // `serve` issues nothing.
        served(TIMED, PEER, b"\x03\x00", b"", ""),
        // A take sends one byte.
        served(TIMED, "", b"\x00\x10\x00\x05\x02\x00", b"\x10", ""),
        // A command is issued, acknowledged and answered.
        served(
            ISSUE,
            PEER,
            ANSWER,
            COMMAND_AND_ACK,
            "1 answered 00014600010055\n",
        ),
        // Nothing is received for it.
        served(ISSUE, PEER, b"\x03\x00", COMMAND, "1 unfinished\n"),
    ];
    for case in &cases {
        check(&rt, case)?;
    }
    Ok(())
}

#[test]
fn a_transfer_tells_what_it_came_to(rt: HostRuntime) -> Result<(), Fail> {
    let cases = [
        served(PULL, PEER, WORDS, PULL_ORDER_AND_ACK, "pulled 34127856\n"),
        served(PUSH, PEER, NO_WORD, PUSH_ORDER_AND_ACK, "pushed 1\n"),
        // Nothing is received for the order.
        served(PULL, PEER, b"\x03\x00", PULL_ORDER, "missing 1\n"),
        // There is no such file.
        served(PULL, PEER, REFUSAL, PULL_ORDER_AND_ACK, "refused 1 F0 06\n"),
        served(PUSH, PEER, REFUSAL, PUSH_ORDER_AND_ACK, "refused 1 F0 06\n"),
        // Fewer words are read than asked for, or a reply to a write has some.
        served(PULL, PEER, WORD, PULL_ORDER_AND_ACK, "odd 1\n"),
        served(PUSH, PEER, WORD, PUSH_ORDER_AND_ACK, "odd 1\n"),
        // Of two orders the first is refused, and the second isn't answered.
        served(
            &["pull", "p", "007", "101"],
            PEER,
            REFUSAL,
            TWO_ORDERS,
            "refused 1 F0 06\n",
        ),
        // Digits of either case.
        served(&["push", "p", "7", "abCD"], PEER, b"", b"", "missing 1\n"),
    ];
    for case in &cases {
        check(&rt, case)?;
    }
    Ok(())
}

#[test]
fn a_service_that_does_not_end_well_tells_why(rt: HostRuntime) -> Result<(), Fail> {
    let cases = [
        // Invalid plans.
        stopped(
            SERVE,
            "node = 300\n",
            b"\x10\x05",
            3,
            b"",
            "df1: plan: key node\n",
        ),
        stopped(
            SERVE,
            "speed = 1\n",
            b"\x10\x05",
            3,
            b"",
            "df1: plan: unknown key\n",
        ),
        stopped(
            SERVE,
            "issue = [\"4F00\"]\n",
            b"",
            3,
            b"",
            "df1: plan: issue 1\n",
        ),
        stopped(ISSUE, "node = \n", b"", 3, b"", "df1: plan: text\n"),
        stopped(
            ISSUE,
            "[[file]]\nnumber = 7\n",
            b"",
            3,
            b"",
            "df1: plan: file 1\n",
        ),
        // Invalid records: what was sent before is written.
        stopped(TIMED, "", b"\x00", 3, b"", "df1: record at 0: cut\n"),
        stopped(
            TIMED,
            "",
            b"\x00\x10\x00\x05\x03\x00\x04",
            3,
            b"\x10\x15",
            "df1: record at 6: cut\n",
        ),
        stopped(ISSUE, PEER, b"\x05\x00", 3, b"", "df1: record at 0: form\n"),
        stopped(
            ISSUE,
            PEER,
            b"\x03\x00\x01\x01",
            3,
            COMMAND,
            "df1: record at 2: form\n",
        ),
        // Words that are none of the forms.
        stopped(&["serve", "p"], "", b"", 2, b"", USAGE),
        stopped(&["issue", "p", "raw"], "", b"", 2, b"", USAGE),
        stopped(&["pull", "p", "7"], PEER, b"", 2, b"", USAGE),
        stopped(&["pull", "p", "7", "0"], PEER, b"", 2, b"", USAGE),
        stopped(&["pull", "p", "7", "3001"], PEER, b"", 2, b"", USAGE),
        stopped(&["pull", "p", "1000", "1"], PEER, b"", 2, b"", USAGE),
        stopped(&["pull", "p", "0000000007", "1"], PEER, b"", 2, b"", USAGE),
        stopped(&["pull", "p", "7", "0000000001"], PEER, b"", 2, b"", USAGE),
        stopped(&["pull", "p", "7", "-1"], PEER, b"", 2, b"", USAGE),
        stopped(&["push", "p", "7", ""], PEER, b"", 2, b"", USAGE),
        stopped(&["push", "p", "7", "34"], PEER, b"", 2, b"", USAGE),
        stopped(&["push", "p", "7", "341"], PEER, b"", 2, b"", USAGE),
        stopped(&["push", "p", "7", "34xy"], PEER, b"", 2, b"", USAGE),
        stopped(&["push", "p", "1000", "3412"], PEER, b"", 2, b"", USAGE),
        // No plan.
        Case {
            plan: None,
            ..stopped(SERVE, "", b"\x10\x05", 6, b"", "df1: plan cannot be read\n")
        },
        // A read that fails after an ENQ.
        Case {
            read_fails: &[3],
            ..stopped(
                SERVE,
                "",
                b"\x10\x05",
                4,
                b"\x10\x15",
                "df1: input cannot be read\n",
            )
        },
        // An output that takes one byte of two.
        Case {
            room: 1,
            ..stopped(
                SERVE,
                "",
                b"\x10\x05",
                5,
                b"\x10",
                "df1: output cannot be written\n",
            )
        },
        // A note that takes a part of the line of a transfer.
        Case {
            note_room: 4,
            ..stopped(PULL, PEER, b"\x03\x00", 5, PULL_ORDER, "miss")
        },
        // A note that takes a part of the outcomes.
        Case {
            note_room: 4,
            ..stopped(ISSUE, PEER, b"\x03\x00", 5, COMMAND, "1 un")
        },
    ];
    for case in &cases {
        let ran = ran(rt.alloc(), case, 1)?;
        is(&rt, ran.status, case.status);
        is(&rt, ran.out.held(), case.out);
        is(&rt, ran.note.held(), case.note.as_bytes());
    }
    Ok(())
}

#[test]
fn a_plan_has_at_most_1048576_bytes(rt: HostRuntime) -> Result<(), Fail> {
    let words = words(rt.alloc(), SERVE)?;
    let expected = [
        (1_048_576, 0, ""),
        (1_048_577, 6, "df1: plan is over 1048576 bytes\n"),
    ];
    for (size, status, note) in expected {
        // A comment.
        let mut text = Vec::new(rt.alloc());
        text.resize(size, b'#')?;
        let mut shelf = ShelfMem::new(rt.alloc());
        shelf.add("p", &text, false)?;
        let ran = run(
            rt.alloc(),
            &words,
            shelf,
            BytesIn::new(rt.alloc(), b"", 1, &[])?,
            BytesOut::new(rt.alloc(), 10, 10, &[])?,
            BytesOut::new(rt.alloc(), 300, 300, &[])?,
        );
        is(&rt, ran.status, status);
        is(&rt, ran.note.held(), note.as_bytes());
    }
    Ok(())
}
