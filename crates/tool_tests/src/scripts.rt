//! Tests of the commands `route` and `rehearse`, over the outside in memory.
use crate::equal::is;
use crate::program::{USAGE, words};
use df1_base::{BytesIn, BytesOut};
use df1_shelf::ShelfMem;
use df1_tool::run;
use std::alloc::Global;
use std::process::Abort;
use std::test::Fail;

/// Station 3 sends an echo to station 5: the master fetches and routes it, and the reply.
const ROUTE: &str = concat!(
    "station 3\nstation 5\n3i 5 0600AA\n",
    "mt\nmk 99\nmd 3 99\nmd 5 99\n3k 99\n3d 99\nmk 99\nmd 3 99\nmd 5 99\n5k 99\n5d 99\n",
    "mt\nmk 99\nmd 3 99\nmd 5 99\n5k 99\n5d 99\nmk 99\nmd 3 99\nmd 5 99\n3k 99\n3d 99\nend\n",
);

const ROUTE_REPORT: &str = concat!(
    "m sent 100503FD\n3 sent 100205030600010000AA100347\nm routed 05030600010000AA\n",
    "m sent 1006100105100205030600010000AA100342\n5 exec 05030600010000AA\n5 sent 1006\n",
    "m sent 100505FB\n5 sent 1002030546000100AA100307\nm routed 030546000100AA\n",
    "m sent 10061001031002030546000100AA100304\n3 answered 1 030546000100AA\n3 sent 1006\ndeceived 0\n",
);

/// Two words of end b, and a command and its reply that arrive, each with its ACK.
const EXCHANGE: &str =
    "file b 7 89 2\nword b 7 0 1234\nword b 7 1 5678\nak 99\nad 99\nbk 99\nbd 99\nak 99\nad 99\nend\n";

const PULLED: &str = concat!(
    "a sent 100201000F0001000100000200060700041003DB\nb exec 01000F000100010000020006070004\n",
    "b sent 1006100200014F0001003412785610039B\na answered 1 00014F00010034127856\na sent 1006\n",
    "b word 7 0 1234\nb word 7 1 5678\ndeceived 0\npulled 34127856\n",
);

/// The orders are for a file that end b doesn't have.
const REFUSED: &str = concat!(
    "a sent 100201000F0001000100000200060900041003D9\nb exec 01000F000100010000020006090004\n",
    "b sent 1006100200014FF00100061003B9\na answered 1 00014FF0010006\na sent 1006\n",
    "b word 7 0 1234\nb word 7 1 5678\ndeceived 0\nrefused 1 F0 06\n",
);

const PUSHED: &str = concat!(
    "a sent 100201000F0001000000000100060700CDAB100369\nb exec 01000F0001000000000100060700CDAB\n",
    "b sent 1006100200014F0001001003AF\na answered 1 00014F000100\na sent 1006\n",
    "b word 7 0 ABCD\nb word 7 1 5678\ndeceived 0\npushed 1\n",
);

/// The same words of end b, and nothing happens.
const NOTHING: &str = "file b 7 89 2\nword b 7 0 1234\nend\n";

/// The expected result of a run of the program.
#[derive(Drop)]
struct Case {
    words: &'static [&'static str],
    input: &'static str,
    read_fails: &'static [u64],
    room: usize,
    status: u8,
    out: &'static str,
    note: &'static str,
}

/// Returns a run that ends well.
fn printed(words: &'static [&'static str], input: &'static str, out: &'static str) -> Case {
    ended(words, input, 0, out, "")
}

/// Returns a run that ends with this status.
fn ended(
    words: &'static [&'static str],
    input: &'static str,
    status: u8,
    out: &'static str,
    note: &'static str,
) -> Case {
    Case {
        words,
        input,
        read_fails: &[],
        room: 4000,
        status,
        out,
        note,
    }
}

fn check(rt: &impl Abort, alloc: Global, case: &Case) -> Result<(), Fail> {
    let words = words(alloc, case.words)?;
    let ran = run(
        alloc,
        &words,
        ShelfMem::new(alloc),
        BytesIn::new(alloc, case.input.as_bytes(), 16, case.read_fails)?,
        BytesOut::new(alloc, case.room, 4096, &[])?,
        BytesOut::new(alloc, 300, 300, &[])?,
    );
    is(rt, ran.status, case.status);
    is(rt, ran.out.held(), case.out.as_bytes());
    is(rt, ran.note.held(), case.note.as_bytes());
    Ok(())
}

#[test]
fn routes_and_rehearsals_are_printed(rt: HostRuntime) -> Result<(), Fail> {
    let cases = [
        printed(&["route"], ROUTE, ROUTE_REPORT),
        printed(&["route"], "end\n", "deceived 0\n"),
        printed(&["rehearse", "pull", "7", "2"], EXCHANGE, PULLED),
        printed(&["rehearse", "pull", "9", "2"], EXCHANGE, REFUSED),
        printed(&["rehearse", "push", "7", "cdAB"], EXCHANGE, PUSHED),
        printed(
            &["rehearse", "push", "7", "CDAB"],
            NOTHING,
            "b word 7 0 1234\ndeceived 0\nmissing 1\n",
        ),
    ];
    for case in &cases {
        check(&rt, rt.alloc(), case)?;
    }
    Ok(())
}

#[test]
fn nothing_is_written_of_a_script_that_is_not_read_whole(rt: HostRuntime) -> Result<(), Fail> {
    let cases = [
        ended(
            &["route"],
            "station 0\nend\n",
            3,
            "",
            "df1: line 1: value\n",
        ),
        ended(
            &["route"],
            "station 3\n3i 3 0600\nend\n",
            3,
            "",
            "df1: line 2: missing\n",
        ),
        ended(
            &["rehearse", "pull", "7", "2"],
            "ak 2\nai 0600\nend\n",
            3,
            "",
            "df1: line 2: place\n",
        ),
        ended(
            &["rehearse", "push", "7", "3412"],
            "ak 2\nstation 3\nend\n",
            3,
            "",
            "df1: line 2: form\n",
        ),
        Case {
            read_fails: &[3],
            ..ended(&["route"], ROUTE, 4, "", "df1: input cannot be read\n")
        },
        Case {
            read_fails: &[1],
            ..ended(
                &["rehearse", "pull", "7", "2"],
                EXCHANGE,
                4,
                "",
                "df1: input cannot be read\n",
            )
        },
        Case {
            room: 7,
            ..ended(
                &["rehearse", "push", "7", "3412"],
                NOTHING,
                5,
                "b word ",
                "df1: output cannot be written\n",
            )
        },
    ];
    for case in &cases {
        check(&rt, rt.alloc(), case)?;
    }
    Ok(())
}

#[test]
fn words_beyond_the_limits_of_a_transfer_are_none_of_the_forms(
    rt: HostRuntime,
) -> Result<(), Fail> {
    let cases: [&[&str]; 9] = [
        &["route", "now"],
        &["rehearse"],
        &["rehearse", "pull", "7"],
        &["rehearse", "push", "7"],
        &["rehearse", "pull", "7", "0"],
        &["rehearse", "pull", "7", "3001"],
        &["rehearse", "pull", "1000", "1"],
        &["rehearse", "push", "7", "34"],
        &["rehearse", "route", "7", "1"],
    ];
    for asked in cases {
        check(&rt, rt.alloc(), &ended(asked, "end\n", 2, "", USAGE))?;
    }
    Ok(())
}
