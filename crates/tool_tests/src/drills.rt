//! Tests of the commands `drill` and `storm`, over the outside in memory.
use crate::equal::is;
use crate::program::{USAGE, words};
use df1_base::{BytesIn, BytesOut};
use df1_check::crc;
use df1_shelf::ShelfMem;
use df1_tool::{Ran, run};
use std::alloc::Global;
use std::test::Fail;

/// The drill's script of four rounds from the seed 0: the patterns 1, 2, 3 and 0.
const SCRIPT: &str = concat!(
    "file b 7 89 16\n",
    "ai 0FAA02078901000100\nak 23\nad 2\nac 01\nad 21\nbk 2\nbd 2\nak 23\nad 23\nbk 15\nbd 15\nak 2\nad 2\n",
    "ai 0FAA02078902000200\nak 23\nad 23\nbk 2\nbx 2\nat 10\nak 2\nad 2\nbk 15\nbd 15\nak 2\nad 2\n",
    "ai 0FAA02078903000300\nak 23\nad 23\nbk 2\nbx 2\nbn 1015\nak 23\nad 23\nbk 15\nbd 15\nak 2\nad 2\n",
    "ai 0FAA02078904000400\nak 23\nad 23\nbk 15\nbd 15\nak 2\nad 2\n",
    "end\n",
);

/// The storm's script of four rounds from the seed 0: one hit, two, three and none.
const STORM: &str = concat!(
    "file b 7 89 16\n",
    "ai 0FAA02078901000100\nak 23\nad 4\nac 01\nad 23\nbk 2\nbd 2\nak 23\nad 23\nbk 15\nbd 15\nak 2\nad 2\n",
    "ai 0FAA02078902000200\nak 23\nad 5\nac 01\nad 23\nbk 2\nbd 2\nak 23\nad 2\nac 01\nad 23\nbk 2\nbd 2\n",
    "ak 23\nad 23\nbk 15\nbd 15\nak 2\nad 2\n",
    "ai 0FAA02078903000300\nak 23\nad 2\nac 01\nad 23\nbk 2\nbd 2\nak 23\nad 3\nac 01\nad 23\nbk 2\nbd 2\n",
    "ak 23\nad 4\nac 01\nad 23\nbk 2\nbd 2\nak 23\nad 23\nbk 15\nbd 15\nak 2\nad 2\n",
    "ai 0FAA02078904000400\nak 23\nad 23\nbk 15\nbd 15\nak 2\nad 2\n",
    "end\n",
);

/// A write that is hit once, of an end that gives up at the first NAK.
const GIVEN_UP: &str = concat!(
    "file b 7 89 16\nset a.max_naks 0\n",
    "ai 0FAA02078900003412\nak 19\nad 2\nac 01\nad 17\nbk 2\nbd 2\nend\n",
);

/// The output of `drill 0 4` before the CRC of the report.
const COUNTS: &str = "issued 4 executed 4 answered 4 damaged 1 repeats 1 enquiries 1 deceived 0";

/// The output of `storm 0 4` before the CRC of the report.
const STORM_COUNTS: &str =
    "issued 4 executed 4 answered 4 damaged 6 repeats 0 enquiries 0 deceived 0";

fn ran(
    alloc: Global,
    asked: &[&str],
    input: &str,
    room: usize,
) -> Result<Ran<ShelfMem, BytesIn, BytesOut, BytesOut>, Fail> {
    let words = words(alloc, asked)?;
    Ok(run(
        alloc,
        &words,
        ShelfMem::new(alloc),
        BytesIn::new(alloc, input.as_bytes(), 4096, &[])?,
        BytesOut::new(alloc, room, 4096, &[])?,
        BytesOut::new(alloc, 300, 300, &[])?,
    ))
}

#[test]
fn a_drill_tells_the_replay_of_its_script_and_leaves_the_input(
    rt: HostRuntime,
) -> Result<(), Fail> {
    let replayed = ran(rt.alloc(), &["replay"], SCRIPT, 4096)?;
    let [high, low] = crc(replayed.out.held()).to_be_bytes();
    let line = format!(in rt.alloc(); "{COUNTS} report {high:02X}{low:02X}\n")?;
    let cases: [(&[&str], usize, u8, &str, &str); 13] = [
        (&["drill", "0", "4"], 4096, 0, line.as_str(), ""),
        (
            &["drill", "0000000000", "0000000004"],
            4096,
            0,
            line.as_str(),
            "",
        ),
        (
            &["drill", "0", "4"],
            3,
            5,
            "iss",
            "df1: output cannot be written\n",
        ),
        (&["drill"], 4096, 2, "", USAGE),
        (&["drill", "0"], 4096, 2, "", USAGE),
        (&["drill", "0", "0"], 4096, 2, "", USAGE),
        (&["drill", "0", "20001"], 4096, 2, "", USAGE),
        (&["drill", "4294967296", "1"], 4096, 2, "", USAGE),
        (&["drill", "-1", "1"], 4096, 2, "", USAGE),
        (&["drill", "+1", "1"], 4096, 2, "", USAGE),
        (&["drill", "00000000000", "1"], 4096, 2, "", USAGE),
        (&["drill", "", "1"], 4096, 2, "", USAGE),
        (&["drill", "0", "4", "4"], 4096, 2, "", USAGE),
    ];
    for (asked, room, status, out, note) in cases {
        let ran = ran(rt.alloc(), asked, "end\n", room)?;
        is(&rt, ran.status, status);
        is(&rt, ran.out.held(), out.as_bytes());
        is(&rt, ran.note.held(), note.as_bytes());
        is(&rt, ran.input.left(), b"end\n".as_slice());
    }
    Ok(())
}

#[test]
fn a_storm_tells_the_replay_of_its_script_and_leaves_the_input(
    rt: HostRuntime,
) -> Result<(), Fail> {
    let replayed = ran(rt.alloc(), &["replay"], STORM, 4096)?;
    let [high, low] = crc(replayed.out.held()).to_be_bytes();
    let line = format!(in rt.alloc(); "{STORM_COUNTS} report {high:02X}{low:02X}\n")?;
    let cases: [(&[&str], usize, u8, &str, &str); 5] = [
        (&["storm", "0", "4"], 4096, 0, line.as_str(), ""),
        (
            &["storm", "0", "4"],
            3,
            5,
            "iss",
            "df1: output cannot be written\n",
        ),
        (&["storm", "0"], 4096, 2, "", USAGE),
        (&["storm", "0", "0"], 4096, 2, "", USAGE),
        (&["storm", "0", "20001"], 4096, 2, "", USAGE),
    ];
    for (asked, room, status, out, note) in cases {
        let ran = ran(rt.alloc(), asked, "end\n", room)?;
        is(&rt, ran.status, status);
        is(&rt, ran.out.held(), out.as_bytes());
        is(&rt, ran.note.held(), note.as_bytes());
        is(&rt, ran.input.left(), b"end\n".as_slice());
    }
    Ok(())
}

#[test]
fn a_hit_is_too_much_where_no_nak_is_allowed(rt: HostRuntime) -> Result<(), Fail> {
    let told = ran(rt.alloc(), &["replay"], GIVEN_UP, 4096)?;
    is(&rt, told.status, 0);
    is(
        &rt,
        told.out.held(),
        concat!(
            "a sent 100201000F000100AA0207890000341210036D\nb damaged\nb sent 1015\na undelivered 1\ndeceived 0\n"
        ).as_bytes(),
    );
    Ok(())
}
