//! Tests of scripts with the reports of their runs.

use crate::equal::is;
use df1_base::BytesOut;
use line_replay::replay;
use line_script::read_script;
use replay_report::{Record, print};
use std::alloc::Global;
use std::test::Fail;

/// Scripts, each with its report.
const RUNS: [(&str, &str); 4] = [
    // An ordinary exchange.
    (
        "file b 7 89 16\nai 0FAA02078900003412\nak 99\nad 99\nbk 99\nbd 99\nak 99\nad 99\nend\n",
        "a sent 100201000F000100AA0207890000341210036D\nb exec 01000F000100AA02078900003412\nb sent 1006100200014F0001001003AF\na answered 1 00014F000100\na sent 1006\nb word 7 0 1234\ndeceived 0\n",
    ),
    // A foreign frame is taken for a reply to nothing.
    (
        "bn 10020001460009001003B0\nend\n",
        "a stray 000146000900\ndeceived 1\n",
    ),
    // A reply is given up without an ENQ.
    (
        "set b.max_enqs 0\nai 060055\nak 13\nad 13\nbk 99\nbt 10\nend\n",
        "a sent 100201000600010000551003A3\nb exec 0100060001000055\nb sent 1006100200014600010055100363\nb dropped\ndeceived 0\n",
    ),
    // A write to a polled station; ticks that come while a poll is to be sent don't count.
    (
        "set mode half\nstation 3\nfile 3 7 89 16\nmi 3 0FAA02078900003412\nmk 22\nmd 3 22\n3k 2\n3d 2\nmt 11\nmk 4\nmd 3 4\n3k 11\n3d 11\nmk 2\nend\n",
        "m sent 100103100203000F000100AA02078900003412100368\n3 exec 03000F000100AA02078900003412\n3 sent 1006\nm sent 100503FD\n3 sent 100200034F0001001003AD\nm answered 1 00034F000100\nm sent 1006\n3 word 7 0 1234\ndeceived 0\n",
    ),
];

/// A command to a polled station that executes it, and a poll that nobody answers: the master's tick, the poll, and the
/// one tick of its wait.
const SILENT: &str =
    "set mode half\nset m.reply_ticks 33\nset m.poll_ticks 1\nstation 3\nmi 3 0600\nmk 99\nmd 3 99\n3k 99\n3d 99\n";

const POLL: &str = "mt\nmk 4\nmt\n";

/// Returns the record of a script's run.
fn played(alloc: Global, text: &str) -> Result<Record, Fail> {
    let script = read_script(alloc, text.as_bytes())?;
    Ok(replay(alloc, &script)?)
}

/// Returns the text of a record.
fn printed(alloc: Global, record: &Record) -> Result<BytesOut, Fail> {
    let mut out = BytesOut::new(alloc, 1000, 1000, &[])?;
    print(record, &mut out)?;
    Ok(out)
}

#[test]
fn a_command_that_no_poll_fetches_the_reply_of_is_unanswered(rt: HostRuntime) -> Result<(), Fail> {
    let mut text = String::from_str(rt.alloc(), SILENT)?;
    let mut report = String::from_str(
        rt.alloc(),
        "m sent 1001031002030006000100001003F3\n3 exec 03000600010000\n3 sent 1006\n",
    )?;
    for _ in 0..32 {
        text.push_str(POLL)?;
        report.push_str("m sent 100503FD\n")?;
    }
    // The command's last tick comes with the master's next own tick.
    text.push_str("mt\nend\n")?;
    report.push_str("m unanswered 1\ndeceived 0\n")?;
    let record = played(rt.alloc(), &text)?;
    let out = printed(rt.alloc(), &record)?;
    is(&rt, out.held(), report.as_bytes());
    Ok(())
}

#[test]
fn runs_have_their_reports(rt: HostRuntime) -> Result<(), Fail> {
    for (text, report) in RUNS {
        let record = played(rt.alloc(), text)?;
        let out = printed(rt.alloc(), &record)?;
        is(&rt, out.held(), report.as_bytes());
    }
    Ok(())
}
