//! Tests of rehearsals: what is printed of transfers over scripts, and the lines that report the results of transfers.

ghost use Rattle.std.specs.Prelude.{◌≡◌, ◌≤◌, ◌*◌, ◌/◌, IfOk, length};
ghost use Rattle.bulk_transfer.specs.Rehearsal.{IsRehearsable};

use crate::equal::is;
use bulk_orders::{Bulk, put_pull_result, put_push_result};
use bulk_transfer::{rehearse_pull, rehearse_push};
use df1_base::BytesOut;
use line_replay::{Profile, Script, print, read_profile};
use std::alloc::Global;
use std::process::Abort;
use std::test::Fail;

/// Two words of end b, and a command and its reply that arrive, each with its ACK.
const EXCHANGE: &str =
    "file b 7 89 2\nword b 7 0 1234\nword b 7 1 5678\nak 99\nad 99\nbk 99\nbd 99\nak 99\nad 99\nend\n";

/// The same words, and nothing happens.
const SILENCE: &str = "file b 7 89 2\nword b 7 0 1234\nword b 7 1 5678\nend\n";

/// The first and the last of 101 words, and both of two commands and their replies arrive.
const TWO_EXCHANGES: &str =
    "file b 7 89 101\nword b 7 0 1234\nword b 7 100 5678\nak 99\nad 99\nbk 999\nbd 999\nak 99\nad 99\nbk 99\nbd 99\nak 99\nad 99\nend\n";

/// The same words, and the second command is lost.
const LOST_COMMAND: &str =
    "file b 7 89 101\nword b 7 0 1234\nword b 7 100 5678\nak 999\nad 999\nbk 999\nbd 999\nak 2\nad 2\nak 99\nax 99\nend\n";

/// Reads a script for a rehearsal.
fn script_of(alloc: Global, text: &str) -> Result<Script, Fail>
    ensures { IfOk result IsRehearsable }
{
    Ok(read_profile(alloc, text.as_bytes(), Profile::Rehearse)?)
}

/// Compares what is printed of a transfer that reads.
fn pulls(
    rt: &impl Abort,
    alloc: Global,
    text: &str,
    file: u16,
    words: u16,
    wanted: &str,
) -> Result<(), Fail>
    requires file { file ≤ 999 }
    requires words { (1 ≤ words) × (words ≤ 3000) }
{
    let script = script_of(alloc, text)?;
    let rehearsal = rehearse_pull(alloc, &script, file, words)?;
    let mut out = BytesOut::new(alloc, 1000, 1000, &[])?;
    print(&rehearsal.report, &mut out)?;
    put_pull_result(&mut out, rehearsal.bulk, rehearsal.words.as_slice())?;
    is(rt, out.held(), wanted.as_bytes());
    Ok(())
}

#[test]
fn transfers_that_read_are_printed(rt: HostRuntime) -> Result<(), Fail> {
    pulls(
        &rt,
        rt.alloc(),
        EXCHANGE,
        7,
        2,
        "a sent 100201000F0001000100000200060700041003DB\nb exec 01000F000100010000020006070004\nb sent 1006100200014F0001003412785610039B\na answered 1 00014F00010034127856\na sent 1006\nb word 7 0 1234\nb word 7 1 5678\ndeceived 0\npulled 34127856\n",
    )?;
    // There is no such file.
    pulls(
        &rt,
        rt.alloc(),
        EXCHANGE,
        9,
        2,
        "a sent 100201000F0001000100000200060900041003D9\nb exec 01000F000100010000020006090004\nb sent 1006100200014FF00100061003B9\na answered 1 00014FF0010006\na sent 1006\nb word 7 0 1234\nb word 7 1 5678\ndeceived 0\nrefused 1 F0 06\n",
    )?;
    pulls(
        &rt,
        rt.alloc(),
        SILENCE,
        7,
        2,
        "b word 7 0 1234\nb word 7 1 5678\ndeceived 0\nmissing 1\n",
    )
}

#[test]
fn two_orders_read_the_words_in_their_order(rt: HostRuntime) -> Result<(), Fail> {
    let script = script_of(rt.alloc(), TWO_EXCHANGES)?;
    let rehearsal = rehearse_pull(rt.alloc(), &script, 7, 101)?;
    let mut wanted = [0; 202];
    wanted[..2].copy_from_slice(b"\x34\x12");
    wanted[200..].copy_from_slice(b"\x78\x56");
    is(&rt, rehearsal.bulk, Bulk::Whole);
    is(&rt, rehearsal.words.as_slice(), wanted.as_slice());
    is(&rt, rehearsal.report.deceived, 0);
    Ok(())
}

#[test]
fn an_order_that_is_lost_is_missing(rt: HostRuntime) -> Result<(), Fail> {
    let script = script_of(rt.alloc(), LOST_COMMAND)?;
    let read = rehearse_pull(rt.alloc(), &script, 7, 101)?;
    is(&rt, read.bulk, Bulk::Missing(2));
    is(&rt, read.words.as_slice().is_empty(), true);
    let written = rehearse_push(rt.alloc(), &script, 7, &[0; 202])?;
    is(&rt, written.bulk, Bulk::Missing(2));
    Ok(())
}

#[test]
fn transfers_that_write_are_printed(rt: HostRuntime) -> Result<(), Fail> {
    let text = "file b 7 89 2\nak 99\nad 99\nbk 99\nbd 99\nak 99\nad 99\nend\n";
    let script = script_of(rt.alloc(), text)?;
    let rehearsal = rehearse_push(rt.alloc(), &script, 7, b"\x34\x12")?;
    let mut out = BytesOut::new(rt.alloc(), 1000, 1000, &[])?;
    print(&rehearsal.report, &mut out)?;
    put_push_result(&mut out, rehearsal.bulk, 1)?;
    is(
        &rt,
        out.held(),
        "a sent 100201000F0001000000000100060700341210039B\nb exec 01000F00010000000001000607003412\nb sent 1006100200014F0001001003AF\na answered 1 00014F000100\na sent 1006\nb word 7 0 1234\ndeceived 0\npushed 1\n".as_bytes(),
    );
    is(&rt, rehearsal.words.as_slice().is_empty(), true);
    Ok(())
}

/// Results of transfers that aren't whole, each with its line.
const FAULTS: [(Bulk, &str); 4] = [
    (Bulk::Missing(1), "missing 1\n"),
    (Bulk::Odd(30), "odd 30\n"),
    (
        Bulk::Refused {
            number: 2,
            sts: 0x10,
            ext: 0,
        },
        "refused 2 10 00\n",
    ),
    (
        Bulk::Refused {
            number: 4294967295,
            sts: 0xF0,
            ext: 0x0B,
        },
        "refused 4294967295 F0 0B\n",
    ),
];

#[test]
fn what_a_transfer_came_to_has_its_line(rt: HostRuntime) -> Result<(), Fail> {
    for (bulk, line) in FAULTS {
        let mut out = BytesOut::new(rt.alloc(), 100, 100, &[])?;
        put_pull_result(&mut out, bulk, &[])?;
        is(&rt, out.held(), line.as_bytes());
        let mut out = BytesOut::new(rt.alloc(), 100, 100, &[])?;
        put_push_result(&mut out, bulk, 30)?;
        is(&rt, out.held(), line.as_bytes());
    }
    let mut out = BytesOut::new(rt.alloc(), 100, 100, &[])?;
    put_pull_result(&mut out, Bulk::Whole, b"\xAB\xCD")?;
    put_push_result(&mut out, Bulk::Whole, 30)?;
    is(&rt, out.held(), b"pulled ABCD\npushed 30\n".as_slice());
    Ok(())
}
