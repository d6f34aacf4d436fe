//! Tests of routes: scripts with their reports, also from an input, and the faults by which a script from an input
//! isn't run.

use crate::equal::is;
use df1_base::{BytesIn, BytesOut};
use half_route::{print_route, read_route, route};
use line_script::Cause;
use std::alloc::Global;
use std::process::Abort;
use std::test::Fail;
use whole_scripts::{RunFault, route_input};

/// Station 3 sends a write to station 5: the master fetches and routes it, and the reply.
const CARRIED: &str =
    "station 3\nstation 5\nfile 5 7 89 16\n3i 5 0FAA02078900003412\nmt\nmk 99\nmd 3 99\nmd 5 99\n3k 99\n3d 99\nmk 99\nmd 3 99\nmd 5 99\n5k 99\n5d 99\nmt\nmk 99\nmd 3 99\nmd 5 99\n5k 99\n5d 99\nmk 99\nmd 3 99\nmd 5 99\n3k 99\n3d 99\nend\n";

const CARRIED_REPORT: &str =
    "m sent 100503FD\n3 sent 100205030F000100AA02078900003412100366\nm routed 05030F000100AA02078900003412\nm sent 1006100105100205030F000100AA02078900003412100361\n5 exec 05030F000100AA02078900003412\n5 sent 1006\nm sent 100505FB\n5 sent 100203054F0001001003A8\nm routed 03054F000100\nm sent 1006100103100203054F0001001003A5\n3 answered 1 03054F000100\n3 sent 1006\n5 word 7 0 1234\ndeceived 0\n";

/// The same with the ACK of station 5 lost: the master retransmits the write, and it isn't executed again.
const REPEATED: &str =
    "station 3\nstation 5\nfile 5 7 89 16\n3i 5 0FAA02078900003412\nmt\nmk 99\nmd 3 99\nmd 5 99\n3k 99\n3d 99\nmk 99\nmd 3 99\nmd 5 99\n5k 99\n5x 2\nmt 10\nmk 99\nmd 3 99\nmd 5 99\n5k 99\n5d 99\nmt\nmk 99\nmd 3 99\nmd 5 99\n5k 99\n5d 99\nmk 99\nmd 3 99\nmd 5 99\n3k 99\n3d 99\nend\n";

const REPEATED_REPORT: &str =
    "m sent 100503FD\n3 sent 100205030F000100AA02078900003412100366\nm routed 05030F000100AA02078900003412\nm sent 1006100105100205030F000100AA02078900003412100361\n5 exec 05030F000100AA02078900003412\n5 sent 1006\nm sent 100105100205030F000100AA02078900003412100361\n5 repeat\n5 sent 1006\nm sent 100505FB\n5 sent 100203054F0001001003A8\nm routed 03054F000100\nm sent 1006100103100203054F0001001003A5\n3 answered 1 03054F000100\n3 sent 1006\n5 word 7 0 1234\ndeceived 0\n";

/// A station sends a command to itself, in the second line, whose line feed is byte 20.
const TO_ITSELF: &str = "station 3\n3i 3 0600\nend\n";

/// Compares the report of a route with the expected one, from a text and from an input that returns so many bytes at
/// once.
fn reports(
    rt: &impl Abort,
    alloc: Global,
    text: &str,
    piece: usize,
    wanted: &str,
) -> Result<(), Fail> {
    let script = read_route(alloc, text.as_bytes())?;
    let made = route(alloc, &script)?;
    let mut out = BytesOut::new(alloc, 1000, 1000, &[])?;
    print_route(&made, &mut out)?;
    is(rt, out.held(), wanted.as_bytes());
    let mut input = BytesIn::new(alloc, text.as_bytes(), piece, &[])?;
    let mut out = BytesOut::new(alloc, 1000, 7, &[])?;
    is(rt, route_input(alloc, &mut input, &mut out), Ok(()));
    is(rt, out.held(), wanted.as_bytes());
    Ok(())
}

#[test]
fn routes_have_their_reports(rt: HostRuntime) -> Result<(), Fail> {
    reports(&rt, rt.alloc(), CARRIED, 4096, CARRIED_REPORT)?;
    reports(&rt, rt.alloc(), REPEATED, 1, REPEATED_REPORT)?;
    reports(&rt, rt.alloc(), "end", 2, "deceived 0\n")
}

/// Inputs of so many bytes per read, of which a read fails, and the fault.
const FAULTS: [(&str, usize, &[u64], RunFault); 5] = [
    (
        TO_ITSELF,
        4096,
        &[],
        RunFault::Refusal {
            line: 2,
            cause: Cause::Missing,
        },
    ),
    // The line that is refused was read completely before the read that fails.
    (
        TO_ITSELF,
        20,
        &[2],
        RunFault::Refusal {
            line: 2,
            cause: Cause::Missing,
        },
    ),
    (TO_ITSELF, 19, &[2], RunFault::Input),
    (CARRIED, 4096, &[1], RunFault::Input),
    // Only `end` is missing, and the input failed.
    ("station 3\n", 4096, &[2], RunFault::Input),
];

#[test]
fn nothing_is_written_of_a_route_that_is_not_read_whole(rt: HostRuntime) -> Result<(), Fail> {
    for (text, piece, fails, fault) in FAULTS {
        let mut input = BytesIn::new(rt.alloc(), text.as_bytes(), piece, fails)?;
        let mut out = BytesOut::new(rt.alloc(), 1000, 1000, &[])?;
        is(
            &rt,
            route_input(rt.alloc(), &mut input, &mut out),
            Err(fault),
        );
        is(&rt, out.held().is_empty(), true);
    }
    Ok(())
}

#[test]
fn of_a_report_whose_output_fails_a_first_part_is_written(rt: HostRuntime) -> Result<(), Fail> {
    let mut input = BytesIn::new(rt.alloc(), CARRIED.as_bytes(), 4096, &[])?;
    let mut out = BytesOut::new(rt.alloc(), 1000, 16, &[2])?;
    is(
        &rt,
        route_input(rt.alloc(), &mut input, &mut out),
        Err(RunFault::Output),
    );
    is(&rt, out.held(), b"m sent 100503FD\n".as_slice());
    Ok(())
}
