//! Tests of texts that are read for a route: those that are refused, each with its first faulty line and its cause, and
//! those that are accepted.

use crate::equal::is;
use line_script::{Cause, Profile, ScriptFault, read_profile};
use std::alloc::AllocError;
use std::process::Abort;
use std::test::Fail;

/// Texts that a route refuses, each with its first faulty line and its cause.
const REFUSED: [(&str, u32, Cause); 36] = [
    ("set mode half\nend", 1, Cause::Form),
    ("set mode full\nend", 1, Cause::Form),
    ("station 3\nset mode half\nend", 2, Cause::Form),
    ("station 3\nmi 3 9 0600\nend", 2, Cause::Form),
    ("station 3\n3i\nend", 2, Cause::Form),
    ("station 3\n3i m\nend", 2, Cause::Form),
    ("station 3\n3i m 0600\nend", 2, Cause::Form),
    ("station 3\n3i 0 060\nend", 2, Cause::Form),
    ("station 3\n3i 0 9 0600\nend", 2, Cause::Form),
    ("station 3\n3t\nend", 2, Cause::Form),
    ("station 3\nmi 3 0600\nset mode half\nend", 3, Cause::Form),
    ("station 3\n3i 0 0600\nset 3.tns 1\nend", 3, Cause::Place),
    ("station 3\n3i 0 0600\nstation 0\nend", 3, Cause::Place),
    ("station 3\n3i 3 0600\nend", 2, Cause::Missing),
    ("station 3\n3i 9 0600\nend", 2, Cause::Missing),
    ("station 3\n3i 256 0600\nend", 2, Cause::Missing),
    ("3i 0 0600\nend", 1, Cause::Missing),
    ("station 3\nset m.node 7\n3i 0 0600\nend", 3, Cause::Missing),
    ("station 3\nset 3.node 4\nend", 2, Cause::Missing),
    ("station 3\nset 3.reply_ticks 100\nend", 2, Cause::Missing),
    ("station 3\nset 3.per_source 2\nend", 2, Cause::Missing),
    ("set 5.tns 1\nend", 1, Cause::Missing),
    ("ai 0600\nend", 1, Cause::Missing),
    ("station 0\nend", 1, Cause::Value),
    ("station 3\nset m.node 3\nend", 2, Cause::Value),
    ("set m.node 3\nstation 3\nend", 2, Cause::Value),
    (
        "station 3\nset m.node 7\nset m.node 3\nend",
        3,
        Cause::Value,
    ),
    ("station 3\nset 3.tns 65536\nend", 2, Cause::Value),
    ("station 3\nset 3.window 0\nend", 2, Cause::Value),
    ("station 3\nset 3.window 17\nend", 2, Cause::Value),
    ("station 3\n3i 0 4F00\nend", 2, Cause::Value),
    ("station 3\nset 3.tns 1\nset 3.tns 2\nend", 3, Cause::Twice),
    ("station 3\nstation 3\nend", 2, Cause::Twice),
    ("station 3\n3k 4000000\n3i 0 0600\nend", 3, Cause::Events),
    ("end\n3i 0 0600", 2, Cause::After),
    ("station 3\n3i 0 0600", 3, Cause::NoEnd),
];

/// Texts that a route accepts, each with its count of events.
const TAKEN: [(&str, usize); 5] = [
    ("end", 0),
    ("# 3i 9 0600\n\nend\n", 0),
    (
        "station 3\nstation 5\n3i 5 0600\n5i 3 0600\n3i 0 0600\nmi 3 0600\nmi 3 0600\nend",
        5,
    ),
    (
        "set m.node 7\nstation 0\nstation 3\n0i 7 0600\n0i 3 0600\n3i 0 0600\nend",
        3,
    ),
    (
        "station 3\nset 3.max_sends 2\nset 3.room 4\nfile 3 7 89 2\nword 3 7 0 1234\n3k 99\r\n3d 99\nmk 2\nmd 3 2\nend",
        4,
    ),
];

#[test]
fn a_route_tells_the_first_faulty_line_and_its_cause(rt: HostRuntime) -> Result<(), Fail> {
    for (text, line, cause) in REFUSED {
        assert_eq!(rt;
            read_profile(rt.alloc(), text.as_bytes(), Profile::Route).err(),
            Some(ScriptFault::At { line, cause }),
            "in {text:?}"
        );
    }
    Ok(())
}

#[test]
fn a_script_of_a_master_that_carries_messages_is_taken(rt: HostRuntime) -> Result<(), Fail> {
    for (text, events) in TAKEN {
        let script = read_profile(rt.alloc(), text.as_bytes(), Profile::Route)?;
        assert_eq!(rt;
            (script.half, script.events.as_slice().len()),
            (true, events),
            "in {text:?}"
        );
    }
    Ok(())
}

/// The first TNS and the window of each end that is declared here, the master's first: the settings, or the default
/// values.
const SET: (&str, [(u16, usize); 3]) = (
    "station 3\nstation 5\nset 3.tns 65535\nset 5.window 16\nend",
    [(1, 1), (65_535, 1), (1, 16)],
);

#[test]
fn a_station_has_a_first_tns_and_a_window(rt: HostRuntime) -> Result<(), Fail> {
    let (text, ends) = SET;
    let script = read_profile(rt.alloc(), text.as_bytes(), Profile::Route)?;
    is(&rt, script.ends.as_slice().len(), ends.len());
    for (plan, (tns, window)) in script.ends.as_slice().iter().zip(ends) {
        is(&rt, (plan.tns, plan.window), (tns, window));
    }
    Ok(())
}

/// Texts that a replay reads differently, each with the fault for a replay, if any.
const REPLAYED: [(&str, Option<(u32, Cause)>); 4] = [
    (
        "set mode half\nstation 3\n3i 0 0600\nend",
        Some((3, Cause::Form)),
    ),
    (
        "set mode half\nstation 3\nset 3.tns 1\nend",
        Some((3, Cause::Missing)),
    ),
    ("station 3\nend", Some((1, Cause::Place))),
    ("set mode half\nstation 0\nmi 0 9 0600\nend", None),
];

#[test]
fn a_replay_has_its_own_forms(rt: HostRuntime) -> Result<(), Fail> {
    for (text, fault) in REPLAYED {
        assert_eq!(rt;
            read_profile(rt.alloc(), text.as_bytes(), Profile::Replay).err(),
            fault.map(|(line, cause)| ScriptFault::At { line, cause }),
            "in {text:?}"
        );
    }
    Ok(())
}

/// The maximum number of commands that an end may issue.
const COMMANDS: u32 = 65_535;

/// Returns a text in which station 3 has issued as many commands as an end may, followed by this line.
fn after_all<R: Abort + AllocGlobal>(rt: &R, line: &str) -> Result<Vec<u8>, AllocError> {
    let mut text = Vec::new(rt.alloc());
    text.extend_from_slice(b"station 3\nstation 5\n")?;
    for _ in 0..COMMANDS {
        text.extend_from_slice(b"3i 5 06\n")?;
    }
    text.extend_from_slice(line.as_bytes())?;
    text.extend_from_slice(b"\nend")?;
    Ok(text)
}

/// Further lines, each with its cause if it is refused.
const FURTHER: [(&str, Option<Cause>); 3] = [
    ("3i 0 06", Some(Cause::Spent)),
    ("5i 3 06", None),
    ("mi 3 06", None),
];

#[test]
fn each_end_may_issue_as_many_commands(rt: HostRuntime) -> Result<(), Fail> {
    for (line, cause) in FURTHER {
        let text = after_all(&rt, line)?;
        assert_eq!(rt;
            read_profile(rt.alloc(), &text, Profile::Route).err(),
            cause.map(|cause| ScriptFault::At {
                line: COMMANDS + 3,
                cause
            }),
            "at {line}"
        );
    }
    Ok(())
}
