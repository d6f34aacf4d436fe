//! Tests of texts that are read for a rehearsal: those that are refused, each with its first faulty line and its cause,
//! and those that are accepted.

use line_script::{Cause, Profile, ScriptFault, read_profile};
use std::process::Abort;
use std::test::Fail;

/// Texts with a form that only half mode has, or with none of the forms, each with its line.
const FORMLESS: [(&str, u32); 20] = [
    ("set mode half\nend", 1),
    ("set check crc\nset mode half\nend", 2),
    ("ak\nset mode half\nend", 2),
    ("station 3\nend", 1),
    ("station 16\nend", 1),
    ("# a\n\nak\nstation 255\nend", 4),
    ("mi 3 0600\nend", 1),
    ("mi 3 4F00\nend", 1),
    ("mi 3 9 0600\nend", 1),
    ("mi 3 256 0600\nend", 1),
    ("md 3\nend", 1),
    ("md 3 99\nend", 1),
    ("md 3 0\nend", 1),
    ("mx 3\nend", 1),
    ("mx 3 99\nend", 1),
    ("mc 3 0F\nend", 1),
    ("mn 3 1015\nend", 1),
    ("ai\nend", 1),
    ("ai 060\nend", 1),
    ("ai x 0600\nend", 1),
];

/// Texts with another line that names an end of half mode, each with its line.
const MISSING: [(&str, u32); 13] = [
    ("mk\nend", 1),
    ("mk 3\nend", 1),
    ("mt 2\nend", 1),
    ("3k\nend", 1),
    ("3d\nend", 1),
    ("3d 99\nend", 1),
    ("3x 2\nend", 1),
    ("3c 0F\nend", 1),
    ("3n 1015\nend", 1),
    ("set m.window 2\nend", 1),
    ("set 3.max_sends 2\nend", 1),
    ("file 3 7 89 16\nend", 1),
    ("set mode full\nword m 7 0 1234\nend", 2),
];

/// Texts with a command of end a, or another line that may not stand there, each with its line.
const MISPLACED: [(&str, u32); 9] = [
    ("ai 0600\nend", 1),
    ("ai 7 0600\nend", 1),
    ("ai 06\nend", 1),
    ("ai 4F00\nend", 1),
    ("ai 256 0600\nend", 1),
    ("bi 0600\n# b\n\tai  0600 \nend", 3),
    ("ak 4000000\nai 0600\nend", 2),
    ("ak\nset mode full\nend", 2),
    ("ak\nset b.node 7\nend", 2),
];

/// Texts that are refused as for a replay, each with its line and its cause.
const OTHERS: [(&str, u32, Cause); 9] = [
    ("", 1, Cause::NoEnd),
    ("bi 0600\n", 2, Cause::NoEnd),
    ("end\nai 0600", 2, Cause::After),
    ("end\nstation 3", 2, Cause::After),
    ("bi 4F00\nend", 1, Cause::Value),
    ("bi 256 0600\nend", 1, Cause::Value),
    ("ak 0\nend", 1, Cause::Value),
    ("set check bcc\nset check crc\nend", 2, Cause::Twice),
    ("ak 4000000\nbi 0600\nend", 2, Cause::Events),
];

/// Texts that a rehearsal accepts, each with its count of events.
const TAKEN: [(&str, usize); 6] = [
    ("end", 0),
    ("# ai 0600\n\nend\n# ai 0600", 0),
    ("bi 0600\nend", 1),
    ("bi 9 0600\nend", 1),
    (
        "set mode full\nset check crc\nset a.window 2\nfile b 7 89 2\nword b 7 0 1234\nak 99\r\nad 99\nbk\nbd 99\nend",
        4,
    ),
    ("ac 0F\nax\nan 1015\nat 3\nbc 01\nbx 2\nbn 06\nbt\nend", 8),
];

/// Compares the fault of a text for a rehearsal with its first faulty line and its cause.
fn check<R: Abort + AllocGlobal>(rt: &R, text: &str, line: u32, cause: Cause) -> Result<(), Fail> {
    assert_eq!(rt;
        read_profile(rt.alloc(), text.as_bytes(), Profile::Rehearse).err(),
        Some(ScriptFault::At { line, cause }),
        "in {text:?}"
    );
    Ok(())
}

#[test]
fn a_form_of_half_mode_is_none_of_the_forms(rt: HostRuntime) -> Result<(), Fail> {
    for (text, line) in FORMLESS {
        check(&rt, text, line, Cause::Form)?;
    }
    Ok(())
}

#[test]
fn another_line_of_half_mode_names_what_is_missing(rt: HostRuntime) -> Result<(), Fail> {
    for (text, line) in MISSING {
        check(&rt, text, line, Cause::Missing)?;
    }
    Ok(())
}

#[test]
fn a_command_of_end_a_may_not_stand_there(rt: HostRuntime) -> Result<(), Fail> {
    for (text, line) in MISPLACED {
        check(&rt, text, line, Cause::Place)?;
    }
    Ok(())
}

#[test]
fn other_lines_are_refused_as_for_a_replay(rt: HostRuntime) -> Result<(), Fail> {
    for (text, line, cause) in OTHERS {
        check(&rt, text, line, cause)?;
    }
    Ok(())
}

#[test]
fn a_full_duplex_script_without_commands_of_end_a_is_taken(rt: HostRuntime) -> Result<(), Fail> {
    for (text, events) in TAKEN {
        let script = read_profile(rt.alloc(), text.as_bytes(), Profile::Rehearse)?;
        assert_eq!(rt;
            (script.half, script.events.as_slice().len()),
            (false, events),
            "in {text:?}"
        );
    }
    Ok(())
}

/// Texts that a rehearsal refuses and a replay accepts.
const REPLAYED: [&str; 3] = [
    "ai 0600\nend",
    "ai 7 0600\nend",
    "set mode half\nstation 3\nmi 3 0600\nmd 3 99\nend",
];

#[test]
fn a_replay_takes_what_a_rehearsal_keeps_out(rt: HostRuntime) -> Result<(), Fail> {
    for text in REPLAYED {
        assert_eq!(rt;
            read_profile(rt.alloc(), text.as_bytes(), Profile::Replay).err(),
            None,
            "in {text:?}"
        );
    }
    Ok(())
}
