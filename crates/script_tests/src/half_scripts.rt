//! Tests of lines with the first that has a flaw, and of one script field by field.

use crate::equal::is;
use df1_check::Check;
use end_drafts::{Flaw, StatementFault};
use half_script::HalfReader;
use script_parts::{EndPlan, Event, Events, Script, WordOf};
use script_statement::{Items, Who, first_words, statement_of};
use std::alloc::{AllocError, Global};
use std::process::Abort;
use std::test::Fail;

/// Flawed lines after `set mode half`, with the number of the first and its first flaw.
const FLAWED: [(&str, u32, Flaw); 70] = [
    ("set mode half", 1, Flaw::Place),
    ("set mode full", 1, Flaw::Place),
    ("mk\nset check crc", 2, Flaw::Place),
    ("mk\nset check x", 2, Flaw::Place),
    ("mt\nstation 3", 2, Flaw::Place),
    ("mt\nstation 16", 2, Flaw::Place),
    ("mt\nset m.node 7", 2, Flaw::Place),
    ("mt\nset a.node 7", 2, Flaw::Place),
    ("mt\nfile m 7 89 1", 2, Flaw::Place),
    ("mt\nword m 7 0 1234", 2, Flaw::Place),
    ("ak", 1, Flaw::Missing),
    ("bt 0", 1, Flaw::Missing),
    ("ai 4F00", 1, Flaw::Missing),
    ("ac 00", 1, Flaw::Missing),
    ("bn 10", 1, Flaw::Missing),
    ("mi 3 0600", 1, Flaw::Missing),
    ("station 3\nmi 4 4F00", 2, Flaw::Missing),
    ("3k 0", 1, Flaw::Missing),
    ("259k", 1, Flaw::Missing),
    ("station 3\n259k", 2, Flaw::Missing),
    ("md 3 0", 1, Flaw::Missing),
    ("mx 3", 1, Flaw::Missing),
    ("mc 3 00", 1, Flaw::Missing),
    ("station 3\nmn 4 10", 2, Flaw::Missing),
    ("set a.node 0", 1, Flaw::Missing),
    ("file b 7 89 1", 1, Flaw::Missing),
    ("set m.embed on", 1, Flaw::Missing),
    ("set m.max_naks 300", 1, Flaw::Missing),
    ("set m.max_enqs 3", 1, Flaw::Missing),
    ("set m.max_sends 3", 1, Flaw::Missing),
    ("set 3.room 2", 1, Flaw::Missing),
    ("station 3\nset 3.node 3", 2, Flaw::Missing),
    ("station 3\nset 3.tns 3", 2, Flaw::Missing),
    ("station 3\nset 3.ack_ticks 3", 2, Flaw::Missing),
    ("station 3\nset 3.poll_ticks 0", 2, Flaw::Missing),
    ("station 3\nset 3.compat 7", 2, Flaw::Missing),
    ("word m 7 0 1234", 1, Flaw::Missing),
    ("set check BCC", 1, Flaw::Value),
    ("station 16", 1, Flaw::Value),
    ("station 255", 1, Flaw::Value),
    ("set m.node 256", 1, Flaw::Value),
    ("set m.poll_ticks 0", 1, Flaw::Value),
    ("set m.max_resends 256", 1, Flaw::Value),
    ("station 3\nset 3.max_sends 0", 2, Flaw::Value),
    ("file m 7 86 2\nset m.compat 7", 2, Flaw::Value),
    ("station 3\nfile 3 7 89 2\nword 3 7 2 1234", 3, Flaw::Value),
    ("station 3\nmi 3 4F00", 2, Flaw::Value),
    ("station 3\n03k 0", 2, Flaw::Value),
    ("station 3\nmc 3 00", 2, Flaw::Value),
    ("set check bcc\nset check crc", 2, Flaw::Twice),
    ("station 3\nstation 4\nstation 03", 3, Flaw::Twice),
    ("set m.node 0\nset m.node 1", 2, Flaw::Twice),
    (
        "station 3\nset 3.max_sends 255\nset 03.max_sends 1",
        3,
        Flaw::Twice,
    ),
    (
        "station 3\nstation 4\nfile 3 7 89 2\nfile 4 7 89 2\nword 4 7 1 1234\nword 3 7 1 1234\nword 3 7 1 0000",
        7,
        Flaw::Twice,
    ),
    ("ai 9 0600", 1, Flaw::Missing),
    ("ai 256 4F00", 1, Flaw::Missing),
    ("mi 3 9 0600", 1, Flaw::Missing),
    ("station 3\nmi 9 3 0600", 2, Flaw::Missing),
    ("station 3\nset 3.window 1", 2, Flaw::Missing),
    ("station 3\nset 3.per_source 0", 2, Flaw::Missing),
    ("set m.window 17", 1, Flaw::Value),
    ("set m.window 0", 1, Flaw::Value),
    ("set m.per_source x", 1, Flaw::Value),
    ("station 3\nmi 3 256 0600", 2, Flaw::Value),
    ("station 3\nmi 3 9 4F00", 2, Flaw::Value),
    ("set m.window 2\nset m.window 2", 2, Flaw::Twice),
    ("mk 4000000\nmt", 2, Flaw::Events),
    ("station 1\nstation 2\nmk 2000001", 3, Flaw::Events),
    ("station 1\nstation 2\nmk 2000000\nmt", 4, Flaw::Events),
    ("station 1\nstation 2\n1k 3999999\n2n 1015", 4, Flaw::Events),
];

/// Returns the script of some lines, or the number of the first line that is none of the forms or refused, with its
/// fault.
fn read(alloc: Global, text: &str) -> Result<Script, (u32, Option<StatementFault>)> {
    let mut reader = HalfReader::new(alloc, false);
    let mut events: Events = Items::new(alloc);
    let mut number = 1u32;
    for line in text.lines() {
        let Ok(Some(statement)) = statement_of(alloc, &first_words(line.as_bytes())) else {
            return Err((number, None));
        };
        match reader.take(alloc, statement) {
            Ok(Some(event)) => {
                if events.push(event).is_err() {
                    return Err((number, None));
                }
            }
            Ok(None) => {}
            Err(fault) => return Err((number, Some(fault))),
        }
        number = number.wrapping_add(1);
    }
    match reader.setup(alloc) {
        Ok(mut script) => {
            script.events = events;
            Ok(script)
        }
        Err(_) => Err((number, None)),
    }
}

#[test]
fn the_first_flawed_line_is_told_with_its_first_flaw(rt: HostRuntime) {
    for (text, line, flaw) in FLAWED {
        assert_eq!(rt;
            read(rt.alloc(), text).err(),
            Some((line, Some(StatementFault::Flawed(flaw)))),
            "in {text:?}"
        );
    }
}

/// Lines with stations from 17 up to this number, or so many commands of one master, and the line with a flaw, if there
/// is one.
const MANY: [(&str, u32, u32, Option<(u32, Flaw)>); 4] = [
    ("", 48, 0, None),
    ("", 49, 0, Some((33, Flaw::Value))),
    ("station 3\n", 16, 65_535, None),
    ("station 3\n", 16, 65_536, Some((65_537, Flaw::Spent))),
];

/// Returns lines for the stations from 17 to the last one, and so many commands.
fn many(alloc: Global, front: &str, last: u32, commands: u32) -> Result<String, AllocError> {
    let mut text = String::from_str(alloc, front)?;
    for number in 17..=last {
        let line = format!(in alloc; "station {number}\n")?;
        text.push_str(&line)?;
    }
    for _ in 0..commands {
        text.push_str("mi 3 0600\n")?;
    }
    Ok(text)
}

#[test]
fn a_line_has_32_stations_and_a_master_65535_commands(rt: HostRuntime) -> Result<(), Fail> {
    for (front, last, commands, flaw) in MANY {
        let text = many(rt.alloc(), front, last, commands)?;
        let expected = flaw.map(|(line, flaw)| (line, Some(StatementFault::Flawed(flaw))));
        is(&rt, read(rt.alloc(), &text).err(), expected);
    }
    Ok(())
}

/// A script with a master and two stations.
const TEXT: &str =
    "set check crc\nstation 254\nset m.tns 9\nstation 3\nset m.room 64\nset m.window 16\nset m.per_source 2\nset 3.max_sends 255\nset 254.block 01fE\nfile 3 7 89 2\nword 3 7 1 12aB\nset 3.compat 7\nmi 254 0fAA\nmi 3 9 0600\nmk\nmt 3\n3k 2\nmd 3 4\n254x\nmc 254 0f\n3n 1015";

/// Compares the plans of the script.
fn check_ends<R: Abort>(rt: &R, ends: &[EndPlan]) -> Result<(), Fail> {
    let [m, first, second] = ends else {
        return Err(Fail::new("there are not three ends"));
    };
    is(
        rt,
        (m.who, m.node, m.tns, m.room, m.max_sends),
        (Who::M, 0, 9, 64, 3),
    );
    is(rt, (m.window, m.per_source), (16, 2));
    is(
        rt,
        (first.who, first.node, first.room, first.compat),
        (Who::S(254), 254, 2, None),
    );
    is(rt, first.block.as_slice(), b"\x01\xfe".as_slice());
    is(
        rt,
        (second.who, second.node, second.max_sends, second.compat),
        (Who::S(3), 3, 255, Some(7)),
    );
    let word = WordOf {
        who: Who::S(3),
        file: 7,
        index: 1,
        value: 0x12AB,
    };
    is(rt, second.words.as_slice(), [word].as_slice());
    Ok(())
}

/// An event's letter, its end or the two of its lane, the source that it names, its number, and its bytes.
type Shown = (char, Who, Option<Who>, Option<u8>, u32, &'static [u8]);

/// The events of the script.
const EVENTS: [Shown; 9] = [
    ('i', Who::M, None, None, 254, b"\x0f\xaa"),
    ('i', Who::M, None, Some(9), 3, b"\x06\x00"),
    ('k', Who::M, None, None, 1, b""),
    ('t', Who::M, None, None, 3, b""),
    ('k', Who::S(3), None, None, 2, b""),
    ('d', Who::M, Some(Who::S(3)), None, 4, b""),
    ('x', Who::S(254), Some(Who::M), None, 1, b""),
    ('c', Who::M, Some(Who::S(254)), None, 0x0F, b""),
    ('n', Who::S(3), Some(Who::M), None, 0, b"\x10\x15"),
];

/// Returns the letter of an event, and its end or the two of its lane.
fn place_of(event: &Event) -> (char, Who, Option<Who>) {
    match event {
        Event::Issue { who, .. } => ('i', *who, None),
        Event::Take { who, .. } => ('k', *who, None),
        Event::Deliver { lane, .. } => ('d', lane.from, Some(lane.to)),
        Event::Lose { lane, .. } => ('x', lane.from, Some(lane.to)),
        Event::Alter { lane, .. } => ('c', lane.from, Some(lane.to)),
        Event::Foreign { lane, .. } => ('n', lane.from, Some(lane.to)),
        Event::Tick { who, .. } => ('t', *who, None),
    }
}

/// Returns the source that a command names.
fn source_of(event: &Event) -> Option<u8> {
    match event {
        Event::Issue { src, .. } => *src,
        _ => None,
    }
}

/// Returns the number of an event: DST of a command, a mask, or how often it happens.
fn number_of(event: &Event) -> u32 {
    match event {
        Event::Issue { dst, .. } => u32::from(*dst),
        Event::Take { n, .. } | Event::Deliver { n, .. } => *n,
        Event::Lose { n, .. } | Event::Tick { n, .. } => *n,
        Event::Alter { mask, .. } => u32::from(*mask),
        Event::Foreign { .. } => 0,
    }
}

/// Returns the bytes of an event.
fn bytes_of(event: &Event) -> &[u8] {
    match event {
        Event::Issue { payload, .. } => payload.as_slice(),
        Event::Foreign { bytes, .. } => bytes.as_slice(),
        _ => &[],
    }
}

/// Compares the events of the script.
fn check_events<R: Abort>(rt: &R, events: &[Event]) -> Result<(), Fail> {
    is(rt, events.len(), EVENTS.len());
    for (event, (letter, who, to, src, number, bytes)) in events.iter().zip(EVENTS) {
        is(rt, place_of(event), (letter, who, to));
        is(rt, source_of(event), src);
        is(rt, number_of(event), number);
        is(rt, bytes_of(event), bytes);
    }
    Ok(())
}

/// Compares the script.
fn check_script<R: Abort>(rt: &R, script: &Script) -> Result<(), Fail> {
    is(rt, (script.half, script.check), (true, Check::Crc));
    check_ends(rt, script.ends.as_slice())?;
    check_events(rt, script.events.as_slice())
}

#[test]
fn a_script_says_what_its_lines_say(rt: HostRuntime) -> Result<(), Fail> {
    let script = read(rt.alloc(), TEXT).ok().ok_or("refused")?;
    check_script(&rt, &script)
}
