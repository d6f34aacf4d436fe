//! Tests of texts with their first faulty line and its cause, and of one script field by field.

use crate::equal::is;
use data_files::FileSpec;
use df1_base::FileType;
use df1_check::Check;
use line_script::{
    Cause, EndPlan, Event, LineFault, Reader, Script, ScriptFault, Who, WordOf, read_script,
};
use std::alloc::{AllocError, Global};
use std::process::Abort;
use std::test::Fail;

/// Texts that have no end, or a line that follows the end or has none of the forms, each with its line and its cause.
const FORMLESS: [(&str, u32, Cause); 35] = [
    ("", 1, Cause::NoEnd),
    ("ak\n# end\n", 3, Cause::NoEnd),
    ("ak", 2, Cause::NoEnd),
    ("end\n\n# c\nend\n", 4, Cause::After),
    ("end\nx", 2, Cause::After),
    ("end\r", 1, Cause::Form),
    ("set mode half\n", 2, Cause::NoEnd),
    ("set mode halfx\n", 1, Cause::Form),
    ("set mode half\nstation 3\n3t\nend", 3, Cause::Form),
    ("set mode half\nend\nstation 3", 3, Cause::After),
    ("ak\nstation x\n", 2, Cause::Form),
    ("set a.compat\n", 1, Cause::Form),
    ("set x.block 01\n", 1, Cause::Form),
    ("set b.max_resend 3\n", 1, Cause::Form),
    ("set a.embed\n", 1, Cause::Form),
    ("set x.embed on\n", 1, Cause::Form),
    ("file x 7 89 16\n", 1, Cause::Form),
    ("word b 7 0 123\n", 1, Cause::Form),
    ("md\n", 1, Cause::Form),
    ("3t\n", 1, Cause::Form),
    ("a k\n", 1, Cause::Form),
    ("ak 0000000001\n", 1, Cause::Form),
    ("ak x\n", 1, Cause::Form),
    ("ai\n", 1, Cause::Form),
    ("ai 0\n", 1, Cause::Form),
    ("ai 0G\n", 1, Cause::Form),
    ("ac 1\n", 1, Cause::Form),
    ("ac 0101\n", 1, Cause::Form),
    ("ai 9\n", 1, Cause::Form),
    ("ai 10 ZZ\n", 1, Cause::Form),
    ("ai 9 0600 1\n", 1, Cause::Form),
    ("set mode half\nstation 3\n3i 9 0600\n", 3, Cause::Form),
    ("set a.windows 1\n", 1, Cause::Form),
    ("end end\n", 1, Cause::Form),
    ("x\nak\nset mode full\n", 1, Cause::Form),
];

/// Texts with a line that may not stand there, or that names something that doesn't exist, each with its line and its
/// cause.
const MISPLACED: [(&str, u32, Cause); 44] = [
    ("set mode half\nset mode full\nend", 2, Cause::Place),
    ("set check crc\nset mode half\nend", 2, Cause::Place),
    ("# a\n\n\tset mode half\nak\nend", 4, Cause::Missing),
    ("station 3\n", 1, Cause::Place),
    ("station 16\n", 1, Cause::Place),
    ("ak\nset mode full\n", 2, Cause::Place),
    ("set mode full\nset mode full\n", 2, Cause::Place),
    ("at\nset check crc\n", 2, Cause::Place),
    ("at\nset a.node 7\n", 2, Cause::Place),
    ("file a 7 89 1\nak\nset a.compat 7\n", 3, Cause::Place),
    ("ak\nset m.compat 7\n", 2, Cause::Place),
    ("ak\nset a.block 01\n", 2, Cause::Place),
    ("bd\nfile m 7 89 0\n", 2, Cause::Place),
    ("bx\nword b 7 0 1234\n", 2, Cause::Place),
    ("file m 7 89 16\n", 1, Cause::Missing),
    ("mk\n", 1, Cause::Missing),
    ("md 3 0\n", 1, Cause::Missing),
    ("mi 3 4F00\n", 1, Cause::Missing),
    ("3k\n", 1, Cause::Missing),
    ("set b.max_resends 3\n", 1, Cause::Missing),
    ("set a.max_resends 256\n", 1, Cause::Missing),
    ("set a.poll_ticks 0\n", 1, Cause::Missing),
    ("set b.max_sends x\n", 1, Cause::Missing),
    ("file 3 1000 8A 0\n", 1, Cause::Missing),
    ("set 012.embed on\n", 1, Cause::Missing),
    ("set m.node 256\n", 1, Cause::Missing),
    ("set m.compat x\n", 1, Cause::Missing),
    ("set 3.block x\n", 1, Cause::Missing),
    ("set a.compat 7\n", 1, Cause::Missing),
    ("set a.compat 1000\n", 1, Cause::Missing),
    ("set a.compat 999999999\n", 1, Cause::Missing),
    ("file b 7 89 16\nset a.compat 7\n", 2, Cause::Missing),
    (
        "file a 7 89 16\nset a.compat 7\nset a.compat 8\n",
        3,
        Cause::Missing,
    ),
    ("word b 7 0 1234\n", 1, Cause::Missing),
    ("word b 1000 0 1234\n", 1, Cause::Missing),
    ("file b 7 89 16\nword a 7 99 1234\n", 2, Cause::Missing),
    ("mi 3 9 0600\n", 1, Cause::Missing),
    ("set mode half\nai 9 0600\n", 2, Cause::Missing),
    ("set mode half\nstation 3\nmi 9 3 0600\n", 3, Cause::Missing),
    ("set 3.window 1\n", 1, Cause::Missing),
    (
        "set mode half\nstation 3\nset 3.window 1\n",
        3,
        Cause::Missing,
    ),
    ("set m.window 17\n", 1, Cause::Missing),
    ("ak\nset a.window 2\n", 2, Cause::Place),
    ("ak\nset mode full\nx\n", 2, Cause::Place),
];

/// Texts with a number out of its range, a duplicate line, or too many commands or events, each with its line and its
/// cause.
const EXCESSIVE: [(&str, u32, Cause); 59] = [
    ("set mode half\nstation 3\nstation 03\nend", 3, Cause::Twice),
    (
        "set mode half\nstation 1\nstation 2\nmk 2000001\nend",
        4,
        Cause::Events,
    ),
    ("set check BCC\n", 1, Cause::Value),
    ("set a.embed yes\n", 1, Cause::Value),
    ("set a.node 256\n", 1, Cause::Value),
    ("set a.node 0000000001\n", 1, Cause::Value),
    ("set a.tns 65536\n", 1, Cause::Value),
    ("set a.ack_ticks 0\n", 1, Cause::Value),
    ("set b.max_naks 256\n", 1, Cause::Value),
    ("set b.max_enqs 256\n", 1, Cause::Value),
    ("set b.reply_ticks 32\n", 1, Cause::Value),
    ("set a.room 65\n", 1, Cause::Value),
    ("set a.compat x\n", 1, Cause::Value),
    ("set a.compat 0000000007\n", 1, Cause::Value),
    ("file a 7 84 16\nset a.compat 7\n", 2, Cause::Value),
    ("file a 7 86 16\nset a.compat 7\n", 2, Cause::Value),
    ("file a 7 87 16\nset a.compat 7\n", 2, Cause::Value),
    ("file a 7 88 16\nset a.compat 7\n", 2, Cause::Value),
    (
        "file a 7 89 16\nfile a 8 8A 16\nset a.compat 7\nset a.compat 8\n",
        4,
        Cause::Value,
    ),
    ("set a.block 0\n", 1, Cause::Value),
    ("set a.block 0G\n", 1, Cause::Value),
    ("set b.block 01\nset b.block on\n", 2, Cause::Value),
    ("file b 1000 89 16\n", 1, Cause::Value),
    ("file b 7 83 16\n", 1, Cause::Value),
    ("file b 7 8a 16\n", 1, Cause::Value),
    ("file b 7 089 16\n", 1, Cause::Value),
    ("file b 7 89 0\n", 1, Cause::Value),
    ("file b 7 89 1001\n", 1, Cause::Value),
    ("file b 7 89 16\nword b 7 16 1234\n", 2, Cause::Value),
    ("file b 7 84 2\nword b 7 2 1234\n", 2, Cause::Value),
    ("file b 7 85 2\nword b 7 2 1234\n", 2, Cause::Value),
    (
        "file b 7 86 2\nword b 7 5 1234\nword b 7 6 1234\n",
        3,
        Cause::Value,
    ),
    (
        "file b 7 87 2\nword b 7 5 1234\nword b 7 6 1234\n",
        3,
        Cause::Value,
    ),
    (
        "file b 7 88 2\nword b 7 5 1234\nword b 7 6 1234\n",
        3,
        Cause::Value,
    ),
    (
        "file b 7 8A 2\nword b 7 3 1234\nword b 7 4 1234\n",
        3,
        Cause::Value,
    ),
    ("ak 0\n", 1, Cause::Value),
    ("ak 4000001\n", 1, Cause::Value),
    ("ac 00\n", 1, Cause::Value),
    ("ai 4F00\n", 1, Cause::Value),
    ("set check bcc\nset check bcc\n", 2, Cause::Twice),
    (
        "set a.node 0\nset b.node 0\nset a.node 1\n",
        3,
        Cause::Twice,
    ),
    (
        "file a 7 89 1\nset a.compat 7\nset a.compat 07\n",
        3,
        Cause::Twice,
    ),
    (
        "file a 7 89 1\nset a.compat 7\nfile a 7 8A 1\n",
        3,
        Cause::Twice,
    ),
    (
        "set a.block 01\nset b.block 01\nset a.block 02\n",
        3,
        Cause::Twice,
    ),
    ("file b 7 89 16\nfile b 7 89 16\n", 2, Cause::Twice),
    ("file b 7 89 16\nfile b 007 89 0\n", 2, Cause::Value),
    (
        "file b 7 89 16\nword b 7 0 1234\nword b 07 00 5678\n",
        3,
        Cause::Twice,
    ),
    ("set a.window 17\n", 1, Cause::Value),
    ("set a.window 0\n", 1, Cause::Value),
    ("set a.window x\n", 1, Cause::Value),
    ("set b.per_source 17\n", 1, Cause::Value),
    ("set b.per_source 0\n", 1, Cause::Value),
    ("ai 256 0600\n", 1, Cause::Value),
    ("bi 9 4F00\n", 1, Cause::Value),
    ("set mode half\nstation 3\nmi 3 256 0600\n", 3, Cause::Value),
    ("set a.window 2\nset a.window 2\n", 2, Cause::Twice),
    ("set b.per_source 16\nset b.per_source 1\n", 2, Cause::Twice),
    ("ak 4000000\nat\n", 2, Cause::Events),
    ("ak 3999999\nbn 1015\n", 2, Cause::Events),
];

/// Returns the fault of a text: None if it is a script.
fn told(alloc: Global, text: &[u8]) -> Option<ScriptFault> {
    read_script(alloc, text).err()
}

/// Compares the fault of a text with its first faulty line and the first cause that fits it.
fn check<R: Abort + AllocGlobal>(rt: &R, text: &str, line: u32, cause: Cause) -> Result<(), Fail> {
    assert_eq!(rt;
        told(rt.alloc(), text.as_bytes()),
        Some(ScriptFault::At { line, cause }),
        "in {text:?}"
    );
    Ok(())
}

#[test]
fn a_line_of_no_form_and_a_text_without_an_end_are_told(rt: HostRuntime) -> Result<(), Fail> {
    for (text, line, cause) in FORMLESS {
        check(&rt, text, line, cause)?;
    }
    Ok(())
}

#[test]
fn a_line_that_may_not_stand_there_is_told(rt: HostRuntime) -> Result<(), Fail> {
    for (text, line, cause) in MISPLACED {
        check(&rt, text, line, cause)?;
    }
    Ok(())
}

#[test]
fn a_line_that_says_too_much_is_told(rt: HostRuntime) -> Result<(), Fail> {
    for (text, line, cause) in EXCESSIVE {
        check(&rt, text, line, cause)?;
    }
    Ok(())
}

#[test]
fn a_fault_is_printed_with_its_line_and_cause(rt: HostRuntime) -> Result<(), Fail> {
    let fault = ScriptFault::At {
        line: 2,
        cause: Cause::NoEnd,
    };
    let text = format!(in rt.alloc(); "{fault}")?;
    is(&rt, text.as_str(), "line 2: open");
    Ok(())
}

/// Texts at a limit and past it: the beginning, a part and how often it follows, the end, and the line and the cause if
/// the text is refused.
const LIMITS: [(&str, &str, u32, &str, Option<(u32, Cause)>); 13] = [
    ("", "ai 0600\n", 65_535, "end", None),
    ("", "ai 0600\n", 65_536, "end", Some((65_536, Cause::Spent))),
    (
        "ai 0600\n",
        "ai 9 0600\n",
        65_535,
        "end",
        Some((65_536, Cause::Spent)),
    ),
    ("ai 255 ", "06", 245, "\nend", None),
    ("ai 255 ", "06", 246, "\nend", Some((1, Cause::Value))),
    ("", "#", 1024, "\nend", None),
    ("", "#", 1024, "\r\nend", Some((1, Cause::Long))),
    ("ai ", "06", 245, "\nend", None),
    ("ai ", "06", 246, "\nend", Some((1, Cause::Value))),
    ("set a.block ", "fF", 244, "\nend", None),
    ("set a.block ", "fF", 245, "\nend", Some((1, Cause::Value))),
    ("an ", "fF", 250, "\nend", None),
    ("an ", "fF", 251, "\nend", Some((1, Cause::Value))),
];

/// Returns a text with a part repeated between two others.
fn repeated(
    alloc: Global,
    front: &str,
    part: &str,
    times: u32,
    back: &str,
) -> Result<Vec<u8>, AllocError> {
    let mut text = Vec::new(alloc);
    text.extend_from_slice(front.as_bytes())?;
    for _ in 0..times {
        text.extend_from_slice(part.as_bytes())?;
    }
    text.extend_from_slice(back.as_bytes())?;
    Ok(text)
}

#[test]
fn limits_hold_to_the_last_byte_and_command(rt: HostRuntime) -> Result<(), Fail> {
    for (front, part, times, back, fault) in LIMITS {
        let text = repeated(rt.alloc(), front, part, times, back)?;
        let expected = fault.map(|(line, cause)| ScriptFault::At { line, cause });
        assert_eq!(rt; told(rt.alloc(), &text), expected, "{times} times {part:?}");
    }
    Ok(())
}

/// Lines with the offset of their first byte, whether a line feed follows, and their cause if they are refused. Of a
/// long line the first 1,025 bytes count.
const AT_THE_END: [(usize, &[u8], bool, Option<Cause>); 7] = [
    (16_777_212, b"#12", true, None),
    (16_777_212, b"#123", false, None),
    (16_777_212, b"#123", true, Some(Cause::Size)),
    (16_777_216, b"", true, Some(Cause::Size)),
    (16_777_216, b"", false, None),
    (16_776_192, &[b'#'; 1030], true, Some(Cause::Size)),
    (16_776_191, &[b'#'; 1030], true, Some(Cause::Long)),
];

/// Returns the fault of a line that begins at this byte.
fn told_at(alloc: Global, start: usize, line: &[u8], ended: bool) -> Option<LineFault> {
    Reader::new(alloc).read(alloc, start, line, ended).err()
}

#[test]
fn byte_16777217_ends_the_text(rt: HostRuntime) -> Result<(), Fail> {
    for (start, line, ended, cause) in AT_THE_END {
        is(
            &rt,
            told_at(rt.alloc(), start, line, ended),
            cause.map(LineFault::Faulty),
        );
    }
    Ok(())
}

/// Returns the numbers of a plan that both modes have.
fn numbers(plan: &EndPlan) -> [u32; 9] {
    [
        u32::from(plan.node),
        u32::from(plan.tns),
        plan.ack_ticks,
        plan.max_naks,
        plan.max_enqs,
        plan.reply_ticks,
        plan.max_resends,
        plan.poll_ticks,
        plan.max_sends,
    ]
}

/// Compares end b of the script below.
fn check_end_b<R: Abort>(rt: &R, end: &EndPlan) -> Result<(), Fail> {
    is(rt, (end.who, end.embed, end.room), (Who::B, false, 64));
    is(rt, (end.window, end.per_source), (1, 16));
    is(rt, numbers(end), [7, 1, 10, 3, 3, 100, 3, 10, 3]);
    is(
        rt,
        (end.compat, end.block.as_slice()),
        (Some(10), b"\x01\xfe".as_slice()),
    );
    let files = [
        FileSpec {
            number: 7,
            kind: FileType::Integer,
            count: 16,
        },
        FileSpec {
            number: 10,
            kind: FileType::Bit,
            count: 1,
        },
    ];
    is(rt, end.files.as_slice(), files.as_slice());
    let who = Who::B;
    let words = [
        WordOf {
            who,
            file: 7,
            index: 15,
            value: 0x12AB,
        },
        WordOf {
            who,
            file: 10,
            index: 0,
            value: 0xFFFF,
        },
    ];
    is(rt, end.words.as_slice(), words.as_slice());
    Ok(())
}

/// An event's letter, its end or the two of its lane, the source that it names, its number, and its bytes.
type Shown = (char, Who, Option<Who>, Option<u8>, u32, &'static [u8]);

/// The events of the script below.
const EVENTS: [Shown; 10] = [
    ('i', Who::A, None, None, 7, b"\x0f\xaa"),
    ('i', Who::B, None, None, 0, b"\x06"),
    ('i', Who::A, None, Some(9), 7, b"\x06\x00"),
    ('i', Who::B, None, Some(255), 0, b"\x06"),
    ('k', Who::A, None, None, 1, b""),
    ('t', Who::B, None, None, 3, b""),
    ('d', Who::B, Some(Who::A), None, 4000, b""),
    ('x', Who::A, Some(Who::B), None, 2, b""),
    ('c', Who::A, Some(Who::B), None, 0x0F, b""),
    ('n', Who::B, Some(Who::A), None, 0, b"\x10\x15"),
];

/// Returns the letter of an event, and its end or the two of its lane.
fn place_of(event: &Event) -> (char, Who, Option<Who>) {
    match event {
        Event::Issue { who, .. } => ('i', *who, None),
        Event::Take { who, .. } => ('k', *who, None),
        Event::Deliver { lane, .. } => ('d', lane.from, Some(lane.to)),
        Event::Lose { lane, .. } => ('x', lane.from, Some(lane.to)),
        Event::Alter { lane, .. } => ('c', lane.from, Some(lane.to)),
        Event::Foreign { lane, .. } => ('n', lane.from, Some(lane.to)),
        Event::Tick { who, .. } => ('t', *who, None),
    }
}

/// Returns the source that a command names.
fn source_of(event: &Event) -> Option<u8> {
    match event {
        Event::Issue { src, .. } => *src,
        _ => None,
    }
}

/// Returns the number of an event: DST of a command, a mask, or how often it happens.
fn number_of(event: &Event) -> u32 {
    match event {
        Event::Issue { dst, .. } => u32::from(*dst),
        Event::Take { n, .. } | Event::Deliver { n, .. } => *n,
        Event::Lose { n, .. } | Event::Tick { n, .. } => *n,
        Event::Alter { mask, .. } => u32::from(*mask),
        Event::Foreign { .. } => 0,
    }
}

/// Returns the bytes of an event.
fn bytes_of(event: &Event) -> &[u8] {
    match event {
        Event::Issue { payload, .. } => payload.as_slice(),
        Event::Foreign { bytes, .. } => bytes.as_slice(),
        _ => &[],
    }
}

/// Compares the events of the script below.
fn check_events<R: Abort>(rt: &R, events: &[Event]) -> Result<(), Fail> {
    is(rt, events.len(), EVENTS.len());
    for (event, (letter, who, to, src, number, bytes)) in events.iter().zip(EVENTS) {
        is(rt, place_of(event), (letter, who, to));
        is(rt, source_of(event), src);
        is(rt, number_of(event), number);
        is(rt, bytes_of(event), bytes);
    }
    Ok(())
}

/// Compares the script below.
fn check_script<R: Abort>(rt: &R, script: &Script) -> Result<(), Fail> {
    is(rt, (script.half, script.check), (false, Check::Crc));
    let [a, b] = script.ends.as_slice() else {
        return Err(Fail::new("there are not two ends"));
    };
    is(
        rt,
        (a.who, a.embed, a.room, a.compat),
        (Who::A, true, 2, None),
    );
    is(rt, (a.window, a.per_source), (2, 3));
    is(rt, numbers(a), [0, 1, 10, 3, 3, 100, 3, 10, 3]);
    is(
        rt,
        (
            a.block.as_slice().len(),
            a.files.as_slice().len(),
            a.words.as_slice().len(),
        ),
        (0, 0, 0),
    );
    check_end_b(rt, b)?;
    check_events(rt, script.events.as_slice())
}

#[test]
fn a_script_says_what_its_lines_say(rt: HostRuntime) -> Result<(), Fail> {
    let text =
        "# a script\r\nset mode full\r\n\tset check\tcrc \nset a.embed on\nset a.window 2\nset a.per_source 3\nset b.node 7\n set b.room 64\n\
        file b 7 89 16\nfile b 010 85 1\nword b 7 15 12aB\nword b 10 0 fFfF\n\
        set b.compat 0010\nset b.block 01fE\n\n\
        ai 0fAA\nbi 06\nai 9 0600\nbi\t255  06\nak\nbt 03\nbd 4000\nax 2\nac 0f\nbn 1015\nend\n# more\n";
    let script = read_script(rt.alloc(), text.as_bytes())?;
    check_script(&rt, &script)
}

#[test]
fn the_first_line_may_choose_half_duplex(rt: HostRuntime) -> Result<(), Fail> {
    let text = "set mode half\nstation 254\nstation 3\nmi 254 0fAA\n3k 2\nend";
    let script = read_script(rt.alloc(), text.as_bytes())?;
    let counts = (
        script.half,
        script.ends.as_slice().len(),
        script.events.as_slice().len(),
    );
    is(&rt, counts, (true, 3, 2));
    Ok(())
}
