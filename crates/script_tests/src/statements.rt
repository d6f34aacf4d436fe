//! Tests of the words of a line, and of the statement that they make.

use crate::equal::is;
use df1_base::FileType;
use end_settings::{EndKey, Setting};
use script_statement::{
    EndLetter, EndName, HalfEvent, SetupStatement, Statement, Verb, Way, first_words, statement_of,
};
use std::alloc::Global;
use std::test::Fail;

/// Returns the statement of a line, if it is one of the forms and there is memory.
fn said(alloc: Global, line: &str) -> Option<Statement> {
    statement_of(alloc, &first_words(line.as_bytes())).ok()?
}

#[test]
fn blanks_and_tabs_part_words(rt: HostRuntime) {
    let words = first_words(b" set\ta.room  64\r");
    is(&rt, words.len(), 3);
    is(&rt, words[0], b"set".as_slice());
    is(&rt, words[1], b"a.room".as_slice());
    is(&rt, words[2], b"64\r".as_slice());
    is(&rt, first_words(b"\t ").len(), 0);
    is(&rt, first_words(b"word a 7 0 0000 ").len(), 5);
    is(&rt, first_words(b"a b c d e f g").len(), 6);
}

#[test]
fn a_line_says_its_statement(rt: HostRuntime) -> Result<(), Fail> {
    let alloc = rt.alloc();
    let (last, lost, issued, block) = (
        said(alloc, "end"),
        said(alloc, "bx 007"),
        said(alloc, "ai 0fAA"),
        said(alloc, "set m.block 01Fe"),
    );
    is(&rt, matches!(&last, Some(Statement::End)), true);
    is(
        &rt,
        matches!(
            &lost,
            Some(Statement::Times {
                side: EndLetter::B,
                verb: Verb::Lose,
                n: Some(7)
            })
        ),
        true,
    );
    assert!(rt;
        matches!(&issued, Some(Statement::Issue { side: EndLetter::A, payload: Some(payload) }) if payload.as_slice() == b"\x0f\xaa".as_slice())
    );
    assert!(rt;
        matches!(&block, Some(Statement::Setup { end: EndName::Master, line: SetupStatement::Block(Some(bytes)) }) if bytes.as_slice() == b"\x01\xfe".as_slice())
    );
    is(&rt, said(alloc, "").is_none(), true);
    Ok(())
}

/// Lines of a half-duplex line with a count: the verb's letter, the way if it is one of a queue, and the number.
const COUNTED: [(&str, (char, Option<Way>, Option<u32>)); 18] = [
    ("mk", ('k', None, Some(1))),
    ("mk 4000000", ('k', None, Some(4_000_000))),
    ("mk 4000001", ('k', None, None)),
    ("mt", ('t', None, Some(1))),
    ("mt 0", ('t', None, None)),
    ("md 3", ('d', Some(Way::ToStation(3)), Some(1))),
    ("md 003 07", ('d', Some(Way::ToStation(3)), Some(7))),
    (
        "md 999999999 7",
        ('d', Some(Way::ToStation(999_999_999)), Some(7)),
    ),
    ("mx 254", ('x', Some(Way::ToStation(254)), Some(1))),
    ("mx 16 0", ('x', Some(Way::ToStation(16)), None)),
    ("3k", ('K', Some(Way::ToMaster(3)), Some(1))),
    ("03k 20", ('K', Some(Way::ToMaster(3)), Some(20))),
    ("12d", ('d', Some(Way::ToMaster(12)), Some(1))),
    ("12d 5", ('d', Some(Way::ToMaster(12)), Some(5))),
    ("000000012d 5", ('d', Some(Way::ToMaster(12)), Some(5))),
    ("0x", ('x', Some(Way::ToMaster(0)), Some(1))),
    (
        "300x 4000000",
        ('x', Some(Way::ToMaster(300)), Some(4_000_000)),
    ),
    ("300x 0", ('x', Some(Way::ToMaster(300)), None)),
];

/// Returns what a line counts, if it is such a line.
fn counted(alloc: Global, line: &str) -> Option<(char, Option<Way>, Option<u32>)> {
    let Statement::Half(event) = said(alloc, line)? else {
        return None;
    };
    match event {
        HalfEvent::MasterTake { n } => Some(('k', None, n)),
        HalfEvent::MasterTick { n } => Some(('t', None, n)),
        HalfEvent::StationTake { station, n } => Some(('K', Some(Way::ToMaster(station)), n)),
        HalfEvent::Deliver { way, n } => Some(('d', Some(way), n)),
        HalfEvent::Lose { way, n } => Some(('x', Some(way), n)),
        _ => None,
    }
}

#[test]
fn a_line_counts_events_of_a_half_duplex_line(rt: HostRuntime) {
    for (line, what) in COUNTED {
        assert_eq!(rt; counted(rt.alloc(), line), Some(what), "in {line:?}");
    }
}

#[test]
fn a_line_gives_bytes_to_a_half_duplex_line(rt: HostRuntime) {
    let alloc = rt.alloc();
    assert!(rt;
        matches!(&said(alloc, "mi 3 0fAA"), Some(Statement::Half(HalfEvent::Issue { station: 3, payload: Some(bytes) })) if bytes.as_slice() == b"\x0f\xaa".as_slice())
    );
    is(
        &rt,
        matches!(
            &said(alloc, "mi 16 4F00"),
            Some(Statement::Half(HalfEvent::Issue {
                station: 16,
                payload: None
            }))
        ),
        true,
    );
    assert!(rt;
        matches!(&said(alloc, "mn 03 10Ff"), Some(Statement::Half(HalfEvent::Foreign { way: Way::ToStation(3), bytes: Some(bytes) })) if bytes.as_slice() == b"\x10\xff".as_slice())
    );
    assert!(rt;
        matches!(&said(alloc, "03n 10Ff"), Some(Statement::Half(HalfEvent::Foreign { way: Way::ToMaster(3), bytes: Some(bytes) })) if bytes.as_slice() == b"\x10\xff".as_slice())
    );
    is(
        &rt,
        matches!(
            &said(alloc, "mc 3 0f"),
            Some(Statement::Half(HalfEvent::Alter {
                way: Way::ToStation(3),
                mask: Some(15)
            }))
        ),
        true,
    );
    is(
        &rt,
        matches!(
            &said(alloc, "3c F0"),
            Some(Statement::Half(HalfEvent::Alter {
                way: Way::ToMaster(3),
                mask: Some(240)
            }))
        ),
        true,
    );
    is(
        &rt,
        matches!(
            &said(alloc, "3c 00"),
            Some(Statement::Half(HalfEvent::Alter {
                way: Way::ToMaster(3),
                mask: None
            }))
        ),
        true,
    );
}

/// The command that a line issues: its end of a full-duplex link or its station, the source that it names, and whether
/// its payload is valid.
type Issued = (Option<EndLetter>, Option<u32>, Option<Option<u8>>, bool);

/// Lines that issue a command: the end or the station, the source if the line names one, which is None if it is out of
/// its range, and whether there is a payload.
const ISSUED: [(&str, Issued); 11] = [
    ("ai 0600", (Some(EndLetter::A), None, None, true)),
    ("ai 9 0600", (Some(EndLetter::A), None, Some(Some(9)), true)),
    ("bi 000 06", (Some(EndLetter::B), None, Some(Some(0)), true)),
    (
        "bi 255 0fAA",
        (Some(EndLetter::B), None, Some(Some(255)), true),
    ),
    ("ai 256 0600", (Some(EndLetter::A), None, Some(None), true)),
    (
        "ai 999999999 4F00",
        (Some(EndLetter::A), None, Some(None), false),
    ),
    (
        "ai 9 4F00",
        (Some(EndLetter::A), None, Some(Some(9)), false),
    ),
    ("mi 3 0600", (None, Some(3), None, true)),
    ("mi 3 9 0600", (None, Some(3), Some(Some(9)), true)),
    ("mi 999 255 0600", (None, Some(999), Some(Some(255)), true)),
    ("mi 3 256 4F00", (None, Some(3), Some(None), false)),
];

/// Returns the command that a line issues.
fn issued(alloc: Global, line: &str) -> Option<Issued> {
    match said(alloc, line)? {
        Statement::Issue { side, payload } => Some((Some(side), None, None, payload.is_some())),
        Statement::IssueFrom { side, src, payload } => {
            Some((Some(side), None, Some(src), payload.is_some()))
        }
        Statement::Half(HalfEvent::Issue { station, payload }) => {
            Some((None, Some(station), None, payload.is_some()))
        }
        Statement::Half(
            HalfEvent::IssueFrom {
                station,
                src,
                payload,
            },
        ) => Some((None, Some(station), Some(src), payload.is_some())),
        _ => None,
    }
}

#[test]
fn a_line_issues_a_command_in_the_name_of_a_source(rt: HostRuntime) {
    for (line, command) in ISSUED {
        assert!(rt; issued(rt.alloc(), line) == Some(command), "in {line:?}");
    }
}

/// Lines that are none of the forms, though others like them are.
const FORMLESS: [&str; 56] = [
    "3t",
    "3t 1",
    "3i",
    "3i 0600",
    "k",
    "0000000001k",
    "12",
    "m",
    "md",
    "mx",
    "mi",
    "mc 01",
    "mn 01",
    "mi 0600",
    "md x",
    "md x 1",
    "md 3 x",
    "mx 0000000003",
    "mk 3 4",
    "mt x",
    "mt 3 4",
    "mi 3 0",
    "mi x 06",
    "mi 3 0g",
    "mc 3 1",
    "mc 3 0101",
    "mn 3 0g",
    "3k x",
    "3k 1 2",
    "3d 0000000001",
    "3c 1",
    "3n 0",
    "3x 1 2",
    "a3k",
    "m3d",
    "station",
    "station x",
    "station 0000000001",
    "station 3 4",
    "set mode Half",
    "3i 9 0600",
    "3i 4 9 0600",
    "ai 9",
    "ai x 0600",
    "ai 0000000009 0600",
    "ai 10 ZZ",
    "ai 9 060",
    "ai 9 0600 1",
    "ai 3 9 0600",
    "ak 9 1",
    "an 9 1015",
    "mi x 9 0600",
    "mi 3 x 0600",
    "mi 3 9 0",
    "mi 3 9 0600 1",
    "mn 3 9 1015",
];

#[test]
fn what_is_like_a_form_is_none(rt: HostRuntime) {
    for line in FORMLESS {
        assert!(rt; said(rt.alloc(), line).is_none(), "in {line:?}");
    }
}

/// Words after `station`, with their number: None if no station has it.
const STATIONS: [(&str, Option<u8>); 8] = [
    ("0", Some(0)),
    ("003", Some(3)),
    ("15", Some(15)),
    ("16", None),
    ("17", Some(17)),
    ("254", Some(254)),
    ("255", None),
    ("999999999", None),
];

#[test]
fn a_station_has_a_number_to_254_and_not_16(rt: HostRuntime) {
    for (word, number) in STATIONS {
        let words = [b"station".as_slice(), word.as_bytes()];
        assert!(rt;
            matches!(statement_of(rt.alloc(), &words), Ok(Some(Statement::Station(got))) if got == number),
            "in {word:?}"
        );
    }
}

/// Lines that set something, with the end, the key and the value.
const SETTINGS: [(&str, EndName, EndKey, Option<u32>); 20] = [
    (
        "set a.embed off",
        EndName::Known(EndLetter::A),
        EndKey::Embed,
        Some(0),
    ),
    ("set m.node 255", EndName::Master, EndKey::Node, Some(255)),
    ("set m.node 256", EndName::Master, EndKey::Node, None),
    (
        "set b.tns 65535",
        EndName::Known(EndLetter::B),
        EndKey::Tns,
        Some(65_535),
    ),
    (
        "set m.ack_ticks 1000000",
        EndName::Master,
        EndKey::AckTicks,
        Some(1_000_000),
    ),
    (
        "set a.max_naks 0",
        EndName::Known(EndLetter::A),
        EndKey::MaxNaks,
        Some(0),
    ),
    (
        "set a.max_enqs 255",
        EndName::Known(EndLetter::A),
        EndKey::MaxEnqs,
        Some(255),
    ),
    (
        "set m.reply_ticks 33",
        EndName::Master,
        EndKey::ReplyTicks,
        Some(33),
    ),
    (
        "set m.max_resends 255",
        EndName::Master,
        EndKey::MaxResends,
        Some(255),
    ),
    (
        "set 3.max_resends 256",
        EndName::Station(3),
        EndKey::MaxResends,
        None,
    ),
    (
        "set m.poll_ticks 1",
        EndName::Master,
        EndKey::PollTicks,
        Some(1),
    ),
    (
        "set m.poll_ticks 0",
        EndName::Master,
        EndKey::PollTicks,
        None,
    ),
    (
        "set 012.max_sends 255",
        EndName::Station(12),
        EndKey::MaxSends,
        Some(255),
    ),
    (
        "set 12.max_sends 0",
        EndName::Station(12),
        EndKey::MaxSends,
        None,
    ),
    (
        "set 999999999.room 2",
        EndName::Station(999_999_999),
        EndKey::Room,
        Some(2),
    ),
    ("set m.room 65", EndName::Master, EndKey::Room, None),
    ("set m.window 16", EndName::Master, EndKey::Window, Some(16)),
    (
        "set a.window 17",
        EndName::Known(EndLetter::A),
        EndKey::Window,
        None,
    ),
    (
        "set b.per_source 1",
        EndName::Known(EndLetter::B),
        EndKey::PerSource,
        Some(1),
    ),
    (
        "set m.per_source 0",
        EndName::Master,
        EndKey::PerSource,
        None,
    ),
];

#[test]
fn a_line_sets_what_an_end_has(rt: HostRuntime) {
    for (line, end, key, value) in SETTINGS {
        assert!(rt;
            matches!(said(rt.alloc(), line), Some(Statement::Setup { end: got, line: SetupStatement::Set(set) }) if got == end && set == (Setting { key, value })),
            "in {line:?}"
        );
    }
}

/// The words that name types, and similar words that don't.
const TYPES: [(&str, Option<FileType>); 12] = [
    ("84", Some(FileType::Status)),
    ("85", Some(FileType::Bit)),
    ("86", Some(FileType::Timer)),
    ("87", Some(FileType::Counter)),
    ("88", Some(FileType::Control)),
    ("89", Some(FileType::Integer)),
    ("8A", Some(FileType::Float)),
    ("83", None),
    ("8B", None),
    ("8a", None),
    ("089", None),
    ("8", None),
];

/// Returns the type of the file that a line declares, if it is such a line and its word names one.
fn type_of(alloc: Global, word: &str) -> Option<Option<FileType>> {
    let words = [b"file".as_slice(), b"a", b"7", word.as_bytes(), b"2"];
    match statement_of(alloc, &words) {
        Ok(
            Some(
                Statement::Setup {
                    line: SetupStatement::File(spec),
                    ..
                },
            ),
        ) => Some(spec.map(|file| file.kind)),
        _ => None,
    }
}

#[test]
fn a_type_is_named_letter_for_letter(rt: HostRuntime) {
    for (word, kind) in TYPES {
        is(&rt, type_of(rt.alloc(), word), Some(kind));
    }
}

/// Words that name a compatibility file: None for one that isn't a number, None inside for a number that no file has.
const COMPATS: [(&str, Option<Option<u16>>); 7] = [
    ("7", Some(Some(7))),
    ("0", Some(Some(0))),
    ("000000999", Some(Some(999))),
    ("1000", Some(None)),
    ("999999999", Some(None)),
    ("1000000000", None),
    ("N7", None),
];

/// Returns the file that a line makes the compatibility file of end b, if it is such a line.
fn compat_of(alloc: Global, word: &str) -> Option<Option<Option<u16>>> {
    let words = [b"set".as_slice(), b"b.compat", word.as_bytes()];
    match statement_of(alloc, &words) {
        Ok(
            Some(
                Statement::Setup {
                    end: EndName::Known(EndLetter::B),
                    line: SetupStatement::Compat(file),
                },
            ),
        ) => Some(file),
        _ => None,
    }
}

#[test]
fn a_compatibility_file_is_named_by_its_number(rt: HostRuntime) {
    for (word, file) in COMPATS {
        assert_eq!(rt; compat_of(rt.alloc(), word), Some(file), "in {word:?}");
    }
}

/// The number of pairs of digits of a block, and whether they make a block.
const BLOCKS: [(usize, bool); 4] = [(0, false), (1, true), (244, true), (245, false)];

/// Returns the length of the block that a line with this value sets for end a, if it is such a line.
fn block_of(alloc: Global, value: &[u8]) -> Option<Option<usize>> {
    let words = [b"set".as_slice(), b"a.block", value];
    match statement_of(alloc, &words) {
        Ok(
            Some(
                Statement::Setup {
                    end: EndName::Known(EndLetter::A),
                    line: SetupStatement::Block(bytes),
                },
            ),
        ) => Some(bytes.map(|block| block.as_slice().len())),
        _ => None,
    }
}

#[test]
fn a_block_has_1_to_244_bytes(rt: HostRuntime) -> Result<(), Fail> {
    let alloc = rt.alloc();
    for (pairs, is_block) in BLOCKS {
        let mut digits = Vec::new(alloc);
        for _ in 0..pairs {
            digits.extend_from_slice(b"0f")?;
        }
        let want = if is_block { Some(pairs) } else { None };
        assert_eq!(rt; block_of(alloc, &digits), Some(want), "at {pairs}");
    }
    is(&rt, block_of(alloc, b"0f0"), Some(None));
    is(&rt, block_of(alloc, b"on"), Some(None));
    Ok(())
}
