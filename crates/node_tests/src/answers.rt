//! Tests of what a station answers: a table of commands, each to a fresh station.
use crate::equal::is;
use arrayvec::ArrayVec;
use df1_base::FileType;
use df1_node::{FileSpec, MakeFault, Station, Tables};
use std::alloc::Global;
use std::process::Abort;
use std::test::Fail;

/// Values of words, by the number of the file and the index.
type Words = &'static [(u16, u32, u16)];

/// CMD, what follows TNS, STS of the reply, what follows TNS in the reply, and the words that change.
type Answer = (u8, &'static [u8], u8, &'static [u8], Words);

/// The number of the compatibility file.
const COMPAT: u16 = 7;

/// The data of the status reply.
const BLOCK: &[u8] = b"\x01\x02";

/// The initial words of the tables.
const FIRST: Words = &[(7, 0, 0x1234), (7, 1, 0x5678)];

const ANSWERS: [Answer; 35] = [
    (0x06, b"\x00\xE2", 0x00, b"\xE2", &[]),
    (0x06, b"\x03", 0x00, b"\x01\x02", &[]),
    (0x06, b"\x04", 0x10, b"", &[]),
    (0x06, b"", 0x10, b"", &[]),
    (0x0F, b"\xA2\x02\x07\x89\x00\x00", 0x00, b"\x34\x12", &[]),
    (0x0F, b"\xA1\x02\x07\x89\x01", 0x00, b"\x78\x56", &[]),
    (
        0x0F,
        b"\xAA\x02\x07\x89\x02\x00\xCD\xAB",
        0x00,
        b"",
        &[(7, 2, 0xABCD)],
    ),
    (
        0x0F,
        b"\xA9\x02\x07\x89\x02\xCD\xAB",
        0x00,
        b"",
        &[(7, 2, 0xABCD)],
    ),
    (0x0F, b"\xA2\x03\x07\x89\x00\x00", 0xF0, b"\x01", &[]),
    (0x0F, b"\xA2\xF6\x07\x89\x00\x00", 0xF0, b"\x09", &[]),
    (0x0F, b"\xA2\x02\x09\x89\x00\x00", 0xF0, b"\x06", &[]),
    (0x0F, b"\xA2\x02\x07\x8A\x00\x00", 0xF0, b"\x11", &[]),
    (0x0F, b"\xA2\x02\x07\x89\x00\x01", 0xF0, b"\x06", &[]),
    (0x0F, b"\xA2\x02\x07\x89\x10\x00", 0xF0, b"\x0A", &[]),
    (
        0x0F,
        b"\xAA\x02\x02\x84\x00\x00\x01\x00",
        0xF0,
        b"\x0B",
        &[],
    ),
    (
        0x0F,
        b"\xAB\x02\x07\x89\x00\x00\xFF\x00\xCD\xAB",
        0x00,
        b"",
        &[(7, 0, 0x12CD)],
    ),
    (
        0x0F,
        b"\x26\x06\x07\x00\xFF\x00\x00\x56",
        0x00,
        b"",
        &[(7, 0, 0x5634)],
    ),
    (
        0x0F,
        b"\x26\x06\x07\x00\xFF\x00\x00\x56\x06\x07\x10\xFF\xFF\x00\x00",
        0xF0,
        b"\x0A",
        &[],
    ),
    (
        0x0F,
        b"\x01\x00\x00\x02\x00\x06\x07\x00\x04",
        0x00,
        b"\x34\x12\x78\x56",
        &[],
    ),
    (
        0x0F,
        b"\x00\x01\x00\x02\x00\x06\x07\x00\xCD\xAB",
        0x00,
        b"",
        &[(7, 1, 0xABCD)],
    ),
    (
        0x0F,
        b"\x00\x02\x00\x02\x00\x06\x07\x00\xCD\xAB",
        0xF0,
        b"\x0A",
        &[],
    ),
    (
        0x0F,
        b"\x68\x00\x00\x02\x00\x06\x07\x00\x02\x00",
        0x00,
        b"\x99\x09\x05\x42\x34\x12\x78\x56",
        &[],
    ),
    (
        0x0F,
        b"\x67\x00\x00\x02\x00\x06\x07\x00\x99\x09\x05\x42\xCD\xAB\x01\x00",
        0x00,
        b"",
        &[(7, 0, 0xABCD), (7, 1, 0x0001)],
    ),
    (
        0x0F,
        b"\x68\x00\x00\x01\x00\x06\x08\x00\x01\x00",
        0x00,
        b"\x99\x09\x06\x94\x08\x00\x00\x00\x00",
        &[],
    ),
    (
        0x0F,
        b"\x68\x00\x00\x01\x00\x06\x04\x00\x01\x00",
        0xF0,
        b"\x11",
        &[],
    ),
    (
        0x0F,
        b"\x01\x00\x00\x01\x00\x02\x07\x02",
        0xF0,
        b"\x02",
        &[],
    ),
    (
        0x0F,
        b"\x01\x00\x00\x01\x00\x16\x07\x00\x02",
        0xF0,
        b"\x03",
        &[],
    ),
    (0x01, b"\x00\x00\x02", 0x00, b"\x34\x12", &[]),
    (0x08, b"\x01\x00\x01\x00", 0x50, b"", &[]),
    (0x01, b"\x20\x00\x02", 0x50, b"", &[]),
    (
        0x0F,
        b"\xA2\x02\x07\x89\xFF\x01\x00\x00",
        0x00,
        b"\x78\x56",
        &[],
    ),
    (0x0F, b"\x99", 0x10, b"", &[]),
    (0x0F, b"\xA3\x02\x07\x89\x00\x00", 0x10, b"", &[]),
    (0x0F, b"", 0x10, b"", &[]),
    (0x00, b"\x00\x00\x01\x00", 0x10, b"", &[]),
];

fn worked_tables(alloc: Global, words: &[(u16, u32, u16)]) -> Result<Tables, MakeFault> {
    let files = [
        (7, FileType::Integer, 16),
        (8, FileType::Float, 2),
        (2, FileType::Status, 4),
        (4, FileType::Timer, 2),
    ]
    .map(|(number, kind, count)| FileSpec {
        number,
        kind,
        count,
    });
    let mut tables = Tables::new(alloc, &files)?;
    for (file, index, value) in words {
        let _ = tables.set(*file, *index, *value);
    }
    Ok(tables)
}

fn station_of(tables: Tables) -> Station {
    match tables.spec(COMPAT) {
        Some(spec) if spec.holds_words() => Station::new(tables, Some(COMPAT), BLOCK),
        _ => Station::new(tables, None, BLOCK),
    }
}

// Sends the command to a fresh station with these words, and compares the whole reply and all words.
fn answers(rt: &impl Abort, alloc: Global, first: Words, answer: &Answer) -> Result<(), Fail> {
    let station = station_of(worked_tables(alloc, first)?);
    answers_of(rt, alloc, station, first, answer)
}

fn answers_of(
    rt: &impl Abort,
    alloc: Global,
    mut station: Station,
    first: Words,
    answer: &Answer,
) -> Result<(), Fail> {
    let (cmd, payload, sts, data, changed) = *answer;
    let mut after = worked_tables(alloc, first)?;
    for (file, index, value) in changed {
        is(rt, after.set(*file, *index, *value), true);
    }
    let mut body = vec![in alloc; 0x01, 0x00, cmd, 0x00, 0x01, 0x00]?;
    body.extend_from_slice(payload)?;
    let mut wanted = vec![in alloc; 0x00, 0x01, cmd | 0x40, sts, 0x01, 0x00]?;
    wanted.extend_from_slice(data)?;
    let mut reply = ArrayVec::new();
    assert!(rt; body.len() >= 6 && body.len() <= 250);
    assert!(rt; !pccc_envelope::is_reply(&body));
    station.answer(&body, &mut reply);
    assert_eq!(rt;
        reply.as_slice(),
        wanted.as_slice(),
        "to {cmd:02X} {payload:?}"
    );
    assert_eq!(rt;
        station.tables().flat(),
        after.flat(),
        "after {cmd:02X} {payload:?}"
    );
    Ok(())
}

#[test]
fn a_station_answers_by_the_table(rt: HostRuntime) -> Result<(), Fail> {
    for answer in &ANSWERS {
        answers(&rt, rt.alloc(), FIRST, answer)?;
    }
    Ok(())
}

#[test]
fn a_change_is_made_whole_or_not_at_all(rt: HostRuntime) -> Result<(), Fail> {
    let rows: [Answer; 2] = [
        (
            0x0F,
            b"\x26\x06\x07\x00\xFF\x00\x00\x12",
            0x00,
            b"",
            &[(7, 0, 0x1256)],
        ),
        (
            0x0F,
            b"\x26\x06\x07\x00\xFF\x00\x00\x12\x06\x07\x10\xFF\xFF\x00\x00",
            0xF0,
            b"\x0A",
            &[],
        ),
    ];
    for row in &rows {
        answers(&rt, rt.alloc(), &[(7, 0, 0x3456)], row)?;
    }
    Ok(())
}

#[test]
fn no_command_writes_a_locked_file(rt: HostRuntime) -> Result<(), Fail> {
    // Files 7, the compatibility file, and 9, which doesn't exist, are locked.
    let rows: [Answer; 11] = [
        (0x0F, b"\xA2\x02\x07\x89\x00\x00", 0x00, b"\x34\x12", &[]),
        (0x01, b"\x00\x00\x02", 0x00, b"\x34\x12", &[]),
        (0x0F, b"\xA9\x02\x07\x89\x00\xCD\xAB", 0xF0, b"\x0B", &[]),
        (
            0x0F,
            b"\xAA\x02\x07\x89\x00\x00\xCD\xAB",
            0xF0,
            b"\x0B",
            &[],
        ),
        (
            0x0F,
            b"\xAB\x02\x07\x89\x00\x00\xFF\x00\xCD\xAB",
            0xF0,
            b"\x0B",
            &[],
        ),
        (
            0x0F,
            b"\xAA\x02\x09\x89\x00\x00\xCD\xAB",
            0xF0,
            b"\x0B",
            &[],
        ),
        (
            0x0F,
            b"\x00\x00\x00\x01\x00\x06\x07\x00\xCD\xAB",
            0xF0,
            b"\x0B",
            &[],
        ),
        (
            0x0F,
            b"\x67\x00\x00\x02\x00\x06\x07\x00\x99\x09\x05\x42\xCD\xAB\x01\x00",
            0xF0,
            b"\x0B",
            &[],
        ),
        (
            0x0F,
            b"\x26\x0E\x04\x00\x01\xFF\xFF\x03\x00\x06\x07\x00\xFF\xFF\x00\x00",
            0xF0,
            b"\x0B",
            &[],
        ),
        (0x08, b"\x00\x00\xCD\xAB", 0x50, b"", &[]),
        (
            0x0F,
            b"\xAA\x02\x04\x86\x00\x01\x05\x00",
            0x00,
            b"",
            &[(4, 1, 0x0005)],
        ),
    ];
    for row in &rows {
        let mut station = station_of(worked_tables(rt.alloc(), FIRST)?);
        station.lock(&[7, 9]);
        answers_of(&rt, rt.alloc(), station, FIRST, row)?;
    }
    Ok(())
}

#[test]
fn a_file_that_is_locked_no_more_is_written(rt: HostRuntime) -> Result<(), Fail> {
    let row: Answer = (
        0x0F,
        b"\xAA\x02\x07\x89\x00\x00\xCD\xAB",
        0x00,
        b"",
        &[(7, 0, 0xABCD)],
    );
    let mut station = station_of(worked_tables(rt.alloc(), FIRST)?);
    station.lock(&[7]);
    station.lock(&[4]);
    answers_of(&rt, rt.alloc(), station, FIRST, &row)
}
