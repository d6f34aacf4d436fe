//! Tests of orders of known payloads on known tables: their decoding and execution.
use crate::equal::is;
use arrayvec::ArrayVec;
use data_files::{FileSpec, MakeFault, Tables};
use df1_base::{Code, FileType};
use plc_commands::{PlcOrder, do_plc, read_plc};
use std::alloc::Global;
use std::test::Fail;

const ILLEGAL: Code = Code::Sts(0x10);

const BAD_ADDRESS: Code = Code::Sts(0x50);

const NO_COMPATIBILITY_FILE: Code = Code::Sts(0x80);

const BAD_SIZE: Code = Code::Ext(0x01);

const TOO_FEW_LEVELS: Code = Code::Ext(0x02);

const TOO_MANY_LEVELS: Code = Code::Ext(0x03);

const NO_PLACE: Code = Code::Ext(0x06);

const TOO_LARGE: Code = Code::Ext(0x09);

const PAST_THE_END: Code = Code::Ext(0x0A);

const READ_ONLY: Code = Code::Ext(0x0B);

const OTHER_TYPE: Code = Code::Ext(0x11);

/// The number of the compatibility file.
const COMPAT: Option<u16> = Some(7);

fn worked_tables(alloc: Global) -> Result<Tables, MakeFault> {
    let files = [
        (7, FileType::Integer, 16),
        (8, FileType::Float, 2),
        (2, FileType::Status, 4),
        (4, FileType::Timer, 2),
        (10, FileType::Integer, 1000),
    ]
    .map(|(number, kind, count)| FileSpec {
        number,
        kind,
        count,
    });
    let mut tables = Tables::new(alloc, &files)?;
    tables.set_words(7, 0, &[0x1234, 0x5678]);
    Ok(tables)
}

fn answer(
    tables: &mut Tables,
    compat: Option<u16>,
    (cmd, payload): (u8, &[u8]),
    out: &mut ArrayVec<u8, 244>,
) -> Code {
    if payload.len() > 244 {
        return Code::Sts(0xFF);
    }
    match read_plc(cmd, payload) {
        Ok(order) => do_plc(tables, compat, &[0x01, 0x02], &order, out),
        Err(code) => code,
    }
}

#[test]
fn orders_give_their_data(rt: HostRuntime) -> Result<(), Fail> {
    let rows: [(u8, &[u8], &[u8]); 12] = [
        (0x06, &[0x00, 0xE2], &[0xE2]),
        (0x06, &[0x00], &[]),
        (0x06, &[0x03], &[0x01, 0x02]),
        (0x01, &[0, 0, 2], &[0x34, 0x12]),
        (0x01, &[2, 0, 4], &[0x78, 0x56, 0, 0]),
        (0x01, &[30, 0, 2], &[0, 0]),
        (
            0x0F,
            &[0x01, 0, 0, 2, 0, 6, 7, 0, 4],
            &[0x34, 0x12, 0x78, 0x56],
        ),
        // an offset of one word
        (0x0F, &[0x01, 1, 0, 2, 0, 6, 7, 0, 2], &[0x78, 0x56]),
        (0x0F, &[0x01, 0, 0, 1, 0, 0x0E, 4, 1, 2, 2], &[0, 0]),
        (
            0x0F,
            &[0x68, 0, 0, 2, 0, 6, 7, 0, 2, 0],
            &[0x99, 9, 5, 0x42, 0x34, 0x12, 0x78, 0x56],
        ),
        (
            0x0F,
            &[0x68, 1, 0, 2, 0, 6, 7, 0, 1, 0],
            &[0x99, 9, 3, 0x42, 0x78, 0x56],
        ),
        (
            0x0F,
            &[0x68, 0, 0, 1, 0, 6, 8, 0, 1, 0],
            &[0x99, 9, 6, 0x94, 8, 0, 0, 0, 0],
        ),
    ];
    let mut tables = worked_tables(rt.alloc())?;
    for (cmd, payload, data) in rows {
        let mut out = ArrayVec::new();
        is(
            &rt,
            answer(&mut tables, COMPAT, (cmd, payload), &mut out),
            Code::Done,
        );
        is(&rt, out.as_slice(), data);
    }
    Ok(())
}

#[test]
fn orders_change_their_words(rt: HostRuntime) -> Result<(), Fail> {
    let rows: [(u8, &[u8], u16, u32, u16); 13] = [
        (0x08, &[2, 0, 0xCD, 0xAB], 7, 1, 0xABCD),
        (0x0F, &[0x00, 1, 0, 2, 0, 6, 7, 0, 0xCD, 0xAB], 7, 1, 0xABCD),
        (0x0F, &[0x00, 0, 0, 1, 0, 0x0E, 4, 1, 2, 7, 0], 4, 5, 7),
        (0x0F, &[0x26, 6, 7, 0, 0xFF, 0, 0, 0x56], 7, 0, 0x5634),
        // two sets on the same word
        (
            0x0F,
            &[0x26, 6, 7, 0, 0xFF, 0, 0, 0x56, 6, 7, 0, 0xF0, 0xFF, 1, 0],
            7,
            0,
            0x5631,
        ),
        (
            0x0F,
            &[
                0x67, 0, 0, 2, 0, 6, 7, 0, 0x99, 9, 5, 0x42, 0xCD, 0xAB, 1, 0,
            ],
            7,
            0,
            0xABCD,
        ),
        (
            0x0F,
            &[
                0x67, 0, 0, 2, 0, 6, 7, 0, 0x99, 9, 5, 0x42, 0xCD, 0xAB, 1, 0,
            ],
            7,
            1,
            0x0001,
        ),
        (
            0x0F,
            &[0x67, 0, 0, 1, 0, 6, 7, 0, 0x42, 0xCD, 0xAB],
            7,
            0,
            0xABCD,
        ),
        // kind and size in two bytes each
        (
            0x0F,
            &[0x67, 0, 0, 1, 0, 6, 7, 0, 0xAA, 4, 0, 2, 0, 0xCD, 0xAB],
            7,
            0,
            0xABCD,
        ),
        // the array's size in two bytes
        (
            0x0F,
            &[0x67, 0, 0, 1, 0, 6, 7, 0, 0x9A, 9, 3, 0, 0x42, 0xCD, 0xAB],
            7,
            0,
            0xABCD,
        ),
        // an offset of one element of two words
        (
            0x0F,
            &[0x67, 1, 0, 2, 0, 6, 8, 0, 0x94, 8, 1, 2, 3, 4],
            8,
            2,
            0x0201,
        ),
        (
            0x0F,
            &[0x67, 1, 0, 2, 0, 6, 8, 0, 0x94, 8, 1, 2, 3, 4],
            8,
            3,
            0x0403,
        ),
        (
            0x0F,
            &[
                0x67, 0, 0, 2, 0, 6, 8, 0, 0x99, 9, 10, 0x94, 8, 0, 0, 0, 0, 1, 2, 3, 4,
            ],
            8,
            3,
            0x0403,
        ),
    ];
    for (cmd, payload, file, index, word) in rows {
        let mut tables = worked_tables(rt.alloc())?;
        let mut out = ArrayVec::new();
        is(
            &rt,
            answer(&mut tables, COMPAT, (cmd, payload), &mut out),
            Code::Done,
        );
        is(&rt, out.is_empty(), true);
        is(&rt, tables.word(file, index), Some(word));
    }
    Ok(())
}

/// Payloads that can't be read.
const UNREAD: [(u8, &[u8], Code); 31] = [
    (0x00, &[0], ILLEGAL),
    (0x06, &[], ILLEGAL),
    (0x06, &[0x04], ILLEGAL),
    (0x06, &[0x03, 0], ILLEGAL),
    (0x0F, &[], ILLEGAL),
    (0x0F, &[0x99], ILLEGAL),
    (0x0F, &[0xA2, 2, 7, 0x89, 0, 0], ILLEGAL),
    (0x01, &[0, 0], ILLEGAL),
    (0x01, &[0, 0, 2, 0], ILLEGAL),
    (0x08, &[0, 0], ILLEGAL),
    (0x08, &[0, 0, 1], ILLEGAL),
    (0x0F, &[0x01, 0, 0, 1], ILLEGAL),
    (0x0F, &[0x01, 0, 0, 1, 0], ILLEGAL),
    (0x0F, &[0x01, 0, 0, 1, 0, 6, 7], ILLEGAL),
    (0x0F, &[0x01, 0, 0, 1, 0, 2, 7, 2], TOO_FEW_LEVELS),
    (0x0F, &[0x01, 0, 0, 1, 0, 0x16, 7, 0, 2], TOO_MANY_LEVELS),
    // a level after the sub-element and no element
    (0x0F, &[0x01, 0, 0, 1, 0, 0x12, 7, 2], TOO_MANY_LEVELS),
    // no element, and cut off
    (0x0F, &[0x01, 0, 0, 1, 0, 2], TOO_FEW_LEVELS),
    (0x0F, &[0x01, 0, 0, 1, 0, 6, 7, 0], ILLEGAL),
    // two bytes left, and a size of 0
    (0x0F, &[0x01, 0, 0, 1, 0, 6, 7, 0, 0, 0], ILLEGAL),
    (0x0F, &[0x00, 0, 0, 1, 0, 6, 7, 0], ILLEGAL),
    (0x0F, &[0x00, 0, 0, 1, 0, 6, 7, 0, 1], ILLEGAL),
    (0x0F, &[0x26], ILLEGAL),
    (0x0F, &[0x26, 6, 7, 0, 0xFF, 0, 0], ILLEGAL),
    // a second set that is cut off after a first whose file doesn't exist
    (0x0F, &[0x26, 6, 9, 0, 0xFF, 0, 0, 0, 6, 7], ILLEGAL),
    (0x0F, &[0x26, 6, 9, 0, 0xFF, 0, 0, 0, 2, 7], TOO_FEW_LEVELS),
    // no parameter at a file that doesn't exist
    (0x0F, &[0x67, 0, 0, 1, 0, 6, 9, 0], ILLEGAL),
    (0x0F, &[0x67, 0, 0, 1, 0, 6, 9, 0, 0xC2, 1, 0], ILLEGAL),
    // an array's size that isn't that of what follows, at an area that doesn't exist
    (
        0x0F,
        &[0x67, 0, 0, 1, 0, 7, 1, 7, 0, 0x99, 9, 2, 0x42, 1, 0],
        ILLEGAL,
    ),
    (0x0F, &[0x67, 0, 0, 1, 0, 6, 7, 0, 0x99, 9, 0], ILLEGAL),
    (0x0F, &[0x68, 0, 0, 1, 0, 6, 7, 0, 1], ILLEGAL),
];

/// Orders that are refused. If two adjacent tests refuse an order, the code is the first one's.
const REFUSED: [(u8, &[u8], Code); 51] = [
    (0x01, &[0, 0, 0], ILLEGAL),
    (0x01, &[0, 0, 3], ILLEGAL),
    // an odd size at an odd address
    (0x01, &[1, 0, 3], ILLEGAL),
    (0x01, &[0, 0, 246], ILLEGAL),
    (0x01, &[1, 0, 2], BAD_ADDRESS),
    (0x01, &[32, 0, 2], BAD_ADDRESS),
    (0x01, &[30, 0, 4], BAD_ADDRESS),
    (0x08, &[1, 0, 1, 0], BAD_ADDRESS),
    (0x08, &[32, 0, 1, 0], BAD_ADDRESS),
    (0x0F, &[0x01, 0, 0, 1, 0, 6, 7, 0, 0], BAD_SIZE),
    (0x0F, &[0x01, 0, 0, 1, 0, 6, 7, 0, 3], BAD_SIZE),
    // odd and over 244
    (0x0F, &[0x01, 0, 0, 1, 0, 6, 7, 0, 245], BAD_SIZE),
    // over 244 in another area
    (0x0F, &[0x01, 0, 0, 1, 0, 7, 1, 7, 0, 246], TOO_LARGE),
    // another area, and past the range
    (0x0F, &[0x01, 1, 0, 1, 0, 7, 1, 7, 0, 2], NO_PLACE),
    // past the range at a file that doesn't exist
    (0x0F, &[0x01, 1, 0, 1, 0, 6, 9, 0, 2], PAST_THE_END),
    (
        0x0F,
        &[0x01, 0xFF, 0xFF, 0xFF, 0xFF, 6, 7, 0, 2],
        PAST_THE_END,
    ),
    (0x0F, &[0x01, 0, 0, 1, 0, 6, 9, 0, 2], NO_PLACE),
    // a sub-element that doesn't exist past the end of the file
    (0x0F, &[0x01, 0, 0, 1, 0, 0x0E, 7, 16, 1, 2], NO_PLACE),
    (0x0F, &[0x01, 0, 0, 1, 0, 6, 7, 16, 2], PAST_THE_END),
    (0x0F, &[0x01, 16, 0, 17, 0, 6, 7, 0, 2], PAST_THE_END),
    (0x0F, &[0x00, 2, 0, 2, 0, 6, 7, 0, 0xCD, 0xAB], PAST_THE_END),
    (0x0F, &[0x00, 0, 0, 1, 0, 6, 9, 0, 1, 0], NO_PLACE),
    (0x0F, &[0x00, 0, 0, 1, 0, 6, 2, 0, 1, 0], READ_ONLY),
    // a sub-element that doesn't exist of a Status file
    (0x0F, &[0x00, 0, 0, 1, 0, 0x0E, 2, 0, 1, 1, 0], READ_ONLY),
    (0x0F, &[0x26, 7, 1, 9, 0, 0xFF, 0, 0, 0], NO_PLACE),
    (0x0F, &[0x26, 6, 2, 0, 0xFF, 0, 0, 0], READ_ONLY),
    // the second set past the end of the file
    (
        0x0F,
        &[0x26, 6, 7, 0, 0xFF, 0, 0, 0x56, 6, 7, 16, 0xFF, 0xFF, 0, 0],
        PAST_THE_END,
    ),
    // the first set past the end of the file, and the second at a Status file
    (
        0x0F,
        &[0x26, 6, 7, 16, 0xFF, 0, 0, 0, 6, 2, 0, 0xFF, 0, 0, 0],
        PAST_THE_END,
    ),
    (0x0F, &[0x67, 0, 0, 1, 0, 7, 1, 7, 0, 0x42, 1, 0], NO_PLACE),
    (0x0F, &[0x67, 0, 0, 1, 0, 6, 9, 0, 0x42, 1, 0], NO_PLACE),
    (0x0F, &[0x67, 0, 0, 1, 0, 6, 4, 0, 0x42, 1, 0], OTHER_TYPE),
    // another type, and no data
    (0x0F, &[0x67, 0, 0, 1, 0, 6, 7, 0, 0x94, 8], OTHER_TYPE),
    // no data for a Status file
    (0x0F, &[0x67, 0, 0, 1, 0, 6, 2, 0, 0x42], ILLEGAL),
    (0x0F, &[0x67, 0, 0, 1, 0, 6, 7, 0, 0x42, 1], ILLEGAL),
    // two elements, and no array
    (
        0x0F,
        &[0x67, 0, 0, 2, 0, 6, 7, 0, 0x42, 1, 0, 2, 0],
        ILLEGAL,
    ),
    (0x0F, &[0x67, 0, 0, 1, 0, 6, 2, 0, 0x42, 1, 0], READ_ONLY),
    // a sub-element of a Status file
    (
        0x0F,
        &[0x67, 0, 0, 1, 0, 0x0E, 2, 0, 1, 0x42, 1, 0],
        READ_ONLY,
    ),
    // a sub-element, and past the range
    (
        0x0F,
        &[0x67, 1, 0, 1, 0, 0x0E, 8, 0, 1, 0x94, 8, 0, 0, 0, 0],
        NO_PLACE,
    ),
    (0x0F, &[0x67, 1, 0, 1, 0, 6, 7, 0, 0x42, 1, 0], PAST_THE_END),
    (
        0x0F,
        &[0x67, 1, 0, 2, 0, 6, 8, 1, 0x94, 8, 0, 0, 0, 0],
        PAST_THE_END,
    ),
    (
        0x0F,
        &[0x67, 0xFF, 0xFF, 0xFF, 0xFF, 6, 7, 0, 0x42, 1, 0],
        PAST_THE_END,
    ),
    // no elements in another area
    (0x0F, &[0x68, 0, 0, 1, 0, 7, 1, 7, 0, 0, 0], BAD_SIZE),
    (0x0F, &[0x68, 0, 0, 1, 0, 7, 1, 7, 0, 1, 0], NO_PLACE),
    (0x0F, &[0x68, 0, 0, 1, 0, 6, 9, 0, 1, 0], NO_PLACE),
    // a sub-element of a Timer
    (0x0F, &[0x68, 0, 0, 1, 0, 0x0E, 4, 0, 1, 1, 0], OTHER_TYPE),
    // a sub-element, and over 244 bytes
    (0x0F, &[0x68, 0, 0, 1, 0, 0x0E, 7, 0, 1, 121, 0], NO_PLACE),
    // over 244 bytes, and past the range
    (0x0F, &[0x68, 0, 0, 1, 0, 6, 7, 0, 121, 0], TOO_LARGE),
    (0x0F, &[0x68, 0, 0, 1, 0, 6, 8, 0, 60, 0], TOO_LARGE),
    (0x0F, &[0x68, 0, 0, 120, 0, 6, 7, 0, 120, 0], PAST_THE_END),
    (0x0F, &[0x68, 1, 0, 1, 0, 6, 7, 0, 1, 0], PAST_THE_END),
    (0x0F, &[0x68, 1, 0, 2, 0, 6, 8, 1, 1, 0], PAST_THE_END),
];

#[test]
fn the_first_test_that_fails_refuses(rt: HostRuntime) -> Result<(), Fail> {
    let mut tables = worked_tables(rt.alloc())?;
    let before = tables.flat().to_vec(rt.alloc())?;
    for (cmd, payload, code) in UNREAD.iter().chain(&REFUSED) {
        let mut out = ArrayVec::new();
        is(
            &rt,
            answer(&mut tables, COMPAT, (*cmd, payload), &mut out),
            *code,
        );
        is(&rt, out.is_empty(), true);
        is(&rt, tables.flat(), before.as_slice());
    }
    for (cmd, payload, code) in UNREAD {
        assert!(rt; payload.len() <= 244);
        is(&rt, read_plc(cmd, payload).err(), Some(code));
    }
    Ok(())
}

#[test]
fn bytes_are_of_the_compatibility_file(rt: HostRuntime) -> Result<(), Fail> {
    let rows: [(Option<u16>, u8, &[u8], Code); 8] = [
        (None, 0x01, &[0, 0, 2], NO_COMPATIBILITY_FILE),
        // a size of 0, and no compatibility file
        (None, 0x01, &[0, 0, 0], NO_COMPATIBILITY_FILE),
        // an odd address, and no compatibility file
        (None, 0x08, &[1, 0, 1, 0], NO_COMPATIBILITY_FILE),
        (Some(10), 0x01, &[0xCE, 0x07, 2], Code::Done),
        (Some(10), 0x01, &[0xD0, 0x07, 2], BAD_ADDRESS),
        (Some(10), 0x01, &[0xCE, 0x07, 4], BAD_ADDRESS),
        (Some(10), 0x08, &[0xCE, 0x07, 1, 0, 2, 0], BAD_ADDRESS),
        (Some(10), 0x08, &[0xCE, 0x07, 0xCD, 0xAB], Code::Done),
    ];
    let mut tables = worked_tables(rt.alloc())?;
    for (compat, cmd, payload, code) in rows {
        let mut out = ArrayVec::new();
        is(
            &rt,
            answer(&mut tables, compat, (cmd, payload), &mut out),
            code,
        );
    }
    is(&rt, tables.word(10, 999), Some(0xABCD));
    Ok(())
}

#[test]
fn a_message_has_room_for_34_sets(rt: HostRuntime) -> Result<(), Fail> {
    let mut payload = ArrayVec::<u8, 244>::new();
    payload.push(0x26);
    for bit in 0..34u8 {
        // bit `bit` of word 0 or 1 is set
        let (low, high) = (1u8 << (bit % 8), 0);
        payload.try_extend_from_slice(&[6, 7, bit / 8, 0xFF, 0xFF, low, high])?;
    }
    let order = read_plc(0x0F, &payload).ok().ok_or("no order")?;
    let PlcOrder::Change(ref sets) = order else {
        return Err(Fail::from("another order"));
    };
    is(&rt, sets.as_slice().len(), 34);
    let mut tables = worked_tables(rt.alloc())?;
    let mut out = ArrayVec::new();
    is(
        &rt,
        do_plc(&mut tables, COMPAT, &[], &order, &mut out),
        Code::Done,
    );
    is(&rt, tables.word(7, 0), Some(0x12FF));
    is(&rt, tables.word(7, 4), Some(0x0003));
    Ok(())
}
