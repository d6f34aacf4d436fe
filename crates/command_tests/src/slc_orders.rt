//! Tests of orders and their effect on worked tables.
use crate::equal::is;
use arrayvec::ArrayVec;
use data_files::{FileSpec, MakeFault, Tables};
use df1_base::{Code, FileType};
use slc_commands::{SlcFnc, do_slc, read_slc};
use std::alloc::Global;
use std::test::Fail;

/// Returns integers 7 with the first words 1234 and 5678, floats 8, status 2, timers 4, 122 integers 10 and an integer
/// 300.
fn worked_tables(alloc: Global) -> Result<Tables, MakeFault> {
    let file = |number, kind, count| FileSpec {
        number,
        kind,
        count,
    };
    let mut tables = Tables::new(
        alloc,
        &[
            file(7, FileType::Integer, 16),
            file(8, FileType::Float, 2),
            file(2, FileType::Status, 4),
            file(4, FileType::Timer, 2),
            file(10, FileType::Integer, 122),
            file(300, FileType::Integer, 1),
        ],
    )?;
    tables.set_words(7, 0, &[0x1234, 0x5678]);
    Ok(tables)
}

fn answer(tables: &mut Tables, payload: &[u8], out: &mut ArrayVec<u8, 244>) -> Code {
    match read_slc(payload) {
        Ok(order) => do_slc(tables, &order, out),
        Err(code) => code,
    }
}

const CUT_OFF: Code = Code::Sts(0x10);

const BAD_SIZE: Code = Code::Ext(0x01);

const NO_PLACE: Code = Code::Ext(0x06);

const TOO_LARGE: Code = Code::Ext(0x09);

const PAST_THE_END: Code = Code::Ext(0x0A);

const READ_ONLY: Code = Code::Ext(0x0B);

const OTHER_TYPE: Code = Code::Ext(0x11);

#[test]
fn reads_give_the_words(rt: HostRuntime) -> Result<(), Fail> {
    let rows: [(&[u8], &[u8]); 8] = [
        (&[0xA2, 2, 7, 0x89, 0, 0], &[0x34, 0x12]),
        (&[0xA1, 2, 7, 0x89, 1], &[0x78, 0x56]),
        (&[0xA2, 4, 7, 0x89, 0, 0], &[0x34, 0x12, 0x78, 0x56]),
        (&[0xA2, 2, 7, 0x89, 0xFF, 1, 0, 0], &[0x78, 0x56]),
        (&[0xA2, 2, 7, 0x89, 15, 0], &[0, 0]),
        (&[0xA2, 2, 8, 0x8A, 1, 1], &[0, 0]),
        (&[0xA2, 2, 4, 0x86, 1, 2], &[0, 0]),
        (&[0xA2, 2, 0xFF, 0x2C, 0x01, 0x89, 0, 0], &[0, 0]),
    ];
    let mut tables = worked_tables(rt.alloc())?;
    let mut out = ArrayVec::new();
    for (payload, data) in rows {
        is(&rt, answer(&mut tables, payload, &mut out), Code::Done);
        is(&rt, out.as_slice(), data);
    }
    is(
        &rt,
        answer(&mut tables, &[0xA2, 244, 10, 0x89, 0, 0], &mut out),
        Code::Done,
    );
    is(&rt, out.len(), 244);
    Ok(())
}

#[test]
fn writes_change_their_words(rt: HostRuntime) -> Result<(), Fail> {
    let rows: [(&[u8], u16, u32, u16); 6] = [
        (&[0xAA, 2, 7, 0x89, 2, 0, 0xCD, 0xAB], 7, 2, 0xABCD),
        (&[0xA9, 4, 7, 0x89, 3, 1, 0, 2, 0], 7, 4, 2),
        (
            &[0xAB, 2, 7, 0x89, 0, 0, 0xFF, 0x00, 0xCD, 0xAB],
            7,
            0,
            0x12CD,
        ),
        (&[0xAA, 2, 8, 0x8A, 1, 1, 0x80, 0x3F], 8, 3, 0x3F80),
        (&[0xAA, 2, 4, 0x86, 1, 2, 7, 0], 4, 5, 7),
        (
            &[0xAA, 2, 0xFF, 0x2C, 0x01, 0x89, 0, 0, 1, 2],
            300,
            0,
            0x0201,
        ),
    ];
    let mut tables = worked_tables(rt.alloc())?;
    let mut out = ArrayVec::new();
    for (payload, file, index, word) in rows {
        is(&rt, answer(&mut tables, payload, &mut out), Code::Done);
        is(&rt, out.is_empty(), true);
        is(&rt, tables.word(file, index), Some(word));
    }
    is(&rt, tables.word(7, 1), Some(0x5678));
    Ok(())
}

#[test]
fn the_first_test_that_fails_refuses(rt: HostRuntime) -> Result<(), Fail> {
    let rows: [(&[u8], Code); 32] = [
        (&[], CUT_OFF),
        (&[0x99], CUT_OFF),
        (&[0xA2], CUT_OFF),
        (&[0xA2, 2, 7, 0x89, 0xFF], CUT_OFF),
        (&[0xA2, 2, 7, 0x89, 0], CUT_OFF),
        (&[0xA2, 2, 7, 0x89, 0, 0, 0], CUT_OFF),
        (&[0xAA, 2, 7, 0x89, 0, 0, 0xCD], CUT_OFF),
        (&[0xAA, 2, 7, 0x89, 0, 0, 0xCD, 0xAB, 0], CUT_OFF),
        (&[0xAB, 2, 7, 0x89, 0, 0, 0xFF], CUT_OFF),
        // a size of 3 and a field cut off
        (&[0xA2, 3, 7, 0x89, 0], CUT_OFF),
        (&[0xA2, 0, 7, 0x89, 0, 0], BAD_SIZE),
        (&[0xA2, 1, 7, 0x89, 0, 0], BAD_SIZE),
        (&[0xA2, 3, 7, 0x89, 0, 0], BAD_SIZE),
        (&[0xAA, 3, 7, 0x89, 0, 0, 1, 2, 3], BAD_SIZE),
        // odd and over 244
        (&[0xA2, 245, 7, 0x89, 0, 0], BAD_SIZE),
        // odd at a file that doesn't exist
        (&[0xA2, 3, 9, 0x89, 0, 0], BAD_SIZE),
        (&[0xA2, 246, 7, 0x89, 0, 0], TOO_LARGE),
        // over 244 at a file that doesn't exist
        (&[0xA2, 246, 9, 0x89, 0, 0], TOO_LARGE),
        (&[0xA2, 2, 9, 0x89, 0, 0], NO_PLACE),
        (&[0xA2, 2, 7, 0x8A, 0, 0], OTHER_TYPE),
        (&[0xA2, 2, 7, 0x83, 0, 0], OTHER_TYPE),
        // another type at a Status file that is written
        (&[0xAA, 2, 2, 0x89, 0, 0, 1, 0], OTHER_TYPE),
        (&[0xAA, 2, 2, 0x84, 0, 0, 1, 0], READ_ONLY),
        // a sub-element that doesn't exist at a Status file that is written
        (&[0xAA, 2, 2, 0x84, 0, 1, 1, 0], READ_ONLY),
        (&[0xA2, 2, 7, 0x89, 0, 1], NO_PLACE),
        (&[0xA2, 2, 8, 0x8A, 0, 2], NO_PLACE),
        (&[0xA2, 2, 4, 0x86, 0, 3], NO_PLACE),
        // a sub-element that doesn't exist past the end
        (&[0xA2, 2, 7, 0x89, 16, 1], NO_PLACE),
        (&[0xA2, 2, 7, 0x89, 16, 0], PAST_THE_END),
        (&[0xA2, 4, 7, 0x89, 15, 0], PAST_THE_END),
        (&[0xA2, 244, 7, 0x89, 0, 0], PAST_THE_END),
        (&[0xAA, 4, 4, 0x86, 1, 2, 1, 0, 2, 0], PAST_THE_END),
    ];
    let mut tables = worked_tables(rt.alloc())?;
    let before = tables.flat().to_vec(rt.alloc())?;
    for (payload, code) in rows {
        let mut out = ArrayVec::new();
        is(&rt, answer(&mut tables, payload, &mut out), code);
        is(&rt, out.is_empty(), true);
        is(&rt, tables.flat(), before.as_slice());
    }
    Ok(())
}

#[test]
fn a_masked_write_is_read_with_its_mask(rt: HostRuntime) -> Result<(), Fail> {
    let payload = [0xAB, 2, 7, 0x89, 0, 0, 0xFF, 0x00, 0xCD, 0xAB];
    let order = read_slc(&payload).ok().ok_or("no order")?;
    is(&rt, order.fnc, SlcFnc::Masked);
    is(&rt, order.mask, 0x00FF);
    is(&rt, order.bytes, [0xCD, 0xAB].as_slice());
    let plain = read_slc(&[0xA2, 2, 7, 0x89, 0, 0]).ok().ok_or("no order")?;
    is(&rt, plain.mask, 0xFFFF);
    is(&rt, plain.bytes.is_empty(), true);
    Ok(())
}
