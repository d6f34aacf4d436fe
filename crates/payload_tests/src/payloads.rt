//! Tests of payloads of known bytes, and of the answers of a station to them.
use crate::equal::is;
use arrayvec::ArrayVec;
use command_payloads::{
    PayloadFault, bit_write, echo, logical_read, logical_write, masked_write, read_modify_write,
    station_status, typed_read, typed_write, unprotected_read, unprotected_write, word_range_read,
    word_range_write,
};
use data_addresses::{Address, read_address};
use data_files::{FileSpec, MakeFault, Tables};
use df1_base::{Code, FileType};
use plc_commands::{do_plc, read_plc};
use reply_values::{read_typed, words_in};
use std::alloc::Global;
use std::process::Abort;
use std::test::Fail;

/// Returns the address of a text.
fn at(rt: &impl Abort, text: &[u8]) -> Address {
    read_address(text).expect(rt, "an address")
}

#[test]
fn reads_have_their_bytes(rt: HostRuntime) -> Result<(), Fail> {
    let mut into = ArrayVec::new();
    logical_read(false, &at(&rt, b"N7:1"), 1, &mut into)?;
    is(&rt, into.as_slice(), [0x0F, 0xA1, 2, 7, 0x89, 1].as_slice());
    logical_read(true, &at(&rt, b"N7:0"), 2, &mut into)?;
    is(
        &rt,
        into.as_slice(),
        [0x0F, 0xA2, 4, 7, 0x89, 0, 0].as_slice(),
    );
    word_range_read(&at(&rt, b"N7:0"), 2, &mut into)?;
    is(
        &rt,
        into.as_slice(),
        [0x0F, 1, 0, 0, 2, 0, 6, 7, 0, 4].as_slice(),
    );
    typed_read(&at(&rt, b"F8:0"), 1, &mut into)?;
    is(
        &rt,
        into.as_slice(),
        [0x0F, 0x68, 0, 0, 1, 0, 6, 8, 0, 1, 0].as_slice(),
    );
    unprotected_read(0, 1, &mut into)?;
    is(&rt, into.as_slice(), [0x01, 0, 0, 2].as_slice());
    echo(&[0xE2], &mut into)?;
    is(&rt, into.as_slice(), [0x06, 0, 0xE2].as_slice());
    station_status(&mut into);
    is(&rt, into.as_slice(), [0x06, 3].as_slice());
    Ok(())
}

#[test]
fn writes_have_their_bytes(rt: HostRuntime) -> Result<(), Fail> {
    let words = [0xABCD];
    let mut into = ArrayVec::new();
    logical_write(false, &at(&rt, b"N7:2"), &words, &mut into)?;
    is(
        &rt,
        into.as_slice(),
        [0x0F, 0xA9, 2, 7, 0x89, 2, 0xCD, 0xAB].as_slice(),
    );
    logical_write(true, &at(&rt, b"N7:2"), &words, &mut into)?;
    is(
        &rt,
        into.as_slice(),
        [0x0F, 0xAA, 2, 7, 0x89, 2, 0, 0xCD, 0xAB].as_slice(),
    );
    masked_write(&at(&rt, b"N7:0"), 0x00FF, &words, &mut into)?;
    is(
        &rt,
        into.as_slice(),
        [0x0F, 0xAB, 2, 7, 0x89, 0, 0, 0xFF, 0, 0xCD, 0xAB].as_slice(),
    );
    word_range_write(&at(&rt, b"T4:1.ACC"), &[7], &mut into)?;
    is(
        &rt,
        into.as_slice(),
        [0x0F, 0, 0, 0, 1, 0, 0x0E, 4, 1, 2, 7, 0].as_slice(),
    );
    typed_write(&at(&rt, b"N7:0"), &[0xABCD, 1], &mut into)?;
    is(
        &rt,
        into.as_slice(),
        [
            0x0F, 0x67, 0, 0, 2, 0, 6, 7, 0, 0x99, 9, 5, 0x42, 0xCD, 0xAB, 1, 0,
        ]
        .as_slice(),
    );
    unprotected_write(2, &words, &mut into)?;
    is(&rt, into.as_slice(), [0x08, 2, 0, 0xCD, 0xAB].as_slice());
    Ok(())
}

#[test]
fn bits_have_their_bytes(rt: HostRuntime) -> Result<(), Fail> {
    let mut into = ArrayVec::new();
    read_modify_write(&at(&rt, b"N7:0"), 0x00FF, 0x5600, &mut into);
    is(
        &rt,
        into.as_slice(),
        [0x0F, 0x26, 6, 7, 0, 0xFF, 0, 0, 0x56].as_slice(),
    );
    bit_write(&at(&rt, b"N7:3/5"), true, &mut into)?;
    is(
        &rt,
        into.as_slice(),
        [0x0F, 0x26, 6, 7, 3, 0xDF, 0xFF, 0x20, 0].as_slice(),
    );
    bit_write(&at(&rt, b"N7:3/15"), false, &mut into)?;
    is(
        &rt,
        into.as_slice(),
        [0x0F, 0x26, 6, 7, 3, 0xFF, 0x7F, 0, 0].as_slice(),
    );
    Ok(())
}

#[test]
fn what_does_not_fit_is_told(rt: HostRuntime) {
    let mut into = ArrayVec::new();
    let word = at(&rt, b"N7:0");
    let accumulator = at(&rt, b"T4:1.ACC");
    let words = [0; 119];
    is(
        &rt,
        word_range_read(&word, 0, &mut into),
        Err(PayloadFault::NoData),
    );
    is(
        &rt,
        word_range_read(&word, 123, &mut into),
        Err(PayloadFault::TooMuchData),
    );
    is(
        &rt,
        word_range_write(&word, &words[..118], &mut into),
        Ok(()),
    );
    is(&rt, into.len(), 245);
    is(
        &rt,
        word_range_write(&word, &words, &mut into),
        Err(PayloadFault::TooMuchData),
    );
    is(&rt, into.len(), 0);
    is(&rt, typed_read(&at(&rt, b"F8:0"), 59, &mut into), Ok(()));
    is(
        &rt,
        typed_read(&at(&rt, b"F8:0"), 60, &mut into),
        Err(PayloadFault::TooMuchData),
    );
    is(
        &rt,
        typed_read(&accumulator, 1, &mut into),
        Err(PayloadFault::NoType),
    );
    is(
        &rt,
        typed_write(&at(&rt, b"F8:0"), &words[..3], &mut into),
        Err(PayloadFault::HalfElement),
    );
    is(
        &rt,
        logical_read(false, &accumulator, 1, &mut into),
        Err(PayloadFault::NoSub),
    );
    is(
        &rt,
        bit_write(&word, true, &mut into),
        Err(PayloadFault::NoBit),
    );
}

/// Writes the data that a station with N7:0 = 1234 and N7:1 = 5678 answers to `out`, and returns the code.
fn answer(alloc: Global, command: &[u8], out: &mut ArrayVec<u8, 244>) -> Result<Code, MakeFault> {
    let file = FileSpec {
        number: 7,
        kind: FileType::Integer,
        count: 16,
    };
    let mut tables = Tables::new(alloc, &[file])?;
    tables.set_words(7, 0, &[0x1234, 0x5678]);
    let [cmd, payload @ ..] = command else {
        return Ok(Code::Sts(0xFF));
    };
    if payload.len() > 244 {
        return Ok(Code::Sts(0xFF));
    }
    Ok(match read_plc(*cmd, payload) {
        Ok(order) => do_plc(&mut tables, None, &[], &order, out),
        Err(code) => code,
    })
}

#[test]
fn what_a_station_gives_is_read(rt: HostRuntime) -> Result<(), Fail> {
    let first = at(&rt, b"N7:0");
    let mut command = ArrayVec::new();
    let mut out = ArrayVec::new();
    word_range_read(&first, 2, &mut command)?;
    is(&rt, answer(rt.alloc(), &command, &mut out)?, Code::Done);
    let words = words_in(&out).expect(&rt, "words");
    is(&rt, words.as_slice(), [0x1234, 0x5678].as_slice());
    typed_read(&first, 2, &mut command)?;
    is(&rt, answer(rt.alloc(), &command, &mut out)?, Code::Done);
    let typed = read_typed(&out).expect(&rt, "typed data");
    is(
        &rt,
        (typed.element.kind, typed.element.size, typed.is_array),
        (4, 2, true),
    );
    is(&rt, typed.bytes, [0x34, 0x12, 0x78, 0x56].as_slice());
    Ok(())
}
