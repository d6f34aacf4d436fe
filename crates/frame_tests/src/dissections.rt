//! Tests of captures of each side with their text and their counts, and of the names of messages.

use crate::equal::is;
use df1_base::BytesOut;
use df1_check::{Check, bcc};
use df1_dissect::{Dissector, Reader};
use half_frame::Side;
use std::alloc::{AllocError, Global};
use std::process::Abort;
use std::test::Fail;

/// The maximum length of a capture, in bytes.
const LIMIT: u64 = 268_435_456;

/// A capture: its side and check, its bytes, its text, and how many things are decoded, are bad, and bytes are left.
struct Capture {
    side: Side,
    check: Check,
    bytes: &'static [u8],
    text: &'static str,
    counts: (u64, u64, u64),
}

const FULL: Capture = Capture {
    side: Side::Full,
    check: Check::Bcc,
    bytes: b"\x41\x10\x06\x10\x15\x10\x0F\x10\x05\x10\x10\x10\x02\x01\x10\x03\xFF\x10\x02\x10\x03\x00\x10\x02\x10\x03\x01\x10\x02\x41\x10\x04\x10\x02\x41\x10\x06\x10\x02\x01\x00\x06\x00\x34\x12\x10\x03\xB3\x10",
    text: "0 0 stray 41
1 2 ack
3 4 nak
5 6 nak
7 8 enq
9 10 stray-pair 10
11 16 short 01
17 21 short -
22 26 bad-check -
27 31 broken 04
35 36 ack
32 38 restart
37 47 good dst=01 src=00 cmd=06 sts=00 tns=1234 unknown -
48 48 open
",
    counts: (13, 7, 1),
};

const MASTER: Capture = Capture {
    side: Side::Master,
    check: Check::Bcc,
    bytes: b"\x55\x10\x06\x10\x15\x10\x02\x10\x05\x03\x00\x10\x01\x03\x41\x10\x01\x04\x10\x06\x10\x01\x05\x10\x05\x03\xFD\x10\x01\x03\x10\x02\x03\x00\x0F\x00\x01\x00\xAA\x02\x07\x89\x00\x00\x34\x12\x10\x03\x68\x10\x01\x03\x10\x02\x10\x03\x00",
    text: "0 0 stray 55
1 2 ack
3 4 reset
5 6 stray-pair 02
7 10 bad-poll
11 14 damaged 03
15 19 damaged 04
20 24 damaged 05
23 26 poll 03
27 48 message 03 dst=03 src=00 cmd=0F sts=00 tns=0001 logical-write-3 AA02078900003412
49 56 damaged 03
",
    counts: (11, 7, 0),
};

const SLAVE: Capture = Capture {
    side: Side::Slave,
    check: Check::Bcc,
    bytes: b"\x55\x10\x06\x10\x0F\x10\x04\x10\x05\x10\x02\x00\x03\x4F\x00\x01\x00\x10\x03\xAD\x10\x02\x41\x10\x02\x41\x10\x06\x10\x02\x10\x03\x00\x10\x02",
    text: "0 0 stray 55
1 2 ack
3 4 nak
5 6 eot
7 8 stray-pair 05
9 19 good dst=00 src=03 cmd=4F sts=00 tns=0001 reply -
20 24 damaged
23 27 damaged
28 32 damaged
33 34 open
",
    counts: (9, 5, 2),
};

const OPEN_FRAME: Capture = Capture {
    side: Side::Full,
    check: Check::Bcc,
    bytes: b"\x55\x10\x06\x10\x02\x08\x09\x06\x00\x02\x04\x03\x10\x03\xE0\x10\x02\x01",
    text: "0 0 stray 55
1 2 ack
3 14 good dst=08 src=09 cmd=06 sts=00 tns=0402 status 03
15 17 open
",
    counts: (3, 1, 3),
};

const OPEN_MESSAGE: Capture = Capture {
    side: Side::Master,
    check: Check::Bcc,
    bytes: b"\x10\x05\x03\xFD\x10\x01\x03\x10\x02\x41",
    text: "0 3 poll 03
4 9 open
",
    counts: (1, 0, 6),
};

const CYCLIC: Capture = Capture {
    side: Side::Full,
    check: Check::Crc,
    bytes: b"\x10\x02\x08\x09\x06\x00\x02\x04\x03\x10\x03\x98\x48",
    text: "0 12 good dst=08 src=09 cmd=06 sts=00 tns=0402 status 03
",
    counts: (1, 0, 0),
};

#[test]
fn each_capture_has_its_text_and_its_counts(rt: HostRuntime) -> Result<(), Fail> {
    let alloc = rt.alloc();
    for capture in &[FULL, MASTER, SLAVE, OPEN_FRAME, OPEN_MESSAGE, CYCLIC] {
        let mut sink = BytesOut::new(alloc, 2000, 7, &[])?;
        let mut dissector = Dissector::new(capture.side, capture.check);
        let mut reader = Reader::new(capture.side, capture.check);
        for byte in capture.bytes {
            assert!(rt; dissector.fed() < LIMIT);
            assert!(rt; reader.fed() < LIMIT);
            is(&rt, dissector.feed(*byte, &mut sink).is_ok(), true);
            reader.hear(*byte);
        }
        is(&rt, dissector.finish(&mut sink).is_ok(), true);
        is(&rt, sink.held(), capture.text.as_bytes());
        let (heard, bad, left) = capture.counts;
        is(&rt, dissector.heard(), heard);
        is(&rt, dissector.bad(), bad);
        is(&rt, dissector.left(), left);
        is(&rt, dissector.fed(), capture.bytes.len() as u64);
        is(&rt, reader.heard(), heard);
        is(&rt, reader.bad(), bad);
        is(&rt, reader.left(), left);
    }
    Ok(())
}

/// Decodes a piece.
fn hear_piece(rt: &impl Abort, reader: &mut Reader, piece: &[u8]) {
    assert!(rt; reader.fed() <= 1000);
    assert!(rt; piece.len() <= 1000);
    reader.hear_all(piece);
}

/// Decodes a capture in two pieces with an empty one between, and compares how many things are decoded, are bad, and
/// bytes are left.
fn hear_in_pieces(
    rt: &impl Abort,
    reader: &mut Reader,
    first: &[u8],
    second: &[u8],
    counts: (u64, u64, u64),
) {
    hear_piece(rt, reader, first);
    hear_piece(rt, reader, &[]);
    hear_piece(rt, reader, second);
    let (heard, bad, left) = counts;
    is(rt, reader.heard(), heard);
    is(rt, reader.bad(), bad);
    is(rt, reader.left(), left);
}

#[test]
fn a_capture_has_the_same_counts_wherever_it_is_cut(rt: HostRuntime) {
    for capture in &[FULL, MASTER, SLAVE, OPEN_FRAME, OPEN_MESSAGE, CYCLIC] {
        let bytes = capture.bytes;
        for cut in 0..bytes.len() {
            let mut reader = Reader::new(capture.side, capture.check);
            hear_in_pieces(
                &rt,
                &mut reader,
                &bytes[..cut],
                &bytes[cut..],
                capture.counts,
            );
        }
    }
}

#[test]
fn a_body_of_two_pieces_has_room_up_to_250_bytes(rt: HostRuntime) -> Result<(), Fail> {
    let alloc = rt.alloc();
    for (first, second, bad) in [
        (200usize, 50usize, 0u64),
        (200, 51, 1),
        (250, 1, 1),
        (1, 250, 1),
    ] {
        let mut front = Vec::from_slice(alloc, b"\x10\x02")?;
        front.resize(first.saturating_add(2), 0)?;
        let mut rest = Vec::new(alloc);
        rest.resize(second, 0)?;
        rest.extend_from_slice(b"\x10\x03\x00")?;
        let mut reader = Reader::new(Side::Full, Check::Bcc);
        hear_in_pieces(&rt, &mut reader, &front, &rest, (1, bad, 0));
    }
    Ok(())
}

#[test]
fn a_long_frame_has_no_body(rt: HostRuntime) -> Result<(), Fail> {
    let alloc = rt.alloc();
    let mut frame = Vec::from_slice(alloc, b"\x10\x02")?;
    frame.extend_from_slice(&[0; 251])?;
    frame.extend_from_slice(b"\x10\x03\x00")?;
    let mut sink = BytesOut::new(alloc, 100, 100, &[])?;
    let mut dissector = Dissector::new(Side::Full, Check::Bcc);
    for byte in &frame {
        assert!(rt; dissector.fed() < LIMIT);
        is(&rt, dissector.feed(*byte, &mut sink).is_ok(), true);
    }
    is(&rt, sink.held(), b"0 255 long\n".as_slice());
    Ok(())
}

#[test]
fn a_sink_that_fails_holds_a_first_part(rt: HostRuntime) -> Result<(), Fail> {
    let mut sink = BytesOut::new(rt.alloc(), 5, 2, &[])?;
    let mut dissector = Dissector::new(Side::Full, Check::Bcc);
    is(&rt, dissector.feed(0x41, &mut sink).is_err(), true);
    is(&rt, sink.held(), b"0 0 s".as_slice());
    Ok(())
}

/// CMD, what follows TNS, and the text of the two.
const NAMES: [(u8, &[u8], &str); 24] = [
    (0x06, b"\x00\xE2", "cmd=06 sts=00 tns=0001 echo 00E2"),
    (0x06, b"\x03", "cmd=06 sts=00 tns=0001 status 03"),
    (0x06, b"\x03\x00", "cmd=06 sts=00 tns=0001 malformed 0300"),
    (0x06, b"\x04", "cmd=06 sts=00 tns=0001 unknown 04"),
    (0x06, b"", "cmd=06 sts=00 tns=0001 unknown -"),
    (0x00, b"\x03", "cmd=00 sts=00 tns=0001 unknown 03"),
    (
        0x01,
        b"\x00\x00\x02",
        "cmd=01 sts=00 tns=0001 unprotected-read 000002",
    ),
    (0x01, b"\x00\x00", "cmd=01 sts=00 tns=0001 malformed 0000"),
    (
        0x08,
        b"\x00\x00\x01\x00",
        "cmd=08 sts=00 tns=0001 unprotected-write 00000100",
    ),
    (
        0x0F,
        b"\x00\x01\x00\x02\x00\x06\x07\x00\xCD\xAB",
        "cmd=0F sts=00 tns=0001 word-range-write 0001000200060700CDAB",
    ),
    (
        0x0F,
        b"\x01\x00\x00\x02\x00\x06\x07\x00\x04",
        "cmd=0F sts=00 tns=0001 word-range-read 010000020006070004",
    ),
    (
        0x0F,
        b"\x01\x00\x00\x01\x00\x02\x07\x02",
        "cmd=0F sts=00 tns=0001 malformed 0100000100020702",
    ),
    (
        0x0F,
        b"\x26\x06\x07\x00\xFF\x00\x00\x56",
        "cmd=0F sts=00 tns=0001 read-modify-write 26060700FF000056",
    ),
    (
        0x0F,
        b"\x67\x00\x00\x02\x00\x06\x07\x00\x99\x09\x05\x42\xCD\xAB\x01\x00",
        "cmd=0F sts=00 tns=0001 typed-write 670000020006070099090542CDAB0100",
    ),
    (
        0x0F,
        b"\x68\x00\x00\x02\x00\x06\x07\x00\x02\x00",
        "cmd=0F sts=00 tns=0001 typed-read 68000002000607000200",
    ),
    (
        0x0F,
        b"\xA1\x02\x07\x89\x01",
        "cmd=0F sts=00 tns=0001 logical-read-2 A102078901",
    ),
    (
        0x0F,
        b"\xA2\x02\x07\x89\x00\x00",
        "cmd=0F sts=00 tns=0001 logical-read-3 A20207890000",
    ),
    (0x0F, b"\xA2\x02", "cmd=0F sts=00 tns=0001 malformed A202"),
    (
        0x0F,
        b"\xA9\x02\x07\x89\x00\xCD\xAB",
        "cmd=0F sts=00 tns=0001 logical-write-2 A902078900CDAB",
    ),
    (
        0x0F,
        b"\xAA\x02\x07\x89\x02\x00\xCD\xAB",
        "cmd=0F sts=00 tns=0001 logical-write-3 AA0207890200CDAB",
    ),
    (
        0x0F,
        b"\xAB\x02\x07\x89\x00\x00\xFF\x00\xCD\xAB",
        "cmd=0F sts=00 tns=0001 masked-write AB0207890000FF00CDAB",
    ),
    (0x0F, b"\x99", "cmd=0F sts=00 tns=0001 unknown 99"),
    (0x4F, b"\xA2\x02", "cmd=4F sts=00 tns=0001 reply A202"),
    (0x40, b"", "cmd=40 sts=00 tns=0001 reply -"),
];

#[test]
fn each_message_has_its_name(rt: HostRuntime) -> Result<(), Fail> {
    let alloc = rt.alloc();
    for (cmd, rest, fields) in &NAMES {
        let frame = frame_of(alloc, *cmd, rest)?;
        let mut sink = BytesOut::new(alloc, 200, 200, &[])?;
        let mut dissector = Dissector::new(Side::Full, Check::Bcc);
        for byte in &frame {
            assert!(rt; dissector.fed() < LIMIT);
            is(&rt, dissector.feed(*byte, &mut sink).is_ok(), true);
        }
        assert!(rt; dissector.fed() > 0);
        let mut text = String::from_str(alloc, "0 ")?;
        text.push_str(itoa::Buffer::new().format(dissector.fed() - 1))?;
        text.push_str(" good dst=01 src=00 ")?;
        text.push_str(fields)?;
        text.push_str("\n")?;
        is(&rt, sink.held(), text.as_bytes());
    }
    Ok(())
}

/// Returns the frame of a message from station 0 to station 1, with TNS 1 and no byte that is DLE.
fn frame_of(alloc: Global, cmd: u8, rest: &[u8]) -> Result<Vec<u8>, AllocError> {
    let mut body = Vec::from_slice(alloc, b"\x01\x00")?;
    body.push(cmd)?;
    body.extend_from_slice(b"\x00\x01\x00")?;
    body.extend_from_slice(rest)?;
    let mut frame = Vec::from_slice(alloc, b"\x10\x02")?;
    frame.extend_from_slice(&body)?;
    frame.extend_from_slice(b"\x10\x03")?;
    frame.push(bcc(&body))?;
    Ok(frame)
}
