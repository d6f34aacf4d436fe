//! Tests of frames of either check, decoded and encoded.
use crate::equal::is;
use df1_check::Check;
use df1_frame::{Decoder, Framer, Heard};
use std::process::Abort;

// Feeds the bytes, and compares the decoded items, each with the position of its byte from 1.
fn hear(rt: &impl Abort, decoder: &mut Decoder<250>, bytes: &[u8], wanted: &[(usize, Heard)]) {
    let mut told = 0usize;
    for (place, b) in bytes.iter().enumerate() {
        if let Some(heard) = decoder.feed(*b) {
            is(rt, wanted.get(told).copied(), Some((place + 1, heard)));
            told = told.saturating_add(1);
        }
    }
    is(rt, told, wanted.len());
}

#[test]
fn hears_frames_with_either_check(rt: HostRuntime) {
    let mut block = Decoder::<250>::new(Check::Bcc);
    let bytes = [
        0x10, 0x02, 0x08, 0x09, 0x06, 0x00, 0x02, 0x04, 0x03, 0x10, 0x03, 0xE0,
    ];
    hear(&rt, &mut block, &bytes, &[(12, Heard::Good)]);
    is(
        &rt,
        block.body(),
        [0x08, 0x09, 0x06, 0x00, 0x02, 0x04, 0x03].as_slice(),
    );
    let mut cyclic = Decoder::<250>::new(Check::Crc);
    let bytes = [
        0x10, 0x02, 0x08, 0x09, 0x06, 0x00, 0x02, 0x04, 0x03, 0x10, 0x03, 0x98, 0x48,
    ];
    hear(&rt, &mut cyclic, &bytes, &[(13, Heard::Good)]);
}

#[test]
fn hears_responses_in_frames_and_restarts(rt: HostRuntime) {
    let mut decoder = Decoder::<250>::new(Check::Bcc);
    let bytes = [
        0x10, 0x02, 0x08, 0x10, 0x06, 0x09, 0x06, 0x00, 0x02, 0x04, 0x03, 0x10, 0x03, 0xE0,
    ];
    hear(
        &rt,
        &mut decoder,
        &bytes,
        &[(5, Heard::Ack), (14, Heard::Good)],
    );
    is(
        &rt,
        decoder.body(),
        [0x08, 0x09, 0x06, 0x00, 0x02, 0x04, 0x03].as_slice(),
    );
    let bytes = [
        0x10, 0x02, 0x01, 0x10, 0x02, 0x08, 0x09, 0x06, 0x00, 0x02, 0x04, 0x03, 0x10, 0x03, 0xE0,
    ];
    hear(
        &rt,
        &mut decoder,
        &bytes,
        &[(5, Heard::Restart), (15, Heard::Good)],
    );
    let bytes = [0x10, 0x02, 0x01, 0x10, 0x41, 0x41];
    hear(
        &rt,
        &mut decoder,
        &bytes,
        &[(5, Heard::Broken(0x41)), (6, Heard::Stray(0x41))],
    );
    let bytes = [0x10, 0x0F, 0x10, 0x05, 0x10, 0x99];
    let wanted = [
        (2, Heard::Nak),
        (4, Heard::Enq),
        (6, Heard::StrayPair(0x99)),
    ];
    hear(&rt, &mut decoder, &bytes, &wanted);
}

// Feeds a frame of this many zero bytes, and returns what is decoded at its last byte.
fn frame_of_zeros(rt: &impl Abort, len: u16) -> Option<Heard> {
    let mut decoder = Decoder::<250>::new(Check::Bcc);
    hear(rt, &mut decoder, &[0x10, 0x02], &[]);
    for _ in 0..len {
        hear(rt, &mut decoder, &[0x00], &[]);
    }
    is(rt, decoder.held(), usize::from(len.min(250)));
    hear(rt, &mut decoder, &[0x10, 0x03], &[]);
    is(rt, decoder.inside(), true);
    let heard = decoder.feed(0x00);
    is(rt, decoder.inside(), false);
    heard
}

#[test]
fn hears_the_sizes_of_bodies(rt: HostRuntime) {
    is(&rt, frame_of_zeros(&rt, 5), Some(Heard::Short));
    is(&rt, frame_of_zeros(&rt, 6), Some(Heard::Good));
    is(&rt, frame_of_zeros(&rt, 250), Some(Heard::Good));
    is(&rt, frame_of_zeros(&rt, 251), Some(Heard::Long));
}

#[test]
fn takes_the_bytes_before_a_dle_at_once(rt: HostRuntime) {
    let mut decoder = Decoder::<250>::new(Check::Bcc);
    is(&rt, decoder.feed_run(&[0x41, 0x42]), 2);
    is(&rt, decoder.feed_run(&[]), 0);
    hear(&rt, &mut decoder, &[0x10], &[]);
    is(&rt, decoder.feed_run(&[0x02]), 0);
    hear(&rt, &mut decoder, &[0x02], &[]);
    is(&rt, decoder.feed_run(&[0x08, 0x09, 0x06]), 3);
    is(
        &rt,
        decoder.feed_run(&[0x00, 0x02, 0x04, 0x03, 0x10, 0x03]),
        4,
    );
    is(&rt, decoder.feed_run(&[0x10, 0x03]), 0);
    is(&rt, decoder.held(), 7);
    hear(&rt, &mut decoder, &[0x10], &[]);
    is(&rt, decoder.feed_run(&[0x03, 0xE0]), 0);
    hear(&rt, &mut decoder, &[0x03, 0xE0], &[(2, Heard::Good)]);
    is(&rt, decoder.feed_run(&[0x10]), 0);
    is(
        &rt,
        decoder.body(),
        [0x08, 0x09, 0x06, 0x00, 0x02, 0x04, 0x03].as_slice(),
    );
    is(&rt, decoder.feed_run(&[0x41, 0x10]), 1);
    is(&rt, decoder.body().is_empty(), true);
}

// Feeds a frame of zero bytes in two runs of these lengths, and returns what is decoded at its last byte.
fn frame_of_runs(rt: &impl Abort, first: usize, second: usize) -> Option<Heard> {
    let zeros = [0x00; 250];
    assert!(rt; first <= 250);
    assert!(rt; second <= 250);
    let mut decoder = Decoder::<250>::new(Check::Bcc);
    hear(rt, &mut decoder, &[0x10, 0x02], &[]);
    is(rt, decoder.feed_run(&zeros[..first]), first);
    is(rt, decoder.feed_run(&zeros[..second]), second);
    hear(rt, &mut decoder, &[0x10, 0x03], &[]);
    decoder.feed(0x00)
}

#[test]
fn hears_the_sizes_of_bodies_in_two_runs(rt: HostRuntime) {
    is(&rt, frame_of_runs(&rt, 0, 5), Some(Heard::Short));
    is(&rt, frame_of_runs(&rt, 200, 50), Some(Heard::Good));
    is(&rt, frame_of_runs(&rt, 200, 51), Some(Heard::Long));
    is(&rt, frame_of_runs(&rt, 250, 1), Some(Heard::Long));
}

// Takes the units of a body's frame, and compares their bytes.
fn give(rt: &impl Abort, body: &[u8], check: Check, wanted: &[u8]) {
    assert!(rt; body.len() <= 250);
    let mut framer = Framer::new();
    framer.begin(body, check);
    let mut given = 0usize;
    for _ in 0..wanted.len() {
        let Some(unit) = framer.next_unit() else {
            break;
        };
        is(rt, wanted.get(given).copied(), Some(unit.first));
        given = given.saturating_add(1);
        if unit.second.is_some() {
            is(rt, wanted.get(given).copied(), unit.second);
            given = given.saturating_add(1);
        }
        is(rt, unit.last, framer.done());
    }
    is(rt, framer.done(), true);
    is(rt, framer.next_unit(), None);
    is(rt, given, wanted.len());
}

#[test]
fn gives_frames_with_either_check(rt: HostRuntime) {
    let body = [0x08, 0x09, 0x06, 0x00, 0x02, 0x04, 0x03];
    let frame = [
        0x10, 0x02, 0x08, 0x09, 0x06, 0x00, 0x02, 0x04, 0x03, 0x10, 0x03, 0xE0,
    ];
    give(&rt, &body, Check::Bcc, &frame);
    let frame = [
        0x10, 0x02, 0x08, 0x09, 0x06, 0x00, 0x02, 0x04, 0x03, 0x10, 0x03, 0x98, 0x48,
    ];
    give(&rt, &body, Check::Crc, &frame);
}

#[test]
fn gives_a_check_of_16_once_and_a_body_byte_of_16_twice(rt: HostRuntime) {
    let frame = [
        0x10, 0x02, 0x07, 0x00, 0x06, 0x00, 0x01, 0x00, 0x00, 0xE2, 0x10, 0x03, 0x10,
    ];
    give(
        &rt,
        &[0x07, 0x00, 0x06, 0x00, 0x01, 0x00, 0x00, 0xE2],
        Check::Bcc,
        &frame,
    );
    let frame = [
        0x10, 0x02, 0x07, 0x00, 0x06, 0x00, 0x10, 0x10, 0x00, 0x00, 0x10, 0x10, 0x10, 0x03, 0xD3,
    ];
    give(
        &rt,
        &[0x07, 0x00, 0x06, 0x00, 0x10, 0x00, 0x00, 0x10],
        Check::Bcc,
        &frame,
    );
}
