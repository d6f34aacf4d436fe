//! Tests of the bytes that a half-duplex end sends, with their marks.
use crate::equal::is;
use df1_base::Out;
use df1_check::Check;
use half_frame::HalfFramer;
use half_mouth::HalfMouth;
use std::process::Abort;

// Takes this byte, with the number 1 if it is the last of a transmission, or a byte of its body.
fn take_byte(rt: &impl Abort, mouth: &mut HalfMouth, byte: u8, last: bool, body: bool) {
    let out = Out {
        byte,
        last_of: last.then_some(1),
        body_of: body.then_some(1),
    };
    is(rt, mouth.take(), Some(out));
}

#[test]
fn a_message_is_marked_with_its_number(rt: HostRuntime) {
    let mut mouth = HalfMouth::new();
    is(&rt, mouth.idle(), true);
    mouth.transmit(HalfFramer::reply(&[0x00, 0x10, 0x4F, 0x00, 0x01, 0x00], Check::Bcc));
    take_byte(&rt, &mut mouth, 0x10, false, false);
    take_byte(&rt, &mut mouth, 0x02, false, false);
    take_byte(&rt, &mut mouth, 0x00, false, true);
    take_byte(&rt, &mut mouth, 0x10, false, false);
    take_byte(&rt, &mut mouth, 0x10, false, false);
    for b in [0x4F, 0x00, 0x01, 0x00] {
        take_byte(&rt, &mut mouth, b, false, true);
    }
    take_byte(&rt, &mut mouth, 0x10, false, false);
    take_byte(&rt, &mut mouth, 0x03, false, false);
    is(&rt, mouth.idle(), false);
    take_byte(&rt, &mut mouth, 0xA0, true, false);
    is(&rt, mouth.idle(), true);
    is(&rt, mouth.take(), None);
}

#[test]
fn a_poll_is_no_transmission(rt: HostRuntime) {
    let mut mouth = HalfMouth::new();
    mouth.give(HalfFramer::poll(3));
    for b in [0x10, 0x05, 0x03, 0xFD] {
        take_byte(&rt, &mut mouth, b, false, false);
    }
    is(&rt, mouth.take(), None);
    mouth.transmit(HalfFramer::message(3, &[], Check::Bcc));
    for b in [0x10, 0x01, 0x03, 0x10, 0x02, 0x10, 0x03] {
        take_byte(&rt, &mut mouth, b, false, false);
    }
    take_byte(&rt, &mut mouth, 0xFD, true, false);
    is(&rt, mouth.idle(), true);
}
