//! Tests of which byte is sent next, with responses inside frames and without.
use crate::equal::is;
use df1_base::{Out, Resp};
use df1_check::Check;
use embedded_response::Mouth;
use std::process::Abort;

const BODY: [u8; 8] = [0x01, 0x00, 0x06, 0x00, 0x01, 0x00, 0x00, 0x55];

// Returns a byte that is sent, with the number 1 if it is the frame's last, or a byte of the body.
fn out(byte: u8, last: bool, body: bool) -> Option<Out> {
    Some(Out {
        byte,
        last_of: last.then_some(1),
        body_of: body.then_some(1),
    })
}

// Takes these bytes of the body.
fn take_body(rt: &impl Abort, mouth: &mut Mouth, bytes: &[u8]) {
    for b in bytes {
        is(rt, mouth.take(), out(*b, false, true));
    }
}

// Takes these bytes without marks.
fn take_plain(rt: &impl Abort, mouth: &mut Mouth, bytes: &[u8]) {
    for b in bytes {
        is(rt, mouth.take(), out(*b, false, false));
    }
}

#[test]
fn a_response_stands_in_the_frame_with_embedding(rt: HostRuntime) {
    let mut mouth = Mouth::new(Check::Bcc, true);
    mouth.frame(&BODY);
    take_plain(&rt, &mut mouth, &[0x10, 0x02]);
    take_body(&rt, &mut mouth, &[0x01, 0x00]);
    mouth.offer(Resp::Ack);
    take_plain(&rt, &mut mouth, &[0x10, 0x06]);
    take_body(&rt, &mut mouth, &[0x06, 0x00, 0x01, 0x00, 0x00, 0x55]);
    take_plain(&rt, &mut mouth, &[0x10, 0x03]);
    is(&rt, mouth.in_frame(), true);
    is(&rt, mouth.take(), out(0xA3, true, false));
    is(&rt, mouth.idle(), true);
    is(&rt, mouth.take(), None);
}

#[test]
fn a_response_waits_for_the_frames_end_without_embedding(rt: HostRuntime) {
    let mut mouth = Mouth::new(Check::Bcc, false);
    mouth.frame(&BODY);
    take_plain(&rt, &mut mouth, &[0x10, 0x02]);
    take_body(&rt, &mut mouth, &[0x01, 0x00]);
    mouth.offer(Resp::Ack);
    take_body(&rt, &mut mouth, &[0x06, 0x00, 0x01, 0x00, 0x00, 0x55]);
    take_plain(&rt, &mut mouth, &[0x10, 0x03]);
    is(&rt, mouth.take(), out(0xA3, true, false));
    is(&rt, mouth.in_frame(), false);
    take_plain(&rt, &mut mouth, &[0x10, 0x06]);
    is(&rt, mouth.idle(), true);
}

#[test]
fn an_enq_comes_after_the_last_response(rt: HostRuntime) {
    let mut mouth = Mouth::new(Check::Crc, true);
    mouth.offer(Resp::Ack);
    mouth.forget();
    mouth.ask();
    take_plain(&rt, &mut mouth, &[0x10, 0x06, 0x10, 0x05]);
    mouth.enq();
    mouth.ask();
    mouth.unask();
    take_plain(&rt, &mut mouth, &[0x10, 0x15]);
    is(&rt, mouth.idle(), true);
}
