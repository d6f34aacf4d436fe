//! Tests of worked bodies: a logical write to station 1 and its reply.
use crate::equal::is;
use arrayvec::ArrayVec;
use pccc_envelope::duplicate_filter::Filter;
use pccc_envelope::{Envelope, Key, is_reply, key_of, read_envelope, reply_of, write_envelope};

const WRITE: [u8; 14] = [
    0x01, 0x00, 0x0F, 0x00, 0x01, 0x00, 0xAA, 0x02, 0x07, 0x89, 0x00, 0x00, 0x34, 0x12,
];

const WRITTEN: [u8; 6] = [0x00, 0x01, 0x4F, 0x00, 0x01, 0x00];

#[test]
fn the_reply_to_the_write_is_the_worked_one(rt: HostRuntime) {
    let command = read_envelope(&WRITE).expect(&rt, "14 bytes");
    is(
        &rt,
        command,
        Envelope {
            dst: 1,
            src: 0,
            cmd: 0x0F,
            sts: 0,
            tns: 1,
        },
    );
    let mut reply = ArrayVec::new();
    write_envelope(&reply_of(&command, 0), &mut reply);
    is(&rt, reply.as_slice(), WRITTEN.as_slice());
    assert!(rt; !is_reply(&WRITE));
    assert!(rt; is_reply(&WRITTEN));
    is(&rt, read_envelope(&WRITTEN[..5]), None);
}

#[test]
fn only_the_key_kept_last_is_a_repeat(rt: HostRuntime) {
    let key = key_of(&WRITE);
    is(
        &rt,
        key,
        Key {
            src: 0,
            cmd: 0x0F,
            tns: 1,
        },
    );
    let mut filter = Filter::new();
    is(&rt, filter.is_repeat(key), false);
    filter.keep(key);
    is(&rt, filter.is_repeat(key), true);
    is(&rt, filter.is_repeat(key_of(&WRITTEN)), false);
}
