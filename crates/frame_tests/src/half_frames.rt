//! Tests of messages, polls and pairs of a half-duplex line, as each side decodes and sends them.
use crate::equal::is;
use df1_check::Check;
use half_frame::{EOT, HalfFramer, MasterEar, MasterHeard, Sent, SlaveEar, SlaveHeard};
use std::process::Abort;

// Feeds a slave's decoder the bytes, and compares the decoded items, each with the position of its byte from 1.
fn slave_hears(
    rt: &impl Abort,
    ear: &mut SlaveEar<250>,
    bytes: &[u8],
    wanted: &[(usize, SlaveHeard)],
) {
    let mut told = 0usize;
    for (place, b) in bytes.iter().enumerate() {
        if let Some(heard) = ear.feed(*b) {
            is(rt, wanted.get(told).copied(), Some((place + 1, heard)));
            told = told.saturating_add(1);
        }
    }
    is(rt, told, wanted.len());
}

// Does the same with the master's decoder.
fn master_hears(
    rt: &impl Abort,
    ear: &mut MasterEar<250>,
    bytes: &[u8],
    wanted: &[(usize, MasterHeard)],
) {
    let mut told = 0usize;
    for (place, b) in bytes.iter().enumerate() {
        if let Some(heard) = ear.feed(*b) {
            is(rt, wanted.get(told).copied(), Some((place + 1, heard)));
            told = told.saturating_add(1);
        }
    }
    is(rt, told, wanted.len());
}

#[test]
fn a_slave_hears_messages_and_polls(rt: HostRuntime) {
    let mut cyclic = SlaveEar::<250>::new(Check::Crc);
    let bytes = [
        0x10, 0x01, 0x03, 0x10, 0x02, 0x03, 0x00, 0x06, 0x00, 0x01, 0x00, 0x00, 0x55, 0x10, 0x03,
        0x9E, 0xEF, 0x10, 0x05, 0x03, 0xFD,
    ];
    let wanted = [
        (5, SlaveHeard::Header(3)),
        (17, SlaveHeard::Addressed(3)),
        (21, SlaveHeard::Poll(3)),
    ];
    slave_hears(&rt, &mut cyclic, &bytes, &wanted);
    let mut block = SlaveEar::<250>::new(Check::Bcc);
    let bytes = [
        0x10, 0x01, 0x03, 0x10, 0x02, 0x03, 0x00, 0x0F, 0x00, 0x01, 0x00, 0xAA, 0x02, 0x07, 0x89,
        0x00, 0x00, 0x34, 0x12, 0x10, 0x03, 0x68,
    ];
    let wanted = [(5, SlaveHeard::Header(3)), (22, SlaveHeard::Addressed(3))];
    slave_hears(&rt, &mut block, &bytes, &wanted);
    let body = [
        0x03, 0x00, 0x0F, 0x00, 0x01, 0x00, 0xAA, 0x02, 0x07, 0x89, 0x00, 0x00, 0x34, 0x12,
    ];
    is(&rt, block.body(), body.as_slice());
}

#[test]
fn a_slave_hears_polls_of_any_station(rt: HostRuntime) {
    let mut ear = SlaveEar::<250>::new(Check::Crc);
    let bad = [(4, SlaveHeard::BadPoll)];
    slave_hears(&rt, &mut ear, &[0x10, 0x05, 0x03, 0xFC], &bad);
    let mut block = SlaveEar::<250>::new(Check::Bcc);
    slave_hears(&rt, &mut block, &[0x10, 0x05, 0x03, 0xFC], &bad);
    let sixteen = [(4, SlaveHeard::Poll(16))];
    slave_hears(&rt, &mut ear, &[0x10, 0x05, 0x10, 0xF0], &sixteen);
    let bytes = [0x10, 0x05, 0xF0, 0x10, 0x06, 0x10, 0x06];
    let wanted = [
        (4, SlaveHeard::Poll(0xF0)),
        (5, SlaveHeard::Stray(6)),
        (7, SlaveHeard::Ack),
    ];
    slave_hears(&rt, &mut ear, &bytes, &wanted);
    slave_hears(&rt, &mut ear, &[0x10, 0x05, 0x10, 0x01], &bad);
    let bytes = [0x10, 0x05, 0x03, 0x10, 0x01];
    let wanted = [(4, SlaveHeard::BadPoll), (5, SlaveHeard::Stray(1))];
    slave_hears(&rt, &mut ear, &bytes, &wanted);
}

#[test]
fn a_slave_hears_messages_that_are_cut_off(rt: HostRuntime) {
    let mut ear = SlaveEar::<250>::new(Check::Bcc);
    let bytes = [0x10, 0x01, 0x03, 0x10, 0x02, 0x41, 0x10, 0x05, 0x05, 0xFB];
    let wanted = [
        (5, SlaveHeard::Header(3)),
        (8, SlaveHeard::Damaged(3)),
        (10, SlaveHeard::Poll(5)),
    ];
    slave_hears(&rt, &mut ear, &bytes, &wanted);
    let bytes = [0x10, 0x01, 0x03, 0x10, 0x01, 0x10, 0x10, 0x02, 0x10, 0x01];
    let wanted = [
        (5, SlaveHeard::Damaged(3)),
        (8, SlaveHeard::Header(16)),
        (10, SlaveHeard::Damaged(16)),
    ];
    slave_hears(&rt, &mut ear, &bytes, &wanted);
    is(&rt, ear.inside(), true);
    let bytes = [0x04, 0x10, 0x10, 0x41];
    let wanted = [(3, SlaveHeard::Damaged(4)), (4, SlaveHeard::Stray(0x41))];
    slave_hears(&rt, &mut ear, &bytes, &wanted);
    let bytes = [0x10, 0x01, 0x03, 0x41, 0x10, 0x02];
    let wanted = [(4, SlaveHeard::Damaged(3)), (6, SlaveHeard::StrayPair(2))];
    slave_hears(&rt, &mut ear, &bytes, &wanted);
    let bytes = [
        0x10, 0x01, 0x03, 0x10, 0x02, 0x10, 0x02, 0x10, 0x15, 0x10, 0x0F,
    ];
    let wanted = [
        (5, SlaveHeard::Header(3)),
        (7, SlaveHeard::Damaged(3)),
        (9, SlaveHeard::Reset),
        (11, SlaveHeard::Reset),
    ];
    slave_hears(&rt, &mut ear, &bytes, &wanted);
}

#[test]
fn the_master_hears_messages_and_pairs(rt: HostRuntime) {
    let mut ear = MasterEar::<250>::new(Check::Bcc);
    let bytes = [0x10, 0x04, 0x10, 0x02, 0x00, 0x10, 0x02];
    let wanted = [(2, MasterHeard::Eot), (7, MasterHeard::Damaged)];
    master_hears(&rt, &mut ear, &bytes, &wanted);
    is(&rt, ear.inside(), true);
    let bytes = [0x00, 0x03, 0x4F, 0x00, 0x01, 0x00, 0x10, 0x03, 0xAD];
    master_hears(&rt, &mut ear, &bytes, &[(9, MasterHeard::Good)]);
    is(
        &rt,
        ear.body(),
        [0x00, 0x03, 0x4F, 0x00, 0x01, 0x00].as_slice(),
    );
    let bytes = [
        0x10, 0x02, 0x10, 0x06, 0x41, 0x10, 0x06, 0x10, 0x0F, 0x10, 0x05,
    ];
    let wanted = [
        (4, MasterHeard::Damaged),
        (5, MasterHeard::Stray(0x41)),
        (7, MasterHeard::Ack),
        (9, MasterHeard::Nak),
        (11, MasterHeard::StrayPair(5)),
    ];
    master_hears(&rt, &mut ear, &bytes, &wanted);
}

// Feeds a slave and the master a message of this many zero bytes, and returns what each decodes at its last byte.
fn messages_of_zeros(rt: &impl Abort, len: u16) -> (Option<SlaveHeard>, Option<MasterHeard>) {
    let mut slave = SlaveEar::<250>::new(Check::Bcc);
    let mut master = MasterEar::<250>::new(Check::Bcc);
    let header = [(5, SlaveHeard::Header(3))];
    slave_hears(rt, &mut slave, &[0x10, 0x01, 0x03, 0x10, 0x02], &header);
    master_hears(rt, &mut master, &[0x10, 0x02], &[]);
    for _ in 0..len {
        slave_hears(rt, &mut slave, &[0x00], &[]);
        master_hears(rt, &mut master, &[0x00], &[]);
    }
    is(rt, slave.held(), usize::from(len.min(250)));
    is(rt, master.held(), usize::from(len.min(250)));
    slave_hears(rt, &mut slave, &[0x10, 0x03], &[]);
    master_hears(rt, &mut master, &[0x10, 0x03], &[]);
    (slave.feed(0xFD), master.feed(0x00))
}

#[test]
fn both_hear_the_sizes_of_bodies(rt: HostRuntime) {
    let right = (Some(SlaveHeard::Addressed(3)), Some(MasterHeard::Good));
    let wrong = (Some(SlaveHeard::Damaged(3)), Some(MasterHeard::Damaged));
    is(&rt, messages_of_zeros(&rt, 5), wrong);
    is(&rt, messages_of_zeros(&rt, 6), right);
    is(&rt, messages_of_zeros(&rt, 250), right);
    is(&rt, messages_of_zeros(&rt, 251), wrong);
}

#[test]
fn both_take_the_bytes_before_a_dle_at_once(rt: HostRuntime) {
    let mut slave = SlaveEar::<250>::new(Check::Bcc);
    is(&rt, slave.feed_run(&[0x41, 0x42, 0x10]), 2);
    let header = [(5, SlaveHeard::Header(3))];
    slave_hears(&rt, &mut slave, &[0x10, 0x01, 0x03, 0x10, 0x02], &header);
    is(
        &rt,
        slave.feed_run(&[0x03, 0x00, 0x06, 0x00, 0x01, 0x00]),
        6,
    );
    is(&rt, slave.feed_run(&[0x10, 0x03]), 0);
    is(&rt, slave.held(), 6);
    slave_hears(&rt, &mut slave, &[0x10], &[]);
    is(&rt, slave.feed_run(&[0x03]), 0);
    let addressed = [(2, SlaveHeard::Addressed(3))];
    slave_hears(&rt, &mut slave, &[0x03, 0xF3], &addressed);
    is(&rt, slave.feed_run(&[0x41]), 1);
    is(&rt, slave.body().is_empty(), true);
    let mut master = MasterEar::<250>::new(Check::Bcc);
    is(&rt, master.feed_run(&[0x41, 0x42, 0x10]), 2);
    master_hears(&rt, &mut master, &[0x10, 0x02], &[]);
    is(&rt, master.feed_run(&[0x00, 0x03, 0x4F]), 3);
    is(&rt, master.feed_run(&[0x00, 0x01, 0x00, 0x10]), 3);
    let good = [(3, MasterHeard::Good)];
    master_hears(&rt, &mut master, &[0x10, 0x03, 0xAD], &good);
    is(&rt, master.feed_run(&[]), 0);
    is(
        &rt,
        master.body(),
        [0x00, 0x03, 0x4F, 0x00, 0x01, 0x00].as_slice(),
    );
    is(&rt, master.feed_run(&[0x41]), 1);
    is(&rt, master.body().is_empty(), true);
}

// Takes the bytes of a framer, and compares them.
fn gives(rt: &impl Abort, framer: HalfFramer, wanted: &[u8]) {
    let mut framer = framer;
    for b in wanted {
        is(rt, framer.done(), false);
        is(rt, framer.next_byte(), Some(*b));
    }
    is(rt, framer.done(), true);
    is(rt, framer.next_byte(), None);
}

#[test]
fn gives_messages_polls_and_pairs(rt: HostRuntime) {
    let body = [0x03, 0x00, 0x06, 0x00, 0x01, 0x00, 0x00, 0x55];
    let bytes = [
        0x10, 0x01, 0x03, 0x10, 0x02, 0x03, 0x00, 0x06, 0x00, 0x01, 0x00, 0x00, 0x55, 0x10, 0x03,
        0x9E, 0xEF,
    ];
    gives(&rt, HalfFramer::message(3, &body, Check::Crc), &bytes);
    let body = [0x10, 0x00, 0x06, 0x00, 0x01, 0x00];
    let bytes = [
        0x10, 0x01, 0x03, 0x10, 0x02, 0x10, 0x10, 0x00, 0x06, 0x00, 0x01, 0x00, 0x10, 0x03, 0xE6,
    ];
    gives(&rt, HalfFramer::message(3, &body, Check::Bcc), &bytes);
    gives(&rt, HalfFramer::poll(3), &[0x10, 0x05, 0x03, 0xFD]);
    let body = [0x07, 0x00, 0x06, 0x00, 0x01, 0x00, 0x00, 0xE2];
    let bytes = [
        0x10, 0x02, 0x07, 0x00, 0x06, 0x00, 0x01, 0x00, 0x00, 0xE2, 0x10, 0x03, 0x10,
    ];
    gives(&rt, HalfFramer::reply(&body, Check::Bcc), &bytes);
    gives(&rt, HalfFramer::pair(EOT), &[0x10, 0x04]);
}

#[test]
fn marks_the_bytes_of_a_body(rt: HostRuntime) {
    let mut framer = HalfFramer::reply(&[0x41, 0x10, 0x03], Check::Bcc);
    let wanted = [
        (0x10, false),
        (0x02, false),
        (0x41, true),
        (0x10, false),
        (0x10, false),
        (0x03, true),
        (0x10, false),
        (0x03, false),
        (0xAC, false),
    ];
    for (byte, of_body) in wanted.iter() {
        let sent = Sent {
            byte: *byte,
            of_body: *of_body,
        };
        is(&rt, framer.next_sent(), Some(sent));
    }
    is(&rt, framer.done(), true);
    is(&rt, framer.next_sent(), None);
}
