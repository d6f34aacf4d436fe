//! Tests of a slave of station 3, over a host that has one reply to hand out and may have room.
use crate::equal::is;
use arrayvec::ArrayVec;
use df1_base::{Act, Did, Fate, Host, News, Out, Step};
use df1_check::Check;
use half_slave::{Slave, SlaveSetup};
use std::process::Abort;

const COMMAND: [u8; 14] = [
    0x03, 0x00, 0x0F, 0x00, 0x01, 0x00, 0xAA, 0x02, 0x07, 0x89, 0x00, 0x00, 0x34, 0x12,
];

const COMMAND_MESSAGE: [u8; 22] = [
    0x10, 0x01, 0x03, 0x10, 0x02, 0x03, 0x00, 0x0F, 0x00, 0x01, 0x00, 0xAA, 0x02, 0x07, 0x89, 0x00,
    0x00, 0x34, 0x12, 0x10, 0x03, 0x68,
];

const REPLY: [u8; 6] = [0x00, 0x03, 0x4F, 0x00, 0x01, 0x00];

const REPLY_MESSAGE: [u8; 11] = [
    0x10, 0x02, 0x00, 0x03, 0x4F, 0x00, 0x01, 0x00, 0x10, 0x03, 0xAD,
];

const POLL_3: [u8; 4] = [0x10, 0x05, 0x03, 0xFD];

const POLL_5: [u8; 4] = [0x10, 0x05, 0x05, 0xFB];

const BAD_POLL: [u8; 4] = [0x10, 0x05, 0x03, 0xFC];

const HEADER_5: [u8; 5] = [0x10, 0x01, 0x05, 0x10, 0x02];

const ACK: [u8; 2] = [0x10, 0x06];

const NAK: [u8; 2] = [0x10, 0x15];

const EOT: [u8; 2] = [0x10, 0x04];

/// A host that hands the reply out once, and executes each message that it accepts.
#[derive(Drop)]
struct OneReply {
    waits: bool,
    is_out: bool,
    has_room: bool,
    was_cleared: bool,
}

impl Host for OneReply {
    ghost use Rattle.std.specs.Prelude.{true, false, [], Some, None, if◌then◌else◌};
    ghost use Rattle.std.proofs.Common.{refl, rules};
    ghost use Rattle.df1_base.specs.declared.host.Did.TheVariants as did_of;
    ghost use Rattle.df1_base.specs.declared.host.Fate.TheVariants as fate_of;
    ghost use Rattle.df1_base.specs.declared.host.News.TheVariants as news_of;
    ghost use Rattle.half_duplex_tests.specs.declared.slave.TheConstants.{REPLY};

    ghost room_for = { λ h _. h.has_room };

    ghost did = { λ _ _. did_of.Executed };

    ghost after_accept = { λ h _. h };

    ghost next_body = { λ h. if h.waits then Some REPLY else None };

    ghost after_next = { λ h. if h.waits then record h { waits = false; is_out = true } else h };

    ghost is_out = { λ h. h.is_out };

    ghost news = { λ h fate. elim fate [ fate_of.Delivered ↦ news_of.Nothing | fate_of.Undelivered ↦ if h.is_out then news_of.Dropped else news_of.Nothing ] };

    ghost after_told = { λ h _. record h { is_out = false } };

    ghost unanswered = { λ _. [] };

    ghost after_tick = { λ h. h };

    ghost after_clear = { λ h. record h { waits = false; was_cleared = true } };

    ghost holds_bodies = { λ _. Unit {0} };

    fn has_room(&self, _body: &[u8]) -> bool {
        self.has_room
    }

    fn accept(&mut self, _body: &[u8]) -> Did {
        Did::Executed
    }

    fn ready(&self) -> bool {
        self.waits
    }

    fn next(&mut self, into: &mut ArrayVec<u8, 250>) -> bool {
        if !self.waits {
            return false;
        }
        self.waits = false;
        self.is_out = true;
        into.clear();
        let fits = into.try_extend_from_slice(&REPLY).is_ok();
        prove!(fits);
        true
    }

    fn told(&mut self, fate: Fate) -> News {
        let was_out = self.is_out;
        self.is_out = false;
        match fate {
            Fate::Undelivered if was_out => News::Dropped,
            Fate::Undelivered | Fate::Delivered => News::Nothing,
        }
    }

    fn tick(&mut self, gone: &mut ArrayVec<u32, 16>) {
        gone.clear();
    }

    fn clear(&mut self) {
        self.waits = false;
        self.was_cleared = true;
    }

    ghost next_of_none = { Prim.grind rules };

    ghost out_at_next = { Prim.grind rules };

    ghost told_of_none = { Prim.grind rules };

    ghost out_at_told = { λ _ _. refl };

    ghost out_at_accept = { λ _ _. refl };

    ghost out_at_tick = { λ _. refl };

    ghost out_at_clear = { λ _. refl };

    ghost unanswered_rise = { Prim.search rules };

    ghost none_at_clear = { λ _. refl };

    ghost body_at_next = { Prim.grind rules };

    ghost bodies_at_accept = { λ _ _ _ _ _. tt };

    ghost bodies_at_next = { λ _ _. tt };

    ghost bodies_at_told = { λ _ _ _. tt };

    ghost bodies_at_tick = { λ _ _. tt };

    ghost bodies_at_clear = { λ _ _. tt };
}

/// Returns a slave of station 3 whose host has the reply to hand out.
fn slave_with_reply(has_room: bool) -> Slave<OneReply> {
    Slave::new(
        SlaveSetup {
            station: 3,
            check: Check::Bcc,
            max_sends: 2,
        },
        OneReply {
            waits: true,
            is_out: false,
            has_room,
            was_cleared: false,
        },
    )
}

/// Checks that the slave sends these bytes.
fn gives(rt: &impl Abort, slave: &mut Slave<OneReply>, bytes: &[u8]) {
    for b in bytes {
        is(rt, slave.quiet(), false);
        let given = slave.take().map(|out| out.byte);
        is(rt, given, Some(*b));
    }
}

/// Checks that the slave sends these bytes, and then nothing.
fn gives_all(rt: &impl Abort, slave: &mut Slave<OneReply>, bytes: &[u8]) {
    gives(rt, slave, bytes);
    is(rt, slave.quiet(), true);
    is(rt, slave.take(), None);
}

/// Returns the step at the last of these bytes.
fn hears(slave: &mut Slave<OneReply>, bytes: &[u8]) -> Step {
    let mut last = plain(Act::Nothing, News::Nothing);
    for b in bytes {
        last = slave.on_byte(*b);
    }
    last
}

/// Returns a step at which no whole message was received.
fn plain(act: Act, news: News) -> Step {
    Step {
        act,
        did: None,
        news,
        whole: false,
        station: 0,
    }
}

#[test]
fn a_reply_is_given_up_after_two_polls_without_an_ack(rt: HostRuntime) {
    let mut slave = slave_with_reply(true);
    let still = plain(Act::Nothing, News::Nothing);
    is(&rt, slave.quiet(), true);
    for _ in 0..2 {
        is(&rt, hears(&mut slave, &POLL_3), still);
        gives_all(&rt, &mut slave, &REPLY_MESSAGE);
        is(&rt, slave.sending(), REPLY.as_slice());
    }
    is(
        &rt,
        hears(&mut slave, &POLL_3),
        plain(Act::Nothing, News::Dropped),
    );
    gives_all(&rt, &mut slave, &EOT);
}

#[test]
fn each_sending_of_a_reply_is_a_transmission(rt: HostRuntime) {
    let mut slave = slave_with_reply(true);
    for number in 1..3 {
        hears(&mut slave, &POLL_3);
        for (place, b) in REPLY_MESSAGE.iter().enumerate() {
            // The body is the six bytes after DLE STX, none of which is doubled.
            let wanted = Out {
                byte: *b,
                last_of: (place + 1 == REPLY_MESSAGE.len()).then_some(number),
                body_of: (2..8).contains(&place).then_some(number),
            };
            is(&rt, slave.take(), Some(wanted));
        }
    }
    // A response and EOT are not transmissions.
    hears(&mut slave, &COMMAND_MESSAGE);
    for b in ACK {
        let wanted = Out {
            byte: b,
            last_of: None,
            body_of: None,
        };
        is(&rt, slave.take(), Some(wanted));
    }
}

#[test]
fn a_command_is_accepted_and_its_repeat_passed_over(rt: HostRuntime) {
    let mut slave = slave_with_reply(true);
    let step = hears(&mut slave, &COMMAND_MESSAGE);
    let accepted = Step {
        act: Act::Accept,
        did: Some(Did::Executed),
        news: News::Nothing,
        whole: true,
        station: 3,
    };
    is(&rt, step, accepted);
    is(&rt, slave.body(), COMMAND.as_slice());
    gives_all(&rt, &mut slave, &ACK);
    is(&rt, hears(&mut slave, &COMMAND_MESSAGE).act, Act::Repeat);
    gives_all(&rt, &mut slave, &ACK);
}

#[test]
fn a_refused_command_is_refused_again(rt: HostRuntime) {
    let mut slave = slave_with_reply(false);
    for _ in 0..2 {
        is(&rt, hears(&mut slave, &COMMAND_MESSAGE).act, Act::Refuse);
        gives_all(&rt, &mut slave, &NAK);
    }
    slave.host_mut().has_room = true;
    is(&rt, hears(&mut slave, &COMMAND_MESSAGE).act, Act::Accept);
}

#[test]
fn a_message_to_another_station_is_heard_and_passed_over(rt: HostRuntime) {
    let mut slave = slave_with_reply(true);
    let mut message = COMMAND_MESSAGE;
    message[2] = 0x05;
    message[21] = 0x66;
    let passed = Step {
        act: Act::Nothing,
        did: None,
        news: News::Nothing,
        whole: true,
        station: 5,
    };
    is(&rt, hears(&mut slave, &message), passed);
    is(&rt, slave.quiet(), true);
    message[21] = 0x67;
    is(
        &rt,
        hears(&mut slave, &message),
        plain(Act::Nothing, News::Nothing),
    );
    message[2] = 0x03;
    is(
        &rt,
        hears(&mut slave, &message),
        plain(Act::Damaged, News::Nothing),
    );
    is(&rt, slave.quiet(), true);
}

#[test]
fn an_ack_counts_while_the_wait_is_open(rt: HostRuntime) {
    let mut slave = slave_with_reply(true);
    let acked = plain(Act::PeerAck, News::Nothing);
    for closing in [HEADER_5.as_slice(), POLL_5.as_slice(), BAD_POLL.as_slice()] {
        slave = slave_with_reply(true);
        let _ = hears(&mut slave, &POLL_3);
        gives_all(&rt, &mut slave, &REPLY_MESSAGE);
        let _ = hears(&mut slave, closing);
        let _ = hears(&mut slave, &[0x10, 0x03, 0xFB]);
        is(&rt, hears(&mut slave, &ACK), acked);
        is(&rt, slave.host().is_out, true);
    }
    let _ = hears(&mut slave, &POLL_3);
    gives(&rt, &mut slave, &REPLY_MESSAGE[..10]);
    let _ = hears(&mut slave, &POLL_5);
    is(&rt, hears(&mut slave, &ACK), acked);
    is(&rt, slave.host().is_out, true);
    gives_all(&rt, &mut slave, &REPLY_MESSAGE[10..]);
    is(&rt, hears(&mut slave, &ACK), acked);
    is(&rt, slave.host().is_out, false);
    let _ = hears(&mut slave, &POLL_3);
    gives_all(&rt, &mut slave, &EOT);
}

#[test]
fn what_was_begun_is_given_to_its_end_after_a_reset(rt: HostRuntime) {
    let mut slave = slave_with_reply(true);
    let _ = hears(&mut slave, &POLL_3);
    gives(&rt, &mut slave, &REPLY_MESSAGE[..4]);
    is(
        &rt,
        hears(&mut slave, &NAK),
        plain(Act::PeerNak, News::Dropped),
    );
    is(&rt, slave.host().was_cleared, true);
    let _ = hears(&mut slave, &POLL_3);
    gives_all(&rt, &mut slave, &REPLY_MESSAGE[4..]);
    is(
        &rt,
        hears(&mut slave, &ACK),
        plain(Act::PeerAck, News::Nothing),
    );
    is(
        &rt,
        hears(&mut slave, &POLL_3),
        plain(Act::Nothing, News::Nothing),
    );
    gives_all(&rt, &mut slave, &EOT);
}

#[test]
fn a_poll_does_nothing_while_a_response_waits(rt: HostRuntime) {
    let mut slave = slave_with_reply(true);
    let _ = hears(&mut slave, &POLL_3);
    gives(&rt, &mut slave, &REPLY_MESSAGE[..4]);
    is(&rt, hears(&mut slave, &COMMAND_MESSAGE).act, Act::Accept);
    gives(&rt, &mut slave, &REPLY_MESSAGE[4..]);
    let _ = hears(&mut slave, &POLL_3);
    gives_all(&rt, &mut slave, &ACK);
    let _ = hears(&mut slave, &POLL_3);
    gives_all(&rt, &mut slave, &REPLY_MESSAGE);
}
