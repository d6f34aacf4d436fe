//! Tests of messages that are delivered and given up, at small limits.
use crate::equal::is;
use df1_base::Fate;
use duplex_sender::{Limits, Phase, SendTurn, Sender};

const BODY: [u8; 8] = [0x01, 0x00, 0x06, 0x00, 0x01, 0x00, 0x00, 0x55];

#[test]
fn a_message_is_asked_about_once_and_then_given_up(rt: HostRuntime) {
    let mut sender = Sender::new(Limits {
        ack_ticks: 2,
        max_naks: 1,
        max_enqs: 1,
    });
    sender.load(&BODY);
    sender.sent_last();
    is(&rt, sender.on_tick(), SendTurn::Still);
    is(&rt, sender.on_tick(), SendTurn::Ask);
    is(&rt, sender.on_tick(), SendTurn::Still);
    is(&rt, sender.on_tick(), SendTurn::Failed);
    is(&rt, sender.phase(), Phase::Idle);
    sender.load(&BODY);
    sender.sent_last();
    is(&rt, sender.on_nak(), None);
    sender.sent_last();
    is(&rt, sender.on_nak(), Some(Fate::Undelivered));
}

#[test]
fn limits_of_zero_give_a_message_up_at_once(rt: HostRuntime) {
    let mut sender = Sender::new(Limits {
        ack_ticks: 1,
        max_naks: 0,
        max_enqs: 0,
    });
    sender.load(&BODY);
    is(&rt, sender.on_ack(), None);
    sender.sent_last();
    is(&rt, sender.body(), BODY.as_slice());
    is(&rt, sender.on_nak(), Some(Fate::Undelivered));
    sender.load(&BODY);
    sender.sent_last();
    is(&rt, sender.on_tick(), SendTurn::Failed);
    sender.load(&BODY);
    sender.sent_last();
    is(&rt, sender.on_ack(), Some(Fate::Delivered));
}
