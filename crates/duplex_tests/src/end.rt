//! Tests of one end with a host that has one message to send and accepts every message.
use crate::equal::is;
use arrayvec::ArrayVec;
use df1_base::{Act, Did, Fate, Host, News, Turn};
use df1_check::Check;
use duplex_end::{End, Setup};
use duplex_sender::Limits;
use std::process::Abort;

const COMMAND: [u8; 14] = [
    0x01, 0x00, 0x0F, 0x00, 0x01, 0x00, 0xAA, 0x02, 0x07, 0x89, 0x00, 0x00, 0x34, 0x12,
];

pub(crate) const COMMAND_FRAME: [u8; 19] = [
    0x10, 0x02, 0x01, 0x00, 0x0F, 0x00, 0x01, 0x00, 0xAA, 0x02, 0x07, 0x89, 0x00, 0x00, 0x34, 0x12,
    0x10, 0x03, 0x6D,
];

pub(crate) const REPLY_FRAME: [u8; 11] = [
    0x10, 0x02, 0x00, 0x01, 0x4F, 0x00, 0x01, 0x00, 0x10, 0x03, 0xAF,
];

/// A host that hands the command out once, and answers each message and each fate.
#[derive(Drop)]
pub(crate) struct OneCommand {
    waits: bool,
    is_out: bool,
}

impl Host for OneCommand {
    ghost use Rattle.std.specs.Prelude.{true, false, [], Some, None, if◌then◌else◌};
    ghost use Rattle.std.proofs.Common.{refl, rules};
    ghost use Rattle.df1_base.specs.declared.host.Did.TheVariants as did_of;
    ghost use Rattle.df1_base.specs.declared.host.Fate.TheVariants as fate_of;
    ghost use Rattle.df1_base.specs.declared.host.News.TheVariants as news_of;
    ghost use Rattle.duplex_tests.specs.declared.end.TheConstants.{COMMAND};

    ghost room_for = { λ _ _. true };

    ghost did = { λ _ _. did_of.Answered 1 };

    ghost after_accept = { λ h _. h };

    ghost next_body = { λ h. if h.waits then Some COMMAND else None };

    ghost after_next = { λ h. if h.waits then record { waits = false; is_out = true } else h };

    ghost is_out = { λ h. h.is_out };

    ghost news = { λ h fate. elim fate [ fate_of.Delivered ↦ news_of.Nothing | fate_of.Undelivered ↦ if h.is_out then news_of.Undelivered 1 else news_of.Nothing ] };

    ghost after_told = { λ h _. record h { is_out = false } };

    ghost unanswered = { λ _. [] };

    ghost after_tick = { λ h. h };

    ghost after_clear = { λ h. record h { waits = false } };

    ghost holds_bodies = { λ _. Unit {0} };

    fn has_room(&self, _body: &[u8]) -> bool {
        true
    }

    fn accept(&mut self, _body: &[u8]) -> Did {
        Did::Answered(1)
    }

    fn ready(&self) -> bool {
        self.waits
    }

    fn next(&mut self, into: &mut ArrayVec<u8, 250>) -> bool {
        if !self.waits {
            return false;
        }
        self.waits = false;
        self.is_out = true;
        into.clear();
        let fits = into.try_extend_from_slice(&COMMAND).is_ok();
        prove!(fits);
        true
    }

    fn told(&mut self, fate: Fate) -> News {
        let was_out = self.is_out;
        self.is_out = false;
        match fate {
            Fate::Undelivered if was_out => News::Undelivered(1),
            Fate::Undelivered | Fate::Delivered => News::Nothing,
        }
    }

    fn tick(&mut self, gone: &mut ArrayVec<u32, 16>) {
        gone.clear();
    }

    fn clear(&mut self) {
        self.waits = false;
    }

    ghost next_of_none = { Prim.grind rules };

    ghost out_at_next = { Prim.grind rules };

    ghost told_of_none = { Prim.grind rules };

    ghost out_at_told = { λ _ _. refl };

    ghost out_at_accept = { λ _ _. refl };

    ghost out_at_tick = { λ _. refl };

    ghost out_at_clear = { λ _. refl };

    ghost unanswered_rise = { Prim.search rules };

    ghost none_at_clear = { λ _. refl };

    ghost body_at_next = { Prim.grind rules };

    ghost bodies_at_accept = { λ _ _ _ _ _. tt };

    ghost bodies_at_next = { λ _ _. tt };

    ghost bodies_at_told = { λ _ _ _. tt };

    ghost bodies_at_tick = { λ _ _. tt };

    ghost bodies_at_clear = { λ _ _. tt };
}

pub(crate) fn end_with_embedding() -> End<OneCommand> {
    End::new(
        Setup {
            check: Check::Bcc,
            embed: true,
            limits: Limits {
                ack_ticks: 2,
                max_naks: 1,
                max_enqs: 1,
            },
        },
        OneCommand {
            waits: true,
            is_out: false,
        },
    )
}

/// Checks that the end sends these bytes.
fn gives(rt: &impl Abort, end: &mut End<OneCommand>, bytes: &[u8]) {
    for b in bytes {
        is(rt, end.quiet(), false);
        let given = end.take().map(|out| out.byte);
        is(rt, given, Some(*b));
    }
}

/// Returns the act at the last of these bytes, with the host's news.
fn hears(end: &mut End<OneCommand>, bytes: &[u8]) -> (Act, Option<Did>, News) {
    let mut last = (Act::Nothing, None, News::Nothing);
    for b in bytes {
        let step = end.on_byte(*b);
        last = (step.act, step.did, step.news);
    }
    last
}

#[test]
fn an_ordinary_exchange(rt: HostRuntime) {
    let mut end = end_with_embedding();
    is(&rt, end.sending().len(), 0);
    is(&rt, end.is_waiting(), false);
    gives(&rt, &mut end, &COMMAND_FRAME);
    is(&rt, end.quiet(), true);
    is(&rt, end.is_waiting(), true);
    is(&rt, end.take(), None);
    is(&rt, end.sending(), COMMAND.as_slice());
    is(
        &rt,
        hears(&mut end, &[0x10, 0x06]),
        (Act::PeerAck, None, News::Nothing),
    );
    is(&rt, end.is_waiting(), false);
    is(
        &rt,
        hears(&mut end, &REPLY_FRAME),
        (Act::Accept, Some(Did::Answered(1)), News::Nothing),
    );
    is(&rt, end.body().len(), 6);
    gives(&rt, &mut end, &[0x10, 0x06]);
    is(&rt, end.quiet(), true);
}

#[test]
fn a_response_stands_in_the_frame(rt: HostRuntime) {
    let mut end = end_with_embedding();
    gives(&rt, &mut end, &COMMAND_FRAME[..8]);
    is(&rt, hears(&mut end, &REPLY_FRAME).0, Act::Accept);
    gives(&rt, &mut end, &[0x10, 0x06]);
    gives(&rt, &mut end, &COMMAND_FRAME[8..]);
    is(&rt, hears(&mut end, &REPLY_FRAME).0, Act::Repeat);
    gives(&rt, &mut end, &[0x10, 0x06]);
}

#[test]
fn a_wish_for_an_enq_is_dropped_at_an_ack(rt: HostRuntime) {
    let mut gone = ArrayVec::new();
    let mut end = end_with_embedding();
    gives(&rt, &mut end, &COMMAND_FRAME);
    is(&rt, end.on_tick(&mut gone), Turn::Still);
    is(&rt, end.on_tick(&mut gone), Turn::Ask);
    is(&rt, end.quiet(), false);
    is(&rt, hears(&mut end, &[0x10, 0x06]).0, Act::PeerAck);
    is(&rt, end.quiet(), true);
}

#[test]
fn a_lost_answer_is_asked_for_and_a_nak_sends_again(rt: HostRuntime) {
    let mut gone = ArrayVec::new();
    let mut end = end_with_embedding();
    gives(&rt, &mut end, &COMMAND_FRAME);
    is(&rt, end.on_tick(&mut gone), Turn::Still);
    is(&rt, end.on_tick(&mut gone), Turn::Ask);
    gives(&rt, &mut end, &[0x10, 0x05]);
    is(&rt, hears(&mut end, &[0x10, 0x15]).0, Act::PeerNak);
    gives(&rt, &mut end, &COMMAND_FRAME);
    is(&rt, end.on_tick(&mut gone), Turn::Still);
    is(
        &rt,
        end.on_tick(&mut gone),
        Turn::Failed(News::Undelivered(1)),
    );
    is(&rt, end.quiet(), true);
    end.host_mut().waits = true;
    is(&rt, end.host().waits, true);
    gives(&rt, &mut end, &COMMAND_FRAME);
}
