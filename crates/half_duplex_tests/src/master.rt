//! Tests of a master with a host that has one message to send, for station 3, and accepts every message while it has
//! room.
use crate::equal::is;
use arrayvec::ArrayVec;
use df1_base::{Act, Did, Fate, Host, News, Out, Turn};
use df1_check::Check;
use half_master::{Master, MasterSetup};
use std::process::Abort;

pub(crate) const COMMAND: [u8; 14] = [
    0x03, 0x00, 0x0F, 0x00, 0x01, 0x00, 0xAA, 0x02, 0x07, 0x89, 0x00, 0x00, 0x34, 0x12,
];

const COMMAND_SENT: [u8; 22] = [
    0x10, 0x01, 0x03, 0x10, 0x02, 0x03, 0x00, 0x0F, 0x00, 0x01, 0x00, 0xAA, 0x02, 0x07, 0x89, 0x00,
    0x00, 0x34, 0x12, 0x10, 0x03, 0x68,
];

pub(crate) const POLL_OF_3: [u8; 4] = [0x10, 0x05, 0x03, 0xFD];

const POLL_OF_5: [u8; 4] = [0x10, 0x05, 0x05, 0xFB];

const REPLY_OF_3: [u8; 11] = [
    0x10, 0x02, 0x00, 0x03, 0x4F, 0x00, 0x01, 0x00, 0x10, 0x03, 0xAD,
];

const REPLY_OF_5: [u8; 11] = [
    0x10, 0x02, 0x00, 0x05, 0x4F, 0x00, 0x01, 0x00, 0x10, 0x03, 0xAB,
];

pub(crate) const ACK: [u8; 2] = [0x10, 0x06];

const NAK: [u8; 2] = [0x10, 0x15];

const EOT: [u8; 2] = [0x10, 0x04];

/// A host that hands the command out once, accepts messages while it has room, and reports each tick.
#[derive(Drop)]
pub(crate) struct OneCommand {
    waits: bool,
    is_out: bool,
    pub(crate) room: bool,
}

impl Host for OneCommand {
    ghost use Rattle.std.specs.Prelude.{true, false, [], ◌∷◌, Some, None, if◌then◌else◌};
    ghost use Rattle.std.proofs.Common.{refl, rules};
    ghost use Rattle.df1_base.specs.declared.host.Did.TheVariants as did_of;
    ghost use Rattle.df1_base.specs.declared.host.Fate.TheVariants as fate_of;
    ghost use Rattle.df1_base.specs.declared.host.News.TheVariants as news_of;
    ghost use Rattle.half_duplex_tests.specs.declared.master.TheConstants.{COMMAND};

    ghost room_for = { λ h _. h.room };

    ghost did = { λ _ _. did_of.Answered 1 };

    ghost after_accept = { λ h _. h };

    ghost next_body = { λ h. if h.waits then Some COMMAND else None };

    ghost after_next = { λ h. if h.waits then record { waits = false; is_out = true; room = h.room } else h };

    ghost is_out = { λ h. h.is_out };

    ghost news = { λ h fate. elim fate [ fate_of.Delivered ↦ news_of.Nothing | fate_of.Undelivered ↦ if h.is_out then news_of.Undelivered 1 else news_of.Nothing ] };

    ghost after_told = { λ h _. record h { is_out = false } };

    ghost unanswered = { λ _. 7 ∷ [] };

    ghost after_tick = { λ h. h };

    ghost after_clear = { λ h. record h { waits = false } };

    ghost holds_bodies = { λ _. Unit {0} };

    fn has_room(&self, _body: &[u8]) -> bool {
        self.room
    }

    fn accept(&mut self, _body: &[u8]) -> Did {
        Did::Answered(1)
    }

    fn ready(&self) -> bool {
        self.waits
    }

    fn next(&mut self, into: &mut ArrayVec<u8, 250>) -> bool {
        if !self.waits {
            return false;
        }
        self.waits = false;
        self.is_out = true;
        into.clear();
        let fits = into.try_extend_from_slice(&COMMAND).is_ok();
        prove!(fits);
        true
    }

    fn told(&mut self, fate: Fate) -> News {
        let was_out = self.is_out;
        self.is_out = false;
        match fate {
            Fate::Undelivered if was_out => News::Undelivered(1),
            Fate::Undelivered | Fate::Delivered => News::Nothing,
        }
    }

    fn tick(&mut self, gone: &mut ArrayVec<u32, 16>) {
        gone.clear();
        gone.push(7);
    }

    fn clear(&mut self) {
        self.waits = false;
    }

    ghost next_of_none = { Prim.grind rules };

    ghost out_at_next = { Prim.grind rules };

    ghost told_of_none = { Prim.grind rules };

    ghost out_at_told = { λ _ _. refl };

    ghost out_at_accept = { λ _ _. refl };

    ghost out_at_tick = { λ _. refl };

    ghost out_at_clear = { λ _. refl };

    ghost unanswered_rise = { Prim.search rules };

    ghost none_at_clear = { λ _. refl };

    ghost body_at_next = { Prim.grind rules };

    ghost bodies_at_accept = { λ _ _ _ _ _. tt };

    ghost bodies_at_next = { λ _ _. tt };

    ghost bodies_at_told = { λ _ _ _. tt };

    ghost bodies_at_tick = { λ _ _. tt };

    ghost bodies_at_clear = { λ _ _. tt };
}

/// Waits of two ticks, and one retransmission of a message.
const SETUP: MasterSetup = MasterSetup {
    check: Check::Bcc,
    ack_ticks: 2,
    max_resends: 1,
    poll_ticks: 2,
};

/// Returns a host with room and no message outstanding, which may have one to send.
pub(crate) fn host_of(waits: bool) -> OneCommand {
    OneCommand {
        waits,
        is_out: false,
        room: true,
    }
}

/// Returns a master of the stations 3 and 5, over a host.
pub(crate) fn master_over<H: Host + Drop>(host: H) -> Master<H> {
    Master::new(SETUP, &[3, 5], host)
}

/// Returns a master of the stations 3 and 5, over a host that may have a message to send.
fn master_of_two(waits: bool) -> Master<OneCommand> {
    master_over(host_of(waits))
}

/// Returns a master of no stations.
fn master_of_none() -> Master<OneCommand> {
    Master::new(SETUP, &[], host_of(true))
}

/// Checks that the master sends these bytes, and then no more.
pub(crate) fn gives<H: Host + Drop>(rt: &impl Abort, master: &mut Master<H>, bytes: &[u8]) {
    for b in bytes {
        is(rt, master.quiet(), false);
        let given = master.take().map(|out| out.byte);
        is(rt, given, Some(*b));
    }
    is(rt, master.quiet(), true);
    is(rt, master.take(), None);
}

/// Returns the act at the last of these bytes, with what the host did and answered.
pub(crate) fn hears<H: Host + Drop>(
    master: &mut Master<H>,
    bytes: &[u8],
) -> (Act, Option<Did>, News) {
    let mut last = (Act::Nothing, None, News::Nothing);
    for b in bytes {
        let step = master.on_byte(*b);
        last = (step.act, step.did, step.news);
    }
    last
}

/// Returns the turn at a tick, with the number of commands that are unanswered from it on.
pub(crate) fn ticks<H: Host + Drop>(master: &mut Master<H>) -> (Turn, usize) {
    let mut gone = ArrayVec::new();
    gone.push(9);
    gone.push(9);
    let turn = master.on_tick(&mut gone);
    (turn, gone.len())
}

#[test]
fn a_message_that_nobody_acknowledges_is_given_twice(rt: HostRuntime) {
    let mut master = master_of_two(true);
    is(&rt, master.sending().len(), 0);
    gives(&rt, &mut master, &COMMAND_SENT);
    is(&rt, master.sending(), COMMAND.as_slice());
    is(&rt, ticks(&mut master), (Turn::Still, 0));
    is(&rt, master.quiet(), true);
    is(&rt, ticks(&mut master), (Turn::Still, 0));
    gives(&rt, &mut master, &COMMAND_SENT);
    is(&rt, ticks(&mut master), (Turn::Still, 0));
    is(
        &rt,
        ticks(&mut master),
        (Turn::Failed(News::Undelivered(1)), 0),
    );
    is(&rt, master.quiet(), true);
    is(&rt, ticks(&mut master), (Turn::Still, 1));
    gives(&rt, &mut master, &POLL_OF_3);
}

#[test]
fn stations_are_polled_in_turn(rt: HostRuntime) {
    let mut master = master_of_two(false);
    is(&rt, master.take(), None);
    for poll in [&POLL_OF_3, &POLL_OF_5, &POLL_OF_3] {
        is(&rt, ticks(&mut master), (Turn::Still, 1));
        gives(&rt, &mut master, poll.as_slice());
        is(
            &rt,
            hears(&mut master, &EOT),
            (Act::Nothing, None, News::Nothing),
        );
    }
    is(&rt, ticks(&mut master), (Turn::Still, 1));
    gives(&rt, &mut master, &POLL_OF_5);
    is(&rt, ticks(&mut master), (Turn::Still, 0));
    is(&rt, ticks(&mut master), (Turn::Still, 0));
    is(&rt, ticks(&mut master), (Turn::Still, 1));
    gives(&rt, &mut master, &POLL_OF_3);
    is(&rt, master.sending().len(), 0);
}

#[test]
fn each_station_has_its_own_filter(rt: HostRuntime) {
    let answered = (Act::Accept, Some(Did::Answered(1)), News::Nothing);
    let repeated = (Act::Repeat, None, News::Nothing);
    let mut master = master_of_two(false);
    for (poll, reply, told) in [
        (&POLL_OF_3, &REPLY_OF_3, answered),
        (&POLL_OF_5, &REPLY_OF_5, answered),
        (&POLL_OF_3, &REPLY_OF_3, repeated),
        (&POLL_OF_5, &REPLY_OF_5, repeated),
    ] {
        is(&rt, ticks(&mut master), (Turn::Still, 1));
        gives(&rt, &mut master, poll.as_slice());
        is(&rt, hears(&mut master, reply.as_slice()), told);
        is(&rt, master.body().len(), 6);
        gives(&rt, &mut master, &ACK);
    }
}

#[test]
fn another_station_is_passed_over_and_a_refusal_is_silent(rt: HostRuntime) {
    let nothing = (Act::Nothing, None, News::Nothing);
    let mut master = master_of_two(false);
    master.host_mut().room = false;
    is(&rt, ticks(&mut master), (Turn::Still, 1));
    gives(&rt, &mut master, &POLL_OF_3);
    is(&rt, hears(&mut master, &REPLY_OF_5), nothing);
    is(&rt, master.quiet(), true);
    is(
        &rt,
        hears(&mut master, &REPLY_OF_3),
        (Act::Refuse, None, News::Nothing),
    );
    is(&rt, master.quiet(), true);
    is(
        &rt,
        hears(&mut master, &[0x10, 0x02, 0x00, 0x10, 0x41]),
        (Act::Damaged, None, News::Nothing),
    );
    master.host_mut().room = true;
    is(
        &rt,
        hears(&mut master, &REPLY_OF_3),
        (Act::Accept, Some(Did::Answered(1)), News::Nothing),
    );
    gives(&rt, &mut master, &ACK);
    is(&rt, hears(&mut master, &REPLY_OF_5), nothing);
    is(
        &rt,
        hears(&mut master, &[0x10, 0x02, 0x00, 0x10, 0x41]),
        nothing,
    );
}

#[test]
fn what_comes_while_bytes_are_given_is_passed_over(rt: HostRuntime) {
    let mut master = master_of_two(true);
    let first = Out {
        byte: 0x10,
        last_of: None,
        body_of: None,
    };
    is(&rt, master.take(), Some(first));
    is(
        &rt,
        hears(&mut master, &NAK),
        (Act::PeerNak, None, News::Nothing),
    );
    is(&rt, ticks(&mut master), (Turn::Still, 0));
    is(&rt, ticks(&mut master), (Turn::Still, 0));
    gives(&rt, &mut master, &COMMAND_SENT[1..]);
    is(
        &rt,
        hears(&mut master, &NAK),
        (Act::PeerNak, None, News::Nothing),
    );
    gives(&rt, &mut master, &COMMAND_SENT);
    is(
        &rt,
        hears(&mut master, &ACK),
        (Act::PeerAck, None, News::Nothing),
    );
    is(&rt, master.host().is_out, false);
    is(
        &rt,
        hears(&mut master, &NAK),
        (Act::PeerNak, None, News::Nothing),
    );
    is(&rt, master.take(), None);
    is(&rt, master.holds(), 0);
}

#[test]
fn no_stations(rt: HostRuntime) {
    let mut master = master_of_none();
    is(&rt, ticks(&mut master), (Turn::Still, 0));
    is(&rt, master.quiet(), false);
    is(&rt, master.take(), None);
    is(&rt, master.host().is_out, false);
    is(&rt, master.sending().len(), 0);
    is(&rt, ticks(&mut master), (Turn::Still, 1));
    is(&rt, master.quiet(), true);
    is(&rt, master.take(), None);
}
