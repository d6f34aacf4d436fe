//! Tests of a receiver's acts on the items that it decodes, beside a host with and without room.
use crate::equal::is;
use arrayvec::ArrayVec;
use df1_base::{Act, Did, Fate, Host, News};
use df1_check::Check;
use duplex_receiver::Receiver;

/// A host that has room for any message while it is open.
#[derive(Drop)]
struct Gate {
    open: bool,
}

impl Host for Gate {
    ghost use Rattle.std.specs.Prelude.{[], None, false};
    ghost use Rattle.std.proofs.Common.{refl, rules};
    ghost use Rattle.df1_base.specs.declared.host.Did.TheVariants as did_of;
    ghost use Rattle.df1_base.specs.declared.host.News.TheVariants as news_of;

    ghost room_for = { λ g _. g.open };

    ghost did = { λ _ _. did_of.Stray };

    ghost after_accept = { λ g _. g };

    ghost next_body = { λ _. None };

    ghost after_next = { λ g. g };

    ghost is_out = { λ _. false };

    ghost news = { λ _ _. news_of.Nothing };

    ghost after_told = { λ g _. g };

    ghost unanswered = { λ _. [] };

    ghost after_tick = { λ g. g };

    ghost after_clear = { λ g. g };

    ghost holds_bodies = { λ _. Unit {0} };

    fn has_room(&self, _body: &[u8]) -> bool {
        self.open
    }

    fn accept(&mut self, _body: &[u8]) -> Did {
        Did::Stray
    }

    fn ready(&self) -> bool {
        false
    }

    fn next(&mut self, _into: &mut ArrayVec<u8, 250>) -> bool {
        false
    }

    fn told(&mut self, _fate: Fate) -> News {
        News::Nothing
    }

    fn tick(&mut self, gone: &mut ArrayVec<u32, 16>) {
        gone.clear();
    }

    fn clear(&mut self) {}

    ghost next_of_none = { λ _ _. refl };

    ghost out_at_next = { Prim.search rules };

    ghost told_of_none = { λ _ _ _. (refl, refl) };

    ghost out_at_told = { λ _ _. refl };

    ghost out_at_accept = { λ _ _. refl };

    ghost out_at_tick = { λ _. refl };

    ghost out_at_clear = { λ _. refl };

    ghost unanswered_rise = { Prim.search rules };

    ghost none_at_clear = { λ _. refl };

    ghost body_at_next = { λ _ _. tt };

    ghost bodies_at_accept = { λ _ _ _ _ _. tt };

    ghost bodies_at_next = { λ _ _. tt };

    ghost bodies_at_told = { λ _ _ _. tt };

    ghost bodies_at_tick = { λ _ _. tt };

    ghost bodies_at_clear = { λ _ _. tt };
}

const BODY: [u8; 14] = [
    0x01, 0x00, 0x0F, 0x00, 0x01, 0x00, 0xAA, 0x02, 0x07, 0x89, 0x00, 0x00, 0x34, 0x12,
];

const FRAME: [u8; 19] = [
    0x10, 0x02, 0x01, 0x00, 0x0F, 0x00, 0x01, 0x00, 0xAA, 0x02, 0x07, 0x89, 0x00, 0x00, 0x34, 0x12,
    0x10, 0x03, 0x6D,
];

/// Returns the act at the last of the bytes.
fn last_act(receiver: &mut Receiver<250>, bytes: &[u8], host: &Gate) -> Act {
    let mut act = Act::Nothing;
    for b in bytes {
        act = receiver.on_byte(*b, host);
    }
    act
}

#[test]
fn a_refused_message_is_accepted_once_there_is_room(rt: HostRuntime) {
    let full = Gate { open: false };
    let open = Gate { open: true };
    let mut receiver = Receiver::new(Check::Bcc);
    is(&rt, last_act(&mut receiver, &FRAME, &full), Act::Refuse);
    is(&rt, receiver.body(), BODY.as_slice());
    is(&rt, last_act(&mut receiver, &FRAME, &open), Act::Accept);
    is(&rt, receiver.body(), BODY.as_slice());
    is(
        &rt,
        last_act(&mut receiver, &[0x10, 0x05], &open),
        Act::PeerEnq,
    );
    is(&rt, last_act(&mut receiver, &FRAME, &full), Act::Repeat);
}

#[test]
fn everything_else_has_its_act(rt: HostRuntime) {
    let rows: [(&[u8], Act); 9] = [
        (&[0x10, 0x02, 0x01, 0x10, 0x03, 0xFF], Act::Damaged),
        (&[0x10, 0x02, 0x01, 0x10, 0x03, 0xFE], Act::Damaged),
        (&[0x10, 0x02, 0x01, 0x10, 0x41], Act::Damaged),
        (&[0x10, 0x02, 0x01, 0x10, 0x02], Act::Forgot),
        (&[0x10, 0x06], Act::PeerAck),
        (&[0x10, 0x15], Act::PeerNak),
        (&[0x10, 0x0F], Act::PeerNak),
        (&[0x10, 0x99], Act::Nothing),
        (&[0x55], Act::Nothing),
    ];
    let open = Gate { open: true };
    for (bytes, act) in rows {
        let mut receiver = Receiver::new(Check::Bcc);
        is(&rt, last_act(&mut receiver, bytes, &open), act);
    }
}
