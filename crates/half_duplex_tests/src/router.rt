//! Tests of a router between the stations 3 and 5, over a host that has one message to send and accepts every message
//! while it has room: alone, call by call, and behind a master.
ghost use Rattle.df1_base.specs.Host.{IsBody};

use crate::equal::is;
use crate::master::{
    ACK, COMMAND, OneCommand, POLL_OF_3, gives, hears, host_of, master_over, ticks,
};
use arrayvec::ArrayVec;
use df1_base::{Act, Did, Fate, Host, News, Turn};
use station_router::Router;
use std::process::Abort;

const FROM_3_FOR_5: [u8; 7] = [0x05, 0x03, 0x06, 0x00, 0x01, 0x00, 0x00];

const FROM_3_FOR_0: [u8; 6] = [0x00, 0x03, 0x4F, 0x00, 0x01, 0x00];

const MESSAGE_OF_3: [u8; 12] = [
    0x10, 0x02, 0x05, 0x03, 0x06, 0x00, 0x01, 0x00, 0x00, 0x10, 0x03, 0xF1,
];

const MESSAGE_TO_5: [u8; 15] = [
    0x10, 0x01, 0x05, 0x10, 0x02, 0x05, 0x03, 0x06, 0x00, 0x01, 0x00, 0x00, 0x10, 0x03, 0xEC,
];

/// A body of the tables.
#[derive(Clone, Copy)]
enum Body {
    /// From station 3 for station 5.
    Carried,
    /// From station 3 for the inner host.
    Reply,
    /// The message that the inner host has to send.
    Command,
}

impl Body {
    /// Returns the bytes of the body.
    fn bytes(self) -> &'static [u8]
        ensures { IsBody result.now }
    {
        match self {
            Body::Carried => &FROM_3_FOR_5,
            Body::Reply => &FROM_3_FOR_0,
            Body::Command => &COMMAND,
        }
    }
}

/// A call of a router, with the expected answer.
#[derive(Clone, Copy)]
enum Call {
    /// There is no room for the body.
    Refuses(Body),
    /// There is room for the body, and the router does this with it.
    Takes(Body, Did),
    /// The router is ready, and hands out the body.
    Gives(Body),
    /// The router isn't ready, and hands out nothing.
    GivesNone,
    /// The router answers the fate with this news.
    Told(Fate, News),
    /// The inner host's tick reports its command.
    Tick,
    /// What waits is dropped.
    Clear,
}

/// Returns a router between the stations 3 and 5, in front of a host that may have a message to send.
fn router_of(waits: bool) -> Router<OneCommand> {
    Router::new(&[3, 5], host_of(waits))
}

/// Checks that the router answers the call as expected.
fn answers(rt: &impl Abort, router: &mut Router<OneCommand>, call: Call) {
    match call {
        Call::Refuses(body) => is(rt, router.has_room(body.bytes()), false),
        Call::Takes(body, did) => {
            let body = body.bytes();
            assert!(rt; router.has_room(body));
            is(rt, router.accept(body), did);
        }
        Call::Gives(body) => {
            let mut into = ArrayVec::new();
            is(rt, router.ready(), true);
            is(rt, router.next(&mut into), true);
            is(rt, into.as_slice(), body.bytes());
        }
        Call::GivesNone => {
            let mut into = ArrayVec::new();
            is(rt, router.ready(), false);
            is(rt, router.next(&mut into), false);
            is(rt, into.len(), 0);
        }
        Call::Told(fate, news) => is(rt, router.told(fate), news),
        Call::Tick => {
            let mut gone = ArrayVec::new();
            router.tick(&mut gone);
            is(rt, gone.as_slice(), [7].as_slice());
        }
        Call::Clear => router.clear(),
    }
}

#[test]
fn a_carried_body_waits_and_goes_first(rt: HostRuntime) {
    let mut router = router_of(true);
    for call in [
        Call::Takes(Body::Carried, Did::Stray),
        Call::Refuses(Body::Carried),
        Call::Takes(Body::Reply, Did::Answered(1)),
        Call::Tick,
        Call::Gives(Body::Carried),
        Call::Told(Fate::Undelivered, News::Dropped),
        Call::Told(Fate::Undelivered, News::Nothing),
        Call::Gives(Body::Command),
        Call::Told(Fate::Undelivered, News::Undelivered(1)),
        Call::Told(Fate::Undelivered, News::Nothing),
        Call::GivesNone,
    ] {
        answers(&rt, &mut router, call);
    }
}

#[test]
fn a_further_body_may_wait_while_one_is_out(rt: HostRuntime) {
    let mut router = router_of(false);
    for call in [
        Call::GivesNone,
        Call::Told(Fate::Delivered, News::Nothing),
        Call::Takes(Body::Carried, Did::Stray),
        Call::Gives(Body::Carried),
        Call::Takes(Body::Carried, Did::Stray),
        Call::Refuses(Body::Carried),
        Call::Told(Fate::Delivered, News::Nothing),
        Call::Told(Fate::Undelivered, News::Nothing),
        Call::Clear,
        Call::GivesNone,
        Call::Takes(Body::Carried, Did::Stray),
    ] {
        answers(&rt, &mut router, call);
    }
    is(&rt, router.waiting(), FROM_3_FOR_5.as_slice());
}

#[test]
fn room_for_a_carried_body_is_the_routers_own(rt: HostRuntime) {
    let mut router = router_of(false);
    router.inner_mut().room = false;
    for call in [
        Call::Refuses(Body::Reply),
        Call::Takes(Body::Carried, Did::Stray),
        Call::Refuses(Body::Reply),
    ] {
        answers(&rt, &mut router, call);
    }
    is(&rt, router.inner().room, false);
}

#[test]
fn a_master_carries_from_station_to_station(rt: HostRuntime) {
    let mut master = master_over(router_of(false));
    is(&rt, ticks(&mut master), (Turn::Still, 1));
    gives(&rt, &mut master, &POLL_OF_3);
    is(
        &rt,
        hears(&mut master, &MESSAGE_OF_3),
        (Act::Accept, Some(Did::Stray), News::Nothing),
    );
    is(&rt, master.host().waiting(), FROM_3_FOR_5.as_slice());
    is(&rt, master.take().map(|out| out.byte), Some(0x10));
    is(&rt, master.take().map(|out| out.byte), Some(0x06));
    gives(&rt, &mut master, &MESSAGE_TO_5);
    is(&rt, master.host().waiting().len(), 0);
    is(
        &rt,
        hears(&mut master, &ACK),
        (Act::PeerAck, None, News::Nothing),
    );
    is(&rt, master.quiet(), true);
}
