//! A router, which stands between a master and its host and carries messages from station to station; and the host of a
//! master, which contains a node, with a router in front of it or without one.
//!
//! A body is carried if DST, its first byte, is the number of one of the stations; every other body is the inner
//! host's. A carried body waits until it is handed out, and one may wait at a time: a master polls its stations only
//! while nothing is ready, so no further one arrives meanwhile.
//!
//! | Call | Case | What it does |
//! |---|---|---|
//! | `has_room` | the body is carried | there is room exactly if none waits |
//! | `has_room` | otherwise | the inner host's |
//! | `accept` | the body is carried | it waits, and the answer is Stray |
//! | `accept` | otherwise | the inner host's |
//! | `ready` | | true exactly if a body waits or the inner host is ready |
//! | `next` | a body waits | that body is handed out |
//! | `next` | otherwise | the inner host's |
//! | `told` | a carried body was handed out last, and its fate wasn't reported | Nothing for Delivered, Dropped for Undelivered |
//! | `told` | a carried body was handed out last, and its fate was reported | Nothing |
//! | `told` | otherwise | the inner host's |
//! | `tick` | | the inner host's |
//! | `clear` | | the body that waits is dropped, and the inner host cleared |
//!
//! A router allocates no memory.
#![tactic(auto)]

ghost use Rattle.std.specs.Prelude.{◌≡◌, ◌≤◌, length, IfSome};
ghost use Rattle.std.specs.Borrow.{Lends, sem};
ghost use Rattle.df1_base.specs.Host.{IsBody};
ghost use Rattle.station_router.specs.Router.{new_router, with_inner, is_carried, waiting_body, news_of};
ghost use Rattle.station_router.specs.contracts.Router.{the_row};

mod handed;
mod master_host;

use crate::handed::Handed;
use arrayvec::ArrayVec;
use df1_base::{Did, Fate, Host, News};
pub use master_host::MasterHost;
use std::marker::Model;
use std::mem;

/// A host that carries messages from station to station, with the host of all other messages behind it.
pub struct Router<H: Host + Drop> {
    stations: ArrayVec<u8, 32>,
    waiting: ArrayVec<u8, 250>,
    last: Handed,
    inner: H,
}

// By hand, so that whoever drops one proves nothing of its parts.
impl<H: Host + Drop> Drop for Router<H> {
    fn drop(self) {
        let Router {
            stations: _stations,
            waiting: _waiting,
            last: _,
            inner: _inner,
        } = self;
    }
}

impl<H: Host + Drop> Model for Router<H> {
    ghost use Rattle.std.specs.Prelude.{IfSome};
    ghost use Rattle.df1_base.specs.Host.{IsBody};
    ghost use Rattle.station_router.specs.Router.{RouterState, waiting_body};

    ghost Value = { RouterState H };

    ghost view = { λ r. record { stations = r.stations.items; waiting = r.waiting.items; last = r.last; inner = r.inner } };

    ghost invariant = { λ r. IfSome (waiting_body r.waiting.items) IsBody };
}

impl<H: Host + Drop> Router<H> {
    /// Returns a router between these stations, at most 32, before a host. No body waits, and none was handed out.
    pub fn new(stations: &[u8], inner: H) -> Router<H>
        requires { length stations.now ≤ 32 }
        ensures { result ≡ new_router stations.now inner }
    {
        Router {
            stations: listed(stations),
            waiting: ArrayVec::new(),
            last: Handed::Inner,
            inner,
        }
    }

    /// Returns the inner host.
    pub fn inner(&self) -> &H
        ensures { result.now ≡ self.now.inner }
    {
        &self.inner
    }

    /// Returns the inner host, to be changed in any way.
    pub fn inner_mut(&mut self) -> &mut H
        ensures* writes_back { sem 𝓛 (Lends (the_row H.row H.Host) H.row self.entry result (with_inner self.old)) }
        ensures value { result.now ≡ self.old.inner }
    {
        &mut self.inner
    }

    /// Returns whether a body is carried: DST, its first byte, is the number of one of the stations. DST of an empty
    /// body counts as 0.
    pub fn carries(&self, body: &[u8]) -> bool
        ensures { result ≡ is_carried self.now.stations body.now }
    {
        self.stations.contains(&body.first().copied().unwrap_or(0))
    }

    /// Returns the body that waits to be carried, of 6 to 250 bytes; empty if none waits.
    pub fn waiting(&self) -> &[u8]
        ensures value { result.now ≡ self.now.waiting }
        ensures fits { IfSome (waiting_body result.now) IsBody }
    {
        &self.waiting
    }
}

impl<H: Host + Drop> Host for Router<H> {
    ghost use Rattle.station_router.specs.Router.{has_room, did_accept, after_accept, next_body, after_next, is_out, news_told, after_told, gone_unanswered, after_tick, after_clear, holds_bodies};
    ghost use Rattle.station_router.specs.HostLaws as laws_of;

    ghost room_for = { has_room H.room_for };

    ghost did = { did_accept H.did };

    ghost after_accept = { after_accept H.after_accept };

    ghost next_body = { next_body H.next_body };

    ghost after_next = { after_next H.next_body H.after_next };

    ghost is_out = { is_out H.is_out };

    ghost news = { news_told H.news };

    ghost after_told = { after_told H.after_told };

    ghost unanswered = { gone_unanswered H.unanswered };

    ghost after_tick = { after_tick H.after_tick };

    ghost after_clear = { after_clear H.after_clear };

    ghost holds_bodies = { holds_bodies H.holds_bodies };

    fn has_room(&self, body: &[u8]) -> bool {
        if is_carried(&self.stations, body) {
            self.waiting.is_empty()
        } else {
            self.inner.has_room(body)
        }
    }

    fn accept(&mut self, body: &[u8]) -> Did {
        if is_carried(&self.stations, body) {
            fill(&mut self.waiting, body);
            Did::Stray
        } else {
            self.inner.accept(body)
        }
    }

    fn ready(&self) -> bool {
        self.inner.ready() || !self.waiting.is_empty()
    }

    fn next(&mut self, into: &mut ArrayVec<u8, 250>) -> bool {
        if !self.waiting.is_empty() {
            *into = mem::replace(&mut self.waiting, ArrayVec::new());
            self.last = Handed::Carried;
            return true;
        }
        let is_handed_out = self.inner.next(into);
        if is_handed_out {
            self.last = Handed::Inner;
        }
        is_handed_out
    }

    fn told(&mut self, fate: Fate) -> News {
        match self.last {
            Handed::Carried => {
                self.last = Handed::Told;
                news_of(fate)
            }
            Handed::Told => News::Nothing,
            Handed::Inner => self.inner.told(fate),
        }
    }

    fn tick(&mut self, gone: &mut ArrayVec<u32, 16>) {
        self.inner.tick(gone);
    }

    fn clear(&mut self) {
        self.waiting.clear();
        self.inner.clear();
    }

    ghost next_of_none = { laws_of.none_changes H.next_body H.after_next H.next_of_none };

    ghost out_at_next = { laws_of.next_hands H.is_out H.next_body H.after_next H.out_at_next };

    ghost told_of_none = { laws_of.told_nothing H.is_out H.news H.after_told H.told_of_none };

    ghost out_at_told = { laws_of.fate_told H.is_out H.after_told H.out_at_told };

    ghost out_at_accept = { laws_of.out_at_accept H.is_out H.after_accept H.out_at_accept };

    ghost out_at_tick = { laws_of.out_at_tick H.is_out H.after_tick H.out_at_tick };

    ghost out_at_clear = { laws_of.out_at_clear H.is_out H.after_clear H.out_at_clear };

    ghost unanswered_rise = { λ r. H.unanswered_rise r.inner };

    ghost none_at_clear = { λ r. H.none_at_clear r.inner };

    ghost body_at_next = { laws_of.next_is_body H.holds_bodies H.next_body H.body_at_next };

    ghost bodies_at_accept = { laws_of.bodies_at_accept H.holds_bodies H.room_for H.after_accept H.bodies_at_accept };

    ghost bodies_at_next = { laws_of.bodies_at_next H.holds_bodies H.next_body H.after_next H.bodies_at_next };

    ghost bodies_at_told = { laws_of.bodies_at_told H.holds_bodies H.after_told H.bodies_at_told };

    ghost bodies_at_tick = { λ r holds. (holds.0, H.bodies_at_tick r.inner holds.1) };

    ghost bodies_at_clear = { λ r holds. (tt, H.bodies_at_clear r.inner holds.1) };
}

/// Returns the stations with these numbers, at most 32.
fn listed(numbers: &[u8]) -> ArrayVec<u8, 32>
    requires { length numbers.now ≤ 32 }
    ensures { result.items ≡ numbers.now }
{
    let mut stations = ArrayVec::new();
    let fits = stations.try_extend_from_slice(numbers).is_ok();
    prove!(fits);
    stations
}

/// Returns whether a body is for one of the stations.
fn is_carried(stations: &[u8], body: &[u8]) -> bool
    requires { IsBody body.now }
    ensures { result ≡ is_carried stations.now body.now }
{
    stations.contains(&body[0])
}

/// Copies a body into `into`.
fn fill(into: &mut ArrayVec<u8, 250>, body: &[u8])
    requires { length body.now ≤ 250 }
    ensures { into.new.items ≡ body.now }
{
    into.clear();
    let fits = into.try_extend_from_slice(body).is_ok();
    prove!(fits);
}

/// Returns the answer to the first fate of a carried body.
fn news_of(fate: Fate) -> News
    ensures { result ≡ news_of fate }
{
    match fate {
        Fate::Delivered => News::Nothing,
        Fate::Undelivered => News::Dropped,
    }
}
