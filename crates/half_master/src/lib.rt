//! The master of a half-duplex link, over any host: it sends the host's messages, and polls the stations of its list in
//! turn for theirs.
//!
//! | State | Event | What it does |
//! |---|---|---|
//! | idle | take, host ready | a message of the host is sent; then it waits for ACK with `ack_ticks` |
//! | idle | tick, host not ready | the host's tick; then a poll of the next station; then it waits with `poll_ticks` |
//! | idle | tick, host ready | nothing |
//! | waits for ACK | ACK | reported Delivered; idle |
//! | waits for ACK | NAK, or the last tick | the message is sent again, at most `max_resends` times; otherwise reported Undelivered; idle |
//! | waits after a poll | EOT, or the last tick | idle |
//! | waits after a poll | a message of the polled station | by that station's own filter, a duplicate or accepted: ACK is sent, then idle; if there is no room, refused: no byte is sent, and it waits on |
//! | waits after a poll | a damaged message, or one of another station | waits on |
//!
//! The stations are polled in the order of the list, over and over, starting with the first. A wait starts, with all
//! its ticks, when the last byte of the message or poll was taken; a tick before its last makes it one shorter. While
//! bytes are being sent, everything that is received and every tick is ignored, and so is whatever the table doesn't
//! name. Only the ticks of the second row are passed to the host. A message whose first byte is the number of no
//! station is reported Undelivered, and the master stays idle (manual topic: half-duplex protocol).
//!
//! A master stands for the bytes that arrived at it: what it decodes at a byte is what the grammar of the line decodes
//! at the last of all these bytes, whatever else happened to the master and to its host.
#![tactic(auto)]

ghost use Rattle.std.specs.Prelude.{◌≡◌, ◌≤◌, ◌+◌, ◌↔◌, ◌∷◌, ◌++◌, [], ℕ, List, length, Option, Some, slice_get, is_some, IfSome, IsNone, IsSome, IsTrue};
ghost use Rattle.std.specs.Borrow.{Lends, sem};
ghost use Rattle.df1_check.specs.declared.Check.{Check as CheckKind};
ghost use Rattle.df1_frame.specs.Line.{ReadOff};
ghost use Rattle.half_frame.specs.declared.heard.MasterHeard.{MasterHeard as Told};
ghost use Rattle.half_frame.specs.MasterGrammar.{master_hears};
ghost use Rattle.half_frame.specs.MasterStanding.{held as held_of, held_at, lent};
ghost use Rattle.half_mouth.specs.Giving.{bytes_left};
ghost use Rattle.df1_base.specs.Host.{IsBody};
ghost use Rattle.half_master.specs.Stations.{AreStations, is_listed};
ghost use Rattle.half_master.specs.Master.{holds_message, polled_station, new_master, with_host, body_of, effect_heard, effect_at_tick, performed, master_after_byte, step_at_byte, master_after_tick, turn_at_tick, gone_at_tick, transmitted, acknowledged, polled, begun, begun_with, message_next, given_next, master_after_take, out_at_take, is_quiet};
ghost use Rattle.half_master.specs.Fitting.{IsMessage, Suits, most_left};
ghost use Rattle.half_master.specs.Arrived.{StandsFor, HearsWhole};
ghost use Rattle.half_master.specs.contracts.Master.{the_row};

mod laws;
mod parts;
mod stations;
mod table;

use arrayvec::ArrayVec;
use df1_base::{ACK, Fate, Host, Out, Step, Turn};
use df1_check::Check;
use half_frame::{HalfFramer, MasterEar, MasterHeard};
use half_mouth::HalfMouth;
pub use laws::{
    a_drain_ends, a_fate_is_told_once, a_wait_begins_with_all_ticks, arrivals_are_heard,
    each_station_has_its_own_key, fates_are_told_exactly_so, parts_fit, signals_go_on,
    transmissions_are_counted, what_is_given_is_df1,
};
use parts::{act_of, hand_out, is_whole, take_in, tell, tick_host, turn_of};
pub use stations::Station;
use stations::{is_listed, keep, listed, place_after};
use std::marker::Model;
pub use table::{Effect, Phase};
use table::{heard_after_poll, heard_of_message, on_tick, with_left};

/// The setup of a master.
#[derive(Clone, Copy, Debug, PartialEq, Eq)]
pub struct MasterSetup {
    /// The check of its messages.
    pub check: Check,
    /// The ticks of a wait for ACK, at least 1.
    pub ack_ticks: u32,
    /// How often a message is sent again.
    pub max_resends: u32,
    /// The ticks of a wait after a poll, at least 1.
    pub poll_ticks: u32,
}

/// The master of a half-duplex link, with the host behind it.
pub struct Master<H: Host + Drop> {
    setup: MasterSetup,
    stations: ArrayVec<Station, 32>,
    next: usize,
    ear: MasterEar<250>,
    phase: Phase,
    mouth: HalfMouth,
    sending: ArrayVec<u8, 250>,
    host: H,
}

// By hand, so that whoever drops one proves nothing of its parts.
impl<H: Host + Drop> Drop for Master<H> {
    fn drop(self) {
        let Master {
            setup: _,
            stations: _stations,
            next: _,
            ear: _ear,
            phase: _phase,
            mouth: _mouth,
            sending: _sending,
            host: _host,
        } = self;
    }
}

impl<H: Host + Drop> Model for Master<H> {
    ghost use Rattle.half_master.specs.Master.{MasterState};
    ghost use Rattle.half_master.specs.Fitting.{Fits};

    ghost Value = { MasterState H };

    ghost view = { λ e. record { setup = e.setup; stations = e.stations.items; next = e.next; ear = e.ear; phase = e.phase; mouth = e.mouth; sending = e.sending.items; host = e.host } };

    ghost invariant = { λ e. Fits e.stations.items e.next e.phase e.mouth e.sending.items };
}

impl<H: Host + Drop> Master<H> {
    /// Returns a master of these stations, over a host, that has received and sent nothing. There are at most 32
    /// stations, all different, and none is 16 or 255.
    pub fn new(setup: MasterSetup, stations: &[u8], host: H) -> Master<H>
        requires ack_ticks { 1 ≤ setup.ack_ticks }
        requires poll_ticks { 1 ≤ setup.poll_ticks }
        requires stations { AreStations stations.now }
        ensures value { result ≡ new_master setup stations.now host }
        ensures stands { StandsFor setup.check [] result }
    {
        Master {
            setup,
            stations: listed(stations),
            next: 0,
            ear: MasterEar::new(setup.check),
            phase: Phase::Idle,
            mouth: HalfMouth::new(),
            sending: ArrayVec::new(),
            host,
        }
    }

    /// Returns the host.
    pub fn host(&self) -> &H
        ensures { result.now ≡ self.now.host }
    {
        &self.host
    }

    /// Returns the host, to be changed in any way.
    pub fn host_mut(&mut self) -> &mut H
        ensures* writes_back { sem 𝓛 (Lends (the_row H.row H.Host) H.row self.entry result (with_host self.old)) }
        ensures value { result.now ≡ self.old.host }
        ensures stands { (check : CheckKind) (bytes : List ℕ) (host : H) → StandsFor check bytes self.old → StandsFor check bytes (with_host self.old host) }
    {
        &mut self.host
    }

    /// Takes a received byte, in constant time except where a message is started again, and returns what the master
    /// made of it. `did` is there exactly at Accept, and `news` is the host's answer to a fate that was decided here.
    /// `whole` says whether a good message was received, whatever was made of it, and `station` is 0.
    pub fn on_byte(&mut self, b: u8) -> Step
        ensures state { self.new ≡ master_after_byte H.Host self.old b }
        ensures step { result ≡ step_at_byte H.Host self.old b }
        ensures stands { (check : CheckKind) (bytes : List ℕ) → StandsFor check bytes self.old → StandsFor check (bytes ++ b ∷ []) self.new }
        ensures whole { (check : CheckKind) (bytes : List ℕ) → StandsFor check bytes self.old → IsTrue result.whole ↔ HearsWhole check (bytes ++ b ∷ []) }
    {
        let heard = self.ear.feed(b);
        let effect = self.effect_heard(heard);
        let did = take_in(&mut self.host, effect, self.ear.body());
        let news = tell(&mut self.host, effect);
        self.perform(effect);
        Step {
            act: act_of(effect, heard),
            did,
            news,
            whole: is_whole(heard),
            station: 0,
        }
    }

    /// Lets a unit of time pass, in constant time except where a message is started again. `gone` is replaced by the
    /// commands that are unanswered from this tick on, none if the host has no tick. Returns Failed, with the host's
    /// answer, exactly if a message was given up, and Still otherwise.
    pub fn on_tick(&mut self, gone: &mut ArrayVec<u32, 16>) -> Turn
        ensures state { self.new ≡ master_after_tick H.Host self.old }
        ensures turn { result ≡ turn_at_tick H.Host self.old }
        ensures gone { gone.new.items ≡ gone_at_tick H.Host self.old }
        ensures stands { (check : CheckKind) (bytes : List ℕ) → StandsFor check bytes self.old → StandsFor check bytes self.new }
    {
        let effect = self.effect_of_tick();
        tick_host(&mut self.host, effect, gone);
        let news = tell(&mut self.host, effect);
        self.perform(effect);
        turn_of(effect, news)
    }

    /// Returns the next byte to transmit, in constant time except at the start of a message. Returns None exactly if no
    /// byte is left to be sent and no message is started. A message whose first byte is no station's number is
    /// dropped: its host is told that it is undelivered, and nothing of that is returned.
    pub fn take(&mut self) -> Option<Out>
        ensures state { self.new ≡ master_after_take H.Host self.old }
        ensures out { result ≡ out_at_take H.Host self.old }
        ensures stands { (check : CheckKind) (bytes : List ℕ) → StandsFor check bytes self.old → StandsFor check bytes self.new }
        ensures fewer { IsSome result → most_left H.Host self.new + 1 ≤ most_left H.Host self.old }
        ensures most { most_left H.Host self.old ≤ 511 }
    {
        self.prepare();
        self.mouth.take()
    }

    /// Returns whether no byte is left to be sent and the master isn't idle with a host that is ready.
    pub fn quiet(&self) -> bool
        ensures value { result ≡ is_quiet H.Host self.now }
        ensures gives_none { IsTrue result → IsNone (out_at_take H.Host self.now) }
    {
        self.mouth.idle() && !(self.phase.is_idle() && self.host.ready())
    }

    /// Returns the body of the message that was received whole at the last byte, at most 250 bytes; otherwise empty.
    pub fn body(&self) -> &[u8]
        ensures body { result.now ≡ body_of self.now }
        ensures lent { (check : CheckKind) (bytes : List ℕ) → StandsFor check bytes self.now → ReadOff (master_hears check 250) bytes (lent check 250) result.now }
        ensures fits { length result.now ≤ 250 }
    {
        self.ear.body()
    }

    /// Returns whether it has a station of this number. A message to any other node is given up when its turn comes.
    pub fn has_station(&self, number: u8) -> bool
        ensures { result ≡ is_listed self.now.stations number }
    {
        is_listed(&self.stations, number)
    }

    /// Returns the body of the transmission that was started last, empty if there was none. A poll is no transmission.
    pub fn sending(&self) -> &[u8]
        ensures { result.now ≡ self.now.sending }
    {
        &self.sending
    }

    /// Returns whether it has a message of its host that was neither acknowledged nor given up.
    pub fn holds_message(&self) -> bool
        ensures { result ≡ holds_message self.now }
    {
        match self.phase {
            Phase::WaitsForAck { .. } => true,
            Phase::Idle | Phase::WaitsAfterPoll { .. } => false,
        }
    }

    /// Returns the station whose poll is being sent, or which is to answer it.
    pub fn polled_station(&self) -> Option<u8>
        ensures { result ≡ polled_station self.now }
    {
        match self.phase {
            Phase::WaitsAfterPoll { place, .. } => Some(self.stations.get(place)?.number),
            Phase::Idle | Phase::WaitsForAck { .. } => None,
        }
    }

    /// Returns how many bytes the receiver holds, at most 250.
    pub fn holds(&self) -> usize
        ensures held { (check : CheckKind) (bytes : List ℕ) → StandsFor check bytes self.now → ReadOff (master_hears check 250) bytes (held_of check 250) result }
        ensures value { result ≡ held_at self.now.ear.standing }
        ensures most { result ≤ 250 }
    {
        self.ear.held()
    }

    /// Returns what is done about an item that was decoded at the last byte.
    fn effect_heard(&self, heard: Option<MasterHeard>) -> Effect
        requires { heard ≡ Some MasterHeard.Good → 6 ≤ length (body_of self.now) }
        ensures { result ≡ effect_heard H.Host self.now heard }
    {
        if !self.mouth.idle() {
            return Effect::Nothing;
        }
        match self.phase {
            Phase::Idle => Effect::Nothing,
            Phase::WaitsForAck { resent, .. } => heard_of_message(self.setup, resent, heard),
            Phase::WaitsAfterPoll { place, .. } => {
                heard_after_poll(&self.stations, place, heard, self.ear.body(), &self.host)
            }
        }
    }

    /// Returns what is done about a tick.
    fn effect_of_tick(&self) -> Effect
        ensures { result ≡ effect_at_tick H.Host self.now }
    {
        if self.mouth.idle() {
            on_tick(self.setup, self.phase, self.host.ready())
        } else {
            Effect::Nothing
        }
    }

    /// Applies an effect to all but the host.
    fn perform(&mut self, effect: Effect)
        requires { Suits self.old.stations self.old.mouth self.old.sending (body_of self.old) effect }
        ensures { self.new ≡ performed self.old effect }
    {
        match effect {
            Effect::Nothing | Effect::Refused | Effect::Damaged => {}
            Effect::Waits(left) => self.phase = with_left(left, self.phase),
            Effect::Delivered | Effect::GivenUp | Effect::PollOver => self.phase = Phase::Idle,
            Effect::Again(resent) => self.transmit(resent),
            Effect::Accepted(place) => {
                keep(&mut self.stations, place, self.ear.body());
                self.acknowledge();
            }
            Effect::Repeated => self.acknowledge(),
            Effect::Polls => self.poll_next(),
        }
    }

    /// Starts to send the message; `resent` counts its retransmissions, this one included.
    fn transmit(&mut self, resent: u32)
        requires { IsMessage self.old.sending }
        ensures { self.new ≡ transmitted self.old resent }
    {
        self.mouth.transmit(HalfFramer::message(self.sending[0], &self.sending, self.setup.check));
        self.phase = Phase::WaitsForAck {
            left: self.setup.ack_ticks,
            resent,
        };
    }

    /// Starts to send DLE ACK, after which the master is idle.
    fn acknowledge(&mut self)
        ensures { self.new ≡ acknowledged self.old }
    {
        self.mouth.give(HalfFramer::pair(ACK));
        self.phase = Phase::Idle;
    }

    /// Starts to send a poll of the next station, if there is one.
    fn poll_next(&mut self)
        ensures { self.new ≡ polled self.old (slice_get self.old.stations self.old.next) }
    {
        if let Some(station) = self.stations.as_slice().get(self.next) {
            self.mouth.give(HalfFramer::poll(station.number));
            self.phase = Phase::WaitsAfterPoll {
                left: self.setup.poll_ticks,
                place: self.next,
            };
            self.next = place_after(&self.stations, self.next);
        }
    }

    /// Returns whether the host's next message is to be started: nothing else is to be sent, and the host is ready.
    fn may_begin(&self) -> bool
        ensures value { result ≡ is_some (message_next H.Host self.now) }
        ensures next { IsTrue result → message_next H.Host self.now ≡ H.Host.next_body self.now.host }
        ensures fits { IfSome (message_next H.Host self.now) IsBody }
        ensures left { bytes_left self.now.mouth ≤ 509 }
    {
        self.mouth.idle() && self.phase.is_idle() && self.host.ready()
    }

    /// Starts the host's next message if nothing else is to be sent.
    fn prepare(&mut self)
        ensures state { self.new ≡ begun H.Host self.old }
        ensures no_more { most_left H.Host self.new ≤ most_left H.Host self.old }
        ensures most { most_left H.Host self.old ≤ 511 }
    {
        if self.may_begin() {
            let body = hand_out(&mut self.host);
            self.begin_message(body);
        }
    }

    /// Starts to send a message of the host, or reports it as undelivered if it is for no station.
    fn begin_message(&mut self, body: ArrayVec<u8, 250>)
        requires { IsBody body.items }
        ensures { self.new ≡ begun_with H.Host self.old body.items }
    {
        if is_listed(&self.stations, body[0]) {
            self.sending = body;
            self.transmit(0);
        } else {
            let _ = self.host.told(Fate::Undelivered);
        }
    }
}
