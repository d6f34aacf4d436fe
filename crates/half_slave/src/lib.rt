//! A slave of a half-duplex link, over any host: what it decodes from the master's bytes, and what it sends, polled or in
//! response.
//!
//! It sends one thing at a time: a message of its host, DLE EOT if it has none, or a response to a message of the
//! master. What was started is sent completely. A response that becomes due meanwhile waits, and a newer one replaces
//! it. The slave holds at most one message of the host, from the poll that loads it until its fate is reported.
//!
//! | Received | What the slave does |
//! |---|---|
//! | a message to this station with the key of the last accepted one | a duplicate: ACK waits to be sent |
//! | another message to this station, the host has room | accepted: the host takes it, its key is kept, ACK waits to be sent |
//! | another message to this station, the host has no room | refused: NAK waits to be sent; the key isn't kept |
//! | a damaged message to this station | silence |
//! | a poll of this station, bytes still to be sent | nothing |
//! | the same, a message held that was sent fewer than `max_sends` times | sends it again |
//! | the same, a message held that was sent `max_sends` times | reported undelivered and dropped; then as below |
//! | the same, none held, the host ready | loads its next message and sends it |
//! | the same, none held, the host not ready | sends DLE EOT |
//! | ACK, the wait open | the message held is reported delivered and dropped |
//! | a reset (NAK) | the message held is reported undelivered and dropped; then the host drops what waits |
//! | anything else | nothing |
//!
//! A response that waits is among the bytes still to be sent. A sending counts when its last byte was taken. With that
//! byte the wait opens, if the message is still held. The wait closes when the message is dropped, and at the next
//! header or poll, right or wrong, whatever station it names (manual topic: half-duplex protocol).
//!
//! A slave stands for the bytes that arrived at it: what it decodes at a byte is what the grammar of the master's bytes
//! decodes at the last of all these bytes, whatever else happened to the slave and to its host.
#![tactic(auto)]

ghost use Rattle.std.specs.Prelude.{◌≡◌, ◌≢◌, ◌≤◌, ◌+◌, ◌∷◌, ◌++◌, [], ℕ, List, length, is_none, false, IsSome, IsTrue};
ghost use Rattle.df1_base.specs.HostAnswers.{news_of, did_at};
ghost use Rattle.std.specs.Borrow.{Lends, sem};
ghost use Rattle.df1_check.specs.declared.Check.{Check as CheckKind};
ghost use Rattle.df1_frame.specs.Line.{ReadOff};
ghost use Rattle.half_frame.specs.declared.heard.SlaveHeard.TheVariants.{Addressed, Damaged, Poll, Reset};
ghost use Rattle.half_frame.specs.SlaveGrammar.{slave_hears};
ghost use Rattle.half_frame.specs.SlaveStanding.{lent};
ghost use Rattle.half_mouth.specs.Giving.{bytes_left};
ghost use Rattle.half_slave.specs.Slave.{holds_message, new_slave, with_host, is_quiet, body_of, heard_at, listened, verdict, verdict_act, received, told, sent, answered, act_at, fate_at, slave_after_heard, step_at_heard, slave_after_byte, step_at_byte, response_code, mouth_at_take, responds_at_take, slave_after_take, out_at_take, left_to_give};
ghost use Rattle.half_slave.specs.Arrived.{StandsFor, TellsMessage};
ghost use Rattle.half_slave.specs.contracts.Slave.{the_row};

mod held;
mod laws;

use arrayvec::ArrayVec;
use df1_base::{ACK, Act, Did, Fate, Host, NAK, News, Out, Resp, Step};
use df1_check::Check;
use half_frame::{EOT, HalfFramer, SlaveEar, SlaveHeard};
use half_mouth::HalfMouth;
pub use held::Held;
use held::{close_wait, count_sending, fate_at_ack, fate_at_poll, fate_at_reset};
pub use laws::{
    a_drain_ends, a_fate_is_told_once, an_ack_counts_in_the_wait, arrivals_are_heard,
    messages_are_accepted_once, signals_go_on, transmissions_are_counted, what_is_given_is_df1,
    what_is_held_fits, what_was_begun_is_given,
};
use pccc_envelope::duplicate_filter::Filter;
use pccc_envelope::key_of;
use std::marker::Model;

/// The setup of a slave.
#[derive(Clone, Copy, Debug, PartialEq, Eq)]
pub struct SlaveSetup {
    /// Its station number, neither 16 nor 255.
    pub station: u8,
    /// The check of the line.
    pub check: Check,
    /// How often a message is sent before it is given up, at least once.
    pub max_sends: u32,
}

/// A slave of a half-duplex link, with the host behind it.
pub struct Slave<H: Host + Drop> {
    setup: SlaveSetup,
    ear: SlaveEar<250>,
    filter: Filter,
    responds: Option<Resp>,
    mouth: HalfMouth,
    held: Option<Held>,
    sending: ArrayVec<u8, 250>,
    host: H,
}

// By hand, so that whoever drops one proves nothing of its parts.
impl<H: Host + Drop> Drop for Slave<H> {
    fn drop(self) {
        let Slave {
            setup: _,
            ear: _ear,
            filter: _filter,
            responds: _responds,
            mouth: _mouth,
            held: _held,
            sending: _sending,
            host: _host,
        } = self;
    }
}

impl<H: Host + Drop> Model for Slave<H> {
    ghost use Rattle.half_slave.specs.Slave.{SlaveState};

    ghost Value = { SlaveState H };

    ghost view = { λ s. record { setup = s.setup; ear = s.ear; kept = s.filter; responds = s.responds; mouth = s.mouth; held = s.held; sending = s.sending.items; host = s.host } };
}

impl<H: Host + Drop> Slave<H> {
    /// Returns a slave, over a host, that has received and sent nothing.
    pub fn new(setup: SlaveSetup, host: H) -> Slave<H>
        requires not_dle { setup.station ≢ 16 }
        requires not_all { setup.station ≢ 255 }
        requires sends { 1 ≤ setup.max_sends }
        ensures value { result ≡ new_slave setup host }
        ensures stands { StandsFor setup.check [] result }
    {
        Slave {
            setup,
            ear: SlaveEar::new(setup.check),
            filter: Filter::new(),
            responds: None,
            mouth: HalfMouth::new(),
            held: None,
            sending: ArrayVec::new(),
            host,
        }
    }

    /// Returns the host.
    pub fn host(&self) -> &H
        ensures { result.now ≡ self.now.host }
    {
        &self.host
    }

    /// Returns the host, to be changed in any way.
    pub fn host_mut(&mut self) -> &mut H
        ensures* writes_back { sem 𝓛 (Lends (the_row H.row H.Host) H.row self.entry result (with_host self.old)) }
        ensures value { result.now ≡ self.old.host }
        ensures stands { (check : CheckKind) (bytes : List ℕ) (host : H) → StandsFor check bytes self.old → StandsFor check bytes (with_host self.old host) }
    {
        &mut self.host
    }

    /// Takes a received byte, in constant time except at the start of a message, and returns what the slave made of it.
    /// `did` is there exactly at Accept, and `news` is the host's answer to a fate that was reported here. `whole` says
    /// whether a whole message was received, to whatever station, and `station` is that station, 0 if there was none.
    pub fn on_byte(&mut self, b: u8) -> Step
        ensures state { self.new ≡ slave_after_byte H.Host self.old b }
        ensures step { result ≡ step_at_byte H.Host self.old b }
        ensures lends { IsTrue result.whole → 6 ≤ length (body_of self.new) }
        ensures stands { (check : CheckKind) (bytes : List ℕ) → StandsFor check bytes self.old → StandsFor check (bytes ++ b ∷ []) self.new }
        ensures whole { (check : CheckKind) (bytes : List ℕ) → StandsFor check bytes self.old → TellsMessage check (bytes ++ b ∷ []) result.whole result.station }
    {
        let heard = self.listen(b);
        self.on_heard(heard)
    }

    /// Returns the next byte to transmit, in constant time: None exactly if nothing is to be sent.
    pub fn take(&mut self) -> Option<Out>
        ensures state { self.new ≡ slave_after_take self.old }
        ensures out { result ≡ out_at_take self.old }
        ensures stands { (check : CheckKind) (bytes : List ℕ) → StandsFor check bytes self.old → StandsFor check bytes self.new }
        ensures fewer { IsSome result → left_to_give self.new + 1 ≤ left_to_give self.old }
        ensures most { left_to_give self.old ≤ 511 }
    {
        begin_response(&mut self.mouth, &mut self.responds);
        let out = self.mouth.take();
        self.held = count_sending(self.held, out);
        out
    }

    /// Returns whether `take` would return None.
    pub fn quiet(&self) -> bool
        ensures none_left { result ≡ is_quiet self.now }
        ensures gives_none { result ≡ is_none (out_at_take self.now) }
    {
        self.mouth.idle() && self.responds.is_none()
    }

    /// Returns the body of the whole message that ended at the last byte received, to whatever station, of 6 to 250
    /// bytes; otherwise empty.
    pub fn body(&self) -> &[u8]
        ensures body { result.now ≡ body_of self.now }
        ensures lent { (check : CheckKind) (bytes : List ℕ) → StandsFor check bytes self.now → ReadOff (slave_hears check 250) bytes (lent check 250) result.now }
        ensures fits { length result.now ≤ 250 }
    {
        self.ear.body()
    }

    /// Returns the body of the transmission that was started last, empty if there was none.
    pub fn sending(&self) -> &[u8]
        ensures { result.now ≡ self.now.sending }
    {
        &self.sending
    }

    /// Returns whether it has a message of its host that was neither acknowledged nor given up.
    pub fn holds_message(&self) -> bool
        ensures { result ≡ holds_message self.now }
    {
        self.held.is_some()
    }

    /// Decodes a byte; a header or a poll closes the wait.
    fn listen(&mut self, b: u8) -> Option<SlaveHeard>
        ensures state { self.new ≡ listened self.old b }
        ensures heard { result ≡ heard_at self.old b }
    {
        let heard = self.ear.feed(b);
        self.held = close_wait(self.held, heard);
        heard
    }

    /// Does what the table says.
    fn on_heard(&mut self, heard: Option<SlaveHeard>) -> Step
        requires { (stn : ℕ) → heard ≡ Some (Addressed stn) → 6 ≤ length (body_of self.old) }
        ensures state { self.new ≡ slave_after_heard H.Host self.old heard }
        ensures step { result ≡ step_at_heard H.Host self.old heard }
    {
        match heard {
            Some(SlaveHeard::Addressed(stn)) => self.on_message(stn),
            Some(SlaveHeard::Damaged(stn)) => plain_step(self.damaged_act(stn), News::Nothing),
            Some(SlaveHeard::Poll(stn)) => plain_step(Act::Nothing, self.on_poll(stn)),
            Some(SlaveHeard::Ack) => plain_step(Act::PeerAck, self.tell(fate_at_ack(self.held))),
            Some(SlaveHeard::Reset) => plain_step(Act::PeerNak, self.on_reset()),
            Some(
                SlaveHeard::Header(_)
                | SlaveHeard::BadPoll
                | SlaveHeard::Stray(_)
                | SlaveHeard::StrayPair(_),
            )
            | None => plain_step(Act::Nothing, News::Nothing),
        }
    }

    /// Returns the act at a damaged message to this station, or to another.
    fn damaged_act(&self, stn: u8) -> Act
        ensures { result ≡ act_at H.Host self.now (Some (Damaged stn)) }
    {
        if stn == self.setup.station {
            Act::Damaged
        } else {
            Act::Nothing
        }
    }

    /// Receives a message to this station; one to another station changes nothing.
    fn on_message(&mut self, stn: u8) -> Step
        requires { 6 ≤ length (body_of self.old) }
        ensures state { self.new ≡ slave_after_heard H.Host self.old (Some (Addressed stn)) }
        ensures step { result ≡ step_at_heard H.Host self.old (Some (Addressed stn)) }
    {
        let (act, did) = if stn == self.setup.station {
            self.receive()
        } else {
            (Act::Nothing, None)
        };
        Step {
            act,
            did,
            news: News::Nothing,
            whole: true,
            station: stn,
        }
    }

    /// Acknowledges a duplicate, and accepts or refuses another message.
    fn receive(&mut self) -> (Act, Option<Did>)
        requires { 6 ≤ length (body_of self.old) }
        ensures state { self.new ≡ received H.Host self.old (verdict H.Host self.old) }
        ensures act { result.0 ≡ verdict_act (verdict H.Host self.old) }
        ensures did { result.1 ≡ did_at H.Host result.0 self.old.host (body_of self.old) }
    {
        let body = self.ear.body();
        let key = key_of(body);
        if self.filter.is_repeat(key) {
            self.responds = Some(Resp::Ack);
            (Act::Repeat, None)
        } else if self.host.has_room(body) {
            let did = self.host.accept(body);
            self.filter.keep(key);
            self.responds = Some(Resp::Ack);
            (Act::Accept, Some(did))
        } else {
            self.responds = Some(Resp::Nak);
            (Act::Refuse, None)
        }
    }

    /// Answers a poll of this station if nothing is to be sent; another poll changes nothing.
    fn on_poll(&mut self, stn: u8) -> News
        ensures state { self.new ≡ slave_after_heard H.Host self.old (Some (Poll stn)) }
        ensures news { result ≡ news_of H.Host (fate_at self.old (Some (Poll stn))) self.old.host }
    {
        if stn != self.setup.station || !self.quiet() {
            return News::Nothing;
        }
        let news = self.tell(fate_at_poll(self.held, self.setup.max_sends));
        self.answer();
        news
    }

    /// Sends the held message again, or else the host's next, or else DLE EOT.
    fn answer(&mut self)
        ensures { self.new ≡ answered H.Host self.old self.old.held }
    {
        match self.held {
            Some(_) => self.send(),
            None if self.host.ready() => {
                let _ = self.host.next(&mut self.sending);
                self.held = Some(Held::loaded());
                self.send();
            }
            None => self.mouth.give(HalfFramer::pair(EOT)),
        }
    }

    /// Starts a transmission of the message that is held.
    fn send(&mut self)
        ensures { self.new ≡ sent self.old }
    {
        self.mouth
            .transmit(HalfFramer::reply(&self.sending, self.setup.check));
    }

    /// Gives up the message that is held, and has the host drop what waits.
    fn on_reset(&mut self) -> News
        ensures state { self.new ≡ slave_after_heard H.Host self.old (Some Reset) }
        ensures news { result ≡ news_of H.Host (fate_at self.old (Some Reset)) self.old.host }
    {
        let news = self.tell(fate_at_reset(self.held));
        self.host.clear();
        news
    }

    /// Reports a fate of the message that is held to the host, and drops the message.
    fn tell(&mut self, fate: Option<Fate>) -> News
        ensures state { self.new ≡ told H.Host self.old fate }
        ensures news { result ≡ news_of H.Host fate self.old.host }
    {
        match fate {
            Some(fate) => {
                self.held = None;
                self.host.told(fate)
            }
            None => News::Nothing,
        }
    }
}

/// Returns a step at which no whole message was received.
fn plain_step(act: Act, news: News) -> Step
    ensures { result ≡ record { act = act; did = None; news = news; whole = false; station = 0 } }
{
    Step {
        act,
        did: None,
        news,
        whole: false,
        station: 0,
    }
}

/// Starts a response that waits, if nothing else is left to be sent.
fn begin_response(mouth: &mut HalfMouth, responds: &mut Option<Resp>)
    ensures mouth { mouth.new ≡ mouth_at_take mouth.old responds.old }
    ensures responds { responds.new ≡ responds_at_take mouth.old responds.old }
    ensures most { bytes_left mouth.old ≤ 509 }
{
    if mouth.idle()
        && let Some(resp) = *responds
    {
        *responds = None;
        mouth.give(HalfFramer::pair(code_of(resp)));
    }
}

/// Returns the code of a response's pair.
fn code_of(resp: Resp) -> u8
    ensures { result ≡ response_code resp }
{
    match resp {
        Resp::Ack => ACK,
        Resp::Nak => NAK,
    }
}
