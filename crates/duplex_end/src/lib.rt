//! One end of a full-duplex link, over any host: it joins the receiver, the sender and what is to be sent.
//!
//! A received byte first has the effect of its act: an accepted message goes to the host, and the response of the act
//! waits to be sent. An ACK or a NAK goes to the sender, and a fate that it decides is reported to the host at once.
//!
//! A tick goes to the sender first and to the host second. If the sender asks, an ENQ becomes pending; if it gives its
//! message up, that is reported to the host. A pending ENQ that was not started is dropped when the sender leaves
//! Waiting.
//!
//! A take returns the first of these that is there:
//!
//! 1. the second byte of a pair whose first was sent;
//! 2. inside a frame, a response that waits, if embedding is on and the last unit had a gap;
//! 3. inside a frame, its next unit;
//! 4. a response that waits;
//! 5. an ENQ that is pending;
//! 6. the frame of a sender that is in Sending;
//! 7. the frame of a new message of the host.
//!
//! With the last byte of a frame the sender starts to wait (manual topic: full-duplex protocol).
//!
//! An end stands for the bytes that arrived at it: a whole frame is received exactly if the grammar of the line decodes
//! one at the last of all these bytes, whatever else happened to the end and to its host.
#![tactic(auto)]

ghost use Rattle.std.specs.Prelude.{◌≡◌, ◌≤◌, ◌+◌, ◌↔◌, ◌∷◌, ◌++◌, [], ℕ, List, length, is_none, IsSome, IsTrue};
ghost use Rattle.std.specs.Borrow.{Lends, sem};
ghost use Rattle.df1_base.specs.Host.{IsBody};
ghost use Rattle.df1_check.specs.declared.Check.{Check as CheckKind};
ghost use Rattle.df1_frame.specs.Line.{ReadOff};
ghost use Rattle.df1_frame.specs.Grammar.{full_duplex};
ghost use Rattle.df1_frame.specs.Standing.{lent};
ghost use Rattle.duplex_receiver.specs.Receiver.{body_at};
ghost use Rattle.embedded_response.specs.Giving.{chosen, take};
ghost use Rattle.duplex_sender.specs.Sender.{phase_of};
ghost use Rattle.duplex_end.specs.End.{holds_message, is_waiting, new_end, with_host, end_after_byte, step_at_byte, answered, answer_of, end_after_tick, turn_at_tick, gone_at_tick, next_place, begun_next, given_next, end_after_take, out_at_take};
ghost use Rattle.duplex_end.specs.Joined.{most_left};
ghost use Rattle.duplex_end.specs.Arrived.{StandsFor, HearsWhole};
ghost use Rattle.duplex_end.specs.contracts.End.{the_row};

mod laws;
mod parts;
mod serving;

use arrayvec::ArrayVec;
use df1_base::{Act, Host, News, Out, Step, Turn};
use df1_check::Check;
use duplex_receiver::Receiver;
use duplex_sender::{Limits, Phase, Sender};
use embedded_response::Mouth;
pub use laws::{
    a_drain_ends, a_fate_is_told_once, arrivals_are_heard, hears_what_the_grammar_hears,
    last_response_is_by_the_acts, parts_stay_joined, signals_go_on,
};
use parts::{drop_wish, fill, hear_peer, is_whole, note_out, respond, take_in, tell, tick_sender};
pub use serving::{Served, serve};
use std::marker::Model;

/// The setup of an end.
#[derive(Clone, Copy, Debug, PartialEq, Eq)]
pub struct Setup {
    /// The check of its frames.
    pub check: Check,
    /// Whether responses may stand inside its frames.
    pub embed: bool,
    /// The limits of its sender, whose `ack_ticks` is at least 1.
    pub limits: Limits,
}

/// One end of a full-duplex link, with the host behind it.
pub struct End<H: Host + Drop> {
    receiver: Receiver<250>,
    sender: Sender,
    mouth: Mouth,
    sending: ArrayVec<u8, 250>,
    host: H,
}

// By hand, so that whoever drops one proves nothing of its parts.
impl<H: Host + Drop> Drop for End<H> {
    fn drop(self) {
        let End {
            receiver: _receiver,
            sender: _sender,
            mouth: _mouth,
            sending: _sending,
            host: _host,
        } = self;
    }
}

impl<H: Host + Drop> Model for End<H> {
    ghost use Rattle.duplex_end.specs.End.{EndState};
    ghost use Rattle.duplex_end.specs.Joined.{Joined, IsShort};

    ghost Value = { EndState H };

    ghost view = { λ e. record { receiver = e.receiver; sender = e.sender; mouth = e.mouth; sending = e.sending.items; host = e.host } };

    ghost invariant = { λ e. Joined e.mouth e.sender × IsShort e.mouth };
}

impl<H: Host + Drop> End<H> {
    /// Returns an end, over a host, that has received and sent nothing.
    pub fn new(setup: Setup, host: H) -> End<H>
        requires { 1 ≤ setup.limits.ack_ticks }
        ensures value { result ≡ new_end setup host }
        ensures stands { StandsFor setup.check [] result }
    {
        End {
            receiver: Receiver::new(setup.check),
            sender: Sender::new(setup.limits),
            mouth: Mouth::new(setup.check, setup.embed),
            sending: ArrayVec::new(),
            host,
        }
    }

    /// Returns the host.
    pub fn host(&self) -> &H
        ensures { result.now ≡ self.now.host }
    {
        &self.host
    }

    /// Returns the host, to be changed in any way.
    pub fn host_mut(&mut self) -> &mut H
        ensures* writes_back { sem 𝓛 (Lends (the_row H.row H.Host) H.row self.entry result (with_host self.old)) }
        ensures value { result.now ≡ self.old.host }
        ensures stands { (check : CheckKind) (bytes : List ℕ) (host : H) → StandsFor check bytes self.old → StandsFor check bytes (with_host self.old host) }
    {
        &mut self.host
    }

    /// Takes a received byte, in constant time, and returns what the end made of it. `did` is there exactly at Accept,
    /// and `news` is the host's answer to a fate that was decided here. `whole` says whether a good frame was received,
    /// and `station` is 0. It is inlined, since most bytes mean nothing, and such a byte costs a caller no call.
    #[inline(always)]
    pub fn on_byte(&mut self, b: u8) -> Step
        ensures state { self.new ≡ end_after_byte H.Host self.old b }
        ensures step { result ≡ step_at_byte H.Host self.old b }
        ensures stands { (check : CheckKind) (bytes : List ℕ) → StandsFor check bytes self.old → StandsFor check (bytes ++ b ∷ []) self.new }
        ensures whole { (check : CheckKind) (bytes : List ℕ) → StandsFor check bytes self.old → IsTrue result.whole ↔ HearsWhole check (bytes ++ b ∷ []) }
    {
        match self.receiver.on_byte(b, &self.host) {
            Act::Nothing => Step {
                act: Act::Nothing,
                did: None,
                news: News::Nothing,
                whole: false,
                station: 0,
            },
            act => self.answer_to(act),
        }
    }

    /// Lets a unit of time pass: the sender's tick first, the host's second. `gone` is replaced by the commands that
    /// are unanswered from this tick on. Returns Ask exactly if the sender asks, Failed with the host's answer exactly
    /// if the message was given up, and Still otherwise.
    pub fn on_tick(&mut self, gone: &mut ArrayVec<u32, 16>) -> Turn
        ensures state { self.new ≡ end_after_tick H.Host self.old }
        ensures turn { result ≡ turn_at_tick H.Host self.old }
        ensures gone { gone.new.items ≡ gone_at_tick H.Host self.old }
        ensures stands { (check : CheckKind) (bytes : List ℕ) → StandsFor check bytes self.old → StandsFor check bytes self.new }
    {
        let before = self.sender.phase();
        let turn = tick_sender(&mut self.sender, &mut self.mouth, &mut self.host);
        drop_wish(&mut self.mouth, before, self.sender.phase());
        self.host.tick(gone);
        turn
    }

    /// Returns the next byte to transmit, in constant time except at the start of a frame: None exactly if nothing is
    /// to be sent. It is inlined, as what it calls at each byte is, so that a byte costs no call.
    #[inline(always)]
    pub fn take(&mut self) -> Option<Out>
        ensures state { self.new ≡ end_after_take H.Host self.old }
        ensures out { result ≡ out_at_take H.Host self.old }
        ensures stands { (check : CheckKind) (bytes : List ℕ) → StandsFor check bytes self.old → StandsFor check bytes self.new }
        ensures fewer { IsSome result → most_left H.Host self.new + 1 ≤ most_left H.Host self.old }
        ensures most { most_left H.Host self.old ≤ 511 }
    {
        match self.give() {
            Some(out) => Some(out),
            None => self.begin_and_give(),
        }
    }

    /// Returns whether `take` would return None.
    pub fn quiet(&self) -> bool
        ensures none_there { result ≡ is_none (next_place H.Host self.now) }
        ensures gives_none { result ≡ is_none (out_at_take H.Host self.now) }
    {
        self.mouth.idle()
            && match self.sender.phase() {
                Phase::Idle => !self.host.ready(),
                Phase::Sending => false,
                Phase::Waiting => true,
            }
    }

    /// Returns the body of the frame that ended at the last byte received, at most 250 bytes, whether it is good, too
    /// short or with a wrong check; otherwise empty.
    pub fn body(&self) -> &[u8]
        ensures body { result.now ≡ body_at self.now.receiver }
        ensures lent { (check : CheckKind) (bytes : List ℕ) → StandsFor check bytes self.now → ReadOff (full_duplex check 250) bytes (lent check 250) result.now }
        ensures fits { length result.now ≤ 250 }
    {
        self.receiver.body()
    }

    /// Returns the body of the transmission that was started last, empty if there was none.
    pub fn sending(&self) -> &[u8]
        ensures { result.now ≡ self.now.sending }
    {
        &self.sending
    }

    /// Returns whether it waits for the response to a message that it has sent (manual topic: full-duplex protocol).
    pub fn is_waiting(&self) -> bool
        ensures { result ≡ is_waiting (phase_of self.now.sender) }
    {
        match self.sender.phase() {
            Phase::Waiting => true,
            Phase::Idle | Phase::Sending => false,
        }
    }

    /// Returns whether it has a message of its host that was neither acknowledged nor given up.
    pub fn holds_message(&self) -> bool
        ensures { result ≡ holds_message self.now }
    {
        match self.sender.phase() {
            Phase::Idle => false,
            Phase::Sending | Phase::Waiting => true,
        }
    }

    /// Applies an act at the last byte received, and returns what the end made of it. It isn't inlined, since it is
    /// called at few bytes.
    #[inline(never)]
    fn answer_to(&mut self, act: Act) -> Step
        requires body { act ≡ Act.Accept → IsBody (body_at self.old.receiver) }
        requires room { act ≡ Act.Accept → IsTrue (H.room_for self.old.host (body_at self.old.receiver)) }
        ensures state { self.new ≡ answered H.Host self.old act }
        ensures step { result ≡ answer_of H.Host self.old act }
    {
        let did = take_in(&mut self.host, act, self.receiver.body());
        respond(&mut self.mouth, act);
        let before = self.sender.phase();
        let fate = hear_peer(&mut self.sender, act);
        drop_wish(&mut self.mouth, before, self.sender.phase());
        let news = tell(&mut self.host, fate);
        Step {
            act,
            did,
            news,
            whole: is_whole(act),
            station: 0,
        }
    }

    /// Starts a frame, since nothing else is to be sent, and returns its first byte, or None if there is no message. It
    /// isn't inlined, since few bytes start a frame.
    #[inline(never)]
    fn begin_and_give(&mut self) -> Option<Out>
        requires { chosen self.old.mouth ≡ None }
        ensures state { self.new ≡ given_next (begun_next H.Host self.old) }
        ensures out { result ≡ (take (begun_next H.Host self.old).mouth).1 }
        ensures fewer { IsSome result → most_left H.Host self.new + 1 ≤ most_left H.Host self.old }
    {
        self.begin_next();
        self.give()
    }

    /// Starts the frame of a sender that sends, or else that of a new message of the host.
    fn begin_next(&mut self)
        requires { chosen self.old.mouth ≡ None }
        ensures state { self.new ≡ begun_next H.Host self.old }
        ensures no_more { most_left H.Host self.new ≤ most_left H.Host self.old }
    {
        match self.sender.phase() {
            Phase::Idle => {
                if self.host.ready() {
                    let _ = self.host.next(&mut self.sending);
                    self.sender.load(&self.sending);
                    self.mouth.frame(&self.sending);
                }
            }
            Phase::Sending => {
                fill(&mut self.sending, self.sender.body());
                self.mouth.frame(self.sender.body());
            }
            Phase::Waiting => {}
        }
    }

    /// Returns the next byte of what there is.
    #[inline(always)]
    fn give(&mut self) -> Option<Out>
        ensures state { self.new ≡ given_next self.old }
        ensures out { result ≡ (take self.old.mouth).1 }
        ensures fewer { IsSome result → most_left H.Host self.new + 1 ≤ most_left H.Host self.old }
        ensures most { most_left H.Host self.old ≤ 511 }
    {
        let out = self.mouth.take();
        note_out(&mut self.sender, out);
        out
    }
}
