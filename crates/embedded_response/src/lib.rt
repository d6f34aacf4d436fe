//! `Mouth`, the transmitter of a full-duplex end: which byte it sends next, and the responses that stand inside a
//! frame.
//!
//! It sends the first of these that is there:
//!
//! 1. the second byte of a pair whose first was sent;
//! 2. inside a frame, a response that waits, if embedding is on and the last unit had a gap;
//! 3. inside a frame, its next unit;
//! 4. a response that waits;
//! 5. an ENQ that is pending.
//!
//! A newer response replaces one that still waits. NAK is sent as 10 15 (manual topic: full-duplex protocol).
#![tactic(auto)]

ghost use Rattle.std.specs.Prelude.{◌≡◌, ◌≤◌, ◌↔◌, [], length, not, is_none, if◌then◌else◌, IsNone, IsSome, IsTrue, None, Some, ◌+◌};
ghost use Rattle.std.specs.Option.{option_map};
ghost use Rattle.embedded_response.specs.Giving.{Giving, bytes_left, nothing, offer, forget, answer_enq, ask, unask, begin, is_begun, chosen, take, plain, unit_out, code_of};

use df1_base::{ACK, DLE, ENQ, NAK, Out, Resp};
use df1_check::Check;
use df1_frame::{Framer, Unit};
use std::marker::Model;

/// The transmitter: what an end has to send, byte by byte.
#[derive(Drop)]
pub struct Mouth {
    check: Check,
    embed: bool,
    last: Resp,
    waiting: Option<Resp>,
    asking: bool,
    framer: Framer,
    second: Option<u8>,
    gap: bool,
    begun: u64,
}

impl Model for Mouth {
    ghost use Rattle.embedded_response.specs.Giving.{Giving};

    ghost Value = { Giving };

    ghost use Rattle.std.specs.Option.{option_map};
    ghost use Rattle.embedded_response.specs.Giving.{plain};

    ghost view = { λ m. record { check = m.check; embed = m.embed; last = m.last; waiting = m.waiting; asking = m.asking; left = m.framer; second = option_map plain m.second; gap = m.gap; begun = m.begun } };
}

impl Mouth {
    /// Returns a transmitter with nothing to send, whose frames have this check. If `embed` is off, responses wait for
    /// a frame's end.
    pub fn new(check: Check, embed: bool) -> Mouth
        ensures { result ≡ nothing check embed }
    {
        Mouth {
            check,
            embed,
            last: Resp::Nak,
            waiting: None,
            asking: false,
            framer: Framer::new(),
            second: None,
            gap: false,
            begun: 0,
        }
    }

    /// Makes this the last response and the one that waits.
    pub fn offer(&mut self, r: Resp)
        ensures { self.new ≡ offer self.old r }
    {
        self.last = r;
        self.waiting = Some(r);
    }

    /// Makes NAK the last response, and leaves what waits.
    pub fn forget(&mut self)
        ensures { self.new ≡ forget self.old }
    {
        self.last = Resp::Nak;
    }

    /// Makes the last response wait again.
    pub fn enq(&mut self)
        ensures { self.new ≡ answer_enq self.old }
    {
        self.waiting = Some(self.last);
    }

    /// Makes an ENQ pending.
    pub fn ask(&mut self)
        ensures { self.new ≡ ask self.old }
    {
        self.asking = true;
    }

    /// Drops the pending ENQ.
    pub fn unask(&mut self)
        ensures { self.new ≡ unask self.old }
    {
        self.asking = false;
    }

    /// Starts the frame of a body of at most 250 bytes, when no frame is started. Its transmission has the next number;
    /// the number stops at the last value of u64.
    pub fn frame(&mut self, body: &[u8])
        requires none_begun { self.old.left ≡ [] }
        requires fits { length body.now ≤ 250 }
        ensures { self.new ≡ begin self.old body.now }
    {
        self.framer.begin(body, self.check);
        self.gap = false;
        self.begun = self.begun.saturating_add(1);
    }

    /// Returns whether a frame is started and not ended.
    pub fn in_frame(&self) -> bool
        ensures value { result ≡ is_begun self.now }
        ensures begun { IsTrue (not result) ↔ (self.now.left ≡ []) }
    {
        !self.framer.done()
    }

    /// Returns whether nothing is to be sent. At most 511 bytes are left.
    #[tactic(auto, using(crate::proofs::GivingLemmas::chosen_none, crate::proofs::GivingLemmas::taken_none))]
    #[inline(always)]
    pub fn idle(&self) -> bool
        ensures value { result ≡ is_none (chosen self.now) }
        ensures gives { IsTrue result ↔ IsNone (take self.now).1 }
        ensures most { bytes_left self.now ≤ 511 }
    {
        let ended = self.framer.done();
        self.second.is_none() && ended && self.waiting.is_none() && !self.asking
    }

    /// Returns the next byte: None exactly if no half-sent pair, response, ENQ or frame is left. It is inlined, since a
    /// byte that is returned in memory costs more than all else here.
    #[inline(always)]
    pub fn take(&mut self) -> Option<Out>
        ensures after { self.new ≡ (take self.old).0 }
        ensures out { result ≡ (take self.old).1 }
    {
        if let Some(code) = self.second.take() {
            return Some(unmarked(code));
        }
        let may_embed = self.embed && self.gap && !self.framer.done();
        if let Some(r) = take_if(&mut self.waiting, may_embed) {
            return Some(begin_pair(&mut self.second, response_code(r)));
        }
        if let Some(unit) = self.framer.next_unit() {
            self.gap = unit.gap;
            return Some(begin_unit(&mut self.second, unit, self.begun));
        }
        if let Some(r) = self.waiting.take() {
            return Some(begin_pair(&mut self.second, response_code(r)));
        }
        if self.asking {
            self.asking = false;
            return Some(begin_pair(&mut self.second, ENQ));
        }
        None
    }
}

/// Each byte that is returned leaves one fewer, and none is returned exactly if none is left.
pub fn each_take_counts()
    ensures fewer { (g : Giving) → IsSome (take g).1 → bytes_left g ≡ bytes_left (take g).0 + 1 }
    ensures none { (g : Giving) → IsNone (take g).1 ↔ (bytes_left g ≡ 0) }
{}

/// Takes the response that waits, if it may be sent.
#[inline(always)]
fn take_if(waiting: &mut Option<Resp>, may: bool) -> Option<Resp>
    ensures taken { result ≡ (if may then waiting.old else None) }
    ensures left { waiting.new ≡ (if may then None else waiting.old) }
{
    if may { waiting.take() } else { None }
}

/// Returns the first byte of a pair without marks, and keeps the second.
#[inline(always)]
fn begin_pair(second: &mut Option<u8>, code: u8) -> Out
    ensures out { result ≡ plain 16 }
    ensures second { second.new ≡ Some code }
{
    *second = Some(code);
    unmarked(DLE)
}

/// Returns the first byte of a unit, and keeps the second of a pair, when none is kept.
#[inline(always)]
fn begin_unit(second: &mut Option<u8>, unit: Unit, number: u64) -> Out
    requires { second.old ≡ None }
    ensures out { result ≡ (unit_out unit unit.second number).0 }
    ensures second { option_map plain second.new ≡ (unit_out unit unit.second number).1 }
{
    match unit.second {
        None => Out {
            byte: unit.first,
            last_of: unit.last.then_some(number),
            body_of: unit.gap.then_some(number),
        },
        Some(code) => {
            *second = Some(code);
            unmarked(unit.first)
        }
    }
}

fn unmarked(byte: u8) -> Out
    ensures { result ≡ plain byte }
{
    Out {
        byte,
        last_of: None,
        body_of: None,
    }
}

fn response_code(r: Resp) -> u8
    ensures { result ≡ code_of r }
{
    match r {
        Resp::Ack => ACK,
        Resp::Nak => NAK,
    }
}
