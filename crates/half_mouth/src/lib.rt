//! `HalfMouth`, the transmitter of a half-duplex end, which sends one thing at a time: a message, a poll, EOT or a
//! response.
//!
//! A sending of a message is a transmission, and transmissions are numbered from 1 in the order in which they start.
//! The last byte of a transmission is marked with its number, and so is each byte that is by itself a byte of the body.
//! A poll, EOT and a response are no transmissions (manual topic: half-duplex protocol).
#![tactic(auto)]

ghost use Rattle.std.specs.Prelude.{◌≡◌, ◌≤◌, ◌+◌, ◌↔◌, length, drop, slice_get, not, ◌==◌, IsNone, IsSome, IsTrue};
ghost use Rattle.half_frame.specs.declared.framer.Sent.{Sent as ByteSent};
ghost use Rattle.half_mouth.specs.Giving.{Giving, nothing, transmit, give, is_done, bytes_left, take, out_of};
ghost use Rattle.half_mouth.specs.View.{left_of};

use df1_base::Out;
use half_frame::{HalfFramer, Sent};
use std::marker::Model;

/// The transmitter: what an end has to send. Contracts see the bytes that are left of it, and the number of its
/// transmission.
#[derive(Drop)]
pub struct HalfMouth {
    framer: Option<HalfFramer>,
    number: Option<u64>,
    begun: u64,
}

impl Model for HalfMouth {
    ghost use Rattle.half_mouth.specs.Giving.{Giving};

    ghost Value = { Giving };

    ghost use Rattle.half_mouth.specs.View.{left_of};

    ghost view = { λ m. record { left = left_of m.framer; number = m.number; begun = m.begun } };
}

impl HalfMouth {
    /// Returns a transmitter with nothing to send.
    pub fn new() -> HalfMouth
        ensures { result ≡ nothing }
    {
        HalfMouth {
            framer: None,
            number: None,
            begun: 0,
        }
    }

    /// Starts a message. Its transmission has the next number; the number stops at the last value of u64. What was left
    /// is given up.
    pub fn transmit(&mut self, framer: HalfFramer)
        ensures { self.new ≡ transmit self.old framer }
    {
        self.begun = self.begun.saturating_add(1);
        self.number = Some(self.begun);
        self.framer = Some(framer);
    }

    /// Starts a poll, EOT or a response. What was left is given up.
    pub fn give(&mut self, framer: HalfFramer)
        ensures { self.new ≡ give self.old framer }
    {
        self.number = None;
        self.framer = Some(framer);
    }

    /// Returns whether nothing is left to be sent. At most 509 bytes are left.
    pub fn idle(&self) -> bool
        ensures value { result ≡ is_done self.now }
        ensures gives { IsTrue result ↔ IsNone (take self.now).1 }
        ensures most { bytes_left self.now ≤ 509 }
    {
        !is_left(&self.framer)
    }

    /// Returns the next byte: None exactly if none is left.
    pub fn take(&mut self) -> Option<Out>
        ensures after { self.new ≡ (take self.old).0 }
        ensures out { result ≡ (take self.old).1 }
    {
        let sent = next_sent(&mut self.framer)?;
        let number = self.number;
        let is_last = !is_left(&self.framer);
        Some(Out {
            byte: sent.byte,
            last_of: if is_last { number } else { None },
            body_of: if sent.of_body { number } else { None },
        })
    }
}

/// Each byte that is returned leaves one fewer, and none is returned exactly if none is left.
pub fn each_take_counts()
    ensures fewer { (g : Giving) → IsSome (take g).1 → bytes_left g ≡ bytes_left (take g).0 + 1 }
    ensures none { (g : Giving) → IsNone (take g).1 ↔ (bytes_left g ≡ 0) }
{}

/// Returns whether a byte is left.
fn is_left(framer: &Option<HalfFramer>) -> bool
    ensures left { result ≡ not (length (left_of framer.now) == 0) }
    ensures most { length (left_of framer.now) ≤ 509 }
{
    match framer {
        Some(framer) => !framer.done(),
        None => false,
    }
}

/// Returns the next byte with its mark, if one is left.
fn next_sent(framer: &mut Option<HalfFramer>) -> Option<Sent>
    ensures given { result ≡ slice_get (left_of framer.old) 0 }
    ensures left { left_of framer.new ≡ drop 1 (left_of framer.old) }
{
    match framer {
        Some(framer) => framer.next_sent(),
        None => None,
    }
}
