//! What is gathered of a frame's body while it arrives.

ghost use Rattle.std.specs.Prelude.{◌≡◌, ◌≤◌, length};
ghost use Rattle.std.specs.List.{fold};
ghost use Rattle.df1_check.specs.Checks.{check_value, take_byte};
ghost use Rattle.df1_frame.specs.Spelling.{check_bytes, same};
ghost use Rattle.df1_frame.specs.Gathered.{nothing_gathered, gather, cover as covering, close as closed, verdict as verdict_of};

use crate::Heard;
use arrayvec::ArrayVec;
use df1_base::{ETX, MIN_BODY};
use df1_check::{Check, Running};
use std::marker::Model;

/// The first N bytes of a body, whether more came, and the check of all so far.
#[derive(Drop)]
pub struct Gathered<const N: usize> {
    bytes: ArrayVec<u8, N>,
    long: bool,
    running: Running,
}

impl<const N: usize> Model for Gathered<N> {
    ghost use Rattle.df1_frame.specs.Gathered.{Gathered as SoFar};

    ghost Value = { SoFar };

    ghost view = { λ g. record { bytes = g.bytes.items; long = g.long; running = g.running } };
}

impl<const N: usize> Gathered<N> {
    /// Returns a `Gathered` of no body, for at most 4,096 bytes.
    pub fn new(check: Check) -> Self
        requires { N ≤ 4096 }
        ensures { result ≡ nothing_gathered check }
    {
        Gathered {
            bytes: ArrayVec::new(),
            long: false,
            running: Running::new(check),
        }
    }

    /// Forgets all, and starts the check anew.
    pub fn clear(&mut self, check: Check)
        ensures { self.new ≡ nothing_gathered check }
    {
        self.bytes.clear();
        self.long = false;
        self.running = Running::new(check);
    }

    /// Takes a byte of the body.
    pub fn gather(&mut self, b: u8)
        ensures { self.new ≡ gather N self.old b }
    {
        self.running.step(b);
        if self.bytes.is_full() {
            self.long = true;
        } else {
            self.bytes.push(b);
        }
    }

    /// Takes bytes of the body, in order.
    pub fn gather_all(&mut self, bytes: &[u8])
        ensures { self.new ≡ fold (gather N) self.old bytes.now }
    {
        step_all(&mut self.running, bytes);
        let room = self.bytes.remaining_capacity();
        if bytes.len() <= room {
            self.bytes.try_extend_from_slice(bytes).unwrap();
        } else {
            self.bytes.try_extend_from_slice(&bytes[..room]).unwrap();
            self.long = true;
        }
    }

    /// Takes a byte that the check covers and that is not part of the body.
    pub fn cover(&mut self, b: u8)
        ensures { self.new ≡ covering self.old b }
    {
        self.running.step(b);
    }

    /// Ends the body. The CRC covers the ETX.
    pub fn close(&mut self, check: Check)
        ensures { self.new ≡ closed check self.old }
    {
        match check {
            Check::Bcc => {}
            Check::Crc => self.running.step(ETX),
        }
    }

    /// Returns whether more than N bytes of the body came.
    pub fn is_long(&self) -> bool
        ensures { result ≡ self.now.long }
    {
        self.long
    }

    /// Returns the first N bytes of the body.
    pub fn bytes(&self) -> &[u8]
        ensures value { result.now ≡ self.now.bytes }
        ensures fits { length result.now ≤ N }
    {
        self.bytes.as_slice()
    }

    /// Returns what is decoded at the end of the frame with these check bytes.
    pub fn verdict(&self, check: Check, bytes: &[u8]) -> Heard
        ensures { result ≡ verdict_of check self.now bytes.now }
    {
        if self.long {
            Heard::Long
        } else if !is_check(check, self.running.value(), bytes) {
            Heard::BadCheck
        } else if self.bytes.len() < MIN_BODY {
            Heard::Short
        } else {
            Heard::Good
        }
    }
}

/// Passes bytes to the check, in order.
fn step_all(running: &mut Running, bytes: &[u8])
    ensures { running.new ≡ fold take_byte running.old bytes.now }
{
    for b in bytes {
        running.step(*b);
    }
}

/// Returns whether these are the check bytes of the value.
#[tactic(auto, unfolding(crate::specs::Spelling::check_bytes))]
fn is_check(check: Check, value: u16, bytes: &[u8]) -> bool
    ensures { result ≡ same bytes.now (check_bytes check value) }
{
    match check {
        Check::Bcc => match bytes {
            [only] => u16::from(*only) == value,
            _ => false,
        },
        Check::Crc => match bytes {
            [low, high] => u16::from(*low) == value % 256 && u16::from(*high) == value / 256,
            _ => false,
        },
    }
}
