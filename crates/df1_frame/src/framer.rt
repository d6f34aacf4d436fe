//! The units in which a frame is sent, so that responses can be put between them.

ghost use Rattle.std.specs.Prelude.{◌≡◌, ◌≤◌, ℕ, List, [], length, drop, slice_get, IsTrue, ◌↔◌};
ghost use Rattle.df1_check.specs.Checks.{taken};
ghost use Rattle.df1_frame.specs.Spelling.{check_of};
ghost use Rattle.df1_frame.specs.Units.{body_unit, byte_unit, bytes_of, pair_unit, units};

use arrayvec::ArrayVec;
use df1_base::{DLE, ETX, MAX_BODY, STX};
use df1_check::{Check, Running};
use std::marker::Model;

/// One or two bytes of a frame that nothing may stand between.
#[derive(Clone, Copy, Debug, PartialEq, Eq)]
pub struct Unit {
    /// The byte, or a pair's DLE.
    pub first: u8,
    /// The second byte of a pair.
    pub second: Option<u8>,
    /// Whether a response may follow: true for the pair DLE STX, and for each byte of the body.
    pub gap: bool,
    /// Whether the unit is the frame's last.
    pub last: bool,
}

/// The part of a frame that is sent next.
#[derive(Clone, Copy)]
enum Part {
    /// DLE STX.
    Opening,
    /// The body from this place on, and then DLE ETX.
    Body(usize),
    /// The check bytes from this place on.
    Check(usize),
}

/// A frame without responses, under way. Contracts see the list of the units that are still to be sent.
#[derive(Drop)]
pub struct Framer {
    part: Part,
    body: ArrayVec<u8, MAX_BODY>,
    check: ArrayVec<u8, 2>,
}

impl Model for Framer {
    ghost use Rattle.std.specs.Prelude.{List, length, ◌≤◌};
    ghost use Rattle.df1_frame.specs.declared.framer.Unit.{Unit as Given};

    ghost Value = { List Given };

    ghost use Rattle.df1_frame.specs.Framing.{units_left};

    ghost view = { λ f. units_left f.part f.body.items f.check.items };

    ghost invariant = { λ f. (length f.body.items ≤ 250) × (length f.check.items ≤ 2) };
}

impl Framer {
    /// Returns a framer with nothing to send.
    pub fn new() -> Framer
        ensures { result ≡ [] }
    {
        Framer {
            part: Part::Check(0),
            body: ArrayVec::new(),
            check: ArrayVec::new(),
        }
    }

    /// Starts the frame of a body of at most 250 bytes, in place of what is left.
    pub fn begin(&mut self, body: &[u8], check: Check)
        requires { length body.now ≤ 250 }
        ensures { self.new ≡ units check body.now }
    {
        self.part = Part::Opening;
        self.body.clear();
        let mut running = Running::new(check);
        for b in body {
            self.body.push(*b);
            running.step(*b);
        }
        self.check = check_bytes(check, running);
    }

    /// Returns the next unit: None exactly if none is left. It is inlined, since a unit that is returned in memory
    /// costs more than all else here.
    #[inline(always)]
    pub fn next_unit(&mut self) -> Option<Unit>
        ensures given { result ≡ slice_get self.old 0 }
        ensures left { self.new ≡ drop 1 self.old }
    {
        match self.part {
            Part::Opening => {
                self.part = Part::Body(0);
                Some(pair(STX, true))
            }
            Part::Body(at) => match self.body.as_slice().get(at) {
                Some(b) => {
                    self.part = Part::Body(at + 1);
                    Some(body_unit(*b))
                }
                None => {
                    self.part = Part::Check(0);
                    Some(pair(ETX, false))
                }
            },
            Part::Check(at) => {
                let b = *self.check.as_slice().get(at)?;
                self.part = Part::Check(at + 1);
                Some(single(b, false, at + 1 == self.check.len()))
            }
        }
    }

    /// Returns whether no unit is left. At most 506 bytes are left.
    #[inline(always)]
    pub fn done(&self) -> bool
        ensures done { IsTrue result ↔ (self.now ≡ []) }
        ensures most { length (bytes_of self.now) ≤ 506 }
    {
        match self.part {
            Part::Opening => false,
            Part::Body(_) => false,
            Part::Check(at) => self.check.len() <= at,
        }
    }
}

#[inline(always)]
fn pair(code: u8, gap: bool) -> Unit
    ensures { result ≡ pair_unit code gap }
{
    Unit {
        first: DLE,
        second: Some(code),
        gap,
        last: false,
    }
}

#[inline(always)]
fn single(b: u8, gap: bool, last: bool) -> Unit
    ensures { result ≡ byte_unit b gap last }
{
    Unit {
        first: b,
        second: None,
        gap,
        last,
    }
}

/// Returns the unit of a byte of the body, with a DLE doubled.
#[inline(always)]
fn body_unit(b: u8) -> Unit
    ensures { result ≡ body_unit b }
{
    if b == DLE {
        pair(DLE, true)
    } else {
        single(b, true, false)
    }
}

/// Returns the check bytes of what a running check of this kind has taken: one byte (BCC), or two (CRC), of which the
/// low one goes first and which cover the ETX too.
#[tactic(auto, unfolding(crate::specs::Spelling::check_bytes))]
pub fn check_bytes(check: Check, mut running: Running) -> ArrayVec<u8, 2>
    ensures bytes { (body : List ℕ) → running ≡ taken check body → result.items ≡ check_of check body }
    ensures fits { length result.items ≤ 2 }
{
    let mut bytes = ArrayVec::new();
    match check {
        Check::Bcc => bytes.push((running.value() % 256) as u8),
        Check::Crc => {
            running.step(ETX);
            let value = running.value();
            bytes.push((value % 256) as u8);
            bytes.push((value / 256) as u8);
        }
    }
    bytes
}
