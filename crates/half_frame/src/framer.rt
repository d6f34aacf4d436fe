//! What is sent on a half-duplex line, byte by byte.

ghost use Rattle.std.specs.Prelude.{◌≡◌, ◌≢◌, ◌≤◌, ◌↔◌, ℕ, List, [], ◌∷◌, ◌++◌, IsTrue, ◌+◌, ◌==◌, if◌then◌else◌, false, length, drop, slice_get};
ghost use Rattle.df1_check.specs.Checks.{taken};
ghost use Rattle.df1_frame.specs.Spelling.{Plain, Doubled, pieces_of, check_of, framed};
ghost use Rattle.half_frame.specs.Spelling.{bytes_of, message_bytes, message_sent, pair_bytes, piece_sent, poll_bytes, reply_bytes, reply_sent, text_sent, unmarked as unmarked_of};

use crate::SOH;
use arrayvec::ArrayVec;
use df1_base::{DLE, ENQ, ETX, MAX_BODY, STX};
use df1_check::{Check, Running, bcc};
use df1_frame::check_bytes;
use std::marker::Model;

/// The most bytes that are sent at once: a master's message whose body is 250 times DLE, with a CRC.
const MAX_BYTES: usize = 3 + 2 + 2 * MAX_BODY + 2 + 2;

/// A byte that is sent.
#[derive(Clone, Copy, Debug, Default, PartialEq, Eq)]
pub struct Sent {
    /// The byte.
    pub byte: u8,
    /// Whether it is by itself a byte of the body. Neither byte of a doubled DLE is.
    pub of_body: bool,
}

/// A message, a poll or a pair under way. Contracts see the list of the bytes that are still to be sent, with their
/// marks.
#[derive(Drop)]
pub struct HalfFramer {
    bytes: ArrayVec<Sent, MAX_BYTES>,
    given: usize,
}

impl Model for HalfFramer {
    ghost use Rattle.std.specs.Prelude.{List, drop};
    ghost use Rattle.half_frame.specs.declared.framer.Sent.{Sent as ByteSent};

    ghost Value = { List ByteSent };

    ghost view = { λ f. drop f.given f.bytes.items };
}

impl HalfFramer {
    /// Returns a master's message to the station `stn`, which is neither 16 nor 255, with a body of at most 250 bytes.
    pub fn message(stn: u8, body: &[u8], check: Check) -> HalfFramer
        requires not_dle { stn ≢ 16 }
        requires not_all { stn ≢ 255 }
        requires fits { length body.now ≤ 250 }
        ensures { result ≡ message_sent check stn body.now }
    {
        let mut bytes = ArrayVec::new();
        bytes.push(unmarked(DLE));
        bytes.push(unmarked(SOH));
        bytes.push(unmarked(stn));
        let mut running = Running::new(check);
        running.step(stn);
        match check {
            Check::Bcc => {}
            Check::Crc => running.step(STX),
        }
        push_text(&mut bytes, body, check, running);
        HalfFramer { bytes, given: 0 }
    }

    /// Returns a master's poll of the station `stn`, which is neither 16 nor 255.
    pub fn poll(stn: u8) -> HalfFramer
        requires not_dle { stn ≢ 16 }
        requires not_all { stn ≢ 255 }
        ensures { result ≡ unmarked_of (poll_bytes stn) }
    {
        let mut bytes = ArrayVec::new();
        bytes.push(unmarked(DLE));
        bytes.push(unmarked(ENQ));
        bytes.push(unmarked(stn));
        bytes.push(unmarked(bcc(&[stn])));
        HalfFramer { bytes, given: 0 }
    }

    /// Returns a slave's message with a body of at most 250 bytes.
    pub fn reply(body: &[u8], check: Check) -> HalfFramer
        requires { length body.now ≤ 250 }
        ensures { result ≡ reply_sent check body.now }
    {
        let mut bytes = ArrayVec::new();
        push_text(&mut bytes, body, check, Running::new(check));
        HalfFramer { bytes, given: 0 }
    }

    /// Returns a DLE and this code by themselves, as DLE ACK.
    pub fn pair(c: u8) -> HalfFramer
        ensures { result ≡ unmarked_of (pair_bytes c) }
    {
        let mut bytes = ArrayVec::new();
        bytes.push(unmarked(DLE));
        bytes.push(unmarked(c));
        HalfFramer { bytes, given: 0 }
    }

    /// Returns the next byte: None exactly after the last.
    pub fn next_byte(&mut self) -> Option<u8>
        ensures given { result ≡ slice_get (bytes_of self.old) 0 }
        ensures left { self.new ≡ drop 1 self.old }
    {
        match self.next_sent() {
            Some(sent) => Some(sent.byte),
            None => None,
        }
    }

    /// Returns the next byte with its mark: None exactly after the last.
    pub fn next_sent(&mut self) -> Option<Sent>
        ensures given { result ≡ slice_get self.old 0 }
        ensures left { self.new ≡ drop 1 self.old }
    {
        let sent = *self.bytes.as_slice().get(self.given)?;
        self.given += 1;
        Some(sent)
    }

    /// Returns whether no byte is left. At most 509 bytes are left.
    pub fn done(&self) -> bool
        ensures done { IsTrue result ↔ (self.now ≡ []) }
        ensures most { length self.now ≤ 509 }
    {
        self.bytes.len() <= self.given
    }
}

/// Without their marks, the bytes that are sent are those of the message, the poll or the pair. The function does
/// nothing.
pub fn marks_change_no_byte(check: Check)
    ensures message { (stn : ℕ) (body : List ℕ) → bytes_of (message_sent check stn body) ≡ message_bytes check stn body }
    ensures reply { (body : List ℕ) → bytes_of (reply_sent check body) ≡ reply_bytes check body }
    ensures unmarked { (bytes : List ℕ) → bytes_of (unmarked_of bytes) ≡ bytes }
{}

/// Adds the text of a body of at most 250 bytes, whose check has taken what it covers before the body.
fn push_text(bytes: &mut ArrayVec<Sent, MAX_BYTES>, body: &[u8], check: Check, mut running: Running)
    requires room { length bytes.old.items ≤ 3 }
    requires fits { length body.now ≤ 250 }
    ensures { (head : List ℕ) → running ≡ taken check head → bytes.new.items ≡ bytes.old.items ++ text_sent body.now (check_of check (head ++ body.now)) }
{
    bytes.push(unmarked(DLE));
    bytes.push(unmarked(STX));
    for b in body {
        running.step(*b);
        push_piece(bytes, *b);
    }
    push_end(bytes, check_bytes(check, running).as_slice());
}

/// Adds a byte of the body, with a DLE doubled.
fn push_piece(bytes: &mut ArrayVec<Sent, MAX_BYTES>, b: u8)
    requires { length bytes.old.items + 2 ≤ 509 }
    ensures { bytes.new.items ≡ bytes.old.items ++ piece_sent (if b == 16 then Doubled else Plain b) }
{
    if b == DLE {
        bytes.push(unmarked(DLE));
        bytes.push(unmarked(DLE));
    } else {
        bytes.push(Sent {
            byte: b,
            of_body: true,
        });
    }
}

/// Adds DLE ETX and these check bytes.
fn push_end(bytes: &mut ArrayVec<Sent, MAX_BYTES>, check: &[u8])
    requires { length bytes.old.items + 2 + length check.now ≤ 509 }
    ensures { bytes.new.items ≡ bytes.old.items ++ unmarked_of (16 ∷ 3 ∷ check.now) }
{
    bytes.push(unmarked(DLE));
    bytes.push(unmarked(ETX));
    for b in check {
        bytes.push(unmarked(*b));
    }
}

fn unmarked(byte: u8) -> Sent
    ensures { result ≡ record { byte = byte; of_body = false } }
{
    Sent {
        byte,
        of_body: false,
    }
}
