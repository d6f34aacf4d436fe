//! The full-duplex receiver: a decoder of the line joined with the duplicate filter, over any host.
//!
//! | Received | Act | Response |
//! |---|---|---|
//! | a good frame whose key is the kept key | repeat | ACK |
//! | another good frame, room | accept; the key is kept | ACK |
//! | another good frame, no room | refuse; the key isn't kept | NAK |
//! | a frame that is damaged: wrong check, too short, too long, broken off | damaged | NAK |
//! | a frame abandoned for a new one | forgot | none; the last response becomes NAK |
//! | ACK, NAK, ENQ | the peer's ACK, NAK, ENQ | at ENQ the last response again |
//! | a stray byte or pair, or nothing | nothing | none |
//!
//! The last response is NAK at first. The host is asked for room only if the key isn't the kept one (manual topic:
//! full-duplex protocol).
#![tactic(auto)]

ghost use Rattle.std.specs.Prelude.{◌≡◌, ◌≤◌, ◌∷◌, ◌++◌, [], ℕ, List, Some, None, true, length, IsTrue};
ghost use Rattle.df1_base.specs.Host.{IsBody};
ghost use Rattle.df1_check.specs.declared.Check.{Check as CheckKind};
ghost use Rattle.df1_frame.specs.Line.{ReadOff};
ghost use Rattle.df1_frame.specs.Grammar.{full_duplex};
ghost use Rattle.df1_frame.specs.Standing.{Outside, lent, lent_at};
ghost use Rattle.pccc_envelope.specs.Accepted.{judged};
ghost use Rattle.duplex_receiver.specs.Receiver.{Hearing, verdict_act, act_of, kept_at, is_good, is_whole, body_at, hearing, act_at, after_byte};
ghost use Rattle.duplex_receiver.specs.Hearing.{Stands, act_after};

mod laws;

use df1_base::{Act, Host};
use df1_check::Check;
use df1_frame::{Decoder, Heard};
pub use laws::{
    accepted_keys_change, accepts_one_by_one, hears_what_the_grammar_answers, last_response_goes_on,
};
use pccc_envelope::duplicate_filter::Filter;
use pccc_envelope::key_of;
use std::marker::Model;

/// The receiver of one end of a full-duplex link. It has room for a body of N bytes.
#[derive(Drop)]
pub struct Receiver<const N: usize> {
    decoder: Decoder<N>,
    filter: Filter,
}

impl<const N: usize> Model for Receiver<N> {
    ghost use Rattle.std.specs.Prelude.{◌≤◌};
    ghost use Rattle.duplex_receiver.specs.Receiver.{ReceiverState};

    ghost Value = { ReceiverState };

    ghost view = { λ r. record { decoding = r.decoder; kept = r.filter } };

    ghost invariant = { λ r. N ≤ 250 };
}

impl<const N: usize> Receiver<N> {
    /// Returns a receiver that has received nothing and keeps no key, of a line with this check.
    pub fn new(check: Check) -> Self
        requires { N ≤ 250 }
        ensures value { result ≡ record { decoding = record { check = check; standing = Outside }; kept = None } }
        ensures stands { Stands check N [] [] result }
    {
        Receiver {
            decoder: Decoder::new(check),
            filter: Filter::new(),
        }
    }

    /// Takes a byte, and returns what the receiver makes of it, in constant time. At Accept the host has room for the
    /// body, which is lent until the next byte; the end has to hand it over and to answer as the table says. It is
    /// inlined, since at most bytes there is nothing to do.
    #[inline(always)]
    pub fn on_byte<H: Host>(&mut self, b: u8, host: &H) -> Act
        ensures state { self.new ≡ after_byte (H.room_for host.now) N self.old b }
        ensures act { result ≡ act_at (H.room_for host.now) N self.old b }
        ensures accept_body { result ≡ Act.Accept → IsBody (body_at self.new) }
        ensures accept_room { result ≡ Act.Accept → IsTrue (H.room_for host.now (body_at self.new)) }
        ensures whole { is_whole result ≡ is_good (hearing (H.room_for host.now) N self.old b).heard }
        ensures stands { (check : CheckKind) (bytes : List ℕ) (before : List Hearing) → Stands check N bytes before self.old
            → Stands check N (bytes ++ b ∷ []) (before ++ hearing (H.room_for host.now) N self.old b ∷ []) self.new }
        ensures table { (check : CheckKind) (bytes : List ℕ) (before : List Hearing) → Stands check N bytes before self.old
            → result ≡ act_after before (hearing (H.room_for host.now) N self.old b) }
    {
        let heard = self.decoder.feed(b);
        act_on(&mut self.filter, heard, self.decoder.body(), host)
    }

    /// Returns the body of the frame that ended at the last byte, at most N bytes, whether it is good, too short or
    /// with a wrong check; otherwise empty.
    pub fn body(&self) -> &[u8]
        ensures body { result.now ≡ body_at self.now }
        ensures fits { length result.now ≤ N }
        ensures lent { (check : CheckKind) (bytes : List ℕ) (before : List Hearing) → Stands check N bytes before self.now
            → ReadOff (full_duplex check N) bytes (lent check N) result.now }
    {
        self.decoder.body()
    }
}

/// Returns what is made of a decoded item, with the body that is lent there.
#[inline(always)]
fn act_on<H: Host>(filter: &mut Filter, heard: Option<Heard>, body: &[u8], host: &H) -> Act
    requires { heard ≡ Some Heard.Good → IsBody body.now }
    ensures act { result ≡ act_of filter.old (record { heard = heard; body = body.now; has_room = H.room_for host.now body.now }) }
    ensures kept { filter.new ≡ kept_at filter.old body.now result }
    ensures accept_body { result ≡ Act.Accept → IsBody body.now }
    ensures accept_room { result ≡ Act.Accept → IsTrue (H.room_for host.now body.now) }
    ensures whole { is_whole result ≡ is_good heard }
{
    match heard {
        Some(Heard::Good) => judge(filter, body, host),
        Some(Heard::BadCheck | Heard::Short | Heard::Long | Heard::Broken(_)) => Act::Damaged,
        Some(Heard::Restart) => Act::Forgot,
        Some(Heard::Ack) => Act::PeerAck,
        Some(Heard::Nak) => Act::PeerNak,
        Some(Heard::Enq) => Act::PeerEnq,
        Some(Heard::Stray(_) | Heard::StrayPair(_)) | None => Act::Nothing,
    }
}

/// Judges a message: one with the kept key is a repeat; another is accepted, and its key kept, if there is room, and
/// refused otherwise. It isn't inlined, since few bytes end a message.
#[inline(never)]
fn judge<H: Host>(filter: &mut Filter, body: &[u8], host: &H) -> Act
    requires { IsBody body.now }
    ensures act { result ≡ verdict_act (judged filter.old (record { body = body.now; has_room = H.room_for host.now body.now })) }
    ensures kept { filter.new ≡ kept_at filter.old body.now result }
    ensures accept_room { result ≡ Act.Accept → IsTrue (H.room_for host.now body.now) }
    ensures whole { is_whole result ≡ true }
{
    let key = key_of(body);
    if filter.is_repeat(key) {
        Act::Repeat
    } else if host.has_room(body) {
        filter.keep(key);
        Act::Accept
    } else {
        Act::Refuse
    }
}
