//! A decoder of a full-duplex line: it takes bytes one by one, and returns what is decoded at each.

ghost use Rattle.std.specs.Prelude.{◌≡◌, ◌≤◌, ℕ, List, [], ◌∷◌, ◌++◌, length, take, Option, Some};
ghost use Rattle.df1_check.specs.declared.Check.{Check as CheckKind};
ghost use Rattle.df1_frame.specs.declared.heard.Heard.{Heard as Told};
ghost use Rattle.df1_frame.specs.Line.{ReadOff, answers, last_heard};
ghost use Rattle.df1_frame.specs.Grammar.{full_duplex};
ghost use Rattle.df1_frame.specs.Gathered.{verdict};
ghost use Rattle.df1_frame.specs.Standing.{Outside, AfterDle, Inside, InsideDle, AtCheck, decoding, held as held_of, held_at, lent, lent_at, is_inside, has_begun};
ghost use Rattle.df1_frame.specs.Step.{left_by, next, outside_next, step};
ghost use Rattle.df1_frame.specs.Runs.{run_len, steps};
ghost use Rattle.df1_frame.specs.View.{standing_of};

use crate::Heard;
use crate::gathered::Gathered;
use crate::heard::{response, stray_pair};
use crate::plain::plain_len;
use df1_base::{DLE, ETX, STX};
use df1_check::Check;
use std::marker::Model;

/// Where in an item the bytes so far end.
#[derive(Clone, Copy)]
enum DecoderPlace {
    /// Outside a frame.
    Outside,
    /// Directly after a frame whose body is lent.
    Ended,
    /// After a DLE outside a frame.
    AfterDle,
    /// Inside a frame.
    Inside,
    /// After a DLE inside a frame.
    InsideDle,
    /// After DLE ETX.
    AtCheck,
    /// After the first byte of a CRC.
    AtSecondCheck(u8),
}

/// A decoder, which takes a line's bytes one by one, and returns what is decoded at each. It has room for a body of N
/// bytes.
///
/// Each byte takes constant time, except that a frame's start blanks what was held of the body before.
#[derive(Drop)]
pub struct Decoder<const N: usize> {
    check: Check,
    place: DecoderPlace,
    gathered: Gathered<N>,
}

impl<const N: usize> Model for Decoder<N> {
    ghost use Rattle.df1_frame.specs.Standing.{Decoding};

    ghost Value = { Decoding };

    ghost use Rattle.df1_frame.specs.View.{standing_of};

    ghost view = { λ d. record { check = d.check; standing = standing_of d.place d.gathered } };
}

impl<const N: usize> Decoder<N> {
    /// Returns a decoder that has taken no byte, of a line with this check.
    pub fn new(check: Check) -> Self
        requires { N ≤ 4096 }
        ensures stands { ReadOff (full_duplex check N) [] (decoding check N) result }
        ensures value { result ≡ record { check = check; standing = Outside } }
    {
        Decoder {
            check,
            place: DecoderPlace::Outside,
            gathered: Gathered::new(check),
        }
    }

    /// Takes a byte, and returns what is decoded at it: None exactly if there is nothing. It is inlined, since a caller
    /// that looks at each byte would otherwise get each answer through memory.
    #[inline(always)]
    pub fn feed(&mut self, b: u8) -> Option<Heard>
        ensures stands { (check : CheckKind) (bytes : List ℕ) → ReadOff (full_duplex check N) bytes (decoding check N) self.old
            → ReadOff (full_duplex check N) (bytes ++ b ∷ []) (decoding check N) self.new }
        ensures heard { (check : CheckKind) (bytes : List ℕ) → ReadOff (full_duplex check N) bytes (decoding check N) self.old
            → ReadOff (full_duplex check N) (bytes ++ b ∷ []) (last_heard (full_duplex check N)) result }
        ensures answers { (check : CheckKind) (bytes : List ℕ) (so_far : List (Option Told)) → ReadOff (full_duplex check N) bytes (decoding check N) self.old
            → ReadOff (full_duplex check N) bytes (answers (full_duplex check N)) so_far
            → ReadOff (full_duplex check N) (bytes ++ b ∷ []) (answers (full_duplex check N)) (so_far ++ result ∷ []) }
        ensures value { self.new ≡ (next N self.old b).0 }
        ensures answer { result ≡ (next N self.old b).1 }
    {
        self.advance(b)
    }

    /// Takes the bytes before the first DLE if the decoder is in a frame's body or outside a frame, and none otherwise,
    /// and returns how many. In a body nothing is decoded at them; outside, each is decoded as Stray.
    pub fn feed_run(&mut self, bytes: &[u8]) -> usize
        ensures count { result ≡ run_len self.old.standing bytes.now }
        ensures stands { (check : CheckKind) (before : List ℕ) → ReadOff (full_duplex check N) before (decoding check N) self.old
            → ReadOff (full_duplex check N) (before ++ take result bytes.now) (decoding check N) self.new }
        ensures value { self.new ≡ (steps (next N) self.old (take result bytes.now)).0 }
    {
        match self.place {
            DecoderPlace::Inside => {
                let count = plain_len(bytes);
                self.gathered.gather_all(&bytes[..count]);
                count
            }
            DecoderPlace::Outside => plain_len(bytes),
            DecoderPlace::Ended => {
                let count = plain_len(bytes);
                if count > 0 {
                    self.place = DecoderPlace::Outside;
                }
                count
            }
            _ => 0,
        }
    }

    #[inline(always)]
    fn advance(&mut self, b: u8) -> Option<Heard>
        ensures value { self.new ≡ (next N self.old b).0 }
        ensures answer { result ≡ (next N self.old b).1 }
    {
        let (place, heard) = step(self.place, &mut self.gathered, self.check, b);
        self.place = place;
        heard
    }

    /// Returns the body of a Good, Short or BadCheck that was decoded at the last byte fed; otherwise empty.
    pub fn body(&self) -> &[u8]
        ensures lent { (check : CheckKind) (bytes : List ℕ) → ReadOff (full_duplex check N) bytes (decoding check N) self.now
            → ReadOff (full_duplex check N) bytes (lent check N) result.now }
        ensures value { result.now ≡ lent_at self.now.standing }
        ensures fits { length result.now ≤ N }
    {
        match self.place {
            DecoderPlace::Ended => self.gathered.bytes(),
            _ => &[],
        }
    }

    /// Returns how many bytes are held, at most N, of a body that is being read or that is lent.
    pub fn held(&self) -> usize
        ensures held { (check : CheckKind) (bytes : List ℕ) → ReadOff (full_duplex check N) bytes (decoding check N) self.now
            → ReadOff (full_duplex check N) bytes (held_of check N) result }
        ensures value { result ≡ held_at self.now.standing }
        ensures most { result ≤ N }
    {
        match self.place {
            DecoderPlace::Outside | DecoderPlace::AfterDle => 0,
            _ => self.gathered.bytes().len(),
        }
    }

    /// Returns whether a frame is started and not ended.
    pub fn inside(&self) -> bool
        ensures inside { (check : CheckKind) (bytes : List ℕ) → ReadOff (full_duplex check N) bytes (decoding check N) self.now
            → ReadOff (full_duplex check N) bytes has_begun result }
        ensures value { result ≡ is_inside self.now.standing }
    {
        self.is_inside()
    }

    fn is_inside(&self) -> bool
        ensures { result ≡ is_inside self.now.standing }
    {
        match self.place {
            DecoderPlace::Outside | DecoderPlace::Ended | DecoderPlace::AfterDle => false,
            DecoderPlace::Inside | DecoderPlace::InsideDle => true,
            DecoderPlace::AtCheck | DecoderPlace::AtSecondCheck(_) => true,
        }
    }
}

/// Returns what a byte leads to, and what is decoded at it.
#[inline(always)]
fn step<const N: usize>(
    place: DecoderPlace,
    gathered: &mut Gathered<N>,
    check: Check,
    b: u8,
) -> (DecoderPlace, Option<Heard>)
    ensures { (standing_of result.0 gathered.new, result.1) ≡ step check N (standing_of place gathered.old) b }
{
    match place {
        DecoderPlace::Outside | DecoderPlace::Ended => outside(gathered, b),
        DecoderPlace::AfterDle => pair_outside(gathered, check, b),
        DecoderPlace::Inside => inside(gathered, b),
        DecoderPlace::InsideDle => pair_inside(gathered, check, b),
        DecoderPlace::AtCheck => first_check(gathered, check, b),
        DecoderPlace::AtSecondCheck(first) => end(gathered, check, &[first, b]),
    }
}

fn outside<const N: usize>(gathered: &Gathered<N>, b: u8) -> (DecoderPlace, Option<Heard>)
    ensures { (standing_of result.0 gathered.now, result.1) ≡ outside_next b }
{
    if b == DLE {
        (DecoderPlace::AfterDle, None)
    } else {
        (DecoderPlace::Outside, Some(Heard::Stray(b)))
    }
}

fn pair_outside<const N: usize>(
    gathered: &mut Gathered<N>,
    check: Check,
    b: u8,
) -> (DecoderPlace, Option<Heard>)
    ensures { (standing_of result.0 gathered.new, result.1) ≡ step check N AfterDle b }
{
    if b == STX {
        gathered.clear(check);
        (DecoderPlace::Inside, None)
    } else {
        (DecoderPlace::Outside, Some(stray_pair(b)))
    }
}

fn inside<const N: usize>(gathered: &mut Gathered<N>, b: u8) -> (DecoderPlace, Option<Heard>)
    ensures { (check : CheckKind) → (standing_of result.0 gathered.new, result.1) ≡ step check N (Inside gathered.old) b }
{
    if b == DLE {
        (DecoderPlace::InsideDle, None)
    } else {
        gathered.gather(b);
        (DecoderPlace::Inside, None)
    }
}

fn pair_inside<const N: usize>(
    gathered: &mut Gathered<N>,
    check: Check,
    b: u8,
) -> (DecoderPlace, Option<Heard>)
    ensures { (standing_of result.0 gathered.new, result.1) ≡ step check N (InsideDle gathered.old) b }
{
    match b {
        STX => {
            gathered.clear(check);
            (DecoderPlace::Inside, Some(Heard::Restart))
        }
        ETX => {
            gathered.close(check);
            (DecoderPlace::AtCheck, None)
        }
        DLE => {
            gathered.gather(b);
            (DecoderPlace::Inside, None)
        }
        _ => match response(b) {
            Some(heard) => (DecoderPlace::Inside, Some(heard)),
            None => (DecoderPlace::Outside, Some(Heard::Broken(b))),
        },
    }
}

fn first_check<const N: usize>(
    gathered: &Gathered<N>,
    check: Check,
    b: u8,
) -> (DecoderPlace, Option<Heard>)
    ensures { (standing_of result.0 gathered.now, result.1) ≡ step check N (AtCheck gathered.now []) b }
{
    match check {
        Check::Bcc => end(gathered, check, &[b]),
        Check::Crc => (DecoderPlace::AtSecondCheck(b), None),
    }
}

/// Ends a frame after the last of its check bytes.
fn end<const N: usize>(
    gathered: &Gathered<N>,
    check: Check,
    bytes: &[u8],
) -> (DecoderPlace, Option<Heard>)
    ensures place { standing_of result.0 gathered.now ≡ left_by gathered.now }
    ensures heard { result.1 ≡ Some (verdict check gathered.now bytes.now) }
{
    let heard = Some(gathered.verdict(check, bytes));
    if gathered.is_long() {
        (DecoderPlace::Outside, heard)
    } else {
        (DecoderPlace::Ended, heard)
    }
}
