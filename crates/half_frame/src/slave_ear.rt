//! A slave's receiver: it takes the master's bytes one by one, and returns what the slave decodes at each.

ghost use Rattle.std.specs.Prelude.{◌≡◌, ◌≤◌, ℕ, List, [], ◌∷◌, ◌++◌, length, take, false, Option};
ghost use Rattle.df1_check.specs.declared.Check.{Check as CheckKind};
ghost use Rattle.df1_check.specs.Checks.{taken};
ghost use Rattle.df1_frame.specs.Line.{ReadOff, answers, last_heard};
ghost use Rattle.df1_frame.specs.Gathered.{Gathered as SoFar};
ghost use Rattle.half_frame.specs.declared.heard.SlaveHeard.{SlaveHeard as Told};
ghost use Rattle.half_frame.specs.Spelling.{station_head};
ghost use Rattle.half_frame.specs.SlaveGrammar.{slave_hears};
ghost use Rattle.half_frame.specs.SlaveStanding.{Outside, listening, held as held_of, held_at, lent, lent_at, is_inside, has_begun};
ghost use Rattle.half_frame.specs.SlaveStep.{begun_by, header_next, next, outside_next, pair_next, station_next, step, text_next};
ghost use Rattle.df1_frame.specs.Runs.{steps};
ghost use Rattle.half_frame.specs.Runs.{slave_run_len};
ghost use Rattle.half_frame.specs.TextStep.{text_step};
ghost use Rattle.half_frame.specs.TextView.{within_of};
ghost use Rattle.half_frame.specs.SlaveView.{standing_of};

use crate::heard::{poll, slave_pair};
use crate::text::{Progress, TextPlace};
use crate::{SOH, SlaveHeard, text};
use df1_base::{DLE, ENQ, STX};
use df1_check::Check;
use df1_frame::{Gathered, plain_len};
use std::marker::Model;

/// Where in an item the bytes so far end.
#[derive(Clone, Copy)]
enum SlavePlace {
    /// Outside.
    Outside,
    /// Directly after a message whose body is lent.
    Ended,
    /// After a DLE outside.
    AfterDle,
    /// After DLE SOH.
    AfterSoh,
    /// After DLE ENQ.
    AfterEnq,
    /// After a poll's station.
    AtPollCheck(u8),
    /// After a message's station.
    AfterStation(u8),
    /// After a message's station and a DLE.
    AfterStationDle(u8),
    /// In the text of a message to this station.
    InText(u8, TextPlace),
}

/// A slave's receiver, which takes the master's bytes one by one, and returns what is decoded at each. It has room for
/// a body of N bytes.
///
/// Each byte takes constant time, except that a text's start blanks what was held of the body before.
#[derive(Drop)]
pub struct SlaveEar<const N: usize> {
    check: Check,
    place: SlavePlace,
    gathered: Gathered<N>,
}

impl<const N: usize> Model for SlaveEar<N> {
    ghost use Rattle.half_frame.specs.SlaveStanding.{Listening};

    ghost Value = { Listening };

    ghost use Rattle.half_frame.specs.SlaveView.{standing_of};

    ghost view = { λ e. record { check = e.check; standing = standing_of e.place e.gathered } };
}

impl<const N: usize> SlaveEar<N> {
    /// Returns a receiver that has taken no byte, of a line with this check. N is at most 4,096.
    pub fn new(check: Check) -> Self
        requires { N ≤ 4096 }
        ensures stands { ReadOff (slave_hears check N) [] (listening check N) result }
        ensures value { result ≡ record { check = check; standing = Outside } }
    {
        SlaveEar {
            check,
            place: SlavePlace::Outside,
            gathered: Gathered::new(check),
        }
    }

    /// Takes a byte, and returns what is decoded at it: None exactly if there is nothing. It is inlined, since a caller
    /// that looks at each byte would otherwise get each answer through memory.
    #[inline(always)]
    pub fn feed(&mut self, b: u8) -> Option<SlaveHeard>
        ensures stands { (check : CheckKind) (bytes : List ℕ) → ReadOff (slave_hears check N) bytes (listening check N) self.old
            → ReadOff (slave_hears check N) (bytes ++ b ∷ []) (listening check N) self.new }
        ensures heard { (check : CheckKind) (bytes : List ℕ) → ReadOff (slave_hears check N) bytes (listening check N) self.old
            → ReadOff (slave_hears check N) (bytes ++ b ∷ []) (last_heard (slave_hears check N)) result }
        ensures answers { (check : CheckKind) (bytes : List ℕ) (so_far : List (Option Told)) → ReadOff (slave_hears check N) bytes (listening check N) self.old
            → ReadOff (slave_hears check N) bytes (answers (slave_hears check N)) so_far
            → ReadOff (slave_hears check N) (bytes ++ b ∷ []) (answers (slave_hears check N)) (so_far ++ result ∷ []) }
        ensures value { self.new ≡ (next N self.old b).0 }
        ensures answer { result ≡ (next N self.old b).1 }
    {
        self.advance(b)
    }

    /// Takes the bytes before the first DLE if the receiver is in a body or outside, and none otherwise, and returns
    /// how many. In a body nothing is decoded at them; outside, each is decoded as Stray.
    pub fn feed_run(&mut self, bytes: &[u8]) -> usize
        ensures count { result ≡ slave_run_len self.old.standing bytes.now }
        ensures stands { (check : CheckKind) (before : List ℕ) → ReadOff (slave_hears check N) before (listening check N) self.old
            → ReadOff (slave_hears check N) (before ++ take result bytes.now) (listening check N) self.new }
        ensures value { self.new ≡ (steps (next N) self.old (take result bytes.now)).0 }
    {
        match self.place {
            SlavePlace::InText(_, TextPlace::Inside) => {
                let count = plain_len(bytes);
                self.gathered.gather_all(&bytes[..count]);
                count
            }
            SlavePlace::Outside => plain_len(bytes),
            SlavePlace::Ended => {
                let count = plain_len(bytes);
                if count > 0 {
                    self.place = SlavePlace::Outside;
                }
                count
            }
            _ => 0,
        }
    }

    #[inline(always)]
    fn advance(&mut self, b: u8) -> Option<SlaveHeard>
        ensures value { self.new ≡ (next N self.old b).0 }
        ensures answer { result ≡ (next N self.old b).1 }
    {
        let (place, heard) = step(self.place, &mut self.gathered, self.check, b);
        self.place = place;
        heard
    }

    /// Returns the body of an Addressed that was decoded at the last byte fed; otherwise empty.
    pub fn body(&self) -> &[u8]
        ensures lent { (check : CheckKind) (bytes : List ℕ) → ReadOff (slave_hears check N) bytes (listening check N) self.now
            → ReadOff (slave_hears check N) bytes (lent check N) result.now }
        ensures value { result.now ≡ lent_at self.now.standing }
        ensures fits { length result.now ≤ N }
    {
        match self.place {
            SlavePlace::Ended => self.gathered.bytes(),
            _ => &[],
        }
    }

    /// Returns how many bytes are held, at most N, of a body that is being read or that is lent.
    pub fn held(&self) -> usize
        ensures held { (check : CheckKind) (bytes : List ℕ) → ReadOff (slave_hears check N) bytes (listening check N) self.now
            → ReadOff (slave_hears check N) bytes (held_of check N) result }
        ensures value { result ≡ held_at self.now.standing }
        ensures most { result ≤ N }
    {
        match self.place {
            SlavePlace::Ended | SlavePlace::InText(..) => self.gathered.bytes().len(),
            _ => 0,
        }
    }

    /// Returns whether a message or a poll is started, by its first pair, and not ended.
    pub fn inside(&self) -> bool
        ensures inside { (check : CheckKind) (bytes : List ℕ) → ReadOff (slave_hears check N) bytes (listening check N) self.now
            → ReadOff (slave_hears check N) bytes has_begun result }
        ensures value { result ≡ is_inside self.now.standing }
    {
        self.is_inside()
    }

    fn is_inside(&self) -> bool
        ensures { result ≡ is_inside self.now.standing }
    {
        match self.place {
            SlavePlace::Outside | SlavePlace::Ended | SlavePlace::AfterDle => false,
            _ => true,
        }
    }
}

/// Returns what a byte leads to, and what is decoded at it.
#[inline(always)]
fn step<const N: usize>(
    place: SlavePlace,
    gathered: &mut Gathered<N>,
    check: Check,
    b: u8,
) -> (SlavePlace, Option<SlaveHeard>)
    ensures { (standing_of result.0 gathered.new, result.1) ≡ step check N (standing_of place gathered.old) b }
{
    match place {
        SlavePlace::Outside | SlavePlace::Ended => outside(gathered, b),
        SlavePlace::AfterDle => pair_outside(gathered, b),
        SlavePlace::AfterSoh => (SlavePlace::AfterStation(b), None),
        SlavePlace::AfterEnq => (SlavePlace::AtPollCheck(b), None),
        SlavePlace::AtPollCheck(stn) => (SlavePlace::Outside, Some(poll(stn, b))),
        SlavePlace::AfterStation(stn) => after_station(gathered, stn, b),
        SlavePlace::AfterStationDle(stn) => header(gathered, check, stn, b),
        SlavePlace::InText(stn, at) => in_text(gathered, check, stn, at, b),
    }
}

fn outside<const N: usize>(gathered: &Gathered<N>, b: u8) -> (SlavePlace, Option<SlaveHeard>)
    ensures { (standing_of result.0 gathered.now, result.1) ≡ outside_next b }
{
    if b == DLE {
        (SlavePlace::AfterDle, None)
    } else {
        (SlavePlace::Outside, Some(SlaveHeard::Stray(b)))
    }
}

fn pair_outside<const N: usize>(
    gathered: &Gathered<N>,
    code: u8,
) -> (SlavePlace, Option<SlaveHeard>)
    ensures { (standing_of result.0 gathered.now, result.1) ≡ pair_next code }
{
    match code {
        SOH => (SlavePlace::AfterSoh, None),
        ENQ => (SlavePlace::AfterEnq, None),
        _ => (SlavePlace::Outside, Some(slave_pair(code))),
    }
}

fn after_station<const N: usize>(
    gathered: &Gathered<N>,
    stn: u8,
    b: u8,
) -> (SlavePlace, Option<SlaveHeard>)
    ensures { (standing_of result.0 gathered.now, result.1) ≡ station_next stn b }
{
    if b == DLE {
        (SlavePlace::AfterStationDle(stn), None)
    } else {
        (SlavePlace::Outside, Some(SlaveHeard::Damaged(stn)))
    }
}

fn header<const N: usize>(
    gathered: &mut Gathered<N>,
    check: Check,
    stn: u8,
    code: u8,
) -> (SlavePlace, Option<SlaveHeard>)
    ensures { (standing_of result.0 gathered.new, result.1) ≡ header_next check stn code }
{
    if code == STX {
        cover_station(gathered, check, stn);
        (
            SlavePlace::InText(stn, TextPlace::Inside),
            Some(SlaveHeard::Header(stn)),
        )
    } else {
        (begun_by(gathered, code), Some(SlaveHeard::Damaged(stn)))
    }
}

/// Starts to gather a body, after what its check covers before it: the station, and the CRC covers STX too.
fn cover_station<const N: usize>(gathered: &mut Gathered<N>, check: Check, stn: u8)
    ensures { gathered.new ≡ record { bytes = []; long = false; running = taken check (station_head check stn) } }
{
    gathered.clear(check);
    gathered.cover(stn);
    match check {
        Check::Bcc => {}
        Check::Crc => gathered.cover(STX),
    }
}

fn in_text<const N: usize>(
    gathered: &mut Gathered<N>,
    check: Check,
    stn: u8,
    at: TextPlace,
    b: u8,
) -> (SlavePlace, Option<SlaveHeard>)
    ensures { (standing_of result.0 gathered.new, result.1) ≡ text_next stn (text_step check N (within_of at gathered.old) b) }
{
    match text::step(at, gathered, check, b) {
        Progress::Goes(to) => (SlavePlace::InText(stn, to), None),
        Progress::Ends(true) => (SlavePlace::Ended, Some(SlaveHeard::Addressed(stn))),
        Progress::Ends(false) => (SlavePlace::Outside, Some(SlaveHeard::Damaged(stn))),
        Progress::Breaks(code) => (begun_by(gathered, code), Some(SlaveHeard::Damaged(stn))),
    }
}

/// Returns the place after a pair that ended what was there.
fn begun_by<const N: usize>(gathered: &Gathered<N>, code: u8) -> SlavePlace
    ensures { standing_of result gathered.now ≡ begun_by code }
{
    match code {
        SOH => SlavePlace::AfterSoh,
        ENQ => SlavePlace::AfterEnq,
        _ => SlavePlace::Outside,
    }
}
