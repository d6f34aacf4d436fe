//! The master's receiver: it takes the slaves' bytes one by one, and returns what the master decodes at each.

ghost use Rattle.std.specs.Prelude.{◌≡◌, ◌≤◌, ℕ, List, [], ◌∷◌, ◌++◌, length, take, Option};
ghost use Rattle.df1_check.specs.declared.Check.{Check as CheckKind};
ghost use Rattle.df1_frame.specs.Line.{ReadOff, answers, last_heard};
ghost use Rattle.half_frame.specs.declared.heard.MasterHeard.{MasterHeard as Told};
ghost use Rattle.half_frame.specs.MasterGrammar.{master_hears};
ghost use Rattle.half_frame.specs.MasterStanding.{Outside, listening, held as held_of, held_at, lent, lent_at, is_inside, has_begun};
ghost use Rattle.half_frame.specs.MasterStep.{begun_by, next, outside_next, pair_next, step, text_next};
ghost use Rattle.df1_frame.specs.Runs.{steps};
ghost use Rattle.half_frame.specs.Runs.{master_run_len};
ghost use Rattle.half_frame.specs.TextStep.{text_step};
ghost use Rattle.half_frame.specs.TextView.{within_of};
ghost use Rattle.half_frame.specs.MasterView.{standing_of};

use crate::heard::master_pair;
use crate::text::{Progress, TextPlace};
use crate::{MasterHeard, text};
use df1_base::{DLE, STX};
use df1_check::Check;
use df1_frame::{Gathered, plain_len};
use std::marker::Model;

/// Where in an item the bytes so far end.
#[derive(Clone, Copy)]
enum MasterPlace {
    /// Outside.
    Outside,
    /// Directly after a message whose body is lent.
    Ended,
    /// After a DLE outside.
    AfterDle,
    /// In a message's text.
    InText(TextPlace),
}

/// The master's receiver, which takes the slaves' bytes one by one, and returns what is decoded at each. It has room
/// for a body of N bytes.
///
/// Each byte takes constant time, except that a text's start blanks what was held of the body before.
#[derive(Drop)]
pub struct MasterEar<const N: usize> {
    check: Check,
    place: MasterPlace,
    gathered: Gathered<N>,
}

impl<const N: usize> Model for MasterEar<N> {
    ghost use Rattle.half_frame.specs.MasterStanding.{Listening};

    ghost Value = { Listening };

    ghost use Rattle.half_frame.specs.MasterView.{standing_of};

    ghost view = { λ e. record { check = e.check; standing = standing_of e.place e.gathered } };
}

impl<const N: usize> MasterEar<N> {
    /// Returns a receiver that has taken no byte, of a line with this check. N is at most 4,096.
    pub fn new(check: Check) -> Self
        requires { N ≤ 4096 }
        ensures stands { ReadOff (master_hears check N) [] (listening check N) result }
        ensures value { result ≡ record { check = check; standing = Outside } }
    {
        MasterEar {
            check,
            place: MasterPlace::Outside,
            gathered: Gathered::new(check),
        }
    }

    /// Takes a byte, and returns what is decoded at it: None exactly if there is nothing. It is inlined, since a caller
    /// that looks at each byte would otherwise get each answer through memory.
    #[inline(always)]
    pub fn feed(&mut self, b: u8) -> Option<MasterHeard>
        ensures stands { (check : CheckKind) (bytes : List ℕ) → ReadOff (master_hears check N) bytes (listening check N) self.old
            → ReadOff (master_hears check N) (bytes ++ b ∷ []) (listening check N) self.new }
        ensures heard { (check : CheckKind) (bytes : List ℕ) → ReadOff (master_hears check N) bytes (listening check N) self.old
            → ReadOff (master_hears check N) (bytes ++ b ∷ []) (last_heard (master_hears check N)) result }
        ensures answers { (check : CheckKind) (bytes : List ℕ) (so_far : List (Option Told)) → ReadOff (master_hears check N) bytes (listening check N) self.old
            → ReadOff (master_hears check N) bytes (answers (master_hears check N)) so_far
            → ReadOff (master_hears check N) (bytes ++ b ∷ []) (answers (master_hears check N)) (so_far ++ result ∷ []) }
        ensures value { self.new ≡ (next N self.old b).0 }
        ensures answer { result ≡ (next N self.old b).1 }
    {
        self.advance(b)
    }

    /// Takes the bytes before the first DLE if the receiver is in a body or outside, and none otherwise, and returns
    /// how many. In a body nothing is decoded at them; outside, each is decoded as Stray.
    pub fn feed_run(&mut self, bytes: &[u8]) -> usize
        ensures count { result ≡ master_run_len self.old.standing bytes.now }
        ensures stands { (check : CheckKind) (before : List ℕ) → ReadOff (master_hears check N) before (listening check N) self.old
            → ReadOff (master_hears check N) (before ++ take result bytes.now) (listening check N) self.new }
        ensures value { self.new ≡ (steps (next N) self.old (take result bytes.now)).0 }
    {
        match self.place {
            MasterPlace::InText(TextPlace::Inside) => {
                let count = plain_len(bytes);
                self.gathered.gather_all(&bytes[..count]);
                count
            }
            MasterPlace::Outside => plain_len(bytes),
            MasterPlace::Ended => {
                let count = plain_len(bytes);
                if count > 0 {
                    self.place = MasterPlace::Outside;
                }
                count
            }
            _ => 0,
        }
    }

    #[inline(always)]
    fn advance(&mut self, b: u8) -> Option<MasterHeard>
        ensures value { self.new ≡ (next N self.old b).0 }
        ensures answer { result ≡ (next N self.old b).1 }
    {
        let (place, heard) = step(self.place, &mut self.gathered, self.check, b);
        self.place = place;
        heard
    }

    /// Returns the body of a Good that was decoded at the last byte fed; otherwise empty.
    pub fn body(&self) -> &[u8]
        ensures lent { (check : CheckKind) (bytes : List ℕ) → ReadOff (master_hears check N) bytes (listening check N) self.now
            → ReadOff (master_hears check N) bytes (lent check N) result.now }
        ensures value { result.now ≡ lent_at self.now.standing }
        ensures fits { length result.now ≤ N }
    {
        match self.place {
            MasterPlace::Ended => self.gathered.bytes(),
            _ => &[],
        }
    }

    /// Returns how many bytes are held, at most N, of a body that is being read or that is lent.
    pub fn held(&self) -> usize
        ensures held { (check : CheckKind) (bytes : List ℕ) → ReadOff (master_hears check N) bytes (listening check N) self.now
            → ReadOff (master_hears check N) bytes (held_of check N) result }
        ensures value { result ≡ held_at self.now.standing }
        ensures most { result ≤ N }
    {
        match self.place {
            MasterPlace::Ended | MasterPlace::InText(_) => self.gathered.bytes().len(),
            _ => 0,
        }
    }

    /// Returns whether a message is started, by its first pair, and not ended.
    pub fn inside(&self) -> bool
        ensures inside { (check : CheckKind) (bytes : List ℕ) → ReadOff (master_hears check N) bytes (listening check N) self.now
            → ReadOff (master_hears check N) bytes has_begun result }
        ensures value { result ≡ is_inside self.now.standing }
    {
        self.is_inside()
    }

    fn is_inside(&self) -> bool
        ensures { result ≡ is_inside self.now.standing }
    {
        match self.place {
            MasterPlace::Outside | MasterPlace::Ended | MasterPlace::AfterDle => false,
            MasterPlace::InText(_) => true,
        }
    }
}

/// Returns what a byte leads to, and what is decoded at it.
#[inline(always)]
fn step<const N: usize>(
    place: MasterPlace,
    gathered: &mut Gathered<N>,
    check: Check,
    b: u8,
) -> (MasterPlace, Option<MasterHeard>)
    ensures { (standing_of result.0 gathered.new, result.1) ≡ step check N (standing_of place gathered.old) b }
{
    match place {
        MasterPlace::Outside | MasterPlace::Ended => outside(gathered, b),
        MasterPlace::AfterDle => pair_outside(gathered, check, b),
        MasterPlace::InText(at) => in_text(gathered, check, at, b),
    }
}

fn outside<const N: usize>(gathered: &Gathered<N>, b: u8) -> (MasterPlace, Option<MasterHeard>)
    ensures { (standing_of result.0 gathered.now, result.1) ≡ outside_next b }
{
    if b == DLE {
        (MasterPlace::AfterDle, None)
    } else {
        (MasterPlace::Outside, Some(MasterHeard::Stray(b)))
    }
}

fn pair_outside<const N: usize>(
    gathered: &mut Gathered<N>,
    check: Check,
    code: u8,
) -> (MasterPlace, Option<MasterHeard>)
    ensures { (standing_of result.0 gathered.new, result.1) ≡ pair_next check code }
{
    if code == STX {
        gathered.clear(check);
        (MasterPlace::InText(TextPlace::Inside), None)
    } else {
        (MasterPlace::Outside, Some(master_pair(code)))
    }
}

fn in_text<const N: usize>(
    gathered: &mut Gathered<N>,
    check: Check,
    at: TextPlace,
    b: u8,
) -> (MasterPlace, Option<MasterHeard>)
    ensures { (standing_of result.0 gathered.new, result.1) ≡ text_next check (text_step check N (within_of at gathered.old) b) }
{
    match text::step(at, gathered, check, b) {
        Progress::Goes(to) => (MasterPlace::InText(to), None),
        Progress::Ends(true) => (MasterPlace::Ended, Some(MasterHeard::Good)),
        Progress::Ends(false) => (MasterPlace::Outside, Some(MasterHeard::Damaged)),
        Progress::Breaks(code) => (begun_by(gathered, check, code), Some(MasterHeard::Damaged)),
    }
}

/// Returns the place after a pair that ended what was there.
fn begun_by<const N: usize>(gathered: &mut Gathered<N>, check: Check, code: u8) -> MasterPlace
    ensures { standing_of result gathered.new ≡ begun_by check code }
{
    if code == STX {
        gathered.clear(check);
        MasterPlace::InText(TextPlace::Inside)
    } else {
        MasterPlace::Outside
    }
}
