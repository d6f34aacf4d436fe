//! The reader of a capture: it takes bytes one by one, reporting what ends at each, or many at a time, and counts.
ghost use Rattle.std.specs.Prelude.{◌≡◌, ◌≤◌, ◌<◌, ◌-◌, ℕ, List, [], ◌+◌, ◌++◌, ◌∷◌, length, take};
ghost use Rattle.df1_check.specs.declared.Check.{Check as CheckKind};
ghost use Rattle.df1_frame.specs.Line.{ReadOff};
ghost use Rattle.half_frame.specs.declared.side.Side.{Side as Captured};
ghost use Rattle.df1_dissect.specs.Hearing.{lent_by};
ghost use Rattle.df1_dissect.specs.Telling.{Told};
ghost use Rattle.df1_dissect.specs.Reading.{StandsFor, Tells, bad_among, grammar_of, unfinished};
ghost use Rattle.df1_dissect.specs.Step.{bad_with, heard_with, next, start_after, telling_at, thing_of};
ghost use Rattle.df1_dissect.specs.Runs.{after};
ghost use Rattle.df1_dissect.specs.Dissection.{lines_in, stray_lines};

use crate::ear::{Ear, Turn};
use crate::kind::Kind;
use df1_base::{DLE, MAX_BODY};
use df1_check::Check;
use half_frame::Side;
use std::marker::Model;

/// A thing that has a line. Offsets count the bytes of the capture from 0.
#[derive(Clone, Copy, Debug, PartialEq, Eq)]
pub struct Thing {
    /// The offset of its first byte.
    pub first: u64,
    /// The offset of its last byte. That of a message which is cut off is the second byte of the pair that starts the
    /// next.
    pub last: u64,
    /// What it is.
    pub kind: Kind,
}

/// A reader of the bytes of a capture, in their order and at most 268,435,456. It takes them one by one, reporting what
/// ends at each, or many at a time, and counts what has a line. Each byte takes constant time, except that the start of
/// a message clears what was held of the previous body.
#[derive(Drop)]
pub struct Reader {
    ear: Ear,
    start: u64,
    fed: u64,
    heard: u64,
    bad: u64,
}

impl Model for Reader {
    ghost use Rattle.std.specs.Prelude.{◌≤◌};
    ghost use Rattle.df1_dissect.specs.Reading.{Reading};

    ghost Value = { Reading };

    ghost view = { λ r. record { ear = r.ear; start = r.start; fed = r.fed; heard = r.heard; bad = r.bad } };

    ghost invariant = { λ r. (r.start ≤ r.fed) × (r.heard ≤ r.fed) × (r.bad ≤ r.fed) };
}

impl Reader {
    /// Creates a reader of this side, for a line with this check, that has taken no byte.
    pub fn new(side: Side, check: Check) -> Reader
        ensures stands { StandsFor side check [] result }
        ensures fed { result.fed ≡ 0 }
    {
        Reader {
            ear: Ear::new(side, check),
            start: 0,
            fed: 0,
            heard: 0,
            bad: 0,
        }
    }

    /// Takes a byte, after fewer than 268,435,456, and returns what has a line and ends at it: None exactly if nothing
    /// does. It is inlined, with what it calls for each byte, since otherwise each result would pass through memory.
    #[inline(always)]
    pub fn hear(&mut self, b: u8) -> Option<Thing>
        requires { self.old.fed < 268435456 }
        ensures stands { (side : Captured) (check : CheckKind) (bytes : List ℕ) → StandsFor side check bytes self.old
            → StandsFor side check (bytes ++ b ∷ []) self.new }
        ensures told { (side : Captured) (check : CheckKind) (bytes : List ℕ) (so_far : List Told) → StandsFor side check bytes self.old
            → Tells side check bytes so_far → Tells side check (bytes ++ b ∷ []) (so_far ++ telling_at result (lent_by self.new.ear)) }
        ensures value { self.new ≡ (next self.old b).0 }
        ensures answer { result ≡ (next self.old b).1 }
    {
        let at = self.fed;
        let turn = self.ear.hear(b);
        let thing = thing_of(turn, self.start, at);
        self.start = start_after(turn, self.start, at);
        self.fed = at + 1;
        self.heard = heard_with(self.heard, thing);
        self.bad = bad_with(self.bad, thing);
        thing
    }

    /// Takes bytes in their order, all of them among the first 268,435,456.
    pub fn hear_all(&mut self, bytes: &[u8])
        requires { self.old.fed + length bytes.now ≤ 268435456 }
        ensures stands { (side : Captured) (check : CheckKind) (before : List ℕ) → StandsFor side check before self.old
            → StandsFor side check (before ++ bytes.now) self.new }
        ensures value { self.new ≡ after self.old bytes.now }
        ensures fed { self.new.fed ≡ self.old.fed + length bytes.now }
    {
        let mut at = 0;
        while at < bytes.len() {
            at += self.hear_some(&bytes[at..]);
        }
    }

    /// Takes a run, or a DLE and the byte after it, or the first byte, and returns how many bytes it took. There is at
    /// least one byte.
    fn hear_some(&mut self, bytes: &[u8]) -> usize
        requires some { 0 < length bytes.now }
        requires few { self.old.fed + length bytes.now ≤ 268435456 }
        ensures some { 0 < result }
        ensures most { result ≤ length bytes.now }
        ensures value { self.new ≡ after self.old (take result bytes.now) }
    {
        if bytes[0] == DLE {
            return self.hear_pair(bytes);
        }
        let count = self.hear_run(bytes);
        if count > 0 {
            return count;
        }
        self.hear(bytes[0]);
        1
    }

    /// Takes the first byte, and the second one if there is one, and returns how many it took. There is at least one
    /// byte. No run begins with a DLE or directly after one, so none is looked for there.
    #[inline(always)]
    fn hear_pair(&mut self, bytes: &[u8]) -> usize
        requires some { 0 < length bytes.now }
        requires few { self.old.fed + length bytes.now ≤ 268435456 }
        ensures some { 0 < result }
        ensures most { result ≤ length bytes.now }
        ensures value { self.new ≡ after self.old (take result bytes.now) }
    {
        self.hear(bytes[0]);
        if bytes.len() == 1 {
            return 1;
        }
        self.hear(bytes[1]);
        2
    }

    /// Takes the bytes before the first DLE, in a body or outside, and none elsewhere, and returns how many.
    #[inline(always)]
    fn hear_run(&mut self, bytes: &[u8]) -> usize
        requires { self.old.fed + length bytes.now ≤ 268435456 }
        ensures most { result ≤ length bytes.now }
        ensures value { self.new ≡ after self.old (take result bytes.now) }
    {
        if self.ear.inside() {
            self.hear_body(bytes)
        } else {
            self.hear_strays(bytes)
        }
    }

    /// Takes the bytes before the first DLE in a body, and none elsewhere, and returns how many. Nothing is reported at
    /// them.
    #[inline(always)]
    pub(crate) fn hear_body(&mut self, bytes: &[u8]) -> usize
        requires { self.old.fed + length bytes.now ≤ 268435456 }
        ensures most { result ≤ length bytes.now }
        ensures value { self.new ≡ after self.old (take result bytes.now) }
        ensures lines { lines_in self.old (take result bytes.now) ≡ [] }
    {
        let inside = self.ear.inside();
        if !inside {
            return 0;
        }
        let count = self.ear.hear_run(bytes);
        self.fed += count as u64;
        count
    }

    /// Takes the bytes before the first DLE if no item is under way, and none otherwise, and returns how many. Each is
    /// reported as a stray byte.
    #[inline(always)]
    pub(crate) fn hear_strays(&mut self, bytes: &[u8]) -> usize
        requires { self.old.fed + length bytes.now ≤ 268435456 }
        ensures most { result ≤ length bytes.now }
        ensures value { self.new ≡ after self.old (take result bytes.now) }
        ensures lines { lines_in self.old (take result bytes.now) ≡ stray_lines self.old.fed (take result bytes.now) }
    {
        let inside = self.ear.inside();
        if inside || self.start != self.fed {
            return 0;
        }
        let count = self.ear.hear_run(bytes);
        if count == 0 {
            return 0;
        }
        let more = count as u64;
        self.fed += more;
        self.start = self.fed;
        self.heard += more;
        self.bad += more;
        count
    }

    /// Returns the body of the message that was reported at the last byte, if its body is reported; otherwise empty.
    pub fn body(&self) -> &[u8]
        ensures value { result.now ≡ lent_by self.now.ear }
        ensures fits { length result.now ≤ MAX_BODY }
    {
        self.ear.body()
    }

    /// Returns how many things have a line.
    pub fn heard(&self) -> u64
        ensures value { result ≡ self.now.heard }
        ensures heard { (side : Captured) (check : CheckKind) (bytes : List ℕ) (things : List Told) → StandsFor side check bytes self.now
            → Tells side check bytes things → result ≡ length things }
    {
        self.heard
    }

    /// Returns how many of these are faults of the line.
    pub fn bad(&self) -> u64
        ensures value { result ≡ self.now.bad }
        ensures bad { (side : Captured) (check : CheckKind) (bytes : List ℕ) (things : List Told) → StandsFor side check bytes self.now
            → Tells side check bytes things → result ≡ bad_among things }
    {
        self.bad
    }

    /// Returns how many bytes the unfinished item has.
    pub fn left(&self) -> u64
        ensures value { result ≡ self.now.fed - self.now.start }
        ensures left { (side : Captured) (check : CheckKind) (bytes : List ℕ) → StandsFor side check bytes self.now
            → ReadOff (grammar_of side check) bytes (unfinished side check) result }
    {
        self.fed - self.start
    }

    /// Returns how many bytes were taken.
    pub fn fed(&self) -> u64
        ensures value { result ≡ self.now.fed }
        ensures fed { (side : Captured) (check : CheckKind) (bytes : List ℕ) → StandsFor side check bytes self.now → result ≡ length bytes }
    {
        self.fed
    }
}

/// Returns what has a line, if the item under way began at `start` and the byte is at `at`.
fn thing_of(turn: Turn, start: u64, at: u64) -> Option<Thing>
    ensures { result ≡ thing_of turn start at }
{
    let (first, kind) = match turn {
        Turn::Goes => return None,
        Turn::Ends(kind) | Turn::CutsOff(kind) => (start, kind),
        Turn::Within(kind) => (at.saturating_sub(1), kind),
    };
    Some(Thing {
        first,
        last: at,
        kind,
    })
}

/// Returns the offset at which the item that is under way after a byte begins.
fn start_after(turn: Turn, start: u64, at: u64) -> u64
    requires { at < 268435456 }
    ensures { result ≡ start_after turn start at }
{
    match turn {
        Turn::Goes | Turn::Within(_) => start,
        Turn::Ends(_) => at + 1,
        Turn::CutsOff(_) => at.saturating_sub(1),
    }
}

/// Returns the count of things, increased by one if there is a thing.
fn heard_with(count: u64, thing: Option<Thing>) -> u64
    requires { count < 268435456 }
    ensures { result ≡ heard_with count thing }
{
    match thing {
        None => count,
        Some(_) => count + 1,
    }
}

/// Returns the count of faults, increased by one if this thing is a fault.
fn bad_with(count: u64, thing: Option<Thing>) -> u64
    requires { count < 268435456 }
    ensures { result ≡ bad_with count thing }
{
    match thing {
        Some(thing) if thing.kind.is_bad() => count + 1,
        _ => count,
    }
}
