//! The dissector: it takes the bytes of a capture one by one, and writes the lines that they complete to a sink.
ghost use Rattle.std.specs.Prelude.{◌≡◌, ◌≤◌, ◌<◌, ◌+◌, ◌-◌, ◌%◌, ◌++◌, ◌∷◌, [], ℕ, List, length, take, OnOk, OnErr};
ghost use Rattle.std.specs.List.{flat_map};
ghost use Rattle.arrayvec.specs.ArrayVec.{array_vec_len};
ghost use Rattle.df1_base.specs.Outside.{Rose, Put, WroteLess, WrotePart, Later};
ghost use Rattle.df1_check.specs.declared.Check.{Check as CheckKind};
ghost use Rattle.df1_frame.specs.Line.{ReadOff};
ghost use Rattle.half_frame.specs.declared.side.Side.{Side as Captured};
ghost use Rattle.df1_dissect.specs.Reading.{StandsFor, Tells, bad_among, grammar_of, unfinished};
ghost use Rattle.df1_dissect.specs.Telling.{Told};
ghost use Rattle.df1_dissect.specs.Lines.{line_text, open_line};
ghost use Rattle.df1_dissect.specs.Dissection.{Dissects, HasLines, lines_at, lines_in, open_text};
ghost use Rattle.df1_dissect.specs.Runs.{after};
ghost use Rattle.df1_dissect.specs.Step.{next, with_body};

use crate::line::{ROOM, append_line, append_open_line, append_strays};
use crate::reader::{Reader, Thing};
use arrayvec::ArrayVec;
use df1_base::{DLE, Failed, MAX_BODY, Sink, write_all};
use df1_check::Check;
use half_frame::Side;
use std::marker::Model;

/// The buffer size for collected lines, in bytes.
pub const LINES: usize = 8192;

/// The buffer size for one more line, in bytes.
pub const LINE: usize = ROOM;

/// Lines that are collected before they are written to a sink.
pub type CollectedLines = ArrayVec<u8, LINES>;

/// A dissector of a capture, which takes its bytes one by one and writes the line of each thing at its last byte. After
/// `Failed` it can only be dropped.
#[derive(Drop)]
pub struct Dissector {
    reader: Reader,
}

impl Model for Dissector {
    ghost use Rattle.df1_dissect.specs.Reading.{Reading};

    ghost Value = { Reading };

    ghost view = { λ d. d.reader };
}

impl Dissector {
    /// Creates a dissector of this side, for a line with this check, that has taken no byte.
    pub fn new(side: Side, check: Check) -> Dissector
        ensures stands { StandsFor side check [] result }
        ensures fed { result.fed ≡ 0 }
    {
        Dissector {
            reader: Reader::new(side, check),
        }
    }

    /// Takes a byte, after fewer than 268,435,456, and writes the lines that it completes. Returns `Failed` if the sink
    /// failed; then it holds a first part of them, and not all.
    pub fn feed<K: Sink>(&mut self, b: u8, sink: &mut K) -> Result<(), Failed>
        requires { self.old.fed < 268435456 }
        ensures stands { (side : Captured) (check : CheckKind) (bytes : List ℕ) → StandsFor side check bytes self.old
            → StandsFor side check (bytes ++ b ∷ []) self.new }
        ensures lines { (side : Captured) (check : CheckKind) (bytes so_far : List ℕ) → StandsFor side check bytes self.old
            → HasLines side check bytes so_far → HasLines side check (bytes ++ b ∷ []) (so_far ++ lines_at self.old b) }
        ensures fed { self.new.fed ≡ self.old.fed + 1 }
        ensures ok { OnOk result (Put (K.held sink.old) (K.held sink.new) (lines_at self.old b)) }
        ensures missing { OnErr result (WroteLess (K.held sink.old) (K.held sink.new) (lines_at self.old b)) }
        ensures part { WrotePart (K.held sink.old) (K.held sink.new) (lines_at self.old b) }
        ensures calm { OnOk result (K.faults sink.new ≡ K.faults sink.old) }
        ensures later { Later (K.mark sink.old) (K.mark sink.new) (K.faults sink.old) (K.faults sink.new) }
        ensures cause { OnErr result (Rose (K.faults sink.old) (K.faults sink.new)) }
    {
        match self.reader.hear(b) {
            None => Ok(()),
            Some(thing) => put_thing(sink, thing, self.reader.body()),
        }
    }

    /// Takes a byte, after fewer than 268,435,456, and appends the line that it completes, if any, to lines that have
    /// room for one more.
    pub fn collect(&mut self, b: u8, lines: &mut CollectedLines)
        requires few { self.old.fed < 268435456 }
        requires room { array_vec_len lines.old + 700 ≤ 8192 }
        ensures value { self.new ≡ (next self.old b).0 }
        ensures stands { (side : Captured) (check : CheckKind) (bytes : List ℕ) → StandsFor side check bytes self.old
            → StandsFor side check (bytes ++ b ∷ []) self.new }
        ensures lines { (side : Captured) (check : CheckKind) (bytes so_far : List ℕ) → StandsFor side check bytes self.old
            → HasLines side check bytes so_far → HasLines side check (bytes ++ b ∷ []) (so_far ++ lines_at self.old b) }
        ensures fed { self.new.fed ≡ self.old.fed + 1 }
        ensures added { lines.new.items ≡ lines.old.items ++ lines_at self.old b }
    {
        match self.reader.hear(b) {
            None => {}
            Some(thing) => append_line(lines, thing, self.reader.body()),
        }
    }

    /// Takes a run of bytes, or the first byte if there is no run, appends the lines that they complete, and returns
    /// how many bytes it took. There is at least one byte, all are among the first 268,435,456, and the lines have room
    /// for one of any form. A run is the bytes before a DLE: in a body all of them, and outside those whose lines fit.
    pub fn collect_some(&mut self, bytes: &[u8], lines: &mut CollectedLines) -> usize
        requires some { 0 < length bytes.now }
        requires few { self.old.fed + length bytes.now ≤ 268435456 }
        requires room { array_vec_len lines.old + 700 ≤ 8192 }
        ensures some { 0 < result }
        ensures most { result ≤ length bytes.now }
        ensures value { self.new ≡ after self.old (take result bytes.now) }
        ensures stands { (side : Captured) (check : CheckKind) (before : List ℕ) → StandsFor side check before self.old
            → StandsFor side check (before ++ take result bytes.now) self.new }
        ensures lines { (side : Captured) (check : CheckKind) (before so_far : List ℕ) → StandsFor side check before self.old
            → HasLines side check before so_far → HasLines side check (before ++ take result bytes.now) (so_far ++ lines_in self.old (take result bytes.now)) }
        ensures fed { self.new.fed ≡ self.old.fed + result }
        ensures added { lines.new.items ≡ lines.old.items ++ lines_in self.old (take result bytes.now) }
    {
        let count = self.collect_run(bytes, lines);
        if count > 0 {
            return count;
        }
        self.collect(bytes[0], lines);
        1
    }

    /// Takes the bytes before the first DLE in a body or outside, and none elsewhere, and appends the lines that they
    /// complete. Outside it takes at most the bytes up to the end of a ten of offsets.
    fn collect_run(&mut self, bytes: &[u8], lines: &mut CollectedLines) -> usize
        requires some { 0 < length bytes.now }
        requires few { self.old.fed + length bytes.now ≤ 268435456 }
        requires room { array_vec_len lines.old + 700 ≤ 8192 }
        ensures most { result ≤ length bytes.now }
        ensures value { self.new ≡ after self.old (take result bytes.now) }
        ensures added { lines.new.items ≡ lines.old.items ++ lines_in self.old (take result bytes.now) }
    {
        if bytes[0] == DLE {
            return 0;
        }
        if self.reader.left() > 0 {
            return self.reader.hear_body(bytes);
        }
        let at = self.reader.fed();
        if at < 10 {
            return 0;
        }
        let front = within_ten(at, bytes);
        let count = self.reader.hear_strays(front);
        append_strays(lines, at, &front[..count]);
        count
    }

    /// Writes the line of the unfinished item, if there is one. Returns `Failed` if the sink failed; then it holds a
    /// first part of the line, and not all.
    pub fn finish<K: Sink>(&mut self, sink: &mut K) -> Result<(), Failed>
        ensures same { self.new ≡ self.old }
        ensures whole { (side : Captured) (check : CheckKind) (bytes so_far : List ℕ) → StandsFor side check bytes self.old
            → HasLines side check bytes so_far → Dissects side check bytes (so_far ++ open_text self.old.start self.old.fed) }
        ensures ok { OnOk result (Put (K.held sink.old) (K.held sink.new) (open_text self.old.start self.old.fed)) }
        ensures missing { OnErr result (WroteLess (K.held sink.old) (K.held sink.new) (open_text self.old.start self.old.fed)) }
        ensures part { WrotePart (K.held sink.old) (K.held sink.new) (open_text self.old.start self.old.fed) }
        ensures calm { OnOk result (K.faults sink.new ≡ K.faults sink.old) }
        ensures later { Later (K.mark sink.old) (K.mark sink.new) (K.faults sink.old) (K.faults sink.new) }
        ensures cause { OnErr result (Rose (K.faults sink.old) (K.faults sink.new)) }
    {
        let left = self.reader.left();
        if left == 0 {
            return Ok(());
        }
        let fed = self.reader.fed();
        put_open(sink, fed - left, fed - 1)
    }

    /// Returns how many things have a line.
    pub fn heard(&self) -> u64
        ensures value { result ≡ self.now.heard }
        ensures heard { (side : Captured) (check : CheckKind) (bytes : List ℕ) (things : List Told) → StandsFor side check bytes self.now
            → Tells side check bytes things → result ≡ length things }
    {
        self.reader.heard()
    }

    /// Returns how many of these are faults of the line.
    pub fn bad(&self) -> u64
        ensures value { result ≡ self.now.bad }
        ensures bad { (side : Captured) (check : CheckKind) (bytes : List ℕ) (things : List Told) → StandsFor side check bytes self.now
            → Tells side check bytes things → result ≡ bad_among things }
    {
        self.reader.bad()
    }

    /// Returns how many bytes the unfinished item has.
    pub fn left(&self) -> u64
        ensures value { result ≡ self.now.fed - self.now.start }
        ensures left { (side : Captured) (check : CheckKind) (bytes : List ℕ) → StandsFor side check bytes self.now
            → ReadOff (grammar_of side check) bytes (unfinished side check) result }
    {
        self.reader.left()
    }

    /// Returns how many bytes were taken.
    pub fn fed(&self) -> u64
        ensures value { result ≡ self.now.fed }
        ensures fed { (side : Captured) (check : CheckKind) (bytes : List ℕ) → StandsFor side check bytes self.now → result ≡ length bytes }
    {
        self.reader.fed()
    }
}

/// Returns the bytes, the first of which is at this offset, up to the last offset of its ten.
fn within_ten(at: u64, bytes: &[u8]) -> &[u8]
    ensures { result.now ≡ take (10 - at % 10) bytes.now }
{
    let most = (10 - at % 10) as usize;
    if bytes.len() < most {
        bytes
    } else {
        &bytes[..most]
    }
}

/// Writes the line of a thing with a body of at most 250 bytes.
#[inline(never)]
fn put_thing<K: Sink>(sink: &mut K, thing: Thing, body: &[u8]) -> Result<(), Failed>
    requires { length body.now ≤ MAX_BODY }
    ensures ok { OnOk result (Put (K.held sink.old) (K.held sink.new) (line_text (with_body thing body.now))) }
    ensures missing { OnErr result (WroteLess (K.held sink.old) (K.held sink.new) (line_text (with_body thing body.now))) }
    ensures part { WrotePart (K.held sink.old) (K.held sink.new) (line_text (with_body thing body.now)) }
    ensures calm { OnOk result (K.faults sink.new ≡ K.faults sink.old) }
    ensures later { Later (K.mark sink.old) (K.mark sink.new) (K.faults sink.old) (K.faults sink.new) }
    ensures cause { OnErr result (Rose (K.faults sink.old) (K.faults sink.new)) }
{
    let mut line = ArrayVec::<u8, ROOM>::new();
    append_line(&mut line, thing, body);
    write_all(sink, &line)
}

/// Writes the line of an item that is unfinished.
#[inline(never)]
fn put_open<K: Sink>(sink: &mut K, first: u64, last: u64) -> Result<(), Failed>
    ensures ok { OnOk result (Put (K.held sink.old) (K.held sink.new) (open_line first last)) }
    ensures missing { OnErr result (WroteLess (K.held sink.old) (K.held sink.new) (open_line first last)) }
    ensures part { WrotePart (K.held sink.old) (K.held sink.new) (open_line first last) }
    ensures calm { OnOk result (K.faults sink.new ≡ K.faults sink.old) }
    ensures later { Later (K.mark sink.old) (K.mark sink.new) (K.faults sink.old) (K.faults sink.new) }
    ensures cause { OnErr result (Rose (K.faults sink.old) (K.faults sink.new)) }
{
    let mut line = ArrayVec::<u8, ROOM>::new();
    append_open_line(&mut line, first, last);
    write_all(sink, &line)
}
