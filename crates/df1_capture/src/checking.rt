//! Counting what is decoded in a capture. At the end one line reports the counts: of all decoded things, of the faults
//! of the line among them, and of the bytes of an unfinished item.
ghost use Rattle.std.specs.Prelude.{◌≡◌, ◌≤◌, ◌+◌, [], ℕ, List, length, OnOk};
ghost use Rattle.df1_check.specs.declared.Check.{Check as CheckKind};
ghost use Rattle.half_frame.specs.declared.side.Side.{Side as Captured};
ghost use Rattle.df1_dissect.specs.Reading.{StandsFor};
ghost use Rattle.df1_capture.specs.Counted.{CheckEnd, CountEnd, CountedPiece, ToldCounts, counts_line, is_faulty as the_faulty};

use crate::capture::{Capture, CaptureFault, PIECE, within_limit};
use arrayvec::ArrayVec;
use df1_base::{Failed, Sink, Source, append, write_all};
use df1_dissect::Reader;

/// The buffer size for the line, in bytes: three numbers of at most 20 digits, and the words.
const ROOM: usize = 80;

/// Counts what is decoded in the input, at most 268,435,456 bytes, writes the line of the counts to the output, and
/// returns whether anything is a fault of the line or unfinished. Returns `Input` or `Output` only if the count of
/// faults of the input or the output rose, and `TooLong` if there are more bytes. Nothing but the line is written.
pub fn check<S: Source, K: Sink>(
    capture: Capture,
    input: &mut S,
    out: &mut K,
) -> Result<bool, CaptureFault>
    ensures { CheckEnd capture.side capture.check (S.left input.old) (S.left input.new) (S.faults input.old) (S.faults input.new)
        (K.held out.old) (K.held out.new) (K.faults out.old) (K.faults out.new) result }
{
    let mut reader = Reader::new(capture.side, capture.check);
    match count_all(&mut reader, input) {
        Ok(()) => put_counts(&reader, out),
        Err(fault) => Err(fault),
    }
}

/// Reads the whole input, piece by piece, with a reader that has taken no byte.
fn count_all<S: Source>(reader: &mut Reader, input: &mut S) -> Result<(), CaptureFault>
    requires { reader.old.fed ≡ 0 }
    ensures { (side : Captured) (check : CheckKind) → StandsFor side check [] reader.old
        → CountEnd side check (S.left input.old) (S.left input.new) (S.faults input.old) (S.faults input.new) reader.new result }
{
    let mut piece = [0; PIECE];
    'pieces: loop {
        match input.read(&mut piece) {
            Ok(0) => return Ok(()),
            Ok(count) => match count_piece(reader, &piece[..count]) {
                Ok(()) => {}
                Err(fault) => return Err(fault),
            },
            Err(Failed) => return Err(CaptureFault::Input),
        }
    }
}

/// Decodes the part of a piece that is within the limit.
fn count_piece(reader: &mut Reader, piece: &[u8]) -> Result<(), CaptureFault>
    requires { reader.old.fed ≤ 268435456 }
    ensures ends { (side : Captured) (check : CheckKind) (bytes : List ℕ) → StandsFor side check bytes reader.old
        → CountedPiece side check bytes piece.now reader.new result }
    ensures fed { OnOk result (reader.new.fed ≡ reader.old.fed + length piece.now) }
    ensures few { OnOk result (reader.new.fed ≤ 268435456) }
{
    let heard = within_limit(piece, reader.fed());
    reader.hear_all(heard);
    if heard.len() < piece.len() {
        Err(CaptureFault::TooLong)
    } else {
        Ok(())
    }
}

/// Writes the counts, and returns whether anything is a fault or unfinished.
fn put_counts<K: Sink>(reader: &Reader, out: &mut K) -> Result<bool, CaptureFault>
    ensures { (side : Captured) (check : CheckKind) (bytes : List ℕ) → StandsFor side check bytes reader.now
        → ToldCounts side check bytes (K.held out.old) (K.held out.new) (K.faults out.old) (K.faults out.new) result }
{
    let bad = reader.bad();
    let begun = reader.left();
    let line = counts(reader.heard(), bad, begun);
    match write_all(out, &line) {
        Ok(()) => Ok(is_faulty(bad, begun)),
        Err(Failed) => Err(CaptureFault::Output),
    }
}

/// Returns whether anything is a fault of the line, or unfinished.
fn is_faulty(bad: u64, begun: u64) -> bool
    ensures { result ≡ the_faulty bad begun }
{
    bad > 0 || begun > 0
}

/// Returns the line of the counts: of the decoded things, of the faults among them, and of the bytes of an unfinished
/// item.
fn counts(heard: u64, bad: u64, begun: u64) -> ArrayVec<u8, ROOM>
    ensures { result.items ≡ counts_line heard bad begun }
{
    let mut line = ArrayVec::new();
    let mut digits = itoa::Buffer::new();
    append(&mut line, b"heard ");
    append(&mut line, digits.format(heard).as_bytes());
    append(&mut line, b" bad ");
    append(&mut line, digits.format(bad).as_bytes());
    append(&mut line, b" open ");
    append(&mut line, digits.format(begun).as_bytes());
    append(&mut line, b"\n");
    line
}
