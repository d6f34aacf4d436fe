//! Writing what is decoded in a capture, line by line. The lines of each piece that is read are collected, and written
//! before the next piece is read.
ghost use Rattle.std.specs.Prelude.{◌≡◌, ◌≤◌, ◌+◌, [], ℕ, List, length, OnOk, OnErr};
ghost use Rattle.arrayvec.specs.ArrayVec.{array_vec_len};
ghost use Rattle.df1_base.specs.Outside.{Rose, Put, WroteLess};
ghost use Rattle.df1_check.specs.declared.Check.{Check as CheckKind};
ghost use Rattle.half_frame.specs.declared.side.Side.{Side as Captured};
ghost use Rattle.df1_dissect.specs.Reading.{StandsFor};
ghost use Rattle.df1_capture.specs.Dissected.{CloseEnd, DissectEnd, HasHeard, IsMoved, PieceEnd, PutEnd};

use crate::capture::{Capture, CaptureFault, PIECE, within_limit};
use df1_base::{Failed, Sink, Source, write_all};
use df1_dissect::{CollectedLines, Dissector, LINE};

/// Writes to the output the lines of all that is decoded in the input, at most 268,435,456 bytes, and that of an
/// unfinished item. Returns `Input` or `Output` only if the count of faults of the input or the output rose, and
/// `TooLong` if there are more bytes. The lines of the bytes taken were written then; with `Output`, a first part, and
/// not all.
pub fn dissect<S: Source, K: Sink>(
    capture: Capture,
    input: &mut S,
    out: &mut K,
) -> Result<(), CaptureFault>
    ensures { DissectEnd capture.side capture.check (S.left input.old) (S.left input.new) (S.faults input.old) (S.faults input.new)
        (K.held out.old) (K.held out.new) (K.faults out.old) (K.faults out.new) result }
{
    let mut dissector = Dissector::new(capture.side, capture.check);
    let mut lines = CollectedLines::new();
    dissect_all(&mut dissector, &mut lines, input, out)
}

/// Reads the whole input, piece by piece, with a dissector that has taken no byte.
fn dissect_all<S: Source, K: Sink>(
    dissector: &mut Dissector,
    lines: &mut CollectedLines,
    input: &mut S,
    out: &mut K,
) -> Result<(), CaptureFault>
    requires none { lines.old.items ≡ [] }
    requires new { dissector.old.fed ≡ 0 }
    ensures { (side : Captured) (check : CheckKind) → StandsFor side check [] dissector.old
        → DissectEnd side check (S.left input.old) (S.left input.new) (S.faults input.old) (S.faults input.new)
        (K.held out.old) (K.held out.new) (K.faults out.old) (K.faults out.new) result }
{
    let mut piece = [0; PIECE];
    'pieces: loop {
        match input.read(&mut piece) {
            Ok(0) => return close(dissector, out),
            Ok(count) => match dissect_piece(dissector, &piece[..count], lines, out) {
                Ok(()) => {}
                Err(fault) => return Err(fault),
            },
            Err(Failed) => return Err(CaptureFault::Input),
        }
    }
}

/// Writes the line of an unfinished item.
fn close<K: Sink>(dissector: &mut Dissector, out: &mut K) -> Result<(), CaptureFault>
    ensures { (side : Captured) (check : CheckKind) (bytes text : List ℕ) → HasHeard side check bytes text dissector.old
        → CloseEnd side check bytes text (K.held out.old) (K.held out.new) (K.faults out.old) (K.faults out.new) result }
{
    match dissector.finish(out) {
        Ok(()) => Ok(()),
        Err(Failed) => Err(CaptureFault::Output),
    }
}

/// Decodes the part of a piece that is within the limit, and writes its lines.
fn dissect_piece<K: Sink>(
    dissector: &mut Dissector,
    piece: &[u8],
    lines: &mut CollectedLines,
    out: &mut K,
) -> Result<(), CaptureFault>
    requires none { lines.old.items ≡ [] }
    requires few { dissector.old.fed ≤ 268435456 }
    ensures ends { (side : Captured) (check : CheckKind) (bytes text : List ℕ) → HasHeard side check bytes text dissector.old
        → PieceEnd side check bytes piece.now text dissector.new (K.held out.old) (K.held out.new) (K.faults out.old) (K.faults out.new) result }
    ensures none { OnOk result (lines.new.items ≡ []) }
    ensures calm { OnOk result (K.faults out.new ≡ K.faults out.old) }
    ensures fed { OnOk result (dissector.new.fed ≡ dissector.old.fed + length piece.now) }
    ensures few { OnOk result (dissector.new.fed ≤ 268435456) }
{
    let heard = within_limit(piece, dissector.fed());
    match put_lines(dissector, heard, lines, out) {
        Ok(()) if heard.len() < piece.len() => Err(CaptureFault::TooLong),
        Ok(()) => Ok(()),
        Err(Failed) => Err(CaptureFault::Output),
    }
}

/// Decodes bytes, and writes their lines.
fn put_lines<K: Sink>(
    dissector: &mut Dissector,
    heard: &[u8],
    lines: &mut CollectedLines,
    out: &mut K,
) -> Result<(), Failed>
    requires none { lines.old.items ≡ [] }
    requires few { dissector.old.fed + length heard.now ≤ 268435456 }
    ensures ends { (side : Captured) (check : CheckKind) (bytes text : List ℕ) → HasHeard side check bytes text dissector.old
        → PutEnd side check bytes heard.now text dissector.new (K.held out.old) (K.held out.new) (K.faults out.old) (K.faults out.new) result }
    ensures none { OnOk result (lines.new.items ≡ []) }
    ensures calm { OnOk result (K.faults out.new ≡ K.faults out.old) }
    ensures fed { OnOk result (dissector.new.fed ≡ dissector.old.fed + length heard.now) }
{
    let mut at = 0;
    while at < heard.len() {
        match make_room(lines, out) {
            Ok(()) => at += dissector.collect_some(&heard[at..], lines),
            Err(failed) => return Err(failed),
        }
    }
    hand_on(lines, out)
}

/// Writes the collected lines, if there is no room for one more.
fn make_room<K: Sink>(lines: &mut CollectedLines, out: &mut K) -> Result<(), Failed>
    ensures room { OnOk result (array_vec_len lines.new + 700 ≤ 8192) }
    ensures moved { OnOk result (IsMoved (K.held out.old) (K.held out.new) lines.old.items lines.new.items) }
    ensures missing { OnErr result (WroteLess (K.held out.old) (K.held out.new) lines.old.items) }
    ensures calm { OnOk result (K.faults out.new ≡ K.faults out.old) }
    ensures cause { OnErr result (Rose (K.faults out.old) (K.faults out.new)) }
{
    if lines.remaining_capacity() < LINE {
        hand_on(lines, out)
    } else {
        Ok(())
    }
}

/// Writes the collected lines.
fn hand_on<K: Sink>(lines: &mut CollectedLines, out: &mut K) -> Result<(), Failed>
    ensures none { OnOk result (lines.new.items ≡ []) }
    ensures ok { OnOk result (Put (K.held out.old) (K.held out.new) lines.old.items) }
    ensures missing { OnErr result (WroteLess (K.held out.old) (K.held out.new) lines.old.items) }
    ensures calm { OnOk result (K.faults out.new ≡ K.faults out.old) }
    ensures cause { OnErr result (Rose (K.faults out.old) (K.faults out.new)) }
{
    match write_all(out, lines) {
        Ok(()) => {
            lines.clear();
            Ok(())
        }
        Err(failed) => Err(failed),
    }
}
