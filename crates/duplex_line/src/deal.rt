//! Events at one end of the line, or on the bytes from it.

ghost use Rattle.std.specs.Prelude.{◌≡◌, ◌+◌, ◌≤◌, ◌<◌, ◌++◌, [], OnOk, IsOk, IsTrue, map, length, replicate};
ghost use Rattle.duplex_line.specs.Acts.{Deed, Take, Deliver, Lose, Foreign, Tick, LineEndState, after_deeds, line_state, lines_over, given_over, tick_lines, after_tick};
ghost use Rattle.duplex_line.specs.Run.{other, deeds_of, deed_lines};
ghost use Rattle.duplex_line.specs.Told.{with_sent};
ghost use Rattle.duplex_line.specs.Plays.{IsUnspent, most_events, takes_no_memory};
ghost use Rattle.duplex_line.specs.Steps.{near_over, near_lines_over};
ghost use Rattle.script_parts.specs.Playable.{IsPossible, count_of};

use crate::line_end::LineEnd;
use crate::reported::{Reported, arrive};
use crate::sent::Sent;
use arrayvec::ArrayVec;
use df1_base::NoMemory;
use lane_cells::Cell;
use replay_report::Page;
use report_lines::{tell_gone, tell_turn};
use script_parts::Event;
use script_statement::{Bytes, Who};
use std::alloc::Global;

/// Returns the end at the other side of the line.
fn other(who: Who) -> Who
    ensures { result ≡ other who }
{
    match who {
        Who::A => Who::B,
        Who::B => Who::A,
        Who::M | Who::S(_) => who,
    }
}

/// Performs an event at the end `near`, or on the bytes from it. The lines are the reported ones, followed by that of
/// the bytes that were sent last.
pub(crate) fn deal(
    alloc: Global,
    event: &Event,
    who: Who,
    near: &mut LineEnd,
    far: &mut LineEnd,
    reported: &mut Reported,
    sent: &mut Sent,
) -> Result<(), NoMemory>
    requires possible { IsPossible event.now }
    requires unspent { IsUnspent near.old event.now }
    requires few { reported.old.deceived + count_of event.now ≤ most_events }
    ensures state { OnOk result (line_state near.new far.new reported.new.deceived
        ≡ after_deeds (line_state near.old far.old reported.old.deceived) (deeds_of event.now)) }
    ensures lines { OnOk result (with_sent reported.new.lines sent.new
        ≡ with_sent reported.old.lines sent.old ++ deed_lines who (line_state near.old far.old reported.old.deceived) (deeds_of event.now)) }
    ensures few { reported.new.deceived ≤ reported.old.deceived + count_of event.now }
    ensures calm { IsTrue (takes_no_memory event.now) → IsOk result }
{
    match event {
        Event::Issue {
            src,
            dst,
            payload,
            ..
        } => near.issue(*src, *dst, payload.as_slice()),
        Event::Take { n, .. } => {
            sent.settle(alloc, &mut reported.lines)?;
            give(alloc, who, near, *n, sent)
        }
        Event::Deliver { n, .. } => {
            sent.settle(alloc, &mut reported.lines)?;
            deliver(alloc, other(who), near, far, *n, reported)
        }
        Event::Lose { n, .. } => {
            lose(near, *n);
            Ok(())
        }
        Event::Alter { mask, .. } => {
            near.alter(*mask);
            Ok(())
        }
        Event::Foreign { bytes, .. } => {
            sent.settle(alloc, &mut reported.lines)?;
            intrude(alloc, other(who), far, bytes.as_slice(), reported)
        }
        Event::Tick { n, .. } => {
            sent.settle(alloc, &mut reported.lines)?;
            pass(who, near, *n, &mut reported.lines)
        }
    }
}

/// Takes up to `n` bytes, and keeps them; none are kept before.
fn give(
    alloc: Global,
    who: Who,
    near: &mut LineEnd,
    n: u32,
    sent: &mut Sent,
) -> Result<(), NoMemory>
    requires { sent.old.bytes ≡ [] }
    ensures near { OnOk result (near.new ≡ near_over near.old (replicate n Take)) }
    ensures sent { OnOk result (sent.new ≡ record { who = who; bytes = given_over near.old (replicate n Take) }) }
{
    sent.who = who;
    take_all(alloc, near, n, &mut sent.bytes)
}

/// Takes up to `n` bytes, and appends them to those that are there.
fn take_all(alloc: Global, near: &mut LineEnd, n: u32, bytes: &mut Bytes) -> Result<(), NoMemory>
    ensures near { OnOk result (near.new ≡ near_over near.old (replicate n Take)) }
    ensures bytes { OnOk result (bytes.new ≡ bytes.old ++ given_over near.old (replicate n Take)) }
{
    for _ in 0..n {
        let Some(byte) = near.take(alloc)? else {
            return Ok(());
        };
        bytes.push(byte)?;
    }
    Ok(())
}

/// Delivers up to `n` bytes of the queue to the other end.
fn deliver(
    alloc: Global,
    to: Who,
    near: &mut LineEnd,
    far: &mut LineEnd,
    n: u32,
    reported: &mut Reported,
) -> Result<(), NoMemory>
    requires { reported.old.deceived + n ≤ most_events }
    ensures state { OnOk result (line_state near.new far.new reported.new.deceived
        ≡ after_deeds (line_state near.old far.old reported.old.deceived) (replicate n Deliver)) }
    ensures lines { (from : Who) → OnOk result (reported.new.lines
        ≡ reported.old.lines ++ lines_over from to (line_state near.old far.old reported.old.deceived) (replicate n Deliver)) }
    ensures few { reported.new.deceived ≤ reported.old.deceived + n }
{
    for _ in 0..n {
        let Some(cell) = near.leave() else {
            return Ok(());
        };
        arrive(alloc, to, far, &cell, reported)?;
        near.keep(cell);
    }
    Ok(())
}

/// Loses up to `n` bytes of the queue.
fn lose(near: &mut LineEnd, n: u32)
    ensures { near.new ≡ near_over near.old (replicate n Lose) }
{
    for _ in 0..n {
        let Some(cell) = near.leave() else {
            return;
        };
        near.keep(cell);
    }
}

/// Delivers foreign bytes to the other end. It isn't inlined, and nor is `pass`: a take and a delivery would pay for
/// their stack space.
#[inline(never)]
fn intrude(
    alloc: Global,
    to: Who,
    far: &mut LineEnd,
    bytes: &[u8],
    reported: &mut Reported,
) -> Result<(), NoMemory>
    requires { reported.old.deceived + length bytes.now ≤ most_events }
    ensures state { (near : LineEndState) → OnOk result (line_state near far.new reported.new.deceived
        ≡ after_deeds (line_state near far.old reported.old.deceived) (map Foreign bytes.now)) }
    ensures lines { (from : Who) (near : LineEndState) → OnOk result (reported.new.lines
        ≡ reported.old.lines ++ lines_over from to (line_state near far.old reported.old.deceived) (map Foreign bytes.now)) }
    ensures few { reported.new.deceived ≤ reported.old.deceived + length bytes.now }
{
    for byte in bytes {
        let cell = Cell::bare(*byte);
        arrive(alloc, to, far, &cell, reported)?;
    }
    Ok(())
}

/// Lets `n` ticks pass. From the first on that doesn't count, they are passed over at once.
#[inline(never)]
fn pass(who: Who, near: &mut LineEnd, n: u32, lines: &mut Page) -> Result<(), NoMemory>
    ensures near { OnOk result (near.new ≡ near_over near.old (replicate n Tick)) }
    ensures lines { OnOk result (lines.new ≡ lines.old ++ near_lines_over who near.old (replicate n Tick)) }
{
    let mut gone = ArrayVec::new();
    for _ in 0..n {
        if !near.counts_ticks() {
            return Ok(());
        }
        tick(who, near, &mut gone, lines)?;
    }
    Ok(())
}

/// Lets a tick pass: first the sender's line is reported, then the unanswered commands, which replace those in `gone`.
fn tick(
    who: Who,
    near: &mut LineEnd,
    gone: &mut ArrayVec<u32, 16>,
    lines: &mut Page,
) -> Result<(), NoMemory>
    ensures near { OnOk result (near.new ≡ after_tick near.old) }
    ensures lines { OnOk result (lines.new ≡ lines.old ++ tick_lines who near.old) }
{
    let turn = near.tick(gone);
    tell_turn(who, turn, lines)?;
    tell_gone(who, gone, lines)
}
