//! A port over a source and a sink.
//!
//! A raw input has no time: each of its bytes yields a Byte and then a Drain. A timed input has records of two bytes:
//!
//! | Record | Signal |
//! |---|---|
//! | `00 b` | Byte(b) |
//! | `01 00` | Tick |
//! | `02 00` | Take |
//! | `03 00` | Drain |
//!
//! Any other record yields Bad with the offset of its first byte, and so does a single last byte. The end of the input
//! yields End, and a byte after 268,435,456 others yields Long.
ghost use Rattle.std.specs.Prelude.{◌≡◌, ◌+◌, ◌≤◌, ◌<◌, [], Some, IfOk, OnOk, OnErr, length, slice_get, true, false};
ghost use Rattle.std.specs.Io.KnownBytes.{Keeps};
ghost use Rattle.df1_base.specs.Feed.{Came, EndsWith, holds_signal, most_to_come};
ghost use Rattle.df1_base.specs.Outside.{Rose};
ghost use Rattle.df1_base.specs.Signals.{Gave, goes_on, input_limit, signal_of as the_signal};

use crate::ahead::Ahead;
use crate::{Failed, Port, Signal, Sink, Source, write_all};
use std::marker::Model;

/// The most bytes that are taken of an input.
const INPUT: u64 = 268_435_456;

/// A port that reads its signals from a source and writes what is put to a sink. It reads at most 4,096 bytes at a
/// time, and only if the bytes taken hold no further signal.
#[derive(Drop)]
pub struct FeedPort<S: Source, K: Sink> {
    source: S,
    sink: K,
    timed: bool,
    pub(crate) used: u64,
    ahead: Ahead,
    drains: bool,
}

impl<S: Source, K: Sink> Model for FeedPort<S, K> {
    ghost use Rattle.std.specs.Prelude.{◌≤◌, ◌+◌, length};
    ghost use Rattle.df1_base.specs.Feed.{Feed};
    ghost use Rattle.df1_base.specs.Signals.{input_limit};

    ghost Value = { Feed S K };

    ghost view = { λ p. record { source = p.source; sink = p.sink; timed = p.timed; used = p.used; waiting = p.ahead; drains = p.drains } };

    ghost invariant = { λ p. (p.used ≤ input_limit + 1) × (length p.ahead ≤ 4096) };
}

impl<S: Source, K: Sink> FeedPort<S, K> {
    /// Returns a port over a source and a sink. The input has records if it is `timed`, and is raw otherwise.
    pub fn new(source: S, sink: K, timed: bool) -> Self
        ensures { result ≡ record { source = source; sink = sink; timed = timed; used = 0; waiting = []; drains = false } }
    {
        FeedPort {
            source,
            sink,
            timed,
            used: 0,
            ahead: Ahead::new(),
            drains: false,
        }
    }

    /// Returns how many bytes were taken whose signals were not returned.
    pub fn held(&self) -> usize
        ensures { result ≡ length self.now.waiting }
    {
        self.ahead.len()
    }

    /// Returns the source and the sink, as they now are. At most 4,096 bytes were taken whose signals were not
    /// returned.
    pub fn into_parts(self) -> (S, K)
        ensures source { result.0 ≡ self.source }
        ensures sink { result.1 ≡ self.sink }
        ensures few { length self.waiting ≤ 4096 }
    {
        (self.source, self.sink)
    }

    /// Returns the next signal of the input, when no Drain is due.
    fn next_of_input(&mut self) -> Result<Signal, Failed>
        requires none_due { self.old.drains ≡ false }
        ensures gave { IfOk result (λ signal. Gave (Came S.left) (EndsWith S.left) self.old self.new signal) }
        ensures failed { OnErr result (Came S.left self.old [] self.new) }
        ensures dry { OnErr result (holds_signal self.new ≡ false) }
        ensures fewer { IfOk result (λ signal. goes_on signal ≡ true → most_to_come self.new + 1 ≤ most_to_come self.old) }
        ensures no_more { most_to_come self.new ≤ most_to_come self.old }
        ensures sink { self.new.sink ≡ self.old.sink }
        ensures calm { OnOk result (S.faults self.new.source ≡ S.faults self.old.source) }
        ensures later { S.faults self.old.source ≤ S.faults self.new.source }
        ensures cause { OnErr result (Rose (S.faults self.old.source) (S.faults self.new.source)) }
        ensures here { holds_signal self.old ≡ true → self.new.source ≡ self.old.source }
    {
        let Some(first) = self.ahead.peek(0, &mut self.source)? else {
            return Ok(Signal::End);
        };
        if self.used >= INPUT {
            return Ok(Signal::Long);
        }
        if self.timed {
            self.next_of_record(first)
        } else {
            Ok(self.next_of_byte(first))
        }
    }

    /// Returns the signal of the next byte of a raw input.
    fn next_of_byte(&mut self, first: u8) -> Signal
        requires first { slice_get self.old.waiting 0 ≡ Some first }
        requires room { self.old.used < input_limit }
        requires raw { self.old.timed ≡ false }
        requires none_due { self.old.drains ≡ false }
        ensures gave { Gave (Came S.left) (EndsWith S.left) self.old self.new result }
        ensures fewer { most_to_come self.new + 1 ≤ most_to_come self.old }
        ensures rest { (self.new.source ≡ self.old.source) × (self.new.sink ≡ self.old.sink) }
    {
        self.ahead.skip(1);
        self.used += 1;
        self.drains = true;
        Signal::Byte(first)
    }

    /// Returns the signal of the next record of a timed input.
    fn next_of_record(&mut self, first: u8) -> Result<Signal, Failed>
        requires first { slice_get self.old.waiting 0 ≡ Some first }
        requires room { self.old.used < input_limit }
        requires timed { self.old.timed ≡ true }
        requires none_due { self.old.drains ≡ false }
        ensures gave { IfOk result (λ signal. Gave (Came S.left) (EndsWith S.left) self.old self.new signal) }
        ensures failed { OnErr result (Came S.left self.old [] self.new) }
        ensures dry { OnErr result (holds_signal self.new ≡ false) }
        ensures fewer { IfOk result (λ signal. goes_on signal ≡ true → most_to_come self.new + 1 ≤ most_to_come self.old) }
        ensures no_more { most_to_come self.new ≤ most_to_come self.old }
        ensures sink { self.new.sink ≡ self.old.sink }
        ensures calm { OnOk result (S.faults self.new.source ≡ S.faults self.old.source) }
        ensures later { S.faults self.old.source ≤ S.faults self.new.source }
        ensures cause { OnErr result (Rose (S.faults self.old.source) (S.faults self.new.source)) }
        ensures here { holds_signal self.old ≡ true → self.new.source ≡ self.old.source }
    {
        let Some(second) = self.ahead.peek(1, &mut self.source)? else {
            return Ok(Signal::Bad(self.used));
        };
        let Some(signal) = signal_of(first, second) else {
            return Ok(Signal::Bad(self.used));
        };
        self.ahead.skip(2);
        self.used += 2;
        Ok(signal)
    }
}

/// Returns the signal that a record of two bytes stands for, if it has one of the forms.
fn signal_of(form: u8, byte: u8) -> Option<Signal>
    ensures { result ≡ the_signal form byte }
{
    match (form, byte) {
        (0, _) => Some(Signal::Byte(byte)),
        (1, 0) => Some(Signal::Tick),
        (2, 0) => Some(Signal::Take),
        (3, 0) => Some(Signal::Drain),
        _ => None,
    }
}

impl<S: Source, K: Sink> Port for FeedPort<S, K> {
    ghost use Rattle.std.specs.Prelude.{◌≡◌, false};
    ghost use Rattle.df1_base.specs.Feed.{Came, EndsWith, holds_signal, most_to_come};
    ghost use Rattle.df1_base.specs.PortLaws.{came-none, came-more};

    ghost came = { λ p signals q. Came S.left p signals q };

    ghost ends_with = { λ p signal. EndsWith S.left p signal };

    ghost dry = { λ p. holds_signal p ≡ false };

    ghost sent = { λ p. K.held p.sink };

    ghost most = { λ p. most_to_come p };

    ghost next_faults = { λ p. S.faults p.source };

    ghost put_faults = { λ p. K.faults p.sink };

    fn next(&mut self) -> Result<Signal, Failed>
        ensures gave { IfOk result (λ signal. Gave (Came S.left) (EndsWith S.left) self.old self.new signal) }
        ensures failed { OnErr result (Came S.left self.old [] self.new) }
        ensures dry { OnErr result (holds_signal self.new ≡ false) }
        ensures fewer { IfOk result (λ signal. goes_on signal ≡ true → most_to_come self.new + 1 ≤ most_to_come self.old) }
        ensures no_more { most_to_come self.new ≤ most_to_come self.old }
        ensures sink { self.new.sink ≡ self.old.sink }
        ensures calm { OnOk result (S.faults self.new.source ≡ S.faults self.old.source) }
        ensures later { S.faults self.old.source ≤ S.faults self.new.source }
        ensures cause { OnErr result (Rose (S.faults self.old.source) (S.faults self.new.source)) }
        ensures sent { Keeps (K.held self.old.sink) (K.held self.new.sink) }
        ensures other { K.faults self.new.sink ≡ K.faults self.old.sink }
        ensures here { holds_signal self.old ≡ true → self.new.source ≡ self.old.source }
    {
        if self.drains {
            self.drains = false;
            return Ok(Signal::Drain);
        }
        self.next_of_input()
    }

    fn put(&mut self, b: u8) -> Result<(), Failed> {
        match self.sink.write(&[b]) {
            Ok(_) => Ok(()),
            Err(failed) => Err(failed),
        }
    }

    fn put_all(&mut self, bytes: &[u8]) -> Result<(), Failed> {
        write_all(&mut self.sink, bytes)
    }

    ghost none_came = { λ p. came-none S.left p };

    ghost more_came = { λ p q r first second came later. came-more S.left p q r first second came later };
}
