//! A port in memory, which fails at the calls that it is set up to fail at.
ghost use Rattle.std.specs.Prelude.{◌≡◌, ◌↔◌, ◌≤◌, ◌+◌, [], ◌∷◌, ◌++◌, Some, length, true, ⊤, IsTrue, IsErr, IfOk, OnOk, OnErr};
ghost use Rattle.std.specs.Io.KnownBytes.{Keeps};
ghost use Rattle.df1_base.specs.InMemory.{Exchange, after_next, after_write, next_fails, next_signal, refuses_next, up_to_last};
ghost use Rattle.df1_base.specs.Outside.{Rose, Put};
ghost use Rattle.df1_base.specs.Signals.{Gave, goes_on};

use crate::{BytesOut, Failed, NoMemory, Port, Signal, Sink};
use std::alloc::Global;
use std::marker::Model;

/// A port that returns signals, and then End, and holds up to `room` bytes that were put.
pub struct PortMem {
    signals: Vec<Signal>,
    at: usize,
    sink: BytesOut,
    calls: u64,
    fail: Vec<u64>,
    faults: u64,
}

// By hand, so that whoever drops one proves nothing of its parts.
impl Drop for PortMem {
    fn drop(self) {
        let PortMem {
            signals: _signals,
            at: _,
            sink: _sink,
            calls: _,
            fail: _fail,
            faults: _,
        } = self;
    }
}

impl Model for PortMem {
    ghost use Rattle.std.specs.Prelude.{◌≤◌, vec_len, drop};
    ghost use Rattle.df1_base.specs.InMemory.{Exchange};

    ghost Value = { Exchange };

    ghost view = { λ p. record { signals = drop p.at p.signals.items; sink = p.sink; calls = p.calls; fail = p.fail.items; faults = p.faults } };

    ghost invariant = { λ p. p.at ≤ vec_len p.signals };
}

impl PortMem {
    /// Returns a port that returns these signals up to the first after which none follows, which it then returns at
    /// each call; without such a one it returns End at each call after the last. It has room for `room` bytes, and a
    /// `put` into a full one fails. The calls of `next` and those of `put` are counted separately, each from 1: a
    /// `next` whose number is in `fail_next` fails, and a `put` whose number is in `fail_put`.
    pub fn new(
        alloc: Global,
        signals: &[Signal],
        room: usize,
        fail_next: &[u64],
        fail_put: &[u64],
    ) -> Result<Self, NoMemory>
        ensures { IfOk result (λ port. port ≡ record { signals = signals.now; sink = record { held = []; room = room; piece = 1; calls = 0; fail = fail_put.now; faults = 0 }; calls = 0; fail = fail_next.now; faults = 0 }) }
    {
        Ok(PortMem {
            signals: signals.to_vec(alloc)?,
            at: 0,
            sink: BytesOut::new(alloc, room, 1, fail_put)?,
            calls: 0,
            fail: fail_next.to_vec(alloc)?,
            faults: 0,
        })
    }

    /// Returns the bytes that were put.
    pub fn held(&self) -> &[u8]
        ensures { result.now ≡ self.now.sink.held }
    {
        self.sink.held()
    }
}

impl Port for PortMem {
    ghost use Rattle.std.specs.Prelude.{◌≡◌, [], ◌∷◌, ◌++◌, Some, length, refl, ⊤};
    ghost use Rattle.df1_base.specs.InMemory.{up_to_last};
    ghost use Rattle.df1_base.specs.PortLaws.{split-more};

    ghost came = { λ p signals q. up_to_last p.signals ≡ signals ++ up_to_last q.signals };

    ghost ends_with = { λ p signal. up_to_last p.signals ≡ signal ∷ [] };

    ghost dry = { λ _. ⊤ };

    ghost sent = { λ p. Some p.sink.held };

    ghost most = { λ p. length p.signals };

    ghost next_faults = { λ p. p.faults };

    ghost put_faults = { λ p. p.sink.faults };

    fn next(&mut self) -> Result<Signal, Failed>
        ensures told { IsErr result ↔ IsTrue (next_fails self.old) }
        ensures signal { IfOk result (λ signal. signal ≡ next_signal self.old.signals) }
        ensures after { self.new ≡ after_next self.old }
        ensures gave { IfOk result (λ signal. Gave (λ (p : Exchange) signals (q : Exchange). up_to_last p.signals ≡ signals ++ up_to_last q.signals) (λ (p : Exchange) signal. up_to_last p.signals ≡ signal ∷ []) self.old self.new signal) }
        ensures failed { OnErr result (up_to_last self.old.signals ≡ up_to_last self.new.signals) }
        ensures dry { OnErr result ⊤ }
        ensures sent { Keeps (Some self.old.sink.held) (Some self.new.sink.held) }
        ensures fewer { IfOk result (λ signal. goes_on signal ≡ true → length self.new.signals + 1 ≤ length self.old.signals) }
        ensures no_more { length self.new.signals ≤ length self.old.signals }
        ensures calm { OnOk result (self.new.faults ≡ self.old.faults) }
        ensures later { self.old.faults ≤ self.new.faults }
        ensures cause { OnErr result (Rose self.old.faults self.new.faults) }
        ensures other { self.new.sink.faults ≡ self.old.sink.faults }
    {
        self.calls = self.calls.saturating_add(1);
        if self.fail.contains(&self.calls) {
            self.faults = self.faults.saturating_add(1);
            return Err(Failed);
        }
        let Some(signal) = self.signals.get(self.at).copied() else {
            return Ok(Signal::End);
        };
        if signal.goes_on() {
            self.at += 1;
        }
        Ok(signal)
    }

    fn put(&mut self, b: u8) -> Result<(), Failed>
        ensures told { IsErr result ↔ IsTrue (refuses_next self.old.sink (b ∷ [])) }
        ensures after { self.new ≡ record self.old { sink = after_write self.old.sink (b ∷ []) } }
        ensures put { OnOk result (Put (Some self.old.sink.held) (Some self.new.sink.held) (b ∷ [])) }
        ensures failed { OnErr result (Keeps (Some self.old.sink.held) (Some self.new.sink.held)) }
        ensures none_came { up_to_last self.old.signals ≡ up_to_last self.new.signals }
        ensures no_more { length self.new.signals ≤ length self.old.signals }
        ensures calm { OnOk result (self.new.sink.faults ≡ self.old.sink.faults) }
        ensures later { self.old.sink.faults ≤ self.new.sink.faults }
        ensures cause { OnErr result (Rose self.old.sink.faults self.new.sink.faults) }
        ensures other { self.new.faults ≡ self.old.faults }
    {
        match self.sink.write(&[b]) {
            Ok(_) => Ok(()),
            Err(failed) => Err(failed),
        }
    }

    ghost none_came = { λ p. refl };

    ghost more_came = { λ p q r first second came later. split-more (up_to_last p.signals) (up_to_last q.signals) (up_to_last r.signals) first second came later };
}
