//! A sink in memory, which fails when it is full and at the calls that it is set up to fail at.
ghost use Rattle.std.specs.Prelude.{◌≡◌, ◌<◌, ◌≤◌, ◌↔◌, List, [], Some, ℕ, Result, min, max, length, take, IsTrue, IsErr, IfOk, OnOk, OnErr, nat_lt, ◌==◌, ◌&&◌};
ghost use Rattle.std.specs.Io.KnownBytes.{Keeps};
ghost use Rattle.df1_base.specs.Outside.{Rose, Put};
ghost use Rattle.df1_base.specs.InMemory.{refuses_next, taken, after_write};

use crate::{Failed, NoMemory, Sink};
use std::alloc::Global;
use std::marker::Model;

/// A sink that holds up to `room` bytes.
pub struct BytesOut {
    bytes: Vec<u8>,
    room: usize,
    piece: usize,
    calls: u64,
    fail: Vec<u64>,
    faults: u64,
}

// By hand, so that whoever drops one proves nothing of its parts.
impl Drop for BytesOut {
    fn drop(self) {
        let BytesOut {
            bytes: _bytes,
            room: _,
            piece: _,
            calls: _,
            fail: _fail,
            faults: _,
        } = self;
    }
}

impl Model for BytesOut {
    ghost use Rattle.std.specs.Prelude.{◌<◌, ◌≤◌, vec_len, vec_capacity};
    ghost use Rattle.df1_base.specs.InMemory.{Taker};

    ghost Value = { Taker };

    ghost view = { λ s. record { held = s.bytes.items; room = s.room; piece = s.piece; calls = s.calls; fail = s.fail.items; faults = s.faults } };

    ghost invariant = { λ s. (vec_len s.bytes ≤ s.room) × (s.room ≤ vec_capacity s.bytes) × (0 < s.piece) };
}

impl BytesOut {
    /// Returns an empty sink with room for `room` bytes. It takes at most `piece` of them at a call, or 1 if `piece` is
    /// 0. Calls are counted from 1, and each whose number is in `fail` fails.
    pub fn new(alloc: Global, room: usize, piece: usize, fail: &[u64]) -> Result<Self, NoMemory>
        ensures { IfOk result (λ sink. sink ≡ record { held = []; room = room; piece = max piece 1; calls = 0; fail = fail.now; faults = 0 }) }
    {
        Ok(BytesOut {
            bytes: Vec::with_capacity(alloc, room)?,
            room,
            piece: piece.max(1),
            calls: 0,
            fail: fail.to_vec(alloc)?,
            faults: 0,
        })
    }

    /// Returns the bytes that were taken.
    pub fn held(&self) -> &[u8]
        ensures { result.now ≡ self.now.held }
    {
        &self.bytes
    }
}

impl Sink for BytesOut {
    ghost held = { λ s. Some s.held };

    ghost faults = { λ s. s.faults };

    fn write(&mut self, from: &[u8]) -> Result<usize, Failed>
        ensures told { IsErr result ↔ IsTrue (refuses_next self.old from.now) }
        ensures count { IfOk result (λ count. count ≡ taken self.old (length from.now)) }
        ensures after { self.new ≡ after_write self.old from.now }
        ensures bound { IfOk result (λ count. count ≤ length from.now) }
        ensures some { IfOk result (λ count. 0 < length from.now → 0 < count) }
        ensures put { IfOk result (λ count. Put (Some self.old.held) (Some self.new.held) (take count from.now)) }
        ensures failed { OnErr result (Keeps (Some self.old.held) (Some self.new.held)) }
        ensures calm { OnOk result (self.new.faults ≡ self.old.faults) }
        ensures later { self.old.faults ≤ self.new.faults }
        ensures cause { OnErr result (Rose self.old.faults self.new.faults) }
    {
        self.calls = self.calls.saturating_add(1);
        let room = self.room - self.bytes.len();
        if self.fail.contains(&self.calls) || finds_no_room(room, from) {
            self.faults = self.faults.saturating_add(1);
            return Err(Failed);
        }
        let count = from.len().min(room).min(self.piece);
        self.bytes.extend_from_slice(&from[..count]).unwrap();
        Ok(count)
    }
}

/// Returns whether there are bytes to take and no room for any of them.
fn finds_no_room(room: usize, from: &[u8]) -> bool
    ensures { result ≡ ((room == 0) && nat_lt 0 (length from.now)) }
{
    room == 0 && !from.is_empty()
}
