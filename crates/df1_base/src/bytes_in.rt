//! A source in memory, which fails at the calls that it is set up to fail at.
ghost use Rattle.std.specs.Prelude.{◌≡◌, ◌<◌, ◌≤◌, ◌↔◌, List, [], Some, ℕ, Result, min, max, length, take, drop, IsTrue, IsErr, IfOk, OnOk, OnErr};
ghost use Rattle.std.specs.Io.KnownBytes.{Keeps, IsAtEnd};
ghost use Rattle.df1_base.specs.Outside.{Rose, Took};
ghost use Rattle.df1_base.specs.InMemory.{fails_next, given, after_read};

use crate::{Failed, NoMemory, Source};
use std::alloc::Global;
use std::marker::Model;

/// A source that returns bytes, some at a call.
pub struct BytesIn {
    bytes: Vec<u8>,
    at: usize,
    piece: usize,
    calls: u64,
    fail: Vec<u64>,
    faults: u64,
}

// By hand, so that whoever drops one proves nothing of its parts.
impl Drop for BytesIn {
    fn drop(self) {
        let BytesIn {
            bytes: _bytes,
            at: _,
            piece: _,
            calls: _,
            fail: _fail,
            faults: _,
        } = self;
    }
}

impl Model for BytesIn {
    ghost use Rattle.std.specs.Prelude.{◌<◌, ◌≤◌, vec_len, drop};
    ghost use Rattle.df1_base.specs.InMemory.{Giver};

    ghost Value = { Giver };

    ghost view = { λ s. record { left = drop s.at s.bytes.items; piece = s.piece; calls = s.calls; fail = s.fail.items; faults = s.faults } };

    ghost invariant = { λ s. (s.at ≤ vec_len s.bytes) × (0 < s.piece) };
}

impl BytesIn {
    /// Returns a source of these bytes, at most `piece` of them at a call, or 1 if `piece` is 0. Calls are counted from
    /// 1, and each whose number is in `fail` fails.
    pub fn new(alloc: Global, bytes: &[u8], piece: usize, fail: &[u64]) -> Result<Self, NoMemory>
        ensures { IfOk result (λ source. source ≡ record { left = bytes.now; piece = max piece 1; calls = 0; fail = fail.now; faults = 0 }) }
    {
        Ok(BytesIn {
            bytes: bytes.to_vec(alloc)?,
            at: 0,
            piece: piece.max(1),
            calls: 0,
            fail: fail.to_vec(alloc)?,
            faults: 0,
        })
    }

    /// Returns the bytes that are left.
    pub fn left(&self) -> &[u8]
        ensures { result.now ≡ self.now.left }
    {
        &self.bytes[self.at..]
    }
}

impl Source for BytesIn {
    ghost left = { λ s. Some s.left };

    ghost faults = { λ s. s.faults };

    fn read(&mut self, into: &mut [u8]) -> Result<usize, Failed>
        ensures told { IsErr result ↔ IsTrue (fails_next self.old) }
        ensures count { IfOk result (λ count. count ≡ given self.old (length into.old)) }
        ensures after { self.new ≡ after_read self.old (length into.old) }
        ensures bound { IfOk result (λ count. count ≤ length into.new) }
        ensures took { IfOk result (λ count. Took (Some self.old.left) (Some self.new.left) (take count into.new)) }
        ensures end { IfOk result (λ count. count ≡ 0 → 0 < length into.new → IsAtEnd (Some self.new.left)) }
        ensures failed { OnErr result (Keeps (Some self.old.left) (Some self.new.left)) }
        ensures calm { OnOk result (self.new.faults ≡ self.old.faults) }
        ensures later { self.old.faults ≤ self.new.faults }
        ensures cause { OnErr result (Rose self.old.faults self.new.faults) }
    {
        self.calls = self.calls.saturating_add(1);
        if self.fail.contains(&self.calls) {
            self.faults = self.faults.saturating_add(1);
            return Err(Failed);
        }
        let left = &self.bytes[self.at..];
        let count = left.len().min(into.len()).min(self.piece);
        into[..count].copy_from_slice(&left[..count]);
        self.at += count;
        Ok(count)
    }
}
