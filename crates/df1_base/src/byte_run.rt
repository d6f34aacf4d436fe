//! A source that returns one byte again and again, and never fails.
ghost use Rattle.std.specs.Prelude.{◌≡◌, ◌<◌, ◌≤◌, ◌-◌, Some, Result, min, length, take, replicate, IsOk, IfOk, OnErr};
ghost use Rattle.std.specs.Io.KnownBytes.{Keeps, IsAtEnd};
ghost use Rattle.df1_base.specs.Outside.{Took};

use crate::{Failed, Source};
use std::marker::Model;

/// A source that returns one byte a number of times. It stores no bytes, whatever the number.
#[derive(Drop)]
pub struct ByteRun {
    byte: u8,
    left: u64,
}

impl Model for ByteRun {
    ghost use Rattle.df1_base.specs.InMemory.{Repeated};

    ghost Value = { Repeated };

    ghost view = { λ s. record { byte = s.byte; left = s.left } };
}

impl ByteRun {
    /// Returns a source of this byte, `count` times.
    pub fn new(b: u8, count: u64) -> Self
        ensures { result ≡ record { byte = b; left = count } }
    {
        ByteRun {
            byte: b,
            left: count,
        }
    }
}

impl Source for ByteRun {
    ghost left = { λ s. Some (replicate s.left s.byte) };

    ghost faults = { λ s. 0 };

    fn read(&mut self, into: &mut [u8]) -> Result<usize, Failed>
        ensures never { IsOk result }
        ensures count { IfOk result (λ count. count ≡ min self.old.left (length into.old)) }
        ensures after { self.new ≡ record { byte = self.old.byte; left = self.old.left - length into.old } }
        ensures bound { IfOk result (λ count. count ≤ length into.new) }
        ensures took { IfOk result (λ count. Took (Some (replicate self.old.left self.old.byte)) (Some (replicate self.new.left self.new.byte)) (take count into.new)) }
        ensures end { IfOk result (λ count. count ≡ 0 → 0 < length into.new → IsAtEnd (Some (replicate self.new.left self.new.byte))) }
        ensures failed { OnErr result (Keeps (Some (replicate self.old.left self.old.byte)) (Some (replicate self.new.left self.new.byte))) }
    {
        let size = into.len() as u64;
        let count = self.left.min(size) as usize;
        into[..count].fill(self.byte);
        self.left -= count as u64;
        Ok(count)
    }
}
