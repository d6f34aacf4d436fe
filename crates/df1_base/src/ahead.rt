//! Bytes that were taken from a source ahead of their use.
ghost use Rattle.std.specs.Prelude.{◌≡◌, ◌<◌, ◌≤◌, ◌+◌, ◌-◌, List, ℕ, [], ◌++◌, length, take, drop, slice_get, None, IfOk, OnOk, OnErr};
ghost use Rattle.std.specs.Io.KnownBytes.{Keeps, IsAtEnd};
ghost use Rattle.df1_base.specs.Outside.{Rose, Took};

use crate::{Failed, Source};
use std::marker::Model;

/// The most bytes that one read asks for.
const PIECE: usize = 4096;

/// The bytes that were taken and not used yet, at most 4,096.
#[derive(Drop)]
pub(crate) struct Ahead {
    bytes: [u8; PIECE],
    at: usize,
    end: usize,
}

impl Model for Ahead {
    ghost use Rattle.std.specs.Prelude.{List, ℕ, ◌≤◌, ◌-◌, take, drop};

    ghost Value = { List ℕ };

    ghost view = { λ a. take (a.end - a.at) (drop a.at a.bytes) };

    ghost invariant = { λ a. (a.at ≤ a.end) × (a.end ≤ 4096) };
}

impl Ahead {
    /// Returns an `Ahead` that holds no bytes.
    pub fn new() -> Self
        ensures { result ≡ [] }
    {
        Ahead {
            bytes: [0; PIECE],
            at: 0,
            end: 0,
        }
    }

    /// Returns the byte at this place, 0 or 1, after one read if there are too few bytes. Returns None only at the end
    /// of the input. It is inlined, since most calls find the byte there.
    #[inline(always)]
    pub fn peek<S: Source>(&mut self, place: usize, source: &mut S) -> Result<Option<u8>, Failed>
        requires near { place ≤ 1 }
        requires after { place ≤ length self.old }
        ensures took { OnOk result ((more : List ℕ) × Took (S.left source.old) (S.left source.new) more × (self.new ≡ self.old ++ more) × (length more ≤ 4096)) }
        ensures byte { IfOk result (λ byte. byte ≡ slice_get self.new place) }
        ensures end { IfOk result (λ byte. byte ≡ None → (length self.new ≡ place) × IsAtEnd (S.left source.new)) }
        ensures here { place < length self.old → (source.new ≡ source.old) × (self.new ≡ self.old) }
        ensures failed { OnErr result (Keeps (S.left source.old) (S.left source.new) × (self.new ≡ self.old)) }
        ensures none_there { OnErr result (length self.old ≤ place) }
        ensures few { length self.new ≤ 4096 }
        ensures calm { OnOk result (S.faults source.new ≡ S.faults source.old) }
        ensures later { S.faults source.old ≤ S.faults source.new }
        ensures cause { OnErr result (Rose (S.faults source.old) (S.faults source.new)) }
    {
        if self.len() <= place {
            self.refill(source)?;
        }
        Ok(self.get(place))
    }

    /// Drops the first `count` bytes.
    pub fn skip(&mut self, count: usize)
        requires { count ≤ length self.old }
        ensures { self.new ≡ drop count self.old }
    {
        self.at += count;
    }

    /// Returns how many bytes there are.
    pub fn len(&self) -> usize
        ensures count { result ≡ length self.now }
        ensures few { length self.now ≤ 4096 }
    {
        self.end - self.at
    }

    /// Returns the byte at this place.
    fn get(&self, place: usize) -> Option<u8>
        ensures { result ≡ slice_get self.now place }
    {
        self.bytes[self.at..self.end].get(place).copied()
    }

    /// Reads once, when there is at most one byte. It isn't inlined, since few calls read.
    #[inline(never)]
    fn refill<S: Source>(&mut self, source: &mut S) -> Result<(), Failed>
        requires { length self.old ≤ 1 }
        ensures took { OnOk result ((more : List ℕ) × Took (S.left source.old) (S.left source.new) more × (self.new ≡ self.old ++ more) × (length more ≤ 4096)
            × (more ≡ [] → IsAtEnd (S.left source.new))) }
        ensures few { length self.new ≤ 4096 }
        ensures failed { OnErr result (Keeps (S.left source.old) (S.left source.new) × (self.new ≡ self.old)) }
        ensures calm { OnOk result (S.faults source.new ≡ S.faults source.old) }
        ensures later { S.faults source.old ≤ S.faults source.new }
        ensures cause { OnErr result (Rose (S.faults source.old) (S.faults source.new)) }
    {
        let count = self.end - self.at;
        to_front(&mut self.bytes, self.at, self.end);
        self.at = 0;
        self.end = count;
        self.end += source.read(&mut self.bytes[count..])?;
        Ok(())
    }
}

/// Copies the bytes from one place up to another to the front.
fn to_front(bytes: &mut [u8], start: usize, end: usize)
    requires order { start ≤ end }
    requires within { end ≤ length bytes.old }
    ensures { take (end - start) bytes.new ≡ take (end - start) (drop start bytes.old) }
{
    bytes.copy_within(start..end, 0);
}
