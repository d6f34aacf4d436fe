//! A sink in front of another one, to which it passes on what it takes in pieces of 4,096 bytes.
ghost use Rattle.std.specs.Prelude.{◌≡◌, ◌≢◌, ◌<◌, ◌≤◌, ◌-◌, ◌++◌, [], IsOk, OnOk, OnErr, IfOk, length, min, take, drop};
ghost use Rattle.std.specs.Io.KnownBytes.{Keeps};
ghost use Rattle.df1_base.specs.Outside.{Rose, Put, Later};

use arrayvec::ArrayVec;
use df1_base::{Failed, Sink};

/// The most bytes that wait.
pub const PIECE: usize = 4096;

/// A sink in front of another one. Bytes wait in it until there are 4,096, or until it is flushed. What waits when it
/// is dropped is lost.
#[derive(Drop)]
pub struct Buffered<'a, K: Sink> {
    out: &'a mut K,
    waiting: ArrayVec<u8, PIECE>,
}

impl<'a, K: Sink> Buffered<'a, K> {
    ghost use Rattle.df1_buffer.specs.Buffered.{buffer_out, buffer_waiting, buffer_name, buffer_mark, buffer_held, buffer_faults};

    /// Returns a buffer in which nothing waits, in front of `out`.
    pub fn new(out: &'a mut K) -> Self
        ensures same_reference { buffer_name result ≡ out.entry.ghost_name }
        ensures out { buffer_out result ≡ out.old }
        ensures none { buffer_waiting result ≡ [] }
    {
        Buffered {
            out,
            waiting: ArrayVec::new(),
        }
    }

    /// Passes on all that waits. If the sink fails, what it didn't take still waits: at least one byte. If nothing
    /// waits, it succeeds, and nothing happens.
    #[inline(never)]
    pub fn flush(&mut self) -> Result<(), Failed>
        ensures none { OnOk result (buffer_waiting self.new ≡ []) }
        ensures waits { OnErr result (buffer_waiting self.new ≢ []) }
        ensures idle { buffer_waiting self.old ≡ [] → IsOk result × (self.new ≡ self.old) }
        ensures kept { Keeps (buffer_held K.held self.old) (buffer_held K.held self.new) }
        ensures calm { OnOk result (buffer_faults K.faults self.new ≡ buffer_faults K.faults self.old) }
        ensures later { Later (buffer_mark K.held K.mark self.old) (buffer_mark K.held K.mark self.new) (buffer_faults K.faults self.old) (buffer_faults K.faults self.new) }
        ensures cause { OnErr result (Rose (buffer_faults K.faults self.old) (buffer_faults K.faults self.new)) }
    {
        while !self.waiting.is_empty() {
            let count = self.out.write(&self.waiting)?;
            drop_front(&mut self.waiting, count);
        }
        Ok(())
    }
}

impl<K: Sink> Sink for Buffered<'_, K> {
    ghost use Rattle.df1_buffer.specs.Buffered.{buffer_mark, buffer_held, buffer_faults, buffer_out, buffer_waiting};

    ghost held = { buffer_held K.held };

    ghost faults = { buffer_faults K.faults };

    ghost mark = { buffer_mark K.held K.mark };

    fn write(&mut self, from: &[u8]) -> Result<usize, Failed>
        ensures waits { length (buffer_waiting self.old) < 4096 → buffer_out self.new ≡ buffer_out self.old }
        ensures takes { length (buffer_waiting self.old) < 4096 → IfOk result (λ count. (count ≡ min (length from.now) (4096 - length (buffer_waiting self.old))) × (buffer_waiting self.new ≡ buffer_waiting self.old ++ take count from.now)) }
        ensures succeeds { length (buffer_waiting self.old) < 4096 → IsOk result }
        ensures full { length (buffer_waiting self.old) ≡ 4096 → 0 < length from.now → IfOk result (λ count. (count ≡ min (length from.now) 4096) × (buffer_waiting self.new ≡ take count from.now)) }
        ensures bound { IfOk result (λ count. count ≤ length from.now) }
        ensures some { IfOk result (λ count. 0 < length from.now → 0 < count) }
        ensures put { IfOk result (λ count. Put (buffer_held K.held self.old) (buffer_held K.held self.new) (take count from.now)) }
        ensures failed { OnErr result (Keeps (buffer_held K.held self.old) (buffer_held K.held self.new)) }
        ensures calm { OnOk result (buffer_faults K.faults self.new ≡ buffer_faults K.faults self.old) }
        ensures later { Later (buffer_mark K.held K.mark self.old) (buffer_mark K.held K.mark self.new) (buffer_faults K.faults self.old) (buffer_faults K.faults self.new) }
        ensures cause { OnErr result (Rose (buffer_faults K.faults self.old) (buffer_faults K.faults self.new)) }
    {
        if self.waiting.try_extend_from_slice(from).is_ok() {
            return Ok(from.len());
        }
        if self.waiting.is_full() {
            self.flush()?;
        }
        let count = from.len().min(self.waiting.remaining_capacity());
        self.waiting.try_extend_from_slice(&from[..count]).unwrap();
        Ok(count)
    }
}

/// Drops bytes at the front, and moves the others there.
fn drop_front(bytes: &mut ArrayVec<u8, PIECE>, count: usize)
    requires { count ≤ length bytes.old.items }
    ensures { bytes.new.items ≡ drop count bytes.old.items }
{
    bytes.drain(..count);
}
