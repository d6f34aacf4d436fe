//! A sink in memory that grows with what is written.
ghost use Rattle.std.specs.Prelude.{◌≡◌, []};

use crate::{Failed, Sink};
use std::alloc::Global;
use std::marker::Model;

/// A sink that keeps its bytes in memory, which grows as needed. A growth that is refused is a fault.
pub struct Collected {
    bytes: Vec<u8>,
    faults: u64,
}

// By hand, so that whoever drops one proves nothing of its parts.
impl Drop for Collected {
    fn drop(self) {
        let Collected {
            bytes: _bytes,
            faults: _,
        } = self;
    }
}

impl Model for Collected {
    ghost use Rattle.df1_base.specs.InMemory.{Collection};

    ghost Value = { Collection };

    ghost view = { λ c. record { held = c.bytes.items; faults = c.faults } };
}

impl Collected {
    /// Returns an empty sink.
    pub fn new(alloc: Global) -> Self
        ensures { result ≡ record { held = []; faults = 0 } }
    {
        Collected {
            bytes: Vec::new(alloc),
            faults: 0,
        }
    }

    /// Returns the bytes.
    pub fn bytes(&self) -> &[u8]
        ensures { result.now ≡ self.now.held }
    {
        &self.bytes
    }

    /// Drops the bytes, and keeps the memory for as many.
    pub fn clear(&mut self)
        ensures { self.new ≡ record self.old { held = [] } }
    {
        self.bytes.clear();
    }
}

impl Sink for Collected {
    ghost use Rattle.std.specs.Prelude.{Some};

    ghost held = { λ c. Some c.held };

    ghost faults = { λ c. c.faults };

    fn write(&mut self, from: &[u8]) -> Result<usize, Failed> {
        match self.bytes.extend_from_slice(from) {
            Ok(()) => Ok(from.len()),
            Err(_) => {
                self.faults = self.faults.saturating_add(1);
                Err(Failed)
            }
        }
    }
}
