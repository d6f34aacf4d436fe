//! The parts of an initiator's byte buffer that hold commands and replies.
ghost use Rattle.std.specs.Prelude.{◌≡◌, ◌+◌, ◌<◌, ◌≤◌, ◌^◌, ◌++◌, length, vec_capacity};
ghost use Rattle.df1_node.specs.Commands.{IsPart, part_of};

/// A range of the kept bytes.
#[derive(Clone, Copy, Debug)]
pub(crate) struct Part {
    pub start: u32,
    pub end: u32,
}

impl Part {
    /// Returns its bytes.
    pub fn of(self, bytes: &[u8]) -> &[u8]
        requires { IsPart bytes.now self }
        ensures { result.now ≡ part_of bytes.now self }
    {
        &bytes[self.start as usize..self.end as usize]
    }
}

/// Appends bytes to the kept ones, which have space for them, and returns their part.
pub(crate) fn append(kept: &mut Vec<u8>, bytes: &[u8]) -> Part
    requires room { length kept.old.items + length bytes.now ≤ vec_capacity kept.old }
    requires few { length kept.old.items + length bytes.now < 2 ^ 32 }
    ensures items { kept.new.items ≡ kept.old.items ++ bytes.now }
    ensures capacity { vec_capacity kept.old ≤ vec_capacity kept.new }
    ensures part { result ≡ record { start = length kept.old.items; end = length kept.old.items + length bytes.now } }
{
    let start = kept.len() as u32;
    kept.extend_from_slice(bytes).unwrap();
    Part {
        start,
        end: start + bytes.len() as u32,
    }
}
