//! One case of a table.

/// The kind of result that a case asks for.
#[derive(Clone, Copy, Debug, PartialEq, Eq)]
pub enum Kind {
    /// The BCC of the input: one byte.
    Bcc,
    /// The CRC-16 of the input: two bytes, the low one first.
    Crc,
    /// The frame of the input, which is a body, with a BCC.
    FrameBcc,
    /// The frame of the input, which is a body, with a CRC.
    FrameCrc,
    /// The reply to the input, which is the body of a command, by a station that has executed nothing before.
    Answer,
}

/// An input, and the expected result. Each has at most `L` bytes and stands at the front of its array.
#[derive(Clone, Copy, Debug, PartialEq, Eq)]
pub struct Case<const L: usize> {
    /// The kind of result.
    pub kind: Kind,
    /// The number of bytes of the input.
    pub len: usize,
    /// The input, followed by any bytes.
    pub input: [u8; L],
    /// The number of bytes of the expected result.
    pub want_len: usize,
    /// The expected result, followed by any bytes.
    pub want: [u8; L],
}

impl<const L: usize> Default for Case<L> {
    ghost use Rattle.std.specs.Prelude.{◌≡◌, []};
    ghost use Rattle.vector_suite.specs.Vectors.{shown};

    /// Returns the case of the BCC of no bytes, with no bytes expected.
    fn default() -> Self
        ensures { shown result ≡ record { kind = Kind.Bcc; input = []; want = [] } }
    {
        Case {
            kind: Kind::Bcc,
            len: 0,
            input: [0; L],
            want_len: 0,
            want: [0; L],
        }
    }
}
