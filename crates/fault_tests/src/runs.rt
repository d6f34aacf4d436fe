//! Runs that end well if no device fails: what is written once each part of the input is read, and what is written at
//! the end.
use df1_base::{BytesIn, BytesOut};
use df1_shelf::ShelfMem;
use df1_tool::{Ran, run};
use std::alloc::Global;
use std::test::Fail;

/// A part of an input, and what is written for it.
pub(crate) type Part = (&'static [u8], &'static [u8]);

/// A run: its words, the plan `p`, the parts of its input, what is written at the input's end, the status and the note.
#[derive(Clone, Copy, Drop)]
pub(crate) struct Run {
    pub(crate) words: &'static [&'static str],
    pub(crate) plan: &'static str,
    pub(crate) parts: &'static [Part],
    pub(crate) last: &'static [u8],
    pub(crate) status: u8,
    pub(crate) note: &'static str,
}

/// A write over a full-duplex line, with its reply.
pub(crate) const REPLAY: Run = Run {
    words: &["replay"],
    plan: "",
    parts: &[
        (b"file b 7 89 16\n", b""),
        (b"ai 0FAA02078900003412\n", b""),
        (
            b"ak 99\n",
            b"a sent 100201000F000100AA0207890000341210036D\n",
        ),
        (b"ad 99\n", b"b exec 01000F000100AA02078900003412\n"),
        (b"bk 99\n", b"b sent 1006100200014F0001001003AF\n"),
        (b"bd 99\n", b"a answered 1 00014F000100\n"),
        (b"ak 99\n", b"a sent 1006\n"),
        (b"ad 99\n", b""),
        (b"end\n", b""),
    ],
    last: b"b word 7 0 1234\ndeceived 0\n",
    status: 0,
    note: "",
};

/// A write to a polled station, with its reply.
pub(crate) const POLLED: Run = Run {
    words: &["replay"],
    plan: "",
    parts: &[
        (b"set mode half\n", b""),
        (b"station 3\n", b""),
        (b"file 3 7 89 16\n", b""),
        (b"mi 3 0FAA02078900003412\n", b""),
        (
            b"mk 22\n",
            b"m sent 100103100203000F000100AA02078900003412100368\n",
        ),
        (b"md 3 22\n", b"3 exec 03000F000100AA02078900003412\n"),
        (b"3k 2\n", b"3 sent 1006\n"),
        (b"3d 2\n", b""),
        (b"mt\n", b""),
        (b"mk 4\n", b"m sent 100503FD\n"),
        (b"md 3 4\n", b""),
        (b"3k 11\n", b"3 sent 100200034F0001001003AD\n"),
        (b"3d 11\n", b"m answered 1 00034F000100\n"),
        (b"end\n", b""),
    ],
    last: b"3 word 7 0 1234\ndeceived 0\n",
    status: 0,
    note: "",
};

/// A dissection of a stray byte, an ACK, a frame and the start of another.
pub(crate) const DISSECT: Run = Run {
    words: &["dissect", "full", "bcc"],
    plan: "",
    parts: &[
        (&[0x55], b"0 0 stray 55\n"),
        (&[0x10, 0x06], b"1 2 ack\n"),
        (
            &[
                0x10, 0x02, 0x08, 0x09, 0x06, 0x00, 0x02, 0x04, 0x03, 0x10, 0x03, 0xE0,
            ],
            b"3 14 good dst=08 src=09 cmd=06 sts=00 tns=0402 status 03\n",
        ),
        (&[0x10, 0x02, 0x01], b""),
    ],
    last: b"15 17 open\n",
    status: 0,
    note: "",
};

/// The counts of the same.
pub(crate) const CHECK: Run = Run {
    words: &["check", "full", "bcc"],
    plan: "",
    parts: &[
        (&[0x55], b""),
        (&[0x10, 0x06], b""),
        (
            &[
                0x10, 0x02, 0x08, 0x09, 0x06, 0x00, 0x02, 0x04, 0x03, 0x10, 0x03, 0xE0,
            ],
            b"",
        ),
        (&[0x10, 0x02, 0x01], b""),
    ],
    last: b"heard 3 bad 1 open 3\n",
    status: 1,
    note: "",
};

/// A command that a plan issues, its ACK and its reply.
pub(crate) const ISSUE: Run = Run {
    words: &["issue", "p"],
    plan: "node = 0\npeer = 1\nissue = [\"060055\"]\n",
    parts: &[
        (
            &[0x03, 0x00],
            &[
                0x10, 0x02, 0x01, 0x00, 0x06, 0x00, 0x01, 0x00, 0x00, 0x55, 0x10, 0x03, 0xA3,
            ],
        ),
        (
            &[
                0x00, 0x10, 0x00, 0x06, 0x00, 0x10, 0x00, 0x02, 0x00, 0x00, 0x00, 0x01, 0x00, 0x46,
                0x00, 0x00, 0x00, 0x01, 0x00, 0x00, 0x00, 0x55, 0x00, 0x10, 0x00, 0x03, 0x00, 0x63,
            ],
            b"",
        ),
        (&[0x03, 0x00], &[0x10, 0x06]),
    ],
    last: b"",
    status: 0,
    note: "1 answered 00014600010055\n",
};

/// The forty conformance cases, which read nothing.
pub(crate) const VECTORS: Run = Run {
    words: &["vectors"],
    plan: "",
    parts: &[],
    last: b"cases 40\n",
    status: 0,
    note: "",
};

/// The call of each device that fails, if one does: 0 for none.
#[derive(Clone, Copy, Drop)]
pub(crate) struct Failing {
    pub(crate) read: u64,
    pub(crate) write: u64,
    pub(crate) note: u64,
}

impl Run {
    /// Returns the whole input.
    pub(crate) fn input(&self, alloc: Global) -> Result<Vec<u8>, Fail> {
        let mut input = Vec::new(alloc);
        for (bytes, _) in self.parts {
            input.extend_from_slice(bytes)?;
        }
        Ok(input)
    }

    /// Returns what is written for the first `taken` bytes of the input.
    pub(crate) fn written(&self, alloc: Global, taken: usize) -> Result<Vec<u8>, Fail> {
        let mut written = Vec::new(alloc);
        let mut left = taken;
        for (bytes, told) in self.parts {
            if bytes.len() > left {
                break;
            }
            left -= bytes.len();
            written.extend_from_slice(told)?;
        }
        Ok(written)
    }

    /// Returns what is written for the whole input.
    pub(crate) fn all(&self, alloc: Global) -> Result<Vec<u8>, Fail> {
        let mut all = self.written(alloc, usize::MAX)?;
        all.extend_from_slice(self.last)?;
        Ok(all)
    }

    /// Runs the program, one byte per call, with these calls failing.
    pub(crate) fn ran(
        &self,
        alloc: Global,
        failing: Failing,
    ) -> Result<Ran<ShelfMem, BytesIn, BytesOut, BytesOut>, Fail> {
        let mut words = Vec::new(alloc);
        for word in self.words {
            words.push(String::from_str(alloc, word)?)?;
        }
        let mut shelf = ShelfMem::new(alloc);
        shelf.add("p", self.plan.as_bytes(), false)?;
        let input = self.input(alloc)?;
        Ok(run(
            alloc,
            &words,
            shelf,
            BytesIn::new(alloc, &input, 1, &[failing.read])?,
            BytesOut::new(alloc, 4000, 1, &[failing.write])?,
            BytesOut::new(alloc, 4000, 1, &[failing.note])?,
        ))
    }
}
