//! The parts that an end is made of, as C passes them. A member that is a key of an end may have the values that
//! `values.rt` says. Members that come later take the places of reserved ones, so 0 then stands for the default value.

/// How many reserved members a part has.
pub(crate) const RESERVED: usize = 4;

/// How many reserved members a master's link has.
pub(crate) const RESERVED_OF_MASTER: usize = 3;

/// Members that are 0.
pub type Reserved = [u32; RESERVED];

/// A full-duplex link.
#[repr(C)]
#[derive(Clone, Copy)]
pub struct DuplexLink {
    /// Whether CRC, and not BCC, ends its frames.
    pub crc: bool,
    /// Whether responses may stand inside the frames that the end sends.
    pub embed: bool,
    /// The ticks without a response until it asks with an ENQ.
    pub ack_ticks: u32,
    /// How many NAKs one message may have.
    pub max_naks: u32,
    /// How many ENQs one message may cost.
    pub max_enqs: u32,
    pub reserved: Reserved,
}

/// The link of a half-duplex master.
#[repr(C)]
#[derive(Clone, Copy)]
pub struct MasterLink {
    /// Whether CRC, and not BCC, ends its messages.
    pub crc: bool,
    /// The ticks of a wait for ACK.
    pub ack_ticks: u32,
    /// How often a message is sent again.
    pub max_resends: u32,
    /// The ticks of a wait after a poll.
    pub poll_ticks: u32,
    /// 1 if the master carries messages between its stations, and 0 otherwise.
    pub routes: u32,
    pub reserved: [u32; RESERVED_OF_MASTER],
}

/// The link of a half-duplex slave. Its station number is the address of its node, neither 16 nor 255.
#[repr(C)]
#[derive(Clone, Copy)]
pub struct SlaveLink {
    /// Whether CRC, and not BCC, ends its messages.
    pub crc: bool,
    /// How often a message is sent.
    pub max_sends: u32,
    pub reserved: Reserved,
}

/// The node behind an end.
#[repr(C)]
#[derive(Clone, Copy)]
pub struct NodeParts {
    /// SRC of its commands.
    pub address: u8,
    /// TNS of its first command.
    pub tns: u16,
    /// The ticks that a reply may take.
    pub reply_ticks: u32,
    /// How many replies may wait.
    pub room: u32,
    /// Whether there is a file for the basic reads and writes.
    pub has_compat: bool,
    /// Its number.
    pub compat: u16,
    /// How many commands may be outstanding, and 0 for the default value.
    pub window: u32,
    /// How many commands of one source may be outstanding, and 0 for the default value.
    pub per_source: u32,
    pub reserved: Reserved,
}

/// A data file.
#[repr(C)]
#[derive(Clone, Copy)]
pub struct FileParts {
    /// Its number.
    pub number: u16,
    /// Its type byte.
    pub kind: u8,
    /// How many elements it has: 1 to 1,000.
    pub elements: u16,
}

/// A word of a data file and its value.
#[repr(C)]
#[derive(Clone, Copy)]
pub struct WordParts {
    /// The number of the file.
    pub file: u16,
    /// The word, from 0.
    pub index: u32,
    /// Its value.
    pub value: u16,
}
