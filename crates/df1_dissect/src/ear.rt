//! The decoder of one side of a line: it takes a byte, and returns what results from it.
ghost use Rattle.std.specs.Prelude.{◌≡◌, ◌≤◌, length, take};
ghost use Rattle.df1_frame.specs.Runs.{steps};
ghost use Rattle.df1_dissect.specs.Hearing.{ear_next, ear_of_none, lent_by, turn_of};
ghost use Rattle.df1_dissect.specs.Runs.{ear_inside, turns_in_run};

use crate::kind::{Kind, full_kind, master_kind, slave_kind};
use df1_base::MAX_BODY;
use df1_check::Check;
use df1_frame::Decoder;
use half_frame::{MasterEar, Side, SlaveEar};

/// The decoder of a side.
#[derive(Drop)]
pub(crate) enum Ear {
    Full(Decoder<MAX_BODY>),
    Master(SlaveEar<MAX_BODY>),
    Slave(MasterEar<MAX_BODY>),
}

/// The result of a byte.
#[derive(Clone, Copy, Debug, PartialEq, Eq)]
pub(crate) enum Turn {
    /// Nothing that has a line: the item continues.
    Goes,
    /// An item ends at this byte.
    Ends(Kind),
    /// An item is cut off by a pair that ends at this byte and starts the next item.
    CutsOff(Kind),
    /// A response of two bytes, inside an item that continues.
    Within(Kind),
}

impl Ear {
    /// Creates a decoder that has taken no byte.
    pub(crate) fn new(side: Side, check: Check) -> Ear
        ensures { result ≡ ear_of_none side check }
    {
        match side {
            Side::Full => Ear::Full(Decoder::new(check)),
            Side::Master => Ear::Master(SlaveEar::new(check)),
            Side::Slave => Ear::Slave(MasterEar::new(check)),
        }
    }

    /// Takes a byte.
    #[inline(always)]
    pub(crate) fn hear(&mut self, b: u8) -> Turn
        ensures value { self.new ≡ (ear_next self.old b).0 }
        ensures turn { result ≡ (ear_next self.old b).1 }
    {
        match self {
            Ear::Full(decoder) => turn_of(full_kind(decoder.feed(b)), decoder.inside()),
            Ear::Master(ear) => turn_of(master_kind(ear.feed(b)), ear.inside()),
            Ear::Slave(ear) => turn_of(slave_kind(ear.feed(b)), ear.inside()),
        }
    }

    /// Takes the bytes before the first DLE, in a body or outside, and none elsewhere, and returns how many. In a body
    /// the item continues at them; outside each is an item.
    pub(crate) fn hear_run(&mut self, bytes: &[u8]) -> usize
        ensures most { result ≤ length bytes.now }
        ensures value { self.new ≡ (steps ear_next self.old (take result bytes.now)).0 }
        ensures turns { (steps ear_next self.old (take result bytes.now)).1 ≡ turns_in_run (ear_inside self.old) (take result bytes.now) }
    {
        match self {
            Ear::Full(decoder) => decoder.feed_run(bytes),
            Ear::Master(ear) => ear.feed_run(bytes),
            Ear::Slave(ear) => ear.feed_run(bytes),
        }
    }

    /// Returns whether an item is under way.
    pub(crate) fn inside(&self) -> bool
        ensures { result ≡ ear_inside self.now }
    {
        match self {
            Ear::Full(decoder) => decoder.inside(),
            Ear::Master(ear) => ear.inside(),
            Ear::Slave(ear) => ear.inside(),
        }
    }

    /// Returns the body of what ended at the last byte, if that is a message whose body is reported; otherwise empty.
    pub(crate) fn body(&self) -> &[u8]
        ensures value { result.now ≡ lent_by self.now }
        ensures fits { length result.now ≤ MAX_BODY }
    {
        match self {
            Ear::Full(decoder) => decoder.body(),
            Ear::Master(ear) => ear.body(),
            Ear::Slave(ear) => ear.body(),
        }
    }
}

/// Returns the result of a byte at which this is decoded, and after which an item is under way or none is.
fn turn_of(heard: Option<Kind>, inside: bool) -> Turn
    ensures { result ≡ turn_of heard inside }
{
    match heard {
        None => Turn::Goes,
        Some(kind) if !inside => Turn::Ends(kind),
        Some(kind) if kind.is_response() => Turn::Within(kind),
        Some(kind) => Turn::CutsOff(kind),
    }
}
