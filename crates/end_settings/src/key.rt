//! The keys of an end, and the table with a row for each. A new key needs a variant, a place in `KEYS`, and a row.
ghost use Rattle.std.specs.Prelude.{◌≡◌};
ghost use Rattle.end_settings.specs.Table.{key_named, row_of};

use crate::row::{First, Roles, Values};

/// A key of an end, in the order of the names' bytes.
#[derive(Clone, Copy, Debug, PartialEq, Eq)]
pub enum EndKey {
    /// Ticks until a missing response is asked for, or counts as missing.
    AckTicks,
    /// Whether responses may stand inside messages.
    Embed,
    /// The number of ENQs after which a message is given up.
    MaxEnqs,
    /// The maximum number of retransmissions after a NAK.
    MaxNaks,
    /// The maximum number of retransmissions of a master's message.
    MaxResends,
    /// The maximum number of transmissions of a slave's message.
    MaxSends,
    /// Its address: DST of what is sent to it.
    Node,
    /// The number of commands of one source that may be outstanding.
    PerSource,
    /// Ticks until a poll counts as unanswered.
    PollTicks,
    /// Ticks until a command counts as unanswered.
    ReplyTicks,
    /// The number of replies that may wait.
    Room,
    /// TNS of its first command.
    Tns,
    /// The number of commands that may be outstanding.
    Window,
}

/// The number of keys.
pub(crate) const COUNT: usize = 13;

/// All keys, in the order of the names' bytes.
pub const KEYS: [EndKey; COUNT] = [
    EndKey::AckTicks,
    EndKey::Embed,
    EndKey::MaxEnqs,
    EndKey::MaxNaks,
    EndKey::MaxResends,
    EndKey::MaxSends,
    EndKey::Node,
    EndKey::PerSource,
    EndKey::PollTicks,
    EndKey::ReplyTicks,
    EndKey::Room,
    EndKey::Tns,
    EndKey::Window,
];

/// The maximum number of ticks.
const TICKS: u32 = 1_000_000;

/// The maximum number of outstanding commands of an end.
const OUT: u32 = 16;

/// Only an end of a full-duplex link.
const DUPLEX: Roles = Roles {
    duplex: true,
    master: false,
    station: false,
    routed_station: false,
};

/// The ends that issue commands.
const ISSUERS: Roles = Roles {
    duplex: true,
    master: true,
    station: false,
    routed_station: true,
};

/// The ends that aren't stations: only they have an address setting and count ticks.
const NO_STATION: Roles = Roles {
    duplex: true,
    master: true,
    station: false,
    routed_station: false,
};

/// Only a master.
const MASTER: Roles = Roles {
    duplex: false,
    master: true,
    station: false,
    routed_station: false,
};

/// Only a station.
const STATION: Roles = Roles {
    duplex: false,
    master: false,
    station: true,
    routed_station: true,
};

/// Every end.
const ALL: Roles = Roles {
    duplex: true,
    master: true,
    station: true,
    routed_station: true,
};

/// The contents of a key's row.
#[derive(Clone, Copy)]
struct Row {
    name: &'static str,
    roles: Roles,
    values: Values,
    first: First,
}

impl Row {
    fn new(name: &'static str, roles: Roles, values: Values, first: First) -> Self
        ensures name { result.name.now ≡ name.now }
        ensures roles { result.roles ≡ roles }
        ensures values { result.values ≡ values }
        ensures first { result.first ≡ first }
    {
        Row {
            name,
            roles,
            values,
            first,
        }
    }
}

impl EndKey {
    /// Returns its row of the table.
    fn row(self) -> Row
        ensures name { result.name.now ≡ (row_of self).name }
        ensures roles { result.roles ≡ (row_of self).roles }
        ensures values { result.values ≡ (row_of self).values }
        ensures first { result.first ≡ (row_of self).first }
    {
        match self {
            EndKey::AckTicks => Row::new(
                "ack_ticks",
                NO_STATION,
                number(1, TICKS),
                First::Value(10),
            ),
            EndKey::Embed => Row::new("embed", DUPLEX, Values::Switch, First::Value(0)),
            EndKey::MaxEnqs => Row::new("max_enqs", DUPLEX, number(0, 255), First::Value(3)),
            EndKey::MaxNaks => Row::new("max_naks", DUPLEX, number(0, 255), First::Value(3)),
            EndKey::MaxResends => Row::new("max_resends", MASTER, number(0, 255), First::Value(3)),
            EndKey::MaxSends => Row::new("max_sends", STATION, number(1, 255), First::Value(3)),
            EndKey::Node => Row::new("node", NO_STATION, number(0, 255), First::Address),
            EndKey::PerSource => Row::new(
                "per_source",
                NO_STATION,
                number(1, OUT),
                First::Value(16),
            ),
            EndKey::PollTicks => Row::new("poll_ticks", MASTER, number(1, TICKS), First::Value(10)),
            EndKey::ReplyTicks => Row::new(
                "reply_ticks",
                NO_STATION,
                number(33, TICKS),
                First::Value(100),
            ),
            EndKey::Room => Row::new("room", ALL, number(2, 64), First::Value(2)),
            EndKey::Tns => Row::new("tns", ISSUERS, number(0, 65_535), First::Value(1)),
            EndKey::Window => Row::new("window", ISSUERS, number(1, OUT), First::Value(1)),
        }
    }

    /// Its name in a script, behind the end, and in a plan.
    pub fn name(self) -> &'static str
        ensures { result.now ≡ (row_of self).name }
    {
        self.row().name
    }

    /// Returns the kinds of end that have it.
    pub fn roles(self) -> Roles
        ensures { result ≡ (row_of self).roles }
    {
        self.row().roles
    }

    /// Returns the values that it may have.
    pub fn values(self) -> Values
        ensures { result ≡ (row_of self).values }
    {
        self.row().values
    }

    /// Returns its default, its value if nothing sets it.
    pub fn first(self) -> First
        ensures { result ≡ (row_of self).first }
    {
        self.row().first
    }

    /// Returns the key of a name.
    pub fn named(name: &[u8]) -> Option<EndKey>
        ensures { result ≡ key_named name.now }
    {
        KEYS.iter()
            .copied()
            .find(|key| name == key.name().as_bytes())
    }
}

/// Returns the numbers from the least to the most.
fn number(least: u32, most: u32) -> Values
    ensures { result ≡ Values.Number least most }
{
    Values::Number { least, most }
}
