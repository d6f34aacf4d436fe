//! The events of a half-duplex line: those of the master, of its stations, and of the queues between them.
ghost use Rattle.std.specs.Prelude.{◌≡◌, IfOk};
ghost use Rattle.script_statement.specs.Statements.{half_issue as the_issue, half_issue_from as the_issue_from, master_take as the_master_take, master_tick as the_master_tick, station_take as the_station_take, half_deliver as the_deliver, half_lose as the_lose, half_alter as the_alter, half_foreign as the_foreign, way_event as the_way_event, way_once as the_way_once, master_times as the_master_times, once_to_station as the_once, to_station_from as the_to_station_from, master_event as the_master_event, to_station as the_to_station, station_once as the_station_once, station_event as the_station_event};

use crate::Bytes;
use crate::event_line::{foreign_of, mask_of, payload_of, source_of, times_of};
use crate::words::{byte_of, hex_of, number_of};
use df1_base::NoMemory;
use std::alloc::Global;

/// One of the two directions between the master and the station of a number.
#[derive(Clone, Copy, Debug, PartialEq, Eq)]
pub enum Way {
    /// From the master to the station.
    ToStation(u32),
    /// From the station to the master.
    ToMaster(u32),
}

/// What happens on a half-duplex line. A field is None if its value was out of range.
#[derive(Drop)]
pub enum HalfEvent {
    /// The master issues a command to a station.
    Issue {
        station: u32,
        payload: Option<Bytes>,
    },
    /// The master issues a command to a station with an explicit SRC.
    IssueFrom {
        station: u32,
        src: Option<u8>,
        payload: Option<Bytes>,
    },
    /// A station issues a command, which the master carries to the station of the number `to`, or accepts itself.
    StationIssue {
        station: u32,
        to: u32,
        payload: Option<Bytes>,
    },
    /// The master sends up to `n` bytes, which go into the queue of each station.
    MasterTake {
        n: Option<u32>,
    },
    /// `n` ticks pass at the master.
    MasterTick {
        n: Option<u32>,
    },
    /// A station sends up to `n` bytes, which go into its queue.
    StationTake {
        station: u32,
        n: Option<u32>,
    },
    /// Up to `n` bytes at the head of a queue arrive.
    Deliver {
        way: Way,
        n: Option<u32>,
    },
    /// Up to `n` bytes at the head of a queue are lost.
    Lose {
        way: Way,
        n: Option<u32>,
    },
    /// The head of a queue is altered.
    Alter {
        way: Way,
        mask: Option<u8>,
    },
    /// Foreign bytes arrive, as if through a queue.
    Foreign {
        way: Way,
        bytes: Option<Bytes>,
    },
}

/// Returns the event of the master that a verb alone makes.
pub(crate) fn master_times(verb: u8, n: Option<u32>) -> Option<HalfEvent>
    ensures { result ≡ the_master_times verb n }
{
    match verb {
        b'k' => master_take(n),
        b't' => master_tick(n),
        _ => None,
    }
}

/// Returns the event of the master with one operand: a number, or for some verbs a station.
pub(crate) fn master_event(verb: u8, operand: &[u8]) -> Option<HalfEvent>
    ensures { result ≡ the_master_event verb operand.now }
{
    match verb {
        b'k' | b't' => master_times(verb, number_of(operand)),
        _ => once_to_station(number_of(operand), verb),
    }
}

/// Returns what happens once in the direction to a station.
fn once_to_station(station: Option<u32>, verb: u8) -> Option<HalfEvent>
    ensures { result ≡ the_once station verb }
{
    way_once(Way::ToStation(station?), verb)
}

/// Returns the event of the master with a station and an operand.
pub(crate) fn to_station(
    alloc: Global,
    station: Option<u32>,
    verb: u8,
    operand: &[u8],
) -> Result<Option<HalfEvent>, NoMemory>
    ensures { IfOk result (λ event. event ≡ the_to_station station verb operand.now) }
{
    match station {
        Some(station) => to_known_station(alloc, station, verb, operand),
        None => Ok(None),
    }
}

/// Returns the event of the master with the station of a number and an operand.
fn to_known_station(
    alloc: Global,
    station: u32,
    verb: u8,
    operand: &[u8],
) -> Result<Option<HalfEvent>, NoMemory>
    ensures { IfOk result (λ event. event ≡ the_to_station (Some station) verb operand.now) }
{
    match verb {
        b'i' => Ok(issue(station, hex_of(alloc, operand)?)),
        _ => way_event(alloc, Way::ToStation(station), verb, operand),
    }
}

/// Returns the event of the master with a station, a source and an operand.
pub(crate) fn to_station_from(
    alloc: Global,
    station: Option<u32>,
    src: Option<u32>,
    verb: u8,
    operand: &[u8],
) -> Result<Option<HalfEvent>, NoMemory>
    ensures { IfOk result (λ event. event ≡ the_to_station_from station src verb operand.now) }
{
    match verb {
        b'i' => Ok(issue_from(station, src, hex_of(alloc, operand)?)),
        _ => Ok(None),
    }
}

/// Returns the event of a station that a verb alone makes.
pub(crate) fn station_once(station: u32, verb: u8) -> Option<HalfEvent>
    ensures { result ≡ the_station_once station verb }
{
    match verb {
        b'k' => Some(HalfEvent::StationTake {
            station,
            n: Some(1),
        }),
        _ => way_once(Way::ToMaster(station), verb),
    }
}

/// Returns the event of a station with an operand.
pub(crate) fn station_event(
    alloc: Global,
    station: u32,
    verb: u8,
    operand: &[u8],
) -> Result<Option<HalfEvent>, NoMemory>
    ensures { IfOk result (λ event. event ≡ the_station_event station verb operand.now) }
{
    match verb {
        b'k' => Ok(station_take(station, number_of(operand))),
        _ => way_event(alloc, Way::ToMaster(station), verb, operand),
    }
}

/// Returns what happens once in a direction.
fn way_once(way: Way, verb: u8) -> Option<HalfEvent>
    ensures { result ≡ the_way_once way verb }
{
    match verb {
        b'd' => Some(HalfEvent::Deliver { way, n: Some(1) }),
        b'x' => Some(HalfEvent::Lose { way, n: Some(1) }),
        _ => None,
    }
}

/// Returns what happens in a direction, with an operand.
fn way_event(
    alloc: Global,
    way: Way,
    verb: u8,
    operand: &[u8],
) -> Result<Option<HalfEvent>, NoMemory>
    ensures { IfOk result (λ event. event ≡ the_way_event way verb operand.now) }
{
    match verb {
        b'd' => Ok(deliver(way, number_of(operand))),
        b'x' => Ok(lose(way, number_of(operand))),
        b'c' => Ok(alter(way, byte_of(operand))),
        b'n' => Ok(foreign(way, hex_of(alloc, operand)?)),
        _ => Ok(None),
    }
}

/// Returns the event that the master issues a command.
fn issue(station: u32, payload: Option<Bytes>) -> Option<HalfEvent>
    ensures { result ≡ the_issue station payload }
{
    Some(HalfEvent::Issue {
        station,
        payload: payload_of(payload?),
    })
}

/// Returns the event that the master issues a command with an explicit SRC.
fn issue_from(station: Option<u32>, src: Option<u32>, payload: Option<Bytes>) -> Option<HalfEvent>
    ensures { result ≡ the_issue_from station src payload }
{
    Some(HalfEvent::IssueFrom {
        station: station?,
        src: source_of(src?),
        payload: payload_of(payload?),
    })
}

/// Returns the event that the master sends bytes.
fn master_take(n: Option<u32>) -> Option<HalfEvent>
    ensures { result ≡ the_master_take n }
{
    Some(HalfEvent::MasterTake { n: times_of(n)? })
}

/// Returns the event that ticks pass at the master.
fn master_tick(n: Option<u32>) -> Option<HalfEvent>
    ensures { result ≡ the_master_tick n }
{
    Some(HalfEvent::MasterTick { n: times_of(n)? })
}

/// Returns the event that a station sends bytes.
fn station_take(station: u32, n: Option<u32>) -> Option<HalfEvent>
    ensures { result ≡ the_station_take station n }
{
    Some(HalfEvent::StationTake {
        station,
        n: times_of(n)?,
    })
}

/// Returns the event that bytes of a queue arrive.
fn deliver(way: Way, n: Option<u32>) -> Option<HalfEvent>
    ensures { result ≡ the_deliver way n }
{
    Some(HalfEvent::Deliver {
        way,
        n: times_of(n)?,
    })
}

/// Returns the event that bytes of a queue are lost.
fn lose(way: Way, n: Option<u32>) -> Option<HalfEvent>
    ensures { result ≡ the_lose way n }
{
    Some(HalfEvent::Lose {
        way,
        n: times_of(n)?,
    })
}

/// Returns the event that the head of a queue is altered.
fn alter(way: Way, mask: Option<u8>) -> Option<HalfEvent>
    ensures { result ≡ the_alter way mask }
{
    Some(HalfEvent::Alter {
        way,
        mask: mask_of(mask?),
    })
}

/// Returns the event that foreign bytes arrive.
fn foreign(way: Way, bytes: Option<Bytes>) -> Option<HalfEvent>
    ensures { result ≡ the_foreign way bytes }
{
    Some(HalfEvent::Foreign {
        way,
        bytes: foreign_of(bytes?),
    })
}
