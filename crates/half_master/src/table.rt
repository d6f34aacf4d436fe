//! The phases of a master, and what it does in each about a decoded item and about a tick.

ghost use Rattle.std.specs.Prelude.{◌≡◌, ◌<◌, ◌≤◌, ℕ, length, slice_get, IsTrue};
ghost use Rattle.df1_base.specs.Host.{IsBody};
ghost use Rattle.half_master.specs.Master.{is_idle as is_idle_phase, with_left, unacknowledged, effect_of_verdict, answered, effect_on_message, effect_on_poll, effect_of_tick};

use crate::MasterSetup;
use crate::stations::Station;
use df1_base::Host;
use half_frame::MasterHeard;
use pccc_envelope::key_of;

/// The phase of a master: what it does once no byte is left to be sent.
#[derive(Clone, Copy)]
pub enum Phase {
    /// Nothing: a message or a poll may be started.
    Idle,
    /// It waits for the ACK of its message.
    WaitsForAck {
        /// The ticks that are left.
        left: u32,
        /// How often the message was sent again.
        resent: u32,
    },
    /// It waits for the answer of a station that it polled.
    WaitsAfterPoll {
        /// The ticks that are left.
        left: u32,
        /// The place of the station in the list.
        place: usize,
    },
}

/// What a master does about a decoded item, or about a tick.
#[derive(Clone, Copy)]
pub enum Effect {
    /// Nothing.
    Nothing,
    /// It waits on, with so many ticks left.
    Waits(u32),
    /// Its message was acknowledged: that is reported, and it is idle.
    Delivered,
    /// It sends its message again, as the retransmission of this number.
    Again(u32),
    /// Its message is given up: that is reported, and it is idle.
    GivenUp,
    /// The wait after a poll is over: it is idle.
    PollOver,
    /// A message of the polled station, at this place, is accepted and acknowledged.
    Accepted(usize),
    /// A duplicate message of the polled station arrived, and is acknowledged again.
    Repeated,
    /// There is no room for a message of the polled station: it waits on.
    Refused,
    /// A message was damaged: it waits on.
    Damaged,
    /// The host has its tick, and the next station is polled.
    Polls,
}

impl Phase {
    /// Returns whether it is idle.
    pub(crate) fn is_idle(&self) -> bool
        ensures { result ≡ is_idle_phase self.now }
    {
        match self {
            Phase::Idle => true,
            Phase::WaitsForAck { .. } | Phase::WaitsAfterPoll { .. } => false,
        }
    }
}

/// Returns the same phase with so many ticks left.
pub(crate) fn with_left(left: u32, phase: Phase) -> Phase
    ensures { result ≡ with_left left phase }
{
    match phase {
        Phase::Idle => Phase::Idle,
        Phase::WaitsForAck { resent, .. } => Phase::WaitsForAck { left, resent },
        Phase::WaitsAfterPoll { place, .. } => Phase::WaitsAfterPoll { left, place },
    }
}

/// Returns what is done without an ACK: the message is sent again, at most `max_resends` times, and otherwise given up.
fn unacknowledged(setup: MasterSetup, resent: u32) -> Effect
    ensures { result ≡ unacknowledged setup resent }
{
    if resent < setup.max_resends {
        Effect::Again(resent + 1)
    } else {
        Effect::GivenUp
    }
}

/// Returns what is done about an item that is decoded in a wait for ACK.
pub(crate) fn heard_of_message(
    setup: MasterSetup,
    resent: u32,
    heard: Option<MasterHeard>,
) -> Effect
    ensures { result ≡ effect_on_message setup resent heard }
{
    match heard {
        Some(MasterHeard::Ack) => Effect::Delivered,
        Some(MasterHeard::Nak) => unacknowledged(setup, resent),
        _ => Effect::Nothing,
    }
}

/// Returns what is done about an item that is decoded in a wait after a poll of the station at this place, with the
/// body that is lent.
pub(crate) fn heard_after_poll<H: Host>(
    stations: &[Station],
    place: usize,
    heard: Option<MasterHeard>,
    body: &[u8],
    host: &H,
) -> Effect
    requires place { place < length stations.now }
    requires whole { heard ≡ Some MasterHeard.Good → IsBody body.now }
    ensures { result ≡ effect_on_poll (answered (H.room_for host.now) place (slice_get stations.now place) body.now) heard }
{
    match heard {
        Some(MasterHeard::Eot) => Effect::PollOver,
        Some(MasterHeard::Good) => answer(&stations[place], place, body, host),
        Some(MasterHeard::Damaged) => Effect::Damaged,
        _ => Effect::Nothing,
    }
}

/// Judges a message by the key of the polled station if it is that station's, and ignores it otherwise.
fn answer<H: Host>(station: &Station, place: usize, body: &[u8], host: &H) -> Effect
    requires { IsBody body.now }
    ensures { result ≡ answered (H.room_for host.now) place (Some station.now) body.now }
{
    let key = key_of(body);
    if key.src != station.number {
        Effect::Nothing
    } else if station.kept.is_repeat(key) {
        Effect::Repeated
    } else if host.has_room(body) {
        Effect::Accepted(place)
    } else {
        Effect::Refused
    }
}

/// Returns what is done about a tick.
pub(crate) fn on_tick(setup: MasterSetup, phase: Phase, ready: bool) -> Effect
    ensures { result ≡ effect_of_tick setup ready phase }
{
    match phase {
        Phase::Idle => {
            if ready {
                Effect::Nothing
            } else {
                Effect::Polls
            }
        }
        Phase::WaitsForAck { left, resent } => {
            if left > 1 {
                Effect::Waits(left - 1)
            } else {
                unacknowledged(setup, resent)
            }
        }
        Phase::WaitsAfterPoll { left, .. } => {
            if left > 1 {
                Effect::Waits(left - 1)
            } else {
                Effect::PollOver
            }
        }
    }
}
