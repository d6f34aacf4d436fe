//! The state of an end: whether it has something to transmit, whether a message of its host is under way, and which
//! station it polls.

ghost use Rattle.std.specs.Prelude.{◌≡◌, Some, None};
ghost use Rattle.std.specs.Option.{unwrap_or};
ghost use Rattle.c_calls.specs.Answers.{end_code};
ghost use Rattle.c_calls.specs.State.{polling, state_of};

use c_ends::{Code, Held};

/// The state of an end.
#[repr(C)]
#[derive(Clone, Copy)]
pub struct StateTold {
    /// Whether there is nothing to transmit.
    pub quiet: bool,
    /// Whether a message of its host is neither acknowledged nor given up.
    pub holds: bool,
    /// Whether it is a master that sends a poll, or waits for the answer to one.
    pub polls: bool,
    /// The station that it polls, or 0.
    pub station: u8,
}

/// Reports the state of an end.
pub fn tell_state(held: &Held, state: &mut StateTold) -> Code
    ensures code { result ≡ end_code (Some held.now) }
    ensures told { state.new ≡ unwrap_or (state_of held.now) state.old }
{
    let Some(told) = state_of(held) else {
        return Code::NoHandle;
    };
    *state = told;
    Code::Done
}

/// Returns the state of what is held; a decoder has none.
fn state_of(held: &Held) -> Option<StateTold>
    ensures code { result ≡ None → end_code (Some held.now) ≡ Code.NoHandle }
    ensures told { result ≡ state_of held.now }
{
    match held {
        Held::Decoder(_) => None,
        Held::Duplex(end) => Some(polling(end.quiet(), end.holds_message(), None)),
        Held::Master(end) => Some(polling(end.quiet(), end.holds_message(), end.polled_station())),
        Held::Slave(end) => Some(polling(end.quiet(), end.holds_message(), None)),
    }
}

/// Returns a state in which this station is polled, or none.
fn polling(quiet: bool, holds: bool, station: Option<u8>) -> StateTold
    ensures { result ≡ polling quiet holds station }
{
    StateTold {
        quiet,
        holds,
        polls: station.is_some(),
        station: station.unwrap_or(0),
    }
}
