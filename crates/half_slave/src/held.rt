//! The message that a slave holds: how often it was sent, whether an ACK counts for it, and what decides its fate.

ghost use Rattle.std.specs.Prelude.{◌≡◌};
ghost use Rattle.std.specs.Option.{option_map};
ghost use Rattle.half_slave.specs.Slave.{after_heard, after_out, after_sending, closes_wait as heard_closes, ends_here, fate_at_ack, fate_at_poll, fate_at_reset, loaded};

use df1_base::{Fate, Out};
use half_frame::SlaveHeard;

/// A message of the host that a slave holds.
#[derive(Clone, Copy)]
pub struct Held {
    /// How often it was sent completely.
    pub sent: u32,
    /// Whether the last byte of its last sending was taken, and no header and no poll was received since.
    pub wait_open: bool,
}

impl Held {
    /// Returns a message that has just been loaded.
    pub(crate) fn loaded() -> Held
        ensures { result ≡ loaded }
    {
        Held {
            sent: 0,
            wait_open: false,
        }
    }
}

/// Closes the wait at a header and at a poll, whatever station it names.
pub(crate) fn close_wait(held: Option<Held>, heard: Option<SlaveHeard>) -> Option<Held>
    ensures { result ≡ option_map (after_heard heard) held }
{
    let message = held?;
    Some(Held {
        sent: message.sent,
        wait_open: message.wait_open && !closes_wait(heard),
    })
}

fn closes_wait(heard: Option<SlaveHeard>) -> bool
    ensures { result ≡ heard_closes heard }
{
    match heard {
        Some(SlaveHeard::Header(_) | SlaveHeard::Poll(_) | SlaveHeard::BadPoll) => true,
        _ => false,
    }
}

/// Counts a sending and opens the wait, if this byte is the last of a transmission and a message is still held.
pub(crate) fn count_sending(held: Option<Held>, out: Option<Out>) -> Option<Held>
    ensures { result ≡ after_out out held }
{
    if !ends_transmission(out) {
        return held;
    }
    let before = held?;
    Some(Held {
        sent: before.sent.saturating_add(1),
        wait_open: true,
    })
}

fn ends_transmission(out: Option<Out>) -> bool
    ensures { result ≡ ends_here out }
{
    match out {
        Some(out) => out.last_of.is_some(),
        None => false,
    }
}

/// Returns the fate at a poll: a message that was sent `max_sends` times is given up.
pub(crate) fn fate_at_poll(held: Option<Held>, max_sends: u32) -> Option<Fate>
    ensures { result ≡ fate_at_poll max_sends held }
{
    let message = held?;
    if message.sent < max_sends {
        None
    } else {
        Some(Fate::Undelivered)
    }
}

/// Returns the fate at an ACK: a message whose wait is open is delivered.
pub(crate) fn fate_at_ack(held: Option<Held>) -> Option<Fate>
    ensures { result ≡ fate_at_ack held }
{
    let message = held?;
    if message.wait_open {
        Some(Fate::Delivered)
    } else {
        None
    }
}

/// Returns the fate at a reset: the message that is held is given up.
pub(crate) fn fate_at_reset(held: Option<Held>) -> Option<Fate>
    ensures { result ≡ fate_at_reset held }
{
    match held {
        Some(_) => Some(Fate::Undelivered),
        None => None,
    }
}
