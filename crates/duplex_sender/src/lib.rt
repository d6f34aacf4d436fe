//! The full-duplex sender: what happens to one message until it is delivered or given up.
//!
//! | Received while waiting | What happens |
//! |---|---|
//! | ACK | delivered; idle |
//! | NAK, fewer than `max_naks` counted | counted; the frame is sent again |
//! | NAK, `max_naks` counted | undelivered; idle |
//! | a tick, more than one left | one fewer left |
//! | the last tick, fewer than `max_enqs` counted | counted; an ENQ becomes pending; `ack_ticks` left again |
//! | the last tick, `max_enqs` counted | undelivered; idle |
//!
//! A wait starts, with `ack_ticks` ticks left, when the last byte of the frame was taken. NAKs and ENQs are counted per
//! message, from 0 when it is loaded; sending it again keeps the counts. While the sender is idle or sending, nothing
//! that is received and no tick changes it (manual topic: full-duplex protocol).
#![tactic(auto)]

ghost use Rattle.std.specs.Prelude.{◌≡◌, ◌≤◌, length};
ghost use Rattle.df1_base.specs.Host.{IsBody};
ghost use Rattle.duplex_sender.specs.Sender.{idle, phase_of, body_of, load, sent_last, on_ack, ack_fate, on_nak, nak_fate, on_tick, tick_turn};

use arrayvec::ArrayVec;
use df1_base::Fate;
use std::marker::Model;

/// The limits of a sender: how long it waits, and how often it tries.
#[derive(Clone, Copy, Debug, PartialEq, Eq)]
pub struct Limits {
    /// The ticks of a wait for a response, at least 1.
    pub ack_ticks: u32,
    /// The maximum number of retransmissions of a message after a NAK.
    pub max_naks: u32,
    /// The maximum number of ENQs for a message.
    pub max_enqs: u32,
}

/// The phase of a sender.
#[derive(Clone, Copy, Debug, PartialEq, Eq)]
pub enum Phase {
    /// It has no message.
    Idle,
    /// The frame of its message is being sent.
    Sending,
    /// The frame was sent, and no response to it was received yet.
    Waiting,
}

/// The effect of a tick on a sender.
#[derive(Clone, Copy, Debug, PartialEq, Eq)]
pub enum SendTurn {
    /// Nothing to report.
    Still,
    /// The wait is over: the last response is to be asked for, by an ENQ.
    Ask,
    /// The message was given up.
    Failed,
}

/// The phase of a message, with its counts.
#[derive(Clone, Copy)]
enum Progress {
    Idle,
    Sending { naks: u32, enqs: u32 },
    Waiting { naks: u32, enqs: u32, left: u32 },
}

/// The sender of one end of a full-duplex link.
#[derive(Drop)]
pub struct Sender {
    limits: Limits,
    body: ArrayVec<u8, 250>,
    progress: Progress,
}

impl Model for Sender {
    ghost use Rattle.duplex_sender.specs.Sender.{SenderState};

    ghost Value = { SenderState };

    ghost use Rattle.duplex_sender.specs.View.{activity_of};

    ghost view = { λ s. record { limits = s.limits; activity = activity_of s.progress s.body.items } };
}

impl Sender {
    /// Returns a sender without a message.
    pub fn new(limits: Limits) -> Sender
        requires { 1 ≤ limits.ack_ticks }
        ensures { result ≡ idle limits }
    {
        Sender {
            limits,
            body: ArrayVec::new(),
            progress: Progress::Idle,
        }
    }

    /// Returns the phase of the sender.
    pub fn phase(&self) -> Phase
        ensures { result ≡ phase_of self.now }
    {
        match self.progress {
            Progress::Idle => Phase::Idle,
            Progress::Sending { .. } => Phase::Sending,
            Progress::Waiting { .. } => Phase::Waiting,
        }
    }

    /// Returns the body of its message, at most 250 bytes, and empty if the sender is idle.
    pub fn body(&self) -> &[u8]
        ensures body { result.now ≡ body_of self.now }
        ensures fits { length result.now ≤ 250 }
    {
        match self.progress {
            Progress::Idle => &[],
            Progress::Sending { .. } | Progress::Waiting { .. } => &self.body,
        }
    }

    /// Loads a message of 6 to 250 bytes into an idle sender, which sends it from now on.
    pub fn load(&mut self, body: &[u8])
        requires idle { phase_of self.old ≡ Phase.Idle }
        requires body { IsBody body.now }
        ensures { self.new ≡ load self.old body.now }
    {
        self.body.clear();
        let fits = self.body.try_extend_from_slice(body).is_ok();
        prove!(fits);
        self.progress = Progress::Sending { naks: 0, enqs: 0 };
    }

    /// Starts the wait for a response; the last byte of the frame was taken.
    pub fn sent_last(&mut self)
        requires { phase_of self.old ≡ Phase.Sending }
        ensures { self.new ≡ sent_last self.old }
    {
        if let Progress::Sending { naks, enqs } = self.progress {
            self.progress = Progress::Waiting {
                naks,
                enqs,
                left: self.limits.ack_ticks,
            };
        }
    }

    /// Takes an ACK. Returns Delivered exactly if the sender was waiting, and None otherwise.
    pub fn on_ack(&mut self) -> Option<Fate>
        ensures state { self.new ≡ on_ack self.old }
        ensures fate { result ≡ ack_fate self.old }
    {
        let Progress::Waiting { .. } = self.progress else {
            return None;
        };
        self.progress = Progress::Idle;
        Some(Fate::Delivered)
    }

    /// Takes a NAK. Returns Undelivered exactly if the sender was waiting and had counted `max_naks` before, and None
    /// otherwise.
    pub fn on_nak(&mut self) -> Option<Fate>
        ensures state { self.new ≡ on_nak self.old }
        ensures fate { result ≡ nak_fate self.old }
    {
        let Progress::Waiting { naks, enqs, .. } = self.progress else {
            return None;
        };
        if naks < self.limits.max_naks {
            self.progress = Progress::Sending {
                naks: naks + 1,
                enqs,
            };
            None
        } else {
            self.progress = Progress::Idle;
            Some(Fate::Undelivered)
        }
    }

    /// Takes a tick. Returns Ask or Failed exactly at the last tick of a wait: Ask with fewer than `max_enqs` counted
    /// before, Failed with `max_enqs`. Returns Still otherwise.
    pub fn on_tick(&mut self) -> SendTurn
        ensures state { self.new ≡ on_tick self.old }
        ensures turn { result ≡ tick_turn self.old }
    {
        let Progress::Waiting { naks, enqs, left } = self.progress else {
            return SendTurn::Still;
        };
        if left > 1 {
            self.progress = Progress::Waiting {
                naks,
                enqs,
                left: left - 1,
            };
            SendTurn::Still
        } else if enqs < self.limits.max_enqs {
            self.progress = Progress::Waiting {
                naks,
                enqs: enqs + 1,
                left: self.limits.ack_ticks,
            };
            SendTurn::Ask
        } else {
            self.progress = Progress::Idle;
            SendTurn::Failed
        }
    }
}
