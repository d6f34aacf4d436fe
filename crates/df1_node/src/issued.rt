//! An issued command and its outcome.
ghost use Rattle.std.specs.Prelude.{◌≡◌, ◌≤◌, ℕ, List, length};
ghost use Rattle.df1_base.specs.Host.{IsBody};
ghost use Rattle.df1_node.specs.Initiator.{is_last_tick, is_reply_to, source_of, ticked, told_outcome, told_reply};
ghost use Rattle.df1_node.specs.Commands.{IsPart, IsStateKept, cleared_state, issued_of, standing_of};

use crate::Outcome;
use crate::part::Part;
use pccc_envelope::{read_envelope, reply_of};

/// The index of SRC in a body.
const SRC: usize = 1;

/// The state of a command.
#[derive(Clone, Copy, Debug)]
pub(crate) enum State {
    Waiting,
    /// Outstanding, with this many ticks left in which a reply counts.
    Out(u32),
    /// Answered by the reply in this part of the kept bytes.
    Answered(Part),
    Undelivered,
    Unanswered,
}

impl State {
    /// Returns the state after a tick: the last tick in which a reply counts leaves the command unanswered.
    pub fn ticked(self) -> State
        ensures stands { (bytes : List ℕ) → standing_of bytes result ≡ ticked (standing_of bytes self) }
        ensures kept { (bytes : List ℕ) → IsStateKept bytes self → IsStateKept bytes result }
    {
        match self {
            State::Out(left) if left > 1 => State::Out(left - 1),
            State::Out(_) => State::Unanswered,
            State::Waiting | State::Answered(_) | State::Undelivered | State::Unanswered => self,
        }
    }

    /// Returns whether a tick is the last in which a reply counts.
    pub fn is_last_tick(self) -> bool
        ensures { (bytes : List ℕ) → result ≡ is_last_tick (standing_of bytes self) }
    {
        match self {
            State::Out(left) => left <= 1,
            State::Waiting | State::Answered(_) | State::Undelivered | State::Unanswered => false,
        }
    }

    /// Returns the state after the waiting commands were given up.
    pub fn cleared(self) -> State
        ensures { result ≡ cleared_state self }
    {
        match self {
            State::Waiting => State::Undelivered,
            State::Out(_) | State::Answered(_) | State::Undelivered | State::Unanswered => self,
        }
    }

    /// Returns the outcome of the command.
    pub fn outcome(self) -> Outcome
        ensures { (bytes : List ℕ) → result ≡ told_outcome (standing_of bytes self) }
    {
        match self {
            State::Waiting => Outcome::Waiting,
            State::Out(_) => Outcome::Out,
            State::Answered(_) => Outcome::Answered,
            State::Undelivered => Outcome::Undelivered,
            State::Unanswered => Outcome::Unanswered,
        }
    }

    /// Returns the accepted reply, or nothing if there was none. `bytes` are the kept bytes.
    pub fn accepted(self, bytes: &[u8]) -> &[u8]
        requires { IsStateKept bytes.now self }
        ensures reply { result.now ≡ told_reply (standing_of bytes.now self) }
        ensures size { length result.now ≤ 250 }
    {
        match self {
            State::Answered(reply) => reply.of(bytes),
            State::Waiting | State::Out(_) | State::Undelivered | State::Unanswered => &[],
        }
    }
}

/// A command: its body, which is a part of the kept bytes, and its state.
#[derive(Clone, Copy)]
pub(crate) struct Command {
    pub body: Part,
    pub state: State,
}

impl Command {
    /// Returns its source: SRC of its body. `bytes` are the kept bytes.
    pub fn source(self, bytes: &[u8]) -> u8
        requires { IsPart bytes.now self.body }
        ensures { result ≡ source_of (issued_of bytes.now self) }
    {
        self.body.of(bytes)[SRC]
    }
}

/// Returns whether a reply answers the command with this body: the same TNS, CMD with bit 6 set, and SRC and DST
/// swapped.
pub(crate) fn is_answered_by(body: &[u8], reply: &[u8]) -> bool
    requires command { IsBody body.now }
    requires reply { IsBody reply.now }
    ensures { result ≡ is_reply_to body.now reply.now }
{
    let command = read_envelope(body).unwrap();
    let reply = read_envelope(reply).unwrap();
    let expected = reply_of(&command, reply.sts);
    reply.tns == expected.tns
        && reply.cmd == expected.cmd
        && reply.src == expected.src
        && reply.dst == expected.dst
}
