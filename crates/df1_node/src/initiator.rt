//! The initiator numbers the commands that are issued, hands them out lowest first as far as its window and their
//! sources allow, and keeps the outcome of each (manual topic: message packets, transaction numbers).
//!
//! The indices of the outstanding commands, and of the waiting commands by source, are kept beside the commands, so no
//! step searches all of them. A clearing starts at the first waiting command, so it reaches each command at most once.
//! The bytes of bodies and replies are appended to one buffer; space for a command's reply is reserved with the
//! command.
ghost use Rattle.std.specs.Prelude.{◌≡◌, ℕ, ◌+◌, ◌*◌, ◌≤◌, ◌<◌, [], ◌++◌, ◌∷◌, length, map, All, IfOk, IfErr, OnOk, OnErr, Err, IfSome, MatchOption, is_some, option_and_then, ◌==◌, false, nat_lt, IfNone, IsSome, IsTrue, if◌then◌else◌, vec_len, vec_capacity, slice_index, slice_get, remove, position, unwrap_or};
ghost use Rattle.std.specs.Int.{bit_at};
ghost use Rattle.df1_base.specs.Host.{IsBody};
ghost use Rattle.pccc_envelope.specs.Envelope.{is_reply, spelling};
ghost use Rattle.df1_node.specs.Initiator.{InitiatorState, after_give_up, after_hand_out, after_issue, after_reply, all_cleared, all_ticked, answered_place, count_out, is_out_at, is_waiting, unanswered_from, issue_fault, next_issued, outcome_of, reply_of, next_command, next_place};
ghost use Rattle.df1_node.specs.Initiator.{Waiting};
ghost use Rattle.df1_node.specs.Commands.{AreCommands, all_issued, kept_at, cleared_from, ticked_at};
ghost use Rattle.df1_node.specs.Together.{HasRoomFor, IsPayload, after_all, together_fault};
ghost use Rattle.df1_node.specs.Queue.{places, out_now};

use crate::issued::{Command, State, is_answered_by};
use crate::part::append;
use crate::queue::Queue;
use crate::{IssueFault, Outcome};
use arrayvec::ArrayVec;
use df1_base::{MAX_BODY, MAX_PAYLOAD, REPLY};
use pccc_envelope::{Envelope, read_envelope, write_envelope};
use std::alloc::{AllocError, Global};
use std::marker::Model;

/// The maximum number of commands of an initiator.
const MAX_COMMANDS: usize = 65535;

/// The maximum number of outstanding commands.
const MAX_WINDOW: usize = 16;

/// The index of SRC in a body.
const SRC: usize = 1;

/// An initiator and its commands, which are numbered from 1.
#[derive(Drop)]
pub struct Initiator {
    alloc: Global,
    node: u8,
    tns: u16,
    reply_ticks: u32,
    window: usize,
    per_source: usize,
    /// The bodies and replies, in order of arrival, with space for the replies that may still come.
    bytes: Vec<u8>,
    issued: Vec<Command>,
    queue: Queue,
}

impl Model for Initiator {
    ghost use Rattle.df1_node.specs.Initiator.{InitiatorState};
    ghost use Rattle.df1_node.specs.Commands.{all_issued, AreCommands};
    ghost use Rattle.std.specs.Prelude.{vec_capacity};

    ghost Value = { InitiatorState };

    ghost view = { λ s. record { node = s.node; tns = s.tns; reply_ticks = s.reply_ticks; window = s.window; per_source = s.per_source; issued = all_issued s.bytes.items s.issued.items } };

    ghost invariant = { λ s. AreCommands s.bytes.items (vec_capacity s.bytes) s.issued.items s.queue s.window };
}

impl Initiator {
    /// Creates an initiator of this node, with the TNS of its first command and the ticks, at least 1, that a reply may
    /// take. One command at a time is outstanding.
    pub fn new(alloc: Global, node: u8, tns: u16, reply_ticks: u32) -> Initiator
        requires { 1 ≤ reply_ticks }
        ensures { result ≡ record { node = node; tns = tns; reply_ticks = reply_ticks; window = 1; per_source = 16; issued = [] } }
    {
        Initiator::with_window(alloc, node, tns, reply_ticks, 1, MAX_WINDOW)
    }

    /// Creates one as `new` does, with up to `window` outstanding commands, and up to `per_source` of one source (SRC):
    /// 1 to 16 each.
    pub fn with_window(
        alloc: Global,
        node: u8,
        tns: u16,
        reply_ticks: u32,
        window: usize,
        per_source: usize,
    ) -> Initiator
        requires reply_ticks { 1 ≤ reply_ticks }
        requires window { (1 ≤ window) × (window ≤ 16) }
        requires per_source { (1 ≤ per_source) × (per_source ≤ 16) }
        ensures { result ≡ record { node = node; tns = tns; reply_ticks = reply_ticks; window = window; per_source = per_source; issued = [] } }
    {
        Initiator {
            alloc,
            node,
            tns,
            reply_ticks,
            window,
            per_source,
            bytes: Vec::new(alloc),
            issued: Vec::new(alloc),
            queue: Queue::new(alloc),
        }
    }

    /// Issues a command to a node, with the initiator's own node as SRC, as `issue_from` does.
    pub fn issue(&mut self, dst: u8, payload: &[u8]) -> Result<u32, IssueFault>
        ensures number { IfOk result (λ number. number ≡ length self.old.issued + 1) }
        ensures ok { OnOk result (self.new ≡ after_issue self.old self.old.node dst payload.now) }
        ensures fault { MatchOption (issue_fault self.old payload.now) (IfErr result (λ fault. fault ≡ IssueFault.NoMemory)) (λ fault. result ≡ Err fault) }
        ensures err { OnErr result (self.new ≡ self.old) }
    {
        self.issue_from(self.node, dst, payload)
    }

    /// Issues a command to a node with `src` as its SRC. The payload is CMD and what follows TNS. Returns the command's
    /// number, from 1; all sources share one sequence of numbers and of TNS. After a refusal nothing has changed.
    pub fn issue_from(&mut self, src: u8, dst: u8, payload: &[u8]) -> Result<u32, IssueFault>
        ensures number { IfOk result (λ number. number ≡ length self.old.issued + 1) }
        ensures ok { OnOk result (self.new ≡ after_issue self.old src dst payload.now) }
        ensures fault { MatchOption (issue_fault self.old payload.now) (IfErr result (λ fault. fault ≡ IssueFault.NoMemory)) (λ fault. result ≡ Err fault) }
        ensures err { OnErr result (self.new ≡ self.old) }
    {
        if let Some(fault) = self.fault_of(payload) {
            return Err(fault);
        }
        let count = self.issued.len();
        let envelope = Envelope {
            dst,
            src,
            cmd: payload[0],
            sts: 0,
            tns: self.tns.wrapping_add(count as u16),
        };
        make_room(&mut self.bytes, &mut self.issued, self.queue.unsettled, 1)?;
        self.queue.reserve(self.alloc, src, 1)?;
        let body = command_body(&envelope, &payload[1..]);
        push_command(&mut self.bytes, &mut self.issued, &mut self.queue, &body);
        Ok(count as u32 + 1)
    }

    /// Issues one command per payload to a node, in order and with the initiator's own node as SRC: all of them or
    /// none. Returns the number of the first. `Spent` is returned exactly if fewer numbers are left than there are
    /// payloads; otherwise `NoMemory` may be returned. After a refusal nothing has changed.
    pub fn issue_all(&mut self, dst: u8, payloads: &[ArrayVec<u8, 245>]) -> Result<u32, IssueFault>
        requires { All (λ payload. IsPayload payload.items) payloads.now }
        ensures number { IfOk result (λ number. number ≡ length self.old.issued + 1) }
        ensures ok { OnOk result (self.new ≡ after_all self.old dst (map (λ payload. payload.items) payloads.now)) }
        ensures fault { MatchOption (together_fault self.old (length payloads.now)) (IfErr result (λ fault. fault ≡ IssueFault.NoMemory)) (λ fault. result ≡ Err fault) }
        ensures err { OnErr result (self.new ≡ self.old) }
    {
        let first = self.issued.len();
        if payloads.len() > MAX_COMMANDS - first {
            return Err(IssueFault::Spent);
        }
        make_room(
            &mut self.bytes,
            &mut self.issued,
            self.queue.unsettled,
            payloads.len(),
        )?;
        self.queue.reserve(self.alloc, self.node, payloads.len())?;
        for payload in payloads {
            let envelope = Envelope {
                dst,
                src: self.node,
                cmd: payload[0],
                sts: 0,
                tns: self.tns.wrapping_add(self.issued.len() as u16),
            };
            let body = command_body(&envelope, &payload[1..]);
            push_command(&mut self.bytes, &mut self.issued, &mut self.queue, &body);
        }
        Ok(first as u32 + 1)
    }

    /// Returns the outcome of command `n`, and None exactly if `n` is 0 or a number that was not issued, as is every
    /// one over 65,535.
    pub fn outcome(&self, n: u32) -> Option<Outcome>
        ensures outcome { result ≡ outcome_of self.now n }
        ensures few { IsSome result → n ≤ 65535 }
    {
        Some(command(&self.issued, n)?.state.outcome())
    }

    /// Returns the accepted reply to command `n`, at most 250 bytes; empty unless the command is answered.
    pub fn reply(&self, n: u32) -> &[u8]
        ensures reply { result.now ≡ reply_of self.now n }
        ensures size { length result.now ≤ 250 }
    {
        match command(&self.issued, n) {
            Some(command) => command.state.accepted(&self.bytes),
            None => &[],
        }
    }

    /// Returns whether a command is outstanding: it was handed out, and may still be answered. While none is, a tick
    /// changes nothing, and no command is unanswered from it on.
    pub fn has_outstanding(&self) -> bool
        ensures out { result ≡ nat_lt 0 (count_out self.now.issued) }
        ensures still { result ≡ false → (all_ticked self.now.issued ≡ self.now.issued) × (unanswered_from 1 self.now.issued ≡ []) }
    {
        !self.queue.out.is_empty()
    }

    /// Returns whether there is a command to hand out.
    pub(crate) fn ready(&self) -> bool
        ensures ready { result ≡ is_some (next_command self.now) }
        ensures bodies { All (λ c. IsBody c.body) self.now.issued }
    {
        self.next().is_some()
    }

    /// Hands out the lowest waiting command whose source has fewer than `per_source` outstanding, if fewer than
    /// `window` are outstanding. Replaces `into` by its body and returns its index.
    pub(crate) fn hand_out(&mut self, into: &mut ArrayVec<u8, 250>) -> Option<usize>
        ensures place { result ≡ next_place self.old }
        ensures ready { is_some result ≡ is_some (next_command self.old) }
        ensures body { MatchOption (next_command self.old) (into.new.items ≡ into.old.items) (λ body. into.new.items ≡ body) }
        ensures size { IfSome (next_command self.old) IsBody }
        ensures after { self.new ≡ after_hand_out self.old }
    {
        let place = self.next()?;
        let command = &mut self.issued[place as usize];
        let source = command.source(&self.bytes);
        into.clear();
        into.try_extend_from_slice(command.body.of(&self.bytes))
            .unwrap();
        command.state = State::Out(self.reply_ticks);
        self.queue.hand_out(source, place);
        Some(place as usize)
    }

    /// Accepts a reply: if it answers an outstanding command, that command is answered and its index is returned.
    pub(crate) fn take_reply(&mut self, reply: &[u8]) -> Option<usize>
        requires { IsBody reply.now }
        ensures place { result ≡ answered_place self.old.issued reply.now }
        ensures few { IfSome result (λ place. place < 65535) }
        ensures after { self.new ≡ after_reply self.old reply.now }
    {
        let at = self.answered_index(reply)?;
        let place = self.queue.out[at] as usize;
        let command = &mut self.issued[place];
        let source = command.source(&self.bytes);
        let part = append(&mut self.bytes, reply);
        command.state = State::Answered(part);
        self.queue.settle(source, at);
        Some(place)
    }

    /// Gives up the command at this index if it is outstanding, and returns whether it was.
    pub(crate) fn give_up(&mut self, place: usize) -> bool
        ensures given_up { result ≡ is_out_at self.old.issued place }
        ensures few { IsTrue result → place < 65535 }
        ensures after { self.new ≡ after_give_up self.old place }
    {
        let Some(at) = self.queue.index_of(place) else {
            return false;
        };
        let command = &mut self.issued[place];
        let source = command.source(&self.bytes);
        command.state = State::Undelivered;
        self.queue.settle(source, at);
        true
    }

    /// Performs a tick. Replaces `gone` by the numbers, ascending, of the commands that are unanswered from this tick
    /// on.
    pub(crate) fn tick(&mut self, gone: &mut ArrayVec<u32, 16>)
        ensures gone { gone.new.items ≡ unanswered_from 1 self.old.issued }
        ensures after { self.new ≡ record self.old { issued = all_ticked self.old.issued } }
    {
        self.tell_gone(gone);
        let mut at = 0;
        while at < self.queue.out.len() {
            if self.tick_at(at) {
                at += 1;
            }
        }
    }

    /// Gives up each waiting command.
    pub(crate) fn clear(&mut self)
        ensures { self.new ≡ record self.old { issued = all_cleared self.old.issued } }
    {
        let first = self.first_waiting();
        clear_from(&mut self.issued, first);
        self.queue.clear();
    }

    /// Returns the index of the command that is handed out next.
    fn next(&self) -> Option<u32>
        ensures place { result ≡ next_place self.now }
        ensures bodies { All (λ c. IsBody c.body) self.now.issued }
    {
        if self.queue.out.len() >= self.window {
            return None;
        }
        self.queue.lowest_due(self.per_source)
    }

    /// Returns the index of the first waiting command, or the number of commands if there is none.
    fn first_waiting(&self) -> usize
        ensures { result ≡ unwrap_or (position (λ c. is_waiting c.standing) self.now.issued) (length self.now.issued) }
    {
        match self.queue.lowest_due(usize::MAX) {
            Some(place) => place as usize,
            None => self.issued.len(),
        }
    }

    /// Returns the position, among the outstanding commands, of the one that a reply answers.
    fn answered_index(&self, reply: &[u8]) -> Option<usize>
        requires { IsBody reply.now }
        ensures within { IfSome result (λ at. at < length (places out_now self.now.issued)) }
        ensures place { answered_place self.now.issued reply.now ≡ option_and_then (slice_get (places out_now self.now.issued)) result }
    {
        let out = self.queue.out.as_slice();
        for at in 0..out.len() {
            let body = self.issued[out[at] as usize].body;
            if is_answered_by(body.of(&self.bytes), reply) {
                return Some(at);
            }
        }
        None
    }

    /// Replaces `gone` by the numbers of the commands that are unanswered from the next tick on.
    fn tell_gone(&self, gone: &mut ArrayVec<u32, 16>)
        ensures { gone.new.items ≡ unanswered_from 1 self.now.issued }
    {
        gone.clear();
        let out = self.queue.out.as_slice();
        for place in out {
            if self.issued[*place as usize].state.is_last_tick() {
                gone.push(*place + 1);
            }
        }
    }

    /// Performs a tick for the command at this position among the outstanding ones. Returns whether it is still
    /// outstanding.
    fn tick_at(&mut self, at: usize) -> bool
        requires { at < length (places out_now self.old.issued) }
        ensures after { self.new ≡ record self.old { issued = ticked_at (slice_index (places out_now self.old.issued) at) self.old.issued } }
        ensures out { places out_now self.new.issued ≡ (if result then places out_now self.old.issued else remove (places out_now self.old.issued) at) }
    {
        let place = self.queue.out[at] as usize;
        let command = &mut self.issued[place];
        let source = command.source(&self.bytes);
        let is_last = command.state.is_last_tick();
        command.state = command.state.ticked();
        if !is_last {
            return true;
        }
        self.queue.settle(source, at);
        false
    }

    /// Returns the reason why a payload can't be issued.
    fn fault_of(&self, payload: &[u8]) -> Option<IssueFault>
        ensures fault { result ≡ issue_fault self.now payload.now }
        ensures size { IfNone result ((1 ≤ length payload.now) × (length payload.now ≤ 245)) }
        ensures few { IfNone result (length self.now.issued < 65535) }
    {
        if payload.is_empty() {
            Some(IssueFault::Empty)
        } else if payload.len() > MAX_PAYLOAD {
            Some(IssueFault::TooLong)
        } else if has_reply_bit(payload[0]) {
            Some(IssueFault::NotCommand)
        } else if self.issued.len() >= MAX_COMMANDS {
            Some(IssueFault::Spent)
        } else {
            None
        }
    }
}

/// Gives up each waiting command from this index on. None waits below it.
fn clear_from(issued: &mut [Command], place: usize)
    requires { place ≤ length issued.old }
    ensures { issued.new ≡ cleared_from place issued.old }
{
    for command in &mut issued[place..] {
        command.state = command.state.cleared();
    }
}

/// Returns command `n`, from 1.
fn command(issued: &[Command], n: u32) -> Option<Command>
    ensures found { result ≡ kept_at issued.now n }
    ensures within { IsSome result → n ≤ length issued.now }
{
    let place = n.checked_sub(1)?;
    issued.get(place as usize).copied()
}

/// Reserves space for `count` more commands, for their bodies, and for the replies to them and to `others` more.
fn make_room(
    bytes: &mut Vec<u8>,
    issued: &mut Vec<Command>,
    others: usize,
    count: usize,
) -> Result<(), AllocError>
    requires others { others ≤ 65535 }
    requires count { count ≤ 65535 }
    ensures bytes { bytes.new.items ≡ bytes.old.items }
    ensures issued { issued.new.items ≡ issued.old.items }
    ensures capacity { vec_capacity bytes.old ≤ vec_capacity bytes.new }
    ensures room { OnOk result (length bytes.new.items + 250 * (others + 2 * count) ≤ vec_capacity bytes.new) }
    ensures places { OnOk result (vec_len issued.new + count ≤ vec_capacity issued.new) }
{
    issued.reserve(count)?;
    bytes.reserve(MAX_BODY * (others + 2 * count))
}

/// Adds a waiting command, for which there is space.
fn push_command(bytes: &mut Vec<u8>, issued: &mut Vec<Command>, queue: &mut Queue, body: &[u8])
    requires are { AreCommands bytes.old.items (vec_capacity bytes.old) issued.old.items queue.old 16 }
    requires room { HasRoomFor 1 (slice_index body.now 1) bytes.old.items (vec_capacity bytes.old) (vec_len issued.old) (vec_capacity issued.old) queue.old }
    requires few { length issued.old.items < 65535 }
    requires body { IsBody body.now }
    ensures are { AreCommands bytes.new.items (vec_capacity bytes.new) issued.new.items queue.new 16 }
    ensures issued { all_issued bytes.new.items issued.new.items ≡ all_issued bytes.old.items issued.old.items ++ record { body = body.now; standing = Waiting } ∷ [] }
    ensures room { (count : ℕ) → HasRoomFor (count + 1) (slice_index body.now 1) bytes.old.items (vec_capacity bytes.old) (vec_len issued.old) (vec_capacity issued.old) queue.old → HasRoomFor count (slice_index body.now 1) bytes.new.items (vec_capacity bytes.new) (vec_len issued.new) (vec_capacity issued.new) queue.new }
{
    let place = issued.len() as u32;
    let part = append(bytes, body);
    issued.push_reserved(Command {
        body: part,
        state: State::Waiting,
    });
    queue.push(body[SRC], place);
}

/// Returns the body of a command: its envelope, and what follows.
fn command_body(envelope: &Envelope, rest: &[u8]) -> ArrayVec<u8, 250>
    requires { length rest.now ≤ 244 }
    ensures body { result.items ≡ spelling envelope.now ++ rest.now }
    ensures size { IsBody result.items }
{
    let mut body = ArrayVec::new();
    write_envelope(envelope, &mut body);
    body.try_extend_from_slice(rest).unwrap();
    body
}

/// Returns whether bit 6 of a CMD is set.
fn has_reply_bit(cmd: u8) -> bool
    ensures { result ≡ (bit_at cmd 6 == 1) }
{
    cmd & REPLY != 0
}
