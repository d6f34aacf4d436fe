//! The node, the host behind an end: it executes the commands that it accepts and replies to each, and issues its own
//! commands and accepts their replies.
ghost use Rattle.std.specs.Prelude.{◌≡◌, ◌+◌, ◌≤◌, [], All, length, map, IfOk, IfErr, OnOk, OnErr, Err, MatchOption, IsTrue, if◌then◌else◌};
ghost use Rattle.df1_node.specs.Initiator.{issue_fault};
ghost use Rattle.data_files.specs.Tables.{has_word};
ghost use Rattle.df1_node.specs.Node.{NodeState, after_node_issue, with_node_locks, with_node_word};
ghost use Rattle.df1_node.specs.Together.{IsPayload, after_node_all, together_fault};
ghost use Rattle.df1_node.specs.declared.handed.Handed.TheVariants.{Nothing};

use crate::handed::Handed;
use crate::{Initiator, IssueFault, Station, Tables};
use arrayvec::ArrayVec;
use circular_buffer::HeapCircularBuffer;
use df1_base::{Did, Fate, Host, News, NoMemory};
use pccc_envelope::is_reply;
use std::alloc::Global;
use std::marker::Model;

/// The maximum size of the data of a status reply.
const MAX_BLOCK: usize = 244;

/// The settings of a node.
#[derive(Clone, Copy, Debug, PartialEq, Eq)]
pub struct NodeSetup {
    /// The node's address: SRC of the commands that are issued under no other SRC.
    pub node: u8,
    /// TNS of its first command.
    pub tns: u16,
    /// The ticks, at least 1, that a reply may take.
    pub reply_ticks: u32,
    /// The number of replies that may wait: 2 to 64.
    pub room: usize,
    /// The number of commands that may be outstanding: 1 to 16.
    pub window: usize,
    /// The number of commands of one source (SRC) that may be outstanding: 1 to 16.
    pub per_source: usize,
}

/// A station and an initiator behind one end.
pub struct Node {
    station: Station,
    initiator: Initiator,
    replies: HeapCircularBuffer<ArrayVec<u8, 250>>,
    last: Handed,
}

// By hand, so that whoever drops one proves nothing of its parts.
impl Drop for Node {
    fn drop(self) {
        let Node {
            station: _station,
            initiator: _initiator,
            replies: _replies,
            last: _,
        } = self;
    }
}

impl Model for Node {
    ghost use Rattle.std.specs.Prelude.{map, All, length, ◌≤◌};
    ghost use Rattle.df1_base.specs.Host.{IsBody};
    ghost use Rattle.df1_node.specs.Node.{NodeState, node_code};

    ghost Value = { NodeState };

    ghost use Rattle.df1_node.specs.contracts.station.Station as kept_station;
    ghost use Rattle.df1_node.specs.contracts.initiator.Initiator as kept_initiator;
    ghost use Rattle.df1_node.specs.contracts.handed.Handed as kept_handed;

    ghost coded = { node_code kept_station.the_row.coded kept_initiator.the_row.coded kept_handed.the_row.coded };

    ghost view = { λ n. record { room = n.replies.capacity; station = n.station; replies = map (λ r. r.items) n.replies.items; initiator = n.initiator; last = n.last } };

    ghost invariant = { λ n. All (λ r. IsBody r.items) n.replies.items × (length n.station.block ≤ 244) };
}

impl Node {
    /// Creates a node with this station, and allocates memory for the waiting replies.
    pub fn new(alloc: Global, setup: NodeSetup, station: Station) -> Result<Node, NoMemory>
        requires room { (2 ≤ setup.room) × (setup.room ≤ 64) }
        requires reply_ticks { 1 ≤ setup.reply_ticks }
        requires window { (1 ≤ setup.window) × (setup.window ≤ 16) }
        requires per_source { (1 ≤ setup.per_source) × (setup.per_source ≤ 16) }
        ensures { IfOk result (λ node. node ≡ record { room = setup.room; station = station; replies = []; initiator = record { node = setup.node; tns = setup.tns; reply_ticks = setup.reply_ticks; window = setup.window; per_source = setup.per_source; issued = [] }; last = Nothing }) }
    {
        prove!(station.block().len() <= MAX_BLOCK);
        let replies = HeapCircularBuffer::with_capacity(alloc, setup.room)?;
        Ok(Node {
            station,
            initiator: Initiator::with_window(
                alloc,
                setup.node,
                setup.tns,
                setup.reply_ticks,
                setup.window,
                setup.per_source,
            ),
            replies,
            last: Handed::Nothing,
        })
    }

    /// Issues a command to a node, as `Initiator::issue` does.
    pub fn issue(&mut self, dst: u8, payload: &[u8]) -> Result<u32, IssueFault>
        ensures number { IfOk result (λ number. number ≡ length self.old.initiator.issued + 1) }
        ensures ok { OnOk result (self.new ≡ after_node_issue self.old self.old.initiator.node dst payload.now) }
        ensures fault { MatchOption (issue_fault self.old.initiator payload.now) (IfErr result (λ fault. fault ≡ IssueFault.NoMemory)) (λ fault. result ≡ Err fault) }
        ensures err { OnErr result (self.new ≡ self.old) }
    {
        self.initiator.issue(dst, payload)
    }

    /// Issues a command to a node with `src` as its SRC, as `Initiator::issue_from` does.
    pub fn issue_from(&mut self, src: u8, dst: u8, payload: &[u8]) -> Result<u32, IssueFault>
        ensures number { IfOk result (λ number. number ≡ length self.old.initiator.issued + 1) }
        ensures ok { OnOk result (self.new ≡ after_node_issue self.old src dst payload.now) }
        ensures fault { MatchOption (issue_fault self.old.initiator payload.now) (IfErr result (λ fault. fault ≡ IssueFault.NoMemory)) (λ fault. result ≡ Err fault) }
        ensures err { OnErr result (self.new ≡ self.old) }
    {
        self.initiator.issue_from(src, dst, payload)
    }

    /// Issues one command per payload to a node, all of them or none, as `Initiator::issue_all` does.
    pub fn issue_all(&mut self, dst: u8, payloads: &[ArrayVec<u8, 245>]) -> Result<u32, IssueFault>
        requires { All (λ payload. IsPayload payload.items) payloads.now }
        ensures number { IfOk result (λ number. number ≡ length self.old.initiator.issued + 1) }
        ensures ok { OnOk result (self.new ≡ after_node_all self.old dst (map (λ payload. payload.items) payloads.now)) }
        ensures fault { MatchOption (together_fault self.old.initiator (length payloads.now)) (IfErr result (λ fault. fault ≡ IssueFault.NoMemory)) (λ fault. result ≡ Err fault) }
        ensures err { OnErr result (self.new ≡ self.old) }
    {
        self.initiator.issue_all(dst, payloads)
    }

    /// Returns the data tables of the station.
    pub fn tables(&self) -> &Tables
        ensures { result.now ≡ self.now.station.tables }
    {
        self.station.tables()
    }

    /// Sets the word of this index in the file of this number, as a program in the controller would. Returns false,
    /// with nothing changed, exactly if there is no such file or word.
    pub fn set_word(&mut self, number: u16, index: u32, value: u16) -> bool
        ensures known { result ≡ has_word self.old.station.tables.specs number index }
        ensures after { self.new ≡ (if result then with_node_word self.old number index value else self.old) }
    {
        self.station.set_word(number, index, value)
    }

    /// Locks the files of these numbers, at most 256, so that no command may write them, and unlocks all others, as
    /// `Station::lock` does.
    pub fn lock(&mut self, files: &[u16])
        requires { length files.now ≤ 256 }
        ensures { self.new ≡ with_node_locks self.old files.now }
    {
        self.station.lock(files);
    }

    /// Returns the initiator.
    pub fn initiator(&self) -> &Initiator
        ensures { result.now ≡ self.now.initiator }
    {
        &self.initiator
    }
}

impl Host for Node {
    ghost use Rattle.df1_node.specs.Node.{has_room, did_accept, after_accept, next_body, after_next, is_out, news_told, after_told, gone_unanswered, after_tick, after_clear, holds_bodies};
    ghost use Rattle.std.proofs.Common.{refl};
    ghost use Rattle.df1_node.specs.HostLaws as laws_of;

    ghost room_for = { has_room };

    ghost did = { did_accept };

    ghost after_accept = { after_accept };

    ghost next_body = { next_body };

    ghost after_next = { after_next };

    ghost is_out = { is_out };

    ghost news = { news_told };

    ghost after_told = { after_told };

    ghost unanswered = { gone_unanswered };

    ghost after_tick = { after_tick };

    ghost after_clear = { after_clear };

    ghost holds_bodies = { holds_bodies };

    fn has_room(&self, body: &[u8]) -> bool {
        is_reply(body) || self.replies.len() < self.replies.capacity()
    }

    fn accept(&mut self, body: &[u8]) -> Did {
        if is_reply(body) {
            return match self.initiator.take_reply(body) {
                Some(place) => Did::Answered(place as u32 + 1),
                None => Did::Stray,
            };
        }
        let mut reply = ArrayVec::new();
        self.station.answer(body, &mut reply);
        self.replies.try_push_back(reply).unwrap();
        Did::Executed
    }

    fn ready(&self) -> bool {
        self.initiator.ready() || !self.replies.is_empty()
    }

    fn next(&mut self, into: &mut ArrayVec<u8, 250>) -> bool {
        if let Some(reply) = self.replies.pop_front() {
            *into = reply;
            self.last = Handed::Reply;
            return true;
        }
        let Some(place) = self.initiator.hand_out(into) else {
            return false;
        };
        self.last = Handed::Command(place);
        true
    }

    fn told(&mut self, fate: Fate) -> News {
        let last = self.last;
        self.last = Handed::Nothing;
        match (fate, last) {
            (Fate::Delivered, _) | (Fate::Undelivered, Handed::Nothing) => News::Nothing,
            (Fate::Undelivered, Handed::Reply) => News::Dropped,
            (Fate::Undelivered, Handed::Command(place)) => {
                if self.initiator.give_up(place) {
                    News::Undelivered(place as u32 + 1)
                } else {
                    News::Nothing
                }
            }
        }
    }

    fn tick(&mut self, gone: &mut ArrayVec<u32, 16>) {
        self.initiator.tick(gone);
    }

    fn clear(&mut self) {
        self.replies.clear();
        self.initiator.clear();
    }

    ghost next_of_none = { laws_of.none_changes };

    ghost out_at_next = { laws_of.next_hands };

    ghost told_of_none = { laws_of.told_nothing };

    ghost out_at_told = { laws_of.fate_told };

    ghost out_at_accept = { λ _ _. refl };

    ghost out_at_tick = { λ _. refl };

    ghost out_at_clear = { λ _. refl };

    ghost unanswered_rise = { laws_of.unanswered_rise };

    ghost none_at_clear = { laws_of.none_at_clear };

    ghost body_at_next = { laws_of.next_is_body };

    ghost bodies_at_accept = { laws_of.bodies_at_accept };

    ghost bodies_at_next = { laws_of.bodies_at_next };

    ghost bodies_at_told = { laws_of.bodies_at_told };

    ghost bodies_at_tick = { laws_of.bodies_at_tick };

    ghost bodies_at_clear = { laws_of.bodies_at_clear };
}
