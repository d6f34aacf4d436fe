//! The order of the commands: the indices of the outstanding ones and, for each source (SRC), the indices of its
//! waiting commands and the number that are outstanding. So no step searches all commands.
ghost use Rattle.std.specs.Prelude.{◌≡◌, ℕ, ◌+◌, ◌-◌, ◌<◌, ◌≤◌, [], ◌∷◌, ◌++◌, length, drop, remove, true, false, ◌==◌, OnOk, position, nat_lt, if◌then◌else◌, slice_get, slice_index};
ghost use Rattle.df1_node.specs.Queue.{HasRoom, first_due, inserted, is_listed, lower, lowest_due, out_at, waiting_at};

use arrayvec::ArrayVec;
use std::alloc::{AllocError, Global};
use std::collections::VecDeque;

/// The number of possible sources.
const SOURCES: usize = 256;

/// The commands of a source.
#[derive(Drop)]
pub(crate) struct Source {
    /// The indices of its waiting commands, lowest first.
    pub waiting: VecDeque<u32>,
    /// The number of its outstanding commands.
    pub out: usize,
}

/// The order of the commands.
#[derive(Drop)]
pub(crate) struct Queue {
    /// The indices of the outstanding commands, lowest first.
    pub out: ArrayVec<u32, 16>,
    /// The number of commands that wait or are outstanding.
    pub unsettled: usize,
    /// The sources by SRC; empty before the first command.
    pub sources: Vec<Source>,
    /// Each SRC that may have waiting commands, in order of arrival.
    pub used: Vec<u8>,
}

impl Queue {
    /// Creates the order of no commands.
    pub fn new(alloc: Global) -> Queue
        ensures out { result.out.items ≡ [] }
        ensures unsettled { result.unsettled ≡ 0 }
        ensures sources { result.sources.items ≡ [] }
        ensures used { result.used.items ≡ [] }
    {
        Queue {
            out: ArrayVec::new(),
            unsettled: 0,
            sources: Vec::new(alloc),
            used: Vec::new(alloc),
        }
    }

    /// Returns the lowest waiting index whose source has fewer than `per_source` outstanding commands.
    pub fn lowest_due(&self, per_source: usize) -> Option<u32>
        ensures { result ≡ lowest_due per_source self.now.sources.items self.now.used.items }
    {
        let mut lowest = None;
        for source in &self.used {
            lowest = lower(lowest, first_due(&self.sources, *source, per_source));
        }
        lowest
    }

    /// Returns the position, among the outstanding commands, of the one at an index.
    pub fn index_of(&self, place: usize) -> Option<usize>
        ensures { result ≡ position (λ p. p == place) self.now.out.items }
    {
        let out = self.out.as_slice();
        out.iter().position(|other| *other as usize == place)
    }

    /// Reserves space for `count` more commands of a source.
    pub fn reserve(&mut self, alloc: Global, source: u8, count: usize) -> Result<(), AllocError>
        ensures out { self.new.out.items ≡ self.old.out.items }
        ensures unsettled { self.new.unsettled ≡ self.old.unsettled }
        ensures waits { (b : ℕ) → waiting_at self.new.sources.items b ≡ waiting_at self.old.sources.items b }
        ensures outs { (b : ℕ) → out_at self.new.sources.items b ≡ out_at self.old.sources.items b }
        ensures listed { (b : ℕ) → is_listed self.new.used.items b ≡ false → is_listed self.old.used.items b ≡ false }
        ensures known { OnOk result (is_listed self.new.used.items source ≡ true) }
        ensures room { OnOk result (HasRoom count self.new.sources.items source) }
    {
        make_sources(&mut self.sources, alloc)?;
        self.sources[source as usize].waiting.reserve(count)?;
        if !self.used.contains(&source) {
            self.used.reserve(1)?;
            self.used.push_reserved(source);
        }
        Ok(())
    }

    /// Adds a waiting command of a source, at an index above those of its others.
    pub fn push(&mut self, source: u8, place: u32)
        requires room { HasRoom 1 self.old.sources.items source }
        requires few { self.old.unsettled < 65535 }
        ensures out { self.new.out.items ≡ self.old.out.items }
        ensures unsettled { self.new.unsettled ≡ self.old.unsettled + 1 }
        ensures waits { (b : ℕ) → waiting_at self.new.sources.items b ≡ (if source == b then waiting_at self.old.sources.items b ++ place ∷ [] else waiting_at self.old.sources.items b) }
        ensures outs { (b : ℕ) → out_at self.new.sources.items b ≡ out_at self.old.sources.items b }
        ensures used { self.new.used.items ≡ self.old.used.items }
        ensures room { (count : ℕ) → HasRoom (count + 1) self.old.sources.items source → HasRoom count self.new.sources.items source }
    {
        let kept = &mut self.sources[source as usize];
        kept.waiting.push_back_reserved(place);
        self.unsettled += 1;
    }

    /// Marks the command at this index as outstanding; it is the first waiting one of its source.
    pub fn hand_out(&mut self, source: u8, place: u32)
        requires waits { 0 < length (waiting_at self.old.sources.items source) }
        requires few { out_at self.old.sources.items source < 65535 }
        requires room { length self.old.out.items < 16 }
        ensures out { self.new.out.items ≡ inserted place self.old.out.items }
        ensures unsettled { self.new.unsettled ≡ self.old.unsettled }
        ensures waits { (b : ℕ) → waiting_at self.new.sources.items b ≡ (if source == b then drop 1 (waiting_at self.old.sources.items b) else waiting_at self.old.sources.items b) }
        ensures outs { (b : ℕ) → out_at self.new.sources.items b ≡ (if source == b then out_at self.old.sources.items b + 1 else out_at self.old.sources.items b) }
        ensures used { self.new.used.items ≡ self.old.used.items }
    {
        let kept = &mut self.sources[source as usize];
        kept.waiting.pop_front();
        kept.out += 1;
        insert(&mut self.out, place);
    }

    /// Removes the command at this position from the outstanding ones. `source` is its source.
    pub fn settle(&mut self, source: u8, at: usize)
        requires within { at < length self.old.out.items }
        requires outs { 0 < out_at self.old.sources.items source }
        requires unsettled { 0 < self.old.unsettled }
        ensures out { self.new.out.items ≡ remove self.old.out.items at }
        ensures unsettled { self.new.unsettled + 1 ≡ self.old.unsettled }
        ensures waits { (b : ℕ) → waiting_at self.new.sources.items b ≡ waiting_at self.old.sources.items b }
        ensures outs { (b : ℕ) → out_at self.new.sources.items b ≡ (if source == b then out_at self.old.sources.items b - 1 else out_at self.old.sources.items b) }
        ensures used { self.new.used.items ≡ self.old.used.items }
    {
        let kept = &mut self.sources[source as usize];
        kept.out -= 1;
        self.out.remove(at);
        self.unsettled -= 1;
    }

    /// Removes all waiting commands.
    pub fn clear(&mut self)
        ensures out { self.new.out.items ≡ self.old.out.items }
        ensures unsettled { self.new.unsettled ≡ length self.old.out.items }
        ensures waits { (b : ℕ) → waiting_at self.new.sources.items b ≡ [] }
        ensures outs { (b : ℕ) → out_at self.new.sources.items b ≡ out_at self.old.sources.items b }
    {
        for source in self.sources.iter_mut() {
            source.waiting.clear();
        }
        self.used.clear();
        self.unsettled = self.out.len();
    }
}

/// Returns the lower of two indices.
fn lower(one: Option<u32>, other: Option<u32>) -> Option<u32>
    ensures { result ≡ lower one other }
{
    match (one, other) {
        (None, _) => other,
        (Some(_), None) => one,
        (Some(p), Some(q)) => { if q < p { Some(q) } else { Some(p) } }
    }
}

/// Returns the first index at which a command of a source waits, if fewer than `per_source` of them are outstanding.
fn first_due(sources: &[Source], source: u8, per_source: usize) -> Option<u32>
    ensures { result ≡ first_due per_source sources.now source }
{
    let kept = sources.get(source as usize)?;
    if kept.out < per_source {
        kept.waiting.front().copied()
    } else {
        None
    }
}

/// Inserts an index among ascending others.
fn insert(out: &mut ArrayVec<u32, 16>, place: u32)
    requires { length out.old.items < 16 }
    ensures { out.new.items ≡ inserted place out.old.items }
{
    let at = first_above(out, place).unwrap_or(out.len());
    out.insert(at, place);
}

/// Returns the position of the first index above this one.
fn first_above(places: &[u32], place: u32) -> Option<usize>
    ensures { result ≡ position (nat_lt place) places.now }
{
    places.iter().position(|other| *other > place)
}

/// Creates the sources that don't exist yet, with no commands.
fn make_sources(sources: &mut Vec<Source>, alloc: Global) -> Result<(), AllocError>
    ensures waits { (b : ℕ) → waiting_at sources.new.items b ≡ waiting_at sources.old.items b }
    ensures outs { (b : ℕ) → out_at sources.new.items b ≡ out_at sources.old.items b }
    ensures all { OnOk result (256 ≤ length sources.new.items) }
{
    'sources: while sources.len() < SOURCES {
        sources.push(Source {
            waiting: VecDeque::new(alloc),
            out: 0,
        })?;
    }
    Ok(())
}
