//! The bytes that an end sent last, before their line is added to the others.

ghost use Rattle.std.specs.Prelude.{◌≡◌, ◌<◌, [], length, OnOk, OnErr};
ghost use Rattle.std.specs.List.{flat_map};
ghost use Rattle.df1_base.specs.Outside.{Rose, Put, WroteLess, Later};
ghost use Rattle.replay_report.specs.Report.{line_text, sent_lines};
ghost use Rattle.duplex_line.specs.Told.{with_sent};

use df1_base::{Failed, NoMemory, Sink};
use replay_report::{Line, Page, put_sent};
use script_statement::{Bytes, Who};
use std::alloc::Global;
use std::mem;

/// The bytes that an end sent at one event; empty if none are kept. Their memory serves for those of the next event if
/// their line is written before.
#[derive(Drop)]
pub(crate) struct Sent {
    pub who: Who,
    pub bytes: Bytes,
}

impl Sent {
    /// Returns no bytes.
    pub fn new(alloc: Global) -> Sent
        ensures { result.bytes ≡ [] }
    {
        Sent {
            who: Who::A,
            bytes: Bytes::new(alloc),
        }
    }

    /// Appends their line to the others, if there are any.
    pub fn settle(&mut self, alloc: Global, lines: &mut Page) -> Result<(), NoMemory>
        ensures none { OnOk result (self.new.bytes ≡ []) }
        ensures lines { OnOk result (lines.new ≡ with_sent lines.old self.old) }
    {
        if self.bytes.as_slice().is_empty() {
            return Ok(());
        }
        self.put_behind(alloc, lines)
    }

    /// Appends their line to the others. It isn't inlined, since an event that finds none would pay for its stack
    /// space.
    #[cold]
    #[inline(never)]
    fn put_behind(&mut self, alloc: Global, lines: &mut Page) -> Result<(), NoMemory>
        requires { 0 < length self.old.bytes }
        ensures none { OnOk result (self.new.bytes ≡ []) }
        ensures lines { OnOk result (lines.new ≡ with_sent lines.old self.old) }
    {
        let bytes = mem::replace(&mut self.bytes, lines.no_bytes(alloc));
        lines.push(Line::Sent {
            who: self.who,
            bytes,
        })
    }

    /// Writes their line, if there are any, and drops them. Returns `Failed` if the sink failed; then the sink holds
    /// only a first part of the line.
    pub fn print<K: Sink>(&mut self, sink: &mut K) -> Result<(), Failed>
        ensures none { OnOk result (self.new.bytes ≡ []) }
        ensures ok { OnOk result (Put (K.held sink.old) (K.held sink.new) (flat_map line_text (sent_lines self.old.who self.old.bytes))) }
        ensures missing { OnErr result (WroteLess (K.held sink.old) (K.held sink.new) (flat_map line_text (sent_lines self.old.who self.old.bytes))) }
        ensures untouched { self.old.bytes ≡ [] → sink.new ≡ sink.old }
        ensures calm { OnOk result (K.faults sink.new ≡ K.faults sink.old) }
        ensures later { Later (K.mark sink.old) (K.mark sink.new) (K.faults sink.old) (K.faults sink.new) }
        ensures cause { OnErr result (Rose (K.faults sink.old) (K.faults sink.new)) }
    {
        let bytes = self.bytes.as_slice();
        if bytes.is_empty() {
            return Ok(());
        }
        put_sent(sink, self.who, bytes)?;
        self.bytes.clear();
        Ok(())
    }
}
