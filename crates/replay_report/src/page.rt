//! The lines of a report that wait to be written, in memory that is reused.

ghost use Rattle.std.specs.Prelude.{◌≡◌, ◌++◌, ◌∷◌, [], OnOk, OnErr};

use crate::{Line, Lines};
use df1_base::NoMemory;
use script_statement::{Bytes, Items, Who};
use std::alloc::Global;
use std::marker::Model;

/// The lines that wait to be written. The memory of the bytes of dropped lines serves for the next ones; contracts see
/// only the lines.
#[derive(Drop)]
pub struct Page {
    lines: Vec<Line>,
    spare: Vec<Bytes>,
}

impl Model for Page {
    ghost use Rattle.std.specs.Prelude.{List};
    ghost use Rattle.replay_report.specs.declared.record.Line.{Line as OneLine};

    ghost Value = { List OneLine };

    ghost view = { λ p. p.lines.items };
}

impl Page {
    ghost use Rattle.replay_report.specs.Report.{sent_lines};

    /// Returns an empty page.
    pub fn new(alloc: Global) -> Page
        ensures { result ≡ [] }
    {
        Page {
            lines: Vec::new(alloc),
            spare: Vec::new(alloc),
        }
    }

    /// Appends a line. Without memory for it, the lines are unchanged.
    pub fn push(&mut self, line: Line) -> Result<(), NoMemory>
        ensures ok { OnOk result (self.new ≡ self.old ++ line ∷ []) }
        ensures err { OnErr result (self.new ≡ self.old) }
    {
        match self.lines.push(line) {
            Ok(()) => Ok(()),
            Err(refused) => Err(refused.into()),
        }
    }

    /// Appends the line of the bytes that an end sent, if there are any. Without memory for it, the lines are
    /// unchanged.
    pub fn push_sent(&mut self, who: Who, bytes: Bytes) -> Result<(), NoMemory>
        ensures ok { OnOk result (self.new ≡ self.old ++ sent_lines who bytes) }
        ensures err { OnErr result (self.new ≡ self.old) }
    {
        if bytes.as_slice().is_empty() {
            self.keep(bytes);
            return Ok(());
        }
        self.push(Line::Sent { who, bytes })
    }

    /// Returns no bytes, for a line: in memory of a dropped line, if there is any.
    pub fn no_bytes(&mut self, alloc: Global) -> Bytes
        ensures none { result ≡ [] }
        ensures lines { self.new ≡ self.old }
    {
        match self.spare.pop() {
            Some(mut bytes) => {
                bytes.clear();
                bytes
            }
            None => Bytes::new(alloc),
        }
    }

    /// Keeps the memory of bytes that no line needs any more, if there is room for it.
    pub fn keep(&mut self, bytes: Bytes)
        ensures { self.new ≡ self.old }
    {
        let _ = self.spare.push(bytes);
    }

    /// Drops the lines, and keeps the memory of their bytes.
    pub fn clear(&mut self)
        ensures { self.new ≡ [] }
    {
        while let Some(line) = self.lines.pop() {
            self.keep_of(line);
        }
    }

    /// Keeps the memory of the bytes of a line, if it has any.
    fn keep_of(&mut self, line: Line)
        ensures { self.new ≡ self.old }
    {
        match line {
            Line::Sent { bytes: kept, .. }
            | Line::Exec { body: kept, .. }
            | Line::Answered { body: kept, .. }
            | Line::Stray { body: kept, .. }
            | Line::Routed { body: kept, .. } => self.keep(kept),
            Line::Undelivered { .. }
            | Line::Unanswered { .. }
            | Line::Repeat { .. }
            | Line::Full { .. }
            | Line::Damaged { .. }
            | Line::Enquiry { .. }
            | Line::Dropped { .. } => {}
        }
    }

    /// Returns the lines, the first one first.
    pub fn as_slice(&self) -> &[Line]
        ensures { result.now ≡ self.now }
    {
        &self.lines
    }

    /// Returns the lines as a list.
    pub fn into_lines(self) -> Lines
        ensures { result ≡ self }
    {
        let Page { lines, .. } = self;
        Items::from_vec(lines)
    }
}
