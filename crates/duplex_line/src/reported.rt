//! What is reported of a run: the lines of its report, and how often an end was deceived.

ghost use Rattle.std.specs.Prelude.{◌≡◌, ◌+◌, ◌≤◌, ◌<◌, ◌^◌, ◌++◌, [], OnOk, OnErr};
ghost use Rattle.std.specs.List.{flat_map};
ghost use Rattle.df1_base.specs.Outside.{Rose, Put, WroteLess, Later};
ghost use Rattle.replay_report.specs.Report.{line_text};
ghost use Rattle.duplex_line.specs.Acts.{after_cell, cell_lines, deceptions_at};

use crate::line_end::LineEnd;
use df1_base::{Act, Failed, NoMemory, Sink};
use lane_cells::{Cell, is_deceived};
use replay_report::{Page, print_lines};
use report_lines::{tell_act, tell_news};
use script_statement::Who;
use std::alloc::Global;

/// The lines so far, and how often an end was deceived.
#[derive(Drop)]
pub(crate) struct Reported {
    pub lines: Page,
    pub deceived: u64,
}

impl Reported {
    /// Writes the lines, if there are any, and drops them. Returns `Failed` if the sink failed; then the sink holds
    /// only a first part of their text.
    #[inline(always)]
    pub fn print<K: Sink>(&mut self, sink: &mut K) -> Result<(), Failed>
        ensures none { OnOk result (self.new.lines ≡ []) }
        ensures count { self.new.deceived ≡ self.old.deceived }
        ensures ok { OnOk result (Put (K.held sink.old) (K.held sink.new) (flat_map line_text self.old.lines)) }
        ensures missing { OnErr result (WroteLess (K.held sink.old) (K.held sink.new) (flat_map line_text self.old.lines)) }
        ensures untouched { self.old.lines ≡ [] → sink.new ≡ sink.old }
        ensures calm { OnOk result (K.faults sink.new ≡ K.faults sink.old) }
        ensures later { Later (K.mark sink.old) (K.mark sink.new) (K.faults sink.old) (K.faults sink.new) }
        ensures cause { OnErr result (Rose (K.faults sink.old) (K.faults sink.new)) }
    {
        if self.lines.as_slice().is_empty() {
            return Ok(());
        }
        self.print_some(sink)
    }

    /// Does the same if there are lines. It isn't inlined, since an event that reports nothing would pay for the
    /// registers that this one saves.
    #[inline(never)]
    fn print_some<K: Sink>(&mut self, sink: &mut K) -> Result<(), Failed>
        ensures none { OnOk result (self.new.lines ≡ []) }
        ensures count { self.new.deceived ≡ self.old.deceived }
        ensures ok { OnOk result (Put (K.held sink.old) (K.held sink.new) (flat_map line_text self.old.lines)) }
        ensures missing { OnErr result (WroteLess (K.held sink.old) (K.held sink.new) (flat_map line_text self.old.lines)) }
        ensures untouched { self.old.lines ≡ [] → sink.new ≡ sink.old }
        ensures calm { OnOk result (K.faults sink.new ≡ K.faults sink.old) }
        ensures later { Later (K.mark sink.old) (K.mark sink.new) (K.faults sink.old) (K.faults sink.new) }
        ensures cause { OnErr result (Rose (K.faults sink.old) (K.faults sink.new)) }
    {
        print_lines(self.lines.as_slice(), sink)?;
        self.lines.clear();
        Ok(())
    }
}

/// Delivers a byte to an end: first the line of the act is reported, then the news. Most bytes mean nothing, and
/// nothing is reported for them.
#[inline(always)]
pub(crate) fn arrive(
    alloc: Global,
    who: Who,
    side: &mut LineEnd,
    cell: &Cell,
    reported: &mut Reported,
) -> Result<(), NoMemory>
    requires { reported.old.deceived + 1 < 2 ^ 64 }
    ensures side { OnOk result (side.new ≡ after_cell side.old cell.now) }
    ensures lines { OnOk result (reported.new.lines ≡ reported.old.lines ++ cell_lines who side.old cell.now) }
    ensures deceived { OnOk result (reported.new.deceived ≡ reported.old.deceived + deceptions_at side.old cell.now) }
    ensures few { reported.new.deceived ≤ reported.old.deceived + 1 }
{
    let step = side.hear(cell);
    if let Act::Nothing = step.act {
        return Ok(());
    }
    if is_deceived(step.whole, cell, side.body()) {
        reported.deceived += 1;
    }
    tell_act(
        alloc,
        who,
        step.act,
        step.did,
        side.body(),
        &mut reported.lines,
    )?;
    tell_news(who, step.news, &mut reported.lines)
}
