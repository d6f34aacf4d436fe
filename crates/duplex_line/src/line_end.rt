//! An end of the line with its node, and the queue of the bytes that it sent.

ghost use Rattle.std.specs.Prelude.{◌≡◌, [], ◌++◌, ◌||◌, IfOk, OnOk, None, false, nat_lt, slice_get};
ghost use Rattle.duplex_receiver.specs.Receiver.{body_at};
ghost use Rattle.duplex_sender.specs.Sender.{phase_of};
ghost use Rattle.df1_node.specs.Initiator.{count_out, issue_fault};
ghost use Rattle.duplex_end.specs.End.{is_waiting, turn_at_tick, gone_at_tick, out_at_take};
ghost use Rattle.script_statement.specs.declared.who.Who.{Who};
ghost use Rattle.script_parts.specs.Playable.{IsPlanOf};
ghost use Rattle.each_once.specs.NodeHost.{node_host};
ghost use Rattle.duplex_line.specs.Acts.{after_issue, after_take, after_leaving, after_alter, after_cell, after_tick, tick_lines, byte_taken, step_of, taken};
ghost use Rattle.duplex_line.specs.Run.{first_side, tables_of};

use arrayvec::ArrayVec;
use df1_base::{NoMemory, Step, Turn};
use df1_check::Check;
use df1_node::{Initiator, IssueFault, Node, Tables};
use duplex_end::End;
use lane_cells::{Cell, Spare};
use outset::{node_of, setup_of};
use script_parts::EndPlan;
use std::alloc::Global;
use std::collections::VecDeque;
use std::marker::Model;

/// An end, and the bytes on their way from it to the other end, with memory for what is known of the end of a
/// transmission.
pub(crate) struct LineEnd {
    end: End<Node>,
    lane: VecDeque<Cell>,
    spare: Spare,
}

// By hand, so that whoever drops one proves nothing of its parts.
impl Drop for LineEnd {
    fn drop(self) {
        let LineEnd {
            end: _end,
            lane: _lane,
            spare: _spare,
        } = self;
    }
}

impl Model for LineEnd {
    ghost use Rattle.std.specs.Coded.{codes};
    ghost use Rattle.df1_node.specs.contracts.node.Node as node_row;
    ghost use Rattle.duplex_line.specs.Acts.{LineEndState};

    ghost Value = { LineEndState };

    ghost coded = { Prim.hlevel (codes, node_row.the_row.coded) };

    ghost view = { λ s. record { end = s.end; lane = s.lane.items } };
}

impl LineEnd {
    /// Returns an end with an empty queue.
    pub fn new(alloc: Global, end: End<Node>) -> LineEnd
        ensures { result ≡ record { end = end; lane = [] } }
    {
        LineEnd {
            end,
            lane: VecDeque::new(alloc),
            spare: Spare::new(),
        }
    }

    /// Issues a command with the SRC `src`, or with the node's own address if that is None. The payload has 1 to 245
    /// bytes, bit 6 of its CMD is clear, and the end has issued fewer than 65,535 commands.
    pub fn issue(&mut self, src: Option<u8>, dst: u8, payload: &[u8]) -> Result<(), NoMemory>
        requires { issue_fault self.old.end.host.initiator payload.now ≡ None }
        ensures { OnOk result (self.new ≡ after_issue self.old src dst payload.now) }
    {
        let node = self.end.host_mut();
        let issued = match src {
            Some(src) => node.issue_from(src, dst, payload),
            None => node.issue(dst, payload),
        };
        match issued {
            Ok(_) => Ok(()),
            Err(IssueFault::NoMemory) => Err(NoMemory),
            Err(_) => unreachable!(),
        }
    }

    /// Sends the next byte, which joins the back of the queue, and returns it; None if there is none.
    #[inline(always)]
    pub fn take(&mut self, alloc: Global) -> Result<Option<u8>, NoMemory>
        ensures state { OnOk result (self.new ≡ after_take self.old) }
        ensures byte { IfOk result (λ byte. byte ≡ byte_taken self.old) }
    {
        let Some(out) = self.end.take() else {
            return Ok(None);
        };
        let cell = Cell::given(alloc, &out, self.end.sending(), &mut self.spare)?;
        self.lane.push_back(cell)?;
        Ok(Some(out.byte))
    }

    /// Removes the head of the queue: None if the queue is empty.
    pub fn leave(&mut self) -> Option<Cell>
        ensures state { self.new ≡ after_leaving self.old }
        ensures cell { result ≡ slice_get self.old.lane 0 }
    {
        self.lane.pop_front()
    }

    /// Keeps the memory of a cell that has arrived or is lost.
    #[inline(always)]
    pub fn keep(&mut self, cell: Cell)
        ensures { self.new ≡ self.old }
    {
        cell.spend(&mut self.spare);
    }

    /// Alters the head of the queue, if there is one, by exclusive or with `mask`.
    pub fn alter(&mut self, mask: u8)
        ensures { self.new ≡ after_alter self.old mask }
    {
        if let Some(cell) = self.lane.front_mut() {
            cell.alter(mask, &mut self.spare);
        }
    }

    /// Passes an arriving byte to the end, and returns what the end made of it.
    #[inline(always)]
    pub fn hear(&mut self, cell: &Cell) -> Step
        ensures state { self.new ≡ after_cell self.old cell.now }
        ensures step { result ≡ step_of self.old cell.now }
    {
        self.end.on_byte(cell.byte)
    }

    /// Returns the body of the frame that ended at the last byte received; otherwise empty.
    pub fn body(&self) -> &[u8]
        ensures { result.now ≡ body_at self.now.end.receiver }
    {
        self.end.body()
    }

    /// Returns whether a tick counts: the end waits for a response, or a command for its reply. While neither does, a
    /// tick changes nothing, and nothing is reported of it.
    pub fn counts_ticks(&self) -> bool
        ensures counts { result ≡ is_waiting (phase_of self.now.end.sender) || nat_lt 0 (count_out self.now.end.host.initiator.issued) }
        ensures still { result ≡ false → (after_tick self.now ≡ self.now) × ((who : Who) → tick_lines who self.now ≡ []) }
    {
        self.end.is_waiting() || self.initiator().has_outstanding()
    }

    /// Lets a tick pass. `gone` is replaced by the commands that are unanswered from this tick on.
    pub fn tick(&mut self, gone: &mut ArrayVec<u32, 16>) -> Turn
        ensures state { self.new ≡ after_tick self.old }
        ensures turn { result ≡ turn_at_tick node_host self.old.end }
        ensures gone { gone.new.items ≡ gone_at_tick node_host self.old.end }
    {
        self.end.on_tick(gone)
    }

    /// Returns the initiator of the node.
    pub fn initiator(&self) -> &Initiator
        ensures { result.now ≡ self.now.end.host.initiator }
    {
        self.end.host().initiator()
    }

    /// Returns the data tables of the node.
    pub fn tables(&self) -> &Tables
        ensures { result.now ≡ tables_of self.now }
    {
        self.end.host().tables()
    }
}

/// Makes an end from its plan, which has received, sent and issued nothing.
pub(crate) fn side_of(alloc: Global, check: Check, plan: &EndPlan) -> Result<LineEnd, NoMemory>
    requires { IsPlanOf plan.now.who plan.now }
    ensures { IfOk result (λ side. side ≡ first_side check plan.now) }
{
    let node = node_of(alloc, plan)?;
    Ok(LineEnd::new(alloc, End::new(setup_of(check, plan), node)))
}
