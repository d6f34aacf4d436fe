//! A station of the line with its node, and the queues of the bytes to it and from it.

ghost use Rattle.std.specs.Prelude.{◌≡◌, [], ◌∷◌, ◌++◌, IfOk, OnOk, None, slice_get};
ghost use Rattle.df1_node.specs.Initiator.{issue_fault};
ghost use Rattle.half_slave.specs.Slave.{body_of};
ghost use Rattle.half_slave.specs.Slave as slave_of;
ghost use Rattle.script_parts.specs.HalfPlayable.{IsStationPlan, IsStationNumber};
ghost use Rattle.lane_cells.specs.Cells.{altered, cell_of};
ghost use Rattle.each_once.specs.NodeHost.{node_host};
ghost use Rattle.half_line.specs.Acts.{LaneDeed, Lose, Alter, joined, side_moved, lane_of, after_take, byte_taken, station_heard};
ghost use Rattle.half_line.specs.Run.{first_side, tables_of};
ghost use Rattle.half_line.specs.Plays.{side_issued};

use crate::setup::slave_setup;
use crate::way::Way;
use df1_base::{NoMemory, Out, Step};
use df1_check::Check;
use df1_node::{Initiator, Node, Tables};
use half_slave::Slave;
use lane_cells::{Cell, Spare};
use outset::node_of;
use script_parts::EndPlan;
use station_router::MasterHost;
use std::alloc::Global;
use std::collections::VecDeque;
use std::marker::Model;

/// A station, and the bytes on their way to it and from it.
pub(crate) struct LineStation {
    /// Its number.
    number: u8,
    slave: Slave<Node>,
    to_it: VecDeque<Cell>,
    from_it: VecDeque<Cell>,
    /// Memory for the next cell that ends a transmission.
    spare: Spare,
}

// By hand, so that whoever drops one proves nothing of its parts.
impl Drop for LineStation {
    fn drop(self) {
        let LineStation {
            number: _,
            slave: _slave,
            to_it: _to_it,
            from_it: _from_it,
            spare: _spare,
        } = self;
    }
}

impl Model for LineStation {
    ghost use Rattle.std.specs.Coded.{codes};
    ghost use Rattle.df1_node.specs.contracts.node.Node as node_row;
    ghost use Rattle.half_line.specs.Acts.{LineStationState};

    ghost Value = { LineStationState };

    ghost coded = { Prim.hlevel (codes, node_row.the_row.coded) };

    ghost view = { λ s. record { number = s.number; slave = s.slave; to_it = s.to_it.items; from_it = s.from_it.items } };
}

impl LineStation {
    /// Returns a station with empty queues.
    pub fn new(alloc: Global, number: u8, slave: Slave<Node>) -> LineStation
        ensures { result ≡ record { number = number; slave = slave; to_it = []; from_it = [] } }
    {
        LineStation {
            number,
            slave,
            to_it: VecDeque::new(alloc),
            from_it: VecDeque::new(alloc),
            spare: Spare::new(),
        }
    }

    /// Returns its number.
    pub fn number(&self) -> u8
        ensures { result ≡ self.now.number }
    {
        self.number
    }

    /// Appends a byte that the master sent while it transmitted this body to the queue to the station.
    pub fn join(&mut self, alloc: Global, out: &Out, sending: &[u8]) -> Result<(), NoMemory>
        ensures { OnOk result (self.new ≡ joined (cell_of sending.now out.now ∷ []) self.old) }
    {
        let cell = Cell::given(alloc, out, sending, &mut self.spare)?;
        self.to_it.push_back(cell)?;
        Ok(())
    }

    /// Sends the next byte, which joins the back of the queue to the master, and returns it; None if there is none.
    pub fn take(&mut self, alloc: Global) -> Result<Option<u8>, NoMemory>
        ensures state { OnOk result (self.new ≡ after_take self.old) }
        ensures byte { IfOk result (λ byte. byte ≡ byte_taken self.old) }
    {
        let Some(out) = self.slave.take() else {
            return Ok(None);
        };
        let cell = Cell::given(alloc, &out, self.slave.sending(), &mut self.spare)?;
        self.from_it.push_back(cell)?;
        Ok(Some(out.byte))
    }

    /// Removes the head of the queue of this direction: None if the queue is empty.
    pub fn leave(&mut self, way: Way) -> Option<Cell>
        ensures state { self.new ≡ side_moved way self.old Lose }
        ensures cell { result ≡ slice_get (lane_of way self.old) 0 }
    {
        match way {
            Way::ToStation => self.to_it.pop_front(),
            Way::ToMaster => self.from_it.pop_front(),
        }
    }

    /// Alters the head of the queue of this direction, if there is one, by exclusive or with `mask`.
    pub fn alter(&mut self, way: Way, mask: u8)
        ensures { self.new ≡ side_moved way self.old (Alter mask) }
    {
        match way {
            Way::ToStation => alter(&mut self.to_it, &mut self.spare, mask),
            Way::ToMaster => alter(&mut self.from_it, &mut self.spare, mask),
        }
    }

    /// Keeps the memory of a cell that has arrived or is lost.
    pub fn keep(&mut self, cell: Cell)
        ensures { self.new ≡ self.old }
    {
        cell.spend(&mut self.spare);
    }

    /// Passes an arriving byte to the station, and returns what the station made of it.
    pub fn hear(&mut self, byte: u8) -> Step
        ensures state { self.new ≡ station_heard self.old byte }
        ensures step { result ≡ slave_of.step_at_byte node_host self.old.slave byte }
    {
        self.slave.on_byte(byte)
    }

    /// Returns the body of the whole message that was received at the last byte, for any station; otherwise empty.
    pub fn body(&self) -> &[u8]
        ensures { result.now ≡ body_of self.now.slave }
    {
        self.slave.body()
    }

    /// Lets the node issue a command with its own address as SRC. The payload has 1 to 245 bytes, bit 6 of its CMD is
    /// clear, and the node has issued fewer than 65,535 commands.
    pub fn issue(&mut self, dst: u8, payload: &[u8]) -> Result<(), NoMemory>
        requires { issue_fault self.old.slave.host.initiator payload.now ≡ None }
        ensures { OnOk result (self.new ≡ side_issued self.old dst payload.now) }
    {
        MasterHost::issue(self.slave.host_mut(), None, dst, payload)
    }

    /// Returns the initiator of the node.
    pub fn initiator(&self) -> &Initiator
        ensures { result.now ≡ self.now.slave.host.initiator }
    {
        self.slave.host().initiator()
    }

    /// Returns the data tables of the node.
    pub fn tables(&self) -> &Tables
        ensures { result.now ≡ tables_of self.now }
    {
        self.slave.host().tables()
    }
}

/// Alters the head of a queue, if there is one, by exclusive or with `mask`.
fn alter(lane: &mut VecDeque<Cell>, spare: &mut Spare, mask: u8)
    ensures { lane.new.items ≡ altered mask lane.old.items }
{
    if let Some(cell) = lane.front_mut() {
        cell.alter(mask, spare);
    }
}

/// Makes a station from its plan, which has received and sent nothing.
pub(crate) fn side_of(alloc: Global, check: Check, plan: &EndPlan) -> Result<LineStation, NoMemory>
    requires plan { IsStationPlan plan.now }
    requires number { IsStationNumber plan.now.node }
    ensures { IfOk result (λ side. side ≡ first_side check plan.now) }
{
    let node = node_of(alloc, plan)?;
    let slave = Slave::new(slave_setup(check, plan), node);
    Ok(LineStation::new(alloc, plan.node, slave))
}
