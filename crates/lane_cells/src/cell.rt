//! The cells of a queue: a byte on its way, with what is known of its origin. A cell takes 24 bytes: few bytes end a
//! transmission, and what is known of its end is stored apart.

ghost use Rattle.std.specs.Prelude.{◌≡◌, IfOk, None, Some, bit_xor};
ghost use Rattle.lane_cells.specs.Cells.{bare, cell_of, ending_of};
ghost use Rattle.lane_cells.specs.Deception.{is_sent as is_body_sent};
ghost use Rattle.lane_cells.specs.Marks.{body_of_marks, ending_of_marks};

use df1_base::{NoMemory, Out};
use std::alloc::Global;
use std::marker::Model;
use std::mem;

/// The end of a transmission.
#[derive(Drop)]
struct Ended {
    /// The number of the transmission, counted from 1 at its end of the line.
    number: u64,
    /// The body of its message.
    body: Vec<u8>,
    /// The number of the transmission of which the byte is a one-byte body unit.
    body_of: Option<u64>,
}

impl Ended {
    /// Allocates memory for the end of a transmission.
    fn boxed(alloc: Global) -> Result<Box<Ended>, NoMemory> {
        let ended = Ended {
            number: 0,
            body: Vec::new(alloc),
            body_of: None,
        };
        Ok(Box::new(alloc, ended)?)
    }
}

/// Reusable memory for what is known of the end of a transmission. Contracts see nothing of it.
#[derive(Drop)]
pub struct Spare {
    ended: Option<Box<Ended>>,
}

impl Model for Spare {
    ghost Value = { Unit {0} };

    ghost view = { λ s. tt };
}

impl Spare {
    /// Returns a spare that holds no memory yet.
    pub fn new() -> Spare {
        Spare { ended: None }
    }
}

/// What is known of a byte.
#[derive(Drop)]
enum Marks {
    /// Nothing.
    Nothing,
    /// It is a one-byte body unit of the transmission of this number.
    Body(u64),
    /// It is the last byte of a transmission.
    End(Box<Ended>),
}

/// A byte on its way.
#[derive(Drop)]
pub struct Cell {
    pub byte: u8,
    marks: Marks,
}

impl Model for Cell {
    ghost use Rattle.lane_cells.specs.Cells.{LaneCell};
    ghost use Rattle.lane_cells.specs.Marks.{ending_of_marks, body_of_marks};

    ghost Value = { LaneCell };

    ghost view = { λ c. record { byte = c.byte; ends = ending_of_marks c.marks; body_of = body_of_marks c.marks } };
}

impl Cell {
    /// Returns a byte of which nothing is known.
    pub fn bare(byte: u8) -> Cell
        ensures { result ≡ bare byte }
    {
        Cell {
            byte,
            marks: Marks::Nothing,
        }
    }

    /// Returns a byte that an end sent while it transmitted this body. If it ends the transmission, what is known of
    /// that is put in the spare memory, if there is any.
    #[inline(always)]
    pub fn given(
        alloc: Global,
        out: &Out,
        sending: &[u8],
        spare: &mut Spare,
    ) -> Result<Cell, NoMemory>
        ensures { IfOk result (λ cell. cell ≡ cell_of sending.now out.now) }
    {
        match out.last_of {
            None => Ok(Cell::within(out.byte, out.body_of)),
            Some(number) => Cell::last(alloc, out.byte, number, sending, out.body_of, spare),
        }
    }

    /// Returns a byte that ends no transmission. If it is a one-byte body unit of one, `body_of` is the number of that
    /// transmission.
    #[inline(always)]
    fn within(byte: u8, body_of: Option<u64>) -> Cell
        ensures { result ≡ record { byte = byte; ends = None; body_of = body_of } }
    {
        let marks = match body_of {
            Some(number) => Marks::Body(number),
            None => Marks::Nothing,
        };
        Cell { byte, marks }
    }

    /// Returns the last byte of the transmission of this number and body.
    #[inline(never)]
    fn last(
        alloc: Global,
        byte: u8,
        number: u64,
        body: &[u8],
        body_of: Option<u64>,
        spare: &mut Spare,
    ) -> Result<Cell, NoMemory>
        ensures { IfOk result (λ cell. cell ≡ record { byte = byte; ends = Some (ending_of body.now number); body_of = body_of }) }
    {
        let mut ended = match spare.ended.take() {
            Some(ended) => ended,
            None => Ended::boxed(alloc)?,
        };
        ended.number = number;
        ended.body_of = body_of;
        ended.body.clear();
        ended.body.extend_from_slice(body)?;
        Ok(Cell {
            byte,
            marks: Marks::End(ended),
        })
    }

    /// Alters the byte by exclusive or with `mask`; from then on nothing is known of it. The memory of what was known
    /// is kept.
    #[inline(always)]
    pub fn alter(&mut self, mask: u8, spare: &mut Spare)
        ensures { self.new ≡ bare (bit_xor self.old.byte mask) }
    {
        let altered = Cell::bare(self.byte ^ mask);
        mem::replace(self, altered).spend(spare);
    }

    /// Drops a cell, and keeps the memory of what was known of a transmission's end, if it has any.
    #[inline(always)]
    pub fn spend(self, spare: &mut Spare) {
        let Cell { marks, .. } = self;
        if let Marks::End(ended) = marks {
            spare.ended = Some(ended);
        }
    }

    /// Returns whether a transmission with this body ends there.
    pub fn ends(&self, body: &[u8]) -> bool
        ensures { result ≡ is_body_sent self.now.ends body.now }
    {
        match &self.marks {
            Marks::End(ended) => ended.body.as_slice() == body,
            Marks::Nothing | Marks::Body(_) => false,
        }
    }
}
