//! A decoder of one side of a line: that of full-duplex frames, or a receiver of a half-duplex line.

ghost use Rattle.std.specs.Prelude.{◌≡◌, ◌≤◌, ◌∷◌, ◌++◌, [], ℕ, List, length};
ghost use Rattle.df1_check.specs.declared.Check.{Check as CheckKind};
ghost use Rattle.half_frame.specs.declared.side.Side.{Side as LineSide};
ghost use Rattle.c_lines.specs.Arrived.{IsBody, IsHearing, StandsFor};
ghost use Rattle.c_lines.specs.Decoders.{after_byte, hearing_at, lent_by, new_decoder};

use crate::hearing::{Hearing, of_full, of_master, of_slaves};
use df1_check::Check;
use df1_frame::Decoder;
use half_frame::{MasterEar, Side, SlaveEar};

/// A decoder of one side of a line, with room for a body of 250 bytes.
#[derive(Drop)]
pub enum LineDecoder {
    /// That of a full-duplex line.
    Full(Decoder<250>),
    /// That of the bytes that the master of a half-duplex line sends.
    OfMaster(SlaveEar<250>),
    /// That of the bytes that the slaves of a half-duplex line send.
    OfSlaves(MasterEar<250>),
}

impl LineDecoder {
    /// Creates a decoder of this side, of a line with this check, that has received nothing.
    pub fn new(side: Side, check: Check) -> LineDecoder
        ensures stands { StandsFor side check [] result }
        ensures value { result ≡ new_decoder side check }
    {
        match side {
            Side::Full => LineDecoder::Full(Decoder::new(check)),
            Side::Master => LineDecoder::OfMaster(SlaveEar::new(check)),
            Side::Slave => LineDecoder::OfSlaves(MasterEar::new(check)),
        }
    }

    /// Receives a byte, and returns what is decoded at it.
    pub fn feed(&mut self, byte: u8) -> Hearing
        ensures stands { (side : LineSide) (check : CheckKind) (bytes : List ℕ) → StandsFor side check bytes self.old → StandsFor side check (bytes ++ byte ∷ []) self.new }
        ensures heard { (side : LineSide) (check : CheckKind) (bytes : List ℕ) → StandsFor side check bytes self.old → IsHearing side check (bytes ++ byte ∷ []) result }
        ensures value { self.new ≡ after_byte self.old byte }
        ensures told { result ≡ hearing_at self.old byte }
    {
        self.advance(byte)
    }

    fn advance(&mut self, byte: u8) -> Hearing
        ensures value { self.new ≡ after_byte self.old byte }
        ensures told { result ≡ hearing_at self.old byte }
    {
        match self {
            LineDecoder::Full(decoder) => of_full(decoder.feed(byte)),
            LineDecoder::OfMaster(ear) => of_master(ear.feed(byte)),
            LineDecoder::OfSlaves(ear) => of_slaves(ear.feed(byte)),
        }
    }

    /// Returns the body, at most 250 bytes, of the frame or message that ended at the latest byte: a full-duplex frame
    /// that is good, too short or has a wrong check, or a good half-duplex message. Otherwise it is empty.
    pub fn body(&self) -> &[u8]
        ensures lent { (side : LineSide) (check : CheckKind) (bytes : List ℕ) → StandsFor side check bytes self.now → IsBody side check bytes result.now }
        ensures value { result.now ≡ lent_by self.now }
    {
        self.lent()
    }

    fn lent(&self) -> &[u8]
        ensures { result.now ≡ lent_by self.now }
    {
        match self {
            LineDecoder::Full(decoder) => decoder.body(),
            LineDecoder::OfMaster(ear) => ear.body(),
            LineDecoder::OfSlaves(ear) => ear.body(),
        }
    }
}
