//! Laws of the dissection of every list of bytes, and two captures with their text. The functions do nothing.
ghost use Rattle.std.specs.Prelude.{◌≡◌, ℕ, List, [], ◌∷◌, ◌++◌, codes};
ghost use Rattle.df1_check.specs.declared.Check.TheVariants as checks;
ghost use Rattle.half_frame.specs.declared.side.Side.TheVariants as sides;
ghost use Rattle.df1_dissect.specs.Dissection.{Dissects};

use df1_check::Check;
use half_frame::Side;

/// Every list of bytes has exactly one text.
pub fn one_dissection(side: Side, check: Check)
    ensures exists { (bytes : List ℕ) → (text : List ℕ) × Dissects side check bytes text }
    ensures only { (bytes text other : List ℕ) → Dissects side check bytes text → Dissects side check bytes other → text ≡ other }
{}

/// A full-duplex capture that ends inside a frame, and one of the master's that ends inside a message.
pub fn worked_captures()
    ensures full { Dissects sides.Full checks.Bcc
        (0x55 ∷ 0x10 ∷ 0x06 ∷ 0x10 ∷ 0x02 ∷ 0x08 ∷ 0x09 ∷ 0x06 ∷ 0x00 ∷ 0x02 ∷ 0x04 ∷ 0x03 ∷ 0x10 ∷ 0x03 ∷ 0xE0 ∷ 0x10 ∷ 0x02 ∷ 0x01 ∷ [])
        (codes "0 0 stray 55\n" ++ codes "1 2 ack\n" ++ codes "3 14 good dst=08 src=09 cmd=06 sts=00 tns=0402 status 03\n" ++ codes "15 17 open\n") }
    ensures master { Dissects sides.Master checks.Bcc
        (0x10 ∷ 0x05 ∷ 0x03 ∷ 0xFD ∷ 0x10 ∷ 0x01 ∷ 0x03 ∷ 0x10 ∷ 0x02 ∷ 0x41 ∷ [])
        (codes "0 3 poll 03\n" ++ codes "4 9 open\n") }
{}
