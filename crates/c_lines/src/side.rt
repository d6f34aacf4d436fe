//! The sides of a line, by their numbers.

ghost use Rattle.std.specs.Prelude.{◌≡◌};
ghost use Rattle.c_lines.specs.Sides.{side_number, side_of as the_side_of};

use half_frame::Side;

/// All sides, by their numbers.
const SIDES: [Side; 3] = [Side::Full, Side::Master, Side::Slave];

/// Returns the number of a side.
fn number_of(side: Side) -> u32
    ensures { result ≡ side_number side }
{
    match side {
        Side::Full => 0,
        Side::Master => 1,
        Side::Slave => 2,
    }
}

/// Returns the side of a number: 0 for a full-duplex line, 1 for the bytes of the master of a half-duplex line, and 2
/// for those of its slaves. None exactly if there is no such side.
pub fn side_of(number: u32) -> Option<Side>
    ensures { result ≡ the_side_of number }
{
    SIDES
        .iter()
        .copied()
        .find(|side| number_of(*side) == number)
}
