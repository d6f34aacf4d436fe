//! When an end is deceived: it receives a whole message at a byte where no transmission of the other end ended, or one
//! of another body (manual topics: full-duplex protocol, half-duplex protocol).

ghost use Rattle.std.specs.Prelude.{◌≡◌};
ghost use Rattle.lane_cells.specs.Deception.{is_deception, is_station_deception, is_to as the_station_test};

use crate::cell::Cell;

/// Returns whether a whole message of this body is received at a byte where no transmission ends, or one of another
/// body.
pub fn is_deceived(whole: bool, cell: &Cell, body: &[u8]) -> bool
    ensures { result ≡ is_deception whole cell.now.ends body.now }
{
    whole && !cell.ends(body)
}

/// Returns the same at a station of a half-duplex line for a received message that names a station. A station is
/// deceived also if the transmission that ends there is for another station, by the first byte of its body.
pub fn is_station_deceived(whole: bool, station: u8, cell: &Cell, body: &[u8]) -> bool
    ensures { result ≡ is_station_deception whole station cell.now.ends body.now }
{
    whole && !(cell.ends(body) && is_to(station, body))
}

/// Returns whether a body is for this station.
fn is_to(station: u8, body: &[u8]) -> bool
    ensures { result ≡ the_station_test station body.now }
{
    match body {
        [first, ..] => *first == station,
        [] => false,
    }
}
