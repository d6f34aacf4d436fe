//! The two directions between the master and a station.

ghost use Rattle.std.specs.Prelude.{◌≡◌};
ghost use Rattle.half_line.specs.Run.{station_between as the_station_between, way_from as the_way_from};

use script_statement::Who;

/// The direction of bytes between the master and a station.
#[derive(Clone, Copy)]
pub enum Way {
    /// From the master to the station.
    ToStation,
    /// From the station to the master.
    ToMaster,
}

/// Returns the direction of the bytes of an end.
pub(crate) fn way_from(from: Who) -> Way
    ensures { result ≡ the_way_from from }
{
    match from {
        Who::S(_) => Way::ToMaster,
        Who::A | Who::B | Who::M => Way::ToStation,
    }
}

/// Returns the number of the station of a queue; 0 if neither end is a station.
pub(crate) fn station_between(from: Who, to: Who) -> u8
    ensures { result ≡ the_station_between from to }
{
    match (from, to) {
        (Who::S(number), _) | (_, Who::S(number)) => number,
        _ => 0,
    }
}
