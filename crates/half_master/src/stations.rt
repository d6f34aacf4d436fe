//! The stations of a master's list, each with its own duplicate filter.

ghost use Rattle.std.specs.Prelude.{◌≡◌, ◌<◌, ◌≤◌, length};
ghost use Rattle.pccc_envelope.specs.Envelope.{key_of as key_of_body};
ghost use Rattle.half_master.specs.Stations.{AreStations, listed, is_listed, with_key, place_after};

use arrayvec::ArrayVec;
use pccc_envelope::duplicate_filter::Filter;
use pccc_envelope::key_of;

/// A station: its number, and the key of the last message that was accepted from it.
#[derive(Clone, Copy)]
pub struct Station {
    /// Its number.
    pub number: u8,
    /// Its filter.
    pub kept: Filter,
}

impl Default for Station {
    fn default() -> Station {
        Station {
            number: 0,
            kept: Filter::new(),
        }
    }
}

/// Returns the stations with these numbers, at most 32, of which no key is kept.
pub(crate) fn listed(numbers: &[u8]) -> ArrayVec<Station, 32>
    requires { length numbers.now ≤ 32 }
    ensures { result.items ≡ listed numbers.now }
{
    let mut stations = ArrayVec::new();
    for number in numbers {
        stations.push(Station {
            number: *number,
            kept: Filter::new(),
        });
    }
    stations
}

/// Returns whether a station of the list has this number.
pub(crate) fn is_listed(stations: &[Station], number: u8) -> bool
    ensures { result ≡ is_listed stations.now number }
{
    stations.iter().any(|station| station.number == number)
}

/// Keeps the key of an accepted body for the station at this place.
pub(crate) fn keep(stations: &mut ArrayVec<Station, 32>, place: usize, body: &[u8])
    requires place { place < length stations.old.items }
    requires body { 6 ≤ length body.now }
    ensures { stations.new.items ≡ with_key stations.old.items place (key_of_body body.now) }
{
    let station = &mut stations.as_mut_slice()[place];
    station.kept.keep(key_of(body));
}

/// Returns the place after this one, of a list of at most 32; after the last comes the first.
pub(crate) fn place_after(stations: &[Station], place: usize) -> usize
    requires at { place < length stations.now }
    requires few { length stations.now ≤ 32 }
    ensures { result ≡ place_after stations.now place }
{
    if place + 1 < stations.len() {
        place + 1
    } else {
        0
    }
}
