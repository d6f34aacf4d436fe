//! The stations that lines declared, in the order of their polls, and what is known of each.
ghost use Rattle.std.specs.Prelude.{◌≡◌, ◌≤◌, ◌++◌, [], OnOk, find, length, option_map, position};
ghost use Rattle.script_parts.specs.HalfPlayable.{is_declared};
ghost use Rattle.half_script.specs.Stations.{declared as the_declared, has_number, line_taken, numbers_in, plans_of, with_station, with_station_command, with_station_line};

use df1_base::NoMemory;
use end_drafts::EndDraft;
use script_parts::Ends;
use script_statement::{SetupStatement, Who};
use std::alloc::Global;
use std::collections::BTreeMap;
use std::marker::Model;

/// The most stations of a line.
pub(crate) const STATIONS: usize = 32;

/// A station, and what is known of it.
#[derive(Drop)]
pub struct StationDraft {
    pub number: u8,
    pub end: EndDraft,
}

/// Stations, which contracts see as a list; a look-up of a number doesn't scan the list.
#[derive(Drop)]
pub struct Stations {
    list: Vec<StationDraft>,
    places: BTreeMap<u32, usize>,
}

impl Model for Stations {
    ghost use Rattle.std.specs.Prelude.{List};
    ghost use Rattle.half_script.specs.declared.stations.StationDraft.{StationDraft as OneStation};

    ghost Value = { List OneStation };

    ghost use Rattle.half_script.specs.Stations.{ArePlaces};

    ghost view = { λ s. s.list.items };

    ghost invariant = { λ s. ArePlaces s.places s.list.items };
}

impl Stations {
    /// Returns an empty list of stations.
    pub fn new(alloc: Global) -> Self
        ensures { result ≡ [] }
    {
        Stations {
            list: Vec::new(alloc),
            places: BTreeMap::new(alloc),
        }
    }

    /// Returns how many stations there are.
    pub fn len(&self) -> usize
        ensures value { result ≡ length self.now }
        ensures most { result ≤ 32 }
    {
        self.list.len()
    }

    /// Returns the index of the first station of this number.
    fn place(&self, number: u32) -> Option<usize>
        ensures { result ≡ position (has_number number) self.now }
    {
        self.places.get(&number).copied()
    }

    /// Returns whether a station has this number.
    pub fn has(&self, number: u32) -> bool
        ensures { result ≡ is_declared (numbers_in self.now) number }
    {
        self.places.contains_key(&number)
    }

    /// Returns the first station of this number.
    pub fn find(&self, number: u32) -> Option<&StationDraft>
        ensures { option_map (λ station. station.now) result ≡ find (has_number number) self.now }
    {
        match self.place(number) {
            Some(place) => self.list.get(place),
            None => None,
        }
    }

    /// Returns the number, if a station has it.
    pub fn declared(&self, number: u32) -> Option<u8>
        ensures { result ≡ the_declared (numbers_in self.now) number }
    {
        match self.find(number) {
            Some(station) => Some(station.number),
            None => None,
        }
    }

    /// Appends a station of which no line said anything; if there are 32, the stations are unchanged. If there is no
    /// memory for it, the stations may only be dropped.
    pub fn push(&mut self, alloc: Global, number: u8) -> Result<(), NoMemory>
        ensures { OnOk result (self.new ≡ with_station self.old number) }
    {
        if self.list.len() >= STATIONS {
            return Ok(());
        }
        let key = u32::from(number);
        let place = self.place(key).unwrap_or(self.list.len());
        let station = StationDraft {
            number,
            end: EndDraft::new(alloc),
        };
        self.list.push(station)?;
        match self.places.insert(key, place) {
            Ok(_) => Ok(()),
            Err(refused) => {
                let _ = self.list.pop();
                Err(refused.into())
            }
        }
    }

    /// Accepts a line of the first station of this number, if there is one. If there is no memory for it, the stations
    /// may only be dropped.
    pub fn take(&mut self, number: u32, line: SetupStatement) -> Result<(), NoMemory>
        ensures { OnOk result (self.new ≡ with_station_line self.old number line) }
    {
        match self.place(number) {
            Some(place) => self.list[place].take(line),
            None => Ok(()),
        }
    }

    /// Counts a command of the first station of this number, if there is one.
    pub fn count_command(&mut self, number: u32)
        ensures { self.new ≡ with_station_command self.old number }
    {
        if let Some(place) = self.place(number) {
            self.list[place].end.count_command();
        }
    }

    /// Appends the plans of the stations to those of other ends.
    pub fn add_plans(&self, alloc: Global, ends: &mut Ends) -> Result<(), NoMemory>
        ensures { OnOk result (ends.new ≡ ends.old ++ plans_of self.now) }
    {
        for station in &self.list {
            ends.push(
                station
                    .end
                    .plan(alloc, Who::S(station.number), station.number)?,
            )?;
        }
        Ok(())
    }
}

impl StationDraft {
    /// Accepts a line of the station.
    fn take(&mut self, line: SetupStatement) -> Result<(), NoMemory>
        ensures taken { OnOk result (self.new ≡ line_taken self.old line) }
        ensures number { self.new.number ≡ self.old.number }
    {
        self.end.take(Who::S(self.number), line)
    }
}
