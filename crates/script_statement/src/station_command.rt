//! The line by which a station issues a command: `Si T HEX`.
ghost use Rattle.std.specs.Prelude.{◌≡◌, map, IfOk};
ghost use Rattle.script_statement.specs.Statements.{from_station as the_event, issue_by as the_issue_by, issue_to as the_issue, station_issue as the_command};

use crate::Bytes;
use crate::event_line::payload_of;
use crate::half_event::HalfEvent;
use crate::statement::{EndName, end_of};
use crate::words::{hex_of, number_of};
use df1_base::NoMemory;
use std::alloc::Global;

/// Returns the command that a station issues by the words of a line: `Si T HEX`, where S and T are the numbers of both
/// stations, and HEX is the payload, CMD included. Returns None exactly if the words are not of this form.
#[tactic(auto, unfolding(crate::specs::Statements::station_issue))]
pub fn station_issue(alloc: Global, words: &[&[u8]]) -> Result<Option<HalfEvent>, NoMemory>
    ensures { IfOk result (λ event. event ≡ the_command (map (λ x. x.now) words.now)) }
{
    match words {
        [word, to, operand] => issue_by(alloc, word, to, operand),
        _ => Ok(None),
    }
}

/// Returns a command of the station that a word names before its letter.
fn issue_by(
    alloc: Global,
    word: &[u8],
    to: &[u8],
    operand: &[u8],
) -> Result<Option<HalfEvent>, NoMemory>
    ensures { IfOk result (λ event. event ≡ the_issue_by word.now to.now operand.now) }
{
    match word {
        [end @ .., verb] => from_station(alloc, end_of(end), *verb, number_of(to), operand),
        [] => Ok(None),
    }
}

/// Returns an event of a station with the number of another end and an operand.
fn from_station(
    alloc: Global,
    end: Option<EndName>,
    verb: u8,
    to: Option<u32>,
    operand: &[u8],
) -> Result<Option<HalfEvent>, NoMemory>
    ensures { IfOk result (λ event. event ≡ the_event end verb to operand.now) }
{
    match (end, verb) {
        (Some(EndName::Station(station)), b'i') => {
            Ok(issue_to(station, to, hex_of(alloc, operand)?))
        }
        _ => Ok(None),
    }
}

/// Returns a command of a station.
fn issue_to(station: u32, to: Option<u32>, payload: Option<Bytes>) -> Option<HalfEvent>
    ensures { result ≡ the_issue station to payload }
{
    Some(HalfEvent::StationIssue {
        station,
        to: to?,
        payload: payload_of(payload?),
    })
}
