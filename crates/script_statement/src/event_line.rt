//! The lines that are events: one word of an end and the letter of a verb, and for most an operand. Between the two
//! there may be a source, and for the master a station.
ghost use Rattle.std.specs.Prelude.{◌≡◌, IfOk};
ghost use Rattle.script_statement.specs.Statements.{verb_of as the_verb, times_of as the_times_of, times_line as the_times, bare_event as the_bare, operand_event as the_operand, number_operand_event as the_number_operand, source_operand_event as the_source_operand, event_alone as the_alone, event_with as the_with, event_to as the_to, event_to_from as the_to_from, side_from as the_side_from, source_of as the_source, issue_from as the_issue_from, side_event as the_side_event, issue_line as the_issue, alter_line as the_alter, foreign_line as the_foreign, payload_of as the_payload, mask_of as the_mask, foreign_of as the_foreign_bytes, half_line as the_half, is_payload as the_test};

use crate::Bytes;
use crate::half_event::{
    HalfEvent, master_event, master_times, station_event, station_once, to_station, to_station_from,
};
use crate::statement::{EVENTS, EndLetter, EndName, Statement, Verb, end_of};
use crate::words::{byte_of, hex_of, is_within, number_of, within};
use df1_base::{MAX_BODY, MAX_PAYLOAD, NoMemory, REPLY};
use std::alloc::Global;

/// The most foreign bytes of one event: as many as a body may have.
const FOREIGN: usize = MAX_BODY;

/// The highest source.
const HIGHEST_SOURCE: u32 = 255;

/// Returns the event of one word.
pub(crate) fn bare_event(word: &[u8]) -> Option<Statement>
    ensures { result ≡ the_bare word.now }
{
    match word {
        [end @ .., verb] => event_alone(end_of(end), *verb),
        [] => None,
    }
}

/// Returns the event of a word and an operand.
pub(crate) fn operand_event(
    alloc: Global,
    word: &[u8],
    operand: &[u8],
) -> Result<Option<Statement>, NoMemory>
    ensures { IfOk result (λ s. s ≡ the_operand word.now operand.now) }
{
    match word {
        [end @ .., verb] => event_with(alloc, end_of(end), *verb, operand),
        [] => Ok(None),
    }
}

/// Returns the event of a word, a number and an operand.
pub(crate) fn number_operand_event(
    alloc: Global,
    word: &[u8],
    number: &[u8],
    operand: &[u8],
) -> Result<Option<Statement>, NoMemory>
    ensures { IfOk result (λ s. s ≡ the_number_operand word.now number.now operand.now) }
{
    match word {
        [end @ .., verb] => event_to(alloc, end_of(end), *verb, number_of(number), operand),
        [] => Ok(None),
    }
}

/// Returns the event of a word, a station, a source and an operand.
pub(crate) fn source_operand_event(
    alloc: Global,
    word: &[u8],
    station: &[u8],
    src: &[u8],
    operand: &[u8],
) -> Result<Option<Statement>, NoMemory>
    ensures { IfOk result (λ s. s ≡ the_source_operand word.now station.now src.now operand.now) }
{
    match word {
        [end @ .., verb] => event_to_from(
            alloc,
            end_of(end),
            *verb,
            number_of(station),
            number_of(src),
            operand,
        ),
        [] => Ok(None),
    }
}

/// Returns the event of an end without an operand.
fn event_alone(end: Option<EndName>, verb: u8) -> Option<Statement>
    ensures { result ≡ the_alone end verb }
{
    match end? {
        EndName::Known(side) => times_line(side, verb_of(verb), Some(1)),
        EndName::Master => half_line(master_times(verb, Some(1))),
        EndName::Station(station) => half_line(station_once(station, verb)),
    }
}

/// Returns the event of an end with an operand.
fn event_with(
    alloc: Global,
    end: Option<EndName>,
    verb: u8,
    operand: &[u8],
) -> Result<Option<Statement>, NoMemory>
    ensures { IfOk result (λ s. s ≡ the_with end verb operand.now) }
{
    match end {
        Some(EndName::Known(side)) => side_event(alloc, side, verb, operand),
        Some(EndName::Master) => Ok(half_line(master_event(verb, operand))),
        Some(EndName::Station(station)) => {
            Ok(half_line(station_event(alloc, station, verb, operand)?))
        }
        None => Ok(None),
    }
}

/// Returns the event with an operand and a number: a source at an end of a full-duplex link, a station at the master.
fn event_to(
    alloc: Global,
    end: Option<EndName>,
    verb: u8,
    number: Option<u32>,
    operand: &[u8],
) -> Result<Option<Statement>, NoMemory>
    ensures { IfOk result (λ s. s ≡ the_to end verb number operand.now) }
{
    match end {
        Some(EndName::Known(side)) => side_from(alloc, side, verb, number, operand),
        Some(EndName::Master) => Ok(half_line(to_station(alloc, number, verb, operand)?)),
        _ => Ok(None),
    }
}

/// Returns the event of the master with a station, a source and an operand.
fn event_to_from(
    alloc: Global,
    end: Option<EndName>,
    verb: u8,
    station: Option<u32>,
    src: Option<u32>,
    operand: &[u8],
) -> Result<Option<Statement>, NoMemory>
    ensures { IfOk result (λ s. s ≡ the_to_from end verb station src operand.now) }
{
    match end {
        Some(EndName::Master) => Ok(half_line(to_station_from(
            alloc, station, src, verb, operand,
        )?)),
        _ => Ok(None),
    }
}

/// Returns the statement of an event of a half-duplex line.
fn half_line(event: Option<HalfEvent>) -> Option<Statement>
    ensures { result ≡ the_half event }
{
    Some(Statement::Half(event?))
}

/// Returns the event of an end of a full-duplex link, by its verb's letter.
fn side_event(
    alloc: Global,
    side: EndLetter,
    verb: u8,
    operand: &[u8],
) -> Result<Option<Statement>, NoMemory>
    ensures { IfOk result (λ s. s ≡ the_side_event side verb operand.now) }
{
    match verb {
        b'i' => Ok(issue_line(side, hex_of(alloc, operand)?)),
        b'c' => Ok(alter_line(side, byte_of(operand))),
        b'n' => Ok(foreign_line(side, hex_of(alloc, operand)?)),
        _ => Ok(times_line(side, verb_of(verb), number_of(operand))),
    }
}

/// Returns the event of an end of a full-duplex link with an explicit SRC, by its verb's letter.
fn side_from(
    alloc: Global,
    side: EndLetter,
    verb: u8,
    src: Option<u32>,
    operand: &[u8],
) -> Result<Option<Statement>, NoMemory>
    ensures { IfOk result (λ s. s ≡ the_side_from side verb src operand.now) }
{
    match verb {
        b'i' => Ok(issue_from(side, src, hex_of(alloc, operand)?)),
        _ => Ok(None),
    }
}

/// Returns what happens a number of times at an end of a full-duplex link, or at its queue, by its letter: `k` takes,
/// `t` ticks, `d` delivers, `x` loses. Returns None exactly for every other byte.
pub fn verb_of(letter: u8) -> Option<Verb>
    ensures { result ≡ the_verb letter }
{
    match letter {
        b'k' => Some(Verb::Take),
        b't' => Some(Verb::Tick),
        b'd' => Some(Verb::Deliver),
        b'x' => Some(Verb::Lose),
        _ => None,
    }
}

/// Returns what happens a number of times at an end.
fn times_line(side: EndLetter, verb: Option<Verb>, n: Option<u32>) -> Option<Statement>
    ensures { result ≡ the_times side verb n }
{
    Some(Statement::Times {
        side,
        verb: verb?,
        n: within(1, EVENTS, Some(n?)),
    })
}

/// Returns how many times something happens, if there is a number.
pub(crate) fn times_of(n: Option<u32>) -> Option<Option<u32>>
    ensures { result ≡ the_times_of n }
{
    Some(within(1, EVENTS, Some(n?)))
}

/// Returns a command of an end.
fn issue_line(side: EndLetter, payload: Option<Bytes>) -> Option<Statement>
    ensures { result ≡ the_issue side payload }
{
    Some(Statement::Issue {
        side,
        payload: payload_of(payload?),
    })
}

/// Returns a command of an end with an explicit SRC.
fn issue_from(side: EndLetter, src: Option<u32>, payload: Option<Bytes>) -> Option<Statement>
    ensures { result ≡ the_issue_from side src payload }
{
    Some(Statement::IssueFrom {
        side,
        src: source_of(src?),
        payload: payload_of(payload?),
    })
}

/// Returns a source, if the number is one: it is at most 255.
pub(crate) fn source_of(src: u32) -> Option<u8>
    ensures { result ≡ the_source src }
{
    let src = within(0, HIGHEST_SOURCE, Some(src))?;
    Some(src as u8)
}

/// Returns a payload, if the bytes are one: 1 to 245 bytes, with bit 6 of CMD clear. None exactly for all others.
pub fn payload_of(payload: Bytes) -> Option<Bytes>
    ensures { result ≡ the_payload payload }
{
    if is_payload(payload.as_slice()) {
        Some(payload)
    } else {
        None
    }
}

/// Returns whether a payload has 1 to 245 bytes, and bit 6 of its CMD is clear.
pub fn is_payload(payload: &[u8]) -> bool
    ensures { result ≡ the_test payload.now }
{
    match payload {
        [cmd, ..] => payload.len() <= MAX_PAYLOAD && cmd & REPLY == 0,
        [] => false,
    }
}

/// Returns an alteration of the head of an end's queue.
fn alter_line(side: EndLetter, mask: Option<u8>) -> Option<Statement>
    ensures { result ≡ the_alter side mask }
{
    Some(Statement::Alter {
        side,
        mask: mask_of(mask?),
    })
}

/// Returns a mask, if it alters anything.
pub(crate) fn mask_of(mask: u8) -> Option<u8>
    ensures { result ≡ the_mask mask }
{
    if mask == 0 { None } else { Some(mask) }
}

/// Returns foreign bytes, as if from an end.
fn foreign_line(side: EndLetter, bytes: Option<Bytes>) -> Option<Statement>
    ensures { result ≡ the_foreign side bytes }
{
    Some(Statement::Foreign {
        side,
        bytes: foreign_of(bytes?),
    })
}

/// Returns foreign bytes, if one event may have as many.
pub(crate) fn foreign_of(bytes: Bytes) -> Option<Bytes>
    ensures { result ≡ the_foreign_bytes bytes }
{
    if is_within(1, FOREIGN, bytes.as_slice()) {
        Some(bytes)
    } else {
        None
    }
}
