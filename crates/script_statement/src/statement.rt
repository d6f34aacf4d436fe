//! What one line of a script says, by the table of the forms. A value, number or length that is out of its range leaves
//! its field None: such a line is still one of the forms.
ghost use Rattle.std.specs.Prelude.{◌≡◌, ◌||◌, not, false, map, IfOk, IsTrue, OnErr, Some, codes};
ghost use Rattle.std.specs.Str.{bytes_eq};
ghost use Rattle.script_statement.specs.Words.{within as the_bounded};
ghost use Rattle.script_statement.specs.Statements.{end_of as the_end, other_end, who_of, statement_of as the_statement, one_word as the_one, two_words as the_two, station_line as the_station, station_number as the_station_number, three_words as the_three, file_line as the_file, word_line as the_word, five_words as the_five, file_spec as the_spec, file_type as the_type, is_block_key, takes_memory};

use crate::event_line::{bare_event, number_operand_event, operand_event, source_operand_event};
use crate::half_event::HalfEvent;
use crate::set_line::set_line;
use crate::setup_statement::SetupStatement;
use crate::words::{is, number_of, register_of, within};
use crate::{Bytes, Who};
use data_files::{FileSpec, MAX_ELEMENTS};
use df1_base::{FileType, NoMemory};
use df1_check::Check;
use std::alloc::Global;

/// The maximum count of events of one line, and of a whole script.
pub const EVENTS: u32 = 4_000_000;

/// The highest file number.
const FILE_NUMBER: u32 = 999;

/// The number that no station has: as an address it would be sent as a DLE.
const NO_STATION: u32 = 16;

/// The highest number of a station.
const HIGHEST_STATION: u32 = 254;

/// An end of a full-duplex link.
#[derive(Clone, Copy, Debug, PartialEq, Eq)]
pub enum EndLetter {
    A,
    B,
}

impl EndLetter {
    /// Returns the end as events name it.
    pub fn who(self) -> Who
        ensures { result ≡ who_of self }
    {
        match self {
            EndLetter::A => Who::A,
            EndLetter::B => Who::B,
        }
    }

    /// Returns the end at the other side of the link.
    pub fn other(self) -> EndLetter
        ensures { result ≡ other_end self }
    {
        match self {
            EndLetter::A => EndLetter::B,
            EndLetter::B => EndLetter::A,
        }
    }
}

/// The end that a word names.
#[derive(Clone, Copy, Debug, PartialEq, Eq)]
pub enum EndName {
    /// An end of a full-duplex link.
    Known(EndLetter),
    /// The master of a half-duplex line.
    Master,
    /// The station of this number on a half-duplex line.
    Station(u32),
}

/// What happens a number of times, at an end of a full-duplex link or at its queue.
#[derive(Clone, Copy, Debug, PartialEq, Eq)]
pub enum Verb {
    /// The end sends a byte, which goes into its queue.
    Take,
    /// A tick passes at the end.
    Tick,
    /// The byte at the head of the queue arrives.
    Deliver,
    /// The byte at the head of the queue is lost.
    Lose,
}

/// A line that is one of the forms. A field is None if its value was out of range.
#[derive(Drop)]
pub enum Statement {
    /// Full duplex, or half duplex.
    Mode {
        half: bool,
    },
    /// The check of the line.
    Check(Option<Check>),
    /// The next station of a half-duplex line: its number is at most 254, and not 16.
    Station(Option<u8>),
    /// How an end is set up.
    Setup {
        end: EndName,
        line: SetupStatement,
    },
    /// A command of an end of a full-duplex link.
    Issue {
        side: EndLetter,
        payload: Option<Bytes>,
    },
    /// A command of an end of a full-duplex link, with an explicit SRC.
    IssueFrom {
        side: EndLetter,
        src: Option<u8>,
        payload: Option<Bytes>,
    },
    /// What happens `n` times at an end of a full-duplex link, or at its queue.
    Times {
        side: EndLetter,
        verb: Verb,
        n: Option<u32>,
    },
    /// The head of the queue of an end of a full-duplex link is altered.
    Alter {
        side: EndLetter,
        mask: Option<u8>,
    },
    /// Foreign bytes arrive, as if from an end of a full-duplex link.
    Foreign {
        side: EndLetter,
        bytes: Option<Bytes>,
    },
    /// An event of a half-duplex line.
    Half(HalfEvent),
    /// The last line.
    End,
}

/// Returns what the words of a line say, if they are one of the forms. Only events with an operand, and lines that set
/// a block, take memory.
#[tactic(auto, unfolding(crate::specs::Statements::statement_of))]
pub fn statement_of(alloc: Global, words: &[&[u8]]) -> Result<Option<Statement>, NoMemory>
    ensures value { IfOk result (λ s. s ≡ the_statement (map (λ x. x.now) words.now)) }
    ensures memory { OnErr result (IsTrue (takes_memory (map (λ x. x.now) words.now))) }
{
    match words {
        [word] => Ok(one_word(word)),
        [word, operand] => two_words(alloc, word, operand),
        [verb, key, value] => three_words(alloc, verb, key, value),
        [word, station, src, operand] => source_operand_event(alloc, word, station, src, operand),
        [verb, end, first, second, third] => Ok(five_words(verb, end, first, second, third)),
        _ => Ok(None),
    }
}

/// Returns the statement of one word.
fn one_word(word: &[u8]) -> Option<Statement>
    ensures { result ≡ the_one word.now }
{
    if is(word, "end") {
        Some(Statement::End)
    } else {
        bare_event(word)
    }
}

/// Returns the statement of two words.
fn two_words(alloc: Global, word: &[u8], operand: &[u8]) -> Result<Option<Statement>, NoMemory>
    ensures value { IfOk result (λ s. s ≡ the_two word.now operand.now) }
    ensures memory { OnErr result (bytes_eq word.now (codes "station") ≡ false) }
{
    if is(word, "station") {
        Ok(station_line(number_of(operand)))
    } else {
        operand_event(alloc, word, operand)
    }
}

/// Returns the line that declares a station.
fn station_line(number: Option<u32>) -> Option<Statement>
    ensures { result ≡ the_station number }
{
    Some(Statement::Station(station_number(number?)))
}

/// Returns the number of a station, if a station may have it.
fn station_number(number: u32) -> Option<u8>
    ensures { result ≡ the_station_number number }
{
    if number == NO_STATION || number > HIGHEST_STATION {
        None
    } else {
        Some(number as u8)
    }
}

/// Returns the statement of three words.
fn three_words(
    alloc: Global,
    verb: &[u8],
    key: &[u8],
    value: &[u8],
) -> Result<Option<Statement>, NoMemory>
    ensures value { IfOk result (λ s. s ≡ the_three verb.now key.now value.now) }
    ensures memory { OnErr result (IsTrue (not (bytes_eq verb.now (codes "set")) || is_block_key key.now)) }
{
    if is(verb, "set") {
        set_line(alloc, key, value)
    } else {
        number_operand_event(alloc, verb, key, value)
    }
}

/// Returns the statement of five words.
#[inline(never)]
fn five_words(
    verb: &[u8],
    end: &[u8],
    first: &[u8],
    second: &[u8],
    third: &[u8],
) -> Option<Statement>
    ensures { result ≡ the_five verb.now end.now first.now second.now third.now }
{
    if is(verb, "file") {
        file_line(
            end_of(end),
            number_of(first),
            file_type(second),
            number_of(third),
        )
    } else if is(verb, "word") {
        word_line(
            end_of(end),
            number_of(first),
            number_of(second),
            register_of(third),
        )
    } else {
        None
    }
}

/// Returns the line that declares a data file.
fn file_line(
    end: Option<EndName>,
    number: Option<u32>,
    kind: Option<FileType>,
    count: Option<u32>,
) -> Option<Statement>
    ensures { result ≡ the_file end number kind count }
{
    Some(Statement::Setup {
        end: end?,
        line: SetupStatement::File(file_spec(number?, kind, count?)),
    })
}

/// Returns the line that sets the first value of a word.
fn word_line(
    end: Option<EndName>,
    number: Option<u32>,
    index: Option<u32>,
    value: Option<u16>,
) -> Option<Statement>
    ensures { result ≡ the_word end number index value }
{
    Some(Statement::Setup {
        end: end?,
        line: SetupStatement::Word {
            file: file_number(number?),
            index: index?,
            value: value?,
        },
    })
}

/// Returns a data file, if a file may have its number, type and count.
fn file_spec(number: u32, kind: Option<FileType>, count: u32) -> Option<FileSpec>
    ensures { result ≡ the_spec (the_bounded 0 999 (Some number)) kind (the_bounded 1 1000 (Some count)) }
{
    let number = file_number(number)?;
    let kind = kind?;
    let count = within(1, u32::from(MAX_ELEMENTS), Some(count))?;
    Some(FileSpec {
        number,
        kind,
        count: count as u16,
    })
}

/// Returns the number of a file, 0 to 999; None exactly if it is over 999, which no file may have.
pub fn file_number(number: u32) -> Option<u16>
    ensures { result ≡ the_bounded 0 999 (Some number) }
{
    let number = within(0, FILE_NUMBER, Some(number))?;
    Some(number as u16)
}

/// Returns the type that a word names, case-sensitive.
fn file_type(word: &[u8]) -> Option<FileType>
    ensures { result ≡ the_type word.now }
{
    if is(word, "84") {
        Some(FileType::Status)
    } else if is(word, "85") {
        Some(FileType::Bit)
    } else if is(word, "86") {
        Some(FileType::Timer)
    } else if is(word, "87") {
        Some(FileType::Counter)
    } else if is(word, "88") {
        Some(FileType::Control)
    } else if is(word, "89") {
        Some(FileType::Integer)
    } else if is(word, "8A") {
        Some(FileType::Float)
    } else {
        None
    }
}

/// Returns the end that a word names, if it names one.
pub(crate) fn end_of(word: &[u8]) -> Option<EndName>
    ensures { result ≡ the_end word.now }
{
    if is(word, "a") {
        Some(EndName::Known(EndLetter::A))
    } else if is(word, "b") {
        Some(EndName::Known(EndLetter::B))
    } else if is(word, "m") {
        Some(EndName::Master)
    } else {
        number_of(word).map(EndName::Station)
    }
}
