//! The station that answers the commands of cases, and its reply to one.
//!
//! Its files are N7 of 16 words, the first two of which are 1234 and 5678, F8 of 2 elements, S2 of 4 words and T4 of 2
//! elements; all other words are 0. Its compatibility file is N7, and its status block is 01 02.
ghost use Rattle.std.specs.Prelude.{◌≡◌, IfOk, false};
ghost use Rattle.df1_base.specs.Host.{IsBody};
ghost use Rattle.pccc_envelope.specs.Envelope.{is_reply};
ghost use Rattle.data_files.specs.Tables.{fresh};
ghost use Rattle.df1_node.specs.Answer.{reply_to};
ghost use Rattle.vector_suite.specs.Vectors.{files, station};

use arrayvec::ArrayVec;
use data_files::{FileSpec, MakeFault, Tables};
use df1_base::{FileType, NoMemory};
use df1_node::Station;
use std::alloc::Global;

/// Returns the reply of a new station to the command of this body.
pub(crate) fn answer(alloc: Global, body: &[u8]) -> Result<ArrayVec<u8, 250>, NoMemory>
    requires body { IsBody body.now }
    requires command { is_reply body.now ≡ false }
    ensures { IfOk result (λ reply. reply.items ≡ reply_to station body.now) }
{
    let mut station = new_station(alloc)?;
    let mut reply = ArrayVec::new();
    station.answer(body, &mut reply);
    Ok(reply)
}

/// Returns the station, which has executed nothing.
fn new_station(alloc: Global) -> Result<Station, NoMemory>
    ensures { IfOk result (λ made. made ≡ station) }
{
    let mut tables = zero_tables(alloc)?;
    tables.set(7, 0, 0x1234);
    tables.set(7, 1, 0x5678);
    Ok(Station::new(tables, Some(7), &[0x01, 0x02]))
}

/// Returns its tables, with all words 0.
fn zero_tables(alloc: Global) -> Result<Tables, NoMemory>
    ensures { IfOk result (λ tables. tables ≡ fresh files) }
{
    let files = [
        file(7, FileType::Integer, 16),
        file(8, FileType::Float, 2),
        file(2, FileType::Status, 4),
        file(4, FileType::Timer, 2),
    ];
    match Tables::new(alloc, &files) {
        Ok(tables) => Ok(tables),
        Err(MakeFault::NoMemory) => Err(NoMemory),
        Err(_) => unreachable!(),
    }
}

/// Returns a file of this number, type and count of elements.
fn file(number: u16, kind: FileType, count: u16) -> FileSpec
    ensures { result ≡ record { number = number; kind = kind; count = count } }
{
    FileSpec {
        number,
        kind,
        count,
    }
}
