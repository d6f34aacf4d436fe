//! The station: it executes the commands that it accepts and replies to each.
//!
//! A reply has its command's envelope with DST and SRC swapped, bit 6 of CMD set, and STS. If STS is F0, a byte EXT STS
//! follows; then the data (manual topics: message packets, status codes).
ghost use Rattle.std.specs.Prelude.{◌≡◌, ◌+◌, ◌≤◌, ◌++◌, false, length, IsTrue, if◌then◌else◌};
ghost use Rattle.df1_base.specs.Host.{IsBody};
ghost use Rattle.pccc_envelope.specs.Envelope.{is_reply, reply_form, spelling};
ghost use Rattle.data_files.specs.Tables.{fits_compat, has_word};
ghost use Rattle.df1_node.specs.Answer.{StationState, after_answer, extension_of, reply_to, station_of, status_of, with_locks, with_station_word};

use crate::Tables;
use crate::commands::execute;
use arrayvec::ArrayVec;
use df1_base::{Code, MIN_BODY};
use pccc_envelope::{Envelope, read_envelope, reply_of, write_envelope};
use std::marker::Model;

/// STS: the code is in EXT STS.
const EXTENDED_STATUS: u8 = 0xF0;

/// A station: its data tables, its compatibility file, the block of its status reply, and the numbers of the files that
/// no command may write.
#[derive(Drop)]
pub struct Station {
    tables: Tables,
    compat: Option<u16>,
    block: ArrayVec<u8, 244>,
    locked: ArrayVec<u16, 256>,
}

impl Model for Station {
    ghost use Rattle.df1_node.specs.Answer.{StationState, station_code};
    ghost use Rattle.data_files.specs.Tables.{fits_compat, tables_code};
    ghost use Rattle.data_files.specs.contracts.file_spec.FileSpec as spec;
    ghost use Rattle.std.specs.Prelude.{IsTrue};

    ghost Value = { StationState };

    ghost coded = { station_code (tables_code spec.the_row.coded) };

    ghost view = { λ s. record { tables = s.tables; compat = s.compat; block = s.block.items; locked = s.locked.items } };

    ghost invariant = { λ s. IsTrue (fits_compat s.tables.specs s.compat) };
}

impl Station {
    /// Creates a station with these tables. The block has at most 244 bytes, and the compatibility file, if there is
    /// one, is a Bit or Integer file of the tables.
    pub fn new(tables: Tables, compat: Option<u16>, block: &[u8]) -> Station
        requires block { length block.now ≤ 244 }
        requires compat { IsTrue (fits_compat tables.specs compat) }
        ensures { result ≡ station_of tables compat block.now }
    {
        let mut kept = ArrayVec::new();
        kept.try_extend_from_slice(block).unwrap();
        Station {
            tables,
            compat,
            block: kept,
            locked: ArrayVec::new(),
        }
    }

    /// Returns the data tables.
    pub fn tables(&self) -> &Tables
        ensures { result.now ≡ self.now.tables }
    {
        &self.tables
    }

    /// Returns the data of its status reply: at most 244 bytes.
    pub fn block(&self) -> &[u8]
        ensures block { result.now ≡ self.now.block }
        ensures size { length result.now ≤ 244 }
    {
        &self.block
    }

    /// Sets the word of this index in the file of this number, as `Tables::set` does. Returns false, with nothing
    /// changed, exactly if there is no such file or word.
    pub fn set_word(&mut self, number: u16, index: u32, value: u16) -> bool
        ensures known { result ≡ has_word self.old.tables.specs number index }
        ensures after { self.new ≡ (if result then with_station_word self.old number index value else self.old) }
    {
        self.tables.set(number, index, value)
    }

    /// Locks the files of these numbers, at most 256, so that no command may write them, and unlocks all others. A
    /// command that would write a locked file is refused with STS F0 and EXT STS 0B (access denied), or with STS 50 if
    /// it is an unprotected write, and changes nothing; `set_word` still writes it. Initially no file is locked.
    pub fn lock(&mut self, files: &[u16])
        requires { length files.now ≤ 256 }
        ensures { self.new ≡ with_locks self.old files.now }
    {
        self.locked.clear();
        self.locked.try_extend_from_slice(files).unwrap();
    }

    /// Executes the command of this body, which has 6 to 250 bytes and bit 6 of its CMD clear, and replaces `into` by
    /// the body of the reply. A command that is refused changes nothing.
    pub fn answer(&mut self, body: &[u8], into: &mut ArrayVec<u8, 250>)
        requires body { IsBody body.now }
        requires command { is_reply body.now ≡ false }
        ensures after { self.new ≡ after_answer self.old body.now }
        ensures reply { into.new.items ≡ reply_to self.old body.now }
        ensures size { IsBody into.new.items }
    {
        let envelope = read_envelope(body).unwrap();
        let mut reply = ArrayVec::new();
        let code = execute(
            &mut self.tables,
            self.compat,
            &self.block,
            &self.locked,
            envelope.cmd,
            &body[MIN_BODY..],
            &mut reply,
        );
        write_reply(&envelope, code, &reply, into);
    }
}

/// Replaces `into` by the reply to a command: its envelope with this code, and the reply's data.
fn write_reply(command: &Envelope, code: Code, reply: &[u8], into: &mut ArrayVec<u8, 250>)
    requires { length (extension_of code) + length reply.now ≤ 244 }
    ensures { into.new.items ≡ spelling (reply_form command.now (status_of code)) ++ extension_of code ++ reply.now }
{
    match code {
        Code::Done => write_envelope(&reply_of(command, 0), into),
        Code::Sts(status) => write_envelope(&reply_of(command, status), into),
        Code::Ext(extension) => {
            write_envelope(&reply_of(command, EXTENDED_STATUS), into);
            into.push(extension);
        }
    }
    into.try_extend_from_slice(reply).unwrap();
}
