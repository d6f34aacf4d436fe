//! The lines that begin with `set`: the mode, the check, and for an end the settings of the table of keys, the
//! compatibility file and the block, each with its permitted values.
ghost use Rattle.std.specs.Prelude.{◌≡◌, ◌==◌, IfOk, IsTrue, OnErr, codes, position};
ghost use Rattle.std.specs.Str.{bytes_eq};
ghost use Rattle.script_statement.specs.Statements.{set_line as the_set, end_setting as the_end_setting, named_line as the_named, compat_line as the_compat, block_line as the_block_line, block_of as the_block, file_number as the_file, is_block_key, set_statement as the_set_statement, setting_of as the_setting, number_as as the_number_as, check_of as the_check, switch_of as the_switch, mode_of as the_mode};

use crate::Bytes;
use crate::setup_statement::SetupStatement;
use crate::statement::{EndName, Statement, end_of, file_number};
use crate::words::{hex_of, is, is_within, number_of};
use df1_base::{MAX_DATA, NoMemory};
use df1_check::Check;
use end_settings::{EndKey, Setting, Values};
use std::alloc::Global;

/// Returns what `set` with a key and a value says, if the key is one.
#[inline(never)]
pub(crate) fn set_line(
    alloc: Global,
    key: &[u8],
    value: &[u8],
) -> Result<Option<Statement>, NoMemory>
    ensures value { IfOk result (λ s. s ≡ the_set key.now value.now) }
    ensures memory { OnErr result (IsTrue (is_block_key key.now)) }
{
    if is(key, "mode") {
        Ok(mode_of(value))
    } else if is(key, "check") {
        Ok(Some(Statement::Check(check_of(value))))
    } else {
        end_setting(alloc, key, value)
    }
}

/// Returns the mode that a word names.
fn mode_of(value: &[u8]) -> Option<Statement>
    ensures { result ≡ the_mode value.now }
{
    if is(value, "full") {
        Some(Statement::Mode { half: false })
    } else if is(value, "half") {
        Some(Statement::Mode { half: true })
    } else {
        None
    }
}

/// Returns the check that a word names.
fn check_of(value: &[u8]) -> Option<Check>
    ensures { result ≡ the_check value.now }
{
    if is(value, "bcc") {
        Some(Check::Bcc)
    } else if is(value, "crc") {
        Some(Check::Crc)
    } else {
        None
    }
}

/// Returns a setting of an end: its key is the end, a full stop and a name.
fn end_setting(alloc: Global, key: &[u8], value: &[u8]) -> Result<Option<Statement>, NoMemory>
    ensures value { IfOk result (λ s. s ≡ the_end_setting key.now value.now) }
    ensures memory { OnErr result (IsTrue (is_block_key key.now)) }
{
    match stop_of(key) {
        Some(stop) => { named_line(alloc, end_of(&key[..stop]), &key[stop + 1..], value) }
        None => Ok(None),
    }
}

/// Returns what a name and a value say of an end. Only a block takes memory.
fn named_line(
    alloc: Global,
    end: Option<EndName>,
    name: &[u8],
    value: &[u8],
) -> Result<Option<Statement>, NoMemory>
    ensures value { IfOk result (λ s. s ≡ the_named end name.now value.now) }
    ensures memory { OnErr result (IsTrue (bytes_eq name.now (codes "block"))) }
{
    if is(name, "compat") {
        Ok(compat_line(end, file_of(value)))
    } else if is(name, "block") {
        Ok(block_line(end, hex_of(alloc, value)?))
    } else {
        Ok(set_statement(end, setting_of(name, value)))
    }
}

/// Returns the number of a file: None for a word that is not a number, and None inside for a number that no file has.
fn file_of(value: &[u8]) -> Option<Option<u16>>
    ensures { result ≡ the_file value.now }
{
    number_of(value).map(file_number)
}

/// Returns the compatibility file of an end.
fn compat_line(end: Option<EndName>, file: Option<Option<u16>>) -> Option<Statement>
    ensures { result ≡ the_compat end file }
{
    Some(Statement::Setup {
        end: end?,
        line: SetupStatement::Compat(file),
    })
}

/// Returns the block of an end.
fn block_line(end: Option<EndName>, bytes: Option<Bytes>) -> Option<Statement>
    ensures { result ≡ the_block_line end bytes }
{
    Some(Statement::Setup {
        end: end?,
        line: SetupStatement::Block(block_of(bytes)),
    })
}

/// Returns a block, if it has 1 to 244 bytes.
fn block_of(bytes: Option<Bytes>) -> Option<Bytes>
    ensures { result ≡ the_block bytes }
{
    let bytes = bytes?;
    if is_within(1, MAX_DATA, bytes.as_slice()) {
        Some(bytes)
    } else {
        None
    }
}

/// Returns the index of the first full stop.
fn stop_of(key: &[u8]) -> Option<usize>
    ensures { result ≡ position (λ byte. byte == 46) key.now }
{
    key.iter().position(|byte| *byte == b'.')
}

/// Returns the setting of an end, if there is such an end and such a setting.
fn set_statement(end: Option<EndName>, setting: Option<Setting>) -> Option<Statement>
    ensures { result ≡ the_set_statement end setting }
{
    Some(Statement::Setup {
        end: end?,
        line: SetupStatement::Set(setting?),
    })
}

/// Returns the setting that a name and a value make: None for a name that no key has.
fn setting_of(name: &[u8], value: &[u8]) -> Option<Setting>
    ensures { result ≡ the_setting name.now value.now }
{
    let key = EndKey::named(name)?;
    let values = key.values();
    Some(Setting {
        key,
        value: values.fitting(number_as(values, value)),
    })
}

/// Returns the number that a word spells, as one of these values.
fn number_as(values: Values, word: &[u8]) -> Option<u32>
    ensures { result ≡ the_number_as values word.now }
{
    match values {
        Values::Switch => switch_of(word),
        Values::Number { .. } => number_of(word),
    }
}

/// Returns `off` or `on` as 0 or 1.
fn switch_of(word: &[u8]) -> Option<u32>
    ensures { result ≡ the_switch word.now }
{
    if is(word, "off") {
        Some(0)
    } else if is(word, "on") {
        Some(1)
    } else {
        None
    }
}
