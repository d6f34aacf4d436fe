//! Decoding the values of a document.
ghost use Rattle.std.specs.Prelude.{◌≡◌, IfOk, option_map};
ghost use Rattle.toml.specs.Data.{get_member};
ghost use Rattle.toml.specs.View.{table_view, view};
ghost use Rattle.df1_plan.specs.Values.{check_in as the_check, hex_in as the_bytes, integer_in as the_integer, kind_in as the_kind, value_in as the_value};

use df1_base::{FileType, NoMemory};
use df1_check::Check;
use end_settings::Values;
use hex::FromHexError;
use script_statement::{Bytes, Items};
use std::alloc::Global;
use toml::{Table, Value};

/// Returns the value of this name.
pub(crate) fn value_at<'a>(table: &'a Table, name: &str) -> Option<&'a Value>
    ensures { option_map (λ v. view v.now) result ≡ get_member name.now (table_view table.now) }
{
    table.get(name)
}

/// Returns an integer from `least` to `most`.
pub(crate) fn integer_in(value: &Value, least: u32, most: u32) -> Option<u32>
    ensures { result ≡ the_integer least most (view value.now) }
{
    let number = value.as_integer()?;
    if i64::from(least) <= number && number <= i64::from(most) {
        Some(number as u32)
    } else {
        None
    }
}

/// Returns the value of a setting: from a boolean for a switch, from an integer for a number.
pub(crate) fn value_in(value: &Value, values: Values) -> Option<u32>
    ensures { result ≡ the_value values (view value.now) }
{
    match values {
        Values::Switch => value.as_bool().map(u32::from),
        Values::Number { least, most } => integer_in(value, least, most),
    }
}

/// Returns the check that a text names.
pub(crate) fn check_in(value: &Value) -> Option<Check>
    ensures { result ≡ the_check (view value.now) }
{
    match value.as_str()? {
        "bcc" => Some(Check::Bcc),
        "crc" => Some(Check::Crc),
        _ => None,
    }
}

/// Returns the type of a data file that a text names; case matters.
pub(crate) fn kind_in(value: &Value) -> Option<FileType>
    ensures { result ≡ the_kind (view value.now) }
{
    match value.as_str()? {
        "84" => Some(FileType::Status),
        "85" => Some(FileType::Bit),
        "86" => Some(FileType::Timer),
        "87" => Some(FileType::Counter),
        "88" => Some(FileType::Control),
        "89" => Some(FileType::Integer),
        "8A" => Some(FileType::Float),
        _ => None,
    }
}

/// Returns the bytes that a text of hexadecimal pairs spells.
pub(crate) fn hex_in(alloc: Global, value: &Value) -> Result<Option<Bytes>, NoMemory>
    ensures { IfOk result (λ bytes. bytes ≡ the_bytes (view value.now)) }
{
    let Some(text) = value.as_str() else {
        return Ok(None);
    };
    match hex::decode(alloc, text) {
        Ok(bytes) => Ok(Some(Items::from_vec(bytes))),
        Err(FromHexError::OutOfMemory) => Err(NoMemory),
        Err(_) => Ok(None),
    }
}
