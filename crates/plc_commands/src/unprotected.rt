//! Unprotected reads and writes, which address the compatibility file by bytes: word w is bytes 2w and 2w + 1.
ghost use Rattle.std.specs.Prelude.{◌≡◌, ◌*◌, ◌/◌, ◌≤◌, length, true, IfOk};
ghost use Rattle.data_files.specs.Tables.{has_words};
ghost use Rattle.plc_commands.specs.Order.{IsWords};
ghost use Rattle.plc_commands.specs.Tests.{has_bytes, unprotected_read_tests, unprotected_write_tests};
ghost use Rattle.plc_commands.specs.Meaning.{byte_span, checked};

use crate::codes::{BAD_ADDRESS, ILLEGAL, NO_COMPATIBILITY_FILE};
use crate::span::Span;
use data_files::{FileSpec, Tables};
use df1_base::{Code, MAX_DATA};

/// Returns the words of a read of `size` bytes, or the code of the first test that fails.
pub(crate) fn read_span(
    tables: &Tables,
    compat: Option<u16>,
    address: u16,
    size: u8,
) -> Result<Span, Code>
    ensures found { result ≡ checked (unprotected_read_tests tables.now.specs compat address size) (byte_span compat address size) }
    ensures there { IfOk result (λ span. has_words tables.now.specs span.file span.first span.count ≡ true) }
    ensures room { IfOk result (λ span. 2 * span.count ≤ 244) }
{
    let Some(file) = compat else {
        return Err(NO_COMPATIBILITY_FILE);
    };
    let size = usize::from(size);
    if size == 0 || size % 2 != 0 || size > MAX_DATA {
        return Err(ILLEGAL);
    }
    match tables.spec(file) {
        Some(spec) if has_bytes(&spec, address, size) => Ok(byte_span(file, address, size)),
        _ => Err(BAD_ADDRESS),
    }
}

/// Returns the words of a write of these bytes, or the code of the first test that fails.
pub(crate) fn write_span(
    tables: &Tables,
    compat: Option<u16>,
    address: u16,
    bytes: &[u8],
) -> Result<Span, Code>
    requires words { IsWords bytes.now }
    requires size { length bytes.now ≤ 244 }
    ensures found { result ≡ checked (unprotected_write_tests tables.now.specs compat address bytes.now) (byte_span compat address (length bytes.now)) }
    ensures there { IfOk result (λ span. has_words tables.now.specs span.file span.first span.count ≡ true) }
    ensures all { IfOk result (λ span. length bytes.now ≡ 2 * span.count) }
{
    let Some(file) = compat else {
        return Err(NO_COMPATIBILITY_FILE);
    };
    match tables.spec(file) {
        Some(spec) if has_bytes(&spec, address, bytes.len()) => {
            Ok(byte_span(file, address, bytes.len()))
        }
        _ => Err(BAD_ADDRESS),
    }
}

/// Returns whether the address is that of a word, and `size` bytes from it on are in the file.
fn has_bytes(spec: &FileSpec, address: u16, size: usize) -> bool
    requires { size ≤ 244 }
    ensures { result ≡ has_bytes address size spec.now }
{
    address % 2 == 0 && usize::from(address) + size <= 2 * spec.words() as usize
}

/// Returns the words of `size` bytes of a file.
fn byte_span(file: u16, address: u16, size: usize) -> Span
    requires { size ≤ 244 }
    ensures { (result.file ≡ file) × (result.first ≡ address / 2) × (result.count ≡ size / 2) }
{
    Span {
        file,
        first: u32::from(address) / 2,
        count: size as u32 / 2,
    }
}
