//! Word range reads and writes: parts of a range of words, whose offset and total count words.
ghost use Rattle.std.specs.Prelude.{◌≡◌, ◌*◌, ◌/◌, ◌≤◌, length, true, false, IfOk};
ghost use Rattle.data_files.specs.Tables.{has_words};
ghost use Rattle.plc_commands.specs.Order.{IsWords};
ghost use Rattle.plc_commands.specs.Tests.{range_read_tests, range_tests, range_write_tests};
ghost use Rattle.plc_commands.specs.Meaning.{checked, range_span};

use crate::codes::{BAD_SIZE, NO_SUCH_PLACE, PAST_THE_END, TOO_LARGE};
use crate::order::Window;
use crate::span::Span;
use data_files::{Place, Tables, locate};
use df1_base::{Code, MAX_DATA};

/// Returns the words of a read of `size` bytes, or the code of the first test that fails.
pub(crate) fn read_span(tables: &Tables, window: &Window, size: u8) -> Result<Span, Code>
    ensures found { result ≡ checked (range_read_tests tables.now.specs window.now size) (range_span tables.now.specs window.now (size / 2) false) }
    ensures there { IfOk result (λ span. has_words tables.now.specs span.file span.first span.count ≡ true) }
    ensures room { IfOk result (λ span. 2 * span.count ≤ 244) }
{
    if size == 0 || size % 2 != 0 {
        return Err(BAD_SIZE);
    }
    if usize::from(size) > MAX_DATA {
        return Err(TOO_LARGE);
    }
    range_span(tables, window, u16::from(size / 2), false)
}

/// Returns the words of a write of these bytes, or the code of the first test that fails.
pub(crate) fn write_span(tables: &Tables, window: &Window, bytes: &[u8]) -> Result<Span, Code>
    requires words { IsWords bytes.now }
    requires size { length bytes.now ≤ 244 }
    ensures found { result ≡ checked (range_write_tests tables.now.specs window.now bytes.now) (range_span tables.now.specs window.now (length bytes.now / 2) true) }
    ensures there { IfOk result (λ span. has_words tables.now.specs span.file span.first span.count ≡ true) }
    ensures all { IfOk result (λ span. length bytes.now ≡ 2 * span.count) }
{
    range_span(tables, window, (bytes.len() / 2) as u16, true)
}

/// Returns `count` words of a range, or the code of the first test that fails.
fn range_span(tables: &Tables, window: &Window, count: u16, writes: bool) -> Result<Span, Code>
    ensures found { result ≡ checked (range_tests tables.now.specs window.now count writes) (range_span tables.now.specs window.now count writes) }
    ensures there { IfOk result (λ span. has_words tables.now.specs span.file span.first span.count ≡ true) }
    ensures count { IfOk result (λ span. span.count ≡ count) }
{
    let at = window.at;
    if at.area != 0 {
        return Err(NO_SUCH_PLACE);
    }
    if u32::from(window.offset) + u32::from(count) > u32::from(window.total) {
        return Err(PAST_THE_END);
    }
    let place = Place {
        file: at.file,
        kind: None,
        element: at.element,
        sub: at.sub,
        offset: window.offset,
        count,
        writes,
    };
    match locate(tables, &place) {
        Ok(first) => Ok(Span {
            file: at.file,
            first,
            count: u32::from(count),
        }),
        Err(code) => Err(code),
    }
}
