//! Typed reads and writes: parts of a range of elements, whose offset and total count elements.
ghost use Rattle.std.specs.Prelude.{◌≡◌, ◌+◌, ◌*◌, ◌/◌, ◌<◌, ◌≤◌, [], length, true, nat_le, is_some, unwrap_or, IfOk, IfSome};
ghost use Rattle.std.specs.Result.{result_map_both};
ghost use Rattle.arrayvec.specs.ArrayVec.{array_vec_len};
ghost use Rattle.logical_address.specs.Parameter.{element_param, written_array};
ghost use Rattle.data_files.specs.Words.{words_per_element};
ghost use Rattle.data_files.specs.Tables.{has_words};
ghost use Rattle.plc_commands.specs.Tests.{array_len, has_elements, is_elements, is_param, typed_read_tests, typed_write_tests};
ghost use Rattle.plc_commands.specs.Meaning.{array_param, checked, element_span};

use crate::codes::{
    BAD_SIZE, ILLEGAL, NO_SUCH_PLACE, OTHER_TYPE, PAST_THE_END, READ_ONLY, TOO_LARGE,
};
use crate::order::Window;
use crate::span::Span;
use arrayvec::ArrayVec;
use data_files::{FileSpec, Tables};
use df1_base::{Code, FileType, MAX_DATA};
use logical_address::{Param, element_param, write_array};

/// Returns the words of a write of these bytes, or the code of the first test that fails.
pub(crate) fn write_span(
    tables: &Tables,
    window: &Window,
    element: Param,
    array: bool,
    bytes: &[u8],
) -> Result<Span, Code>
    requires size { length bytes.now ≤ 244 }
    ensures found { result ≡ checked (typed_write_tests tables.now.specs window.now element array bytes.now) (element_span tables.now.specs window.now (length bytes.now / element.size)) }
    ensures there { IfOk result (λ span. has_words tables.now.specs span.file span.first span.count ≡ true) }
    ensures all { IfOk result (λ span. length bytes.now ≡ 2 * span.count) }
{
    if window.at.area != 0 {
        return Err(NO_SUCH_PLACE);
    }
    let Some(spec) = tables.spec(window.at.file) else {
        return Err(NO_SUCH_PLACE);
    };
    if !is_param(element, spec.kind) {
        return Err(OTHER_TYPE);
    }
    if !is_elements(element, array, bytes) {
        return Err(ILLEGAL);
    }
    if spec.kind == FileType::Status {
        return Err(READ_ONLY);
    }
    if window.at.sub != 0 {
        return Err(NO_SUCH_PLACE);
    }
    let count = (bytes.len() / usize::from(element.size)) as u16;
    if !has_elements(window, count, &spec) {
        return Err(PAST_THE_END);
    }
    Ok(element_span(window, count, &spec))
}

/// Returns the parameter of the array of a read of `count` elements, and its words, or the code of the first test that
/// fails.
pub(crate) fn read_span(
    tables: &Tables,
    window: &Window,
    count: u16,
) -> Result<(ArrayVec<u8, 16>, Span), Code>
    ensures found { result_map_both (λ found. found.1) (λ code. code) result ≡ checked (typed_read_tests tables.now.specs window.now count) (element_span tables.now.specs window.now count) }
    ensures array { IfOk result (λ found. found.0.items ≡ array_param tables.now.specs window.now.at count) }
    ensures there { IfOk result (λ found. has_words tables.now.specs found.1.file found.1.first found.1.count ≡ true) }
    ensures room { IfOk result (λ found. array_vec_len found.0 + 2 * found.1.count ≤ 244) }
{
    if count == 0 {
        return Err(BAD_SIZE);
    }
    if window.at.area != 0 {
        return Err(NO_SUCH_PLACE);
    }
    let Some(spec) = tables.spec(window.at.file) else {
        return Err(NO_SUCH_PLACE);
    };
    if element_param(spec.kind).is_none() {
        return Err(OTHER_TYPE);
    }
    if window.at.sub != 0 {
        return Err(NO_SUCH_PLACE);
    }
    let Some(array) = array_param(&spec, count) else {
        return Err(TOO_LARGE);
    };
    if !has_elements(window, count, &spec) {
        return Err(PAST_THE_END);
    }
    Ok((array, element_span(window, count, &spec)))
}

/// Returns whether the parameter is that of an element of a file of this type.
fn is_param(param: Param, kind: FileType) -> bool
    ensures is { result ≡ is_param param (element_param kind) }
    ensures size { result ≡ true → param.size ≡ 2 * words_per_element kind }
    ensures some { result ≡ true → 0 < param.size }
{
    match element_param(kind) {
        Some(other) => param.kind == other.kind && param.size == other.size,
        None => false,
    }
}

/// Returns whether data is whole elements, at least one, and exactly one if it isn't an array.
fn is_elements(element: Param, array: bool, bytes: &[u8]) -> bool
    requires { 0 < element.size }
    ensures { result ≡ is_elements element array bytes.now }
{
    let size = usize::from(element.size);
    !bytes.is_empty() && bytes.len() % size == 0 && (array || bytes.len() == size)
}

/// Returns whether `count` elements of a range are within it and in the file.
fn has_elements(window: &Window, count: u16, spec: &FileSpec) -> bool
    ensures { result ≡ has_elements window.now count spec.now }
{
    let end = u32::from(window.offset) + u32::from(count);
    let last = u32::from(window.at.element) + u32::from(window.offset) + u32::from(count);
    end <= u32::from(window.total) && last <= u32::from(spec.count)
}

/// Returns the words of `count` elements of a range.
fn element_span(window: &Window, count: u16, spec: &FileSpec) -> Span
    requires { count ≤ 65535 }
    ensures file { result.file ≡ window.now.at.file }
    ensures first { result.first ≡ (window.now.at.element + window.now.offset) * words_per_element spec.now.kind }
    ensures count { result.count ≡ count * words_per_element spec.now.kind }
{
    let width = spec.width();
    Span {
        file: window.at.file,
        first: (u32::from(window.at.element) + u32::from(window.offset)) * width,
        count: u32::from(count) * width,
    }
}

/// Returns the parameter of an array of `count` elements of a file, and None exactly if it and their words exceed 244
/// bytes.
fn array_param(spec: &FileSpec, count: u16) -> Option<ArrayVec<u8, 16>>
    requires { is_some (element_param spec.now.kind) ≡ true }
    ensures fits { is_some result ≡ nat_le (array_len spec.now.kind count) 244 }
    ensures array { IfSome result (λ array. array.items ≡ unwrap_or (written_array spec.now.kind count) []) }
    ensures room { IfSome result (λ array. array_vec_len array + 2 * (count * words_per_element spec.now.kind) ≤ 244) }
{
    let mut array = ArrayVec::new();
    if !write_array(spec.kind, count, &mut array) {
        return None;
    }
    let data = 2 * (u32::from(count) * spec.width()) as usize;
    if array.len() + data > MAX_DATA {
        return None;
    }
    Some(array)
}
