//! Execution of orders.
ghost use Rattle.std.specs.Prelude.{◌≡◌, ◌+◌, ◌*◌, ◌≤◌, [], length, true, IsTrue};
ghost use Rattle.df1_base.specs.declared.code.Code.TheVariants.{Done};
ghost use Rattle.data_files.specs.Effect.{is_refusal};
ghost use Rattle.plc_commands.specs.Order.{IsOrder, seen};
ghost use Rattle.plc_commands.specs.Meaning.{array_param, checked, element_span, meaning, read_after};
ghost use Rattle.plc_commands.specs.Tests.{typed_read_tests};

use crate::change::change;
use crate::order::Window;
use crate::span::{read_words, words_in, write_words};
use crate::{PlcOrder, range, typed, unprotected};
use arrayvec::ArrayVec;
use data_files::{Tables, push_words};
use df1_base::Code;

/// Executes an order that `read_plc` returned, and replaces `out` by the data of the reply (manual topics: commands,
/// status codes). `compat` is the number of the compatibility file, a file of bits or integers, if there is one; if the
/// tables have no file of that number, no address is in it. `block` is the station's status, of at most 244 bytes.
///
/// An order is refused by the first test of its command that fails; it then changes nothing and its reply has no data:
///
/// | Command | Tests |
/// |---|---|
/// | unprotected read | there is a compatibility file, 80; the size is not 0, even and at most 244, 10; the address is even and the bytes are in the file, 50 |
/// | unprotected write | there is a compatibility file, 80; the address is even and the bytes are in the file, 50 |
/// | word range read | the size isn't 0 or odd, F0/01; it is at most 244, F0/09; then as a write |
/// | word range write | the area is 0, F0/06; offset plus words is at most the total, F0/0A; the place of the words (`locate`) |
/// | read-modify-write | of each set in order: the area is 0, F0/06; the place of the word |
/// | typed write | the area is 0 and there is such a file, F0/06; the parameter is that of the file's elements, F0/11; the data is of whole elements, 10; the file isn't Status, F0/0B; the sub-element is 0, F0/06; the elements are in the range and in the file, F0/0A |
/// | typed read | the size isn't 0, F0/01; the area is 0 and there is such a file, F0/06; its elements have a parameter, F0/11; the sub-element is 0, F0/06; the reply's data is at most 244 bytes, F0/09; the elements are in the range and in the file, F0/0A |
pub fn do_plc(
    tables: &mut Tables,
    compat: Option<u16>,
    block: &[u8],
    order: &PlcOrder<'_>,
    out: &mut ArrayVec<u8, 244>,
) -> Code
    requires order { IsOrder (seen order.now) }
    requires block { length block.now ≤ 244 }
    ensures code { result ≡ (meaning tables.old compat block.now (seen order.now)).code }
    ensures tables { tables.new ≡ (meaning tables.old compat block.now (seen order.now)).tables }
    ensures reply { out.new.items ≡ (meaning tables.old compat block.now (seen order.now)).reply }
    ensures refused { IsTrue (is_refusal result) → (tables.new ≡ tables.old) × (out.new.items ≡ []) }
    ensures files { tables.new.specs ≡ tables.old.specs }
{
    out.clear();
    match *order {
        PlcOrder::Echo(bytes) => answer(bytes, out),
        PlcOrder::Status => answer(block, out),
        PlcOrder::Peek { address, size } => {
            let span = unprotected::read_span(tables, compat, address, size);
            read_words(tables, span, out)
        }
        PlcOrder::Poke { address, bytes } => {
            let span = unprotected::write_span(tables, compat, address, bytes);
            write_words(tables, span, bytes)
        }
        PlcOrder::RangeWrite {
            offset,
            total,
            at,
            bytes,
        } => {
            let span = range::write_span(tables, &Window { offset, total, at }, bytes);
            write_words(tables, span, bytes)
        }
        PlcOrder::RangeRead {
            offset,
            total,
            at,
            size,
        } => {
            let span = range::read_span(tables, &Window { offset, total, at }, size);
            read_words(tables, span, out)
        }
        PlcOrder::Change(ref sets) => change(tables, sets.as_slice()),
        PlcOrder::TypedWrite {
            offset,
            total,
            at,
            element,
            array,
            bytes,
        } => {
            let window = Window { offset, total, at };
            let span = typed::write_span(tables, &window, element, array, bytes);
            write_words(tables, span, bytes)
        }
        PlcOrder::TypedRead {
            offset,
            total,
            at,
            count,
        } => read_elements(tables, &Window { offset, total, at }, count, out),
    }
}

/// Replies with these bytes.
fn answer(bytes: &[u8], out: &mut ArrayVec<u8, 244>) -> Code
    requires none { out.old.items ≡ [] }
    requires size { length bytes.now ≤ 244 }
    ensures code { result ≡ Done }
    ensures reply { out.new.items ≡ bytes.now }
{
    out.try_extend_from_slice(bytes).unwrap();
    Code::Done
}

/// Replies with elements after the parameter of their array, unless the order is refused.
fn read_elements(tables: &Tables, window: &Window, count: u16, out: &mut ArrayVec<u8, 244>) -> Code
    requires { out.old.items ≡ [] }
    ensures code { result ≡ (read_after tables.now (array_param tables.now.specs window.now.at count) (checked (typed_read_tests tables.now.specs window.now count) (element_span tables.now.specs window.now count))).code }
    ensures reply { out.new.items ≡ (read_after tables.now (array_param tables.now.specs window.now.at count) (checked (typed_read_tests tables.now.specs window.now count) (element_span tables.now.specs window.now count))).reply }
    ensures refused { IsTrue (is_refusal result) → out.new.items ≡ [] }
{
    match typed::read_span(tables, window, count) {
        Ok((array, span)) => {
            out.try_extend_from_slice(&array).unwrap();
            push_words(words_in(tables, span), out);
            Code::Done
        }
        Err(code) => code,
    }
}
