//! Execution of logical orders.
ghost use Rattle.std.specs.Prelude.{◌≡◌, ◌≤◌, ◌/◌, ◌+◌, ◌*◌, ◌++◌, [], true, length, IfOk, IsTrue};
ghost use Rattle.data_files.specs.Effect.{is_refusal, refusal, unless_refused};
ghost use Rattle.data_files.specs.Tables.{has_words, with_words};
ghost use Rattle.slc_commands.specs.Order.{IsOrder, seen};
ghost use Rattle.slc_commands.specs.Meaning.{first_word, meaning, tests, words_after, words_before};

use crate::order::SlcOrder;
use crate::words::masked_words;
use arrayvec::ArrayVec;
use data_files::{Place, Tables, locate, push_words};
use df1_base::{Code, MAX_DATA};

/// The size is 0 or not a whole number of words.
const NO_WHOLE_WORDS: Code = Code::Ext(0x01);

/// The size exceeds the data of a message.
const TOO_LARGE: Code = Code::Ext(0x09);

/// Executes an order that `read_slc` returned, and replaces `out` by the data of the reply: the words of a read, each
/// low byte first, otherwise nothing (manual topics: commands, status codes).
///
/// A read returns the words from the address on. A write makes each bit of each word the new one if the bit of the mask
/// is set, and keeps the old one if it is clear. An order is refused by the first of these tests that fails; it then
/// changes nothing and its reply has no data: the size isn't 0 or odd, F0/01; it is at most 244, F0/09; the tests of
/// the place of the words (`locate`).
pub fn do_slc(tables: &mut Tables, order: &SlcOrder<'_>, out: &mut ArrayVec<u8, 244>) -> Code
    requires { IsOrder (seen order.now) }
    ensures code { result ≡ (meaning tables.old (seen order.now)).code }
    ensures tables { tables.new ≡ (meaning tables.old (seen order.now)).tables }
    ensures reply { out.new.items ≡ (meaning tables.old (seen order.now)).reply }
    ensures refused { IsTrue (is_refusal result) → (tables.new ≡ tables.old) × (out.new.items ≡ []) }
    ensures files { tables.new.specs ≡ tables.old.specs }
{
    out.clear();
    match first_word(tables, order) {
        Err(code) => code,
        Ok(first) if order.fnc.writes() => {
            write_words(tables, order, first);
            Code::Done
        }
        Ok(first) => {
            push_words(words_before(tables, order, first), out);
            Code::Done
        }
    }
}

/// Returns the index in its file of the first word of an order, or the code of the first test that fails.
fn first_word(tables: &Tables, order: &SlcOrder<'_>) -> Result<u32, Code>
    ensures found { result ≡ unless_refused (refusal (tests tables.now.specs (seen order.now))) (first_word tables.now.specs (seen order.now)) }
    ensures room { IfOk result (λ first. has_words tables.now.specs order.now.at.file first (order.now.size / 2) ≡ true) }
    ensures whole { IfOk result (λ _. 2 * (order.now.size / 2) ≡ order.now.size) }
    ensures size { IfOk result (λ _. order.now.size ≤ 244) }
{
    if order.size == 0 || order.size % 2 != 0 {
        return Err(NO_WHOLE_WORDS);
    }
    if usize::from(order.size) > MAX_DATA {
        return Err(TOO_LARGE);
    }
    locate(
        tables,
        &Place {
            file: order.at.file,
            kind: Some(order.at.kind),
            element: order.at.element,
            sub: order.at.sub,
            offset: 0,
            count: u16::from(order.size / 2),
            writes: order.fnc.writes(),
        },
    )
}

/// Returns the words of an order before it is executed, from the index `first` of its file on.
fn words_before<'a>(tables: &'a Tables, order: &SlcOrder<'_>, first: u32) -> &'a [u16]
    requires first { first ≡ first_word tables.now.specs (seen order.now) }
    requires room { has_words tables.now.specs order.now.at.file first (order.now.size / 2) ≡ true }
    ensures words { result.now ≡ words_before tables.now (seen order.now) }
    ensures count { length result.now ≡ order.now.size / 2 }
{
    let count = u32::from(order.size / 2);
    tables.range(order.at.file, first, count).unwrap()
}

/// Writes the words of an order from the index `first` of its file on.
fn write_words(tables: &mut Tables, order: &SlcOrder<'_>, first: u32)
    requires first { first ≡ first_word tables.old.specs (seen order.now) }
    requires room { has_words tables.old.specs order.now.at.file first (order.now.size / 2) ≡ true }
    requires data { length order.now.bytes.now ≡ 2 * (order.now.size / 2) }
    requires size { order.now.size ≤ 244 }
    ensures after { tables.new ≡ with_words tables.old order.now.at.file first (words_after tables.old (seen order.now)) }
    ensures files { tables.new.specs ≡ tables.old.specs }
{
    let old = words_before(tables, order, first);
    let new = masked_words(order.mask, old, order.bytes);
    tables.set_words(order.at.file, first, &new);
}
