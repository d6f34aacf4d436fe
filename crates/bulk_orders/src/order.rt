//! The orders of a transfer, each a payload: CMD, and what follows TNS.
//!
//! | Bytes | Meaning |
//! |---|---|
//! | `0F`, then `01` or `00` | CMD and FNC: a word range read, or a word range write |
//! | offset, total | the first word of the order and the words of the transfer, 2 bytes each, low first |
//! | level address | the file with element 0 |
//! | size, or data | how many bytes are read, or the bytes that are written |
ghost use Rattle.std.specs.Prelude.{◌≡◌, ◌+◌, ◌-◌, ◌*◌, ◌/◌, ◌≤◌, ◌∷◌, ◌++◌, [], All, length, map, if◌then◌else◌, min};
ghost use Rattle.arrayvec.specs.ArrayVec.{array_vec_len};
ghost use Rattle.df1_node.specs.Together.{IsPayload};
ghost use Rattle.bulk_orders.specs.Orders.{all_orders, first_word, is_order, orders_of, place_bytes, pull_payload, push_payload, words_of_order};

use arrayvec::ArrayVec;
use logical_address::{Levels, write_levels};

/// The command of word range reads and writes.
const CMD: u8 = 0x0F;

/// The function of a word range write.
const RANGE_WRITE: u8 = 0x00;

/// The function of a word range read.
const RANGE_READ: u8 = 0x01;

/// The maximum number of words of an order.
const ORDER_WORDS: u16 = 100;

/// Returns how many orders a transfer of so many words, 1 to 3,000, has: at most 30.
pub fn order_count(words: u16) -> u16
    requires { words ≤ 3000 }
    ensures count { result ≡ orders_of words }
    ensures most { result ≤ 30 }
{
    (words + (ORDER_WORDS - 1)) / ORDER_WORDS
}

/// Replaces `into` by order `j`, from 1, of a transfer that reads so many words, 1 to 3,000, of a file, 0 to 999.
/// Returns false, with `into` empty, exactly if `j` is 0 or over the number of orders.
pub fn pull_order(file: u16, words: u16, j: u16, into: &mut ArrayVec<u8, 245>) -> bool
    requires file { file ≤ 999 }
    requires words { (1 ≤ words) × (words ≤ 3000) }
    ensures known { result ≡ is_order words j }
    ensures order { into.new.items ≡ (if is_order words j then pull_payload file words j else []) }
{
    into.clear();
    if !is_order(words, j) {
        return false;
    }
    begin(RANGE_READ, file, words, j, into);
    into.push((2 * word_count(words, j)) as u8);
    true
}

/// Replaces `into` by order `j`, from 1, of a transfer that writes these data, 1 to 3,000 words with their low bytes
/// first, to a file, 0 to 999. Returns false, with `into` empty, exactly if `j` is 0 or over the number of orders.
pub fn push_order(file: u16, bytes: &[u8], j: u16, into: &mut ArrayVec<u8, 245>) -> bool
    requires file { file ≤ 999 }
    requires words { (2 ≤ length bytes.now) × (length bytes.now ≤ 6000) }
    requires whole { length bytes.now ≡ 2 * (length bytes.now / 2) }
    ensures known { result ≡ is_order (length bytes.now / 2) j }
    ensures order { into.new.items ≡ (if is_order (length bytes.now / 2) j then push_payload file bytes.now j else []) }
{
    let words = (bytes.len() / 2) as u16;
    into.clear();
    if !is_order(words, j) {
        return false;
    }
    begin(RANGE_WRITE, file, words, j, into);
    let first = 2 * usize::from(ORDER_WORDS * (j - 1));
    let count = 2 * usize::from(word_count(words, j));
    into.try_extend_from_slice(&bytes[first..first + count])
        .unwrap();
    true
}

/// Returns the orders of a transfer that reads so many words, 1 to 3,000, of a file, 0 to 999, in order.
pub fn pull_orders(file: u16, words: u16) -> ArrayVec<ArrayVec<u8, 245>, 30>
    requires file { file ≤ 999 }
    requires words { (1 ≤ words) × (words ≤ 3000) }
    ensures orders { map (λ order. order.items) result.items ≡ all_orders (pull_payload file words) (orders_of words) }
    ensures count { length result.items ≡ orders_of words }
    ensures payloads { All (λ order. IsPayload order.items) result.items }
{
    let mut orders = ArrayVec::new();
    for n in 0..order_count(words) {
        let mut order = ArrayVec::new();
        pull_order(file, words, n + 1, &mut order);
        orders.push(order);
    }
    orders
}

/// Returns the orders of a transfer that writes these data to a file, 0 to 999, in order. The data are 1 to 3,000 words
/// with their low bytes first.
pub fn push_orders(file: u16, bytes: &[u8]) -> ArrayVec<ArrayVec<u8, 245>, 30>
    requires file { file ≤ 999 }
    requires words { (2 ≤ length bytes.now) × (length bytes.now ≤ 6000) }
    requires whole { length bytes.now ≡ 2 * (length bytes.now / 2) }
    ensures orders { map (λ order. order.items) result.items ≡ all_orders (push_payload file bytes.now) (orders_of (length bytes.now / 2)) }
    ensures count { length result.items ≡ orders_of (length bytes.now / 2) }
    ensures payloads { All (λ order. IsPayload order.items) result.items }
{
    let mut orders = ArrayVec::new();
    for n in 0..order_count((bytes.len() / 2) as u16) {
        let mut order = ArrayVec::new();
        push_order(file, bytes, n + 1, &mut order);
        orders.push(order);
    }
    orders
}

/// Returns whether a transfer of so many words has an order of this number.
fn is_order(words: u16, j: u16) -> bool
    requires { words ≤ 3000 }
    ensures { result ≡ is_order words j }
{
    1 <= j && j <= order_count(words)
}

/// Returns how many words an order of this number moves.
pub(crate) fn word_count(words: u16, j: u16) -> u16
    requires some { 1 ≤ j }
    requires within { j ≤ orders_of words }
    requires words { words ≤ 3000 }
    ensures count { result ≡ words_of_order words j }
    ensures most { result ≤ 100 }
{
    (words - ORDER_WORDS * (j - 1)).min(ORDER_WORDS)
}

/// Writes the part of an order before its size or data into an empty `into`.
fn begin(function: u8, file: u16, words: u16, j: u16, into: &mut ArrayVec<u8, 245>)
    requires none { into.old.items ≡ [] }
    requires some { 1 ≤ j }
    requires within { j ≤ 30 }
    ensures bytes { into.new.items ≡ 0x0F ∷ function ∷ place_bytes file words j }
    ensures size { array_vec_len into.new ≤ 22 }
{
    let start = Levels {
        area: 0,
        file,
        element: 0,
        sub: 0,
    };
    let mut address = ArrayVec::new();
    write_levels(&start, &mut address);
    let [offset_low, offset_high] = (ORDER_WORDS * (j - 1)).to_le_bytes();
    let [total_low, total_high] = words.to_le_bytes();
    let head = [
        CMD,
        function,
        offset_low,
        offset_high,
        total_low,
        total_high,
    ];
    into.try_extend_from_slice(&head).unwrap();
    into.try_extend_from_slice(&address).unwrap();
}
