//! The line that reports the result of a transfer.
//!
//! | Line | When |
//! |---|---|
//! | `pulled HEX` | all words were read: HEX, low bytes first |
//! | `pushed K` | all words were written, by K orders |
//! | `missing N` | command N wasn't answered |
//! | `refused N SS EE` | command N was refused, with STS SS and EXT STS EE |
//! | `odd N` | the reply to command N has other data than its order asks for |
//!
//! Numbers are decimal. SS, EE and HEX are pairs of hexadecimal digits in upper case.
ghost use Rattle.std.specs.Prelude.{◌≡◌, ◌≤◌, ◌+◌, ◌++◌, [], ◌∷◌, Option, Some, None, MatchOption, OnOk, OnErr, codes, decimal, length};
ghost use Rattle.arrayvec.specs.ArrayVec.{array_vec_len};
ghost use Rattle.df1_base.specs.Outside.{Rose, Put, WroteLess, Later};
ghost use Rattle.hex.specs.Hex.{encode_upper};
ghost use Rattle.bulk_orders.specs.Telling.{fault_line as the_fault_line, pull_line, push_line};

use crate::Bulk;
use arrayvec::ArrayVec;
use df1_base::{Failed, Sink, append, write_all};
use replay_report::pair;

/// The buffer size for a line without words, in bytes: `refused`, a number of at most 10 digits, and two bytes.
const LINE: usize = 25;

/// The buffer size for a line with words, in bytes: two digits for each byte of 3,000 words, and `pulled`.
const WORDS_LINE: usize = 12_008;

/// Writes the line of a transfer that reads: if it is whole, these are its words, at most 3,000. Returns `Failed` if
/// the sink failed; then it holds a first part of the line, and not all.
pub fn put_pull_result<K: Sink>(sink: &mut K, bulk: Bulk, words: &[u8]) -> Result<(), Failed>
    requires { length words.now ≤ 6000 }
    ensures ok { OnOk result (Put (K.held sink.old) (K.held sink.new) (pull_line bulk words.now)) }
    ensures missing { OnErr result (WroteLess (K.held sink.old) (K.held sink.new) (pull_line bulk words.now)) }
    ensures calm { OnOk result (K.faults sink.new ≡ K.faults sink.old) }
    ensures later { Later (K.mark sink.old) (K.mark sink.new) (K.faults sink.old) (K.faults sink.new) }
    ensures cause { OnErr result (Rose (K.faults sink.old) (K.faults sink.new)) }
{
    match fault_line(bulk) {
        Some(line) => write_all(sink, &line),
        None => write_all(sink, &words_line(words)),
    }
}

/// Writes the line of a transfer that writes, which has so many orders. Returns `Failed` if the sink failed; then it
/// holds a first part of the line, and not all.
pub fn put_push_result<K: Sink>(sink: &mut K, bulk: Bulk, orders: u16) -> Result<(), Failed>
    ensures ok { OnOk result (Put (K.held sink.old) (K.held sink.new) (push_line bulk orders)) }
    ensures missing { OnErr result (WroteLess (K.held sink.old) (K.held sink.new) (push_line bulk orders)) }
    ensures calm { OnOk result (K.faults sink.new ≡ K.faults sink.old) }
    ensures later { Later (K.mark sink.old) (K.mark sink.new) (K.faults sink.old) (K.faults sink.new) }
    ensures cause { OnErr result (Rose (K.faults sink.old) (K.faults sink.new)) }
{
    match fault_line(bulk) {
        Some(line) => write_all(sink, &line),
        None => write_all(sink, &number_line(b"pushed ", u32::from(orders))),
    }
}

/// Returns the line of a transfer that isn't whole; None exactly for one that is.
fn fault_line(bulk: Bulk) -> Option<ArrayVec<u8, LINE>>
    ensures { MatchOption result (the_fault_line bulk ≡ None) (λ line. the_fault_line bulk ≡ Some line.items) }
{
    match bulk {
        Bulk::Whole => None,
        Bulk::Missing(number) => Some(number_line(b"missing ", number)),
        Bulk::Refused { number, sts, ext } => Some(refused_line(number, sts, ext)),
        Bulk::Odd(number) => Some(number_line(b"odd ", number)),
    }
}

/// Returns the line of a word and a number.
fn number_line(what: &[u8], number: u32) -> ArrayVec<u8, LINE>
    requires { length what.now ≤ 8 }
    ensures { result.items ≡ what.now ++ decimal number ++ codes "\n" }
{
    let mut line = ArrayVec::new();
    append_number(&mut line, what, number);
    append(&mut line, b"\n");
    line
}

/// Returns the line of a command that was refused.
fn refused_line(number: u32, sts: u8, ext: u8) -> ArrayVec<u8, LINE>
    ensures { result.items ≡ codes "refused " ++ decimal number ++ codes " " ++ encode_upper (sts ∷ []) ++ codes " " ++ encode_upper (ext ∷ []) ++ codes "\n" }
{
    let mut line = ArrayVec::new();
    append_number(&mut line, b"refused ", number);
    append(&mut line, b" ");
    append(&mut line, &pair(sts));
    append(&mut line, b" ");
    append(&mut line, &pair(ext));
    append(&mut line, b"\n");
    line
}

/// Returns the line of the words of a transfer that reads, at most 3,000.
fn words_line(words: &[u8]) -> ArrayVec<u8, WORDS_LINE>
    requires { length words.now ≤ 6000 }
    ensures { result.items ≡ codes "pulled " ++ encode_upper words.now ++ codes "\n" }
{
    let mut line = ArrayVec::new();
    line.try_extend_from_slice(b"pulled ").unwrap();
    for byte in words {
        line.try_extend_from_slice(&pair(*byte)).unwrap();
    }
    line.push(b'\n');
    line
}

/// Appends a word and a number to an empty line.
fn append_number(line: &mut ArrayVec<u8, LINE>, what: &[u8], number: u32)
    requires none { line.old.items ≡ [] }
    requires room { length what.now ≤ 8 }
    ensures text { line.new.items ≡ what.now ++ decimal number }
    ensures size { array_vec_len line.new ≤ 18 }
{
    append(line, what);
    append(line, itoa::Buffer::new().format(number).as_bytes());
}
