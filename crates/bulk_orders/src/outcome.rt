//! The result of a transfer, by the outcomes of the commands that carry its orders. These have consecutive numbers.
//! Commands that were issued before a transfer make no difference to it.
ghost use Rattle.std.specs.Prelude.{◌≡◌, ◌+◌, ◌*◌, ◌≤◌, None, OnOk, Some, MatchResult, length, slice_index};
ghost use Rattle.bulk_orders.specs.Outcomes.{data_of, extension_of, fault_of, fault_of_reply, is_open, is_under_way, pull_result, pull_result_from, push_result, push_result_from, status_of, words_pulled, words_pulled_from};
ghost use Rattle.df1_node.specs.Initiator.{reply_of};

use crate::order::{order_count, word_count};
use arrayvec::ArrayVec;
use df1_base::MIN_BODY;
use df1_node::{Initiator, Outcome};

/// The index of STS in a reply.
const STS: usize = 3;

/// The STS that says that the code is in EXT STS.
const EXTENDED_STATUS: u8 = 0xF0;

/// The result of a transfer. If several commands failed, the one with the lowest number is reported.
#[derive(Clone, Copy, Debug, PartialEq, Eq)]
pub enum Bulk {
    /// Each command was done, and its reply has the data that were expected.
    Whole,
    /// The command of this number wasn't answered.
    Missing(u32),
    /// The command of this number was refused, with this STS, and this EXT STS, which is 0 if there is none (manual
    /// topic: status codes).
    Refused { number: u32, sts: u8, ext: u8 },
    /// The reply to the command of this number has other data than its order asks for.
    Odd(u32),
}

/// Returns the result of the transfer that read so many words, 1 to 3,000, by the first commands of an initiator. If it
/// is whole, `into` is replaced by the words, low bytes first; otherwise it is emptied.
pub fn gather(from: &Initiator, words: u16, into: &mut ArrayVec<u8, 6000>) -> Bulk
    requires { (1 ≤ words) × (words ≤ 3000) }
    ensures result { result ≡ pull_result from.now words }
    ensures words { into.new.items ≡ words_pulled from.now words }
{
    gather_from(from, 1, words, into)
}

/// Returns the result of the transfer that read so many words, 1 to 3,000, by the commands of an initiator from number
/// `first` on. If it is whole, `into` is replaced by the words, low bytes first; otherwise it is emptied.
pub fn gather_from(from: &Initiator, first: u32, words: u16, into: &mut ArrayVec<u8, 6000>) -> Bulk
    requires { (1 ≤ words) × (words ≤ 3000) }
    ensures result { result ≡ pull_result_from from.now first words }
    ensures words { into.new.items ≡ words_pulled_from from.now first words }
{
    into.clear();
    for n in 0..order_count(words) {
        let size = 2 * usize::from(word_count(words, n + 1));
        match data_at(from, first + u32::from(n), size) {
            Ok(data) => into.try_extend_from_slice(data).unwrap(),
            Err(fault) => {
                into.clear();
                return fault;
            }
        }
    }
    Bulk::Whole
}

/// Returns the result of the transfer that wrote so many words, 1 to 3,000, by the first commands of an initiator.
pub fn confirm(from: &Initiator, words: u16) -> Bulk
    requires { (1 ≤ words) × (words ≤ 3000) }
    ensures { result ≡ push_result from.now words }
{
    confirm_from(from, 1, words)
}

/// Returns the result of the transfer that wrote so many words, 1 to 3,000, by the commands of an initiator from number
/// `first` on.
pub fn confirm_from(from: &Initiator, first: u32, words: u16) -> Bulk
    requires { (1 ≤ words) × (words ≤ 3000) }
    ensures { result ≡ push_result_from from.now first words }
{
    for n in 0..order_count(words) {
        if let Err(fault) = data_at(from, first + u32::from(n), 0) {
            return fault;
        }
    }
    Bulk::Whole
}

/// Returns whether the transfer with this result so far is still under way: the command that is reported as missing is
/// waiting or outstanding. Each command before it was done.
pub fn is_under_way(from: &Initiator, came: Bulk) -> bool
    ensures { result ≡ is_under_way from.now came }
{
    match came {
        Bulk::Missing(number) => is_open(from.outcome(number)),
        Bulk::Whole | Bulk::Refused { .. } | Bulk::Odd(_) => false,
    }
}

/// Returns whether a command has no outcome yet.
fn is_open(outcome: Option<Outcome>) -> bool
    ensures { result ≡ is_open outcome }
{
    match outcome {
        Some(Outcome::Waiting | Outcome::Out) => true,
        Some(Outcome::Answered | Outcome::Undelivered | Outcome::Unanswered) | None => false,
    }
}

/// Returns the data of the reply to command `n`, which has so many bytes, or the fault of the command.
fn data_at(from: &Initiator, n: u32, size: usize) -> Result<&[u8], Bulk>
    ensures data { MatchResult result (λ bytes. (fault_of from.now size n ≡ None) × (bytes.now ≡ data_of (reply_of from.now n)) × (length bytes.now ≡ size)) (λ fault. fault_of from.now size n ≡ Some fault) }
    ensures number { OnOk result ((1 ≤ n) × (n ≤ 65535)) }
{
    match from.outcome(n) {
        Some(Outcome::Answered) => reply_data(from.reply(n), n, size),
        _ => Err(Bulk::Missing(n)),
    }
}

/// Returns the data of a reply, which has so many bytes, or the fault of its command.
fn reply_data(reply: &[u8], n: u32, size: usize) -> Result<&[u8], Bulk>
    ensures { MatchResult result (λ bytes. (fault_of_reply n size reply.now ≡ None) × (bytes.now ≡ data_of reply.now) × (length bytes.now ≡ size)) (λ fault. fault_of_reply n size reply.now ≡ Some fault) }
{
    let sts = byte_at(reply, STS);
    if sts != 0 {
        return Err(Bulk::Refused {
            number: n,
            sts,
            ext: extension(reply, sts),
        });
    }
    let data = after_envelope(reply);
    if data.len() != size {
        return Err(Bulk::Odd(n));
    }
    Ok(data)
}

/// Returns EXT STS of a reply with this STS, and 0 if it has none.
fn extension(reply: &[u8], sts: u8) -> u8
    requires { sts ≡ status_of reply.now }
    ensures { result ≡ extension_of reply.now }
{
    if sts == EXTENDED_STATUS {
        byte_at(reply, MIN_BODY)
    } else {
        0
    }
}

/// Returns the byte at this index of a reply, and 0 past its end.
fn byte_at(reply: &[u8], place: usize) -> u8
    ensures { result ≡ slice_index reply.now place }
{
    reply.get(place).copied().unwrap_or(0)
}

/// Returns what follows the envelope of a reply.
fn after_envelope(reply: &[u8]) -> &[u8]
    ensures { result.now ≡ data_of reply.now }
{
    &reply[MIN_BODY.min(reply.len())..]
}
