//! The transfers of a node for the C library: whole files that are read or written by orders which are issued together,
//! and their results so far (manual topics: commands, word range read and write).
//!
//! | State | When |
//! |---|---|
//! | 0 | under way: the command `number` waits or is outstanding, and each order before it was done |
//! | 1 | whole: each order was done |
//! | 2 | missing: the command `number` isn't answered, and won't be, or was never issued |
//! | 3 | refused: the command `number` was refused, with `sts` and `ext` |
//! | 4 | odd: the reply to the command `number` has other data than its order asks for |
#![tactic(auto)]

ghost use Rattle.std.specs.Prelude.{◌≡◌, ◌+◌, ◌*◌, ◌/◌, ◌≤◌, All, IfErr, IfOk, MatchOption, None, OnErr, OnOk, Ok, Err, length, map};
ghost use Rattle.bulk_orders.specs.Orders.{all_orders, orders_of, pull_payload, push_payload};
ghost use Rattle.bulk_orders.specs.Outcomes.{pull_result_from, push_result_from, words_pulled_from};
ghost use Rattle.df1_node.specs.Together.{IsPayload, after_node_all, together_fault};
ghost use Rattle.c_transfers.specs.Transfers.{after_pull, after_push, bulk_told, bytes_fault, fault_code, file_fault, pull_fault, push_fault, transfer_told, words_fault};

use arrayvec::ArrayVec;
use bulk_orders::{Bulk, confirm_from, gather_from, is_under_way, pull_orders, push_orders};
use c_ends::Code;
use df1_node::{Initiator, IssueFault, Node};

/// The highest number of a file in a transfer.
const MAX_FILE: u16 = 999;

/// The maximum number of words of a transfer.
const MAX_WORDS: u32 = 3000;

/// The result so far of a transfer.
#[repr(C)]
#[derive(Clone, Copy)]
pub struct TransferTold {
    /// The state, as in the module's table.
    pub state: u32,
    /// The command that it names, or 0.
    pub number: u32,
    /// STS of a refusal, or 0.
    pub sts: u8,
    /// EXT STS of a refusal, or 0.
    pub ext: u8,
}

/// Issues the orders of a transfer that reads the first words of a file to a node, with the node's own address as SRC:
/// all of them or none. Returns the number of the first. After a refusal nothing has changed: `BadFile` for a file over
/// 999, `BadWords` for other than 1 to 3,000 words, `Spent` if fewer numbers are left than orders; otherwise `NoMemory`
/// may be returned.
pub fn issue_pull(node: &mut Node, dst: u8, file: u16, words: u32) -> Result<u32, Code>
    ensures number { IfOk result (λ number. number ≡ length node.old.initiator.issued + 1) }
    ensures ok { OnOk result (node.new ≡ after_pull dst file words node.old) }
    ensures fault { MatchOption (pull_fault node.old file words) (IfErr result (λ code. code ≡ Code.NoMemory)) (λ fault. result ≡ Err fault) }
    ensures err { OnErr result (node.new ≡ node.old) }
{
    if let Some(fault) = file_fault(file) {
        return Err(fault);
    }
    if let Some(fault) = words_fault(words) {
        return Err(fault);
    }
    let orders = pull_orders(file, words as u16);
    issue_orders(node, dst, &orders)
}

/// Issues the orders of a transfer that writes these words, each low byte first, to the beginning of a file, as
/// `issue_pull` does. `BadWords` is also returned for half a word.
pub fn issue_push(node: &mut Node, dst: u8, file: u16, bytes: &[u8]) -> Result<u32, Code>
    ensures number { IfOk result (λ number. number ≡ length node.old.initiator.issued + 1) }
    ensures ok { OnOk result (node.new ≡ after_push dst file bytes.now node.old) }
    ensures fault { MatchOption (push_fault node.old file (length bytes.now)) (IfErr result (λ code. code ≡ Code.NoMemory)) (λ fault. result ≡ Err fault) }
    ensures err { OnErr result (node.new ≡ node.old) }
{
    if let Some(fault) = file_fault(file) {
        return Err(fault);
    }
    if let Some(fault) = bytes_fault(bytes.len()) {
        return Err(fault);
    }
    let orders = push_orders(file, bytes);
    issue_orders(node, dst, &orders)
}

/// Returns the result so far of the transfer that reads `words` words by the commands from number `first` on. If it is
/// whole, `into` is replaced by the words, each low byte first; otherwise `into` is empty. Returns `BadWords`, with
/// `into` unchanged, exactly for other than 1 to 3,000 words.
pub fn pulled(
    from: &Initiator,
    first: u32,
    words: u32,
    into: &mut ArrayVec<u8, 6000>,
) -> Result<TransferTold, Code>
    ensures told { MatchOption (words_fault words) (result ≡ Ok (transfer_told from.now (pull_result_from from.now first words))) (λ fault. result ≡ Err fault) }
    ensures ok { OnOk result (into.new.items ≡ words_pulled_from from.now first words) }
    ensures err { OnErr result (into.new.items ≡ into.old.items) }
{
    if let Some(fault) = words_fault(words) {
        return Err(fault);
    }
    let came = gather_from(from, first, words as u16, into);
    Ok(told_of(from, came))
}

/// Returns the result so far of the transfer that writes `words` words by the commands from number `first` on. Returns
/// `BadWords` exactly for other than 1 to 3,000 words.
pub fn pushed(from: &Initiator, first: u32, words: u32) -> Result<TransferTold, Code>
    ensures { MatchOption (words_fault words) (result ≡ Ok (transfer_told from.now (push_result_from from.now first words))) (λ fault. result ≡ Err fault) }
{
    if let Some(fault) = words_fault(words) {
        return Err(fault);
    }
    let came = confirm_from(from, first, words as u16);
    Ok(told_of(from, came))
}

/// Issues orders together.
fn issue_orders(node: &mut Node, dst: u8, orders: &[ArrayVec<u8, 245>]) -> Result<u32, Code>
    requires { All (λ order. IsPayload order.items) orders.now }
    ensures number { IfOk result (λ number. number ≡ length node.old.initiator.issued + 1) }
    ensures ok { OnOk result (node.new ≡ after_node_all node.old dst (map (λ order. order.items) orders.now)) }
    ensures fault { MatchOption (together_fault node.old.initiator (length orders.now)) (IfErr result (λ code. code ≡ Code.NoMemory)) (λ fault. result ≡ Err (fault_code fault)) }
    ensures err { OnErr result (node.new ≡ node.old) }
{
    match node.issue_all(dst, orders) {
        Ok(number) => Ok(number),
        Err(fault) => Err(fault_code(fault)),
    }
}

/// Returns the code of a fault.
pub fn fault_code(fault: IssueFault) -> Code
    ensures { result ≡ fault_code fault }
{
    match fault {
        IssueFault::NoMemory => Code::NoMemory,
        IssueFault::Empty => Code::NoPayload,
        IssueFault::TooLong => Code::LongPayload,
        IssueFault::NotCommand => Code::NotCommand,
        IssueFault::Spent => Code::Spent,
    }
}

/// Returns the fault of a file number that no transfer may have.
fn file_fault(file: u16) -> Option<Code>
    ensures { result ≡ file_fault file }
{
    if file > MAX_FILE {
        Some(Code::BadFile)
    } else {
        None
    }
}

/// Returns the fault of a number of words that no transfer may have.
fn words_fault(words: u32) -> Option<Code>
    ensures { result ≡ words_fault words }
{
    if 1 <= words && words <= MAX_WORDS {
        None
    } else {
        Some(Code::BadWords)
    }
}

/// Returns the fault of a number of bytes that aren't the words of a transfer.
fn bytes_fault(bytes: usize) -> Option<Code>
    ensures { result ≡ bytes_fault bytes }
{
    let words = bytes / 2;
    if bytes != 2 * words || words == 0 || words > MAX_WORDS as usize {
        Some(Code::BadWords)
    } else {
        None
    }
}

/// Returns the result so far of a transfer as a C struct.
fn told_of(from: &Initiator, came: Bulk) -> TransferTold
    ensures { result ≡ transfer_told from.now came }
{
    let (state, number, sts, ext) = match came {
        Bulk::Whole => (1, 0, 0, 0),
        Bulk::Missing(number) if is_under_way(from, came) => (0, number, 0, 0),
        Bulk::Missing(number) => (2, number, 0, 0),
        Bulk::Refused { number, sts, ext } => (3, number, sts, ext),
        Bulk::Odd(number) => (4, number, 0, 0),
    };
    TransferTold {
        state,
        number,
        sts,
        ext,
    }
}
