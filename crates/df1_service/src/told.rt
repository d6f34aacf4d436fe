//! The report of the commands that a service issued, after it has ended.
ghost use Rattle.std.specs.Prelude.{◌≡◌, ◌/◌, ◌≤◌, OnErr, OnOk, length};
ghost use Rattle.bulk_orders.specs.Orders.{orders_of};
ghost use Rattle.bulk_orders.specs.Outcomes.{pull_result, push_result, words_pulled};
ghost use Rattle.bulk_orders.specs.Telling.{pull_line, push_line};
ghost use Rattle.df1_base.specs.Outside.{Put, Rose, WroteLess, Later};
ghost use Rattle.df1_service.specs.Service.{CanBeIssued, seen, told_text};

use crate::{Issues, write_outcomes};
use arrayvec::ArrayVec;
use bulk_orders::{confirm, gather, order_count, put_pull_result, put_push_result};
use df1_base::{Failed, Sink};
use df1_node::Initiator;

/// Writes the outcomes of the commands that were issued before the first signal, by the initiator that the service
/// left: nothing if there were none, a line for each command of the plan, or the line of a transfer. Returns `Failed`
/// if the sink failed; then it holds a first part of the text, and not all.
pub fn write_told<K: Sink>(
    initiator: &Initiator,
    issues: Issues<'_>,
    sink: &mut K,
) -> Result<(), Failed>
    requires { CanBeIssued (seen issues) }
    ensures ok { OnOk result (Put (K.held sink.old) (K.held sink.new) (told_text (seen issues.entry) initiator.now)) }
    ensures missing { OnErr result (WroteLess (K.held sink.old) (K.held sink.new) (told_text (seen issues.entry) initiator.now)) }
    ensures calm { OnOk result (K.faults sink.new ≡ K.faults sink.old) }
    ensures later { Later (K.mark sink.old) (K.mark sink.new) (K.faults sink.old) (K.faults sink.new) }
    ensures cause { OnErr result (Rose (K.faults sink.old) (K.faults sink.new)) }
{
    match issues {
        Issues::Nothing => Ok(()),
        Issues::Plan => write_outcomes(initiator, sink),
        Issues::Pull { words, .. } => write_pulled(initiator, words, sink),
        Issues::Push { bytes, .. } => write_pushed(initiator, (bytes.len() / 2) as u16, sink),
    }
}

/// Writes the line of a transfer that reads so many words, by the first commands of an initiator.
fn write_pulled<K: Sink>(initiator: &Initiator, words: u16, sink: &mut K) -> Result<(), Failed>
    requires { (1 ≤ words) × (words ≤ 3000) }
    ensures ok { OnOk result (Put (K.held sink.old) (K.held sink.new) (pull_line (pull_result initiator.now words) (words_pulled initiator.now words))) }
    ensures missing { OnErr result (WroteLess (K.held sink.old) (K.held sink.new) (pull_line (pull_result initiator.now words) (words_pulled initiator.now words))) }
    ensures calm { OnOk result (K.faults sink.new ≡ K.faults sink.old) }
    ensures later { Later (K.mark sink.old) (K.mark sink.new) (K.faults sink.old) (K.faults sink.new) }
    ensures cause { OnErr result (Rose (K.faults sink.old) (K.faults sink.new)) }
{
    let mut pulled = ArrayVec::new();
    let bulk = gather(initiator, words, &mut pulled);
    put_pull_result(sink, bulk, &pulled)
}

/// Writes the line of a transfer that writes so many words, by the first commands of an initiator.
fn write_pushed<K: Sink>(initiator: &Initiator, words: u16, sink: &mut K) -> Result<(), Failed>
    requires { (1 ≤ words) × (words ≤ 3000) }
    ensures ok { OnOk result (Put (K.held sink.old) (K.held sink.new) (push_line (push_result initiator.now words) (orders_of words))) }
    ensures missing { OnErr result (WroteLess (K.held sink.old) (K.held sink.new) (push_line (push_result initiator.now words) (orders_of words))) }
    ensures calm { OnOk result (K.faults sink.new ≡ K.faults sink.old) }
    ensures later { Later (K.mark sink.old) (K.mark sink.new) (K.faults sink.old) (K.faults sink.new) }
    ensures cause { OnErr result (Rose (K.faults sink.old) (K.faults sink.new)) }
{
    let bulk = confirm(initiator, words);
    put_push_result(sink, bulk, order_count(words))
}
