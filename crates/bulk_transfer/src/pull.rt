//! Rehearsing a transfer that reads.

ghost use Rattle.std.specs.Prelude.{◌≡◌, ◌≤◌, length, IfOk};
ghost use Rattle.bulk_orders.specs.Outcomes.{pull_result, words_pulled};
ghost use Rattle.line_world.specs.Complete.{IsUndisturbed, IsComplete};
ghost use Rattle.line_world.specs.Once.{EachCommandOnce};
ghost use Rattle.line_world.specs.Recovery.{Recovers};
ghost use Rattle.line_world.specs.Runs.{record_of, whole_world};
ghost use Rattle.line_world.specs.Wire.{AreDf1Wires};
ghost use Rattle.bulk_orders.specs.declared.outcome.Bulk.TheVariants.{Whole};
ghost use Rattle.bulk_transfer.specs.Moved.{HasFile, IsPulled, IsSound};
ghost use Rattle.bulk_transfer.specs.Rehearsal.{IsRehearsable, initiator_after, pull_script};

use crate::rehearsal::{Rehearsal, initiator_of_a, issue, node_of_b};
use arrayvec::ArrayVec;
use bulk_orders::{gather, order_count, pull_order};
use df1_base::NoMemory;
use line_world::World;
use script_parts::{Items, Script};
use std::alloc::Global;

/// Rehearses the transfer of so many words, 1 to 3,000, from a file of end b, 0 to 999: end a issues its orders, and
/// then the script's events happen. The result of the transfer is determined by the outcomes of end a's commands and
/// their replies. An error is want of memory.
///
/// As of a replay, each command is executed once, all are if nothing disturbs the line or it recovers, and the bytes on
/// the wires are DF1. If no end was deceived, no reply has other data than its order asks for; and if the transfer is
/// whole, its words are those of end b's file as in the script, from word 0 on. It is whole if the file has so many words
/// and the line is undisturbed or recovers.
pub fn rehearse_pull(
    alloc: Global,
    script: &Script,
    file: u16,
    words: u16,
) -> Result<Rehearsal, NoMemory>
    requires script { IsRehearsable script.now }
    requires file { file ≤ 999 }
    requires words { (1 ≤ words) × (words ≤ 3000) }
    ensures report { IfOk result (λ r. r.report ≡ record_of (pull_script script.now file words)) }
    ensures bulk { IfOk result (λ r. r.bulk ≡ pull_result (initiator_after (pull_script script.now file words)) words) }
    ensures words { IfOk result (λ r. r.words ≡ words_pulled (initiator_after (pull_script script.now file words)) words) }
    ensures size { IfOk result (λ r. length r.words ≤ 6000) }
    ensures pulled { IfOk result (λ r. r.report.deceived ≡ 0 → IsPulled script.now file words r.bulk r.words) }
    ensures whole { IfOk result (λ r. IsSound (pull_script script.now file words) → HasFile script.now file words → r.bulk ≡ Whole) }
    ensures complete { IfOk result (λ r. IsUndisturbed (pull_script script.now file words) → IsComplete (pull_script script.now file words) r.report) }
    ensures recovered { IfOk result (λ r. Recovers (pull_script script.now file words) r.report) }
    ensures once { IfOk result (λ r. r.report.deceived ≡ 0 → EachCommandOnce (pull_script script.now file words) r.report) }
    ensures wires { IfOk result (λ r. AreDf1Wires (pull_script script.now file words) r.report) }
{
    let world = play(alloc, script, file, words)?;
    let mut pulled = ArrayVec::new();
    let bulk = gather(initiator_of_a(&world), words, &mut pulled);
    Ok(Rehearsal {
        report: world.finish()?,
        bulk,
        words: Items::copy_of(alloc, &pulled)?,
    })
}

/// Returns the world after the orders and the events of the script.
fn play(alloc: Global, script: &Script, file: u16, words: u16) -> Result<World, NoMemory>
    requires script { IsRehearsable script.now }
    requires file { file ≤ 999 }
    requires words { (1 ≤ words) × (words ≤ 3000) }
    ensures { IfOk result (λ world. world ≡ whole_world (pull_script script.now file words)) }
{
    let mut world = World::new(alloc, script)?;
    let node = node_of_b(script);
    let mut payload = ArrayVec::new();
    for j in 1..order_count(words) + 1 {
        pull_order(file, words, j, &mut payload);
        issue(alloc, &mut world, node, &payload)?;
    }
    world.step_all(script.events.as_slice())?;
    Ok(world)
}
