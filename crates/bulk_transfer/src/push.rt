//! Rehearsing a transfer that writes.

ghost use Rattle.std.specs.Prelude.{◌≡◌, ◌≤◌, ◌*◌, ◌/◌, [], length, IfOk};
ghost use Rattle.bulk_orders.specs.Outcomes.{push_result};
ghost use Rattle.line_world.specs.Complete.{IsUndisturbed, IsComplete};
ghost use Rattle.line_world.specs.Once.{EachCommandOnce};
ghost use Rattle.line_world.specs.Recovery.{Recovers};
ghost use Rattle.line_world.specs.Runs.{record_of, whole_world};
ghost use Rattle.line_world.specs.Wire.{AreDf1Wires};
ghost use Rattle.bulk_orders.specs.declared.outcome.Bulk.TheVariants.{Whole};
ghost use Rattle.bulk_transfer.specs.Moved.{HasFile, IsPushed, IsSound, IsWritable};
ghost use Rattle.bulk_transfer.specs.Rehearsal.{IsRehearsable, initiator_after, push_script};

use crate::rehearsal::{Rehearsal, initiator_of_a, issue, node_of_b};
use arrayvec::ArrayVec;
use bulk_orders::{confirm, order_count, push_order};
use df1_base::NoMemory;
use line_world::World;
use script_parts::{Items, Script};
use std::alloc::Global;

/// Rehearses the transfer of words, 1 to 3,000 with their low bytes first, to a file of end b, 0 to 999, as
/// `rehearse_pull` does one that reads. The result has no words. An error is want of memory.
///
/// If no end was deceived, no reply has data; and if the transfer is whole, end b's file has the data from word 0 on,
/// and each other word of end b is as in the script. It is whole if the file has so many words and isn't of the status
/// type, and the line is undisturbed or recovers.
pub fn rehearse_push(
    alloc: Global,
    script: &Script,
    file: u16,
    bytes: &[u8],
) -> Result<Rehearsal, NoMemory>
    requires script { IsRehearsable script.now }
    requires file { file ≤ 999 }
    requires words { (2 ≤ length bytes.now) × (length bytes.now ≤ 6000) }
    requires even { length bytes.now ≡ 2 * (length bytes.now / 2) }
    ensures report { IfOk result (λ r. r.report ≡ record_of (push_script script.now file bytes.now)) }
    ensures bulk { IfOk result (λ r. r.bulk ≡ push_result (initiator_after (push_script script.now file bytes.now)) (length bytes.now / 2)) }
    ensures words { IfOk result (λ r. r.words ≡ []) }
    ensures pushed { IfOk result (λ r. r.report.deceived ≡ 0 → IsPushed script.now file bytes.now r.bulk r.report) }
    ensures whole { IfOk result (λ r. IsSound (push_script script.now file bytes.now) → HasFile script.now file (length bytes.now / 2) → IsWritable script.now file → r.bulk ≡ Whole) }
    ensures complete { IfOk result (λ r. IsUndisturbed (push_script script.now file bytes.now) → IsComplete (push_script script.now file bytes.now) r.report) }
    ensures recovered { IfOk result (λ r. Recovers (push_script script.now file bytes.now) r.report) }
    ensures once { IfOk result (λ r. r.report.deceived ≡ 0 → EachCommandOnce (push_script script.now file bytes.now) r.report) }
    ensures wires { IfOk result (λ r. AreDf1Wires (push_script script.now file bytes.now) r.report) }
{
    let words = (bytes.len() / 2) as u16;
    let world = play(alloc, script, file, bytes)?;
    let bulk = confirm(initiator_of_a(&world), words);
    Ok(Rehearsal {
        report: world.finish()?,
        bulk,
        words: Items::new(alloc),
    })
}

/// Returns the world after the orders and the events of the script.
fn play(alloc: Global, script: &Script, file: u16, bytes: &[u8]) -> Result<World, NoMemory>
    requires script { IsRehearsable script.now }
    requires file { file ≤ 999 }
    requires words { (2 ≤ length bytes.now) × (length bytes.now ≤ 6000) }
    requires whole { length bytes.now ≡ 2 * (length bytes.now / 2) }
    ensures { IfOk result (λ world. world ≡ whole_world (push_script script.now file bytes.now)) }
{
    let mut world = World::new(alloc, script)?;
    let node = node_of_b(script);
    let mut payload = ArrayVec::new();
    for j in 1..order_count((bytes.len() / 2) as u16) + 1 {
        push_order(file, bytes, j, &mut payload);
        issue(alloc, &mut world, node, &payload)?;
    }
    world.step_all(script.events.as_slice())?;
    Ok(world)
}
