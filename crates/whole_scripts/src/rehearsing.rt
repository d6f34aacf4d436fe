//! Rehearsals of transfers over a script from an input.
ghost use Rattle.std.specs.Prelude.{◌≡◌, ◌≢◌, ◌≤◌, ◌*◌, ◌/◌, length, IfErr, IsErrOf, OnOk};
ghost use Rattle.df1_base.specs.Outside.{Rose};
ghost use Rattle.line_script.specs.declared.profile.Profile.{Profile as Purpose};
ghost use Rattle.whole_scripts.specs.Rehearsals.{HasPulled, HasPushed, pulled_text, pushed_text};
ghost use Rattle.whole_scripts.specs.Whole.{BrokenOff, IsAnswered, IsCut, Refused, TellsRefusal, TookFew};
ghost use Rattle.whole_scripts.specs.declared.fault.RunFault.{RunFault as Ending};

use crate::RunFault;
use crate::printing::{Telling, write_by_pieces};
use crate::reading::read_input;
use bulk_orders::order_count;
use bulk_transfer::{rehearse_pull, rehearse_push};
use df1_base::{Sink, Source};
use line_script::Profile;
use std::alloc::Global;

/// Reads the script of a rehearsal from the input, runs it after the orders of a transfer, and writes its report and
/// the line of the transfer. The transfer reads so many words, 1 to 3,000, of a file of end b, 0 to 999.
///
/// Returns `Refusal` and `Input` as `read_input` does, and `Output` only if the count of faults of the output rose.
/// Nothing is written unless the whole script was read; with `Output` something of the text is missing (manual topics:
/// full-duplex protocol, word range read).
pub fn pull_input<S: Source, K: Sink>(
    alloc: Global,
    input: &mut S,
    out: &mut K,
    file: u16,
    words: u16,
) -> Result<(), RunFault>
    requires file { file ≤ 999 }
    requires words { (1 ≤ words) × (words ≤ 3000) }
    ensures pulled { OnOk result (IsAnswered Purpose.Rehearse (pulled_text file words) (HasPulled file words) (S.left input.old) (S.left input.new) (K.held out.old) (K.held out.new)) }
    ensures calm { OnOk result (S.faults input.new ≡ S.faults input.old) }
    ensures refusal { IfErr result (TellsRefusal (Refused Purpose.Rehearse (S.left input.old) (S.left input.new))) }
    ensures input { IsErrOf result RunFault.Input → BrokenOff Purpose.Rehearse (S.left input.old) (S.left input.new) (S.faults input.old) (S.faults input.new) }
    ensures output { IsErrOf result RunFault.Output → Rose (K.faults out.old) (K.faults out.new) × (S.faults input.new ≡ S.faults input.old)
        × IsCut Purpose.Rehearse (pulled_text file words) (S.left input.old) (S.left input.new) (K.held out.old) (K.held out.new) }
    ensures taken { TookFew (S.left input.old) (S.left input.new) }
    ensures later { S.faults input.old ≤ S.faults input.new }
    ensures unwritten { IfErr result (λ fault. fault ≢ Ending.Output → out.new ≡ out.old) }
    ensures steady { OnOk result (K.faults out.new ≡ K.faults out.old) }
{
    let script = read_input(alloc, input, Profile::Rehearse)?;
    let rehearsal = rehearse_pull(alloc, &script, file, words)?;
    Ok(write_by_pieces(Telling::Pulled(&rehearsal), out)?)
}

/// Rehearses a transfer that writes words, 1 to 3,000 with their low bytes first, in the same way (manual topics:
/// full-duplex protocol, word range write).
pub fn push_input<S: Source, K: Sink>(
    alloc: Global,
    input: &mut S,
    out: &mut K,
    file: u16,
    bytes: &[u8],
) -> Result<(), RunFault>
    requires file { file ≤ 999 }
    requires words { (2 ≤ length bytes.now) × (length bytes.now ≤ 6000) }
    requires even { length bytes.now ≡ 2 * (length bytes.now / 2) }
    ensures pushed { OnOk result (IsAnswered Purpose.Rehearse (pushed_text file bytes.now) (HasPushed file bytes.now) (S.left input.old) (S.left input.new) (K.held out.old) (K.held out.new)) }
    ensures calm { OnOk result (S.faults input.new ≡ S.faults input.old) }
    ensures refusal { IfErr result (TellsRefusal (Refused Purpose.Rehearse (S.left input.old) (S.left input.new))) }
    ensures input { IsErrOf result RunFault.Input → BrokenOff Purpose.Rehearse (S.left input.old) (S.left input.new) (S.faults input.old) (S.faults input.new) }
    ensures output { IsErrOf result RunFault.Output → Rose (K.faults out.old) (K.faults out.new) × (S.faults input.new ≡ S.faults input.old)
        × IsCut Purpose.Rehearse (pushed_text file bytes.now) (S.left input.old) (S.left input.new) (K.held out.old) (K.held out.new) }
    ensures taken { TookFew (S.left input.old) (S.left input.new) }
    ensures later { S.faults input.old ≤ S.faults input.new }
    ensures unwritten { IfErr result (λ fault. fault ≢ Ending.Output → out.new ≡ out.old) }
    ensures steady { OnOk result (K.faults out.new ≡ K.faults out.old) }
{
    let script = read_input(alloc, input, Profile::Rehearse)?;
    let rehearsal = rehearse_push(alloc, &script, file, bytes)?;
    let orders = order_count((bytes.len() / 2) as u16);
    Ok(write_by_pieces(Telling::Pushed(&rehearsal, orders), out)?)
}
