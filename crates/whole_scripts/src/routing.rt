//! The run of a route over a script from an input.
ghost use Rattle.std.specs.Prelude.{◌≡◌, ◌≢◌, ◌≤◌, IfErr, IsErrOf, OnOk};
ghost use Rattle.df1_base.specs.Outside.{Rose};
ghost use Rattle.line_script.specs.declared.profile.Profile.{Profile as Purpose};
ghost use Rattle.whole_scripts.specs.Routes.{HasRouted, route_text};
ghost use Rattle.whole_scripts.specs.Whole.{BrokenOff, IsAnswered, IsCut, Refused, TellsRefusal, TookFew};
ghost use Rattle.whole_scripts.specs.declared.fault.RunFault.{RunFault as Ending};

use crate::RunFault;
use crate::printing::{Telling, write_by_pieces};
use crate::reading::read_input;
use df1_base::{Sink, Source};
use half_route::{RouteScript, route};
use line_script::Profile;
use std::alloc::Global;

/// Reads the script of a route from the input, runs it and writes its report. Returns `Refusal` and `Input` as
/// `read_input` does, and `Output` only if the count of faults of the output rose. Nothing is written unless the whole
/// script was read; with `Output` something of the report is missing (manual topic: half-duplex protocol).
pub fn route_input<S: Source, K: Sink>(
    alloc: Global,
    input: &mut S,
    out: &mut K,
) -> Result<(), RunFault>
    ensures routed { OnOk result (IsAnswered Purpose.Route route_text HasRouted (S.left input.old) (S.left input.new) (K.held out.old) (K.held out.new)) }
    ensures calm { OnOk result (S.faults input.new ≡ S.faults input.old) }
    ensures refusal { IfErr result (TellsRefusal (Refused Purpose.Route (S.left input.old) (S.left input.new))) }
    ensures input { IsErrOf result RunFault.Input → BrokenOff Purpose.Route (S.left input.old) (S.left input.new) (S.faults input.old) (S.faults input.new) }
    ensures output { IsErrOf result RunFault.Output → Rose (K.faults out.old) (K.faults out.new) × (S.faults input.new ≡ S.faults input.old)
        × IsCut Purpose.Route route_text (S.left input.old) (S.left input.new) (K.held out.old) (K.held out.new) }
    ensures taken { TookFew (S.left input.old) (S.left input.new) }
    ensures later { S.faults input.old ≤ S.faults input.new }
    ensures unwritten { IfErr result (λ fault. fault ≢ Ending.Output → out.new ≡ out.old) }
    ensures steady { OnOk result (K.faults out.new ≡ K.faults out.old) }
{
    let script = RouteScript {
        script: read_input(alloc, input, Profile::Route)?,
    };
    let record = route(alloc, &script)?;
    Ok(write_by_pieces(Telling::Report(&record.report), out)?)
}
