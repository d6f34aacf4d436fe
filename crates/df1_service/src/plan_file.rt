//! The plan that a shelf holds under a name.
ghost use Rattle.std.specs.Prelude.{◌≡◌, ◌≤◌, ℕ, List, All, IsTrue, length, true, IfOk, IfErr, IsErrOf};
ghost use Rattle.df1_base.specs.Outside.{Rose};
ghost use Rattle.df1_shelf.specs.Shelves.{IsLonger, is_sound};
ghost use Rattle.script_statement.specs.declared.who.Who.TheVariants.{A};
ghost use Rattle.script_statement.specs.Statements.{is_payload};
ghost use Rattle.script_parts.specs.Playable.{IsPlanOf};
ghost use Rattle.df1_service.specs.Plans.{IsOfPlan, SaysNone, SaysPlan, TellsNone, plan_limit};

use crate::ServiceFault;
use df1_plan::{Plan, read_plan};
use df1_shelf::Shelf;
use std::alloc::Global;

/// The maximum length of a plan, in bytes.
const PLAN: usize = 1_048_576;

/// Reads the plan of this name from the shelf. The errors are `PlanFailed`, `PlanTooLong`, `Plan` and `NoMemory`.
pub(crate) fn plan_on<H: Shelf>(
    alloc: Global,
    shelf: &mut H,
    name: &str,
) -> Result<Plan, ServiceFault>
    ensures says { IfOk result (SaysPlan (H.file shelf.old name.now)) }
    ensures valid { IfOk result (λ plan. IsPlanOf A plan.end × All (λ command. IsTrue (is_payload command.payload)) plan.issue × (length plan.issue ≤ 65535)) }
    ensures none { IfErr result (TellsNone (SaysNone (H.file shelf.old name.now))) }
    ensures too_long { IsErrOf result ServiceFault.PlanTooLong → IsLonger (H.file shelf.old name.now) plan_limit }
    ensures failed { IsErrOf result ServiceFault.PlanFailed → Rose (H.faults shelf.old) (H.faults shelf.new) }
    ensures sound { is_sound (H.file shelf.old name.now) ≡ true → ¬ IsErrOf result ServiceFault.PlanFailed }
    ensures known { IfErr result IsOfPlan }
    ensures same { (other : List ℕ) → H.file shelf.new other ≡ H.file shelf.old other }
    ensures calm { ¬ IsErrOf result ServiceFault.PlanFailed → H.faults shelf.new ≡ H.faults shelf.old }
{
    let text = shelf.fetch(alloc, name, PLAN)?;
    match read_plan(alloc, &text) {
        Ok(plan) => Ok(plan),
        Err(fault) => Err(fault.into()),
    }
}
