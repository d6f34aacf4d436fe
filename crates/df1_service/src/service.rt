//! The service of a plan's end over an input and an output. Before the first signal the plan is read, its node is made,
//! and the service's commands are issued. After that no memory is allocated.
ghost use Rattle.std.specs.Prelude.{◌≡◌, ◌≤◌, ◌+◌, ℕ, List, length, true, All, IsTrue, IfOk, IfErr, IsErrOf};
ghost use Rattle.df1_base.specs.Outside.{Rose};
ghost use Rattle.df1_base.specs.declared.signal.Signal.TheVariants as signal;
ghost use Rattle.df1_shelf.specs.Shelves.{IsLonger, is_sound};
ghost use Rattle.df1_service.specs.Plans.{IsOfPlan, SaysNone, TellsNone, plan_limit};
ghost use Rattle.script_statement.specs.declared.who.Who.TheVariants.{A};
ghost use Rattle.script_statement.specs.Statements.{is_payload};
ghost use Rattle.script_parts.specs.Playable.{IsPlanOf};
ghost use Rattle.df1_service.specs.Wire.{HasNoForm, IsCut, IsServed, OfPlan, Reached, StoppedByInput, StoppedByOutput, TellsRecord, outset_node};
ghost use Rattle.df1_service.specs.Service.{CanBeIssued, seen};
ghost use Rattle.df1_service.specs.Ending.{ended_of};

use crate::commands::issue_before;
use crate::plan_file::plan_on;
use crate::{Issues, ServiceFault};
use df1_base::{FeedPort, NoMemory, Sink, Source};
use df1_node::Node;
use df1_plan::Plan;
use df1_shelf::Shelf;
use duplex_end::{End, Served, serve};
use outset::{node_of, setup_of};
use std::alloc::Global;

/// The kind of service of an end.
#[derive(Clone, Copy, Debug, PartialEq, Eq)]
pub struct Service<'a> {
    /// Whether the input has records, with ticks and takes of their own; otherwise each of its bytes is a byte of the
    /// line.
    pub timed: bool,
    /// The commands that are issued.
    pub issues: Issues<'a>,
}

/// A service that ended, with the input and the output as it left them.
#[derive(Drop)]
pub struct Ended<S, K> {
    /// The end, if the input was read to its end and everything was written; otherwise the fault.
    pub end: Result<End<Node>, ServiceFault>,
    /// The input.
    pub input: S,
    /// The output.
    pub out: K,
}

/// Serves the end of the plan of this name: it takes the signals of the input, and what it sends goes to the output. If
/// the plan can't be read or is refused, or memory runs out, nothing was read and nothing was written. After any other
/// fault what the end sent before it was written; if the output failed, a part of it.
pub fn serve_plan<H: Shelf, S: Source, K: Sink>(
    alloc: Global,
    shelf: &mut H,
    name: &str,
    service: Service<'_>,
    input: S,
    out: K,
) -> Ended<S, K>
    requires { CanBeIssued (seen service.issues) }
    ensures done { IfOk result.end (λ end. OfPlan (H.file shelf.old name.now) (seen service.entry.issues) (λ before.
        IsServed service.entry.timed before end (S.left input) (S.left result.input) (K.held out) (K.held result.out))) }
    ensures none { IfErr result.end (TellsNone (SaysNone (H.file shelf.old name.now))) }
    ensures too_long { IsErrOf result.end ServiceFault.PlanTooLong → IsLonger (H.file shelf.old name.now) plan_limit }
    ensures failed { IsErrOf result.end ServiceFault.PlanFailed → Rose (H.faults shelf.old) (H.faults shelf.new) }
    ensures sound { is_sound (H.file shelf.old name.now) ≡ true → ¬ IsErrOf result.end ServiceFault.PlanFailed }
    ensures untouched { IfErr result.end (λ fault. IsOfPlan fault → (result.input ≡ input) × (result.out ≡ out)) }
    ensures record { IfErr result.end (TellsRecord
        (λ at. OfPlan (H.file shelf.old name.now) (seen service.entry.issues) (λ before. HasNoForm service.entry.timed before at (S.left input) (S.left result.input) (K.held out) (K.held result.out)))
        (λ at. OfPlan (H.file shelf.old name.now) (seen service.entry.issues) (λ before. IsCut service.entry.timed before at (S.left input) (S.left result.input) (K.held out) (K.held result.out)))) }
    ensures long { IsErrOf result.end ServiceFault.TooLong → OfPlan (H.file shelf.old name.now) (seen service.entry.issues) (λ before.
        Reached service.entry.timed before signal.Long (S.left input) (S.left result.input) (K.held out) (K.held result.out)) }
    ensures broken { IsErrOf result.end ServiceFault.Input → Rose (S.faults input) (S.faults result.input)
        × OfPlan (H.file shelf.old name.now) (seen service.entry.issues) (λ before. StoppedByInput service.entry.timed before (S.left input) (S.left result.input) (K.held out) (K.held result.out)) }
    ensures cut { IsErrOf result.end ServiceFault.Output → Rose (K.faults out) (K.faults result.out)
        × OfPlan (H.file shelf.old name.now) (seen service.entry.issues) (λ before. StoppedByOutput service.entry.timed before (S.left input) (S.left result.input) (K.held out) (K.held result.out)) }
    ensures calm { ¬ IsErrOf result.end ServiceFault.Input → S.faults result.input ≡ S.faults input }
    ensures steady { ¬ IsErrOf result.end ServiceFault.Output → K.faults result.out ≡ K.faults out }
    ensures shelf { (other : List ℕ) → H.file shelf.new other ≡ H.file shelf.old other }
    ensures shelf_calm { ¬ IsErrOf result.end ServiceFault.PlanFailed → H.faults shelf.new ≡ H.faults shelf.old }
{
    match end_of(alloc, shelf, name, service.issues) {
        Ok(end) => serve_end(end, service.timed, input, out),
        Err(fault) => Ended {
            end: Err(fault),
            input,
            out,
        },
    }
}

/// Returns the end of the plan of this name, before the first signal. The errors are `PlanFailed`, `PlanTooLong`,
/// `Plan` and `NoMemory`.
fn end_of<H: Shelf>(
    alloc: Global,
    shelf: &mut H,
    name: &str,
    issues: Issues<'_>,
) -> Result<End<Node>, ServiceFault>
    requires { CanBeIssued (seen issues) }
    ensures of_plan { IfOk result (λ end. OfPlan (H.file shelf.old name.now) (seen issues.entry) (λ before. end ≡ before)) }
    ensures none { IfErr result (TellsNone (SaysNone (H.file shelf.old name.now))) }
    ensures too_long { IsErrOf result ServiceFault.PlanTooLong → IsLonger (H.file shelf.old name.now) plan_limit }
    ensures failed { IsErrOf result ServiceFault.PlanFailed → Rose (H.faults shelf.old) (H.faults shelf.new) }
    ensures sound { is_sound (H.file shelf.old name.now) ≡ true → ¬ IsErrOf result ServiceFault.PlanFailed }
    ensures known { IfErr result IsOfPlan }
    ensures same { (other : List ℕ) → H.file shelf.new other ≡ H.file shelf.old other }
    ensures calm { ¬ IsErrOf result ServiceFault.PlanFailed → H.faults shelf.new ≡ H.faults shelf.old }
{
    let plan = plan_on(alloc, shelf, name)?;
    match node_before(alloc, &plan, issues) {
        Ok(node) => Ok(End::new(setup_of(plan.check, &plan.end), node)),
        Err(fault) => Err(fault.into()),
    }
}

/// Returns the node of a plan before the first signal.
fn node_before(alloc: Global, plan: &Plan, issues: Issues<'_>) -> Result<Node, NoMemory>
    requires end { IsPlanOf A plan.now.end }
    requires payloads { All (λ command. IsTrue (is_payload command.payload)) plan.now.issue }
    requires few { length plan.now.issue ≤ 65535 }
    requires within { CanBeIssued (seen issues) }
    ensures { IfOk result (λ node. node ≡ outset_node (seen issues.entry) plan.now) }
{
    let mut node = node_of(alloc, &plan.end)?;
    issue_before(&mut node, plan, issues)?;
    Ok(node)
}

/// Serves an end over an input and an output.
fn serve_end<S: Source, K: Sink>(mut end: End<Node>, timed: bool, input: S, out: K) -> Ended<S, K>
    ensures done { IfOk result.end (λ after. IsServed timed end after (S.left input) (S.left result.input) (K.held out) (K.held result.out)) }
    ensures record { IfErr result.end (TellsRecord
        (λ at. HasNoForm timed end at (S.left input) (S.left result.input) (K.held out) (K.held result.out))
        (λ at. IsCut timed end at (S.left input) (S.left result.input) (K.held out) (K.held result.out))) }
    ensures long { IsErrOf result.end ServiceFault.TooLong → Reached timed end signal.Long (S.left input) (S.left result.input) (K.held out) (K.held result.out) }
    ensures broken { IsErrOf result.end ServiceFault.Input → Rose (S.faults input) (S.faults result.input) × StoppedByInput timed end (S.left input) (S.left result.input) (K.held out) (K.held result.out) }
    ensures cut { IsErrOf result.end ServiceFault.Output → Rose (K.faults out) (K.faults result.out) × StoppedByOutput timed end (S.left input) (S.left result.input) (K.held out) (K.held result.out) }
    ensures calm { ¬ IsErrOf result.end ServiceFault.Input → S.faults result.input ≡ S.faults input }
    ensures steady { ¬ IsErrOf result.end ServiceFault.Output → K.faults result.out ≡ K.faults out }
    ensures known { IfErr result.end (λ fault. ¬ IsOfPlan fault) }
{
    let mut port = FeedPort::new(input, out, timed);
    let served = serve(&mut port, &mut end);
    let held = port.held();
    let (input, out) = port.into_parts();
    Ended {
        end: ended_with(served, end, held),
        input,
        out,
    }
}

/// Returns how a service ended, by the result of serving its end, with `held` bytes taken that made no signal.
fn ended_with(served: Served, end: End<Node>, held: usize) -> Result<End<Node>, ServiceFault>
    ensures { result ≡ ended_of served end held }
{
    match served {
        Served::Ended => Ok(end),
        Served::InFailed => Err(ServiceFault::Input),
        Served::OutFailed => Err(ServiceFault::Output),
        Served::Bad(at) if held == 1 => Err(ServiceFault::Cut(at)),
        Served::Bad(at) => Err(ServiceFault::Form(at)),
        Served::Long => Err(ServiceFault::TooLong),
    }
}
