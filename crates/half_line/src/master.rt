//! The events at the master of the line: what it issues and sends, and its ticks.

ghost use Rattle.std.specs.Prelude.{◌≡◌, ◌∷◌, ◌++◌, ℕ, List, [], IfOk, OnOk, None, map, replicate, option_map, option_to_list};
ghost use Rattle.replay_report.specs.Report.{sent_lines};
ghost use Rattle.df1_node.specs.Initiator.{issue_fault};
ghost use Rattle.half_master.specs.Master.{master_after_take, master_after_tick, out_at_take};
ghost use Rattle.lane_cells.specs.Cells.{cell_of};
ghost use Rattle.half_line.specs.Behind.{behind};
ghost use Rattle.half_line.specs.Acts.{LineStationState, Give, Tick, half_state, after_issue, master_lines, byte_given, cells_given, joined};
ghost use Rattle.half_line.specs.Steps.{after_master_deeds, master_bytes_over, master_lines_over};

use crate::line_station::LineStation;
use arrayvec::ArrayVec;
use df1_base::{NoMemory, Out};
use half_master::Master;
use replay_report::Page;
use report_lines::{tell_gone, tell_turn};
use script_statement::{Bytes, Who};
use station_router::MasterHost;
use std::alloc::Global;

/// Lets the master issue a command with the SRC `src`, or with its own address if that is None. The payload has 1 to
/// 245 bytes, bit 6 of its CMD is clear, and the master has issued fewer than 65,535 commands.
pub(crate) fn issue<H: MasterHost + Drop>(
    master: &mut Master<H>,
    src: Option<u8>,
    dst: u8,
    payload: &[u8],
) -> Result<(), NoMemory>
    requires { issue_fault (H.node master.old.host).initiator payload.now ≡ None }
    ensures { OnOk result (master.new ≡ after_issue (behind H.Host H.MasterHost.own) master.old src dst payload.now) }
{
    master.host_mut().issue(src, dst, payload)
}

/// Sends up to `n` bytes of the master, and reports them if there is at least one.
pub(crate) fn give<H: MasterHost + Drop>(
    alloc: Global,
    master: &mut Master<H>,
    stations: &mut Vec<LineStation>,
    n: u32,
    lines: &mut Page,
) -> Result<(), NoMemory>
    ensures state { (deceived : ℕ) → OnOk result (half_state master.new stations.new.items deceived
        ≡ after_master_deeds (behind H.Host H.MasterHost.own) (half_state master.old stations.old.items deceived) (replicate n Give)) }
    ensures lines { OnOk result (lines.new ≡ lines.old ++ sent_lines Who.M (master_bytes_over (behind H.Host H.MasterHost.own) master.old (replicate n Give))) }
{
    let mut bytes = lines.no_bytes(alloc);
    take_all(alloc, master, stations, n, &mut bytes)?;
    lines.push_sent(Who::M, bytes)
}

/// Takes up to `n` bytes, and appends them to the others.
fn take_all<H: MasterHost + Drop>(
    alloc: Global,
    master: &mut Master<H>,
    stations: &mut Vec<LineStation>,
    n: u32,
    bytes: &mut Bytes,
) -> Result<(), NoMemory>
    ensures state { (deceived : ℕ) → OnOk result (half_state master.new stations.new.items deceived
        ≡ after_master_deeds (behind H.Host H.MasterHost.own) (half_state master.old stations.old.items deceived) (replicate n Give)) }
    ensures bytes { OnOk result (bytes.new ≡ bytes.old ++ master_bytes_over (behind H.Host H.MasterHost.own) master.old (replicate n Give)) }
{
    for _ in 0..n {
        if master.quiet() {
            return Ok(());
        }
        if let Some(byte) = take(alloc, master, stations)? {
            bytes.push(byte)?;
        }
    }
    Ok(())
}

/// Sends the next byte, which joins the queue to each station, and returns it; None if there is none.
fn take<H: MasterHost + Drop>(
    alloc: Global,
    master: &mut Master<H>,
    stations: &mut Vec<LineStation>,
) -> Result<Option<u8>, NoMemory>
    ensures master { OnOk result (master.new ≡ master_after_take H.Host master.old) }
    ensures stations { OnOk result (stations.new.items ≡ map (joined (cells_given (behind H.Host H.MasterHost.own) master.old)) stations.old.items) }
    ensures byte { IfOk result (λ byte. byte ≡ byte_given (behind H.Host H.MasterHost.own) master.old) }
{
    let Some(out) = master.take() else {
        return Ok(None);
    };
    join_all(alloc, &out, master.sending(), stations)?;
    Ok(Some(out.byte))
}

/// Appends a byte that the master sent while it transmitted this body to the queue to each station.
fn join_all(
    alloc: Global,
    out: &Out,
    sending: &[u8],
    stations: &mut Vec<LineStation>,
) -> Result<(), NoMemory>
    ensures { OnOk result (stations.new.items ≡ map (joined (cell_of sending.now out.now ∷ [])) stations.old.items) }
{
    for side in stations.iter_mut() {
        side.join(alloc, out, sending)?;
    }
    Ok(())
}

/// Lets `n` ticks pass at the master.
pub(crate) fn pass<H: MasterHost + Drop>(
    master: &mut Master<H>,
    n: u32,
    lines: &mut Page,
) -> Result<(), NoMemory>
    ensures state { (stations : List LineStationState) (deceived : ℕ) → OnOk result (half_state master.new stations deceived
        ≡ after_master_deeds (behind H.Host H.MasterHost.own) (half_state master.old stations deceived) (replicate n Tick)) }
    ensures lines { OnOk result (lines.new ≡ lines.old ++ master_lines_over (behind H.Host H.MasterHost.own) master.old (replicate n Tick)) }
{
    for _ in 0..n {
        tick(master, lines)?;
    }
    Ok(())
}

/// Lets a tick pass: first the message that was given up is reported, then the unanswered commands.
fn tick<H: MasterHost + Drop>(master: &mut Master<H>, lines: &mut Page) -> Result<(), NoMemory>
    ensures master { OnOk result (master.new ≡ master_after_tick H.Host master.old) }
    ensures lines { OnOk result (lines.new ≡ lines.old ++ master_lines (behind H.Host H.MasterHost.own) master.old Tick) }
{
    let mut gone = ArrayVec::new();
    let turn = master.on_tick(&mut gone);
    tell_turn(Who::M, turn, lines)?;
    tell_gone(Who::M, &gone, lines)
}
