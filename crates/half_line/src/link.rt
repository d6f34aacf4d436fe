//! Events at a station, or on the bytes between it and the master.

ghost use Rattle.std.specs.Prelude.{◌≡◌, ◌+◌, ◌≤◌, ◌<◌, ◌^◌, ◌++◌, ℕ, OnOk, length, map, replicate};
ghost use Rattle.replay_report.specs.Report.{sent_lines};
ghost use Rattle.half_master.specs.Master.{MasterState, body_of};
ghost use Rattle.half_line.specs.Behind.{behind};
ghost use Rattle.half_line.specs.Acts.{LineStationState, StationGives, OnLane, Deliver, Lose, Foreign, link_state, act_lines_at, routed_lines, after_cell, cell_lines, deceptions_at};
ghost use Rattle.half_line.specs.Steps.{after_link_deeds, link_lines_over, link_bytes_over};
ghost use Rattle.half_line.specs.Plays.{most_events};

use crate::line_station::LineStation;
use crate::reported::Reported;
use crate::way::Way;
use df1_base::{Act, Did, NoMemory};
use half_master::Master;
use lane_cells::{Cell, is_deceived, is_station_deceived};
use replay_report::Page;
use report_lines::{tell_act, tell_news, tell_routed};
use script_statement::{Bytes, Who};
use station_router::MasterHost;
use std::alloc::Global;

/// Sends up to `n` bytes of the station of this number, and reports them if there is at least one.
pub(crate) fn give<H: MasterHost + Drop>(
    alloc: Global,
    number: u8,
    side: &mut LineStation,
    n: u32,
    lines: &mut Page,
) -> Result<(), NoMemory>
    ensures state { (master : MasterState H) (deceived : ℕ) → OnOk result (link_state master side.new deceived
        ≡ after_link_deeds (behind H.Host H.MasterHost.own) (link_state master side.old deceived) (replicate n StationGives)) }
    ensures lines { (master : MasterState H) (deceived : ℕ) → OnOk result (lines.new
        ≡ lines.old ++ sent_lines (Who.S number) (link_bytes_over (behind H.Host H.MasterHost.own) (link_state master side.old deceived) (replicate n StationGives))) }
{
    let mut bytes = lines.no_bytes(alloc);
    take_all::<H>(alloc, side, n, &mut bytes)?;
    lines.push_sent(Who::S(number), bytes)
}

/// Takes up to `n` bytes, and appends them to the others.
fn take_all<H: MasterHost + Drop>(
    alloc: Global,
    side: &mut LineStation,
    n: u32,
    bytes: &mut Bytes,
) -> Result<(), NoMemory>
    ensures state { (master : MasterState H) (deceived : ℕ) → OnOk result (link_state master side.new deceived
        ≡ after_link_deeds (behind H.Host H.MasterHost.own) (link_state master side.old deceived) (replicate n StationGives)) }
    ensures bytes { (master : MasterState H) (deceived : ℕ) → OnOk result (bytes.new
        ≡ bytes.old ++ link_bytes_over (behind H.Host H.MasterHost.own) (link_state master side.old deceived) (replicate n StationGives)) }
{
    for _ in 0..n {
        let Some(byte) = side.take(alloc)? else {
            return Ok(());
        };
        bytes.push(byte)?;
    }
    Ok(())
}

/// Delivers up to `n` bytes of the queue of this direction.
pub(crate) fn deliver<H: MasterHost + Drop>(
    alloc: Global,
    way: Way,
    master: &mut Master<H>,
    side: &mut LineStation,
    n: u32,
    reported: &mut Reported,
) -> Result<(), NoMemory>
    requires { reported.old.deceived + n ≤ most_events }
    ensures state { OnOk result (link_state master.new side.new reported.new.deceived
        ≡ after_link_deeds (behind H.Host H.MasterHost.own) (link_state master.old side.old reported.old.deceived) (replicate n (OnLane way Deliver))) }
    ensures lines { OnOk result (reported.new.lines
        ≡ reported.old.lines ++ link_lines_over (behind H.Host H.MasterHost.own) (link_state master.old side.old reported.old.deceived) (replicate n (OnLane way Deliver))) }
    ensures few { reported.new.deceived ≤ reported.old.deceived + n }
{
    for _ in 0..n {
        let Some(cell) = side.leave(way) else {
            return Ok(());
        };
        arrive(alloc, way, master, side, &cell, reported)?;
        side.keep(cell);
    }
    Ok(())
}

/// Loses up to `n` bytes of the queue of this direction.
pub(crate) fn lose<H: MasterHost + Drop>(way: Way, side: &mut LineStation, n: u32)
    ensures { (master : MasterState H) (deceived : ℕ) → link_state master side.new deceived
        ≡ after_link_deeds (behind H.Host H.MasterHost.own) (link_state master side.old deceived) (replicate n (OnLane way Lose)) }
{
    for _ in 0..n {
        let Some(cell) = side.leave(way) else {
            return;
        };
        side.keep(cell);
    }
}

/// Delivers foreign bytes to the end to which this direction leads.
pub(crate) fn intrude<H: MasterHost + Drop>(
    alloc: Global,
    way: Way,
    master: &mut Master<H>,
    side: &mut LineStation,
    bytes: &[u8],
    reported: &mut Reported,
) -> Result<(), NoMemory>
    requires { reported.old.deceived + length bytes.now ≤ most_events }
    ensures state { OnOk result (link_state master.new side.new reported.new.deceived
        ≡ after_link_deeds (behind H.Host H.MasterHost.own) (link_state master.old side.old reported.old.deceived) (map (λ byte. OnLane way (Foreign byte)) bytes.now)) }
    ensures lines { OnOk result (reported.new.lines
        ≡ reported.old.lines ++ link_lines_over (behind H.Host H.MasterHost.own) (link_state master.old side.old reported.old.deceived) (map (λ byte. OnLane way (Foreign byte)) bytes.now)) }
    ensures few { reported.new.deceived ≤ reported.old.deceived + length bytes.now }
{
    for byte in bytes {
        let cell = Cell::bare(*byte);
        arrive(alloc, way, master, side, &cell, reported)?;
    }
    Ok(())
}

/// Delivers a byte to the end to which this direction leads.
fn arrive<H: MasterHost + Drop>(
    alloc: Global,
    way: Way,
    master: &mut Master<H>,
    side: &mut LineStation,
    cell: &Cell,
    reported: &mut Reported,
) -> Result<(), NoMemory>
    requires { reported.old.deceived + 1 < 2 ^ 64 }
    ensures state { OnOk result (link_state master.new side.new reported.new.deceived
        ≡ after_cell (behind H.Host H.MasterHost.own) way (link_state master.old side.old reported.old.deceived) cell.now) }
    ensures lines { OnOk result (reported.new.lines
        ≡ reported.old.lines ++ cell_lines (behind H.Host H.MasterHost.own) way (link_state master.old side.old reported.old.deceived) cell.now) }
    ensures few { reported.new.deceived ≤ reported.old.deceived + 1 }
{
    match way {
        Way::ToStation => arrive_at_station::<H>(alloc, side, cell, reported),
        Way::ToMaster => arrive_at_master(alloc, master, cell, reported),
    }
}

/// Delivers a byte to a station: first the line of the act is reported, then the news.
fn arrive_at_station<H: MasterHost + Drop>(
    alloc: Global,
    side: &mut LineStation,
    cell: &Cell,
    reported: &mut Reported,
) -> Result<(), NoMemory>
    requires { reported.old.deceived + 1 < 2 ^ 64 }
    ensures state { (master : MasterState H) → OnOk result (link_state master side.new reported.new.deceived
        ≡ after_cell (behind H.Host H.MasterHost.own) Way.ToStation (link_state master side.old reported.old.deceived) cell.now) }
    ensures lines { (master : MasterState H) → OnOk result (reported.new.lines
        ≡ reported.old.lines ++ cell_lines (behind H.Host H.MasterHost.own) Way.ToStation (link_state master side.old reported.old.deceived) cell.now) }
    ensures few { reported.new.deceived ≤ reported.old.deceived + 1 }
{
    let who = Who::S(side.number());
    let step = side.hear(cell.byte);
    if is_station_deceived(step.whole, step.station, cell, side.body()) {
        reported.deceived += 1;
    }
    tell_act(
        alloc,
        who,
        step.act,
        step.did,
        side.body(),
        &mut reported.lines,
    )?;
    tell_news(who, step.news, &mut reported.lines)
}

/// Delivers a byte to the master: first the line of the act is reported, then the news.
fn arrive_at_master<H: MasterHost + Drop>(
    alloc: Global,
    master: &mut Master<H>,
    cell: &Cell,
    reported: &mut Reported,
) -> Result<(), NoMemory>
    requires { reported.old.deceived + 1 < 2 ^ 64 }
    ensures state { (side : LineStationState) → OnOk result (link_state master.new side reported.new.deceived
        ≡ after_cell (behind H.Host H.MasterHost.own) Way.ToMaster (link_state master.old side reported.old.deceived) cell.now) }
    ensures lines { (side : LineStationState) → OnOk result (reported.new.lines
        ≡ reported.old.lines ++ cell_lines (behind H.Host H.MasterHost.own) Way.ToMaster (link_state master.old side reported.old.deceived) cell.now) }
    ensures few { reported.new.deceived ≤ reported.old.deceived + 1 }
{
    let step = master.on_byte(cell.byte);
    if is_deceived(step.whole, cell, master.body()) {
        reported.deceived += 1;
    }
    tell_at_master(alloc, master, step.act, step.did, &mut reported.lines)?;
    tell_news(Who::M, step.news, &mut reported.lines)
}

/// Reports an act of the master. It is inlined, since at most bytes there is nothing to report.
#[inline(always)]
fn tell_at_master<H: MasterHost + Drop>(
    alloc: Global,
    master: &Master<H>,
    act: Act,
    did: Option<Did>,
    lines: &mut Page,
) -> Result<(), NoMemory>
    ensures { OnOk result (lines.new ≡ lines.old ++ act_lines_at (H.carries master.now.host (body_of master.now)) Who.M act did (body_of master.now)) }
{
    match act {
        Act::Accept => tell_accepted(alloc, master, did, lines),
        _ => tell_act(alloc, Who::M, act, did, master.body(), lines),
    }
}

/// Reports a message that the master accepted. It isn't inlined, since a byte at which none is accepted would pay for
/// it.
#[inline(never)]
fn tell_accepted<H: MasterHost + Drop>(
    alloc: Global,
    master: &Master<H>,
    did: Option<Did>,
    lines: &mut Page,
) -> Result<(), NoMemory>
    ensures { OnOk result (lines.new ≡ lines.old ++ act_lines_at (H.carries master.now.host (body_of master.now)) Who.M Act.Accept did (body_of master.now)) }
{
    let body = master.body();
    if master.host().carries(body) {
        tell_carried(alloc, did, body, lines)
    } else {
        tell_act(alloc, Who::M, Act::Accept, did, body, lines)
    }
}

/// Reports a message that the master accepted and that its host carries, by what the host did with it.
fn tell_carried(
    alloc: Global,
    did: Option<Did>,
    body: &[u8],
    lines: &mut Page,
) -> Result<(), NoMemory>
    ensures { OnOk result (lines.new ≡ lines.old ++ routed_lines Who.M Act.Accept did body.now) }
{
    match did {
        Some(Did::Stray) => tell_routed(alloc, Who::M, body, lines),
        Some(Did::Executed) | Some(Did::Answered(_)) | None => {
            tell_act(alloc, Who::M, Act::Accept, did, body, lines)
        }
    }
}
