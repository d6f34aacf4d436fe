//! Events at the master, and events at a station or with the bytes between it and the master.

ghost use Rattle.std.specs.Prelude.{◌≡◌, ◌+◌, ◌≤◌, ◌++◌, ℕ, List, OnOk, IsOk, IsTrue};
ghost use Rattle.replay_report.specs.Report.{sent_lines};
ghost use Rattle.half_line.specs.Behind.{behind};
ghost use Rattle.half_line.specs.Acts.{half_state, link_state};
ghost use Rattle.half_line.specs.Steps.{after_link_deeds, after_master_deeds, link_bytes_over, link_lines_over, master_bytes_over, master_lines_over};
ghost use Rattle.half_line.specs.Run.{link_deeds, master_deeds};
ghost use Rattle.half_line.specs.Plays.{IsUnspent, most_events, takes_no_memory};
ghost use Rattle.script_parts.specs.HalfPlayable.{IsHalfPossible, half_count_of};

use crate::line_station::LineStation;
use crate::link::{self, deliver, intrude, lose};
use crate::master::{self, issue, pass};
use crate::reported::Reported;
use crate::way::way_from;
use df1_base::NoMemory;
use half_master::Master;
use replay_report::Page;
use script_parts::Event;
use script_statement::Who;
use station_router::MasterHost;
use std::alloc::Global;

/// Performs an event at the master.
pub(crate) fn deal_at_master<H: MasterHost + Drop>(
    alloc: Global,
    event: &Event,
    master: &mut Master<H>,
    stations: &mut Vec<LineStation>,
    lines: &mut Page,
) -> Result<(), NoMemory>
    requires possible { (numbers : List ℕ) × IsHalfPossible numbers event.now }
    requires unspent { IsUnspent (behind H.Host H.MasterHost.own) master.old event.now }
    ensures state { (deceived : ℕ) → OnOk result (half_state master.new stations.new.items deceived
        ≡ after_master_deeds (behind H.Host H.MasterHost.own) (half_state master.old stations.old.items deceived) (master_deeds event.now)) }
    ensures lines { OnOk result (lines.new
        ≡ lines.old ++ (master_lines_over (behind H.Host H.MasterHost.own) master.old (master_deeds event.now) ++ sent_lines Who.M (master_bytes_over (behind H.Host H.MasterHost.own) master.old (master_deeds event.now)))) }
    ensures calm { IsTrue (takes_no_memory event.now) → IsOk result }
{
    match event {
        Event::Issue {
            src,
            dst,
            payload,
            ..
        } => issue(master, *src, *dst, payload.as_slice()),
        Event::Take { n, .. } => master::give(alloc, master, stations, *n, lines),
        Event::Tick { n, .. } => pass(master, *n, lines),
        Event::Deliver { .. } | Event::Lose { .. } | Event::Alter { .. } | Event::Foreign { .. } =>
            Ok(()),
    }
}

/// Performs an event at the station of this number, or on the bytes between it and the master.
pub(crate) fn deal_at_station<H: MasterHost + Drop>(
    alloc: Global,
    event: &Event,
    number: u8,
    master: &mut Master<H>,
    side: &mut LineStation,
    reported: &mut Reported,
) -> Result<(), NoMemory>
    requires few { (numbers : List ℕ) × (reported.old.deceived + half_count_of numbers event.now ≤ most_events) }
    ensures state { OnOk result (link_state master.new side.new reported.new.deceived
        ≡ after_link_deeds (behind H.Host H.MasterHost.own) (link_state master.old side.old reported.old.deceived) (link_deeds event.now)) }
    ensures lines { OnOk result (reported.new.lines
        ≡ reported.old.lines ++ (link_lines_over (behind H.Host H.MasterHost.own) (link_state master.old side.old reported.old.deceived) (link_deeds event.now)
        ++ sent_lines (Who.S number) (link_bytes_over (behind H.Host H.MasterHost.own) (link_state master.old side.old reported.old.deceived) (link_deeds event.now)))) }
    ensures few { (numbers : List ℕ) → reported.new.deceived ≤ reported.old.deceived + half_count_of numbers event.now }
    ensures calm { IsTrue (takes_no_memory event.now) → IsOk result }
{
    match event {
        Event::Take { n, .. } => link::give::<H>(alloc, number, side, *n, &mut reported.lines),
        Event::Deliver { lane, n } => {
            deliver(alloc, way_from(lane.from), master, side, *n, reported)
        }
        Event::Lose { lane, n } => {
            lose::<H>(way_from(lane.from), side, *n);
            Ok(())
        }
        Event::Alter { lane, mask } => {
            side.alter(way_from(lane.from), *mask);
            Ok(())
        }
        Event::Foreign { lane, bytes } => {
            intrude(
                alloc,
                way_from(lane.from),
                master,
                side,
                bytes.as_slice(),
                reported,
            )
        }
        Event::Issue { .. } | Event::Tick { .. } => Ok(()),
    }
}
