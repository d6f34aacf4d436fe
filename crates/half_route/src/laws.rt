//! The law of every route. The function does nothing.
ghost use Rattle.std.specs.Prelude.{◌≡◌};
ghost use Rattle.std.specs.List.{AllZip};
ghost use Rattle.script_parts.specs.declared.script.Script.{Script};
ghost use Rattle.script_parts.specs.HalfPlayable.{station_plans};
ghost use Rattle.script_parts.specs.RoutePlayable.{IsRoutePlayable};
ghost use Rattle.half_line.specs.Run.{plan_of_m};
ghost use Rattle.half_route.specs.Issues.{HasItsCommands};
ghost use Rattle.half_route.specs.Run.{whole_run};

/// A law: in every run of a route's script, whatever is received, the commands that the master and each station have
/// issued are those of the script (manual topic: message packets).
pub fn commands_are_issued()
    ensures at_master { (script : Script) → IsRoutePlayable script → HasItsCommands script (plan_of_m script) (whole_run script).state.master.host.inner }
    ensures at_stations { (script : Script) → IsRoutePlayable script → AllZip (λ plan side. HasItsCommands script plan side.slave.host) (station_plans script.ends) (whole_run script).state.stations }
{}
