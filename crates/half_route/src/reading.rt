//! Reading the script of a route.
ghost use Rattle.std.specs.Prelude.{◌≡◌, Ok, IfOk, MatchResult};
ghost use Rattle.line_script.specs.declared.profile.Profile.{Profile as Purpose};
ghost use Rattle.line_script.specs.Refusal.{IsRefused};
ghost use Rattle.line_script.specs.ScriptText.{script_for};
ghost use Rattle.script_parts.specs.RoutePlayable.{IsRoutePlayable};

use line_script::{Profile, ScriptFault, read_profile};
use script_parts::Script;
use std::alloc::Global;

/// The script of a route: a half-duplex one, in which stations may issue commands too.
#[derive(Drop)]
pub struct RouteScript {
    pub script: Script,
}

/// Reads the script of a route, which is the whole text: at most 16,777,216 bytes in lines of at most 1,024 bytes, as
/// `read_profile` does for a route. Returns `At`, with the first faulty line and the first cause that fits it, exactly
/// if the text isn't one. In a script that was read all events may happen, and the master's address is not that of a
/// station (manual topic: half-duplex protocol).
pub fn read_route(alloc: Global, text: &[u8]) -> Result<RouteScript, ScriptFault>
    ensures exact { MatchResult result (λ route. script_for Purpose.Route text.now ≡ Ok route.script) (λ fault. IsRefused fault (script_for Purpose.Route text.now)) }
    ensures playable { IfOk result (λ route. IsRoutePlayable route.script) }
{
    match read_profile(alloc, text, Profile::Route) {
        Ok(script) => Ok(RouteScript { script }),
        Err(fault) => Err(fault),
    }
}
