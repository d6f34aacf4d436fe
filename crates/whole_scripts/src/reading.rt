//! Reading a whole script from an input, for a given profile.
ghost use Rattle.std.specs.Prelude.{◌≡◌, ◌≢◌, ◌≤◌, Ok, IfOk, IfErr, IsErrOf, MatchResult, OnOk};
ghost use Rattle.line_script.specs.declared.profile.Profile.{Profile as Purpose};
ghost use Rattle.line_script.specs.Rehearsed.{IsRehearsed};
ghost use Rattle.line_script.specs.ScriptText.{script_for};
ghost use Rattle.script_parts.specs.HalfPlayable.{CanBePlayed};
ghost use Rattle.script_parts.specs.RoutePlayable.{IsRoutePlayable};
ghost use Rattle.whole_scripts.specs.Whole.{BreaksOff, BrokenOff, IsRead, Judges, Refused, TellsRefusal, TookFew};
ghost use Rattle.whole_scripts.specs.declared.fault.RunFault.{RunFault as Ending};

use crate::RunFault;
use crate::settled::settled;
use df1_base::{Failed, Source};
use line_script::{Cause, Profile, SCRIPT, ScriptFault, read_profile};
use script_parts::Script;
use script_statement::Bytes;
use std::alloc::Global;

/// The number of bytes that one read asks for.
const PIECE: usize = 4096;

/// Reads an input to its end, and parses the script for its profile. Takes at most 4,096 bytes more if the input is
/// longer than the longest script. Never returns `Output`.
///
/// Returns `Refusal`, with the first faulty line and the first cause that fits it, if no text that begins with the
/// bytes taken is such a script. Returns `Input` only if the count of faults of the input rose, and no line of the
/// bytes taken is refused yet.
pub fn read_input<S: Source>(
    alloc: Global,
    input: &mut S,
    profile: Profile,
) -> Result<Script, RunFault>
    ensures read { IfOk result (λ script. IsRead profile script (S.left input.old) (S.left input.new)) }
    ensures playable { profile ≢ Purpose.Route → IfOk result CanBePlayed }
    ensures routed { profile ≡ Purpose.Route → IfOk result IsRoutePlayable }
    ensures rehearsed { profile ≡ Purpose.Rehearse → IfOk result IsRehearsed }
    ensures calm { OnOk result (S.faults input.new ≡ S.faults input.old) }
    ensures refusal { IfErr result (TellsRefusal (Refused profile (S.left input.old) (S.left input.new))) }
    ensures input { IsErrOf result RunFault.Input → BrokenOff profile (S.left input.old) (S.left input.new) (S.faults input.old) (S.faults input.new) }
    ensures taken { TookFew (S.left input.old) (S.left input.new) }
    ensures later { S.faults input.old ≤ S.faults input.new }
    ensures writes_none { IfErr result (λ fault. fault ≢ Ending.Output) }
{
    let mut text = Bytes::new(alloc);
    let mut piece = [0; PIECE];
    while text.as_slice().len() <= SCRIPT {
        match input.read(&mut piece) {
            Ok(0) => return judged(alloc, text.as_slice(), profile),
            Ok(count) => text.extend(&piece[..count])?,
            Err(Failed) => return Err(broken_off(alloc, text.as_slice(), profile)),
        }
    }
    judged(alloc, text.as_slice(), profile)
}

/// Returns the script of a whole text.
fn judged(alloc: Global, text: &[u8], profile: Profile) -> Result<Script, RunFault>
    ensures exact { MatchResult result (λ script. script_for profile text.now ≡ Ok script) (Judges profile text.now) }
    ensures playable { profile ≢ Purpose.Route → IfOk result CanBePlayed }
    ensures routed { profile ≡ Purpose.Route → IfOk result IsRoutePlayable }
    ensures rehearsed { profile ≡ Purpose.Rehearse → IfOk result IsRehearsed }
{
    Ok(read_profile(alloc, text, profile)?)
}

/// Returns the fault of a text whose rest can't be read: a line that is refused whatever follows, or that the input
/// failed.
fn broken_off(alloc: Global, text: &[u8], profile: Profile) -> RunFault
    ensures { BreaksOff profile text.now result }
{
    match read_profile(alloc, settled(text), profile) {
        Ok(_)
        | Err(
            ScriptFault::At {
                cause: Cause::NoEnd,
                ..
            },
        ) => RunFault::Input,
        Err(fault) => fault.into(),
    }
}
