//! Reading a script from a whole text, line by line.
ghost use Rattle.std.specs.Prelude.{◌≡◌, ◌≢◌, ◌==◌, ◌<◌, ◌-◌, ◌^◌, ◌∷◌, [], Ok, length, IfOk, MatchResult, MatchOption, position};
ghost use Rattle.script_parts.specs.HalfPlayable.{CanBePlayed};
ghost use Rattle.script_parts.specs.RoutePlayable.{IsRoutePlayable};
ghost use Rattle.line_script.specs.declared.profile.Profile.{Profile as Purpose};
ghost use Rattle.line_script.specs.Lines.{finished, last_line, line_for, text_line};
ghost use Rattle.line_script.specs.Rehearsed.{IsRehearsed};
ghost use Rattle.line_script.specs.ScriptText.{at_line, lines_for, parts, script_for, script_of, text_for, with_event};
ghost use Rattle.line_script.specs.Refusal.{IsFaulty, IsRefused, fault_at};

use crate::{Events, LineFault, Profile, Reader, Script, ScriptFault};
use std::alloc::Global;

/// Reads a script, all of the text: at most 16,777,216 bytes in lines of at most 1,024 bytes. Returns `At` exactly if
/// the text is not a script, with its first faulty line and the first cause that fits it. A script that was read has:
///
/// - the ends a and b, or the master and at most 32 stations, each set up so that its tables and its end can be made;
/// - events that may all happen;
/// - at most 65,535 commands of each end that issues, and a sum of events of at most 4,000,000.
pub fn read_script(alloc: Global, text: &[u8]) -> Result<Script, ScriptFault>
    ensures exact { MatchResult result (λ script. script_of text.now ≡ Ok script) (λ fault. IsRefused fault (script_of text.now)) }
    ensures playable { IfOk result CanBePlayed }
{
    read_lines(alloc, text, Profile::Replay)
}

/// Reads a script for a replay, as `read_script` does, for a route or for a rehearsal. Returns `At` exactly if the text
/// is no such script, with its first faulty line and the first cause that fits it.
///
/// For a route it is a half-duplex script from its first line on, with these differences. `set mode full`, `set mode
/// half` and `mi S SRC HEX` are not among the forms. `Si T HEX` is one: the station S issues a command for T, another
/// station or the address of the master; another T has the cause `missing`. Stations have the keys `tns` and `window`.
/// A `station` line or a `set m.node` line that would make the master's address that of a station has the cause
/// `value`.
///
/// For a rehearsal, the forms that only half mode has are not among the forms. A command of end a has the cause
/// `place`, whatever else is wrong with it. A script that was read is in full mode and has no command of end a.
pub fn read_profile(alloc: Global, text: &[u8], profile: Profile) -> Result<Script, ScriptFault>
    ensures exact { MatchResult result (λ script. script_for profile text.now ≡ Ok script) (λ fault. IsRefused fault (script_for profile text.now)) }
    ensures playable { profile ≢ Purpose.Route → IfOk result CanBePlayed }
    ensures routed { profile ≡ Purpose.Route → IfOk result IsRoutePlayable }
    ensures rehearsed { profile ≡ Purpose.Rehearse → IfOk result IsRehearsed }
{
    read_lines(alloc, text, profile)
}

/// Reads all the lines of a text.
fn read_lines(alloc: Global, text: &[u8], profile: Profile) -> Result<Script, ScriptFault>
    ensures { MatchResult result (λ script. text_for profile text.now ≡ Ok script) (λ fault. IsRefused fault (text_for profile text.now)) }
{
    let mut reader = Reader::for_profile(alloc, profile);
    let mut events = Events::new(alloc);
    let mut rest = text;
    let mut number = 1u32;
    let mut start = 0;
    while let Some((line, more)) = next_line(rest) {
        if let Err(fault) = read_line(alloc, &mut reader, &mut events, start, line, true, profile) {
            return Err(at(number, fault));
        }
        number += 1;
        start += line.len() + 1;
        rest = more;
    }
    read_rest(alloc, reader, events, number, start, rest, profile)
}

/// Reads what follows the last line feed, from byte `start` and line `number` on.
fn read_rest(
    alloc: Global,
    mut reader: Reader,
    mut events: Events,
    number: u32,
    start: usize,
    rest: &[u8],
    profile: Profile,
) -> Result<Script, ScriptFault>
    requires { number < 2 ^ 32 - 1 }
    ensures { MatchResult result (λ script. lines_for profile reader events number (last_line start rest.now) ≡ Ok script)
        (λ fault. IsRefused fault (lines_for profile reader events number (last_line start rest.now))) }
{
    if rest.is_empty() {
        return finish(alloc, reader, events, number);
    }
    match read_line(alloc, &mut reader, &mut events, start, rest, false, profile) {
        Ok(()) => finish(alloc, reader, events, number + 1),
        Err(fault) => Err(at(number, fault)),
    }
}

/// Ends a text whose next line would have this number.
fn finish(alloc: Global, reader: Reader, events: Events, number: u32) -> Result<Script, ScriptFault>
    ensures { MatchResult result (λ script. at_line number (finished reader events) Ok ≡ Ok script)
        (λ fault. IsRefused fault (at_line number (finished reader events) Ok)) }
{
    match reader.finish(alloc, events) {
        Ok(script) => Ok(script),
        Err(fault) => Err(at(number, fault)),
    }
}

/// Reads the next line, and keeps its event, if it is one.
fn read_line(
    alloc: Global,
    reader: &mut Reader,
    events: &mut Events,
    start: usize,
    line: &[u8],
    is_ended: bool,
    profile: Profile,
) -> Result<(), LineFault>
    ensures { MatchResult result (λ _. with_event events.old (line_for profile reader.old (text_line start line.now is_ended)) ≡ Ok (reader.new, events.new))
        (λ fault. IsFaulty fault (with_event events.old (line_for profile reader.old (text_line start line.now is_ended)))) }
{
    if let Some(event) = reader.read_for(alloc, start, line, is_ended, profile)? {
        events.push(event)?;
    }
    Ok(())
}

/// Returns the fault of a line, with the line's number.
pub(crate) fn at(line: u32, fault: LineFault) -> ScriptFault
    ensures { result ≡ fault_at line fault }
{
    match fault {
        LineFault::Faulty(cause) => ScriptFault::At { line, cause },
        LineFault::NoMemory => ScriptFault::NoMemory,
    }
}

/// Returns the line that a text begins with, if a line feed ends one, and what follows it.
fn next_line(text: &[u8]) -> Option<(&[u8], &[u8])>
    ensures { MatchOption result (parts text.now ≡ text.now ∷ [])
        (λ cut. (parts text.now ≡ cut.0.now ∷ parts cut.1.now) × (length cut.1.now < length text.now)) }
{
    match line_end(text) {
        Some(end) => Some((&text[..end], &text[end + 1..])),
        None => None,
    }
}

/// Returns the index of the first line feed, and None exactly if there is none.
pub fn line_end(text: &[u8]) -> Option<usize>
    ensures { result ≡ position (λ b. b == 10) text.now }
{
    text.iter().position(|b| *b == b'\n')
}
