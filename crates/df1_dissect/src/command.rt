//! The names of messages, by CMD and what follows TNS (manual topic: commands).
ghost use Rattle.std.specs.Prelude.{◌≡◌, ◌≤◌, length, IfSome};
ghost use Rattle.std.specs.Option.{option_map};
ghost use Rattle.df1_dissect.specs.Commands.{basic_name, command_name, extended_name, is_spelled, message_name, spelled_name};

use df1_base::REPLY;
use plc_commands::read_plc;
use slc_commands::read_slc;

/// CMD of the logical commands and of those that a PLC adds.
const EXTENDED: u8 = 0x0F;

/// Returns the name of a message: `reply` for a reply; else `unknown` if CMD or FNC is not a command's, or FNC is
/// missing; else `malformed` if the command can't be read; else the command's own. The payload is what follows TNS.
pub(crate) fn message_name(cmd: u8, payload: &[u8]) -> &'static str
    requires { length payload.now ≤ 244 }
    ensures value { result.now ≡ message_name cmd payload.now }
    ensures short { length result.now ≤ 18 }
{
    if cmd & REPLY != 0 {
        return "reply";
    }
    spelled_name(command_name(cmd, payload), is_spelled(cmd, payload))
}

/// Returns what a dissection calls a command: `unknown` if it has no name, `malformed` if it can't be read, otherwise
/// its name.
fn spelled_name(name: Option<&'static str>, spelled: bool) -> &'static str
    requires { IfSome name (λ name. length name.now ≤ 18) }
    ensures value { result.now ≡ spelled_name (option_map (λ name. name.now) name.entry) spelled }
    ensures short { length result.now ≤ 18 }
{
    match name {
        None => "unknown",
        Some(_) if !spelled => "malformed",
        Some(name) => name,
    }
}

/// Returns the name of a command that stations know.
fn command_name(cmd: u8, payload: &[u8]) -> Option<&'static str>
    ensures value { option_map (λ name. name.now) result ≡ command_name cmd payload.now }
    ensures short { IfSome result (λ name. length name.now ≤ 18) }
{
    match cmd {
        0x06 => basic_name(payload),
        0x01 => Some("unprotected-read"),
        0x08 => Some("unprotected-write"),
        EXTENDED => extended_name(payload),
        _ => None,
    }
}

/// Returns the name of a command with CMD 06.
fn basic_name(payload: &[u8]) -> Option<&'static str>
    ensures value { option_map (λ name. name.now) result ≡ basic_name payload.now }
    ensures short { IfSome result (λ name. length name.now ≤ 18) }
{
    match payload {
        [0x00, ..] => Some("echo"),
        [0x03, ..] => Some("status"),
        _ => None,
    }
}

/// Returns the name of a command with CMD 0F.
fn extended_name(payload: &[u8]) -> Option<&'static str>
    ensures value { option_map (λ name. name.now) result ≡ extended_name payload.now }
    ensures short { IfSome result (λ name. length name.now ≤ 18) }
{
    match payload {
        [0x00, ..] => Some("word-range-write"),
        [0x01, ..] => Some("word-range-read"),
        [0x26, ..] => Some("read-modify-write"),
        [0x67, ..] => Some("typed-write"),
        [0x68, ..] => Some("typed-read"),
        [0xA1, ..] => Some("logical-read-2"),
        [0xA2, ..] => Some("logical-read-3"),
        [0xA9, ..] => Some("logical-write-2"),
        [0xAA, ..] => Some("logical-write-3"),
        [0xAB, ..] => Some("masked-write"),
        _ => None,
    }
}

/// Returns whether a command can be read.
fn is_spelled(cmd: u8, payload: &[u8]) -> bool
    requires { length payload.now ≤ 244 }
    ensures { result ≡ is_spelled cmd payload.now }
{
    cmd == EXTENDED && read_slc(payload).is_ok() || read_plc(cmd, payload).is_ok()
}
