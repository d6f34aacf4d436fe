//! The commands that a station executes: the logical commands of an SLC, and those of a PLC and of every station
//! (manual topic: commands). Every other command is refused with STS 10. A command that would write a locked file is
//! refused with F0/0B, or with 50 if it is an unprotected write.
ghost use Rattle.std.specs.List.{list_any};
ghost use Rattle.std.specs.Prelude.{◌≡◌, ◌+◌, ◌≤◌, None, length, option_map, IfSome};
ghost use Rattle.slc_commands.specs.Order.{IsOrder, seen};
ghost use Rattle.plc_commands.specs.Order.{seen as seen_plc};
ghost use Rattle.plc_commands.specs.Reading.{order_of};
ghost use Rattle.df1_node.specs.Answer.{asked_by, asked_of, effect_of, extension_of, is_locked, logical_order, plc_denial, plc_writes, slc_effect, station_with};

use crate::Tables;
use arrayvec::ArrayVec;
use df1_base::Code;
use plc_commands::{PlcOrder, Set, do_plc, read_plc};
use slc_commands::{SlcOrder, do_slc, read_slc};

/// CMD of the logical commands.
const LOGICAL: u8 = 0x0F;

/// STS: the address isn't in the file, or memory is protected.
const PROTECTED: Code = Code::Sts(0x50);

/// EXT STS: access is denied.
const ACCESS_DENIED: Code = Code::Ext(0x0B);

/// Executes a command with this CMD and with `payload`, the bytes after TNS, and replaces `out` by the data of its
/// reply. `compat` is the number of the compatibility file, if there is one, `block` the data of the status reply, and
/// `locked` the numbers of the files that no command may write.
pub(crate) fn execute(
    tables: &mut Tables,
    compat: Option<u16>,
    block: &[u8],
    locked: &[u16],
    cmd: u8,
    payload: &[u8],
    out: &mut ArrayVec<u8, 244>,
) -> Code
    requires payload { length payload.now ≤ 244 }
    requires block { length block.now ≤ 244 }
    ensures code { result ≡ (effect_of (station_with tables.old compat block.now locked.now) (asked_of cmd payload.now)).code }
    ensures tables { tables.new ≡ (effect_of (station_with tables.old compat block.now locked.now) (asked_of cmd payload.now)).tables }
    ensures reply { out.new.items ≡ (effect_of (station_with tables.old compat block.now locked.now) (asked_of cmd payload.now)).reply }
    ensures files { tables.new.specs ≡ tables.old.specs }
    ensures fits { length (extension_of result) + length out.new.items ≤ 244 }
{
    match logical_order(cmd, payload) {
        Some(order) => execute_logical(tables, locked, &order, out),
        None => execute_other(tables, compat, block, locked, cmd, payload, out),
    }
}

/// Returns the order of a logical command that can be read, and None for every other command.
fn logical_order(cmd: u8, payload: &[u8]) -> Option<SlcOrder<'_>>
    ensures reads { option_map seen result ≡ logical_order cmd payload.now }
    ensures order { IfSome result (λ order. IsOrder (seen order)) }
{
    if cmd != LOGICAL {
        return None;
    }
    match read_slc(payload) {
        Ok(order) => Some(order),
        Err(_) => None,
    }
}

/// Executes a logical order, unless it writes a locked file, and replaces `out` by the data of its reply.
fn execute_logical(
    tables: &mut Tables,
    locked: &[u16],
    order: &SlcOrder<'_>,
    out: &mut ArrayVec<u8, 244>,
) -> Code
    requires { IsOrder (seen order.now) }
    ensures code { result ≡ (slc_effect tables.old locked.now (seen order.now)).code }
    ensures tables { tables.new ≡ (slc_effect tables.old locked.now (seen order.now)).tables }
    ensures reply { out.new.items ≡ (slc_effect tables.old locked.now (seen order.now)).reply }
    ensures files { tables.new.specs ≡ tables.old.specs }
    ensures fits { length (extension_of result) + length out.new.items ≤ 244 }
{
    if order.fnc.writes() && is_locked(locked, order.at.file) {
        out.clear();
        return ACCESS_DENIED;
    }
    do_slc(tables, order, out)
}

/// Executes a command that isn't logical, and replaces `out` by the data of its reply.
fn execute_other(
    tables: &mut Tables,
    compat: Option<u16>,
    block: &[u8],
    locked: &[u16],
    cmd: u8,
    payload: &[u8],
    out: &mut ArrayVec<u8, 244>,
) -> Code
    requires payload { length payload.now ≤ 244 }
    requires block { length block.now ≤ 244 }
    ensures code { result ≡ (effect_of (station_with tables.old compat block.now locked.now) (asked_by None (order_of cmd payload.now))).code }
    ensures tables { tables.new ≡ (effect_of (station_with tables.old compat block.now locked.now) (asked_by None (order_of cmd payload.now))).tables }
    ensures reply { out.new.items ≡ (effect_of (station_with tables.old compat block.now locked.now) (asked_by None (order_of cmd payload.now))).reply }
    ensures files { tables.new.specs ≡ tables.old.specs }
    ensures fits { length (extension_of result) + length out.new.items ≤ 244 }
{
    out.clear();
    match read_plc(cmd, payload) {
        Ok(order) if writes_locked(&order, compat, locked) => denial(&order),
        Ok(order) => do_plc(tables, compat, block, &order, out),
        Err(code) => code,
    }
}

/// Returns whether an order writes a locked file.
fn writes_locked(order: &PlcOrder<'_>, compat: Option<u16>, locked: &[u16]) -> bool
    ensures { result ≡ plc_writes (is_locked locked.now) compat (seen_plc order.now) }
{
    match order {
        PlcOrder::Echo(_)
        | PlcOrder::Status
        | PlcOrder::Peek { .. }
        | PlcOrder::RangeRead { .. }
        | PlcOrder::TypedRead { .. } => false,
        PlcOrder::Poke { .. } => match compat {
            Some(file) => is_locked(locked, file),
            None => false,
        },
        PlcOrder::RangeWrite { at, .. } | PlcOrder::TypedWrite { at, .. } => is_locked(
            locked, at.file,
        ),
        PlcOrder::Change(sets) => sets_locked(sets.as_slice(), locked),
    }
}

/// Returns whether one of these changes is to a locked file.
fn sets_locked(sets: &[Set], locked: &[u16]) -> bool
    ensures { result ≡ list_any (λ set. is_locked locked.now set.at.file) sets.now }
{
    sets.iter().any(|set| is_locked(locked, set.at.file))
}

/// Returns whether a file is locked: no command may write it.
fn is_locked(locked: &[u16], file: u16) -> bool
    ensures { result ≡ is_locked locked.now file }
{
    locked.contains(&file)
}

/// Returns the code that refuses an order which writes a locked file.
fn denial(order: &PlcOrder<'_>) -> Code
    ensures { result ≡ plc_denial (seen_plc order.now) }
{
    match order {
        PlcOrder::Poke { .. } => PROTECTED,
        _ => ACCESS_DENIED,
    }
}
