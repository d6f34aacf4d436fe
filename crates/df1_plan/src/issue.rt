//! The commands of a plan.
ghost use Rattle.std.specs.Prelude.{◌≡◌, ◌≢◌, [], Ok, Err, IfOk, IfErr, codes, option_map};
ghost use Rattle.toml.specs.View.{items_view, table_view, view};
ghost use Rattle.df1_plan.specs.Keys.{has_other};
ghost use Rattle.df1_plan.specs.Plans.{issue};
ghost use Rattle.df1_plan.specs.Issues.{command_from as the_command_from, command_in as the_command, command_with as the_described, commands_after, is_command_field as the_field, next_command as the_next, own_command as own};
ghost use Rattle.df1_plan.specs.Files.{field};
ghost use Rattle.df1_plan.specs.Values.{hex_in as the_bytes, integer_in as the_integer};

use crate::plan::{Commands, PlannedCommand};
use crate::values::{hex_in, integer_in, value_at};
use crate::{PlanFault, PlanKey};
use df1_base::NoMemory;
use script_statement::{Bytes, Items, is_payload};
use std::alloc::Global;
use toml::{Table, Value};

/// The maximum number of commands of an end.
const COMMANDS: usize = 65_535;

/// Returns the commands at the key `issue`, or the first entry that is refused.
pub(crate) fn issue_at(alloc: Global, table: &Table) -> Result<Commands, PlanFault>
    ensures ok { IfOk result (λ commands. issue (table_view table.now) ≡ Ok commands) }
    ensures refused { IfErr result (λ e. e ≢ PlanFault.NoMemory → issue (table_view table.now) ≡ Err e) }
{
    match value_at(table, PlanKey::Issue.name()) {
        None => Ok(Items::new(alloc)),
        Some(value) => match value.as_array() {
            Some(entries) => commands_of(alloc, entries.as_slice()),
            None => Err(PlanFault::Key(PlanKey::Issue)),
        },
    }
}

/// Returns the commands of these entries, or the first entry that is refused.
fn commands_of(alloc: Global, entries: &[Value]) -> Result<Commands, PlanFault>
    ensures ok { IfOk result (λ commands. commands_after [] (items_view entries.now) ≡ Ok commands) }
    ensures refused { IfErr result (λ e. e ≢ PlanFault.NoMemory → commands_after [] (items_view entries.now) ≡ Err e) }
{
    let mut commands = Items::new(alloc);
    for entry in entries {
        match next_command(alloc, commands.as_slice(), entry)? {
            Some(command) => commands.push(command)?,
            None => return Err(PlanFault::Issue(commands.as_slice().len() as u32 + 1)),
        }
    }
    Ok(commands)
}

/// Returns the command of an entry after these, if it may follow them.
fn next_command(
    alloc: Global,
    before: &[PlannedCommand],
    entry: &Value,
) -> Result<Option<PlannedCommand>, NoMemory>
    ensures { IfOk result (λ command. command ≡ the_next before.now (view entry.now)) }
{
    match command_in(alloc, entry)? {
        Some(command) if before.len() < COMMANDS && is_payload(command.payload.as_slice()) => {
            Ok(Some(command))
        }
        _ => Ok(None),
    }
}

/// Returns the command that an entry describes by itself.
#[tactic(auto, using(crate::proofs::Entries::no_table))]
fn command_in(alloc: Global, entry: &Value) -> Result<Option<PlannedCommand>, NoMemory>
    ensures { IfOk result (λ command. command ≡ the_command (view entry.now)) }
{
    let Some(fields) = entry.as_table() else {
        return Ok(own_command(hex_in(alloc, entry)?));
    };
    if has_other_field(fields) {
        return Ok(None);
    }
    command_with(alloc, fields)
}

/// Returns a command whose source is the end itself.
fn own_command(payload: Option<Bytes>) -> Option<PlannedCommand>
    ensures { result ≡ option_map own payload }
{
    Some(PlannedCommand {
        src: None,
        payload: payload?,
    })
}

/// Returns the command that the fields describe.
fn command_with(alloc: Global, fields: &Table) -> Result<Option<PlannedCommand>, NoMemory>
    ensures { IfOk result (λ command. command ≡ the_described (table_view fields.now)) }
{
    let payload = payload_in(alloc, fields)?;
    Ok(command_from(source_in(fields), payload))
}

/// Returns a command with this source, if both are present.
fn command_from(src: Option<u8>, payload: Option<Bytes>) -> Option<PlannedCommand>
    ensures { result ≡ the_command_from src payload }
{
    Some(PlannedCommand {
        src: Some(src?),
        payload: payload?,
    })
}

/// Returns the source that the fields specify.
fn source_in(fields: &Table) -> Option<u8>
    ensures { result ≡ field (the_integer 0 255) (codes "source") (table_view fields.now) }
{
    let src = integer_in(value_at(fields, "source")?, 0, 255)?;
    Some(src as u8)
}

/// Returns the payload that the fields specify.
fn payload_in(alloc: Global, fields: &Table) -> Result<Option<Bytes>, NoMemory>
    ensures { IfOk result (λ payload. payload ≡ field the_bytes (codes "payload") (table_view fields.now)) }
{
    match value_at(fields, "payload") {
        Some(value) => hex_in(alloc, value),
        None => Ok(None),
    }
}

/// Returns whether a field has a name that is not one of a command's.
fn has_other_field(fields: &Table) -> bool
    ensures { result ≡ has_other the_field (table_view fields.now) }
{
    for name in fields.keys() {
        if !is_field(name.as_str()) {
            return true;
        }
    }
    false
}

/// Returns whether a name is one of a command's fields.
fn is_field(name: &str) -> bool
    ensures { result ≡ the_field name.now }
{
    match name {
        "source" | "payload" => true,
        _ => false,
    }
}
