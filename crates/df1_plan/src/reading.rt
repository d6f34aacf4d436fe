//! The reading of a plan, key by key in byte order of the names.
ghost use Rattle.std.specs.Prelude.{◌≡◌, ◌≢◌, ◌≤◌, Ok, Err, None, Some, IfOk, IfErr, IsTrue, All, length};
ghost use Rattle.data_files.specs.Tables.{fits_compat as the_fitting};
ghost use Rattle.script_statement.specs.declared.who.Who.TheVariants.{A};
ghost use Rattle.script_statement.specs.Statements.{is_payload};
ghost use Rattle.script_parts.specs.Playable.{IsPlanOf};
ghost use Rattle.toml.specs.View.{table_view};
ghost use Rattle.df1_plan.specs.Keys.{has_other, is_known as the_known};
ghost use Rattle.df1_plan.specs.Settings.{refused_in};
ghost use Rattle.df1_plan.specs.Files.{HoldsItsWords, specs_of as the_specs};
ghost use Rattle.df1_plan.specs.Plans.{IsPlanOfText, IsRefusedFor, Says, back_causes, block as the_block, check as the_check, compat as the_compat, entry_causes, first_cause, first_there, front_causes, peer as the_peer};
ghost use Rattle.df1_plan.specs.Parts.{BackSays, EntriesSay, FrontSays, joined as the_plan};

use crate::files::{PlannedFile, files_at, specs_of, words_of_all};
use crate::issue::issue_at;
use crate::plan::Commands;
use crate::plan_key::{is_other, is_setting};
use crate::settings::{before, refused_in, settings_of};
use crate::values::{check_in, hex_in, integer_in, value_at};
use crate::{Plan, PlanFault, PlanKey};
use df1_base::MAX_DATA;
use df1_check::Check;
use end_settings::{EndKey, Settings};
use script_parts::EndPlan;
use script_statement::{Bytes, Items, Who};
use std::alloc::Global;
use toml::{Table, Value};

/// The address of a plan's end if none is set.
const ADDRESS: u8 = 1;

/// The values of the keys before `file` that are not settings.
#[derive(Drop)]
struct Front {
    block: Bytes,
    check: Check,
    compat: Option<u16>,
}

/// The files and the commands.
#[derive(Drop)]
struct Entries {
    files: Items<PlannedFile>,
    issue: Commands,
}

/// Reads a plan, or returns the first cause why the document is not one.
pub fn read_plan(alloc: Global, text: &[u8]) -> Result<Plan, PlanFault>
    ensures ok { IfOk result (IsPlanOfText text.now) }
    ensures valid { IfOk result (λ plan. IsPlanOf A plan.end × All (λ command. IsTrue (is_payload command.payload)) plan.issue × (length plan.issue ≤ 65535)) }
    ensures refused { IfErr result (λ e. e ≢ PlanFault.NoMemory → IsRefusedFor text.now e) }
{
    match toml::table_from_slice(alloc, text) {
        Ok(table) => plan_in(alloc, &table),
        Err(error) if error.is_memory() => Err(PlanFault::NoMemory),
        Err(_) => Err(PlanFault::Text),
    }
}

/// Returns the plan of a table.
fn plan_in(alloc: Global, table: &Table) -> Result<Plan, PlanFault>
    ensures ok { IfOk result (λ plan. (first_cause (table_view table.now) ≡ None) × Says (table_view table.now) plan) }
    ensures refused { IfErr result (λ e. e ≢ PlanFault.NoMemory → first_cause (table_view table.now) ≡ Some e) }
{
    if has_other_key(table) {
        return Err(PlanFault::UnknownKey);
    }
    let refused = refused_in(table);
    let front = front_of(alloc, table, refused)?;
    let entries = entries_of(alloc, table, refused)?;
    let peer = back_of(table, refused)?;
    if !fits_compat(entries.files.as_slice(), front.compat) {
        return Err(PlanFault::Key(PlanKey::Compat));
    }
    joined(alloc, &settings_of(table), front, entries, peer)
}

/// Returns whether a key has a name that is not one of a plan's.
fn has_other_key(table: &Table) -> bool
    ensures { result ≡ has_other the_known (table_view table.now) }
{
    for name in table.keys() {
        if !is_known(name.as_str()) {
            return true;
        }
    }
    false
}

/// Returns whether a name is that of a key.
fn is_known(name: &str) -> bool
    ensures { result ≡ the_known name.now }
{
    is_setting(name) || is_other(name)
}

/// Returns the values of the keys before `file`, if neither they nor settings before it are refused.
fn front_of(alloc: Global, table: &Table, refused: Option<EndKey>) -> Result<Front, PlanFault>
    requires { refused ≡ refused_in (table_view table.now) }
    ensures ok { IfOk result (FrontSays (table_view table.now)) }
    ensures refused { IfErr result (λ e. e ≢ PlanFault.NoMemory → first_there (front_causes (table_view table.now)) ≡ Some e) }
{
    before(PlanKey::Block, refused)?;
    let block = block_at(alloc, table)?;
    before(PlanKey::Check, refused)?;
    let check = check_at(table)?;
    before(PlanKey::Compat, refused)?;
    let compat = compat_at(table)?;
    Ok(Front {
        block,
        check,
        compat,
    })
}

/// Returns the files and the commands, if neither they nor settings before them are refused.
fn entries_of(alloc: Global, table: &Table, refused: Option<EndKey>) -> Result<Entries, PlanFault>
    requires { refused ≡ refused_in (table_view table.now) }
    ensures ok { IfOk result (EntriesSay (table_view table.now)) }
    ensures refused { IfErr result (λ e. e ≢ PlanFault.NoMemory → first_there (entry_causes (table_view table.now)) ≡ Some e) }
{
    before(PlanKey::File, refused)?;
    let files = files_at(alloc, table)?;
    before(PlanKey::Issue, refused)?;
    let issue = issue_at(alloc, table)?;
    Ok(Entries { files, issue })
}

/// Returns the address at the key `peer`, if neither it nor a setting is refused.
fn back_of(table: &Table, refused: Option<EndKey>) -> Result<u8, PlanFault>
    requires { refused ≡ refused_in (table_view table.now) }
    ensures ok { IfOk result (BackSays (table_view table.now)) }
    ensures refused { IfErr result (λ e. first_there (back_causes (table_view table.now)) ≡ Some e) }
{
    before(PlanKey::Peer, refused)?;
    let peer = peer_at(table)?;
    match refused {
        Some(key) => Err(PlanFault::Key(PlanKey::Setting(key))),
        None => Ok(peer),
    }
}

/// Returns the address to which the commands are sent, 0 if it is left out.
fn peer_at(table: &Table) -> Result<u8, PlanFault>
    ensures { result ≡ the_peer (table_view table.now) }
{
    match value_at(table, PlanKey::Peer.name()) {
        None => Ok(0),
        Some(value) => match integer_in(value, 0, 255) {
            Some(address) => Ok(address as u8),
            None => Err(PlanFault::Key(PlanKey::Peer)),
        },
    }
}

/// Returns the block, empty if it is left out.
fn block_at(alloc: Global, table: &Table) -> Result<Bytes, PlanFault>
    ensures ok { IfOk result (λ bytes. the_block (table_view table.now) ≡ Ok bytes) }
    ensures refused { IfErr result (λ e. e ≢ PlanFault.NoMemory → the_block (table_view table.now) ≡ Err e) }
{
    match value_at(table, PlanKey::Block.name()) {
        None => Ok(Items::new(alloc)),
        Some(value) => match hex_in(alloc, value)? {
            Some(bytes) if bytes.as_slice().len() <= MAX_DATA => Ok(bytes),
            _ => Err(PlanFault::Key(PlanKey::Block)),
        },
    }
}

/// Returns the check of frames, BCC if it is left out.
fn check_at(table: &Table) -> Result<Check, PlanFault>
    ensures { result ≡ the_check (table_view table.now) }
{
    match value_at(table, PlanKey::Check.name()) {
        None => Ok(Check::Bcc),
        Some(value) => check_in(value).ok_or(PlanFault::Key(PlanKey::Check)),
    }
}

/// Returns the number of the compatibility file, if there is one.
fn compat_at(table: &Table) -> Result<Option<u16>, PlanFault>
    ensures { result ≡ the_compat (table_view table.now) }
{
    match value_at(table, PlanKey::Compat.name()) {
        None => Ok(None),
        Some(value) => match integer_in(value, 0, 999) {
            Some(number) => Ok(Some(number as u16)),
            None => Err(PlanFault::Key(PlanKey::Compat)),
        },
    }
}

/// Returns whether the compatibility file, if there is one, is one of the files and holds bits or integers.
fn fits_compat(files: &[PlannedFile], compat: Option<u16>) -> bool
    ensures { result ≡ the_fitting (the_specs files.now) compat }
{
    let Some(number) = compat else {
        return true;
    };
    for file in files {
        if file.spec.number == number {
            return file.spec.holds_words();
        }
    }
    false
}

/// Returns the plan of these settings and values.
fn joined(
    alloc: Global,
    settings: &Settings,
    front: Front,
    entries: Entries,
    peer: u8,
) -> Result<Plan, PlanFault>
    requires { All HoldsItsWords entries.files }
    ensures ok { IfOk result (λ plan. plan ≡ the_plan settings.now front entries.files entries.issue peer) }
    ensures memory { IfErr result (λ e. e ≡ PlanFault.NoMemory) }
{
    let files = specs_of(alloc, entries.files.as_slice())?;
    let words = words_of_all(alloc, entries.files.as_slice())?;
    let end = EndPlan::new(
        Who::A,
        ADDRESS,
        settings,
        front.compat,
        front.block,
        files,
        words,
    );
    Ok(Plan {
        check: front.check,
        peer,
        end,
        issue: entries.issue,
    })
}
