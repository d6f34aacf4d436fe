//! The settings of a plan, by the rows of the table of keys.
ghost use Rattle.std.specs.Prelude.{◌≡◌, None, Some, MatchResult, option_map};
ghost use Rattle.end_settings.specs.declared.key.EndKey.{EndKey as OneKey};
ghost use Rattle.end_settings.specs.Given.{value_of};
ghost use Rattle.toml.specs.View.{table_view, view};
ghost use Rattle.df1_plan.specs.Settings.{given_at as the_given, is_refused as the_test, refused_before, refused_in as the_first, setting_at as the_value, stands_before as the_order};

use crate::values::{value_at, value_in};
use crate::{PlanFault, PlanKey};
use end_settings::{EndKey, KEYS, Role, Setting, Settings};
use toml::{Table, Value};

/// Returns the settings that a table specifies.
pub(crate) fn settings_of(table: &Table) -> Settings
    ensures { (key : OneKey) → value_of result key ≡ the_given (table_view table.now) key }
{
    let mut settings = Settings::new();
    for key in KEYS {
        let value = given_at(table, key);
        settings.set(Setting { key, value });
    }
    settings
}

/// Returns the first setting that is refused, in byte order of the names.
#[tactic(auto, unfolding(crate::specs::Settings::refused_in))]
pub(crate) fn refused_in(table: &Table) -> Option<EndKey>
    ensures { result ≡ the_first (table_view table.now) }
{
    KEYS.iter().copied().find(|key| is_refused(table, *key))
}

/// Returns the refused setting as an error, if its name precedes that of another key.
pub(crate) fn before(other: PlanKey, refused: Option<EndKey>) -> Result<(), PlanFault>
    ensures { MatchResult result (λ _. refused_before other refused ≡ None) (λ e. refused_before other refused ≡ Some e) }
{
    match refused {
        Some(key) if stands_before(key, other) => Err(PlanFault::Key(PlanKey::Setting(key))),
        _ => Ok(()),
    }
}

/// Returns whether the name of a setting precedes that of another key.
fn stands_before(key: EndKey, other: PlanKey) -> bool
    ensures { result ≡ the_order key other }
{
    key.name().as_bytes().cmp(&other.name().as_bytes()).is_lt()
}

/// Returns the entry of a table at a setting.
fn setting_at(table: &Table, key: EndKey) -> Option<&Value>
    ensures { option_map (λ v. view v.now) result ≡ the_value (table_view table.now) key }
{
    if key.roles().has(Role::Duplex) {
        value_at(table, key.name())
    } else {
        None
    }
}

/// Returns the value that a table specifies for a setting.
fn given_at(table: &Table, key: EndKey) -> Option<u32>
    ensures { result ≡ the_given (table_view table.now) key }
{
    value_in(setting_at(table, key)?, key.values())
}

/// Returns whether the entry at a setting is not one of its values.
fn is_refused(table: &Table, key: EndKey) -> bool
    ensures { result ≡ the_test (table_view table.now) key }
{
    match setting_at(table, key) {
        Some(value) => value_in(value, key.values()).is_none(),
        None => false,
    }
}
