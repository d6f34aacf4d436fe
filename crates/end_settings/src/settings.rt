//! The settings of an end that were given.
ghost use Rattle.std.specs.Prelude.{◌≡◌};
ghost use Rattle.end_settings.specs.Rows.{Fits, IfFits};
ghost use Rattle.end_settings.specs.Table.{row_of};
ghost use Rattle.end_settings.specs.Given.{chosen as the_chosen, no_settings, value_of, with_setting};

use crate::key::{COUNT, EndKey};
use std::marker::Model;

/// A key, with the value that it is to have: None if what was given is none of its values.
#[derive(Clone, Copy, Debug, PartialEq, Eq)]
pub struct Setting {
    pub key: EndKey,
    pub value: Option<u32>,
}

/// The settings of an end: for each key a value that it may have, or None if none was given. Contracts see the values
/// in the order of the keys.
#[derive(Drop)]
pub struct Settings {
    values: [Option<u32>; COUNT],
}

impl Model for Settings {
    ghost use Rattle.std.specs.Prelude.{ℕ, List, Option};
    ghost use Rattle.end_settings.specs.Given.{AreFitting};

    ghost Value = { List (Option ℕ) };

    ghost view = { λ s. s.values };

    ghost invariant = { λ s. AreFitting s.values };
}

impl Settings {
    /// Creates settings with no values.
    pub fn new() -> Self
        ensures { result ≡ no_settings }
    {
        Settings {
            values: [None; COUNT],
        }
    }

    /// Returns the value that was given to a key.
    pub fn value(&self, key: EndKey) -> Option<u32>
        ensures value { result ≡ value_of self.now key }
        ensures fits { IfFits (row_of key).values result }
    {
        self.values[key as usize]
    }

    /// Stores a setting. A number that is none of the key's values counts as None.
    pub fn set(&mut self, setting: Setting)
        ensures { self.new ≡ with_setting self.old setting }
    {
        self.values[setting.key as usize] = setting.key.values().fitting(setting.value);
    }

    /// Returns the value of a key: the one that was given, otherwise its default, for an end that has this address at
    /// first.
    pub fn chosen(&self, key: EndKey, address: u8) -> u32
        ensures value { result ≡ the_chosen self.now address key }
        ensures fits { Fits (row_of key).values result }
    {
        match self.value(key) {
            Some(value) => value,
            None => key.first().value(address),
        }
    }
}
