//! The contents of a row of the table of keys.
ghost use Rattle.std.specs.Prelude.{◌≡◌};
ghost use Rattle.end_settings.specs.Rows.{first_in, fitting as the_fitting, is_of as the_test};

/// A kind of end.
#[derive(Clone, Copy, Debug, PartialEq, Eq)]
pub enum Role {
    /// An end of a full-duplex link.
    Duplex,
    /// The master of a half-duplex line.
    Master,
    /// A station of a half-duplex line.
    Station,
    /// A station of a half-duplex line whose master carries messages between the stations: it issues commands too.
    RoutedStation,
}

/// The kinds of end that have a key.
#[derive(Clone, Copy, Debug, PartialEq, Eq)]
pub struct Roles {
    pub duplex: bool,
    pub master: bool,
    pub station: bool,
    pub routed_station: bool,
}

impl Roles {
    /// Returns whether an end of this kind is among them.
    pub fn has(self, role: Role) -> bool
        ensures { result ≡ the_test role self }
    {
        match role {
            Role::Duplex => self.duplex,
            Role::Master => self.master,
            Role::Station => self.station,
            Role::RoutedStation => self.routed_station,
        }
    }
}

/// The values that a key may have, all of them numbers.
#[derive(Clone, Copy, Debug, PartialEq, Eq)]
pub enum Values {
    /// `off` and `on`, which are 0 and 1.
    Switch,
    /// The numbers from the least to the most.
    Number { least: u32, most: u32 },
}

impl Values {
    /// Returns the number if it is one of these values.
    pub fn fitting(self, number: Option<u32>) -> Option<u32>
        ensures { result ≡ the_fitting self number }
    {
        let (least, most) = match self {
            Values::Switch => (0, 1),
            Values::Number { least, most } => (least, most),
        };
        match number {
            Some(n) if least <= n && n <= most => Some(n),
            _ => None,
        }
    }
}

/// The default of a key, its value if nothing sets it.
#[derive(Clone, Copy, Debug, PartialEq, Eq)]
pub enum First {
    /// The address that the end has at first.
    Address,
    /// This number.
    Value(u32),
}

impl First {
    /// Returns the value, for an end that has this address at first.
    pub fn value(self, address: u8) -> u32
        ensures { result ≡ first_in address self }
    {
        match self {
            First::Address => u32::from(address),
            First::Value(value) => value,
        }
    }
}
