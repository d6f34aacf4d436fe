//! The sets of a read-modify-write.
ghost use Rattle.std.specs.Prelude.{◌≡◌, ◌<◌, ◌++◌, ◌∷◌, [], length};

use crate::Set;
use arrayvec::ArrayVec;
use std::marker::Model;

/// Up to 34 sets in order, as many as fit in a message.
#[derive(Debug, Drop)]
pub struct Sets {
    items: ArrayVec<Set, 34>,
}

impl Model for Sets {
    ghost use Rattle.std.specs.Prelude.{List};
    ghost use Rattle.plc_commands.specs.declared.order.Set.{Set};

    ghost Value = { List Set };

    ghost use Rattle.plc_commands.specs.contracts.order.Set as set;
    ghost use Rattle.std.specs.Coded.{coded_list};

    ghost coded = { coded_list set.the_row.coded };

    ghost view = { λ s. s.items.items };
}

impl Sets {
    /// Creates an empty list of sets.
    pub(crate) fn new() -> Sets
        ensures { result ≡ [] }
    {
        Sets {
            items: ArrayVec::new(),
        }
    }

    /// Returns the sets in order.
    pub fn as_slice(&self) -> &[Set]
        ensures { result.now ≡ self.now }
    {
        self.items.as_slice()
    }

    /// Adds a set at the end.
    pub(crate) fn push(&mut self, set: Set)
        requires { length self.old < 34 }
        ensures { self.new ≡ self.old ++ set ∷ [] }
    {
        self.items.push(set);
    }
}
