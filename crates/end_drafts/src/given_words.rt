//! First values of words, in the order in which they were set, and which places they have.
ghost use Rattle.std.specs.Prelude.{◌≡◌, [], ◌∷◌, ◌++◌, IfOk, OnOk, OnErr};
ghost use Rattle.std.specs.List.{list_any};
ghost use Rattle.end_drafts.specs.Places.{is_at};

use crate::given_places::GivenPlaces;
use df1_base::NoMemory;
use script_parts::{WordOf, Words};
use script_statement::Items;
use std::alloc::Global;
use std::marker::Model;

/// Words of one end, which contracts see as a list; a look-up of a place doesn't scan the list.
#[derive(Drop)]
pub struct GivenWords {
    words: Vec<WordOf>,
    places: GivenPlaces,
}

impl Model for GivenWords {
    ghost use Rattle.std.specs.Prelude.{List};
    ghost use Rattle.script_parts.specs.declared.script.WordOf.{WordOf as OneWord};

    ghost Value = { List OneWord };

    ghost use Rattle.end_drafts.specs.Places.{ArePlaces};

    ghost view = { λ g. g.words.items };

    ghost invariant = { λ g. ArePlaces g.places g.words.items };
}

impl GivenWords {
    /// Returns no words.
    pub fn new(alloc: Global) -> Self
        ensures { result ≡ [] }
    {
        GivenWords {
            words: Vec::new(alloc),
            places: GivenPlaces::new(alloc),
        }
    }

    /// Returns whether a value was set for this word of this file.
    pub fn has(&self, file: u16, index: u32) -> bool
        ensures { result ≡ list_any (is_at file index) self.now }
    {
        self.places.has(file, index)
    }

    /// Appends a word. Without memory for it, the words are unchanged.
    pub fn push(&mut self, word: WordOf) -> Result<(), NoMemory>
        ensures ok { OnOk result (self.new ≡ self.old ++ word ∷ []) }
        ensures err { OnErr result (self.new ≡ self.old) }
    {
        self.words.push(word)?;
        match self.places.give(word.file, word.index) {
            Ok(()) => Ok(()),
            Err(fault) => {
                self.words.pop();
                Err(fault)
            }
        }
    }

    /// Returns a copy of the words, as a list.
    pub fn copied(&self, alloc: Global) -> Result<Words, NoMemory>
        ensures { IfOk result (λ words. words ≡ self.now) }
    {
        Items::copy_of(alloc, &self.words)
    }
}
