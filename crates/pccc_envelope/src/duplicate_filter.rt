//! The duplicate filter, which detects a repeat of the last accepted message.
//!
//! A sender repeats a message whose acknowledgement was lost. So a message with the key of the last accepted one is a
//! repeat and is not accepted again. The filter keeps one key; a message that was refused leaves it unchanged.
ghost use Rattle.std.specs.Prelude.{◌≡◌, ◌↔◌, ◌++◌, ◌∷◌, [], List, Some, None, IsTrue};
ghost use Rattle.std.specs.List.{fold};
ghost use Rattle.pccc_envelope.specs.Accepted.{Offer, is_kept, judged, kept_after, last_key, accepted, with_offer};

use crate::Key;
use std::marker::Model;

/// The key that was kept last, if there is one.
#[derive(Clone, Copy, Debug)]
pub struct Filter {
    kept: Option<Key>,
}

impl Model for Filter {
    ghost use Rattle.std.specs.Prelude.{Option};
    ghost use Rattle.pccc_envelope.specs.declared.key.Key.{Key};

    ghost Value = { Option Key };

    ghost view = { λ f. f.kept };

    ghost inverse = { λ kept. record { kept = kept } };
}

impl Filter {
    /// Returns a filter that holds no key, so nothing is a repeat.
    pub fn new() -> Filter
        ensures { result ≡ None }
    {
        Filter { kept: None }
    }

    /// Returns whether a message with this key is a repeat: exactly if it is the key that was kept last.
    pub fn is_repeat(&self, key: Key) -> bool
        ensures test { result ≡ is_kept self.now key }
        ensures last { IsTrue result ↔ (self.now ≡ Some key) }
    {
        self.kept == Some(key)
    }

    /// Keeps the key of a message that was accepted, in place of the one before.
    pub fn keep(&mut self, key: Key)
        ensures { self.new ≡ Some key }
    {
        self.kept = Some(key);
    }
}

/// A law: a filter that keeps the key of each accepted message and no other holds the key of the last accepted one,
/// whatever was received. So what it says of the next message is what the list of all that was accepted says of it.
pub fn keeps_the_last_accepted()
    ensures key { (offers : List Offer) → fold kept_after None offers ≡ last_key (accepted offers) }
    ensures verdict { (offers : List Offer) (next : Offer) → judged (fold kept_after None offers) next ≡ judged (last_key (accepted offers)) next }
    ensures one_more { (offers : List Offer) (next : Offer) → accepted (offers ++ next ∷ []) ≡ with_offer (accepted offers) next }
{}
