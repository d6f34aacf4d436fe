//! What holds of every list of decoded items. The functions do nothing.

ghost use Rattle.std.specs.Prelude.{◌≡◌, ◌∷◌, ◌++◌, [], ℕ, List, map, if◌then◌else◌};
ghost use Rattle.df1_base.specs.declared.link.Act.{Act};
ghost use Rattle.df1_frame.specs.Line.{ReadOff, answers};
ghost use Rattle.df1_frame.specs.Grammar.{full_duplex};
ghost use Rattle.duplex_receiver.specs.Receiver.{Hearing, response_after, last_response};
ghost use Rattle.duplex_receiver.specs.Hearing.{Hears, act_after, accepted_of, is_accept, KeysChange};

use df1_check::Check;

/// The items decoded at the bytes of a line are the answers of the grammar at the one split of all these bytes.
pub fn hears_what_the_grammar_answers(check: Check)
    ensures { (N : ℕ) (bytes : List ℕ) (hearings : List Hearing) → Hears check N bytes hearings
        → ReadOff (full_duplex check N) bytes (answers (full_duplex check N)) (map (λ h. h.heard) hearings) }
{}

/// What was accepted grows by a body at each Accept, and at no other act.
pub fn accepts_one_by_one()
    ensures { (before : List Hearing) (h : Hearing) → accepted_of (before ++ h ∷ []) ≡ (if is_accept (act_after before h) then accepted_of before ++ h.body ∷ [] else accepted_of before) }
{}

/// Each accepted body stands once in a run of equal keys: no accepted body has the key of the one before it.
pub fn accepted_keys_change()
    ensures { (hearings : List Hearing) → KeysChange (accepted_of hearings) }
{}

/// The last response changes with each act as that act's row says.
pub fn last_response_goes_on()
    ensures { (acts : List Act) (more : Act) → last_response (acts ++ more ∷ []) ≡ response_after (last_response acts) more }
{}
