//! Laws of one direction of a link, and of commands by source. The functions do nothing.
ghost use Rattle.std.specs.Prelude.{◌≡◌, ℕ, List, All, slice_index};
ghost use Rattle.each_once.specs.BySource.{AreOnceOf, AreAllOf};
ghost use Rattle.each_once.specs.Direction.{Happening, direction_after, AreSomeOf};

/// A law: whatever happens to the bytes and whatever responses the sender receives, the accepted messages are some of
/// those that were taken up, in their order, each one at most once (manual topic: message packets).
pub fn accepted_messages_were_taken_up()
    ensures { (happenings : List Happening) → AreSomeOf (direction_after happenings).accepted (direction_after happenings).taken_up }
{}

/// A law: if all commands are of one source, some of those of each source in order are some of all, in order: no
/// command overtakes another.
pub fn commands_of_one_source_stay_in_order()
    ensures { (some all : List (List ℕ)) (source : ℕ) → All (λ body. slice_index body 1 ≡ source) all → AreOnceOf some all
        → AreSomeOf some all }
{}

/// A law: if all commands are of one source, a list with all of them, those of each source in order, is that list.
pub fn all_commands_of_one_source_are_the_list()
    ensures { (some all : List (List ℕ)) (source : ℕ) → All (λ body. slice_index body 1 ≡ source) all → AreAllOf some all
        → some ≡ all }
{}
