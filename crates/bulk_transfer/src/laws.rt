//! Laws of rehearsed transfers. The functions do nothing.
ghost use Rattle.std.specs.Prelude.{◌≡◌, ◌*◌, ◌/◌, ◌≤◌, ◌∷◌, [], ℕ, List, length};
ghost use Rattle.script_statement.specs.declared.who.Who.TheVariants.{B};
ghost use Rattle.script_parts.specs.declared.script.Script.{Script};
ghost use Rattle.bulk_orders.specs.declared.outcome.Bulk.TheVariants.{Whole};
ghost use Rattle.bulk_orders.specs.Outcomes.{pull_result, push_result, words_pulled};
ghost use Rattle.line_world.specs.Complete.{IsUndisturbed};
ghost use Rattle.line_world.specs.Runs.{record_of};
ghost use Rattle.bulk_transfer.specs.Example.{other_words, two_words};
ghost use Rattle.bulk_transfer.specs.Moved.{HasFile, IsPulled, IsPushed, IsSound, IsWritable};
ghost use Rattle.bulk_transfer.specs.Rehearsal.{IsRehearsable, initiator_after, pull_script, push_script};

/// A law: in a rehearsed transfer of 1 to 3,000 words that reads, if no end is deceived, no reply has other data than
/// its order asks for. If such a transfer is whole, its words are those of end b's file by the script's first values,
/// from word 0 on, and the file has so many. A transfer is whole if the file has so many words and the line is
/// undisturbed or recovers (manual topic: word range read).
pub fn pulled_words_are_those_of_the_file()
    ensures moved { (script : Script) (file words : ℕ) → IsRehearsable script → 1 ≤ words → words ≤ 3000 → (record_of (pull_script script file words)).deceived ≡ 0 →
        IsPulled script file words (pull_result (initiator_after (pull_script script file words)) words) (words_pulled (initiator_after (pull_script script file words)) words) }
    ensures whole { (script : Script) (file words : ℕ) → IsRehearsable script → words ≤ 3000 → IsSound (pull_script script file words) → HasFile script file words →
        pull_result (initiator_after (pull_script script file words)) words ≡ Whole }
{}

/// A law: in a rehearsed transfer of 1 to 3,000 words that writes, if no end is deceived, no reply has data. If such a
/// transfer is whole, the data are in end b's file from word 0 on, every other word of end b is as in the script, and
/// the file has so many words and isn't of the status type. A transfer is whole if the file has so many words and isn't
/// of the status type, and the line is undisturbed or recovers (manual topic: word range write).
pub fn pushed_data_are_in_the_file()
    ensures moved { (script : Script) (file : ℕ) (bytes : List ℕ) → IsRehearsable script → length bytes ≡ 2 * (length bytes / 2) → 2 ≤ length bytes → length bytes ≤ 6000 → (record_of (push_script script file bytes)).deceived ≡ 0 →
        IsPushed script file bytes (push_result (initiator_after (push_script script file bytes)) (length bytes / 2)) (record_of (push_script script file bytes)) }
    ensures whole { (script : Script) (file : ℕ) (bytes : List ℕ) → IsRehearsable script → length bytes ≡ 2 * (length bytes / 2) → length bytes ≤ 6000 → IsSound (push_script script file bytes) → HasFile script file (length bytes / 2) → IsWritable script file →
        push_result (initiator_after (push_script script file bytes)) (length bytes / 2) ≡ Whole }
{}

/// A law: transfers of two words over a line that loses nothing meet the premises of both laws, and their conclusions
/// aren't empty. The words that are pulled are those of the file, and the words that are pushed are reported in their
/// place.
pub fn two_words_are_pulled_and_pushed()
    ensures rehearsable { IsRehearsable two_words }
    ensures file { HasFile two_words 7 2 }
    ensures writable { IsWritable two_words 7 }
    ensures pull_undisturbed { IsUndisturbed (pull_script two_words 7 2) }
    ensures pulled { words_pulled (initiator_after (pull_script two_words 7 2)) 2 ≡ 0x34 ∷ 0x12 ∷ 0x78 ∷ 0x56 ∷ [] }
    ensures push_undisturbed { IsUndisturbed (push_script two_words 7 other_words) }
    ensures pushed { (record_of (push_script two_words 7 other_words)).words ≡ record { who = B; file = 7; index = 0; value = 0x4321 } ∷ record { who = B; file = 7; index = 1; value = 0x8765 } ∷ [] }
{}
