//! Laws of the run of a script. The functions do nothing.
ghost use Rattle.std.specs.Prelude.{◌≡◌, ◌∷◌, ◌++◌, [], List, ℕ, true, false, IsTrue};
ghost use Rattle.std.specs.List.{list_any};
ghost use Rattle.script_parts.specs.declared.script.Event.{Event};
ghost use Rattle.script_parts.specs.declared.script.Script.{Script};
ghost use Rattle.script_statement.specs.declared.who.Who.TheVariants.{A, B};
ghost use Rattle.script_parts.specs.Playable.{IsPlayable};
ghost use Rattle.each_once.specs.Commands.{AreOutcomesTold};
ghost use Rattle.duplex_end.specs.Arrived.{HeardByGrammar, bytes_arrived};
ghost use Rattle.duplex_receiver.specs.Hearing.{Stands};
ghost use Rattle.duplex_line.specs.Arrivals.{arrivals_in, heard_in};
ghost use Rattle.duplex_line.specs.Issues.{commands_of_a, commands_of_b, issued_of, bodies_of};
ghost use Rattle.duplex_line.specs.Certified.{IsAnsweredAfter, IsCertified, GoesOnCalmly};
ghost use Rattle.duplex_line.specs.Run.{start, last_state, state_after, lines_after, record_of};
ghost use Rattle.duplex_line.specs.Once.{EachOnce};
ghost use Rattle.duplex_line.specs.Transmissions.{AreCounted, begun_in, ended_in};
ghost use Rattle.duplex_line.specs.Wire.{AreDf1Wires};
ghost use Rattle.duplex_line.specs.Prompt.{IsPrompt, EndsQuiet, HasRooms, is_quiet};
ghost use Rattle.duplex_line.specs.Recoverable.{IsRecoverable};
ghost use Rattle.duplex_line.specs.Complete.{IsComplete};
ghost use Rattle.duplex_line.specs.Rest.{IsCalmAfter, IsMildAfterRest, IsWellAfter, is_at_rest};
ghost use Rattle.each_once.specs.Tells.{executed_in, answers_in, outcomes_in};
ghost use Rattle.df1_node.specs.Initiator.{Undelivered};
ghost use Rattle.duplex_line.specs.Example.{hit_write, is_damage, one_write, the_command, the_reply, two_sources, second_command, second_reply, third_command, third_reply, lost_write, second_write, after_a_lost_write, lone_dle, two_echoes, last_ack, third_echo, after_noise, second_echoed, third_echoed, lost_again, second_hit_write, hit_after_a_lost_write};

/// A law: at each byte that arrives at an end in a run, a whole frame is received exactly if the grammar of the line,
/// over all bytes that arrived at that end so far, decodes one at its last. So a deception is a frame by the grammar
/// that nobody sent as such (manual topic: full-duplex protocol).
pub fn whole_frames_are_heard_by_the_grammar()
    ensures at_a { (script : Script) → IsPlayable script → HeardByGrammar script.check (arrivals_in A (start script) script.events) }
    ensures at_b { (script : Script) → IsPlayable script → HeardByGrammar script.check (arrivals_in B (start script) script.events) }
{}

/// A law: take a byte that arrives at an end in a run. What is received there (whole frames, ACK, NAK, ENQ, damage and
/// the rest) is what the grammar of the line decodes, over all bytes that arrived at that end so far. The same holds of
/// the body that is lent there. The key that is kept is that of the last message that was accepted (manual topic:
/// full-duplex protocol).
pub fn all_is_heard_by_the_grammar()
    ensures at_a { (script : Script) → IsPlayable script → Stands script.check 250 (bytes_arrived (arrivals_in A (start script) script.events)) (heard_in A (start script) script.events) (last_state script).a.end.receiver }
    ensures at_b { (script : Script) → IsPlayable script → Stands script.check 250 (bytes_arrived (arrivals_in B (start script) script.events)) (heard_in B (start script) script.events) (last_state script).b.end.receiver }
{}

/// A law: in every run, the transmissions that end in an end's lane are ones that it started. Their numbers rise
/// strictly, are above the last of its transmissions that ended at the other end, and at most the last that it started.
/// A cell that ends transmission n carries the body of that transmission.
pub fn transmissions_are_counted()
    ensures of_a { (script : Script) → IsPlayable script → AreCounted (begun_in A (start script) script.events) (ended_in A 0 (start script) script.events) (last_state script).a }
    ensures of_b { (script : Script) → IsPlayable script → AreCounted (begun_in B (start script) script.events) (ended_in B 0 (start script) script.events) (last_state script).b }
{}

/// A law: what holds of every script that can be played holds after each of its events too, since the events up to
/// there are those of a script that can be played.
pub fn a_front_of_a_script_can_be_played()
    ensures { (script : Script) (front rest : List Event) → IsPlayable script → script.events ≡ front ++ rest → IsPlayable (record script { events = front }) }
{}

/// A law: before the first event of a script nothing is under way.
pub fn the_first_state_is_quiet()
    ensures { (script : Script) → IsTrue (is_quiet (start script)) }
{}

/// A law: in every run, whatever is received, the commands that an end has issued are those of the script, and the
/// lines report for each how it ended, once, and for no other (manual topic: message packets).
pub fn outcomes_are_told()
    ensures commands_of_a { (script : Script) → IsPlayable script → bodies_of (last_state script).a ≡ commands_of_a script }
    ensures commands_of_b { (script : Script) → IsPlayable script → bodies_of (last_state script).b ≡ commands_of_b script }
    ensures outcomes_of_a { (script : Script) → IsPlayable script → AreOutcomesTold A (issued_of (last_state script).a) (lines_after (start script) script.events) }
    ensures outcomes_of_b { (script : Script) → IsPlayable script → AreOutcomesTold B (issued_of (last_state script).b) (lines_after (start script) script.events) }
{}

/// A law: in a run that deceives no end, whatever is lost, altered, foreign or late, each end's station executes
/// commands that were issued to it, each once, those of each source in their order. Its words are what these made of
/// the first values, and each reply that the other end accepts is what the station answered to that very command
/// (manual topic: full-duplex protocol).
#[tactic(auto, unfolding(crate::specs::Run::record_of))]
pub fn each_command_once()
    ensures { (script : Script) → IsPlayable script → (record_of script).deceived ≡ 0 → EachOnce script (record_of script) }
{}

/// A law: take a run that loses, alters and adds no byte, in which few ticks come while something is under way. Let its
/// ends have room for as many replies as the other may have commands outstanding, and let it end with nothing under
/// way. In it no end is deceived, and all commands of both ends are executed, each once, those of each source in their
/// order, and answered, each by its own reply (manual topic: full-duplex protocol).
#[tactic(auto, unfolding(crate::specs::Run::record_of))]
pub fn an_undisturbed_run_is_complete()
    ensures { (script : Script) → IsPlayable script → HasRooms script → IsPrompt script → EndsQuiet script → IsComplete script (record_of script) }
{}

/// A law: in every run, whatever is received, what each end sent by the report is whole frames, responses and ENQs, at
/// the end perhaps an incomplete one, and nothing else. Its frames carry, in their order, each perhaps several times in
/// a row, commands that the script issues there and replies that its station made. If no end was deceived, no two of
/// these have the same key (manual topic: full-duplex protocol).
#[tactic(auto, unfolding(crate::specs::Run::record_of))]
pub fn what_is_on_the_wire_is_df1()
    ensures { (script : Script) → IsPlayable script → AreDf1Wires script (record_of script) }
{}

/// A law: take a run that deceives no end and loses and adds no byte, and that alters only bytes of bodies, none of
/// them to a DLE and of each message in at most `max_naks` of its transmissions. Few ticks come while something is
/// under way, its ends have room for as many replies as the other may have commands outstanding, and it ends with
/// nothing under way. Then all commands of both ends are executed, each once, those of each source in their order, and
/// answered, each by its own reply (manual topic: full-duplex protocol).
#[tactic(auto, unfolding(crate::specs::Run::record_of))]
pub fn a_damaged_run_recovers()
    ensures { (script : Script) → IsPlayable script → IsRecoverable script → IsComplete script (record_of script) }
{}

/// A law: a line is at rest if nothing is under way, no sender has a message, and no decoder is inside an item. Let no
/// end be deceived up to such a state, whatever was lost, altered, foreign or late, whatever was given up, and however
/// few NAKs and ENQs an end takes. Each command that an end hands out from there on is executed and answered, each by
/// its own reply, in two cases:
///
/// - nothing disturbs the line from there on, its ends have room for as many replies as the other may have commands
///   outstanding, and the run ends with nothing under way;
/// - no end is deceived up to the end, and bytes of bodies are altered from there on, as `a_damaged_run_recovers` says.
///
/// Nothing is said of a command that still waits at the end: commands that were handed out before, and that nothing
/// answers, may be all that an end may have outstanding (manual topic: full-duplex protocol).
#[tactic(auto, unfolding(crate::specs::Run::record_of))]
pub fn after_rest_all_is_well()
    ensures undisturbed { (script : Script) (front rest : List Event) → IsPlayable script → IsCalmAfter script front rest → IsWellAfter script front (record_of script) }
    ensures damaged { (script : Script) (front rest : List Event) → IsPlayable script → IsMildAfterRest script front rest → IsWellAfter script front (record_of script) }
{}

/// A law: the premises of `after_rest_all_is_well` are met, and its conclusion isn't empty, by two writes of which the
/// first loses a byte and is given up at the NAK: the second is executed and answered.
#[tactic(auto, unfolding(crate::specs::Run::record_of))]
pub fn a_write_after_a_lost_one_is_executed_and_answered()
    ensures playable { IsPlayable after_a_lost_write }
    ensures calm { IsCalmAfter after_a_lost_write lost_write second_write }
    ensures given_up { outcomes_in A 1 (record_of after_a_lost_write).lines ≡ Undelivered ∷ [] }
    ensures executed { executed_in B (record_of after_a_lost_write).lines ≡ second_command ∷ [] }
    ensures answered { answers_in A (record_of after_a_lost_write).lines ≡ (2, second_reply) ∷ [] }
{}

/// A law: they are also met if a byte of the second write is altered, so that it is refused by a NAK and sent again,
/// after the first one lost a byte twice.
#[tactic(auto, unfolding(crate::specs::Run::record_of))]
pub fn a_hit_write_after_a_lost_one_is_executed_and_answered()
    ensures playable { IsPlayable hit_after_a_lost_write }
    ensures mild { IsMildAfterRest hit_after_a_lost_write (lost_write ++ lost_again) second_hit_write }
    ensures given_up { outcomes_in A 1 (record_of hit_after_a_lost_write).lines ≡ Undelivered ∷ [] }
    ensures executed { executed_in B (record_of hit_after_a_lost_write).lines ≡ second_command ∷ [] }
    ensures answered { answers_in A (record_of hit_after_a_lost_write).lines ≡ (2, second_reply) ∷ [] }
{}

/// A law: before the first event of a script the line is at rest.
pub fn the_first_state_is_at_rest()
    ensures { (script : Script) → is_at_rest (start script) ≡ true }
{}

/// A law: the premises of `a_damaged_run_recovers` are met, and its conclusion isn't empty, by a write with an altered
/// byte in the body: it is refused by a NAK, sent again, executed and answered.
#[tactic(auto, unfolding(crate::specs::Run::record_of))]
pub fn a_hit_write_is_executed_and_answered()
    ensures playable { IsPlayable hit_write }
    ensures recoverable { IsRecoverable hit_write }
    ensures damaged { list_any is_damage (record_of hit_write).lines ≡ true }
    ensures executed { executed_in B (record_of hit_write).lines ≡ the_command ∷ [] }
    ensures answered { answers_in A (record_of hit_write).lines ≡ (1, the_reply) ∷ [] }
{}

/// A law: the premises of `each_command_once` and of `an_undisturbed_run_is_complete` are met, and their conclusions
/// aren't empty, by a write over a line that loses nothing: it is executed and answered.
#[tactic(auto, unfolding(crate::specs::Run::record_of))]
pub fn one_write_is_executed_and_answered()
    ensures playable { IsPlayable one_write }
    ensures rooms { HasRooms one_write }
    ensures prompt { IsPrompt one_write }
    ensures quiet { EndsQuiet one_write }
    ensures honest { (record_of one_write).deceived ≡ 0 }
    ensures executed { executed_in B (record_of one_write).lines ≡ the_command ∷ [] }
    ensures answered { answers_in A (record_of one_write).lines ≡ (1, the_reply) ∷ [] }
{}

/// A law: they are also met if two commands may be outstanding, one of each source: a command of another source is
/// executed and answered before the second of the first one.
#[tactic(auto, unfolding(crate::specs::Run::record_of))]
pub fn commands_of_two_sources_are_executed_and_answered()
    ensures playable { IsPlayable two_sources }
    ensures rooms { HasRooms two_sources }
    ensures prompt { IsPrompt two_sources }
    ensures quiet { EndsQuiet two_sources }
    ensures honest { (record_of two_sources).deceived ≡ 0 }
    ensures executed { executed_in B (record_of two_sources).lines ≡ the_command ∷ third_command ∷ second_command ∷ [] }
    ensures answered { answers_in A (record_of two_sources).lines ≡ (1, the_reply) ∷ (3, third_reply) ∷ (2, second_reply) ∷ [] }
{}

/// A law: let a run have deceived no end so far, and lose, alter and add no byte from a state on at which nothing was
/// under way, whatever came before and however many ticks come. Once a command of either end that was not handed out
/// before that state is answered, the line is at rest whenever nothing is under way and no sender has a message: no
/// decoder is inside an item any more (manual topic: full-duplex protocol).
pub fn an_answer_certifies_the_line()
    ensures of_a { (script : Script) (front middle more rest : List Event) (n : ℕ) → IsPlayable script → IsAnsweredAfter A script front middle more rest n → IsCertified (state_after (start script) (front ++ (middle ++ more))) }
    ensures of_b { (script : Script) (front middle more rest : List Event) (n : ℕ) → IsPlayable script → IsAnsweredAfter B script front middle more rest n → IsCertified (state_after (start script) (front ++ (middle ++ more))) }
{}

/// A law: take a run from such a state on that nothing disturbs, whose ends have room for as many replies as the other
/// may have commands outstanding, and that ends with nothing under way. Each command that an end hands out in it is
/// executed and answered, each by its own reply (manual topic: full-duplex protocol).
#[tactic(auto, unfolding(crate::specs::Run::record_of))]
pub fn after_an_answer_all_is_well()
    ensures of_a { (script : Script) (front middle more rest : List Event) (n : ℕ) → IsPlayable script → IsAnsweredAfter A script front middle more rest n → GoesOnCalmly script (front ++ (middle ++ more)) rest → IsWellAfter script (front ++ (middle ++ more)) (record_of script) }
    ensures of_b { (script : Script) (front middle more rest : List Event) (n : ℕ) → IsPlayable script → IsAnsweredAfter B script front middle more rest n → GoesOnCalmly script (front ++ (middle ++ more)) rest → IsWellAfter script (front ++ (middle ++ more)) (record_of script) }
{}

/// A law: the premises of `an_answer_certifies_the_line` and of `after_an_answer_all_is_well` are met, and their
/// conclusions aren't empty, if a lone DLE arrived at an end. The line is quiet then and not at rest; a first echo is
/// lost, a second one is answered, then the line is at rest, and a third one is answered.
#[tactic(auto, unfolding(crate::specs::Run::record_of))]
pub fn an_echo_certifies_a_line_after_noise()
    ensures playable { IsPlayable after_noise }
    ensures answered { IsAnsweredAfter A after_noise lone_dle two_echoes last_ack third_echo 2 }
    ensures disturbed { is_at_rest (state_after (start after_noise) lone_dle) ≡ false }
    ensures lost { outcomes_in A 1 (record_of after_noise).lines ≡ Undelivered ∷ [] }
    ensures rests { is_at_rest (state_after (start after_noise) (lone_dle ++ (two_echoes ++ last_ack))) ≡ true }
    ensures goes_on { GoesOnCalmly after_noise (lone_dle ++ (two_echoes ++ last_ack)) third_echo }
    ensures answers { answers_in A (record_of after_noise).lines ≡ (2, second_echoed) ∷ (3, third_echoed) ∷ [] }
{}
