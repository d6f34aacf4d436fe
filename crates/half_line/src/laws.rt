//! Laws of the run of a half-duplex script. The functions do nothing.
ghost use Rattle.std.specs.Prelude.{◌≡◌, ℕ, true, false, List, [], ◌∷◌, ◌++◌, IsTrue, slice_get, Some};
ghost use Rattle.script_parts.specs.declared.script.Event.{Event};
ghost use Rattle.script_parts.specs.declared.script.Script.{Script};
ghost use Rattle.script_parts.specs.HalfPlayable.{IsHalfPlayable};
ghost use Rattle.script_statement.specs.declared.who.Who.TheVariants.{M, S};
ghost use Rattle.df1_node.specs.Initiator.{Undelivered};
ghost use Rattle.each_once.specs.Tells.{answers_in, executed_in, outcomes_in};
ghost use Rattle.half_slave.specs.Arrived.{HeardByGrammar as HeardAtStation, Hears as StationHears, bytes_arrived as bytes_at_station};
ghost use Rattle.half_slave.specs.Slave.{heard_at as heard_at_station};
ghost use Rattle.half_master.specs.Arrived.{HeardByGrammar as HeardAtMaster, Hears as MasterHears, bytes_arrived as bytes_at_master};
ghost use Rattle.half_master.specs.Master.{heard_at as heard_at_master};
ghost use Rattle.df1_node.specs.Node.{NodeState};
ghost use Rattle.lane_cells.specs.Cells.{LaneCell};
ghost use Rattle.report_lines.specs.NodeLines.{step_lines};
ghost use Rattle.half_line.specs.declared.way.Way.{Way};
ghost use Rattle.half_line.specs.Behind.{plain_node};
ghost use Rattle.half_line.specs.Certified.{AreCertified, GoesOnCalmly, IsAnsweredAfter, IsAnsweredAlone, IsCertified, IsMasterInStep};
ghost use Rattle.half_line.specs.Acts.{LineStationState, LinkState, body_heard, cell_lines, hearer, step_of};
ghost use Rattle.half_line.specs.Arrivals.{master_arrivals_in, station_arrivals_in};
ghost use Rattle.half_line.specs.Issues.{bodies_of, commands_of_m};
ghost use Rattle.half_line.specs.Example.{lost_write, lost_reply, second_write, after_a_lost_write, after_a_lost_reply, the_command, second_command, second_reply, third_reply, stray_dle, two_writes, third_write, after_a_stray_dle, writes_beside_another, poll_of_another, echo_of_another, noise_beside_another, echo_reply, cut_off_poll, mixed_replies, missed_ack, left_inside};
ghost use Rattle.half_line.specs.Prompt.{IsPromptAfter, is_quiet};
ghost use Rattle.half_line.specs.Rest.{IsCalmAfter, IsWellAfter, is_at_rest, is_between_answers};
ghost use Rattle.half_line.specs.Run.{last_state, record_of, start, state_after};

/// A law: take a byte that arrives at a station in a run. What is reported as a whole message there, and the station
/// that it names, is what the grammar of the master's bytes decodes at the last of all bytes that arrived at that
/// station so far. The same holds at the master for all bytes that arrived from all stations, in the order in which
/// they did. So a deception is a message by the grammar that nobody sent as such (manual topic: half-duplex protocol).
pub fn whole_messages_are_heard_by_the_grammar()
    ensures at_stations { (script : Script) (place : ℕ) → HeardAtStation script.check (station_arrivals_in place (start script) script.events) }
    ensures at_master { (script : Script) → HeardAtMaster script.check (master_arrivals_in (start script) script.events) }
{}

/// A law: what is received at a byte that comes after the events of a script (a message, a poll, ACK, NAK, EOT, damage
/// or nothing) is what the grammar decodes at the last of all bytes that arrived at that end. So it is at each byte of
/// a run, since a script may end before any of them (manual topic: half-duplex protocol).
pub fn all_is_heard_by_the_grammar()
    ensures at_stations { (script : Script) (place : ℕ) (side : LineStationState) (b : ℕ) → slice_get (last_state script).stations place ≡ Some side
        → StationHears script.check (bytes_at_station (station_arrivals_in place (start script) script.events) ++ b ∷ []) (heard_at_station side.slave b) }
    ensures at_master { (script : Script) (b : ℕ) → MasterHears script.check (bytes_at_master (master_arrivals_in (start script) script.events) ++ b ∷ []) (heard_at_master (last_state script).master b) }
{}

/// A law: in every run, whatever is received, the commands that the master has issued are those of the script (manual
/// topic: message packets).
pub fn commands_are_issued()
    ensures { (script : Script) → bodies_of (last_state script).master ≡ commands_of_m script }
{}

/// A law: before the first event of a script nothing is under way.
pub fn the_first_state_is_quiet()
    ensures { (script : Script) → IsTrue (is_quiet (start script)) }
{}

/// A law: with a node alone as the master's host, as in a replay, no message is carried to a station. What is reported
/// at a byte that arrives, at the master or at a station, is what is reported of any end (manual topic: half-duplex
/// protocol).
pub fn a_node_alone_carries_nothing()
    ensures { (way : Way) (s : LinkState NodeState) (cell : LaneCell) → cell_lines plain_node way s cell ≡ step_lines (hearer way s.side) (step_of plain_node way s cell) (body_heard plain_node way s cell) }
{}

/// A law: before the first event of a script the line is at rest.
pub fn the_first_state_is_at_rest()
    ensures { (script : Script) → is_at_rest (start script) ≡ true }
{}

/// A law: a line is at rest if nothing is under way, the master waits for nothing, no reply is left at a station, and no
/// ear is inside an item. Let no end be deceived up to such a state, whatever was lost, altered, foreign or late, and
/// whatever was given up. Let nothing disturb the line from there on, as `an_undisturbed_polled_run_is_complete` says.
/// Then no end is deceived, and each command that the master hands out from there on is answered, by what its station
/// answered to that very command.
///
/// Nothing is said of a command that still waits at the end: commands that were handed out before, and that nothing
/// answers, may be all that the master may have outstanding (manual topic: half-duplex protocol).
#[tactic(auto, unfolding(crate::specs::Run::record_of))]
pub fn after_rest_all_is_well()
    ensures { (script : Script) (front rest : List Event) → IsHalfPlayable script → IsCalmAfter script front rest → IsWellAfter script front (record_of script) }
{}

/// A law: an answer certifies the stations of a polled line. From some state on let no byte on its way to a station be
/// lost, altered or foreign, and let a command that the master hadn't handed out there be reported as answered. Then
/// from that answer on, as long as this is so, no station's decoder is inside an item where nothing is under way. Nothing
/// is asked of what was before that state, except of bytes still on their way to a station; nor of the ticks, nor of the
/// bytes that go to the master (manual topic: half-duplex protocol).
pub fn an_answer_certifies_the_stations()
    ensures { (script : Script) (front middle more rest : List Event) (n : ℕ) → IsHalfPlayable script → IsAnsweredAfter script front middle more rest n
        → AreCertified (state_after plain_node (start script) (front ++ (middle ++ more))) }
{}

/// A law: on a line with one station an answer certifies the master's own decoder too. From a quiet state on let no byte
/// be lost, altered or foreign, and let a command be answered that the master hadn't handed out there. Let no end have
/// been deceived so far, also before that state. Then from that answer on, as long as this is so, the line is at rest
/// wherever nothing is under way, the master waits for nothing and no reply is left at the station.
pub fn an_answer_certifies_a_line_with_one_station()
    ensures { (script : Script) (front middle more rest : List Event) (n : ℕ) → IsHalfPlayable script → IsAnsweredAlone script front middle more rest n
        → IsCertified (state_after plain_node (start script) (front ++ (middle ++ more))) }
{}

/// A law: take a state at which such an answer has come, nothing is under way, the master is idle, no reply is left at a
/// station and no end was deceived so far. If nothing disturbs the line from there on, each command that the master
/// hands out from there on is executed and answered, as by `after_rest_all_is_well`. With more than one station the
/// master's own decoder must not be inside an item at that state.
pub fn after_an_answer_all_is_well()
    ensures with_others { (script : Script) (front middle more rest : List Event) (n : ℕ) → IsHalfPlayable script → IsAnsweredAfter script front middle more rest n
        → IsMasterInStep script (front ++ (middle ++ more)) → GoesOnCalmly script (front ++ (middle ++ more)) rest → IsWellAfter script (front ++ (middle ++ more)) (record_of script) }
    ensures alone { (script : Script) (front middle more rest : List Event) (n : ℕ) → IsHalfPlayable script → IsAnsweredAlone script front middle more rest n
        → GoesOnCalmly script (front ++ (middle ++ more)) rest → IsWellAfter script (front ++ (middle ++ more)) (record_of script) }
{}

/// A law: the premises of the three laws above are met, and their conclusions aren't empty, if a lone DLE arrived at a
/// station. The line isn't at rest then; a first write is lost, a second one is executed and answered, and so is a third
/// one.
#[tactic(auto, unfolding(crate::specs::Run::record_of))]
pub fn a_write_certifies_a_polled_line_after_noise()
    ensures playable { IsHalfPlayable after_a_stray_dle }
    ensures answered { IsAnsweredAfter after_a_stray_dle stray_dle two_writes [] third_write 2 }
    ensures alone { IsAnsweredAlone after_a_stray_dle stray_dle two_writes [] third_write 2 }
    ensures disturbed { is_at_rest (state_after plain_node (start after_a_stray_dle) stray_dle) ≡ false }
    ensures lost { outcomes_in M 1 (record_of after_a_stray_dle).lines ≡ Undelivered ∷ [] }
    ensures in_step { IsMasterInStep after_a_stray_dle (stray_dle ++ (two_writes ++ [])) }
    ensures goes_on { GoesOnCalmly after_a_stray_dle (stray_dle ++ (two_writes ++ [])) third_write }
    ensures answers { answers_in M (record_of after_a_stray_dle).lines ≡ (2, second_reply) ∷ (3, third_reply) ∷ [] }
{}

/// A law: with a second station the premises of `after_an_answer_all_is_well` are met too, that on the master's decoder
/// among them. They are by the same noise and writes, a poll of the other station between the answer and the state, and
/// an echo of that station from there on, which is answered.
#[tactic(auto, unfolding(crate::specs::Run::record_of))]
pub fn a_write_certifies_two_stations_after_noise()
    ensures playable { IsHalfPlayable noise_beside_another }
    ensures answered { IsAnsweredAfter noise_beside_another stray_dle writes_beside_another poll_of_another echo_of_another 2 }
    ensures disturbed { is_at_rest (state_after plain_node (start noise_beside_another) stray_dle) ≡ false }
    ensures in_step { IsMasterInStep noise_beside_another (stray_dle ++ (writes_beside_another ++ poll_of_another)) }
    ensures goes_on { GoesOnCalmly noise_beside_another (stray_dle ++ (writes_beside_another ++ poll_of_another)) echo_of_another }
    ensures answers { answers_in M (record_of noise_beside_another).lines ≡ (2, second_reply) ∷ (3, echo_reply) ∷ [] }
{}

/// A law: that the master's own decoder isn't inside an item can't be left out of these premises, nor does it follow
/// from the answer. A line is quiet, and nothing disturbs it from there on. A station whose poll lacks its last byte, a
/// DLE, takes the first byte of a message to another station for it, and sends unasked. The other's reply is accepted
/// all the same. Then nothing is under way, the master is idle and no reply is left, but the last byte that arrived at
/// the master was a DLE. The ACK to its next command isn't received, and the command is reported as undelivered.
#[tactic(auto, unfolding(crate::specs::Run::record_of))]
pub fn an_answer_may_leave_the_master_inside()
    ensures playable { IsHalfPlayable left_inside }
    ensures quiet { IsTrue (is_quiet (state_after plain_node (start left_inside) cut_off_poll)) }
    ensures undisturbed { IsPromptAfter 0 (state_after plain_node (start left_inside) cut_off_poll) ((mixed_replies ++ []) ++ missed_ack) }
    ensures undeceived { (last_state left_inside).deceived ≡ 0 }
    ensures answered { IsAnsweredAfter left_inside cut_off_poll mixed_replies [] missed_ack 2 }
    ensures inside { is_between_answers (state_after plain_node (start left_inside) (cut_off_poll ++ (mixed_replies ++ []))).master.ear.standing ≡ false }
    ensures goes_on { GoesOnCalmly left_inside (cut_off_poll ++ (mixed_replies ++ [])) missed_ack }
    ensures missed { outcomes_in M 3 (record_of left_inside).lines ≡ Undelivered ∷ [] }
{}

/// A law: the premises of `after_rest_all_is_well` are met, and its conclusion isn't empty, by two writes of which the
/// first loses a byte and is given up at a tick: the second is executed and answered.
#[tactic(auto, unfolding(crate::specs::Run::record_of))]
pub fn a_write_after_a_lost_one_is_executed_and_answered()
    ensures playable { IsHalfPlayable after_a_lost_write }
    ensures calm { IsCalmAfter after_a_lost_write lost_write second_write }
    ensures given_up { outcomes_in M 1 (record_of after_a_lost_write).lines ≡ Undelivered ∷ [] }
    ensures executed { executed_in (S 3) (record_of after_a_lost_write).lines ≡ second_command ∷ [] }
    ensures answered { answers_in M (record_of after_a_lost_write).lines ≡ (2, second_reply) ∷ [] }
{}

/// A law: they are also met if the reply to a first write is lost and nothing answers that write any more, so that it
/// counts as outstanding to the end: a second write is executed and answered beside it.
#[tactic(auto, unfolding(crate::specs::Run::record_of))]
pub fn a_write_after_a_lost_reply_is_executed_and_answered()
    ensures playable { IsHalfPlayable after_a_lost_reply }
    ensures calm { IsCalmAfter after_a_lost_reply lost_reply second_write }
    ensures outstanding { outcomes_in M 1 (record_of after_a_lost_reply).lines ≡ [] }
    ensures executed { executed_in (S 3) (record_of after_a_lost_reply).lines ≡ the_command ∷ second_command ∷ [] }
    ensures answered { answers_in M (record_of after_a_lost_reply).lines ≡ (2, second_reply) ∷ [] }
{}
