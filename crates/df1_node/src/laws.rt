//! Laws of what a node keeps, and of what no command changes.
ghost use Rattle.std.specs.Prelude.{◌≡◌, ℕ, List, Some, true};
ghost use Rattle.data_files.specs.Tables.{word_at};
ghost use Rattle.df1_node.specs.Answer.{StationState, after_answer, is_locked};
ghost use Rattle.std.specs.List.{fold};
ghost use Rattle.df1_node.specs.Initiator.{Issued, command, is_settled};
ghost use Rattle.df1_node.specs.Node.{NodeState, Step, after};

/// A law: a command that is answered, undelivered or unanswered stays unchanged, with its body, its outcome and its
/// reply, whatever happens to the node.
pub fn outcome_is_final()
    ensures step { (node : NodeState) (step : Step) (n : ℕ) (c : Issued) → command node.initiator n ≡ Some c → is_settled c.standing ≡ true → command (after node step).initiator n ≡ Some c }
    ensures run { (node : NodeState) (steps : List Step) (n : ℕ) (c : Issued) → command node.initiator n ≡ Some c → is_settled c.standing ≡ true → command (fold after node steps).initiator n ≡ Some c }
{}

/// A law: whatever the body of a command, and whatever the station answers, each word of a locked file stays unchanged
/// (manual topic: status codes).
pub fn no_command_writes_a_locked_file()
    ensures { (station : StationState) (body : List ℕ) (file index : ℕ) → is_locked station.locked file ≡ true → word_at (after_answer station body).tables file index ≡ word_at station.tables file index }
{}
