//! What holds of all statements that are read. The functions do nothing.
ghost use Rattle.std.specs.Prelude.{Bool, List, [], IfOk, false, true};
ghost use Rattle.std.specs.List.{All};
ghost use Rattle.script_statement.specs.declared.statement.Statement.{Statement};
ghost use Rattle.script_parts.specs.HalfPlayable.{IsHalfPlayable};
ghost use Rattle.script_parts.specs.RoutePlayable.{IsRoutePlayable};
ghost use Rattle.half_script.specs.Drafts.{fresh_reader, script_with};
ghost use Rattle.half_script.specs.Read.{IsLeft, IsSaid, after_statements};

/// After any statements of accepted lines, the script that they make can be played.
pub fn what_is_read_can_be_played()
    ensures { (statements : List Statement) → All (IsSaid false) statements
        → IfOk (after_statements (fresh_reader false) [] statements) (λ read. IsHalfPlayable (script_with read.0 read.1)) }
{}

/// The same, if the master carries messages between the stations.
pub fn what_is_routed_can_be_played()
    ensures { (statements : List Statement) → All (IsSaid true) statements
        → IfOk (after_statements (fresh_reader true) [] statements) (λ read. IsRoutePlayable (script_with read.0 read.1)) }
{}

/// After any statements of accepted lines, the master and each station may still issue 65,535 commands less those that
/// they issued, and the events left are 4,000,000 less the sum of their events.
pub fn what_is_left_is_what_the_statements_leave()
    ensures { (routes : Bool) (statements : List Statement) → All (IsSaid routes) statements
        → IfOk (after_statements (fresh_reader routes) [] statements) (λ read. IsLeft read.0 read.1) }
{}
