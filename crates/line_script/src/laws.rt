//! What holds of every text. The functions do nothing.
ghost use Rattle.std.specs.Prelude.{◌≡◌, ◌≢◌, ◌<◌, ◌++◌, ℕ, List, [], Err, IfOk, length};
ghost use Rattle.line_script.specs.declared.fault.Cause.{Cause as Fault};
ghost use Rattle.line_script.specs.declared.profile.Profile.{Profile as Purpose};
ghost use Rattle.line_script.specs.Readers.{fresh};
ghost use Rattle.line_script.specs.Left.{IsLeft, after_lines};
ghost use Rattle.line_script.specs.Lines.{TextLine};
ghost use Rattle.line_script.specs.ScriptText.{script_for};
ghost use Rattle.line_script.specs.Unfinished.{IsSettled};

/// A text of more than 16,777,216 bytes is not a script, whatever it is read for. Its first 16,777,217 bytes determine
/// its first faulty line and the cause, whatever follows them.
pub fn refused_over_the_limit()
    ensures { (profile : Purpose) (text more : List ℕ) → 16777216 < length text
        → (number : ℕ) × (fault : Fault) × (script_for profile text ≡ Err (number, fault)) × (script_for profile (text ++ more) ≡ Err (number, fault)) }
{}

/// A refused line stays refused whatever follows it. If a line feed ends all lines of a text, or its last line is over
/// 1,024 bytes, every longer text has the same first faulty line and cause, unless only `end` was missing.
pub fn a_refused_line_stays_refused()
    ensures { (profile : Purpose) (text more : List ℕ) (number : ℕ) (fault : Fault) → IsSettled text
        → script_for profile text ≡ Err (number, fault) → fault ≢ Fault.NoEnd → script_for profile (text ++ more) ≡ Err (number, fault) }
{}

/// After any accepted lines, each end may still issue 65,535 commands less those that the lines issued, and the events
/// left are 4,000,000 less the sum of the lines' events.
pub fn what_is_left_is_what_the_lines_leave()
    ensures { (lines : List TextLine) → IfOk (after_lines fresh [] lines) (λ read. IsLeft read.0 read.1) }
{}
