//! The status and the note of a command's fault. The note is written once; if that fails, the status is unchanged.
ghost use Rattle.std.specs.Prelude.{◌≡◌};
ghost use Rattle.df1_tool.specs.Notes.{IsNoted};

use crate::note::Note;
use df1_base::{Sink, write_all};

/// The reason why a command failed, or that the words are none of the forms.
pub(crate) trait Refusal {
    ghost use Rattle.std.specs.Prelude.{◌≡◌, ℕ, List};

    /// The exit status.
    ghost status_of: { Self → ℕ };

    /// The note, which ends with a line feed.
    ghost note_of: { Self → List ℕ };

    fn status(&self) -> u8
        ensures { result ≡ status_of self.now };

    fn note(&self) -> Note
        ensures { result.items ≡ note_of self.now };
}

/// Writes the note, and returns the status.
pub(crate) fn refuse<R: Refusal, N: Sink>(why: &R, note: &mut N) -> u8
    ensures status { result ≡ R.status_of why.now }
    ensures note { IsNoted (N.held note.old) (N.held note.new) (N.faults note.old) (N.faults note.new) (R.note_of why.now) }
{
    let _ = write_all(note, &why.note());
    why.status()
}
