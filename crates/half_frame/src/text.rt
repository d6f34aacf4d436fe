//! A message's text while it arrives, the same in both directions: from DLE STX to its check.

ghost use Rattle.std.specs.Prelude.{◌≡◌, [], ◌∷◌};
ghost use Rattle.df1_check.specs.declared.Check.{Check as CheckKind};
ghost use Rattle.df1_frame.specs.Gathered.{verdict};
ghost use Rattle.half_frame.specs.TextStep.{Inside, InsideDle, AtCheck, is_good as is_good_frame, text_step};
ghost use Rattle.half_frame.specs.TextView.{onward_of, within_of};

use df1_base::{DLE, ETX};
use df1_check::Check;
use df1_frame::{Gathered, Heard};

/// Where in a text the bytes so far end.
#[derive(Clone, Copy)]
pub(crate) enum TextPlace {
    /// In the body.
    Inside,
    /// After a DLE in the body.
    InsideDle,
    /// After DLE ETX.
    AtCheck,
    /// After the first byte of a CRC.
    AtSecondCheck(u8),
}

/// What a byte of a text leads to.
#[derive(Clone, Copy)]
pub(crate) enum Progress {
    /// The text goes on here.
    Goes(TextPlace),
    /// It has ended with its check: true if the body has 6 to N bytes and the check is right.
    Ends(bool),
    /// It was broken off by a DLE and this byte.
    Breaks(u8),
}

/// Returns what a byte leads to.
pub(crate) fn step<const N: usize>(
    place: TextPlace,
    gathered: &mut Gathered<N>,
    check: Check,
    b: u8,
) -> Progress
    ensures { onward_of result gathered.new ≡ text_step check N (within_of place gathered.old) b }
{
    match place {
        TextPlace::Inside => inside(gathered, b),
        TextPlace::InsideDle => pair_inside(gathered, check, b),
        TextPlace::AtCheck => first_check(gathered, check, b),
        TextPlace::AtSecondCheck(first) => Progress::Ends(is_good(gathered, check, &[first, b])),
    }
}

fn inside<const N: usize>(gathered: &mut Gathered<N>, b: u8) -> Progress
    ensures { (check : CheckKind) → onward_of result gathered.new ≡ text_step check N (Inside gathered.old) b }
{
    if b == DLE {
        Progress::Goes(TextPlace::InsideDle)
    } else {
        gathered.gather(b);
        Progress::Goes(TextPlace::Inside)
    }
}

fn pair_inside<const N: usize>(gathered: &mut Gathered<N>, check: Check, b: u8) -> Progress
    ensures { onward_of result gathered.new ≡ text_step check N (InsideDle gathered.old) b }
{
    match b {
        ETX => {
            gathered.close(check);
            Progress::Goes(TextPlace::AtCheck)
        }
        DLE => {
            gathered.gather(b);
            Progress::Goes(TextPlace::Inside)
        }
        _ => Progress::Breaks(b),
    }
}

fn first_check<const N: usize>(gathered: &Gathered<N>, check: Check, b: u8) -> Progress
    ensures { onward_of result gathered.now ≡ text_step check N (AtCheck gathered.now []) b }
{
    match check {
        Check::Bcc => Progress::Ends(is_good(gathered, check, &[b])),
        Check::Crc => Progress::Goes(TextPlace::AtSecondCheck(b)),
    }
}

/// Returns whether the body has 6 to N bytes and these are its check bytes.
fn is_good<const N: usize>(gathered: &Gathered<N>, check: Check, bytes: &[u8]) -> bool
    ensures { result ≡ is_good_frame (verdict check gathered.now bytes.now) }
{
    match gathered.verdict(check, bytes) {
        Heard::Good => true,
        _ => false,
    }
}
