//! The part of a text that doesn't depend on a rest that can't be read.
ghost use Rattle.std.specs.Prelude.{◌≡◌, ◌≤◌, length};
ghost use Rattle.line_script.specs.Unfinished.{settled as the_settled, unfinished as the_unfinished};

use line_script::LINE;

/// Returns the lines of a text that end with a line feed, and also the last one if it is over 1,024 bytes already.
/// Whatever follows, these lines are the same.
pub(crate) fn settled(text: &[u8]) -> &[u8]
    ensures { result.now ≡ the_settled text.now }
{
    let begun = unfinished(text);
    if begun > LINE {
        text
    } else {
        &text[..text.len() - begun]
    }
}

/// Returns how many bytes of a text follow its last line feed.
fn unfinished(text: &[u8]) -> usize
    ensures value { result ≡ the_unfinished text.now }
    ensures most { result ≤ length text.now }
{
    let mut begun = 0;
    for byte in text {
        begun = if *byte == b'\n' { 0 } else { begun + 1 };
    }
    begun
}
