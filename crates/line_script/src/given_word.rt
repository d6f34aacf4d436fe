//! Lines that set the first value of a word of a full-duplex end, in their most frequent spelling: recognized without a
//! list of their words.
ghost use Rattle.std.specs.Prelude.{◌≡◌, ◌==◌, ◌∷◌, [], Some, List, ℕ, IfSome, false, position};
ghost use Rattle.duplex_script.specs.Drafts.{word_given};
ghost use Rattle.script_statement.specs.Statements.{statement_of as the_statement};
ghost use Rattle.script_statement.specs.Words.{number_of as the_number, register_of as the_register, words};
ghost use Rattle.line_script.specs.Lines.{is_passed_over};

use crate::step::side_of;
use script_statement::{
    EndLetter, EndName, SetupStatement, Statement, file_number, number_of, register_of,
};

/// The first value of a word.
#[derive(Clone, Copy)]
pub(crate) struct GivenWord {
    pub side: EndLetter,
    pub file: u16,
    pub index: u32,
    pub value: u16,
}

impl GivenWord {
    /// Returns the statement that sets it.
    pub fn statement(self) -> Statement
        ensures { result ≡ word_given self.side self.file self.index self.value }
    {
        Statement::Setup {
            end: EndName::Known(self.side),
            line: SetupStatement::Word {
                file: Some(self.file),
                index: self.index,
                value: self.value,
            },
        }
    }
}

/// Returns the word that a line sets. None says nothing about the line.
pub(crate) fn given_word(line: &[u8]) -> Option<GivenWord>
    ensures { IfSome result (λ word. (is_passed_over (words line.now) ≡ false)
        × (the_statement (words line.now) ≡ Some (word_given word.side word.file word.index word.value))) }
{
    match line {
        [b'w', b'o', b'r', b'd', b' ', end, b' ', operands @ ..] => {
            let side = side_of(*end)?;
            let (file, rest) = number_first(operands)?;
            let (index, digits) = number_first(rest)?;
            Some(GivenWord {
                side,
                file: file_number(file)?,
                index,
                value: value_of(digits)?,
            })
        }
        _ => None,
    }
}

/// Returns the number that bytes begin with, up to a blank, and what follows the blank. None says nothing about the
/// bytes.
pub(crate) fn number_first(bytes: &[u8]) -> Option<(u32, &[u8])>
    ensures { IfSome result (λ cut. (word : List ℕ) × (the_number word ≡ Some cut.0) × (words bytes.now ≡ word ∷ words cut.1.now)) }
{
    let stop = blank_in(bytes)?;
    Some((number_of(&bytes[..stop])?, &bytes[stop + 1..]))
}

/// Returns the index of the first blank.
fn blank_in(bytes: &[u8]) -> Option<usize>
    ensures { result ≡ position (λ byte. byte == 32) bytes.now }
{
    bytes.iter().position(|byte| *byte == b' ')
}

/// Returns the value that four hexadecimal digits spell. None says nothing about the bytes.
fn value_of(bytes: &[u8]) -> Option<u16>
    ensures { IfSome result (λ value. (the_register bytes.now ≡ Some value) × (words bytes.now ≡ bytes.now ∷ [])) }
{
    match bytes {
        [a, b, c, d] if *a > b' ' && *b > b' ' && *c > b' ' && *d > b' ' => register_of(bytes),
        _ => None,
    }
}
