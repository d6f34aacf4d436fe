//! Lines that issue a command at a full-duplex end, in their most frequent spelling: recognized without a list of their
//! words.
ghost use Rattle.std.specs.Prelude.{◌≡◌, ◌∷◌, [], IfSome, Some, false};
ghost use Rattle.script_statement.specs.Statements.{payload_of as the_payload, statement_of as the_statement};
ghost use Rattle.script_statement.specs.Words.{hex_of as the_bytes, words};
ghost use Rattle.script_statement.specs.declared.statement.Statement.{Statement as Form};
ghost use Rattle.line_script.specs.Lines.{is_passed_over};

use crate::step::side_of;
use script_statement::{Bytes, EndLetter, hex_of, payload_of};
use std::alloc::Global;

/// A command of an end.
#[derive(Drop)]
pub(crate) struct GivenCommand {
    pub side: EndLetter,
    pub payload: Bytes,
}

/// Returns the command that a line issues. None says nothing about the line.
pub(crate) fn given_command(alloc: Global, line: &[u8]) -> Option<GivenCommand>
    ensures { IfSome result (λ command. (is_passed_over (words line.now) ≡ false)
        × (the_statement (words line.now) ≡ Some (Form.Issue command.side (Some command.payload)))) }
{
    match line {
        [end, b'i', b' ', digits @ ..] => {
            let side = side_of(*end)?;
            let payload = payload_in(alloc, digits)?;
            Some(GivenCommand { side, payload })
        }
        _ => None,
    }
}

/// Returns the payload that digits spell. None says nothing about the bytes: there may be no memory.
fn payload_in(alloc: Global, digits: &[u8]) -> Option<Bytes>
    ensures { IfSome result (λ payload. (the_bytes digits.now ≡ Some payload) × (the_payload payload ≡ Some payload) × (words digits.now ≡ digits.now ∷ [])) }
{
    match hex_of(alloc, digits) {
        Ok(Some(bytes)) => payload_of(bytes),
        _ => None,
    }
}
