//! Lines by which bytes of a master arrive at a station, in their most frequent spelling: recognized without a list of
//! their words. Of a polled line they are most lines of a script.
ghost use Rattle.std.specs.Prelude.{◌≡◌, ◌∷◌, [], IfSome, Some, false};
ghost use Rattle.script_statement.specs.Statements.{statement_of as the_statement};
ghost use Rattle.script_statement.specs.Words.{words};
ghost use Rattle.line_script.specs.Lines.{is_passed_over};
ghost use Rattle.line_script.specs.Steps.{delivery};

use crate::given_word::number_first;
use crate::step::count_of;
use script_statement::{HalfEvent, Statement, Way};

/// Bytes of a master, 1 to 99, that arrive at the station of a number.
#[derive(Clone, Copy)]
pub(crate) struct GivenDelivery {
    pub station: u32,
    pub n: u32,
}

impl GivenDelivery {
    /// Returns the statement that says so.
    pub fn statement(self) -> Statement
        ensures { result ≡ delivery self.station self.n }
    {
        Statement::Half(HalfEvent::Deliver {
            way: Way::ToStation(self.station),
            n: Some(self.n),
        })
    }
}

/// Returns the bytes that arrive by a line. None says nothing about the line.
pub(crate) fn given_delivery(line: &[u8]) -> Option<GivenDelivery>
    ensures { IfSome result (λ given. (is_passed_over (words line.now) ≡ false)
        × (the_statement (words line.now) ≡ Some (delivery given.station given.n))) }
{
    match line {
        [b'm', b'd', b' ', operands @ ..] => {
            let (station, digits) = number_first(operands)?;
            Some(GivenDelivery {
                station,
                n: count_of(digits)?,
            })
        }
        _ => None,
    }
}
