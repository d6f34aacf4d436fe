//! The events of a round, by its pattern: one of four in turn.
//!
//! | Pattern | Events |
//! |---|---|
//! | plain | the command and its reply arrive |
//! | damaged frame | a byte of the command is altered: it is refused by a NAK, and retransmitted |
//! | lost ACK | the ACK of the command is lost: an ENQ asks for it again |
//! | false NAK | the ACK is lost, and a foreign NAK arrives in its place: the command is retransmitted, and is a duplicate |
ghost use Rattle.std.specs.Prelude.{◌≡◌, map};
ghost use Rattle.round_scripts.specs.Rounds.{event_of};
ghost use Rattle.df1_drill.specs.Drill.{course_of, pattern_of as the_pattern};

use round_scripts::{CourseEvent, TO_A, TO_B, UNDISTURBED};
use script_parts::Who;

/// The pattern of what happens to the bytes of a round.
#[derive(Clone, Copy, Debug, PartialEq, Eq)]
pub(crate) enum Pattern {
    Plain,
    DamagedFrame,
    LostAck,
    FalseNak,
}

const DAMAGED_FRAME: [CourseEvent; 12] = [
    CourseEvent::Take(Who::A, 23),
    CourseEvent::Deliver(TO_B, 2),
    CourseEvent::Alter(TO_B, 0x01),
    CourseEvent::Deliver(TO_B, 21),
    CourseEvent::Take(Who::B, 2),
    CourseEvent::Deliver(TO_A, 2),
    CourseEvent::Take(Who::A, 23),
    CourseEvent::Deliver(TO_B, 23),
    CourseEvent::Take(Who::B, 15),
    CourseEvent::Deliver(TO_A, 15),
    CourseEvent::Take(Who::A, 2),
    CourseEvent::Deliver(TO_B, 2),
];

const LOST_ACK: [CourseEvent; 11] = [
    CourseEvent::Take(Who::A, 23),
    CourseEvent::Deliver(TO_B, 23),
    CourseEvent::Take(Who::B, 2),
    CourseEvent::Lose(TO_A, 2),
    CourseEvent::Tick(Who::A, 10),
    CourseEvent::Take(Who::A, 2),
    CourseEvent::Deliver(TO_B, 2),
    CourseEvent::Take(Who::B, 15),
    CourseEvent::Deliver(TO_A, 15),
    CourseEvent::Take(Who::A, 2),
    CourseEvent::Deliver(TO_B, 2),
];

const FALSE_NAK: [CourseEvent; 11] = [
    CourseEvent::Take(Who::A, 23),
    CourseEvent::Deliver(TO_B, 23),
    CourseEvent::Take(Who::B, 2),
    CourseEvent::Lose(TO_A, 2),
    CourseEvent::Nak(TO_A),
    CourseEvent::Take(Who::A, 23),
    CourseEvent::Deliver(TO_B, 23),
    CourseEvent::Take(Who::B, 15),
    CourseEvent::Deliver(TO_A, 15),
    CourseEvent::Take(Who::A, 2),
    CourseEvent::Deliver(TO_B, 2),
];

impl Pattern {
    /// Returns the pattern of a round, counted from 1.
    pub fn of(seed: u32, round: u32) -> Pattern
        ensures { result ≡ the_pattern seed round }
    {
        match (u64::from(seed) + u64::from(round)) % 4 {
            0 => Pattern::Plain,
            1 => Pattern::DamagedFrame,
            2 => Pattern::LostAck,
            _ => Pattern::FalseNak,
        }
    }

    /// Returns the events after the command of a round.
    pub fn course(self) -> &'static [CourseEvent]
        ensures { map event_of result.now ≡ course_of self }
    {
        match self {
            Pattern::Plain => &UNDISTURBED,
            Pattern::DamagedFrame => &DAMAGED_FRAME,
            Pattern::LostAck => &LOST_ACK,
            Pattern::FalseNak => &FALSE_NAK,
        }
    }
}
