//! What happens to the bytes of a round after its command.
ghost use Rattle.std.specs.Prelude.{◌≡◌, ◌++◌, IfOk, OnOk, map};
ghost use Rattle.round_scripts.specs.Rounds.{event_of};

use df1_base::{DLE, NAK, NoMemory};
use script_parts::{Event, Events, Items, Lane, Who};
use std::alloc::Global;

/// An event of a round after its command, with its count of bytes or ticks.
#[derive(Clone, Copy, Debug, PartialEq, Eq)]
pub enum CourseEvent {
    /// An end sends bytes.
    Take(Who, u32),
    /// Bytes of a queue arrive.
    Deliver(Lane, u32),
    /// Bytes of a queue are lost.
    Lose(Lane, u32),
    /// The byte at the head of a queue is altered by exclusive or with a mask.
    Alter(Lane, u8),
    /// A foreign NAK arrives as if through a queue.
    Nak(Lane),
    /// Ticks pass at an end.
    Tick(Who, u32),
}

/// The queue of the bytes from end a to end b.
pub const TO_B: Lane = Lane {
    from: Who::A,
    to: Who::B,
};

/// The queue of the bytes from end b to end a.
pub const TO_A: Lane = Lane {
    from: Who::B,
    to: Who::A,
};

/// The command and its reply arrive, each with its ACK.
pub const UNDISTURBED: [CourseEvent; 6] = [
    CourseEvent::Take(Who::A, 23),
    CourseEvent::Deliver(TO_B, 23),
    CourseEvent::Take(Who::B, 15),
    CourseEvent::Deliver(TO_A, 15),
    CourseEvent::Take(Who::A, 2),
    CourseEvent::Deliver(TO_B, 2),
];

impl CourseEvent {
    /// Returns the event of a script.
    fn event(self, alloc: Global) -> Result<Event, NoMemory>
        ensures { IfOk result (λ event. event ≡ event_of self) }
    {
        Ok(match self {
            CourseEvent::Take(who, n) => Event::Take { who, n },
            CourseEvent::Deliver(lane, n) => Event::Deliver { lane, n },
            CourseEvent::Lose(lane, n) => Event::Lose { lane, n },
            CourseEvent::Alter(lane, mask) => Event::Alter { lane, mask },
            CourseEvent::Nak(lane) => Event::Foreign {
                lane,
                bytes: Items::copy_of(alloc, &[DLE, NAK])?,
            },
            CourseEvent::Tick(who, n) => Event::Tick { who, n },
        })
    }
}

/// Appends what happens after a command, in its order, to the events before it.
pub fn put_course(
    alloc: Global,
    events: &mut Events,
    course: &[CourseEvent],
) -> Result<(), NoMemory>
    ensures { OnOk result (events.new ≡ events.old ++ map event_of course.now) }
{
    for step in course {
        events.push(step.event(alloc)?)?;
    }
    Ok(())
}
