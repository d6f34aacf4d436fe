//! What a call reports to C of an end. Numbers stand for the cases; the header names them.

ghost use Rattle.std.specs.Prelude.{◌≡◌};
ghost use Rattle.c_ends.specs.Told.{act_told, did_told, news_told, out_told, routed_told, step_told, turn_told};

use df1_base::{Act, Did, News, Out, Step, Turn};

/// The effect of a byte on an end.
#[repr(C)]
#[derive(Clone, Copy)]
pub struct StepTold {
    pub act: u32,
    pub did: u32,
    /// The command that `did` names, or 0.
    pub did_command: u32,
    pub news: u32,
    /// The command that `news` names, or 0.
    pub news_command: u32,
    pub whole: bool,
    /// The station that a whole half-duplex message names, received by a slave, or 0.
    pub station: u8,
}

/// The effect of a tick on an end.
#[repr(C)]
#[derive(Clone, Copy)]
pub struct TurnTold {
    pub turn: u32,
    pub news: u32,
    /// The command that `news` names, or 0.
    pub news_command: u32,
    /// How many commands it left unanswered.
    pub gone_count: u32,
}

/// A byte to transmit, if there is one.
#[repr(C)]
#[derive(Clone, Copy)]
pub struct OutTold {
    pub there: bool,
    pub byte: u8,
    /// Whether the byte is the last of a message.
    pub last: bool,
}

/// Returns the number of an act.
fn act_number(act: Act) -> u32
    ensures { result ≡ act_told act }
{
    match act {
        Act::Nothing => 0,
        Act::Accept => 1,
        Act::Repeat => 2,
        Act::Refuse => 3,
        Act::Damaged => 4,
        Act::Forgot => 5,
        Act::PeerAck => 6,
        Act::PeerNak => 7,
        Act::PeerEnq => 8,
    }
}

/// Returns what a host did, and the command that it names.
fn did_numbers(did: Option<Did>) -> (u32, u32)
    ensures { result ≡ did_told did }
{
    match did {
        None => (0, 0),
        Some(Did::Executed) => (1, 0),
        Some(Did::Answered(n)) => (2, n),
        Some(Did::Stray) => (3, 0),
    }
}

/// Returns what became known at a fate, and the command that it names.
fn news_numbers(news: News) -> (u32, u32)
    ensures { result ≡ news_told news }
{
    match news {
        News::Nothing => (0, 0),
        News::Undelivered(n) => (1, n),
        News::Dropped => (2, 0),
    }
}

/// Returns a step as C sees it.
pub fn step_of(step: Step) -> StepTold
    ensures { result ≡ step_told step }
{
    let (did, did_command) = did_numbers(step.did);
    let (news, news_command) = news_numbers(step.news);
    StepTold {
        act: act_number(step.act),
        did,
        did_command,
        news,
        news_command,
        whole: step.whole,
        station: step.station,
    }
}

/// The numbers by which an accepted message is reported: one that is stray, and one that is carried to a station.
const STRAY: u32 = 3;

const ROUTED: u32 = 4;

/// Returns a step, which may be one at which a message was received that is carried.
pub fn routed(carried: bool, told: StepTold) -> StepTold
    ensures { result ≡ routed_told carried told }
{
    let did = if carried && told.did == STRAY {
        ROUTED
    } else {
        told.did
    };
    StepTold { did, ..told }
}

/// Returns a turn as C sees it, with the number of commands that it left unanswered.
pub fn turn_of(turn: Turn, gone_count: u32) -> TurnTold
    ensures { result ≡ turn_told turn gone_count }
{
    match turn {
        Turn::Still => TurnTold {
            turn: 0,
            news: 0,
            news_command: 0,
            gone_count,
        },
        Turn::Ask => TurnTold {
            turn: 1,
            news: 0,
            news_command: 0,
            gone_count,
        },
        Turn::Failed(news) => {
            let (news, news_command) = news_numbers(news);
            TurnTold {
                turn: 2,
                news,
                news_command,
                gone_count,
            }
        }
    }
}

/// Returns a byte to transmit as C sees it.
pub fn out_of(out: Option<Out>) -> OutTold
    ensures { result ≡ out_told out }
{
    match out {
        Some(out) => OutTold {
            there: true,
            byte: out.byte,
            last: out.last_of.is_some(),
        },
        None => OutTold {
            there: false,
            byte: 0,
            last: false,
        },
    }
}
