//! The lines that report what an end and its host made of a byte, of a fate and of a tick.

ghost use Rattle.std.specs.Prelude.{◌≡◌, ◌≢◌, ◌++◌, ◌∷◌, [], ℕ, List, Option, IfOk, OnOk};
ghost use Rattle.df1_base.specs.declared.host.Did.{Did as Told};
ghost use Rattle.report_lines.specs.NodeLines.{act_lines, did_lines, gone_lines, news_lines, turn_lines};

use df1_base::{Act, Did, News, NoMemory, Turn};
use replay_report::{Line, Page};
use script_statement::{Bytes, Who};
use std::alloc::Global;

/// Reports an act: the body is that of the received message. It is inlined, since at most bytes there is nothing to
/// report.
#[inline(always)]
pub fn tell_act(
    alloc: Global,
    who: Who,
    act: Act,
    did: Option<Did>,
    body: &[u8],
    lines: &mut Page,
) -> Result<(), NoMemory>
    ensures { OnOk result (lines.new ≡ lines.old ++ act_lines who act did body.now) }
{
    match act {
        Act::Forgot | Act::PeerAck | Act::PeerNak | Act::PeerEnq | Act::Nothing => Ok(()),
        Act::Accept => tell_did(alloc, who, did, body, lines),
        Act::Repeat | Act::Refuse | Act::Damaged => tell_refusal(who, act, lines),
    }
}

/// Reports an act at which a message came that isn't accepted.
#[inline(never)]
fn tell_refusal(who: Who, act: Act, lines: &mut Page) -> Result<(), NoMemory>
    requires { act ≢ Act.Accept }
    ensures { (did : Option Told) (body : List ℕ) → OnOk result (lines.new ≡ lines.old ++ act_lines who act did body) }
{
    match act {
        Act::Repeat => lines.push(Line::Repeat { who }),
        Act::Refuse => lines.push(Line::Full { who }),
        Act::Damaged => lines.push(Line::Damaged { who }),
        Act::Accept => unreachable!(),
        Act::Forgot | Act::PeerAck | Act::PeerNak | Act::PeerEnq | Act::Nothing => Ok(()),
    }
}

/// Reports what a host did with a message. It isn't inlined, since a byte at which none is accepted would pay for its
/// stack space.
#[inline(never)]
fn tell_did(
    alloc: Global,
    who: Who,
    did: Option<Did>,
    body: &[u8],
    lines: &mut Page,
) -> Result<(), NoMemory>
    ensures { OnOk result (lines.new ≡ lines.old ++ did_lines who did body.now) }
{
    let Some(did) = did else {
        return Ok(());
    };
    let kept = copied(alloc, body, lines)?;
    lines.push(match did {
        Did::Executed => Line::Exec { who, body: kept },
        Did::Answered(n) => Line::Answered { who, n, body: kept },
        Did::Stray => Line::Stray { who, body: kept },
    })
}

/// Reports a message that was accepted and is carried to a station. It isn't inlined, for the same reason.
#[inline(never)]
pub fn tell_routed(alloc: Global, who: Who, body: &[u8], lines: &mut Page) -> Result<(), NoMemory>
    ensures { OnOk result (lines.new ≡ lines.old ++ Line.Routed who body.now ∷ []) }
{
    let kept = copied(alloc, body, lines)?;
    lines.push(Line::Routed { who, body: kept })
}

/// Returns a copy of a body for a line, in memory that served before, if there is any.
fn copied(alloc: Global, body: &[u8], lines: &mut Page) -> Result<Bytes, NoMemory>
    ensures copy { IfOk result (λ kept. kept ≡ body.now) }
    ensures lines { lines.new ≡ lines.old }
{
    let mut kept = lines.no_bytes(alloc);
    kept.extend(body)?;
    Ok(kept)
}

/// Reports what a host answered to a fate.
pub fn tell_news(who: Who, news: News, lines: &mut Page) -> Result<(), NoMemory>
    ensures { OnOk result (lines.new ≡ lines.old ++ news_lines who news) }
{
    match news {
        News::Nothing => Ok(()),
        News::Undelivered(n) => lines.push(Line::Undelivered { who, n }),
        News::Dropped => lines.push(Line::Dropped { who }),
    }
}

/// Reports what a tick did to the sender.
pub fn tell_turn(who: Who, turn: Turn, lines: &mut Page) -> Result<(), NoMemory>
    ensures { OnOk result (lines.new ≡ lines.old ++ turn_lines who turn) }
{
    match turn {
        Turn::Still => Ok(()),
        Turn::Ask => lines.push(Line::Enquiry { who }),
        Turn::Failed(news) => tell_news(who, news, lines),
    }
}

/// Reports the commands that are unanswered.
pub fn tell_gone(who: Who, gone: &[u32], lines: &mut Page) -> Result<(), NoMemory>
    ensures { OnOk result (lines.new ≡ lines.old ++ gone_lines who gone.now) }
{
    for n in gone {
        lines.push(Line::Unanswered { who, n: *n })?;
    }
    Ok(())
}
