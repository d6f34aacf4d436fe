//! Tests of drills and storms against the replays of their texts.

ghost use Rattle.script_parts.specs.HalfPlayable.{CanBePlayed};

use crate::equal::is;
use df1_base::Collected;
use df1_check::crc;
use df1_drill::{MOST_ROUNDS, drill, drill_script, storm};
use line_replay::{read_script, replay};
use replay_report::{pair, print};
use script_parts::Script;
use std::alloc::{AllocError, Global};
use std::test::Fail;

/// The lines after a round's command, by its pattern.
const COURSES: [&str; 4] = [
    "\nak 23\nad 23\nbk 15\nbd 15\nak 2\nad 2\n",
    "\nak 23\nad 2\nac 01\nad 21\nbk 2\nbd 2\nak 23\nad 23\nbk 15\nbd 15\nak 2\nad 2\n",
    "\nak 23\nad 23\nbk 2\nbx 2\nat 10\nak 2\nad 2\nbk 15\nbd 15\nak 2\nad 2\n",
    "\nak 23\nad 23\nbk 2\nbx 2\nbn 1015\nak 23\nad 23\nbk 15\nbd 15\nak 2\nad 2\n",
];

/// The lines of a hit before those after a command, by the position of the byte that is altered.
const HITS: [&str; 4] = [
    "\nak 23\nad 2\nac 01\nad 23\nbk 2\nbd 2",
    "\nak 23\nad 3\nac 01\nad 23\nbk 2\nbd 2",
    "\nak 23\nad 4\nac 01\nad 23\nbk 2\nbd 2",
    "\nak 23\nad 5\nac 01\nad 23\nbk 2\nbd 2",
];

/// Returns the text of a drill's script, or of a storm's.
fn text_of(alloc: Global, stormy: bool, seed: u32, count: u32) -> Result<Vec<u8>, AllocError> {
    let mut text = Vec::from_slice(alloc, b"file b 7 89 16\n")?;
    for round in 1..count.min(MOST_ROUNDS) + 1 {
        let turn = u64::from(seed) + u64::from(round);
        put_command(&mut text, turn, round)?;
        if stormy {
            for hit in 1..turn % 4 + 1 {
                text.extend_from_slice(HITS[((turn + hit) % 4) as usize].as_bytes())?;
            }
            text.extend_from_slice(COURSES[0].as_bytes())?;
        } else {
            text.extend_from_slice(COURSES[(turn % 4) as usize].as_bytes())?;
        }
    }
    text.extend_from_slice(b"end\n")?;
    Ok(text)
}

/// Appends the line of a round's command.
fn put_command(text: &mut Vec<u8>, turn: u64, round: u32) -> Result<(), AllocError> {
    text.extend_from_slice(b"ai 0FAA020789")?;
    text.extend_from_slice(&pair((round % 16) as u8))?;
    text.extend_from_slice(b"00")?;
    text.extend_from_slice(&pair((turn % 256) as u8))?;
    text.extend_from_slice(&pair((turn / 256 % 256) as u8))
}

/// Returns the report of the run of a script's text.
fn report_of(alloc: Global, text: &[u8]) -> Result<Collected, Fail> {
    let script = read_script(alloc, text)?;
    printed(alloc, &script)
}

/// Returns the report of a script's run.
fn printed(alloc: Global, script: &Script) -> Result<Collected, Fail>
    requires { CanBePlayed script.now }
{
    let mut text = Collected::new(alloc);
    print(&replay(alloc, script)?, &mut text)?;
    Ok(text)
}

/// Drills, each with its line up to the CRC of the report.
const DRILLS: [(u32, u32, &str); 2] = [
    (
        0,
        4,
        "issued 4 executed 4 answered 4 damaged 1 repeats 1 enquiries 1 deceived 0 report ",
    ),
    (
        7,
        20_000,
        "issued 20000 executed 20000 answered 20000 damaged 5000 repeats 5000 enquiries 5000 deceived 0 report ",
    ),
];

/// Returns the last part of a line: a number in hexadecimal digits, and a line feed.
fn ending(number: u16) -> [u8; 5] {
    let [first, second] = pair((number / 256) as u8);
    let [third, fourth] = pair((number % 256) as u8);
    [first, second, third, fourth, b'\n']
}

#[test]
fn a_line_tells_the_replay_of_the_text(rt: HostRuntime) -> Result<(), Fail> {
    for (seed, count, counts) in DRILLS {
        assert!(rt; count <= MOST_ROUNDS);
        let line = drill(rt.alloc(), seed, count)?.line();
        let (told, digits) = line.as_slice().split_at(counts.len().min(line.len()));
        is(&rt, told, counts.as_bytes());
        let text = text_of(rt.alloc(), false, seed, count)?;
        let report = report_of(rt.alloc(), &text)?;
        is(&rt, digits, ending(crc(report.bytes())).as_slice());
    }
    Ok(())
}

#[test]
fn a_text_says_the_script_of_its_drill(rt: HostRuntime) -> Result<(), Fail> {
    for seed in 0..4 {
        let made = printed(rt.alloc(), &drill_script(rt.alloc(), seed, 8)?)?;
        let text = text_of(rt.alloc(), false, seed, 8)?;
        let said = report_of(rt.alloc(), &text)?;
        is(&rt, made.bytes(), said.bytes());
    }
    Ok(())
}

#[test]
fn a_text_says_the_script_of_its_storm(rt: HostRuntime) -> Result<(), Fail> {
    for seed in 0..4 {
        let made = printed(rt.alloc(), &storm(rt.alloc(), seed, 8)?)?;
        let text = text_of(rt.alloc(), true, seed, 8)?;
        let said = report_of(rt.alloc(), &text)?;
        is(&rt, made.bytes(), said.bytes());
    }
    Ok(())
}
