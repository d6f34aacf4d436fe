//! The text of a report, which goes to a sink piece by piece: no line is collected. If a call of the sink is expensive,
//! put a buffer in front of it.
//!
//! | Line | When |
//! |---|---|
//! | `WHO sent HEX` | an end sent at least one byte at an event: all of them |
//! | `WHO exec HEX` | a command was executed: its body |
//! | `WHO answered N HEX` | the reply to command N was accepted: the reply's body |
//! | `WHO undelivered N`, `WHO unanswered N` | these outcomes of command N |
//! | `WHO stray HEX` | an accepted reply that answers no command |
//! | `WHO routed HEX` | an accepted message that the master carries to a station: its body |
//! | `WHO repeat`, `WHO full`, `WHO damaged` | a message came again, found no buffer space, was damaged |
//! | `WHO enquiry` | the sender asked for a missing response, by an ENQ |
//! | `WHO dropped` | a reply was given up |
//! | `WHO word NUM INDEX HHHH` | a word that isn't 0 in the end |
//! | `deceived N` | the last line |
//!
//! WHO is `a`, `b`, `m` or the station's decimal number. Hexadecimal digits are upper case.
ghost use Rattle.std.specs.Prelude.{◌≡◌, ◌≤◌, ◌+◌, ◌++◌, ◌∷◌, [], codes, decimal, length, OnOk, OnErr};
ghost use Rattle.arrayvec.specs.ArrayVec.{array_vec_len};
ghost use Rattle.std.specs.List.{flat_map};
ghost use Rattle.df1_base.specs.Outside.{Rose, Put, WroteLess, Later};
ghost use Rattle.hex.specs.Hex.{encode_upper};
ghost use Rattle.replay_report.specs.Report.{report, line_text, who_text, word_text};

use crate::digits::{append_pairs, pair, put_hex};
use crate::short::{ROOM, Short, append_number, append_said, deceived_line, word_line};
use crate::{Line, Record};
use arrayvec::ArrayVec;
use df1_base::{Failed, Sink, append, write_all};
use script_parts::WordOf;
use script_statement::Who;

/// Writes the report of a record: its lines, its words and its count of deceptions. Returns `Failed` if the sink
/// failed; then the sink holds only a first part of the text.
pub fn print<K: Sink>(record_of: &Record, sink: &mut K) -> Result<(), Failed>
    ensures ok { OnOk result (Put (K.held sink.old) (K.held sink.new) (report record_of.now)) }
    ensures missing { OnErr result (WroteLess (K.held sink.old) (K.held sink.new) (report record_of.now)) }
    ensures calm { OnOk result (K.faults sink.new ≡ K.faults sink.old) }
    ensures later { Later (K.mark sink.old) (K.mark sink.new) (K.faults sink.old) (K.faults sink.new) }
    ensures cause { OnErr result (Rose (K.faults sink.old) (K.faults sink.new)) }
{
    print_lines(record_of.lines.as_slice(), sink)?;
    put_words(sink, record_of.words.as_slice())?;
    write_all(sink, &deceived_line(record_of.deceived))
}

/// Writes the text of lines of a report, if there are any. Returns `Failed` if the sink failed; then the sink holds
/// only a first part of the text.
pub fn print_lines<K: Sink>(lines: &[Line], sink: &mut K) -> Result<(), Failed>
    ensures ok { OnOk result (Put (K.held sink.old) (K.held sink.new) (flat_map line_text lines.now)) }
    ensures missing { OnErr result (WroteLess (K.held sink.old) (K.held sink.new) (flat_map line_text lines.now)) }
    ensures untouched { lines.now ≡ [] → sink.new ≡ sink.old }
    ensures calm { OnOk result (K.faults sink.new ≡ K.faults sink.old) }
    ensures later { Later (K.mark sink.old) (K.mark sink.new) (K.faults sink.old) (K.faults sink.new) }
    ensures cause { OnErr result (Rose (K.faults sink.old) (K.faults sink.new)) }
{
    for line in lines {
        put_line(sink, line)?;
    }
    Ok(())
}

/// Writes one line of a report. Returns `Failed` if the sink failed; then the sink holds only a first part of the line.
pub fn put_line<K: Sink>(sink: &mut K, line: &Line) -> Result<(), Failed>
    ensures ok { OnOk result (Put (K.held sink.old) (K.held sink.new) (line_text line.now)) }
    ensures missing { OnErr result (WroteLess (K.held sink.old) (K.held sink.new) (line_text line.now)) }
    ensures calm { OnOk result (K.faults sink.new ≡ K.faults sink.old) }
    ensures later { Later (K.mark sink.old) (K.mark sink.new) (K.faults sink.old) (K.faults sink.new) }
    ensures cause { OnErr result (Rose (K.faults sink.old) (K.faults sink.new)) }
{
    match line {
        Line::Sent { who, bytes } => put_sent(sink, *who, bytes.as_slice()),
        Line::Exec { who, body } => put_bytes(sink, *who, b" exec ", body.as_slice()),
        Line::Answered { who, n, body } => put_answer(sink, *who, *n, body.as_slice()),
        Line::Undelivered { who, n } => put_number(sink, *who, b" undelivered ", *n),
        Line::Unanswered { who, n } => put_number(sink, *who, b" unanswered ", *n),
        Line::Stray { who, body } => put_bytes(sink, *who, b" stray ", body.as_slice()),
        Line::Routed { who, body } => put_bytes(sink, *who, b" routed ", body.as_slice()),
        Line::Repeat { who } => put_said(sink, *who, b" repeat\n"),
        Line::Full { who } => put_said(sink, *who, b" full\n"),
        Line::Damaged { who } => put_said(sink, *who, b" damaged\n"),
        Line::Enquiry { who } => put_said(sink, *who, b" enquiry\n"),
        Line::Dropped { who } => put_said(sink, *who, b" dropped\n"),
    }
}

/// Writes the line of bytes that an end sent at one event. Returns `Failed` if the sink failed; then the sink holds
/// only a first part of the line.
pub fn put_sent<K: Sink>(sink: &mut K, who: Who, bytes: &[u8]) -> Result<(), Failed>
    ensures ok { OnOk result (Put (K.held sink.old) (K.held sink.new) (line_text (Line.Sent who bytes.now))) }
    ensures missing { OnErr result (WroteLess (K.held sink.old) (K.held sink.new) (line_text (Line.Sent who bytes.now))) }
    ensures calm { OnOk result (K.faults sink.new ≡ K.faults sink.old) }
    ensures later { Later (K.mark sink.old) (K.mark sink.new) (K.faults sink.old) (K.faults sink.new) }
    ensures cause { OnErr result (Rose (K.faults sink.old) (K.faults sink.new)) }
{
    match (who, bytes) {
        (Who::A, [byte]) => put_byte(sink, b'a', *byte),
        (Who::B, [byte]) => put_byte(sink, b'b', *byte),
        _ => put_bytes(sink, who, b" sent ", bytes),
    }
}

/// Writes the line of one byte that an end sent, by the letter of the end: these lines are the most frequent.
fn put_byte<K: Sink>(sink: &mut K, end: u8, byte: u8) -> Result<(), Failed>
    ensures ok { OnOk result (Put (K.held sink.old) (K.held sink.new) (end ∷ codes " sent " ++ encode_upper (byte ∷ []) ++ codes "\n")) }
    ensures missing { OnErr result (WroteLess (K.held sink.old) (K.held sink.new) (end ∷ codes " sent " ++ encode_upper (byte ∷ []) ++ codes "\n")) }
    ensures calm { OnOk result (K.faults sink.new ≡ K.faults sink.old) }
    ensures later { Later (K.mark sink.old) (K.mark sink.new) (K.faults sink.old) (K.faults sink.new) }
    ensures cause { OnErr result (Rose (K.faults sink.old) (K.faults sink.new)) }
{
    let [high, low] = pair(byte);
    let line = [end, b' ', b's', b'e', b'n', b't', b' ', high, low, b'\n'];
    write_all(sink, &line)
}

/// Writes a line that says something of an end, and ends in bytes. It isn't inlined, and nor are the others that have
/// space for a line: a line of one kind would pay for the space of them all.
#[inline(never)]
fn put_bytes<K: Sink>(sink: &mut K, who: Who, what: &[u8], bytes: &[u8]) -> Result<(), Failed>
    requires { length what.now ≤ 16 }
    ensures ok { OnOk result (Put (K.held sink.old) (K.held sink.new) (who_text who ++ what.now ++ encode_upper bytes.now ++ codes "\n")) }
    ensures missing { OnErr result (WroteLess (K.held sink.old) (K.held sink.new) (who_text who ++ what.now ++ encode_upper bytes.now ++ codes "\n")) }
    ensures calm { OnOk result (K.faults sink.new ≡ K.faults sink.old) }
    ensures later { Later (K.mark sink.old) (K.mark sink.new) (K.faults sink.old) (K.faults sink.new) }
    ensures cause { OnErr result (Rose (K.faults sink.old) (K.faults sink.new)) }
{
    let mut line = ArrayVec::new();
    append_said(&mut line, who, what);
    put_behind(sink, &mut line, bytes)
}

/// Writes the line of an answer.
#[inline(never)]
fn put_answer<K: Sink>(sink: &mut K, who: Who, n: u32, body: &[u8]) -> Result<(), Failed>
    ensures ok { OnOk result (Put (K.held sink.old) (K.held sink.new) (who_text who ++ codes " answered " ++ decimal n ++ codes " " ++ encode_upper body.now ++ codes "\n")) }
    ensures missing { OnErr result (WroteLess (K.held sink.old) (K.held sink.new) (who_text who ++ codes " answered " ++ decimal n ++ codes " " ++ encode_upper body.now ++ codes "\n")) }
    ensures calm { OnOk result (K.faults sink.new ≡ K.faults sink.old) }
    ensures later { Later (K.mark sink.old) (K.mark sink.new) (K.faults sink.old) (K.faults sink.new) }
    ensures cause { OnErr result (Rose (K.faults sink.old) (K.faults sink.new)) }
{
    let mut line = ArrayVec::new();
    append_said(&mut line, who, b" answered ");
    append_number(&mut line, n);
    append(&mut line, b" ");
    put_behind(sink, &mut line, body)
}

/// Writes a line that ends in the number of a command.
#[inline(never)]
fn put_number<K: Sink>(sink: &mut K, who: Who, what: &[u8], n: u32) -> Result<(), Failed>
    requires { length what.now ≤ 16 }
    ensures ok { OnOk result (Put (K.held sink.old) (K.held sink.new) (who_text who ++ what.now ++ decimal n ++ codes "\n")) }
    ensures missing { OnErr result (WroteLess (K.held sink.old) (K.held sink.new) (who_text who ++ what.now ++ decimal n ++ codes "\n")) }
    ensures calm { OnOk result (K.faults sink.new ≡ K.faults sink.old) }
    ensures later { Later (K.mark sink.old) (K.mark sink.new) (K.faults sink.old) (K.faults sink.new) }
    ensures cause { OnErr result (Rose (K.faults sink.old) (K.faults sink.new)) }
{
    let mut line = ArrayVec::new();
    append_said(&mut line, who, what);
    append_number(&mut line, n);
    append(&mut line, b"\n");
    write_all(sink, &line)
}

/// Writes a line that says nothing more of an end.
#[inline(never)]
fn put_said<K: Sink>(sink: &mut K, who: Who, what: &[u8]) -> Result<(), Failed>
    requires { length what.now ≤ 16 }
    ensures ok { OnOk result (Put (K.held sink.old) (K.held sink.new) (who_text who ++ what.now)) }
    ensures missing { OnErr result (WroteLess (K.held sink.old) (K.held sink.new) (who_text who ++ what.now)) }
    ensures calm { OnOk result (K.faults sink.new ≡ K.faults sink.old) }
    ensures later { Later (K.mark sink.old) (K.mark sink.new) (K.faults sink.old) (K.faults sink.new) }
    ensures cause { OnErr result (Rose (K.faults sink.old) (K.faults sink.new)) }
{
    let mut line = ArrayVec::new();
    append_said(&mut line, who, what);
    write_all(sink, &line)
}

/// Writes a line with this beginning that ends in bytes: at once, if there is room for their digits.
fn put_behind<K: Sink>(sink: &mut K, line: &mut Short, bytes: &[u8]) -> Result<(), Failed>
    requires { array_vec_len line.old + 1 ≤ ROOM }
    ensures ok { OnOk result (Put (K.held sink.old) (K.held sink.new) (line.old.items ++ encode_upper bytes.now ++ codes "\n")) }
    ensures missing { OnErr result (WroteLess (K.held sink.old) (K.held sink.new) (line.old.items ++ encode_upper bytes.now ++ codes "\n")) }
    ensures calm { OnOk result (K.faults sink.new ≡ K.faults sink.old) }
    ensures later { Later (K.mark sink.old) (K.mark sink.new) (K.faults sink.old) (K.faults sink.new) }
    ensures cause { OnErr result (Rose (K.faults sink.old) (K.faults sink.new)) }
{
    if bytes.len() > (ROOM - 1 - line.len()) / 2 {
        return put_pieces(sink, line, bytes);
    }
    append_pairs(line, bytes);
    append(line, b"\n");
    write_all(sink, line)
}

/// Writes a line with this beginning that ends in bytes, piece by piece.
#[inline(never)]
fn put_pieces<K: Sink>(sink: &mut K, head: &[u8], bytes: &[u8]) -> Result<(), Failed>
    ensures ok { OnOk result (Put (K.held sink.old) (K.held sink.new) (head.now ++ encode_upper bytes.now ++ codes "\n")) }
    ensures missing { OnErr result (WroteLess (K.held sink.old) (K.held sink.new) (head.now ++ encode_upper bytes.now ++ codes "\n")) }
    ensures calm { OnOk result (K.faults sink.new ≡ K.faults sink.old) }
    ensures later { Later (K.mark sink.old) (K.mark sink.new) (K.faults sink.old) (K.faults sink.new) }
    ensures cause { OnErr result (Rose (K.faults sink.old) (K.faults sink.new)) }
{
    write_all(sink, head)?;
    put_hex(sink, bytes)?;
    write_all(sink, b"\n")
}

/// Writes the lines of words.
fn put_words<K: Sink>(sink: &mut K, words: &[WordOf]) -> Result<(), Failed>
    ensures ok { OnOk result (Put (K.held sink.old) (K.held sink.new) (flat_map word_text words.now)) }
    ensures missing { OnErr result (WroteLess (K.held sink.old) (K.held sink.new) (flat_map word_text words.now)) }
    ensures calm { OnOk result (K.faults sink.new ≡ K.faults sink.old) }
    ensures later { Later (K.mark sink.old) (K.mark sink.new) (K.faults sink.old) (K.faults sink.new) }
    ensures cause { OnErr result (Rose (K.faults sink.old) (K.faults sink.new)) }
{
    for word in words {
        put_word(sink, *word)?;
    }
    Ok(())
}

/// Writes the line of a word.
fn put_word<K: Sink>(sink: &mut K, word: WordOf) -> Result<(), Failed>
    ensures ok { OnOk result (Put (K.held sink.old) (K.held sink.new) (word_text word)) }
    ensures missing { OnErr result (WroteLess (K.held sink.old) (K.held sink.new) (word_text word)) }
    ensures calm { OnOk result (K.faults sink.new ≡ K.faults sink.old) }
    ensures later { Later (K.mark sink.old) (K.mark sink.new) (K.faults sink.old) (K.faults sink.new) }
    ensures cause { OnErr result (Rose (K.faults sink.old) (K.faults sink.new)) }
{
    write_all(sink, &word_line(word))
}
