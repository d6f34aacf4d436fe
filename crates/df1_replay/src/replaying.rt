//! The input is read piece by piece, and what a piece reports is written before the next is read.
ghost use Rattle.std.specs.Prelude.{◌≡◌, ◌⊎◌, ◌≢◌, [], ◌++◌, List, ℕ, Some, Err, OnOk, OnErr, IfErr, IsErrOf};
ghost use Rattle.std.specs.Io.KnownBytes.{Keeps};
ghost use Rattle.df1_base.specs.Outside.{Rose, Later};
ghost use Rattle.df1_buffer.specs.Buffered.{buffer_out, buffer_waiting, buffer_name, buffer_held, buffer_mark};
ghost use Rattle.line_script.specs.ScriptText.{script_of};
ghost use Rattle.line_replay.specs.Fed.{IsReplay, IsReplayOf, IsScript, ShowsFront, ShowsLess, ShowsMore, shown, told};
ghost use Rattle.line_script.specs.declared.fault.Cause.{Cause as Fault};
ghost use Rattle.df1_replay.specs.Replayed.{Replayed};
ghost use Rattle.df1_replay.specs.Outcome.{Answered, BrokenOff, CutOff, IsFromPiece, Refused, TellsRefusal, Written, replayed, result_of};
ghost use Rattle.df1_replay.specs.declared.fault.ReplayFault.{ReplayFault as Ending};

use crate::ReplayFault;
use df1_base::{Failed, Sink, Source};
use df1_buffer::Buffered;
use line_replay::{Replayer, StreamFault};
use line_script::{LINE, SCRIPT};
use std::alloc::Global;

/// The number of bytes that one read asks for.
const PIECE: usize = 4096;

/// Reads a script from the input, at most 4,096 bytes at a time, runs it and writes its report, in the order in which
/// things happen. For each piece that was read, first its lines' events happen, then the report's lines of these are
/// written, and then the next piece is read. Returns `Refusal` if no text that begins with the bytes taken is a script,
/// with its first faulty line and the first cause that fits it; `Input` and `Output` only if the count of faults of the
/// input or of the output rose. What was reported before is written; with `Output`, something is missing of what the
/// bytes taken report.
pub fn replay_input<S: Source, K: Sink>(
    alloc: Global,
    input: &mut S,
    out: &mut K,
) -> Result<(), ReplayFault>
    ensures done { OnOk result (Answered replayed (S.left input.old) (S.left input.new) (K.held out.old) (K.held out.new)) }
    ensures replayed { OnOk result (Replayed (S.left input.old) (S.left input.new) (K.held out.old) (K.held out.new)) }
    ensures calm { OnOk result (S.faults input.new ≡ S.faults input.old) }
    ensures refusal { IfErr result (TellsRefusal (Refused (S.left input.old) (S.left input.new) (K.held out.old) (K.held out.new) (S.faults input.old) (S.faults input.new))) }
    ensures input { IsErrOf result ReplayFault.Input → BrokenOff (S.left input.old) (S.left input.new) (K.held out.old) (K.held out.new) (S.faults input.old) (S.faults input.new) }
    ensures output { IsErrOf result ReplayFault.Output → Rose (K.faults out.old) (K.faults out.new) × (S.faults input.new ≡ S.faults input.old)
        × CutOff (S.left input.old) (S.left input.new) (K.held out.old) (K.held out.new) }
    ensures memory { IsErrOf result ReplayFault.NoMemory → S.faults input.new ≡ S.faults input.old }
    ensures steady { OnOk result (K.faults out.new ≡ K.faults out.old) }
    ensures steady_else { IfErr result (λ fault. fault ≢ Ending.Output → K.faults out.new ≡ K.faults out.old) }
    ensures written { Written told (S.left input.old) (S.left input.new) (K.held out.old) (K.held out.new) }
{
    let mut replayer = Replayer::new(alloc);
    let mut report = Buffered::new(out);
    replay_all(&mut replayer, &mut report, input)
}

/// Reads the whole script, piece by piece, into a replay that was fed nothing.
fn replay_all<S: Source, K: Sink>(
    replayer: &mut Replayer,
    report: &mut Buffered<'_, K>,
    input: &mut S,
) -> Result<(), ReplayFault>
    requires nothing { IsReplayOf [] replayer.old }
    requires none { buffer_waiting report.old ≡ [] }
    ensures same_reference { buffer_name report.new ≡ buffer_name report.old }
    ensures done { OnOk result (Answered replayed (S.left input.old) (S.left input.new) (K.held (buffer_out report.old)) (K.held (buffer_out report.new))) }
    ensures replayed { OnOk result (Replayed (S.left input.old) (S.left input.new) (K.held (buffer_out report.old)) (K.held (buffer_out report.new))) }
    ensures calm { OnOk result (S.faults input.new ≡ S.faults input.old) }
    ensures refusal { IfErr result (TellsRefusal (Refused (S.left input.old) (S.left input.new) (K.held (buffer_out report.old)) (K.held (buffer_out report.new)) (S.faults input.old) (S.faults input.new))) }
    ensures input { IsErrOf result ReplayFault.Input → BrokenOff (S.left input.old) (S.left input.new) (K.held (buffer_out report.old)) (K.held (buffer_out report.new)) (S.faults input.old) (S.faults input.new) }
    ensures output { IsErrOf result ReplayFault.Output → Rose (K.faults (buffer_out report.old)) (K.faults (buffer_out report.new)) × (S.faults input.new ≡ S.faults input.old)
        × CutOff (S.left input.old) (S.left input.new) (K.held (buffer_out report.old)) (K.held (buffer_out report.new)) }
    ensures memory { IsErrOf result ReplayFault.NoMemory → S.faults input.new ≡ S.faults input.old }
    ensures steady { OnOk result (K.faults (buffer_out report.new) ≡ K.faults (buffer_out report.old)) }
    ensures steady_else { IfErr result (λ fault. fault ≢ Ending.Output → K.faults (buffer_out report.new) ≡ K.faults (buffer_out report.old)) }
    ensures written { Written told (S.left input.old) (S.left input.new) (K.held (buffer_out report.old)) (K.held (buffer_out report.new)) }
{
    let mut piece = [0; PIECE];
    while replayer.fed() <= SCRIPT {
        let begun = replayer.held();
        prove!(begun <= LINE);
        match input.read(&mut piece) {
            Ok(0) => return close(replayer, report),
            Ok(count) => match go_on(replayer, &piece[..count], report) {
                Ok(()) => {}
                Err(fault) => return Err(fault),
            },
            Err(Failed) => return Err(ReplayFault::Input),
        }
    }
    unreachable!()
}

/// Plays the events of a piece, and writes the report's lines of them.
fn go_on<K: Sink>(
    replayer: &mut Replayer,
    piece: &[u8],
    report: &mut Buffered<'_, K>,
) -> Result<(), ReplayFault>
    requires replay { IsReplay replayer.old }
    requires none { buffer_waiting report.old ≡ [] }
    ensures same_reference { buffer_name report.new ≡ buffer_name report.old }
    ensures none { OnOk result (buffer_waiting report.new ≡ []) }
    ensures ok { (text : List ℕ) → IsReplayOf text replayer.old → OnOk result
        (IsReplayOf (text ++ piece.now) replayer.new × ShowsMore (shown text) (shown (text ++ piece.now)) (K.held (buffer_out report.old)) (K.held (buffer_out report.new))) }
    ensures refused { (text : List ℕ) → IsReplayOf text replayer.old → IfErr result (TellsRefusal (λ line cause. (more : List ℕ) → (script_of ((text ++ piece.now) ++ more) ≡ Err (line, cause)) × ShowsMore (shown text) (told ((text ++ piece.now) ++ more)) (K.held (buffer_out report.old)) (K.held (buffer_out report.new)))) }
    ensures front { (text : List ℕ) → IsReplayOf text replayer.old → OnErr result (ShowsFront (shown text) (told (text ++ piece.now)) (K.held (buffer_out report.old)) (K.held (buffer_out report.new))) }
    ensures missing { (text : List ℕ) → IsReplayOf text replayer.old → IsErrOf result ReplayFault.Output → ShowsLess (shown text) (told (text ++ piece.now)) (K.held (buffer_out report.old)) (K.held (buffer_out report.new)) }
    ensures known { IfErr result IsFromPiece }
    ensures output { IsErrOf result ReplayFault.Output → Rose (K.faults (buffer_out report.old)) (K.faults (buffer_out report.new)) }
    ensures steady { OnOk result (K.faults (buffer_out report.new) ≡ K.faults (buffer_out report.old)) }
    ensures steady_else { IfErr result (λ fault. fault ≢ Ending.Output → K.faults (buffer_out report.new) ≡ K.faults (buffer_out report.old)) }
{
    let fed = replayer.feed_all(piece, report);
    hand_on(fed, report)
}

/// Ends the script, and writes what follows.
fn close<K: Sink>(replayer: &mut Replayer, report: &mut Buffered<'_, K>) -> Result<(), ReplayFault>
    requires replay { IsReplay replayer.old }
    requires none { buffer_waiting report.old ≡ [] }
    ensures same_reference { buffer_name report.new ≡ buffer_name report.old }
    ensures ok { (text : List ℕ) → IsReplayOf text replayer.old → OnOk result (IsScript text × ShowsMore (shown text) (told text) (K.held (buffer_out report.old)) (K.held (buffer_out report.new))) }
    ensures refused { (text : List ℕ) → IsReplayOf text replayer.old → IfErr result (TellsRefusal (λ line cause. (script_of text ≡ Err (line, cause)) × ShowsMore (shown text) (told text) (K.held (buffer_out report.old)) (K.held (buffer_out report.new)))) }
    ensures front { (text : List ℕ) → IsReplayOf text replayer.old → OnErr result (ShowsFront (shown text) (told text) (K.held (buffer_out report.old)) (K.held (buffer_out report.new))) }
    ensures missing { (text : List ℕ) → IsReplayOf text replayer.old → IsErrOf result ReplayFault.Output → ShowsLess (shown text) (told text) (K.held (buffer_out report.old)) (K.held (buffer_out report.new)) }
    ensures known { IfErr result IsFromPiece }
    ensures output { IsErrOf result ReplayFault.Output → Rose (K.faults (buffer_out report.old)) (K.faults (buffer_out report.new)) }
    ensures steady { OnOk result (K.faults (buffer_out report.new) ≡ K.faults (buffer_out report.old)) }
    ensures steady_else { IfErr result (λ fault. fault ≢ Ending.Output → K.faults (buffer_out report.new) ≡ K.faults (buffer_out report.old)) }
{
    let ended = replayer.finish(report);
    hand_on(ended, report)
}

/// Writes the lines of a piece that still wait, and returns what else happened.
fn hand_on<K: Sink>(
    ended: Result<(), StreamFault>,
    report: &mut Buffered<'_, K>,
) -> Result<(), ReplayFault>
    ensures ends { (IsErrOf result ReplayFault.Output
        × (IsErrOf ended StreamFault.SinkFailed ⊎ ((buffer_waiting report.old ≢ []) × (buffer_waiting report.new ≢ []) × Rose (K.faults (buffer_out report.old)) (K.faults (buffer_out report.new)))))
        ⊎ ((result ≡ result_of ended) × ((buffer_waiting report.new ≡ []) × (K.faults (buffer_out report.new) ≡ K.faults (buffer_out report.old)))) }
    ensures kept { Keeps (buffer_held K.held report.old) (buffer_held K.held report.new) }
    ensures later { Later (buffer_mark K.held K.mark report.old) (buffer_mark K.held K.mark report.new) (K.faults (buffer_out report.old)) (K.faults (buffer_out report.new)) }
{
    if let Err(StreamFault::SinkFailed) = ended {
        return Err(ReplayFault::Output);
    }
    if let Err(Failed) = report.flush() {
        return Err(ReplayFault::Output);
    }
    match ended {
        Ok(()) => Ok(()),
        Err(fault) => Err(fault.into()),
    }
}
