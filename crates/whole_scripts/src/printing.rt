//! Writing the result of a run, in large pieces.
ghost use Rattle.std.specs.Prelude.{◌≡◌, [], OnErr, OnOk};
ghost use Rattle.df1_base.specs.Outside.{Later, Put, Rose, WroteLess};
ghost use Rattle.df1_buffer.specs.Buffered.{buffer_name, buffer_out, buffer_waiting};
ghost use Rattle.whole_scripts.specs.Texts.{IsTold, text_of};

use bulk_orders::{put_pull_result, put_push_result};
use bulk_transfer::Rehearsal;
use df1_base::{Failed, Sink};
use df1_buffer::Buffered;
use replay_report::{Record, print};

/// The result of a run that is to be written.
#[derive(Clone, Copy)]
pub(crate) enum Telling<'a> {
    /// The report of a run.
    Report(&'a Record),
    /// The report of a rehearsal, and the line of a transfer that reads.
    Pulled(&'a Rehearsal),
    /// The report of a rehearsal, and the line of a transfer that writes, of so many orders.
    Pushed(&'a Rehearsal, u16),
}

/// Writes the result of a run, in large pieces. Returns `Failed` if the sink failed; then it holds a first part of the
/// text, and not all.
pub(crate) fn write_by_pieces<K: Sink>(telling: Telling<'_>, out: &mut K) -> Result<(), Failed>
    requires { IsTold telling }
    ensures ok { OnOk result (Put (K.held out.old) (K.held out.new) (text_of telling.entry)) }
    ensures missing { OnErr result (WroteLess (K.held out.old) (K.held out.new) (text_of telling.entry)) }
    ensures calm { OnOk result (K.faults out.new ≡ K.faults out.old) }
    ensures cause { OnErr result (Rose (K.faults out.old) (K.faults out.new)) }
{
    let mut pieces = Buffered::new(out);
    hand_on(telling, &mut pieces)
}

/// Writes it into an empty buffer, and flushes the buffer.
fn hand_on<K: Sink>(telling: Telling<'_>, pieces: &mut Buffered<'_, K>) -> Result<(), Failed>
    requires told { IsTold telling }
    requires none { buffer_waiting pieces.old ≡ [] }
    ensures same_reference { buffer_name pieces.new ≡ buffer_name pieces.old }
    ensures ok { OnOk result (Put (K.held (buffer_out pieces.old)) (K.held (buffer_out pieces.new)) (text_of telling.entry)) }
    ensures missing { OnErr result (WroteLess (K.held (buffer_out pieces.old)) (K.held (buffer_out pieces.new)) (text_of telling.entry)) }
    ensures calm { OnOk result (K.faults (buffer_out pieces.new) ≡ K.faults (buffer_out pieces.old)) }
    ensures cause { OnErr result (Rose (K.faults (buffer_out pieces.old)) (K.faults (buffer_out pieces.new))) }
{
    tell(telling, pieces)?;
    pieces.flush()
}

/// Writes it part by part.
fn tell<K: Sink>(telling: Telling<'_>, sink: &mut K) -> Result<(), Failed>
    requires { IsTold telling }
    ensures ok { OnOk result (Put (K.held sink.old) (K.held sink.new) (text_of telling.entry)) }
    ensures missing { OnErr result (WroteLess (K.held sink.old) (K.held sink.new) (text_of telling.entry)) }
    ensures calm { OnOk result (K.faults sink.new ≡ K.faults sink.old) }
    ensures later { Later (K.mark sink.old) (K.mark sink.new) (K.faults sink.old) (K.faults sink.new) }
    ensures cause { OnErr result (Rose (K.faults sink.old) (K.faults sink.new)) }
{
    match telling {
        Telling::Report(record) => print(record, sink),
        Telling::Pulled(rehearsal) => {
            print(&rehearsal.report, sink)?;
            put_pull_result(sink, rehearsal.bulk, rehearsal.words.as_slice())
        }
        Telling::Pushed(rehearsal, orders) => {
            print(&rehearsal.report, sink)?;
            put_push_result(sink, rehearsal.bulk, orders)
        }
    }
}
