//! Writing until all is written.
ghost use Rattle.std.specs.Prelude.{◌≡◌, OnOk, OnErr};
ghost use Rattle.df1_base.specs.Outside.{Rose, Put, WroteLess, WrotePart, Later};

use crate::{Failed, Sink};

/// Writes all the bytes. If the sink fails, a first part of them was written, and not all.
pub fn write_all<K: Sink>(sink: &mut K, bytes: &[u8]) -> Result<(), Failed>
    ensures ok { OnOk result (Put (K.held sink.old) (K.held sink.new) bytes.now) }
    ensures missing { OnErr result (WroteLess (K.held sink.old) (K.held sink.new) bytes.now) }
    ensures part { WrotePart (K.held sink.old) (K.held sink.new) bytes.now }
    ensures calm { OnOk result (K.faults sink.new ≡ K.faults sink.old) }
    ensures later { Later (K.mark sink.old) (K.mark sink.new) (K.faults sink.old) (K.faults sink.new) }
    ensures cause { OnErr result (Rose (K.faults sink.old) (K.faults sink.new)) }
{
    let mut rest = bytes;
    while !rest.is_empty() {
        let count = sink.write(rest)?;
        rest = &rest[count..];
    }
    Ok(())
}
