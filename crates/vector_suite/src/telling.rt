//! The run of the forty cases, and the line that reports its result.
ghost use Rattle.std.specs.Prelude.{◌≡◌, Option};
ghost use Rattle.vector_suite.specs.Telling.{VectorsEnd, line_of};

use crate::forty::forty_cases;
use crate::table::run_table;
use arrayvec::ArrayVec;
use df1_base::{Failed, NoMemory, Sink, append, write_all};
use std::alloc::Global;
use thiserror::Error;

/// The reason why the line isn't written.
#[derive(Clone, Copy, Debug, PartialEq, Eq, Error)]
pub enum VectorsFault {
    /// The output has failed.
    #[error("the output failed")]
    Output,
    /// There is no memory left.
    #[error("no memory")]
    NoMemory,
}

/// The buffer size for the line, in bytes: a number of at most 20 digits, and the words.
const LINE: usize = 40;

/// Runs the forty cases, and writes a line that says that none differs, or the index of the first that does; returns
/// that index. Returns `Output` only if the output's count of faults rose; then a first part of the line was written.
/// With `NoMemory` nothing was.
pub fn write_vectors<K: Sink>(alloc: Global, out: &mut K) -> Result<Option<usize>, VectorsFault>
    ensures { VectorsEnd (K.held out.old) (K.held out.new) (K.faults out.old) (K.faults out.new) result }
{
    match run_table(alloc, &forty_cases()) {
        Ok(place) => match write_all(out, &line(place)) {
            Ok(()) => Ok(place),
            Err(Failed) => Err(VectorsFault::Output),
        },
        Err(NoMemory) => Err(VectorsFault::NoMemory),
    }
}

/// Returns the line for the index of the first case that differs, if one does.
fn line(place: Option<usize>) -> ArrayVec<u8, LINE>
    ensures { result.items ≡ line_of place }
{
    let mut line = ArrayVec::new();
    match place {
        None => append(&mut line, b"cases 40\n"),
        Some(place) => {
            append(&mut line, b"case ");
            append(
                &mut line,
                itoa::Buffer::new().format(place as u64).as_bytes(),
            );
            append(&mut line, b" differs\n");
        }
    }
    line
}
