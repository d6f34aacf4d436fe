//! The call that locks data files of an end against commands of the line.

ghost use Rattle.std.specs.Prelude.{◌≡◌, Some};
ghost use Rattle.c_calls.specs.Behind.{code_at, with_change};
ghost use Rattle.c_calls.specs.Locks.{files_locked, lacks_file, lock_code};

use c_ends::{Code, Held};
use data_files::MAX_FILES;
use df1_node::Node;

/// Locks these data files, and unlocks all others: from now on a command of the line that would write a locked file is
/// refused. Returns `TooManyFiles` for over 256 numbers and `NoWord` if one is no file's; then nothing changes.
pub fn lock(held: &mut Held, files: &[u16]) -> Code
    ensures code { result ≡ code_at (Some held.old) (λ node. lock_code node files.now) }
    ensures after { held.new ≡ with_change (files_locked files.now) held.old }
{
    match held {
        Held::Decoder(_) => Code::NoHandle,
        Held::Duplex(end) => lock_at(end.host_mut(), files),
        Held::Master(end) => lock_at(end.host_mut().inner_mut(), files),
        Held::Slave(end) => lock_at(end.host_mut(), files),
    }
}

fn lock_at(node: &mut Node, files: &[u16]) -> Code
    ensures code { result ≡ lock_code node.old files.now }
    ensures after { node.new ≡ files_locked files.now node.old }
{
    if files.len() > MAX_FILES {
        return Code::TooManyFiles;
    }
    if lacks_file(node, files) {
        return Code::NoWord;
    }
    node.lock(files);
    Code::Done
}

/// Returns whether one of the numbers is not that of a file.
fn lacks_file(node: &Node, files: &[u16]) -> bool
    ensures { result ≡ lacks_file node.now files.now }
{
    let tables = node.tables();
    files.iter().any(|file| tables.spec(*file).is_none())
}
